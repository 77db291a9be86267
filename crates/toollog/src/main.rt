// One command for a log: its report, its state times, its quantities, its losses, the units credited to each standard, its supplemental figures, one log of two, a log
// packed, and what a refusal means.
// That a name is at most 4,096 bytes stands in six contracts: see `saying`.
#![tactic(auto)]

ghost use Rattle.std.specs.Prelude.{ℕ, ◌≤◌, length, IfSome};

use reading::{ENAMETOOLONG, Named};
use std::env::FillError;
use std::io;
use std::rt::Env;
use tool_log::{Refusal, Table};

fn help(out: &impl Print) {
    let _ = out.write_all(
        b"\
toollog report [LOG]                  the four efficiencies and OEE of each module and of the tool\n\
toollog times [LOG]                   their six state times, in ms\n\
toollog quantities [LOG]              their total time, uptime, production time and theoretical times, in ms\n\
toollog losses [LOG]                  what total time went to: availability, operational, rate and quality loss, and OEE, which make 1.0000\n\
toollog credited [LOG]                the actual units credited to each standard: its index and its units, a line for each\n\
toollog supplemental LOG BENCHMARKS   the four supplemental figures of the tool: reference, optimized, value-added, total effective units\n\
toollog join FIRST SECOND RESULT      one log of two consecutive ones, into the file RESULT\n\
toollog pack LOG RESULT               the log without records that say nothing new, into the file RESULT\n\
toollog explain N                     what refusal N means, and what to look for\n\
toollog help                          this text\n\
\n\
LOG is the name of a file. Left out, or -, it is standard input.\n\
BENCHMARKS is the name of a file with 14 bytes for each standard of the log; - is standard input.\n\
FIRST and SECOND are the names of files with logs; - is standard input. RESULT is the name of a file, which a refusal leaves as it was. It may be LOG.\n\
A refused log prints 'refused N list L at P', and why in words on standard error.\n",
    );
}

// Writes to standard output, and says so where that fails.
fn put_out(rt: HostRuntime, text: &[u8]) {
    if let Err(why) = rt.write_all(text) {
        saying::fail(&rt.stderr(), b"standard output", &why);
    }
}

fn complain(rt: HostRuntime, name: &[u8], reason: &[u8])
    requires { length name.now ≤ 4096 }
{
    saying::complain(&rt.stderr(), name, reason);
}

// Whether there is an argument i.
fn has_argument(rt: HostRuntime, i: usize) -> bool {
    let mut text = [0u8; 1];
    !matches!(rt.arg(i, &mut text), Err(FillError::NotPresent))
}

// Whether there is an argument `most` or a later one. It says that this is one too many.
fn has_too_many(rt: HostRuntime, most: usize) -> bool {
    if !has_argument(rt, most) {
        return false;
    }
    let mut text = [0u8; 4096];
    let n = rt.arg(most, &mut text).unwrap_or(0);
    complain(rt, &text[..n], b"an argument too many\n");
    true
}

// Complains of this name in the words that a step puts at the front of an array, and answers whether it put any.
fn complains<F: FnOnce(&mut [u8; 512]) -> usize>(rt: HostRuntime, name: &[u8], put: F) -> bool
    requires short { length name.now ≤ 4096 }
    requires callable { F.IsAlwaysCallable put }
    requires within { (before after : _) (n : ℕ) → F.post put before n after → n ≤ 512 }
{
    let mut space = [0u8; 512];
    let size = put(&mut space);
    if size == 0 {
        return false;
    }
    complain(rt, name, &space[..size]);
    true
}

// ---- what is asked of a log

// The four that print stay four: their arrays differ in size, and a closure's bound that names a const parameter gets no proof.
fn print_report(rt: HostRuntime, log: &[u8]) {
    let mut space = [0u8; 2494];
    let size = tool_log::print_report(log, &mut space);
    put_out(rt, &space[..size]);
}

fn print_table(rt: HostRuntime, table: Table, log: &[u8]) {
    let mut space = [0u8; 5000];
    let size = tool_log::print_table(table, log, &mut space);
    put_out(rt, &space[..size]);
}

fn print_credited(rt: HostRuntime, log: &[u8]) {
    let mut space = [0u8; 7168];
    let size = tool_log::print_credited(log, &mut space);
    put_out(rt, &space[..size]);
}

// Prints why a log is refused, if it is, and answers whether it is.
fn print_words(rt: HostRuntime, log: Named) -> bool {
    complains(
        rt,
        log.name,
        |space| tool_log::print_words(log.bytes, space),
    )
}

// The longest log takes 63,130 bytes: one byte more is enough to see that a log is too long.
fn answer<F: FnOnce(&[u8])>(rt: HostRuntime, print: F)
    requires { F.IsAlwaysCallable print }
{
    if has_too_many(rt, 3) {
        return;
    }
    let mut name = [0u8; 4096];
    let mut input = [0u8; 63131];
    if let Some(log) = reading::read_log(&rt, &rt.stderr(), 2, &mut name, &mut input) {
        print(log.bytes);
        print_words(rt, log);
    }
}

// ---- the supplemental figures

// The figures of the log by these benchmarks, and why the log is refused, or else the benchmarks, if one of them is.
fn print_supplemental(rt: HostRuntime, log: Named, benchmarks: Named) {
    let mut space = [0u8; 96];
    let size = tool_log::print_supplemental(log.bytes, benchmarks.bytes, &mut space);
    put_out(rt, &space[..size]);
    if !print_words(rt, log) {
        complains(rt, benchmarks.name, |space| {
            tool_log::print_supplemental_words(log.bytes, benchmarks.bytes, space)
        });
    }
}

// Whether argument i is `-`.
fn is_input(rt: HostRuntime, i: usize) -> bool {
    let mut text = [0u8; 2];
    let n = rt.arg(i, &mut text).unwrap_or(0);
    matches!(&text[..n], b"-")
}

// The benchmarks of the longest log take 7,168 bytes.
fn read_both(rt: HostRuntime) {
    let mut name = [0u8; 4096];
    let mut input = [0u8; 63131];
    let Some(log) = reading::read_log(&rt, &rt.stderr(), 2, &mut name, &mut input) else {
        return;
    };
    let mut source = [0u8; 4096];
    let mut space = [0u8; 7169];
    if let Some(benchmarks) = reading::read_log(&rt, &rt.stderr(), 3, &mut source, &mut space) {
        print_supplemental(rt, log, benchmarks);
    }
}

fn supplemental(rt: HostRuntime) {
    if has_too_many(rt, 4) {
        return;
    }
    if !has_argument(rt, 3) {
        complain(rt, b"supplemental", b"LOG and BENCHMARKS are needed\n");
    } else if is_input(rt, 2) && is_input(rt, 3) {
        complain(rt, b"supplemental", b"standard input cannot be both\n");
    } else {
        read_both(rt);
    }
}

// ---- logs made of logs

fn put_refusal(rt: HostRuntime, x: Refusal) {
    let mut space = [0u8; 80];
    let size = report::put_refused_line(&mut space, x);
    put_out(rt, &space[..size]);
}

// Whether argument i is `-`, or nothing.
fn names_no_file(rt: HostRuntime, i: usize) -> bool {
    let mut text = [0u8; 1];
    is_input(rt, i) || matches!(rt.arg(i, &mut text), Ok(0))
}

// The name of a result. Where it is too long, it says so.
fn read_path<'a>(rt: HostRuntime, i: usize, path: &'a mut [u8; 4096]) -> Option<&'a [u8]>
    ensures { IfSome result (λ p. length p.now ≤ 4096) }
{
    match rt.arg(i, path) {
        Ok(n) => Some(&path[..n]),
        Err(_) => {
            saying::fail(
                &rt.stderr(),
                path,
                &io::Error::from_raw_os_error(ENAMETOOLONG),
            );
            None
        }
    }
}

// ---- one log of two

// Prints why a join is refused. In words: of the first log or of the second, where that one is, and else of the log that they would make.
fn refuse(rt: HostRuntime, first: Named, second: Named, path: &[u8], x: Refusal)
    requires { length path.now ≤ 4096 }
{
    put_refusal(rt, x);
    if !print_words(rt, first) && !print_words(rt, second) {
        complains(rt, path, |space| tool_log::words_of(x, space));
    }
}

// Every joined log has at most 63,130 bytes.
fn join_into(rt: HostRuntime, first: Named, second: Named, path: &[u8])
    requires { length path.now ≤ 4096 }
{
    let mut space = [0u8; 63130];
    match tool_log::join_logs(first.bytes, second.bytes, &mut space) {
        Ok(size) => {
            saving::save(&rt, &rt.stderr(), path, &space[..size]);
        }
        Err(x) => refuse(rt, first, second, path, x),
    }
}

fn join_named(rt: HostRuntime, first: Named, second: Named) {
    let mut path = [0u8; 4096];
    if let Some(path) = read_path(rt, 4, &mut path) {
        join_into(rt, first, second, path);
    }
}

fn read_two(rt: HostRuntime) {
    let mut name = [0u8; 4096];
    let mut input = [0u8; 63131];
    let Some(first) = reading::read_log(&rt, &rt.stderr(), 2, &mut name, &mut input) else {
        return;
    };
    let mut other = [0u8; 4096];
    let mut space = [0u8; 63131];
    if let Some(second) = reading::read_log(&rt, &rt.stderr(), 3, &mut other, &mut space) {
        join_named(rt, first, second);
    }
}

fn join(rt: HostRuntime) {
    if has_too_many(rt, 5) {
        return;
    }
    if !has_argument(rt, 4) {
        complain(rt, b"join", b"FIRST, SECOND and RESULT are needed\n");
    } else if is_input(rt, 2) && is_input(rt, 3) {
        complain(rt, b"join", b"standard input cannot be both\n");
    } else if names_no_file(rt, 4) {
        complain(rt, b"join", b"RESULT has to be the name of a file\n");
    } else {
        read_two(rt);
    }
}

// ---- a log packed

// Saves the packed log, and prints what packing did.
fn save_packed(rt: HostRuntime, log: &[u8], packed: &[u8], path: &[u8])
    requires { length path.now ≤ 4096 }
{
    if saving::save(&rt, &rt.stderr(), path, packed) {
        let mut space = [0u8; 144];
        let size = tool_log::print_packing(log, packed, &mut space);
        put_out(rt, &space[..size]);
    }
}

// The log is packed in a copy of its own length, since its lengths before and after are printed.
fn pack_into(rt: HostRuntime, log: Named, path: &[u8])
    requires short { length path.now ≤ 4096 }
    requires within { length log.bytes.now ≤ 63131 }
{
    let mut space = [0u8; 63131];
    let copy = &mut space[..log.bytes.len()];
    copy.copy_from_slice(log.bytes);
    match tool_log::pack_log(copy) {
        Ok(size) => save_packed(rt, log.bytes, &copy[..size], path),
        Err(x) => {
            put_refusal(rt, x);
            print_words(rt, log);
        }
    }
}

fn read_one(rt: HostRuntime) {
    let mut name = [0u8; 4096];
    let mut input = [0u8; 63131];
    let Some(log) = reading::read_log(&rt, &rt.stderr(), 2, &mut name, &mut input) else {
        return;
    };
    let mut path = [0u8; 4096];
    if let Some(path) = read_path(rt, 3, &mut path) {
        pack_into(rt, log, path);
    }
}

fn pack(rt: HostRuntime) {
    if has_too_many(rt, 4) {
        return;
    }
    if !has_argument(rt, 3) {
        complain(rt, b"pack", b"LOG and RESULT are needed\n");
    } else if names_no_file(rt, 3) {
        complain(rt, b"pack", b"RESULT has to be the name of a file\n");
    } else {
        read_one(rt);
    }
}

// ---- what a refusal means

fn explain_number(rt: HostRuntime, text: &[u8], number: u64)
    requires { length text.now ≤ 4096 }
{
    let mut space = [0u8; 512];
    match tool_log::explain(number as usize, &mut space) {
        0 => complain(rt, text, b"no refusal has this number\n"),
        size => put_out(rt, &space[..size]),
    }
}

fn explain_text(rt: HostRuntime, text: &[u8])
    requires { length text.now ≤ 4096 }
{
    match parsing::parse_number(text) {
        Some(n) => explain_number(rt, text, n),
        None => complain(rt, text, b"not a number\n"),
    }
}

fn explain(rt: HostRuntime) {
    if has_too_many(rt, 3) {
        return;
    }
    let mut text = [0u8; 4096];
    match rt.arg(2, &mut text) {
        Ok(n) => explain_text(rt, &text[..n]),
        Err(FillError::TooLong) => complain(rt, &text, b"not a number\n"),
        Err(FillError::NotPresent) => {
            complain(rt, b"explain", b"which refusal? its number is missing\n");
        }
    }
}

// ---- the subcommands

fn run(rt: HostRuntime, word: &[u8]) {
    match word {
        b"report" => answer(rt, |log| print_report(rt, log)),
        b"times" => answer(rt, |log| print_table(rt, Table::Times, log)),
        b"quantities" => answer(rt, |log| print_table(rt, Table::Quantities, log)),
        b"losses" => answer(rt, |log| print_table(rt, Table::Losses, log)),
        b"credited" => answer(rt, |log| print_credited(rt, log)),
        b"supplemental" => supplemental(rt),
        b"join" => join(rt),
        b"pack" => pack(rt),
        b"explain" => explain(rt),
        b"help" => {
            if !has_too_many(rt, 2) {
                help(&rt.stdout());
            }
        }
        _ => help(&rt.stderr()),
    }
}

// A word that is longer than every subcommand is none of them.
fn main(rt: HostRuntime) {
    let mut word = [0u8; 16];
    let n = rt.arg(1, &mut word).unwrap_or(0);
    run(rt, &word[..n]);
}
