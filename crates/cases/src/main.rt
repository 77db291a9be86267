// Runs the cases that standard input holds, and prints the name of each whose answer differs from what is expected, then how many it ran. The cases
// named "on purpose" expect what is wrong: they have to be told.
//
// Input: the number of cases in 2 bytes; then for each
// - its kind in 1 byte, the call that is run. 0: `report`, with the verdict of `examine`. The state times, 1 of a module, 2 of the tool; the
//   quantities, 3 of a module, 4 of the tool; the set of doubles, 5 of a module, 6 of the tool; the losses, 7 of a module, 8 of the tool.
//   9: `write_report`. 10: `print_report`. 11: the supplemental figures;
// - the length of its name in 1 byte;
// - in 4 bytes each what the call is asked for beside the log (0, 9: how many bytes of a buffer are lent; 1, 3, 5, 7: the module; 11: how many bytes are
//   the log's, behind which its benchmarks stand), the length of the log and that of what is expected;
// - the name, the log, and what is expected. Of 0, 9 and 10 that is a text: the report, or the line of the refusal, or nothing where `write_report`
//   refuses. Of 1 to 8 and of 11 it is seven numbers of 8 bytes, as numbers.rt has them.
// The kind stays the input's number, in two switches: an enum would be made of it by a third.
#![tactic(auto)]

mod buffer;
mod numbers;
mod texts;

ghost use Rattle.std.specs.Prelude.{◌≡◌, ◌≤◌, true};
ghost use Rattle.cases.specs.Numbers.{Numbers};
ghost use Rattle.cases.specs.Right.{measured_in, Right};

use std::io;

// The first n bytes, or all of them where there are fewer, and those behind them.
fn cut(data: &[u8], n: usize) -> (&[u8], &[u8]) {
    data.split_at(n.min(data.len()))
}

// The number in the first n bytes, and the bytes behind it.
fn number(data: &[u8], n: usize) -> (usize, &[u8])
    requires { n ≤ 8 }
{
    let (bytes, rest) = cut(data, n);
    (bits::read_field(bytes, 0, 8 * n) as usize, rest)
}

// Whether the first bytes are a log and the others benchmarks whose supplemental figures are the expected ones.
fn measures(both: &[u8], size: usize, expected: &[u8]) -> bool
    ensures { result ≡ true → Numbers expected.now (measured_in both.now size) }
{
    let (log, benchmarks) = both.split_at(size.min(both.len()));
    numbers::measured_as_expected(log, benchmarks, expected)
}

// Whether a case is answered as expected. Behind the part of a buffer that is lent stand 32 bytes more.
fn as_expected(kind: usize, log: &[u8], asked: usize, expected: &[u8]) -> bool
    ensures { result ≡ true → Right kind log.now asked expected.now }
{
    let mut space = [0u8; 4128];
    let room = asked.min(4096);
    match kind {
        0 => texts::reports(log, &mut space[..room + 32], room, expected),
        1..=8 => numbers::as_expected(kind, log, asked, expected),
        9 => texts::writes(log, &mut space[..room + 32], room, expected),
        10 => texts::prints(log, expected),
        11 => measures(log, asked, expected),
        _ => false,
    }
}

// Runs the case at the front, and answers the bytes behind it.
fn run_case<'a>(out: &impl Print, data: &'a [u8]) -> io::Result<&'a [u8]> {
    let (kind, rest) = number(data, 1);
    let (title, rest) = number(rest, 1);
    let (asked, rest) = number(rest, 4);
    let (size, rest) = number(rest, 4);
    let (length, rest) = number(rest, 4);
    let (name, rest) = cut(rest, title);
    let (log, rest) = cut(rest, size);
    let (expected, rest) = cut(rest, length);
    if !as_expected(kind, log, asked, expected) {
        out.write_all(name)?;
        out.write_all(b" differs\n")?;
    }
    Ok(rest)
}

// Runs every case, and answers how many there are.
fn run_all(out: &impl Print, data: &[u8]) -> io::Result<usize> {
    let (count, mut rest) = number(data, 2);
    for _ in 0..count {
        rest = run_case(out, rest)?;
    }
    Ok(count)
}

fn main(rt: HostRuntime) -> io::Result<()> {
    let mut space = [0u8; 400000];
    let n = reading::read_full(&mut rt.stdin(), &mut space)?;
    let count = run_all(&rt, &space[..n])?;
    println!(rt; "{count} cases run")
}
