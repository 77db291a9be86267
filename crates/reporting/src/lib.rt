// The verdict on a log and a buffer's length, the report written into a buffer, and what the shift program prints. No public call has a `requires`.
// A buffer and a place: see `filling`.
#![tactic(auto)]

ghost use Rattle.std.specs.Prelude.{◌≡◌, ◌+◌, ◌*◌, ◌≤◌, length};
ghost use Rattle.records.specs.Log.{decode};
ghost use Rattle.rules.specs.Quantities.{of_module};
ghost use Rattle.filling.specs.Buffer.{Put};
ghost use Rattle.report.specs.Report.{module_lines};
ghost use Rattle.reporting.specs.Reports.{report_text, Examined, Written, HandedBack, Prints};

use judging::Account;
use rules::{Ground, LogList, Refusal};

// How many bytes the modules' lines take.
fn lines_length(account: &Account<'_>) -> usize
    ensures { (result ≡ length (module_lines (of_module (decode account.now.log.bytes.now)) (decode account.now.log.bytes.now).modules)) × (result ≤ 38 * (decode account.now.log.bytes.now).modules) }
{
    let mut size: usize = 0;
    // By number, which each line begins with.
    for m in 0..account.modules() {
        size += report::module_line_length(m, account.module_quantities(m));
    }
    size
}

// How many bytes the report takes.
fn report_length(account: &Account<'_>) -> usize
    ensures { result ≡ length (report_text (decode account.now.log.bytes.now)) }
{
    32 + lines_length(account) + report::tool_line_length(account.tool_quantities())
}

// Acceptance of a log and a buffer of `room` bytes for its report, or the refusal.
pub fn examine(log: &[u8], room: usize) -> Result<(), Refusal>
    ensures { Examined log.now room result }
{
    match &judging::judge_log(log) {
        Ok(account) => {
            Ground::ShortBuffer.refuses(room < report_length(account), LogList::NoList, 0)
        }
        Err(x) => Err(*x),
    }
}

// The modules' lines, put into the buffer from `at` on. Alike `put_lines` of `printing` but for the line: a function over that step would be longer, since
// it owes the room of every line.
fn put_lines(buf: &mut [u8], at: usize, account: &Account<'_>) -> usize
    requires { at + length (module_lines (of_module (decode account.now.log.bytes.now)) (decode account.now.log.bytes.now).modules) ≤ length buf.old }
    ensures { Put (module_lines (of_module (decode account.now.log.bytes.now)) (decode account.now.log.bytes.now).modules) buf.old at result buf.new }
{
    let mut next = at;
    // By number, which each line begins with.
    for m in 0..account.modules() {
        next = report::put_module_line(buf, next, m, account.module_quantities(m));
    }
    next
}

// The whole report, put at the front of the buffer.
fn put_report(buf: &mut [u8], account: &Account<'_>) -> usize
    requires { length (report_text (decode account.now.log.bytes.now)) ≤ length buf.old }
    ensures { Put (report_text (decode account.now.log.bytes.now)) buf.old 0 result buf.new }
{
    let lines = report::put_heading(buf, 0);
    let tool = put_lines(buf, lines, account);
    report::put_tool_line(buf, tool, account.tool_quantities())
}

// Writes the report to the front of the buffer and answers its length: 0, and no byte changed, in just the cases that `examine` refuses for the
// buffer's length.
pub fn write_report(log: &[u8], buf: &mut [u8]) -> usize
    ensures { Written log.now buf.old result buf.new }
{
    let judged = judging::judge_log(log);
    let Ok(account) = &judged else {
        return 0;
    };
    if buf.len() < report_length(account) {
        return 0;
    }
    put_report(buf, account)
}

// Writes the report to the front of the buffer and hands that written part back, empty in just the cases that `examine` refuses for the buffer's
// length. It begins where the buffer begins; `write_report` says what the bytes behind it hold.
pub fn report<'a>(log: &[u8], buf: &'a mut [u8]) -> &'a mut [u8]
    ensures { HandedBack log.now buf.old buf.entry.ref_ptr result.ref_ptr result.now }
{
    let n = write_report(log, buf);
    &mut buf[..n]
}

// Writes what the shift program prints to the front of the buffer and answers its length: the report, or the line that says why the log is refused.
// The longest report takes 2,494 bytes. The match of `print_table` and `print_supplemental` too: a function over the step that writes would be longer than
// its two arms.
pub fn print_report(log: &[u8], buf: &mut [u8; 2494]) -> usize
    ensures { Prints report_text 2494 log.now buf.old result buf.new }
{
    match &judging::judge_log(log) {
        Ok(account) => put_report(buf, account),
        Err(x) => report::put_refused_line(buf, *x),
    }
}
