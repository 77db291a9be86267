// What the program prints of a log beside its report: the tables of state times, of quantities and of losses, and why a log is refused, in
// words. No public call has a `requires`. A buffer and a place: see `filling`.
#![tactic(auto)]

ghost use Rattle.std.specs.Prelude.{◌≡◌, ◌+◌, ◌<◌, ◌≤◌, length};
ghost use Rattle.records.specs.Log.{decode};
ghost use Rattle.e79.specs.Quantities.{Ordered};
ghost use Rattle.rules.specs.Answers.{verdict_of};
ghost use Rattle.losses.specs.Losses.{together};
ghost use Rattle.filling.specs.Buffer.{Put, AtFront};
ghost use Rattle.report.specs.Report.{joined};
ghost use Rattle.reporting.specs.Reports.{Prints};
ghost use Rattle.printing.specs.Tables.{number, numbers, fraction, bar, heading_of, told, line_in, tool_in, table_text};
ghost use Rattle.printing.specs.Words.{words_by, in_words};

use e79::Quantities;
use judging::Account;
use losses::Losses;
use rules::{Refusal, StateTimes};

// What a table tells of each module and of the tool: the six state times, or the five quantities, in ms, or the four losses and OEE, with four
// places. An enum and no closure: a caller names its table, and by that name the table's text is defined.
#[derive(Clone, Copy)]
pub enum Table {
    Times,
    Quantities,
    Losses,
}

impl Table {
    // The first line.
    #[tactic(auto, unfolding(crate::specs::Tables::heading_of))]
    fn heading(self) -> &'static [u8]
        ensures { result.now ≡ heading_of self }
    {
        match self {
            Table::Times =>
                b"module productive standby engineering scheduled unscheduled nonscheduled\n",
            Table::Quantities => b"module total uptime production actual effective\n",
            Table::Losses => b"module availability operational rate quality oee\n",
        }
    }
}

// A space and a number.
fn put_number(buf: &mut [u8], at: usize, v: u64) -> usize
    requires { at + length (number v) ≤ length buf.old }
    ensures { Put (number v) buf.old at result buf.new }
{
    let space = filling::put_text(buf, at, b" ");
    report::put_decimal(buf, space, v)
}

// The numbers of a line and its end.
fn put_numbers(buf: &mut [u8], at: usize, values: &[u64]) -> usize
    requires { at + length (numbers values.now) ≤ length buf.old }
    ensures { Put (numbers values.now) buf.old at result buf.new }
{
    let mut next = at;
    for v in values {
        next = put_number(buf, next, *v);
    }
    filling::put_text(buf, next, b"\n")
}

// A space and ten-thousandths with four places.
fn put_fraction(buf: &mut [u8], at: usize, p: u64) -> usize
    requires { (p ≤ 10000) × (at + 7 ≤ length buf.old) }
    ensures put { Put (fraction p) buf.old at result buf.new }
    ensures size { result ≡ at + 7 }
{
    let space = filling::put_text(buf, at, b" ");
    report::put_places(buf, space, p)
}

// The four losses and OEE, and the line's end. Each name is the place behind that part.
#[tactic(auto, using(crate::proofs::Numbers::bar_length))]
fn put_bar(buf: &mut [u8], at: usize, s: Losses) -> usize
    requires adds_up { together s ≡ 10000 }
    requires in_bounds { at + length (bar s) ≤ length buf.old }
    ensures { Put (bar s) buf.old at result buf.new }
{
    let availability = put_fraction(buf, at, s.availability);
    let operational = put_fraction(buf, availability, s.operational);
    let rate = put_fraction(buf, operational, s.rate);
    let quality = put_fraction(buf, rate, s.quality);
    let oee = put_fraction(buf, quality, s.oee);
    filling::put_text(buf, oee, b"\n")
}

// What a table tells, and the line's end. The caller owes the room, and that the quantities are ordered. The one switch on a table, beside
// `heading`: six numbers, or five, or a bar, so no closure of one type.
fn put_told(buf: &mut [u8], at: usize, table: Table, t: StateTimes, q: Quantities) -> usize
    requires ordered { Ordered q }
    requires in_bounds { at + length (told table t q) ≤ length buf.old }
    ensures { Put (told table t q) buf.old at result buf.new }
{
    match table {
        Table::Times => put_numbers(buf, at, &<[u64; 6]>::from(t)),
        Table::Quantities => put_numbers(buf, at, &<[u64; 5]>::from(q)),
        Table::Losses => put_bar(buf, at, losses::losses_of_ordered(q)),
    }
}

// The line of module m. The caller owes the room. Table and account go side by side: the definitions take them so (`line_in`, `tool_in`, `table_text`).
fn put_line(buf: &mut [u8], at: usize, table: Table, account: &Account<'_>, m: usize) -> usize
    requires m_bound { m < (decode account.now.log.bytes.now).modules }
    requires m_in_bounds { at + length (line_in table (decode account.now.log.bytes.now) m) ≤ length buf.old }
    ensures { Put (line_in table (decode account.now.log.bytes.now) m) buf.old at result buf.new }
{
    let number = report::put_decimal(buf, at, m as u64);
    put_told(
        buf,
        number,
        table,
        account.module_times(m),
        account.module_quantities(m),
    )
}

// The modules' lines. The caller owes the room.
fn put_lines(buf: &mut [u8], at: usize, table: Table, account: &Account<'_>) -> usize
    requires { at + length (joined (line_in table (decode account.now.log.bytes.now)) (decode account.now.log.bytes.now).modules) ≤ length buf.old }
    ensures { Put (joined (line_in table (decode account.now.log.bytes.now)) (decode account.now.log.bytes.now).modules) buf.old at result buf.new }
{
    let mut next = at;
    // By number, which each line begins with.
    for m in 0..account.modules() {
        next = put_line(buf, next, table, account, m);
    }
    next
}

// The tool's line. The caller owes the room.
fn put_tool_line(buf: &mut [u8], at: usize, table: Table, account: &Account<'_>) -> usize
    requires { at + length (tool_in table (decode account.now.log.bytes.now)) ≤ length buf.old }
    ensures { Put (tool_in table (decode account.now.log.bytes.now)) buf.old at result buf.new }
{
    let name = filling::put_text(buf, at, b"tool");
    put_told(
        buf,
        name,
        table,
        account.tool_times(),
        account.tool_quantities(),
    )
}

// The whole table, put at the front of the buffer. The caller owes the room.
fn put_table(buf: &mut [u8], table: Table, account: &Account<'_>) -> usize
    requires { length (table_text table (decode account.now.log.bytes.now)) ≤ length buf.old }
    ensures { Put (table_text table (decode account.now.log.bytes.now)) buf.old 0 result buf.new }
{
    let lines = filling::put_text(buf, 0, table.heading());
    let tool = put_lines(buf, lines, table, account);
    put_tool_line(buf, tool, table, account)
}

// Writes a table of the log to the front of the buffer and answers its length: the table, or the line that says why the log is refused. 5,000 bytes hold
// every table.
pub fn print_table(table: Table, log: &[u8], buf: &mut [u8; 5000]) -> usize
    ensures { Prints (table_text table) 5000 log.now buf.old result buf.new }
{
    match &judging::judge_log(log) {
        Ok(account) => put_table(buf, table, account),
        Err(x) => report::put_refused_line(buf, *x),
    }
}

// Writes why a call refuses, in words, to the front of the buffer and answers the line's length: 0, and no byte changed, where it answers a value.
pub fn put_words<T>(answer: &Result<T, Refusal>, buf: &mut [u8; 512]) -> usize
    ensures { AtFront (words_by (verdict_of answer.now)) 512 buf.old result buf.new }
{
    match answer {
        Ok(_) => 0,
        Err(x) => card::words_of(*x, buf),
    }
}

// Writes why the log is refused, in words, to the front of the buffer and answers the line's length: 0, and no byte changed, for an accepted log.
pub fn print_words(log: &[u8], buf: &mut [u8; 512]) -> usize
    ensures { AtFront (in_words log.now) 512 buf.old result buf.new }
{
    put_words(&judging::judge_log(log), buf)
}
