// One log of two consecutive ones, written into a lent buffer. The public call has no `requires`.
// A buffer and a place: see `filling`.
#![tactic(auto)]

mod moved;
mod standards;

ghost use Rattle.std.specs.Prelude.{◌≡◌, ◌+◌, ◌*◌, ◌≤◌, length, take, drop, MatchResult};
ghost use Rattle.std.specs.declared.result.Result.TheVariants.{Ok, Err};
ghost use Rattle.filling.specs.Buffer.{Put};
ghost use Rattle.records.specs.Log.{decode};
ghost use Rattle.records.specs.Whole.{units_begin};
ghost use Rattle.rules.specs.Answers.{answer_of};
ghost use Rattle.rules.specs.SameRecords.{Bytes};
ghost use Rattle.rules.specs.Verdict.{verdict};
ghost use Rattle.joined.specs.Joins.{joined_bytes, join_grounds, of_second, Joins};
ghost use Rattle.joining.specs.Parts.{joined_header, header_verdict, InBounds};

use judging::Account;
use records::{Header, WholeLog};
use rules::{Ground, LogList, Refusal};

// The header of the joined log: 23 where the module counts differ, then 2 and 4 for the two together.
fn join_headers(a: Header, b: Header) -> Result<Header, Refusal>
    requires first { InBounds a }
    requires second { InBounds b }
    ensures { result ≡ answer_of (header_verdict a b) (joined_header a b) }
{
    let h = Header {
        period: a.period + b.period,
        modules: a.modules,
        states: a.states + b.states,
        standards: a.standards + b.standards,
        units: a.units + b.units,
    };
    Ground::UnlikeTools.refuses(a.modules != b.modules, LogList::NoList, 0)?;
    Ground::Period.refuses(31622400000 < h.period, LogList::NoList, 0)?;
    let many = 6000 < h.states || (512 < h.standards || 2000 < h.units);
    Ground::Counts.refuses(many, LogList::NoList, 0)?;
    Ok(h)
}

// The second log judged: its refusals are told of the second log's lists.
fn judge_second(log: &[u8]) -> Result<Account<'_>, Refusal>
    ensures { MatchResult result (λ a. a.log.bytes ≡ log.entry) (λ x. of_second (verdict log.entry.now) ≡ Err x) }
{
    match judging::judge_log(log) {
        Ok(account) => Ok(account),
        Err(x) => Err(Refusal {
            list: x.list.of_second(),
            ..x
        }),
    }
}

// A log's state records, as they stand.
fn copy_states(buf: &mut [u8], at: usize, log: WholeLog) -> usize
    requires { at + 6 * log.header.states ≤ length buf.old }
    ensures place { result ≡ at + 6 * log.entry.header.states }
    ensures put { Put (take (6 * log.entry.header.states) (drop 10 log.entry.bytes.now)) buf.old at result buf.new }
{
    filling::put_text(buf, at, &log.bytes[10..10 + 6 * log.header.states])
}

// Its unit records.
fn copy_units(buf: &mut [u8], at: usize, log: WholeLog) -> usize
    requires { at + 11 * log.header.units ≤ length buf.old }
    ensures place { result ≡ at + 11 * log.entry.header.units }
    ensures put { Put (drop (units_begin log.entry.header) log.entry.bytes.now) buf.old at result buf.new }
{
    filling::put_text(buf, at, &log.bytes[log.units().begin()..])
}

// The joined log's bytes.
fn put_log(buf: &mut [u8], a: WholeLog, b: WholeLog, h: Header) -> usize
    requires first { verdict a.bytes.now ≡ Ok tt }
    requires second { verdict b.bytes.now ≡ Ok tt }
    requires small { Bytes a.bytes.now }
    requires own { h ≡ joined_header a.header b.header }
    requires allowed { join_grounds (decode a.bytes.now) (decode b.bytes.now) ≡ Ok tt }
    requires room { length (joined_bytes a.bytes.now b.bytes.now) ≤ length buf.old }
    ensures { Put (joined_bytes a.entry.bytes.now b.entry.bytes.now) buf.old 0 result buf.new }
{
    let by = a.header.period;
    let first_states = writing::lay_header(buf, h);
    let second_states = copy_states(buf, first_states, a);
    let standards = moved::put_states(buf, second_states, b.states(), by);
    let first_units = standards::put_standards(buf, standards, a.standards(), b.standards(), by);
    let second_units = copy_units(buf, first_units, a);
    moved::put_units(buf, second_units, b.units(), by)
}

// Writes one log of two consecutive ones to the front of the buffer and answers its length, or why nothing is written: the first log is judged, then the second, then
// the two together, and last the room. The two lengths together count the header twice.
pub fn join_logs(first: &[u8], second: &[u8], buf: &mut [u8]) -> Result<usize, Refusal>
    ensures { Joins first.now second.now buf.old result buf.new }
{
    let a = judging::judge_log(first)?.log;
    let b = judge_second(second)?.log;
    let h = join_headers(a.header, b.header)?;
    let size = first.len() + second.len() - 10;
    Ground::ShortBuffer.refuses(buf.len() < size, LogList::NoList, 0)?;
    Ok(put_log(buf, a, b, h))
}
