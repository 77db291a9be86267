// Listings: what is told of a log in lines without a heading, written into a lent buffer or printed. No public call has a `requires`.
// A buffer and a place: see `filling`.
#![tactic(auto)]

ghost use Rattle.std.specs.Prelude.{◌≡◌, ◌+◌, ◌≤◌, ◌<◌, ℕ, length, get_or, MatchResult};
ghost use Rattle.std.specs.declared.result.Result.TheVariants.{Ok, Err};
ghost use Rattle.records.specs.Log.{decode};
ghost use Rattle.rules.specs.Verdict.{verdict};
ghost use Rattle.filling.specs.Buffer.{Put, AtFront};
ghost use Rattle.report.specs.Report.{joined};
ghost use Rattle.reporting.specs.Reports.{Prints};
ghost use Rattle.listing.specs.Listings.{credit_line, credit_listing, TextWritten};

use rules::{Ground, LogList, Refusal};

// The line of standard i. The caller owes the room.
#[tactic(auto, using(crate::proofs::Lines::line_length))]
fn put_credit(buf: &mut [u8], at: usize, i: usize, units: u64) -> usize
    requires { at + length (credit_line i units) ≤ length buf.old }
    ensures { Put (credit_line i units) buf.old at result buf.new }
{
    let index = report::put_decimal(buf, at, i as u64);
    let space = filling::put_text(buf, index, b" ");
    let number = report::put_decimal(buf, space, units);
    filling::put_text(buf, number, b"\n")
}

// The lines of so many standards, at the front of the buffer. The caller owes the room, for at most 512 standards and numbers of at most nine digits.
fn put_credits(buf: &mut [u8], standards: usize, credited: &[u64; 512]) -> usize
    requires few { standards ≤ 512 }
    requires low { (i : ℕ) → i < standards → get_or credited.now i 0 < 1000000000 }
    requires in_bounds { 7168 ≤ length buf.old }
    ensures { AtFront (joined (λ i. credit_line i (get_or credited.now i 0)) standards) 7168 buf.old result buf.new }
{
    let mut next = 0;
    // By index, with which each line begins.
    for i in 0..standards {
        next = put_credit(buf, next, i, credited[i]);
    }
    next
}

// The listing of a log's credited units, at the front of the buffer, and its length; or why the log is refused.
fn put_listing(log: &[u8], buf: &mut [u8; 7168]) -> Result<usize, Refusal>
    ensures { MatchResult result (λ n. (verdict log.now ≡ Ok tt) × AtFront (credit_listing (decode log.now)) 7168 buf.old n buf.new) (λ x. (verdict log.now ≡ Err x) × (buf.new ≡ buf.old)) }
{
    let mut credited = [0u64; 512];
    let account = judging::judge_credited(log, &mut credited)?;
    Ok(put_credits(buf, account.log.header.standards, &credited))
}

// Writes the listing of credited units to the front of the buffer and answers its length, or why nothing is written: a log without standards has a listing of 0 bytes. It is
// put together apart, so that its length is known before a byte of the buffer changes.
pub fn credited_listing(log: &[u8], buf: &mut [u8]) -> Result<usize, Refusal>
    ensures { TextWritten credit_listing 7168 log.now buf.old result buf.new }
{
    let mut space = [0u8; 7168];
    let size = put_listing(log, &mut space)?;
    Ground::ShortBuffer.refuses(buf.len() < size, LogList::NoList, 0)?;
    Ok(filling::put_text(buf, 0, &space[..size]))
}

// Writes what a program prints to the front of the buffer and answers its length: the listing of credited units, or the line that says why the log is refused. 7,168 bytes
// hold every listing.
pub fn print_credited(log: &[u8], buf: &mut [u8; 7168]) -> usize
    ensures { Prints credit_listing 7168 log.now buf.old result buf.new }
{
    match put_listing(log, buf) {
        Ok(size) => size,
        Err(x) => report::put_refused_line(buf, x),
    }
}
