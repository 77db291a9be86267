// A log packed in the caller's buffer. The public call has no `requires`.
#![tactic(auto)]

mod closing;
mod lines;
mod passes;

ghost use Rattle.std.specs.Prelude.{◌≡◌, ◌++◌, ◌-◌, length, replicate};
ghost use Rattle.records.specs.Log.{header_of};
ghost use Rattle.rules.specs.Answers.{answer_of};
ghost use Rattle.rules.specs.SameRecords.{Bytes};
ghost use Rattle.rules.specs.Verdict.{verdict};
ghost use Rattle.packed.specs.Packed.{packed_bytes};
ghost use Rattle.packed.specs.Packs.{Packs};

pub use crate::lines::print_packing;
use records::Header;
use rules::Refusal;

// The header of an accepted log, by value: the bytes that it came of are written over.
fn accepted_header(log: &[u8]) -> Result<Header, Refusal>
    ensures { result ≡ answer_of (verdict log.now) (header_of log.now) }
{
    Ok(judging::judge_log(log)?.log.header)
}

// Packs an accepted log, and answers its new length. The counts follow from where each list ends.
fn pack_accepted(buf: &mut [u8], h: Header) -> usize
    requires small { Bytes buf.old }
    requires accepted { verdict buf.old ≡ Ok tt }
    requires own { h ≡ header_of buf.old }
    ensures size { result ≡ length (packed_bytes buf.old) }
    ensures bytes { buf.new ≡ packed_bytes buf.old ++ replicate (length buf.old - length (packed_bytes buf.old)) 0 }
{
    let standards = passes::close_states(buf, h.states);
    let units = passes::close_standards(buf, h, standards);
    let end = passes::close_units(buf, h, units);
    let counts = Header {
        states: (standards - 10) / 6,
        standards: (units - standards) / 10,
        ..h
    };
    writing::lay_header(buf, counts);
    closing::clear_from(buf, end);
    end
}

// Packs the log that fills the buffer, and answers its new length, or why nothing is changed.
pub fn pack_log(buf: &mut [u8]) -> Result<usize, Refusal>
    ensures { Packs buf.old result buf.new }
{
    let h = accepted_header(buf)?;
    Ok(pack_accepted(buf, h))
}
