// What the program prints of E79's appendix: the supplemental figures, or why a log or its benchmarks are refused. No public call has a `requires`.
// A buffer and a place: see `filling`.
#![tactic(auto)]

ghost use Rattle.std.specs.Prelude.{◌+◌, ◌≤◌, length};
ghost use Rattle.filling.specs.Buffer.{Put, AtFront};
ghost use Rattle.appendix.specs.Lines.{figure_line, supplemental_text, supplemental_printed, supplemental_words};

use supplemental::Supplemental;

// The line of a figure. The caller owes the room.
fn put_figure(buf: &mut [u8], at: usize, name: &[u8], figure: u64) -> usize
    requires { (figure ≤ 10000) × (at + length name.now + 8 ≤ length buf.old) }
    ensures put { Put (figure_line name.now figure) buf.old at result buf.new }
    ensures upper_bound { result ≤ at + length name.now + 8 }
{
    let named = filling::put_text(buf, at, name);
    let space = filling::put_text(buf, named, b" ");
    let places = report::put_places(buf, space, figure);
    filling::put_text(buf, places, b"\n")
}

// The four lines, at the front of the buffer. The caller owes the room, and figures of at most 1.0000.
fn put_supplemental(buf: &mut [u8], f: Supplemental) -> usize
    requires reference_bound { (f.reference ≤ 10000) × (f.optimized ≤ 10000) × (f.added ≤ 10000) × (f.units ≤ 10000) }
    requires in_bounds { 96 ≤ length buf.old }
    ensures { AtFront (supplemental_text f) 96 buf.old result buf.new }
{
    let reference = put_figure(buf, 0, b"reference", f.reference);
    let optimized = put_figure(buf, reference, b"optimized", f.optimized);
    let added = put_figure(buf, optimized, b"value-added", f.added);
    put_figure(buf, added, b"total-effective-units", f.units)
}

// Writes the supplemental figures to the front of the buffer and answers the text's length: four lines, or the line that says why the log or its benchmarks are
// refused.
pub fn print_supplemental(log: &[u8], benchmarks: &[u8], buf: &mut [u8; 96]) -> usize
    ensures { AtFront (supplemental_printed log.now benchmarks.now) 96 buf.old result buf.new }
{
    match supplemental::tool_supplemental(log, benchmarks) {
        Ok(f) => put_supplemental(buf, f),
        Err(x) => report::put_refused_line(buf, x),
    }
}

// Writes why the log or its benchmarks are refused, in words, to the front of the buffer and answers the line's length: 0, and no byte changed, where both are
// accepted.
pub fn print_supplemental_words(log: &[u8], benchmarks: &[u8], buf: &mut [u8; 512]) -> usize
    ensures { AtFront (supplemental_words log.now benchmarks.now) 512 buf.old result buf.new }
{
    printing::put_words(&supplemental::tool_supplemental(log, benchmarks), buf)
}
