// The lines of the report and the line for a refused log, written from whole numbers into a buffer that the caller lends. Nothing here knows a log.
//
// A buffer and a place: see `filling`. A call that writes answers the place behind what it wrote. Those that write into a slice have a
// `requires`, so they are not for a buyer to link: they are called where room and order are shown. `Ordered q` stands in three contracts: an
// account's quantities are ordered, and a type that says so would be a second `Quantities`.
#![tactic(auto)]

ghost use Rattle.std.specs.Prelude.{◌≡◌, ◌++◌, ◌+◌, ◌^◌, ◌≤◌, ◌<◌, length};
ghost use Rattle.e79.specs.Quantities.{Ordered, Portion};
ghost use Rattle.filling.specs.Buffer.{Put, AtFront};
ghost use Rattle.report.specs.Report.{decimal, places, figure, figures, heading, module_line, tool_line, LengthOf, FigureLength, ModuleLength, refused_at, refused_line};
ghost use Rattle.report.specs.Report.{digit as Report·digit};

use e79::Quantities;
use rules::Refusal;

// The last decimal digit of n, in ASCII.
fn digit(n: u64) -> u8
    ensures { result ≡ Report·digit n }
{
    b'0' + (n % 10) as u8
}

// A number with no leading zero: the digits before the last, and the last. The caller owes the room.
// The kit's itoa prints into a buffer of its own, from which its digits would have to be copied: no plainer.
#[tactic(auto, using(crate::proofs::Decimals::below_length, crate::proofs::Decimals::more_length, crate::proofs::Decimals::below_written, crate::proofs::Decimals::more_written))]
pub fn put_decimal(buf: &mut [u8], at: usize, n: u64) -> usize
    requires { at + length (decimal n) ≤ length buf.old }
    ensures { Put (decimal n) buf.old at result buf.new }
{
    let last = [digit(n)];
    if n < 10 {
        filling::put_text(buf, at, &last)
    } else {
        let next = put_decimal(buf, at, n / 10);
        filling::put_text(buf, next, &last)
    }
}

// Ten-thousandths with four places: 9702 is 0.9702. The compiler sees that p is below 2^32, which makes its digits cheap. The caller owes the room.
pub fn put_places(buf: &mut [u8], at: usize, figure: u64) -> usize
    requires { (figure < 2 ^ 32) × (at + 6 ≤ length buf.old) }
    ensures { Put (places figure) buf.old at result buf.new }
{
    let p = figure as u32 as u64;
    let text = [
        digit(p / 10000),
        b'.',
        digit(p / 1000),
        digit(p / 100),
        digit(p / 10),
        digit(p),
    ];
    filling::put_text(buf, at, &text)
}

// A space and the printed figure.
fn put_figure(buf: &mut [u8], at: usize, n: u64, d: u64) -> usize
    requires portion { Portion n d }
    requires d_in_bounds { at + length (figure n d) ≤ length buf.old }
    ensures { Put (figure n d) buf.old at result buf.new }
{
    let field = filling::put_text(buf, at, b" ");
    let printed = e79::printed_of_ordered(n, d);
    match printed {
        Some(p) => put_places(buf, field, p),
        None => filling::put_text(buf, field, b"-"),
    }
}

// The five figures and the line's end. Each name is the place behind that figure: a loop over five pairs would name no column.
fn put_figures(buf: &mut [u8], at: usize, q: Quantities) -> usize
    requires ordered { Ordered q }
    requires q_in_bounds { at + length (figures q) ≤ length buf.old }
    ensures { Put (figures q) buf.old at result buf.new }
{
    let availability = put_figure(buf, at, q.uptime, q.total);
    let operational = put_figure(buf, availability, q.production, q.uptime);
    let rate = put_figure(buf, operational, q.actual, q.production);
    let quality = put_figure(buf, rate, q.effective, q.actual);
    let oee = put_figure(buf, quality, q.effective, q.total);
    filling::put_text(buf, oee, b"\n")
}

// The report's first line. The caller owes the room.
pub fn put_heading(buf: &mut [u8], at: usize) -> usize
    requires { at + 32 ≤ length buf.old }
    ensures { Put heading buf.old at result buf.new }
{
    filling::put_text(buf, at, b"module avail oper rate qual oee\n")
}

// The line of module m. The caller owes the room, a number below 100, and that the quantities are ordered.
pub fn put_module_line(buf: &mut [u8], at: usize, m: usize, q: Quantities) -> usize
    requires m_bound { m < 100 }
    requires ordered { Ordered q }
    requires q_in_bounds { at + length (module_line m q) ≤ length buf.old }
    ensures { Put (module_line m q) buf.old at result buf.new }
{
    let number = put_decimal(buf, at, m as u64);
    put_figures(buf, number, q)
}

// The tool's line. The caller owes the room, and that the quantities are ordered.
pub fn put_tool_line(buf: &mut [u8], at: usize, q: Quantities) -> usize
    requires ordered { Ordered q }
    requires q_in_bounds { at + length (tool_line q) ≤ length buf.old }
    ensures { Put (tool_line q) buf.old at result buf.new }
{
    let name = filling::put_text(buf, at, b"tool");
    put_figures(buf, name, q)
}

// How many bytes a figure takes with its space, by its denominator.
#[tactic(auto, using(crate::proofs::Lengths::figure_none, crate::proofs::Lengths::figure_based))]
fn figure_length(d: u64) -> usize
    ensures { FigureLength d result }
{
    if d == 0 { 2 } else { 7 }
}

// How many bytes the five figures and the line's end take. Tried as an iterator's sum over the five bases: that it fits is not proved.
fn figures_length(q: Quantities) -> usize
    ensures { LengthOf (figures q) 36 result }
{
    let availability = figure_length(q.total);
    let operational = figure_length(q.uptime);
    let rate = figure_length(q.production);
    let quality = figure_length(q.actual);
    let oee = figure_length(q.total);
    availability + operational + rate + quality + oee + 1
}

// How many bytes the line of module m takes.
pub fn module_line_length(m: usize, q: Quantities) -> usize
    ensures { ModuleLength m q result }
{
    let length = figures_length(q);
    if m < 10 { length + 1 } else { length + 2 }
}

// How many bytes the tool's line takes.
pub fn tool_line_length(q: Quantities) -> usize
    ensures { LengthOf (tool_line q) 40 result }
{
    figures_length(q) + 4
}

// A label and a number behind it, for which 20 bytes are enough. The caller owes the room.
pub fn put_labelled(buf: &mut [u8], at: usize, label: &[u8], n: usize) -> usize
    requires { at + length label.now + 20 ≤ length buf.old }
    ensures put { Put (label.now ++ decimal n) buf.old at result buf.new }
    ensures upper_bound { result ≤ at + length label.now + 20 }
{
    let number = filling::put_text(buf, at, label);
    put_decimal(buf, number, n as u64)
}

// The line of any three numbers, at the front of the buffer, and its length. The caller owes 80 bytes, in which all of them fit.
// Plain numbers: here ground and list are printed, and the definition (`refused_at`) is of three numbers.
pub fn put_refused_at(buf: &mut [u8], number: usize, list: usize, place: usize) -> usize
    requires { 80 ≤ length buf.old }
    ensures { AtFront (refused_at number list place) 79 buf.old result buf.new }
{
    let ground = put_labelled(buf, 0, b"refused ", number);
    let of_list = put_labelled(buf, ground, b" list ", list);
    let at_place = put_labelled(buf, of_list, b" at ", place);
    filling::put_text(buf, at_place, b"\n")
}

// The line for a refused log, at the front of the buffer, and its length.
#[tactic(auto, unfolding(crate::specs::Report::refused_line))]
pub fn put_refused_line(buf: &mut [u8], x: Refusal) -> usize
    requires { 80 ≤ length buf.old }
    ensures { AtFront (refused_line x) 79 buf.old result buf.new }
{
    put_refused_at(buf, x.ground.number(), x.list.number(), x.place)
}
