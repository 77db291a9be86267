// Writing a log into a lent buffer, record by record, and the test of what was written. No public call has a `requires`: any position and any value
// is taken, and nothing is remembered from one call to the next. A buffer and a place: see `filling`. Plain numbers and no record: a value too wide for its
// field is refused, and a record read has none.
#![tactic(auto)]

ghost use Rattle.std.specs.Prelude.{◌≡◌, ◌+◌, ◌*◌, ◌≤◌, ◌<◌, length};
ghost use Rattle.bits.specs.Put.{Fit};
ghost use Rattle.filling.specs.Buffer.{Put};
ghost use Rattle.records.specs.Encode.{header_slots, header_bytes};
ghost use Rattle.writing.specs.Writing.{header_entry, state_entry, standard_entry, unit_entry, Added, Finished};
ghost use Rattle.writing.specs.Storing.{bits_of, slots_of};

use records::Header;
use rules::{Ground, LogList, Refusal};

// A field of a record: a value, and the bits that it has.
#[derive(Clone, Copy)]
struct Field {
    value: u64,
    width: u32,
}

// A field of so many bits that holds a value.
fn wide(width: u32, value: u64) -> Field
    ensures { result ≡ record { value = value; width = width } }
{
    Field { value, width }
}

// Adds a record of m + n bytes, its fields side by side, and answers the position behind it. The m bytes and the n are a store
// each: one store of both was tried, and was slower by a third.
fn put(
    buf: &mut [u8],
    at: usize,
    list: LogList,
    m: usize,
    n: usize,
    fields: &[Field],
) -> Result<usize, Refusal>
    requires { (0 < m) × (m ≤ 8) × (n < 8) × (bits_of fields.now ≡ 8 * (m + n)) }
    ensures { Added (record { list = list; size = m + n; slots = slots_of fields.now }) buf.old at result buf.new }
{
    let mut all = 0u128;
    for f in fields {
        let value = f.value as u128;
        Ground::TooWide.refuses(0 < value >> f.width, list, 0)?;
        all = (all << f.width) + value;
    }
    Ground::ShortBuffer.refuses(buf.len().saturating_sub(at) < m + n, LogList::NoList, 0)?;
    let first = (all >> (8 * n)) as u64;
    let second = (all % 0x1_0000_0000_0000_0000) as u64;
    let middle = filling::put_number(buf, at, m, first);
    Ok(filling::put_number(buf, middle, n, second))
}

// Adds a header. The four are alike in shape: each has its own fields and widths.
pub fn put_header(
    buf: &mut [u8],
    at: usize,
    period: u64,
    modules: u64,
    states: u64,
    standards: u64,
    units: u64,
) -> Result<usize, Refusal>
    ensures { Added (header_entry period modules states standards units) buf.old at result buf.new }
{
    let fields = [
        wide(35, period),
        wide(7, modules),
        wide(14, states),
        wide(11, standards),
        wide(13, units),
    ];
    put(buf, at, LogList::NoList, 8, 2, &fields)
}

// The ten bytes of a header whose numbers fit their fields, for the calls that make a log of others.
pub fn lay_header(buf: &mut [u8], h: Header) -> usize
    requires fits { Fit (header_slots h) }
    requires room { 10 ≤ length buf.old }
    ensures put { Put (header_bytes h) buf.old 0 result buf.new }
    ensures place { result ≡ 10 }
{
    let first = (h.period * 0x80 + h.modules as u64) * 0x4000 + h.states as u64;
    let second = h.standards as u64 * 0x2000 + h.units as u64;
    let middle = filling::put_number(buf, 0, 7, first);
    filling::put_number(buf, middle, 3, second)
}

// Adds a state record.
pub fn put_state(
    buf: &mut [u8],
    at: usize,
    module: u64,
    code: u64,
    time: u64,
) -> Result<usize, Refusal>
    ensures { Added (state_entry «module» code time) buf.old at result buf.new }
{
    let fields = [wide(6, module), wide(5, code), wide(35, time), wide(2, 0)];
    put(buf, at, LogList::States, 4, 2, &fields)
}

// Adds a standard.
pub fn put_standard(
    buf: &mut [u8],
    at: usize,
    module: u64,
    recipe: u64,
    start: u64,
    theoretical: u64,
) -> Result<usize, Refusal>
    ensures { Added (standard_entry «module» recipe start theoretical) buf.old at result buf.new }
{
    let fields = [
        wide(6, module),
        wide(10, recipe),
        wide(35, start),
        wide(27, theoretical),
        wide(2, 0),
    ];
    put(buf, at, LogList::Standards, 8, 2, &fields)
}

// Adds a unit record.
pub fn put_unit(
    buf: &mut [u8],
    at: usize,
    module: u64,
    recipe: u64,
    time: u64,
    actual: u64,
    effective: u64,
) -> Result<usize, Refusal>
    ensures { Added (unit_entry «module» recipe time actual effective) buf.old at result buf.new }
{
    let fields = [
        wide(6, module),
        wide(10, recipe),
        wide(35, time),
        wide(16, actual),
        wide(16, effective),
        wide(5, 0),
    ];
    put(buf, at, LogList::Units, 8, 3, &fields)
}

// The reader's verdict on the bytes before a position.
pub fn finish_log(buf: &[u8], at: usize) -> Result<(), Refusal>
    ensures { Finished buf.now at result }
{
    Ground::ShortBuffer.refuses(buf.len() < at, LogList::NoList, 0)?;
    judging::judge_log(&buf[..at])?;
    Ok(())
}
