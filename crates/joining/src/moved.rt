// Records written with their times moved up. A record's time is part of a word of the log, so what it moves by is added to the word where the time stands, and
// the other fields are as they were. The caller owes that each time still fits its field.
ghost use Rattle.std.specs.Prelude.{◌≡◌, ◌++◌, ◌+◌, ◌*◌, ◌^◌, ◌≤◌, ◌<◌, ℕ, length};
ghost use mathlib.Core.List.{map};
ghost use Rattle.bits.specs.Bits.{field};
ghost use Rattle.records.specs.Covers.{Covers};
ghost use Rattle.records.specs.Encode.{state_bytes, standard_bytes, unit_bytes, joined};
ghost use Rattle.records.specs.Log.{state_at, standard_at, unit_at, up_to};
ghost use Rattle.filling.specs.Buffer.{Put, big_endian};
ghost use Rattle.joined.specs.Joined.{state_up, standard_up, unit_up};

use records::{StandardRecords, StateRecords, UnitRecords};

// State record i: the last six bytes of a word, with two spare bits behind its time.
fn put_state(buf: &mut [u8], at: usize, states: StateRecords, i: usize, by: u64) -> usize
    requires index { i < states.header.states }
    requires room { at + 6 ≤ length buf.old }
    requires fits { by + (state_at states.bytes.now i).time < 2 ^ 35 }
    ensures { Put (state_bytes (state_up by (state_at states.entry.bytes.now i))) buf.old at result buf.new }
{
    let word = bits::read_word(states.bytes, 8 * (8 + 6 * i));
    filling::put_number(buf, at, 6, word % 0x1_0000_0000_0000 + 4 * by)
}

// The 8 + n bytes of a standard or a unit record: both have a module and a recipe in 16 bits, then their time, and 13 more bits in the first eight bytes.
fn put_moved(buf: &mut [u8], at: usize, log: &[u8], from: usize, n: usize, by: u64) -> usize
    requires there { Covers log.now (from + 8 + n) }
    requires few { n < 8 }
    requires room { at + 8 + n ≤ length buf.old }
    requires fits { by + field log.now (8 * from + 16) 35 < 2 ^ 35 }
    ensures { Put (big_endian 8 (field log.now (8 * from) 64 + 2 ^ 13 * by) ++ big_endian n (field log.now (8 * (from + n)) 64)) buf.old at result buf.new }
{
    let first = bits::read_word(log, 8 * from) + 0x2000 * by;
    let second = bits::read_word(log, 8 * (from + n));
    let middle = filling::put_number(buf, at, 8, first);
    filling::put_number(buf, middle, n, second)
}

// Standard i.
pub fn put_standard(
    buf: &mut [u8],
    at: usize,
    standards: StandardRecords,
    i: usize,
    by: u64,
) -> usize
    requires index { i < standards.header.standards }
    requires room { at + 10 ≤ length buf.old }
    requires fits { by + (standard_at standards.bytes.now standards.header i).start < 2 ^ 35 }
    ensures { Put (standard_bytes (standard_up by (standard_at standards.entry.bytes.now standards.entry.header i))) buf.old at result buf.new }
{
    let from = 10 + 6 * standards.header.states + 10 * i;
    put_moved(buf, at, standards.bytes, from, 2, by)
}

// Unit record i.
fn put_unit(buf: &mut [u8], at: usize, units: UnitRecords, i: usize, by: u64) -> usize
    requires index { i < units.header.units }
    requires room { at + 11 ≤ length buf.old }
    requires fits { by + (unit_at units.bytes.now units.header i).time < 2 ^ 35 }
    ensures { Put (unit_bytes (unit_up by (unit_at units.entry.bytes.now units.entry.header i))) buf.old at result buf.new }
{
    let from = units.begin() + 11 * i;
    put_moved(buf, at, units.bytes, from, 3, by)
}

// The state records of a log, moved up.
pub fn put_states(buf: &mut [u8], at: usize, states: StateRecords, by: u64) -> usize
    requires room { at + 6 * states.header.states ≤ length buf.old }
    requires fits { (i : ℕ) → i < states.header.states → by + (state_at states.bytes.now i).time < 2 ^ 35 }
    ensures place { result ≡ at + 6 * states.entry.header.states }
    ensures put { Put (joined state_bytes (map (state_up by) (up_to (state_at states.entry.bytes.now) states.entry.header.states))) buf.old at result buf.new }
{
    let mut next = at;
    for i in 0..states.header.states {
        next = put_state(buf, next, states, i, by);
    }
    next
}

// Its unit records.
pub fn put_units(buf: &mut [u8], at: usize, units: UnitRecords, by: u64) -> usize
    requires room { at + 11 * units.header.units ≤ length buf.old }
    requires fits { (i : ℕ) → i < units.header.units → by + (unit_at units.bytes.now units.header i).time < 2 ^ 35 }
    ensures { Put (joined unit_bytes (map (unit_up by) (up_to (unit_at units.entry.bytes.now units.entry.header) units.entry.header.units))) buf.old at result buf.new }
{
    let mut next = at;
    for i in 0..units.header.units {
        next = put_unit(buf, next, units, i, by);
    }
    next
}
