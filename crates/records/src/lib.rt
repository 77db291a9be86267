// The header of a log, read for every slice, a byte past the end counting as 0; and the three kinds of record, each read by its index where all of it is
// in the log.
#![tactic(auto)]

ghost use Rattle.std.specs.Prelude.{◌≡◌, List, ℕ, ◌+◌, ◌*◌, ◌^◌, ◌<◌, ◌≤◌, length};
ghost use Rattle.bits.specs.Bits.{field};
ghost use Rattle.records.specs.Fields.{state_from, standard_from, unit_from};
ghost use Rattle.records.specs.Log.{header_of, state_at, standard_at, unit_at};
ghost use Rattle.records.specs.Covers.{Covers};
ghost use Rattle.records.specs.Whole.{units_begin, units_end, StatesThere, StandardsThere, UnitsThere, WholeThere};

// The period in ms, the number of modules, and how many records each list has.
#[derive(Clone, Copy, PartialEq, Eq)]
pub struct Header {
    pub period: u64,
    pub modules: usize,
    pub states: usize,
    pub standards: usize,
    pub units: usize,
}

// From this time on the module is in the sub-state of this code.
#[derive(Clone, Copy, PartialEq, Eq)]
pub struct StateRecord {
    pub module: usize,
    pub code: usize,
    pub time: u64,
    pub spare: u64,
}

// A theoretical time per unit in ms, for a module and a recipe, from a start on.
#[derive(Clone, Copy, PartialEq, Eq)]
pub struct Standard {
    pub module: usize,
    pub recipe: usize,
    pub start: u64,
    pub theoretical: u64,
    pub spare: u64,
}

// Units that a module made by a recipe, reported at a time.
#[derive(Clone, Copy, PartialEq, Eq)]
pub struct UnitRecord {
    pub module: usize,
    pub recipe: usize,
    pub time: u64,
    pub actual: u64,
    pub effective: u64,
    pub spare: u64,
}

// The header at the front of a slice.
pub fn read_header(log: &[u8]) -> Header
    ensures { result ≡ header_of log.now }
{
    let (first, second) = bits::read_pair(log, 0, 56, 24);
    Header {
        period: first / 0x20_0000 % 0x8_0000_0000,
        modules: (first / 0x4000 % 0x80) as usize,
        states: (first % 0x4000) as usize,
        standards: (second / 0x2000 % 0x800) as usize,
        units: (second % 0x2000) as usize,
    }
}

// A reader for each kind of record, alike in shape: each names its own widths, and has a definition of its own.
// The state record in the last 48 bits of a word.
fn state_in(word: u64) -> StateRecord
    ensures { (s : List ℕ) (p : ℕ) → word ≡ field s p 64 → result ≡ state_from s (p + 16) }
{
    StateRecord {
        module: (word / 0x400_0000_0000 % 0x40) as usize,
        code: (word / 0x20_0000_0000 % 0x20) as usize,
        time: word / 4 % 0x8_0000_0000,
        spare: word % 4,
    }
}

// The standard whose first 51 bits are a word, and whose other 29 are the last ones of a second word.
fn standard_in(first: u64, second: u64) -> Standard
    ensures { (s : List ℕ) (p q : ℕ) → first ≡ field s p 51 → second ≡ field s q 64 → q ≡ p + 16 → result ≡ standard_from s p }
{
    Standard {
        module: (first / 0x2000_0000_0000 % 0x40) as usize,
        recipe: (first / 0x8_0000_0000 % 0x400) as usize,
        start: first % 0x8_0000_0000,
        theoretical: second / 4 % 0x800_0000,
        spare: second % 4,
    }
}

// The unit record whose first 51 bits are a word, and whose other 37 are the last ones of a second word.
fn unit_in(first: u64, second: u64) -> UnitRecord
    ensures { (s : List ℕ) (p q : ℕ) → first ≡ field s p 51 → second ≡ field s q 64 → q ≡ p + 24 → result ≡ unit_from s p }
{
    UnitRecord {
        module: (first / 0x2000_0000_0000 % 0x40) as usize,
        recipe: (first / 0x8_0000_0000 % 0x400) as usize,
        time: first % 0x8_0000_0000,
        actual: second / 0x20_0000 % 0x1_0000,
        effective: second / 0x20 % 0x1_0000,
        spare: second % 0x20,
    }
}

// State record i, where all of it is in the log: the last six of eight bytes, since behind it there may be no more. The caller owes that, as it does
// for the next three: a log whose length its header gives holds all its records, and a pass over them need not ask again at each.
pub fn state_within(log: &[u8], i: usize) -> StateRecord
    requires { Covers log.now (10 + 6 * i + 6) }
    ensures { result ≡ state_at log.now i }
{
    state_in(bits::read_word(log, 8 * (8 + 6 * i)))
}

// A place in bytes, as a number that the compiler sees to be below 2^32: then eight times it, divided by eight, costs nothing.
fn place(byte: usize) -> usize
    requires { byte < 2 ^ 32 }
    ensures { result ≡ byte }
{
    byte as u32 as usize
}

// Standard i of a log with this header, where all of it is in the log.
pub fn standard_within(log: &[u8], h: Header, i: usize) -> Standard
    requires { Covers log.now (10 + 6 * h.states + 10 * i + 10) }
    ensures { result ≡ standard_at log.now h i }
{
    let at = place(10 + 6 * h.states + 10 * i);
    let first = bits::read_word(log, 8 * at) / 0x2000;
    let second = bits::read_word(log, 8 * (at + 2));
    standard_in(first, second)
}

// The unit record that begins at a byte, where all of it is in the log.
pub fn unit_from(log: &[u8], byte: usize) -> UnitRecord
    requires { Covers log.now (byte + 11) }
    ensures { result ≡ unit_from log.now (8 * byte) }
{
    let at = place(byte);
    let first = bits::read_word(log, 8 * at) / 0x2000;
    let second = bits::read_word(log, 8 * (at + 3));
    unit_in(first, second)
}

// Unit record i of a log with this header, where all of it is in the log.
pub fn unit_within(log: &[u8], h: Header, i: usize) -> UnitRecord
    requires { Covers log.now (10 + 6 * h.states + 10 * h.standards + 11 * i + 11) }
    ensures { result ≡ unit_at log.now h i }
{
    unit_from(log, 10 + 6 * h.states + 10 * h.standards + 11 * i)
}

// The lists of a log: three types, alike but for the record, since each fact and each `record` names a definition of its own.

// The state records that a header counts, all of them in the bytes.
#[derive(Clone, Copy)]
pub struct StateRecords<'a> {
    pub bytes: &'a [u8],
    pub header: Header,
    pub ghost there: { StatesThere bytes.now header },
}

impl<'a> StateRecords<'a> {
    // State record i.
    pub fn record(self, i: usize) -> StateRecord
        requires { i < self.header.states }
        ensures { result ≡ state_at self.entry.bytes.now i }
    {
        state_within(self.bytes, i)
    }
}

// The standards that a header counts, behind its state records, all of them in the bytes.
#[derive(Clone, Copy)]
pub struct StandardRecords<'a> {
    pub bytes: &'a [u8],
    pub header: Header,
    pub ghost there: { StandardsThere bytes.now header },
}

impl<'a> StandardRecords<'a> {
    // Standard i.
    pub fn record(self, i: usize) -> Standard
        requires { i < self.header.standards }
        ensures { result ≡ standard_at self.entry.bytes.now self.entry.header i }
    {
        standard_within(self.bytes, self.header, i)
    }
}

// The unit records that a header counts, behind its standards, all of them in the bytes.
#[derive(Clone, Copy)]
pub struct UnitRecords<'a> {
    pub bytes: &'a [u8],
    pub header: Header,
    pub ghost there: { UnitsThere bytes.now header },
}

impl<'a> UnitRecords<'a> {
    // The standards before them.
    pub fn standards(self) -> StandardRecords<'a>
        ensures { (result.bytes ≡ self.entry.bytes) × (result.header ≡ self.entry.header) }
    {
        let UnitRecords { bytes, header } = self;
        StandardRecords { bytes, header }
    }

    // Unit record i.
    pub fn record(self, i: usize) -> UnitRecord
        requires { i < self.header.units }
        ensures { result ≡ unit_at self.entry.bytes.now self.entry.header i }
    {
        unit_within(self.bytes, self.header, i)
    }

    // The byte that the first begins at, for a walk of 11 bytes a step: a place worked out from an index at each record is slower.
    pub fn begin(self) -> usize
        ensures { result ≡ units_begin self.entry.header }
    {
        10 + 6 * self.header.states + 10 * self.header.standards
    }

    // The unit record that begins at a byte.
    pub fn record_from(self, byte: usize) -> UnitRecord
        requires { byte + 11 ≤ units_end self.header }
        ensures { result ≡ unit_from self.entry.bytes.now (8 * byte) }
    {
        unit_from(self.bytes, byte)
    }
}

// A log whose length is the one that its header gives. The header's bounds on the counts are no part of it: each pass asks for the one that its arrays need.
#[derive(Clone, Copy)]
pub struct WholeLog<'a> {
    pub bytes: &'a [u8],
    pub header: Header,
    pub ghost own: { header ≡ header_of bytes.now },
    pub ghost there: { WholeThere bytes.now header },
}

impl<'a> WholeLog<'a> {
    // A log with its own header, once its length is tested.
    pub fn new(bytes: &'a [u8], header: Header) -> WholeLog<'a>
        requires own { header ≡ header_of bytes.now }
        requires whole { length bytes.now ≡ units_end header }
        ensures { (result.bytes ≡ bytes.entry) × (result.header ≡ header) }
    {
        WholeLog { bytes, header }
    }

    // Its lists: a type each, with a fact of its own, so one function cannot hand out all three.
    pub fn states(self) -> StateRecords<'a>
        ensures { (result.bytes ≡ self.entry.bytes) × (result.header ≡ self.entry.header) }
    {
        let WholeLog { bytes, header } = self;
        StateRecords { bytes, header }
    }

    pub fn standards(self) -> StandardRecords<'a>
        ensures { (result.bytes ≡ self.entry.bytes) × (result.header ≡ self.entry.header) }
    {
        self.units().standards()
    }

    pub fn units(self) -> UnitRecords<'a>
        ensures { (result.bytes ≡ self.entry.bytes) × (result.header ≡ self.entry.header) }
    {
        let WholeLog { bytes, header } = self;
        UnitRecords { bytes, header }
    }
}
