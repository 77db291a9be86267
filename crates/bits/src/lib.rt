// Fields of a width at a bit position of a slice of bytes, most significant bit first, read by whole words.
#![tactic(auto)]

ghost use Rattle.std.specs.Prelude.{◌≡◌, ◌+◌, ◌*◌, ◌%◌, ◌<◌, ◌≤◌, ◌^◌, length};
ghost use Rattle.bits.specs.Bits.{field, width_read};
ghost use Rattle.bits.specs.Words.{part_of};

// The 64 bits from byte i on, all of them in the slice, by one load.
fn word_within(s: &[u8], i: usize) -> u64
    requires { i + 8 ≤ length s.now }
    ensures { result ≡ field s.now (8 * i) 64 }
{
    u64::from_be_bytes([
        s[i],
        s[i + 1],
        s[i + 2],
        s[i + 3],
        s[i + 4],
        s[i + 5],
        s[i + 6],
        s[i + 7],
    ])
}

// The n bytes from byte i on, all of them in the slice, as one number.
fn bytes_within(s: &[u8], i: usize, n: usize) -> u64
    requires { (i + n ≤ length s.now) × (n < 8) }
    ensures { result ≡ field s.now (8 * i) (8 * n) }
{
    // By hand: the number of bytes is none that an array has, and a word of eight would have to be filled up first.
    let mut word: u64 = 0;
    for b in &s[i..i + n] {
        word = word * 256 + *b as u64;
    }
    word
}

// The 64 bits from byte i on, not all of them in the slice.
fn word_past_end(s: &[u8], i: usize) -> u64
    requires { length s.now < i + 8 }
    ensures { result ≡ field s.now (8 * i) 64 }
{
    if s.len() <= i {
        return 0;
    }
    let n = s.len() - i;
    bytes_within(s, i, n) << (64 - 8 * n)
}

// The 64 bits from byte i on, by one load where all eight bytes are there.
fn word_at(s: &[u8], i: usize) -> u64
    requires { i < 2 ^ 62 }
    ensures { result ≡ field s.now (8 * i) 64 }
{
    if i + 8 <= s.len() {
        word_within(s, i)
    } else {
        word_past_end(s, i)
    }
}

// Of 64 bits, the w bits after the first a.
fn part(n: u64, a: usize, w: usize) -> u64
    requires { a + w < 64 }
    ensures { result ≡ part_of n a w }
{
    ((n / 2) >> (63 - a - w)) & ((1u64 << w) - 1)
}

// The width that is read: at most 56 bits.
fn width_read(width: usize) -> usize
    ensures { result ≡ width_read width }
{
    width.min(56)
}

// The field of `width` bits from bit `at` on, for every slice, position and width: bytes past the end count as 0, a width above 56 as 56.
fn field_at(s: &[u8], at: usize, width: usize) -> u64
    ensures { result ≡ field s.now at (width_read width) }
{
    part(word_at(s, at / 8), at % 8, width_read(width))
}

// The 64 bits from bit `at` on, which is a byte's first, all of them in the slice.
fn word_from(s: &[u8], at: usize) -> u64
    requires { (at % 8 ≡ 0) × (at + 64 ≤ 8 * length s.now) }
    ensures { result ≡ field s.now at 64 }
{
    word_within(s, at / 8)
}

// A lent slice and a position in it, in bits.
#[derive(Clone, Copy)]
pub struct BitReader<'a> {
    pub src: &'a [u8],
    pub at: usize,
}

impl<'a> BitReader<'a> {
    // A reader at bit `at`.
    pub fn new(src: &'a [u8], at: usize) -> BitReader<'a>
        ensures { (result.src ≡ src.entry) × (result.at ≡ at) }
    {
        BitReader { src, at }
    }

    // The field of the next `width` bits.
    pub fn field(self, width: usize) -> u64
        ensures { result ≡ field self.entry.src.now self.entry.at (width_read width) }
    {
        field_at(self.src, self.at, width)
    }

    // The next 64 bits, from a byte's first on and all in the slice.
    pub fn word(self) -> u64
        requires { (self.at % 8 ≡ 0) × (self.at + 64 ≤ 8 * length self.src.now) }
        ensures { result ≡ field self.entry.src.now self.entry.at 64 }
    {
        word_from(self.src, self.at)
    }

    // The reader moved on by `width` bits, where that position is a usize.
    pub fn past(self, width: usize) -> BitReader<'a>
        requires { self.at + width < 2 ^ 64 }
        ensures { (result.src ≡ self.entry.src) × (result.at ≡ self.entry.at + width) }
    {
        BitReader {
            src: self.src,
            at: self.at + width,
        }
    }
}

// A field read through a reader. Its parameters are plain, as those of the next two are: the crates above read by these three.
pub fn read_field(log: &[u8], at: usize, width: usize) -> u64
    ensures { result ≡ field log.now at (width_read width) }
{
    BitReader::new(log, at).field(width)
}

// Two fields side by side, read through a reader that moves on from the first to the second.
pub fn read_pair(log: &[u8], at: usize, first: usize, second: usize) -> (u64, u64)
    requires { at + first < 2 ^ 64 }
    ensures { (result.0 ≡ field log.now at (width_read first)) × (result.1 ≡ field log.now (at + first) (width_read second)) }
{
    let reader = BitReader::new(log, at);
    (reader.field(first), reader.past(first).field(second))
}

// A word read through a reader, for the passes over the lists of a log whose length is tested.
pub fn read_word(log: &[u8], at: usize) -> u64
    requires { (at % 8 ≡ 0) × (at + 64 ≤ 8 * length log.now) }
    ensures { result ≡ field log.now at 64 }
{
    BitReader::new(log, at).word()
}
