// A buffer that is filled with a pattern before it is lent, and the test of all its bytes afterwards.
ghost use Rattle.std.specs.Prelude.{◌≡◌, true, ◌↔◌, length};
ghost use Rattle.cases.specs.Buffer.{pattern_at, Kept, Left};

// The pattern at place i: no byte of a report or of a refused line, and not the one that stands beside it.
fn pattern(i: usize) -> u8
    ensures { result ≡ pattern_at i }
{
    (128 + i % 127) as u8
}

// Puts the pattern into all of the buffer.
pub fn fill(space: &mut [u8])
    ensures space_len_unchanged { length space.new ≡ length space.old }
    ensures kept { Kept space.new 0 }
{
    for (i, b) in space.iter_mut().enumerate() {
        *b = pattern(i);
    }
}

// Whether the buffer holds the pattern from place `from` on.
fn kept(space: &[u8], from: usize) -> bool
    ensures { (result ≡ true) ↔ Kept space.now from }
{
    (from..space.len()).all(|i| space[i] == pattern(i))
}

// Whether the buffer holds the text at its front and the pattern behind it.
pub fn left(space: &[u8], text: &[u8]) -> bool
    ensures { (result ≡ true) ↔ Left text.now space.now }
{
    space.starts_with(text) && kept(space, text.len())
}
