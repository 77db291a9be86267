// Bytes put into a buffer that the caller lends. Each call answers the place behind what it put; the caller owes the room, so none is for a buyer.
// A buffer and a place, here and in the crates that write by this one, and no Vec: the project lends memory and takes none. A struct of the two was tried:
// its place changes at each call, so every contract would speak of it before and after, where a place that is answered has a name of its own.
// 0 and no Option where a call writes nothing: the text is empty then, and one equation speaks of all bytes of the buffer.
#![tactic(auto)]

ghost use Rattle.std.specs.Prelude.{◌+◌, ◌≤◌, length};
ghost use Rattle.filling.specs.Buffer.{Put, big_endian};

// Copies a text into the buffer from `at` on. The caller owes the room.
pub fn put_text(buf: &mut [u8], at: usize, text: &[u8]) -> usize
    requires { at + length text.now ≤ length buf.old }
    ensures { Put text.now buf.old at result buf.new }
{
    let end = at + text.len();
    buf[at..end].copy_from_slice(text);
    end
}

// The n low bytes of a number, the most significant first. Eight and four, whose number is fixed, are one store.
pub fn put_number(buf: &mut [u8], at: usize, n: usize, number: u64) -> usize
    requires { (at + n ≤ length buf.old) × (n ≤ 8) }
    ensures { Put (big_endian n number) buf.old at result buf.new }
{
    match n {
        8 => put_text(buf, at, &number.to_be_bytes()),
        4 => put_text(buf, at, &((number % 0x1_0000_0000) as u32).to_be_bytes()),
        _ => put_text(buf, at, &number.to_be_bytes()[8 - n..]),
    }
}
