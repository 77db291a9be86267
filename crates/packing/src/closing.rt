// Bytes that move towards the front of a buffer. The caller owes that they are there.
ghost use Rattle.std.specs.Prelude.{◌≡◌, ◌++◌, ◌+◌, ◌-◌, ◌≤◌, length, take, replicate};
ghost use Rattle.std.specs.List.{copy_within};
ghost use Rattle.packing.specs.Closing.{Moveable, Moved};

// Copies n bytes to `to`, word by word: what is written is never ahead of what is read next. std's `copy_within` goes byte by byte, and a word that is read where
// bytes were just written waits for them: by it the longest log took up to twice as long.
fn copy_down(buf: &mut [u8], from: usize, n: usize, to: usize)
    requires { Moveable buf.old from n to }
    ensures { buf.new ≡ copy_within buf.old from (from + n) to }
{
    let words = n / 8;
    for k in 0..words {
        let word = bits::read_word(buf, 8 * (from + 8 * k));
        filling::put_number(buf, to + 8 * k, 8, word);
    }
    let rest = bits::read_word(buf, 8 * (from + n - 8));
    filling::put_number(buf, to + 8 * words, n % 8, rest);
}

// Passes over the record of n bytes at `from`, or else moves it to `to`, where it may be already. Answers where the next one goes.
pub fn move_record(buf: &mut [u8], from: usize, n: usize, to: usize, drops: bool) -> usize
    requires { Moveable buf.old from n to }
    ensures { Moved drops buf.old from n to result buf.new }
{
    if drops {
        return to;
    }
    if to < from {
        copy_down(buf, from, n, to);
    }
    to + n
}

// Zeros from a byte on.
pub fn clear_from(buf: &mut [u8], from: usize)
    requires { from ≤ length buf.old }
    ensures { buf.new ≡ take from buf.old ++ replicate (length buf.old - from) 0 }
{
    buf[from..].fill(0);
}
