// What packing did, in lines.
ghost use Rattle.std.specs.Prelude.{◌+◌, ◌≤◌, length};
ghost use Rattle.filling.specs.Buffer.{Put, AtFront};
ghost use Rattle.packing.specs.Lines.{line, packing_text};

// A line. The caller owes the room.
fn put_line(buf: &mut [u8], at: usize, label: &[u8], n: usize) -> usize
    requires { at + length label.now + 21 ≤ length buf.old }
    ensures put { Put (line label.now n) buf.old at result buf.new }
    ensures upper_bound { result ≤ at + length label.now + 21 }
{
    let end = report::put_labelled(buf, at, label, n);
    filling::put_text(buf, end, b"\n")
}

// Writes what packing `log` into `packed` did to the front of the buffer and answers the text's length.
pub fn print_packing(log: &[u8], packed: &[u8], buf: &mut [u8; 144]) -> usize
    ensures { AtFront (packing_text log.now packed.now) 144 buf.old result buf.new }
{
    let h = records::read_header(log);
    let k = records::read_header(packed);
    let states = h.states.saturating_sub(k.states);
    let standards = h.standards.saturating_sub(k.standards);
    let after = put_line(buf, 0, b"bytes before ", log.len());
    let first = put_line(buf, after, b"bytes after ", packed.len());
    let second = put_line(buf, first, b"states dropped ", states);
    put_line(buf, second, b"standards dropped ", standards)
}
