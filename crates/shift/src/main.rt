// Reads one log from standard input and prints its report, or one line that says why it is refused.
#![tactic(auto)]

use std::io;

// The longest log takes 63,130 bytes: one byte more is enough to see that a log is too long. The longest report takes 2,494.
fn main(rt: HostRuntime) -> io::Result<()> {
    let mut input = [0u8; 63131];
    let n = reading::read_full(&mut rt.stdin(), &mut input)?;
    let mut space = [0u8; 2494];
    let size = tool_log::print_report(&input[..n], &mut space);
    rt.write_all(&space[..size])
}
