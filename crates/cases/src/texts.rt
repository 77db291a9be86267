// What the report calls write for a log. Each buffer is filled with a pattern before it is lent, and all of its bytes are compared afterwards.
// `space` and `room` go side by side, with one fact: the bytes behind the part that is lent are compared too.
ghost use Rattle.std.specs.Prelude.{◌≡◌, ◌≤◌, true, ◌↔◌, length};
ghost use Rattle.report.specs.Report.{refused_line};
ghost use Rattle.reporting.specs.Reports.{written_part, report_text, printed};
ghost use Rattle.cases.specs.Buffer.{Left};
ghost use Rattle.cases.specs.Texts.{text_for, Seen};

use crate::buffer;
use rules::Refusal;

// Whether `report`, lent the first `room` bytes of the buffer, hands back the text, leaves it at the front and changes no other byte of the buffer.
// The contract of `report` cannot speak of the bytes behind the part that it hands back: they are seen here alone.
fn hands_back(log: &[u8], space: &mut [u8], room: usize, text: &[u8]) -> bool
    requires { room ≤ length space.old }
    ensures { result ≡ true → Seen log.now room text.now space.new }
{
    buffer::fill(space);
    let part = tool_log::report(log, &mut space[..room]);
    let back = &*part == text;
    back && buffer::left(space, text)
}

// Whether the refusal's line is the expected one.
fn says(x: Refusal, expected: &[u8]) -> bool
    ensures { (result ≡ true) ↔ (expected.now ≡ refused_line x) }
{
    let mut line = [0u8; 80];
    let n = report::put_refused_line(&mut line, x);
    &line[..n] == expected
}

// Whether `examine` and `report` answer and write what is expected: the report, or the line of the refusal and nothing written.
#[tactic(auto, unfolding(crate::specs::Texts::text_for, reporting::specs::Reports::text_written))]
pub fn reports(log: &[u8], space: &mut [u8], room: usize, expected: &[u8]) -> bool
    requires { room ≤ length space.old }
    ensures expected_value { result ≡ true → expected.now ≡ text_for log.now room }
    ensures left { result ≡ true → Left (written_part log.now room) space.new }
{
    match tool_log::examine(log, room) {
        Err(x) => says(x, expected) && hands_back(log, space, room, b""),
        Ok(()) => hands_back(log, space, room, expected),
    }
}

// Whether `write_report` answers the text's length, leaves the text at the front and changes no other byte of the buffer.
pub fn writes(log: &[u8], space: &mut [u8], room: usize, text: &[u8]) -> bool
    requires { room ≤ length space.old }
    ensures { result ≡ true → text.now ≡ written_part log.now room }
{
    buffer::fill(space);
    let n = tool_log::write_report(log, &mut space[..room]);
    n == text.len() && buffer::left(space, text)
}

// The same of `print_report`, which takes a whole array.
pub fn prints(log: &[u8], text: &[u8]) -> bool
    ensures { result ≡ true → text.now ≡ printed report_text log.now }
{
    let mut space = [0u8; 2494];
    buffer::fill(&mut space);
    let n = tool_log::print_report(log, &mut space);
    n == text.len() && buffer::left(&space, text)
}
