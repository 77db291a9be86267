// Numbers read from text.
#![tactic(auto)]

ghost use Rattle.std.specs.Prelude.{◌≡◌, ℕ, ◌^◌, ◌<◌, Some, Ok, IfSome, ⊤};
ghost use Rattle.std.specs.Str.Parse.{ParsesUnsigned};
ghost use Rattle.report.specs.Report.{decimal};
ghost use Rattle.parsing.specs.Parsed.{ParsedFrom};

// The number that std reads a text as. It takes a sign and leading zeros too.
fn read(text: &[u8]) -> Option<u64>
    ensures number { IfSome result (λ n. ParsesUnsigned {E = ⊤} 64 10 text.now (Ok n)) }
    ensures decimal { (n : ℕ) → n < 2 ^ 64 → text.now ≡ decimal n → result ≡ Some n }
{
    str::from_utf8(text).ok()?.parse().ok()
}

// The number whose decimal a text is, with no sign and no leading zero.
pub fn parse_number(text: &[u8]) -> Option<u64>
    ensures { ParsedFrom text.now result }
{
    let mut space = [0u8; 20];
    // no decimal is longer, and a longer text is not read to its end
    if text.len() > space.len() {
        return None;
    }
    let n = read(text)?;
    let size = report::put_decimal(&mut space, 0, n);
    if &space[..size] == text {
        Some(n)
    } else {
        None
    }
}
