// The header and the length of a log: grounds 1 to 5.
ghost use Rattle.std.specs.Prelude.{◌≡◌, false};
ghost use Rattle.records.specs.Log.{header_of};
ghost use Rattle.rules.specs.Verdict.{bad_period, bad_modules, bad_counts, bad_length, header_grounds};

use records::Header;
use rules::{Ground, LogList, Refusal};

fn bad_period(period: u64) -> bool
    ensures { result ≡ bad_period period }
{
    period == 0 || 31622400000 < period
}

// A twin of `bad_period` in shape alone: each states its own ground with its own bounds, and one function over a type and a bound would be no plainer.
fn bad_modules(modules: usize) -> bool
    ensures { result ≡ bad_modules modules }
{
    modules == 0 || 64 < modules
}

fn bad_counts(h: Header) -> bool
    ensures { result ≡ bad_counts h }
{
    6000 < h.states || (512 < h.standards || 2000 < h.units)
}

fn bad_length(length: usize, h: Header) -> bool
    requires { bad_counts h ≡ false }
    ensures { result ≡ bad_length length h }
{
    length != 10 + 6 * h.states + 10 * h.standards + 11 * h.units
}

// 1 to 5, by number.
#[tactic(auto, unfolding(rules::specs::Verdict::header_grounds))]
pub fn test_header(log: &[u8], h: Header) -> Result<(), Refusal>
    requires { h ≡ header_of log.now }
    ensures { result ≡ header_grounds log.now }
{
    Ground::NoHeader.refuses(log.len() < 10, LogList::NoList, 0)?;
    Ground::Period.refuses(bad_period(h.period), LogList::NoList, 0)?;
    Ground::Modules.refuses(bad_modules(h.modules), LogList::NoList, 0)?;
    Ground::Counts.refuses(bad_counts(h), LogList::NoList, 0)?;
    Ground::Length.refuses(bad_length(log.len(), h), LogList::NoList, 0)
}
