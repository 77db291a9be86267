// Judges a log: all grounds in document 01's sequence, with the sums added up on the way.
#![tactic(auto)]

mod account;
mod header;
mod sums;

ghost use Rattle.std.specs.Prelude.{◌≡◌, ◌||◌, ◌≤◌, replicate, MatchResult, IfOk};
ghost use Rattle.std.specs.declared.result.Result.TheVariants.{Err};
ghost use Rattle.records.specs.Log.{decode};
ghost use Rattle.rules.specs.Grounds.{first_of};
ghost use Rattle.rules.specs.Credited.{credits_of};
ghost use Rattle.rules.specs.Verdict.{fast_ground, is_over, any_over, any_time_over, verdict};

pub use account::Account;
use e79::Quantities;
use records::WholeLog;
use rules::{Ground, LogList, Refusal, StateTimes};
pub use sums::Totals;

// The modules, the lowest first, for 16. By number, which a refusal names.
fn test_speeds(t: &Totals<'_>) -> Result<(), Refusal>
    requires { t.now.modules ≤ 64 }
    ensures { result ≡ first_of (fast_ground (decode t.now.log.now)) t.now.modules }
{
    for m in 0..t.modules {
        Ground::TooFast.refuses(t.totals[6 * m] < t.actual[m], LogList::NoList, m)?;
    }
    Ok(())
}

fn is_over(n: u64) -> bool
    ensures { result ≡ is_over n }
{
    9007199254740991 < n
}

// Number by number, as the definitions have them: out of a slice the five and the six would have to be found again.
fn any_over(a: u64, b: u64, c: u64, d: u64, e: u64) -> bool
    ensures { result ≡ is_over a || (is_over b || (is_over c || (is_over d || is_over e))) }
{
    is_over(a) || (is_over(b) || (is_over(c) || (is_over(d) || is_over(e))))
}

fn over_quantities(q: Quantities) -> bool
    ensures { result ≡ any_over q }
{
    any_over(q.total, q.uptime, q.production, q.actual, q.effective)
}

fn over_times(t: StateTimes) -> bool
    ensures { result ≡ any_time_over t }
{
    is_over(t.productive)
        || any_over(
            t.standby,
            t.engineering,
            t.scheduled,
            t.unscheduled,
            t.nonscheduled,
        )
}

// A log judged from nothing: its account, or the first ground met. The header, the state records, the standards and the unit records, the speeds, the
// tool's sums. The counters, which the caller owes to start at zero, are left with the actual units credited to each standard. They are lent and no part of an account,
// which is handed on by value.
pub fn judge_credited<'a>(log: &'a [u8], credited: &mut [u64; 512]) -> Result<Account<'a>, Refusal>
    requires { credited.old ≡ replicate 512 0 }
    ensures judged { MatchResult result (λ a. a.log.bytes ≡ log.entry) (λ x. verdict log.entry.now ≡ Err x) }
    ensures credited { IfOk result (λ _. credited.new ≡ credits_of (decode log.entry.now)) }
{
    let h = records::read_header(log);
    header::test_header(log, h)?;
    let log = WholeLog::new(log, h);
    let mut totals = [0u64; 384];
    let mut uptime = [0u64; 64];
    states::tally_states(log.states(), &mut totals, &mut uptime)?;
    let mut actual = [0u64; 64];
    let mut effective = [0u64; 64];
    theoretical::credit_units(log.units(), &mut actual, &mut effective, credited)?;
    let sums = Totals {
        log: log.bytes,
        period: h.period,
        modules: h.modules,
        totals: &totals,
        uptime: &uptime,
        actual: &actual,
        effective: &effective,
    };
    test_speeds(&sums)?;
    let over = over_quantities(sums.tool_quantities()) | over_times(sums.tool_times());
    Ground::TooGreat.refuses(over, LogList::NoList, 0)?;
    Ok(Account {
        log,
        totals,
        uptime,
        actual,
        effective,
    })
}

// The same for a call that hands no credited units out.
pub fn judge_log(log: &[u8]) -> Result<Account<'_>, Refusal>
    ensures { MatchResult result (λ a. a.log.bytes ≡ log.entry) (λ x. verdict log.entry.now ≡ Err x) }
{
    judge_credited(log, &mut [0u64; 512])
}
