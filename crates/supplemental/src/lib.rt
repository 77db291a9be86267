// The call for the four supplemental figures of the tool. It has no `requires`.
#![tactic(auto)]

ghost use Rattle.std.specs.Prelude.{◌≡◌, ◌<◌};
ghost use Rattle.e79.specs.Quantities.{Portion};
ghost use Rattle.e79.specs.Printed.{rounded_of};
ghost use Rattle.supplemental.specs.Calls.{ToolSupplemental};
ghost use Rattle.supplemental.specs.Supplemental.{supplementals_of};

use benchmarks::Sums;
use judging::Account;
use rules::{Ground, LogList, Refusal};

// Reference, optimized-recipe, value-added and total effective units OEE of the tool, in ten-thousandths. The fields of
// `benchmarks::Sums`: one type for both would let sums in ms stand where ten-thousandths are due.
#[derive(Clone, Copy, PartialEq, Eq)]
pub struct Supplemental {
    pub reference: u64,
    pub optimized: u64,
    pub added: u64,
    pub units: u64,
}

// The four, in the sequence in which they are handed out.
impl From<Supplemental> for [u64; 4] {
    ghost from_gives = { λ f numbers. numbers ≡ supplementals_of f };

    fn from(f: Supplemental) -> [u64; 4] {
        [f.reference, f.optimized, f.added, f.units]
    }
}

// The four sums over a total time.
fn figures_of(sums: Sums, total: u64) -> Supplemental
    requires portion { Portion sums.reference total × Portion sums.optimized total × Portion sums.added total × Portion sums.units total }
    requires total_nonzero { 0 < total }
    ensures { result ≡ record { reference = rounded_of sums.reference total; optimized = rounded_of sums.optimized total; added = rounded_of sums.added total; units = rounded_of sums.units total } }
{
    Supplemental {
        reference: e79::rounded_of(sums.reference, total),
        optimized: e79::rounded_of(sums.optimized, total),
        added: e79::rounded_of(sums.added, total),
        units: e79::rounded_of(sums.units, total),
    }
}

// An accepted log measured by its benchmarks.
fn measure(account: &Account<'_>, benchmarks: &[u8]) -> Result<Supplemental, Refusal>
    ensures { ToolSupplemental account.now.log.bytes.now benchmarks.now result }
{
    let log = account.log;
    Ground::Length.refuses(
        benchmarks.len() != 14 * log.header.standards,
        LogList::Benchmarks,
        0,
    )?;
    let mut judged = [0u64; 512];
    judged::effective_units(log.units(), &mut judged);
    let sums = benchmarks::sum_benchmarks(log.standards(), benchmarks, &judged)?;
    Ok(figures_of(sums, account.tool_quantities().total))
}

// The supplemental figures of a log, by one benchmark of 14 bytes for each of its standards.
pub fn tool_supplemental(log: &[u8], benchmarks: &[u8]) -> Result<Supplemental, Refusal>
    ensures { ToolSupplemental log.now benchmarks.now result }
{
    measure(&judging::judge_log(log)?, benchmarks)
}
