// Which time was used: the actual units credited to each standard, and the standard in force for a module, a recipe and a time. No public call has a `requires`.
#![tactic(auto)]

ghost use Rattle.std.specs.Prelude.{◌≡◌, ◌∷◌, []};
ghost use Rattle.records.specs.Log.{up_to, standard_at};
ghost use Rattle.rules.specs.Theoretical.{has_begun, last_in_force};
ghost use Rattle.crediting.specs.Calls.{in_force_of, CreditedUnits, StandardInForce};

use records::{Standard, StandardRecords};
use rules::Refusal;

// A standard in force: its index in the log's list, and its theoretical time in ms.
#[derive(Clone, Copy, PartialEq, Eq)]
pub struct InForce {
    pub index: usize,
    pub time: u64,
}

impl From<InForce> for [u64; 2] {
    ghost from_gives = { λ f numbers. numbers ≡ f.index ∷ f.time ∷ [] };

    fn from(f: InForce) -> [u64; 2] {
        [f.index as u64, f.time]
    }
}

// The actual units credited to each standard, by its index, and 0 where the log has no standard.
pub fn credited_units(log: &[u8]) -> Result<[u64; 512], Refusal>
    ensures { CreditedUnits log.now result }
{
    let mut credited = [0u64; 512];
    judging::judge_credited(log, &mut credited)?;
    Ok(credited)
}

// Whether a standard is for the module and the recipe and starts at or before the time.
fn has_begun(s: Standard, module: usize, recipe: usize, time: u64) -> bool
    ensures { result ≡ has_begun «module» recipe time s }
{
    (s.module == module && s.recipe == recipe) && s.start <= time
}

// The walk over the standards from the last: they rise, so the first on the way that has begun is the latest. `theoretical::Standards` is not built: that pays for many
// units, and asks for recipes below 1,024.
fn last_begun(
    standards: StandardRecords<'_>,
    module: usize,
    recipe: usize,
    time: u64,
) -> Option<InForce>
    ensures { result ≡ in_force_of (last_in_force (up_to (standard_at standards.entry.bytes.now standards.entry.header) standards.entry.header.standards) «module» recipe time) }
{
    for index in (0..standards.header.standards).rev() {
        let s = standards.record(index);
        if has_begun(s, module, recipe, time) {
            return Some(InForce {
                index,
                time: s.theoretical,
            });
        }
    }
    None
}

// The standard in force for a module, a recipe and a time, or none. Any recipe and any time may be asked for: none is for a recipe that no standard has, and the last one
// stays in force past the period.
pub fn standard_in_force(
    log: &[u8],
    module: usize,
    recipe: usize,
    time: u64,
) -> Result<Option<InForce>, Refusal>
    ensures { StandardInForce log.now «module» recipe time result }
{
    let account = answering::judge_module(log, module)?;
    Ok(last_begun(account.log.standards(), module, recipe, time))
}
