// The effective units that each standard judges: those of the unit records for which it was the standard in force.
// That there are at most 512 standards stands in three contracts: each call asks for the bound that its array needs.
#![tactic(auto)]

ghost use Rattle.std.specs.Prelude.{◌≡◌, true, ◌+◌, ◌*◌, ◌<◌, ◌≤◌, replicate};
ghost use Rattle.std.specs.declared.result.Result.TheVariants.{Ok};
ghost use Rattle.records.specs.Log.{up_to, standard_at, unit_at};
ghost use Rattle.records.specs.Whole.{units_begin};
ghost use Rattle.rules.specs.Sequence.{is_rising, standard_key};
ghost use Rattle.rules.specs.RecordGrounds.{standard_grounds};
ghost use Rattle.theoretical.specs.Credits.{JudgedSoFar};

use records::UnitRecords;
use theoretical::Standards;

// The units of unit record i counted for the standard that judges it. `byte` is where the record begins.
fn count_unit(
    log: UnitRecords<'_>,
    i: usize,
    byte: usize,
    standards: &Standards,
    judged: &mut [u64; 512],
)
    requires listed { (standards.now ≡ up_to (standard_at log.bytes.now log.header) log.header.standards) × (log.header.standards ≤ 512) }
    requires rising { is_rising standard_key standards.now ≡ true }
    requires so_far { JudgedSoFar (λ u. u.effective) standards.now (up_to (unit_at log.bytes.now log.header) i) i judged.old }
    requires i_bound { (i < 2000) × (i < log.header.units) × (byte ≡ units_begin log.header + 11 * i) }
    ensures { JudgedSoFar (λ u. u.effective) standards.now (up_to (unit_at log.entry.bytes.now log.entry.header) (i + 1)) (i + 1) judged.new }
{
    let u = log.record_from(byte);
    if let Some(p) = standards.look_up(u.module, u.recipe, u.time) {
        theoretical::count(judged, p.index, u.effective);
    }
}

// All unit records, one by one. By index, which the contract counts by; `byte` goes along, since a place worked out from the index at each record is slower.
fn count_units(log: UnitRecords<'_>, standards: &Standards, judged: &mut [u64; 512])
    requires listed { (standards.now ≡ up_to (standard_at log.bytes.now log.header) log.header.standards) × (log.header.standards ≤ 512) }
    requires rising { is_rising standard_key standards.now ≡ true }
    requires so_far { JudgedSoFar (λ u. u.effective) standards.now (up_to (unit_at log.bytes.now log.header) 0) 0 judged.old }
    requires units_bound { log.header.units ≤ 2000 }
    ensures { JudgedSoFar (λ u. u.effective) standards.now (up_to (unit_at log.entry.bytes.now log.entry.header) log.entry.header.units) log.entry.header.units judged.new }
{
    let mut byte = log.begin();
    for i in 0..log.header.units {
        count_unit(log, i, byte, standards, judged);
        byte += 11;
    }
}

// Counts the effective units that each standard judges. Not a buyer's call: the caller owes that the log's counts are within their bounds, that its standards
// are accepted and that the counters start at zero.
pub fn effective_units(log: UnitRecords<'_>, judged: &mut [u64; 512])
    requires counts_bound { (log.header.standards ≤ 512) × (log.header.units ≤ 2000) }
    requires accepted { standard_grounds log.header.period log.header.modules (up_to (standard_at log.bytes.now log.header) log.header.standards) ≡ Ok tt }
    requires judged_value { judged.old ≡ replicate 512 0 }
    ensures { JudgedSoFar (λ u. u.effective) (up_to (standard_at log.entry.bytes.now log.entry.header) log.entry.header.standards) (up_to (unit_at log.entry.bytes.now log.entry.header) log.entry.header.units) log.entry.header.units judged.new }
{
    let mut standards = Standards::new();
    // They are accepted, so none is refused.
    let _ = theoretical::list_standards(log.standards(), &mut standards);
    count_units(log, &standards, judged);
}
