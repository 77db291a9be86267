// Credits each unit with the theoretical time in force when it was made, and to the standard whose time that is: the standards are tested and listed once, then
// the unit records are tested and summed.
#![tactic(auto)]

mod listing;

ghost use Rattle.std.specs.Prelude.{◌≡◌, true, ◌+◌, ◌*◌, ◌^◌, ◌<◌, ◌≤◌, [], get_or, set, replicate, IfOk};
ghost use Rattle.records.specs.Log.{up_to, standard_at, unit_at};
ghost use Rattle.records.specs.Whole.{units_begin};
ghost use Rattle.rules.specs.Sequence.{is_rising, standard_key};
ghost use Rattle.rules.specs.Keys.{standard_number, StandardFits, StandardsSequenced, unit_number, UnitFits, UnitsSequenced};
ghost use Rattle.rules.specs.Theoretical.{units_judged};
ghost use Rattle.rules.specs.RecordGrounds.{standard_ground, standard_grounds, unit_ground, unit_grounds};
ghost use Rattle.theoretical.specs.Credits.{own_grounds, Credited, SumsSoFar, JudgedSoFar, UnitsCredited};

pub use listing::Standards;
use records::{Header, Standard, StandardRecords, UnitRecord, UnitRecords};
use rules::{Ground, LogList, Refusal};

// A standard's module, recipe and start in one number above 0, by which standards ascend: as in `states`, no derived order, which was slower.
fn standard_number(s: Standard) -> u64
    requires { StandardFits s }
    ensures { result ≡ standard_number s }
{
    (s.module as u64 * 1024 + s.recipe as u64 + 1) * 0x8_0000_0000 + s.start
}

// Standard i tested. `before` is the number of the standard before it, and 0 where there is none. Those before rise: so one above them is none of them, and else one
// search tells twice from unsorted.
fn test_standard(
    h: Header,
    i: usize,
    before: u64,
    standards: &Standards,
    s: Standard,
) -> Result<(), Refusal>
    requires fits { StandardFits s }
    requires sequenced { StandardsSequenced standards.now before }
    ensures { result ≡ standard_ground h.period h.modules standards.now i s }
{
    Ground::Spare.refuses(s.spare != 0, LogList::Standards, i)?;
    Ground::StrayModule.refuses(h.modules <= s.module, LogList::Standards, i)?;
    Ground::Outside.refuses(h.period <= s.start, LogList::Standards, i)?;
    Ground::NoTime.refuses(s.theoretical == 0, LogList::Standards, i)?;
    let rises = before < standard_number(s);
    Ground::Twice.refuses(!rises && standards.has_like(s), LogList::Standards, i)?;
    Ground::Unsorted.refuses(!rises, LogList::Standards, i)
}

// Standard i tested, and listed where it passes.
fn list_standard(
    log: StandardRecords<'_>,
    i: usize,
    before: &mut u64,
    standards: &mut Standards,
) -> Result<(), Refusal>
    requires sequenced { StandardsSequenced standards.old before.old }
    requires listed { standards.old ≡ up_to (standard_at log.bytes.now log.header) i }
    requires i_bound { (i < 512) × (i < log.header.standards) }
    ensures answer { result ≡ standard_ground log.entry.header.period log.entry.header.modules (up_to (standard_at log.entry.bytes.now log.entry.header) i) i (standard_at log.entry.bytes.now log.entry.header i) }
    ensures sequenced { IfOk result (λ _. StandardsSequenced standards.new before.new) }
    ensures listed { IfOk result (λ _. standards.new ≡ up_to (standard_at log.entry.bytes.now log.entry.header) (i + 1)) }
{
    let s = log.record(i);
    test_standard(log.header, i, *before, standards, s)?;
    *before = standard_number(s);
    standards.push(s);
    Ok(())
}

// All standards, one by one, up to the first that is refused. Not a buyer's call: the caller owes that they are few enough.
pub fn list_standards(log: StandardRecords<'_>, standards: &mut Standards) -> Result<(), Refusal>
    requires standards_bound { log.header.standards ≤ 512 }
    requires none_listed { standards.old ≡ [] }
    ensures answer { result ≡ standard_grounds log.entry.header.period log.entry.header.modules (up_to (standard_at log.entry.bytes.now log.entry.header) log.entry.header.standards) }
    ensures listed { IfOk result (λ _. standards.new ≡ up_to (standard_at log.entry.bytes.now log.entry.header) log.entry.header.standards) }
{
    let mut before = 0;
    // By index: records are cut out of bytes, and a refusal names it.
    for i in 0..log.header.standards {
        list_standard(log, i, &mut before, standards)?;
    }
    Ok(())
}

// What looks at a unit record alone.
#[tactic(auto, unfolding(crate::specs::Credits::own_grounds))]
fn test_unit(h: Header, i: usize, u: UnitRecord) -> Result<(), Refusal>
    ensures { result ≡ own_grounds h.period h.modules i u }
{
    Ground::Spare.refuses(u.spare != 0, LogList::Units, i)?;
    Ground::StrayModule.refuses(h.modules <= u.module, LogList::Units, i)?;
    Ground::Outside.refuses(h.period <= u.time, LogList::Units, i)?;
    Ground::OverGood.refuses(u.actual < u.effective, LogList::Units, i)
}

// A unit record's time, module and recipe in one number above 0, by which unit records ascend: no derived order here either.
fn unit_number(u: UnitRecord) -> u64
    requires { UnitFits u }
    ensures { result ≡ unit_number u }
{
    ((u.time + 1) * 64 + u.module as u64) * 1024 + u.recipe as u64
}

// The sum of module m grows by the theoretical time for these units.
#[tactic(auto, using(crate::proofs::Crediting::credit_low))]
fn credit(sums: &mut [u64; 64], m: usize, units: u64, theoretical: u64)
    requires { (m < 64) × (units < 65536) × (theoretical < 134217728) × (get_or sums.old m 0 < 2 ^ 63) }
    ensures { sums.new ≡ set sums.old m (get_or sums.old m 0 + units * theoretical) }
{
    sums[m] += units * theoretical;
}

// The counter of standard i grows by these units. Not a buyer's call: the caller owes that the index is within the counters and that they are low.
pub fn count(counters: &mut [u64; 512], i: usize, units: u64)
    requires { (i < 512) × (units < 65536) × (get_or counters.old i 0 < 2 ^ 63) }
    ensures { counters.new ≡ set counters.old i (get_or counters.old i 0 + units) }
{
    counters[i] += units;
}

// Unit record i tested, and its units credited to its module and to its standard where it passes. `byte` is where it begins, and `before` the number of the
// record before it, 0 where there is none. The sums and `before` are parameters and no struct: each contract would speak of it before and after.
fn credit_unit(
    log: UnitRecords<'_>,
    i: usize,
    byte: usize,
    standards: &Standards,
    before: &mut u64,
    actual: &mut [u64; 64],
    effective: &mut [u64; 64],
    credited: &mut [u64; 512],
) -> Result<(), Refusal>
    requires listed { (standards.now ≡ up_to (standard_at log.bytes.now log.header) log.header.standards) × (log.header.standards ≤ 512) }
    requires rising { is_rising standard_key standards.now ≡ true }
    requires sequenced { UnitsSequenced (up_to (unit_at log.bytes.now log.header) i) before.old }
    requires summed { SumsSoFar standards.now (up_to (unit_at log.bytes.now log.header) i) i actual.old effective.old }
    requires judged { JudgedSoFar (λ u. u.actual) standards.now (up_to (unit_at log.bytes.now log.header) i) i credited.old }
    requires i_bound { (i < 2000) × (i < log.header.units) × (byte ≡ units_begin log.header + 11 * i) }
    ensures answer { result ≡ unit_ground log.entry.header.period log.entry.header.modules standards.now (up_to (unit_at log.entry.bytes.now log.entry.header) i) i (unit_at log.entry.bytes.now log.entry.header i) }
    ensures sequenced { IfOk result (λ _. UnitsSequenced (up_to (unit_at log.entry.bytes.now log.entry.header) (i + 1)) before.new) }
    ensures summed { IfOk result (λ _. SumsSoFar standards.now (up_to (unit_at log.entry.bytes.now log.entry.header) (i + 1)) (i + 1) actual.new effective.new) }
    ensures judged { IfOk result (λ _. JudgedSoFar (λ u. u.actual) standards.now (up_to (unit_at log.entry.bytes.now log.entry.header) (i + 1)) (i + 1) credited.new) }
{
    let u = log.record_from(byte);
    test_unit(log.header, i, u)?;
    let Some(p) = standards.look_up(u.module, u.recipe, u.time) else {
        return Ground::NoStandard.refuses(true, LogList::Units, i);
    };
    let number = unit_number(u);
    Ground::Unsorted.refuses(number <= *before, LogList::Units, i)?;
    *before = number;
    credit(actual, u.module, u.actual, p.standard.theoretical);
    credit(effective, u.module, u.effective, p.standard.theoretical);
    count(credited, p.index, u.actual);
    Ok(())
}

// All unit records, one by one, up to the first that is refused. Listed and rising stand in two contracts here and two in `judged`: a type for log and
// listing would be made at both, of what is at hand.
fn credit_listed(
    log: UnitRecords<'_>,
    standards: &Standards,
    actual: &mut [u64; 64],
    effective: &mut [u64; 64],
    credited: &mut [u64; 512],
) -> Result<(), Refusal>
    requires listed { (standards.now ≡ up_to (standard_at log.bytes.now log.header) log.header.standards) × (log.header.standards ≤ 512) }
    requires rising { is_rising standard_key standards.now ≡ true }
    requires summed { SumsSoFar standards.now (up_to (unit_at log.bytes.now log.header) 0) 0 actual.old effective.old }
    requires judged { JudgedSoFar (λ u. u.actual) standards.now (up_to (unit_at log.bytes.now log.header) 0) 0 credited.old }
    requires units_bound { log.header.units ≤ 2000 }
    ensures answer { result ≡ unit_grounds log.entry.header.period log.entry.header.modules standards.now (up_to (unit_at log.entry.bytes.now log.entry.header) log.entry.header.units) }
    ensures credited { IfOk result (λ _. Credited standards.now (up_to (unit_at log.entry.bytes.now log.entry.header) log.entry.header.units) actual.new effective.new) }
    ensures judged { IfOk result (λ _. credited.new ≡ up_to (units_judged (λ u. u.actual) standards.now (up_to (unit_at log.entry.bytes.now log.entry.header) log.entry.header.units)) 512) }
{
    let mut before = 0;
    let mut byte = log.begin();
    // By index, which a refusal names; `byte` goes along, since a place worked out from the index at each record is slower.
    for i in 0..log.header.units {
        credit_unit(
            log,
            i,
            byte,
            standards,
            &mut before,
            actual,
            effective,
            credited,
        )?;
        byte += 11;
    }
    Ok(())
}

// Tests the standards, then the unit records, sums the theoretical times for actual and for effective units of each module, and counts the actual units that each
// standard judges. Two arrays of sums and no array of pairs: each is summed over the modules on its own. Not a buyer's call: the caller owes that the counts are within
// their bounds and that sums and counters start at zero.
pub fn credit_units(
    log: UnitRecords<'_>,
    actual: &mut [u64; 64],
    effective: &mut [u64; 64],
    credited: &mut [u64; 512],
) -> Result<(), Refusal>
    requires counts_bound { (log.header.standards ≤ 512) × (log.header.units ≤ 2000) }
    requires actual_value { (actual.old ≡ replicate 64 0) × (effective.old ≡ replicate 64 0) × (credited.old ≡ replicate 512 0) }
    ensures { UnitsCredited log.entry.header.period log.entry.header.modules (up_to (standard_at log.entry.bytes.now log.entry.header) log.entry.header.standards) (up_to (unit_at log.entry.bytes.now log.entry.header) log.entry.header.units) result actual.new effective.new credited.new }
{
    let mut standards = Standards::new();
    list_standards(log.standards(), &mut standards)?;
    credit_listed(log, &standards, actual, effective, credited)
}
