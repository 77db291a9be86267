// The pass over the state records of a log: it tests each record and sums the modules' state times on the way.
#![tactic(auto)]

ghost use Rattle.std.specs.Prelude.{◌≡◌, List, ◌+◌, ◌*◌, ◌^◌, ◌<◌, ◌≤◌, get_or, replicate, true};
ghost use Rattle.records.specs.declared.StateRecord.{StateRecord};
ghost use Rattle.records.specs.Log.{state_at, up_to};
ghost use Rattle.rules.specs.Time.{state_of};
ghost use Rattle.rules.specs.Keys.{state_number, StateFits, StatesSequenced};
ghost use Rattle.rules.specs.RecordGrounds.{state_ground};
ghost use Rattle.states.specs.Tally.{Tallied};
ghost use Rattle.states.specs.State.{number};
ghost use Rattle.states.specs.Held.{is_uptime, uptime_marks, uptime_in, Ending, stretch_ended, Holding, Stepped, Scanned};

use records::{Header, StateRecord, StateRecords};
use rules::{Ground, LogList, Refusal};

// The six states of E10.
#[derive(Clone, Copy, PartialEq, Eq)]
enum State {
    Productive,
    Standby,
    Engineering,
    ScheduledDown,
    UnscheduledDown,
    Nonscheduled,
}

// The state of each sub-state code.
const STATES: [State; 24] = [
    State::Productive,
    State::Productive,
    State::Productive,
    State::Productive,
    State::Productive,
    State::Productive,
    State::Standby,
    State::Standby,
    State::Standby,
    State::Standby,
    State::Standby,
    State::Standby,
    State::Engineering,
    State::Engineering,
    State::ScheduledDown,
    State::ScheduledDown,
    State::ScheduledDown,
    State::ScheduledDown,
    State::UnscheduledDown,
    State::UnscheduledDown,
    State::UnscheduledDown,
    State::UnscheduledDown,
    State::Nonscheduled,
    State::Nonscheduled,
];

impl State {
    // The state of a code. The table is lent, since a constant that is indexed is laid out anew at each use.
    fn of(code: usize) -> State
        requires { code < 24 }
        ensures { number result ≡ state_of code }
    {
        let table = &STATES;
        table[code]
    }

    // Where a module's time in this state stands among its six totals.
    fn number(self) -> usize
        ensures { (result ≡ number self) × (result < 6) }
    {
        self as usize
    }

    // Whether it counts as uptime.
    fn is_uptime(self) -> bool
        ensures { result ≡ is_uptime (number self) }
    {
        match self {
            State::Productive | State::Standby | State::Engineering => true,
            _ => false,
        }
    }
}

// A record's time and module in one number above 0, by which records ascend. One number and no derived order: field by field was tried, and slower by 15 % on
// the longest sample.
fn number_of(r: StateRecord) -> u64
    requires { StateFits r }
    ensures { result ≡ state_number r }
{
    (r.time + 1) * 64 + r.module as u64
}

// The first ground that record i meets. `before` is the number of the record before it, and 0, below every number, where there is none. Those before rise: so a
// record above them is later than its own module's last.
#[tactic(auto, unfolding(rules::specs::RecordGrounds::state_ground))]
fn test(r: StateRecord, i: usize, h: Header, before: u64) -> Result<(), Refusal>
    requires { StateFits r }
    ensures { (earlier : List StateRecord) → StatesSequenced earlier before → result ≡ state_ground h.period h.modules earlier i r }
{
    Ground::Spare.refuses(r.spare != 0, LogList::States, i)?;
    Ground::StrayModule.refuses(h.modules <= r.module, LogList::States, i)?;
    Ground::StrayCode.refuses(23 < r.code, LogList::States, i)?;
    Ground::Outside.refuses(h.period <= r.time, LogList::States, i)?;
    Ground::Sequence.refuses(number_of(r) <= before, LogList::States, i)
}

// What is held of the records passed.
#[derive(Drop)]
struct Tally<'a> {
    totals: &'a mut [u64; 384],
    // Of each module, in one word, eight times the least time that its next record may have, and the state that it is in since its latest; 0 where
    // it has no record yet. An Option of a struct is twice as large.
    latest: [u64; 64],
    // Whether its first record is at 0: no bit of the word, where it would be carried over at every record.
    opened: [bool; 64],
    // The number of the record before, and 0 where there is none.
    before: u64,
}

impl<'a> Tally<'a> {
    // A `&mut self` could exchange the lent totals: that it does not (`same_totals`) is said by each call.
    // Ends module m's open stretch: its length is added to the total of its state.
    fn end_stretch(&mut self, m: usize, end: u64)
        requires module_bound { m < 64 }
        requires ending { Ending self.old.totals.now self.old.latest m end }
        ensures same_totals { self.new.totals.ghost_name ≡ self.old.totals.ghost_name }
        ensures others { (self.new.latest ≡ self.old.latest) × (self.new.opened ≡ self.old.opened) × (self.new.before ≡ self.old.before) }
        ensures totals { self.new.totals.now ≡ stretch_ended self.old.totals.now self.old.latest m end }
    {
        let word = self.latest[m];
        let at = 6 * m + (word % 8) as usize;
        self.totals[at] += end - (word / 8 - 1);
    }

    // Tests record i. Where it passes, its module's open stretch ends and the next begins.
    #[tactic(auto, using(crate::proofs::Pass::module_fits, crate::proofs::Pass::time_fits))]
    fn take(&mut self, log: StateRecords<'_>, i: usize) -> Result<(), Refusal>
        requires listed { i < log.header.states }
        requires held { Holding (up_to (state_at log.bytes.now) i) log.header.period self.old }
        ensures same_totals { self.new.totals.ghost_name ≡ self.old.totals.ghost_name }
        ensures stepped { Stepped (state_at log.entry.bytes.now) log.entry.header.period log.entry.header.modules i result self.new }
    {
        let r = log.record(i);
        let m = r.module;
        let t = r.time;
        test(r, i, log.header, self.before)?;
        if self.latest[m] == 0 {
            self.opened[m] = t == 0;
        } else {
            self.end_stretch(m, t);
        }
        self.latest[m] = (t + 1) * 8 + State::of(r.code).number() as u64;
        self.before = number_of(r);
        Ok(())
    }

    // All records, one by one.
    fn take_all(&mut self, log: StateRecords<'_>) -> Result<(), Refusal>
        requires { Holding (up_to (state_at log.bytes.now) 0) log.header.period self.old }
        ensures same_totals { self.new.totals.ghost_name ≡ self.old.totals.ghost_name }
        ensures scanned { Scanned (state_at log.entry.bytes.now) log.entry.header.period log.entry.header.modules log.entry.header.states result self.new }
    {
        // By index, which a refusal names.
        for i in 0..log.header.states {
            self.take(log, i)?;
        }
        Ok(())
    }
}

// For each state whether it counts as uptime, read from the table's entries.
fn uptime_states() -> [bool; 6]
    ensures { result ≡ uptime_marks 24 }
{
    let mut counts = [false; 6];
    for state in &STATES {
        counts[state.number()] = state.is_uptime();
    }
    counts
}

// Module m's uptime: its time in the states that count.
fn uptime_of(totals: &[u64; 384], counts: &[bool; 6], m: usize) -> u64
    requires { (m < 64) × (counts.now ≡ uptime_marks 24) × (uptime_in totals.now m < 2 ^ 64) }
    ensures { result ≡ uptime_in totals.now m }
{
    let mut sum = 0;
    for (k, counted) in counts.iter().enumerate() {
        if *counted {
            sum += totals[6 * m + k];
        }
    }
    sum
}

// Tests the state records one by one and sums the modules' state times on the way, in one pass. Then the modules, the lowest first: each must be
// opened, and its last stretch ends with the period.
// No buyer's call: the caller has tested the header, and lends counters that are zero; two arrays, since a module has six totals and one uptime.
pub fn tally_states(
    log: StateRecords<'_>,
    totals: &mut [u64; 384],
    uptime: &mut [u64; 64],
) -> Result<(), Refusal>
    requires modules_bound { log.header.modules ≤ 64 }
    requires totals_value { (totals.old ≡ replicate 384 0) × (uptime.old ≡ replicate 64 0) }
    ensures { let h = log.entry.header in
        Tallied (up_to (state_at log.entry.bytes.now) h.states) h.period h.modules result totals.new uptime.new }
{
    let mut tally = Tally {
        totals,
        latest: [0; 64],
        opened: [false; 64],
        before: 0,
    };
    tally.take_all(log)?;
    let counts = uptime_states();
    let h = log.header;
    // By index, which a refusal names.
    for m in 0..h.modules {
        Ground::NoOpening.refuses(!tally.opened[m], LogList::NoList, m)?;
        tally.end_stretch(m, h.period);
        uptime[m] = uptime_of(tally.totals, &counts, m);
    }
    Ok(())
}
