// The working totals of a log, and the state times and the quantities of a module and of the tool out of them.
ghost use Rattle.std.specs.Prelude.{◌≡◌, ℕ, ◌+◌, ◌*◌, ◌<◌, ◌≤◌, get_or};
ghost use Rattle.records.specs.Log.{decode};
ghost use Rattle.rules.specs.Quantities.{sum_below, module_times, tool_times, of_module, of_tool};
ghost use Rattle.judging.specs.Working.{Consistent, WorkingTotals};

use e79::Quantities;
use rules::StateTimes;

// What its header says of period and modules, and the working totals, lent: for each module six state times, the uptime, and the theoretical times for actual
// and for effective units. Arrays summed by the module's number, and no array of structs: the pass over the states adds to the first alone, at six
// times module plus state, as document 01 has it. Period and modules are the header's, which `records::read_header` gives for every slice. That the log is
// consistent stands in three contracts: totals are seen before the speeds are tested, and an `Account` owns it.
#[derive(Clone, Copy)]
pub struct Totals<'a> {
    pub log: &'a [u8],
    pub period: u64,
    pub modules: usize,
    pub totals: &'a [u64; 384],
    pub uptime: &'a [u64; 64],
    pub actual: &'a [u64; 64],
    pub effective: &'a [u64; 64],
    pub ghost period_value: { period ≡ (decode log.now).period },
    pub ghost modules_value: { modules ≡ (decode log.now).modules },
    pub ghost working_totals: { WorkingTotals (decode log.now) totals.now uptime.now actual.now effective.now },
}

// A quantity summed over the modules. By number: `values[..modules].iter().sum()` was tried, and that `modules` is within the array did not close.
fn sum_modules(values: &[u64; 64], modules: usize) -> u64
    requires { (modules ≤ 64) × ((m : ℕ) → m < modules → get_or values.now m 0 ≤ 31622400000) }
    ensures { result ≡ sum_below (λ m. get_or values.now m 0) modules }
{
    let mut sum: u64 = 0;
    for m in 0..modules {
        sum += values[m];
    }
    sum
}

impl<'a> Totals<'a> {
    // The six state times of module m.
    pub fn module_times(&self, m: usize) -> StateTimes
        requires { (m < (decode self.now.log.now).modules) × (m < 64) }
        ensures { result ≡ module_times (decode self.now.log.now) m }
    {
        let at = 6 * m;
        StateTimes {
            productive: self.totals[at],
            standby: self.totals[at + 1],
            engineering: self.totals[at + 2],
            scheduled: self.totals[at + 3],
            unscheduled: self.totals[at + 4],
            nonscheduled: self.totals[at + 5],
        }
    }

    // The five quantities of module m.
    pub fn module_quantities(&self, m: usize) -> Quantities
        requires { (m < (decode self.now.log.now).modules) × (m < 64) }
        ensures { result ≡ of_module (decode self.now.log.now) m }
    {
        let at = 6 * m;
        Quantities {
            total: self.period,
            uptime: self.uptime[m],
            production: self.totals[at],
            actual: self.actual[m],
            effective: self.effective[m],
        }
    }

    // The time in state k summed over the modules. A number, as in the array: the enum of states is private to `states`.
    fn sum_state(&self, k: usize) -> u64
        requires state { k < 6 }
        requires consistent { Consistent (decode self.now.log.now) }
        ensures { result ≡ sum_below (λ m. get_or self.now.totals.now (6 * m + k) 0) self.now.modules }
    {
        let mut sum: u64 = 0;
        // By index: a module's six totals stand side by side.
        for m in 0..self.modules {
            sum += self.totals[6 * m + k];
        }
        sum
    }

    // The tool's six state times.
    pub fn tool_times(&self) -> StateTimes
        requires { Consistent (decode self.now.log.now) }
        ensures { result ≡ tool_times (decode self.now.log.now) }
    {
        StateTimes {
            productive: self.sum_state(0),
            standby: self.sum_state(1),
            engineering: self.sum_state(2),
            scheduled: self.sum_state(3),
            unscheduled: self.sum_state(4),
            nonscheduled: self.sum_state(5),
        }
    }

    // The tool's five quantities.
    pub fn tool_quantities(&self) -> Quantities
        requires { Consistent (decode self.now.log.now) }
        ensures { result ≡ of_tool (decode self.now.log.now) }
    {
        Quantities {
            total: self.period * self.modules as u64,
            uptime: sum_modules(self.uptime, self.modules),
            production: self.sum_state(0),
            actual: sum_modules(self.actual, self.modules),
            effective: sum_modules(self.effective, self.modules),
        }
    }
}
