// The account of an accepted log: all that the calls answer from.
ghost use Rattle.std.specs.Prelude.{◌≡◌, ◌<◌, ◌≤◌};
ghost use Rattle.std.specs.declared.result.Result.TheVariants.{Ok};
ghost use Rattle.records.specs.Log.{decode};
ghost use Rattle.rules.specs.Quantities.{module_times, tool_times, of_module, of_tool};
ghost use Rattle.rules.specs.Verdict.{verdict};
ghost use Rattle.judging.specs.Working.{Consistent, WorkingTotals};

use crate::sums::Totals;
use e79::Quantities;
use records::WholeLog;
use rules::StateTimes;

// An accepted log, with its working totals. Its calls are those of `Totals`, without what an account owns already. The arrays stand in the account itself and are
// written there once: each copy of them takes a short log some 5 % longer.
#[derive(Clone, Copy)]
pub struct Account<'a> {
    pub log: WholeLog<'a>,
    pub totals: [u64; 384],
    pub uptime: [u64; 64],
    pub actual: [u64; 64],
    pub effective: [u64; 64],
    pub ghost accepted: { verdict log.bytes.now ≡ Ok tt },
    pub ghost consistent: { Consistent (decode log.bytes.now) },
    pub ghost working_totals: { WorkingTotals (decode log.bytes.now) totals uptime actual effective },
}

impl<'a> Account<'a> {
    // What the calls are answered from.
    fn sums(&self) -> Totals<'_>
        ensures { result.log ≡ self.now.log.bytes }
    {
        Totals {
            log: self.log.bytes,
            period: self.log.header.period,
            modules: self.log.header.modules,
            totals: &self.totals,
            uptime: &self.uptime,
            actual: &self.actual,
            effective: &self.effective,
        }
    }

    // How many modules the tool has.
    pub fn modules(&self) -> usize
        ensures { (result ≡ (decode self.now.log.bytes.now).modules) × (result ≤ 64) }
    {
        self.log.header.modules
    }

    // The six state times of module m.
    pub fn module_times(&self, m: usize) -> StateTimes
        requires { m < (decode self.now.log.bytes.now).modules }
        ensures { result ≡ module_times (decode self.now.log.bytes.now) m }
    {
        self.sums().module_times(m)
    }

    // The tool's, which sum those of its modules.
    pub fn tool_times(&self) -> StateTimes
        ensures { result ≡ tool_times (decode self.now.log.bytes.now) }
    {
        self.sums().tool_times()
    }

    // The five quantities of module m.
    pub fn module_quantities(&self, m: usize) -> Quantities
        requires { m < (decode self.now.log.bytes.now).modules }
        ensures { result ≡ of_module (decode self.now.log.bytes.now) m }
    {
        self.sums().module_quantities(m)
    }

    // The tool's.
    pub fn tool_quantities(&self) -> Quantities
        ensures { result ≡ of_tool (decode self.now.log.bytes.now) }
    {
        self.sums().tool_quantities()
    }
}
