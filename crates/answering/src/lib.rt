// The calls for state times, quantities, doubles and losses, of a module and of the tool. None has a `requires`. Each is answered by a definition of its
// own and called from C by a name of its own: a generic call over what is asked for would be a ninth name, and no shorter. An account is looked at where it was
// answered, by `match` and not by `?`, which copies its 4.6 KB twice.
#![tactic(auto)]

ghost use Rattle.std.specs.Prelude.{◌≡◌, ◌<◌, leb};
ghost use Rattle.std.specs.Result.{MatchResult};
ghost use Rattle.std.specs.declared.result.Result.TheVariants.{Err};
ghost use Rattle.records.specs.Log.{decode};
ghost use Rattle.rules.specs.declared.Ground.TheVariants.{StrayModule};
ghost use Rattle.rules.specs.declared.LogList.TheVariants.{NoList};
ghost use Rattle.rules.specs.Grounds.{ground};
ghost use Rattle.rules.specs.Verdict.{verdict_on};
ghost use Rattle.answering.specs.Calls.{ModuleTimes, ToolTimes, ModuleQuantities, ToolQuantities, ModuleFigures, ToolFigures, ModuleLosses, ToolLosses};

use e79::{Figures, Quantities};
use judging::Account;
use losses::Losses;
use rules::{Ground, LogList, Refusal, StateTimes};

// A module that the log of an account does not have is stray.
fn test_module(account: &Account<'_>, m: usize) -> Result<(), Refusal>
    ensures { result ≡ ground StrayModule NoList m (leb (decode account.now.log.bytes.now).modules m) }
{
    Ground::StrayModule.refuses(account.modules() <= m, LogList::NoList, m)
}

// The account of an accepted log that has module m, handed out.
pub fn judge_module(log: &[u8], m: usize) -> Result<Account<'_>, Refusal>
    ensures { MatchResult result (λ a. (a.log.bytes ≡ log.entry) × (m < (decode log.entry.now).modules)) (λ x. verdict_on log.entry.now m ≡ Err x) }
{
    let account = judging::judge_log(log)?;
    test_module(&account, m)?;
    Ok(account)
}

// The six state times of module m.
pub fn module_state_times(log: &[u8], m: usize) -> Result<StateTimes, Refusal>
    ensures { ModuleTimes log.now m result }
{
    match &judging::judge_log(log) {
        Ok(account) => {
            test_module(account, m)?;
            Ok(account.module_times(m))
        }
        Err(x) => Err(*x),
    }
}

// The tool's, which sum those of its modules.
pub fn tool_state_times(log: &[u8]) -> Result<StateTimes, Refusal>
    ensures { ToolTimes log.now result }
{
    match &judging::judge_log(log) {
        Ok(account) => Ok(account.tool_times()),
        Err(x) => Err(*x),
    }
}

// The five quantities of module m.
pub fn module_quantities(log: &[u8], m: usize) -> Result<Quantities, Refusal>
    ensures { ModuleQuantities log.now m result }
{
    match &judging::judge_log(log) {
        Ok(account) => {
            test_module(account, m)?;
            Ok(account.module_quantities(m))
        }
        Err(x) => Err(*x),
    }
}

// The tool's.
pub fn tool_quantities(log: &[u8]) -> Result<Quantities, Refusal>
    ensures { ToolQuantities log.now result }
{
    match &judging::judge_log(log) {
        Ok(account) => Ok(account.tool_quantities()),
        Err(x) => Err(*x),
    }
}

// The set of doubles of module m.
pub fn module_figures(log: &[u8], m: usize) -> Result<Figures, Refusal>
    ensures { ModuleFigures log.now m result }
{
    match &judging::judge_log(log) {
        Ok(account) => {
            test_module(account, m)?;
            Ok(e79::figures_of_ordered(account.module_quantities(m)))
        }
        Err(x) => Err(*x),
    }
}

// The tool's.
pub fn tool_figures(log: &[u8]) -> Result<Figures, Refusal>
    ensures { ToolFigures log.now result }
{
    match &judging::judge_log(log) {
        Ok(account) => Ok(e79::figures_of_ordered(account.tool_quantities())),
        Err(x) => Err(*x),
    }
}

// The losses of module m, which add up.
pub fn module_losses(log: &[u8], m: usize) -> Result<Losses, Refusal>
    ensures { ModuleLosses log.now m result }
{
    match &judging::judge_log(log) {
        Ok(account) => {
            test_module(account, m)?;
            Ok(losses::losses_of_ordered(account.module_quantities(m)))
        }
        Err(x) => Err(*x),
    }
}

// The tool's.
pub fn tool_losses(log: &[u8]) -> Result<Losses, Refusal>
    ensures { ToolLosses log.now result }
{
    match &judging::judge_log(log) {
        Ok(account) => Ok(losses::losses_of_ordered(account.tool_quantities())),
        Err(x) => Err(*x),
    }
}
