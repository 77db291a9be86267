// What a dashboard links: the calls of `tool_log` as C functions. None has a `requires`, and each array that a caller lends has a fixed size.
// C has no Result, no generics and no struct of ours: a flag, numbers, arrays and a place, and a name for each call.
#![tactic(auto, using(crate::proofs::Handing::handing))]

ghost use Rattle.reporting.specs.Reports.{Written};
ghost use Rattle.tool_log_c.specs.Calls.{TellsVerdict, TellsModuleTimes, TellsToolTimes, TellsModuleQuantities, TellsToolQuantities, TellsModuleFigures, TellsToolFigures, TellsModuleLosses, TellsToolLosses, TellsCreditedUnits, TellsCreditedListing, TellsJoin, TellsPack, TellsInForce, TellsSupplemental, TellsAdding, TellsFinishing};
ghost use Rattle.writing.specs.Writing.{header_entry, state_entry, standard_entry, unit_entry};

// ---- the verdict and the report

// Acceptance of a log and a buffer of `room` bytes for its report, or the refusal.
#[unsafe(no_mangle)]
pub extern "C" fn tl_examine(log: &[u8], room: usize, refusal: &mut [u64; 3]) -> u32
    ensures { TellsVerdict log.now room result refusal.new }
{
    telling::tell(tool_log::examine(log, room), refusal)
}

// Writes the report to the front of the buffer and answers its length: 0, and no byte changed, in just the cases that `tl_examine` refuses for the
// buffer's length.
#[unsafe(no_mangle)]
pub extern "C" fn tl_report(log: &[u8], buf: &mut [u8]) -> usize
    ensures { Written log.now buf.old result buf.new }
{
    tool_log::write_report(log, buf)
}

// ---- state times, quantities, figures and losses

// The six state times of module m.
#[unsafe(no_mangle)]
pub extern "C" fn tl_module_state_times(
    log: &[u8],
    m: usize,
    times: &mut [u64; 6],
    refusal: &mut [u64; 3],
) -> u32
    ensures { TellsModuleTimes log.now m times.old result times.new refusal.new }
{
    telling::tell_numbers(tool_log::module_state_times(log, m), times, refusal)
}

// The tool's, which sum those of its modules.
#[unsafe(no_mangle)]
pub extern "C" fn tl_tool_state_times(
    log: &[u8],
    times: &mut [u64; 6],
    refusal: &mut [u64; 3],
) -> u32
    ensures { TellsToolTimes log.now times.old result times.new refusal.new }
{
    telling::tell_numbers(tool_log::tool_state_times(log), times, refusal)
}

// The five quantities of module m.
#[unsafe(no_mangle)]
pub extern "C" fn tl_module_quantities(
    log: &[u8],
    m: usize,
    quantities: &mut [u64; 5],
    refusal: &mut [u64; 3],
) -> u32
    ensures { TellsModuleQuantities log.now m quantities.old result quantities.new refusal.new }
{
    telling::tell_numbers(tool_log::module_quantities(log, m), quantities, refusal)
}

// The tool's.
#[unsafe(no_mangle)]
pub extern "C" fn tl_tool_quantities(
    log: &[u8],
    quantities: &mut [u64; 5],
    refusal: &mut [u64; 3],
) -> u32
    ensures { TellsToolQuantities log.now quantities.old result quantities.new refusal.new }
{
    telling::tell_numbers(tool_log::tool_quantities(log), quantities, refusal)
}

// The set of doubles of module m, and which of the four efficiencies have a base.
#[unsafe(no_mangle)]
pub extern "C" fn tl_module_figures(
    log: &[u8],
    m: usize,
    figures: &mut [f64; 6],
    based: &mut [u8; 4],
    refusal: &mut [u64; 3],
) -> u32
    ensures { TellsModuleFigures log.now m figures.old based.old result figures.new based.new refusal.new }
{
    telling::tell_figures(tool_log::module_figures(log, m), figures, based, refusal)
}

// The tool's.
#[unsafe(no_mangle)]
pub extern "C" fn tl_tool_figures(
    log: &[u8],
    figures: &mut [f64; 6],
    based: &mut [u8; 4],
    refusal: &mut [u64; 3],
) -> u32
    ensures { TellsToolFigures log.now figures.old based.old result figures.new based.new refusal.new }
{
    telling::tell_figures(tool_log::tool_figures(log), figures, based, refusal)
}

// The four losses and OEE of module m, in ten-thousandths that make 10,000.
#[unsafe(no_mangle)]
pub extern "C" fn tl_module_losses(
    log: &[u8],
    m: usize,
    losses: &mut [u64; 5],
    refusal: &mut [u64; 3],
) -> u32
    ensures { TellsModuleLosses log.now m losses.old result losses.new refusal.new }
{
    telling::tell_numbers(tool_log::module_losses(log, m), losses, refusal)
}

// The tool's.
#[unsafe(no_mangle)]
pub extern "C" fn tl_tool_losses(log: &[u8], losses: &mut [u64; 5], refusal: &mut [u64; 3]) -> u32
    ensures { TellsToolLosses log.now losses.old result losses.new refusal.new }
{
    telling::tell_numbers(tool_log::tool_losses(log), losses, refusal)
}

// ---- which time was used

// The actual units credited to each standard, by its index; 0 where the log has no standard.
#[unsafe(no_mangle)]
pub extern "C" fn tl_credited_units(
    log: &[u8],
    units: &mut [u64; 512],
    refusal: &mut [u64; 3],
) -> u32
    ensures { TellsCreditedUnits log.now units.old result units.new refusal.new }
{
    telling::tell_numbers(tool_log::credited_units(log), units, refusal)
}

// Writes the listing of credited units to the front of the buffer.
#[unsafe(no_mangle)]
pub extern "C" fn tl_credited_listing(
    log: &[u8],
    buf: &mut [u8],
    length: &mut [u64; 1],
    refusal: &mut [u64; 3],
) -> u32
    ensures { TellsCreditedListing log.now buf.old length.old result buf.new length.new refusal.new }
{
    telling::tell_position(tool_log::credited_listing(log, buf), length, refusal)
}

// The standard in force for a module, a recipe and a time: 2 says that none is.
#[unsafe(no_mangle)]
pub extern "C" fn tl_standard_in_force(
    log: &[u8],
    m: usize,
    recipe: usize,
    time: u64,
    standard: &mut [u64; 2],
    refusal: &mut [u64; 3],
) -> u32
    ensures { TellsInForce log.now m recipe time standard.old result standard.new refusal.new }
{
    telling::tell_found(
        tool_log::standard_in_force(log, m, recipe, time),
        standard,
        refusal,
    )
}

// ---- one log of two

// Writes one log of two consecutive ones to the front of the buffer.
#[unsafe(no_mangle)]
pub extern "C" fn tl_join(
    first: &[u8],
    second: &[u8],
    buf: &mut [u8],
    length: &mut [u64; 1],
    refusal: &mut [u64; 3],
) -> u32
    ensures { TellsJoin first.now second.now buf.old length.old result buf.new length.new refusal.new }
{
    telling::tell_position(tool_log::join_logs(first, second, buf), length, refusal)
}

// ---- a log packed

// Packs the log that fills the buffer.
#[unsafe(no_mangle)]
pub extern "C" fn tl_pack(buf: &mut [u8], length: &mut [u64; 1], refusal: &mut [u64; 3]) -> u32
    ensures { TellsPack buf.old length.old result buf.new length.new refusal.new }
{
    telling::tell_position(tool_log::pack_log(buf), length, refusal)
}

// ---- supplemental figures

// The tool's four supplemental figures, by one benchmark of 14 bytes for each standard.
#[unsafe(no_mangle)]
pub extern "C" fn tl_supplemental(
    log: &[u8],
    benchmarks: &[u8],
    figures: &mut [u64; 4],
    refusal: &mut [u64; 3],
) -> u32
    ensures { TellsSupplemental log.now benchmarks.now figures.old result figures.new refusal.new }
{
    telling::tell_numbers(
        tool_log::tool_supplemental(log, benchmarks),
        figures,
        refusal,
    )
}

// ---- writing a log

// Adds a header to the buffer.
#[unsafe(no_mangle)]
pub extern "C" fn tl_put_header(
    buf: &mut [u8],
    at: usize,
    period: u64,
    modules: u64,
    states: u64,
    standards: u64,
    units: u64,
    next: &mut [u64; 1],
    refusal: &mut [u64; 3],
) -> u32
    ensures { TellsAdding (header_entry period modules states standards units) buf.old at next.old result buf.new next.new refusal.new }
{
    telling::tell_position(
        tool_log::put_header(buf, at, period, modules, states, standards, units),
        next,
        refusal,
    )
}

// A state record.
#[unsafe(no_mangle)]
pub extern "C" fn tl_put_state(
    buf: &mut [u8],
    at: usize,
    module: u64,
    code: u64,
    time: u64,
    next: &mut [u64; 1],
    refusal: &mut [u64; 3],
) -> u32
    ensures { TellsAdding (state_entry «module» code time) buf.old at next.old result buf.new next.new refusal.new }
{
    telling::tell_position(
        tool_log::put_state(buf, at, module, code, time),
        next,
        refusal,
    )
}

// A standard.
#[unsafe(no_mangle)]
pub extern "C" fn tl_put_standard(
    buf: &mut [u8],
    at: usize,
    module: u64,
    recipe: u64,
    start: u64,
    theoretical: u64,
    next: &mut [u64; 1],
    refusal: &mut [u64; 3],
) -> u32
    ensures { TellsAdding (standard_entry «module» recipe start theoretical) buf.old at next.old result buf.new next.new refusal.new }
{
    telling::tell_position(
        tool_log::put_standard(buf, at, module, recipe, start, theoretical),
        next,
        refusal,
    )
}

// A unit record.
#[unsafe(no_mangle)]
pub extern "C" fn tl_put_unit(
    buf: &mut [u8],
    at: usize,
    module: u64,
    recipe: u64,
    time: u64,
    actual: u64,
    effective: u64,
    next: &mut [u64; 1],
    refusal: &mut [u64; 3],
) -> u32
    ensures { TellsAdding (unit_entry «module» recipe time actual effective) buf.old at next.old result buf.new next.new refusal.new }
{
    telling::tell_position(
        tool_log::put_unit(buf, at, module, recipe, time, actual, effective),
        next,
        refusal,
    )
}

// The reader's verdict on the bytes before a position.
#[unsafe(no_mangle)]
pub extern "C" fn tl_finish_log(buf: &[u8], at: usize, refusal: &mut [u64; 3]) -> u32
    ensures { TellsFinishing buf.now at result refusal.new }
{
    telling::tell(tool_log::finish_log(buf, at), refusal)
}
