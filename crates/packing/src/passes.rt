// One pass over each list of an accepted log, which closes up.
ghost use Rattle.std.specs.Prelude.{◌≡◌, suc, true, ◌+◌, ◌*◌, ◌≤◌, ◌<◌, get_or, eqb, slice_set};
ghost use Rattle.records.specs.Covers.{Covers};
ghost use Rattle.records.specs.Log.{state_at, standard_at, up_to};
ghost use Rattle.records.specs.Whole.{standards_begin, units_begin, units_end};
ghost use Rattle.rules.specs.SameRecords.{Bytes};
ghost use Rattle.rules.specs.Sequence.{is_rising, state_key, standard_key};
ghost use Rattle.packing.specs.Closing.{Closed};
ghost use Rattle.packing.specs.Passes.{repeats_last, states_left, standards_left, all_units};

use crate::closing::move_record;
use records::{Header, Standard, StateRecord};

// Whether a record's code is its module's current one. It becomes the current one: of each module `current` has one more than its code, and 0 where it has none yet.
fn repeats_code(current: &mut [usize; 64], r: StateRecord) -> bool
    requires { (r.«module» < 64) × (r.code < 32) }
    ensures answer { result ≡ eqb (get_or current.old r.«module» 0) (suc r.code) }
    ensures set { current.new ≡ slice_set current.old r.«module» (suc r.code) }
{
    let old = current[r.module];
    current[r.module] = r.code + 1;
    old == r.code + 1
}

// So many state records. Answers where the standards go.
pub fn close_states(buf: &mut [u8], states: usize) -> usize
    requires small { Bytes buf.old }
    requires there { Covers buf.old (10 + 6 * states) }
    requires rises { is_rising state_key (up_to (state_at buf.old) states) ≡ true }
    ensures { Closed buf.old 10 (states_left buf.old states) (10 + 6 * states) result buf.new }
{
    let mut current = [0usize; 64];
    let mut to = 10;
    for i in 0..states {
        let r = records::state_within(buf, i);
        let drops = repeats_code(&mut current, r);
        to = move_record(buf, 10 + 6 * i, 6, to, drops);
    }
    to
}

// Whether a standard has the module, the recipe and the time of the last one: in a list that rises that one was in force just before, or none was.
fn repeats_time(last: Option<Standard>, s: Standard) -> bool
    ensures { result ≡ repeats_last last s }
{
    match last {
        Some(b) => {
            b.module == s.module && (b.recipe == s.recipe && b.theoretical == s.theoretical)
        }
        None => false,
    }
}

// The standards, to byte `to` on. Answers where the unit records go.
pub fn close_standards(buf: &mut [u8], h: Header, to: usize) -> usize
    requires small { Bytes buf.old }
    requires there { Covers buf.old (units_begin h) }
    requires order { to ≤ standards_begin h }
    requires rises { is_rising standard_key (up_to (standard_at buf.old h) h.standards) ≡ true }
    ensures { Closed buf.old to (standards_left buf.old h h.standards) (units_begin h) result buf.new }
{
    let begin = 10 + 6 * h.states;
    let mut last = None;
    let mut next = to;
    for i in 0..h.standards {
        let s = records::standard_within(buf, h, i);
        let drops = repeats_time(last, s);
        next = move_record(buf, begin + 10 * i, 10, next, drops);
        last = Some(s);
    }
    next
}

// The unit records, to byte `to` on: all stay, and move as they stand. Answers where they end.
pub fn close_units(buf: &mut [u8], h: Header, to: usize) -> usize
    requires small { Bytes buf.old }
    requires there { Covers buf.old (units_end h) }
    requires order { to ≤ units_begin h }
    ensures { Closed buf.old to (all_units buf.old h) (units_end h) result buf.new }
{
    let begin = 10 + 6 * h.states + 10 * h.standards;
    move_record(buf, begin, 11 * h.units, to, false)
}
