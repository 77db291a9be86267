// What the calls answer as seven numbers, and their comparison with those that are expected. An answer is 0 and six numbers: the state times in ms,
// the five quantities in ms and 0, the bit patterns of the doubles, 2^64 - 1 where there is no base, the four losses, OEE and 0, or the four supplemental
// figures and twice 0. A refusal is its number, its list, its place and four times 0.
ghost use Rattle.std.specs.Prelude.{◌≡◌, true, ℕ, ◌↔◌, ◌≤◌, ◌∷◌, List, to_bits, MatchResult};
ghost use Rattle.std.specs.Float.{binary64};
ghost use Rattle.rules.specs.Refusals.{three_of};
ghost use Rattle.cases.specs.Numbers.{seven, of_efficiency, patterns_of, answers_of, measured_of, Numbers};

use e79::Figures;
use rules::Refusal;

// An answer as seven numbers.
fn of_answer<T: Into<[u64; N]>, const N: usize>(answer: Result<T, Refusal>) -> [u64; 7]
    requires { N ≤ 6 }
    ensures { MatchResult answer (λ t. (numbers : List ℕ) × T.converts t numbers × (result ≡ seven (0 ∷ numbers))) (λ x. result ≡ seven (three_of x)) }
{
    let mut all = [0; 7];
    match answer {
        Ok(t) => all[1..N + 1].copy_from_slice(&t.into()),
        Err(x) => all[..3].copy_from_slice(&<[u64; 3]>::from(x)),
    }
    all
}

// A NaN has no bit pattern of its own: every NaN counts as the quiet one.
fn of_double(x: f64) -> u64
    ensures { result ≡ to_bits binary64 x }
{
    // `x == x`: with `is_nan` it was tried, and the proof did not close.
    if x == x {
        f64::to_bits(x)
    } else {
        0x7ff8_0000_0000_0000
    }
}

// 2^64 - 1 is the pattern of a NaN that `of_double` never answers.
fn of_efficiency(e: Option<f64>) -> u64
    ensures { result ≡ of_efficiency e }
{
    match e {
        Some(x) => of_double(x),
        None => 0xffff_ffff_ffff_ffff,
    }
}

// The six doubles' bit patterns.
fn patterns_of(f: Figures) -> [u64; 6]
    ensures { result ≡ patterns_of f }
{
    [
        of_efficiency(f.availability),
        of_efficiency(f.operational),
        of_efficiency(f.rate),
        of_efficiency(f.quality),
        of_double(f.oee),
        of_double(f.product),
    ]
}

// Whether the bytes are these seven numbers, of eight bytes each.
fn same(numbers: &[u64; 7], bytes: &[u8]) -> bool
    ensures { (result ≡ true) ↔ Numbers bytes.now numbers.now }
{
    bytes.len() == 56 && (0..7).all(|i| bits::read_word(bytes, 64 * i) == numbers[i])
}

// What a call of a kind, 1 to 8, answers.
#[tactic(auto, unfolding(crate::specs::Numbers::answers_of))]
fn answered(kind: usize, log: &[u8], m: usize) -> [u64; 7]
    ensures { result ≡ answers_of kind log.now m }
{
    match kind {
        1 => of_answer(tool_log::module_state_times(log, m)),
        2 => of_answer(tool_log::tool_state_times(log)),
        3 => of_answer(tool_log::module_quantities(log, m)),
        4 => of_answer(tool_log::tool_quantities(log)),
        5 => of_answer(tool_log::module_figures(log, m).map(patterns_of)),
        6 => of_answer(tool_log::tool_figures(log).map(patterns_of)),
        7 => of_answer(tool_log::module_losses(log, m)),
        _ => of_answer(tool_log::tool_losses(log)),
    }
}

// Whether it answers the expected numbers.
pub fn as_expected(kind: usize, log: &[u8], m: usize, expected: &[u8]) -> bool
    ensures { (result ≡ true) ↔ Numbers expected.now (answers_of kind log.now m) }
{
    let numbers = answered(kind, log, m);
    same(&numbers, expected)
}

// The same of the supplemental figures: a call of its own, since it is asked for benchmarks, and the others for a module.
pub fn measured_as_expected(log: &[u8], benchmarks: &[u8], expected: &[u8]) -> bool
    ensures { (result ≡ true) ↔ Numbers expected.now (measured_of log.now benchmarks.now) }
{
    let numbers = of_answer(tool_log::tool_supplemental(log, benchmarks));
    same(&numbers, expected)
}
