// Arrays, a flag and numbers, since C has no Result. An answer told to C: a flag, the refusal's three numbers, and the answer's numbers in arrays of a fixed size, which a refusal leaves as they were.
#![tactic(auto)]

ghost use Rattle.std.specs.Prelude.{◌≡◌, [], ◌∷◌, MatchResult, MatchOption};
ghost use Rattle.std.specs.Float.{nan};
ghost use Rattle.rules.specs.Answers.{verdict_of};
ghost use Rattle.telling.specs.Arrays.{refusal_of, ratio_of, base_of, ratios_of, bases_of};
ghost use Rattle.telling.specs.Told.{Told};

use e79::Figures;
use rules::Refusal;

// The flag of a refusal, 0, and its three numbers in the caller's array.
// Plain numbers and no `Refusal`: C is told numbers, and here of any three.
pub fn tell_refused(number: usize, list: usize, place: usize, refusal: &mut [u64; 3]) -> u32
    ensures flag { result ≡ 0 }
    ensures why { refusal.new ≡ number ∷ list ∷ place ∷ [] }
{
    *refusal = [number as u64, list as u64, place as u64];
    0
}

// 1 where the verdict accepts, else 0; and the refusal's array.
pub fn tell(verdict: Result<(), Refusal>, refusal: &mut [u64; 3]) -> u32
    ensures { Told verdict result refusal.new }
{
    match verdict {
        Ok(()) => {
            *refusal = [0, 0, 0];
            1
        }
        Err(x) => tell_refused(x.ground.number(), x.list.number(), x.place, refusal),
    }
}

// An answer of so many whole numbers.
pub fn tell_numbers<T: Into<[u64; N]>, const N: usize>(
    answer: Result<T, Refusal>,
    numbers: &mut [u64; N],
    refusal: &mut [u64; 3],
) -> u32
    ensures told { Told (verdict_of answer) result refusal.new }
    ensures numbers { MatchResult answer (λ t. T.converts t numbers.new) (λ x. numbers.new ≡ numbers.old) }
{
    match answer {
        Ok(t) => {
            *numbers = t.into();
            tell(Ok(()), refusal)
        }
        Err(x) => tell(Err(x), refusal),
    }
}

// An answer of so many whole numbers, where there is one: 2 says that there is none.
pub fn tell_found<T: Into<[u64; N]>, const N: usize>(
    answer: Result<Option<T>, Refusal>,
    numbers: &mut [u64; N],
    refusal: &mut [u64; 3],
) -> u32
    ensures flag { MatchResult answer (λ o. MatchOption o (result ≡ 2) (λ t. result ≡ 1)) (λ x. result ≡ 0) }
    ensures why { refusal.new ≡ refusal_of (verdict_of answer) }
    ensures numbers { MatchResult answer (λ o. MatchOption o (numbers.new ≡ numbers.old) (λ t. T.converts t numbers.new)) (λ x. numbers.new ≡ numbers.old) }
{
    match answer {
        Ok(Some(t)) => tell_numbers(Ok(t), numbers, refusal),
        Ok(None) => {
            tell(Ok(()), refusal);
            2
        }
        Err(x) => tell_numbers::<T, N>(Err(x), numbers, refusal),
    }
}

// What stands where an efficiency has no base: no number at all.
fn no_figure() -> f64
    ensures { result ≡ nan }
{
    0.0 / 0.0
}

fn ratio_of(e: Option<f64>) -> f64
    ensures { result ≡ ratio_of e }
{
    e.unwrap_or(no_figure())
}

fn base_of(e: Option<f64>) -> u8
    ensures { result ≡ base_of e }
{
    e.is_some() as u8
}

fn put_figures(f: Figures, figures: &mut [f64; 6])
    ensures { figures.new ≡ ratios_of f }
{
    *figures = [
        ratio_of(f.availability),
        ratio_of(f.operational),
        ratio_of(f.rate),
        ratio_of(f.quality),
        f.oee,
        f.product,
    ];
}

fn put_bases(f: Figures, based: &mut [u8; 4])
    ensures { based.new ≡ bases_of f }
{
    *based = [
        base_of(f.availability),
        base_of(f.operational),
        base_of(f.rate),
        base_of(f.quality),
    ];
}

// An answer of doubles, and which of the four efficiencies have a base.
pub fn tell_figures(
    answer: Result<Figures, Refusal>,
    figures: &mut [f64; 6],
    based: &mut [u8; 4],
    refusal: &mut [u64; 3],
) -> u32
    ensures told { Told (verdict_of answer) result refusal.new }
    ensures figures { MatchResult answer (λ f. figures.new ≡ ratios_of f) (λ x. figures.new ≡ figures.old) }
    ensures based { MatchResult answer (λ f. based.new ≡ bases_of f) (λ x. based.new ≡ based.old) }
{
    if let Ok(f) = answer {
        put_figures(f, figures);
        put_bases(f, based);
    }
    tell(answer.map(|_| ()), refusal)
}

// A position in an array of its own.
fn alone(position: usize) -> [u64; 1]
    ensures { result ≡ position ∷ [] }
{
    [position as u64]
}

// A position in a buffer, or the length of what was written into it.
pub fn tell_position(
    answer: Result<usize, Refusal>,
    next: &mut [u64; 1],
    refusal: &mut [u64; 3],
) -> u32
    ensures told { Told (verdict_of answer) result refusal.new }
    ensures next { MatchResult answer (λ position. next.new ≡ position ∷ []) (λ x. next.new ≡ next.old) }
{
    tell_numbers(answer.map(alone), next, refusal)
}
