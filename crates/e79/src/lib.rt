// The figures of SEMI E79 from five whole numbers: four efficiencies, the overall equipment efficiency (OEE) and the product of the four, as doubles
// and as printed. Nothing here knows a log.
//
// `Portion n d` stands in seven contracts, `0 < d` in four: a quotient is of any two quantities, and a type for two would be made at each call.
// `printed_of_ordered` and `efficiency_of` are alike but for what they make of a quotient: a function over that step would be longer than both.
//
// The four public calls have a `requires`, so they are not for a buyer to link: they are called where that is shown, as it is of the quantities of
// every accepted log.
#![tactic(auto)]

ghost use Rattle.std.specs.Prelude.{◌≡◌, ◌*◌, ◌/◌, ◌%◌, ◌<◌, ◌^◌};
ghost use Rattle.e79.specs.Quantities.{Ordered, Portion, quantities_of};
ghost use Rattle.e79.specs.Doubles.{quotient_of, efficiency_of, combined, left_to_right};
ghost use Rattle.e79.specs.Accuracy.{Accurate};
ghost use Rattle.e79.specs.Printed.{rounded_of, printed_of};

// The five quantities of a module or of the tool, in ms: total time, uptime, production time, and the theoretical production time for actual and for
// effective units.
#[derive(Clone, Copy)]
pub struct Quantities {
    pub total: u64,
    pub uptime: u64,
    pub production: u64,
    pub actual: u64,
    pub effective: u64,
}

// The five, from total time on.
impl From<Quantities> for [u64; 5] {
    ghost from_gives = { λ q numbers. numbers ≡ quantities_of q };

    fn from(q: Quantities) -> [u64; 5] {
        [q.total, q.uptime, q.production, q.actual, q.effective]
    }
}

// The set of doubles of a module or of the tool. An efficiency is a quotient of two quantities, and none where the denominator is 0.
#[derive(Clone, Copy)]
pub struct Figures {
    pub availability: Option<f64>,
    pub operational: Option<f64>,
    pub rate: Option<f64>,
    pub quality: Option<f64>,
    pub oee: f64,
    pub product: f64,
}

// The set of doubles, with each quotient and each multiplication rounded once. The caller owes that the quantities are ordered.
#[tactic(auto, using(crate::proofs::Products::accurate), unfolding(crate::specs::Doubles::figures_of))]
pub fn figures_of_ordered(q: Quantities) -> Figures
    requires { Ordered q }
    ensures { Accurate q result }
{
    let availability = efficiency_of(q.uptime, q.total);
    let operational = efficiency_of(q.production, q.uptime);
    let rate = efficiency_of(q.actual, q.production);
    let quality = efficiency_of(q.effective, q.actual);
    let oee = quotient_of(q.effective, q.total);
    let product = product_of(availability, operational, rate, quality);
    Figures {
        availability,
        operational,
        rate,
        quality,
        oee,
        product,
    }
}

// The printed figure in ten-thousandths, worked out from the whole numbers and not from a double; none where the denominator is 0. The caller owes
// that the two are ordered.
#[tactic(auto, unfolding(crate::specs::Printed::printed_of, crate::specs::Quantities::based))]
pub fn printed_of_ordered(numerator: u64, denominator: u64) -> Option<u64>
    requires { Portion numerator denominator }
    ensures { result ≡ printed_of numerator denominator }
{
    if denominator == 0 {
        None
    } else {
        Some(rounded_of(numerator, denominator))
    }
}

// Ten thousand times n / d to the nearest whole number, a half going up, where 20,000 d fits.
#[tactic(auto, unfolding(crate::specs::Printed::rounded_of))]
fn rounded_at_once(n: u64, d: u64) -> u64
    requires portion { Portion n d }
    requires d_nonzero { (0 < d) × (d < 2 ^ 48) }
    ensures { result ≡ rounded_of n d }
{
    (20000 * n + d) / (2 * d)
}

// Ten thousand times n / d rounded down, and what is left of 10,000 n then: in two steps of times 100, for any denominator.
#[tactic(auto, using(crate::proofs::Printing::step, crate::proofs::Printing::steps_whole, crate::proofs::Printing::steps_rest))]
pub fn divided(n: u64, d: u64) -> (u64, u64)
    requires portion { Portion n d }
    requires d_nonzero { 0 < d }
    ensures { (result.0 ≡ 10000 * n / d) × (result.1 ≡ 10000 * n % d) }
{
    let first = n * 100;
    let second = first % d * 100;
    (first / d * 100 + second / d, second % d)
}

// Ten thousand times n / d to the nearest whole number, a half going up, for any denominator.
#[tactic(auto, using(crate::proofs::Printing::half_not_reached, crate::proofs::Printing::half_reached))]
fn rounded_in_steps(n: u64, d: u64) -> u64
    requires portion { Portion n d }
    requires d_nonzero { 0 < d }
    ensures { result ≡ rounded_of n d }
{
    let (whole, rest) = divided(n, d);
    if rest * 2 < d { whole } else { whole + 1 }
}

// Ten thousand times n / d to the nearest whole number, a half going up. Two ways, for speed: below 2^48, as a tool's sums are, one division does.
pub fn rounded_of(n: u64, d: u64) -> u64
    requires portion { Portion n d }
    requires d_nonzero { 0 < d }
    ensures { result ≡ rounded_of n d }
{
    if d < 0x1_0000_0000_0000 {
        rounded_at_once(n, d)
    } else {
        rounded_in_steps(n, d)
    }
}

// One division of two whole numbers, which are exact as doubles.
#[tactic(auto, unfolding(crate::specs::Doubles::quotient_of))]
fn quotient_of(n: u64, d: u64) -> f64
    requires { Portion n d }
    ensures { result ≡ quotient_of n d }
{
    n as f64 / d as f64
}

#[tactic(auto, unfolding(crate::specs::Doubles::efficiency_of, crate::specs::Quantities::based))]
fn efficiency_of(n: u64, d: u64) -> Option<f64>
    requires { Portion n d }
    ensures { result ≡ efficiency_of n d }
{
    if d == 0 {
        None
    } else {
        Some(quotient_of(n, d))
    }
}

// Availability by operational, then by rate, then by quality; +0.0 where one of them has no base.
#[tactic(auto, unfolding(crate::specs::Doubles::combined))]
fn product_of(
    availability: Option<f64>,
    operational: Option<f64>,
    rate: Option<f64>,
    quality: Option<f64>,
) -> f64
    ensures { result ≡ combined left_to_right availability operational rate quality }
{
    match (availability, operational, rate, quality) {
        (Some(a), Some(o), Some(r), Some(q)) => a * o * r * q,
        _ => 0.0,
    }
}
