// Losses that add up: what total time went to, in five whole ten-thousandths that make 10,000. Nothing here knows a log.
//
// The public call has a `requires`, so it is not for a buyer to link: it is called where that is shown, as it is of the quantities of every accepted log.
#![tactic(auto)]

ghost use Rattle.std.specs.Prelude.{◌≡◌, ◌<◌, get_or, cond};
ghost use Rattle.e79.specs.Quantities.{Ordered};
ghost use Rattle.losses.specs.Losses.{ahead_of, served, losses_of, shares_of, AddsUp};

use e79::Quantities;

// A module's or the tool's availability, operational, rate and quality loss, and OEE, in ten-thousandths of total time.
#[derive(Clone, Copy)]
pub struct Losses {
    pub availability: u64,
    pub operational: u64,
    pub rate: u64,
    pub quality: u64,
    pub oee: u64,
}

// The five, in the sequence in which they are handed out.
impl From<Losses> for [u64; 5] {
    ghost from_gives = { λ s numbers. numbers ≡ shares_of s };

    fn from(s: Losses) -> [u64; 5] {
        [s.availability, s.operational, s.rate, s.quality, s.oee]
    }
}

// Whether part j is ahead of part i: its remainder is larger, or they tie and it is the earlier part.
#[tactic(auto, unfolding(crate::specs::Losses::ahead_of))]
fn ahead_of(rests: &[u64; 5], i: usize, j: usize) -> bool
    requires { (i < 5) × (j < 5) }
    ensures { result ≡ ahead_of (λ k. get_or rests.now k 0) i j }
{
    rests[i] < rests[j] || (rests[i] == rests[j] && j < i)
}

// 1 where part i gets one of the missing, which go one each to the largest remainders, and 0 where it does not.
fn one_more(rests: &[u64; 5], missing: u64, i: usize) -> u64
    requires { i < 5 }
    ensures { result ≡ cond (served (λ k. get_or rests.now k 0) 5 missing i) 1 0 }
{
    let mut ahead: u64 = 0;
    for j in 0..5 {
        if ahead_of(rests, i, j) {
            ahead += 1;
        }
    }
    u64::from(ahead < missing)
}

// The five. The caller owes that the quantities are ordered.
pub fn losses_of_ordered(q: Quantities) -> Losses
    requires { Ordered q }
    ensures losses { result ≡ losses_of q }
    ensures adds_up { AddsUp q result }
{
    let (availability, a) = e79::divided(q.total - q.uptime, q.total);
    let (operational, o) = e79::divided(q.uptime - q.production, q.total);
    let (rate, r) = e79::divided(q.production - q.actual, q.total);
    let (quality, w) = e79::divided(q.actual - q.effective, q.total);
    let (oee, e) = e79::divided(q.effective, q.total);
    let missing = 10000 - (availability + operational + rate + quality + oee);
    let rests = [a, o, r, w, e];
    Losses {
        availability: availability + one_more(&rests, missing, 0),
        operational: operational + one_more(&rests, missing, 1),
        rate: rate + one_more(&rests, missing, 2),
        quality: quality + one_more(&rests, missing, 3),
        oee: oee + one_more(&rests, missing, 4),
    }
}
