// Benchmarks of standards: read, tested one by one, and added up. Not for a buyer: the callers owe that log and benchmarks are all there.
#![tactic(auto)]

ghost use Rattle.std.specs.Prelude.{◌≡◌, List, ℕ, ◌+◌, ◌*◌, ◌^◌, ◌<◌};
ghost use Rattle.bits.specs.Bits.{field};
ghost use Rattle.records.specs.Log.{decode};
ghost use Rattle.records.specs.Covers.{Covers};
ghost use Rattle.rules.specs.Answers.{answer_of};
ghost use Rattle.rules.specs.Grounds.{first_of};
ghost use Rattle.benchmarks.specs.Benchmarks.{benchmark_from, benchmark_at, standards_in, any_zero, any_above, benchmark_ground, ground_at};
ghost use Rattle.benchmarks.specs.Taking.{sums_to, grown, Narrow, Below, Lent};

use records::StandardRecords;
use rules::{Ground, LogList, Refusal};

// What a standard is measured by: the ms that a unit takes on the fastest tool of the kind, by the optimized recipe, and in the steps that add value; and the total
// effective units, from which scrap and rework of other tools are taken off too.
#[derive(Clone, Copy, PartialEq, Eq)]
pub struct Benchmark {
    pub reference: u64,
    pub optimized: u64,
    pub added: u64,
    pub units: u64,
    pub spare: u64,
}

// The benchmark whose first 64 bits are a word, and whose last 64 are a second word.
fn benchmark_in(first: u64, second: u64) -> Benchmark
    ensures { (s : List ℕ) (p q : ℕ) → first ≡ field s p 64 → second ≡ field s q 64 → q ≡ p + 48 → result ≡ benchmark_from s p }
{
    Benchmark {
        reference: first / 0x20_0000_0000 % 0x800_0000,
        optimized: first / 0x400 % 0x800_0000,
        added: second / 0x8000_0000 % 0x800_0000,
        units: second / 0x10 % 0x800_0000,
        spare: second % 0x10,
    }
}

// Benchmark i, where all of it is there.
fn benchmark_within(benchmarks: &[u8], i: usize) -> Benchmark
    requires { Covers benchmarks.now (14 * i + 14) }
    ensures { result ≡ benchmark_at benchmarks.now i }
{
    let first = bits::read_word(benchmarks, 8 * (14 * i));
    let second = bits::read_word(benchmarks, 8 * (14 * i + 6));
    benchmark_in(first, second)
}

impl Benchmark {
    fn any_zero(self) -> bool
        ensures { result ≡ any_zero self }
    {
        self.reference == 0 || (self.optimized == 0 || self.added == 0)
    }

    fn any_above(self, time: u64) -> bool
        ensures { result ≡ any_above time self }
    {
        time < self.reference || (time < self.optimized || time < self.added)
    }
}

// Benchmark i tested for 6, 12, 20 and 21. Its standard has this time and judges so many effective units.
#[tactic(auto, unfolding(crate::specs::Benchmarks::benchmark_ground))]
fn test_benchmark(i: usize, time: u64, judged: u64, b: Benchmark) -> Result<(), Refusal>
    ensures { result ≡ benchmark_ground i time judged b }
{
    Ground::Spare.refuses(b.spare != 0, LogList::Benchmarks, i)?;
    Ground::NoTime.refuses(b.any_zero(), LogList::Benchmarks, i)?;
    Ground::AboveStandard.refuses(b.any_above(time), LogList::Benchmarks, i)?;
    Ground::OverCounted.refuses(judged < b.units, LogList::Benchmarks, i)
}

// The four sums: reference, optimized, value-added, and total effective units.
#[derive(Clone, Copy, PartialEq, Eq, Default)]
pub struct Sums {
    pub reference: u64,
    pub optimized: u64,
    pub added: u64,
    pub units: u64,
}

// A sum grown by the time of so many units.
#[tactic(auto, using(crate::proofs::Taking::grow_fits))]
fn grow(sum: u64, units: u64, time: u64) -> u64
    requires { (sum < 2 ^ 63) × (units < 2 ^ 27) × (time < 2 ^ 27) }
    ensures { result ≡ sum + units * time }
{
    sum + units * time
}

impl Sums {
    // The four grown by a benchmark, of a standard of this time that judges so many effective units.
    fn grown(self, time: u64, judged: u64, b: Benchmark) -> Sums
        requires { (time < 2 ^ 27) × (judged < 2 ^ 27) × Narrow b × Below (2 ^ 63) self }
        ensures { result ≡ grown self time judged b }
    {
        Sums {
            reference: grow(self.reference, judged, b.reference),
            optimized: grow(self.optimized, judged, b.optimized),
            added: grow(self.added, judged, b.added),
            units: grow(self.units, b.units, time),
        }
    }
}

// All benchmarks, one by one, up to the first that is refused: their four sums, or its refusal.
pub fn sum_benchmarks(
    log: StandardRecords<'_>,
    benchmarks: &[u8],
    judged: &[u64; 512],
) -> Result<Sums, Refusal>
    requires lent { Lent log.bytes.now log.header benchmarks.now judged.now }
    ensures { result ≡ answer_of (first_of (ground_at (decode log.entry.bytes.now) (benchmark_at benchmarks.now)) (standards_in (decode log.entry.bytes.now))) (sums_to (decode log.entry.bytes.now) (benchmark_at benchmarks.now) (standards_in (decode log.entry.bytes.now))) }
{
    let mut sums = Sums::default();
    // By index: records are cut out of bytes, and a refusal names it.
    for i in 0..log.header.standards {
        let s = log.record(i);
        let b = benchmark_within(benchmarks, i);
        test_benchmark(i, s.theoretical, judged[i], b)?;
        sums = sums.grown(s.theoretical, judged[i], b);
    }
    Ok(sums)
}
