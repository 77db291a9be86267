// Standards listed one by one, in any sequence, and looked up by module, recipe and time: plain numbers with their bounds in each contract, since the
// definitions take them so, one by one.

ghost use Rattle.std.specs.Prelude.{◌≡◌, ℕ, ◌^◌, ◌<◌, ◌≤◌, ◌&&◌, eqb, [], ◌∷◌, ◌++◌, length, get_or};
ghost use Rattle.rules.specs.Theoretical.{placed, is_for, has_begun, last_in_force};
ghost use Rattle.rules.specs.RecordGrounds.{is_among};
ghost use Rattle.theoretical.specs.Listing.{pair_of, bin_of, standard_of, entry_of, with_entry, listed, last_placed, found};

use records::Standard;
use rules::Placed;
use std::marker::Model;

// A standard as it is listed: its module and recipe are one number.
#[derive(Clone, Copy)]
struct Entry {
    start: u64,
    theoretical: u32,
    pair: u16,
}

// A module and a recipe in one number.
fn pair_of(module: usize, recipe: usize) -> u16
    requires { («module» < 64) × (recipe < 1024) }
    ensures { result ≡ pair_of «module» recipe }
{
    (module * 1024 + recipe) as u16
}

// The bin of a module and a recipe.
#[tactic(auto, unfolding(crate::specs::Listing::bin_of))]
fn bin_of(pair: u16) -> usize
    ensures bin { result ≡ bin_of pair }
    ensures below { result < 1024 }
{
    pair as usize * 83 / 64 % 1024
}

impl Entry {
    // The standard itself.
    fn standard(&self) -> Standard
        ensures { result ≡ standard_of self.now }
    {
        Standard {
            module: self.pair as usize / 1024,
            recipe: self.pair as usize % 1024,
            start: self.start,
            theoretical: self.theoretical as u64,
            spare: 0,
        }
    }

    // The standard with its index.
    fn placed(&self, index: usize) -> Placed
        ensures { result ≡ placed index (standard_of self.now) }
    {
        Placed {
            index,
            standard: self.standard(),
        }
    }

    // Whether it is for the module and the recipe.
    fn is_for(&self, module: usize, recipe: usize) -> bool
        requires { («module» < 64) × (recipe < 1024) }
        ensures { result ≡ is_for «module» recipe (standard_of self.now) }
    {
        self.pair == pair_of(module, recipe)
    }

    // Whether it has this standard's module, recipe and start.
    fn is_like(&self, s: Standard) -> bool
        requires { (s.«module» < 64) × (s.recipe < 1024) }
        ensures { result ≡ is_for s.«module» s.recipe (standard_of self.now) && eqb self.now.start s.start }
    {
        self.is_for(s.module, s.recipe) && self.start == s.start
    }
}

// Entries, field by field: over an array of entries the walk was slower by a sixth, and with the pairs in front by four fifths.
#[derive(Drop)]
struct Entries {
    times: [u32; 512],
    starts: [u64; 512],
    pairs: [u16; 512],
}

impl Entries {
    // Entry i. That an index is below 512 stands in four contracts: a type for it would be made at each step of a walk.
    fn entry(&self, i: usize) -> Entry
        requires { i < 512 }
        ensures { result ≡ entry_of self.now i }
    {
        Entry {
            start: self.starts[i],
            theoretical: self.times[i],
            pair: self.pairs[i],
        }
    }

    // Entry i becomes this one.
    fn put(&mut self, i: usize, e: Entry)
        requires { i < 512 }
        ensures { self.new ≡ with_entry self.old i e }
    {
        self.starts[i] = e.start;
        self.times[i] = e.theoretical;
        self.pairs[i] = e.pair;
    }

    // Whether standard i is for the module and the recipe and starts at or before the time, which is asked first.
    fn has_begun(&self, i: usize, module: usize, recipe: usize, time: u64) -> bool
        requires { (i < 512) × («module» < 64) × (recipe < 1024) }
        ensures { result ≡ has_begun «module» recipe time (standard_of (entry_of self.now i)) }
    {
        self.starts[i] <= time && self.pairs[i] == pair_of(module, recipe)
    }

    // How many of the first `from` entries are left where those behind start after the time, four at a step: a walk of one at a step took up to 2.6 times as
    // long where its few instructions were laid across a line. Apart from the look-up, which seldom comes here.
    #[inline(never)]
    fn pass_later(&self, from: usize, time: u64) -> usize
        requires { from ≤ 512 }
        ensures within { result ≤ from }
        ensures later { (i : ℕ) → result ≤ i → i < from → time < get_or self.now.starts i 0 }
    {
        let mut left = from;
        while 4 <= left
            && time < self.starts[left - 1]
            && time < self.starts[left - 2]
            && time < self.starts[left - 3]
            && time < self.starts[left - 4]
        {
            left -= 4;
        }
        left
    }

    // The same for a walk that goes far, among the revisions of one module and recipe; another begins where it is.
    #[inline(always)]
    fn pass_far(&self, from: usize, module: usize, recipe: usize, time: u64) -> usize
        requires { (from ≤ 512) × («module» < 64) × (recipe < 1024) }
        ensures within { result ≤ from }
        ensures later { (i : ℕ) → result ≤ i → i < from → time < get_or self.now.starts i 0 }
    {
        if 16 <= from
            && self.pairs[from - 16] == pair_of(module, recipe)
            && time < self.starts[from - 16]
        {
            self.pass_later(from, time)
        } else {
            from
        }
    }

    // The walk over the first `from` entries, from the last of them towards the front: the first on the way that is for the module and the recipe and starts at or
    // before the time, or none.
    #[inline(always)]
    fn last_begun(&self, from: usize, module: usize, recipe: usize, time: u64) -> Option<Placed>
        requires { (from ≤ 512) × («module» < 64) × (recipe < 1024) }
        ensures { result ≡ found (last_in_force (listed self.now from) «module» recipe time) }
    {
        let left = self.pass_far(from, module, recipe, time);
        for index in (0..left).rev() {
            if self.has_begun(index, module, recipe, time) {
                return Some(self.entry(index).placed(index));
            }
        }
        None // none that is for them has begun
    }
}

// Up to 512 standards. Where the last one of each bin is stands in `last`, and where the last one ahead of each in its bin is in `ahead`: one more
// than its index, and 0 for none. Places of 16 bits, since there is no heap; an Option would be wider, and wider places took a typical week 5 % longer.
#[derive(Drop)]
pub struct Standards {
    entries: Entries,
    ahead: [u16; 512],
    count: usize,
    last: [u16; 1024],
}

// Contracts see the list of the standards.
impl Model for Standards {
    ghost use Rattle.std.specs.Prelude.{List};
    ghost use Rattle.records.specs.declared.Standard.{Standard};
    ghost use Rattle.theoretical.specs.Listing.{listed, Chained};

    ghost Value = { List Standard };

    ghost view = { λ s. listed s.entries s.count };

    ghost invariant = { λ s. Chained s.entries s.ahead s.count s.last };
}

impl Standards {
    // No standard.
    pub fn new() -> Self
        ensures { result ≡ [] }
    {
        Standards {
            entries: Entries {
                starts: [0; 512],
                times: [0; 512],
                pairs: [0; 512],
            },
            ahead: [0; 512],
            count: 0,
            last: [0; 1024],
        }
    }

    // One more standard, the last one of its bin.
    pub fn push(&mut self, s: Standard)
        requires room { length self.old < 512 }
        requires fits { (s.«module» < 64) × (s.recipe < 1024) × (s.theoretical < 2 ^ 32) × (s.spare ≡ 0) }
        ensures { self.new ≡ self.old ++ (s ∷ []) }
    {
        let pair = pair_of(s.module, s.recipe);
        let bin = bin_of(pair);
        let i = self.count;
        let entry = Entry {
            start: s.start,
            theoretical: s.theoretical as u32,
            pair,
        };
        self.entries.put(i, entry);
        self.ahead[i] = self.last[bin];
        self.count = i + 1;
        self.last[bin] = (i + 1) as u16;
    }

    // Whether one of them has this standard's module, recipe and start.
    pub fn has_like(&self, s: Standard) -> bool
        requires { (s.«module» < 64) × (s.recipe < 1024) }
        ensures { result ≡ is_among s self.now }
    {
        // By index: an entry is put together from the arrays of its fields.
        for i in 0..self.count {
            if self.entries.entry(i).is_like(s) {
                return true;
            }
        }
        false
    }

    // The last standard for the module and the recipe, or none. The last one of their bin may be another's; then it is the next one ahead of that in the bin,
    // and so on.
    fn last_for(&self, module: usize, recipe: usize) -> Option<Placed>
        requires { («module» < 64) × (recipe < 1024) }
        ensures { result ≡ found (last_placed (is_for «module» recipe) self.now) }
    {
        let mut from = self.last[bin_of(pair_of(module, recipe))] as usize;
        // Along the links, one place to the next: no range of indices.
        while from != 0 {
            let index = from - 1;
            let entry = self.entries.entry(index);
            if entry.is_for(module, recipe) {
                return Some(entry.placed(index));
            }
            from = self.ahead[index] as usize;
        }
        None
    }

    // The last standard of the list, rising or not, that is for the module and the recipe and starts at or before the time, or none. Nearly always the last that is
    // for them has begun, and else the walk goes on from there.
    #[inline(always)]
    pub fn look_up(&self, module: usize, recipe: usize, time: u64) -> Option<Placed>
        requires { («module» < 64) × (recipe < 1024) }
        ensures { result ≡ found (last_in_force self.now «module» recipe time) }
    {
        let newest = self.last_for(module, recipe)?;
        if newest.standard.start <= time {
            return Some(newest);
        }
        self.entries.last_begun(newest.index, module, recipe, time)
    }
}
