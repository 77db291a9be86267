// What a log is answered with: acceptance, or a refusal with its ground, its list and its place. The rules of a log are definitions, in specs/.
#![tactic(auto)]

ghost use Rattle.std.specs.Prelude.{◌≡◌};
ghost use Rattle.rules.specs.Grounds.{ground};
ghost use Rattle.rules.specs.Names.{number_of, list_number, list_of_second};
ghost use Rattle.rules.specs.Quantities.{times_of};
ghost use Rattle.rules.specs.Refusals.{three_of};

use records::Standard;

// A standard with its index in the list.
#[derive(Clone, Copy, PartialEq, Eq)]
pub struct Placed {
    pub index: usize,
    pub standard: Standard,
}

// Why a log, a call, a lent buffer or a record is turned back: the trade words of the refusal card, by number from 1 on.
#[derive(Clone, Copy, PartialEq, Eq)]
pub enum Ground {
    NoHeader,
    Period,
    Modules,
    Counts,
    Length,
    Spare,
    StrayModule,
    StrayCode,
    Outside,
    Sequence,
    NoOpening,
    NoTime,
    Twice,
    OverGood,
    NoStandard,
    TooFast,
    TooGreat,
    ShortBuffer,
    Unsorted,
    AboveStandard,
    OverCounted,
    TooWide,
    UnlikeTools,
}

// The list that a refusal points to: of the log, the benchmarks lent beside it, or the second of two logs, as a whole or one of its lists.
#[derive(Clone, Copy, PartialEq, Eq)]
pub enum LogList {
    NoList,
    States,
    Standards,
    Units,
    Benchmarks,
    Second,
    SecondStates,
    SecondStandards,
    SecondUnits,
}

// place: the record's or the benchmark's index from 0, or a module.
#[derive(Clone, Copy, PartialEq, Eq)]
pub struct Refusal {
    pub ground: Ground,
    pub list: LogList,
    pub place: usize,
}

// The six state times of a module or of the tool, in ms.
#[derive(Clone, Copy, PartialEq, Eq)]
pub struct StateTimes {
    pub productive: u64,
    pub standby: u64,
    pub engineering: u64,
    pub scheduled: u64,
    pub unscheduled: u64,
    pub nonscheduled: u64,
}

impl Ground {
    // The ground's number in the tables of refusals. Written out, as there: a cast would hang the numbers on the sequence of the names.
    pub fn number(self) -> usize
        ensures { result ≡ number_of self }
    {
        match self {
            Ground::NoHeader => 1,
            Ground::Period => 2,
            Ground::Modules => 3,
            Ground::Counts => 4,
            Ground::Length => 5,
            Ground::Spare => 6,
            Ground::StrayModule => 7,
            Ground::StrayCode => 8,
            Ground::Outside => 9,
            Ground::Sequence => 10,
            Ground::NoOpening => 11,
            Ground::NoTime => 12,
            Ground::Twice => 13,
            Ground::OverGood => 14,
            Ground::NoStandard => 15,
            Ground::TooFast => 16,
            Ground::TooGreat => 17,
            Ground::ShortBuffer => 18,
            Ground::Unsorted => 19,
            Ground::AboveStandard => 20,
            Ground::OverCounted => 21,
            Ground::TooWide => 22,
            Ground::UnlikeTools => 23,
        }
    }

    // Refused for this ground, at a place of a list, where it is met.
    pub fn refuses(self, met: bool, list: LogList, place: usize) -> Result<(), Refusal>
        ensures { result ≡ ground self list place met }
    {
        if met {
            return Err(Refusal {
                ground: self,
                list,
                place,
            });
        }
        Ok(())
    }
}

impl LogList {
    // The list's number as a refusal tells it, 0 for none; written out as well.
    pub fn number(self) -> usize
        ensures { result ≡ list_number self }
    {
        match self {
            LogList::NoList => 0,
            LogList::States => 1,
            LogList::Standards => 2,
            LogList::Units => 3,
            LogList::Benchmarks => 4,
            LogList::Second => 10,
            LogList::SecondStates => 11,
            LogList::SecondStandards => 12,
            LogList::SecondUnits => 13,
        }
    }

    // The same list of the second of two logs; what is no list of a log stays.
    pub fn of_second(self) -> LogList
        ensures { result ≡ list_of_second self }
    {
        match self {
            LogList::NoList => LogList::Second,
            LogList::States => LogList::SecondStates,
            LogList::Standards => LogList::SecondStandards,
            LogList::Units => LogList::SecondUnits,
            other => other,
        }
    }
}

// Number, list and place.
impl From<Refusal> for [u64; 3] {
    ghost from_gives = { λ x numbers. numbers ≡ three_of x };

    fn from(x: Refusal) -> [u64; 3] {
        [
            x.ground.number() as u64,
            x.list.number() as u64,
            x.place as u64,
        ]
    }
}

// The six, by the states' numbers.
impl From<StateTimes> for [u64; 6] {
    ghost from_gives = { λ t numbers. numbers ≡ times_of t };

    fn from(t: StateTimes) -> [u64; 6] {
        [
            t.productive,
            t.standby,
            t.engineering,
            t.scheduled,
            t.unscheduled,
            t.nonscheduled,
        ]
    }
}
