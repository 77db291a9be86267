// The refusal card: what each refusal means and what to look for, and a refusal in words. A buffer and a place: see `filling`.
#![tactic(auto)]

ghost use Rattle.std.specs.Prelude.{◌≡◌, [], ◌++◌, ◌+◌, ◌≤◌, length, false, MatchOption};
ghost use Rattle.filling.specs.Buffer.{Put, AtFront};
ghost use Rattle.report.specs.Report.{decimal};
ghost use Rattle.rules.specs.Names.{number_of, list_number};
ghost use Rattle.card.specs.Card.{OnCard, on_card, row_text, explained, is_module, kind, whereabouts, words_of, is_list, whereabouts_at, line_of, words_at};

use rules::{Ground, LogList, Refusal};

// What the card says of a ground.
#[derive(Clone, Copy)]
struct Row {
    word: &'static [u8],
    meaning: &'static [u8],
    look_for: &'static [u8],
}

// The card, ground by ground.
#[tactic(auto, unfolding(crate::specs::Card::card, crate::specs::Card::field, report::specs::Lines::ends))]
fn row_of(ground: Ground) -> Row
    ensures { OnCard (number_of ground) result.word.now result.meaning.now result.look_for.now }
{
    match ground {
        Ground::NoHeader => Row {
            word: b"no header",
            meaning: b"under 10 bytes",
            look_for: b"an empty or broken transfer",
        },
        Ground::Period => Row {
            word: b"period",
            meaning: b"0 or over 366 days (31,622,400,000 ms)",
            look_for: b"the start and end of the export; two logs to join that span more",
        },
        Ground::Modules => Row {
            word: b"modules",
            meaning: b"0 or over 64",
            look_for: b"the tool's configuration",
        },
        Ground::Counts => Row {
            word: b"counts",
            meaning: b"over 6,000 state records, 512 standards or 2,000 unit records",
            look_for: b"an export over too long a time: cut it",
        },
        Ground::Length => Row {
            word: b"length",
            meaning: b"bytes other than 10 + 6 states + 10 standards + 11 units; benchmarks: 14 for each standard",
            look_for: b"a transfer cut off, or bytes behind the log; benchmarks of another log",
        },
        Ground::Spare => Row {
            word: b"spare",
            meaning: b"a spare bit set",
            look_for: b"another version of the format, or bytes out of step",
        },
        Ground::StrayModule => Row {
            word: b"stray module",
            meaning: b"module at or above the module count",
            look_for: b"a module added after the header was set",
        },
        Ground::StrayCode => Row {
            word: b"stray code",
            meaning: b"sub-state code above 23",
            look_for: b"codes of the controller's own that are not mapped",
        },
        Ground::Outside => Row {
            word: b"outside",
            meaning: b"time or start at or past the period",
            look_for: b"a clock set during the period, or records of the next one",
        },
        Ground::Sequence => Row {
            word: b"sequence",
            meaning: b"time, then module, not above the record before, or not later than its own module's last",
            look_for: b"a clock set back; a change logged twice; modules of one time out of sequence",
        },
        Ground::NoOpening => Row {
            word: b"no opening",
            meaning: b"a module whose first record is not at time 0, or that has none",
            look_for: b"the module's state at the start of the period",
        },
        Ground::NoTime => Row {
            word: b"no time",
            meaning: b"theoretical time 0, or a time of a benchmark 0",
            look_for: b"a recipe that was entered without its time",
        },
        Ground::Twice => Row {
            word: b"twice",
            meaning: b"module, recipe and start all equal to an earlier standard's",
            look_for: b"a revision entered twice",
        },
        Ground::OverGood => Row {
            word: b"over-good",
            meaning: b"effective units above actual units",
            look_for: b"good and made units exchanged; rework counted twice",
        },
        Ground::NoStandard => Row {
            word: b"no standard",
            meaning: b"none in force for a unit record",
            look_for: b"a recipe that ran ahead of its first standard, or at a module that has none for it",
        },
        Ground::TooFast => Row {
            word: b"too fast",
            meaning: b"a module's actual theoretical time above its production time",
            look_for: b"a standard that is too long, or productive time logged as something else",
        },
        Ground::TooGreat => Row {
            word: b"too great",
            meaning: b"a tool sum above 9,007,199,254,740,991 ms",
            look_for: b"no log can reach it",
        },
        Ground::ShortBuffer => Row {
            word: b"short buffer",
            meaning: b"report, listing or log longer than the buffer, or a record that does not fit at its position",
            look_for: b"lend 2,494 bytes, which hold every report; 7,168 hold every listing, 63,130 every log",
        },
        Ground::Unsorted => Row {
            word: b"unsorted",
            meaning: b"out of rising sequence: standards by module, recipe and start, units by time, module and recipe",
            look_for: b"sort the list by these fields, ascending; merge unit records that agree in all three",
        },
        Ground::AboveStandard => Row {
            word: b"above standard",
            meaning: b"a time of a benchmark above its standard's theoretical time",
            look_for: b"benchmarks out of the standards' sequence, or those of another revision",
        },
        Ground::OverCounted => Row {
            word: b"over-counted",
            meaning: b"total effective units of a benchmark above the effective units judged by its standard",
            look_for: b"units of another period or revision; scrap or rework of this tool counted as good",
        },
        Ground::TooWide => Row {
            word: b"too wide",
            meaning: b"a value does not fit its field",
            look_for: b"a value in another unit than ms, a number of the controller's own, or a count that ran on",
        },
        Ground::UnlikeTools => Row {
            word: b"unlike tools",
            meaning: b"two logs to join whose module counts differ",
            look_for: b"logs of two tools, or of one whose modules were changed in between",
        },
    }
}

// The ground of a number, where the card has the number. By hand: a `TryFrom` would hold the same match, since an enum is not made of its number.
fn ground_of(number: usize) -> Option<Ground>
    ensures { MatchOption result (on_card number ≡ false) (λ g. number_of g ≡ number) }
{
    match number {
        1 => Some(Ground::NoHeader),
        2 => Some(Ground::Period),
        3 => Some(Ground::Modules),
        4 => Some(Ground::Counts),
        5 => Some(Ground::Length),
        6 => Some(Ground::Spare),
        7 => Some(Ground::StrayModule),
        8 => Some(Ground::StrayCode),
        9 => Some(Ground::Outside),
        10 => Some(Ground::Sequence),
        11 => Some(Ground::NoOpening),
        12 => Some(Ground::NoTime),
        13 => Some(Ground::Twice),
        14 => Some(Ground::OverGood),
        15 => Some(Ground::NoStandard),
        16 => Some(Ground::TooFast),
        17 => Some(Ground::TooGreat),
        18 => Some(Ground::ShortBuffer),
        19 => Some(Ground::Unsorted),
        20 => Some(Ground::AboveStandard),
        21 => Some(Ground::OverCounted),
        22 => Some(Ground::TooWide),
        23 => Some(Ground::UnlikeTools),
        _ => None,
    }
}

// Two texts, the second behind the first. The caller owes the room.
fn put_two(buf: &mut [u8], at: usize, first: &[u8], second: &[u8]) -> usize
    requires { at + length first.now + length second.now ≤ length buf.old }
    ensures { Put (first.now ++ second.now) buf.old at result buf.new }
{
    let behind = filling::put_text(buf, at, first);
    filling::put_text(buf, behind, second)
}

// A ground's row on the card: three lines. The caller owes the room.
fn put_row(buf: &mut [u8], ground: Ground) -> usize
    requires { 512 ≤ length buf.old }
    ensures { AtFront (row_text (number_of ground)) 512 buf.old result buf.new }
{
    let row = row_of(ground);
    let number = report::put_labelled(buf, 0, b"refusal ", ground.number());
    let word = put_two(buf, number, b": ", row.word);
    let meaning = put_two(buf, word, b"\nmeaning: ", row.meaning);
    let look_for = put_two(buf, meaning, b"\nlook for: ", row.look_for);
    filling::put_text(buf, look_for, b"\n")
}

// Writes the row of number n to the front of the buffer and answers its length: 0, and no byte changed, where the card does not have the number.
pub fn explain(n: usize, buf: &mut [u8; 512]) -> usize
    ensures { AtFront (explained n) 512 buf.old result buf.new }
{
    match ground_of(n) {
        Some(ground) => put_row(buf, ground),
        None => 0,
    }
}

// The kind of record that has a value too wide.
fn kind(list: LogList) -> &'static [u8]
    ensures text_value { result.now ≡ kind list }
    ensures upper_bound { length result.now ≤ 50 }
{
    match list {
        LogList::States => b" (a state record)",
        LogList::Standards => b" (a standard)",
        LogList::Units => b" (a unit record)",
        _ => b" (a header)",
    }
}

// A number between two texts. The caller owes the room.
fn put_around(buf: &mut [u8], at: usize, before: &[u8], n: usize, behind: &[u8]) -> usize
    requires { at + length before.now + 20 + length behind.now ≤ length buf.old }
    ensures put { Put ((before.now ++ decimal n) ++ behind.now) buf.old at result buf.new }
    ensures upper_bound { result ≤ at + length before.now + 20 + length behind.now }
{
    let number = report::put_labelled(buf, at, before, n);
    filling::put_text(buf, number, behind)
}

// Whether a place of no list is a module: in 11, 16, and 7 for a module that was asked for.
fn is_module(ground: Ground) -> bool
    ensures { result ≡ is_module ground }
{
    matches!(
        ground,
        Ground::StrayModule | Ground::NoOpening | Ground::TooFast
    )
}

// Where a refusal points to: the kind of record, the record and its list, the benchmark, the module, or the second of two logs. The caller owes the room.
fn put_whereabouts(buf: &mut [u8], at: usize, x: Refusal) -> usize
    requires { at + 60 ≤ length buf.old }
    ensures put { Put (whereabouts x) buf.old at result buf.new }
    ensures upper_bound { result ≤ at + 60 }
{
    if x.ground == Ground::TooWide {
        return filling::put_text(buf, at, kind(x.list));
    }
    let place = x.place;
    match (x.list, x.ground) {
        (LogList::States, _) => put_around(buf, at, b" (record ", place, b" of the states)"),
        (LogList::Standards, _) => put_around(buf, at, b" (record ", place, b" of the standards)"),
        (LogList::Units, _) => put_around(buf, at, b" (record ", place, b" of the units)"),
        (LogList::Benchmarks, Ground::Length) => filling::put_text(buf, at, b" (the benchmarks)"),
        (LogList::Benchmarks, _) => put_around(buf, at, b" (benchmark ", place, b")"),
        (LogList::SecondStates, _) => put_around(
            buf,
            at,
            b" (record ",
            place,
            b" of the second log's states)",
        ),
        (LogList::SecondStandards, _) => put_around(
            buf,
            at,
            b" (record ",
            place,
            b" of the second log's standards)",
        ),
        (LogList::SecondUnits, _) => put_around(
            buf,
            at,
            b" (record ",
            place,
            b" of the second log's units)",
        ),
        (LogList::NoList, ground) if is_module(ground) => put_around(
            buf,
            at,
            b" (module ",
            place,
            b")",
        ),
        (LogList::NoList, _) => at,
        (LogList::Second, ground) if is_module(ground) => put_around(
            buf,
            at,
            b" (module ",
            place,
            b" of the second log)",
        ),
        (LogList::Second, _) => filling::put_text(buf, at, b" (the second log)"),
    }
}

// A line: word and meaning of a row, and where a refusal points to. The caller owes the room, and a row whose fields have at most 96 bytes.
fn put_words(buf: &mut [u8], row: Row, x: Refusal) -> usize
    requires room { 512 ≤ length buf.old }
    requires short_word { length row.word.now ≤ 96 }
    requires short_meaning { length row.meaning.now ≤ 96 }
    ensures { AtFront (line_of row.word.now row.meaning.now (whereabouts x)) 512 buf.old result buf.new }
{
    let word = filling::put_text(buf, 0, row.word);
    let meaning = put_two(buf, word, b": ", row.meaning);
    let place = put_whereabouts(buf, meaning, x);
    filling::put_text(buf, place, b"\n")
}

// Writes a refusal in words to the front of the buffer and answers the line's length: the trade word, the ground and where.
pub fn words_of(x: Refusal, buf: &mut [u8; 512]) -> usize
    ensures { AtFront (words_of x) 512 buf.old result buf.new }
{
    put_words(buf, row_of(x.ground), x)
}

// The list of a number, where there is one. By hand, as a ground's.
fn list_of(number: usize) -> Option<LogList>
    ensures { MatchOption result (is_list number ≡ false) (λ l. list_number l ≡ number) }
{
    match number {
        0 => Some(LogList::NoList),
        1 => Some(LogList::States),
        2 => Some(LogList::Standards),
        3 => Some(LogList::Units),
        4 => Some(LogList::Benchmarks),
        10 => Some(LogList::Second),
        11 => Some(LogList::SecondStates),
        12 => Some(LogList::SecondStandards),
        13 => Some(LogList::SecondUnits),
        _ => None,
    }
}

// What the card says of any number: nothing where it does not have the number.
fn row_at(number: usize) -> Row
    ensures { OnCard number result.word.now result.meaning.now result.look_for.now }
{
    match ground_of(number) {
        Some(ground) => row_of(ground),
        None => Row {
            word: b"",
            meaning: b"",
            look_for: b"",
        },
    }
}

// A refusal that points where any three numbers do. A number that is no ground points as the first ground does, which has no place of its own kind;
// a list that is none points as no list does, where no place is taken for a module.
fn refusal_at(number: usize, list: usize, place: usize) -> Refusal
    ensures { whereabouts result ≡ whereabouts_at number list place }
{
    let ground = ground_of(number).unwrap_or(Ground::NoHeader);
    let none = LogList::NoList;
    match list_of(list) {
        Some(list) => Refusal {
            ground,
            list,
            place,
        },
        None if is_module(ground) => Refusal {
            ground: Ground::NoHeader,
            list: none,
            place,
        },
        None => Refusal {
            ground,
            list: none,
            place,
        },
    }
}

// Writes any three numbers in words, those of a refusal as `words_of` does: word and meaning are empty where the card does not have the number,
// and a list that is none points nowhere, but in 22, where it is a header's.
pub fn words_at(number: usize, list: usize, place: usize, buf: &mut [u8; 512]) -> usize
    ensures { AtFront (words_at number list place) 512 buf.old result buf.new }
{
    put_words(buf, row_at(number), refusal_at(number, list, place))
}
