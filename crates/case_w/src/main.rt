// Case W of document 01: its 121 bytes, laid out by hand from the document's numbers, are decoded by the calls that the library reads a log by and
// compared with those numbers; then the headers of shorter slices. Prints each entry that differs. Four entries have a number changed and have to
// be told, so that a program that says nothing fails; the last line says what was compared.
// A test for each kind of record, alike in shape: each contract names the definition that its record is read by.
#![tactic(auto)]

ghost use Rattle.std.specs.Prelude.{◌≡◌, ◌<◌, Decides};
ghost use Rattle.records.specs.Log.{header_of, state_at, standard_at, unit_at};

use records::{
    Header, Standard, StandardRecords, StateRecord, StateRecords, UnitRecord, UnitRecords, WholeLog,
};
use std::io;

// Header, eight state records, three standards, three unit records.
const LOG: [u8; 121] = [
    0x04, 0x81, 0x90, 0x80, 0x00, 0xc0, 0x08, 0x00, 0x60, 0x03, 0x00, 0x00, 0x00, 0x00, 0x00, 0x00,
    0x04, 0x00, 0x00, 0x00, 0x00, 0x00, 0x08, 0x00, 0x00, 0x00, 0x00, 0x00, 0x08, 0xe0, 0x44, 0xaa,
    0x20, 0x00, 0x04, 0xe0, 0x7f, 0x07, 0x88, 0x00, 0x00, 0xe0, 0x80, 0xbe, 0xfc, 0x00, 0x06, 0x40,
    0x87, 0x9c, 0xcc, 0x00, 0x02, 0x40, 0x8b, 0xe7, 0x6e, 0x00, 0x00, 0x00, 0x00, 0x00, 0x00, 0x00,
    0x00, 0x6d, 0xdd, 0x00, 0x04, 0x00, 0x00, 0x00, 0x00, 0x00, 0x00, 0x6d, 0xdd, 0x00, 0x08, 0x00,
    0x00, 0x00, 0x00, 0x00, 0x00, 0x6d, 0xdd, 0x00, 0x00, 0x00, 0x00, 0x06, 0xdd, 0xd0, 0x00, 0x23,
    0x00, 0x20, 0xa0, 0x04, 0x00, 0x00, 0x06, 0xdd, 0xd0, 0x00, 0x24, 0x40, 0x22, 0xc0, 0x08, 0x00,
    0x00, 0x06, 0xdd, 0xd0, 0x00, 0x12, 0xc0, 0x12, 0xc0,
];

const HEADER: Header = Header {
    period: 604800000,
    modules: 3,
    states: 8,
    standards: 3,
    units: 3,
};

// A record whose spare bits are 0; a standard and a unit record of recipe 0.
fn state(module: usize, code: usize, time: u64) -> StateRecord
    ensures { result ≡ record { «module» = «module»; code = code; time = time; spare = 0 } }
{
    StateRecord {
        module,
        code,
        time,
        spare: 0,
    }
}

fn standard(module: usize) -> Standard
    ensures { result ≡ record { «module» = «module»; recipe = 0; start = 0; theoretical = 1800000; spare = 0 } }
{
    Standard {
        module,
        recipe: 0,
        start: 0,
        theoretical: 1800000,
        spare: 0,
    }
}

fn unit(module: usize, actual: u64, effective: u64) -> UnitRecord
    ensures { result ≡ record { «module» = «module»; recipe = 0; time = 3600000; actual = actual; effective = effective; spare = 0 } }
{
    UnitRecord {
        module,
        recipe: 0,
        time: 3600000,
        actual,
        effective,
        spare: 0,
    }
}

fn tell(out: &impl Print, same: bool, what: &str) -> io::Result<()> {
    if same {
        return Ok(());
    }
    println!(out; "{what} differs")
}

// Whether the header of a slice, and record i of each list, is the one that is expected.
fn header_is(log: &[u8], expected: Header) -> bool
    ensures { Decides result (header_of log.now ≡ expected) }
{
    records::read_header(log) == expected
}

fn state_is(states: StateRecords<'_>, i: usize, expected: StateRecord) -> bool
    requires { i < states.header.states }
    ensures { Decides result (state_at states.entry.bytes.now i ≡ expected) }
{
    states.record(i) == expected
}

fn standard_is(standards: StandardRecords<'_>, i: usize, expected: Standard) -> bool
    requires { i < standards.header.standards }
    ensures { Decides result (standard_at standards.entry.bytes.now standards.entry.header i ≡ expected) }
{
    standards.record(i) == expected
}

fn unit_is(units: UnitRecords<'_>, i: usize, expected: UnitRecord) -> bool
    requires { i < units.header.units }
    ensures { Decides result (unit_at units.entry.bytes.now units.entry.header i ≡ expected) }
{
    units.record(i) == expected
}

// Each record of each list.
fn lists(out: &impl Print, log: WholeLog<'_>) -> io::Result<()>
    requires { log.header ≡ HEADER }
{
    let states = [
        state(0, 0, 0),
        state(1, 0, 0),
        state(2, 0, 0),
        state(2, 7, 288000000),
        state(1, 7, 532800000),
        state(0, 7, 540000000),
        state(1, 18, 568800000),
        state(0, 18, 586800000),
    ];
    for (i, expected) in states.iter().enumerate() {
        if !state_is(log.states(), i, *expected) {
            println!(out; "state record {i} differs")?;
        }
    }
    let standards = [standard(0), standard(1), standard(2)];
    for (i, expected) in standards.iter().enumerate() {
        if !standard_is(log.standards(), i, *expected) {
            println!(out; "standard {i} differs")?;
        }
    }
    let units = [unit(0, 280, 261), unit(1, 290, 278), unit(2, 150, 150)];
    for (i, expected) in units.iter().enumerate() {
        if !unit_is(log.units(), i, *expected) {
            println!(out; "unit record {i} differs")?;
        }
    }
    Ok(())
}

// An entry of each kind with one number changed.
fn changed(out: &impl Print, log: WholeLog<'_>) -> io::Result<()>
    requires { log.header ≡ HEADER }
{
    let more = Header { units: 4, ..HEADER };
    tell(
        out,
        header_is(log.bytes, more),
        "header with one unit record more",
    )?;
    let later = state(0, 18, 586800001);
    tell(
        out,
        state_is(log.states(), 7, later),
        "state record 7 one millisecond later",
    )?;
    tell(
        out,
        standard_is(log.standards(), 2, standard(1)),
        "standard 2 as module 1's",
    )?;
    tell(
        out,
        unit_is(log.units(), 2, unit(2, 150, 151)),
        "unit record 2 with one unit more",
    )
}

// The lists stand where the header's counts put them: they are read where it is case W's.
fn whole_log(out: &impl Print, log: &[u8; 121]) -> io::Result<()> {
    let h = records::read_header(log);
    if h != HEADER {
        return println!(out; "header differs");
    }
    let whole = WholeLog::new(log, h);
    lists(out, whole)?;
    changed(out, whole)
}

fn main(rt: HostRuntime) -> io::Result<()> {
    let log = LOG;
    whole_log(&rt, &log)?;
    let none = Header {
        period: 0,
        modules: 0,
        states: 0,
        standards: 0,
        units: 0,
    };
    tell(&rt, header_is(&log[..0], none), "header of 0 bytes")?;
    // 0x048190 as the top 24 bits of the period
    let front = Header {
        period: 604798976,
        ..none
    };
    tell(&rt, header_is(&log[..3], front), "header of 3 bytes")?;
    rt.println(
        "case W: the header, 8 state records, 3 standards and 3 unit records compared, and the headers of 0 and 3 bytes; 4 changed entries told",
    )
}
