// Lines on standard error: the program, what the line is about, and the reason. A buffer and a place: see `filling`. That a name is at most 4,096 bytes stands
// in four contracts: it is the caller's slice, and a type for it would be made at each of their calls.
#![tactic(auto)]

ghost use Rattle.std.specs.Prelude.{◌≡◌, map, ◌+◌, ◌≤◌, length};
ghost use Rattle.filling.specs.Buffer.{Put, AtFront};
ghost use Rattle.saying.specs.Names.{about, shown_byte};
ghost use Rattle.saying.specs.Reasons.{WithoutNumber};

use std::io;
use std::io::{Cursor, Write};

// A byte as it is shown: `?` for one that moves the cursor.
#[tactic(auto, unfolding(crate::specs::Names::shown_byte))]
fn shown_byte(b: u8) -> u8
    ensures { result ≡ shown_byte b }
{
    if b.is_ascii_control() { b'?' } else { b }
}

// Copies a name as it is shown into the buffer from `at` on. The caller owes the room.
fn put_shown(buf: &mut [u8], at: usize, name: &[u8]) -> usize
    requires { at + length name.now ≤ length buf.old }
    ensures { Put (map shown_byte name.now) buf.old at result buf.new }
{
    let mut next = at;
    for b in name {
        next = filling::put_text(buf, next, &[shown_byte(*b)]);
    }
    next
}

// Writes how a line about a name begins.
fn put_about(name: &[u8], line: &mut [u8; 4200]) -> usize
    requires { length name.now ≤ 4096 }
    ensures { AtFront (about name.now) 4200 line.old result line.new }
{
    let program = filling::put_text(line, 0, b"toollog: ");
    put_shown(line, program, name)
}

// An error's words: std puts the system's number behind them.
fn without_number(said: &str) -> &str
    ensures { WithoutNumber said.now result.now }
{
    match said.split_once(" (os error ") {
        Some((words, _)) => words,
        None => said,
    }
}

// Why the system refused, in its own words.
pub fn reason<'a>(why: &io::Error, space: &'a mut [u8; 256]) -> &'a str
    ensures { length result.now ≤ 256 }
{
    // An array of its own: of a Cursor over `space` it was not proved that it still lends `space` after `write!`.
    let mut text = Cursor::new([0u8; 256]);
    let _ = write!(text, "{why}");
    let n = (text.position() as usize).min(256);
    *space = text.into_inner();
    without_number(str::from_utf8(&space[..n]).unwrap_or(""))
}

// Begins a line about a name.
fn begin(err: &impl Print, name: &[u8])
    requires { length name.now ≤ 4096 }
{
    let mut line = [0u8; 4200];
    let n = put_about(name, &mut line);
    let _ = err.write_all(&line[..n]);
    let _ = err.write_all(b": ");
}

// The line for what the system refused, and why.
pub fn fail(err: &impl Print, name: &[u8], why: &io::Error)
    requires { length name.now ≤ 4096 }
{
    let mut space = [0u8; 256];
    begin(err, name);
    let _ = err.write_all(reason(why, &mut space).as_bytes());
    let _ = err.write_all(b"\n");
}

// The line for any other reason, which ends in byte 10.
pub fn complain(err: &impl Print, name: &[u8], reason: &[u8])
    requires { length name.now ≤ 4096 }
{
    begin(err, name);
    let _ = err.write_all(reason);
}
