// A log, or its benchmarks, read from the file that an argument names, or from standard input. What is said of a log here holds of both.
#![tactic(auto)]

ghost use Rattle.std.specs.Prelude.{◌≤◌, length, IfOk, IfSome, IsUtf8};
ghost use Rattle.io.specs.Counts.{IsPrefixLen};

use std::env::FillError;
use std::fs::File;
use std::io;
use std::io::{ErrorKind, Read};
use std::rt::{Env, Files};

// The error number of a name that is longer than the system takes.
pub const ENAMETOOLONG: i32 = 36;

const STANDARD_INPUT: &[u8] = b"standard input";

// The bytes of a log, and its name, which fits a line of `saying`.
#[derive(Clone, Copy)]
pub struct Named<'a> {
    pub name: &'a [u8],
    pub bytes: &'a [u8],
    pub ghost short: { length name.now ≤ 4096 },
}

// Reads until the source ends or the array is full, and answers how many bytes it put at the front. A length and no slice of what is left: the caller
// cuts its array by it, and `read` tells a length too.
pub fn read_full<R: Read>(source: &mut R, input: &mut [u8]) -> io::Result<usize>
    ensures { IfOk result (λ n. IsPrefixLen n input.new) }
{
    let mut done = 0;
    while done < input.len() {
        let n = source.read(&mut input[done..])?;
        if n == 0 {
            break;
        }
        done += n;
    }
    Ok(done)
}

// The bytes that were read of a source, at most as many as the array has.
fn read_open<'a, R: Read>(source: &mut R, input: &'a mut [u8]) -> io::Result<&'a [u8]>
    ensures { IfOk result (λ bytes. length bytes.now ≤ length input.old) }
{
    let n = read_full(source, input)?;
    Ok(&input[..n])
}

// Opens the file of a name. std knows a file by a name of UTF-8 alone: no other is opened.
pub fn open<R: Files>(rt: &R, name: &[u8]) -> io::Result<R::File>
    ensures { IfOk result (λ file. IsUtf8 name.now) }
{
    match str::from_utf8(name) {
        Ok(path) => File::open(rt, path),
        Err(_) => Err(io::Error::new(ErrorKind::InvalidFilename, "a name that is not UTF-8")),
    }
}

// The file of a name.
fn read_file<'a>(rt: &impl Files, name: &[u8], input: &'a mut [u8]) -> io::Result<&'a [u8]>
    ensures { IfOk result (λ bytes. length bytes.now ≤ length input.old) }
{
    let mut file = open(rt, name)?;
    read_open(&mut file, input)
}

// The name of the log that argument i names, and the log; left out, or `-`, it is standard input.
fn read_argument<'a>(
    rt: &(impl Files + Env + Input),
    i: usize,
    name: &'a mut [u8],
    input: &'a mut [u8],
) -> (&'a [u8], io::Result<&'a [u8]>)
    requires { length name.old ≤ 4096 }
    ensures short { length result.0.now ≤ 4096 }
    ensures lent { 14 ≤ length name.old → length result.0.now ≤ length name.old }
    ensures within { IfOk result.1 (λ bytes. length bytes.now ≤ length input.old) }
{
    match rt.arg(i, name) {
        Err(FillError::NotPresent) => (STANDARD_INPUT, read_open(&mut rt.reader(), input)),
        Err(FillError::TooLong) => (name, Err(io::Error::from_raw_os_error(ENAMETOOLONG))),
        Ok(n) => match &name[..n] {
            b"-" => (STANDARD_INPUT, read_open(&mut rt.reader(), input)),
            name => (name, read_file(rt, name, input)),
        },
    }
}

// The same. Where the log cannot be read it says why, on standard error.
pub fn read_log<'a>(
    rt: &(impl Files + Env + Input),
    err: &impl Print,
    i: usize,
    name: &'a mut [u8],
    input: &'a mut [u8],
) -> Option<Named<'a>>
    requires { length name.old ≤ 4096 }
    ensures within { IfSome result (λ named. length named.bytes.now ≤ length input.old) }
    ensures lent { 14 ≤ length name.old → IfSome result (λ named. length named.name.now ≤ length name.old) }
{
    let (name, read) = read_argument(rt, i, name, input);
    match read {
        Ok(bytes) => Some(Named { name, bytes }),
        Err(why) => {
            saying::fail(err, name, &why);
            None
        }
    }
}
