// Puts standard input in the place of the file that its first argument names, whole or not at all, and then writes out what the file holds. It is what
// `saving` is tried with.
#![tactic(auto)]

use reading::ENAMETOOLONG;
use saving::ReplaceError;
use std::env::FillError;
use std::io;
use std::rt::Env;

// The error number of an argument that is missing.
const EINVAL: i32 = 22;

fn refusal(why: FillError) -> io::Error {
    io::Error::from_raw_os_error(match why {
        FillError::NotPresent => EINVAL,
        FillError::TooLong => ENAMETOOLONG,
    })
}

// The line for what the system refused, and why. Not `saying::fail`, whose lines begin with the name of another program.
fn fail(rt: HostRuntime, what: &[u8], why: &io::Error) {
    let mut space = [0u8; 256];
    let err = rt.stderr();
    let _ = err.write_all(what);
    let _ = err.write_all(b": ");
    let _ = err.write_all(saying::reason(why, &mut space).as_bytes());
    let _ = err.write_all(b"\n");
}

// Writes out the file.
fn show(rt: HostRuntime, path: &[u8]) -> io::Result<()> {
    match reading::open(&rt, path) {
        Ok(mut file) => {
            let mut space = [0u8; 65536];
            let n = reading::read_full(&mut file, &mut space).unwrap_or(0);
            rt.write_all(&space[..n])
        }
        Err(why) => {
            fail(rt, path, &why);
            Ok(())
        }
    }
}

// Says why the new file could not be written.
fn blame_new(rt: HostRuntime, path: &[u8], why: &io::Error) {
    let mut name = [0u8; 4200];
    let n = saving::put_name(path, &mut name);
    fail(rt, &name[..n], why);
}

fn keep(rt: HostRuntime, path: &[u8]) -> io::Result<()> {
    let mut input = [0u8; 65536];
    let n = reading::read_full(&mut rt.stdin(), &mut input)?;
    match saving::replace(&rt, path, &input[..n]) {
        Ok(()) => {}
        Err(ReplaceError::NotWritten(why)) => blame_new(rt, path, &why),
        Err(ReplaceError::NotRenamed(why)) => fail(rt, path, &why),
    }
    show(rt, path)
}

fn main(rt: HostRuntime) -> io::Result<()> {
    let mut path = [0u8; 4096];
    match rt.arg(1, &mut path) {
        Ok(n) => keep(rt, &path[..n]),
        Err(why) => {
            fail(rt, b"keep", &refusal(why));
            Ok(())
        }
    }
}
