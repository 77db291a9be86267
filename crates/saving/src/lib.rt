// A file written whole or not at all. No contract can speak of a file: what `replace` does to one is tried by the program `keep` in samples/check-saving.
#![tactic(auto)]

ghost use Rattle.std.specs.Prelude.{◌≤◌, length};
ghost use Rattle.filling.specs.Buffer.{AtFront};
ghost use Rattle.saving.specs.Names.{new_name};

use std::fs::{OpenFile, OpenOptions};
use std::io::{ErrorKind, Write};
use std::rt::Files;
use std::{fs, io};

// The error number of a name that is longer than the system takes, so that the reason is in its own words. `reading` has it too: neither crate knows the other.
const ENAMETOOLONG: i32 = 36;

// Writes the name of the new file: the path and `.new` behind it.
pub fn put_name(path: &[u8], name: &mut [u8; 4200]) -> usize
    ensures { AtFront (new_name path.now) 4200 name.old result name.new }
{
    let n = filling::put_text(name, 0, &path[..path.len().min(4196)]);
    filling::put_text(name, n, b".new")
}

// Writes all bytes to an open file, waits until they have reached the device, and closes it.
fn fill<F: Write + OpenFile + Drop>(mut file: F, bytes: &[u8]) -> io::Result<()> {
    file.write_all(bytes)?;
    file.sync_all()
}

// Why a file was not replaced: it is the file of `put_name` that could not be written, or the one of the path itself that could not be replaced.
#[derive(Debug, Drop)]
pub enum ReplaceError {
    NotWritten(io::Error),
    NotRenamed(io::Error),
}

// What came of a step; where it failed the new file is removed.
fn or_removed(files: &impl Files, new: &str, done: io::Result<()>) -> io::Result<()> {
    if done.is_err() {
        let _ = fs::remove_file(files, new);
    }
    done
}

// Whether the path names what is there and is no file and no directory: a device, say, whose place a file must not take. A directory takes none by itself.
fn is_special(files: &impl Files, path: &str) -> bool {
    match fs::metadata(files, path) {
        Ok(there) => !there.is_file() && !there.is_dir(),
        Err(_) => false,
    }
}

// Writes the bytes to a new file beside the one that the path names, and renames it into place once all of them are kept. Where that is not done the path
// names what it named before, and the new file is gone. A new file that is there already, left by a run that was cut off, stays and is not written over.
// std knows a file by a path of UTF-8 alone: by any other it writes none.
pub fn replace(files: &impl Files, path: &[u8], bytes: &[u8]) -> Result<(), ReplaceError> {
    let mut name = [0u8; 4200];
    let n = put_name(path, &mut name);
    let Ok(path) = str::from_utf8(path) else {
        return Err(ReplaceError::NotWritten(io::Error::new(
            ErrorKind::InvalidFilename,
            "a name that is not UTF-8",
        )));
    };
    // A path that was cut inside a character is longer than any that a system takes.
    let Ok(new) = str::from_utf8(&name[..n]) else {
        return Err(ReplaceError::NotWritten(io::Error::from_raw_os_error(ENAMETOOLONG)));
    };
    if is_special(files, path) {
        return Err(ReplaceError::NotRenamed(io::Error::new(
            ErrorKind::InvalidInput,
            "not a regular file",
        )));
    }
    let file = OpenOptions::new()
        .write(true)
        .create_new(true)
        .open(files, new)
        .map_err(ReplaceError::NotWritten)?;
    or_removed(files, new, fill(file, bytes)).map_err(ReplaceError::NotWritten)?;
    or_removed(files, new, fs::rename(files, new, path)).map_err(ReplaceError::NotRenamed)
}

// Replaces a file, and answers whether it could. Where not, it says why on standard error: of the new file, or of the one that the path names.
pub fn save(files: &impl Files, err: &impl Print, path: &[u8], bytes: &[u8]) -> bool
    requires { length path.now ≤ 4096 }
{
    match replace(files, path, bytes) {
        Ok(()) => true,
        Err(ReplaceError::NotWritten(why)) => {
            let mut name = [0u8; 4200];
            let n = put_name(path, &mut name).min(4096);
            saying::fail(err, &name[..n], &why);
            false
        }
        Err(ReplaceError::NotRenamed(why)) => {
            saying::fail(err, path, &why);
            false
        }
    }
}
