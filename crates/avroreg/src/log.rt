//! The write-ahead log next to a database file, and what it says about the registry.

use std::io::Read;
use std::rt::Files;
use std::{fs, io};

/// The size of a new database in bytes.
const PAGE: u64 = 4096;

/// The size of a log's header and one frame's header in bytes. A shorter log has no frame (SQLite,
/// WAL File Format).
const FRAMELESS: u64 = 56;

/// The number of checkpoints in the header of a log, at bytes 12 to 15, if `sqlite` made the log together with its
/// database. A checkpoint writes another number, and so does an open that finds no log.
const UNCHECKPOINTED: &[u8; 4] = b"\xff\xff\xff\xff";

/// The name of the log of a file. `sqlite` keeps the log next to the file that a symbolic link
/// leads to. If the file is missing, there is no link to follow; `sqlite` opens no broken link.
fn log_of(rt: &HostRuntime, file: &str) -> io::Result<String> {
    match fs::canonicalize(rt, file) {
        Ok(real) => Ok(format!(in rt.alloc(); "{}-wal", real.as_str())?),
        Err(error) if error.kind() == io::ErrorKind::NotFound => {
            Ok(format!(in rt.alloc(); "{file}-wal")?)
        }
        Err(error) => Err(error),
    }
}

/// The length of the log next to a file, or 0 without a log.
fn length_of_log(rt: &HostRuntime, file: &str) -> io::Result<u64> {
    match fs::metadata(rt, log_of(rt, file)?.as_str()) {
        Ok(found) => Ok(found.len()),
        Err(error) if error.kind() == io::ErrorKind::NotFound => Ok(0),
        Err(error) => Err(error),
    }
}

/// Whether a log with bytes lies next to a file.
pub fn has_log(rt: &HostRuntime, file: &str) -> io::Result<bool> {
    Ok(length_of_log(rt, file)? > 0)
}

/// Whether the log next to a file is long enough for a frame's header. Such a log may have commits.
/// `sqlite` wrote it after the first page of its database.
pub fn has_frames(rt: &HostRuntime, file: &str) -> io::Result<bool> {
    Ok(length_of_log(rt, file)? >= FRAMELESS)
}

/// Whether a log was made together with its database.
fn is_first(rt: &HostRuntime, log: &str) -> io::Result<bool> {
    let mut opened = fs::OpenOptions::new().read(true).open(rt, log)?;
    let mut front = [0u8; 16];
    let read = opened.read(&mut front)?;
    Ok(read == 16 && front[12..] == UNCHECKPOINTED[..])
}

/// The length of the log next to a file, or `None` if it wasn't made together with its database.
fn length_of_first_log(rt: &HostRuntime, file: &str) -> io::Result<Option<u64>> {
    let log = log_of(rt, file)?;
    let found = fs::metadata(rt, log.as_str())?;
    if found.is_file() && is_first(rt, log.as_str())? {
        Ok(Some(found.len()))
    } else {
        Ok(None)
    }
}

/// The same, and `None` also without a log.
fn first_log(rt: &HostRuntime, file: &str) -> io::Result<Option<u64>> {
    match length_of_first_log(rt, file) {
        Err(error) if error.kind() == io::ErrorKind::NotFound => Ok(None),
        found => found,
    }
}

/// Whether the log next to a file was made together with its database. Then no table was copied out of the log
/// or lost with an earlier one.
pub fn has_first_log(rt: &HostRuntime, file: &str) -> io::Result<bool> {
    Ok(first_log(rt, file)?.is_some())
}

/// Whether the creation of a database in an existing file was interrupted: the file has at most its
/// first page, and the log that was made together with it has no frame. False without such a log.
pub fn is_unfinished(rt: &HostRuntime, file: &str) -> io::Result<bool> {
    match first_log(rt, file)? {
        Some(length) => Ok(length < FRAMELESS && fs::metadata(rt, file)?.len() <= PAGE),
        None => Ok(false),
    }
}

/// Removes the log of a database file. The caller has locked the database, and the log is empty.
pub fn remove_log(rt: &HostRuntime, file: &str) -> io::Result<()> {
    fs::remove_file(rt, log_of(rt, file)?.as_str())
}
