//! The database of a registry in a file: which files are opened as one, and how the program closes it.

ghost use Rattle.std.specs.Prelude.{IfOk};
ghost use Rattle.reg_jobs.specs.Opening.{OpensExisting, OpensOrCreates};

use crate::log::{has_first_log, has_frames, has_log, is_unfinished, remove_log};
use avro_nodes::OutOfMemory;
use reg_jobs::Opened;
use reg_store::StoreError;
use sqlite::{Connection, Error, ErrorCode, FileFrom, FileStore, Wary};
use std::io::Read;
use std::rt::Files;
use std::{fs, io};

/// A database in a file and its log. A torn write may leave any bytes, so each commit syncs twice.
pub type FileDatabase = FileStore<FileFrom<Wary>>;

/// The first bytes of a database file (SQLite, Database File Format).
const DATABASE_FRONT: &[u8; 16] = b"SQLite format 3\0";

/// The state of a database file, before anything is opened.
#[derive(Clone, Copy)]
enum FileState {
    /// There is no file.
    Missing,
    /// A file without a byte.
    Empty,
    /// A database whose creation was interrupted before its log had a frame.
    Unfinished,
    /// A file that begins as a database, or has a log next to it.
    Database,
    /// A log with frames whose database file is missing or has no byte. An open would create a new
    /// database, and empty the log.
    OrphanedLog,
    /// Anything else: no regular file, or one that an open would overwrite.
    Other,
}

/// Whether a file begins as a database does.
fn begins_as_database(rt: &HostRuntime, file: &str) -> io::Result<bool> {
    let mut opened = fs::OpenOptions::new().read(true).open(rt, file)?;
    let mut front = [0u8; 16];
    opened.read(&mut front)?;
    Ok(front.as_slice() == DATABASE_FRONT.as_slice())
}

/// The state of a file with bytes.
fn state_with_bytes(rt: &HostRuntime, file: &str) -> io::Result<FileState> {
    if is_unfinished(rt, file)? {
        return Ok(FileState::Unfinished);
    }
    if begins_as_database(rt, file)? || has_log(rt, file)? {
        Ok(FileState::Database)
    } else {
        Ok(FileState::Other)
    }
}

/// The state of a file that is missing or has no byte: `found`, unless a log with frames lies next
/// to it. A new database has its first page before its log has a frame, so next to such a log a
/// database was lost.
fn state_without_bytes(rt: &HostRuntime, file: &str, found: FileState) -> io::Result<FileState> {
    if has_frames(rt, file)? {
        Ok(FileState::OrphanedLog)
    } else {
        Ok(found)
    }
}

/// The state of a database file.
fn state_of_file(rt: &HostRuntime, file: &str) -> io::Result<FileState> {
    match fs::metadata(rt, file) {
        Ok(found) if !found.is_file() => Ok(FileState::Other),
        Ok(found) if found.len() > 0 => state_with_bytes(rt, file),
        Ok(_) => state_without_bytes(rt, file, FileState::Empty),
        Err(error) if error.kind() == io::ErrorKind::NotFound => {
            state_without_bytes(rt, file, FileState::Missing)
        }
        Err(error) => Err(error),
    }
}

/// Whether a database has no table, index, view or trigger.
fn has_empty_schema(connection: &mut Connection<FileDatabase>) -> Result<bool, Error> {
    let count: i64 = connection
        .query_row("SELECT count(*) FROM sqlite_schema", &[])?
        .get(0)?;
    Ok(count == 0)
}

/// Whether a registry may be created in a database: it has no table, index, view or trigger, and
/// either its log is the first one or its file was unfinished. Otherwise tables may have been lost.
fn may_create_registry(
    rt: &HostRuntime,
    file: &str,
    was_unfinished: bool,
    connection: &mut Connection<FileDatabase>,
) -> Result<bool, Error> {
    if !has_empty_schema(connection)? {
        return Ok(false);
    }
    match has_first_log(rt, file) {
        Ok(is_first) => Ok(is_first || was_unfinished),
        Err(error) if error.kind() == io::ErrorKind::OutOfMemory => {
            Err(Error::SqliteFailure(ErrorCode::OutOfMemory))
        }
        Err(_) => Err(Error::SqliteFailure(ErrorCode::SystemIoFailure)),
    }
}

/// The result for a database that can't be opened.
fn failed(error: Error) -> Result<Opened<FileDatabase>, OutOfMemory>
    ensures { IfOk result OpensOrCreates }
{
    match error {
        Error::SqliteFailure(ErrorCode::OutOfMemory) => Err(OutOfMemory),
        _ => Ok(Opened::Failed(StoreError::Disk)),
    }
}

/// The result for a file that can't be examined.
fn unexamined(error: io::Error) -> Result<Opened<FileDatabase>, OutOfMemory>
    ensures create { IfOk result OpensOrCreates }
    ensures existing { IfOk result OpensExisting }
{
    match error.kind() {
        io::ErrorKind::OutOfMemory => Err(OutOfMemory),
        _ => Ok(Opened::Failed(StoreError::Disk)),
    }
}

/// Opens the database in a file. If the file is missing, empty or unfinished, it creates the
/// database.
fn connect(
    rt: &HostRuntime,
    file: &str,
    was_unfinished: bool,
) -> Result<Opened<FileDatabase>, OutOfMemory>
    ensures { IfOk result OpensOrCreates }
{
    let mut connection = match Connection::open_from(rt, file, false, Wary) {
        Ok(connection) => connection,
        Err((error, _)) => return failed(error),
    };
    match may_create_registry(rt, file, was_unfinished, &mut connection) {
        Ok(true) => Ok(Opened::Fresh(connection)),
        Ok(false) => Ok(Opened::Database(connection)),
        Err(error) => failed(error),
    }
}

/// Opens the database in a file for a job that may create a registry. If there is no database, it
/// creates one, which has no registry yet. If only a log with frames is left, it opens and creates
/// nothing.
///
/// # Errors
///
/// `OutOfMemory` if an allocation fails. Every other failure is `Opened::Failed`.
pub fn open_or_create_database(
    rt: &HostRuntime,
    file: &str,
) -> Result<Opened<FileDatabase>, OutOfMemory>
    ensures { IfOk result OpensOrCreates }
{
    match state_of_file(rt, file) {
        Ok(FileState::Missing | FileState::Empty | FileState::Database) => connect(rt, file, false),
        Ok(FileState::Unfinished) => connect(rt, file, true),
        Ok(FileState::OrphanedLog) => Ok(Opened::Failed(StoreError::NotARegistry)),
        Ok(FileState::Other) => Ok(Opened::Failed(StoreError::Disk)),
        Err(error) => unexamined(error),
    }
}

/// Opens an existing database for a job that creates no registry. If there is no registry yet, the
/// result is `Database` too.
fn connect_existing(rt: &HostRuntime, file: &str) -> Result<Opened<FileDatabase>, OutOfMemory>
    ensures { IfOk result OpensExisting }
{
    match connect(rt, file, false)? {
        Opened::Fresh(connection) => Ok(Opened::Database(connection)),
        opened => Ok(opened),
    }
}

/// Opens the database in a file for a job that creates no registry. It creates no file. It opens
/// nothing if the file is empty or unfinished, or if only its log is left.
///
/// # Errors
///
/// `OutOfMemory` if an allocation fails. Every other failure is `Opened::Failed`.
pub fn open_existing_database(
    rt: &HostRuntime,
    file: &str,
) -> Result<Opened<FileDatabase>, OutOfMemory>
    ensures { IfOk result OpensExisting }
{
    match state_of_file(rt, file) {
        Ok(FileState::Database) => connect_existing(rt, file),
        Ok(FileState::Empty | FileState::Unfinished | FileState::OrphanedLog) => {
            Ok(Opened::Failed(StoreError::NotARegistry))
        }
        Ok(FileState::Missing | FileState::Other) => Ok(Opened::Failed(StoreError::Disk)),
        Err(error) => unexamined(error),
    }
}

/// Closes a database F: copies its log into F, and removes the log. If the copy fails, F and F-wal
/// together have the committed state. If there is no registry yet, or the check for one fails, both
/// files stay, so that the next start can create the registry.
pub fn close(rt: &HostRuntime, file: &str, mut connection: Connection<FileDatabase>) {
    if let Ok(false) = may_create_registry(rt, file, false, &mut connection)
        && let Ok(files) = connection.close_files()
    {
        let _ = remove_log(rt, file);
        drop(files);
    }
}
