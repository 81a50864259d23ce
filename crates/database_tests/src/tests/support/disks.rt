//! Databases on disks in memory that fail from a given call on.

use sqlite::{Alter, Connection, FileStore, Files, Options};
use sqlite_disk::{Disk, Fuse, Memory};
use std::alloc::Global;
use std::test::Fail;

/// The files of a disk whose log and database fail after these numbers of calls.
fn fused(log: Memory, log_calls: u64, db: Memory, db_calls: u64) -> Files<Fuse<Memory>> {
    Files {
        log: Fuse::new(log, log_calls),
        db: Fuse::new(db, db_calls),
    }
}

/// The files of an empty disk that doesn't fail.
pub fn empty_disk(alloc: Global) -> Files<Fuse<Memory>> {
    fused(Memory::new(alloc), u64::MAX, Memory::new(alloc), u64::MAX)
}

/// A task over a database on any storage.
pub trait DatabaseTask {
    /// Runs the task, and returns the connection.
    ///
    /// # Errors
    ///
    /// A failed test.
    fn work<S: Alter + Drop>(
        &mut self,
        alloc: Global,
        connection: Connection<S>,
    ) -> Result<Connection<S>, Fail>;
}

/// A connection over the files.
///
/// # Errors
///
/// The files, if they can't be used or opened.
fn connect<D: Disk + Drop>(
    alloc: Global,
    files: Files<D>,
) -> Result<Connection<FileStore<D>>, Files<D>> {
    if !files.may_be_used() {
        return Err(files);
    }
    match Connection::open_files(alloc, files, Options::new(7)) {
        Ok(connection) => Ok(connection),
        Err((_, left)) => Err(left.into_files()),
    }
}

/// The files of a connection, and whether closing it copied the log into the database.
fn files_of<D: Disk + Drop>(connection: Connection<FileStore<D>>) -> (Files<D>, bool) {
    match connection.close_files() {
        Ok(files) => (files, true),
        Err((_, store)) => (store.close(), false),
    }
}

/// Runs the task over the database in the files, as `on_disk` does. Only this function runs a task
/// over a `FileStore`, since each such function takes long to check.
fn on_files<D: Disk + Drop, T: DatabaseTask>(
    alloc: Global,
    files: Files<D>,
    task: &mut T,
) -> Result<(Files<D>, bool), Fail> {
    match connect(alloc, files) {
        Ok(connection) => Ok(files_of(task.work(alloc, connection)?)),
        Err(files) => Ok((files, false)),
    }
}

/// Runs the task over the database in the files, if they can be opened. Returns the files, and
/// whether they were opened and closing them copied the log into the database.
///
/// # Errors
///
/// A failed test, as the task says.
pub fn on_disk<T: DatabaseTask>(
    alloc: Global,
    files: Files<Fuse<Memory>>,
    task: &mut T,
) -> Result<(Files<Fuse<Memory>>, bool), Fail> {
    on_files(alloc, files, task)
}

/// A copy of the file, as a process that ends now leaves it.
fn copied(alloc: Global, file: &Memory) -> Result<Memory, Fail> {
    let mut copy = Memory::new(alloc);
    copy.write_at(0, file.bytes())?;
    copy.sync()?;
    Ok(copy)
}

/// A copy of the files, as a process that ends now leaves them. Log and database fail after these
/// numbers of calls.
///
/// # Errors
///
/// A failed test if an allocation fails.
pub fn copy(
    alloc: Global,
    files: &Files<Fuse<Memory>>,
    log_calls: u64,
    db_calls: u64,
) -> Result<Files<Fuse<Memory>>, Fail> {
    let log = copied(alloc, files.log.inner())?;
    let db = copied(alloc, files.db.inner())?;
    Ok(fused(log, log_calls, db, db_calls))
}
