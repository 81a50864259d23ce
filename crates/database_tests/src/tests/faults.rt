//! How a disk fails, and what is left of the files.

use super::support::copy;
use sqlite::Files;
use sqlite_disk::{Crash, Fuse, Memory};
use std::alloc::Global;
use std::test::Fail;

/// Which file fails: the log if `is_log`, else the database. If `is_crash`, the machine stops then,
/// which leaves only what was synced. Else the process dies, which leaves all that was written.
#[derive(Clone, Copy)]
pub struct Fault {
    pub is_log: bool,
    pub is_crash: bool,
}

impl Fault {
    /// A copy of the files. The file that fails does so after this number of its calls.
    pub fn disk(
        self,
        alloc: Global,
        files: &Files<Fuse<Memory>>,
        calls: u64,
    ) -> Result<Files<Fuse<Memory>>, Fail> {
        let (log, db) = if self.is_log {
            (calls, u64::MAX)
        } else {
            (u64::MAX, calls)
        };
        copy(alloc, files, log, db)
    }

    /// What is left of the files, on a disk that doesn't fail.
    pub fn left(
        self,
        alloc: Global,
        mut files: Files<Fuse<Memory>>,
    ) -> Result<Files<Fuse<Memory>>, Fail> {
        if !self.is_crash {
            return copy(alloc, &files, u64::MAX, u64::MAX);
        }
        files.log.crash();
        files.db.crash();
        Ok(files)
    }
}
