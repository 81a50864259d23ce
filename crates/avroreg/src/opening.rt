//! Opens the files that jobs name.

use crate::database::{FileDatabase, open_existing_database, open_or_create_database};
use avro_nodes::{MAX_TEXT, OutOfMemory};
use reg_jobs::{Opened, Opener};
use std::io::Read;
use std::rt::Files;
use std::{fs, io};

/// The most bytes of a file that are read: one more than a schema's text may have.
const READ_AT_MOST: u64 = MAX_TEXT as u64 + 1;

/// The files of the host.
#[derive(Clone, Copy)]
pub struct HostFiles<'a> {
    pub rt: &'a HostRuntime,
}

impl Opener<FileDatabase> for HostFiles<'_> {
    fn open_or_create(&self, file: &str) -> Result<Opened<FileDatabase>, OutOfMemory> {
        open_or_create_database(self.rt, file)
    }

    fn open_existing(&self, file: &str) -> Result<Opened<FileDatabase>, OutOfMemory> {
        open_existing_database(self.rt, file)
    }

    /// The bytes of a file, or `None` if it can't be read. Of a file longer
    /// than `MAX_TEXT` + 1 bytes, only the first `MAX_TEXT` + 1, which are too long for a schema.
    fn read(&self, file: &str) -> Result<Option<Vec<u8>>, OutOfMemory> {
        match read_front(self.rt, file) {
            Ok(bytes) => Ok(Some(bytes)),
            Err(error) if error.kind() == io::ErrorKind::OutOfMemory => Err(OutOfMemory),
            Err(_) => Ok(None),
        }
    }
}

/// The first bytes of a file, at most `READ_AT_MOST`.
fn read_front(rt: &HostRuntime, file: &str) -> io::Result<Vec<u8>> {
    let mut bytes = Vec::new(rt.alloc());
    fs::File::open(rt, file)?
        .take(READ_AT_MOST)
        .read_to_end(&mut bytes)?;
    Ok(bytes)
}
