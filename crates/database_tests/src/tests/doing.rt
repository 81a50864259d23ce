//! Runs jobs, without the contract of `do_job`.

use reg_jobs::{ErrorWriter, Job, Opened, do_job};
use sqlite::{Alter, Connection};
use std::alloc::Global;
use std::io::{Read, Write};

/// What a job writes to standard error, its status, and the connection, if one is returned.
pub(super) type JobOutput<S> = (Vec<u8>, u8, Option<Connection<S>>);

/// Runs a job.
pub(super) fn run_job<S: Alter + Drop, R: Read, W: Write>(
    alloc: Global,
    job: &Job,
    opened: Opened<S>,
    reader: &mut R,
    writer: &mut W,
) -> JobOutput<S> {
    let mut errors = ErrorWriter::to(Vec::new(alloc));
    let (status, connection) = do_job(alloc, job, opened, reader, writer, &mut errors);
    (errors.into_writer(), status, connection)
}
