//! The outcome of a job, and its result: a status, or what failed and on which file.

ghost use Rattle.std.specs.Prelude.{◌≡◌};
ghost use Rattle.reg_jobs.specs.Outcomes.{result_of, fault_of_database, fault_of_file, result_view, status_of};

use crate::auditing::AuditOutcome;
use crate::files::{CheckOutcome, FileFault, TextOutcome};
use crate::listings::ListOutcome;
use crate::migration::MigrateOutcome;
use reg_http::Ended;
use reg_store::StoreError;

/// The outcome of a job.
#[derive(Clone, Copy, Debug, PartialEq, Eq)]
pub enum Outcome {
    /// A session ended.
    Session(Ended),
    /// Why no registry was opened or migrated. The input wasn't read.
    Unopened(StoreError),
    /// The server can't listen on this port.
    NotListening(u16),
    /// The outcome of `text`.
    Text(TextOutcome),
    /// The outcome of `check`.
    Check(CheckOutcome),
    /// The outcome of `list`.
    List(ListOutcome),
    /// The outcome of `migrate`: the registry was migrated to this program's layout, or had it.
    Migrate(MigrateOutcome),
    /// The outcome of `audit`.
    Audit(AuditOutcome),
}

/// A fault that has a line on standard error.
#[derive(Clone, Copy, Debug, PartialEq, Eq)]
pub enum Fault {
    ReadFailed,
    WriteFailed,
    MalformedInput,
    OutOfMemory,
    CannotRead,
    NotSchema,
    CannotOpen,
    NotRegistry,
    OldLayout(u32),
    NewerLayout(u32),
    CannotListen(u16),
    CannotAccept,
}

/// What failed, and on which file.
#[derive(Clone, Copy)]
pub struct JobError<'a> {
    /// What failed.
    pub fault: Fault,
    /// The name of the file. Some faults have lines without it.
    pub file: &'a str,
}

impl Fault {
    /// The fault, on this file.
    pub fn on(self, file: &str) -> JobError<'_>
        ensures { result ≡ record { fault = self; file = file.entry } }
    {
        JobError { fault: self, file }
    }
}

/// The fault of a file.
fn fault_of_file(fault: FileFault) -> Fault
    ensures { result ≡ fault_of_file fault }
{
    match fault {
        FileFault::CannotRead => Fault::CannotRead,
        FileFault::NotSchema => Fault::NotSchema,
        FileFault::OutOfMemory => Fault::OutOfMemory,
    }
}

/// The fault for an error of the store: when it opens the database, or while it reads the registry.
fn fault_of_database(error: StoreError) -> Fault
    ensures { result ≡ fault_of_database error }
{
    match error {
        StoreError::Memory => Fault::OutOfMemory,
        StoreError::Disk => Fault::CannotOpen,
        StoreError::NotARegistry => Fault::NotRegistry,
        StoreError::OldLayout(layout) => Fault::OldLayout(layout),
        StoreError::NewerLayout(layout) => Fault::NewerLayout(layout),
    }
}

/// The result for an outcome: the program's status, or an error. The status is 1 for incompatible
/// schemas and for evidence that isn't true. The error is about the writer's file if only that file
/// gave no schema.
///
/// # Errors
///
/// What failed and on which file, for each outcome that isn't a success.
pub fn result_of<'a>(outcome: Outcome, file: &'a str, writer: &'a str) -> Result<u8, JobError<'a>>
    ensures { result_view result ≡ result_of outcome file.entry.now writer.entry.now }
{
    match outcome {
        Outcome::Session(Ended::Closed) => Ok(0),
        Outcome::Session(Ended::ReadFailed) => Err(Fault::ReadFailed.on(file)),
        Outcome::Session(Ended::WriteFailed) => Err(Fault::WriteFailed.on(file)),
        Outcome::Session(Ended::Malformed) => Err(Fault::MalformedInput.on(file)),
        Outcome::Session(Ended::Memory) => Err(Fault::OutOfMemory.on(file)),
        Outcome::Unopened(error) => Err(fault_of_database(error).on(file)),
        Outcome::NotListening(port) => Err(Fault::CannotListen(port).on(file)),
        Outcome::Text(TextOutcome::Whole) => Ok(0),
        Outcome::Text(TextOutcome::Nothing(fault)) => Err(fault_of_file(fault).on(file)),
        Outcome::Text(TextOutcome::NotWritten) => Err(Fault::WriteFailed.on(file)),
        Outcome::Check(CheckOutcome::Verdict(true)) => Ok(0),
        Outcome::Check(CheckOutcome::Verdict(false)) => Ok(1),
        Outcome::Check(CheckOutcome::Reader(fault)) => Err(fault_of_file(fault).on(file)),
        Outcome::Check(CheckOutcome::Writer(fault)) => Err(fault_of_file(fault).on(writer)),
        Outcome::Check(CheckOutcome::OutOfMemory) => Err(Fault::OutOfMemory.on(file)),
        Outcome::Check(CheckOutcome::NotWritten) => Err(Fault::WriteFailed.on(file)),
        Outcome::List(ListOutcome::Whole) => Ok(0),
        Outcome::List(ListOutcome::Unread(error)) => Err(fault_of_database(error).on(file)),
        Outcome::List(ListOutcome::NotWritten) => Err(Fault::WriteFailed.on(file)),
        Outcome::List(ListOutcome::OutOfMemory) => Err(Fault::OutOfMemory.on(file)),
        Outcome::Migrate(MigrateOutcome::Whole) => Ok(0),
        Outcome::Migrate(MigrateOutcome::NotWritten) => Err(Fault::WriteFailed.on(file)),
        Outcome::Audit(AuditOutcome::Verdict(true)) => Ok(0),
        Outcome::Audit(AuditOutcome::Verdict(false)) => Ok(1),
        Outcome::Audit(AuditOutcome::Unread(error)) => Err(fault_of_database(error).on(file)),
        Outcome::Audit(AuditOutcome::NotWritten) => Err(Fault::WriteFailed.on(file)),
    }
}

/// The program's status for a result, 2 for an error.
pub fn status_of(answer: Result<u8, JobError>) -> u8
    ensures { result ≡ status_of (result_view answer.entry) }
{
    match answer {
        Ok(status) => status,
        Err(_) => 2,
    }
}
