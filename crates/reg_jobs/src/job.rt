//! The jobs of the program.

ghost use Rattle.std.specs.Prelude.{◌≡◌, IfOk, IfErr, false};
ghost use Rattle.sqlite.specs.State.{HasCleanDisk};
ghost use Rattle.reg_store.specs.Opening.{OpensOver};
ghost use Rattle.reg_store.specs.Stores.{has_failed, state_of};
ghost use Rattle.reg_jobs.specs.Listening.{ReportsAcceptFailures};
ghost use Rattle.reg_jobs.specs.Jobs.{AuditsOn, DoesJob, OpensNoExistingRegistry, OpensRegistry, OpensNoRegistry, ListsOn, OpenedDatabaseSatisfies, RunsInMemory, RunsJob, RunsOn, ServesOn, MigratesOn, file_of, writer_schema_file_of};

use crate::auditing::audit_store;
use crate::database::{create_in, open_in, run_on_store, serve_on_store};
use crate::errors::ErrorWriter;
use crate::files::{check, print_text};
use crate::line::report_result;
use crate::listening::{Network, Output};
use crate::listings::{list_store, listing_of};
use crate::migration::migrate_in;
use crate::opening::Opened;
use crate::outcome::{Outcome, result_of};
use reg_cli::{Job, ListingKind};
use reg_http::{Ended, serve};
use reg_service::Service;
use reg_store::{Store, StoreError};
use sqlite::{Alter, Connection};
use std::alloc::Global;
use std::io::{Read, Write};
use std::time::Clock;

/// The file that a job names; of two files the reader's; an empty name if there is none.
fn file_of(job: &Job) -> &str
    ensures { result.now ≡ file_of job.entry.now }
{
    match job {
        Job::Run { database: None } => "",
        Job::Run {
            database: Some(file),
        } => file.as_str(),
        Job::Text { file } => file.as_str(),
        Job::Check { reader, .. } => reader.as_str(),
        Job::List { database, .. } => database.as_str(),
        Job::Migrate { database } => database.as_str(),
        Job::Audit { database } => database.as_str(),
    }
}

/// The name of the file with the writer's schema, for `check`; for any other job the result of
/// `file_of`.
fn writer_schema_file_of(job: &Job) -> &str
    ensures { result.now ≡ writer_schema_file_of job.entry.now }
{
    match job {
        Job::Check { writer, .. } => writer.as_str(),
        _ => file_of(job),
    }
}

/// Runs a session over a new registry in memory. If the registry can't be created, the outcome is
/// `Session(Memory)`.
fn run_in_memory<R: Read, W: Write>(alloc: Global, reader: &mut R, writer: &mut W) -> Outcome
    ensures { RunsInMemory (R.remaining reader.old) (R.remaining reader.new)
        (W.contents writer.old) (W.contents writer.new) result }
{
    let Ok(connection) = Connection::open_in_memory(alloc) else {
        return Outcome::Session(Ended::Memory);
    };
    let Ok(store) = Store::create(alloc, connection) else {
        return Outcome::Session(Ended::Memory);
    };
    let mut service = Service::new(alloc, store);
    Outcome::Session(serve(alloc, reader, writer, &mut service))
}

/// Opens a store over what was opened. It creates no registry.
///
/// # Errors
///
/// The opener's error if it opened no database, and `Disk` if the job names none. `NotARegistry` for
/// an empty database, which is returned unchanged. Otherwise why the database has no registry, with
/// the connection.
fn open_existing_store<S: Alter + Drop>(
    alloc: Global,
    opened: Opened<S>,
) -> Result<Store<S>, (StoreError, Option<Connection<S>>)>
    ensures over { IfOk result (λ store. OpenedDatabaseSatisfies S.Store opened
        (λ old. HasCleanDisk (state_of store) → OpensOver old (state_of store))) }
    ensures unfailed { IfOk result (λ store. has_failed store ≡ false) }
    ensures none { IfErr result (λ e. OpensNoExistingRegistry S.Store opened e.1 e.0) }
{
    match opened {
        Opened::Nothing => Err((StoreError::Disk, None)),
        Opened::Texts(_) => Err((StoreError::Disk, None)),
        Opened::Failed(error) => Err((error, None)),
        Opened::Fresh(connection) => Err((StoreError::NotARegistry, Some(connection))),
        Opened::Database(connection) => open_in(alloc, connection),
    }
}

/// Opens a store over what was opened, and creates the registry in an empty database.
///
/// # Errors
///
/// The opener's error if it opened no database, and `Disk` if the job names none. With the connection:
/// `Disk` inside a transaction, and the errors of `Store::create` for an empty database or of
/// `Store::open` for any other.
pub fn open_store<S: Alter + Drop>(
    alloc: Global,
    opened: Opened<S>,
) -> Result<Store<S>, (StoreError, Option<Connection<S>>)>
    ensures opens { IfOk result (λ store. HasCleanDisk (state_of store) → OpensRegistry S.Store opened (state_of store)) }
    ensures unfailed { IfOk result (λ store. has_failed store ≡ false) }
    ensures none { IfErr result (λ e. OpensNoRegistry S.Store opened e.1 e.0) }
{
    match opened {
        Opened::Fresh(connection) => create_in(alloc, connection),
        opened => open_existing_store(alloc, opened),
    }
}

/// Runs a session over what was opened, and returns the connection. Without a registry nothing is
/// read or written.
fn run_on<S: Alter + Drop, R: Read, W: Write>(
    alloc: Global,
    opened: Opened<S>,
    reader: &mut R,
    writer: &mut W,
) -> (Outcome, Option<Connection<S>>)
    ensures { RunsOn S.Store opened result.1 (R.remaining reader.old) (R.remaining reader.new)
        (W.contents writer.old) (W.contents writer.new) result.0 }
{
    match open_store(alloc, opened) {
        Ok(store) => {
            let (ended, connection) = run_on_store(alloc, store, reader, writer);
            (Outcome::Session(ended), Some(connection))
        }
        Err((error, connection)) => (Outcome::Unopened(error), connection),
    }
}

/// Serves this number of connections of a network over what was opened, and returns the connection
/// to the database. The outcome is `Session(Closed)`, `Session(Memory)` if memory for reading was
/// missing at the start, or `Unopened` if there is no registry. Then nothing was accepted. If no
/// connection can be accepted, it reports that on `errors`.
pub fn serve_opened<
    I: Read + Drop,
    O: Output + Drop,
    N: Network<I, O>,
    C: Clock,
    S: Alter + Drop,
    E: Write + Drop,
>(
    alloc: Global,
    clock: &C,
    network: &mut N,
    connections: u32,
    opened: Opened<S>,
    errors: &mut ErrorWriter<E>,
) -> (Outcome, Option<Connection<S>>)
    ensures serves { ServesOn S.Store I.remaining O.contents N.accepted N.closed connections opened result.1 network.old network.new result.0 }
    ensures reports { ReportsAcceptFailures E.contents connections errors.old errors.new }
{
    match open_store(alloc, opened) {
        Ok(store) => {
            let (ended, connection) = serve_on_store(
                alloc,
                clock,
                network,
                connections,
                store,
                errors,
            );
            (Outcome::Session(ended), Some(connection))
        }
        Err((error, connection)) => (Outcome::Unopened(error), connection),
    }
}

/// Runs a session over what was opened, or over a new registry in memory if the job names no file.
/// Returns the opened connection, or `None`.
fn run<S: Alter + Drop, R: Read, W: Write>(
    alloc: Global,
    names_file: bool,
    opened: Opened<S>,
    reader: &mut R,
    writer: &mut W,
) -> (Outcome, Option<Connection<S>>)
    ensures { RunsJob S.Store opened names_file result.1 (R.remaining reader.old)
        (R.remaining reader.new) (W.contents writer.old) (W.contents writer.new) result.0 }
{
    if names_file {
        return run_on(alloc, opened, reader, writer);
    }
    let outcome = run_in_memory(alloc, reader, writer);
    (outcome, opened.into_connection())
}

/// Prints a listing of what was opened, and returns the connection. Without a registry nothing is
/// written.
fn list_on<S: Alter + Drop, W: Write>(
    alloc: Global,
    opened: Opened<S>,
    kind: ListingKind,
    writer: &mut W,
) -> (Outcome, Option<Connection<S>>)
    ensures { ListsOn S.Store opened kind result.1 (W.contents writer.old) (W.contents writer.new) result.0 }
{
    match open_existing_store(alloc, opened) {
        Ok(store) => {
            let (listed, connection) = list_store(alloc, store, listing_of(kind), writer);
            (Outcome::List(listed), Some(connection))
        }
        Err((error, connection)) => (Outcome::Unopened(error), connection),
    }
}

/// Migrates the registry of what was opened to this program's layout, and prints a line. If the
/// database has no SQL view and `meta` names that layout already, the line says so, even if the other
/// tables are invalid. In every other case, also if an allocation or the disk fails, the outcome is
/// `Unopened` and nothing is printed. Returns the opened connection, or `None` if none was opened.
fn migrate_on<S: Alter + Drop, W: Write>(
    alloc: Global,
    opened: Opened<S>,
    writer: &mut W,
) -> (Outcome, Option<Connection<S>>)
    ensures { MigratesOn S.Store opened result.1 (W.contents writer.old) (W.contents writer.new) result.0 }
{
    match opened {
        Opened::Database(connection) => {
            let (outcome, connection) = migrate_in(alloc, connection, writer);
            (outcome, Some(connection))
        }
        Opened::Fresh(connection) => {
            (
                Outcome::Unopened(StoreError::NotARegistry),
                Some(connection),
            )
        }
        Opened::Failed(error) => (Outcome::Unopened(error), None),
        Opened::Texts(_) => (Outcome::Unopened(StoreError::Disk), None),
        Opened::Nothing => (Outcome::Unopened(StoreError::Disk), None),
    }
}

/// Audits the registry of what was opened, and prints the verdict. It creates no registry. It
/// prints nothing if there is no registry, or if the registry can't be read. Returns the opened
/// connection, or `None`.
fn audit_on<S: Alter + Drop, W: Write>(
    alloc: Global,
    opened: Opened<S>,
    writer: &mut W,
) -> (Outcome, Option<Connection<S>>)
    ensures { AuditsOn S.Store opened result.1 (W.contents writer.old) (W.contents writer.new) result.0 }
{
    match open_existing_store(alloc, opened) {
        Ok(store) => {
            let (audit_outcome, connection) = audit_store(store, writer);
            (Outcome::Audit(audit_outcome), Some(connection))
        }
        Err((error, connection)) => (Outcome::Unopened(error), connection),
    }
}

/// Does a job with what was opened for it. Returns the program's status, and the connection if one
/// was opened; a disk fault may have closed it. The status is 2 after a fault, whose line goes to
/// `errors`. It is 1 for incompatible schemas and for evidence that isn't true. Otherwise it is 0.
pub fn do_job<S: Alter + Drop, R: Read, W: Write, E: Write + Drop>(
    alloc: Global,
    job: &Job,
    opened: Opened<S>,
    reader: &mut R,
    writer: &mut W,
    errors: &mut ErrorWriter<E>,
) -> (u8, Option<Connection<S>>)
    ensures { DoesJob S.Store E.contents job.now opened result.1 (R.remaining reader.old) (R.remaining reader.new)
        (W.contents writer.old) (W.contents writer.new) errors.old errors.new result.0 }
{
    let (outcome, connection) = match job {
        Job::Run { database } => run(alloc, database.is_some(), opened, reader, writer),
        Job::Text { .. } => {
            let printed = print_text(alloc, opened.text(0), writer);
            (Outcome::Text(printed), opened.into_connection())
        }
        Job::Check { .. } => {
            let checked = check(alloc, opened.text(0), opened.text(1), writer);
            (Outcome::Check(checked), opened.into_connection())
        }
        Job::List { kind, .. } => list_on(alloc, opened, *kind, writer),
        Job::Migrate { .. } => migrate_on(alloc, opened, writer),
        Job::Audit { .. } => audit_on(alloc, opened, writer),
    };
    let answer = result_of(outcome, file_of(job), writer_schema_file_of(job));
    (report_result(errors, answer), connection)
}
