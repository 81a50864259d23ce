//! avroreg, a schema registry for Apache Avro.

#![tactic(auto)]

mod database;
mod log;
mod opening;
mod server;

use avro_nodes::OutOfMemory;
use database::close;
use opening::HostFiles;
use reg_jobs::{ErrorWriter, Job, LineFault, Opener, Task, do_job, open_for, task_of};
use server::serve;
use sqlite::{Alter, Connection};
use std::alloc::{AllocError, AllocFailed, Global};
use std::io;
use std::process::ExitCode;
use std::rt::Env;

/// Why the program does nothing.
#[derive(Drop)]
pub enum StartError {
    /// The arguments are wrong, or request help. The text is the message.
    Usage(String),
    /// An allocation for the arguments or for opening the files failed.
    OutOfMemory,
}

impl From<LineFault> for StartError {
    fn from(fault: LineFault) -> StartError {
        match fault {
            LineFault::Usage(text) => StartError::Usage(text),
            LineFault::OutOfMemory => StartError::OutOfMemory,
        }
    }
}

impl From<AllocError> for StartError {
    fn from(_error: AllocError) -> StartError {
        StartError::OutOfMemory
    }
}

impl From<OutOfMemory> for StartError {
    fn from(_error: OutOfMemory) -> StartError {
        StartError::OutOfMemory
    }
}

impl<T: Drop> From<AllocFailed<T>> for StartError {
    fn from(_error: AllocFailed<T>) -> StartError {
        StartError::OutOfMemory
    }
}

/// The message for an argument that isn't UTF-8.
const NOT_UTF8: &str = "error: an argument is not UTF-8\n\nFor more information, try '--help'.\n";

/// The arguments after the program's name. Each must be UTF-8.
fn arguments_of<R: Env + AllocGlobal>(rt: &R) -> Result<Vec<String>, StartError> {
    match std::env::args(rt) {
        Ok(arguments) => Ok(arguments.skip(1).collect(rt.alloc())?),
        Err(error) => match error.kind() {
            io::ErrorKind::OutOfMemory => Err(StartError::OutOfMemory),
            _ => Err(StartError::Usage(String::from_str(rt.alloc(), NOT_UTF8)?)),
        },
    }
}

/// The database file that a task names, or `None`.
fn database_of(task: &Task) -> Option<&str> {
    match task {
        Task::Job(
            Job::Run {
                database: Some(file),
            },
        ) => Some(file.as_str()),
        Task::Job(Job::Run { database: None } | Job::Text { .. } | Job::Check { .. }) => None,
        Task::Job(
            Job::List { database, .. } | Job::Migrate { database } | Job::Audit { database },
        ) => Some(database.as_str()),
        Task::Server(server) => Some(server.database.as_str()),
    }
}

/// Does a task with the files that it opens. Returns the program's status, and the connection to
/// the database if one was opened. A disk fault may have closed it.
fn do_task<S: Alter + Drop, O: Opener<S>>(
    rt: &HostRuntime,
    opener: &O,
    task: &Task,
) -> Result<(u8, Option<Connection<S>>), OutOfMemory> {
    let alloc = rt.alloc();
    let mut errors = ErrorWriter::to(rt.stderr());
    match task {
        Task::Job(job) => {
            let opened = open_for(alloc, opener, job)?;
            Ok(do_job(
                alloc,
                job,
                opened,
                &mut rt.stdin(),
                &mut rt.stdout(),
                &mut errors,
            ))
        }
        Task::Server(server) => {
            let opened = opener.open_or_create(server.database.as_str())?;
            Ok(serve(rt, server, opened, &mut errors))
        }
    }
}

/// Does what the arguments request, closes the database, and returns the program's status.
fn run_arguments(rt: &HostRuntime) -> Result<u8, StartError> {
    let arguments = arguments_of(rt)?;
    let task = task_of(rt.alloc(), arguments.as_slice())?;
    let (status, connection) = do_task(rt, &HostFiles { rt }, &task)?;
    if let (Some(file), Some(connection)) = (database_of(&task), connection) {
        close(rt, file, connection);
    }
    Ok(status)
}

/// The size in bytes of a block that is freed at the start.
const BLOCK: usize = 8 << 20;

/// Makes the C library keep the memory that requests free, so that the next request needn't get it
/// from the system. The library keeps up to twice the largest block that was freed so far.
fn keep_memory(alloc: Global) {
    let _block: Result<Vec<u8>, AllocError> = Vec::with_capacity(alloc, BLOCK);
}

fn main(rt: HostRuntime) -> ExitCode {
    keep_memory(rt.alloc());
    let status = match run_arguments(&rt) {
        Ok(status) => status,
        Err(StartError::Usage(text)) => {
            let _ = eprint!(rt; "{text}");
            64
        }
        Err(StartError::OutOfMemory) => {
            let _ = eprintln!(rt; "avroreg: out of memory");
            2
        }
    };
    ExitCode::from(status)
}
