//! Subcommands over one database, one after another. The output of each fails after a number of
//! bytes, when it is flushed, or not at all. Checks the output, the line on standard error, and the
//! status.

use super::doing::run_job;
use super::support::{
    DatabaseTask, FULL_SET, Failing, GET, IS_FULL, SET_FULL, empty_disk, on_disk,
};
use reg_jobs::{Job, ListingKind, Opened};
use sqlite::{Alter, Connection};
use std::alloc::{AllocError, Global};
use std::io::{self, Write};
use std::test::Fail;

/// A job over the database in the file F.
#[derive(Clone, Copy)]
enum JobKind {
    /// A run that creates the registry.
    Make,
    Run,
    List,
    Migrate,
    Audit,
}

/// A job, its input, and what it prints.
#[derive(Clone, Copy)]
struct Row(JobKind, &'static str, &'static str);

const REGISTER: &str =
    "POST /subjects/s/versions HTTP/1.1\r\nContent-Length: 20\r\n\r\n{\"schema\":\"\\\"int\\\"\"}";

const REGISTERED: &str =
    "HTTP/1.1 200 OK\r\nContent-Type: application/vnd.schemaregistry.v1+json\r\nContent-Length: 8\r\n\r\n{\"id\":1}";

/// Jobs over a new registry. Only the output of `Run` depends on its input.
const ROWS: [Row; 7] = [
    Row(JobKind::Run, SET_FULL, FULL_SET),
    Row(JobKind::Run, GET, IS_FULL),
    Row(JobKind::Run, REGISTER, REGISTERED),
    Row(JobKind::List, GET, "subject,level,live,deleted\ns,,1,0\n"),
    Row(JobKind::Audit, GET, "evidence holds\n"),
    Row(JobKind::Migrate, GET, "layout 2: nothing to do\n"),
    Row(JobKind::Audit, GET, "evidence holds\n"),
];

/// The job over the file F.
fn job_of(alloc: Global, job_kind: JobKind) -> Result<Job, AllocError> {
    let database = String::from_str(alloc, "F")?;
    Ok(match job_kind {
        JobKind::Make | JobKind::Run => Job::Run {
            database: Some(database),
        },
        JobKind::List => Job::List {
            database,
            kind: ListingKind::Subjects,
        },
        JobKind::Migrate => Job::Migrate { database },
        JobKind::Audit => Job::Audit { database },
    })
}

/// An output that can be flushed or not.
#[derive(Drop)]
struct Output {
    writer: Failing,
    flushes: bool,
}

impl Write for Output {
    fn write(&mut self, buf: &[u8]) -> io::Result<usize> {
        self.writer.write(buf)
    }

    fn flush(&mut self) -> io::Result<()> {
        if !self.flushes {
            return Err(io::Error::from(io::ErrorKind::BrokenPipe));
        }
        Ok(())
    }
}

/// A job over a database. Its output takes this number of bytes, and can be flushed or not.
#[derive(Drop)]
struct Task {
    row: Row,
    takes: usize,
    flushes: bool,
}

impl Task {
    /// Whether part of the output is lost: it doesn't fit, or it is a listing and the flush fails.
    fn is_lost(&self) -> bool {
        let Row(job_kind, _, whole) = self.row;
        match job_kind {
            JobKind::List => self.takes < whole.len() || !self.flushes,
            _ => self.takes < whole.len(),
        }
    }

    /// Whether the output is the beginning that fits, and the line and the status report whether
    /// part of it is lost.
    fn is_expected(&self, written: &[u8], error_output: &[u8], status: u8) -> bool {
        let whole = self.row.2.as_bytes();
        let (line, due) = if self.is_lost() {
            ("avroreg: write failed\n", 2)
        } else {
            ("", 0)
        };
        whole.get(..self.takes.min(whole.len())) == Some(written)
            && error_output == line.as_bytes()
            && status == due
    }
}

impl DatabaseTask for Task {
    fn work<S: Alter + Drop>(
        &mut self,
        alloc: Global,
        connection: Connection<S>,
    ) -> Result<Connection<S>, Fail> {
        let Row(job_kind, input, _) = self.row;
        let opened = match job_kind {
            JobKind::Make => Opened::Fresh(connection),
            _ => Opened::Database(connection),
        };
        let mut output = Output {
            writer: Failing {
                taken: Vec::new(alloc),
                writes: self.takes,
                takes_nothing: false,
            },
            flushes: self.flushes,
        };
        let job = job_of(alloc, job_kind)?;
        let (error_output, status, connection) = run_job(
            alloc,
            &job,
            opened,
            &mut input.as_bytes(),
            &mut output,
        );
        if !self.is_expected(
            output.writer.taken.as_slice(),
            error_output.as_slice(),
            status,
        ) {
            return Err("another output, line or status is due".into());
        }
        Ok(connection.ok_or("no connection came back")?)
    }
}

/// Each job prints its output, or the beginning that fits, and reports a lost part. A store that
/// returns `Disk` from each write over a sound disk would fail this test, and so would a listing
/// that always fails to allocate. No contract excludes either.
#[test]
fn lost_output_is_reported(rt: HostRuntime) -> Result<(), Fail> {
    let alloc = rt.alloc();
    let mut make = Task {
        row: Row(JobKind::Make, "", ""),
        takes: 0,
        flushes: true,
    };
    let (mut files, closed) = on_disk(alloc, empty_disk(alloc), &mut make)?;
    assert!(rt; closed);
    for row in ROWS {
        let all = row.2.len();
        for (takes, flushes) in [
            (0, true),
            (1, true),
            (all.saturating_sub(1), true),
            (all, true),
            (all, false),
        ] {
            let mut task = Task {
                row,
                takes,
                flushes,
            };
            let (left, closed) = on_disk(alloc, files, &mut task)?;
            assert!(rt; closed, "{takes} bytes of {}", row.2);
            files = left;
        }
    }
    Ok(())
}
