//! A list of writes over a disk that stops at each of its calls in turn. Afterwards the database
//! has the acknowledged writes, with or without the write in progress, and the whole list can be
//! sent again.

use super::faults::Fault;
use super::support::{
    DatabaseTask, Row, WRITES, answer_each, connection_of, contents, count_answered, created,
    deliveries_of, empty_disk, on_disk, opened, run_all,
};
use reg_core::{OutOfMemory, Reply};
use reg_service::Service;
use sqlite::{Alter, Connection, Files};
use sqlite_disk::{Crash, Fuse, Memory};
use std::alloc::Global;
use std::process::Abort;
use std::test::Fail;

/// How writes are delivered.
#[derive(Clone, Copy)]
enum Way {
    InTurn,
    InOneRun,
}

/// The replies of a service to writes.
fn replies<S: Alter + Drop>(
    alloc: Global,
    service: &mut Service<S>,
    way: Way,
    rows: &[Row],
) -> Result<Vec<Reply>, OutOfMemory> {
    let list = deliveries_of(alloc, rows)?;
    match way {
        Way::InTurn => answer_each(alloc, service, &list),
        Way::InOneRun => run_all(service, &list),
    }
}

/// Creates a registry in an empty database and delivers all writes, over a disk that may fail.
#[derive(Drop)]
struct Stop {
    way: Way,
    /// One for the registry, and one for each acknowledged delivery. 0 without a registry.
    done: usize,
}

impl Stop {
    /// Delivers the writes. After a disk fault each reply must be 50001, and the service must have
    /// failed. Without a fault no reply may be 50001, and the service must not have failed.
    fn deliver<S: Alter + Drop>(
        &mut self,
        alloc: Global,
        service: &mut Service<S>,
    ) -> Result<(), Fail> {
        let replies = replies(alloc, service, self.way, &WRITES)?;
        let count = count_answered(&replies, &WRITES)?;
        if service.failed() != (count < WRITES.len()) {
            return Err("a reply is 50001 without a disk fault".into());
        }
        self.done = count.saturating_add(1);
        Ok(())
    }
}

impl DatabaseTask for Stop {
    fn work<S: Alter + Drop>(
        &mut self,
        alloc: Global,
        connection: Connection<S>,
    ) -> Result<Connection<S>, Fail> {
        match created(alloc, connection)? {
            Ok(mut service) => {
                self.deliver(alloc, &mut service)?;
                connection_of(alloc, service)
            }
            Err(connection) => Ok(connection),
        }
    }
}

/// Delivers this number of the writes to the registry of a database, or to a new registry if the
/// database is empty.
#[derive(Drop)]
struct Again {
    way: Way,
    count: usize,
    /// The contents of the database before.
    found: String,
    /// Its contents afterwards.
    left: String,
}

impl Again {
    /// Delivers the writes. Each must be acknowledged.
    fn deliver<S: Alter + Drop>(
        &mut self,
        alloc: Global,
        service: &mut Service<S>,
    ) -> Result<(), Fail> {
        let rows = WRITES.get(..self.count).ok_or("there are fewer writes")?;
        let replies = replies(alloc, service, self.way, rows)?;
        if count_answered(&replies, rows)? < rows.len() {
            return Err("a write is answered 50001".into());
        }
        Ok(())
    }
}

impl DatabaseTask for Again {
    fn work<S: Alter + Drop>(
        &mut self,
        alloc: Global,
        mut connection: Connection<S>,
    ) -> Result<Connection<S>, Fail> {
        self.found = contents(alloc, &mut connection)?;
        let mut service = if self.found.is_empty() {
            match created(alloc, connection)? {
                Ok(service) => service,
                Err(_) => return Err("the disk failed".into()),
            }
        } else {
            opened(alloc, connection)?
        };
        self.deliver(alloc, &mut service)?;
        let mut connection = connection_of(alloc, service)?;
        self.left = contents(alloc, &mut connection)?;
        Ok(connection)
    }
}

/// Delivers this number of the writes to the database in the files.
fn deliver(
    alloc: Global,
    files: Files<Fuse<Memory>>,
    way: Way,
    count: usize,
) -> Result<Again, Fail> {
    let mut task = Again {
        way,
        count,
        found: String::new(alloc),
        left: String::new(alloc),
    };
    let (_, closed) = on_disk(alloc, files, &mut task)?;
    if !closed {
        return Err("the files can't be opened".into());
    }
    Ok(task)
}

/// The number of lines that begin with this text.
fn lines_with(text: &str, start: &str) -> usize {
    text.lines().filter(|line| line.starts_with(start)).count()
}

/// The contents of a database: empty, with a new registry, and after each of the writes.
fn stages(rt: &impl Abort, alloc: Global) -> Result<Vec<String>, Fail> {
    let mut stages = Vec::new(alloc);
    stages.push(String::new(alloc))?;
    for count in 0..=WRITES.len() {
        stages.push(deliver(alloc, empty_disk(alloc), Way::InTurn, count)?.left)?;
    }
    // a version that is soft-deleted keeps its evidence
    let registered = stages.get(6).ok_or("there are fewer stages")?;
    assert_eq!(rt; lines_with(registered, "evidence|"), 2);
    let last = stages.last().ok_or("there is no stage")?;
    for (start, count) in [
        ("kept|", 8),
        ("text|", 2),
        ("version|", 0),
        ("evidence|", 0),
        ("against|", 0),
        ("meta|global|FULL|", 1),
    ] {
        assert_eq!(rt; lines_with(last, start), count, "{start}");
    }
    Ok(stages)
}

impl Fault {
    /// Stops after this number of calls, compares the contents with the stages, and delivers all
    /// writes again. True if nothing failed.
    fn is_whole(
        self,
        rt: &impl Abort,
        alloc: Global,
        way: Way,
        calls: u64,
        stages: &[String],
    ) -> Result<bool, Fail> {
        let mut stop = Stop { way, done: 0 };
        let (files, closed) = on_disk(
            alloc,
            self.disk(alloc, &empty_disk(alloc), calls)?,
            &mut stop,
        )?;
        let again = deliver(alloc, self.left(alloc, files)?, way, WRITES.len())?;
        let rest = stages.get(stop.done..).ok_or("there are fewer stages")?;
        let is_due = rest[..rest.len().min(2)].contains(&again.found);
        assert!(rt; is_due, "after {calls} calls: {}", again.found);
        let is_last = stages.last() == Some(&again.left);
        assert!(rt; is_last, "after {calls} calls: {}", again.left);
        Ok(closed && rest.len() == 1)
    }

    /// Stops at each call in turn, until nothing fails.
    fn stops_at_each(
        self,
        rt: &impl Abort,
        alloc: Global,
        way: Way,
        stages: &[String],
    ) -> Result<(), Fail> {
        for calls in 0..1000 {
            if self.is_whole(rt, alloc, way, calls, stages)? {
                assert!(rt; 20 < calls, "{calls} calls");
                return Ok(());
            }
        }
        Err("it still stops at a thousand calls".into())
    }

    /// The same for each way to deliver the writes.
    fn stops(self, rt: &impl Abort, alloc: Global) -> Result<(), Fail> {
        let stages = stages(rt, alloc)?;
        for way in [Way::InTurn, Way::InOneRun] {
            self.stops_at_each(rt, alloc, way, &stages)?;
        }
        Ok(())
    }
}

#[test]
fn the_log_fails_and_the_process_dies(rt: HostRuntime) -> Result<(), Fail> {
    let fault = Fault {
        is_log: true,
        is_crash: false,
    };
    fault.stops(&rt, rt.alloc())
}

#[test]
fn the_log_fails_and_the_machine_stops(rt: HostRuntime) -> Result<(), Fail> {
    let fault = Fault {
        is_log: true,
        is_crash: true,
    };
    fault.stops(&rt, rt.alloc())
}

#[test]
fn the_database_fails_and_the_process_dies(rt: HostRuntime) -> Result<(), Fail> {
    let fault = Fault {
        is_log: false,
        is_crash: false,
    };
    fault.stops(&rt, rt.alloc())
}

#[test]
fn the_database_fails_and_the_machine_stops(rt: HostRuntime) -> Result<(), Fail> {
    let fault = Fault {
        is_log: false,
        is_crash: true,
    };
    fault.stops(&rt, rt.alloc())
}
