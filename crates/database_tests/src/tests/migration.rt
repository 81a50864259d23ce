//! The migration of a registry from layout 1 over a disk that stops at each of its calls in turn.
//! Afterwards the registry has one layout or the other, with the same rows. After a second
//! migration it has layout 2.

use super::faults::Fault;
use super::support::{DatabaseTask, contents, copy, joined, layout1_registry, on_disk, open_error};
use reg_migrate::{MigrateError, Report, migrate};
use reg_store::StoreError;
use sqlite::{Alter, Connection, Files};
use sqlite_disk::{Fuse, Memory};
use std::alloc::Global;
use std::process::Abort;
use std::test::Fail;

/// Statements that fill a registry of layout 1: a text in two subjects, a soft-deleted version,
/// levels, a kept reply and a kept error reply.
const FILLED: &str =
    "UPDATE meta SET value = 'FULL' WHERE name = 'global'; INSERT INTO texts VALUES (1, '\"int\"'), (2, '\"string\"'); INSERT INTO versions VALUES ('s', 1, 1, 1), ('s', 2, 2, 0), ('t', 1, 1, 0); INSERT INTO levels VALUES ('s', 'NONE'), ('u', 'FORWARD'); INSERT INTO kept VALUES ('k1', '[\"set-global\",\"FULL\"]', 200, '{\"compatibility\":\"FULL\"}'), ('k2', '[\"delete-subject\",\"z\",false]', 404, '{\"error_code\":40401,\"message\":\"Subject not found\"}')";

/// The report of its migration.
const COUNTED: Report = Report { versions: 3 };

/// The rows of its database as `contents` returns them, in parts: those before `meta`, those of
/// `meta` in each layout, and the later ones. The first row is without its beginning `kept|`.
const BEFORE: &str =
    "k1 200 [\"set-global\",\"FULL\"]|{\"compatibility\":\"FULL\"}|\nkept|k2 404 [\"delete-subject\",\"z\",false]|{\"error_code\":40401,\"message\":\"Subject not found\"}|\nlevel|s|NONE|\nlevel|u|FORWARD|\n";

const META_LAYOUT1: &str = "meta|format|avroreg|\nmeta|global|FULL|\nmeta|layout|1|\n";

const META_LAYOUT2: &str =
    "meta|format|avroreg|\nmeta|global|FULL|\nmeta|layout|2|\nmeta|mode|READWRITE|\n";

const AFTER: &str =
    "text|1|\"int\"|\ntext|2|\"string\"|\nversion|s 1|1 1|\nversion|s 2|2 0|\nversion|t 1|1 0|\n";

/// The result of migrating a database.
fn migrated<S: Alter + Drop>(
    alloc: Global,
    connection: Connection<S>,
) -> Result<(Result<Report, MigrateError>, Connection<S>), Fail> {
    if !connection.is_autocommit() {
        return Err("a transaction is open".into());
    }
    Ok(migrate(alloc, connection))
}

/// Migrates a database whose disk may fail.
#[derive(Drop)]
struct Stop {
    is_migrated: bool,
}

impl DatabaseTask for Stop {
    fn work<S: Alter + Drop>(
        &mut self,
        alloc: Global,
        connection: Connection<S>,
    ) -> Result<Connection<S>, Fail> {
        let (answer, connection) = migrated(alloc, connection)?;
        self.is_migrated = answer == Ok(COUNTED);
        if self.is_migrated || answer == Err(MigrateError::Disk) {
            return Ok(connection);
        }
        Err("the result is neither a full report nor a disk fault".into())
    }
}

/// Opens a database, migrates it, and opens it again.
#[derive(Drop)]
struct Again {
    /// The contents of the database before.
    found: String,
    /// Its contents afterwards.
    left: String,
}

impl DatabaseTask for Again {
    fn work<S: Alter + Drop>(
        &mut self,
        alloc: Global,
        mut connection: Connection<S>,
    ) -> Result<Connection<S>, Fail> {
        self.found = contents(alloc, &mut connection)?;
        let (before, connection) = open_error(alloc, connection)?;
        let (answer, connection) = migrated(alloc, connection)?;
        let (after, mut connection) = open_error(alloc, connection)?;
        self.left = contents(alloc, &mut connection)?;
        let is_layout1 = self.found.contains(META_LAYOUT1);
        let due = if is_layout1 {
            (Some(StoreError::OldLayout(1)), Ok(COUNTED))
        } else {
            (None, Err(MigrateError::AlreadyNew))
        };
        if (before, answer) != due || after.is_some() {
            return Err("the result is wrong".into());
        }
        Ok(connection)
    }
}

/// Opens the database in the files, migrates it, and opens it again.
fn migrate_again(alloc: Global, files: Files<Fuse<Memory>>) -> Result<Again, Fail> {
    let mut task = Again {
        found: String::new(alloc),
        left: String::new(alloc),
    };
    let (_, closed) = on_disk(alloc, files, &mut task)?;
    if !closed {
        return Err("the files can't be opened".into());
    }
    Ok(task)
}

/// The rows in the contents of a database. The first row is without its beginning `kept|`. Empty if
/// there is no kept reply.
fn rows(text: &str) -> &str {
    match text.split_once("\nkept|") {
        Some((_, rows)) => rows,
        None => "",
    }
}

impl Again {
    /// The rows stay, no other row is added, and `meta` has the rows of layout 2.
    fn keeps_rows(&self, rt: &impl Abort, alloc: Global) -> Result<(), Fail> {
        let found = joined(alloc, &[BEFORE, META_LAYOUT1, AFTER])?;
        let left = joined(alloc, &[BEFORE, META_LAYOUT2, AFTER])?;
        assert_eq!(rt; rows(self.found.as_str()), found.as_str());
        assert_eq!(rt; rows(self.left.as_str()), left.as_str());
        Ok(())
    }
}

/// A registry of layout 1, and its contents before and after a migration.
#[derive(Drop)]
struct OldRegistry {
    files: Files<Fuse<Memory>>,
    whole: Again,
}

/// Makes the registry, and checks that a migration keeps its rows.
fn old_registry(rt: &impl Abort, alloc: Global) -> Result<OldRegistry, Fail> {
    let files = layout1_registry(alloc, FILLED)?;
    let whole = migrate_again(alloc, copy(alloc, &files, u64::MAX, u64::MAX)?)?;
    whole.keeps_rows(rt, alloc)?;
    Ok(OldRegistry { files, whole })
}

impl OldRegistry {
    /// Stops after this number of calls, and migrates what is left. True if nothing failed.
    fn is_whole(
        &self,
        rt: &impl Abort,
        alloc: Global,
        fault: Fault,
        calls: u64,
    ) -> Result<bool, Fail> {
        let mut stop = Stop { is_migrated: false };
        let (files, closed) = on_disk(alloc, fault.disk(alloc, &self.files, calls)?, &mut stop)?;
        let again = migrate_again(alloc, fault.left(alloc, files)?)?;
        let is_layout_two = again.found.as_str() == self.whole.left.as_str();
        let is_layout1 = again.found.as_str() == self.whole.found.as_str();
        assert!(rt;
            is_layout_two || is_layout1 && !stop.is_migrated,
            "after {calls} calls: {}",
            again.found
        );
        assert!(rt;
            again.left.as_str() == self.whole.left.as_str(),
            "after {calls} calls: {}",
            again.left
        );
        Ok(closed && stop.is_migrated)
    }

    /// Stops at each call in turn, until nothing fails.
    fn stops(&self, rt: &impl Abort, alloc: Global, fault: Fault) -> Result<(), Fail> {
        for calls in 0..1000 {
            if self.is_whole(rt, alloc, fault, calls)? {
                assert!(rt; 10 < calls, "{calls} calls");
                return Ok(());
            }
        }
        Err("it still stops at a thousand calls".into())
    }
}

/// Stops with a process death, and then with a machine stop.
fn check_stops(rt: &impl Abort, alloc: Global, is_log: bool) -> Result<(), Fail> {
    let registry = old_registry(rt, alloc)?;
    for is_crash in [false, true] {
        registry.stops(rt, alloc, Fault { is_log, is_crash })?;
    }
    Ok(())
}

#[test]
fn the_log_fails_during_a_migration(rt: HostRuntime) -> Result<(), Fail> {
    check_stops(&rt, rt.alloc(), true)
}

#[test]
fn the_database_fails_during_a_migration(rt: HostRuntime) -> Result<(), Fail> {
    check_stops(&rt, rt.alloc(), false)
}
