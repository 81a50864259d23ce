//! Migrations of a registry to this program's layout.

ghost use Rattle.std.specs.Prelude.{◌≡◌};
ghost use Rattle.sqlite.specs.Held.{state};
ghost use Rattle.sqlite.specs.State.{HasCleanDisk};
ghost use Rattle.reg_jobs.specs.Outcomes.{text_of_parts};
ghost use Rattle.reg_jobs.specs.Migration.{MigratesAs, PrintsLine, PrintsUnmigrated, migrated_line};

use crate::outcome::Outcome;
use itoa::Buffer;
use reg_migrate::{MigrateError, migrate};
use reg_output::write_whole;
use reg_store::StoreError;
use sqlite::{Alter, Connection};
use std::alloc::Global;
use std::io::Write;

/// How the line of a migration was printed.
#[derive(Clone, Copy, Debug, PartialEq, Eq)]
pub enum MigrateOutcome {
    /// It was printed in full.
    Whole,
    /// A write failed. A beginning of it was written, and the database has layout 2 all the same.
    NotWritten,
}

/// Writes the parts of a line in order.
fn print_parts<W: Write>(writer: &mut W, parts: &[&str]) -> MigrateOutcome
    ensures { PrintsLine (text_of_parts parts.now) (W.contents writer.old) (W.contents writer.new) result }
{
    for part in parts {
        if !write_whole(writer, part.as_bytes()) {
            return MigrateOutcome::NotWritten;
        }
    }
    MigrateOutcome::Whole
}

/// Prints the number of versions that were kept.
fn print_kept<W: Write>(writer: &mut W, versions: u64) -> MigrateOutcome
    ensures { PrintsLine (migrated_line versions) (W.contents writer.old) (W.contents writer.new) result }
{
    let mut digits = Buffer::new();
    let number = digits.format(versions);
    print_parts(writer, &["layout 2: ", number, " versions kept\n"])
}

/// Prints that there is nothing to do if the database has layout 2 already, and otherwise returns
/// why it wasn't migrated.
fn print_unmigrated<W: Write>(error: MigrateError, writer: &mut W) -> Outcome
    ensures { PrintsUnmigrated error (W.contents writer.old) (W.contents writer.new) result }
{
    match error {
        MigrateError::AlreadyNew => {
            Outcome::Migrate(print_parts(writer, &["layout 2: nothing to do\n"]))
        }
        MigrateError::Memory => Outcome::Unopened(StoreError::Memory),
        MigrateError::Disk => Outcome::Unopened(StoreError::Disk),
        MigrateError::NotARegistry => Outcome::Unopened(StoreError::NotARegistry),
        MigrateError::NewerLayout(number) => Outcome::Unopened(StoreError::NewerLayout(number)),
    }
}

/// Migrates the registry of a database to layout 2, prints the result, and returns the connection.
/// If the database has layout 2 already, the result is that there is nothing to do. If the
/// migration fails, nothing is printed.
pub fn migrate_in<S: Alter, W: Write>(
    alloc: Global,
    connection: Connection<S>,
    writer: &mut W,
) -> (Outcome, Connection<S>)
    ensures { HasCleanDisk (state S.Store result.1)
        → MigratesAs (state S.Store connection) (state S.Store result.1) (W.contents writer.old) (W.contents writer.new) result.0 }
{
    if !connection.is_autocommit() {
        return (Outcome::Unopened(StoreError::Disk), connection);
    }
    let (migrated, connection) = migrate(alloc, connection);
    let outcome = match migrated {
        Ok(report) => Outcome::Migrate(print_kept(writer, report.versions)),
        Err(error) => print_unmigrated(error, writer),
    };
    (outcome, connection)
}
