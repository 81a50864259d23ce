//! Reads only those versions of a subject that determine a command's reply and changes. A live
//! version is always shown, a soft-deleted one only if `shows_deleted` is true.

ghost use Rattle.std.specs.Prelude.{◌≡◌, ℕ, Option, Some, false};
ghost use Rattle.reg_core.specs.declared.level.Level.{Level};
ghost use Rattle.reg_core.specs.declared.number.VersionChoice.TheVariants.{Latest};
ghost use Rattle.reg_core.specs.Compatibility.{is_transitive, named_versions};
ghost use Rattle.reg_core.specs.DeletionCommands.{row_to_delete};
ghost use Rattle.reg_core.specs.ReadCommands.{lookup_row};
ghost use Rattle.reg_core.specs.RegisterCommands.{is_among};
ghost use Rattle.reg_core.specs.Rows.{live_rows, rows_of, visible_rows};
ghost use Rattle.reg_core.specs.Needs.{SufficeToRegister};
ghost use Rattle.reg_store.specs.Inside.Reads.{MayRead, Reads};

use crate::conn::Conn;
use crate::error::StoreError;
use crate::store::chosen::{chosen_rows, last_line, last_rows, row_list};
use crate::store::last_with_id::line_with_id;
use crate::store::rows::{push_row, row_under, subject_rows};
use reg_core::{Level, Row, Subject, VersionChoice};
use sqlite::Alter;
use std::alloc::Global;

/// At most one version, which suffices to decide a deletion: the version to delete. If there is none,
/// one that shows why, if the subject has versions. Empty without a valid choice.
pub(crate) fn deletion_rows<S: Alter>(
    alloc: Global,
    db: &mut Conn<S>,
    subject: &Subject,
    choice: Option<VersionChoice>,
    permanent: bool,
) -> Result<Vec<Row>, StoreError>
    ensures { MayRead db.old db.new result (λ was rows.
        row_to_delete permanent choice rows.items
        ≡ row_to_delete permanent choice (rows_of was.registry subject.now)) }
{
    match choice {
        Some(VersionChoice::Latest) if !permanent => soft_deletion_rows(alloc, db, subject),
        _ => chosen_rows(alloc, db, subject, choice, true),
    }
}

/// The last live version; the last version if none is live.
fn soft_deletion_rows<S: Alter>(
    alloc: Global,
    db: &mut Conn<S>,
    subject: &Subject,
) -> Result<Vec<Row>, StoreError>
    ensures { Reads db.old db.new result (λ was rows.
        row_to_delete false (Some Latest) rows.items
        ≡ row_to_delete false (Some Latest) (rows_of was.registry subject.now)) }
{
    let live = last_rows(alloc, db, subject, false)?;
    if live.is_empty() {
        return last_rows(alloc, db, subject, true);
    }
    Ok(live)
}

/// Versions that include those that the level compares with: all if the level is transitive,
/// otherwise the last live one.
pub(crate) fn compared_rows<S: Alter>(
    alloc: Global,
    db: &mut Conn<S>,
    subject: &Subject,
    level: Level,
) -> Result<Vec<Row>, StoreError>
    ensures { Reads db.old db.new result (λ was rows.
        named_versions level (live_rows rows.items)
        ≡ named_versions level (live_rows (rows_of was.registry subject.now))) }
{
    if level.is_transitive() {
        return subject_rows(alloc, db, subject);
    }
    last_rows(alloc, db, subject, false)
}

/// The versions that suffice to register the schema with id `known_id` (`None` for a new one): a
/// live version that has the id, else the last and the last live version, or all if the level is
/// transitive.
pub(crate) fn registration_rows<S: Alter>(
    alloc: Global,
    db: &mut Conn<S>,
    subject: &Subject,
    level: Level,
    known_id: Option<u32>,
) -> Result<Vec<Row>, StoreError>
    ensures { Reads db.old db.new result (λ was rows.
        SufficeToRegister level known_id rows.items (rows_of was.registry subject.now)) }
{
    match known_id {
        Some(id) => known_schema_rows(alloc, db, subject, level, id),
        None => new_schema_rows(alloc, db, subject, level),
    }
}

/// The versions that suffice to register a schema that has this id.
fn known_schema_rows<S: Alter>(
    alloc: Global,
    db: &mut Conn<S>,
    subject: &Subject,
    level: Level,
    id: u32,
) -> Result<Vec<Row>, StoreError>
    ensures { Reads db.old db.new result (λ was rows.
        SufficeToRegister level (Some id) rows.items (rows_of was.registry subject.now)) }
{
    match line_with_id(alloc, db, subject, false, id)? {
        Some(line) => Ok(row_list(alloc, subject, Some(line))?),
        None => new_schema_rows(alloc, db, subject, level),
    }
}

/// The versions that suffice to look up a schema.
pub(crate) fn looked_up_rows<S: Alter>(
    alloc: Global,
    db: &mut Conn<S>,
    subject: &Subject,
    shows_deleted: bool,
    known: Option<u32>,
) -> Result<Vec<Row>, StoreError>
    ensures { Reads db.old db.new result (λ was rows.
        lookup_row known (visible_rows shows_deleted rows.items)
        ≡ lookup_row known (visible_rows shows_deleted (rows_of was.registry subject.now))) }
{
    match known {
        Some(id) => found_rows(alloc, db, subject, shows_deleted, id),
        None => last_rows(alloc, db, subject, shows_deleted),
    }
}

/// The last shown version of the subject with the id; else the last shown version.
fn found_rows<S: Alter>(
    alloc: Global,
    db: &mut Conn<S>,
    subject: &Subject,
    shows_deleted: bool,
    id: u32,
) -> Result<Vec<Row>, StoreError>
    ensures { Reads db.old db.new result (λ was rows.
        lookup_row (Some id) (visible_rows shows_deleted rows.items)
        ≡ lookup_row (Some id) (visible_rows shows_deleted (rows_of was.registry subject.now))) }
{
    match line_with_id(alloc, db, subject, shows_deleted, id)? {
        Some(line) => Ok(row_list(alloc, subject, Some(line))?),
        None => last_rows(alloc, db, subject, shows_deleted),
    }
}

/// The versions that suffice to register a schema that no live version has: the last one and the
/// last live one, or all if the level is transitive.
fn new_schema_rows<S: Alter>(
    alloc: Global,
    db: &mut Conn<S>,
    subject: &Subject,
    level: Level,
) -> Result<Vec<Row>, StoreError>
    ensures { Reads db.old db.new result (λ was rows. (known : Option ℕ)
        → is_among known (live_rows (rows_of was.registry subject.now)) ≡ false
        → SufficeToRegister level known rows.items (rows_of was.registry subject.now)) }
{
    if level.is_transitive() {
        return subject_rows(alloc, db, subject);
    }
    newest_rows(alloc, db, subject)
}

/// The last version, and before it the last live one if the last is soft-deleted.
fn newest_rows<S: Alter>(
    alloc: Global,
    db: &mut Conn<S>,
    subject: &Subject,
) -> Result<Vec<Row>, StoreError>
    ensures { Reads db.old db.new result (λ was rows. (level : Level) (known : Option ℕ)
        → is_transitive level ≡ false → is_among known (live_rows (rows_of was.registry subject.now)) ≡ false
        → SufficeToRegister level known rows.items (rows_of was.registry subject.now)) }
{
    match last_line(db, subject, true)? {
        None => Ok(Vec::new(alloc)),
        Some(line) if line.deleted => {
            let mut rows = last_rows(alloc, db, subject, false)?;
            push_row(&mut rows, row_under(subject, line)?)?;
            Ok(rows)
        }
        Some(line) => Ok(row_list(alloc, subject, Some(line))?),
    }
}
