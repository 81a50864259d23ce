//! The versions of subjects and of ids.

ghost use Rattle.std.specs.Prelude.{◌≡◌, ◌++◌, ◌∷◌, [], None, IfOk, IfErr, OnOk, OnErr, All, map, option_copied};
ghost use Rattle.std.specs.FinMap.{entries};
ghost use Rattle.reg_core.specs.Rows.{rows_of};
ghost use Rattle.reg_core.specs.ReadCommands.{rows_with_id};
ghost use Rattle.reg_core.specs.Needs.{SufficeFor, SufficeForSubject, rows_needed};
ghost use Rattle.reg_tables.specs.Entries.{subject_version_view, listed_version_view};
ghost use Rattle.reg_store.specs.declared.error.StoreError.TheVariants.{Memory};
ghost use Rattle.reg_store.specs.Inside.Viewing.{row_spelled, row_numbered, HasSubject};
ghost use Rattle.reg_store.specs.Inside.Reads.{MayRead, Reads};

use crate::conn::Conn;
use crate::error::StoreError;
use crate::store::chosen::{chosen_rows, one_row_of};
use crate::store::sufficient_rows::{
    compared_rows, deletion_rows, looked_up_rows, registration_rows,
};
use reg_core::{Level, OutOfMemory, Row, RowsNeeded, Subject, SubjectRows};
use reg_tables::{ListedVersion, SubjectVersion, all_versions, versions_of, versions_of_id};
use sqlite::Alter;
use std::alloc::Global;

/// The versions that determine a command's reply and changes, in the order of subjects and numbers:
/// all that it reads, including soft-deleted ones, or fewer with the same result. `level` is the
/// level in force, and `known` the id of the schema in the command.
pub(crate) fn rows_for<S: Alter>(
    alloc: Global,
    db: &mut Conn<S>,
    subject: Option<&Subject>,
    needed: RowsNeeded,
    level: Level,
    known: Option<u32>,
) -> Result<Vec<Row>, StoreError>
    ensures { MayRead db.old db.new result (λ was rows. SufficeFor level known needed rows.items
        (rows_needed was.registry (option_copied subject.entry) needed)) }
{
    match needed {
        RowsNeeded::Nothing => Ok(Vec::new(alloc)),
        RowsNeeded::Everything => all_rows(alloc, db),
        RowsNeeded::OfId(id) => rows_of_id(alloc, db, id),
        RowsNeeded::OneOfId(id) => one_row_of(alloc, db, id),
        RowsNeeded::OfSubject(asked) => match subject {
            Some(subject) => purpose_rows(alloc, db, subject, asked, level, known),
            None => Ok(Vec::new(alloc)),
        },
    }
}

/// The versions of a subject that are needed for this purpose.
fn purpose_rows<S: Alter>(
    alloc: Global,
    db: &mut Conn<S>,
    subject: &Subject,
    asked: SubjectRows,
    level: Level,
    known: Option<u32>,
) -> Result<Vec<Row>, StoreError>
    ensures { MayRead db.old db.new result (λ was rows.
        SufficeForSubject level known asked rows.items (rows_of was.registry subject.now)) }
{
    match asked {
        SubjectRows::Every => subject_rows(alloc, db, subject),
        SubjectRows::ToChoose { choice, deleted } => {
            chosen_rows(alloc, db, subject, choice, deleted)
        }
        SubjectRows::ToDelete { choice, permanent } => {
            deletion_rows(alloc, db, subject, choice, permanent)
        }
        SubjectRows::ToLookUp { deleted } => looked_up_rows(alloc, db, subject, deleted, known),
        SubjectRows::ToCompare => compared_rows(alloc, db, subject, level),
        SubjectRows::ToRegister => registration_rows(alloc, db, subject, level, known),
    }
}

/// The versions of the id, if one is given, in the order of subjects and numbers.
fn rows_of_id<S: Alter>(
    alloc: Global,
    db: &mut Conn<S>,
    id: Option<u32>,
) -> Result<Vec<Row>, StoreError>
    ensures { MayRead db.old db.new result (λ was rows.
        rows.items ≡ rows_with_id id (entries was.registry.rows)) }
{
    match id {
        None => Ok(Vec::new(alloc)),
        Some(id) => {
            let lines = versions_of_id(alloc, &mut db.idle, id)?;
            rows_in(alloc, lines)
        }
    }
}

/// The versions of a subject, soft-deleted ones too, in the order of their numbers.
pub(crate) fn subject_rows<S: Alter>(
    alloc: Global,
    db: &mut Conn<S>,
    subject: &Subject,
) -> Result<Vec<Row>, StoreError>
    ensures { Reads db.old db.new result (λ was rows. rows.items ≡ rows_of was.registry subject.now) }
{
    let lines = versions_of(alloc, &mut db.idle, subject.as_str())?;
    Ok(rows_under(alloc, subject, lines)?)
}

/// The versions of all subjects, soft-deleted ones too, in the order of subjects and numbers.
pub(crate) fn all_rows<S: Alter>(alloc: Global, db: &mut Conn<S>) -> Result<Vec<Row>, StoreError>
    ensures { Reads db.old db.new result (λ was rows. rows.items ≡ entries was.registry.rows) }
{
    let lines = all_versions(alloc, &mut db.idle)?;
    rows_in(alloc, lines)
}

/// The rows as versions of the subject.
fn rows_under(
    alloc: Global,
    subject: &Subject,
    lines: Vec<SubjectVersion>,
) -> Result<Vec<Row>, OutOfMemory>
    ensures { IfOk result (λ rows. rows.items ≡ map (λ line. row_numbered subject.now (subject_version_view line)) lines.items) }
{
    let mut rows = Vec::new(alloc);
    for line in lines {
        rows.push(row_under(subject, line)?)?;
    }
    Ok(rows)
}

/// The row as a version of the subject.
pub(crate) fn row_under(subject: &Subject, version: SubjectVersion) -> Result<Row, OutOfMemory>
    ensures { IfOk result (λ row. row ≡ row_numbered subject.now (subject_version_view version)) }
{
    let owner = subject.try_clone()?;
    Ok(Row::new(owner, version.number, version.id, version.deleted))
}

fn rows_in(alloc: Global, lines: Vec<ListedVersion>) -> Result<Vec<Row>, StoreError>
    ensures ok { IfOk result (λ rows. rows.items ≡ map (λ line. row_spelled (listed_version_view line)) lines.items) }
    ensures err { IfErr result (λ e. All HasSubject lines.items → e ≡ Memory) }
{
    let mut rows = Vec::new(alloc);
    for line in lines {
        push_row(&mut rows, row_in(line)?)?;
    }
    Ok(rows)
}

pub(crate) fn push_row(rows: &mut Vec<Row>, row: Row) -> Result<(), OutOfMemory>
    ensures { OnOk result (rows.new.items ≡ rows.old.items ++ row ∷ []) }
{
    rows.push(row)?;
    Ok(())
}

/// The row as a version, if its subject is valid.
pub(crate) fn row_in(line: ListedVersion) -> Result<Row, StoreError>
    ensures ok { IfOk result (λ row. row ≡ row_spelled (listed_version_view line)) }
    ensures err { OnErr result (¬ HasSubject line) }
{
    let ListedVersion {
        subject,
        number,
        id,
        deleted,
    } = line;
    match Subject::new(subject) {
        Some(subject) => Ok(Row::new(subject, number, id, deleted)),
        None => Err(StoreError::NotARegistry),
    }
}
