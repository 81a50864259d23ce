//! Reads one version instead of all: the chosen one of a subject, or one of an id. A version is
//! shown if it is live, or if `deleted` is set.

ghost use Rattle.std.specs.Prelude.{◌≡◌, ◌||◌, [], ◌∷◌, None, Some, IfOk, IfErr, MatchOption, false, true, not, map, option_map, option_to_list};
ghost use Rattle.std.specs.FinMap.{entries, get};
ghost use Rattle.std.specs.List.{last_or};
ghost use Rattle.reg_core.specs.declared.number.VersionChoice.TheVariants.{Numbered};
ghost use Rattle.reg_core.specs.Compatibility.{latest};
ghost use Rattle.reg_core.specs.Registry.{Version};
ghost use Rattle.reg_core.specs.Rows.{rows_of, rows_with, visible_rows};
ghost use Rattle.reg_core.specs.ReadCommands.{found_row, rows_with_id};
ghost use Rattle.reg_tables.specs.Entries.{listed_version_view, subject_version_view};
ghost use Rattle.reg_store.specs.declared.error.StoreError.TheVariants.{Memory};
ghost use Rattle.reg_store.specs.Inside.Viewing.{HasSubject, row_numbered, row_spelled};
ghost use Rattle.reg_store.specs.Inside.Reads.{MayRead, Reads};

use crate::conn::Conn;
use crate::error::StoreError;
use crate::store::rows::{push_row, row_in, row_under};
use reg_core::{OutOfMemory, Row, Subject, VersionChoice};
use reg_tables::{
    ListedVersion, SubjectVersion, any_version_of_id, last_live_version_of, last_version_of,
    version_of,
};
use sqlite::Alter;
use std::alloc::Global;

/// The chosen version of the subject, if it is shown. Otherwise the last shown version, to show
/// whether there are any. Without a valid choice, no version is needed.
pub(crate) fn chosen_rows<S: Alter>(
    alloc: Global,
    db: &mut Conn<S>,
    subject: &Subject,
    choice: Option<VersionChoice>,
    deleted: bool,
) -> Result<Vec<Row>, StoreError>
    ensures { MayRead db.old db.new result (λ was rows.
        found_row choice (visible_rows deleted rows.items)
        ≡ found_row choice (visible_rows deleted (rows_of was.registry subject.now))) }
{
    let Some(choice) = choice else {
        return Ok(Vec::new(alloc));
    };
    match choice {
        VersionChoice::Latest => last_rows(alloc, db, subject, deleted),
        VersionChoice::Numbered(number) => numbered_rows(alloc, db, subject, number, deleted),
    }
}

/// The version of the subject with the number, if it is shown; otherwise the last shown version. The
/// list is empty if none is shown.
fn numbered_rows<S: Alter>(
    alloc: Global,
    db: &mut Conn<S>,
    subject: &Subject,
    number: u32,
    deleted: bool,
) -> Result<Vec<Row>, StoreError>
    ensures { MayRead db.old db.new result (λ was rows.
        found_row (Some (Numbered number)) (visible_rows deleted rows.items)
        ≡ found_row (Some (Numbered number)) (visible_rows deleted (rows_of was.registry subject.now))) }
{
    match shown_line(db, subject, number, deleted)? {
        Some(line) => Ok(row_list(alloc, subject, Some(line))?),
        None => last_rows(alloc, db, subject, deleted),
    }
}

/// The version of the subject with the number, if it is shown.
fn shown_line<S: Alter>(
    db: &mut Conn<S>,
    subject: &Subject,
    number: u32,
    deleted: bool,
) -> Result<Option<SubjectVersion>, StoreError>
    ensures { Reads db.old db.new result (λ was found.
        MatchOption found
        ((version : Version) → get was.registry.rows (subject.now, number) ≡ Some version
        → (deleted || not version.deleted) ≡ false)
        (λ line. (get was.registry.rows (row_numbered subject.now (subject_version_view line)).0
        ≡ Some (row_numbered subject.now (subject_version_view line)).1)
        × (line.number ≡ number) × ((deleted || not line.deleted) ≡ true))) }
{
    match version_of(&mut db.idle, subject.as_str(), number)? {
        Some(entry) if deleted || !entry.deleted => Ok(Some(SubjectVersion {
            number,
            id: entry.id,
            deleted: entry.deleted,
        })),
        _ => Ok(None),
    }
}

/// The last shown version of the subject, if any.
pub(crate) fn last_rows<S: Alter>(
    alloc: Global,
    db: &mut Conn<S>,
    subject: &Subject,
    deleted: bool,
) -> Result<Vec<Row>, StoreError>
    ensures { Reads db.old db.new result (λ was rows.
        rows.items ≡ latest (visible_rows deleted (rows_of was.registry subject.now))) }
{
    let line = last_line(db, subject, deleted)?;
    Ok(row_list(alloc, subject, line)?)
}

/// The row of the last shown version of the subject, or `None`.
pub(crate) fn last_line<S: Alter>(
    db: &mut Conn<S>,
    subject: &Subject,
    deleted: bool,
) -> Result<Option<SubjectVersion>, StoreError>
    ensures { Reads db.old db.new result (λ was found.
        option_map (λ line. row_numbered subject.now (subject_version_view line)) found
        ≡ last_or None (visible_rows deleted (rows_of was.registry subject.now))) }
{
    if deleted {
        Ok(last_version_of(&mut db.idle, subject.as_str())?)
    } else {
        Ok(last_live_version_of(&mut db.idle, subject.as_str())?)
    }
}

/// The row as a list of at most one version of the subject.
pub(crate) fn row_list(
    alloc: Global,
    subject: &Subject,
    line: Option<SubjectVersion>,
) -> Result<Vec<Row>, OutOfMemory>
    ensures { IfOk result (λ rows. rows.items
        ≡ option_to_list (option_map (λ line. row_numbered subject.now (subject_version_view line)) line)) }
{
    let mut rows = Vec::new(alloc);
    if let Some(line) = line {
        rows.push(row_under(subject, line)?)?;
    }
    Ok(rows)
}

/// A version that has the id, if the id is given and some version has it.
pub(crate) fn one_row_of<S: Alter>(
    alloc: Global,
    db: &mut Conn<S>,
    id: Option<u32>,
) -> Result<Vec<Row>, StoreError>
    ensures { MayRead db.old db.new result (λ was rows.
        map (λ row. row.1.id) (latest rows.items)
        ≡ map (λ row. row.1.id) (latest (rows_with_id id (entries was.registry.rows)))) }
{
    match id {
        None => Ok(Vec::new(alloc)),
        Some(id) => some_row(alloc, db, id),
    }
}

/// A version that has the id, if any.
fn some_row<S: Alter>(alloc: Global, db: &mut Conn<S>, id: u32) -> Result<Vec<Row>, StoreError>
    ensures { Reads db.old db.new result (λ was rows.
        map (λ row. row.1.id) (latest rows.items)
        ≡ map (λ row. row.1.id) (latest (rows_with id (entries was.registry.rows)))) }
{
    match any_version_of_id(&mut db.idle, id)? {
        None => Ok(Vec::new(alloc)),
        Some(line) => row_list_of_listed(alloc, line),
    }
}

/// The row as a list of one version; `NotARegistry` if its subject isn't valid.
fn row_list_of_listed(alloc: Global, listed: ListedVersion) -> Result<Vec<Row>, StoreError>
    ensures ok { IfOk result (λ rows. rows.items ≡ row_spelled (listed_version_view listed) ∷ []) }
    ensures err { IfErr result (λ e. HasSubject listed → e ≡ Memory) }
{
    let mut rows = Vec::new(alloc);
    push_row(&mut rows, row_in(listed)?)?;
    Ok(rows)
}
