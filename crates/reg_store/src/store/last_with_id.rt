//! The last version of a subject that has an id. A live version is always shown, a soft-deleted one
//! only if `shows_deleted` is true.

ghost use Rattle.std.specs.Prelude.{◌≡◌, None, option_map, map};
ghost use Rattle.std.specs.FinMap.{entries};
ghost use Rattle.std.specs.List.{last_or};
ghost use Rattle.reg_core.specs.Rows.{rows_of, rows_with, visible_rows};
ghost use Rattle.reg_tables.specs.Entries.{listed_version_view, subject_version_view};
ghost use Rattle.reg_store.specs.Inside.Reads.{Reads};
ghost use Rattle.reg_store.specs.Inside.Viewing.{AreSome, IsLastShown, IsLaterOf, is_shown_of, row_numbered, row_spelled};

use crate::conn::Conn;
use crate::error::StoreError;
use reg_core::Subject;
use reg_tables::{
    ListedVersion, SubjectVersion, VERSIONS_LIMIT, last_version_with_id, some_versions_of_id,
};
use sqlite::Alter;
use std::alloc::Global;

/// The row of the last shown version of the subject with the id, or `None`. If fewer than
/// `VERSIONS_LIMIT` versions of all subjects have the id, it is found among these, otherwise among
/// the subject's.
pub(crate) fn line_with_id<S: Alter>(
    alloc: Global,
    db: &mut Conn<S>,
    subject: &Subject,
    shows_deleted: bool,
    id: u32,
) -> Result<Option<SubjectVersion>, StoreError>
    ensures { Reads db.old db.new result (λ was found.
        option_map (λ line. row_numbered subject.now (subject_version_view line)) found
        ≡ last_or None (rows_with id (visible_rows shows_deleted (rows_of was.registry subject.now)))) }
{
    let lines = lines_of_id(alloc, db, id)?;
    if lines.len() < VERSIONS_LIMIT {
        return Ok(last_among(lines, subject, shows_deleted));
    }
    line_of_subject(db, subject, shows_deleted, id)
}

/// Versions of the id: all of them, if they are fewer than `VERSIONS_LIMIT`.
fn lines_of_id<S: Alter>(
    alloc: Global,
    db: &mut Conn<S>,
    id: u32,
) -> Result<Vec<ListedVersion>, StoreError>
    ensures { Reads db.old db.new result (λ was lines.
        AreSome (map (λ line. row_spelled (listed_version_view line)) lines.items) (rows_with id (entries was.registry.rows))) }
{
    Ok(some_versions_of_id(alloc, &mut db.idle, id)?)
}

/// The result of `line_with_id`, found among the subject's versions.
fn line_of_subject<S: Alter>(
    db: &mut Conn<S>,
    subject: &Subject,
    shows_deleted: bool,
    id: u32,
) -> Result<Option<SubjectVersion>, StoreError>
    ensures { Reads db.old db.new result (λ was found.
        option_map (λ line. row_numbered subject.now (subject_version_view line)) found
        ≡ last_or None (rows_with id (visible_rows shows_deleted (rows_of was.registry subject.now)))) }
{
    Ok(last_version_with_id(&mut db.idle, subject.as_str(), id, shows_deleted)?)
}

/// The last of these versions that is of the subject and shown, or `None`.
fn last_among(
    lines: Vec<ListedVersion>,
    subject: &Subject,
    shows_deleted: bool,
) -> Option<SubjectVersion>
    ensures { IsLastShown shows_deleted subject.now (map (λ line. row_spelled (listed_version_view line)) lines.items)
        (option_map (λ line. row_numbered subject.now (subject_version_view line)) result) }
{
    let mut last = None;
    for line in lines {
        if is_shown_of(&line, subject, shows_deleted) {
            last = Some(later_of(last, line));
        }
    }
    let Some(line) = last else {
        return None;
    };
    Some(SubjectVersion {
        number: line.number,
        id: line.id,
        deleted: line.deleted,
    })
}

/// Whether the version is of the subject and shown.
fn is_shown_of(line: &ListedVersion, subject: &Subject, shows_deleted: bool) -> bool
    ensures { result ≡ is_shown_of shows_deleted subject.now (row_spelled (listed_version_view line.now)) }
{
    line.subject.as_str() == subject.as_str() && (shows_deleted || !line.deleted)
}

/// The version with the greater number; `line` if `last` is `None`.
fn later_of(last: Option<ListedVersion>, line: ListedVersion) -> ListedVersion
    ensures { IsLaterOf last line result }
{
    match last {
        Some(before) if line.number <= before.number => before,
        _ => line,
    }
}
