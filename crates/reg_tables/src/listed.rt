//! Lists of versions, in the order of their subjects and numbers, and single versions of such
//! lists. Subjects are in the order of their bytes. Only `last_live_version_of` leaves out deleted
//! versions.

ghost use Rattle.std.specs.Prelude.{◌≡◌, ◌≢◌, ℕ, List, [], ◌∷◌, MatchOption, None, Some, not, map, filter, find, option_map};
ghost use Rattle.std.specs.Ordering.{is_gt, nat_cmp};
ghost use Rattle.std.specs.List.{last_or};
ghost use Rattle.std.specs.FinMap.{entries, get};
ghost use Rattle.sqlite.specs.Order.{column};
ghost use Rattle.reg_tables.specs.Contents.{VersionEntryView, TableName, text_cmp};
ghost use Rattle.reg_tables.specs.Lookups.{ReadsTable};
ghost use Rattle.reg_tables.specs.Entries.{subject_version_view, subject_version_cells, subject_versions, IsReadableSubjectVersion, listed_version_view, listed_version_cells, id_versions, IsReadableListedVersion};

use crate::autocommit::AutocommitConnection;
use crate::statement::{FromRow, first, list};
use crate::versions::flag_in;
use sqlite::{Alter, Error, Row, params};
use std::alloc::Global;

/// A version of a given subject.
#[derive(Debug, Drop)]
pub struct SubjectVersion {
    pub number: u32,
    pub id: u32,
    pub deleted: bool,
}

/// A version with its subject.
#[derive(Debug, Drop)]
pub struct ListedVersion {
    pub subject: String,
    pub number: u32,
    pub id: u32,
    pub deleted: bool,
}

impl FromRow for SubjectVersion {
    ghost cells_read = { λ row. column row 0 ∷ column row 1 ∷ column row 2 ∷ [] };

    ghost cells = { λ line. subject_version_cells (subject_version_view line) };

    ghost is_readable = { IsReadableSubjectVersion };

    fn read(row: &Row) -> Result<SubjectVersion, Error> {
        Ok(SubjectVersion {
            number: row.get(0)?,
            id: row.get(1)?,
            deleted: flag_in(row, 2)?,
        })
    }
}

impl FromRow for ListedVersion {
    ghost cells_read = { λ row. column row 0 ∷ column row 1 ∷ column row 2 ∷ column row 3 ∷ [] };

    ghost cells = { λ line. listed_version_cells (listed_version_view line) };

    ghost is_readable = { IsReadableListedVersion };

    fn read(row: &Row) -> Result<ListedVersion, Error> {
        Ok(ListedVersion {
            subject: row.get(0)?,
            number: row.get(1)?,
            id: row.get(2)?,
            deleted: flag_in(row, 3)?,
        })
    }
}

/// The versions of a subject, in the order of their numbers.
///
/// # Errors
///
/// A read error; others only if the tables can't be read.
pub fn versions_of<S: Alter>(
    alloc: Global,
    db: &mut AutocommitConnection<S>,
    subject: &str,
) -> Result<Vec<SubjectVersion>, Error>
    ensures { ReadsTable TableName.Versions db.old db.new result (λ contents lines.
        map subject_version_view lines.items ≡ subject_versions subject.now contents) }
{
    list(
        alloc,
        db,
        "SELECT version, id, deleted FROM versions WHERE subject = ?1 ORDER BY subject, version",
        params![subject],
    )
}

/// The version of a subject with the greatest number, deleted or not, or `None`.
///
/// # Errors
///
/// A read error; others only if the tables can't be read.
pub fn last_version_of<S: Alter>(
    db: &mut AutocommitConnection<S>,
    subject: &str,
) -> Result<Option<SubjectVersion>, Error>
    ensures { ReadsTable TableName.Versions db.old db.new result (λ contents found.
        option_map subject_version_view found ≡ last_or None (subject_versions subject.now contents)) }
{
    first(
        db,
        "SELECT version, id, deleted FROM versions WHERE subject = ?1 ORDER BY subject DESC, version DESC LIMIT 1",
        params![subject],
    )
}

/// The version of a subject with the greatest number among those that aren't deleted, or `None`.
///
/// # Errors
///
/// A read error; others only if the tables can't be read.
pub fn last_live_version_of<S: Alter>(
    db: &mut AutocommitConnection<S>,
    subject: &str,
) -> Result<Option<SubjectVersion>, Error>
    ensures { ReadsTable TableName.Versions db.old db.new result (λ contents found.
        option_map subject_version_view found
        ≡ last_or None (filter (λ version. not version.1.deleted) (subject_versions subject.now contents))) }
{
    first(
        db,
        "SELECT version, id, deleted FROM versions WHERE subject = ?1 AND deleted = 0 ORDER BY subject DESC, version DESC LIMIT 1",
        params![subject],
    )
}

/// The version of a subject with the least number above `number`, or `None`.
///
/// # Errors
///
/// A read error; others only if the tables can't be read.
pub fn next_version_of<S: Alter>(
    db: &mut AutocommitConnection<S>,
    subject: &str,
    number: u32,
) -> Result<Option<SubjectVersion>, Error>
    ensures { ReadsTable TableName.Versions db.old db.new result (λ contents found.
        option_map subject_version_view found
        ≡ find (λ version. is_gt (nat_cmp version.0 number)) (subject_versions subject.now contents)) }
{
    first(
        db,
        "SELECT version, id, deleted FROM versions WHERE subject = ?1 AND version > ?2 ORDER BY subject, version LIMIT 1",
        params![subject, number],
    )
}

/// The first version of the first subject after `subject`, or `None`.
///
/// # Errors
///
/// A read error; others only if the tables can't be read.
pub fn first_version_after<S: Alter>(
    db: &mut AutocommitConnection<S>,
    subject: &str,
) -> Result<Option<ListedVersion>, Error>
    ensures { ReadsTable TableName.Versions db.old db.new result (λ contents found.
        option_map listed_version_view found
        ≡ find (λ entry. is_gt (text_cmp entry.0.0 subject.now)) (entries contents.versions)) }
{
    first(
        db,
        "SELECT subject, version, id, deleted FROM versions WHERE subject > ?1 ORDER BY subject, version LIMIT 1",
        params![subject],
    )
}

/// All versions with this id, in the order of their subjects and numbers.
///
/// # Errors
///
/// A read error; others only if the tables can't be read.
pub fn versions_of_id<S: Alter>(
    alloc: Global,
    db: &mut AutocommitConnection<S>,
    id: u32,
) -> Result<Vec<ListedVersion>, Error>
    ensures { ReadsTable TableName.Versions db.old db.new result (λ contents lines.
        map listed_version_view lines.items ≡ id_versions id contents) }
{
    list(
        alloc,
        db,
        "SELECT subject, version, id, deleted FROM versions WHERE id = ?1 ORDER BY subject, version",
        params![id],
    )
}

/// Any version with this id, or `None`.
///
/// # Errors
///
/// A read error; others only if the tables can't be read.
pub fn any_version_of_id<S: Alter>(
    db: &mut AutocommitConnection<S>,
    id: u32,
) -> Result<Option<ListedVersion>, Error>
    ensures { ReadsTable TableName.Versions db.old db.new result (λ contents found.
        MatchOption found ((key : List ℕ × ℕ) (version : VersionEntryView)
        → get contents.versions key ≡ Some version → version.id ≢ id)
        (λ line. (get contents.versions (listed_version_view line).0 ≡ Some (listed_version_view line).1) × (line.id ≡ id))) }
{
    first(
        db,
        "SELECT subject, version, id, deleted FROM versions WHERE id = ?1 LIMIT 1",
        params![id],
    )
}

/// All versions, in the order of their subjects and numbers.
///
/// # Errors
///
/// A read error; others only if the tables can't be read.
pub fn all_versions<S: Alter>(
    alloc: Global,
    db: &mut AutocommitConnection<S>,
) -> Result<Vec<ListedVersion>, Error>
    ensures { ReadsTable TableName.Versions db.old db.new result (λ contents lines.
        map listed_version_view lines.items ≡ entries contents.versions) }
{
    list(
        alloc,
        db,
        "SELECT subject, version, id, deleted FROM versions ORDER BY subject, version",
        &[],
    )
}
