//! Versions with a given id: a few versions of any subjects, and the last version of one subject.

ghost use Rattle.std.specs.Prelude.{◌≡◌, ◌==◌, ◌&&◌, ◌||◌, None, not, map, filter, option_map};
ghost use Rattle.std.specs.List.{last_or};
ghost use Rattle.reg_tables.specs.Contents.{TableName};
ghost use Rattle.reg_tables.specs.Lookups.{ReadsTable};
ghost use Rattle.reg_tables.specs.Entries.{AreVersionsOfId, listed_version_view, versions_limit, subject_version_view, subject_versions};

use crate::autocommit::AutocommitConnection;
use crate::listed::{ListedVersion, SubjectVersion};
use crate::statement::{first, list};
use sqlite::{Alter, Error, params};
use std::alloc::Global;

/// The most versions that `some_versions_of_id` returns.
pub const VERSIONS_LIMIT: usize = 33;

/// At most `VERSIONS_LIMIT` versions with this id, deleted or not, in any order. If they are fewer,
/// they are all. The limit and the index bound the steps of the query.
///
/// # Errors
///
/// A read error; others only if the tables can't be read.
pub fn some_versions_of_id<S: Alter>(
    alloc: Global,
    db: &mut AutocommitConnection<S>,
    id: u32,
) -> Result<Vec<ListedVersion>, Error>
    ensures { ReadsTable TableName.Versions db.old db.new result (λ contents lines.
        AreVersionsOfId id contents (map listed_version_view lines.items)) }
{
    list(
        alloc,
        db,
        "SELECT subject, version, id, deleted FROM versions WHERE id = ?1 LIMIT 33",
        params![id],
    )
}

/// The version of a subject with the greatest number among those with this id, or `None`. Deleted
/// versions count only if `deleted` is `true`: in the SQL `?3` is then 1, else 0. The query reads
/// the subject's versions from the greatest number down to the first match, so it doesn't matter
/// how many other subjects have the id.
///
/// # Errors
///
/// A read error; others only if the tables can't be read.
pub fn last_version_with_id<S: Alter>(
    db: &mut AutocommitConnection<S>,
    subject: &str,
    id: u32,
    deleted: bool,
) -> Result<Option<SubjectVersion>, Error>
    ensures { ReadsTable TableName.Versions db.old db.new result (λ contents found.
        option_map subject_version_view found
        ≡ last_or None (filter (λ version. (deleted || not version.1.deleted) && (version.1.id == id))
        (subject_versions subject.now contents))) }
{
    first(
        db,
        "SELECT version, id, deleted FROM versions WHERE subject = ?1 AND id = ?2 AND deleted <= ?3 ORDER BY subject DESC, version DESC LIMIT 1",
        params![subject, id, deleted],
    )
}
