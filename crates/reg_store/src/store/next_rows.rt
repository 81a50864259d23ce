//! The next versions in the order of subjects and numbers.

ghost use Rattle.std.specs.Prelude.{◌≡◌, ◌&&◌, None, find, bytes_eq, slice_get, option_map, option_copied};
ghost use Rattle.std.specs.FinMap.{entries};
ghost use Rattle.std.specs.Ordering.{is_gt, nat_cmp};
ghost use Rattle.reg_core.specs.Registry.{row_cmp};
ghost use Rattle.reg_tables.specs.Contents.{text_cmp};
ghost use Rattle.reg_store.specs.NextLines.{is_after, subject_in, key_in};
ghost use Rattle.reg_store.specs.Inside.Reads.{Reads};

use crate::conn::Conn;
use crate::error::StoreError;
use crate::store::rows::{row_in, row_under};
use reg_core::{Row, Subject};
use reg_tables::{first_version_after, next_version_of};
use sqlite::Alter;

/// The first version of the next subject after that of `last`. If `last` is `None`, the first
/// version of all. `None` if there is no such version.
pub(crate) fn next_subject<S: Alter>(
    db: &mut Conn<S>,
    last: Option<&Row>,
) -> Result<Option<Row>, StoreError>
    ensures { Reads db.old db.new result (λ was found.
        found ≡ find (λ row. is_after text_cmp (option_map subject_in (option_copied last.entry)) row.0.0) (entries was.registry.rows)) }
{
    match last {
        None => first_of_all(db),
        Some(last) => first_after(db, last.subject().as_str()),
    }
}

/// The next version after `last`. If `last` is `None`, the first of all. `None` if there is no such
/// version.
pub(crate) fn next_version<S: Alter>(
    db: &mut Conn<S>,
    last: Option<&Row>,
) -> Result<Option<Row>, StoreError>
    ensures { Reads db.old db.new result (λ was found.
        found ≡ find (λ row. is_after row_cmp (option_map key_in (option_copied last.entry)) row.0) (entries was.registry.rows)) }
{
    match last {
        None => first_of_all(db),
        Some(last) => version_after(db, last),
    }
}

fn first_of_all<S: Alter>(db: &mut Conn<S>) -> Result<Option<Row>, StoreError>
    ensures { Reads db.old db.new result (λ was found. found ≡ slice_get (entries was.registry.rows) 0) }
{
    // No subject is the empty text.
    first_after(db, "")
}

/// The next version after `last` by subject and number, or `None`.
fn version_after<S: Alter>(db: &mut Conn<S>, last: &Row) -> Result<Option<Row>, StoreError>
    ensures { Reads db.old db.new result (λ was found.
        found ≡ find (λ row. is_gt (row_cmp row.0 last.now.0)) (entries was.registry.rows)) }
{
    match number_after(db, last.subject(), last.version())? {
        Some(row) => Ok(Some(row)),
        None => first_after(db, last.subject().as_str()),
    }
}

/// The version of the subject with the least number above this one, or `None`.
fn number_after<S: Alter>(
    db: &mut Conn<S>,
    subject: &Subject,
    number: u32,
) -> Result<Option<Row>, StoreError>
    ensures { Reads db.old db.new result (λ was found.
        found ≡ find (λ row. bytes_eq row.0.0 subject.now && is_gt (nat_cmp row.0.1 number)) (entries was.registry.rows)) }
{
    match next_version_of(&mut db.idle, subject.as_str(), number)? {
        None => Ok(None),
        Some(line) => Ok(Some(row_under(subject, line)?)),
    }
}

/// The first version of the next subject after this one, or `None`.
fn first_after<S: Alter>(db: &mut Conn<S>, subject: &str) -> Result<Option<Row>, StoreError>
    ensures { Reads db.old db.new result (λ was found.
        found ≡ find (λ row. is_gt (text_cmp row.0.0 subject.now)) (entries was.registry.rows)) }
{
    match first_version_after(&mut db.idle, subject)? {
        None => Ok(None),
        Some(line) => Ok(Some(row_in(line)?)),
    }
}
