//! The next line of a listing after a cursor.

ghost use Rattle.std.specs.Prelude.{ℕ, None};
ghost use Rattle.reg_store.specs.Stores.{LinesKeepStore};
ghost use Rattle.reg_store.specs.declared.listing.Listing.{Listing};
ghost use Rattle.reg_store.specs.NextLines.{IsCursorAt, IsNextLine};
ghost use Rattle.reg_store.specs.Inside.Reads.{Reads};

use crate::conn::Conn;
use crate::error::StoreError;
use crate::store::Store;
use crate::store::cursor::Cursor;
use crate::store::lines::{schema_line, version_line};
use crate::store::next_rows::{next_subject, next_version};
use crate::store::subject_lines::listed_subject;
use crate::store::texts::text_with_id;
use reg_core::Row;
use sqlite::Alter;
use std::alloc::Global;

impl<S: Alter> Store<S> {
    /// The next line after the cursor, or `None`, and the cursor after it.
    pub(crate) fn line_after(
        &mut self,
        cursor: Cursor,
    ) -> Result<(Option<Vec<String>>, Cursor), StoreError>
        ensures frame { LinesKeepStore self.old self.new result }
        ensures reads { Reads self.old.db self.new.db result (λ was found.
            (kind : Listing) (count : ℕ) → IsCursorAt kind was.registry count cursor → IsNextLine kind was.registry count found) }
    {
        next_line(self.alloc, &mut self.db, cursor)
    }
}

/// The next line after the cursor, or `None`, and the cursor after it.
fn next_line<S: Alter>(
    alloc: Global,
    db: &mut Conn<S>,
    cursor: Cursor,
) -> Result<(Option<Vec<String>>, Cursor), StoreError>
    ensures { Reads db.old db.new result (λ was found.
        (kind : Listing) (count : ℕ) → IsCursorAt kind was.registry count cursor → IsNextLine kind was.registry count found) }
{
    match cursor {
        Cursor::Subject(last) => next_subject_line(alloc, db, last),
        Cursor::Version(last) => next_version_line(alloc, db, last),
        Cursor::Schema(id) => next_schema_line(alloc, db, id),
    }
}

/// The fields of the line of the next subject after that of `last` (the first one for `None`), and
/// the cursor after it. If none follows, `None` and the same cursor.
fn next_subject_line<S: Alter>(
    alloc: Global,
    db: &mut Conn<S>,
    last: Option<Row>,
) -> Result<(Option<Vec<String>>, Cursor), StoreError>
    ensures { Reads db.old db.new result (λ was found.
        (count : ℕ) → IsCursorAt Listing.Subjects was.registry count (Cursor.Subject last) → IsNextLine Listing.Subjects was.registry count found) }
{
    match next_subject(db, last.as_ref())? {
        None => Ok((None, Cursor::Subject(last))),
        Some(row) => {
            let line = listed_subject(alloc, db, row.subject())?;
            Ok((Some(line), Cursor::Subject(Some(row))))
        }
    }
}

/// The fields of the line of the next version after `last` (the first one for `None`), and the cursor
/// after it. The order is by subject and number, and soft-deleted versions count. If none follows,
/// `None` and the same cursor.
fn next_version_line<S: Alter>(
    alloc: Global,
    db: &mut Conn<S>,
    last: Option<Row>,
) -> Result<(Option<Vec<String>>, Cursor), StoreError>
    ensures { Reads db.old db.new result (λ was found.
        (count : ℕ) → IsCursorAt Listing.Versions was.registry count (Cursor.Version last) → IsNextLine Listing.Versions was.registry count found) }
{
    match next_version(db, last.as_ref())? {
        None => Ok((None, Cursor::Version(last))),
        Some(row) => {
            let line = version_line(alloc, &row)?;
            Ok((Some(line), Cursor::Version(Some(row))))
        }
    }
}

/// The fields of the line of the schema with the next id, and the cursor after it. If there is none,
/// `None` and the same cursor.
fn next_schema_line<S: Alter>(
    alloc: Global,
    db: &mut Conn<S>,
    id: u32,
) -> Result<(Option<Vec<String>>, Cursor), StoreError>
    ensures { Reads db.old db.new result (λ was found.
        (count : ℕ) → IsCursorAt Listing.Schemas was.registry count (Cursor.Schema id) → IsNextLine Listing.Schemas was.registry count found) }
{
    // `u32::MAX` is no id, so nothing is found after it.
    let next = id.saturating_add(1);
    match text_with_id(db, next)? {
        None => Ok((None, Cursor::Schema(id))),
        Some(text) => {
            let line = schema_line(alloc, next, text)?;
            Ok((Some(line), Cursor::Schema(next)))
        }
    }
}
