//! The lines of a listing, read one at a time.

ghost use Rattle.std.specs.Prelude.{◌≡◌, [], List, None, Some, Err, IfOk, IfErr, IfSome, OnOk, IsTrue, false};
ghost use Rattle.sqlite.specs.State.{HasCleanDisk};
ghost use Rattle.reg_core.specs.Registry.{Registry};
ghost use Rattle.reg_store.specs.declared.listing.Listing.{Listing};
ghost use Rattle.reg_store.specs.Stores.{state_of, has_failed, LinesKeepStore, AnswersFromStored};
ghost use Rattle.reg_store.specs.Listings.{Fields};
ghost use Rattle.reg_store.specs.NextLines.{IsCursorAt, store_of, failure_in, HasYielded, YieldsNext};
ghost use Rattle.reg_store.specs.Lending.{StoreRests};

use crate::error::StoreError;
use crate::listing::Listing;
use crate::store::Store;
use crate::store::cursor::Cursor;
use sqlite::Alter;
use std::mem;

/// The lines of a listing, read one at a time. They borrow the store. Only the position of the last
/// line is kept in memory.
pub struct Lines<'s, S: Alter, P: Drop = Cursor> {
    store: &'s mut Store<S>,
    cursor: P,
    failure: Option<StoreError>,
}

impl<S: Alter, P: Drop> Drop for Lines<'_, S, P> {
    fn drop(self)
        ensures { self.exit.0.now ≡ store_of self.entry }
    {
        let Lines {
            store: _,
            cursor: _,
            failure: _,
        } = self;
    }
}

impl<S: Alter> Store<S> {
    ghost use Rattle.std.specs.Borrow.{sem};

    /// The lines of the listing in their order, one at a time, without a header.
    ///
    /// # Errors
    ///
    /// `Disk` if the store has returned it before.
    pub fn lines(&mut self, kind: Listing) -> Result<Lines<'_, S>, StoreError>
        ensures* rests { sem 𝓛 (StoreRests S.row S.Store self.entry result) }
        ensures same_reference { IfOk result (λ lines. lines.store.ghost_name ≡ self.entry.ghost_name) }
        ensures same { IfOk result (λ lines. store_of lines ≡ self.old) }
        ensures starts { IfOk result (λ lines. (g : Registry) → HasYielded lines kind g []) }
        ensures unfailed { IfOk result (λ lines. (failure_in lines ≡ None) × (has_failed self.old ≡ false)) }
        ensures failed { IfErr result (λ e. (e ≡ StoreError.Disk) × IsTrue (has_failed self.old)) }
    {
        if self.failed {
            return Err(StoreError::Disk);
        }
        Ok(Lines {
            store: self,
            cursor: start_of(kind),
            failure: None,
        })
    }
}

/// The position before all lines of the listing.
fn start_of(kind: Listing) -> Cursor
    ensures { (g : Registry) → IsCursorAt kind g 0 result }
{
    match kind {
        Listing::Subjects => Cursor::Subject(None),
        Listing::Versions => Cursor::Version(None),
        Listing::Schemas => Cursor::Schema(0),
    }
}

impl<S: Alter> Lines<'_, S> {
    /// The fields of the next line, or `None` after the last line.
    ///
    /// # Errors
    ///
    /// `Memory` or `Disk`, or `NotARegistry` if the tables no longer hold a registry. Every later
    /// call returns the same error. No call changes the registry. The store doesn't remember the
    /// error, but a disk fault may close its connection.
    pub fn next(&mut self) -> Result<Option<Vec<String>>, StoreError>
        ensures same_reference { self.new.store.ghost_name ≡ self.old.store.ghost_name }
        ensures frame { LinesKeepStore (store_of self.old) (store_of self.new) result }
        ensures tells { HasCleanDisk (state_of (store_of self.new)) → AnswersFromStored
            (state_of (store_of self.old)) (state_of (store_of self.new)) (failure_in self.old ≡ None) result
            (λ was line. (kind : Listing) (done : List Fields)
            → HasYielded self.old kind was.registry done → YieldsNext self.new kind was.registry done line) }
        ensures again { IfSome (failure_in self.old) (λ e.
            (result ≡ Err e) × (store_of self.new ≡ store_of self.old)) }
        ensures going { OnOk result (failure_in self.new ≡ None) }
        ensures remembered { IfErr result (λ e. failure_in self.new ≡ Some e) }
    {
        if let Some(error) = self.failure {
            return Err(error);
        }
        let cursor = mem::replace(&mut self.cursor, Cursor::Schema(0));
        match self.store.line_after(cursor) {
            Ok((line, cursor)) => {
                self.cursor = cursor;
                Ok(line)
            }
            Err(error) => {
                self.failure = Some(error);
                Err(error)
            }
        }
    }
}
