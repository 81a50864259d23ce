//! Listings of the registry in a database.

ghost use Rattle.std.specs.Prelude.{◌≡◌, ◌⊎◌, false};
ghost use Rattle.std.specs.Io.KnownBytes.{Keeps};
ghost use Rattle.sqlite.specs.Held.{state};
ghost use Rattle.sqlite.specs.State.{HasCleanDisk};
ghost use Rattle.reg_core.specs.Stored.{Stored};
ghost use Rattle.reg_store.specs.Spells.{SpellsWhileOpen};
ghost use Rattle.reg_store.specs.Failures.{IsFaultOver};
ghost use Rattle.reg_store.specs.Stores.{has_failed, state_of, StillSpells};
ghost use Rattle.reg_jobs.specs.Listings.{IfUnread, ListsAs, listed_as, listing_of};

use reg_report::{ReportError, list_in_pieces};
use reg_store::{Listing, Store, StoreError};
use sqlite::{Alter, Connection};
use std::alloc::Global;
use std::io::Write;

/// How a listing ended.
#[derive(Clone, Copy, Debug, PartialEq, Eq)]
pub enum ListOutcome {
    /// All of it was printed.
    Whole,
    /// The registry couldn't be read to its end. The first lines were printed whole, perhaps none.
    Unread(StoreError),
    /// A write or the final flush failed. Any beginning of the listing was printed.
    NotWritten,
    /// An allocation failed. The first lines were printed whole, perhaps none.
    OutOfMemory,
}

/// The listing of the store that an argument names.
pub fn listing_of(kind: reg_cli::ListingKind) -> Listing
    ensures { result ≡ listing_of kind }
{
    match kind {
        reg_cli::ListingKind::Subjects => Listing::Subjects,
        reg_cli::ListingKind::Versions => Listing::Versions,
        reg_cli::ListingKind::Schemas => Listing::Schemas,
    }
}

/// How a listing ended, by the result of printing it.
fn listed_as(printed: Result<(), ReportError>) -> ListOutcome
    ensures { result ≡ listed_as printed }
{
    match printed {
        Ok(()) => ListOutcome::Whole,
        Err(ReportError::Store(error)) => ListOutcome::Unread(error),
        Err(ReportError::Write) => ListOutcome::NotWritten,
        Err(ReportError::OutOfMemory) => ListOutcome::OutOfMemory,
    }
}

/// Flushes the writer. Returns `listed`, or `NotWritten` if the flush fails.
fn flush<W: Write>(writer: &mut W, listed: ListOutcome) -> ListOutcome
    ensures bytes { Keeps (W.contents writer.old) (W.contents writer.new) }
    ensures outcome { (result ≡ listed) ⊎ (result ≡ ListOutcome.NotWritten) }
{
    match writer.flush() {
        Ok(()) => listed,
        Err(_) => ListOutcome::NotWritten,
    }
}

/// Prints a listing of a store's registry in pieces, flushes the writer, and returns the
/// connection. A failed flush counts as a failed write.
pub fn list_store<W: Write, S: Alter>(
    alloc: Global,
    mut store: Store<S>,
    kind: Listing,
    writer: &mut W,
) -> (ListOutcome, Connection<S>)
    ensures clean { HasCleanDisk (state S.Store result.1) → HasCleanDisk (state_of store) }
    ensures lists { HasCleanDisk (state S.Store result.1) → (was : Stored)
        → SpellsWhileOpen (state_of store) was
        → ListsAs kind was.registry (W.contents writer.old) (W.contents writer.new) result.0 }
    ensures fault { HasCleanDisk (state S.Store result.1) → has_failed store ≡ false
        → IfUnread result.0 (IsFaultOver (state_of store) (state S.Store result.1)) }
    ensures same { HasCleanDisk (state S.Store result.1) → StillSpells (state_of store) (state S.Store result.1) }
{
    let printed = list_in_pieces(alloc, &mut store, kind, writer);
    let listed = flush(writer, listed_as(printed));
    (listed, store.into_connection())
}
