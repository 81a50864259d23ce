//! Writes listings as CSV.

ghost use Rattle.std.specs.Prelude.{◌≡◌};
ghost use Rattle.reg_store.specs.NextLines.{store_of};
ghost use Rattle.reg_store.specs.declared.listing.Listing.TheVariants.{Schemas, Subjects, Versions};
ghost use Rattle.reg_report.specs.Printing.{IsAtStart, PrintsListing};

use crate::buffer::OutputBuffer;
use crate::error::ReportError;
use crate::lines::put_lines;
use reg_store::{Lines, Listing, Store};
use sqlite::Alter;
use std::alloc::Global;
use std::io::Write;

/// The buffer size of `list_in_pieces` in bytes: so large that the writes cost little compared with
/// reading the lines.
const BUFFER_SIZE: usize = 65_536;

/// Writes as CSV the subjects that have a version, live or soft-deleted, in byte order. Each line
/// has the subject, its own level, and its numbers of live and soft-deleted versions. The header is
/// `subject,level,live,deleted`. The level is empty if the subject has none of its own.
///
/// # Errors
///
/// `Store` if the store fails, runs out of memory, or failed before (then nothing is written).
/// `OutOfMemory` if an allocation for the output fails. After either, the first lines of the
/// listing were written, perhaps none, each in full. `Write` if a write fails; then any
/// beginning of the listing was written. The registry stays the same in every case.
pub fn list_subjects<W: Write, S: Alter>(
    alloc: Global,
    store: &mut Store<S>,
    writer: &mut W,
) -> Result<(), ReportError>
    ensures { PrintsListing Subjects store.old store.new (W.contents writer.old) (W.contents writer.new) result }
{
    list(alloc, store, Listing::Subjects, writer)
}

/// Writes as CSV all versions of all subjects, including soft-deleted ones, in the order of
/// subjects and numbers. The header is `subject,version,id,deleted`.
///
/// # Errors
///
/// `Store` if the store fails, runs out of memory, or failed before (then nothing is written).
/// `OutOfMemory` if an allocation for the output fails. After either, the first lines of the
/// listing were written, perhaps none, each in full. `Write` if a write fails; then any
/// beginning of the listing was written. The registry stays the same in every case.
pub fn list_versions<W: Write, S: Alter>(
    alloc: Global,
    store: &mut Store<S>,
    writer: &mut W,
) -> Result<(), ReportError>
    ensures { PrintsListing Versions store.old store.new (W.contents writer.old) (W.contents writer.new) result }
{
    list(alloc, store, Listing::Versions, writer)
}

/// Writes as CSV the identity texts of the schemas, in the order of their ids. The header is
/// `id,text`.
///
/// # Errors
///
/// `Store` if the store fails, runs out of memory, or failed before (then nothing is written).
/// `OutOfMemory` if an allocation for the output fails. After either, the first lines of the
/// listing were written, perhaps none, each in full. `Write` if a write fails; then any
/// beginning of the listing was written. The registry stays the same in every case.
pub fn list_schemas<W: Write, S: Alter>(
    alloc: Global,
    store: &mut Store<S>,
    writer: &mut W,
) -> Result<(), ReportError>
    ensures { PrintsListing Schemas store.old store.new (W.contents writer.old) (W.contents writer.new) result }
{
    list(alloc, store, Listing::Schemas, writer)
}

/// Writes the listing as CSV, with a header line. Each line is a write of its own.
///
/// # Errors
///
/// `Store` if the store fails, runs out of memory, or failed before (then nothing is written).
/// `OutOfMemory` if an allocation for the output fails. After either, the first lines of the
/// listing were written, perhaps none, each in full. `Write` if a write fails; then any
/// beginning of the listing was written. The registry stays the same in every case.
pub fn list<W: Write, S: Alter>(
    alloc: Global,
    store: &mut Store<S>,
    kind: Listing,
    writer: &mut W,
) -> Result<(), ReportError>
    ensures { PrintsListing kind store.old store.new (W.contents writer.old) (W.contents writer.new) result }
{
    list_buffered(alloc, store, kind, writer, 0)
}

/// Writes the listing as CSV, with a header line, in pieces of more than 64 KiB. The last piece may
/// be shorter.
///
/// # Errors
///
/// `Store` if the store fails, runs out of memory, or failed before (then nothing is written).
/// `OutOfMemory` if an allocation for the output fails. After either, the first lines of the
/// listing were written, perhaps none, each in full. `Write` if a write fails, including the
/// final write of the buffered lines after another error; then any beginning of the listing was
/// written. The registry stays the same in every case.
pub fn list_in_pieces<W: Write, S: Alter>(
    alloc: Global,
    store: &mut Store<S>,
    kind: Listing,
    writer: &mut W,
) -> Result<(), ReportError>
    ensures { PrintsListing kind store.old store.new (W.contents writer.old) (W.contents writer.new) result }
{
    list_buffered(alloc, store, kind, writer, BUFFER_SIZE)
}

/// Writes the listing through a buffer of this capacity.
fn list_buffered<W: Write, S: Alter>(
    alloc: Global,
    store: &mut Store<S>,
    kind: Listing,
    writer: &mut W,
    capacity: usize,
) -> Result<(), ReportError>
    ensures { PrintsListing kind store.old store.new (W.contents writer.old) (W.contents writer.new) result }
{
    let mut lines = store.lines(kind)?;
    put_listing(alloc, writer, capacity, kind, &mut lines)
}

/// Writes the header line and the lines of the listing through a buffer of this capacity.
fn put_listing<W: Write, S: Alter>(
    alloc: Global,
    writer: &mut W,
    capacity: usize,
    kind: Listing,
    lines: &mut Lines<'_, S>,
) -> Result<(), ReportError>
    requires { IsAtStart kind lines.old }
    ensures same_reference { lines.new.store.ghost_name ≡ lines.old.store.ghost_name }
    ensures lists { PrintsListing kind (store_of lines.old) (store_of lines.new)
        (W.contents writer.old) (W.contents writer.new) result }
{
    let mut buffer = OutputBuffer::new(alloc, capacity);
    let put = put_lines(alloc, writer, &mut buffer, kind, lines);
    buffer.finish(writer, put)
}
