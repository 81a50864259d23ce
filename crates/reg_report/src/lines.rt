//! Writes the lines of a listing as CSV.

ghost use Rattle.std.specs.Prelude.{◌≡◌, ◌<◌, ◌-◌, ◌^◌, [], IfOk, length, map};
ghost use Rattle.csv.specs.Writing.{default_writer, row_text};
ghost use Rattle.reg_store.specs.NextLines.{store_of};
ghost use Rattle.reg_report.specs.Csv.{header};
ghost use Rattle.reg_report.specs.Buffering.{Buffers, Cuts, Puts, output_of};
ghost use Rattle.reg_report.specs.Printing.{IsAtStart, Lists};

use crate::buffer::OutputBuffer;
use crate::error::ReportError;
use csv::WriterBuilder;
use reg_core::OutOfMemory;
use reg_store::{Lines, Listing};
use sqlite::Alter;
use std::alloc::Global;
use std::convert::AsSlice;
use std::io::Write;

/// Writes the header line of the listing and its lines, through the buffer. Each line is in the
/// buffer, or written, before the next one is read from the store.
pub(crate) fn put_lines<W: Write, S: Alter>(
    alloc: Global,
    writer: &mut W,
    buffer: &mut OutputBuffer,
    kind: Listing,
    lines: &mut Lines<'_, S>,
) -> Result<(), ReportError>
    requires { IsAtStart kind lines.old }
    ensures same_reference { lines.new.store.ghost_name ≡ lines.old.store.ghost_name }
    ensures lists { Lists (Puts (output_of W.contents writer.old buffer.old) (output_of W.contents writer.new buffer.new))
        (Cuts (output_of W.contents writer.old buffer.old) (output_of W.contents writer.new buffer.new))
        kind (store_of lines.old) (store_of lines.new) result }
{
    put_header(alloc, writer, buffer, kind)?;
    for _ in 0..u64::MAX {
        let Some(line) = lines.next()? else {
            return Ok(());
        };
        put_line(alloc, writer, buffer, line.as_slice())?;
    }
    // No database is so large that a listing has 2^64 - 1 lines.
    Err(ReportError::OutOfMemory)
}

/// Writes the header line of the listing.
fn put_header<W: Write>(
    alloc: Global,
    writer: &mut W,
    buffer: &mut OutputBuffer,
    kind: Listing,
) -> Result<(), ReportError>
    ensures { Buffers result (output_of W.contents writer.old buffer.old)
        (output_of W.contents writer.new buffer.new) (row_text default_writer (header kind)) }
{
    match kind {
        Listing::Subjects => {
            put_line(
                alloc,
                writer,
                buffer,
                &["subject", "level", "live", "deleted"],
            )
        }
        Listing::Versions => {
            put_line(
                alloc,
                writer,
                buffer,
                &["subject", "version", "id", "deleted"],
            )
        }
        Listing::Schemas => put_line(alloc, writer, buffer, &["id", "text"]),
    }
}

/// Writes a CSV line with these fields, through the buffer.
fn put_line<W: Write, T: AsSlice<u8>>(
    alloc: Global,
    writer: &mut W,
    buffer: &mut OutputBuffer,
    fields: &[T],
) -> Result<(), ReportError>
    requires { length fields.now < 2 ^ 64 - 1 }
    ensures { Buffers result (output_of W.contents writer.old buffer.old)
        (output_of W.contents writer.new buffer.new) (row_text default_writer (map T.items fields.now)) }
{
    let text = line_text(alloc, fields)?;
    buffer.put(writer, text.as_slice())
}

/// The CSV text of a line with these fields.
fn line_text<T: AsSlice<u8>>(alloc: Global, fields: &[T]) -> Result<Vec<u8>, OutOfMemory>
    requires { length fields.now < 2 ^ 64 - 1 }
    ensures { IfOk result (λ text. text.items ≡ row_text default_writer (map T.items fields.now)) }
{
    let mut csv = WriterBuilder::new().from_writer(Vec::new(alloc));
    // The first record can have any number of fields, so only an allocation can fail.
    let Ok(()) = csv.write_record(fields.iter()) else {
        return Err(OutOfMemory);
    };
    match csv.into_inner() {
        Ok(text) => Ok(text),
        Err(_) => Err(OutOfMemory),
    }
}
