//! Schemas in files.

ghost use Rattle.std.specs.Prelude.{◌≡◌, MatchResult, option_map};
ghost use Rattle.avro_nodes.specs.Nodes.{nodes_view};
ghost use Rattle.reg_jobs.specs.Files.{FileHolds, FailsAs, PrintsTextAs, ChecksAs, PrintsVerdict, verdict_line};

use avro_resolve::resolves;
use avro_schema::{Schema, SchemaError};
use reg_output::write_whole;
use std::alloc::Global;
use std::io::Write;
use std::str;

/// Why no schema was obtained from a file.
#[derive(Clone, Copy, Debug, PartialEq, Eq)]
pub enum FileFault {
    /// It couldn't be read.
    CannotRead,
    /// Its bytes aren't UTF-8, or its text denotes no schema.
    NotSchema,
    /// An allocation failed.
    OutOfMemory,
}

/// How printing a schema ended.
#[derive(Clone, Copy, Debug, PartialEq, Eq)]
pub enum TextOutcome {
    /// The identity text was printed, with a line end.
    Whole,
    /// The file has no schema, or an allocation failed. Nothing was printed.
    Nothing(FileFault),
    /// A write failed. A beginning of the line was written.
    NotWritten,
}

/// The schema in a file. `file` has its bytes, or is `None` if it couldn't be read.
fn read_schema_file(alloc: Global, file: Option<&[u8]>) -> Result<Schema, FileFault>
    ensures { MatchResult result
        (λ schema. FileHolds (option_map (λ bytes. bytes.now) file.entry) (nodes_view schema))
        (FailsAs (option_map (λ bytes. bytes.now) file.entry)) }
{
    let Some(bytes) = file else {
        return Err(FileFault::CannotRead);
    };
    let Ok(text) = str::from_utf8(bytes) else {
        return Err(FileFault::NotSchema);
    };
    match Schema::read(alloc, text) {
        Ok(schema) => Ok(schema),
        Err(error) => match error {
            SchemaError::OutOfMemory => Err(FileFault::OutOfMemory),
            _ => Err(FileFault::NotSchema),
        },
    }
}

/// Prints the identity text of the schema in a file, with a line end.
pub fn print_text<W: Write>(alloc: Global, file: Option<&[u8]>, writer: &mut W) -> TextOutcome
    ensures { PrintsTextAs (option_map (λ bytes. bytes.now) file.entry)
        (W.contents writer.old) (W.contents writer.new) result }
{
    let schema = match read_schema_file(alloc, file) {
        Ok(schema) => schema,
        Err(fault) => return TextOutcome::Nothing(fault),
    };
    let Ok(mut text) = schema.text(alloc) else {
        return TextOutcome::Nothing(FileFault::OutOfMemory);
    };
    if text.push('\n').is_err() {
        return TextOutcome::Nothing(FileFault::OutOfMemory);
    }
    if write_whole(writer, text.as_bytes()) {
        TextOutcome::Whole
    } else {
        TextOutcome::NotWritten
    }
}

/// How a check of two files ended.
#[derive(Clone, Copy, Debug, PartialEq, Eq)]
pub enum CheckOutcome {
    /// Whether the reader's schema can read what the writer's writes; this was printed.
    Verdict(bool),
    /// The reader's file has no schema, or an allocation for it failed. Nothing was printed.
    Reader(FileFault),
    /// The reader's file has a schema. The writer's has none, or an allocation for it failed.
    /// Nothing was printed.
    Writer(FileFault),
    /// An allocation failed, and nothing was printed.
    OutOfMemory,
    /// A write failed. A beginning of the verdict's line was written.
    NotWritten,
}

/// The line that `check` prints for a verdict.
fn verdict_line(yes: bool) -> &'static str
    ensures { result.now ≡ verdict_line yes }
{
    if yes {
        "compatible\n"
    } else {
        "incompatible\n"
    }
}

/// Prints the line of `check` for a verdict. Returns the verdict, or `NotWritten` if a write
/// failed. Then a beginning of the line was written.
fn print_verdict<W: Write>(is_compatible: bool, writer: &mut W) -> CheckOutcome
    ensures { PrintsVerdict is_compatible (W.contents writer.old) (W.contents writer.new) result }
{
    if write_whole(writer, verdict_line(is_compatible).as_bytes()) {
        CheckOutcome::Verdict(is_compatible)
    } else {
        CheckOutcome::NotWritten
    }
}

/// Checks whether the reader's schema can read what the writer's writes, and prints the verdict. It
/// parses the reader's file first.
pub fn check<W: Write>(
    alloc: Global,
    reader_file: Option<&[u8]>,
    writer_file: Option<&[u8]>,
    output: &mut W,
) -> CheckOutcome
    ensures { ChecksAs (option_map (λ bytes. bytes.now) reader_file.entry) (option_map (λ bytes. bytes.now) writer_file.entry)
        (W.contents output.old) (W.contents output.new) result }
{
    let reader = match read_schema_file(alloc, reader_file) {
        Ok(schema) => schema,
        Err(fault) => return CheckOutcome::Reader(fault),
    };
    let writer = match read_schema_file(alloc, writer_file) {
        Ok(schema) => schema,
        Err(fault) => return CheckOutcome::Writer(fault),
    };
    match resolves(alloc, &writer, &reader) {
        Ok(verdict) => print_verdict(verdict.yes, output),
        Err(_) => CheckOutcome::OutOfMemory,
    }
}
