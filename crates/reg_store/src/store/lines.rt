//! The texts of a listing's lines.

ghost use Rattle.std.specs.Prelude.{◌≡◌, ◌++◌, ◌∷◌, [], IfOk, OnOk, length, map, string_bytes};
ghost use Rattle.reg_core.specs.Rows.{live_rows};
ghost use Rattle.reg_store.specs.Listings.{deleted_rows, fields_of, flag_text, lines_of, own_text, schema_line, subject_line, version_line};

use reg_core::{Level, OutOfMemory, Row, Subject};
use std::alloc::Global;

pub(crate) fn version_lines(alloc: Global, rows: &[Row]) -> Result<Vec<Vec<String>>, OutOfMemory>
    ensures { IfOk result (λ lines. lines_of lines ≡ map version_line rows.now) }
{
    let mut lines = Vec::new(alloc);
    for row in rows {
        push_line(&mut lines, version_line(alloc, row)?)?;
    }
    Ok(lines)
}

pub(crate) fn push_line(lines: &mut Vec<Vec<String>>, line: Vec<String>) -> Result<(), OutOfMemory>
    ensures { OnOk result (lines_of lines.new ≡ lines_of lines.old ++ fields_of line ∷ []) }
{
    lines.push(line)?;
    Ok(())
}

pub(crate) fn version_line(alloc: Global, row: &Row) -> Result<Vec<String>, OutOfMemory>
    ensures { IfOk result (λ line. fields_of line ≡ version_line row.now) }
{
    let subject = String::from_str(alloc, row.subject().as_str())?;
    let number = row.version();
    let number = format!(in alloc; "{number}")?;
    let id = row.id();
    let id = format!(in alloc; "{id}")?;
    let deleted = String::from_str(alloc, flag_text(row.deleted()))?;
    Ok(Vec::from_array(alloc, [subject, number, id, deleted])?)
}

/// The field that shows whether a version is soft-deleted.
fn flag_text(deleted: bool) -> &'static str
    ensures { result.now ≡ flag_text deleted }
{
    if deleted { "true" } else { "false" }
}

pub(crate) fn schema_line(alloc: Global, id: u32, text: String) -> Result<Vec<String>, OutOfMemory>
    ensures { IfOk result (λ line. fields_of line ≡ schema_line id (string_bytes text)) }
{
    let id = format!(in alloc; "{id}")?;
    Ok(Vec::from_array(alloc, [id, text])?)
}

pub(crate) fn subject_line(
    alloc: Global,
    subject: &Subject,
    own: Option<Level>,
    rows: &[Row],
) -> Result<Vec<String>, OutOfMemory>
    ensures { IfOk result (λ line. fields_of line ≡ subject_line subject.now own rows.now) }
{
    let subject = String::from_str(alloc, subject.as_str())?;
    let own = String::from_str(alloc, own_text(own))?;
    let live = live_count(rows);
    let live = format!(in alloc; "{live}")?;
    let deleted = deleted_count(rows);
    let deleted = format!(in alloc; "{deleted}")?;
    Ok(Vec::from_array(alloc, [subject, own, live, deleted])?)
}

/// The text of a subject's own level, empty if it has none.
fn own_text(own: Option<Level>) -> &'static str
    ensures { result.now ≡ own_text own }
{
    match own {
        None => "",
        Some(level) => level.text(),
    }
}

fn live_count(rows: &[Row]) -> usize
    ensures { result ≡ length (live_rows rows.now) }
{
    rows.iter().filter(|row| !row.deleted()).count()
}

fn deleted_count(rows: &[Row]) -> usize
    ensures { result ≡ length (deleted_rows rows.now) }
{
    rows.iter().filter(|row| row.deleted()).count()
}
