//! Commands that show subjects, versions and schemas.

ghost use Rattle.std.specs.Prelude.{◌≡◌, IfOk, None, bytes_eq, map, option_copied, option_map};
ghost use Rattle.std.specs.List.{dedup, last_or};
ghost use Rattle.std.specs.Result.{result_map_both};
ghost use Rattle.avro_nodes.specs.Nodes.{nodes_view};
ghost use Rattle.reg_core.specs.Bodies.{schema_body, version_body};
ghost use Rattle.reg_core.specs.Numbers.{parse_choice, parse_id};
ghost use Rattle.reg_core.specs.ReadCommands.{found_row, id_reply, id_versions_reply, lookup_row, lookup_reply, rows_with_id, subjects_reply, text_reply, types_reply, version_reply, version_text_reply, versions_reply};
ghost use Rattle.reg_core.specs.Rows.{visible_rows};
ghost use Rattle.reg_core.specs.Views.{view_text};

use crate::code::Code;
use crate::decision::View;
use crate::decision::bodies::{
    numbers_reply, schema_reply, strings_reply, subject_versions_reply, version_reply,
};
use crate::decision::rows::{found_row, visible_rows};
use crate::number::{parse_choice, parse_id};
use crate::reply::Reply;
use crate::row::Row;
use avro_nodes::OutOfMemory;
use avro_schema::Schema;
use std::alloc::Global;

/// The reply with the supported schema types: only Avro.
pub fn types(alloc: Global) -> Result<Reply, OutOfMemory>
    ensures { IfOk result (λ reply. reply ≡ types_reply) }
{
    strings_reply(alloc, &["AVRO"])
}

/// The reply with the subjects of the shown versions.
pub fn subjects(alloc: Global, shows_deleted: bool, rows: &[Row]) -> Result<Reply, OutOfMemory>
    ensures { IfOk result (λ reply. reply ≡ subjects_reply (visible_rows shows_deleted rows.now)) }
{
    let shown = visible_rows(alloc, shows_deleted, rows)?;
    let subjects = subjects_of(alloc, shown.as_slice())?;
    strings_reply(alloc, subjects.as_slice())
}

/// The subjects of these versions, each once. A subject's versions must be adjacent.
fn subjects_of<'a>(alloc: Global, rows: &[&'a Row]) -> Result<Vec<&'a str>, OutOfMemory>
    ensures { IfOk result (λ subjects. map (λ subject. subject.now) subjects.items
        ≡ dedup bytes_eq (map (λ row. row.0.0) (map (λ row. row.now) rows.now))) }
{
    let mut subjects: Vec<&'a str> = rows
        .iter()
        .map(|row| row.subject().as_str())
        .collect(alloc)?;
    subjects.dedup();
    Ok(subjects)
}

/// The reply with the numbers of the subject's shown versions, or a fault if there are none.
pub fn versions(alloc: Global, shows_deleted: bool, rows: &[Row]) -> Result<Reply, OutOfMemory>
    ensures { IfOk result (λ reply. reply ≡ versions_reply (visible_rows shows_deleted rows.now)) }
{
    let shown = visible_rows(alloc, shows_deleted, rows)?;
    if shown.is_empty() {
        return Ok(Reply::fault(Code::SubjectNotFound));
    }
    numbers_reply(alloc, shown.as_slice())
}

/// The reply with the version that `choice` (`latest` or a number) chooses among the shown ones,
/// and its schema. It is a fault if `choice` is invalid, no version is shown, or none has the
/// number.
pub fn version(
    alloc: Global,
    view: &View,
    choice: &str,
    shows_deleted: bool,
) -> Result<Reply, OutOfMemory>
    ensures { IfOk result (λ reply. reply ≡ version_reply (view_text view.now)
        (found_row (parse_choice choice.now) (visible_rows shows_deleted view.now.rows.items))) }
{
    let shown = visible_rows(alloc, shows_deleted, view.rows.as_slice())?;
    match found_row(parse_choice(choice), shown.as_slice()) {
        Ok(row) => shown_version(alloc, view, row),
        Err(code) => Ok(Reply::fault(code)),
    }
}

/// The reply with only the schema of the chosen version. It is a fault in the same cases as the
/// reply of `version`.
pub fn version_text(
    alloc: Global,
    view: &View,
    choice: &str,
    shows_deleted: bool,
) -> Result<Reply, OutOfMemory>
    ensures { IfOk result (λ reply. reply ≡ version_text_reply (view_text view.now)
        (found_row (parse_choice choice.now) (visible_rows shows_deleted view.now.rows.items))) }
{
    let shown = visible_rows(alloc, shows_deleted, view.rows.as_slice())?;
    match found_row(parse_choice(choice), shown.as_slice()) {
        Ok(row) => shown_text(view, row.id()),
        Err(code) => Ok(Reply::fault(code)),
    }
}

/// The reply with the last shown version that has the schema. It is a fault if the schema is
/// invalid (`None`), no version is shown, or none has the schema.
pub fn lookup(
    alloc: Global,
    view: &View,
    schema: Option<&Schema>,
    shows_deleted: bool,
) -> Result<Reply, OutOfMemory>
    ensures { IfOk result (λ reply. reply ≡ lookup_reply (view_text view.now)
        (option_map nodes_view (option_copied schema.entry)) view.now.known
        (visible_rows shows_deleted view.now.rows.items)) }
{
    if schema.is_none() {
        return Ok(Reply::fault(Code::InvalidSchema));
    }
    let shown = visible_rows(alloc, shows_deleted, view.rows.as_slice())?;
    match lookup_row(view.known, shown.as_slice()) {
        Ok(row) => shown_version(alloc, view, row),
        Err(code) => Ok(Reply::fault(code)),
    }
}

/// The last of these versions that has the id. Otherwise `SubjectNotFound` if there are no
/// versions, else `SchemaNotFound`.
pub fn lookup_row<'a>(known: Option<u32>, rows: &[&'a Row]) -> Result<&'a Row, Code>
    ensures { result_map_both (λ row. row.now) (λ code. code) result
        ≡ lookup_row known (map (λ row. row.now) rows.now) }
{
    if rows.is_empty() {
        return Err(Code::SubjectNotFound);
    }
    match last_with_id(known, rows) {
        Some(row) => Ok(row),
        None => Err(Code::SchemaNotFound),
    }
}

/// The last of these versions that has the id, or `None`. Without an id there is no such version.
fn last_with_id<'a>(schema_id: Option<u32>, rows: &[&'a Row]) -> Option<&'a Row>
    ensures { option_copied result ≡ last_or None (rows_with_id schema_id (map (λ row. row.now) rows.now)) }
{
    let id = schema_id?;
    let mut last = None;
    for row in rows {
        if row.id() == id {
            last = Some(*row);
        }
    }
    last
}

/// The reply with the schema of an id that some version has, else the fault `SchemaNotFound`.
pub fn by_id(alloc: Global, view: &View, id: &str) -> Result<Reply, OutOfMemory>
    ensures { IfOk result (λ reply. reply ≡ id_reply (view_text view.now) (parse_id id.now) view.now.rows.items) }
{
    match parse_id(id) {
        Some(id) if !view.rows.is_empty() => shown_schema(alloc, view, id),
        _ => Ok(Reply::fault(Code::SchemaNotFound)),
    }
}

/// The reply with the shown versions of an id, perhaps none. It is the fault `SchemaNotFound` if
/// the text is no id, or no version has it, not even a soft-deleted one.
pub fn versions_of_id(
    alloc: Global,
    shows_deleted: bool,
    rows: &[Row],
    id: &str,
) -> Result<Reply, OutOfMemory>
    ensures { IfOk result (λ reply. reply ≡ id_versions_reply (parse_id id.now) shows_deleted rows.now) }
{
    if parse_id(id).is_none() || rows.is_empty() {
        return Ok(Reply::fault(Code::SchemaNotFound));
    }
    let shown = visible_rows(alloc, shows_deleted, rows)?;
    subject_versions_reply(alloc, shown.as_slice())
}

/// The reply with the version and its schema.
fn shown_version(alloc: Global, view: &View, row: &Row) -> Result<Reply, OutOfMemory>
    ensures { IfOk result (λ reply. reply ≡ text_reply (version_body row.now) (view_text view.now row.now.1.id)) }
{
    match view.texts.get(&row.id()) {
        Some(text) => version_reply(alloc, row, text.as_str()),
        None => Ok(Reply::fault(Code::SchemaNotFound)),
    }
}

/// The reply with the schema of the id, in an object.
fn shown_schema(alloc: Global, view: &View, id: u32) -> Result<Reply, OutOfMemory>
    ensures { IfOk result (λ reply. reply ≡ text_reply schema_body (view_text view.now id)) }
{
    match view.texts.get(&id) {
        Some(text) => schema_reply(alloc, text.as_str()),
        None => Ok(Reply::fault(Code::SchemaNotFound)),
    }
}

/// The reply with only the schema of the id.
fn shown_text(view: &View, id: u32) -> Result<Reply, OutOfMemory>
    ensures { IfOk result (λ reply. reply ≡ text_reply (λ text. text) (view_text view.now id)) }
{
    match view.texts.get(&id) {
        Some(text) => Ok(Reply::success(text.clone()?)),
        None => Ok(Reply::fault(Code::SchemaNotFound)),
    }
}
