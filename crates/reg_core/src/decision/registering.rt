//! Commands that register schemas, and that check whether a schema could be registered.

ghost use Rattle.std.specs.Prelude.{◌≡◌, ◌≢◌, ℕ, Bool, List, [], None, Some, IfOk, if◌then◌else◌, map, option_copied, option_map};
ghost use Rattle.avro_nodes.specs.Nodes.{nodes_view};
ghost use Rattle.reg_core.specs.declared.command.Command.TheVariants.{Check, CheckAll, Register};
ghost use Rattle.reg_core.specs.Bodies.{id_body, verdict_body};
ghost use Rattle.reg_core.specs.Machine.{permitted_step};
ghost use Rattle.reg_core.specs.Inside.Evidence.{UpdateEvidence};
ghost use Rattle.reg_core.specs.Inside.Registering.{evidence_by_view, has_numbers_by_view, id_among, id_by_view, row_by_view, version_added};
ghost use Rattle.reg_core.specs.Registry.{Registry};
ghost use Rattle.reg_core.specs.Replies.{IsCommandReply, success};
ghost use Rattle.reg_core.specs.Rows.{next_number};
ghost use Rattle.reg_core.specs.Views.{ChangesFit, IsDecisionInput, after_changes, level_of_view};

use crate::code::Code;
use crate::compatibility::named_versions;
use crate::decision::comparing::is_admitted_in_view;
use crate::decision::needs::ids_of;
use crate::decision::rows::{found_row, visible_rows};
use crate::decision::{Change, Decision, View, unchanged};
use crate::evidence::Evidence;
use crate::level::Level;
use crate::number::{MAX_NUMBER, parse_choice};
use crate::reply::Reply;
use crate::row::Row;
use crate::subject::Subject;
use crate::text::Text;
use avro_nodes::OutOfMemory;
use avro_schema::Schema;
use schema_cache::SchemaCache;
use serde_json::json;
use std::alloc::Global;

/// Adds the schema as the subject's next version, unless a live version already has it. Rejects an
/// invalid schema (`None`), and one that the level doesn't admit or for which no number is left.
pub fn register(
    alloc: Global,
    view: &View,
    subject: &Subject,
    schema: Option<&Schema>,
    cache: Option<&mut SchemaCache>,
) -> Result<Decision, OutOfMemory>
    ensures reply { IfOk result (λ decision. (g : Registry) (text : List ℕ) (supported : Bool)
        → IsDecisionInput g (Register subject.now text supported) (option_map nodes_view (option_copied schema.entry)) view.now
        → decision.reply ≡ (permitted_step g (Register subject.now text supported)).1) }
    ensures changes { IfOk result (λ decision. (g : Registry) (text : List ℕ) (supported : Bool)
        → IsDecisionInput g (Register subject.now text supported) (option_map nodes_view (option_copied schema.entry)) view.now
        → after_changes decision.changes.items g ≡ (permitted_step g (Register subject.now text supported)).0) }
    ensures fit { IfOk result (λ decision. (g : Registry) (text : List ℕ) (supported : Bool)
        → IsDecisionInput g (Register subject.now text supported) (option_map nodes_view (option_copied schema.entry)) view.now
        → ChangesFit decision.changes.items g) }
    ensures evidence { IfOk result (λ decision. (g : Registry) (text : List ℕ) (supported : Bool)
        → IsDecisionInput g (Register subject.now text supported) (option_map nodes_view (option_copied schema.entry)) view.now
        → UpdateEvidence decision.changes.items g) }
    ensures refusal { IfOk result (λ decision. decision.reply.status ≢ 200 → decision.changes.items ≡ []) }
    // The reply's status is 200, 404, 409 or 422, and it isn't the fault of a reused retry key.
    ensures own { IfOk result (λ decision. IsCommandReply decision.reply) }
{
    let Some(new) = schema else {
        return Ok(unchanged(alloc, Reply::fault(Code::InvalidSchema)));
    };
    let live = visible_rows(alloc, false, &view.rows)?;
    if let Some(id) = id_among(view.known, &live) {
        let reply = id_reply(alloc, id)?;
        return Ok(unchanged(alloc, reply));
    }
    if !is_admitted_in_view(alloc, view, level_in_force(view), &live, new, cache)? {
        return Ok(unchanged(alloc, Reply::fault(Code::Incompatible)));
    }
    let Some(row) = next_row(view, subject)? else {
        return Ok(unchanged(alloc, Reply::fault(Code::NoNumberLeft)));
    };
    let reply = id_reply(alloc, row.id())?;
    let evidence = evidence_after(alloc, view, &live)?;
    let changes = version_added(alloc, view.known, row, evidence, new)?;
    Ok(Decision { changes, reply })
}

/// The reply with the verdict whether the subject's level would admit the schema. It is a fault if
/// the schema is invalid (`None`).
pub fn check_all(
    alloc: Global,
    view: &View,
    schema: Option<&Schema>,
    cache: Option<&mut SchemaCache>,
) -> Result<Reply, OutOfMemory>
    ensures reply { IfOk result (λ reply. (g : Registry) (subject text : List ℕ) (supported : Bool)
        → IsDecisionInput g (CheckAll subject text supported) (option_map nodes_view (option_copied schema.entry)) view.now
        → reply ≡ (permitted_step g (CheckAll subject text supported)).1) }
    // The reply's status is 200, 404, 409 or 422, and it isn't the fault of a reused retry key.
    ensures own { IfOk result (λ reply. IsCommandReply reply) }
{
    let Some(new) = schema else {
        return Ok(Reply::fault(Code::InvalidSchema));
    };
    let live = visible_rows(alloc, false, &view.rows)?;
    let compatible = is_admitted_in_view(alloc, view, level_in_force(view), &live, new, cache)?;
    verdict_reply(alloc, compatible)
}

/// The reply that says whether the subject's level would admit the schema, compared with the chosen
/// live version only. It is a fault if `version` or the schema is invalid, or if the subject has no
/// such live version.
pub fn check(
    alloc: Global,
    view: &View,
    version: &str,
    schema: Option<&Schema>,
    cache: Option<&mut SchemaCache>,
) -> Result<Reply, OutOfMemory>
    ensures reply { IfOk result (λ reply. (g : Registry) (subject text : List ℕ) (supported : Bool)
        → IsDecisionInput g (Check subject version.now text supported) (option_map nodes_view (option_copied schema.entry)) view.now
        → reply ≡ (permitted_step g (Check subject version.now text supported)).1) }
    // The reply's status is 200, 404, 409 or 422, and it isn't the fault of a reused retry key.
    ensures own { IfOk result (λ reply. IsCommandReply reply) }
{
    let Some(choice) = parse_choice(version) else {
        return Ok(Reply::fault(Code::InvalidVersion));
    };
    let Some(new) = schema else {
        return Ok(Reply::fault(Code::InvalidSchema));
    };
    let live = visible_rows(alloc, false, &view.rows)?;
    match found_row(Some(choice), &live) {
        Ok(row) => {
            let compatible = is_admitted_in_view(
                alloc,
                view,
                level_in_force(view),
                &[row],
                new,
                cache,
            )?;
            verdict_reply(alloc, compatible)
        }
        Err(code) => Ok(Reply::fault(code)),
    }
}

/// The level in force: the subject's own level, else the global one.
pub fn level_in_force(view: &View) -> Level
    ensures { result ≡ level_of_view view.now }
{
    view.own.unwrap_or(view.global)
}

/// The id if one of the versions has it, else `None`.
pub fn id_among(known: Option<u32>, rows: &[&Row]) -> Option<u32>
    ensures { result ≡ id_among known (map (λ row. row.now) rows.now) }
{
    let id = known?;
    if rows.iter().any(|row| row.id() == id) {
        Some(id)
    } else {
        None
    }
}

/// The version that a registration would add, which is live. The caller has checked that no live
/// version has the schema. `None` if its number or its id would exceed `MAX_NUMBER`. The number is 1
/// more than the greatest in the view, soft-deleted versions included, or 1. The id is the sent
/// schema's, or the next one if the schema isn't registered.
fn next_row(view: &View, subject: &Subject) -> Result<Option<Row>, OutOfMemory>
    ensures { IfOk result (λ row. row ≡ (if has_numbers_by_view view.now then Some (row_by_view view.now subject.now) else None)) }
{
    let version = next_number(&view.rows);
    let id = match view.known {
        Some(id) => u64::from(id),
        None => u64::from(view.count) + 1,
    };
    let most = u64::from(MAX_NUMBER);
    if version > most || id > most {
        return Ok(None);
    }
    let row = Row::new(subject.try_clone()?, version as u32, id as u32, false);
    Ok(Some(row))
}

/// The number after the greatest number of these versions, or 1 if there are none.
fn next_number(rows: &[Row]) -> u64
    ensures { result ≡ next_number rows.now }
{
    let greatest = rows
        .iter()
        .fold(0, |greatest: u32, row| greatest.max(row.version()));
    u64::from(greatest) + 1
}

/// The evidence of a version that follows these live ones.
fn evidence_after(alloc: Global, view: &View, live: &[&Row]) -> Result<Evidence, OutOfMemory>
    ensures { IfOk result (λ evidence. evidence ≡ evidence_by_view view.now (map (λ row. row.now) live.now)) }
{
    let level = level_in_force(view);
    let against = ids_of(alloc, named_versions(level, live))?;
    Ok(Evidence::new(level, against))
}

/// The changes that add the version with its evidence and, if `known` is `None`, first the text of
/// its schema.
fn version_added(
    alloc: Global,
    known: Option<u32>,
    row: Row,
    evidence: Evidence,
    new: &Schema,
) -> Result<Vec<Change>, OutOfMemory>
    ensures { IfOk result (λ changes. changes.items ≡ version_added known row evidence (nodes_view new.now)) }
{
    let mut changes = Vec::new(alloc);
    if known.is_none() {
        changes.push(Change::AddText {
            id: row.id(),
            text: Text::from(new.text(alloc)?),
        })?;
    }
    changes.push(Change::AddRow { row, evidence })?;
    Ok(changes)
}

/// The reply with the id of a schema.
fn id_reply(alloc: Global, id: u32) -> Result<Reply, OutOfMemory>
    ensures { IfOk result (λ reply. reply ≡ success (id_body id)) }
{
    let object = json!(in alloc; {"id": id})?;
    Ok(Reply::success(object.to_string(alloc)?))
}

/// The reply with a verdict.
fn verdict_reply(alloc: Global, compatible: bool) -> Result<Reply, OutOfMemory>
    ensures { IfOk result (λ reply. reply ≡ success (verdict_body compatible)) }
{
    let object = json!(in alloc; {"is_compatible": compatible})?;
    Ok(Reply::success(object.to_string(alloc)?))
}
