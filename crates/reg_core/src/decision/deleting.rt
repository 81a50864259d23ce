//! Commands that delete versions and subjects, softly or permanently.

ghost use Rattle.std.specs.Prelude.{◌≡◌, ◌≢◌, ◌++◌, ◌∷◌, List, [], Option, IfOk, map};
ghost use Rattle.std.specs.Result.{result_map_both};
ghost use Rattle.avro_nodes.specs.Nodes.{NodeView};
ghost use Rattle.reg_core.specs.declared.command.Command.TheVariants.{DeleteSubject, DeleteVersion};
ghost use Rattle.reg_core.specs.Bodies.{number_body};
ghost use Rattle.reg_core.specs.DeletionCommands.{numbers_reply, row_to_delete, row_to_soft_delete, row_to_remove};
ghost use Rattle.reg_core.specs.Inside.Deleting.{own_settings_dropped, subject_refusal, version_change};
ghost use Rattle.reg_core.specs.Inside.Evidence.{AddNoVersion};
ghost use Rattle.reg_core.specs.Machine.{permitted_step};
ghost use Rattle.reg_core.specs.Registry.{Registry};
ghost use Rattle.reg_core.specs.Replies.{IsCommandReply, success};
ghost use Rattle.reg_core.specs.Rows.{live_rows};
ghost use Rattle.reg_core.specs.Views.{ChangesFit, IsDecisionInput, after_changes};

use crate::code::Code;
use crate::decision::bodies::{number_reply, numbers_reply};
use crate::decision::rows::{chosen_row, found_row, visible_rows};
use crate::decision::{Change, Decision, View, unchanged};
use crate::number::{VersionChoice, parse_choice};
use crate::reply::Reply;
use crate::row::Row;
use crate::subject::Subject;
use avro_nodes::OutOfMemory;
use std::alloc::Global;

/// Decides the deletion of a version. It soft-deletes the chosen version, which must be live; `latest`
/// is the last live one. With `permanent`, it removes the chosen version, which must be soft-deleted;
/// `latest` is the last of all. The reply is the version's number. A refusal, also of an invalid
/// `version`, changes nothing.
pub fn delete_version(
    alloc: Global,
    view: &View,
    subject: &Subject,
    version: &str,
    permanent: bool,
) -> Result<Decision, OutOfMemory>
    ensures reply { IfOk result (λ decision. (g : Registry) (schema : Option (List NodeView))
        → IsDecisionInput g (DeleteVersion subject.now version.now permanent) schema view.now
        → decision.reply ≡ (permitted_step g (DeleteVersion subject.now version.now permanent)).1) }
    ensures changes { IfOk result (λ decision. (g : Registry) (schema : Option (List NodeView))
        → IsDecisionInput g (DeleteVersion subject.now version.now permanent) schema view.now
        → after_changes decision.changes.items g ≡ (permitted_step g (DeleteVersion subject.now version.now permanent)).0) }
    ensures fit { IfOk result (λ decision. (g : Registry) → ChangesFit decision.changes.items g) }
    ensures adds_no_version { IfOk result (λ decision. AddNoVersion decision.changes.items) }
    ensures refusal { IfOk result (λ decision. decision.reply.status ≢ 200 → decision.changes.items ≡ []) }
    // The reply's status is 200, 404, 409 or 422, and it isn't the fault of a reused retry key.
    ensures own { IfOk result (λ decision. IsCommandReply decision.reply) }
{
    let rows = visible_rows(alloc, true, &view.rows)?;
    let live = visible_rows(alloc, false, &view.rows)?;
    match row_to_delete(permanent, parse_choice(version), &rows, &live) {
        Ok(row) => delete_one(alloc, subject, row.version(), permanent),
        Err(code) => Ok(unchanged(alloc, Reply::fault(code))),
    }
}

/// The version to soft-delete or to remove, or the code of the refusal. `live` must be the live
/// versions of `rows`.
fn row_to_delete<'a>(
    permanent: bool,
    choice: Option<VersionChoice>,
    rows: &[&'a Row],
    live: &[&'a Row],
) -> Result<&'a Row, Code>
    ensures { map (λ row. row.now) live.now ≡ live_rows (map (λ row. row.now) rows.now)
        → result_map_both (λ row. row.now) (λ code. code) result
        ≡ row_to_delete permanent choice (map (λ row. row.now) rows.now) }
{
    if permanent {
        row_to_remove(choice, rows)
    } else {
        row_to_soft_delete(choice, rows, live)
    }
}

/// The live version to soft-delete, or the code of the refusal. `latest` is the last live one.
/// `live` must be the live versions of `rows`.
fn row_to_soft_delete<'a>(
    choice: Option<VersionChoice>,
    rows: &[&'a Row],
    live: &[&'a Row],
) -> Result<&'a Row, Code>
    ensures { map (λ row. row.now) live.now ≡ live_rows (map (λ row. row.now) rows.now)
        → result_map_both (λ row. row.now) (λ code. code) result
        ≡ row_to_soft_delete choice (map (λ row. row.now) rows.now) }
{
    if choice == Some(VersionChoice::Latest) && !rows.is_empty() {
        return chosen_row(VersionChoice::Latest, live).ok_or(Code::SubjectSoftDeleted);
    }
    let row = found_row(choice, rows)?;
    if row.deleted() {
        return Err(Code::VersionSoftDeleted);
    }
    Ok(row)
}

/// The soft-deleted version to remove, or the code of the refusal. `latest` is the last version,
/// soft-deleted or not, so it is rejected if it is live.
fn row_to_remove<'a>(choice: Option<VersionChoice>, rows: &[&'a Row]) -> Result<&'a Row, Code>
    ensures { result_map_both (λ row. row.now) (λ code. code) result
        ≡ row_to_remove choice (map (λ row. row.now) rows.now) }
{
    let row = found_row(choice, rows)?;
    if !row.deleted() {
        return Err(Code::VersionNotSoftDeleted);
    }
    Ok(row)
}

/// Soft-deletes the version with this number, or with `permanent` removes it; replies with the
/// number.
fn delete_one(
    alloc: Global,
    subject: &Subject,
    version: u32,
    permanent: bool,
) -> Result<Decision, OutOfMemory>
    ensures reply { IfOk result (λ decision. decision.reply ≡ success (number_body version)) }
    ensures changes { IfOk result (λ decision. decision.changes.items ≡ version_change permanent subject.now version ∷ []) }
{
    let reply = number_reply(alloc, version)?;
    let mut changes = Vec::new(alloc);
    changes.push(version_change(subject, version, permanent)?)?;
    Ok(Decision { changes, reply })
}

/// The change that soft-deletes the subject's version with this number, or with `permanent` removes
/// it.
fn version_change(subject: &Subject, version: u32, permanent: bool) -> Result<Change, OutOfMemory>
    ensures { IfOk result (λ change. change ≡ version_change permanent subject.now version) }
{
    let subject = subject.try_clone()?;
    if permanent {
        Ok(Change::Remove { subject, version })
    } else {
        Ok(Change::MarkDeleted { subject, version })
    }
}

/// Soft-deletes the subject's live versions, and removes its own level. With `permanent`, removes
/// its own level, its own mode and all its versions, which must be soft-deleted. Rejects a subject
/// without versions and, without `permanent`, a subject without live ones.
pub fn delete_subject(
    alloc: Global,
    view: &View,
    subject: &Subject,
    permanent: bool,
) -> Result<Decision, OutOfMemory>
    ensures reply { IfOk result (λ decision. (g : Registry) (schema : Option (List NodeView))
        → IsDecisionInput g (DeleteSubject subject.now permanent) schema view.now
        → decision.reply ≡ (permitted_step g (DeleteSubject subject.now permanent)).1) }
    ensures changes { IfOk result (λ decision. (g : Registry) (schema : Option (List NodeView))
        → IsDecisionInput g (DeleteSubject subject.now permanent) schema view.now
        → after_changes decision.changes.items g ≡ (permitted_step g (DeleteSubject subject.now permanent)).0) }
    ensures fit { IfOk result (λ decision. (g : Registry) → ChangesFit decision.changes.items g) }
    ensures adds_no_version { IfOk result (λ decision. AddNoVersion decision.changes.items) }
    ensures refusal { IfOk result (λ decision. decision.reply.status ≢ 200 → decision.changes.items ≡ []) }
    // The reply's status is 200, 404, 409 or 422, and it isn't the fault of a reused retry key.
    ensures own { IfOk result (λ decision. IsCommandReply decision.reply) }
{
    let rows = visible_rows(alloc, true, &view.rows)?;
    let live = visible_rows(alloc, false, &view.rows)?;
    if let Some(code) = subject_refusal(permanent, &rows, &live) {
        return Ok(unchanged(alloc, Reply::fault(code)));
    }
    if permanent {
        delete_all(alloc, subject, &rows, true)
    } else {
        delete_all(alloc, subject, &live, false)
    }
}

/// The code if a subject with these versions and these live ones can't be soft-deleted, or with
/// `permanent` removed; else `None`.
fn subject_refusal(permanent: bool, rows: &[&Row], live: &[&Row]) -> Option<Code>
    ensures { result ≡ subject_refusal permanent (map (λ row. row.now) rows.now) (map (λ row. row.now) live.now) }
{
    if rows.is_empty() {
        return Some(Code::SubjectNotFound);
    }
    match (permanent, live.is_empty()) {
        (false, true) => Some(Code::SubjectSoftDeleted),
        (true, false) => Some(Code::SubjectNotSoftDeleted),
        _ => None,
    }
}

/// Soft-deletes these versions of the subject, or with `permanent` removes them; removes the
/// subject's own level, and with `permanent` its own mode; replies with the numbers.
fn delete_all(
    alloc: Global,
    subject: &Subject,
    rows: &[&Row],
    permanent: bool,
) -> Result<Decision, OutOfMemory>
    ensures reply { IfOk result (λ decision. decision.reply ≡ numbers_reply (map (λ row. row.now) rows.now)) }
    ensures changes { IfOk result (λ decision. decision.changes.items
        ≡ map (λ row. version_change permanent subject.now row.now.0.1) rows.now ++ own_settings_dropped permanent subject.now) }
{
    let reply = numbers_reply(alloc, rows)?;
    let mut changes = Vec::new(alloc);
    for row in rows {
        changes.push(version_change(subject, row.version(), permanent)?)?;
    }
    drop_own_settings(&mut changes, subject, permanent)?;
    Ok(Decision { changes, reply })
}

/// Adds the change that removes the subject's own level; if its versions are removed permanently,
/// also the change that removes its own mode.
fn drop_own_settings(
    changes: &mut Vec<Change>,
    subject: &Subject,
    permanently: bool,
) -> Result<(), OutOfMemory>
    ensures { IfOk result (λ u. changes.new.items ≡ changes.old.items ++ own_settings_dropped permanently subject.now) }
{
    changes.push(Change::DropLevel {
        subject: subject.try_clone()?,
    })?;
    if permanently {
        changes.push(Change::DropMode {
            subject: subject.try_clone()?,
        })?;
    }
    Ok(())
}
