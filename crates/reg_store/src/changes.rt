//! Changes of the tables in a transaction. No call commits.

ghost use Rattle.std.specs.Prelude.{◌≢◌, [], OnOk, IfErr, IfSome, IsSome, IsTrue};
ghost use Rattle.sqlite.specs.State.{HasCleanDisk};
ghost use Rattle.reg_core.specs.declared.decision.Change.TheVariants.{AddRow};
ghost use Rattle.reg_tables.specs.Frames.{state_in, RunsInTransaction, KeepsTransaction};
ghost use Rattle.reg_store.specs.Changes.{IsKeepable, TransactionContinues};
ghost use Rattle.reg_store.specs.Inside.Applying.{StoresChange, StoresChanges, StoresReply, IsFaultOfChange, IsFaultOfChanges, IsFaultOfReply, PutsIds, IsFaultOfIds, PutsEvidence, IsFaultOfEvidence};

use crate::keep::Keep;
use reg_core::{Change, Evidence, Row};
use reg_tables::{
    drop_level, drop_mode, drop_version, keep_reply as keep_row, mark_deleted, put_against,
    put_evidence, put_text, put_version, set_global, set_global_mode, set_level, set_mode,
};
use sqlite::{Alter, Error, ErrorCode, Transaction};

/// Adds the ids that a version was checked against, at the positions from 1 on.
///
/// # Errors
///
/// As `reg_tables::put_against`; also `TooBig` if there are more ids than positions.
fn put_ids<S: Alter>(
    tx: &mut Transaction<'_, S>,
    subject: &str,
    number: u32,
    ids: &[u32],
) -> Result<(), Error>
    ensures frame { KeepsTransaction S.Store tx.old tx.new }
    ensures goes_on { HasCleanDisk (state_in S.Store tx.new)
        → OnOk result (TransactionContinues (state_in S.Store tx.old) (state_in S.Store tx.new)) }
    ensures put { HasCleanDisk (state_in S.Store tx.new)
        → OnOk result (PutsIds (state_in S.Store tx.old) (state_in S.Store tx.new) (subject.now, number) ids.now) }
    ensures fault { HasCleanDisk (state_in S.Store tx.new)
        → IfErr result (IsFaultOfIds (state_in S.Store tx.old) (state_in S.Store tx.new) (subject.now, number) ids.now) }
{
    let mut position = 0u32;
    for id in ids {
        let Some(next) = position.checked_add(1) else {
            return Err(Error::SqliteFailure(ErrorCode::TooBig));
        };
        position = next;
        put_against(tx, subject, number, position, *id)?;
    }
    Ok(())
}

/// Adds the evidence of a version that has none: its level, and the ids at the positions from 1 on.
/// The version and the texts must exist.
///
/// # Errors
///
/// As `reg_tables::put_evidence` and `put_ids`. After an error a part may have been added, and the
/// caller rolls back.
fn put_version_evidence<S: Alter>(
    tx: &mut Transaction<'_, S>,
    subject: &str,
    number: u32,
    evidence: &Evidence,
) -> Result<(), Error>
    ensures frame { RunsInTransaction S.Store tx.old tx.new result }
    ensures put { HasCleanDisk (state_in S.Store tx.new)
        → OnOk result (PutsEvidence (state_in S.Store tx.old) (state_in S.Store tx.new) (subject.now, number) evidence.now) }
    ensures fault { HasCleanDisk (state_in S.Store tx.new)
        → IfErr result (IsFaultOfEvidence (state_in S.Store tx.old) (state_in S.Store tx.new) (subject.now, number) evidence.now) }
{
    put_evidence(tx, subject, number, evidence.level().text())?;
    put_ids(tx, subject, number, evidence.against())
}

/// Adds a version and its evidence.
fn put_row<S: Alter>(
    tx: &mut Transaction<'_, S>,
    row: &Row,
    evidence: &Evidence,
) -> Result<(), Error>
    ensures frame { RunsInTransaction S.Store tx.old tx.new result }
    ensures made { HasCleanDisk (state_in S.Store tx.new)
        → OnOk result (StoresChange (state_in S.Store tx.old) (state_in S.Store tx.new) (AddRow row.now evidence.now)) }
    ensures fault { HasCleanDisk (state_in S.Store tx.new)
        → IfErr result (IsFaultOfChange (state_in S.Store tx.old) (state_in S.Store tx.new) (AddRow row.now evidence.now)) }
{
    let subject = row.subject().as_str();
    put_version(tx, subject, row.version(), row.id(), row.deleted())?;
    put_version_evidence(tx, subject, row.version(), evidence)
}

fn apply_change<S: Alter>(tx: &mut Transaction<'_, S>, change: &Change) -> Result<(), Error>
    ensures frame { RunsInTransaction S.Store tx.old tx.new result }
    ensures made { HasCleanDisk (state_in S.Store tx.new)
        → OnOk result (StoresChange (state_in S.Store tx.old) (state_in S.Store tx.new) change.now) }
    ensures fault { HasCleanDisk (state_in S.Store tx.new)
        → IfErr result (IsFaultOfChange (state_in S.Store tx.old) (state_in S.Store tx.new) change.now) }
{
    match change {
        Change::SetGlobal { level } => set_global(tx, level.text()),
        Change::SetLevel { subject, level } => set_level(tx, subject.as_str(), level.text()),
        Change::AddText { id, text } => put_text(tx, *id, text.as_str()),
        Change::AddRow { row, evidence } => put_row(tx, row, evidence),
        Change::MarkDeleted { subject, version } => mark_deleted(tx, subject.as_str(), *version),
        Change::Remove { subject, version } => drop_version(tx, subject.as_str(), *version),
        Change::DropLevel { subject } => drop_level(tx, subject.as_str()),
        Change::SetGlobalMode { mode } => set_global_mode(tx, mode.text()),
        Change::SetMode { subject, mode } => set_mode(tx, subject.as_str(), mode.text()),
        Change::DropMode { subject } => drop_mode(tx, subject.as_str()),
    }
}

/// Applies the changes in order. After an error a part may have been applied, and the caller rolls
/// back.
pub(crate) fn apply_changes<S: Alter>(
    tx: &mut Transaction<'_, S>,
    changes: &[Change],
) -> Result<(), Error>
    ensures frame { KeepsTransaction S.Store tx.old tx.new }
    ensures was_open { HasCleanDisk (state_in S.Store tx.new)
        → OnOk result (changes.now ≢ [] → IsTrue (state_in S.Store tx.old).is_open) }
    ensures goes_on { HasCleanDisk (state_in S.Store tx.new)
        → OnOk result (TransactionContinues (state_in S.Store tx.old) (state_in S.Store tx.new)) }
    ensures made { HasCleanDisk (state_in S.Store tx.new)
        → OnOk result (StoresChanges (state_in S.Store tx.old) (state_in S.Store tx.new) changes.now) }
    ensures fault { HasCleanDisk (state_in S.Store tx.new)
        → IfErr result (IsFaultOfChanges (state_in S.Store tx.old) (state_in S.Store tx.new) changes.now) }
{
    for change in changes {
        apply_change(tx, change)?;
    }
    Ok(())
}

/// Stores the reply, if any.
pub(crate) fn keep_reply<S: Alter>(
    tx: &mut Transaction<'_, S>,
    keep: Option<Keep<'_>>,
) -> Result<(), Error>
    requires { IfSome keep IsKeepable }
    ensures frame { KeepsTransaction S.Store tx.old tx.new }
    ensures was_open { HasCleanDisk (state_in S.Store tx.new)
        → OnOk result (IsSome keep.entry → IsTrue (state_in S.Store tx.old).is_open) }
    ensures goes_on { HasCleanDisk (state_in S.Store tx.new)
        → OnOk result (TransactionContinues (state_in S.Store tx.old) (state_in S.Store tx.new)) }
    ensures put { HasCleanDisk (state_in S.Store tx.new)
        → OnOk result (StoresReply (state_in S.Store tx.old) (state_in S.Store tx.new) keep.entry) }
    ensures fault { HasCleanDisk (state_in S.Store tx.new)
        → IfErr result (IsFaultOfReply (state_in S.Store tx.old) (state_in S.Store tx.new) keep.entry) }
{
    match keep {
        None => Ok(()),
        Some(keep) => keep_row(
            tx,
            keep.key.as_str(),
            keep.command_text(),
            u32::from(keep.reply.status()),
            keep.reply.body(),
        ),
    }
}
