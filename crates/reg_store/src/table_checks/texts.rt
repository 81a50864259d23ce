//! The check of `texts`, which keeps a few texts in memory at a time.

ghost use Rattle.std.specs.Prelude.{◌↔◌, ◌≤◌, IfOk, IfErr, IsTrue};
ghost use Rattle.std.specs.List.{AllByRecursion};
ghost use Rattle.reg_tables.specs.Listings.{ListsTexts, ListsTextsBetween};
ghost use Rattle.reg_tables.specs.Reads.{HoldsReadable};
ghost use Rattle.reg_core.specs.Registry.{max_number};
ghost use Rattle.reg_store.specs.Failures.{HasNoLayoutNumber};
ghost use Rattle.reg_store.specs.Inside.TableChecks.{text_fits, Judges, NumbersTexts, ChecksBaseTables, ChecksSpelledBase, TextsPass};

use crate::conn::Conn;
use crate::error::StoreError;
use crate::table_checks::require;
use reg_core::OutOfMemory;
use reg_rows::{are_consecutive_ids, is_identity};
use reg_tables::{RawText, text_ids, texts_between};
use sqlite::Alter;
use std::alloc::Global;

/// The number of texts in memory at a time. A valid text has at most 1 MiB.
const TEXTS_AT_ONCE: u32 = 16;

/// Whether each row has the identity text of a schema.
fn are_identities(alloc: Global, lines: &[RawText]) -> Result<bool, OutOfMemory>
    ensures { IfOk result (λ yes. IsTrue yes ↔ AllByRecursion text_fits lines.now) }
{
    for line in lines {
        if !is_identity(alloc, line.text.as_str())? {
            return Ok(false);
        }
    }
    Ok(true)
}

/// The number of texts, if their ids are the numbers from 1 on; otherwise `NotARegistry`.
fn count_texts<S: Alter>(alloc: Global, db: &mut Conn<S>) -> Result<u32, StoreError>
    ensures tests { ChecksSpelledBase db.old db.new result (λ count db. NumbersTexts db count) }
    ensures few { IfOk result (λ count. count ≤ max_number) }
    ensures plain { IfErr result HasNoLayoutNumber }
{
    let mut ids = text_ids(alloc, &mut db.idle)?;
    ids.sort_unstable();
    require(are_consecutive_ids(&ids))?;
    Ok(ids.len() as u32)
}

/// Reads the texts of the ids from `first` to `last`, and returns whether each is the identity text
/// of a schema.
fn judge_some<S: Alter>(
    alloc: Global,
    db: &mut Conn<S>,
    first: u32,
    last: u32,
) -> Result<bool, StoreError>
    ensures tests { ChecksBaseTables HoldsReadable db.old db.new
        result (λ fit db. Judges (ListsTextsBetween first last db) fit) }
    ensures plain { IfErr result HasNoLayoutNumber }
{
    let lines = texts_between(alloc, &mut db.idle, first, last)?;
    Ok(are_identities(alloc, &lines)?)
}

/// Reads all texts in chunks, and returns whether each is the identity text of a schema. Their ids
/// must be the numbers from 1 to `count`.
fn judge_all<S: Alter>(alloc: Global, db: &mut Conn<S>, count: u32) -> Result<bool, StoreError>
    requires few { count ≤ max_number }
    ensures tests { ChecksBaseTables HoldsReadable db.old db.new
        result (λ fit db. NumbersTexts db count → Judges (ListsTexts db) fit) }
    ensures plain { IfErr result HasNoLayoutNumber }
{
    let _idle = db.idle.conn.is_autocommit();
    let mut fit = true;
    for chunk in 0..count / TEXTS_AT_ONCE + 1 {
        let before = chunk * TEXTS_AT_ONCE;
        let some = judge_some(alloc, db, before + 1, before + TEXTS_AT_ONCE)?;
        fit = fit && some;
    }
    Ok(fit)
}

/// Checks the rows of `texts`; `NotARegistry` if a check fails. The ids must be 1, 2, .. up to at most
/// 2,147,483,647. Each text must be the identity text of a schema.
pub(crate) fn check_texts<S: Alter>(alloc: Global, db: &mut Conn<S>) -> Result<(), StoreError>
    ensures tests { ChecksSpelledBase db.old db.new result (λ _. TextsPass) }
    ensures plain { IfErr result HasNoLayoutNumber }
{
    let _idle = db.idle.conn.is_autocommit();
    let count = count_texts(alloc, db)?;
    require(judge_all(alloc, db, count)?)
}
