//! The check of the tables that layout 2 adds.

ghost use Rattle.std.specs.Prelude.{◌≡◌, ◌↔◌, ◌<◌, ◌++◌, ℤ, List, map, length, IfOk, IfErr, OnOk, IsTrue};
ghost use Rattle.std.specs.List.{AllByRecursion};
ghost use Rattle.reg_tables.specs.Listings.{ListsEvidence, HasAgainstRows, greatest_integer};
ghost use Rattle.reg_rows.specs.Positions.{position_view};
ghost use Rattle.reg_store.specs.Failures.{HasNoLayoutNumber};
ghost use Rattle.reg_store.specs.Inside.TableChecks.{AreDistinct, mode_fits, evidence_fits, against_fits, version_at, position_at, ArePositionsContiguous, rowids_in, JudgesVersion, JudgesIds, ModesPass, EvidenceTablesPass, AddedTablesPass, ChecksAllTables};

use crate::conn::Conn;
use crate::error::StoreError;
use crate::rowids::are_distinct;
use crate::table_checks::{CheckedRow, all_fit, pass, require};
use reg_rows::{are_contiguous, fits_modes, is_level_name};
use reg_tables::{
    RawAgainst, RawEvidence, RawMode, against_count, against_of, raw_evidence, raw_modes,
};
use sqlite::Alter;
use std::alloc::{AllocError, Global};

/// The greatest count that SQLite returns; there may be more rows.
const MAX_COUNT: u64 = 9_223_372_036_854_775_807;

impl CheckedRow for RawMode {
    ghost rowid_of = { λ line. line.rowid };

    ghost fits_table = { mode_fits };

    fn rowid(&self) -> i64 {
        self.rowid
    }

    fn fits(&self) -> bool {
        fits_modes(self.subject.as_str(), self.mode.as_str())
    }
}

impl CheckedRow for RawEvidence {
    ghost rowid_of = { λ line. line.rowid };

    ghost fits_table = { evidence_fits };

    fn rowid(&self) -> i64 {
        self.rowid
    }

    fn fits(&self) -> bool {
        is_level_name(self.level.as_str())
    }
}

impl CheckedRow for RawAgainst {
    ghost rowid_of = { λ line. line.rowid };

    // The positions are checked for the rows of a version together (`are_positions_contiguous`).
    ghost fits_table = { against_fits };

    fn rowid(&self) -> i64 {
        self.rowid
    }

    // Always true. The comparison gives the proof the bound that `against_fits` asks for.
    fn fits(&self) -> bool {
        self.position <= u32::MAX
    }
}

fn check_modes<S: Alter>(alloc: Global, db: &mut Conn<S>) -> Result<(), StoreError>
    ensures tests { ChecksAllTables db.old db.new result (λ _. ModesPass) }
    ensures plain { IfErr result HasNoLayoutNumber }
{
    let lines = raw_modes(alloc, &mut db.idle)?;
    require(pass(alloc, &lines)?)
}

fn read_evidence<S: Alter>(alloc: Global, db: &mut Conn<S>) -> Result<Vec<RawEvidence>, StoreError>
    ensures tests { ChecksAllTables db.old db.new result (λ lines db. ListsEvidence db lines.items) }
    ensures plain { IfErr result HasNoLayoutNumber }
{
    let lines = raw_evidence(alloc, &mut db.idle)?;
    Ok(lines)
}

/// The subject, the version's number and the position of each row.
fn positions_in<'a>(
    alloc: Global,
    lines: &'a [RawAgainst],
) -> Result<Vec<(&'a str, u32, u32)>, AllocError>
    ensures { IfOk result (λ positions. map position_view positions.items ≡ map position_at lines.now) }
{
    let mut positions = Vec::new(alloc);
    for line in lines {
        positions.push((line.subject.as_str(), line.version, line.position))?;
    }
    Ok(positions)
}

/// Whether the positions of a version's ids are 1, 2, and so on without a gap, in any order. One may
/// occur twice.
fn are_positions_contiguous(alloc: Global, lines: &[RawAgainst]) -> Result<bool, AllocError>
    ensures { IfOk result (λ yes. IsTrue yes ↔ ArePositionsContiguous lines.now) }
{
    if !all_fit(lines) {
        return Ok(false);
    }
    let positions = positions_in(alloc, lines)?;
    Ok(are_contiguous(positions))
}

fn add_rowids(rowids: &mut Vec<i64>, lines: &[RawAgainst]) -> Result<(), AllocError>
    ensures { OnOk result (rowids.new.items ≡ rowids.old.items ++ rowids_in lines.now) }
{
    for line in lines {
        rowids.push(line.rowid)?;
    }
    Ok(())
}

/// Reads a version's rows of `against`, appends their rowids, and returns whether their positions
/// are 1, 2, and so on.
fn judge_version<S: Alter>(
    alloc: Global,
    db: &mut Conn<S>,
    evidence_row: &RawEvidence,
    rowids: &mut Vec<i64>,
) -> Result<bool, StoreError>
    ensures tests { ChecksAllTables db.old db.new result
        (λ fit db. (added : List ℤ) × (rowids.new.items ≡ rowids.old.items ++ added)
        × JudgesVersion (version_at evidence_row.now) db added fit) }
    ensures plain { IfErr result HasNoLayoutNumber }
{
    let lines = against_of(
        alloc,
        &mut db.idle,
        evidence_row.subject.as_str(),
        evidence_row.version,
    )?;
    add_rowids(rowids, &lines)?;
    Ok(are_positions_contiguous(alloc, &lines)?)
}

/// The number of rows of `against`, at most `MAX_COUNT`.
fn count_against<S: Alter>(db: &mut Conn<S>) -> Result<u64, StoreError>
    ensures tests { ChecksAllTables db.old db.new result (λ count db. HasAgainstRows db count) }
    ensures plain { IfErr result HasNoLayoutNumber }
{
    let count = against_count(&mut db.idle)?;
    Ok(count)
}

/// What `read_ids` found in `against`.
#[derive(Drop)]
struct Ids {
    /// The rowids of the ids of all versions with evidence.
    rowids: Vec<i64>,
    /// Whether the positions of each of these versions are 1, 2, and so on without a gap.
    fit: bool,
    /// The number of rows, at most `MAX_COUNT`.
    count: u64,
}

/// Reads the ids of each version with evidence, one version at a time, and counts the rows of
/// `against`.
fn read_ids<S: Alter>(
    alloc: Global,
    db: &mut Conn<S>,
    evidence: &[RawEvidence],
) -> Result<Ids, StoreError>
    ensures tests { ChecksAllTables db.old db.new result
        (λ ids db. JudgesIds (map version_at evidence.now) db ids.rowids.items ids.fit ids.count) }
    ensures plain { IfErr result HasNoLayoutNumber }
{
    let _idle = db.idle.conn.is_autocommit();
    let mut rowids = Vec::new(alloc);
    let mut fit = true;
    for version in evidence {
        let some = judge_version(alloc, db, version, &mut rowids)?;
        fit = fit && some;
    }
    let count = count_against(db)?;
    Ok(Ids { rowids, fit, count })
}

/// Whether the numbers are distinct, and `count` is their number.
fn are_all(numbers: Vec<i64>, count: u64) -> bool
    ensures { IsTrue result ↔ ((length numbers.items ≡ count) × AreDistinct numbers.items) }
{
    let mut sorted = numbers;
    sorted.len() as u64 == count && are_distinct(&mut sorted)
}

/// Whether the rows of `evidence` and all rows of `against` are valid. From `MAX_COUNT` rowids on,
/// the result is `AllocError`: `ids.count` could be too low, and no memory holds so many.
fn pass_evidence(alloc: Global, evidence: &[RawEvidence], ids: Ids) -> Result<bool, AllocError>
    ensures few { OnOk result (length ids.rowids.items < greatest_integer) }
    ensures passes { IfOk result (λ yes. IsTrue yes ↔ (IsTrue ids.fit
        × (AreDistinct (map (λ line. line.rowid) evidence.now) × AllByRecursion evidence_fits evidence.now)
        × (length ids.rowids.items ≡ ids.count) × AreDistinct ids.rowids.items)) }
{
    if ids.rowids.len() as u64 >= MAX_COUNT {
        return Err(AllocError);
    }
    if !ids.fit {
        return Ok(false);
    }
    if !pass(alloc, evidence)? {
        return Ok(false);
    }
    Ok(are_all(ids.rowids, ids.count))
}

fn check_evidence<S: Alter>(alloc: Global, db: &mut Conn<S>) -> Result<(), StoreError>
    ensures tests { ChecksAllTables db.old db.new result (λ _. EvidenceTablesPass) }
    ensures plain { IfErr result HasNoLayoutNumber }
{
    let _idle = db.idle.conn.is_autocommit();
    let evidence = read_evidence(alloc, db)?;
    let ids = read_ids(alloc, db, &evidence)?;
    require(pass_evidence(alloc, &evidence, ids)?)
}

pub(crate) fn check_added<S: Alter>(alloc: Global, db: &mut Conn<S>) -> Result<(), StoreError>
    ensures tests { ChecksAllTables db.old db.new result (λ _. AddedTablesPass) }
    ensures plain { IfErr result HasNoLayoutNumber }
{
    let _idle = db.idle.conn.is_autocommit();
    check_modes(alloc, db)?;
    check_evidence(alloc, db)
}
