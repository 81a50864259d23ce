//! The checks of the tables before a store is opened over them. Each table is read, checked and
//! freed before the next, but `evidence` and `against` are checked together.

ghost use Rattle.std.specs.Prelude.{◌≡◌, ◌↔◌, ℤ, map, IfOk, IfErr, OnOk, IsTrue, false};
ghost use Rattle.std.specs.List.{AllByRecursion};
ghost use Rattle.sqlite.specs.State.{HasCleanDisk};
ghost use Rattle.reg_tables.specs.Layout.{IsOpenable};
ghost use Rattle.reg_store.specs.Failures.{HasNoLayoutNumber, HasDiskCause};
ghost use Rattle.reg_store.specs.Opening.{HasVersionRows, FindsLayoutOne, HasMetaNumberOf, ReportsOther, HasMetaNumber, ReportsLayout};
ghost use Rattle.reg_store.specs.Inside.TableChecks.{AreDistinct, version_fits, level_fits, kept_fits, SpellsAs, ChecksBaseTables, ChecksSpelledBase, ChecksAllTables, VersionsPass, LevelsPass, KeptPass, RestPasses, BaseTablesPass, AddedTablesPass, AllTablesPass};
ghost use Rattle.reg_store.specs.Inside.Reads.{shown};

mod added;
mod meta;
mod texts;

use crate::conn::Conn;
use crate::error::StoreError;
use crate::layout::Layout;
use crate::rowids::are_distinct;
use crate::table_checks::added::check_added;
use crate::table_checks::meta::check_meta;
use crate::table_checks::texts::check_texts;
use reg_rows::{fits_kept, fits_levels, fits_versions};
use reg_tables::{
    RawKept, RawLevel, RawVersion, has_layout_one, has_layout_two, is_unindexed_one,
    is_unindexed_two, raw_kept, raw_levels, raw_versions,
};
use sqlite::Alter;
use std::alloc::{AllocError, Global};

/// A row of a table, with a check of its columns.
trait CheckedRow {
    ghost rowid_of: { Self → ℤ };

    ghost fits_table: { Self → Type 0 };

    fn rowid(&self) -> i64
        ensures { result ≡ rowid_of self.now };

    fn fits(&self) -> bool
        ensures { IsTrue result ↔ fits_table self.now };
}

impl CheckedRow for RawVersion {
    ghost rowid_of = { λ line. line.rowid };

    ghost fits_table = { version_fits };

    fn rowid(&self) -> i64 {
        self.rowid
    }

    fn fits(&self) -> bool {
        fits_versions(self.subject.as_str(), self.version)
    }
}

impl CheckedRow for RawLevel {
    ghost rowid_of = { λ line. line.rowid };

    ghost fits_table = { level_fits };

    fn rowid(&self) -> i64 {
        self.rowid
    }

    fn fits(&self) -> bool {
        fits_levels(self.subject.as_str(), self.level.as_str())
    }
}

impl CheckedRow for RawKept {
    ghost rowid_of = { λ line. line.rowid };

    ghost fits_table = { kept_fits };

    fn rowid(&self) -> i64 {
        self.rowid
    }

    fn fits(&self) -> bool {
        fits_kept(self.key.as_str(), self.reply.status)
    }
}

fn all_fit<L: CheckedRow>(lines: &[L]) -> bool
    ensures { IsTrue result ↔ AllByRecursion L.fits_table lines.now }
{
    for line in lines {
        if !line.fits() {
            return false;
        }
    }
    true
}

fn rowids_of<L: CheckedRow>(alloc: Global, lines: &[L]) -> Result<Vec<i64>, AllocError>
    ensures { IfOk result (λ rowids. rowids.items ≡ map L.rowid_of lines.now) }
{
    let mut rowids = Vec::new(alloc);
    for line in lines {
        rowids.push(line.rowid())?;
    }
    Ok(rowids)
}

/// Whether each row is valid, and the rowids are distinct.
fn pass<L: CheckedRow>(alloc: Global, lines: &[L]) -> Result<bool, AllocError>
    ensures { IfOk result (λ yes. IsTrue yes ↔ (AreDistinct (map L.rowid_of lines.now)
        × AllByRecursion L.fits_table lines.now)) }
{
    if !all_fit(lines) {
        return Ok(false);
    }
    let mut rowids = rowids_of(alloc, lines)?;
    Ok(are_distinct(&mut rowids))
}

/// `Ok` if the check passed, else `NotARegistry`.
fn require(passes: bool) -> Result<(), StoreError>
    ensures ok { OnOk result (IsTrue passes) }
    ensures err { IfErr result (λ e. (e ≡ StoreError.NotARegistry) × (passes ≡ false)) }
{
    if passes {
        Ok(())
    } else {
        Err(StoreError::NotARegistry)
    }
}

/// Reads and checks `versions`, and returns its number of rows.
fn check_versions<S: Alter>(alloc: Global, db: &mut Conn<S>) -> Result<u64, StoreError>
    ensures tests { ChecksSpelledBase db.old db.new result (λ count db. VersionsPass db × HasVersionRows db count) }
    ensures plain { IfErr result HasNoLayoutNumber }
{
    let lines = raw_versions(alloc, &mut db.idle)?;
    require(pass(alloc, &lines)?)?;
    Ok(lines.len() as u64)
}

fn check_levels<S: Alter>(alloc: Global, db: &mut Conn<S>) -> Result<(), StoreError>
    ensures tests { ChecksSpelledBase db.old db.new result (λ _. LevelsPass) }
    ensures plain { IfErr result HasNoLayoutNumber }
{
    let lines = raw_levels(alloc, &mut db.idle)?;
    require(pass(alloc, &lines)?)
}

fn check_kept<S: Alter>(alloc: Global, db: &mut Conn<S>) -> Result<(), StoreError>
    ensures tests { ChecksSpelledBase db.old db.new result (λ _. KeptPass) }
    ensures plain { IfErr result HasNoLayoutNumber }
{
    let lines = raw_kept(alloc, &mut db.idle)?;
    require(pass(alloc, &lines)?)
}

/// Reads and checks `versions`, `texts`, `levels` and `kept`, which both layouts have. Returns the
/// number of rows of `versions`.
fn check_rest<S: Alter>(alloc: Global, db: &mut Conn<S>) -> Result<u64, StoreError>
    ensures tests { ChecksSpelledBase db.old db.new result (λ count db. RestPasses db × HasVersionRows db count) }
    ensures plain { IfErr result HasNoLayoutNumber }
{
    let _idle = db.idle.conn.is_autocommit();
    let count = check_versions(alloc, db)?;
    check_texts(alloc, db)?;
    check_levels(alloc, db)?;
    check_kept(alloc, db)?;
    Ok(count)
}

/// Checks the tables of layout 1, with or without the index, and returns the number of rows of
/// `versions`. The rows of `meta` are checked first, then the declarations of all tables, then the
/// other rows.
pub(crate) fn check_layout_one<S: Alter>(alloc: Global, db: &mut Conn<S>) -> Result<u64, StoreError>
    ensures tests { ChecksBaseTables (SpellsAs Layout.One) db.old db.new result
        (λ count db. BaseTablesPass Layout.One db × HasVersionRows db count) }
    ensures found { HasCleanDisk (shown db.new) → IfOk result (FindsLayoutOne (shown db.old).now) }
    ensures disk_cause { HasCleanDisk (shown db.new) → IfErr result (HasDiskCause (shown db.old) (shown db.new)) }
    ensures meta_number { HasCleanDisk (shown db.new) → IfErr result (HasMetaNumberOf 1 (shown db.old).now) }
    ensures other { HasCleanDisk (shown db.new) → IfErr result (ReportsOther 1 (shown db.old)) }
{
    let _live = db.idle.conn.schema();
    let _idle = db.idle.conn.is_autocommit();
    let known = has_layout_one(&db.idle.conn) || is_unindexed_one(&db.idle.conn);
    check_meta(alloc, db, Layout::One)?;
    require(known)?;
    check_rest(alloc, db)
}

/// Checks the tables of layout 2, with or without the index. The rows of `meta` are checked first,
/// then the declarations of all tables, then the other rows.
pub(crate) fn check_layout_two<S: Alter>(alloc: Global, db: &mut Conn<S>) -> Result<(), StoreError>
    ensures tests { ChecksAllTables db.old db.new result (λ _. AllTablesPass) }
    ensures known { OnOk result (IsOpenable (shown db.old).now.schema) }
    ensures disk_cause { HasCleanDisk (shown db.new) → IfErr result (HasDiskCause (shown db.old) (shown db.new)) }
    ensures meta_number { HasCleanDisk (shown db.new) → IfErr result (HasMetaNumber (shown db.old).now) }
    ensures other { HasCleanDisk (shown db.new) → IfErr result (ReportsLayout (shown db.old)) }
{
    let _idle = db.idle.conn.is_autocommit();
    let known = has_layout_two(&db.idle.conn) || is_unindexed_two(&db.idle.conn);
    check_meta(alloc, db, Layout::Two)?;
    require(known)?;
    check_all(alloc, db)
}

/// Reads and checks all tables of layout 2 except `meta`.
fn check_all<S: Alter>(alloc: Global, db: &mut Conn<S>) -> Result<(), StoreError>
    ensures tests { ChecksAllTables db.old db.new result (λ _ db. RestPasses db × AddedTablesPass db) }
    ensures plain { IfErr result HasNoLayoutNumber }
{
    let _idle = db.idle.conn.is_autocommit();
    check_rest(alloc, db)?;
    check_added(alloc, db)
}
