//! The check of `meta`, which names the format and the layout.

ghost use Rattle.std.specs.Prelude.{◌≡◌, ◌↔◌, ◌⊎◌, [], map, IfOk, IfErr, IsErrAnd, IsTrue};
ghost use Rattle.sqlite.specs.State.{HasCleanDisk};
ghost use Rattle.reg_tables.specs.Frames.{ReadsInAutocommit};
ghost use Rattle.reg_store.specs.Failures.{HasDiskCause, IsFaultBy};
ghost use Rattle.reg_store.specs.Opening.{meta_columns, HasMetaNumberOf, ReportsOther};
ghost use Rattle.reg_rows.specs.Spelling.{meta_pair};
ghost use Rattle.reg_store.specs.Inside.TableChecks.{RequiresLayout, AreDistinct, number_of, is_meta_of, JudgesMeta, SpellsAs, ChecksBaseTables, MetaPass};
ghost use Rattle.reg_store.specs.Inside.Reads.{shown};

use crate::conn::Conn;
use crate::error::StoreError;
use crate::layout::Layout;
use crate::open_connection::require_open;
use crate::rowids::are_distinct;
use crate::table_checks::{CheckedRow, require, rowids_of};
use reg_rows::{is_layout_one_meta, is_layout_two_meta, layout_of};
use reg_tables::{RawMeta, raw_meta};
use sqlite::Alter;
use std::alloc::{AllocError, Global};

impl CheckedRow for RawMeta {
    ghost rowid_of = { λ line. line.rowid };

    // `is_meta_of` checks the rows of `meta` together.
    ghost fits_table = { λ _. Unit {0} };

    fn rowid(&self) -> i64 {
        self.rowid
    }

    fn fits(&self) -> bool {
        true
    }
}

fn number_of(layout: Layout) -> u32
    ensures { result ≡ number_of layout }
{
    match layout {
        Layout::One => 1,
        Layout::Two => 2,
    }
}

fn is_meta_of(rows: &[(String, String)], layout: Layout) -> bool
    ensures { result ≡ is_meta_of layout (map meta_pair rows.now) }
{
    match layout {
        Layout::One => is_layout_one_meta(rows),
        Layout::Two => is_layout_two_meta(rows),
    }
}

fn meta_rows(alloc: Global, lines: Vec<RawMeta>) -> Result<Vec<(String, String)>, AllocError>
    ensures { IfOk result (λ rows. rows.items ≡ map meta_columns lines.items) }
{
    let mut rows = Vec::new(alloc);
    for line in lines {
        rows.push((line.name, line.value))?;
    }
    Ok(rows)
}

/// Whether these are the rows of `meta` of a registry, with distinct rowids.
fn pass_meta(rows: &[(String, String)], rowids: &mut [i64], layout: Layout) -> bool
    ensures { IsTrue result ↔ (AreDistinct rowids.old × IsTrue (is_meta_of layout (map meta_pair rows.now))) }
{
    is_meta_of(rows, layout) && are_distinct(rowids)
}

/// `OldLayout` or `NewerLayout` if `meta` names a layout below or above `own`. Otherwise
/// `NotARegistry` if the rows don't pass.
fn require_layout(own: u32, named: Option<u32>, passes: bool) -> Result<(), StoreError>
    ensures { RequiresLayout own named passes result }
{
    match named {
        Some(number) if number < own => Err(StoreError::OldLayout(number)),
        Some(number) if number > own => Err(StoreError::NewerLayout(number)),
        _ => require(passes),
    }
}

fn judge_meta(alloc: Global, lines: Vec<RawMeta>, layout: Layout) -> Result<(), StoreError>
    ensures { JudgesMeta layout lines.items result }
{
    let mut rowids = rowids_of(alloc, &lines)?;
    let rows = meta_rows(alloc, lines)?;
    let passes = pass_meta(&rows, &mut rowids, layout);
    require_layout(number_of(layout), layout_of(&rows), passes)
}

/// Whether the database has no view.
fn has_no_views<S: Alter>(db: &Conn<S>) -> bool
    ensures { IsTrue result ↔ ((shown db.now).now.schema.views ≡ []) }
{
    db.idle.conn.schema().views.as_slice().is_empty()
}

/// Always fails: with `Memory` or `Disk` if the connection is closed or a fault occurs, otherwise
/// with `NotARegistry`.
fn reject<S: Alter>(db: &mut Conn<S>) -> Result<(), StoreError>
    ensures frame { ReadsInAutocommit S.Store db.old.idle.conn db.new.idle.conn result }
    ensures fails { IsErrAnd result (λ e. HasCleanDisk (shown db.new)
        → IsFaultBy (shown db.old) (shown db.new) e ⊎ ((e ≡ StoreError.NotARegistry) × IsTrue (shown db.old).is_open)) }
{
    require_open(db)?;
    Err(StoreError::NotARegistry)
}

/// Reads and checks `meta`: first the format, then the layout, then the other rows. If the database
/// has a view, it is rejected without a read: `meta` may be a view that never ends, and no layout
/// has views.
pub(crate) fn check_meta<S: Alter>(
    alloc: Global,
    db: &mut Conn<S>,
    layout: Layout,
) -> Result<(), StoreError>
    ensures tests { ChecksBaseTables (SpellsAs layout) db.old db.new result (λ _. MetaPass layout) }
    ensures disk_cause { HasCleanDisk (shown db.new) → IfErr result (HasDiskCause (shown db.old) (shown db.new)) }
    ensures meta_number { HasCleanDisk (shown db.new)
        → IfErr result (HasMetaNumberOf (number_of layout) (shown db.old).now) }
    ensures other { HasCleanDisk (shown db.new)
        → IfErr result (ReportsOther (number_of layout) (shown db.old)) }
{
    if !has_no_views(db) {
        return reject(db);
    }
    let lines = raw_meta(alloc, &mut db.idle)?;
    judge_meta(alloc, lines, layout)
}
