//! The rows of all tables.

ghost use Rattle.std.specs.Prelude.{◌≡◌, ◌⊎◌, ◌↔◌, IfOk, IsTrue, map};
ghost use Rattle.reg_rows.specs.Positions.{HaveEvidence, AreContiguous, version_view, position_view};
ghost use Rattle.reg_rows.specs.Spelling.{FitsBase, FitsLayoutOne, FitsLayoutTwo, IsSpelling, version_of, version_position, rows_in};

use crate::meta::{is_layout_one_meta, is_layout_two_meta};
use crate::positions::{are_contiguous, have_evidence};
use crate::rows::{
    are_evidence_rows, are_kept_rows, are_level_rows, are_mode_rows, are_version_rows,
};
use crate::texts::are_texts;
use reg_core::OutOfMemory;
use std::alloc::{AllocError, Global};

/// The rows of the eight tables of layout 2. The rows of `texts` are in the order of their ids, all
/// others in any order. In layout 1, `modes`, `evidence` and `against` are empty.
#[derive(Debug, Drop)]
pub struct Tables {
    /// An id, and the identity text of its schema.
    pub texts: Vec<(u32, String)>,
    /// A subject, a version's number, the id of its schema, and whether it is soft-deleted.
    pub versions: Vec<(String, u32, u32, bool)>,
    /// A subject, and its own level.
    pub levels: Vec<(String, String)>,
    /// A retry key, its command's text, and the status and the body of its reply.
    pub kept: Vec<(String, String, u32, String)>,
    /// A name, and its value.
    pub meta: Vec<(String, String)>,
    /// A subject, and its own mode.
    pub modes: Vec<(String, String)>,
    /// A subject, a version's number, and the level that it was checked under.
    pub evidence: Vec<(String, u32, String)>,
    /// A subject, a version's number, a position, and the id at this position, which the version
    /// was checked against.
    pub against: Vec<(String, u32, u32, u32)>,
}

/// Whether `meta` and the three tables that layout 2 adds fit layout 1.
fn fits_layout_one(tables: &Tables) -> bool
    ensures { IsTrue result ↔ FitsLayoutOne (rows_in tables.now) }
{
    is_layout_one_meta(&tables.meta)
        && tables.modes.is_empty()
        && tables.evidence.is_empty()
        && tables.against.is_empty()
}

/// The version (subject and number) of each row of `evidence`, in order.
fn versions_with_evidence(
    alloc: Global,
    evidence: &[(String, u32, String)],
) -> Result<Vec<(&str, u32)>, AllocError>
    ensures { IfOk result (λ v. map version_view v.items ≡ map version_of evidence.now) }
{
    let mut versions = Vec::with_capacity(alloc, evidence.len())?;
    for row in evidence {
        versions.push((row.0.as_str(), row.1))?;
    }
    Ok(versions)
}

fn positions_of(
    alloc: Global,
    rows: &[(String, u32, u32, u32)],
) -> Result<Vec<(&str, u32, u32)>, AllocError>
    ensures { IfOk result (λ v. map position_view v.items ≡ map version_position rows.now) }
{
    let mut positions = Vec::with_capacity(alloc, rows.len())?;
    for row in rows {
        positions.push((row.0.as_str(), row.1, row.2))?;
    }
    Ok(positions)
}

/// Whether each version in `against` has a row of `evidence`, and its positions are 1, 2, ..
/// without a gap, in any order. Duplicates aren't detected.
fn fits_against(
    alloc: Global,
    evidence: &[(String, u32, String)],
    against: &[(String, u32, u32, u32)],
) -> Result<bool, AllocError>
    ensures { IfOk result (λ yes. IsTrue yes
        ↔ (HaveEvidence (map version_of evidence.now) (map version_position against.now)
        × AreContiguous (map version_position against.now))) }
{
    let versions = versions_with_evidence(alloc, evidence)?;
    let positions = positions_of(alloc, against)?;
    Ok(have_evidence(versions, &positions) && are_contiguous(positions))
}

/// Whether `meta` and the three tables that layout 2 adds fit layout 2.
fn fits_layout_two(alloc: Global, tables: &Tables) -> Result<bool, AllocError>
    ensures { IfOk result (λ yes. IsTrue yes ↔ FitsLayoutTwo (rows_in tables.now)) }
{
    if !is_layout_two_meta(&tables.meta)
        || !are_mode_rows(&tables.modes)
        || !are_evidence_rows(&tables.evidence)
    {
        return Ok(false);
    }
    fits_against(alloc, &tables.evidence, &tables.against)
}

/// Whether `meta` and the three tables that layout 2 adds fit layout 1 or layout 2.
fn fits_layout(alloc: Global, tables: &Tables) -> Result<bool, AllocError>
    ensures { IfOk result (λ yes. IsTrue yes
        ↔ (FitsLayoutOne (rows_in tables.now) ⊎ FitsLayoutTwo (rows_in tables.now))) }
{
    if fits_layout_one(tables) {
        return Ok(true);
    }
    fits_layout_two(alloc, tables)
}

/// Whether the tables with the same rules in both layouts are valid: `texts`, `versions`, `levels`
/// and `kept`.
fn fits_base(alloc: Global, tables: &Tables) -> Result<bool, OutOfMemory>
    ensures { IfOk result (λ yes. IsTrue yes ↔ FitsBase (rows_in tables.now)) }
{
    if !are_version_rows(&tables.versions)
        || !are_level_rows(&tables.levels)
        || !are_kept_rows(&tables.kept)
    {
        return Ok(false);
    }
    are_texts(alloc, &tables.texts)
}

/// Whether the rows spell a registry and its kept replies, in layout 1 or layout 2.
///
/// What the tables themselves enforce isn't tested: keys and texts are unique, each id belongs to a
/// text, and each row of `evidence` and `against` has its version.
///
/// # Errors
///
/// `OutOfMemory` if an allocation fails.
pub fn spells(alloc: Global, tables: &Tables) -> Result<bool, OutOfMemory>
    ensures { IfOk result (λ yes. IsTrue yes ↔ IsSpelling (rows_in tables.now)) }
{
    if !fits_layout(alloc, tables)? {
        return Ok(false);
    }
    fits_base(alloc, tables)
}
