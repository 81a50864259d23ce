//! Two passes over all pairs of places, row by row. The first compares the two nodes by themselves.
//! The second checks the pairs that a pair depends on, with the row's fields in the slots.

ghost use Rattle.std.specs.Prelude.{◌<◌, ◌≡◌, false, length, slice_get, IfOk, OnOk, Some, ℕ};
ghost use Rattle.avro_nodes.specs.Nodes.{NodeView};
ghost use Rattle.avro_resolve.specs.Inside.Referrers.{HasBranch};
ghost use Rattle.avro_resolve.specs.Inside.Remaining.{remains, AreStillSupported, IsRemainder, IsAgreedRemainder, HasAgreedRemainder, IsRowStillSupported, IsStillSupported, Eliminates};
ghost use Rattle.avro_resolve.specs.Inside.Rows.{IsWriterPlace};
ghost use Rattle.avro_resolve.specs.Inside.Schemas.{columns, rows, IsValidSchemaPair};
ghost use Rattle.avro_resolve.specs.Inside.Sources.{AreSources};
ghost use Rattle.avro_resolve.specs.Resolution.{Supports};

use crate::AllocResult;
use crate::agreeing::{agree_at, clear_numbers, mapped_symbols, number_symbols, ranks_or_empty};
use crate::field_slots::{clear_slots, fill_slots};
use crate::readable::{
    Aliased, AliasedFields, WriterPlace, firsts_of, reader_fields_of, source_entries,
};
use crate::schemas::SchemaPair;
use crate::support::supports;
use crate::table::Table;
use avro_nodes::Node;
use std::alloc::Global;

/// The state of the elimination.
#[derive(Drop)]
pub struct Progress {
    /// the remaining pairs
    pub table: Table,
    /// the worklist: eliminated pairs that aren't propagated to their dependents yet
    pub eliminated: Vec<(u16, u16)>,
}

/// If the pair remains, eliminates it and puts it on the worklist. The remaining pairs must not
/// support it.
pub fn eliminate_pair(
    schemas: &SchemaPair,
    i: u32,
    j: u32,
    progress: &mut Progress,
) -> AllocResult<()>
    requires rest { HasAgreedRemainder schemas.now progress.old }
    requires i_in { i < length schemas.now.writer.schema.now }
    requires j_in { j < length schemas.now.reader.schema.now }
    requires unsupported { Supports (rows schemas.now) (columns schemas.now) (remains progress.old.table) i j → ⊥ }
    ensures eliminates { OnOk result (Eliminates schemas.now progress.old progress.new) }
    ensures still_supported { OnOk result (IsStillSupported schemas.now progress.new i j) }
    ensures gone { OnOk result (remains progress.new.table i j ≡ false) }
{
    if !progress.table.has(i, j) {
        return Ok(());
    }
    progress.table.eliminate(i, j);
    progress.eliminated.push((i as u16, j as u16))?;
    Ok(())
}

/// Eliminates all pairs whose nodes disagree.
pub fn eliminate_disagreeing(
    alloc: Global,
    schemas: &SchemaPair,
    table: &mut Table,
) -> AllocResult<()>
    requires schemas { IsValidSchemaPair schemas.now }
    requires rest { IsRemainder (rows schemas.now) (columns schemas.now) table.old }
    ensures { OnOk result (IsAgreedRemainder (rows schemas.now) (columns schemas.now) table.new) }
{
    let mut made = vec![in alloc; 0usize; schemas.reader.index.names.len()]?;
    let slots = made.as_mut_slice();
    for i in 0..schemas.writer.places() {
        let symbols = mapped_symbols(alloc, schemas, i)?;
        let ranks = ranks_or_empty(&symbols);
        number_symbols(slots, ranks);
        for j in 0..schemas.reader.places() {
            if !table.has(i, j) || agree_at(schemas, &symbols, slots, i, j) {
                continue;
            }
            table.eliminate(i, j);
        }
        clear_numbers(slots, ranks);
    }
    Ok(())
}

/// For each of the reader's places: if its pair with this branch was eliminated, eliminates its
/// pair with the writer's union.
pub fn eliminate_by_branch(
    schemas: &SchemaPair,
    union: u32,
    branch: u32,
    progress: &mut Progress,
) -> AllocResult<()>
    requires rest { HasAgreedRemainder schemas.now progress.old }
    requires union_in { union < length schemas.now.writer.schema.now }
    requires branch_in { branch < length schemas.now.writer.schema.now }
    requires meant { (a : NodeView) → slice_get (rows schemas.now) union ≡ Some a → HasBranch a branch }
    ensures eliminates { OnOk result (Eliminates schemas.now progress.old progress.new) }
    ensures gone { OnOk result ((j : ℕ) → remains progress.old.table branch j ≡ false → remains progress.new.table union j ≡ false) }
{
    let places = schemas.reader.places() as usize;
    let mut at = progress.table.next_difference(union, branch, 0);
    while at < places {
        eliminate_pair(schemas, union, at as u32, progress)?;
        at = progress.table.next_difference(union, branch, at + 1);
    }
    Ok(())
}

/// Examines all pairs of a row, and eliminates those that the remaining pairs don't support.
fn examine_row(schemas: &SchemaPair, row: &WriterPlace, progress: &mut Progress) -> AllocResult<()>
    requires row { IsWriterPlace schemas.now row.now }
    requires rest { HasAgreedRemainder schemas.now progress.old }
    ensures eliminates { OnOk result (Eliminates schemas.now progress.old progress.new) }
    ensures still_supported { OnOk result (IsRowStillSupported schemas.now progress.new row.now.place) }
{
    if let Node::Union { branches } = schemas.writer.node(row.place) {
        for branch in branches {
            eliminate_by_branch(schemas, row.place, *branch, progress)?;
        }
        return Ok(());
    }
    for j in 0..schemas.reader.places() {
        if !progress.table.has(row.place, j) || supports(schemas, row, j, &progress.table) {
            continue;
        }
        eliminate_pair(schemas, row.place, j, progress)?;
    }
    Ok(())
}

/// Examines all rows, from the first on, since a reference by name is to an earlier place. Returns
/// the source entries of the reader's fields with aliases, for each of the writer's places.
pub fn examine_all(
    alloc: Global,
    schemas: &SchemaPair,
    aliased: &[Aliased],
    progress: &mut Progress,
) -> AllocResult<Vec<Vec<u16>>>
    requires rest { HasAgreedRemainder schemas.now progress.old }
    ensures sources { IfOk result (λ v. AreSources (rows schemas.now) (columns schemas.now) aliased.now v.items) }
    ensures eliminates { OnOk result (Eliminates schemas.now progress.old progress.new) }
    ensures still_supported { OnOk result (AreStillSupported schemas.now progress.new) }
{
    let mut made = vec![in alloc; None; schemas.reader.index.names.len()]?;
    let slots = made.as_mut_slice();
    let firsts = firsts_of(alloc, schemas.reader.places(), aliased)?;
    let wanted = reader_fields_of(alloc, &schemas.reader, aliased)?;
    let aliased_fields = AliasedFields {
        aliased,
        firsts: &firsts,
        wanted: &wanted,
    };
    let mut sources = Vec::new(alloc);
    for place in 0..schemas.writer.places() {
        let fields = schemas.writer.fields(place);
        fill_slots(slots, &schemas.rank_map, fields.ranks);
        let entries = source_entries(alloc, slots, schemas, fields, aliased_fields)?;
        let row = WriterPlace {
            place,
            fields,
            slots,
            aliased_fields,
            entries: &entries,
        };
        examine_row(schemas, &row, progress)?;
        clear_slots(slots, &schemas.rank_map, fields.ranks);
        sources.push(entries)?;
    }
    Ok(sources)
}
