//! Eliminates unsupported pairs, until the remaining pairs are a closed set.

ghost use Rattle.std.specs.Prelude.{◌<◌, ◌≡◌, ◌≤◌, ◌∷◌, ◌++◌, [], false, get_or, length, slice_get, All, Contains, IfOk, List, None, OnOk, Some, ℕ};
ghost use Rattle.std.specs.List.Sorted.{IsNonDecreasingBy};
ghost use Rattle.avro_nodes.specs.Nodes.{nodes_view, union, NodeView};
ghost use Rattle.avro_schema.specs.Texts.{IsSchema};
ghost use Rattle.avro_resolve.specs.Inside.Referrers.{AreReferrers, HasAllUnions, HasBranch, IsNoUnion, Joins, LinkKindsMatch};
ghost use Rattle.avro_resolve.specs.Inside.Remaining.{remains, AreRun, AreStillSupported, AreStillSupportedBut, IsRemainder, HasAgreedRemainder, IsStillSupported, IsPopped, DependsOn, Eliminates};
ghost use Rattle.avro_resolve.specs.Inside.Lists.{list_at};
ghost use Rattle.avro_resolve.specs.Inside.Schemas.{columns, rows};
ghost use Rattle.avro_resolve.specs.Resolution.{Closed};
ghost use Rattle.avro_resolve.specs.Witnesses.{Pair};

use crate::AllocResult;
use crate::links::{Link, LinkKind, Links, links_of};
use crate::lists::{list_of, unions_in};
use crate::rows::{
    Progress, eliminate_by_branch, eliminate_disagreeing, eliminate_pair, examine_all,
};
use crate::schemas::SchemaPair;
use crate::support::any_remaining;
use crate::table::Table;
use avro_nodes::Node;
use avro_schema::Schema;
use std::alloc::Global;

/// The index of the first link, at or after `from`, whose label is at least this one, or the number
/// of links.
fn first_at_label(links: &[Link], from: usize, label: u32) -> usize
    requires from { from ≤ length links.now }
    requires passed { (k : ℕ) (d : Link) → k < from → (get_or links.now k d).label < label }
    requires sorted { IsNonDecreasingBy (λ (x : Link). x.label) links.now }
    ensures within { result ≤ length links.now }
    ensures below { (k : ℕ) (d : Link) → k < result → (get_or links.now k d).label < label }
    ensures at { (d : Link) → result < length links.now → label ≤ (get_or links.now result d).label }
{
    if from == links.len() || links[from].label >= label {
        return from;
    }
    links.partition_point(|link| link.label < label)
}

/// Eliminates the pairs that depend on the popped pair by links with the same label. A link by an
/// alias counts only if the field's source has its type at the popped pair's writer's place. Skips
/// labels that no writer's link has.
pub fn eliminate_joined(
    schemas: &SchemaPair,
    sources: &[Vec<u16>],
    writer_links: &[Link],
    reader_links: &[Link],
    popped: (u32, u32),
    progress: &mut Progress,
) -> AllocResult<()>
    requires popped { IsPopped schemas.now progress.old popped }
    requires rests { (x y : Link) → Contains writer_links.now x → Contains reader_links.now y → x.label ≡ y.label
        → LinkKindsMatch sources.now popped.0 x y → DependsOn (rows schemas.now) (columns schemas.now) x.referrer y.referrer popped.0 popped.1 }
    requires writer_links_in { All (λ x. x.referrer < length schemas.now.writer.schema.now) writer_links.now }
    requires reader_links_in { All (λ y. y.referrer < length schemas.now.reader.schema.now) reader_links.now }
    requires writer_links_sorted { IsNonDecreasingBy (λ (x : Link). x.label) writer_links.now }
    requires reader_links_sorted { IsNonDecreasingBy (λ (y : Link). y.label) reader_links.now }
    ensures eliminates { OnOk result (Eliminates schemas.now progress.old progress.new) }
    ensures still_supported { OnOk result (Joins sources.now popped.0 (IsStillSupported schemas.now progress.new) writer_links.now reader_links.now) }
{
    let mut from = 0;
    for link in writer_links {
        from = first_at_label(reader_links, from, link.label);
        let mut at = from;
        while at < reader_links.len() && reader_links[at].label <= link.label {
            let other = reader_links[at];
            at += 1;
            if !progress.table.has(link.referrer, other.referrer) {
                continue;
            }
            let asks = match (link.kind, other.kind) {
                (LinkKind::ByElement, LinkKind::ByElement) | (LinkKind::ByName, LinkKind::ByName) =>
                    true,
                (LinkKind::ByName, LinkKind::ByAlias(number)) => {
                    let entry = list_of(sources, link.referrer as usize)
                        .get(number)
                        .copied();
                    u64::from(entry.unwrap_or(0)) == u64::from(popped.0) + 1
                }
                _ => false,
            };
            if !asks {
                continue;
            }
            eliminate_pair(schemas, link.referrer, other.referrer, progress)?;
        }
    }
    Ok(())
}

/// The nodes that refer to each place of both schemas, and what decides which pairs depend on a
/// pair.
#[derive(Drop)]
struct Dependents {
    /// the references to the writer's places
    rows: Links,
    /// the references to the reader's places
    columns: Links,
    /// the reader's unions
    unions: Vec<u32>,
    /// for each of the writer's places, the source entries of the reader's fields with aliases
    sources: Vec<Vec<u16>>,
}

/// Pairs of one row that are next to each other at the end of the worklist. They are propagated
/// together, with one pass over each list of unions.
type Run<'a> = &'a [(u16, u16)];

/// From this length on, comparing two rows is faster than looking up each pair of the run. Rows have
/// at most 4,096 columns, and comparing eight takes as long as one lookup. So a run costs at most as
/// much as its lookups.
const LONG_RUN: usize = 512;

/// Pops from the worklist all pairs at its end that are in the row of `last`. The run becomes these
/// pairs and then `last`, which was popped before.
fn pop_run(
    eliminated: &mut Vec<(u16, u16)>,
    last: (u16, u16),
    run: &mut Vec<(u16, u16)>,
) -> AllocResult<()>
    ensures all { OnOk result (eliminated.old.items ++ last ∷ [] ≡ eliminated.new.items ++ run.new.items) }
    ensures one { OnOk result (All (λ (p : Pair). p.0 ≡ last.0) run.new.items) }
    ensures fewer { OnOk result (length eliminated.new.items ≤ length eliminated.old.items) }
{
    let mut from = eliminated.len();
    while from > 0 && eliminated[from - 1].0 == last.0 {
        from -= 1;
    }
    run.clear();
    run.extend_from_slice(&eliminated[from..])?;
    run.push(last)?;
    eliminated.truncate(from);
    Ok(())
}

/// For each listed union of the reader: eliminates its pair with the writer's place `i` if none of
/// its branches remains with `i`. The node at `i` isn't a union.
fn examine_unions(
    schemas: &SchemaPair,
    i: u32,
    unions: &[u32],
    progress: &mut Progress,
) -> AllocResult<()>
    requires rest { HasAgreedRemainder schemas.now progress.old }
    requires i_in { i < length schemas.now.writer.schema.now }
    requires apart { IsNoUnion (rows schemas.now) i }
    requires within { All (λ j. j < length schemas.now.reader.schema.now) unions.now }
    ensures eliminates { OnOk result (Eliminates schemas.now progress.old progress.new) }
    ensures still_supported { OnOk result (All (λ j. (branches : List ℕ) → slice_get (columns schemas.now) j ≡ Some (union branches)
        → IsStillSupported schemas.now progress.new i j) unions.now) }
{
    for j in unions {
        if !progress.table.has(i, *j) {
            continue;
        }
        let Node::Union { branches } = schemas.reader.node(*j) else {
            continue;
        };
        if any_remaining(i, *j, branches, &progress.table) {
            continue;
        }
        eliminate_pair(schemas, i, *j, progress)?;
    }
    Ok(())
}

/// Propagates a run to the writer's unions that have the row as a branch. If the row isn't a union,
/// also propagates it to the reader's unions. If the run is at least as long as the list of these,
/// it checks all of them. Otherwise it checks those that have one of the run's places as a branch.
fn propagate_to_unions(
    schemas: &SchemaPair,
    dependents: &Dependents,
    row: u32,
    run: Run,
    progress: &mut Progress,
) -> AllocResult<()>
    requires rest { HasAgreedRemainder schemas.now progress.old }
    requires referrers { AreReferrers schemas.now dependents.now.rows dependents.now.columns dependents.now.sources.items }
    requires unions { HasAllUnions (columns schemas.now) dependents.now.unions.items }
    requires run { AreRun progress.old.table row run.now }
    ensures eliminates { OnOk result (Eliminates schemas.now progress.old progress.new) }
    ensures down { OnOk result (All (λ u. All (λ (p : Pair). remains progress.new.table u p.1 ≡ false) run.now) (list_at dependents.now.rows.unions.items row)) }
    ensures along { OnOk result (IsNoUnion (rows schemas.now) row
        → All (λ (p : Pair). All (IsStillSupported schemas.now progress.new row) (list_at dependents.now.columns.unions.items p.1)) run.now) }
{
    if row >= schemas.writer.places() {
        return Ok(());
    }
    for union in list_of(&dependents.rows.unions, row as usize) {
        if run.len() >= LONG_RUN {
            eliminate_by_branch(schemas, *union, row, progress)?;
            continue;
        }
        for (_, to) in run {
            let to = u32::from(*to);
            if to < schemas.reader.places() {
                eliminate_pair(schemas, *union, to, progress)?;
            }
        }
    }
    if let Node::Union { .. } = schemas.writer.node(row) {
        return Ok(());
    }
    if run.len() >= dependents.unions.len() {
        examine_unions(schemas, row, &dependents.unions, progress)?;
        return Ok(());
    }
    for (_, j) in run {
        let unions = list_of(&dependents.columns.unions, usize::from(*j));
        examine_unions(schemas, row, unions, progress)?;
    }
    Ok(())
}

/// Propagates a run to unions, and to pairs of nodes that refer to both places of one of its pairs
/// by the same label.
fn propagate(
    schemas: &SchemaPair,
    dependents: &Dependents,
    row: u32,
    run: Run,
    progress: &mut Progress,
) -> AllocResult<()>
    requires rest { HasAgreedRemainder schemas.now progress.old }
    requires referrers { AreReferrers schemas.now dependents.now.rows dependents.now.columns dependents.now.sources.items }
    requires unions { HasAllUnions (columns schemas.now) dependents.now.unions.items }
    requires run { AreRun progress.old.table row run.now }
    requires before { AreStillSupportedBut schemas.now progress.old run.now }
    ensures eliminates { OnOk result (Eliminates schemas.now progress.old progress.new) }
    ensures still_supported { OnOk result (AreStillSupported schemas.now progress.new) }
{
    propagate_to_unions(schemas, dependents, row, run, progress)?;
    let writer_links = list_of(&dependents.rows.lists, row as usize);
    for (_, j) in run {
        let reader_links = list_of(&dependents.columns.lists, usize::from(*j));
        let popped = (row, u32::from(*j));
        eliminate_joined(
            schemas,
            &dependents.sources,
            writer_links,
            reader_links,
            popped,
            progress,
        )?;
    }
    Ok(())
}

/// The largest closed set: the remaining pairs, after all unsupported ones were eliminated. Pairs
/// whose nodes disagree go first. Then each pair is examined once, and each eliminated pair is
/// propagated to its dependents.
pub fn largest_closed(alloc: Global, writer: &Schema, reader: &Schema) -> AllocResult<Table>
    ensures rest { IfOk result (λ t. IsRemainder (nodes_view writer.now) (nodes_view reader.now) t) }
    ensures closed { IfOk result (λ t. Closed (nodes_view writer.now) (nodes_view reader.now) (remains t)) }
    ensures writer { IfOk result (λ _. IsSchema (nodes_view writer.now)) }
    ensures reader { IfOk result (λ _. IsSchema (nodes_view reader.now)) }
{
    let (places, others) = (writer.places() as usize, reader.places() as usize);
    let unions = unions_in(alloc, reader)?;
    let mut table = Table::all(alloc, places, others, !unions.is_empty())?;
    let schemas = SchemaPair::of(alloc, writer, reader)?;
    eliminate_disagreeing(alloc, &schemas, &mut table)?;
    let mut progress = Progress {
        table,
        eliminated: Vec::new(alloc),
    };
    let rows = links_of(alloc, &schemas.writer, Some(&schemas.rank_map))?;
    let columns = links_of(alloc, &schemas.reader, None)?;
    let sources = examine_all(alloc, &schemas, &columns.aliased, &mut progress)?;
    let dependents = Dependents {
        rows,
        columns,
        unions,
        sources,
    };
    let mut run = Vec::new(alloc);
    while let Some(last) = progress.eliminated.pop() {
        pop_run(&mut progress.eliminated, last, &mut run)?;
        propagate(
            &schemas,
            &dependents,
            u32::from(last.0),
            &run,
            &mut progress,
        )?;
    }
    Ok(progress.table)
}
