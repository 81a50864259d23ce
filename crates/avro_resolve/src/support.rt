//! Whether the remaining pairs support a pair.

ghost use Rattle.std.specs.Prelude.{◌<◌, ◌↔◌, All, Any, IsTrue};
ghost use Rattle.avro_resolve.specs.Inside.Remaining.{remains, Agreed};
ghost use Rattle.avro_resolve.specs.Inside.Rows.{TableCoversPair};
ghost use Rattle.avro_resolve.specs.Inside.Schemas.{columns, rows};
ghost use Rattle.avro_resolve.specs.Resolution.{Supports};

use crate::readable::{WriterPlace, all_readable};
use crate::schemas::SchemaPair;
use crate::table::Table;
use avro_nodes::Node;

/// Whether the writer's place remains with some branch of the reader's union at j. Branches before
/// the hint were eliminated earlier and never come back, so the scan resumes at the hint. They are
/// checked last all the same, so no contract needs to say that the hint is right. If the scan finds
/// a branch, this becomes the new hint.
pub fn any_remaining(i: u32, j: u32, places: &[u32], table: &Table) -> bool
    requires within { All (λ p. p < table.now.readers) places.now }
    requires i_in { i < table.now.writers }
    requires j_in { j < table.now.readers }
    ensures { IsTrue result ↔ Any (λ p. IsTrue (remains table.now i p)) places.now }
{
    let hint = table.hint(i, j);
    let from = hint.map_or(0, |hint| hint.get() as usize).min(places.len());
    for at in from..places.len() {
        if table.has(i, places[at]) {
            if let Some(hint) = hint {
                hint.set(u16::try_from(at).unwrap_or(0));
            }
            return true;
        }
    }
    (0..from).any(|at| table.has(i, places[at]))
}

/// Whether the remaining pairs support a pair whose nodes agree, by the first case that fits (Avro
/// 1.11 specification, Schema Resolution).
pub fn supports(schemas: &SchemaPair, row: &WriterPlace, j: u32, table: &Table) -> bool
    requires over { TableCoversPair schemas.now row.now table.now j }
    requires agreed { Agreed (rows schemas.now) (columns schemas.now) row.now.place j }
    ensures { IsTrue result ↔ Supports (rows schemas.now) (columns schemas.now) (remains table.now) row.now.place j }
{
    match (schemas.writer.node(row.place), schemas.reader.node(j)) {
        (Node::Union { branches }, _) => branches.iter().all(|p| table.has(*p, j)),
        (_, Node::Union { branches }) => any_remaining(row.place, j, branches, table),
        (Node::Array { items: p, .. }, Node::Array { items: q, .. }) => table.has(*p, *q),
        (Node::Map { values: p, .. }, Node::Map { values: q, .. }) => table.has(*p, *q),
        (Node::Rec { .. }, Node::Rec { .. }) => all_readable(schemas, row, j, table),
        _ => true,
    }
}
