//! Whether a writer's schema resolves with a reader's.

ghost use Rattle.std.specs.Prelude.{◌*◌, ◌<◌, ◌↔◌, ◌≡◌, ◌≤◌, false, length, IfOk, IsTrue, List};
ghost use Rattle.avro_nodes.specs.Nodes.{nodes_view, NodeView};
ghost use Rattle.avro_resolve.specs.Asking.{AreAllReached, ContainsAsked};
ghost use Rattle.avro_resolve.specs.Resolution.{Resolves};
ghost use Rattle.avro_resolve.specs.Verdicts.{does_resolve};
ghost use Rattle.avro_resolve.specs.Witnesses.{HasClosedSet, HasRefutation, Pair};

use crate::elimination::largest_closed;
use crate::pair_set::PairSet;
use crate::recursion::{Answer, Walk, check_pair};
use crate::schemas::SchemaPair;
use crate::work_meter::WorkMeter;
use avro_nodes::OutOfMemory;
use avro_schema::Schema;
use std::alloc::Global;

/// The result of `resolves`.
#[derive(Clone, Copy, Debug, PartialEq, Eq)]
pub struct Verdict {
    /// whether the writer's schema resolves with the reader's
    pub yes: bool,
    /// how many pairs of places the recursion opened; a pair that is opened again counts again
    pub visits: u128,
}

/// Whether the writer's schema resolves with the reader's (Avro 1.11 specification, Schema
/// Resolution), by elimination of pairs of places from the set of all pairs.
///
/// # Errors
///
/// `OutOfMemory` if allocation fails.
pub fn resolves_plain(alloc: Global, writer: &Schema, reader: &Schema) -> Result<bool, OutOfMemory>
    ensures { IfOk result (λ yes. IsTrue yes ↔ Resolves (nodes_view writer.now) (nodes_view reader.now)) }
{
    let table = largest_closed(alloc, writer, reader)?;
    Ok(table.has(0, 0))
}

/// Whether the writer's schema resolves with the reader's (Avro 1.11 specification, Schema
/// Resolution), and how many pairs were opened: at most the square of the number of pairs that the
/// roots reach. If fewer than a thousand were opened, a small witness exists: a closed set for a
/// yes, a list that refutes the roots for a no.
///
/// Elimination decides if more than a thousand pairs would be open at once, or if a thousand were
/// opened and the work reaches four million. Opening a pair counts for eight. Each request for a
/// pair, and each field, alias and symbol examined, counts for one.
///
/// # Errors
///
/// `OutOfMemory` if allocation fails.
pub fn resolves(alloc: Global, writer: &Schema, reader: &Schema) -> Result<Verdict, OutOfMemory>
    ensures yes { IfOk result (λ v. IsTrue v.yes ↔ Resolves (nodes_view writer.now) (nodes_view reader.now)) }
    ensures at_least { IfOk result (λ v. 1 ≤ v.visits) }
    ensures closed { IfOk result (λ v. IsTrue v.yes → v.visits < 1000
        → HasClosedSet (nodes_view writer.now) (nodes_view reader.now) v.visits) }
    ensures refuted { IfOk result (λ v. v.yes ≡ false → v.visits < 1000
        → HasRefutation (nodes_view writer.now) (nodes_view reader.now) v.visits) }
    ensures reached { IfOk result (λ v. (ps : List Pair) → AreAllReached (nodes_view writer.now) (nodes_view reader.now) ps
        → v.visits ≤ length ps * length ps) }
    // the same for any list that contains at least the pairs that the roots reach
    ensures at_most { IfOk result (λ v. (ps : List Pair) → ContainsAsked (nodes_view writer.now) (nodes_view reader.now) ps
        → v.visits ≤ length ps * length ps) }
{
    let (_rows, columns) = (writer.places(), reader.places());
    let schemas = SchemaPair::of(alloc, writer, reader)?;
    let mut walk = Walk {
        alloc,
        assumed: Vec::new(alloc),
        failed: Vec::new(alloc),
        assumed_set: PairSet::none(alloc, columns),
        failed_set: PairSet::none(alloc, columns),
        visits: 0,
        meter: WorkMeter::none(alloc),
    };
    let answer = check_pair(&schemas, 0, 0, 0, &mut walk)?;
    let visits = walk.visits;
    drop(walk);
    let yes = match answer {
        Answer::Yes => true,
        Answer::No => false,
        Answer::Unfinished => resolves_plain(alloc, writer, reader)?,
    };
    Ok(Verdict { yes, visits })
}

/// A law of the rules: every schema resolves with itself. Witness: the closed set of the pairs
/// (place, same place) and (branch, its union).
pub fn resolves_with_itself(schema: &Schema)
    ensures { Resolves (nodes_view schema.now) (nodes_view schema.now) }
{
    // its contract says that some text denotes the nodes
    let _places = schema.places();
}

/// A law of the rules: resolution can be computed, for any two lists of nodes.
pub fn resolution_is_decided()
    ensures { (w r : List NodeView) → IsTrue (does_resolve w r) ↔ Resolves w r }
{}
