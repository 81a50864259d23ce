//! Resolution by recursion: an opened pair is assumed, until it turns out to be unsupported.

ghost use Rattle.std.specs.Prelude.{◌≡◌, map, slice_get, All, Any, IfOk, IsTrue, Some};
ghost use Rattle.avro_nodes.specs.Nodes.{field_view, node_view};
ghost use Rattle.avro_resolve.specs.Inside.Agreeing.{Agree};
ghost use Rattle.avro_resolve.specs.Inside.Reachable.{AreReachable, IsReachablePair, IsSourceReachable};
ghost use Rattle.avro_resolve.specs.Inside.FieldSlots.{AreFieldSources};
ghost use Rattle.avro_resolve.specs.Inside.Schemas.{columns, rows};
ghost use Rattle.avro_resolve.specs.Inside.Walking.{IsReadyForSchemas, WalkAnswerHolds};
ghost use Rattle.avro_resolve.specs.Resolution.{Fits, Readable, Supports};
ghost use Rattle.avro_resolve.specs.Witnesses.{member, without};

use crate::AllocResult;
use crate::agreeing::agree;
use crate::pair_set::PairSet;
use crate::schemas::SchemaPair;
use crate::work_meter::WorkMeter;
use avro_nodes::{Field, Node};
use std::alloc::Global;

/// The recursion's answer for a pair.
#[derive(Clone, Copy, Debug, PartialEq, Eq)]
pub enum Answer {
    /// it is assumed, or the assumed pairs support it
    Yes,
    /// it failed, or the set of all pairs except the failed ones doesn't support it
    No,
    /// unknown: too many pairs were open at once, or the work reached its limit
    Unfinished,
}

/// An answer, or the error that allocation failed.
pub type AnswerResult = AllocResult<Answer>;

/// The state of the recursion.
#[derive(Drop)]
pub struct Walk {
    pub alloc: Global,
    /// the assumed pairs, in the order in which they were opened
    pub assumed: Vec<(u16, u16)>,
    /// the failed pairs, in the order in which they failed
    pub failed: Vec<(u16, u16)>,
    /// the assumed pairs, as a set
    pub assumed_set: PairSet,
    /// the failed pairs, as a set
    pub failed_set: PairSet,
    /// how many pairs were opened; a pair that is opened again counts again
    pub visits: u128,
    pub meter: WorkMeter,
}

/// The work limit, once a thousand pairs were opened. Beyond it elimination is cheaper: after two
/// passes over all pairs, it examines only the dependents of eliminated pairs. The recursion opens
/// a pair again after its assumption was withdrawn.
const MAX_WORK: u64 = 4_000_000;

/// The maximum number of pairs that are open at once.
const MAX_OPEN: usize = 1000;

/// The answer for a pair: `Yes` if it is assumed, `No` if it failed. Any other pair is opened and
/// assumed, or at a limit the answer is `Unfinished`. If an opened pair isn't supported, it fails,
/// and the assumptions made since are withdrawn.
#[cycle(walk)]
pub fn check_pair(
    schemas: &SchemaPair,
    i: u32,
    j: u32,
    depth: usize,
    walk: &mut Walk,
) -> AnswerResult
    requires ready { IsReadyForSchemas schemas.now depth walk.old }
    requires reachable { IsReachablePair (rows schemas.now) (columns schemas.now) i j }
    ensures { IfOk result (λ answer. WalkAnswerHolds schemas.now depth walk.old walk.new
        (IsTrue (member walk.new.assumed.items i j))
        ((walk.new.assumed.items ≡ walk.old.assumed.items) × IsTrue (member walk.new.failed.items i j)) answer) }
{
    walk.meter.count_one();
    if walk.assumed_set.has(i, j) {
        return Ok(Answer::Yes);
    }
    if walk.failed_set.has(i, j) {
        return Ok(Answer::No);
    }
    if depth == MAX_OPEN || (walk.visits >= 1000 && walk.meter.work >= MAX_WORK) {
        return Ok(Answer::Unfinished);
    }
    let mark = walk.assumed.len();
    walk.visits += 1;
    walk.assumed_set.insert(i, j)?;
    walk.assumed.push((i as u16, j as u16))?;
    match is_supported(schemas, (i, j), depth + 1, walk)? {
        Answer::No => {}
        outcome => return Ok(outcome),
    }
    while walk.assumed.len() > mark {
        if let Some((i, j)) = walk.assumed.pop() {
            walk.assumed_set.remove(i as u32, j as u32);
        }
    }
    walk.failed_set.insert(i, j)?;
    walk.failed.push((i as u16, j as u16))?;
    Ok(Answer::No)
}

/// Whether the pair is supported, if it is assumed.
#[cycle(walk)]
fn is_supported(schemas: &SchemaPair, at: (u32, u32), depth: usize, walk: &mut Walk) -> AnswerResult
    requires ready { IsReadyForSchemas schemas.now depth walk.old }
    requires reachable { IsReachablePair (rows schemas.now) (columns schemas.now) at.0 at.1 }
    ensures { IfOk result (λ answer. WalkAnswerHolds schemas.now depth walk.old walk.new
        (Supports (rows schemas.now) (columns schemas.now) (member walk.new.assumed.items) at.0 at.1)
        (Supports (rows schemas.now) (columns schemas.now) (without walk.new.failed.items) at.0 at.1 → ⊥) answer) }
{
    let (a, b) = (schemas.writer.node(at.0), schemas.reader.node(at.1));
    walk.meter.count_pair(a, b);
    let agreed = agree(walk.alloc, schemas, a, b, at)?;
    if !agreed {
        return Ok(Answer::No);
    }
    fits(schemas, a, b, at, depth, walk)
}

/// Whether a pair of nodes that agree is supported, by the first case that fits.
#[cycle(walk)]
fn fits(
    schemas: &SchemaPair,
    a: &Node,
    b: &Node,
    at: (u32, u32),
    depth: usize,
    walk: &mut Walk,
) -> AnswerResult
    requires ready { IsReadyForSchemas schemas.now depth walk.old }
    requires a_at { slice_get (rows schemas.now) at.0 ≡ Some (node_view a.now) }
    requires b_at { slice_get (columns schemas.now) at.1 ≡ Some (node_view b.now) }
    requires reachable { AreReachable (rows schemas.now) (columns schemas.now) at.0 at.1 (node_view a.now) (node_view b.now) }
    requires agreed { Agree (node_view a.now) (node_view b.now) }
    ensures { IfOk result (λ answer. WalkAnswerHolds schemas.now depth walk.old walk.new
        (Fits (member walk.new.assumed.items) at.0 at.1 (node_view a.now) (node_view b.now))
        (Fits (without walk.new.failed.items) at.0 at.1 (node_view a.now) (node_view b.now) → ⊥) answer) }
{
    if let Node::Union { branches } = a {
        for p in branches {
            match check_pair(schemas, *p, at.1, depth, walk)? {
                Answer::Yes => {}
                outcome => return Ok(outcome),
            }
        }
        return Ok(Answer::Yes);
    }
    if let Node::Union { branches } = b {
        for q in branches {
            match check_pair(schemas, at.0, *q, depth, walk)? {
                Answer::No => {}
                outcome => return Ok(outcome),
            }
        }
        return Ok(Answer::No);
    }
    match (a, b) {
        (Node::Array { items: p, .. }, Node::Array { items: q, .. }) => {
            check_pair(schemas, *p, *q, depth, walk)
        }
        (Node::Map { values: p, .. }, Node::Map { values: q, .. }) => {
            check_pair(schemas, *p, *q, depth, walk)
        }
        (Node::Rec { fields, .. }, Node::Rec { fields: wanted, .. }) => {
            let sources = walk.meter.sources(walk.alloc, schemas, at.0, at.1)?;
            all_readable(schemas, fields, &sources, wanted, depth, walk)
        }
        _ => Ok(Answer::Yes),
    }
}

/// Whether each of the reader's fields can be read, in their order.
#[cycle(walk)]
fn all_readable(
    schemas: &SchemaPair,
    fields: &[Field],
    sources: &[Option<u16>],
    wanted: &[Field],
    depth: usize,
    walk: &mut Walk,
) -> AnswerResult
    requires ready { IsReadyForSchemas schemas.now depth walk.old }
    requires sources { AreFieldSources (map field_view fields.now) (map field_view wanted.now) sources.now }
    requires reachable { All (λ f. IsSourceReachable (rows schemas.now) (columns schemas.now) (map field_view fields.now) (field_view f)) wanted.now }
    ensures { IfOk result (λ answer. WalkAnswerHolds schemas.now depth walk.old walk.new
        (All (λ f. Readable (member walk.new.assumed.items) (map field_view fields.now) (field_view f)) wanted.now)
        (Any (λ f. Readable (without walk.new.failed.items) (map field_view fields.now) (field_view f) → ⊥) wanted.now) answer) }
{
    let _fields = fields;
    for index in 0..wanted.len() {
        let f = &wanted[index];
        match sources[index] {
            Some(p) => match check_pair(schemas, u32::from(p), f.place, depth, walk)? {
                Answer::Yes => {}
                outcome => return Ok(outcome),
            },
            None => {
                if f.value.is_none() {
                    return Ok(Answer::No);
                }
            }
        }
    }
    Ok(Answer::Yes)
}
