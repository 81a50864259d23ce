//! Compares two nodes by themselves: kinds, names (by rank), sizes and symbols.

ghost use Rattle.std.specs.Prelude.{◌<◌, ◌↔◌, ◌≡◌, ◌≤◌, [], length, option_map, slice_get, All, Contains, IfOk, IsTrue, MatchOption, Some};
ghost use Rattle.std.specs.List.Sorted.{IsStrictlyIncreasing};
ghost use Rattle.avro_nodes.specs.Nodes.{node_view, NodeView};
ghost use Rattle.avro_resolve.specs.Inside.Agreeing.{named_ranks, symbol_ranks, symbols_of, Agree, AreCleared, AreNumbered, AreSymbolsMapped, DecidesNameMatch};
ghost use Rattle.avro_resolve.specs.Inside.Remaining.{Agreed};
ghost use Rattle.avro_resolve.specs.Inside.Schemas.{columns, names_of, rows, IsValidSchemaPair};
ghost use Rattle.avro_resolve.specs.Resolution.{Promotes};

use crate::AllocResult;
use crate::schemas::SchemaPair;
use avro_nodes::{Node, PrimitiveKind};
use avro_schema::{NamedRanks, Ranks};
use std::alloc::Global;

/// Whether a reader's primitive type reads a writer's: if it is the same, or by promotion (Schema
/// Resolution).
fn promotes(writer: PrimitiveKind, reader: PrimitiveKind) -> bool
    ensures { IsTrue result ↔ Promotes writer reader }
{
    match writer {
        PrimitiveKind::Int => matches!(
            reader,
            PrimitiveKind::Int | PrimitiveKind::Long | PrimitiveKind::Float | PrimitiveKind::Double
        ),
        PrimitiveKind::Long => matches!(
            reader,
            PrimitiveKind::Long | PrimitiveKind::Float | PrimitiveKind::Double
        ),
        PrimitiveKind::Float => matches!(reader, PrimitiveKind::Float | PrimitiveKind::Double),
        PrimitiveKind::Bytes | PrimitiveKind::Text => matches!(
            reader,
            PrimitiveKind::Bytes | PrimitiveKind::Text
        ),
        PrimitiveKind::Null | PrimitiveKind::Boolean | PrimitiveKind::Double => reader == writer,
    }
}

/// Whether the list contains each of the numbers. Unless the two are equal, one pass compares them.
fn has_all(list: &[u32], numbers: &[u32]) -> bool
    requires list { IsStrictlyIncreasing list.now }
    requires numbers { IsStrictlyIncreasing numbers.now }
    ensures { IsTrue result ↔ All (Contains list.now) numbers.now }
{
    if list == numbers {
        return true;
    }
    let mut matched_count = 0;
    for known in list {
        if matched_count == numbers.len() {
            return true;
        }
        if numbers[matched_count] < *known {
            return false;
        }
        if numbers[matched_count] == *known {
            matched_count += 1;
        }
    }
    matched_count == numbers.len()
}

/// The ranks of the names of a named type, or `None` for another node.
fn named_of(ranks: &Ranks) -> Option<&NamedRanks>
    ensures { option_map (λ n. n.now) result ≡ named_ranks ranks.now }
{
    match ranks {
        Ranks::Fixed { named } => Some(named),
        Ranks::Enum { named, .. } | Ranks::Rec { named, .. } => Some(named),
        Ranks::Unnamed => None,
    }
}

/// The ranks of the symbols of an enum, or none for another node.
fn symbols_of(ranks: &Ranks) -> &[u32]
    ensures { result.now ≡ symbol_ranks ranks.now }
{
    match ranks {
        Ranks::Enum { symbols, .. } => symbols,
        Ranks::Unnamed | Ranks::Fixed { .. } | Ranks::Rec { .. } => &[],
    }
}

/// Whether both nodes are named types whose names match: by their last parts (Avro 1.11
/// specification, Schema Resolution), or by an alias of the reader's (Aliases).
fn names_match(schemas: &SchemaPair, i: u32, j: u32) -> bool
    requires schemas { IsValidSchemaPair schemas.now }
    requires i_in { i < length (rows schemas.now) }
    requires j_in { j < length (columns schemas.now) }
    ensures { (a b : NodeView) → slice_get (rows schemas.now) i ≡ Some a
        → slice_get (columns schemas.now) j ≡ Some b → DecidesNameMatch result a b }
{
    let (Some(named), Some(wanted)) = (
        named_of(schemas.writer.ranks(i)),
        named_of(schemas.reader.ranks(j)),
    ) else {
        return false;
    };
    if schemas.rank_map.rank(named.last) == Some(wanted.last) {
        return true;
    }
    match schemas.rank_map.rank(named.full) {
        Some(rank) => wanted.aliases.binary_search(&rank).is_ok(),
        None => false,
    }
}

/// Whether the nodes agree by themselves, given whether their names match. `None`: the symbols of
/// two enums have to be compared, since the reader's has no default.
fn alike(a: &Node, b: &Node, matched: bool) -> Option<bool>
    requires { DecidesNameMatch matched (node_view a.now) (node_view b.now) }
    ensures { let v = node_view a.now in let u = node_view b.now in MatchOption result
        (Agree v u ↔ All (Contains (symbols_of u)) (symbols_of v)) (λ yes. IsTrue yes ↔ Agree v u) }
{
    match (a, b) {
        (Node::Union { .. }, _) | (_, Node::Union { .. }) => Some(true),
        (Node::Primitive { kind, .. }, Node::Primitive { kind: wanted, .. }) => {
            Some(promotes(*kind, *wanted))
        }
        (Node::Array { .. }, Node::Array { .. }) => Some(true),
        (Node::Map { .. }, Node::Map { .. }) => Some(true),
        (Node::Enum { .. }, Node::Enum { fallback, .. }) if matched && fallback.is_none() => None,
        (Node::Enum { .. }, Node::Enum { .. }) => Some(matched),
        (Node::Fixed { size, .. }, Node::Fixed { size: wanted, .. }) => {
            Some(matched && size == wanted)
        }
        (Node::Rec { .. }, Node::Rec { .. }) => Some(matched),
        _ => Some(false),
    }
}

/// The reader's ranks of the symbols at a writer's place, or `None` if the reader lacks a symbol.
pub fn mapped_symbols(alloc: Global, schemas: &SchemaPair, i: u32) -> AllocResult<Option<Vec<u32>>>
    requires schemas { IsValidSchemaPair schemas.now }
    requires i_in { i < length (rows schemas.now) }
    ensures { IfOk result (λ o. (a : NodeView) → slice_get (rows schemas.now) i ≡ Some a
        → AreSymbolsMapped (names_of schemas.now.reader) (symbols_of a) o) }
{
    let symbols = symbols_of(schemas.writer.ranks(i));
    let mut found = Vec::with_capacity(alloc, symbols.len())?;
    for symbol in symbols {
        let Some(rank) = schemas.rank_map.rank(*symbol) else {
            return Ok(None);
        };
        found.push(rank)?;
    }
    Ok(Some(found))
}

/// The ranks, or an empty list if the reader lacks a symbol.
pub fn ranks_or_empty(symbols: &Option<Vec<u32>>) -> &[u32]
    ensures { MatchOption symbols.now (result.now ≡ []) (λ v. result.now ≡ v.items) }
{
    match symbols {
        Some(symbols) => symbols.as_slice(),
        None => &[],
    }
}

/// Numbers the symbols from 1 on, in the slots of their ranks.
pub fn number_symbols(slots: &mut [usize], symbols: &[u32])
    requires cleared { AreCleared slots.old }
    requires rise { IsStrictlyIncreasing symbols.now }
    requires within { All (λ rank. rank < length slots.old) symbols.now }
    ensures { AreNumbered slots.new symbols.now 0 (length symbols.now) }
{
    for k in 0..symbols.len() {
        slots[symbols[k] as usize] = k + 1;
    }
}

/// Clears these slots again.
pub fn clear_numbers(slots: &mut [usize], symbols: &[u32])
    requires rise { IsStrictlyIncreasing symbols.now }
    requires numbered { AreNumbered slots.old symbols.now 0 (length symbols.now) }
    requires within { All (λ rank. rank < length slots.old) symbols.now }
    ensures { AreCleared slots.new }
{
    for k in 0..symbols.len() {
        slots[symbols[k] as usize] = 0;
    }
}

/// Whether the list contains each numbered symbol. Each lookup is independent of the previous ones.
fn has_numbered(list: &[u32], symbols: &[u32], slots: &[usize]) -> bool
    requires list { IsStrictlyIncreasing list.now }
    requires rise { IsStrictlyIncreasing symbols.now }
    requires numbered { AreNumbered slots.now symbols.now 0 (length symbols.now) }
    requires within { All (λ rank. rank < length slots.now) list.now }
    ensures { IsTrue result ↔ All (Contains list.now) symbols.now }
{
    if list == symbols {
        return true;
    }
    let mut next = 1;
    for known in list {
        if slots[*known as usize] == next {
            next += 1;
        }
    }
    next > symbols.len()
}

/// Whether the nodes at these places agree by themselves.
pub fn agree(
    alloc: Global,
    schemas: &SchemaPair,
    a: &Node,
    b: &Node,
    at: (u32, u32),
) -> AllocResult<bool>
    requires schemas { IsValidSchemaPair schemas.now }
    requires a_at { slice_get (rows schemas.now) at.0 ≡ Some (node_view a.now) }
    requires b_at { slice_get (columns schemas.now) at.1 ≡ Some (node_view b.now) }
    ensures { IfOk result (λ yes. IsTrue yes ↔ Agree (node_view a.now) (node_view b.now)) }
{
    if let Some(decided) = alike(a, b, names_match(schemas, at.0, at.1)) {
        return Ok(decided);
    }
    match mapped_symbols(alloc, schemas, at.0)? {
        Some(symbols) => Ok(has_all(symbols_of(schemas.reader.ranks(at.1)), &symbols)),
        None => Ok(false),
    }
}

/// The same, given the ranks of the symbols at the writer's place, numbered in the slots.
pub fn agree_at(
    schemas: &SchemaPair,
    symbols: &Option<Vec<u32>>,
    slots: &[usize],
    i: u32,
    j: u32,
) -> bool
    requires schemas { IsValidSchemaPair schemas.now }
    requires numbered { MatchOption symbols.now (Unit {0}) (λ v. AreNumbered slots.now v.items 0 (length v.items)) }
    requires room { length (names_of schemas.now.reader) ≤ length slots.now }
    requires symbols { (a : NodeView) → slice_get (rows schemas.now) i ≡ Some a
        → AreSymbolsMapped (names_of schemas.now.reader) (symbols_of a) symbols.now }
    requires i_in { i < length schemas.now.writer.schema.now }
    requires j_in { j < length schemas.now.reader.schema.now }
    ensures { IsTrue result ↔ Agreed (rows schemas.now) (columns schemas.now) i j }
{
    let (a, b) = (schemas.writer.node(i), schemas.reader.node(j));
    if let Some(decided) = alike(a, b, names_match(schemas, i, j)) {
        return decided;
    }
    match symbols {
        Some(symbols) => has_numbered(symbols_of(schemas.reader.ranks(j)), symbols, slots),
        None => false,
    }
}
