//! A list for each place of a schema, such as the unions that have the place as a branch.

ghost use Rattle.std.specs.Prelude.{◌<◌, ◌≡◌, length, IfOk, OnOk, ℕ};
ghost use Rattle.avro_nodes.specs.Nodes.{nodes_view};
ghost use Rattle.avro_resolve.specs.Inside.Referrers.{HasAllUnions, HasUnions};
ghost use Rattle.avro_resolve.specs.Inside.Lists.{list_at, OnlyAdds, IsListedAt};
ghost use Rattle.avro_resolve.specs.Inside.Places.{IsSelfContained};

use crate::AllocResult;
use avro_nodes::Node;
use avro_schema::Schema;
use std::alloc::Global;

/// `count` empty lists.
pub fn empty_lists<T: Drop>(alloc: Global, count: u32) -> AllocResult<Vec<Vec<T>>>
    ensures long { IfOk result (λ v. length v.items ≡ count) }
    ensures empty { IfOk result (λ v. (x : T) (place : ℕ) → IsListedAt v.items x place → ⊥) }
{
    let mut lists: Vec<Vec<T>> = Vec::new(alloc);
    for _i in 0..count {
        lists.push(Vec::new(alloc))?;
    }
    Ok(lists)
}

/// Adds an item to the list of a place.
pub fn add_at<T: Drop>(lists: &mut Vec<Vec<T>>, place: u32, item: T) -> AllocResult<()>
    requires { place < length lists.old.items }
    ensures adds { OnOk result (OnlyAdds (λ x p. (x ≡ item) × (p ≡ place)) lists.old.items lists.new.items) }
    ensures there { OnOk result (IsListedAt lists.new.items item place) }
{
    lists[place as usize].push(item)?;
    Ok(())
}

/// The list of a place, or an empty list past the last place.
pub fn list_of<T>(lists: &[Vec<T>], place: usize) -> &[T]
    ensures { result.now ≡ list_at lists.now place }
{
    match lists.get(place) {
        Some(list) => list.as_slice(),
        None => &[],
    }
}

/// For each place of a schema the unions that have it as a branch.
pub fn unions_of(alloc: Global, schema: &Schema) -> AllocResult<Vec<Vec<u32>>>
    requires { IsSelfContained (nodes_view schema.now) }
    ensures { IfOk result (λ v. HasUnions (nodes_view schema.now) v.items) }
{
    let mut lists = empty_lists(alloc, schema.places())?;
    for i in 0..schema.places() {
        let Node::Union { branches } = schema.node(i) else {
            continue;
        };
        for branch in branches {
            add_at(&mut lists, *branch, i)?;
        }
    }
    Ok(lists)
}

/// The places of all unions of a schema.
pub fn unions_in(alloc: Global, schema: &Schema) -> AllocResult<Vec<u32>>
    ensures { IfOk result (λ v. HasAllUnions (nodes_view schema.now) v.items) }
{
    let mut unions = Vec::new(alloc);
    for i in 0..schema.places() {
        if let Node::Union { .. } = schema.node(i) {
            unions.push(i)?;
        }
    }
    Ok(unions)
}
