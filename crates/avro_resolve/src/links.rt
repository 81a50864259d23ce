//! Which arrays, maps and records refer to a place, and by which label. A pair of them depends on a
//! pair of places only if both refer to these by the same label.

ghost use Rattle.std.specs.Prelude.{◌<◌, ◌≡◌, length, slice_get, All, Contains, IfOk, OnOk, Some};
ghost use Rattle.avro_nodes.specs.Nodes.{NodeView};
ghost use Rattle.avro_resolve.specs.Inside.Referrers.{ranks_of, HasReferrers, HasLabel, IsLinkOfNode, IsPlaceLinked, LinkedBy, OnlyAddsLinks};
ghost use Rattle.avro_resolve.specs.Inside.Schemas.{names_of, nodes_of, IsValidIndexedSchema};

use crate::AllocResult;
use crate::lists::{add_at, empty_lists, unions_of};
use crate::readable::Aliased;
use crate::schemas::{IndexedSchema, RankMap};
use avro_nodes::Node;
use std::alloc::Global;

/// The kind of a reference.
#[derive(Clone, Copy, Debug, PartialEq, Eq)]
pub enum LinkKind {
    /// an array or a map, to its items or values
    ByElement,
    /// a record, by the name of a field, to the field's type
    ByName,
    /// a reader's record, by an alias of the field with this number, to the field's type
    ByAlias(usize),
}

/// A reference to a place.
#[derive(Clone, Copy, Debug, PartialEq, Eq)]
pub struct Link {
    /// the reader's rank of the field's name or alias, or 0 for items and values
    pub label: u32,
    /// the place that refers
    pub referrer: u32,
    pub kind: LinkKind,
}

/// The references to each place of a schema.
#[derive(Drop)]
pub struct Links {
    /// for each place, the unions that have it as a branch
    pub unions: Vec<Vec<u32>>,
    /// for each place, the links of arrays, maps and records to it
    pub lists: Vec<Vec<Link>>,
    /// the reader's fields with aliases; a field's number is its index; empty for the writer
    pub aliased: Vec<Aliased>,
}

/// The label of items and values. A name may have this rank too; the link's kind shows which it is.
const ELEMENT_LABEL: u32 = 0;

/// For each label, adds to the links of the place `to` one whose referrer is the place `at`. Skips
/// adjacent duplicates.
fn add_links(links: &mut Links, labels: &[u32], kind: LinkKind, to: u32, at: u32) -> AllocResult<()>
    requires { to < length links.old.lists.items }
    ensures only_adds { OnOk result (OnlyAddsLinks (λ x p. Contains labels.now x.label × (x.kind ≡ kind) × (x.referrer ≡ at) × (p ≡ to)) links.old links.new) }
    ensures there { OnOk result (All (λ label. LinkedBy (HasLabel label kind) links.new.lists.items at to) labels.now) }
{
    for index in 0..labels.len() {
        if index > 0 && labels[index] == labels[index - 1] {
            continue;
        }
        let link = Link {
            label: labels[index],
            referrer: at,
            kind,
        };
        add_at(&mut links.lists, to, link)?;
    }
    Ok(())
}

/// Adds the links of the node at a place: to items, values, or the types of fields. A field's label
/// is the reader's rank of its name; if the reader lacks the name, the field gets no link. A
/// reader's field with aliases also gets a number, and a link for each alias.
fn add_node_links(
    links: &mut Links,
    rank_map: Option<&RankMap>,
    indexed: &IndexedSchema,
    referrer: u32,
) -> AllocResult<()>
    requires indexed { IsValidIndexedSchema indexed.now }
    requires asker_in { referrer < length indexed.now.schema.now }
    requires long { length links.old.lists.items ≡ length indexed.now.schema.now }
    ensures only_adds { OnOk result (OnlyAddsLinks (λ x p. (x.referrer ≡ referrer) × ((a : NodeView)
        → slice_get (nodes_of indexed.now) referrer ≡ Some a
        → IsLinkOfNode (names_of indexed.now) (ranks_of rank_map.entry) links.new.aliased.items a x p)) links.old links.new) }
    ensures there { OnOk result ((a : NodeView) → slice_get (nodes_of indexed.now) referrer ≡ Some a
        → IsPlaceLinked (names_of indexed.now) (ranks_of rank_map.entry) links.new referrer a) }
{
    if let Node::Array { items: place, .. } | Node::Map { values: place, .. } = indexed.node(
        referrer,
    ) {
        add_links(
            links,
            &[ELEMENT_LABEL],
            LinkKind::ByElement,
            *place,
            referrer,
        )?;
        return Ok(());
    }
    let fields = indexed.fields(referrer);
    for index in 0..fields.fields.len() {
        let (place, ranks) = (fields.fields[index].place, &fields.ranks[index]);
        let own = rank_map.map_or(Some(ranks.name), |rank_map| rank_map.rank(ranks.name));
        add_links(links, own.as_slice(), LinkKind::ByName, place, referrer)?;
        if rank_map.is_some() || ranks.aliases.is_empty() {
            continue;
        }
        let kind = LinkKind::ByAlias(links.aliased.len());
        links.aliased.push(Aliased {
            place: referrer,
            index,
        })?;
        let mut labels = ranks.aliases.clone()?;
        labels.sort_unstable();
        add_links(links, &labels, kind, place, referrer)?;
    }
    Ok(())
}

/// For each place of a schema the unions that have it as a branch, and the links to it, sorted by
/// label. `rank_map` is `None` for the reader's schema. Only that schema has links by aliases.
pub fn links_of(
    alloc: Global,
    indexed: &IndexedSchema,
    rank_map: Option<&RankMap>,
) -> AllocResult<Links>
    requires { IsValidIndexedSchema indexed.now }
    ensures { IfOk result (λ a. HasReferrers (names_of indexed.now) (ranks_of rank_map.entry) (nodes_of indexed.now) a) }
{
    let mut links = Links {
        unions: unions_of(alloc, indexed.schema)?,
        lists: empty_lists(alloc, indexed.places())?,
        aliased: Vec::new(alloc),
    };
    for i in 0..indexed.places() {
        add_node_links(&mut links, rank_map, indexed, i)?;
    }
    for place in 0..links.lists.len() {
        links.lists[place].sort_unstable_by_key(|link| link.label);
    }
    Ok(links)
}
