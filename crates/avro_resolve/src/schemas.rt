//! The two schemas of a resolution, and the map from the writer's name ranks to the reader's.

ghost use Rattle.std.specs.Prelude.{◌<◌, ◌^◌, ◌≡◌, ◌≢◌, ◌≤◌, [], get_or, length, map, slice_get, All, IfOk, MatchOption, Some, ℕ};
ghost use Rattle.std.specs.Cmp.Lexicographic.{slice_cmp};
ghost use Rattle.std.specs.Ordering.{nat_cmp};
ghost use Rattle.std.specs.declared.cmp.Ordering.TheVariants.{Less};
ghost use Rattle.avro_nodes.specs.Nodes.{field_view, node_view, texts_view, NodeView};
ghost use Rattle.avro_schema.specs.Index.{AreFieldsRanked, IsRanked};
ghost use Rattle.avro_resolve.specs.Inside.Agreeing.{fields_of};
ghost use Rattle.avro_resolve.specs.Inside.RankMaps.{mapped_rank, IsKnown};
ghost use Rattle.avro_resolve.specs.Inside.Schemas.{names_of, nodes_of, IsValidIndexedSchema, IsValidSchemaPair};

use crate::AllocResult;
use avro_nodes::{Field, Node};
use avro_schema::{FieldRanks, Index, Ranks, Schema};
use std::alloc::Global;
use std::cmp::Ordering;

/// For each of the writer's names its rank among the reader's names, or `None` if the reader lacks
/// it.
#[derive(Drop)]
pub struct RankMap {
    pub ranks: Vec<Option<u32>>,
    /// for each of the reader's names whether the writer has it
    pub writer_has: Vec<bool>,
}

/// For each rank below `count`, whether it is one of these.
fn known_of(alloc: Global, ranks: &[Option<u32>], count: usize) -> AllocResult<Vec<bool>>
    requires { (k rank : ℕ) → mapped_rank ranks.now k ≡ Some rank → rank < count }
    ensures { IfOk result (λ v. IsKnown ranks.now v.items) }
{
    let mut known = vec![in alloc; false; count]?;
    for mapped in ranks {
        if let Some(rank) = mapped {
            known[*rank as usize] = true;
        }
    }
    Ok(known)
}

/// The first rank, at or after `from`, of a name that isn't less than this one, or the number of
/// names. Also that rank if the name is equal, else `None`.
fn first_from(names: &[String], from: usize, name: &str) -> (usize, Option<u32>)
    requires few { length names.now < 2 ^ 32 }
    requires from { from ≤ length names.now }
    ensures within { result.0 ≤ length names.now }
    ensures below { (k : ℕ) → from ≤ k → k < result.0
        → slice_cmp nat_cmp (get_or (texts_view names.now) k []) name.now ≡ Less }
    ensures at { result.0 < length names.now
        → slice_cmp nat_cmp (get_or (texts_view names.now) result.0 []) name.now ≢ Less }
    ensures mapped { MatchOption result.1 (slice_get (texts_view names.now) result.0 ≢ Some name.now)
        (λ rank. slice_get (texts_view names.now) rank ≡ Some name.now) }
{
    for at in from..names.len() {
        match names[at].as_str().cmp(name) {
            Ordering::Less => {}
            Ordering::Equal => return (at, Some(at as u32)),
            Ordering::Greater => return (at, None),
        }
    }
    (names.len(), None)
}

impl RankMap {
    ghost use Rattle.std.specs.Prelude.{◌≡◌, false, get_or, IfOk, Some};
    ghost use Rattle.avro_nodes.specs.Nodes.{texts_view};
    ghost use Rattle.avro_schema.specs.Index.{AreIndexNames};
    ghost use Rattle.avro_resolve.specs.Inside.RankMaps.{mapped_rank, AreMapped, IsKnown};

    /// Maps the ranks, in one pass over both sorted lists of names.
    pub fn of(alloc: Global, writer: &[String], reader: &[String]) -> AllocResult<RankMap>
        requires writer { AreIndexNames (texts_view writer.now) }
        requires reader { AreIndexNames (texts_view reader.now) }
        ensures mapped { IfOk result (λ m. AreMapped (texts_view writer.now) (texts_view reader.now) m.ranks.items) }
        ensures known { IfOk result (λ m. IsKnown m.ranks.items m.writer_has.items) }
    {
        let mut ranks = Vec::with_capacity(alloc, writer.len())?;
        let mut from = 0;
        for rank in 0..writer.len() {
            let (at, mapped) = first_from(reader, from, writer[rank].as_str());
            from = at;
            ranks.push(mapped)?;
        }
        let writer_has = known_of(alloc, &ranks, reader.len())?;
        Ok(RankMap { ranks, writer_has })
    }

    /// The reader's rank of a writer's name, or `None` if the reader lacks the name.
    pub fn rank(&self, writer_rank: u32) -> Option<u32>
        ensures { result ≡ mapped_rank self.now.ranks.items writer_rank }
    {
        *self.ranks.get(writer_rank as usize)?
    }

    /// Whether the writer has the reader's name of this rank.
    pub fn writer_has(&self, reader_rank: u32) -> bool
        ensures { result ≡ get_or self.now.writer_has.items reader_rank false }
    {
        match self.writer_has.get(reader_rank as usize) {
            Some(known) => *known,
            None => false,
        }
    }
}

/// A schema with its index.
#[derive(Clone, Copy)]
pub struct IndexedSchema<'a> {
    pub schema: &'a Schema,
    pub index: &'a Index,
}

/// The writer's schema and the reader's.
#[derive(Drop)]
pub struct SchemaPair<'a> {
    pub writer: IndexedSchema<'a>,
    pub reader: IndexedSchema<'a>,
    pub rank_map: RankMap,
}

/// The fields of a record, and the ranks of their names.
#[derive(Clone, Copy)]
pub struct Fields<'a> {
    pub fields: &'a [Field],
    pub ranks: &'a [FieldRanks],
}

impl<'a> IndexedSchema<'a> {
    fn of(schema: &'a Schema) -> IndexedSchema<'a>
        ensures indexed { IsValidIndexedSchema result }
        ensures schema { result.schema.now ≡ schema.now }
    {
        let (_places, index) = (schema.places(), schema.index());
        IndexedSchema { schema, index }
    }

    /// The number of places.
    pub fn places(&self) -> u32
        ensures places { result ≡ length self.now.schema.now }
    {
        self.schema.places()
    }

    /// The node at a place.
    pub fn node(&self, place: u32) -> &Node
        requires { place < length self.now.schema.now }
        ensures raw { slice_get self.now.schema.now place ≡ Some result.now }
        ensures node { slice_get (nodes_of self.now) place ≡ Some (node_view result.now) }
    {
        self.schema.node(place)
    }

    /// The ranks of the names of the node at a place.
    pub fn ranks(&self, place: u32) -> &Ranks
        requires indexed { IsValidIndexedSchema self.now }
        requires within { place < length (nodes_of self.now) }
        ensures { (a : NodeView) → slice_get (nodes_of self.now) place ≡ Some a
            → IsRanked (names_of self.now) a result.now }
    {
        &self.index.ranks[place as usize]
    }

    /// The fields of the node at a place, or none if it isn't a record.
    pub fn fields(&self, place: u32) -> Fields<'_>
        requires indexed { IsValidIndexedSchema self.now }
        requires within { place < length self.now.schema.now }
        ensures are { (a : NodeView) → slice_get (nodes_of self.now) place ≡ Some a
            → map field_view result.fields.now ≡ fields_of a }
        ensures ranked { AreFieldsRanked (names_of self.now) (map field_view result.fields.now) result.ranks.now }
        ensures long { length result.ranks.now ≡ length result.fields.now }
        ensures in_schema { All (λ f. f.place < length self.now.schema.now) result.fields.now }
    {
        match (self.node(place), self.ranks(place)) {
            (Node::Rec { fields, .. }, Ranks::Rec { fields: ranks, .. }) => Fields {
                fields,
                ranks,
            },
            _ => Fields {
                fields: &[],
                ranks: &[],
            },
        }
    }
}

impl<'a> SchemaPair<'a> {
    /// Both schemas, with the map of their name ranks.
    pub fn of(alloc: Global, writer: &'a Schema, reader: &'a Schema) -> AllocResult<SchemaPair<'a>>
        ensures schemas { IfOk result (λ s. IsValidSchemaPair s) }
        ensures writer { IfOk result (λ s. s.writer.schema.now ≡ writer.now) }
        ensures reader { IfOk result (λ s. s.reader.schema.now ≡ reader.now) }
    {
        let (writer, reader) = (IndexedSchema::of(writer), IndexedSchema::of(reader));
        let rank_map = RankMap::of(alloc, &writer.index.names, &reader.index.names)?;
        Ok(SchemaPair {
            writer,
            reader,
            rank_map,
        })
    }
}
