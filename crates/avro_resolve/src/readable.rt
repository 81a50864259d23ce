//! Whether a reader's fields can be read from a writer's place whose fields are in the slots. For
//! fields with aliases, a table of source entries by writer's place finds the source in one lookup.

ghost use Rattle.std.specs.Prelude.{◌<◌, ◌↔◌, ◌≡◌, map, slice_get, All, IfOk, IfSome, IsTrue, List, Some, ℕ};
ghost use Rattle.std.specs.List.{AllZip};
ghost use Rattle.avro_nodes.specs.Nodes.{field_view, FieldView, NodeView};
ghost use Rattle.avro_schema.specs.Index.{IsFieldRanked};
ghost use Rattle.avro_resolve.specs.Inside.Agreeing.{fields_of};
ghost use Rattle.avro_resolve.specs.Inside.FieldSlots.{AreFieldsInSlots};
ghost use Rattle.avro_resolve.specs.Inside.Remaining.{remains};
ghost use Rattle.avro_resolve.specs.Inside.Rows.{row_fields, IsFieldSource, TableCoversPair, IsWriterPlace};
ghost use Rattle.avro_resolve.specs.Inside.Schemas.{columns, IsValidIndexedSchema};
ghost use Rattle.avro_resolve.specs.Inside.Sources.{field_at, Describes, IsSourceEntry, DescribesAliasedField};
ghost use Rattle.avro_resolve.specs.Resolution.{Readable};
ghost use Rattle.avro_resolve.specs.declared.schemas.SchemaPair.{SchemaPair};

use crate::AllocResult;
use crate::field_slots::find_source;
use crate::schemas::{Fields, IndexedSchema, SchemaPair};
use crate::table::Table;
use avro_nodes::Field;
use avro_schema::FieldRanks;
use std::alloc::Global;

/// A reader's field that has aliases.
#[derive(Clone, Copy, Debug, PartialEq, Eq)]
pub struct Aliased {
    /// the place of its record
    pub place: u32,
    /// its index among the record's fields
    pub index: usize,
}

/// The reader's fields that have aliases. A field's number is its index in `aliased`.
#[derive(Clone, Copy)]
pub struct AliasedFields<'a> {
    pub aliased: &'a [Aliased],
    /// for each of the reader's places, the number of its first such field, or 0 if it has none
    pub firsts: &'a [usize],
    /// each of these fields, or `None` if the schema has no such field; this never happens, but no
    /// invariant says so
    pub wanted: &'a [Option<ReaderField<'a>>],
}

/// A reader's field: what decides whether it can be read.
#[derive(Clone, Copy)]
pub struct ReaderField<'a> {
    /// the place of its type
    pub place: u32,
    pub has_default: bool,
    /// the ranks of its names
    pub names: &'a FieldRanks,
}

fn reader_field<'a>(field: &Field, names: &'a FieldRanks) -> ReaderField<'a>
    ensures { (texts : List (List ℕ)) → IsFieldRanked texts (field_view field.now) names.now
        → Describes texts result (field_view field.now) }
{
    ReaderField {
        place: field.place,
        has_default: field.value.is_some(),
        names,
    }
}

/// Looks up a field that has aliases. `None`: the schema has no such field.
fn reader_field_of<'a>(indexed: &'a IndexedSchema, aliased: Aliased) -> Option<ReaderField<'a>>
    requires { IsValidIndexedSchema indexed.now }
    ensures { DescribesAliasedField indexed.now aliased result }
{
    if aliased.place >= indexed.places() {
        return None;
    }
    let found = indexed.fields(aliased.place);
    let field = found.fields.get(aliased.index)?;
    Some(reader_field(field, found.ranks.get(aliased.index)?))
}

/// Looks up each of these fields.
pub fn reader_fields_of<'a>(
    alloc: Global,
    indexed: &'a IndexedSchema,
    aliased: &[Aliased],
) -> AllocResult<Vec<Option<ReaderField<'a>>>>
    requires { IsValidIndexedSchema indexed.now }
    ensures { IfOk result (λ v. AllZip (DescribesAliasedField indexed.now) aliased.now v.items) }
{
    let mut wanted = Vec::with_capacity(alloc, aliased.len())?;
    for field in aliased {
        wanted.push(reader_field_of(indexed, *field))?;
    }
    Ok(wanted)
}

/// For each place the number of its first field with aliases, or 0 if it has none.
pub fn firsts_of(alloc: Global, places: u32, fields: &[Aliased]) -> AllocResult<Vec<usize>> {
    let mut firsts = vec![in alloc; 0; places as usize]?;
    for number in (0..fields.len()).rev() {
        if let Some(first) = firsts.get_mut(fields[number].place as usize) {
            *first = number;
        }
    }
    Ok(firsts)
}

/// One row of the table: the source entries of the reader's fields with aliases, for the writer's
/// fields in the slots. An entry is the place of the source's type plus 1, or 0 without a source.
pub fn source_entries(
    alloc: Global,
    slots: &[Option<usize>],
    schemas: &SchemaPair,
    fields: Fields,
    aliased_fields: AliasedFields,
) -> AllocResult<Vec<u16>>
    requires in_slots { AreFieldsInSlots schemas.now fields slots.now }
    requires fields_in { All (λ g. g.place < 65535) fields.fields.now }
    requires wanted { AllZip (DescribesAliasedField schemas.now.reader) aliased_fields.aliased.now aliased_fields.wanted.now }
    ensures { IfOk result (λ v. AllZip (IsSourceEntry (columns schemas.now) (map field_view fields.entry.fields.now))
        aliased_fields.entry.aliased.now v.items) }
{
    if fields.fields.is_empty() {
        return Ok(vec![in alloc; 0; aliased_fields.wanted.len()]?);
    }
    let mut row = Vec::with_capacity(alloc, aliased_fields.wanted.len())?;
    for wanted in aliased_fields.wanted {
        let place = match wanted {
            Some(wanted) => find_source(slots, schemas, fields, wanted.names),
            None => None,
        };
        row.push(place.map_or(0, |place| place as u16 + 1))?;
    }
    Ok(row)
}

/// A place of the writer whose fields are in the slots.
#[derive(Clone, Copy)]
pub struct WriterPlace<'a> {
    pub place: u32,
    /// its fields, if it is a record
    pub fields: Fields<'a>,
    pub slots: &'a [Option<usize>],
    /// the reader's fields that have aliases
    pub aliased_fields: AliasedFields<'a>,
    /// the source entries of these fields at this place
    pub entries: &'a [u16],
}

/// If the field has this number: the place of its source's type, if it has a source, and the field.
/// Otherwise `None`.
fn known_source<'a>(
    row: &WriterPlace<'a>,
    number: usize,
    field: Aliased,
) -> Option<(Option<u32>, ReaderField<'a>)>
    ensures { IfSome result (λ known. (schemas : SchemaPair) (f : FieldView) → IsWriterPlace schemas row.now
        → field_at (columns schemas) field ≡ Some f → IsFieldSource schemas row.now known.0 known.1 f) }
{
    if *row.aliased_fields.aliased.get(number)? != field {
        return None;
    }
    let (entry, wanted) = (
        row.entries.get(number)?,
        row.aliased_fields.wanted.get(number)?,
    );
    Some((entry.checked_sub(1).map(u32::from), (*wanted)?))
}

/// Whether each field of a reader's record can be read from the writer's place.
pub fn all_readable(schemas: &SchemaPair, row: &WriterPlace, j: u32, table: &Table) -> bool
    requires { TableCoversPair schemas.now row.now table.now j }
    ensures { (b : NodeView) → slice_get (columns schemas.now) j ≡ Some b
        → IsTrue result ↔ All (Readable (remains table.now) (row_fields row.now)) (fields_of b) }
{
    let wanted = schemas.reader.fields(j);
    let mut number = row
        .aliased_fields
        .firsts
        .get(j as usize)
        .copied()
        .unwrap_or(0);
    for index in 0..wanted.fields.len() {
        let (source, sought) = match known_source(row, number, Aliased { place: j, index }) {
            Some(known) => {
                number = number.saturating_add(1);
                known
            }
            None => {
                let (field, names) = (&wanted.fields[index], &wanted.ranks[index]);
                let source = find_source(row.slots, schemas, row.fields, names);
                (source, reader_field(field, names))
            }
        };
        if !source.map_or(sought.has_default, |place| table.has(place, sought.place)) {
            return false;
        }
    }
    true
}
