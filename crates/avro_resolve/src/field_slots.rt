//! The fields of a writer's record, indexed by name rank, and the sources of a reader's fields.

ghost use Rattle.std.specs.Prelude.{◌<◌, ◌≡◌, map, All, IfOk};
ghost use Rattle.avro_nodes.specs.Nodes.{field_view, FieldView};
ghost use Rattle.avro_schema.specs.Index.{AreFieldsRanked, IsFieldRanked};
ghost use Rattle.avro_resolve.specs.Asking.{source_place};
ghost use Rattle.avro_resolve.specs.Inside.FieldSlots.{names_in, AreInSlots, AreFieldsInSlots, AreFieldSources, HasSlots, IsClear};
ghost use Rattle.avro_resolve.specs.Inside.Schemas.{names_of};

use crate::AllocResult;
use crate::schemas::{Fields, RankMap, SchemaPair};
use avro_schema::FieldRanks;
use std::alloc::Global;

/// Puts the index of each field into the slot of its name's rank in the reader's schema. Skips a
/// field if the reader lacks its name. It begins with the last field, so that the first of a name
/// remains.
pub fn fill_slots(slots: &mut [Option<usize>], rank_map: &RankMap, fields: &[FieldRanks])
    requires clear { IsClear slots.old }
    requires has_slots { HasSlots slots.old rank_map.now.ranks.items }
    ensures { AreInSlots rank_map.now.ranks.items (names_in fields.now) 0 slots.new }
{
    for k in (0..fields.len()).rev() {
        let field = &fields[k];
        if let Some(rank) = rank_map.rank(field.name) {
            slots[rank as usize] = Some(k);
        }
    }
}

/// Removes the fields again.
pub fn clear_slots(slots: &mut [Option<usize>], rank_map: &RankMap, fields: &[FieldRanks])
    requires in_slots { AreInSlots rank_map.now.ranks.items (names_in fields.now) 0 slots.old }
    requires has_slots { HasSlots slots.old rank_map.now.ranks.items }
    ensures { IsClear slots.new }
{
    for k in 0..fields.len() {
        let field = &fields[k];
        if let Some(rank) = rank_map.rank(field.name) {
            slots[rank as usize] = None;
        }
    }
}

/// The place of the type of a reader's field's source, or `None` without a source. The source is
/// the writer's field of the same name, else of the first alias that names one. An alias that the
/// writer lacks needs no lookup.
pub fn find_source(
    slots: &[Option<usize>],
    schemas: &SchemaPair,
    fields: Fields,
    names: &FieldRanks,
) -> Option<u32>
    requires in_slots { AreFieldsInSlots schemas.now fields slots.now }
    requires named { (f : FieldView) × IsFieldRanked (names_of schemas.now.reader) f names.now }
    ensures { (f : FieldView) → IsFieldRanked (names_of schemas.now.reader) f names.now
        → result ≡ source_place (map field_view fields.entry.fields.now) f }
{
    if let Some(own) = slots[names.name as usize] {
        return Some(fields.fields[own].place);
    }
    for alias in &names.aliases {
        if !schemas.rank_map.writer_has(*alias) {
            continue;
        }
        if let Some(field) = slots[*alias as usize] {
            return Some(fields.fields[field].place);
        }
    }
    None
}

/// The same for all fields of the reader's record, in order.
pub fn field_sources(
    alloc: Global,
    slots: &[Option<usize>],
    schemas: &SchemaPair,
    fields: Fields,
    wanted: Fields,
) -> AllocResult<Vec<Option<u16>>>
    requires in_slots { AreFieldsInSlots schemas.now fields slots.now }
    requires fields_in { All (λ g. g.place < 65535) fields.fields.now }
    requires named { AreFieldsRanked (names_of schemas.now.reader) (map field_view wanted.fields.now) wanted.ranks.now }
    ensures { IfOk result (λ v. AreFieldSources (map field_view fields.entry.fields.now) (map field_view wanted.entry.fields.now) v.items) }
{
    let mut places = Vec::with_capacity(alloc, wanted.ranks.len())?;
    for names in wanted.ranks {
        let place = find_source(slots, schemas, fields, names);
        places.push(place.map(|place| place as u16))?;
    }
    Ok(places)
}
