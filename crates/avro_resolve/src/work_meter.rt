//! Counts the recursion's work, and finds the sources of a record's fields.

use crate::AllocResult;
use crate::field_slots::{clear_slots, field_sources, fill_slots};
use crate::schemas::SchemaPair;
use avro_nodes::Node;
use std::alloc::Global;
use std::marker::Model;

/// The work of opening a pair.
const PAIR: u64 = 8;

/// The work done so far, and the slots for a writer's fields, which are empty between calls.
#[derive(Drop)]
pub struct WorkMeter {
    /// `PAIR` for each opened pair, and 1 for each request, field, alias and symbol
    pub work: u64,
    slots: Vec<Option<usize>>,
}

impl Model for WorkMeter {
    ghost use Rattle.std.specs.Prelude.{ℕ};
    ghost use Rattle.avro_resolve.specs.Inside.FieldSlots.{IsClear};

    ghost Value = { ℕ };

    ghost view = { λ work_meter. work_meter.work };

    ghost invariant = { λ work_meter. IsClear work_meter.slots.items };
}

impl WorkMeter {
    ghost use Rattle.std.specs.Prelude.{◌≡◌, ◌<◌, IfOk, Some, length, slice_get};
    ghost use Rattle.avro_nodes.specs.Nodes.{NodeView};
    ghost use Rattle.avro_resolve.specs.Inside.Agreeing.{fields_of};
    ghost use Rattle.avro_resolve.specs.Inside.FieldSlots.{AreFieldSources};
    ghost use Rattle.avro_resolve.specs.Inside.Schemas.{columns, rows, IsValidSchemaPair};

    /// No work; the slots are allocated at the first record.
    pub fn none(alloc: Global) -> WorkMeter {
        let slots = Vec::new(alloc);
        WorkMeter { work: 0, slots }
    }

    /// Counts a request for a pair, even if the result is known.
    pub fn count_one(&mut self) {
        self.work = self.work.saturating_add(1);
    }

    /// Counts `PAIR` for an opened pair of these nodes. If both are enums and the reader's has no
    /// default, also counts the symbols of both.
    pub fn count_pair(&mut self, a: &Node, b: &Node) {
        let symbols = match (a, b) {
            (
                Node::Enum { symbols, .. },
                Node::Enum {
                    symbols: known,
                    fallback: None,
                    ..
                },
            ) => (symbols.len() as u64).saturating_add(known.len() as u64),
            _ => 0,
        };
        self.work = self.work.saturating_add(symbols).saturating_add(PAIR);
    }

    /// Returns the place of the source's type, or `None`, for each field of the reader's record at
    /// j. Counts both records' fields, and the aliases of the reader's.
    pub fn sources(
        &mut self,
        alloc: Global,
        schemas: &SchemaPair,
        i: u32,
        j: u32,
    ) -> AllocResult<Vec<Option<u16>>>
        requires schemas { IsValidSchemaPair schemas.now }
        requires i_in { i < length schemas.now.writer.schema.now }
        requires j_in { j < length schemas.now.reader.schema.now }
        ensures { IfOk result (λ v. (a b : NodeView) → slice_get (rows schemas.now) i ≡ Some a
            → slice_get (columns schemas.now) j ≡ Some b → AreFieldSources (fields_of a) (fields_of b) v.items) }
    {
        let (fields, wanted) = (schemas.writer.fields(i), schemas.reader.fields(j));
        self.work = self.work.saturating_add(fields.ranks.len() as u64);
        for sought in wanted.ranks {
            self.work = self.work.saturating_add(sought.aliases.len() as u64 + 1);
        }
        let names = schemas.reader.index.names.len();
        if self.slots.len() < names {
            self.slots.resize(names, None)?;
        }
        let slots = self.slots.as_mut_slice();
        fill_slots(slots, &schemas.rank_map, fields.ranks);
        let places = field_sources(alloc, slots, schemas, fields, wanted);
        clear_slots(slots, &schemas.rank_map, fields.ranks);
        places
    }
}
