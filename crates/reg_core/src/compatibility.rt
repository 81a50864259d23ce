//! Whether a level admits a new schema after the earlier versions of its subject.

ghost use Rattle.std.specs.Prelude.{◌≡◌, ◌↔◌, IsTrue, IfOk, List, map};
ghost use Rattle.avro_nodes.specs.Nodes.{NodeView, nodes_view};
ghost use Rattle.avro_resolve.specs.Resolution.{Resolves};
ghost use Rattle.reg_core.specs.Compatibility.{Admits, Compatible, latest, named_versions};
ghost use Rattle.reg_core.specs.Verdicts.{is_admitted};

use crate::level::Level;
use avro_nodes::OutOfMemory;
use avro_resolve::resolves;
use avro_schema::Schema;
use std::alloc::Global;

/// Whether the level admits the new schema. `earlier` has the schemas of the subject's live
/// versions, in order of number. (Schema Registry API reference, Compatibility; Schema Evolution
/// and Compatibility, Compatibility Types.)
///
/// Stops at the first earlier schema that isn't compatible.
///
/// # Errors
///
/// `OutOfMemory` if an allocation for a comparison fails.
pub fn admits(
    alloc: Global,
    level: Level,
    earlier: &[Schema],
    new: &Schema,
) -> Result<bool, OutOfMemory>
    ensures { IfOk result (λ yes. IsTrue yes
        ↔ Admits level (map nodes_view earlier.now) (nodes_view new.now)) }
{
    let compared = named_versions(level, earlier);
    for schema in compared {
        if !is_compatible(alloc, level, schema, new)? {
            return Ok(false);
        }
    }
    Ok(true)
}

/// The versions that the level compares a new schema with: all, the latest, or none. `earlier` must
/// be in order of number.
pub(crate) fn named_versions<T>(level: Level, earlier: &[T]) -> &[T]
    ensures { result.now ≡ named_versions level earlier.now }
{
    match level {
        Level::Backward | Level::Forward | Level::Full => latest(earlier),
        Level::BackwardTransitive | Level::ForwardTransitive | Level::FullTransitive => earlier,
        Level::Off => &[],
    }
}

/// The last version as a slice, which is empty if there is none.
pub(crate) fn latest<T>(versions: &[T]) -> &[T]
    ensures { result.now ≡ latest versions.now }
{
    &versions[versions.len().saturating_sub(1)..]
}

/// Whether the earlier schema and the new one are compatible in the level's directions.
pub(crate) fn is_compatible(
    alloc: Global,
    level: Level,
    earlier: &Schema,
    new: &Schema,
) -> Result<bool, OutOfMemory>
    ensures { IfOk result (λ yes. IsTrue yes
        ↔ Compatible level (nodes_view earlier.now) (nodes_view new.now)) }
{
    match level {
        Level::Backward | Level::BackwardTransitive => can_read(alloc, earlier, new),
        Level::Forward | Level::ForwardTransitive => can_read(alloc, new, earlier),
        Level::Full | Level::FullTransitive => {
            Ok(can_read(alloc, earlier, new)? && can_read(alloc, new, earlier)?)
        }
        Level::Off => Ok(true),
    }
}

/// Whether the reader's schema can read data written with the writer's.
fn can_read(alloc: Global, writer: &Schema, reader: &Schema) -> Result<bool, OutOfMemory>
    ensures { IfOk result (λ yes. IsTrue yes
        ↔ Resolves (nodes_view writer.now) (nodes_view reader.now)) }
{
    Ok(resolves(alloc, writer, reader)?.yes)
}

/// A law: `is_admitted` decides whether a level admits a schema, for any lists of nodes.
pub fn admission_is_decided()
    ensures { (level : Level) (live : List (List NodeView)) (new : List NodeView)
        → IsTrue (is_admitted level live new) ↔ Admits level live new }
{}
