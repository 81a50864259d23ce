//! The lines of schemas in the order of their ids.

ghost use Rattle.std.specs.Prelude.{◌≡◌, None, Some, IsSome, length, option_map, MatchResult};
ghost use Rattle.sqlite.specs.State.{HasCleanDisk};
ghost use Rattle.reg_core.specs.Rows.{text_at};
ghost use Rattle.reg_store.specs.Failures.{IsFaultBy};
ghost use Rattle.reg_store.specs.Listings.{fields_of, lines_of, schema_line, schema_lines};
ghost use Rattle.reg_core.specs.Stored.{Stored};
ghost use Rattle.reg_store.specs.Spells.{SpellsWhileOpen};
ghost use Rattle.reg_store.specs.Inside.Reads.{Reads, CommitsNothing, shown};

use crate::conn::Conn;
use crate::error::StoreError;
use crate::store::lines::{push_line, schema_line};
use crate::store::texts::{count, text_with_id};
use sqlite::Alter;
use std::alloc::Global;

pub(crate) fn listed_schemas<S: Alter>(
    alloc: Global,
    db: &mut Conn<S>,
) -> Result<Vec<Vec<String>>, StoreError>
    ensures { Reads db.old db.new result (λ was lines. lines_of lines ≡ schema_lines was.registry.schemas) }
{
    let count = count(db)?;
    each_schema(alloc, db, count)
}

/// The lines of all schemas, if `count` is their number.
fn each_schema<S: Alter>(
    alloc: Global,
    db: &mut Conn<S>,
    count: u32,
) -> Result<Vec<Vec<String>>, StoreError>
    ensures rests { CommitsNothing (shown db.old) (shown db.new) }
    ensures answers { HasCleanDisk (shown db.new) → (was : Stored) → SpellsWhileOpen (shown db.old) was
        → count ≡ length was.registry.schemas
        → MatchResult result (λ lines. lines_of lines ≡ schema_lines was.registry.schemas)
        (IsFaultBy (shown db.old) (shown db.new)) }
{
    let mut lines = Vec::new(alloc);
    for index in 0..count {
        push_line(&mut lines, listed_schema(alloc, db, index + 1)?)?;
    }
    Ok(lines)
}

fn listed_schema<S: Alter>(
    alloc: Global,
    db: &mut Conn<S>,
    id: u32,
) -> Result<Vec<String>, StoreError>
    ensures rests { CommitsNothing (shown db.old) (shown db.new) }
    ensures answers { HasCleanDisk (shown db.new) → (was : Stored) → SpellsWhileOpen (shown db.old) was
        → IsSome (text_at was.registry.schemas id)
        → MatchResult result (λ line.
        option_map (schema_line id) (text_at was.registry.schemas id) ≡ Some (fields_of line))
        (IsFaultBy (shown db.old) (shown db.new)) }
{
    match text_with_id(db, id)? {
        None => Err(StoreError::NotARegistry),
        Some(text) => Ok(schema_line(alloc, id, text)?),
    }
}
