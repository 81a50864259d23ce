//! Schemas: their texts, their ids, and their number.

ghost use Rattle.std.specs.Prelude.{◌≡◌, None, OnOk, All, IsTrue, length, option_map, option_and_then, option_copied, string_bytes};
ghost use Rattle.reg_core.specs.Rows.{id_of, text_at};
ghost use Rattle.reg_store.specs.Inside.Viewing.{HasText, AreTrueTexts, AddsText, InsertsText};
ghost use Rattle.reg_store.specs.Inside.Reads.{MayRead, Reads};

use crate::conn::Conn;
use crate::error::StoreError;
use reg_core::OutOfMemory;
use reg_tables::{id_of, last_id, text_of};
use sqlite::Alter;
use std::alloc::Global;
use std::collections::BTreeMap;

/// The identity text of the id's schema, or `None`.
pub(crate) fn text_with_id<S: Alter>(
    db: &mut Conn<S>,
    id: u32,
) -> Result<Option<String>, StoreError>
    ensures { Reads db.old db.new result (λ was found.
        option_map string_bytes found ≡ text_at was.registry.schemas id) }
{
    Ok(text_of(&mut db.idle, id)?)
}

pub(crate) fn count<S: Alter>(db: &mut Conn<S>) -> Result<u32, StoreError>
    ensures { Reads db.old db.new result (λ was count. count ≡ length was.registry.schemas) }
{
    match last_id(&mut db.idle)? {
        None => Ok(0),
        Some(id) => Ok(id),
    }
}

/// The id of the schema with this identity text; `None` without a text or a schema.
pub(crate) fn known_for<S: Alter>(
    db: &mut Conn<S>,
    identity: Option<&str>,
) -> Result<Option<u32>, StoreError>
    ensures { MayRead db.old db.new result (λ was known.
        known ≡ option_and_then (id_of was.registry.schemas) (option_copied identity.entry)) }
{
    match identity {
        None => Ok(None),
        Some(text) => Ok(id_of(&mut db.idle, text)?),
    }
}

/// The number of schemas if it is needed, otherwise 0.
pub(crate) fn count_for<S: Alter>(db: &mut Conn<S>, needed: bool) -> Result<u32, StoreError>
    ensures { MayRead db.old db.new result (λ was count.
        IsTrue needed → count ≡ length was.registry.schemas) }
{
    if needed { count(db) } else { Ok(0) }
}

/// The identity texts of these ids, without ids that have none.
pub(crate) fn texts_of<S: Alter>(
    alloc: Global,
    db: &mut Conn<S>,
    ids: &[u32],
) -> Result<BTreeMap<u32, String>, StoreError>
    ensures { MayRead db.old db.new result (λ was texts.
        All (HasText texts was.registry.schemas) ids.now × AreTrueTexts texts was.registry.schemas) }
{
    let mut texts = BTreeMap::new(alloc);
    for id in ids {
        add_text(db, &mut texts, *id)?;
    }
    Ok(texts)
}

/// Adds the identity text of the id, if the id has one and the map lacks it.
fn add_text<S: Alter>(
    db: &mut Conn<S>,
    texts: &mut BTreeMap<u32, String>,
    id: u32,
) -> Result<(), StoreError>
    ensures { MayRead db.old db.new result (λ was _. AddsText texts.old texts.new was.registry.schemas id) }
{
    if texts.contains_key(&id) {
        return Ok(());
    }
    let found = text_with_id(db, id)?;
    Ok(insert_text(texts, id, found)?)
}

/// Inserts the text of the id into the map, if it was found.
fn insert_text(
    texts: &mut BTreeMap<u32, String>,
    id: u32,
    found: Option<String>,
) -> Result<(), OutOfMemory>
    ensures { OnOk result (InsertsText texts.old texts.new id found) }
{
    match found {
        None => Ok(()),
        Some(text) => {
            texts.insert(id, text)?;
            Ok(())
        }
    }
}
