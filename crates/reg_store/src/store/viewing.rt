//! The parts of the registry that a command needs.

ghost use Rattle.std.specs.Prelude.{◌≡◌, IsTrue, length, option_and_then, option_copied};
ghost use Rattle.reg_core.specs.Rows.{id_of};
ghost use Rattle.reg_core.specs.Views.{IsCommandIdentity, IsViewOf};
ghost use Rattle.reg_store.specs.Stores.{ReadsStore};
ghost use Rattle.reg_store.specs.Inside.Viewing.{IsViewButTexts};
ghost use Rattle.reg_store.specs.Inside.Reads.{MayRead, Reads};

use crate::conn::Conn;
use crate::error::StoreError;
use crate::store::Store;
use crate::store::rows::rows_for;
use crate::store::settings::settings_for;
use crate::store::texts::{count_for, known_for, texts_of};
use reg_core::{Command, View, ids_to_read};
use sqlite::Alter;
use std::alloc::Global;
use std::collections::BTreeMap;

impl<S: Alter> Store<S> {
    /// The view of the registry that the command needs. If the command sends a text of a supported
    /// type, `identity` must be the identity text of its schema, or `None` if it denotes no schema.
    /// For other commands any `identity` will do.
    ///
    /// # Errors
    ///
    /// `Memory`, `Disk`, or `NotARegistry` if the tables no longer spell a registry. In each case
    /// nothing is changed.
    pub fn view(&mut self, command: &Command, identity: Option<&str>) -> Result<View, StoreError>
        ensures { ReadsStore self.old self.new result (λ was view.
            IsCommandIdentity command.now (option_copied identity.entry)
            → IsViewOf view was.registry command.now) }
    {
        if self.failed {
            return Err(StoreError::Disk);
        }
        let view = view_for(self.alloc, &mut self.db, command, identity);
        self.failed = matches!(view, Err(StoreError::Disk));
        view
    }
}

fn view_for<S: Alter>(
    alloc: Global,
    db: &mut Conn<S>,
    command: &Command,
    identity: Option<&str>,
) -> Result<View, StoreError>
    ensures { Reads db.old db.new result (λ was view.
        IsCommandIdentity command.now (option_copied identity.entry)
        → IsViewOf view was.registry command.now) }
{
    let mut view = view_but_texts(alloc, db, command, identity)?;
    let ids = ids_to_read(alloc, command, &view)?;
    let texts = texts_of(alloc, db, ids.as_slice())?;
    view.texts = texts;
    Ok(view)
}

/// The view that the command needs, without texts.
fn view_but_texts<S: Alter>(
    alloc: Global,
    db: &mut Conn<S>,
    command: &Command,
    identity: Option<&str>,
) -> Result<View, StoreError>
    ensures { Reads db.old db.new result (λ was view.
        IsCommandIdentity command.now (option_copied identity.entry)
        → IsViewButTexts view was.registry command.now) }
{
    let needs = command.needs();
    let settings = settings_for(alloc, db, command.subject(), needs)?;
    let ids = ids_for(db, identity, needs.count)?;
    let level = settings.own.unwrap_or(settings.global);
    let rows = rows_for(alloc, db, command.subject(), needs.rows, level, ids.0)?;
    Ok(View {
        rows,
        texts: BTreeMap::new(alloc),
        own: settings.own,
        global: settings.global,
        own_mode: settings.own_mode,
        global_mode: settings.global_mode,
        known: ids.0,
        count: ids.1,
    })
}

/// The id of the schema with this identity text, or `None`, and the number of schemas if it is
/// needed.
fn ids_for<S: Alter>(
    db: &mut Conn<S>,
    identity: Option<&str>,
    needs_count: bool,
) -> Result<(Option<u32>, u32), StoreError>
    ensures { MayRead db.old db.new result (λ was found.
        (found.0 ≡ option_and_then (id_of was.registry.schemas) (option_copied identity.entry))
        × (IsTrue needs_count → found.1 ≡ length was.registry.schemas)) }
{
    let known = known_for(db, identity)?;
    let count = count_for(db, needs_count)?;
    Ok((known, count))
}
