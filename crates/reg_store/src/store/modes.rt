//! The modes of subjects.

ghost use Rattle.std.specs.Prelude.{◌≡◌, None, Some, IfOk, OnErr, option_and_then, option_copied};
ghost use Rattle.reg_core.specs.Modes.{mode_of};
ghost use Rattle.reg_store.specs.Inside.Reads.{MayRead, Reads};

use crate::conn::Conn;
use crate::error::StoreError;
use reg_core::{Mode, Subject};
use reg_tables::own_mode;
use sqlite::Alter;

/// The own mode of the subject, if one is given and has one.
pub(crate) fn own_for<S: Alter>(
    db: &mut Conn<S>,
    subject: Option<&Subject>,
) -> Result<Option<Mode>, StoreError>
    ensures { MayRead db.old db.new result (λ was own.
        own ≡ option_and_then was.registry.own_modes (option_copied subject.entry)) }
{
    match subject {
        None => Ok(None),
        Some(subject) => own(db, subject),
    }
}

/// The own mode of the subject, or `None`.
fn own<S: Alter>(db: &mut Conn<S>, subject: &Subject) -> Result<Option<Mode>, StoreError>
    ensures { Reads db.old db.new result (λ was own. own ≡ was.registry.own_modes subject.now) }
{
    match own_mode(&mut db.idle, subject.as_str())? {
        None => Ok(None),
        Some(text) => Ok(Some(mode_in(text.as_str())?)),
    }
}

/// The mode that a row spells.
fn mode_in(text: &str) -> Result<Mode, StoreError>
    ensures ok { IfOk result (λ mode. mode_of text.now ≡ Some mode) }
    ensures err { OnErr result (mode_of text.now ≡ None) }
{
    match Mode::parse(text) {
        None => Err(StoreError::NotARegistry),
        Some(mode) => Ok(mode),
    }
}
