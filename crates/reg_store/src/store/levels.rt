//! The global level and the levels of subjects.

ghost use Rattle.std.specs.Prelude.{◌≡◌, None, Some, IfOk, OnErr, IsTrue, option_and_then, option_copied};
ghost use Rattle.reg_core.specs.Levels.{level_of};
ghost use Rattle.reg_store.specs.Inside.Reads.{MayRead, Reads};

use crate::conn::Conn;
use crate::error::StoreError;
use reg_core::{Level, Subject};
use reg_tables::{global_level, own_level};
use sqlite::Alter;

/// The subject's own level, if it has one and `needed` is set, and the global level.
pub(crate) fn levels_for<S: Alter>(
    db: &mut Conn<S>,
    subject: Option<&Subject>,
    needed: bool,
) -> Result<(Option<Level>, Level), StoreError>
    ensures { Reads db.old db.new result (λ was levels. IsTrue needed
        → (levels.0 ≡ option_and_then was.registry.own (option_copied subject.entry))
        × (levels.1 ≡ was.registry.global)) }
{
    let global = global(db)?;
    let own = own_for(db, subject, needed)?;
    Ok((own, global))
}

/// The subject's own level, if it has one and `needed` is set.
pub(crate) fn own_for<S: Alter>(
    db: &mut Conn<S>,
    subject: Option<&Subject>,
    needed: bool,
) -> Result<Option<Level>, StoreError>
    ensures { MayRead db.old db.new result (λ was own.
        IsTrue needed → own ≡ option_and_then was.registry.own (option_copied subject.entry)) }
{
    if !needed {
        return Ok(None);
    }
    match subject {
        None => Ok(None),
        Some(subject) => own(db, subject),
    }
}

/// The subject's own level, or `None`.
pub(crate) fn own<S: Alter>(
    db: &mut Conn<S>,
    subject: &Subject,
) -> Result<Option<Level>, StoreError>
    ensures { Reads db.old db.new result (λ was own. own ≡ was.registry.own subject.now) }
{
    match own_level(&mut db.idle, subject.as_str())? {
        None => Ok(None),
        Some(text) => Ok(Some(parse_level(text.as_str())?)),
    }
}

fn global<S: Alter>(db: &mut Conn<S>) -> Result<Level, StoreError>
    ensures { Reads db.old db.new result (λ was level. level ≡ was.registry.global) }
{
    match global_level(&mut db.idle)? {
        None => Err(StoreError::NotARegistry),
        Some(text) => parse_level(text.as_str()),
    }
}

pub(crate) fn parse_level(text: &str) -> Result<Level, StoreError>
    ensures ok { IfOk result (λ level. level_of text.now ≡ Some level) }
    ensures err { OnErr result (level_of text.now ≡ None) }
{
    match Level::parse(text) {
        None => Err(StoreError::NotARegistry),
        Some(level) => Ok(level),
    }
}
