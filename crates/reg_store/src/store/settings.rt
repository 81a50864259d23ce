//! The levels and the modes that a command needs.

ghost use Rattle.std.specs.Prelude.{◌≡◌, ◌⊎◌, None, Some, IfOk, OnErr, IsTrue, codes, option_and_then, option_copied};
ghost use Rattle.reg_core.specs.Levels.{level_of};
ghost use Rattle.reg_core.specs.Modes.{mode_of};
ghost use Rattle.reg_tables.specs.Listings.{meta_value};
ghost use Rattle.reg_store.specs.Inside.Reads.{Reads};

use crate::conn::Conn;
use crate::error::StoreError;
use crate::store::levels::{levels_for, own_for as own_level_for};
use crate::store::modes::own_for as own_mode_for;
use reg_core::{Level, Mode, Needs, Subject};
use reg_tables::{RawMeta, raw_meta};
use sqlite::Alter;
use std::alloc::Global;

/// The level and the mode of a subject, and the global ones.
#[derive(Clone, Copy)]
pub(crate) struct LevelsAndModes {
    /// The subject's own level. `None` if it has none, or without a subject.
    pub own: Option<Level>,
    /// The global level.
    pub global: Level,
    /// The subject's own mode. `None` if it has none, or without a subject.
    pub own_mode: Option<Mode>,
    /// The global mode.
    pub global_mode: Mode,
}

/// The levels and the modes for a command on this subject. The levels may be placeholders unless
/// `needs.levels` is set, the modes unless `needs.modes` is set.
pub(crate) fn settings_for<S: Alter>(
    alloc: Global,
    db: &mut Conn<S>,
    subject: Option<&Subject>,
    needs: Needs,
) -> Result<LevelsAndModes, StoreError>
    ensures { Reads db.old db.new result (λ was settings.
        (IsTrue needs.levels
        → (settings.own ≡ option_and_then was.registry.own (option_copied subject.entry))
        × (settings.global ≡ was.registry.global))
        × (IsTrue needs.modes
        → (settings.own_mode ≡ option_and_then was.registry.own_modes (option_copied subject.entry))
        × (settings.global_mode ≡ was.registry.global_mode))) }
{
    if needs.modes {
        return settings_with_modes(alloc, db, subject, needs.levels);
    }
    let levels = levels_for(db, subject, needs.levels)?;
    Ok(LevelsAndModes {
        own: levels.0,
        global: levels.1,
        own_mode: None,
        global_mode: Mode::Readwrite,
    })
}

/// As `settings_for` if the modes are needed. Without `needs_levels` the levels may be
/// placeholders.
fn settings_with_modes<S: Alter>(
    alloc: Global,
    db: &mut Conn<S>,
    subject: Option<&Subject>,
    needs_levels: bool,
) -> Result<LevelsAndModes, StoreError>
    ensures { Reads db.old db.new result (λ was settings.
        (IsTrue needs_levels
        → (settings.own ≡ option_and_then was.registry.own (option_copied subject.entry))
        × (settings.global ≡ was.registry.global))
        × ((settings.own_mode
        ≡ option_and_then was.registry.own_modes (option_copied subject.entry))
        × (settings.global_mode ≡ was.registry.global_mode))) }
{
    let globals = globals(alloc, db)?;
    let own_level = own_level_for(db, subject, needs_levels)?;
    let own_mode = own_mode_for(db, subject)?;
    Ok(LevelsAndModes {
        own: own_level,
        global: globals.0,
        own_mode,
        global_mode: globals.1,
    })
}

/// The global level and the global mode in one read.
fn globals<S: Alter>(alloc: Global, db: &mut Conn<S>) -> Result<(Level, Mode), StoreError>
    ensures { Reads db.old db.new result (λ was globals.
        (globals.0 ≡ was.registry.global) × (globals.1 ≡ was.registry.global_mode)) }
{
    let lines = raw_meta(alloc, &mut db.idle)?;
    globals_in(lines.as_slice())
}

/// The global level and the global mode that the rows of `meta` spell. `NotARegistry` if the first
/// row `global` or `mode` is missing or has an invalid value.
fn globals_in(lines: &[RawMeta]) -> Result<(Level, Mode), StoreError>
    ensures ok { IfOk result (λ globals.
        (option_and_then level_of (meta_value (codes "global") lines.now) ≡ Some globals.0)
        × (option_and_then mode_of (meta_value (codes "mode") lines.now) ≡ Some globals.1)) }
    ensures err { OnErr result ((option_and_then level_of (meta_value (codes "global") lines.now) ≡ None)
        ⊎ (option_and_then mode_of (meta_value (codes "mode") lines.now) ≡ None)) }
{
    let Some(level) = level_under(lines) else {
        return Err(StoreError::NotARegistry);
    };
    let Some(mode) = mode_under(lines) else {
        return Err(StoreError::NotARegistry);
    };
    Ok((level, mode))
}

fn level_under(lines: &[RawMeta]) -> Option<Level>
    ensures { result ≡ option_and_then level_of (meta_value (codes "global") lines.now) }
{
    match value_under(lines, "global") {
        None => None,
        Some(text) => Level::parse(text),
    }
}

fn mode_under(lines: &[RawMeta]) -> Option<Mode>
    ensures { result ≡ option_and_then mode_of (meta_value (codes "mode") lines.now) }
{
    match value_under(lines, "mode") {
        None => None,
        Some(text) => Mode::parse(text),
    }
}

/// The value of the first row with this name, or `None`.
fn value_under<'a>(lines: &'a [RawMeta], name: &str) -> Option<&'a str>
    ensures { option_copied result ≡ meta_value name.now lines.now }
{
    lines
        .iter()
        .find(|line| line.name.as_str() == name)
        .map(|line| line.value.as_str())
}
