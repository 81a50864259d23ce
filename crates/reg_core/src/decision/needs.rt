//! The identity texts that a command needs.

ghost use Rattle.std.specs.Prelude.{◌≡◌, [], IfOk, if◌then◌else◌, map};
ghost use Rattle.std.specs.Result.{result_map_both};
ghost use Rattle.reg_core.specs.Compatibility.{latest, named_versions};
ghost use Rattle.reg_core.specs.Numbers.{parse_choice};
ghost use Rattle.reg_core.specs.ReadCommands.{found_row, lookup_row};
ghost use Rattle.reg_core.specs.RegisterCommands.{is_among};
ghost use Rattle.reg_core.specs.Rows.{live_rows, visible_rows};
ghost use Rattle.reg_core.specs.Views.{level_of_view, found_as_list, rows_to_read};

use crate::code::Code;
use crate::command::Command;
use crate::compatibility::{latest, named_versions};
use crate::decision::View;
use crate::decision::reading::lookup_row;
use crate::decision::registering::{id_among, level_in_force};
use crate::decision::rows::{found_row, visible_rows};
use crate::number::parse_choice;
use crate::row::Row;
use avro_nodes::OutOfMemory;
use std::alloc::Global;

/// The ids whose texts the command shows, or whose schemas it compares with the sent schema. An id
/// may occur more than once. The view's own texts aren't used, so they can be loaded afterwards.
///
/// # Errors
///
/// `OutOfMemory` if an allocation for the ids fails.
pub fn ids_to_read(alloc: Global, command: &Command, view: &View) -> Result<Vec<u32>, OutOfMemory>
    ensures { IfOk result (λ ids. ids.items ≡ map (λ row. row.1.id) (rows_to_read command.now view.now)) }
{
    match command {
        Command::Register { .. } => ids_for_register(alloc, view),
        Command::Lookup { deleted, .. } => ids_for_lookup(alloc, view, *deleted),
        Command::Version {
            version,
            deleted,
            ..
        }
        | Command::Text {
            version,
            deleted,
            ..
        } => ids_for_version(alloc, view, version.as_str(), *deleted),
        Command::ById { .. } => latest_id(alloc, &view.rows),
        Command::Check { version, .. } => ids_for_check(alloc, view, version.as_str()),
        Command::CheckAll { .. } => ids_for_check_all(alloc, view),
        Command::SetGlobal { .. }
        | Command::SetLevel { .. }
        | Command::DeleteVersion { .. }
        | Command::DeleteSubject { .. }
        | Command::Global
        | Command::LevelOf { .. }
        | Command::Subjects { .. }
        | Command::Versions { .. }
        | Command::VersionsOfId { .. }
        | Command::Types
        | Command::SetGlobalMode { .. }
        | Command::SetMode { .. }
        | Command::GlobalMode
        | Command::ModeOf { .. } => Ok(Vec::new(alloc)),
    }
}

/// The schema ids of the live versions that the level in force compares the sent schema with, in
/// order of number; none if a live version already has that schema.
fn ids_for_register(alloc: Global, view: &View) -> Result<Vec<u32>, OutOfMemory>
    ensures { IfOk result (λ ids. let live = live_rows view.now.rows.items in ids.items
        ≡ map (λ row. row.1.id) (if is_among view.now.known live then [] else named_versions (level_of_view view.now) live)) }
{
    let live = visible_rows(alloc, false, &view.rows)?;
    if id_among(view.known, &live).is_some() {
        return Ok(Vec::new(alloc));
    }
    ids_of(alloc, named_versions(level_in_force(view), &live))
}

/// The ids that CheckAll compares with.
fn ids_for_check_all(alloc: Global, view: &View) -> Result<Vec<u32>, OutOfMemory>
    ensures { IfOk result (λ ids. ids.items
        ≡ map (λ row. row.1.id) (named_versions (level_of_view view.now) (live_rows view.now.rows.items))) }
{
    let live = visible_rows(alloc, false, &view.rows)?;
    ids_of(alloc, named_versions(level_in_force(view), &live))
}

/// The id that Check compares with; none if no version is found, or the level compares with none.
fn ids_for_check(alloc: Global, view: &View, version: &str) -> Result<Vec<u32>, OutOfMemory>
    ensures { IfOk result (λ ids. ids.items ≡ map (λ row. row.1.id) (named_versions (level_of_view view.now)
        (found_as_list (found_row (parse_choice version.now) (live_rows view.now.rows.items))))) }
{
    let live = visible_rows(alloc, false, &view.rows)?;
    match found_row(parse_choice(version), &live) {
        Ok(row) => ids_of(alloc, named_versions(level_in_force(view), &[row])),
        Err(_) => Ok(Vec::new(alloc)),
    }
}

/// The id of the version that the text chooses, if it is found.
fn ids_for_version(
    alloc: Global,
    view: &View,
    version: &str,
    shows_deleted: bool,
) -> Result<Vec<u32>, OutOfMemory>
    ensures { IfOk result (λ ids. ids.items ≡ map (λ row. row.1.id)
        (found_as_list (found_row (parse_choice version.now) (visible_rows shows_deleted view.now.rows.items)))) }
{
    let shown = visible_rows(alloc, shows_deleted, &view.rows)?;
    found_ids(alloc, found_row(parse_choice(version), &shown))
}

/// The id of the version that Lookup shows, if it is found.
fn ids_for_lookup(alloc: Global, view: &View, shows_deleted: bool) -> Result<Vec<u32>, OutOfMemory>
    ensures { IfOk result (λ ids. ids.items ≡ map (λ row. row.1.id)
        (found_as_list (lookup_row view.now.known (visible_rows shows_deleted view.now.rows.items)))) }
{
    let shown = visible_rows(alloc, shows_deleted, &view.rows)?;
    found_ids(alloc, lookup_row(view.known, &shown))
}

/// The id of the version, if it was found.
fn found_ids(alloc: Global, found: Result<&Row, Code>) -> Result<Vec<u32>, OutOfMemory>
    ensures { IfOk result (λ ids. ids.items ≡ map (λ row. row.1.id)
        (found_as_list (result_map_both (λ row. row.now) (λ code. code) found.entry))) }
{
    match found {
        Ok(row) => ids_of(alloc, &[row]),
        Err(_) => Ok(Vec::new(alloc)),
    }
}

/// The id of the last version, if any.
fn latest_id(alloc: Global, rows: &[Row]) -> Result<Vec<u32>, OutOfMemory>
    ensures { IfOk result (λ ids. ids.items ≡ map (λ row. row.1.id) (latest rows.now)) }
{
    Ok(latest(rows).iter().map(|row| row.id()).collect(alloc)?)
}

/// The ids of the versions.
pub fn ids_of(alloc: Global, rows: &[&Row]) -> Result<Vec<u32>, OutOfMemory>
    ensures { IfOk result (λ ids. ids.items ≡ map (λ row. row.now.1.id) rows.now) }
{
    Ok(rows.iter().map(|row| row.id()).collect(alloc)?)
}
