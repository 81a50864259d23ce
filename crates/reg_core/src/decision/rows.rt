//! The versions that a command sees or chooses.

ghost use Rattle.std.specs.Prelude.{◌≡◌, IfOk, map, option_copied};
ghost use Rattle.std.specs.Result.{result_map_both};
ghost use Rattle.reg_core.specs.ReadCommands.{found_row};
ghost use Rattle.reg_core.specs.Rows.{chosen_row, visible_rows};

use crate::code::Code;
use crate::number::VersionChoice;
use crate::row::Row;
use avro_nodes::OutOfMemory;
use std::alloc::Global;

/// The versions that a command sees, in their order: all if `shows_deleted`, else those that
/// aren't soft-deleted.
pub fn visible_rows<'a>(
    alloc: Global,
    shows_deleted: bool,
    rows: &'a [Row],
) -> Result<Vec<&'a Row>, OutOfMemory>
    ensures { IfOk result (λ visible. map (λ row. row.now) visible.items ≡ visible_rows shows_deleted rows.now) }
{
    let visible = rows
        .iter()
        .filter(|row| shows_deleted || !row.deleted())
        .collect(alloc)?;
    Ok(visible)
}

/// The chosen one of these versions. Otherwise `InvalidVersion` for `None`, `SubjectNotFound` if
/// there are no versions, else `VersionNotFound`.
pub fn found_row<'a>(choice: Option<VersionChoice>, rows: &[&'a Row]) -> Result<&'a Row, Code>
    ensures { result_map_both (λ row. row.now) (λ code. code) result
        ≡ found_row choice (map (λ row. row.now) rows.now) }
{
    let Some(choice) = choice else {
        return Err(Code::InvalidVersion);
    };
    if rows.is_empty() {
        return Err(Code::SubjectNotFound);
    }
    match chosen_row(choice, rows) {
        Some(row) => Ok(row),
        None => Err(Code::VersionNotFound),
    }
}

/// The chosen one of these versions, or `None` if there is none. `Latest` is the last in the list,
/// soft-deleted or not; `Numbered` is the one with the number.
pub fn chosen_row<'a>(choice: VersionChoice, rows: &[&'a Row]) -> Option<&'a Row>
    ensures { option_copied result ≡ chosen_row choice (map (λ row. row.now) rows.now) }
{
    match choice {
        VersionChoice::Latest => rows.last().copied(),
        VersionChoice::Numbered(number) => rows.iter().copied().find(|row| row.version() == number),
    }
}
