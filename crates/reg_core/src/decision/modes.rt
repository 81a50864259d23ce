//! The commands that a mode forbids.

ghost use Rattle.std.specs.Prelude.{◌≡◌};
ghost use Rattle.reg_core.specs.Modes.{is_read_only};
ghost use Rattle.reg_core.specs.Views.{mode_of_view};

use crate::command::Command;
use crate::decision::View;
use crate::mode::Mode;

/// Whether a mode forbids the command.
pub fn is_forbidden_by_mode(view: &View, command: &Command) -> bool
    ensures { result ≡ is_read_only (mode_of_view view.now command.now) }
{
    match mode_of_view(view, command) {
        Some(mode) => mode == Mode::Readonly,
        None => false,
    }
}

/// The mode that may forbid the command, or `None` if no mode may.
fn mode_of_view(view: &View, command: &Command) -> Option<Mode>
    ensures { result ≡ mode_of_view view.now command.now }
{
    match command {
        Command::SetGlobal { .. } => Some(view.global_mode),
        Command::SetLevel { .. }
        | Command::Register { .. }
        | Command::DeleteVersion { .. }
        | Command::DeleteSubject { .. } => Some(view.own_mode.unwrap_or(view.global_mode)),
        Command::Global
        | Command::LevelOf { .. }
        | Command::Lookup { .. }
        | Command::Subjects { .. }
        | Command::Versions { .. }
        | Command::Version { .. }
        | Command::Text { .. }
        | Command::ById { .. }
        | Command::VersionsOfId { .. }
        | Command::Types
        | Command::Check { .. }
        | Command::CheckAll { .. }
        | Command::SetGlobalMode { .. }
        | Command::SetMode { .. }
        | Command::GlobalMode
        | Command::ModeOf { .. } => None,
    }
}
