//! The parts of the registry that a command needs.

ghost use Rattle.std.specs.Prelude.{◌≡◌};
ghost use Rattle.reg_core.specs.Needs.{needs_count, needs_levels, needs_modes, row_needs};

use crate::command::Command;
use crate::number::{VersionChoice, parse_choice, parse_id};

/// Which versions a command reads, soft-deleted ones included.
#[derive(Clone, Copy, Debug, PartialEq, Eq)]
pub enum RowsNeeded {
    /// None.
    Nothing,
    /// Those of all subjects.
    Everything,
    /// Those with the id, if any.
    OfId(Option<u32>),
    /// Enough of those with the id to know whether there is any.
    OneOfId(Option<u32>),
    /// Those of the command's subject.
    OfSubject(SubjectRows),
}

/// The purpose for which a command reads its subject's versions. A few of them may suffice.
#[derive(Clone, Copy, Debug, PartialEq, Eq)]
pub enum SubjectRows {
    /// Shows or changes each version.
    Every,
    /// Chooses one of the shown versions.
    ToChoose {
        choice: Option<VersionChoice>,
        deleted: bool,
    },
    /// Chooses the version to delete.
    ToDelete {
        choice: Option<VersionChoice>,
        permanent: bool,
    },
    /// Looks up the sent schema among the shown versions.
    ToLookUp {
        deleted: bool,
    },
    /// Compares the sent schema with live versions: the latest, all or none, as the level requires.
    ToCompare,
    /// The same, and adds the schema as the next version unless a live version has it.
    ToRegister,
}

/// The parts of the registry that a command needs. It also needs the id of the schema that it
/// sends, and the identity texts of some ids (`ids_to_read`).
#[derive(Clone, Copy, Debug, PartialEq, Eq)]
pub struct Needs {
    /// The versions.
    pub rows: RowsNeeded,
    /// Whether it reads levels.
    pub levels: bool,
    /// Whether it reads modes: it shows one, or a mode may forbid it.
    pub modes: bool,
    /// Whether it reads the number of schemas.
    pub count: bool,
}

impl Command {
    /// The parts of the registry that the command needs.
    pub fn needs(&self) -> Needs
        ensures rows { result.rows ≡ row_needs self.now }
        ensures levels { result.levels ≡ needs_levels self.now }
        ensures modes { result.modes ≡ needs_modes self.now }
        ensures count { result.count ≡ needs_count self.now }
    {
        Needs {
            rows: self.row_needs(),
            levels: self.needs_levels(),
            modes: self.needs_modes(),
            count: self.needs_count(),
        }
    }

    /// Which versions the command reads.
    fn row_needs(&self) -> RowsNeeded
        ensures { result ≡ row_needs self.now }
    {
        match self {
            Command::Register { .. } => RowsNeeded::OfSubject(SubjectRows::ToRegister),
            Command::DeleteVersion {
                version,
                permanent,
                ..
            } => RowsNeeded::OfSubject(SubjectRows::ToDelete {
                choice: parse_choice(version.as_str()),
                permanent: *permanent,
            }),
            Command::DeleteSubject { .. } | Command::Versions { .. } => {
                RowsNeeded::OfSubject(SubjectRows::Every)
            }
            Command::Lookup { deleted, .. } => {
                RowsNeeded::OfSubject(SubjectRows::ToLookUp { deleted: *deleted })
            }
            Command::Subjects { .. } => RowsNeeded::Everything,
            Command::Version {
                version,
                deleted,
                ..
            }
            | Command::Text {
                version,
                deleted,
                ..
            } => RowsNeeded::OfSubject(SubjectRows::ToChoose {
                choice: parse_choice(version.as_str()),
                deleted: *deleted,
            }),
            Command::ById { id } => RowsNeeded::OneOfId(parse_id(id.as_str())),
            Command::VersionsOfId { id, .. } => RowsNeeded::OfId(parse_id(id.as_str())),
            Command::Check { version, .. } => RowsNeeded::OfSubject(SubjectRows::ToChoose {
                choice: parse_choice(version.as_str()),
                deleted: false,
            }),
            Command::CheckAll { .. } => RowsNeeded::OfSubject(SubjectRows::ToCompare),
            Command::SetGlobal { .. }
            | Command::SetLevel { .. }
            | Command::Global
            | Command::LevelOf { .. }
            | Command::Types
            | Command::SetGlobalMode { .. }
            | Command::SetMode { .. }
            | Command::GlobalMode
            | Command::ModeOf { .. } => RowsNeeded::Nothing,
        }
    }

    /// Whether the command reads levels.
    fn needs_levels(&self) -> bool
        ensures { result ≡ needs_levels self.now }
    {
        match self {
            Command::Register { .. }
            | Command::Global
            | Command::LevelOf { .. }
            | Command::Check { .. }
            | Command::CheckAll { .. } => true,
            _ => false,
        }
    }

    /// Whether the command reads modes.
    fn needs_modes(&self) -> bool
        ensures { result ≡ needs_modes self.now }
    {
        match self {
            Command::SetGlobal { .. }
            | Command::SetLevel { .. }
            | Command::Register { .. }
            | Command::DeleteVersion { .. }
            | Command::DeleteSubject { .. }
            | Command::GlobalMode
            | Command::ModeOf { .. } => true,
            _ => false,
        }
    }

    /// Whether the command reads the number of schemas.
    fn needs_count(&self) -> bool
        ensures { result ≡ needs_count self.now }
    {
        match self {
            Command::Register { .. } => true,
            _ => false,
        }
    }
}
