//! The commands of the registry.

ghost use Rattle.std.specs.Prelude.{◌≡◌, option_and_then, option_copied};
ghost use Rattle.avro_schema.specs.DenotedNodes.{denoted_nodes};
ghost use Rattle.reg_core.specs.Machine.{is_write, command_schema, sends_supported_schema, subject_of};

use crate::subject::Subject;
use crate::text::Text;

/// A client's command. Levels, modes, schemas, versions and ids are unparsed texts. A schema is
/// `supported` if its type is Avro and it has no references. If `deleted` is on, soft-deleted
/// versions are shown too. (Schema Registry API reference, Schemas, Subjects, Compatibility, Config
/// and Mode.)
#[derive(Debug, Drop)]
pub enum Command {
    /// Sets the global compatibility level.
    SetGlobal {
        level: Text,
    },
    /// Sets the subject's own compatibility level. (Schema Registry API reference, Config.)
    SetLevel {
        subject: Subject,
        level: Text,
    },
    /// Adds the schema to the subject as its next version, if no live version has it and the
    /// subject's level admits it. Returns the schema's id.
    Register {
        subject: Subject,
        text: Text,
        supported: bool,
    },
    /// Soft-deletes the chosen version of the subject. If `permanent` is on, removes it
    /// permanently; it must be soft-deleted. Returns the version's number.
    DeleteVersion {
        subject: Subject,
        version: Text,
        permanent: bool,
    },
    /// Soft-deletes the live versions of the subject, and removes its own level. If `permanent` is
    /// on, removes all versions permanently, which must be soft-deleted, and the subject's own mode
    /// too. Returns the numbers of the versions that it deletes.
    DeleteSubject {
        subject: Subject,
        permanent: bool,
    },
    /// Returns the global compatibility level.
    Global,
    /// Returns the subject's own level. If it has none and `default_to_global` is on, returns the
    /// global one. (Schema Registry API reference, Config, `defaultToGlobal`.)
    LevelOf {
        subject: Subject,
        default_to_global: bool,
    },
    /// Returns the last version of the subject that has this schema.
    Lookup {
        subject: Subject,
        text: Text,
        supported: bool,
        deleted: bool,
    },
    /// Returns the subjects that have versions.
    Subjects {
        deleted: bool,
    },
    /// Returns the numbers of the subject's versions.
    Versions {
        subject: Subject,
        deleted: bool,
    },
    /// Returns the chosen version of the subject, with its schema.
    Version {
        subject: Subject,
        version: Text,
        deleted: bool,
    },
    /// Returns only the schema of the chosen version.
    Text {
        subject: Subject,
        version: Text,
        deleted: bool,
    },
    /// Returns the schema of the id, if some version has it. Soft-deleted versions count.
    ById {
        id: Text,
    },
    /// Returns the versions that have the id.
    VersionsOfId {
        id: Text,
        deleted: bool,
    },
    /// Returns the supported schema types.
    Types,
    /// Returns whether the schema is compatible with the chosen live version, by the subject's
    /// level.
    Check {
        subject: Subject,
        version: Text,
        text: Text,
        supported: bool,
    },
    /// Returns whether the subject's level would admit the schema.
    CheckAll {
        subject: Subject,
        text: Text,
        supported: bool,
    },
    /// Sets the global mode.
    SetGlobalMode {
        mode: Text,
    },
    /// Sets the subject's own mode.
    SetMode {
        subject: Subject,
        mode: Text,
    },
    /// Returns the global mode.
    GlobalMode,
    /// Returns the subject's own mode. If it has none and `default_to_global` is on, returns the
    /// global one.
    ModeOf {
        subject: Subject,
        default_to_global: bool,
    },
}

impl Command {
    /// Whether the command may change the registry.
    pub fn is_write(&self) -> bool
        ensures { result ≡ is_write self.now }
    {
        match self {
            Command::SetGlobal { .. }
            | Command::SetLevel { .. }
            | Command::Register { .. }
            | Command::DeleteVersion { .. }
            | Command::DeleteSubject { .. }
            | Command::SetGlobalMode { .. }
            | Command::SetMode { .. } => true,
            _ => false,
        }
    }

    /// The command's subject, or `None` if it has none.
    pub fn subject(&self) -> Option<&Subject>
        ensures { option_copied result ≡ subject_of self.now }
    {
        match self {
            Command::SetLevel { subject, .. }
            | Command::Register { subject, .. }
            | Command::DeleteVersion { subject, .. }
            | Command::DeleteSubject { subject, .. }
            | Command::LevelOf { subject, .. }
            | Command::Lookup { subject, .. }
            | Command::Versions { subject, .. }
            | Command::Version { subject, .. }
            | Command::Text { subject, .. }
            | Command::Check { subject, .. }
            | Command::CheckAll { subject, .. }
            | Command::SetMode { subject, .. }
            | Command::ModeOf { subject, .. } => Some(subject),
            Command::SetGlobal { .. }
            | Command::Global
            | Command::Subjects { .. }
            | Command::ById { .. }
            | Command::VersionsOfId { .. }
            | Command::Types
            | Command::SetGlobalMode { .. }
            | Command::GlobalMode => None,
        }
    }

    /// Whether the command sends a supported schema: its type is Avro, and it has no references.
    pub(crate) fn sends_supported_schema(&self) -> bool
        ensures { result ≡ sends_supported_schema self.now }
    {
        match self {
            Command::Register { supported, .. }
            | Command::Lookup { supported, .. }
            | Command::Check { supported, .. }
            | Command::CheckAll { supported, .. } => *supported,
            _ => false,
        }
    }

    /// The text of the schema that the command sends, or `None` if it sends no schema, or one that
    /// isn't supported.
    #[tactic(auto, unfolding(crate::specs::RegisterCommands::supported_schema))]
    pub fn schema_text(&self) -> Option<&Text>
        ensures { option_and_then denoted_nodes (option_copied result) ≡ command_schema self.now }
    {
        match self {
            Command::Register {
                text,
                supported,
                ..
            }
            | Command::Lookup {
                text,
                supported,
                ..
            }
            | Command::Check {
                text,
                supported,
                ..
            }
            | Command::CheckAll {
                text,
                supported,
                ..
            } => { if *supported { Some(text) } else { None } }
            _ => None,
        }
    }
}
