//! The command of a request, by its operation, path, query and body.

ghost use Rattle.std.specs.Prelude.{◌≡◌, IfOk};
ghost use Rattle.reg_routes.specs.Commands.{command_in};
ghost use Rattle.reg_routes.specs.declared.resource.Operation.TheVariants as op;

use crate::body::{SentSchema, body_schema, body_string_member};
use crate::resource::Operation;
use crate::target::Target;
use reg_core::{Command, OutOfMemory};
use std::alloc::Global;

/// The parts of a request that make up a command.
#[derive(Clone, Copy)]
pub struct RequestParts<'a> {
    pub target: Target<'a>,
    pub body: &'a [u8],
}

// Each private method makes the command of its name from the path, the query and the body. `None`
// is as in `command`. `segment_text` and `segment_subject` get the number of slashes before the
// segment. Versions, ids, levels and modes are texts here: they aren't parsed.
impl<'a> RequestParts<'a> {
    fn set_global(&self, alloc: Global) -> Result<Option<Command>, OutOfMemory>
        ensures { IfOk result (λ command. command ≡ command_in op.SetGlobal self.now) }
    {
        let Some(level) = body_string_member(alloc, "compatibility", self.body)? else {
            return Ok(None);
        };
        Ok(Some(Command::SetGlobal { level }))
    }

    fn set_level(&self, alloc: Global) -> Result<Option<Command>, OutOfMemory>
        ensures { IfOk result (λ command. command ≡ command_in op.SetLevel self.now) }
    {
        let Some(subject) = self.target.segment_subject(alloc, 2)? else {
            return Ok(None);
        };
        let Some(level) = body_string_member(alloc, "compatibility", self.body)? else {
            return Ok(None);
        };
        Ok(Some(Command::SetLevel { subject, level }))
    }

    fn register(&self, alloc: Global) -> Result<Option<Command>, OutOfMemory>
        ensures { IfOk result (λ command. command ≡ command_in op.Register self.now) }
    {
        let Some(subject) = self.target.segment_subject(alloc, 2)? else {
            return Ok(None);
        };
        let Some(SentSchema { text, supported }) = body_schema(alloc, self.body)? else {
            return Ok(None);
        };
        Ok(Some(Command::Register {
            subject,
            text,
            supported,
        }))
    }

    fn delete_version(&self, alloc: Global) -> Result<Option<Command>, OutOfMemory>
        ensures { IfOk result (λ command. command ≡ command_in op.DeleteVersion self.now) }
    {
        let Some(subject) = self.target.segment_subject(alloc, 2)? else {
            return Ok(None);
        };
        let Some(version) = self.target.segment_text(alloc, 4)? else {
            return Ok(None);
        };
        let permanent = self.target.query_flag(alloc, "permanent")?;
        Ok(Some(Command::DeleteVersion {
            subject,
            version,
            permanent,
        }))
    }

    fn delete_subject(&self, alloc: Global) -> Result<Option<Command>, OutOfMemory>
        ensures { IfOk result (λ command. command ≡ command_in op.DeleteSubject self.now) }
    {
        let Some(subject) = self.target.segment_subject(alloc, 2)? else {
            return Ok(None);
        };
        let permanent = self.target.query_flag(alloc, "permanent")?;
        Ok(Some(Command::DeleteSubject { subject, permanent }))
    }

    fn level_of(&self, alloc: Global) -> Result<Option<Command>, OutOfMemory>
        ensures { IfOk result (λ command. command ≡ command_in op.LevelOf self.now) }
    {
        let Some(subject) = self.target.segment_subject(alloc, 2)? else {
            return Ok(None);
        };
        let default_to_global = self.target.query_flag(alloc, "defaultToGlobal")?;
        Ok(Some(Command::LevelOf {
            subject,
            default_to_global,
        }))
    }

    fn lookup(&self, alloc: Global) -> Result<Option<Command>, OutOfMemory>
        ensures { IfOk result (λ command. command ≡ command_in op.Lookup self.now) }
    {
        let Some(subject) = self.target.segment_subject(alloc, 2)? else {
            return Ok(None);
        };
        let Some(SentSchema { text, supported }) = body_schema(alloc, self.body)? else {
            return Ok(None);
        };
        let deleted = self.target.query_flag(alloc, "deleted")?;
        Ok(Some(Command::Lookup {
            subject,
            text,
            supported,
            deleted,
        }))
    }

    fn subjects(&self, alloc: Global) -> Result<Option<Command>, OutOfMemory>
        ensures { IfOk result (λ command. command ≡ command_in op.Subjects self.now) }
    {
        let deleted = self.target.query_flag(alloc, "deleted")?;
        Ok(Some(Command::Subjects { deleted }))
    }

    fn versions(&self, alloc: Global) -> Result<Option<Command>, OutOfMemory>
        ensures { IfOk result (λ command. command ≡ command_in op.Versions self.now) }
    {
        let Some(subject) = self.target.segment_subject(alloc, 2)? else {
            return Ok(None);
        };
        let deleted = self.target.query_flag(alloc, "deleted")?;
        Ok(Some(Command::Versions { subject, deleted }))
    }

    fn version(&self, alloc: Global) -> Result<Option<Command>, OutOfMemory>
        ensures { IfOk result (λ command. command ≡ command_in op.Version self.now) }
    {
        let Some(subject) = self.target.segment_subject(alloc, 2)? else {
            return Ok(None);
        };
        let Some(version) = self.target.segment_text(alloc, 4)? else {
            return Ok(None);
        };
        let deleted = self.target.query_flag(alloc, "deleted")?;
        Ok(Some(Command::Version {
            subject,
            version,
            deleted,
        }))
    }

    fn text(&self, alloc: Global) -> Result<Option<Command>, OutOfMemory>
        ensures { IfOk result (λ command. command ≡ command_in op.Text self.now) }
    {
        let Some(subject) = self.target.segment_subject(alloc, 2)? else {
            return Ok(None);
        };
        let Some(version) = self.target.segment_text(alloc, 4)? else {
            return Ok(None);
        };
        let deleted = self.target.query_flag(alloc, "deleted")?;
        Ok(Some(Command::Text {
            subject,
            version,
            deleted,
        }))
    }

    fn by_id(&self, alloc: Global) -> Result<Option<Command>, OutOfMemory>
        ensures { IfOk result (λ command. command ≡ command_in op.ById self.now) }
    {
        let Some(id) = self.target.segment_text(alloc, 3)? else {
            return Ok(None);
        };
        Ok(Some(Command::ById { id }))
    }

    fn versions_of_id(&self, alloc: Global) -> Result<Option<Command>, OutOfMemory>
        ensures { IfOk result (λ command. command ≡ command_in op.VersionsOfId self.now) }
    {
        let Some(id) = self.target.segment_text(alloc, 3)? else {
            return Ok(None);
        };
        let deleted = self.target.query_flag(alloc, "deleted")?;
        Ok(Some(Command::VersionsOfId { id, deleted }))
    }

    fn check(&self, alloc: Global) -> Result<Option<Command>, OutOfMemory>
        ensures { IfOk result (λ command. command ≡ command_in op.Check self.now) }
    {
        let Some(subject) = self.target.segment_subject(alloc, 3)? else {
            return Ok(None);
        };
        let Some(version) = self.target.segment_text(alloc, 5)? else {
            return Ok(None);
        };
        let Some(SentSchema { text, supported }) = body_schema(alloc, self.body)? else {
            return Ok(None);
        };
        Ok(Some(Command::Check {
            subject,
            version,
            text,
            supported,
        }))
    }

    fn check_all(&self, alloc: Global) -> Result<Option<Command>, OutOfMemory>
        ensures { IfOk result (λ command. command ≡ command_in op.CheckAll self.now) }
    {
        let Some(subject) = self.target.segment_subject(alloc, 3)? else {
            return Ok(None);
        };
        let Some(SentSchema { text, supported }) = body_schema(alloc, self.body)? else {
            return Ok(None);
        };
        Ok(Some(Command::CheckAll {
            subject,
            text,
            supported,
        }))
    }

    fn set_global_mode(&self, alloc: Global) -> Result<Option<Command>, OutOfMemory>
        ensures { IfOk result (λ command. command ≡ command_in op.SetGlobalMode self.now) }
    {
        let Some(mode) = body_string_member(alloc, "mode", self.body)? else {
            return Ok(None);
        };
        Ok(Some(Command::SetGlobalMode { mode }))
    }

    fn set_mode(&self, alloc: Global) -> Result<Option<Command>, OutOfMemory>
        ensures { IfOk result (λ command. command ≡ command_in op.SetMode self.now) }
    {
        let Some(subject) = self.target.segment_subject(alloc, 2)? else {
            return Ok(None);
        };
        let Some(mode) = body_string_member(alloc, "mode", self.body)? else {
            return Ok(None);
        };
        Ok(Some(Command::SetMode { subject, mode }))
    }

    fn mode_of(&self, alloc: Global) -> Result<Option<Command>, OutOfMemory>
        ensures { IfOk result (λ command. command ≡ command_in op.ModeOf self.now) }
    {
        let Some(subject) = self.target.segment_subject(alloc, 2)? else {
            return Ok(None);
        };
        let default_to_global = self.target.query_flag(alloc, "defaultToGlobal")?;
        Ok(Some(Command::ModeOf {
            subject,
            default_to_global,
        }))
    }

    /// The command of this operation. `None` if a segment that the command needs isn't UTF-8 after
    /// decoding, or if its subject isn't valid. `None` also if the body lacks a string
    /// member that the command needs: a body that isn't JSON has none.
    ///
    /// # Errors
    ///
    /// `OutOfMemory` if an allocation fails.
    pub fn command(
        &self,
        alloc: Global,
        operation: Operation,
    ) -> Result<Option<Command>, OutOfMemory>
        ensures { IfOk result (λ command. command ≡ command_in operation self.now) }
    {
        match operation {
            Operation::Global => Ok(Some(Command::Global)),
            Operation::Types => Ok(Some(Command::Types)),
            Operation::SetGlobal => self.set_global(alloc),
            Operation::SetLevel => self.set_level(alloc),
            Operation::Register => self.register(alloc),
            Operation::DeleteVersion => self.delete_version(alloc),
            Operation::DeleteSubject => self.delete_subject(alloc),
            Operation::LevelOf => self.level_of(alloc),
            Operation::Lookup => self.lookup(alloc),
            Operation::Subjects => self.subjects(alloc),
            Operation::Versions => self.versions(alloc),
            Operation::Version => self.version(alloc),
            Operation::Text => self.text(alloc),
            Operation::ById => self.by_id(alloc),
            Operation::VersionsOfId => self.versions_of_id(alloc),
            Operation::Check => self.check(alloc),
            Operation::CheckAll => self.check_all(alloc),
            Operation::SetGlobalMode => self.set_global_mode(alloc),
            Operation::SetMode => self.set_mode(alloc),
            Operation::GlobalMode => Ok(Some(Command::GlobalMode)),
            Operation::ModeOf => self.mode_of(alloc),
        }
    }
}
