//! The text of a write, which is kept with its reply and compared on a retry.

ghost use Rattle.std.specs.Prelude.{◌≡◌, true, IfOk, string_bytes};
ghost use Rattle.reg_core.specs.CommandTexts.{command_text};
ghost use Rattle.reg_core.specs.Machine.{is_write};

use crate::command::Command;
use avro_nodes::OutOfMemory;
use serde_json::json;
use std::alloc::Global;

/// The text of a write, which is kept with its reply and compared on a retry: a compact JSON array
/// of its name and members, such as `["set-global","FULL"]` or `["register","s","\"int\"",true]`.
/// Different writes have different texts. A read has the empty text.
///
/// # Errors
///
/// `OutOfMemory` if an allocation for the text fails.
pub fn print_of(alloc: Global, command: &Command) -> Result<String, OutOfMemory>
    ensures text { IfOk result (λ text. string_bytes text ≡ command_text command.now) }
    ensures unique { IfOk result (λ text. (other : Command)
        → is_write command.now ≡ true → is_write other ≡ true
        → command_text other ≡ string_bytes text → other ≡ command.now) }
{
    text_of(alloc, command)
}

/// The text of a command.
#[tactic(auto, unfolding(crate::specs::CommandTexts::command_text))]
fn text_of(alloc: Global, command: &Command) -> Result<String, OutOfMemory>
    ensures { IfOk result (λ text. string_bytes text ≡ command_text command.now) }
{
    match command {
        Command::SetGlobal { level } => set_global_text(alloc, level.as_str()),
        Command::SetLevel { subject, level } => {
            set_level_text(alloc, subject.as_str(), level.as_str())
        }
        Command::Register {
            subject,
            text,
            supported,
        } => register_text(alloc, subject.as_str(), text.as_str(), *supported),
        Command::DeleteVersion {
            subject,
            version,
            permanent,
        } => delete_version_text(alloc, subject.as_str(), version.as_str(), *permanent),
        Command::DeleteSubject { subject, permanent } => {
            delete_subject_text(alloc, subject.as_str(), *permanent)
        }
        Command::SetGlobalMode { mode } => set_global_mode_text(alloc, mode.as_str()),
        Command::SetMode { subject, mode } => {
            set_mode_text(alloc, subject.as_str(), mode.as_str())
        }
        _ => Ok(String::new(alloc)),
    }
}

/// The text of the command that sets the global level.
fn set_global_text(alloc: Global, level: &str) -> Result<String, OutOfMemory>
    ensures { IfOk result (λ text. string_bytes text ≡ command_text (Command.SetGlobal level.now)) }
{
    let array = json!(in alloc; ["set-global", level])?;
    Ok(array.to_string(alloc)?)
}

/// The text of the command that sets the level of a subject.
fn set_level_text(alloc: Global, subject: &str, level: &str) -> Result<String, OutOfMemory>
    ensures { IfOk result (λ text. string_bytes text ≡ command_text (Command.SetLevel subject.now level.now)) }
{
    let array = json!(in alloc; ["set-level", subject, level])?;
    Ok(array.to_string(alloc)?)
}

/// The text of the command that sets the global mode.
fn set_global_mode_text(alloc: Global, mode: &str) -> Result<String, OutOfMemory>
    ensures { IfOk result (λ text. string_bytes text ≡ command_text (Command.SetGlobalMode mode.now)) }
{
    let array = json!(in alloc; ["set-global-mode", mode])?;
    Ok(array.to_string(alloc)?)
}

/// The text of the command that sets the mode of a subject.
fn set_mode_text(alloc: Global, subject: &str, mode: &str) -> Result<String, OutOfMemory>
    ensures { IfOk result (λ text. string_bytes text ≡ command_text (Command.SetMode subject.now mode.now)) }
{
    let array = json!(in alloc; ["set-mode", subject, mode])?;
    Ok(array.to_string(alloc)?)
}

/// The text of the command that registers a schema.
fn register_text(
    alloc: Global,
    subject: &str,
    text: &str,
    supported: bool,
) -> Result<String, OutOfMemory>
    ensures { IfOk result (λ print. string_bytes print ≡ command_text (Command.Register subject.now text.now supported)) }
{
    let array = json!(in alloc; ["register", subject, text, supported])?;
    Ok(array.to_string(alloc)?)
}

/// The text of the command that deletes a version.
fn delete_version_text(
    alloc: Global,
    subject: &str,
    version: &str,
    permanent: bool,
) -> Result<String, OutOfMemory>
    ensures { IfOk result (λ text. string_bytes text ≡ command_text (Command.DeleteVersion subject.now version.now permanent)) }
{
    let array = json!(in alloc; ["delete-version", subject, version, permanent])?;
    Ok(array.to_string(alloc)?)
}

/// The text of the command that deletes a subject.
fn delete_subject_text(alloc: Global, subject: &str, permanent: bool) -> Result<String, OutOfMemory>
    ensures { IfOk result (λ text. string_bytes text ≡ command_text (Command.DeleteSubject subject.now permanent)) }
{
    let array = json!(in alloc; ["delete-subject", subject, permanent])?;
    Ok(array.to_string(alloc)?)
}
