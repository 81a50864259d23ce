//! Decides what a command changes in the registry, and its reply.

ghost use Rattle.std.specs.Prelude.{◌≡◌, ◌≢◌, [], false, IfOk, option_copied, option_map};
ghost use Rattle.avro_nodes.specs.Nodes.{nodes_view};
ghost use Rattle.reg_core.specs.Inside.Evidence.{UpdateEvidence};
ghost use Rattle.reg_core.specs.Machine.{permitted_step, is_write};
ghost use Rattle.reg_core.specs.Registry.{Registry};
ghost use Rattle.reg_core.specs.Replies.{IsCommandReply};
ghost use Rattle.reg_core.specs.Views.{ChangesFit, IsDecisionFor, IsDecisionInput, after_changes, schema_if_supported};

use crate::code::Code;
use crate::command::Command;
use crate::decision::deleting::{delete_subject, delete_version};
use crate::decision::modes::is_forbidden_by_mode;
use crate::decision::reading::{
    by_id, lookup, subjects, types, version, version_text, versions, versions_of_id,
};
use crate::decision::registering::{check, check_all, register};
use crate::decision::settings::{own_or_global, set, setting_reply, setting_reply_or_fault};
use crate::evidence::Evidence;
use crate::level::Level;
use crate::mode::Mode;
use crate::reply::Reply;
use crate::row::Row;
use crate::subject::Subject;
use crate::text::Text;
use avro_nodes::OutOfMemory;
use avro_schema::Schema;
use schema_cache::SchemaCache;
use std::alloc::Global;
use std::collections::BTreeMap;

mod bodies;
mod comparing;
mod deleting;
mod modes;
mod needs;
mod reading;
mod registering;
mod rows;
mod settings;

pub use comparing::{is_compatible_with, schema_of};
pub use needs::ids_to_read;

/// The parts of the registry that a command needs. Other parts may have any value, but each text
/// must be that of its id.
#[derive(Drop)]
pub struct View {
    /// The versions of the command's subject or id, or of all subjects, soft-deleted ones included,
    /// in the order of the bytes of their subjects, then of their numbers. Versions that affect
    /// neither the reply nor the changes may be missing.
    pub rows: Vec<Row>,
    /// The identity texts, by id, of the schemas that the command shows or compares with.
    pub texts: BTreeMap<u32, String>,
    /// The own level of the command's subject, or `None`.
    pub own: Option<Level>,
    /// The global compatibility level.
    pub global: Level,
    /// The own mode of the command's subject, or `None`.
    pub own_mode: Option<Mode>,
    /// The global mode.
    pub global_mode: Mode,
    /// The id of the schema that the command sends; `None` if it isn't registered, or the text
    /// denotes no schema.
    pub known: Option<u32>,
    /// The number of schemas, which is the greatest id.
    pub count: u32,
}

/// One change of the registry.
#[derive(Debug, Drop)]
pub enum Change {
    /// Sets the global compatibility level.
    SetGlobal { level: Level },
    /// Sets the subject's own level.
    SetLevel { subject: Subject, level: Level },
    /// Registers the schema with this identity text under the id.
    AddText { id: u32, text: Text },
    /// Adds a version, with its evidence.
    AddRow { row: Row, evidence: Evidence },
    /// Soft-deletes the subject's version with this number, if it exists.
    MarkDeleted { subject: Subject, version: u32 },
    /// Removes the subject's version with this number permanently, if it exists.
    Remove { subject: Subject, version: u32 },
    /// Removes the subject's own level, if any.
    DropLevel { subject: Subject },
    /// Sets the global mode.
    SetGlobalMode { mode: Mode },
    /// Sets the subject's own mode.
    SetMode { subject: Subject, mode: Mode },
    /// Removes the subject's own mode, if any.
    DropMode { subject: Subject },
}

/// The changes that a command makes, and its reply.
#[derive(Debug, Drop)]
pub struct Decision {
    /// The changes, in order.
    pub changes: Vec<Change>,
    /// The reply to the command.
    pub reply: Reply,
}

/// Decides the command for the registry that the view shows: the changes, and the reply. `schema`
/// is the schema that the command's text denotes, or `None`. It is ignored unless the command sends
/// a supported schema. The call reads nothing else and changes nothing.
///
/// # Errors
///
/// `OutOfMemory` if an allocation fails.
pub fn decide(
    alloc: Global,
    view: &View,
    command: &Command,
    schema: Option<&Schema>,
) -> Result<Decision, OutOfMemory>
    ensures { IfOk result (IsDecisionFor command.now (option_map nodes_view (option_copied schema.entry)) view.now) }
{
    decide_with_cache(alloc, view, command, schema, None)
}

/// Decides as `decide` does, with a cache of parsed schemas, so that earlier schemas needn't be
/// parsed again. If `cache` is `None`, there is no cache, as in `decide`. The cache never changes a
/// decision.
///
/// # Errors
///
/// `OutOfMemory` if an allocation fails. Even then, the cache may have changed.
pub fn decide_with_cache(
    alloc: Global,
    view: &View,
    command: &Command,
    schema: Option<&Schema>,
    cache: Option<&mut SchemaCache>,
) -> Result<Decision, OutOfMemory>
    ensures { IfOk result (IsDecisionFor command.now (option_map nodes_view (option_copied schema.entry)) view.now) }
{
    if is_forbidden_by_mode(view, command) {
        return Ok(unchanged(alloc, Reply::fault(Code::NotPermitted)));
    }
    decide_permitted(
        alloc,
        view,
        command,
        schema_if_supported(command, schema),
        cache,
    )
}

/// The schema, or `None` if the command sends no schema, or one that isn't supported.
fn schema_if_supported<'a>(command: &Command, schema: Option<&'a Schema>) -> Option<&'a Schema>
    ensures { option_map nodes_view (option_copied result)
        ≡ schema_if_supported command.now (option_map nodes_view (option_copied schema.entry)) }
{
    if command.sends_supported_schema() {
        schema
    } else {
        None
    }
}

/// Decides a command that no mode forbids.
#[tactic(auto, unfolding(crate::specs::Machine::permitted_step))]
fn decide_permitted(
    alloc: Global,
    view: &View,
    command: &Command,
    schema: Option<&Schema>,
    cache: Option<&mut SchemaCache>,
) -> Result<Decision, OutOfMemory>
    ensures reply { IfOk result (λ decision. (g : Registry)
        → IsDecisionInput g command.now (option_map nodes_view (option_copied schema.entry)) view.now
        → decision.reply ≡ (permitted_step g command.now).1) }
    ensures changes { IfOk result (λ decision. (g : Registry)
        → IsDecisionInput g command.now (option_map nodes_view (option_copied schema.entry)) view.now
        → after_changes decision.changes.items g ≡ (permitted_step g command.now).0) }

    // The changes can be applied to the registry, in order.
    ensures fit { IfOk result (λ decision. (g : Registry)
        → IsDecisionInput g command.now (option_map nodes_view (option_copied schema.entry)) view.now
        → ChangesFit decision.changes.items g) }

    // A removed version loses its evidence; a new one comes with its own.
    ensures evidence { IfOk result (λ decision. (g : Registry)
        → IsDecisionInput g command.now (option_map nodes_view (option_copied schema.entry)) view.now
        → UpdateEvidence decision.changes.items g) }

    // A read or a refusal changes nothing.
    ensures read { IfOk result (λ decision. is_write command.now ≡ false → decision.changes.items ≡ []) }
    ensures refusal { IfOk result (λ decision. decision.reply.status ≢ 200 → decision.changes.items ≡ []) }

    // The reply's status is 200, 404, 409 or 422, and it isn't the fault of a reused retry key.
    ensures own { IfOk result (λ decision. IsCommandReply decision.reply) }
{
    match command {
        Command::SetGlobal { level } => set::<Level>(alloc, None, level.as_str()),
        Command::SetLevel { subject, level } => set::<Level>(alloc, Some(subject), level.as_str()),
        Command::Register { subject, .. } => register(alloc, view, subject, schema, cache),
        Command::DeleteVersion {
            subject,
            version: chosen,
            permanent,
        } => delete_version(alloc, view, subject, chosen.as_str(), *permanent),
        Command::DeleteSubject { subject, permanent } => {
            delete_subject(alloc, view, subject, *permanent)
        }
        Command::SetGlobalMode { mode } => set::<Mode>(alloc, None, mode.as_str()),
        Command::SetMode { subject, mode } => set::<Mode>(alloc, Some(subject), mode.as_str()),
        _ => {
            let reply = reply_to_read(alloc, view, command, schema, cache)?;
            Ok(unchanged(alloc, reply))
        }
    }
}

/// The reply to a read.
#[tactic(auto, unfolding(crate::specs::Machine::permitted_step))]
fn reply_to_read(
    alloc: Global,
    view: &View,
    command: &Command,
    schema: Option<&Schema>,
    cache: Option<&mut SchemaCache>,
) -> Result<Reply, OutOfMemory>
    requires { is_write command.now ≡ false }
    ensures reply { IfOk result (λ reply. (g : Registry)
        → IsDecisionInput g command.now (option_map nodes_view (option_copied schema.entry)) view.now
        → reply ≡ (permitted_step g command.now).1) }
    // The reply's status is 200, 404, 409 or 422, and it isn't the fault of a reused retry key.
    ensures own { IfOk result (λ reply. IsCommandReply reply) }
{
    match command {
        Command::Global => setting_reply(alloc, view.global),
        Command::LevelOf {
            default_to_global,
            ..
        } => setting_reply_or_fault(
            alloc,
            own_or_global(view.own, view.global, *default_to_global),
        ),
        Command::Lookup { deleted, .. } => lookup(alloc, view, schema, *deleted),
        Command::Subjects { deleted } => subjects(alloc, *deleted, view.rows.as_slice()),
        Command::Versions { deleted, .. } => versions(alloc, *deleted, view.rows.as_slice()),
        Command::Version {
            version: chosen,
            deleted,
            ..
        } => version(alloc, view, chosen.as_str(), *deleted),
        Command::Text {
            version: chosen,
            deleted,
            ..
        } => version_text(alloc, view, chosen.as_str(), *deleted),
        Command::ById { id } => by_id(alloc, view, id.as_str()),
        Command::VersionsOfId { id, deleted } => {
            versions_of_id(alloc, *deleted, view.rows.as_slice(), id.as_str())
        }
        Command::Types => types(alloc),
        Command::Check { version, .. } => check(alloc, view, version.as_str(), schema, cache),
        Command::CheckAll { .. } => check_all(alloc, view, schema, cache),
        Command::GlobalMode => setting_reply(alloc, view.global_mode),
        Command::ModeOf {
            default_to_global,
            ..
        } => setting_reply_or_fault(
            alloc,
            own_or_global(view.own_mode, view.global_mode, *default_to_global),
        ),
        _ => unreachable!(),
    }
}

/// A decision with this reply and no changes.
fn unchanged(alloc: Global, reply: Reply) -> Decision
    ensures changes { result.changes.items ≡ [] }
    ensures reply { result.reply ≡ reply }
{
    Decision {
        changes: Vec::new(alloc),
        reply,
    }
}
