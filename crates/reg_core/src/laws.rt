//! Laws of the abstract machine: what is true of the registry after any command.

ghost use Rattle.reg_core.specs.declared.command.Command.{Command};
ghost use Rattle.reg_core.specs.Registry.{IsRegistry, Registry};
ghost use Rattle.reg_core.specs.Machine.{step};
ghost use Rattle.reg_core.specs.Additions.{AddsOnlyAdmitted};
ghost use Rattle.reg_core.specs.Replies.{IsCommandReply};
ghost use Rattle.reg_core.specs.Evidence.{EvidenceMap, IsEvidenceAfter, IsTrueEvidence};

/// A law of the abstract machine: each command preserves the invariant of a registry. Texts denote
/// its schemas, no two schemas have the same identity text, ids and version numbers are within
/// their limits, and each version has a schema.
pub fn commands_preserve_invariant()
    ensures { (g : Registry) (command : Command) → IsRegistry g → IsRegistry (step g command).0 }
{}

/// A law of the abstract machine: a command adds a version only if it registers a schema that the
/// subject's level admits after the subject's live versions.
pub fn additions_are_admitted()
    ensures { (g : Registry) (command : Command) → IsRegistry g → AddsOnlyAdmitted g command }
{}

/// A law of the abstract machine. If a registry's evidence is true before a command, then the
/// evidence after it, as `IsEvidenceAfter` gives it, is true of the registry after it. By
/// `IsEvidenceAfter`, existing versions keep their evidence, and removed versions have none. The
/// evidence of a new version is the level in force and the ids of the schemas that it was compared
/// with.
pub fn evidence_stays_true()
    ensures { (g : Registry) (command : Command) (before after : EvidenceMap) → IsRegistry g → IsTrueEvidence g before
        → IsEvidenceAfter g command before after → IsTrueEvidence (step g command).0 after }
{}

/// A law of the abstract machine: the reply to each command has the status 200, 404, 409 or 422, and
/// isn't the one for a reused retry key. So it reports no fault, as 50001 does.
pub fn commands_reply_as_commands()
    ensures { (g : Registry) (command : Command) → IsCommandReply (step g command).1 }
{}
