//! Audits of the evidence in a database.

ghost use Rattle.std.specs.Prelude.{◌≡◌, false};
ghost use Rattle.sqlite.specs.Held.{state};
ghost use Rattle.sqlite.specs.State.{HasCleanDisk};
ghost use Rattle.reg_core.specs.Stored.{Stored};
ghost use Rattle.reg_store.specs.Spells.{SpellsWhileOpen};
ghost use Rattle.reg_store.specs.Stores.{has_failed, state_of, StillSpells};
ghost use Rattle.reg_jobs.specs.Auditing.{AuditsAs, PrintsEvidence, evidence_line};

use reg_output::write_whole;
use reg_store::{Store, StoreError};
use sqlite::{Alter, Connection};
use std::io::Write;

/// How an audit ended.
#[derive(Clone, Copy, Debug, PartialEq, Eq)]
pub enum AuditOutcome {
    /// The evidence is true, or it isn't; this was printed.
    Verdict(bool),
    /// The registry couldn't be read to its end, and nothing was printed.
    Unread(StoreError),
    /// A write failed. A beginning of the verdict's line was written.
    NotWritten,
}

/// The line that `audit` prints for a verdict on the evidence.
fn evidence_line(holds: bool) -> &'static str
    ensures { result.now ≡ evidence_line holds }
{
    if holds {
        "evidence holds\n"
    } else {
        "evidence does not hold\n"
    }
}

/// Prints the line for a verdict.
fn print_evidence<W: Write>(holds: bool, writer: &mut W) -> AuditOutcome
    ensures { PrintsEvidence (Ok holds) (W.contents writer.old) (W.contents writer.new) result }
{
    if write_whole(writer, evidence_line(holds).as_bytes()) {
        AuditOutcome::Verdict(holds)
    } else {
        AuditOutcome::NotWritten
    }
}

/// Prints the line for a verdict, and nothing for an error.
fn print_audit<W: Write>(audited: Result<bool, StoreError>, writer: &mut W) -> AuditOutcome
    ensures { PrintsEvidence audited (W.contents writer.old) (W.contents writer.new) result }
{
    match audited {
        Ok(holds) => print_evidence(holds, writer),
        Err(error) => AuditOutcome::Unread(error),
    }
}

/// Audits a store, prints the verdict, and returns the connection.
pub fn audit_store<W: Write, S: Alter>(
    mut store: Store<S>,
    writer: &mut W,
) -> (AuditOutcome, Connection<S>)
    requires { has_failed store ≡ false }
    ensures clean { HasCleanDisk (state S.Store result.1) → HasCleanDisk (state_of store) }
    ensures audits { HasCleanDisk (state S.Store result.1) → (was : Stored)
        → SpellsWhileOpen (state_of store) was
        → AuditsAs was (W.contents writer.old) (W.contents writer.new) result.0 }
    ensures same { HasCleanDisk (state S.Store result.1) → StillSpells (state_of store) (state S.Store result.1) }
{
    let audited = store.audit();
    (print_audit(audited, writer), store.into_connection())
}
