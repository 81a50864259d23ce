//! Changes of the registry, stored together with the reply.

ghost use Rattle.std.specs.Prelude.{◌⊎◌, IfSome, IfErr, OnOk, OnErr, IsTrue};
ghost use Rattle.sqlite.specs.State.{HasCleanDisk, Survives, KeepsCommit};
ghost use Rattle.reg_store.specs.Spells.{RecoversTo, IsOpenOver};
ghost use Rattle.reg_store.specs.Changes.{IsKeepable, HasWork, WhenApplicable, HoldsAfterChanges, RecoversToEither};
ghost use Rattle.reg_store.specs.Failures.{failure_of, is_fault};
ghost use Rattle.reg_store.specs.Stores.{state_of, KeepsCrashStates, KeepsStore, StillSpells};
ghost use Rattle.reg_store.specs.Inside.Reads.{shown};

use crate::changes::{apply_changes, keep_reply};
use crate::conn::Conn;
use crate::error::StoreError;
use crate::keep::Keep;
use crate::store::Store;
use reg_core::Change;
use sqlite::{Alter, Error};

/// Applies the changes and stores the reply in one transaction.
fn commit_all<S: Alter>(
    db: &mut Conn<S>,
    changes: &[Change],
    keep: Option<Keep<'_>>,
) -> Result<(), Error>
    requires keepable { IfSome keep IsKeepable }
    ensures done { HasCleanDisk (shown db.new) → OnOk result (WhenApplicable (shown db.old) changes.now keep.entry (λ was.
        HoldsAfterChanges changes.now keep.entry was (IsOpenOver (shown db.new)))) }
    ensures fault { HasCleanDisk (shown db.new) → IfErr result (λ e.
        WhenApplicable (shown db.old) changes.now keep.entry (λ was. IsTrue (is_fault (failure_of e)))) }
    ensures was_open { HasCleanDisk (shown db.new) → OnOk result (IsTrue (shown db.old).is_open) }
    ensures nothing { HasCleanDisk (shown db.new) → OnErr result (KeepsCommit (shown db.old) (shown db.new)) }
    ensures before { HasCleanDisk (shown db.new) → IfErr result (λ e. IsTrue (shown db.old).is_open
        → KeepsCrashStates (shown db.old) (shown db.new) (failure_of e)) }
    ensures survives { Survives (shown db.old) (shown db.new) (λ left.
        WhenApplicable (shown db.old) changes.now keep.entry (λ was.
        IsTrue (shown db.old).is_open ⊎ HasWork changes.now keep.entry
        → HoldsAfterChanges changes.now keep.entry was (RecoversTo left))) }
{
    let mut tx = db.idle.conn.transaction();
    apply_changes(&mut tx, changes)?;
    keep_reply(&mut tx, keep)?;
    tx.commit()
}

impl<S: Alter> Store<S> {
    /// Applies the changes in order and stores the reply, if any, in one transaction. Each change
    /// must fit the registry after the changes before it. The reply's status is 200, 404, 409 or
    /// 422, and its key has no reply yet.
    ///
    /// # Errors
    ///
    /// `Memory` or `Disk`. `NotARegistry` only if the tables no longer hold a registry, a change
    /// doesn't fit it, or the key has a reply. Nothing has changed. But after `Disk`, or after
    /// `Memory` if the disk failed too, a crash may leave all changes and the reply.
    pub fn apply(&mut self, changes: &[Change], keep: Option<Keep<'_>>) -> Result<(), StoreError>
        requires { IfSome keep IsKeepable }
        ensures frame { KeepsStore self.old self.new result }

        // True evidence stays true, also after a crash.
        ensures done { HasCleanDisk (state_of self.new) → OnOk result
            (WhenApplicable (state_of self.old) changes.now keep.entry (λ was.
            HoldsAfterChanges changes.now keep.entry was (IsOpenOver (state_of self.new)))) }
        ensures fault { HasCleanDisk (state_of self.new) → IfErr result (λ e.
            WhenApplicable (state_of self.old) changes.now keep.entry (λ was. IsTrue (is_fault e))) }
        ensures nothing { HasCleanDisk (state_of self.new)
            → OnErr result (StillSpells (state_of self.old) (state_of self.new)) }

        // If the connection was open: after an error other than `Disk`, a crash leaves what it
        // could leave before, unless the disk failed together with an allocation.
        ensures before { HasCleanDisk (state_of self.new) → IfErr result (λ e.
            IsTrue (state_of self.old).is_open → KeepsCrashStates (state_of self.old) (state_of self.new) e) }

        // A crash leaves the state before or after the call. If a fault had closed the connection
        // and there is work, a crash leaves the state after the call, or what it could leave
        // before.
        ensures crash { HasCleanDisk (state_of self.new) → WhenApplicable (state_of self.old) changes.now keep.entry (λ was.
            IsTrue (state_of self.old).is_open ⊎ HasWork changes.now keep.entry
            → RecoversToEither (state_of self.old) (state_of self.new) changes.now keep.entry was) }
    {
        if self.failed {
            return Err(StoreError::Disk);
        }
        let done = commit_all(&mut self.db, changes, keep);
        let _idle = self.db.idle.conn.is_autocommit();
        let done = done.map_err(StoreError::from);
        self.failed = matches!(done, Err(StoreError::Disk));
        done
    }
}
