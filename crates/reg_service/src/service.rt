//! A registry service that applies each first delivery exactly once.

ghost use Rattle.std.specs.Prelude.{◌≡◌, ◌⊎◌, Some, None, [], ◌∷◌, zip, length, vec_len, IfOk, OnOk, OnErr, IsTrue};
ghost use Rattle.sqlite.specs.State.{HasCleanDisk};
ghost use Rattle.reg_core.specs.Replies.{IsCommandReply, fault};
ghost use Rattle.reg_core.specs.Stored.{Stored};
ghost use Rattle.reg_store.specs.Spells.{IsOpenOver, SpellsWhileOpen};
ghost use Rattle.reg_store.specs.Stores.{has_failed, AddsNoCrashState, StillSpells};
ghost use Rattle.reg_service.specs.Deliveries.{served, RepeatsAgree, NoOtherAnswers};
ghost use Rattle.reg_service.specs.Admissions.{AllAdmitted};
ghost use Rattle.reg_service.specs.Crashes.{RecoversAcknowledged, RecoversSpelled, reply_or_fault};
ghost use Rattle.reg_service.specs.Processing.{Processes, ServesEach};
ghost use Rattle.reg_service.specs.Services.{store_in, state_in, ServesOver, AreBackendFaults, FailsDuring, PreservesService};
ghost use Rattle.reg_service.specs.Inside.Crashing.{RecoversOne};
ghost use Rattle.reg_service.specs.Inside.Steps.{IsDecisionOfStep, ExecutesCommand};

use crate::delivery::retry_key;
use crate::error::AnswerError;
use crate::kept::answer_retry;
use crate::schemas::{SchemaCaches, identity_text};
use reg_core::{
    Code, Command, Decision, Delivery, Key, OutOfMemory, Reply, decide_with_cache, print_of,
};
use reg_store::{Keep, Store};
use sqlite::Alter;
use std::alloc::Global;

/// A registry and its kept replies, in the tables of a store.
#[derive(Drop)]
pub struct Service<S: Alter> {
    alloc: Global,
    store: Store<S>,
    schemas: SchemaCaches,
}

impl<S: Alter> Service<S> {
    /// A service over a store. This call allocates nothing.
    pub fn new(alloc: Global, store: Store<S>) -> Service<S>
        ensures { store_in result ≡ store }
    {
        Service {
            alloc,
            store,
            schemas: SchemaCaches::new(),
        }
    }

    /// Returns the store.
    pub fn into_store(self) -> Store<S>
        ensures { result ≡ store_in self }
    {
        let Service {
            alloc: _,
            store,
            schemas: _,
        } = self;
        store
    }

    /// Whether the store has failed. From then on every reply is 50001.
    pub fn failed(&self) -> bool
        ensures { result ≡ has_failed (store_in self.now) }
    {
        self.store.failed()
    }

    /// Executes a read, and a write with a new key or without a key. A known key gets its first
    /// reply, or 42290 for another command.
    ///
    /// If an allocation or the store fails, the reply is 50001 and nothing has changed. One
    /// exception: if a disk fault closed the database connection, a crash may leave the delivery
    /// executed.
    pub fn answer(&mut self, delivery: &Delivery) -> Reply
        ensures { Processes self.old self.new (delivery.now, result) }
    {
        match self.try_answer(delivery) {
            Ok(reply) => reply,
            Err(AnswerError) => Reply::fault(Code::BackendFault),
        }
    }

    /// Processes each delivery in order, as `answer` does. A delivery is acknowledged if its reply
    /// isn't 50001. The disk is clean if, up to the end of this call, it returned what was written
    /// to it. On a clean disk, a crash preserves every acknowledged delivery. It may also preserve
    /// one first delivery that got 50001. In that case all deliveries after it got 50001, too.
    ///
    /// # Errors
    ///
    /// `OutOfMemory` if allocating the replies fails. Nothing was executed then.
    pub fn run(&mut self, list: &[Delivery]) -> Result<Vec<Reply>, OutOfMemory>
        ensures count { IfOk result (λ replies. vec_len replies ≡ length list.now) }

        // Each delivery is processed as by `answer`, in the state that the previous one left. On a
        // clean disk, the list is durable as a whole.
        ensures each { IfOk result (λ replies. ServesEach self.old self.new (zip list.now replies.items)) }

        // If the store had failed, every reply is 50001. The same is true on a clean disk if the
        // database connection was closed before the call; then a crash can leave nothing new. A
        // failed store doesn't change, an unclean disk stays unclean. On a clean disk, a closed
        // connection stays closed, and only a disk fault closes one.
        ensures frame { PreservesService self.old self.new (IfOk result (λ replies. AreBackendFaults replies.items)) }

        // If the store failed during this call, every reply from some delivery on is 50001. The
        // clause `each` says more.
        ensures fails { IfOk result (λ replies. IsTrue (has_failed (store_in self.new))
            → IsTrue (has_failed (store_in self.old)) ⊎ FailsDuring self.old self.new (zip list.now replies.items)) }

        // On a clean disk, this is true of the deliveries whose reply isn't 50001. Each reply is
        // the abstract machine's, or the reply kept for its key, or 42290 for a key with another
        // command. If the connection is open after the call, the tables spell the result. In it,
        // each first delivery was applied once, and each added version has the evidence that its
        // decision named. All its evidence is true if that was so before.
        ensures exactly_once { HasCleanDisk (state_in self.new) → IfOk result (λ replies.
            ServesOver (state_in self.old) (state_in self.new) (served (zip list.now replies.items))) }

        // On a clean disk, two writes with the same key and the same command got the same reply,
        // apart from replies 50001.
        ensures repeats { HasCleanDisk (state_in self.new) → IfOk result (λ replies.
            (was : Stored) → SpellsWhileOpen (state_in self.old) was
            → RepeatsAgree (served (zip list.now replies.items))) }

        // On a clean disk, no other replies are due to the deliveries whose reply isn't 50001.
        ensures no_other_replies { HasCleanDisk (state_in self.new) → IfOk result (λ replies.
            (was : Stored) → SpellsWhileOpen (state_in self.old) was
            → NoOtherAnswers was (served (zip list.now replies.items))) }

        // An error changes nothing.
        ensures err { OnErr result (self.new ≡ self.old) }

        // On a clean disk, if the connection was open: each version that an acknowledged delivery
        // added was admitted by its subject's level at that time.
        ensures admitted { HasCleanDisk (state_in self.new) → IfOk result (λ replies.
            (was : Stored) → IsOpenOver (state_in self.old) was
            → AllAdmitted was (served (zip list.now replies.items))) }

        // On a clean disk, if the connection was open: after a crash, the tables have every
        // acknowledged delivery. They may also have one first delivery of the list that got 50001,
        // but no other one that got 50001. A delivery's version, reply and evidence survive
        // together.
        ensures crash { HasCleanDisk (state_in self.new) → IfOk result (λ replies.
            (was : Stored) → IsOpenOver (state_in self.old) was
            → RecoversAcknowledged self.old self.new was (zip list.now replies.items)) }

        // If the connection is open after the call, a crash leaves what the tables spell.
        ensures crash_while_open { RecoversSpelled (state_in self.new) }
    {
        let mut replies = Vec::with_capacity(self.alloc, list.len())?;
        for delivery in list {
            let reply = self.answer(delivery);
            replies.push_reserved(reply);
        }
        Ok(replies)
    }

    /// Returns the reply. After an error the tables still spell what they spelled.
    fn try_answer(&mut self, delivery: &Delivery) -> Result<Reply, AnswerError>
        ensures frame { PreservesService self.old self.new (OnOk result ⊥) }
        ensures fails { IsTrue (has_failed (store_in self.new)) → OnOk result ⊥ }
        ensures exactly_once { HasCleanDisk (state_in self.new) → IfOk result (λ reply.
            ServesOver (state_in self.old) (state_in self.new) (served ((delivery.now, reply) ∷ []))) }
        ensures err { HasCleanDisk (state_in self.new)
            → OnErr result (StillSpells (state_in self.old) (state_in self.new)) }
        ensures crash { HasCleanDisk (state_in self.new) → (was : Stored)
            → IsOpenOver (state_in self.old) was
            → RecoversOne was delivery.now (reply_or_fault result) (state_in self.new).may_leave }
    {
        let Some(key) = retry_key(delivery) else {
            return self.answer_unkept(&delivery.command);
        };
        let text = print_of(self.alloc, &delivery.command)?;
        match self.store.kept(key)? {
            Some((kept, reply)) => Ok(answer_retry(kept, reply, text.as_str())),
            None => self.answer_first(key, text.as_str(), &delivery.command),
        }
    }

    /// Executes a read, or a write without a key. Its reply isn't kept.
    fn answer_unkept(&mut self, command: &Command) -> Result<Reply, AnswerError>
        ensures frame { PreservesService self.old self.new (OnOk result ⊥) }
        ensures fails { IsTrue (has_failed (store_in self.new)) → OnOk result ⊥ }
        ensures executes { HasCleanDisk (state_in self.new)
            → ExecutesCommand (state_in self.old) (state_in self.new) command.now None result }
    {
        let Decision { changes, reply } = self.decision(command)?;
        if !changes.is_empty() {
            self.store.apply(&changes, None)?;
        }
        Ok(reply)
    }

    /// Executes the first delivery of a key, and keeps its reply with the command's text.
    fn answer_first(
        &mut self,
        key: &Key,
        text: &str,
        command: &Command,
    ) -> Result<Reply, AnswerError>
        ensures frame { PreservesService self.old self.new (OnOk result ⊥) }
        ensures fails { IsTrue (has_failed (store_in self.new)) → OnOk result ⊥ }
        ensures executes { HasCleanDisk (state_in self.new) → ExecutesCommand
            (state_in self.old) (state_in self.new) command.now (Some (key.now, text.now)) result }
    {
        let Decision { changes, reply } = self.decision(command)?;
        let keep = Keep {
            key,
            command: text,
            reply: &reply,
        };
        self.store.apply(&changes, Some(keep))?;
        Ok(reply)
    }

    /// The command's changes and its reply.
    fn decision(&mut self, command: &Command) -> Result<Decision, AnswerError>
        ensures frame { PreservesService self.old self.new (OnOk result ⊥) }
        ensures fails { IsTrue (has_failed (store_in self.new)) → OnOk result ⊥ }
        ensures same { HasCleanDisk (state_in self.new) → StillSpells (state_in self.old) (state_in self.new) }
        ensures decided { HasCleanDisk (state_in self.new) → IfOk result (λ d. (was : Stored)
            → SpellsWhileOpen (state_in self.old) was → IsDecisionOfStep was command.now d) }
        ensures own { IfOk result (λ d. IsCommandReply d.reply) }
        ensures crash { HasCleanDisk (state_in self.new)
            → AddsNoCrashState (state_in self.old) (state_in self.new) }
    {
        let schema = self.schemas.take(self.alloc, command)?;
        let identity = identity_text(self.alloc, schema.as_ref())?;
        let view = self.store.view(command, identity.as_deref())?;
        let registered = Some(&mut self.schemas.registered);
        let decision = decide_with_cache(self.alloc, &view, command, schema.as_ref(), registered)?;
        self.schemas
            .keep(self.alloc, command, &decision.changes, schema, identity);
        Ok(decision)
    }
}
