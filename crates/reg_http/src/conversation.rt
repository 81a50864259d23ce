//! A conversation with a client, without its socket: bytes come in as they arrive, and responses
//! go out as they are taken, one at a time.

ghost use Rattle.std.specs.Prelude.{◌≡◌, ◌≤◌, ◌<◌, ◌+◌, ◌↔◌, [], ℕ, List, length, IsTrue, IfOk, OnErr};
ghost use Rattle.std.specs.Io.KnownBytes.{Appends, Consumes, IsAtEnd, Keeps};
ghost use Rattle.reg_service.specs.Processing.{ProcessesEach};
ghost use Rattle.reg_messages.specs.Framing.{max_body};
ghost use Rattle.reg_messages.specs.Messages.{max_head};
ghost use Rattle.reg_http.specs.Inside.InputEnds.{end_of};

use crate::answering::{StepOutcome, Stop, answer_front};
use crate::buffer::Buffer;
use crate::outbox::Outbox;
use crate::serving::Ended;
use crate::workspace::Workspace;
use reg_core::OutOfMemory;
use reg_service::Service;
use sqlite::Alter;
use std::alloc::Global;
use std::io::{Read, Write};
use std::{io, mem};

/// What a conversation does next.
#[derive(Clone, Copy)]
pub enum Step {
    /// It waits for bytes of the client.
    Receive,
    /// A whole message may be there.
    Answer,
    /// A response, or the rest of it, waits to be written.
    Send,
    /// It has ended.
    End(Ended),
}

/// A conversation with a client. No message is processed before the client has taken the responses
/// to all earlier ones.
#[derive(Drop)]
pub struct Conversation {
    held: Buffer,
    outbox: Outbox,
    /// Fewer bytes than this number hold no whole message.
    needs: usize,
    /// No further message is processed. It ends so once its last response was taken.
    ended: Option<Ended>,
    ghost fits: { needs ≤ max_head + max_body },
}

impl Conversation {
    ghost use Rattle.reg_http.specs.Conversations.{IsSoFar, Receives, Answers, Sends, step_of};

    /// A conversation that begins. It allocates nothing before the first read.
    pub fn new(alloc: Global) -> Conversation
        ensures fresh { IsSoFar [] [] [] result }
        ensures begins { step_of result ≡ Step.Receive }
    {
        Conversation {
            held: Buffer::new(alloc),
            outbox: Outbox::new(alloc),
            needs: 1,
            ended: None,
        }
    }

    /// A conversation that has all memory for reading before the first read.
    ///
    /// # Errors
    ///
    /// `OutOfMemory` if the allocation fails.
    pub fn with_all_room(alloc: Global) -> Result<Conversation, OutOfMemory>
        ensures { IfOk result (IsSoFar [] [] []) }
    {
        Ok(Conversation {
            held: Buffer::with_all_room(alloc)?,
            outbox: Outbox::new(alloc),
            needs: 1,
            ended: None,
        })
    }

    /// What comes next.
    pub fn next_step(&self) -> Step
        ensures { result ≡ step_of self.now }
    {
        if !self.outbox.is_empty() {
            return Step::Send;
        }
        match self.ended {
            Some(ended) => Step::End(ended),
            None if self.held.held().len() < self.needs => Step::Receive,
            None => Step::Answer,
        }
    }

    /// Whether no byte of a further message has arrived.
    pub fn is_between_messages(&self) -> bool
        ensures { IsTrue result ↔ (self.now.held ≡ []) }
    {
        self.held.held().is_empty()
    }

    /// Whether the last read took all bytes that had arrived.
    pub fn has_drained(&self) -> bool {
        self.held.has_room_behind()
    }

    /// The number of bytes that were received and aren't processed.
    pub fn unprocessed(&self) -> usize
        ensures { result ≡ length self.now.held }
    {
        self.held.held().len()
    }

    /// The number of bytes of the last response that weren't sent.
    pub fn unsent(&self) -> usize
        ensures { result ≡ length self.now.outbox }
    {
        self.outbox.size()
    }

    /// The number of bytes for which it has memory.
    pub fn room(&self) -> usize {
        self.held.room().saturating_add(self.outbox.room())
    }

    /// Reads once. Returns the number of bytes, or 0 at the end of the input.
    ///
    /// # Errors
    ///
    /// The error of the read, or `OutOfMemory`. Nothing has changed then.
    pub fn receive<R: Read>(&mut self, reader: &mut R) -> io::Result<usize>
        requires { step_of self.old ≡ Step.Receive }
        ensures ok { IfOk result (λ n. (more : List ℕ) × (length more ≡ n) × Receives more self.old self.new
            × Consumes (R.remaining reader.old) (R.remaining reader.new) more
            × (n ≡ 0 → IsAtEnd (R.remaining reader.new) × (step_of self.new ≡ Step.Receive))) }
        ensures err { OnErr result ((self.new ≡ self.old) × Keeps (R.remaining reader.old) (R.remaining reader.new)) }
    {
        self.held.fill(reader)
    }

    /// Processes one message if a whole one is there. Its response waits until it is sent.
    pub fn answer<S: Alter>(
        &mut self,
        alloc: Global,
        workspace: &mut Workspace,
        service: &mut Service<S>,
    )
        requires { step_of self.old ≡ Step.Answer }
        ensures answers { Answers (ProcessesEach service.old service.new) self.old self.new }
        ensures progress { step_of self.new ≡ Step.Answer → length self.new.held < length self.old.held }
    {
        let empty = Outbox::new(alloc);
        let mut out = mem::replace(&mut self.outbox, empty).into_empty();
        let headers = workspace.headers.as_mut_slice();
        let held = self.held.held();
        match answer_front(alloc, &workspace.routes, held, headers, &mut out, service) {
            StepOutcome::Answered(size) => {
                self.held.consume(size);
                self.needs = 1;
            }
            StepOutcome::Stopped(Stop::Waiting(needs)) => self.needs = needs,
            StepOutcome::Stopped(Stop::AtClose) => self.ended = Some(Ended::Closed),
            StepOutcome::Stopped(Stop::AtFault) => self.ended = Some(Ended::Malformed),
            StepOutcome::Stopped(Stop::NotWritten) => {
                out.clear();
                self.ended = Some(Ended::Memory);
            }
            StepOutcome::Stopped(Stop::OutOfMemory) => {
                out.clear();
                self.ended = Some(Ended::Memory);
            }
        }
        self.outbox = Outbox::of(out);
    }

    /// Frees the memory of a large request and a large response, if no byte of either is left. After
    /// this call, a conversation without such a byte has memory for at most 8,192 bytes.
    pub fn shrink(&mut self, alloc: Global)
        ensures { self.new ≡ self.old }
    {
        self.held.shrink(alloc);
        self.outbox.shrink(alloc);
    }

    /// Writes once, at most 64 KB. Returns the number of bytes.
    ///
    /// # Errors
    ///
    /// The error of the write. Nothing has changed then.
    pub fn send<W: Write>(&mut self, writer: &mut W) -> io::Result<usize>
        requires { step_of self.old ≡ Step.Send }
        ensures ok { IfOk result (λ n. (front : List ℕ) × (length front ≡ n) × Sends front self.old self.new
            × Appends (W.contents writer.old) (W.contents writer.new) front × (n ≡ 0 → step_of self.new ≡ Step.Send)) }
        ensures err { OnErr result ((self.new ≡ self.old) × Keeps (W.contents writer.old) (W.contents writer.new)) }
    {
        self.outbox.write_to(writer)
    }

    /// How the conversation ends if its input has ended.
    pub fn end_of_input(&self) -> Ended
        ensures { result ≡ end_of self.now.held }
    {
        if self.held.held().is_empty() {
            Ended::Closed
        } else {
            Ended::Malformed
        }
    }
}
