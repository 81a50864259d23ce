//! A connection and its turns. In a turn, a connection reads once, processes at most one message,
//! and writes once. None of these blocks.

ghost use Rattle.std.specs.Prelude.{◌≡◌, [], true, false};
ghost use Rattle.reg_service.specs.Processing.{ProcessesEach};
ghost use Rattle.reg_http.specs.Conversations.{step_of};

use super::network::Output;
use super::place::{Phase, Place};
use reg_http::{Conversation, Ended, Step, Workspace};
use reg_service::Service;
use sqlite::Alter;
use std::alloc::Global;
use std::io::{self, ErrorKind, Read};

/// The maximum number of bytes that are dropped in a turn.
const MAX_DROP_BYTES: usize = 16_384;

/// A connection that was accepted.
#[derive(Drop)]
pub struct Connection<I, O> {
    input: I,
    output: O,
    /// The number of connections that were accepted before it.
    number: u32,
    conversation: Conversation,
    /// The session is over. What the client still sends is dropped.
    lingers: bool,
}

impl<I: Read + Drop, O: Output + Drop> Connection<I, O> {
    ghost use Rattle.reg_jobs.specs.Connections.{IsUnderWay, Stays, ConnectionGoes};

    /// A connection that was accepted after this number of others.
    pub fn of(alloc: Global, input: I, output: O, number: u32) -> Connection<I, O>
        ensures number { result.number ≡ number }
        ensures begins { IsUnderWay I.remaining O.contents [] (input, output) result }
    {
        Connection {
            input,
            output,
            number,
            conversation: Conversation::new(alloc),
            lingers: false,
        }
    }

    /// The bytes of memory that its buffers have.
    pub fn room(&self) -> usize {
        self.conversation.room()
    }

    /// Frees the memory of a large request and a large response, if no request has begun.
    pub fn shrink(&mut self, alloc: Global, place: &Place)
        ensures { self.new ≡ self.old }
    {
        if let Phase::Idle = place.phase {
            self.conversation.shrink(alloc);
        }
    }

    /// Returns its two halves.
    pub fn into_halves(self) -> (I, O)
        ensures { result ≡ (self.input, self.output) }
    {
        (self.input, self.output)
    }

    /// Records the result of a read. Returns how the session ends if nothing more can be read.
    fn after_receive(
        &self,
        received: io::Result<usize>,
        place: &mut Place,
        now: u64,
    ) -> Option<Ended> {
        match received {
            Ok(0) => return Some(self.conversation.end_of_input()),
            Ok(_) => {
                place.moved = now;
                place.is_readable = !self.conversation.has_drained() || place.has_hung_up;
            }
            Err(error) if error.kind() == ErrorKind::WouldBlock => place.is_readable = false,
            Err(error) if error.kind() == ErrorKind::Interrupted => {}
            Err(error) if error.kind() == ErrorKind::OutOfMemory => return Some(Ended::Memory),
            Err(_) => return Some(Ended::ReadFailed),
        }
        None
    }

    /// Reads once. Returns how the session ends if nothing more can be read.
    fn receive(&mut self, place: &mut Place, now: u64) -> Option<Ended>
        requires step { step_of self.old.conversation ≡ Step.Receive }
        requires talks { self.old.lingers ≡ false }
        ensures stays { Stays I.remaining O.contents self.old self.new }
        ensures talks { self.new.lingers ≡ false }
    {
        if self.conversation.is_between_messages() {
            place.begun = now;
        }
        let received = self.conversation.receive(&mut self.input);
        self.after_receive(received, place, now)
    }

    /// Records the result of a write. Returns how the session ends if nothing more can be written.
    fn after_send(&self, sent: io::Result<usize>, place: &mut Place, now: u64) -> Option<Ended> {
        match sent {
            Ok(0) => return Some(Ended::WriteFailed),
            Ok(_) => place.moved = now,
            Err(error) if error.kind() == ErrorKind::WouldBlock => place.is_writable = false,
            Err(error) if error.kind() == ErrorKind::Interrupted => {}
            Err(_) => return Some(Ended::WriteFailed),
        }
        if let Step::Send = self.conversation.next_step() {
            return None;
        }
        place.begun = now;
        None
    }

    /// Writes once. Returns how the session ends if nothing more can be written.
    fn send(&mut self, place: &mut Place, now: u64) -> Option<Ended>
        requires step { step_of self.old.conversation ≡ Step.Send }
        requires talks { self.old.lingers ≡ false }
        ensures stays { Stays I.remaining O.contents self.old self.new }
        ensures talks { self.new.lingers ≡ false }
    {
        let sent = self.conversation.send(&mut self.output);
        self.after_send(sent, place, now)
    }

    /// Writes or reads once, if that is the next step and the connection may allow it. Returns how
    /// the session ends if it ends.
    fn move_bytes(&mut self, place: &mut Place, now: u64) -> Option<Ended>
        requires { self.old.lingers ≡ false }
        ensures stays { Stays I.remaining O.contents self.old self.new }
        ensures talks { self.new.lingers ≡ false }
    {
        match self.conversation.next_step() {
            Step::Send if place.is_writable => self.send(place, now),
            Step::Receive if place.is_readable => self.receive(place, now),
            _ => None,
        }
    }

    /// Processes the next message, and records that its response begins.
    fn answer<S: Alter>(
        &mut self,
        alloc: Global,
        workspace: &mut Workspace,
        place: &mut Place,
        now: u64,
        service: &mut Service<S>,
    )
        requires step { step_of self.old.conversation ≡ Step.Answer }
        requires talks { self.old.lingers ≡ false }
        ensures goes { ConnectionGoes I.remaining O.contents (ProcessesEach service.old service.new) self.old self.new }
        ensures talks { self.new.lingers ≡ false }
    {
        self.conversation.answer(alloc, workspace, service);
        place.begun = now;
    }

    /// Whether the client may still be sending after the session ended.
    fn may_be_sending(&self, ended: Ended, place: &Place) -> bool {
        match ended {
            Ended::Malformed => !place.has_hung_up,
            Ended::Closed | Ended::ReadFailed | Ended::Memory => {
                place.is_readable && !place.has_hung_up || !self.conversation.is_between_messages()
            }
            Ended::WriteFailed => false,
        }
    }

    /// Ends the session. If the client may still be sending, the server first ends its output, and
    /// drops what the client sends. If bytes stayed unread, the system would reset the connection,
    /// and a reset may reach the client before its last response (RFC 9112, section 9.6).
    fn end(&mut self, ended: Ended, place: &mut Place, now: u64)
        requires { self.old.lingers ≡ false }
        ensures { Stays I.remaining O.contents self.old self.new }
    {
        if !self.may_be_sending(ended, place) || !self.output.end() {
            place.phase = Phase::Over;
            return;
        }
        self.lingers = true;
        place.phase = Phase::Lingering;
        place.begun = now;
        place.is_readable = true;
    }

    /// Reads bytes and drops them.
    fn discard(&mut self, place: &mut Place)
        requires { self.old.lingers ≡ true }
        ensures { Stays I.remaining O.contents self.old self.new }
    {
        let mut dropped = [0u8; MAX_DROP_BYTES];
        match self.input.read(&mut dropped) {
            Ok(0) => place.phase = Phase::Over,
            Ok(_) => {}
            Err(error) if error.kind() == ErrorKind::WouldBlock => place.is_readable = false,
            Err(error) if error.kind() == ErrorKind::Interrupted => {}
            Err(_) => place.phase = Phase::Over,
        }
    }

    /// Records the phase, or ends the session if it is over.
    fn settle(&mut self, place: &mut Place, now: u64)
        requires { self.old.lingers ≡ false }
        ensures { Stays I.remaining O.contents self.old self.new }
    {
        place.may_answer = false;
        match self.conversation.next_step() {
            Step::End(ended) => self.end(ended, place, now),
            Step::Answer => {
                place.phase = Phase::Receiving;
                place.may_answer = true;
            }
            Step::Receive if self.conversation.is_between_messages() => place.phase = Phase::Idle,
            Step::Receive => place.phase = Phase::Receiving,
            Step::Send => place.phase = Phase::Sending,
        }
    }

    /// Moves bytes, and records the phase, or ends the session if it is over.
    fn move_and_settle(&mut self, place: &mut Place, now: u64)
        requires { self.old.lingers ≡ false }
        ensures { Stays I.remaining O.contents self.old self.new }
    {
        match self.move_bytes(place, now) {
            Some(ended) => self.end(ended, place, now),
            None => self.settle(place, now),
        }
    }

    /// A turn of a session: it writes a part of a response, or reads; then it processes a message
    /// and writes the response to it.
    fn talk<S: Alter>(
        &mut self,
        alloc: Global,
        workspace: &mut Workspace,
        place: &mut Place,
        now: u64,
        service: &mut Service<S>,
    )
        requires { self.old.lingers ≡ false }
        ensures { ConnectionGoes I.remaining O.contents (ProcessesEach service.old service.new) self.old self.new }
    {
        if let Some(ended) = self.move_bytes(place, now) {
            self.end(ended, place, now);
            return;
        }
        if let Step::Answer = self.conversation.next_step() {
            self.answer(alloc, workspace, place, now, service);
            self.write_and_settle(place, now);
        } else {
            self.settle(place, now);
        }
    }

    /// Writes once if a response waits, and records the phase, or ends the session if it is over.
    fn write_and_settle(&mut self, place: &mut Place, now: u64)
        requires { self.old.lingers ≡ false }
        ensures { Stays I.remaining O.contents self.old self.new }
    {
        if let Step::Send = self.conversation.next_step() {
            self.move_and_settle(place, now);
        } else {
            self.settle(place, now);
        }
    }

    /// A turn: of the session, or after its end.
    pub fn take_turn<S: Alter>(
        &mut self,
        alloc: Global,
        workspace: &mut Workspace,
        place: &mut Place,
        now: u64,
        service: &mut Service<S>,
    )
        ensures { ConnectionGoes I.remaining O.contents (ProcessesEach service.old service.new) self.old self.new }
    {
        if self.lingers {
            self.discard(place);
            return;
        }
        self.talk(alloc, workspace, place, now, service);
    }
}
