//! What the server knows of a connection besides its bytes: what it waits for, and since when.

use super::network::Readiness;
use super::ticks::TICKS_PER_SECOND;

/// The ticks after which a connection without a request is closed. A proxy in front should close
/// its own idle connections earlier.
const IDLE_TICKS: u64 = TICKS_PER_SECOND * 75;

/// The ticks after which a connection is closed if a request or a response has begun and no byte
/// of it moves.
const STALLED_TICKS: u64 = TICKS_PER_SECOND * 10;

/// The ticks that a request may take to arrive, and its response to be taken. The largest has 1
/// MiB, so 35 KB a second are enough.
const MESSAGE_TICKS: u64 = TICKS_PER_SECOND * 30;

/// The ticks for which the server reads what a client still sends after the end.
const LINGER_TICKS: u64 = TICKS_PER_SECOND;

/// A connection with more bytes of memory is large.
const SMALL_ROOM: usize = 16_384;

/// The phase of a connection.
#[derive(Clone, Copy)]
pub enum Phase {
    /// No request has begun to arrive, and the client took every response.
    Idle,
    /// A request is arriving, or waits to be processed.
    Receiving,
    /// A response waits to be taken.
    Sending,
    /// The session is over, and the client may still be sending.
    Lingering,
    /// It is to be closed.
    Over,
}

/// A connection's place in the schedule.
#[derive(Clone, Copy)]
pub struct Place {
    pub phase: Phase,
    /// Bytes, or the end of the input, may have arrived.
    pub is_readable: bool,
    /// The connection may take bytes.
    pub is_writable: bool,
    /// The client has ended its side, so a read after the last byte is needed to see the end.
    pub has_hung_up: bool,
    /// A whole message may be there.
    pub may_answer: bool,
    /// The tick at which the last byte moved.
    pub moved: u64,
    /// The tick at which the current request or response began.
    pub begun: u64,
    /// The bytes of memory that its buffers have.
    pub room: usize,
    /// It waits for a turn.
    pub is_queued: bool,
}

impl Place {
    /// The place of a connection that was accepted at this tick.
    pub fn of(now: u64) -> Place {
        Place {
            phase: Phase::Idle,
            is_readable: false,
            is_writable: true,
            has_hung_up: false,
            may_answer: false,
            moved: now,
            begun: now,
            room: 0,
            is_queued: false,
        }
    }

    /// Records what happened to the connection.
    pub fn notice(&mut self, readiness: Readiness) {
        self.is_readable = self.is_readable || readiness.is_readable;
        self.is_writable = self.is_writable || readiness.is_writable;
        self.has_hung_up = self.has_hung_up || readiness.has_hung_up;
    }

    /// Whether a turn would move it on.
    pub fn can_go_on(&self) -> bool {
        match self.phase {
            Phase::Idle | Phase::Receiving => self.may_answer || self.is_readable,
            Phase::Sending => self.is_writable,
            Phase::Lingering => self.is_readable,
            Phase::Over => false,
        }
    }

    /// Whether its response waits for the client, and the connection took no more bytes when it
    /// was last tried.
    pub fn is_blocked(&self) -> bool {
        matches!(self.phase, Phase::Sending) && !self.is_writable
    }

    /// Whether its response waits, and the connection may take bytes of it now.
    pub fn is_moving(&self) -> bool {
        matches!(self.phase, Phase::Sending) && self.is_writable
    }

    /// Whether no request has begun to arrive, and the client took every response.
    pub fn is_idle(&self) -> bool {
        matches!(self.phase, Phase::Idle) && !self.is_queued && !self.is_readable
    }

    /// Whether its buffers have much memory.
    pub fn is_large(&self) -> bool {
        self.room > SMALL_ROOM
    }

    /// Whether its time is over. That of a connection that waits for a turn isn't.
    pub fn is_late(&self, now: u64) -> bool {
        let quiet = now.saturating_sub(self.moved);
        let lasts = now.saturating_sub(self.begun);
        match self.phase {
            _ if self.is_queued => false,
            Phase::Idle => quiet >= IDLE_TICKS,
            Phase::Receiving | Phase::Sending => quiet >= STALLED_TICKS || lasts >= MESSAGE_TICKS,
            Phase::Lingering => lasts >= LINGER_TICKS,
            Phase::Over => true,
        }
    }
}
