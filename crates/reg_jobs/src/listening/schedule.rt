//! Whose turn it is, and whose time is over. Nothing here reads, writes or processes: it chooses
//! what the server does next.

use super::network::Readiness;
use super::place::Place;
use super::ticks::TICK_MILLIS;
use std::alloc::Global;
use std::collections::VecDeque;

/// The most connections that are open at once. If all are in use, the one that has been idle
/// longest makes room for another one that waits.
pub const MAX_CONNECTIONS: usize = 4096;

/// The most bytes of memory for the buffers of all connections. If they need more, the large one
/// whose last byte moved longest ago is closed.
const MAX_ROOM: usize = 134_217_728;

/// If the buffers have more bytes of memory, and clients take their responses, only one other
/// connection has a turn in a round.
const SHORT_ROOM: usize = MAX_ROOM / 2;

/// The most connections that are accepted in a round, so that others get their turns.
const MAX_ACCEPTS: u32 = 16;

/// The milliseconds after which a write is tried again. The system reports that a connection may
/// take bytes only once a third of its buffer is free, which takes long if the client is slow.
const RETRY_MILLIS: u64 = 50;

/// What the server does next.
#[derive(Clone, Copy)]
pub enum Action {
    /// It accepts a connection.
    Accept,
    /// The connection with this key has its turn.
    Turn(usize),
    /// It closes the connection with this key.
    Close(usize),
    /// It waits for events, at most for this number of milliseconds if there is one.
    Wait(Option<u64>),
    /// It ends: no connection is open, and none is accepted any more.
    Finish,
}

/// The connections by their keys, those that wait for a turn, and what is left to do in a round. A
/// round is a wait, some accepts, one turn for each connection that waited for one, and now and
/// then a look at all connections.
#[derive(Drop)]
pub struct Schedule {
    places: Vec<Option<Place>>,
    queue: VecDeque<usize>,
    open: usize,
    room: usize,
    blocked: usize,
    moving: usize,
    now: u64,
    accepts_left: u32,
    turns_left: usize,
    /// A connection that takes no response had its turn in this round.
    had_other: bool,
    /// The key with which the look at all connections continues.
    next_look: usize,
    /// A connection may wait to be accepted.
    may_accept: bool,
    /// The last accept failed, so a connection that is idle has to make room.
    lacks_room: bool,
    /// The tick before which no accept is tried.
    pause: u64,
}

impl Schedule {
    /// A schedule without a connection.
    pub fn new(alloc: Global) -> Schedule {
        Schedule {
            places: Vec::new(alloc),
            queue: VecDeque::new(alloc),
            open: 0,
            room: 0,
            blocked: 0,
            moving: 0,
            now: 0,
            accepts_left: 0,
            turns_left: 0,
            had_other: false,
            next_look: 0,
            may_accept: true,
            lacks_room: false,
            pause: 0,
        }
    }

    /// The tick of this round.
    pub fn now(&self) -> u64 {
        self.now
    }

    /// The place of a connection.
    pub fn place(&self, key: usize) -> Option<Place> {
        match self.places.get(key) {
            Some(place) => *place,
            None => None,
        }
    }

    /// Replaces the place of a connection, or removes it.
    fn set_place(&mut self, key: usize, place: Option<Place>) {
        if let Some(slot) = self.places.get_mut(key) {
            if let Some(old) = *slot {
                self.open = self.open.saturating_sub(1);
                self.room = self.room.saturating_sub(old.room);
                self.blocked = self.blocked.saturating_sub(usize::from(old.is_blocked()));
                self.moving = self.moving.saturating_sub(usize::from(old.is_moving()));
            }
            if let Some(new) = place {
                self.open = self.open.saturating_add(1);
                self.room = self.room.saturating_add(new.room);
                self.blocked = self.blocked.saturating_add(usize::from(new.is_blocked()));
                self.moving = self.moving.saturating_add(usize::from(new.is_moving()));
            }
            *slot = place;
        }
    }

    /// Records a place, and lets the connection wait for a turn behind the others if it can go on.
    /// If memory for that is missing, the connection will be closed.
    fn put(&mut self, key: usize, mut place: Place) {
        if place.can_go_on() && !place.is_queued {
            place.is_queued = self.queue.push_back(key).is_ok();
        }
        self.set_place(key, Some(place));
    }

    /// Adds a connection. Returns whether there was memory for it.
    pub fn add(&mut self, key: usize) -> bool {
        lengthen(&mut self.places, key);
        if key >= self.places.len() {
            return false;
        }
        self.put(key, Place::of(self.now));
        true
    }

    /// Records a connection's place after its turn.
    pub fn settle(&mut self, key: usize, place: Place) {
        self.put(key, place);
    }

    /// Removes a connection.
    pub fn remove(&mut self, key: usize) {
        self.set_place(key, None);
    }

    /// Records that no connection waits to be accepted.
    pub fn accept_nothing(&mut self) {
        self.may_accept = false;
    }

    /// Records that the system accepts no connection. It is asked again at the next tick.
    pub fn accept_later(&mut self) {
        self.pause = self.now.saturating_add(1);
        self.lacks_room = true;
    }

    /// Records what happened to a connection, and lets it wait for a turn.
    fn notice(&mut self, readiness: Readiness) {
        if let Some(mut place) = self.place(readiness.key) {
            place.notice(readiness);
            self.put(readiness.key, place);
        }
    }

    /// Begins a round after a wait: at this tick, with what happened. `may_accept` says that a
    /// connection may wait to be accepted.
    pub fn begin_round(&mut self, now: u64, ready: &[Readiness], may_accept: bool) {
        for readiness in ready {
            self.notice(*readiness);
        }
        self.may_accept = self.may_accept || may_accept;
        self.accepts_left = MAX_ACCEPTS;
        self.turns_left = self.queue.len();
        self.had_other = false;
        if now != self.now || ready.is_empty() {
            self.next_look = 0;
        }
        self.now = now;
    }

    /// The key of the connection whose last byte moved longest ago, of those that are idle, or of
    /// those that are large.
    fn longest_quiet(&self, among_large: bool) -> Option<usize> {
        let mut found: Option<(usize, u64)> = None;
        for (key, place) in self.places.iter().enumerate() {
            let Some(place) = *place else {
                continue;
            };
            let counts = if among_large {
                place.is_large()
            } else {
                place.is_idle()
            };
            if !counts {
                continue;
            }
            match found {
                Some((_, moved)) if moved <= place.moved => {}
                _ => found = Some((key, place.moved)),
            }
        }
        found.map(|pair| pair.0)
    }

    /// The action that makes room: if memory is short, or if the system accepts no connection.
    fn make_room(&mut self) -> Option<Action> {
        if self.room > MAX_ROOM {
            if let Some(key) = self.longest_quiet(true) {
                return Some(Action::Close(key));
            }
        }
        if self.lacks_room {
            self.lacks_room = false;
            return self.longest_quiet(false).map(Action::Close);
        }
        None
    }

    /// Whether an accept may be tried in this round.
    fn may_try_accept(&self) -> bool {
        self.may_accept && self.now >= self.pause
    }

    /// Accepts a connection if one may wait, or first closes the one that has been idle longest if
    /// all are in use.
    fn accept(&mut self) -> Option<Action> {
        if self.accepts_left == 0 || !self.may_try_accept() {
            return None;
        }
        if self.open < MAX_CONNECTIONS {
            self.accepts_left -= 1;
            return Some(Action::Accept);
        }
        self.accepts_left = 0;
        match self.longest_quiet(false) {
            Some(key) => {
                self.accepts_left = 1;
                Some(Action::Close(key))
            }
            None => {
                self.pause = self.now.saturating_add(1);
                None
            }
        }
    }

    /// Whether a connection has to wait for another round, until clients that take their responses
    /// have freed memory.
    fn has_to_wait(&self, place: Place) -> bool {
        self.room > SHORT_ROOM && self.moving > 0 && self.had_other && !place.is_moving()
    }

    /// The next turn of this round.
    fn take_turn(&mut self) -> Option<Action> {
        for _ in 0..self.turns_left {
            self.turns_left = self.turns_left.saturating_sub(1);
            let key = self.queue.pop_front()?;
            let Some(mut place) = self.place(key) else {
                continue;
            };
            if self.has_to_wait(place) && self.queue.push_back(key).is_ok() {
                continue;
            }
            self.had_other = self.had_other || !place.is_moving();
            place.is_queued = false;
            self.set_place(key, Some(place));
            return Some(Action::Turn(key));
        }
        None
    }

    /// Continues the look at all connections: one whose time is over is closed, and one whose
    /// response waits tries a write again.
    fn look(&mut self) -> Option<Action> {
        for key in self.next_look..self.places.len() {
            self.next_look = key.saturating_add(1);
            let Some(mut place) = self.place(key) else {
                continue;
            };
            if place.is_late(self.now) {
                return Some(Action::Close(key));
            }
            if place.is_blocked() {
                place.is_writable = true;
                self.put(key, place);
            }
        }
        None
    }

    /// How long to wait: not at all if something is left to do, for ever if no connection is open.
    fn patience(&self, accepts: bool) -> Option<u64> {
        if !self.queue.is_empty() || accepts && self.may_try_accept() {
            Some(0)
        } else if self.blocked > 0 {
            Some(RETRY_MILLIS)
        } else if self.open > 0 || accepts && self.may_accept {
            Some(TICK_MILLIS)
        } else {
            None
        }
    }

    /// What the server does next. `accepts` says that it still accepts connections.
    pub fn next_action(&mut self, accepts: bool) -> Action {
        if let Some(action) = self.make_room() {
            return action;
        }
        if accepts {
            if let Some(action) = self.accept() {
                return action;
            }
        }
        if let Some(action) = self.take_turn() {
            return action;
        }
        if let Some(action) = self.look() {
            return action;
        }
        if !accepts && self.open == 0 {
            return Action::Finish;
        }
        Action::Wait(self.patience(accepts))
    }
}

/// Lengthens the list until it has this key, if there is memory for it.
fn lengthen(places: &mut Vec<Option<Place>>, key: usize) {
    for _ in places.len()..key.saturating_add(1) {
        if places.push(None).is_err() {
            return;
        }
    }
}
