//! The time of the server, in quarters of a second.

use std::io;
use std::time::{Clock, Duration, Instant};

/// The milliseconds of a tick.
pub const TICK_MILLIS: u64 = 250;

/// The number of ticks in a second.
pub const TICKS_PER_SECOND: u64 = 4;

/// A clock that can't be read.
#[derive(Clone, Copy)]
pub struct NoClock;

impl Clock for NoClock {
    fn monotonic(&self) -> io::Result<Duration> {
        Err(io::Error::from(io::ErrorKind::Unsupported))
    }

    fn since_1970(&self) -> io::Result<Duration> {
        Err(io::Error::from(io::ErrorKind::Unsupported))
    }
}

/// The number of ticks since the server began. If the clock can't be read, only waits that ended
/// without an event count.
#[derive(Drop)]
pub struct Ticks<'a, C: Clock> {
    clock: &'a C,
    begun: Option<Instant>,
    quiet: u64,
}

impl<'a, C: Clock> Ticks<'a, C> {
    /// Ticks that begin now.
    pub fn of(clock: &'a C) -> Ticks<'a, C> {
        Ticks {
            clock,
            begun: Instant::now(clock).ok(),
            quiet: 0,
        }
    }

    /// Counts a wait of one tick that ended without an event.
    pub fn count_quiet(&mut self) {
        self.quiet = self.quiet.saturating_add(1);
    }

    /// The number of the current tick.
    pub fn now(&self) -> u64 {
        let (Some(begun), Ok(now)) = (self.begun, Instant::now(self.clock)) else {
            return self.quiet;
        };
        let since = now.duration_since(begun);
        since
            .as_secs()
            .saturating_mul(TICKS_PER_SECOND)
            .saturating_add(u64::from(since.subsec_millis()) / TICK_MILLIS)
    }
}
