//! Connections on loopback, in one thread, served with a clock and without one. What the clients
//! send is in the system's buffers until it is served.

use super::accepting::{accept, accept_by};
use super::support::{
    FULL_SET, GET, IS_BACKWARD, IS_FULL, SET_FULL, ServiceTask, in_memory, joined,
};
use reg_service::Service;
use sqlite::Alter;
use std::alloc::Global;
use std::cell::Cell;
use std::io::{self, Read, Write};
use std::net::{Ipv4Addr, Shutdown, TcpListener, TcpStream};
use std::str;
use std::test::Fail;
use std::time::{Clock, Duration, Instant};

const LARGE: &str = "POST /subjects/s HTTP/1.1\r\nContent-Length: 5000000\r\n\r\n";

const TOO_LARGE: &str =
    "HTTP/1.1 413 Payload Too Large\r\nContent-Type: application/vnd.schemaregistry.v1+json\r\nContent-Length: 45\r\nConnection: close\r\n\r\n{\"error_code\":413,\"message\":\"Body too large\"}";

/// The beginning of a message.
const CUT: &str = "PUT /config HTTP/1.1\r\nHost: x\r\nRegist";

/// A clock that advances by a number of seconds each time it is read.
#[derive(Drop)]
struct LeapingClock {
    step: u64,
    looks: Cell<u64>,
}

impl Clock for LeapingClock {
    fn monotonic(&self) -> io::Result<Duration> {
        self.looks.set(self.looks.get().saturating_add(1));
        Ok(Duration::from_secs(self.looks.get().saturating_mul(self.step)))
    }

    fn since_1970(&self) -> io::Result<Duration> {
        self.monotonic()
    }
}

/// The clock that connections are served with.
#[derive(Clone, Copy)]
enum ClockKind {
    None,
    Host,
    /// It advances by this number of seconds each time it is read, which is once in each wait.
    Leaping(u64),
}

/// What a client sends, the number of spaces after it, whether it then closes its writing half, and
/// the responses.
type Client = (&'static str, usize, bool, &'static [&'static str]);

/// A clock, clients, the number of clients that each call serves, and bounds for the time. It takes
/// at least the first number of milliseconds, and less than the second.
type Row = (ClockKind, &'static [Client], &'static [u32], u128, u128);

/// The second message is cut and gets no response. The fourth is a retry of the third.
const IN_TURN: [Client; 5] = [
    (GET, 0, true, &[IS_BACKWARD]),
    (CUT, 0, true, &[]),
    (SET_FULL, 0, true, &[FULL_SET]),
    (SET_FULL, 0, true, &[FULL_SET]),
    (GET, 0, true, &[IS_FULL]),
];

/// The first client is idle after its response.
const IDLE: [Client; 2] = [
    (GET, 0, false, &[IS_BACKWARD]),
    (SET_FULL, 0, true, &[FULL_SET]),
];

/// The response comes before the rest of the message, and is read in full.
const ANSWERED_EARLY: [Client; 1] = [(LARGE, 300_000, false, &[TOO_LARGE])];

/// The rest of the first message never comes. The second client gets its response.
const LATE: [Client; 2] = [(CUT, 0, false, &[]), (GET, 0, true, &[IS_BACKWARD])];

/// The first call accepts only the first client, although the second waits.
const ONE_EACH: [Client; 2] = [
    (GET, 0, true, &[IS_BACKWARD]),
    (GET, 0, true, &[IS_BACKWARD]),
];

/// A write and two reads that arrive together.
const TOGETHER: &str =
    "PUT /config HTTP/1.1\r\nContent-Length: 24\r\n\r\n{\"compatibility\":\"FULL\"}GET /config HTTP/1.1\r\n\r\nGET /config HTTP/1.1\r\n\r\n";

/// Another write.
const SET_NONE: &str =
    "PUT /config HTTP/1.1\r\nContent-Length: 24\r\n\r\n{\"compatibility\":\"NONE\"}";

/// The response to `SET_NONE`.
const NONE_SET: &str =
    "HTTP/1.1 200 OK\r\nContent-Type: application/vnd.schemaregistry.v1+json\r\nContent-Length: 24\r\n\r\n{\"compatibility\":\"NONE\"}";

/// The response to `GET` after `SET_NONE`.
const IS_NONE: &str =
    "HTTP/1.1 200 OK\r\nContent-Type: application/vnd.schemaregistry.v1+json\r\nContent-Length: 29\r\n\r\n{\"compatibilityLevel\":\"NONE\"}";

/// The write of the second client comes after the first of the messages that arrived together, and
/// before the others.
const MANY: [Client; 2] = [
    (TOGETHER, 0, true, &[FULL_SET, IS_NONE, IS_NONE]),
    (SET_NONE, 0, true, &[NONE_SET]),
];

const ROWS: [Row; 8] = [
    (ClockKind::None, &IN_TURN, &[4, 1], 0, 1000),
    (ClockKind::Host, &IN_TURN, &[4, 1], 0, 1000),
    // the server waits for events until this clock has advanced by 75 seconds
    (ClockKind::Leaping(40), &IDLE, &[2], 250, 2000),
    (ClockKind::None, &ANSWERED_EARLY, &[1], 0, 3000),
    (ClockKind::Host, &ANSWERED_EARLY, &[1], 0, 3000),
    // each look at this clock is ten seconds later
    (ClockKind::Leaping(10), &LATE, &[2], 0, 2000),
    (ClockKind::Leaping(1), &ONE_EACH, &[1, 1], 0, 250),
    (ClockKind::Leaping(1), &MANY, &[2], 0, 250),
];

/// How often a row is tried until its time is within the bounds: the machine may be busy.
const TRIES: u32 = 3;

/// Serves connections by one call for each of the counts.
#[derive(Drop)]
struct Serve<'a> {
    rt: &'a HostRuntime,
    by: ClockKind,
    listener: &'a TcpListener,
    counts: &'a [u32],
}

impl<'a> ServiceTask for Serve<'a> {
    fn work<S: Alter + Drop>(
        &mut self,
        alloc: Global,
        service: &mut Service<S>,
    ) -> Result<(), Fail> {
        for count in self.counts {
            match self.by {
                ClockKind::None => accept(alloc, self.rt, self.listener, *count, service),
                ClockKind::Host => {
                    accept_by(alloc, self.rt, self.rt, self.listener, *count, service)?;
                }
                ClockKind::Leaping(step) => {
                    let clock = LeapingClock {
                        step,
                        looks: Cell::new(0),
                    };
                    accept_by(alloc, self.rt, &clock, self.listener, *count, service)?;
                }
            }
        }
        Ok(())
    }
}

/// A connection to the listener, over which the client has sent its bytes.
fn sent(rt: &HostRuntime, listener: &TcpListener, client: &Client) -> Result<TcpStream, Fail> {
    let (text, blanks, is_closed, _) = *client;
    let mut stream = TcpStream::connect(rt, listener.local_addr()?)?;
    stream.write_all(text.as_bytes())?;
    stream.write_all(" ".repeat(rt.alloc(), blanks)?.as_bytes())?;
    if is_closed {
        stream.shutdown(Shutdown::Write)?;
    }
    Ok(stream)
}

/// Checks that everything that came back over a connection is these responses.
fn expect(alloc: Global, stream: &mut TcpStream, responses: &[&str]) -> Result<(), Fail> {
    let mut bytes = Vec::new(alloc);
    stream.read_to_end(&mut bytes)?;
    let text = joined(alloc, responses)?;
    if str::from_utf8(bytes.as_slice()) == Ok(text.as_str()) {
        return Ok(());
    }
    Err(Fail::new(format_args!("another answer than {}", text.as_str())))
}

/// Serves the clients of a row, and checks their responses. Returns the milliseconds that serving
/// took.
fn time_of(rt: &HostRuntime, row: &Row) -> Result<u128, Fail> {
    let (by, clients, counts, _, _) = *row;
    let listener = TcpListener::bind(rt, (Ipv4Addr::LOCALHOST, 0))?;
    let mut streams = Vec::new(rt.alloc());
    for client in clients {
        streams.push(sent(rt, &listener, client)?)?;
    }
    let begun = Instant::now(rt)?;
    let mut task = Serve {
        rt,
        by,
        listener: &listener,
        counts,
    };
    in_memory(rt.alloc(), &mut task)?;
    let took = begun.elapsed(rt)?.as_millis();
    for (stream, client) in streams.iter_mut().zip(clients) {
        expect(rt.alloc(), stream, client.3)?;
    }
    Ok(took)
}

/// Checks that the clients of a row are served within its time, in one of `TRIES` tries.
fn are_served(rt: &HostRuntime, row: &Row) -> Result<(), Fail> {
    let (_, _, _, least, most) = *row;
    let mut took = 0u128;
    for _ in 0..TRIES {
        took = time_of(rt, row)?;
        if least <= took && took < most {
            return Ok(());
        }
    }
    Err(Fail::new(format_args!("it took {took} ms")))
}

#[test]
fn connections_are_served_at_once(rt: HostRuntime) -> Result<(), Fail> {
    for row in &ROWS {
        are_served(&rt, row)?;
    }
    Ok(())
}
