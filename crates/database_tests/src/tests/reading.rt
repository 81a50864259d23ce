//! A client that requests many large responses at once, and reads them slowly or not at all. Client
//! and server share one thread: the client reads whenever the server reads the clock.

use super::accepting::accept_by;
use super::sessions::served;
use super::support::{GET, IS_BACKWARD, ServiceTask, in_memory, joined};
use reg_service::Service;
use sqlite::Alter;
use std::alloc::Global;
use std::cell::Cell;
use std::io::{self, Read, Write};
use std::net::{Ipv4Addr, Shutdown, TcpListener, TcpStream};
use std::test::Fail;
use std::time::{Clock, Duration, Instant};

/// A number of requests whose responses, of 100 KB each, are more than the system's buffers can
/// take.
const MANY: usize = 200;

/// A smaller number of requests, for a client that reads all responses.
const SOME: usize = 40;

const GET_SCHEMA: &str = "GET /schemas/ids/1 HTTP/1.1\r\n\r\n";

/// The maximum number of bytes that the client reads at once.
const ROOM: usize = 65_536;

/// What a client has read of the same response, sent many times.
#[derive(Drop)]
struct Taken<'a> {
    stream: &'a TcpStream,
    response: &'a [u8],
    count: Cell<usize>,
    is_due: Cell<bool>,
}

impl<'a> Taken<'a> {
    /// Reads once, and returns the number of bytes.
    fn take(&self) -> io::Result<usize> {
        let mut stream = self.stream;
        let mut room = [0u8; ROOM];
        let count = stream.read(&mut room)?;
        let mut begun = 0usize;
        for _ in 0..count {
            if begun >= count {
                break;
            }
            begun = begun.saturating_add(self.compare(room.get(begun..count).unwrap_or(&[])));
        }
        Ok(count)
    }

    /// Compares these bytes with the response, at most up to its end. Returns the number of bytes
    /// that were compared.
    fn compare(&self, bytes: &[u8]) -> usize {
        let at = self.count.get() % self.response.len().max(1);
        let rest = self.response.get(at..).unwrap_or(&[]);
        let size = rest.len().min(bytes.len());
        if rest.get(..size) != bytes.get(..size) {
            self.is_due.set(false);
        }
        self.count.set(self.count.get().saturating_add(size));
        size
    }

    /// Reads until the connection ends or has failed.
    fn take_rest(&self) {
        for _ in 0..u64::MAX {
            if self.take().unwrap_or(0) == 0 {
                break;
            }
        }
    }
}

/// A clock that advances by a number of milliseconds each time it is read. Each time, the client
/// reads once if `reads` is set.
#[derive(Drop)]
struct Reading<'a, 'b> {
    taken: &'a Taken<'b>,
    step: u64,
    reads: bool,
    looks: Cell<u64>,
}

impl<'a, 'b> Clock for Reading<'a, 'b> {
    fn monotonic(&self) -> io::Result<Duration> {
        if self.reads {
            let _ = self.taken.take();
        }
        self.looks.set(self.looks.get().saturating_add(1));
        Ok(Duration::from_millis(self.looks.get().saturating_mul(self.step)))
    }

    fn since_1970(&self) -> io::Result<Duration> {
        self.monotonic()
    }
}

/// Whether the client reads while it is served, the milliseconds by which the clock advances, the
/// number of its requests, and a bound in milliseconds for the time.
type Row = (bool, u64, usize, u128);

const ROWS: [Row; 2] = [
    // the client takes nothing of a response for ten seconds of this clock
    (false, 10_000, MANY, 5000),
    (true, 100, SOME, 10_000),
];

/// How often a row is tried until its time is within the bounds: the machine may be busy.
const TRIES: u32 = 3;

/// Registers a schema of 100 KB, and returns the response that has it.
fn large_response<S: Alter + Drop>(
    alloc: Global,
    service: &mut Service<S>,
) -> Result<Vec<u8>, Fail> {
    let doc = "x".repeat(alloc, 100_000)?;
    let head = "POST /subjects/s/versions HTTP/1.1\r\nContent-Length: 100044\r\n\r\n";
    let front = "{\"schema\":\"{\\\"type\\\":\\\"int\\\",\\\"doc\\\":\\\"";
    let input = joined(alloc, &[head, front, &doc, "\\\"}\"}"])?;
    let mut registered: Vec<u8> = Vec::new(alloc);
    let _ = served(
        alloc,
        &mut input.as_str().as_bytes(),
        &mut registered,
        service,
    );
    let mut response: Vec<u8> = Vec::new(alloc);
    let _ = served(alloc, &mut GET_SCHEMA.as_bytes(), &mut response, service);
    Ok(response)
}

/// Serves the clients of a row, and measures the milliseconds that takes.
#[derive(Drop)]
struct Serve<'a> {
    rt: &'a HostRuntime,
    row: Row,
    took: u128,
}

impl<'a> Serve<'a> {
    /// A connection over which a client has sent its bytes and closed its writing half.
    fn sent(&self, listener: &TcpListener, text: &str) -> Result<TcpStream, Fail> {
        let mut stream = TcpStream::connect(self.rt, listener.local_addr()?)?;
        stream.write_all(text.as_bytes())?;
        stream.shutdown(Shutdown::Write)?;
        Ok(stream)
    }

    /// Serves two connections.
    fn serve_row<S: Alter + Drop>(
        &mut self,
        alloc: Global,
        listener: &TcpListener,
        taken: &Taken<'_>,
        service: &mut Service<S>,
    ) -> Result<(), Fail> {
        let (reads, step, _, _) = self.row;
        let clock = Reading {
            taken,
            step,
            reads,
            looks: Cell::new(0),
        };
        let begun = Instant::now(self.rt)?;
        accept_by(alloc, self.rt, &clock, listener, 2, service)?;
        self.took = begun.elapsed(self.rt)?.as_millis();
        Ok(())
    }
}

impl<'a> ServiceTask for Serve<'a> {
    fn work<S: Alter + Drop>(
        &mut self,
        alloc: Global,
        service: &mut Service<S>,
    ) -> Result<(), Fail> {
        let response = large_response(alloc, service)?;
        let listener = TcpListener::bind(self.rt, (Ipv4Addr::LOCALHOST, 0))?;
        let (reads, _, size, _) = self.row;
        let requests = GET_SCHEMA.repeat(alloc, size)?;
        let first = self.sent(&listener, requests.as_str())?;
        let mut second = self.sent(&listener, GET)?;
        let taken = Taken {
            stream: &first,
            response: response.as_slice(),
            count: Cell::new(0),
            is_due: Cell::new(true),
        };
        first.set_nonblocking(true)?;
        self.serve_row(alloc, &listener, &taken, service)?;
        first.set_nonblocking(false)?;
        taken.take_rest();
        let count = taken.count.get();
        let all = response.len().saturating_mul(size);
        if !taken.is_due.get() || count == 0 || reads != (count == all) {
            return Err(Fail::new(format_args!("{count} bytes came")));
        }
        let mut other = Vec::new(alloc);
        second.read_to_end(&mut other)?;
        if other.as_slice() != IS_BACKWARD.as_bytes() {
            return Err("the other client had another response".into());
        }
        Ok(())
    }
}

/// The server closes the connection of a client that takes nothing of a response for too long. A
/// client that reads gets all responses. Another client gets its own.
#[test]
fn slow_readers_hold_up_nobody(rt: HostRuntime) -> Result<(), Fail> {
    for row in ROWS {
        let mut task = Serve {
            rt: &rt,
            row,
            took: 0,
        };
        for _ in 0..TRIES {
            in_memory(rt.alloc(), &mut task)?;
            if task.took < row.3 {
                break;
            }
        }
        if row.3 <= task.took {
            return Err(Fail::new(format_args!("it took {} ms", task.took)));
        }
    }
    Ok(())
}
