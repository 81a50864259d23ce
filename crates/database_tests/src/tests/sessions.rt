//! Sessions whose reads and writes fail in turn, and a request whose body is cut.

use super::support::{
    FULL_KEPT, FULL_SET, Failing, Pieces, SET_FULL, ServiceTask, in_memory, joined, kept_in_memory,
};
use reg_http::{Ended, serve};
use reg_service::Service;
use sqlite::Alter;
use std::alloc::Global;
use std::io::{Read, Write};
use std::process::Abort;
use std::test::Fail;

/// Serves a connection, without the contract of `serve`.
pub(super) fn served<R: Read, W: Write, S: Alter + Drop>(
    alloc: Global,
    reader: &mut R,
    writer: &mut W,
    service: &mut Service<S>,
) -> Ended {
    serve(alloc, reader, writer, service)
}

/// The output of a session, and how the session ends.
pub(super) type Due<'a> = (&'a str, Ended);

/// Checks the output of a session, and how it ended.
pub(super) fn is_due(written: &[u8], ended: Ended, due: Due) -> Result<(), Fail> {
    if written == due.0.as_bytes() && ended == due.1 {
        return Ok(());
    }
    let (bytes, text) = (written.len(), due.0);
    Err(Fail::new(format_args!(
        "{ended:?} after {bytes} bytes, and not {:?} after {text}",
        due.1
    )))
}

/// A message with a chunked body, which is a fault.
pub(super) const CHUNKED: &str = "PUT /config HTTP/1.1\r\nTransfer-Encoding: chunked\r\n\r\n";

/// The response to `CHUNKED`.
pub(super) const NOT_SUPPORTED: &str =
    "HTTP/1.1 501 Not Implemented\r\nContent-Type: application/vnd.schemaregistry.v1+json\r\nContent-Length: 60\r\nConnection: close\r\n\r\n{\"error_code\":501,\"message\":\"Transfer coding not supported\"}";

/// Two messages, or one before a fault, with their responses and how the session ends.
const SESSIONS: [([&str; 2], [&str; 2], Ended); 2] = [
    ([SET_FULL, SET_FULL], [FULL_SET, FULL_SET], Ended::Closed),
    (
        [SET_FULL, CHUNKED],
        [FULL_SET, NOT_SUPPORTED],
        Ended::Malformed,
    ),
];

/// A connection. A read transfers a number of bytes and a write one byte, until reads or writes are
/// used up and fail, or writes take nothing.
#[derive(Clone, Copy)]
struct Connection<'a> {
    size: usize,
    reads: usize,
    writes: usize,
    takes_nothing: bool,
    due: Due<'a>,
}

/// A connection that doesn't fail.
fn whole<'a>(due: Due<'a>) -> Connection<'a> {
    Connection {
        size: 1000,
        reads: usize::MAX,
        writes: usize::MAX,
        takes_nothing: false,
        due,
    }
}

impl<'a> Connection<'a> {
    /// Serves the input over this connection.
    fn serve<S: Alter + Drop>(
        self,
        alloc: Global,
        input: &str,
        service: &mut Service<S>,
    ) -> Result<(), Fail> {
        let mut reader = Pieces {
            left: input.as_bytes(),
            size: self.size,
            reads: self.reads,
        };
        let mut writer = Failing {
            taken: Vec::new(alloc),
            writes: self.writes,
            takes_nothing: self.takes_nothing,
        };
        let ended = served(alloc, &mut reader, &mut writer, service);
        is_due(writer.taken.as_slice(), ended, self.due)
    }
}

/// An input, and the connections over which it is sent, one after another.
#[derive(Drop)]
struct Sent<'a> {
    input: &'a str,
    over: &'a [Connection<'a>],
}

impl<'a> ServiceTask for Sent<'a> {
    fn work<S: Alter + Drop>(
        &mut self,
        alloc: Global,
        service: &mut Service<S>,
    ) -> Result<(), Fail> {
        for connection in self.over {
            connection.serve(alloc, self.input, service)?;
        }
        Ok(())
    }
}

/// Sends an input over a connection that fails, and again over one that doesn't. One reply must be
/// kept.
fn is_repeated(
    rt: &impl Abort,
    alloc: Global,
    input: &str,
    failing: Connection<'_>,
    due: Due,
) -> Result<(), Fail> {
    let over = [failing, whole(due)];
    let mut task = Sent { input, over: &over };
    let kept = kept_in_memory(alloc, &mut task)?;
    assert_eq!(rt; kept.as_str(), FULL_KEPT);
    Ok(())
}

/// With one byte a read, each read fails in turn, also the read that would return the end. Each
/// message that was read in full got its response.
#[test]
fn each_read_fails_in_turn(rt: HostRuntime) -> Result<(), Fail> {
    let alloc = rt.alloc();
    let input = joined(alloc, &[SET_FULL, SET_FULL])?;
    let output = joined(alloc, &[FULL_SET, FULL_SET])?;
    for reads in 0..=input.len() {
        let due = if reads < SET_FULL.len() {
            ""
        } else if reads < input.len() {
            FULL_SET
        } else {
            output.as_str()
        };
        let mut failing = whole((due, Ended::ReadFailed));
        failing.size = 1;
        failing.reads = reads;
        is_repeated(&rt, alloc, &input, failing, (&output, Ended::Closed))?;
    }
    Ok(())
}

/// With one byte a write, each write fails in turn, or takes nothing. The output is a beginning of
/// all responses, also if the last one is to a fault.
#[test]
fn each_write_fails_in_turn(rt: HostRuntime) -> Result<(), Fail> {
    let alloc = rt.alloc();
    for (input, output, ended) in SESSIONS {
        let input = joined(alloc, &input)?;
        let output = joined(alloc, &output)?;
        for writes in 0..output.len() {
            let front = output.get(..writes).ok_or("no beginning")?;
            for takes_nothing in [false, true] {
                let mut failing = whole((front, Ended::WriteFailed));
                failing.writes = writes;
                failing.takes_nothing = takes_nothing;
                is_repeated(&rt, alloc, &input, failing, (&output, ended))?;
            }
        }
    }
    Ok(())
}

/// A request whose body is cut gets no response.
#[test]
fn a_cut_body_has_no_answer(rt: HostRuntime) -> Result<(), Fail> {
    let alloc = rt.alloc();
    let body = " ".repeat(alloc, 1_000_000)?;
    let head = "PUT /config HTTP/1.1\r\nContent-Length: 1048576\r\n\r\n";
    let input = joined(alloc, &[head, &body])?;
    let nothing = input.get(..0).ok_or("no beginning")?;
    let over = [whole((nothing, Ended::Malformed))];
    let mut task = Sent {
        input: input.as_str(),
        over: &over,
    };
    in_memory(alloc, &mut task)
}
