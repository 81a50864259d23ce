//! Whose turn it is on a connection: no byte is read while a whole message has no response.

use super::sessions::{CHUNKED, Due, NOT_SUPPORTED, is_due, served};
use super::support::{FULL_SET, SET_FULL, ServiceTask, in_memory, joined};
use reg_http::Ended;
use reg_service::Service;
use sqlite::Alter;
use std::alloc::Global;
use std::cell::Cell;
use std::io::{self, Read, Write};
use std::test::Fail;

/// A reader that returns a number of bytes of messages at a time. It fails if a whole message that
/// it returned has no response yet. Each message has the length of `SET_FULL`; the last may be
/// shorter.
#[derive(Drop)]
struct MessageReader<'a> {
    left: &'a [u8],
    size: usize,
    given: usize,
    responses: &'a Cell<usize>,
}

impl<'a> Read for MessageReader<'a> {
    fn read(&mut self, buf: &mut [u8]) -> io::Result<usize> {
        if self.responses.get() < self.given / SET_FULL.len().max(1) {
            return Err(io::Error::from(io::ErrorKind::BrokenPipe));
        }
        let n = self.size.min(self.left.len()).min(buf.len());
        buf[..n].copy_from_slice(&self.left[..n]);
        self.left = &self.left[n..];
        self.given = self.given.saturating_add(n);
        Ok(n)
    }
}

/// A writer that takes all bytes, and counts each write as a response.
#[derive(Drop)]
struct ResponseWriter<'a> {
    taken: Vec<u8>,
    responses: &'a Cell<usize>,
}

impl<'a> Write for ResponseWriter<'a> {
    fn write(&mut self, buf: &[u8]) -> io::Result<usize> {
        self.taken.extend_from_slice(buf)?;
        self.responses.set(self.responses.get().saturating_add(1));
        Ok(buf.len())
    }

    fn flush(&mut self) -> io::Result<()> {
        Ok(())
    }
}

/// Messages, read a number of bytes at a time. Each must get its response before the next read.
#[derive(Drop)]
struct TakeTurns<'a> {
    input: &'a str,
    size: usize,
    due: Due<'a>,
}

impl<'a> ServiceTask for TakeTurns<'a> {
    fn work<S: Alter + Drop>(
        &mut self,
        alloc: Global,
        service: &mut Service<S>,
    ) -> Result<(), Fail> {
        let responses = Cell::new(0);
        let mut reader = MessageReader {
            left: self.input.as_bytes(),
            size: self.size,
            given: 0,
            responses: &responses,
        };
        let mut writer = ResponseWriter {
            taken: Vec::new(alloc),
            responses: &responses,
        };
        let ended = served(alloc, &mut reader, &mut writer, service);
        if responses.get() != 3 {
            return Err("there are more or fewer answers".into());
        }
        is_due(writer.taken.as_slice(), ended, self.due)
    }
}

/// Serves the messages over a new registry.
fn take_turns<'a>(alloc: Global, input: &'a str, size: usize, due: Due<'a>) -> Result<(), Fail> {
    in_memory(alloc, &mut TakeTurns { input, size, due })
}

/// Serves two messages and then this one, in pieces of several sizes, each over a new registry.
fn take_turns_until<'a>(
    alloc: Global,
    last: &'a str,
    answer: &'a str,
    ended: Ended,
) -> Result<(), Fail> {
    let input = joined(alloc, &[SET_FULL, SET_FULL, last])?;
    let output = joined(alloc, &[FULL_SET, FULL_SET, answer])?;
    for size in [1, 3, 50, 64, SET_FULL.len(), 150, 1000] {
        take_turns(alloc, input.as_str(), size, (output.as_str(), ended))?;
    }
    Ok(())
}

/// Each of three messages gets its response before the next read. A `serve` that returns `Memory`
/// before it reads would fail this test. No contract excludes it.
#[test]
fn messages_are_answered_in_turn(rt: HostRuntime) -> Result<(), Fail> {
    take_turns_until(rt.alloc(), SET_FULL, FULL_SET, Ended::Closed)
}

#[test]
fn each_message_is_answered_before_the_next_read(rt: HostRuntime) -> Result<(), Fail> {
    take_turns_until(rt.alloc(), CHUNKED, NOT_SUPPORTED, Ended::Malformed)
}
