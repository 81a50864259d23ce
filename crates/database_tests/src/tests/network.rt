//! Clients of a network in memory whose bytes move a few at a time: each gets the bytes that it
//! would get alone.

use super::scripts::{Halves, Scripts, is_complete, script};
use super::sessions::served;
use super::support::{ServiceTask, in_memory, joined};
use reg_jobs::{ErrorWriter, NoClock, serve_network};
use reg_service::Service;
use sqlite::Alter;
use std::alloc::Global;
use std::io::sink;
use std::process::Abort;
use std::test::Fail;

/// A write, a read and a message with a fault, which ends the session.
const FIRST: [&str; 3] = [
    "PUT /config/a HTTP/1.1\r\nContent-Length: 24\r\n\r\n{\"compatibility\":\"FULL\"}",
    "GET /config/a HTTP/1.1\r\n\r\n",
    "PUT /config/a HTTP/1.1\r\nContent-Length: x\r\n\r\n",
];

/// Reads and writes of another subject, and the beginning of a message.
const SECOND: [&str; 4] = [
    "GET /config/b HTTP/1.1\r\n\r\n",
    "PUT /config/b HTTP/1.1\r\nContent-Length: 24\r\n\r\n{\"compatibility\":\"NONE\"}",
    "GET /config/b HTTP/1.1\r\n\r\n",
    "GET /con",
];

/// What a client gets alone.
#[derive(Drop)]
struct Alone<'a> {
    sent: &'a [u8],
    received: Vec<u8>,
}

impl<'a> ServiceTask for Alone<'a> {
    fn work<S: Alter + Drop>(
        &mut self,
        alloc: Global,
        service: &mut Service<S>,
    ) -> Result<(), Fail> {
        let mut left = self.sent;
        let _ = served(alloc, &mut left, &mut self.received, service);
        Ok(())
    }
}

/// What a client that sends these bytes gets from a new registry, alone.
fn bytes_alone(alloc: Global, sent: &[u8]) -> Result<Vec<u8>, Fail> {
    let received = Vec::new(alloc);
    let mut task = Alone { sent, received };
    in_memory(alloc, &mut task)?;
    Ok(task.received)
}

/// Serves these connections at once.
#[derive(Drop)]
struct Together<'a, A: Abort> {
    rt: &'a A,
    clients: &'a [Halves<'a>],
}

impl<'a, A: Abort> ServiceTask for Together<'a, A> {
    fn work<S: Alter + Drop>(
        &mut self,
        alloc: Global,
        service: &mut Service<S>,
    ) -> Result<(), Fail> {
        let mut network = Scripts {
            rt: self.rt,
            clients: self.clients,
            accepted: Vec::new(alloc),
            closed: Vec::new(alloc),
            turn: 0,
        };
        let mut errors = ErrorWriter::to(sink());
        serve_network(alloc, &NoClock, &mut network, 2, service, &mut errors)?;
        if network.accepted.len() != 2 || network.closed.len() != 2 {
            return Err("a connection wasn't accepted, or wasn't closed".into());
        }
        for halves in &network.closed {
            if !is_complete(halves) {
                return Err("a client got other bytes than alone".into());
            }
        }
        Ok(())
    }
}

#[test]
fn each_client_gets_what_it_gets_alone(rt: HostRuntime) -> Result<(), Fail> {
    let alloc = rt.alloc();
    let first = joined(alloc, &FIRST)?;
    let second = joined(alloc, &SECOND)?;
    let first_due = bytes_alone(alloc, first.as_bytes())?;
    let second_due = bytes_alone(alloc, second.as_bytes())?;
    let clients = [
        script(first.as_bytes(), first_due.as_slice()),
        script(second.as_bytes(), second_due.as_slice()),
    ];
    let mut task = Together {
        rt: &rt,
        clients: &clients,
    };
    in_memory(alloc, &mut task)
}
