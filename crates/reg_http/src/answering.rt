//! Processes whole messages in order, and writes their responses.

ghost use Rattle.std.specs.Prelude.{◌≡◌, option_map};
ghost use Rattle.reg_service.specs.Processing.{ProcessesEach};
ghost use Rattle.reg_routes.specs.Deliveries.{allow_field, requested_by};
ghost use Rattle.reg_http.specs.Inside.Replying.{IsReplyTo};
ghost use Rattle.reg_http.specs.Inside.SessionSteps.{FaultAs, IsWithin, NextAs, step_outcome};

use crate::writing::{WriteOutcome, send};
use httparse::spans::HeaderSpan;
use reg_core::{Code, Reply};
use reg_messages::{ParseOutcome, Request, parse_front};
use reg_routes::{Routes, command_of};
use reg_service::Service;
use sqlite::Alter;
use std::alloc::Global;
use std::io::Write;

/// Why no further message is processed.
#[derive(Clone, Copy)]
pub enum Stop {
    /// The buffer has no whole message. A whole one has at least this number of bytes in all.
    Waiting(usize),
    /// The last message ends the connection.
    AtClose,
    /// A fault got its response.
    AtFault,
    /// A response wasn't written in full.
    NotWritten,
    /// Allocating a response failed. `answer_front` also returns it for `TooManyFields`, which
    /// doesn't happen.
    OutOfMemory,
}

/// The outcome of one step: a whole message of this many bytes got its response and the connection
/// stays open, or processing stopped.
#[derive(Clone, Copy)]
pub enum StepOutcome {
    Answered(usize),
    Stopped(Stop),
}

/// Executes a request, and returns the reply. A request without a delivery gets the fault of its
/// code, and for a wrong method also the methods that the path has.
fn reply_to<S: Alter>(
    alloc: Global,
    routes: &Routes,
    request: &Request<'_>,
    service: &mut Service<S>,
) -> (Reply, Option<&'static str>)
    ensures replies { IsReplyTo (ProcessesEach service.old service.new) (requested_by request.now) result.0 }
    ensures allow { option_map (λ text. text.now) result.1 ≡ allow_field (requested_by request.now) result.0 }
{
    match command_of(alloc, routes, request) {
        Ok(delivery) => (service.answer(&delivery), None),
        Err((code, allow)) => (Reply::fault(code), allow),
    }
}

/// The outcome of processing a message of `message_size` bytes, by the outcome of writing its
/// response. If `close` is true, the message ends the connection.
fn step_outcome(outcome: WriteOutcome, close: bool, message_size: usize) -> StepOutcome
    ensures { result ≡ step_outcome outcome close message_size }
{
    match outcome {
        WriteOutcome::Whole if close => StepOutcome::Stopped(Stop::AtClose),
        WriteOutcome::Whole => StepOutcome::Answered(message_size),
        WriteOutcome::CutShort => StepOutcome::Stopped(Stop::NotWritten),
        WriteOutcome::OutOfMemory => StepOutcome::Stopped(Stop::OutOfMemory),
    }
}

/// Writes the response to a fault, which ends the connection. Returns `AtFault` if it was written in
/// full, otherwise `NotWritten` or `OutOfMemory`.
fn answer_fault<W: Write>(alloc: Global, code: Code, writer: &mut W) -> Stop
    ensures { FaultAs (W.contents writer.old) (W.contents writer.new) code result }
{
    let reply = Reply::fault(code);
    match send(alloc, writer, &reply, None, true) {
        WriteOutcome::Whole => Stop::AtFault,
        WriteOutcome::CutShort => Stop::NotWritten,
        WriteOutcome::OutOfMemory => Stop::OutOfMemory,
    }
}

/// Processes the front of the bytes: a whole message, a part of one, a fault, or nothing.
pub fn answer_front<W: Write, S: Alter>(
    alloc: Global,
    routes: &Routes,
    bytes: &[u8],
    headers: &mut [HeaderSpan],
    writer: &mut W,
    service: &mut Service<S>,
) -> StepOutcome
    ensures within { IsWithin bytes.now result }
    ensures next { NextAs (ProcessesEach service.old service.new)
        (W.contents writer.old) (W.contents writer.new) bytes.now result }
{
    match parse_front(bytes, headers) {
        ParseOutcome::Whole(whole) => {
            let request = Request::from_spans(bytes, headers, whole);
            let close = request.closes();
            let (reply, allow) = reply_to(alloc, routes, &request, service);
            let sent = send(alloc, writer, &reply, allow, close);
            step_outcome(sent, close, whole.head.len + whole.body)
        }
        ParseOutcome::Nothing => StepOutcome::Stopped(Stop::Waiting(1)),
        ParseOutcome::Part(needs) => StepOutcome::Stopped(Stop::Waiting(needs)),
        ParseOutcome::Faulty(code) => StepOutcome::Stopped(answer_fault(alloc, code, writer)),
        // The workspace has room for more fields than a head within the size limit can have. So
        // this doesn't happen.
        ParseOutcome::TooManyFields => StepOutcome::Stopped(Stop::OutOfMemory),
    }
}
