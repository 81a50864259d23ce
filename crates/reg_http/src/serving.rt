//! A connection, from its first byte to its end.

ghost use Rattle.std.specs.Prelude.{◌≡◌, []};
ghost use Rattle.reg_service.specs.Processing.{ProcessesEach, ServesEach};
ghost use Rattle.reg_http.specs.Sessions.{Session};
ghost use Rattle.reg_http.specs.Conversations.{IsSoFar, step_of};
ghost use Rattle.reg_http.specs.Inside.Readings.{ReadsAs, WritesAs};

use crate::conversation::{Conversation, Step};
use crate::workspace::Workspace;
use reg_service::Service;
use sqlite::Alter;
use std::alloc::Global;
use std::io::{ErrorKind, Read, Write};

/// How a connection ended.
#[derive(Clone, Copy, Debug, PartialEq, Eq)]
pub enum Ended {
    /// A message ended it, or the input ended and left no part of a message.
    Closed,
    /// A read failed. Each whole message that was read got its response.
    ReadFailed,
    /// A write failed, or took no byte. The last command has the effect that its reply reports.
    WriteFailed,
    /// A fault in the input got its error response, or the input ended inside a message.
    Malformed,
    /// Allocating the table of paths, the buffers or a response failed.
    Memory,
}

/// The result of a read.
#[derive(Clone, Copy)]
enum ReadOutcome {
    /// Bytes, or none if the read was interrupted.
    Bytes,
    /// The end of the input.
    End,
    Failed,
}

/// Reads once.
fn read_more<R: Read>(conversation: &mut Conversation, reader: &mut R) -> ReadOutcome
    requires { step_of conversation.old ≡ Step.Receive }
    ensures { ReadsAs (R.remaining reader.old) (R.remaining reader.new) conversation.old conversation.new result }
{
    match conversation.receive(reader) {
        Ok(0) => ReadOutcome::End,
        Ok(_) => ReadOutcome::Bytes,
        Err(error) if error.kind() == ErrorKind::Interrupted => ReadOutcome::Bytes,
        Err(_) => ReadOutcome::Failed,
    }
}

/// Writes once. Returns whether more can be written.
fn write_more<W: Write>(conversation: &mut Conversation, writer: &mut W) -> bool
    requires { step_of conversation.old ≡ Step.Send }
    ensures { WritesAs (W.contents writer.old) (W.contents writer.new) conversation.old conversation.new result }
{
    match conversation.send(writer) {
        Ok(0) => false,
        Ok(_) => true,
        Err(error) if error.kind() == ErrorKind::Interrupted => true,
        Err(_) => false,
    }
}

/// Takes the steps of a session until it ends.
fn serve_with<R: Read, W: Write, S: Alter>(
    alloc: Global,
    mut workspace: Workspace,
    mut conversation: Conversation,
    reader: &mut R,
    writer: &mut W,
    service: &mut Service<S>,
) -> Ended
    requires { IsSoFar [] [] [] conversation }
    ensures { Session (ProcessesEach service.old service.new)
        (R.remaining reader.old) (R.remaining reader.new) (W.contents writer.old) (W.contents writer.new) result }
{
    for _ in 0..u64::MAX {
        match conversation.next_step() {
            Step::Receive => match read_more(&mut conversation, reader) {
                ReadOutcome::Bytes => {}
                ReadOutcome::End => return conversation.end_of_input(),
                ReadOutcome::Failed => return Ended::ReadFailed,
            },
            Step::Answer => conversation.answer(alloc, &mut workspace, service),
            Step::Send => {
                if !write_more(&mut conversation, writer) {
                    return Ended::WriteFailed;
                }
            }
            Step::End(ended) => return ended,
        }
    }
    Ended::Memory
}

/// Serves a connection: processes each message as soon as it is complete, in order, and writes its
/// response. The result doesn't depend on how reads split the input. Everything for reading is
/// allocated before the first read.
pub fn serve<R: Read, W: Write, S: Alter>(
    alloc: Global,
    reader: &mut R,
    writer: &mut W,
    service: &mut Service<S>,
) -> Ended
    ensures session { Session (ServesEach service.old service.new)
        (R.remaining reader.old) (R.remaining reader.new) (W.contents writer.old) (W.contents writer.new) result }
{
    let Ok(workspace) = Workspace::new(alloc) else {
        return Ended::Memory;
    };
    let Ok(conversation) = Conversation::with_all_room(alloc) else {
        return Ended::Memory;
    };
    serve_with(alloc, workspace, conversation, reader, writer, service)
}
