//! Writes responses.

ghost use Rattle.std.specs.Prelude.{◌≡◌, option_map};
ghost use Rattle.std.specs.Io.KnownBytes.{Appends};
ghost use Rattle.reg_output.specs.Prefixes.{AppendsPrefix};
ghost use Rattle.reg_messages.specs.Responses.{response_bytes};

use reg_core::Reply;
use reg_messages::bytes_of;
use reg_output::write_whole;
use std::alloc::Global;
use std::io::Write;

/// The result of writing a response.
#[derive(Clone, Copy)]
pub enum WriteOutcome {
    /// It was written in full.
    Whole,
    /// A beginning of it was written.
    CutShort,
    /// Allocating it failed.
    OutOfMemory,
}

/// Writes a response, with one write if the writer takes it in full. `allow` is the value of its
/// `Allow` field. If `close` is true, the response has `Connection: close`. If allocating the
/// response fails, nothing is written.
pub fn send<W: Write>(
    alloc: Global,
    writer: &mut W,
    reply: &Reply,
    allow: Option<&str>,
    close: bool,
) -> WriteOutcome
    ensures front { AppendsPrefix (W.contents writer.old) (W.contents writer.new)
        (response_bytes reply.now (option_map (λ text. text.now) allow.entry) close) }
    ensures whole { result ≡ WriteOutcome.Whole → Appends (W.contents writer.old) (W.contents writer.new)
        (response_bytes reply.now (option_map (λ text. text.now) allow.entry) close) }
{
    let Ok(text) = bytes_of(alloc, reply, allow, close) else {
        return WriteOutcome::OutOfMemory;
    };
    if write_whole(writer, text.as_bytes()) {
        WriteOutcome::Whole
    } else {
        WriteOutcome::CutShort
    }
}
