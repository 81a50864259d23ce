//! The delivery that a request makes, or why it is rejected.

ghost use Rattle.std.specs.Prelude.{◌≡◌, ◌⊎◌, MatchResult, option_map, if◌then◌else◌};
ghost use Rattle.reg_routes.specs.Keys.{is_key, retry_key_for, retry_key_from};
ghost use Rattle.reg_routes.specs.Deliveries.{requested_by, delivery_from, keys_in, IsRejected};
ghost use Rattle.reg_messages.specs.BorrowedRequests.{fields_in};
ghost use Rattle.reg_routes.specs.Commands.{command_in};

use crate::command::RequestParts;
use crate::resource::Operation;
use crate::routes::Routes;
use crate::target::Target;
use reg_core::{Code, Command, Delivery, Key, OutOfMemory};
use reg_messages::{FieldLookup, Request};
use std::alloc::Global;
use std::str;

/// The text as a retry key, or `None` if it isn't a valid one.
fn parse_key(text: &[u8]) -> Option<Key<'_>>
    ensures { result ≡ (if is_key text.entry.now then Some text.entry.now else None) }
{
    match str::from_utf8(text) {
        Ok(text) => Key::parse(text),
        Err(_) => None,
    }
}

/// The retry key in the field `Registry-Retry-Key`, or `None` without the field. `MalformedRequest`
/// if the field is repeated or its value is no valid key.
fn retry_key_from<'a>(request: &Request<'a>) -> Result<Option<Key<'a>>, Code>
    ensures { result ≡ retry_key_from (keys_in (fields_in request.entry.now)) }
{
    match FieldLookup::by_name(request.head, request.fields, b"Registry-Retry-Key") {
        FieldLookup::Missing => Ok(None),
        FieldLookup::Once(text) => match parse_key(text) {
            Some(key) => Ok(Some(key)),
            None => Err(Code::MalformedRequest),
        },
        FieldLookup::Repeated => Err(Code::MalformedRequest),
    }
}

/// The retry key of a write. A read has none: its field is ignored.
fn retry_key_for<'a>(command: &Command, request: &Request<'a>) -> Result<Option<Key<'a>>, Code>
    ensures { result ≡ retry_key_for command.now (keys_in (fields_in request.entry.now)) }
{
    if command.is_write() {
        retry_key_from(request)
    } else {
        Ok(None)
    }
}

/// The command of this operation. `MalformedRequest` if there is none, `BackendFault` if an
/// allocation fails.
fn command_for(
    alloc: Global,
    operation: Operation,
    parts: &RequestParts<'_>,
) -> Result<Command, Code>
    ensures { MatchResult result (λ command. command_in operation parts.now ≡ Some command)
        (λ code. (code ≡ Code.BackendFault)
        ⊎ ((code ≡ Code.MalformedRequest) × (command_in operation parts.now ≡ None))) }
{
    match parts.command(alloc, operation) {
        Ok(Some(command)) => Ok(command),
        Ok(None) => Err(Code::MalformedRequest),
        Err(_) => Err(Code::BackendFault),
    }
}

/// The delivery of this operation, with its retry key, or the code of its fault.
fn delivery_for<'a>(
    alloc: Global,
    operation: Operation,
    parts: &RequestParts<'_>,
    request: &Request<'a>,
) -> Result<Delivery<'a>, Code>
    ensures { MatchResult result
        (λ delivery. delivery_from (command_in operation parts.now) (fields_in request.entry.now) ≡ Ok delivery)
        (λ code. (code ≡ Code.BackendFault)
        ⊎ (delivery_from (command_in operation parts.now) (fields_in request.entry.now) ≡ Err code)) }
{
    let command = command_for(alloc, operation, parts)?;
    let key = retry_key_for(&command, request)?;
    Ok(Delivery { key, command })
}

/// The delivery that a request makes: a command, and for a write its retry key, or `None`.
///
/// # Errors
///
/// The code of the first fault, in this order:
/// - `NotFound`: the path has no resource.
/// - `MethodNotAllowed`: the resource doesn't have the method. Its methods are returned for an
///   `Allow` field.
/// - `MalformedRequest`: a segment that the command needs isn't UTF-8 after decoding, or its subject
///   isn't valid. Or the body lacks a string member that the command needs. Or a write has an
///   invalid retry key or more than one.
///
/// `BackendFault` if an allocation fails. Versions, ids, levels, modes and schemas aren't validated
/// here.
pub fn command_of<'a>(
    alloc: Global,
    routes: &Routes,
    request: &Request<'a>,
) -> Result<Delivery<'a>, (Code, Option<&'static str>)>
    ensures { MatchResult result (λ delivery. requested_by request.entry.now ≡ Ok delivery)
        (λ rejection. IsRejected (requested_by request.entry.now) rejection.0 (option_map (λ text. text.now) rejection.1)) }
{
    let target = Target::of(request.target);
    let Some(resource) = routes.resource_of(target.path) else {
        return Err((Code::NotFound, None));
    };
    let Some(operation) = resource.operation(request.method) else {
        return Err((Code::MethodNotAllowed, Some(resource.allow())));
    };
    let parts = RequestParts {
        target,
        body: request.body,
    };
    match delivery_for(alloc, operation, &parts, request) {
        Ok(delivery) => Ok(delivery),
        Err(code) => Err((code, None)),
    }
}
