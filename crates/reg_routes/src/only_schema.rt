//! Bodies that have only a schema, read without a tree of their JSON.

ghost use Rattle.std.specs.Prelude.{◌≡◌, ◌++◌, Some, codes, string_bytes, true, IfOk, IfSome};
ghost use Rattle.reg_routes.specs.Bodies.{body_schema};
ghost use Rattle.reg_routes.specs.OnlySchema.{SpellsOnly, StartsOnly};

use reg_core::{OutOfMemory, unescaped};
use std::alloc::Global;

/// What precedes the text's closing quotation mark, if the body ends right after it.
fn before_end(body: &[u8]) -> Option<&[u8]>
    ensures { IfSome result (λ front. body.entry.now ≡ front.now ++ codes "\"}") }
{
    body.strip_suffix(b"\"}".as_slice())
}

/// What follows the text's opening quotation mark, if only the name `schema` precedes it, perhaps
/// with a space.
fn after_start(front: &[u8]) -> Option<&[u8]>
    ensures { IfSome result (λ escaped. StartsOnly front.entry.now escaped.now) }
{
    match front.strip_prefix(b"{\"schema\":\"".as_slice()) {
        Some(escaped) => Some(escaped),
        None => front.strip_prefix(b"{\"schema\": \"".as_slice()),
    }
}

/// The escaped text in a body `{"schema":"TEXT"}`. A space may precede the text. `None` for another
/// body.
fn escaped_text(body: &[u8]) -> Option<&[u8]>
    ensures { IfSome result (λ escaped. SpellsOnly body.entry.now escaped.now) }
{
    after_start(before_end(body)?)
}

/// The text in such a body, if its only escapes are `\"` and `\\`.
///
/// # Errors
///
/// `OutOfMemory` if an allocation fails.
pub fn only_schema(alloc: Global, body: &[u8]) -> Result<Option<String>, OutOfMemory>
    ensures { IfOk result (λ found. IfSome found (λ text.
        body_schema body.now ≡ Some (record { text = string_bytes text; supported = true }))) }
{
    let Some(escaped) = escaped_text(body) else {
        return Ok(None);
    };
    let Some(bytes) = unescaped(alloc, escaped)? else {
        return Ok(None);
    };
    match String::from_utf8(bytes) {
        Ok(text) => Ok(Some(text)),
        Err(_) => Ok(None),
    }
}
