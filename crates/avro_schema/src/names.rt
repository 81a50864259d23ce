//! Names and namespaces.

ghost use Rattle.std.specs.Prelude.{◌≡◌, ◌<◌, length, IfOk, option_map, string_bytes};
ghost use Rattle.std.specs.List.{list_all};
ghost use Rattle.avro_schema.specs.Names.{is_name_start, is_name_part, is_name_sequence, is_simple, qualified, is_namespace, full_name, alias_in};
ghost use Rattle.avro_schema.specs.Inside.NameTables.{without_namespace};

use avro_nodes::{has_dot, last_part};
use std::alloc::{AllocError, Global};

fn is_name_start(c: u8) -> bool
    ensures { result ≡ is_name_start c }
{
    c.is_ascii_alphabetic() || c == b'_'
}

fn is_name_part(c: u8) -> bool
    ensures { result ≡ is_name_part c }
{
    is_name_start(c) || c.is_ascii_digit()
}

fn are_name_parts(bytes: &[u8]) -> bool
    ensures { result ≡ list_all is_name_part bytes.now }
{
    bytes.iter().all(|c| is_name_part(*c))
}

/// Whether the text is one or more simple names, separated by dots.
pub fn is_name_sequence(text: &str) -> bool
    ensures { result ≡ is_name_sequence text.now }
{
    let bytes = text.as_bytes();
    let mut fresh = true;
    for c in bytes {
        if fresh {
            if !is_name_start(*c) {
                return false;
            }
            fresh = false;
        } else if *c == b'.' {
            fresh = true;
        } else if !is_name_part(*c) {
            return false;
        }
    }
    !fresh
}

/// Whether the text is a simple name, which has no dot.
#[tactic(auto, unfolding(crate::specs::Names::is_simple))]
pub fn is_simple(text: &str) -> bool
    ensures { result ≡ is_simple text.now }
{
    match text.as_bytes() {
        [] => false,
        [first, rest @ ..] => is_name_start(*first) && are_name_parts(rest),
    }
}

/// Whether the text is a namespace: empty, or simple names separated by dots.
pub fn is_namespace(text: &str) -> bool
    ensures { result ≡ is_namespace text.now }
{
    text.is_empty() || is_name_sequence(text)
}

/// The full name of a simple name in a namespace that isn't the null namespace.
#[tactic(auto, unfolding(crate::specs::Names::qualified))]
fn dotted(alloc: Global, space: &str, name: &str) -> Result<String, AllocError>
    requires { 0 < length space.now }
    ensures { IfOk result (λ s. string_bytes s ≡ qualified space.now name.now) }
{
    let mut full = String::with_capacity(alloc, space.len() + 1 + name.len())?;
    full.push_str(space)?;
    full.push_str(".")?;
    full.push_str(name)?;
    Ok(full)
}

/// The full name of a simple name in a namespace.
#[tactic(auto, unfolding(crate::specs::Names::qualified))]
fn qualified(alloc: Global, space: &str, name: &str) -> Result<String, AllocError>
    ensures { IfOk result (λ s. string_bytes s ≡ qualified space.now name.now) }
{
    if space.is_empty() {
        return String::from_str(alloc, name);
    }
    dotted(alloc, space, name)
}

/// The full name without its namespace `space`.
pub fn without_namespace<'a>(space: &str, full: &'a str) -> &'a str
    ensures { result.now ≡ without_namespace space.now full.now }
{
    if space.is_empty() {
        full
    } else {
        last_part(full)
    }
}

/// The full name of a definition, from its attributes `name` and `namespace` and the enclosing
/// namespace. `None` if the name is malformed, or if it has no dot and `namespace` is malformed.
///
/// # Errors
///
/// `AllocError` if allocation fails.
#[tactic(auto, unfolding(crate::specs::Names::full_name))]
pub fn full_name(
    alloc: Global,
    name: &str,
    attribute: Option<&str>,
    enclosing: &str,
) -> Result<Option<String>, AllocError>
    ensures { IfOk result (λ o. option_map string_bytes o
        ≡ full_name name.now (option_map (λ s. s.now) attribute.entry) enclosing.now) }
{
    if !is_name_sequence(name) {
        return Ok(None);
    }
    if has_dot(name) {
        return Ok(Some(String::from_str(alloc, name)?));
    }
    match attribute {
        Some(space) => {
            if is_namespace(space) {
                Ok(Some(qualified(alloc, space, name)?))
            } else {
                Ok(None)
            }
        }
        None => Ok(Some(qualified(alloc, enclosing, name)?)),
    }
}

/// The full name of an alias of a type in the namespace. `None` if the alias is malformed.
///
/// # Errors
///
/// `AllocError` if allocation fails.
#[tactic(auto, unfolding(crate::specs::Names::alias_in, crate::specs::Names::qualified))]
pub fn alias_in(alloc: Global, space: &str, alias: String) -> Result<Option<String>, AllocError>
    ensures { IfOk result (λ o. option_map string_bytes o ≡ alias_in space.now (string_bytes alias)) }
{
    if !is_name_sequence(alias.as_str()) {
        return Ok(None);
    }
    if has_dot(alias.as_str()) || space.is_empty() {
        return Ok(Some(alias));
    }
    Ok(Some(dotted(alloc, space, alias.as_str())?))
}
