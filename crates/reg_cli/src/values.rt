//! The values of a command's arguments.

ghost use Rattle.std.specs.Prelude.{◌≡◌, IfOk, option_map, string_bytes};
ghost use Rattle.clap.specs.Words.{first_of, found_of, rows_of};
ghost use Rattle.reg_cli.specs.Line.{connections_in, listing_in};
ghost use Rattle.reg_cli.specs.Numbers.{unsigned_in};

use crate::task::{ListingKind, MAX_CONNECTIONS};
use clap::ArgMatches;
use std::alloc::{AllocError, Global};

/// The first value of the argument with this id, or `None` if it has none.
pub fn value_of<'a>(matches: &ArgMatches<'a>, id: &str) -> Option<&'a str>
    ensures { option_map (λ text. text.now) result
        ≡ first_of id.now (rows_of (found_of matches.now)) }
{
    matches.get_str(id)
}

/// A copy of a text, or `None` without a text.
///
/// # Errors
///
/// `AllocError` if the allocation fails.
pub fn copy_of(alloc: Global, text: Option<&str>) -> Result<Option<String>, AllocError>
    ensures { IfOk result (λ copy. option_map string_bytes copy
        ≡ option_map (λ text. text.now) text.entry) }
{
    match text {
        None => Ok(None),
        Some(text) => Ok(Some(String::from_str(alloc, text)?)),
    }
}

/// The number of the text: decimal digits with an optional leading plus. `None` for any other text,
/// or if the number has more than 16 bits.
pub fn port_in(text: &str) -> Option<u16>
    ensures { result ≡ unsigned_in 16 text.now }
{
    match text.parse::<u16>() {
        Ok(number) => Some(number),
        Err(_) => None,
    }
}

/// The number of the text: decimal digits with an optional leading plus. `None` for any other text,
/// or if the number has more than 32 bits.
fn count_in(text: &str) -> Option<u32>
    ensures { result ≡ unsigned_in 32 text.now }
{
    match text.parse::<u32>() {
        Ok(number) => Some(number),
        Err(_) => None,
    }
}

/// The number of connections: `MAX_CONNECTIONS` without a text, otherwise the result of `count_in`.
pub fn connections_in(text: Option<&str>) -> Option<u32>
    ensures { result ≡ connections_in (option_map (λ text. text.now) text.entry) }
{
    match text {
        None => Some(MAX_CONNECTIONS),
        Some(text) => count_in(text),
    }
}

/// The listing with this name, or `None`.
pub fn listing_in(argument: &str) -> Option<ListingKind>
    ensures { result ≡ listing_in argument.now }
{
    match argument {
        "subjects" => Some(ListingKind::Subjects),
        "versions" => Some(ListingKind::Versions),
        "schemas" => Some(ListingKind::Schemas),
        _ => None,
    }
}
