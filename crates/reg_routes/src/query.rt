//! The parameters of a query.

ghost use Rattle.std.specs.Prelude.{◌≡◌, IfOk};
ghost use Rattle.reg_routes.specs.Queries.{query_flag};

use reg_core::OutOfMemory;
use std::alloc::Global;

/// Whether the first parameter of this name is `true`. (WHATWG URL, section 5.)
///
/// # Errors
///
/// `OutOfMemory` if an allocation fails.
pub fn query_flag(alloc: Global, query: &[u8], name: &str) -> Result<bool, OutOfMemory>
    ensures { IfOk result (λ on. on ≡ query_flag query.now name.now) }
{
    for pair in form_urlencoded::parse(alloc, query) {
        let (key, value) = pair?;
        if key.as_str() == name {
            return Ok(value.as_str() == "true");
        }
    }
    Ok(false)
}
