//! The segments of a path, between its slashes. (RFC 3986, section 3.3.)

ghost use Rattle.std.specs.Prelude.{◌≡◌};
ghost use Rattle.reg_routes.specs.PathSegments.{segment_at};

use crate::split_at_byte::split_at_byte;

/// The segment of the path after `slashes` slashes. Empty if the path has fewer.
pub fn segment_at(path: &[u8], slashes: u32) -> &[u8]
    ensures { result.now ≡ segment_at slashes path.entry.now }
{
    let mut rest = path;
    for _ in 0..slashes {
        rest = split_at_byte(rest, b'/').1;
    }
    split_at_byte(rest, b'/').0
}
