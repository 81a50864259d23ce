//! Whether a value fits a primitive type or a `fixed` type.

ghost use Rattle.std.specs.Prelude.{◌≡◌, ◌&&◌, ◌==◌, length};
ghost use Rattle.std.specs.Str.{chars};
ghost use Rattle.serde_json.specs.View.{view};
ghost use Rattle.avro_schema.specs.Inside.Fitting.{primitive_fits};
ghost use Rattle.avro_schema.specs.Defaults.{is_bytes};

use avro_nodes::PrimitiveKind;
use serde_json::Value;

/// Whether every code point of the text is at most 255 and so denotes a byte.
fn is_bytes(text: &str) -> bool
    ensures { result ≡ is_bytes text.now }
{
    text.chars().all(|c| (c as u32) < 256)
}

fn char_count(text: &str) -> usize
    ensures { result ≡ length (chars text.now) }
{
    text.chars().count()
}

/// Whether the text denotes exactly `size` bytes.
pub fn is_bytes_of(text: &str, size: u32) -> bool
    ensures { result ≡ (is_bytes text.now && (length (chars text.now) == size)) }
{
    is_bytes(text) && char_count(text) == size as usize
}

/// Whether the value fits the primitive type. For `long`, `float` and `double` it must be a signed
/// 64-bit integer.
pub fn primitive_fits(value: &Value, kind: PrimitiveKind) -> bool
    ensures { result ≡ primitive_fits (view value.now) kind }
{
    match kind {
        PrimitiveKind::Null => value.is_null(),
        PrimitiveKind::Boolean => value.is_boolean(),
        PrimitiveKind::Int => match value.as_i64() {
            Some(number) => -2147483648 <= number && number <= 2147483647,
            None => false,
        },
        PrimitiveKind::Long | PrimitiveKind::Float | PrimitiveKind::Double => value
            .as_i64()
            .is_some(),
        PrimitiveKind::Bytes => match value.as_str() {
            Some(text) => is_bytes(text),
            None => false,
        },
        PrimitiveKind::Text => value.is_string(),
    }
}
