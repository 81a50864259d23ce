//! The fields of a request's head, by name (RFC 9110, section 5).

ghost use Rattle.std.specs.Prelude.{◌≡◌, ◌∷◌, [], ◌++◌, List, ℕ, map, length, All};
ghost use Rattle.std.specs.Str.{str_eq_ignore_ascii_case};
ghost use Rattle.httparse.specs.Spans.{IsHeaderWithin, header_bytes};
ghost use Rattle.reg_messages.specs.Fields.{values_named};

use httparse::spans::HeaderSpan;

/// The result of a lookup of a field by its name.
#[derive(Clone, Copy)]
pub enum FieldLookup<'a> {
    /// No field has the name.
    Missing,
    /// One field has the name, with this value.
    Once(&'a [u8]),
    /// More than one field has the name.
    Repeated,
}

/// Whether the names are equal, regardless of case.
fn is_name(name: &[u8], other: &[u8]) -> bool
    ensures { result ≡ str_eq_ignore_ascii_case name.now other.now }
{
    name.eq_ignore_ascii_case(other)
}

impl<'a> FieldLookup<'a> {
    ghost use Rattle.reg_messages.specs.Fields.{FindsField};

    /// The result with one more value found.
    fn with_value(self, value: &'a [u8]) -> FieldLookup<'a>
        ensures { (values : List (List ℕ)) → FindsField values self.entry
            → FindsField (values ++ value.now ∷ []) result }
    {
        match self {
            FieldLookup::Missing => FieldLookup::Once(value),
            FieldLookup::Once(_) => FieldLookup::Repeated,
            FieldLookup::Repeated => FieldLookup::Repeated,
        }
    }

    /// Looks up a field by its name, regardless of case. `fields` has spans of `head`.
    pub fn by_name(head: &'a [u8], fields: &[HeaderSpan], name: &[u8]) -> FieldLookup<'a>
        requires { All (IsHeaderWithin (length head.now)) fields.now }
        ensures { FindsField (values_named name.now (map (header_bytes head.now) fields.now)) result }
    {
        let mut found = FieldLookup::Missing;
        for field in fields {
            if is_name(field.name.of(head), name) {
                found = found.with_value(field.value.of(head));
            }
        }
        found
    }
}
