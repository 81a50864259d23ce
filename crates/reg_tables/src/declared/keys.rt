//! Whether names, and lists of names and of columns, are as expected.

ghost use Rattle.std.specs.Prelude.{◌≡◌, ◌↔◌, [], ◌∷◌, IsTrue};

use sqlite_items::Items;
use sqlite_value::value::Bytes;

pub fn is_name(name: &Bytes, expected: &[u8]) -> bool
    ensures { IsTrue result ↔ (name.now ≡ expected.now) }
{
    name.as_slice() == expected
}

/// Whether `expected` is the only name.
pub fn is_one_name(names: &Items<Bytes>, expected: &[u8]) -> bool
    ensures { IsTrue result ↔ (names.now ≡ expected.now ∷ []) }
{
    match names.as_slice() {
        [one] => is_name(one, expected),
        _ => false,
    }
}

/// Whether the names are exactly `first` and `second`, in this order.
pub fn are_exactly(names: &Items<Bytes>, first: &[u8], second: &[u8]) -> bool
    ensures { IsTrue result ↔ (names.now ≡ first.now ∷ second.now ∷ []) }
{
    match names.as_slice() {
        [one, other] => is_name(one, first) && is_name(other, second),
        _ => false,
    }
}

pub fn are_numbers(numbers: &Items<usize>, expected: &[usize]) -> bool
    ensures { IsTrue result ↔ (numbers.now ≡ expected.now) }
{
    numbers.as_slice() == expected
}

/// Whether `expected` is the only key.
pub fn is_one_key(keys: &Items<Items<usize>>, expected: &[usize]) -> bool
    ensures { IsTrue result ↔ (keys.now ≡ expected.now ∷ []) }
{
    match keys.as_slice() {
        [one] => are_numbers(one, expected),
        _ => false,
    }
}
