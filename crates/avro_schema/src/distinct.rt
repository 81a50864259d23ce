//! Whether the names or numbers in a list are distinct.

ghost use Rattle.std.specs.Prelude.{◌≡◌, ◌==◌, List, ℕ, IfOk, IsTrue, true, map, string_bytes};
ghost use Rattle.std.specs.Cmp.Lexicographic.{slice_cmp};
ghost use Rattle.std.specs.List.{IsAllAdjacentAnswer};
ghost use Rattle.std.specs.Ordering.{is_lt, nat_cmp};
ghost use Rattle.std.specs.Str.{bytes_eq};
ghost use Rattle.avro_schema.specs.Inside.Distinct.{all_distinct, text_hash};

use avro_nodes::Field;
use std::alloc::{AllocError, Global};

/// The factor of the hash: each step multiplies by it and adds a byte.
const FACTOR: u64 = 1099511628211;

/// An item that has a name, by which lists are checked for duplicates.
pub trait HasName {
    ghost name_bytes: { Self → List ℕ };

    fn name_text(&self) -> &str
        ensures { result.now ≡ name_bytes self.now };
}

impl HasName for String {
    ghost name_bytes = { string_bytes };

    fn name_text(&self) -> &str {
        self.as_str()
    }
}

impl HasName for Field {
    ghost name_bytes = { λ f. string_bytes f.name };

    fn name_text(&self) -> &str {
        self.name.as_str()
    }
}

/// The name of each item.
fn item_names<T: HasName>(alloc: Global, items: &[T]) -> Result<Vec<&str>, AllocError>
    ensures { IfOk result (λ v. map (λ t. t.now) v.items ≡ map T.name_bytes items.now) }
{
    let mut names = Vec::with_capacity(alloc, items.len())?;
    for item in items {
        names.push(item.name_text())?;
    }
    Ok(names)
}

/// Whether each text is less than the next.
fn texts_rise(texts: &[&str]) -> bool
    ensures { IsAllAdjacentAnswer (λ x y b. b ≡ is_lt (slice_cmp nat_cmp x.now y.now)) texts.now result }
{
    texts.is_sorted_by(
        |first: &&str, second: &&str| -> bool
            ensures { result ≡ is_lt (slice_cmp nat_cmp first.now.now second.now.now) }
        { *first < *second },
    )
}

/// Whether each number is less than the next.
fn numbers_rise(numbers: &[u64]) -> bool
    ensures { IsAllAdjacentAnswer (λ x y b. b ≡ is_lt (nat_cmp x y)) numbers.now result }
{
    numbers.is_sorted_by(
        |first: &u64, second: &u64| -> bool
            ensures { result ≡ is_lt (nat_cmp first.now second.now) }
        { *first < *second },
    )
}

fn hash_of(text: &str) -> u64
    ensures { result ≡ text_hash text.now }
{
    text.as_bytes().iter().fold(0, |hash: u64, byte: &u8| {
        hash.wrapping_mul(FACTOR).wrapping_add(u64::from(*byte))
    })
}

/// The hash of each item's name.
fn hashes_of<T: HasName>(alloc: Global, items: &[T]) -> Result<Vec<u64>, AllocError>
    ensures { IfOk result (λ v. v.items ≡ map (λ t. text_hash (T.name_bytes t)) items.now) }
{
    let mut hashes = Vec::with_capacity(alloc, items.len())?;
    for item in items {
        hashes.push(hash_of(item.name_text()))?;
    }
    Ok(hashes)
}

/// Whether no number occurs twice.
pub fn are_numbers_distinct(numbers: Vec<u64>) -> bool
    ensures { result ≡ all_distinct (λ a c. a == c) numbers.items }
{
    let mut sorted = numbers;
    sorted.sort_unstable();
    numbers_rise(&sorted)
}

/// Whether the hashes of the names are distinct. If so, the names are distinct, too.
fn are_hashes_distinct<T: HasName>(alloc: Global, items: &[T]) -> Result<bool, AllocError>
    ensures { IfOk result (λ b. IsTrue b → true ≡ all_distinct bytes_eq (map T.name_bytes items.now)) }
{
    Ok(are_numbers_distinct(hashes_of(alloc, items)?))
}

/// Whether no text, or no field's name, occurs twice. The texts themselves are sorted only if two
/// hashes are equal, as sorting numbers is faster.
///
/// # Errors
///
/// `AllocError` if an allocation fails.
pub fn are_names_distinct<T: HasName>(alloc: Global, items: &[T]) -> Result<bool, AllocError>
    ensures { IfOk result (λ b. b ≡ all_distinct bytes_eq (map T.name_bytes items.now)) }
{
    if are_hashes_distinct(alloc, items)? {
        return Ok(true);
    }
    let mut names = item_names(alloc, items)?;
    names.sort_unstable();
    Ok(texts_rise(&names))
}
