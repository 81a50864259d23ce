//! The rows of `texts`.

ghost use Rattle.std.specs.Prelude.{IfOk, IsTrue, ◌≡◌, ◌≤◌, ◌↔◌, length, map};
ghost use Rattle.std.specs.List.{AllByRecursion};
ghost use Rattle.reg_core.specs.Registry.{max_number};
ghost use Rattle.reg_rows.specs.Spelling.{AreConsecutive, AreTexts, IsIdentity, IsTextRow};

use avro_schema::{Schema, SchemaError};
use reg_core::{MAX_NUMBER, OutOfMemory};
use std::alloc::{AllocError, Global};

/// Whether the text is the identity text of a schema.
///
/// # Errors
///
/// `OutOfMemory` if an allocation fails.
pub fn is_identity(alloc: Global, text: &str) -> Result<bool, OutOfMemory>
    ensures { IfOk result (λ yes. IsTrue yes ↔ IsIdentity text.now) }
{
    match Schema::read(alloc, text) {
        Ok(schema) => Ok(schema.text(alloc)?.as_str() == text),
        Err(error) => match error {
            SchemaError::OutOfMemory => Err(OutOfMemory),
            _ => Ok(false),
        },
    }
}

/// Whether each row has the identity text of a schema.
fn are_identities(alloc: Global, rows: &[(u32, String)]) -> Result<bool, OutOfMemory>
    ensures { IfOk result (λ yes. IsTrue yes ↔ AllByRecursion IsTextRow rows.now) }
{
    for row in rows {
        if !is_identity(alloc, row.1.as_str())? {
            return Ok(false);
        }
    }
    Ok(true)
}

/// Whether the ids are 1, 2, .. in this order, and at most 2,147,483,647.
pub fn are_consecutive_ids(ids: &[u32]) -> bool
    ensures { IsTrue result ↔ (AreConsecutive 1 ids.now × (length ids.now ≤ max_number)) }
{
    ids.len() <= MAX_NUMBER as usize && are_consecutive(ids)
}

/// Whether the numbers are 1, 2, .. in this order.
fn are_consecutive(numbers: &[u32]) -> bool
    ensures { IsTrue result ↔ AreConsecutive 1 numbers.now }
{
    let mut next: u64 = 1;
    for number in numbers {
        if u64::from(*number) != next {
            return false;
        }
        next += 1;
    }
    true
}

fn ids_of(alloc: Global, rows: &[(u32, String)]) -> Result<Vec<u32>, AllocError>
    ensures { IfOk result (λ ids. ids.items ≡ map (λ row. row.0) rows.now) }
{
    let mut ids = Vec::new(alloc);
    for row in rows {
        ids.push(row.0)?;
    }
    Ok(ids)
}

/// Whether each row of `texts` has the identity text of a schema, and the ids are 1, 2, .. in this
/// order, and at most 2,147,483,647.
///
/// # Errors
///
/// `OutOfMemory` if an allocation fails.
pub fn are_texts(alloc: Global, rows: &[(u32, String)]) -> Result<bool, OutOfMemory>
    ensures { IfOk result (λ yes. IsTrue yes ↔ AreTexts rows.now) }
{
    if !are_consecutive_ids(&ids_of(alloc, rows)?) {
        return Ok(false);
    }
    are_identities(alloc, rows)
}
