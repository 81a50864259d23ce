//! The reasons why a text denotes no schema.

ghost use Rattle.std.specs.Prelude.{◌≡◌};
ghost use Rattle.avro_schema.specs.declared.error.JsonError.TheVariants.{OutOfMemory as no_memory, Invalid as invalid};
ghost use Rattle.avro_schema.specs.declared.error.SchemaError.TheVariants.{OutOfMemory, NotJson};

use avro_nodes::OutOfMemory as NoMemory;
use std::alloc::{AllocError, AllocFailed};
use thiserror::Error;

/// Why `Schema::read` failed. Every error but `OutOfMemory` means that the text denotes no schema.
#[derive(Debug, Drop, Error)]
pub enum SchemaError {
    /// The text isn't JSON, or its JSON nests deeper than 127 levels.
    #[error("the text is not JSON")]
    NotJson,
    /// A number isn't an integer, has an exponent or a leading zero, or doesn't fit in 64 bits.
    #[error("a number is not a 64-bit integer")]
    BadNumber,
    /// A name, a namespace, an alias or a symbol is malformed, or a definition has the name of a
    /// primitive type.
    #[error("a name is malformed")]
    BadName,
    /// A reference names a type that isn't defined before it.
    #[error("a reference names an undefined type")]
    Undefined,
    /// A full name, a field of a record or a symbol occurs twice.
    #[error("a name is defined twice")]
    Redefined,
    /// An attribute is missing or has the wrong JSON type, or a value isn't a declaration. Also a
    /// size out of range, an unknown order, and an enum's default that isn't one of its symbols.
    #[error("an attribute is missing or of the wrong type")]
    BadShape,
    /// A branch of a union is a union, or two branches have the same kind.
    #[error("a union has a union as a branch, or two branches of one kind")]
    BadUnion,
    /// A default doesn't fit its field's type.
    #[error("a default does not fit its field")]
    BadDefault,
    /// The text, the nesting depth, the number of nodes or the identity text exceeds its limit.
    #[error("the schema exceeds a limit")]
    TooLarge,
    /// Allocation failed.
    #[error("out of memory")]
    OutOfMemory,
}

impl From<NoMemory> for SchemaError {
    ghost from_gives = { λ _ e. e ≡ OutOfMemory };

    fn from(_e: NoMemory) -> SchemaError {
        SchemaError::OutOfMemory
    }
}

impl From<AllocError> for SchemaError {
    ghost from_gives = { λ _ e. e ≡ OutOfMemory };

    fn from(_e: AllocError) -> SchemaError {
        SchemaError::OutOfMemory
    }
}

impl<T: Drop> From<AllocFailed<T>> for SchemaError {
    ghost from_gives = { λ _ e. e ≡ OutOfMemory };

    fn from(_e: AllocFailed<T>) -> SchemaError {
        SchemaError::OutOfMemory
    }
}

/// Why a text couldn't be read as JSON.
#[derive(Clone, Copy, Drop)]
pub enum JsonError {
    /// the text isn't JSON, or nests too deep
    Invalid,
    /// allocation failed
    OutOfMemory,
}

impl From<AllocError> for JsonError {
    ghost from_gives = { λ _ e. e ≡ no_memory };

    fn from(_e: AllocError) -> JsonError {
        JsonError::OutOfMemory
    }
}

impl<T: Drop> From<AllocFailed<T>> for JsonError {
    ghost from_gives = { λ _ e. e ≡ no_memory };

    fn from(_e: AllocFailed<T>) -> JsonError {
        JsonError::OutOfMemory
    }
}

impl From<json::Invalid> for JsonError {
    ghost from_gives = { λ _ e. e ≡ invalid };

    fn from(_e: json::Invalid) -> JsonError {
        JsonError::Invalid
    }
}

impl From<JsonError> for SchemaError {
    ghost from_gives = { λ e x. (e ≡ no_memory → x ≡ OutOfMemory) × (e ≡ invalid → x ≡ NotJson) };

    fn from(e: JsonError) -> SchemaError {
        match e {
            JsonError::Invalid => SchemaError::NotJson,
            JsonError::OutOfMemory => SchemaError::OutOfMemory,
        }
    }
}
