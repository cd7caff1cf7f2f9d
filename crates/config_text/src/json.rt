//! Why a value has no JSON value, and texts as JSON strings.
ghost use Rattle.config_text.specs.Json.{GivesJsonText};

use serde_json::Value;
use std::alloc::{AllocError, Global};
use thiserror::Error;

/// Why a value has no JSON value: docs/GRAMMAR.md, JSON values.
///
/// Integers fail only with `Overflow`, and names, attributes and suffixes only with `Memory`. Booleans never
/// fail.
///
/// ```rust
/// use gix_config_value::Integer;
/// use gix_config_value::json::JsonError;
///
/// let past = Integer::try_from("8589934592g")?; // an integer, whose product is 2 to the power of 63
/// assert_eq!(rt; past.to_json(alloc).err(), Some(JsonError::Overflow));
/// ```
#[derive(Clone, Copy, PartialEq, Eq, Debug, Error)]
pub enum JsonError {
    /// The product of an integer does not fit `i64`.
    #[error("integer suffix multiplication overflows `i64`")]
    Overflow,
    /// Memory for the text was refused.
    #[error("no memory")]
    Memory(AllocError),
}

/// Returns the text as a JSON string. It asks for memory once, or not at all if the text is empty. Fails with
/// `JsonError::Memory` if memory is refused.
pub fn string(alloc: Global, text: &str) -> Result<Value, JsonError>
    ensures { GivesJsonText text.now result }
{
    if text.is_empty() {
        return Ok(Value::from(String::new(alloc)));
    }
    Value::try_from_str(alloc, text).map_err(JsonError::Memory)
}
