//! Readers for each type that implements [`TryRead`]. They add the input to the fault of its `try_read`.
ghost use Rattle.std.specs.Prelude.{ℕ, List};
ghost use Rattle.std.specs.Cow.{cow_slice_items};
ghost use Rattle.bstr.specs.Owned.{bstring_bytes};
ghost use Rattle.config_text.specs.declared.errors.Fault.{Fault};
ghost use Rattle.config_text.specs.Refusals.{ReadsFault, ReadsBytes, ReadsText, ReadsOwned};

use crate::errors::{Error, Fault, Returned};
use crate::value::Value;
use bstr::{BStr, BString};
use std::borrow::CowSlice;

/// A value whose reader says why it refuses a text. Six of the seven kinds have such a reader; a suffix is
/// refused without a fault.
///
/// ```rust
/// use gix_config_value::canonical::TryRead;
/// use gix_config_value::{Boolean, Fault};
///
/// assert_eq!(rt; Boolean::try_read(b"off"), Ok(Boolean(false)));
/// assert_eq!(rt; Boolean::try_read(b"off "), Err(Fault::Boolean));
/// ```
pub trait TryRead: Value {
    /// Which texts are refused with which faults.
    ghost refusal: { List ℕ → Fault → Type 0 };

    /// Reads the text, or returns why the grammar gives it no value.
    fn try_read(text: &[u8]) -> Result<Self, Fault>
        ensures { ReadsFault Self.grammar refusal text.now result };
}

/// Reads a byte string. An error has the fault of `try_read` and the whole borrowed input.
pub fn read_bytes<V: TryRead>(input: BStr<'_>) -> Result<V, Error<'_>>
    ensures { ReadsBytes V.grammar V.refusal input.entry result }
{
    match V::try_read(input.as_bytes()) {
        Ok(value) => Ok(value),
        Err(fault) => Err(Error { fault, input }),
    }
}

/// Reads a text. An error has the fault of `try_read` and the whole borrowed input.
pub fn read_text<V: TryRead>(input: &str) -> Result<V, Error<'_>>
    ensures { ReadsText V.grammar V.refusal input.now result }
{
    read_bytes(BStr::from(input))
}

/// Reads an owned byte string. An error has the fault of `try_read` and hands the input back.
pub fn read_owned<V: TryRead>(input: BString) -> Result<V, Returned<BString>>
    ensures { ReadsOwned V.grammar V.refusal (bstring_bytes input) input result }
{
    match V::try_read(input.as_bytes()) {
        Ok(value) => Ok(value),
        Err(fault) => Err(Returned { fault, input }),
    }
}

/// Reads a byte slice that is borrowed or owned. An error has the fault of `try_read` and hands the input
/// back.
pub fn read_cow<V: TryRead>(input: CowSlice<'_, u8>) -> Result<V, Returned<CowSlice<'_, u8>>>
    ensures { ReadsOwned V.grammar V.refusal (cow_slice_items input.entry) input.entry result }
{
    match V::try_read(input.as_slice()) {
        Ok(value) => Ok(value),
        Err(fault) => Err(Returned { fault, input }),
    }
}
