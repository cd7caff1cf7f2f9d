//! Booleans: words in any case, and numbers.
ghost use Rattle.std.specs.Prelude.{◌↔◌, IsTrue, ◌≡◌, Some};
ghost use Rattle.bstr.specs.Owned.{bstring_bytes};
ghost use Rattle.std.specs.Cow.{cow_slice_items};
ghost use Rattle.std.proofs.Common.{rules};
ghost use Rattle.config_text.specs.declared.errors.Fault.TheVariants as faults;
ghost use Rattle.config_text.specs.Refusals.{OnlyFault, ReadsFault, ReadsBytes, ReadsText, ReadsOwned};
ghost use Rattle.config_boolean.specs.Laws.Boolean.{boolean_one_value, boolean_one_text, boolean_decided};
ghost use Rattle.config_boolean.specs.Laws.Boolean.{boolean_canonical_reads, boolean_shown_is_text};
ghost use Rattle.config_boolean.specs.Boolean.{Affirms, Denies, BooleanText, CanonicalBoolean, boolean_shown};
ghost use Rattle.serde_json.specs.Data.{boolean};
ghost use Rattle.config_text.specs.Json.{IsJson};
ghost use Rattle.config_text.specs.Value.{Reads};

use bstr::{BStr, BString};
use config_integer::amount::Amount;
use config_text::errors::{Error, Fault, Returned};
use config_text::json::JsonError;
use config_text::readers::{TryRead, read_bytes, read_cow, read_owned, read_text};
use config_text::value::{CanonicalText, Value};
use config_text::words::equals_ignoring_case;
use serde_json::Value as JsonValue;
use std::alloc::Global;
use std::borrow::CowSlice;
use std::fmt;
use std::str::FromStr;

/// A truth value. **In Git a key without `=` is true, and one with nothing after its `=` is false.**
///
/// A reader gets only the text after the `=`. If there is no `=`, pass it `true`, as the lookups of
/// `config_file::settings` do.
///
/// `yes`, `on` and `true` are true; `no`, `off`, `false` and the empty text are false; ASCII case is ignored.
/// An amount is true if its number is not zero. Any other text is refused with `Fault::Boolean`, including an
/// integer whose product does not fit `i64`. The canonical texts are `true` and `false`: docs/GRAMMAR.md,
/// Booleans.
///
/// ```rust
/// use gix_config_value::{Boolean, Fault};
/// use std::str::FromStr;
///
/// assert_eq!(rt; Boolean::from_str("Yes"), Ok(Boolean(true)));
/// assert_eq!(rt; Boolean::from_str(""), Ok(Boolean(false))); // `bare =`; for `bare` alone hand in `true`
/// assert_eq!(rt; Boolean::from_str("maybe"), Err(Fault::Boolean));
/// ```
#[derive(Clone, Copy, PartialEq, Eq, PartialOrd, Ord, Hash, Debug, Default)]
pub struct Boolean(pub bool);

/// Returns whether the text is a word for true, ignoring ASCII case.
#[inline(always)]
fn affirms(text: &[u8]) -> bool
    ensures { IsTrue result ↔ (Affirms text.now) }
{
    equals_ignoring_case(text, b"yes")
        || equals_ignoring_case(text, b"on")
        || equals_ignoring_case(text, b"true")
}

/// Returns whether the text is empty or a word for false, ignoring ASCII case.
#[inline(always)]
fn denies(text: &[u8]) -> bool
    ensures { IsTrue result ↔ (Denies text.now) }
{
    if text.is_empty() {
        return true;
    }
    equals_ignoring_case(text, b"no")
        || equals_ignoring_case(text, b"off")
        || equals_ignoring_case(text, b"false")
}

/// Reads a text that is neither empty nor a word as an amount, which is true if it is not zero. Returns
/// `None` if the text is not an amount text.
#[inline(never)]
fn read_amount(text: &[u8]) -> Option<Boolean>
    requires affirms { ¬ (Affirms text.now) }
    requires denies { ¬ (Denies text.now) }
    ensures { Reads BooleanText text.now result }
{
    match Amount::try_read(text) {
        Ok(Amount(number)) => Some(Boolean(number != 0)),
        Err(_) => None,
    }
}

/// Reads the text, or returns `None` if it is not a boolean text.
#[inline(always)]
fn boolean_of(text: &[u8]) -> Option<Boolean>
    ensures { Reads BooleanText text.now result }
{
    if affirms(text) {
        Some(Boolean(true))
    } else if denies(text) {
        Some(Boolean(false))
    } else {
        read_amount(text)
    }
}

impl Boolean {
    /// Returns the truth value.
    pub fn is_true(self) -> bool
        ensures { result ≡ self.0 }
    {
        self.0
    }
}

impl From<Boolean> for bool {
    ghost from_gives = { λ v b. b ≡ v.0 };

    /// Returns the truth value.
    fn from(value: Boolean) -> bool {
        value.0
    }
}

impl TryRead for Boolean {
    ghost refusal = { OnlyFault faults.Boolean };

    /// Reads the text, or returns `Fault::Boolean` if it is not a boolean text.
    #[inline(always)]
    fn try_read(text: &[u8]) -> Result<Boolean, Fault> {
        boolean_of(text).ok_or(Fault::Boolean)
    }
}

impl FromStr for Boolean {
    type Err = Fault;

    ghost from_str_gives = { ReadsFault BooleanText (OnlyFault faults.Boolean) };

    /// Reads the text, or returns `Fault::Boolean` if it is not a boolean text.
    fn from_str(text: &str) -> Result<Boolean, Fault> {
        Boolean::try_read(text.as_bytes())
    }
}

impl<'a> TryFrom<BStr<'a>> for Boolean {
    type Error = Error<'a>;

    ghost try_from_gives = { ReadsBytes BooleanText (OnlyFault faults.Boolean) };

    /// Reads the input, or returns `Fault::Boolean` with the whole input.
    fn try_from(input: BStr<'a>) -> Result<Boolean, Error<'a>> {
        read_bytes(input)
    }
}

impl<'a> TryFrom<&'a str> for Boolean {
    type Error = Error<'a>;

    ghost try_from_gives = { λ s r. ReadsText BooleanText (OnlyFault faults.Boolean) s.now r };

    /// Reads the input, or returns `Fault::Boolean` with the whole input.
    fn try_from(input: &'a str) -> Result<Boolean, Error<'a>> {
        read_text(input)
    }
}

impl TryFrom<BString> for Boolean {
    type Error = Returned<BString>;

    ghost try_from_gives = { λ s r.
        ReadsOwned BooleanText (OnlyFault faults.Boolean) (bstring_bytes s) s r };

    /// Reads the input, or returns `Fault::Boolean` and hands the input back.
    fn try_from(input: BString) -> Result<Boolean, Returned<BString>> {
        read_owned(input)
    }
}

impl<'a> TryFrom<CowSlice<'a, u8>> for Boolean {
    type Error = Returned<CowSlice<'a, u8>>;

    ghost try_from_gives = { λ s r.
        ReadsOwned BooleanText (OnlyFault faults.Boolean) (cow_slice_items s) s r };

    /// Reads the input, or returns `Fault::Boolean` and hands the input back.
    fn try_from(input: CowSlice<'a, u8>) -> Result<Boolean, Returned<CowSlice<'a, u8>>> {
        read_cow(input)
    }
}

impl Boolean {
    /// Returns the JSON value `true` or `false`. It takes no memory and always succeeds.
    pub fn to_json(&self, _alloc: Global) -> Result<JsonValue, JsonError>
        ensures { IsJson (boolean self.now.0) result }
    {
        Ok(JsonValue::from(self.0))
    }
}

impl fmt::Display for Boolean {
    ghost output = { λ v. Some (boolean_shown v) };

    /// Writes `true` or `false`.
    fn fmt<W: fmt::Write>(&self, f: &mut fmt::Formatter<W>) -> fmt::Result {
        f.write_str(if self.0 { "true" } else { "false" })
    }
}

impl Value for Boolean {
    ghost grammar = { BooleanText };

    ghost canonical = { CanonicalBoolean };

    ghost displayed = { boolean_shown };

    /// Reads the input, or returns `None` if it is not a boolean text.
    fn read(input: BStr<'_>) -> Option<Boolean> {
        boolean_of(input.as_bytes())
    }

    /// Both booleans have a text.
    fn has_text(&self) -> bool {
        true
    }

    /// Writes `true` or `false`.
    fn write_to(&self, text: &mut CanonicalText) {
        if self.0 {
            text.push_str("true");
        } else {
            text.push_str("false");
        }
    }

    ghost one_value = { boolean_one_value };

    ghost one_text = { boolean_one_text };

    ghost canonical_reads = { boolean_canonical_reads };

    ghost shown_is_text = { boolean_shown_is_text };

    ghost decided = { boolean_decided };

    ghost equal_is_same = { Prim.search rules };
}
