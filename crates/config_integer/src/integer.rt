//! Integers and their suffixes.
ghost use Rattle.std.specs.Prelude.{◌≡◌, ◌≤◌, ℤ, [], Option, Some, None, SomeIff, IfOk, IfErr, Ok, Err};
ghost use Rattle.bstr.specs.BStr.{bstr_bytes};
ghost use Rattle.bstr.specs.Owned.{bstring_bytes};
ghost use Rattle.std.specs.Cow.{cow_slice_items};
ghost use Rattle.std.proofs.Common.{rules};
ghost use Rattle.config_text.specs.declared.errors.Fault.TheVariants as faults;
ghost use Rattle.config_text.specs.Value.{Reads};
ghost use Rattle.config_text.specs.Refusals.{OnlyFault, ReadsFault, ReadsBytes, ReadsText, ReadsOwned};
ghost use Rattle.config_integer.specs.Integer.{IntegerText, CanonicalInteger, integer_shown};
ghost use Rattle.config_integer.specs.Integer.{product, ProductInRange, IntegerFault};
ghost use Rattle.config_text.specs.Numerals.{IsInI64};
ghost use Rattle.config_integer.specs.Reading.Integer.{sign_and_rest, largest, with_sign};
ghost use Rattle.config_integer.specs.Laws.Integer.{integer_one_value, integer_decided};
ghost use Rattle.config_integer.specs.Laws.IntegerShown.{integer_one_text, integer_canonical_reads};
ghost use Rattle.config_integer.specs.Laws.IntegerShown.{integer_shown_is_text};
ghost use Rattle.config_text.specs.Json.{GivesJsonNumber};

use crate::magnitude::magnitude_and_suffix;
use crate::suffix::Suffix;
use bstr::{BStr, BString};
use config_text::errors::{Error, Fault, Returned};
use config_text::json::JsonError;
use config_text::readers::{TryRead, read_bytes, read_cow, read_owned, read_text};
use config_text::value::{CanonicalText, Value};
use itoa::Buffer;
use serde_json::Value as JsonValue;
use std::alloc::Global;
use std::borrow::CowSlice;
use std::fmt;
use std::str::FromStr;

/// A number and the suffix that it was written with, kept apart: `1k` and `1024` are two integers.
///
/// A text has at most one sign and at most one suffix. Its number is decimal, or hexadecimal after `0x`,
/// binary after `0b`, octal after `0`. Letters may be in either case. The number is from -9223372036854775808
/// to 9223372036854775807, but its product with the suffix may be out of that range.
///
/// Any other text is refused with `Fault::Integer`, including one with white space or `_`. The canonical text
/// is the number in decimal and the suffix in lower case: docs/GRAMMAR.md, Integers.
///
/// ```rust
/// use gix_config_value::Integer;
/// use gix_config_value::integer::Suffix;
///
/// let integer = Integer::try_from("-0x10K")?;
/// assert_eq!(rt; integer.value, -16);
/// assert_eq!(rt; integer.suffix, Some(Suffix::Kibi));
/// ```
#[derive(Clone, Copy, PartialEq, Eq, PartialOrd, Ord, Hash, Debug, Default)]
pub struct Integer {
    /// The number before the suffix, with its sign.
    pub value: i64,
    /// The suffix that multiplies the number, or `None` if it was written without a suffix.
    pub suffix: Option<Suffix>,
}

/// Reads the input, or returns `None` if it is not an integer text. It goes over the input once, from the
/// front, and stops at the byte that makes the input invalid.
#[inline(always)]
pub fn scan(input: &[u8]) -> Option<Integer>
    ensures { Reads IntegerText input.now result }
{
    let (is_negative, text) = sign_and_rest(input);
    let (magnitude, suffix) = magnitude_and_suffix(text, largest(is_negative))?;
    let value = with_sign(is_negative, magnitude)?;
    Some(Integer { value, suffix })
}

/// Returns whether the text begins with `-`, and the text without its sign.
#[inline(always)]
fn sign_and_rest(text: &[u8]) -> (bool, &[u8])
    ensures { (result.0, result.1.now) ≡ sign_and_rest text.now }
{
    match text {
        [b'-', rest @ ..] => (true, rest),
        [b'+', rest @ ..] => (false, rest),
        _ => (false, text),
    }
}

/// Returns the largest magnitude of a negative `i64`, or of an `i64` that is not negative.
#[inline(always)]
fn largest(is_negative: bool) -> u64
    ensures { result ≡ largest is_negative }
{
    if is_negative {
        i64::MIN.unsigned_abs()
    } else {
        i64::MAX.unsigned_abs()
    }
}

/// Returns the number with this sign and magnitude, or `None` if it does not fit `i64`.
#[inline(always)]
fn with_sign(is_negative: bool, magnitude: u64) -> Option<i64>
    ensures { SomeIff result (magnitude ≤ largest is_negative) (with_sign is_negative magnitude) }
{
    if is_negative {
        0_i64.checked_sub_unsigned(magnitude)
    } else {
        0_i64.checked_add_unsigned(magnitude)
    }
}

/// Reads an integer text and returns its product as a `T`, or the fault if that is not possible.
fn product_as<T: TryFrom<i64>>(text: &[u8]) -> Result<T, Fault>
where
    T::Error: Drop,
    ensures accepted { IfOk result
        (λ x. (z : ℤ) × ProductInRange text.now z × T.try_from_gives z (Ok x)) }
    ensures refused { IfErr result
        (IntegerFault (λ z. (x : T.Error) × T.try_from_gives z (Err x)) text.now) }
{
    // With `ok_or` and `?` instead of these arms the proof takes three times as long.
    let Some(integer) = scan(text) else {
        return Err(Fault::Integer);
    };
    let Some(product) = integer.to_decimal() else {
        return Err(Fault::Overflow);
    };
    T::try_from(product).map_err(|_| Fault::OutOfRange)
}

impl TryRead for Integer {
    ghost refusal = { OnlyFault faults.Integer };

    /// Reads the text, or returns `Fault::Integer` if it is not an integer text.
    fn try_read(text: &[u8]) -> Result<Integer, Fault> {
        scan(text).ok_or(Fault::Integer)
    }
}

impl FromStr for Integer {
    type Err = Fault;

    ghost from_str_gives = { ReadsFault IntegerText (OnlyFault faults.Integer) };

    /// Reads the text, or returns `Fault::Integer` if it is not an integer text.
    fn from_str(text: &str) -> Result<Integer, Fault> {
        Integer::try_read(text.as_bytes())
    }
}

impl<'a> TryFrom<BStr<'a>> for Integer {
    type Error = Error<'a>;

    ghost try_from_gives = { ReadsBytes IntegerText (OnlyFault faults.Integer) };

    /// Reads the input, or returns `Fault::Integer` with the whole input.
    fn try_from(input: BStr<'a>) -> Result<Integer, Error<'a>> {
        read_bytes(input)
    }
}

impl<'a> TryFrom<&'a str> for Integer {
    type Error = Error<'a>;

    ghost try_from_gives = { λ s r. ReadsText IntegerText (OnlyFault faults.Integer) s.now r };

    /// Reads the input, or returns `Fault::Integer` with the whole input.
    fn try_from(input: &'a str) -> Result<Integer, Error<'a>> {
        read_text(input)
    }
}

impl TryFrom<BString> for Integer {
    type Error = Returned<BString>;

    ghost try_from_gives = { λ s r.
        ReadsOwned IntegerText (OnlyFault faults.Integer) (bstring_bytes s) s r };

    /// Reads the input, or returns `Fault::Integer` and hands the input back.
    fn try_from(input: BString) -> Result<Integer, Returned<BString>> {
        read_owned(input)
    }
}

impl<'a> TryFrom<CowSlice<'a, u8>> for Integer {
    type Error = Returned<CowSlice<'a, u8>>;

    ghost try_from_gives = { λ s r.
        ReadsOwned IntegerText (OnlyFault faults.Integer) (cow_slice_items s) s r };

    /// Reads the input, or returns `Fault::Integer` and hands the input back.
    fn try_from(input: CowSlice<'a, u8>) -> Result<Integer, Returned<CowSlice<'a, u8>>> {
        read_cow(input)
    }
}

impl Integer {
    /// Returns the number times the factor of its suffix as a JSON number. It takes no memory, and fails with
    /// `JsonError::Overflow` exactly if that product does not fit `i64`.
    pub fn to_json(&self, _alloc: Global) -> Result<JsonValue, JsonError>
        ensures { GivesJsonNumber (product self.now) result }
    {
        let product = self.to_decimal().ok_or(JsonError::Overflow)?;
        Ok(JsonValue::from(product))
    }
}

impl fmt::Display for Integer {
    ghost output = { λ v. Some (integer_shown v) };

    /// Writes the number in decimal, and then the letter of its suffix, if it has one.
    fn fmt<W: fmt::Write>(&self, f: &mut fmt::Formatter<W>) -> fmt::Result {
        // Reading the field tells the prover its range.
        let _value = self.value;
        f.write_str(self.text().as_str())
    }
}

impl Integer {
    /// Returns the number times the factor of its suffix, or `None` if that does not fit `i64`.
    ///
    /// ```rust
    /// use gix_config_value::Integer;
    ///
    /// assert_eq!(rt; Integer::try_from("-16k")?.to_decimal(), Some(-16384));
    /// assert_eq!(rt; Integer::try_from("8589934592g")?.to_decimal(), None); // 2 to the power of 63
    /// ```
    pub fn to_decimal(&self) -> Option<i64>
        ensures { SomeIff result (IsInI64 (product self.now)) (product self.now) }
    {
        match self.suffix {
            Some(suffix) => self.value.checked_mul(suffix.factor()),
            None => Some(self.value),
        }
    }

    /// Reads the input as an integer and returns its product as a `T`. An error has the whole input and the
    /// first of these faults that applies (docs/GRAMMAR.md, Integers):
    ///
    /// - `Fault::Integer`: the input is not an integer text.
    /// - `Fault::Overflow`: its product does not fit `i64`.
    /// - `Fault::OutOfRange`: the conversion of the product to `T` fails.
    ///
    /// ```rust
    /// use gix_config_value::{Fault, Integer};
    ///
    /// assert_eq!(rt; Integer::from_bytes::<usize>(b"10m")?, 10 * 1024 * 1024);
    /// let fault = Integer::from_bytes::<u16>(b"64k").map_err(|error| error.fault);
    /// assert_eq!(rt; fault, Err(Fault::OutOfRange)); // 65536 is no u16
    /// ```
    pub fn from_bytes<T: TryFrom<i64>>(input: &[u8]) -> Result<T, Error<'_>>
    where
        T::Error: Drop,
        ensures accepted { IfOk result
            (λ x. (z : ℤ) × ProductInRange input.now z × T.try_from_gives z (Ok x)) }
        ensures whole { IfErr result (λ e. bstr_bytes e.input ≡ input.now) }
        ensures refused { IfErr result
            (λ e. IntegerFault (λ z. (x : T.Error) × T.try_from_gives z (Err x)) input.now e.fault) }
    {
        product_as(input).map_err(|fault| Error {
            fault,
            input: BStr::from(input),
        })
    }
}

impl Value for Integer {
    ghost grammar = { IntegerText };

    ghost canonical = { CanonicalInteger };

    ghost displayed = { integer_shown };

    /// Reads the input, or returns `None` if it is not an integer text.
    fn read(input: BStr<'_>) -> Option<Integer> {
        scan(input.as_bytes())
    }

    /// Every integer has a text.
    fn has_text(&self) -> bool {
        // Reading the field tells the prover its range.
        let _value = self.value;
        true
    }

    /// Writes the number in decimal, and then the letter of its suffix, if it has one, in at most 21 bytes.
    fn write_to(&self, text: &mut CanonicalText) {
        text.push_str(Buffer::new().format(self.value));
        if let Some(suffix) = self.suffix {
            text.push_str(suffix.letter());
        }
    }

    ghost one_value = { integer_one_value };

    ghost one_text = { integer_one_text };

    ghost canonical_reads = { integer_canonical_reads };

    ghost shown_is_text = { integer_shown_is_text };

    ghost decided = { integer_decided };

    ghost equal_is_same = { Prim.search rules };
}
