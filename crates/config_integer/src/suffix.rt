//! The unit that multiplies an integer.
ghost use Rattle.std.specs.Prelude.{◌≡◌, ◌^◌, Some, pos};
ghost use Rattle.bstr.specs.BStr.{bstr_bytes};
ghost use Rattle.config_text.specs.Value.{Reads};
ghost use Rattle.config_text.specs.Refusals.{ReadsOr};
ghost use Rattle.config_integer.specs.Suffix.{SuffixText, CanonicalSuffix, suffix_shown, factor, offset};
ghost use Rattle.config_integer.specs.Laws.Suffix.{suffix_one_value, suffix_one_text, suffix_decided};
ghost use Rattle.config_integer.specs.Laws.Suffix.{suffix_canonical_reads, suffix_shown_is_text};
ghost use Rattle.std.proofs.Common.{rules};
ghost use Rattle.config_text.specs.Json.{GivesJsonText};

use bstr::BStr;
use config_text::json::{JsonError, string};
use config_text::value::{CanonicalText, Value};
use serde_json::Value as JsonValue;
use std::alloc::Global;
use std::fmt;
use std::str::FromStr;

/// A unit: 1024, 1024 * 1024 or 1024 * 1024 * 1024.
///
/// The texts are `k`, `m` and `g` in either case, and the lower-case ones are canonical. Any other text, even
/// the empty one, is refused with `()`: docs/GRAMMAR.md, Suffixes.
///
/// ```rust
/// use gix_config_value::integer::Suffix;
/// use std::str::FromStr;
///
/// assert_eq!(rt; Suffix::from_str("K"), Ok(Suffix::Kibi));
/// assert_eq!(rt; Suffix::from_str("kb"), Err(()));
/// assert_eq!(rt; Suffix::Kibi.bitwise_offset(), 10); // 1024 is 2 to the power of 10
/// ```
#[derive(Clone, Copy, PartialEq, Eq, PartialOrd, Ord, Hash, Debug)]
pub enum Suffix {
    /// `k`, the factor 1024.
    Kibi,
    /// `m`, the factor 1048576.
    Mebi,
    /// `g`, the factor 1073741824.
    Gibi,
}

/// Reads the text, or returns `None` if it is not a suffix text.
pub(crate) fn suffix_of(text: &[u8]) -> Option<Suffix>
    ensures { Reads SuffixText text.now result }
{
    match text {
        [b'k' | b'K'] => Some(Suffix::Kibi),
        [b'm' | b'M'] => Some(Suffix::Mebi),
        [b'g' | b'G'] => Some(Suffix::Gibi),
        _ => None,
    }
}

impl Suffix {
    /// Returns the exponent of the power of 2 that the suffix multiplies by: 10, 20 or 30.
    pub fn bitwise_offset(self) -> usize
        ensures offset { result ≡ offset self }
        ensures power { 2 ^ result ≡ factor self }
    {
        match self {
            Suffix::Kibi => 10,
            Suffix::Mebi => 20,
            Suffix::Gibi => 30,
        }
    }

    /// Returns the number that the suffix multiplies by.
    pub(crate) fn factor(self) -> i64
        ensures { result ≡ pos (factor self) }
    {
        match self {
            Suffix::Kibi => 1024,
            Suffix::Mebi => 1_048_576,
            Suffix::Gibi => 1_073_741_824,
        }
    }

    /// Returns the letter that the suffix is shown as.
    pub(crate) fn letter(self) -> &'static str
        ensures { result.now ≡ suffix_shown self }
    {
        match self {
            Suffix::Kibi => "k",
            Suffix::Mebi => "m",
            Suffix::Gibi => "g",
        }
    }
}

impl FromStr for Suffix {
    type Err = ();

    ghost from_str_gives = { λ s r. ReadsOr SuffixText (λ _. Unit {0}) s r };

    /// Reads the text, or returns `()` if it is not a suffix text.
    fn from_str(text: &str) -> Result<Suffix, ()> {
        suffix_of(text.as_bytes()).ok_or(())
    }
}

impl<'a> TryFrom<BStr<'a>> for Suffix {
    type Error = ();

    ghost try_from_gives = { λ s r. ReadsOr SuffixText (λ _. Unit {0}) (bstr_bytes s) r };

    /// Reads the input, or returns `()` if it is not a suffix text.
    fn try_from(input: BStr<'a>) -> Result<Suffix, ()> {
        suffix_of(input.as_bytes()).ok_or(())
    }
}

impl Suffix {
    /// Returns the letter `k`, `m` or `g` as a JSON string. Fails with `JsonError::Memory` if memory runs
    /// out.
    pub fn to_json(&self, alloc: Global) -> Result<JsonValue, JsonError>
        ensures { GivesJsonText (suffix_shown self.now) result }
    {
        string(alloc, self.letter())
    }
}

impl fmt::Display for Suffix {
    ghost output = { λ s. Some (suffix_shown s) };

    /// Writes `k`, `m` or `g`.
    fn fmt<W: fmt::Write>(&self, f: &mut fmt::Formatter<W>) -> fmt::Result {
        f.write_str(self.letter())
    }
}

impl Value for Suffix {
    ghost grammar = { SuffixText };

    ghost canonical = { CanonicalSuffix };

    ghost displayed = { suffix_shown };

    /// Reads the input, or returns `None` if it is not a suffix text.
    fn read(input: BStr<'_>) -> Option<Suffix> {
        suffix_of(input.as_bytes())
    }

    /// Every suffix has a text.
    fn has_text(&self) -> bool {
        true
    }

    /// Writes `k`, `m` or `g`.
    fn write_to(&self, text: &mut CanonicalText) {
        text.push_str(self.letter());
    }

    ghost one_value = { suffix_one_value };

    ghost one_text = { suffix_one_text };

    ghost canonical_reads = { suffix_canonical_reads };

    ghost shown_is_text = { suffix_shown_is_text };

    ghost decided = { suffix_decided };

    ghost equal_is_same = { Prim.search rules };
}
