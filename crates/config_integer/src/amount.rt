//! Integer texts, read as their product.
ghost use Rattle.std.specs.Prelude.{Some};
ghost use Rattle.bstr.specs.Owned.{bstring_bytes};
ghost use Rattle.std.specs.Cow.{cow_slice_items};
ghost use Rattle.std.proofs.Common.{rules};
ghost use Rattle.config_text.specs.Refusals.{ReadsFault, ReadsBytes, ReadsText, ReadsOwned};
ghost use Rattle.config_integer.specs.Amount.{AmountText, AmountFault, CanonicalAmount, amount_shown};
ghost use Rattle.config_integer.specs.Laws.Amount.{amount_one_value, amount_one_text, amount_decided};
ghost use Rattle.config_integer.specs.Laws.Amount.{amount_canonical_reads, amount_shown_is_text};

use crate::integer::scan;
use bstr::{BStr, BString};
use config_text::errors::{Error, Fault, Returned};
use config_text::readers::{TryRead, read_bytes, read_cow, read_owned, read_text};
use config_text::value::{CanonicalText, Value};
use itoa::Buffer;
use std::borrow::CowSlice;
use std::fmt;
use std::str::FromStr;

/// The product of an integer text: `1k` and `1024` are the same amount.
///
/// It is from -9223372036854775808 to 9223372036854775807. A text that is not an integer text is refused with
/// `Fault::Integer`, and one whose product is out of this range with `Fault::Overflow`. The canonical text is
/// the number in decimal: docs/GRAMMAR.md, Amounts.
///
/// ```rust
/// use gix_config_value::integer::Amount;
///
/// assert_eq!(rt; Amount::try_from("16k")?, Amount(16384));
/// assert_eq!(rt; Amount::try_from("040000")?, Amount(16384)); // a leading 0 means base 8
/// ```
#[derive(Clone, Copy, PartialEq, Eq, PartialOrd, Ord, Hash, Debug, Default)]
pub struct Amount(pub i64);

impl TryRead for Amount {
    ghost refusal = { AmountFault };

    /// Reads the text, or returns `Fault::Integer` if it is not an integer text, or `Fault::Overflow` if its
    /// product does not fit `i64`.
    #[inline(always)]
    fn try_read(text: &[u8]) -> Result<Amount, Fault> {
        let Some(integer) = scan(text) else {
            return Err(Fault::Integer);
        };
        match integer.to_decimal() {
            Some(product) => Ok(Amount(product)),
            None => Err(Fault::Overflow),
        }
    }
}

impl FromStr for Amount {
    type Err = Fault;

    ghost from_str_gives = { ReadsFault AmountText AmountFault };

    /// Reads the text, or returns `Fault::Integer` if it is not an integer text, or `Fault::Overflow` if its
    /// product does not fit `i64`.
    fn from_str(text: &str) -> Result<Amount, Fault> {
        Amount::try_read(text.as_bytes())
    }
}

impl<'a> TryFrom<BStr<'a>> for Amount {
    type Error = Error<'a>;

    ghost try_from_gives = { ReadsBytes AmountText AmountFault };

    /// Reads the input, or returns the fault of `try_read` with the whole input.
    fn try_from(input: BStr<'a>) -> Result<Amount, Error<'a>> {
        read_bytes(input)
    }
}

impl<'a> TryFrom<&'a str> for Amount {
    type Error = Error<'a>;

    ghost try_from_gives = { λ s r. ReadsText AmountText AmountFault s.now r };

    /// Reads the input, or returns the fault of `try_read` with the whole input.
    fn try_from(input: &'a str) -> Result<Amount, Error<'a>> {
        read_text(input)
    }
}

impl TryFrom<BString> for Amount {
    type Error = Returned<BString>;

    ghost try_from_gives = { λ s r. ReadsOwned AmountText AmountFault (bstring_bytes s) s r };

    /// Reads the input, or returns the fault of `try_read` and hands the input back.
    fn try_from(input: BString) -> Result<Amount, Returned<BString>> {
        read_owned(input)
    }
}

impl<'a> TryFrom<CowSlice<'a, u8>> for Amount {
    type Error = Returned<CowSlice<'a, u8>>;

    ghost try_from_gives = { λ s r. ReadsOwned AmountText AmountFault (cow_slice_items s) s r };

    /// Reads the input, or returns the fault of `try_read` and hands the input back.
    fn try_from(input: CowSlice<'a, u8>) -> Result<Amount, Returned<CowSlice<'a, u8>>> {
        read_cow(input)
    }
}

impl fmt::Display for Amount {
    ghost output = { λ v. Some (amount_shown v) };

    /// Writes the number in decimal.
    fn fmt<W: fmt::Write>(&self, f: &mut fmt::Formatter<W>) -> fmt::Result {
        f.write_str(Buffer::new().format(self.0))
    }
}

impl Value for Amount {
    ghost grammar = { AmountText };

    ghost canonical = { CanonicalAmount };

    ghost displayed = { amount_shown };

    /// Reads the input, or returns `None` if it is not an integer text or its product does not fit `i64`.
    fn read(input: BStr<'_>) -> Option<Amount> {
        Amount::try_read(input.as_bytes()).ok()
    }

    /// Every amount has a text.
    fn has_text(&self) -> bool {
        // Reading the field tells the prover its range.
        let _number = self.0;
        true
    }

    /// Writes the number in decimal, in at most 20 bytes.
    fn write_to(&self, text: &mut CanonicalText) {
        text.push_str(Buffer::new().format(self.0));
    }

    ghost one_value = { amount_one_value };

    ghost one_text = { amount_one_text };

    ghost canonical_reads = { amount_canonical_reads };

    ghost shown_is_text = { amount_shown_is_text };

    ghost decided = { amount_decided };

    ghost equal_is_same = { Prim.search rules };
}
