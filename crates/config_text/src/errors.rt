//! Why a text is refused, and the input that is given back with it.
ghost use Rattle.std.specs.Prelude.{◌≡◌};
ghost use Rattle.config_text.specs.Faults.{fault_text};

use bstr::BStr;
use thiserror::Error as ThisError;

/// Why a reader refuses a text. A fault is always about the text, and never about memory.
///
/// Booleans are refused with `Boolean`, integers with `Integer`, and names, attributes and colors with
/// `Color`. Amounts are refused with `Integer` or `Overflow`, and `Integer::from_bytes` with `Integer`,
/// `Overflow` or `OutOfRange`: the first that applies. docs/GRAMMAR.md has the texts of each kind.
///
/// ```rust
/// use gix_config_value::Fault;
/// use gix_config_value::integer::Amount;
/// use std::str::FromStr;
///
/// assert_eq!(rt; Amount::from_str("1kk"), Err(Fault::Integer));
/// assert_eq!(rt; Amount::from_str("8589934592g"), Err(Fault::Overflow)); // 2 to the power of 63
/// ```
#[derive(Clone, Copy, PartialEq, Eq, Debug, ThisError)]
#[error("{}", self.text())]
pub enum Fault {
    /// The text is not a boolean text: docs/GRAMMAR.md, Booleans.
    Boolean,
    /// The text is not an integer text: docs/GRAMMAR.md, Integers.
    Integer,
    /// The text is an integer text, but the product of number and suffix does not fit `i64`: docs/GRAMMAR.md,
    /// Amounts.
    Overflow,
    /// The product fits `i64`, but the conversion to the caller's type refuses it.
    OutOfRange,
    /// The text is not a name, attribute or color text: docs/GRAMMAR.md, Colors.
    Color,
}

/// The text of `Fault::Integer`, which is word for word the text of the Rust crate.
const INTEGER_TEXT: &str =
    "Integers needs to be positive or negative numbers which may have a suffix like 1k, 42, or 50G";

impl Fault {
    /// Returns what `Display` prints, a different text for each fault. The texts are those of the Rust crate,
    /// except that `OutOfRange` names no type here. They name the kind, and not what is wrong in the text.
    ///
    /// ```rust
    /// use gix_config_value::Fault;
    ///
    /// assert_eq!(rt; Fault::OutOfRange.text(), "integer is out of range");
    /// ```
    pub fn text(self) -> &'static str
        ensures { result.now ≡ fault_text self }
    {
        match self {
            Fault::Boolean =>
                "Booleans need to be 'no', 'off', 'false', '' or 'yes', 'on', 'true' or any number",
            Fault::Integer => INTEGER_TEXT,
            Fault::Overflow => "integer suffix multiplication overflows `i64`",
            Fault::OutOfRange => "integer is out of range",
            Fault::Color =>
                "Colors are specific color values and their attributes, like 'brightred', or 'blue'",
        }
    }
}

/// A refusal of a borrowed text: the fault, and the whole input.
///
/// Each `TryFrom` of a `&str` or a `BStr` returns it, except for suffixes, and so does `Integer::from_bytes`.
/// It is not an error type and has no text. Its [`Fault`] is an error type, and `?` converts the refusal to
/// it.
///
/// ```rust
/// use bstr::BStr;
/// use gix_config_value::{Color, Error, Fault};
///
/// let input = BStr::from("bold rde");
/// let fault = Fault::Color;
/// assert_eq!(rt; Color::try_from("bold rde"), Err(Error { fault, input }));
/// ```
#[derive(Clone, Copy, PartialEq, Eq, Debug)]
pub struct Error<'a> {
    /// Why the text is refused.
    pub fault: Fault,
    /// The whole input.
    pub input: BStr<'a>,
}

/// A refusal of an input that is or may be owned: the fault, and the input, which is handed back.
///
/// The readers of `BString` and `CowSlice` return it, and copy nothing. It is not an error type and has no
/// text. Its [`Fault`] is an error type, and `?` converts the refusal to it and drops the input.
///
/// ```rust
/// use bstr::BString;
/// use gix_config_value::{Color, Fault};
///
/// let text = BString::from_slice(alloc, b"bold rde")?;
/// let returned = Color::try_from(text).err().ok_or("a color")?;
/// assert_eq!(rt; returned.fault, Fault::Color);
/// assert_eq!(rt; returned.input.as_bytes(), b"bold rde".as_slice()); // the text, handed back
/// ```
#[derive(PartialEq, Eq, Debug, Drop)]
pub struct Returned<V> {
    /// Why the text is refused.
    pub fault: Fault,
    /// The whole input.
    pub input: V,
}

impl<'a> From<Error<'a>> for Fault {
    ghost from_gives = { λ error fault. fault ≡ error.fault };

    /// Returns why the text was refused, so that `?` passes on a refusal of a borrowed text as a `Fault`.
    fn from(error: Error<'a>) -> Fault {
        error.fault
    }
}

impl<V: Drop> From<Returned<V>> for Fault {
    ghost from_gives = { λ returned fault. fault ≡ returned.fault };

    /// Returns why the text was refused, so that `?` passes on a refusal of an owned text as a `Fault`. The
    /// input is dropped.
    fn from(returned: Returned<V>) -> Fault {
        returned.fault
    }
}
