//! The kinds of value, as a choice made at run time.
ghost use Rattle.std.specs.Prelude.{◌≡◌, ◌≢◌, ◌↔◌, [], Some, None, MatchOption, IfSome, option_map};
ghost use Rattle.std.specs.Prelude.{IsTrue, if◌then◌else◌, false};
ghost use Rattle.bstr.specs.BStr.{bstr_bytes};
ghost use Rattle.gix_config_value.specs.Kinds.{kind_name, NamesKind, KindGrammar, KindCanonical};
ghost use Rattle.gix_config_value.specs.Kinds.{KindRefusal, WhyRefused, IsFaultOf};
ghost use Rattle.config_color.specs.Composition.{SameWords};
ghost use Rattle.config_text.specs.Value.{Normalizes, Compares};
ghost use Rattle.gix_config_value.specs.declared.kind.Kind as kind;
ghost use Rattle.gix_config_value.specs.declared.kind.Kind.TheVariants as kinds;

use crate::refusal::Refusal;
use bstr::BStr;
use config_boolean::boolean::Boolean;
use config_color::color::Color;
use config_integer::amount::Amount;
use config_integer::integer::Integer;
use config_integer::suffix::Suffix;
use config_text::readers::TryRead;
use config_text::value::{CanonicalText, Value, normalize_as, normalize_into_as, same_as};
use config_text::words::equals;
use config_word::attribute::Attribute;
use config_word::name::Name;
use std::fmt;
use std::str::FromStr;
use thiserror::Error;

/// A kind of value, chosen at run time. Paths are not a kind, since they have no canonical text.
///
/// ```rust
/// use gix_config_value::canonical::Kind;
///
/// assert_eq!(rt; Kind::ALL.len(), 7);
/// assert_eq!(rt; Kind::Color.name(), "color");
/// ```
#[derive(Clone, Copy, PartialEq, Eq, Debug)]
pub enum Kind {
    /// The units `k`, `m` and `g`.
    Suffix,
    /// Numbers with at most one suffix.
    Integer,
    /// Numbers whose product with their suffix fits `i64`.
    Amount,
    /// Truth values, as words or as numbers.
    Boolean,
    /// The names of colors.
    Name,
    /// The words of attributes, one at a time.
    Attribute,
    /// Colors: names of a foreground and a background, and attributes.
    Color,
}

impl Kind {
    /// All kinds, each once.
    pub const ALL: [Kind; 7] = [
        Kind::Suffix,
        Kind::Integer,
        Kind::Amount,
        Kind::Boolean,
        Kind::Name,
        Kind::Attribute,
        Kind::Color,
    ];

    /// Returns the name of the kind. A line of the program begins with this name.
    pub fn name(self) -> &'static str
        ensures { result.now ≡ kind_name self }
    {
        match self {
            Kind::Suffix => "suffix",
            Kind::Integer => "integer",
            Kind::Amount => "amount",
            Kind::Boolean => "boolean",
            Kind::Name => "name",
            Kind::Attribute => "attribute",
            Kind::Color => "color",
        }
    }
}

impl fmt::Display for Kind {
    ghost output = { λ kind. Some (kind_name kind) };

    /// The name of the kind.
    fn fmt<W: fmt::Write>(&self, f: &mut fmt::Formatter<W>) -> fmt::Result {
        f.write_str(self.name())
    }
}

/// The error for a text that is not the name of a kind. The names are the seven that [`Kind::name`] returns,
/// in lower case.
///
/// ```rust
/// use gix_config_value::canonical::{Kind, UnknownKind};
/// use std::str::FromStr;
///
/// assert_eq!(rt; Kind::from_str("path"), Err(UnknownKind)); // a path has no canonical text
/// ```
#[derive(Clone, Copy, PartialEq, Eq, Debug, Error)]
#[error("Kinds are suffix, integer, amount, boolean, name, attribute and color")]
pub struct UnknownKind;

impl FromStr for Kind {
    type Err = UnknownKind;

    ghost from_str_gives = { NamesKind };

    /// Returns the kind with exactly this name, in lower case, or `UnknownKind` if no kind has it.
    ///
    /// ```rust
    /// use gix_config_value::canonical::{Kind, UnknownKind};
    /// use std::str::FromStr;
    ///
    /// assert_eq!(rt; Kind::from_str("color"), Ok(Kind::Color));
    /// assert_eq!(rt; Kind::from_str("Color"), Err(UnknownKind));
    /// ```
    fn from_str(text: &str) -> Result<Kind, UnknownKind> {
        kind_by_name(text.as_bytes()).ok_or(UnknownKind)
    }
}

/// Returns the kind with exactly this name, or `None` if no kind has it.
pub(crate) fn kind_by_name(name: &[u8]) -> Option<Kind>
    ensures { MatchOption result ((k : kind.Kind) → kind_name k ≢ name.now)
        (λ k. kind_name k ≡ name.now) }
{
    if equals(name, b"suffix") {
        Some(Kind::Suffix)
    } else if equals(name, b"integer") {
        Some(Kind::Integer)
    } else if equals(name, b"amount") {
        Some(Kind::Amount)
    } else if equals(name, b"boolean") {
        Some(Kind::Boolean)
    } else if equals(name, b"name") {
        Some(Kind::Name)
    } else if equals(name, b"attribute") {
        Some(Kind::Attribute)
    } else if equals(name, b"color") {
        Some(Kind::Color)
    } else {
        None
    }
}

/// Returns the canonical text of this kind that reads to the value of the input, or `None` exactly if the
/// kind's grammar gives the input no value. A canonical input is returned byte for byte. For color texts that
/// white space joins it is the text of their composition: [`laws::headline`](crate::laws::headline).
///
/// [`refusal`] says why an input is refused. docs/GRAMMAR.md has a section for each kind.
///
/// ```rust
/// use bstr::BStr;
/// use gix_config_value::canonical::{Kind, normalize};
///
/// let text = normalize(Kind::Integer, BStr::from("0x10K")).ok_or("no integer")?;
/// assert_eq!(rt; text.as_str(), "16k");
/// assert_eq!(rt; normalize(Kind::Integer, BStr::from("0x10kb")), None);
/// ```
pub fn normalize(kind: Kind, input: BStr<'_>) -> Option<CanonicalText>
    ensures { Normalizes (KindGrammar kind) (KindCanonical kind) (bstr_bytes input.entry)
        (option_map (λ text. text.bytes) result) }
{
    match kind {
        Kind::Suffix => normalize_as::<Suffix>(input),
        Kind::Integer => normalize_as::<Integer>(input),
        Kind::Amount => normalize_as::<Amount>(input),
        Kind::Boolean => normalize_as::<Boolean>(input),
        Kind::Name => normalize_as::<Name>(input),
        Kind::Attribute => normalize_as::<Attribute>(input),
        Kind::Color => normalize_as::<Color>(input),
    }
}

/// Replaces the text by the canonical text of this kind that reads to the value of the input. Returns whether
/// the kind's grammar gives the input a value; if it gives no value, the text is left empty. It does what
/// `normalize` does, but does not copy the text.
#[inline(always)]
pub fn normalize_into(kind: Kind, input: BStr<'_>, text: &mut CanonicalText) -> bool
    ensures text { Normalizes (KindGrammar kind) (KindCanonical kind) (bstr_bytes input.entry)
        (if result then Some text.new.bytes else None) }
    ensures empty { result ≡ false → text.new.bytes ≡ [] }
{
    match kind {
        Kind::Suffix => normalize_into_as::<Suffix>(input, text),
        Kind::Integer => normalize_into_as::<Integer>(input, text),
        Kind::Amount => normalize_into_as::<Amount>(input, text),
        Kind::Boolean => normalize_into_as::<Boolean>(input, text),
        Kind::Name => normalize_into_as::<Name>(input, text),
        Kind::Attribute => normalize_into_as::<Attribute>(input, text),
        Kind::Color => normalize_into_as::<Color>(input, text),
    }
}

/// Returns why the reader of a type refuses a text, or `None` if the text has a value.
fn refusal_as<V: TryRead>(input: BStr<'_>) -> Option<Refusal>
    ensures { WhyRefused V.grammar (IsFaultOf (V.refusal (bstr_bytes input.entry)))
        (bstr_bytes input.entry) result }
{
    match V::try_read(input.as_bytes()) {
        Ok(_) => None,
        Err(fault) => Some(Refusal::Fault(fault)),
    }
}

/// Returns why a text has no value of this kind, or `None` exactly if it has a value.
///
/// ```rust
/// use bstr::BStr;
/// use gix_config_value::Fault;
/// use gix_config_value::canonical::{Kind, Refusal, refusal};
///
/// let why = refusal(Kind::Amount, BStr::from("10 m"));
/// assert_eq!(rt; why, Some(Refusal::Fault(Fault::Integer)));
/// assert_eq!(rt; refusal(Kind::Suffix, BStr::from("kb")), Some(Refusal::Suffix));
/// assert_eq!(rt; refusal(Kind::Amount, BStr::from("10m")), None);
/// ```
pub fn refusal(kind: Kind, input: BStr<'_>) -> Option<Refusal>
    ensures { WhyRefused (KindGrammar kind) (KindRefusal kind (bstr_bytes input.entry))
        (bstr_bytes input.entry) result }
{
    match kind {
        Kind::Suffix => match Suffix::read(input) {
            Some(_) => None,
            None => Some(Refusal::Suffix),
        },
        Kind::Integer => refusal_as::<Integer>(input),
        Kind::Amount => refusal_as::<Amount>(input),
        Kind::Boolean => refusal_as::<Boolean>(input),
        Kind::Name => refusal_as::<Name>(input),
        Kind::Attribute => refusal_as::<Attribute>(input),
        Kind::Color => refusal_as::<Color>(input),
    }
}

/// Returns whether two texts of this kind mean the same, or `None` exactly if the kind's grammar gives one of
/// them no value. Two color texts mean the same exactly if their words have the same names in the same order,
/// and attributes of the same bits.
///
/// ```rust
/// use bstr::BStr;
/// use gix_config_value::canonical::{Kind, same};
///
/// let (a, b) = (BStr::from("red ul"), BStr::from("ul RED"));
/// assert_eq!(rt; same(Kind::Color, a, b), Some(true));
/// assert_eq!(rt; same(Kind::Color, a, BStr::from("rde ul")), None);
/// ```
pub fn same(kind: Kind, a: BStr<'_>, b: BStr<'_>) -> Option<bool>
    ensures answer { Compares (KindGrammar kind) (bstr_bytes a.entry) (bstr_bytes b.entry) result }
    ensures words { kind ≡ kinds.Color
        → IfSome result (λ same. IsTrue same ↔ (SameWords (bstr_bytes a.entry) (bstr_bytes b.entry))) }
{
    match kind {
        Kind::Suffix => same_as::<Suffix>(a, b),
        Kind::Integer => same_as::<Integer>(a, b),
        Kind::Amount => same_as::<Amount>(a, b),
        Kind::Boolean => same_as::<Boolean>(a, b),
        Kind::Name => same_as::<Name>(a, b),
        Kind::Attribute => same_as::<Attribute>(a, b),
        Kind::Color => same_as::<Color>(a, b),
    }
}
