//! The headline of the library, stated once for each kind: which texts are read, with which value, and its
//! one canonical text. `Headline` of specs/Headline.antt states it with no words of the library except the
//! grammars.
ghost use Rattle.std.specs.Prelude.{◌≡◌, ◌++◌, ℕ, List, option_map};
ghost use Rattle.bstr.specs.BStr.{bstr_bytes};
ghost use Rattle.gix_config_value.specs.Suffix.{SuffixText, CanonicalSuffix};
ghost use Rattle.gix_config_value.specs.Integer.{IntegerText, CanonicalInteger};
ghost use Rattle.gix_config_value.specs.Amount.{AmountText, CanonicalAmount};
ghost use Rattle.gix_config_value.specs.Boolean.{BooleanText, CanonicalBoolean};
ghost use Rattle.gix_config_value.specs.Name.{NameText, CanonicalName};
ghost use Rattle.gix_config_value.specs.Attribute.{AttributeText, CanonicalAttribute};
ghost use Rattle.gix_config_value.specs.Color.{ColorText, CanonicalColor};
ghost use Rattle.gix_config_value.specs.Space.{Space};
ghost use Rattle.uses.specs.Headline.{Headline, JoinedHeadline};

use bstr::BStr;
use gix_config_value::Boolean;
use gix_config_value::canonical::{CanonicalText, Value, compose};
use gix_config_value::color::{Attribute, Color, Name};
use gix_config_value::integer::{Amount, Integer, Suffix};
use gix_config_value::laws::headline::{joined, meaning, one_meaning};

/// The value of a text of any kind and its canonical text, or `None` for both if the text is refused.
pub fn value_and_text<V: Value>(input: BStr<'_>) -> (Option<V>, Option<CanonicalText>)
    ensures { Headline V.grammar V.canonical (bstr_bytes input.entry) result.0
        (option_map (λ text. text.bytes) result.1) }
{
    one_meaning::<V>();
    meaning::<V>(input)
}

/// The value and the canonical text of a suffix.
pub fn suffix(input: BStr<'_>) -> (Option<Suffix>, Option<CanonicalText>)
    ensures { Headline SuffixText CanonicalSuffix (bstr_bytes input.entry) result.0
        (option_map (λ text. text.bytes) result.1) }
{
    value_and_text::<Suffix>(input)
}

/// The value and the canonical text of an integer.
pub fn integer(input: BStr<'_>) -> (Option<Integer>, Option<CanonicalText>)
    ensures { Headline IntegerText CanonicalInteger (bstr_bytes input.entry) result.0
        (option_map (λ text. text.bytes) result.1) }
{
    value_and_text::<Integer>(input)
}

/// The value and the canonical text of an amount.
pub fn amount(input: BStr<'_>) -> (Option<Amount>, Option<CanonicalText>)
    ensures { Headline AmountText CanonicalAmount (bstr_bytes input.entry) result.0
        (option_map (λ text. text.bytes) result.1) }
{
    value_and_text::<Amount>(input)
}

/// The value and the canonical text of a boolean.
pub fn boolean(input: BStr<'_>) -> (Option<Boolean>, Option<CanonicalText>)
    ensures { Headline BooleanText CanonicalBoolean (bstr_bytes input.entry) result.0
        (option_map (λ text. text.bytes) result.1) }
{
    value_and_text::<Boolean>(input)
}

/// The value and the canonical text of a color name.
pub fn name(input: BStr<'_>) -> (Option<Name>, Option<CanonicalText>)
    ensures { Headline NameText CanonicalName (bstr_bytes input.entry) result.0
        (option_map (λ text. text.bytes) result.1) }
{
    value_and_text::<Name>(input)
}

/// The value and the canonical text of an attribute.
pub fn attribute(input: BStr<'_>) -> (Option<Attribute>, Option<CanonicalText>)
    ensures { Headline AttributeText CanonicalAttribute (bstr_bytes input.entry) result.0
        (option_map (λ text. text.bytes) result.1) }
{
    value_and_text::<Attribute>(input)
}

/// The value and the canonical text of a color.
pub fn color(input: BStr<'_>) -> (Option<Color>, Option<CanonicalText>)
    ensures { Headline ColorText CanonicalColor (bstr_bytes input.entry) result.0
        (option_map (λ text. text.bytes) result.1) }
{
    value_and_text::<Color>(input)
}

/// The color of a text. The contract states it for each way to split the text at white space.
pub fn color_of_joined(joined_texts: BStr<'_>) -> Option<Color>
    ensures { (front space back : List ℕ) → Space space
        → bstr_bytes joined_texts.entry ≡ front ++ space ++ back → JoinedHeadline front back result }
{
    joined();
    Color::read(joined_texts)
}

/// The color of two texts that are read one by one and composed, as if white space joined them. `compose` asks
/// for no proof that the colors have texts.
///
/// ```rust
/// use bstr::BStr;
/// use uses::headline::color_of_both;
///
/// let both = |front, back| color_of_both(BStr::from(front), BStr::from(back));
/// let color = both("bold red", "ul blue").ok_or("no color")?;
/// assert_eq!(rt; color.shown().as_str(), "red blue bold ul");
/// assert!(rt; both("red blue", "green").is_none());
/// assert!(rt; both("red", "Bold").is_none());
/// ```
pub fn color_of_both(front: BStr<'_>, back: BStr<'_>) -> Option<Color>
    ensures { JoinedHeadline (bstr_bytes front.entry) (bstr_bytes back.entry) result }
{
    compose(Color::read(front)?, Color::read(back)?)
}
