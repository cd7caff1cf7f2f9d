//! What it means for a text to be read as a value, and for a value to have one canonical text.
ghost use Rattle.std.specs.Prelude.{◌≡◌, ℕ, ◌↔◌, ◌⊎◌, List, [], IsTrue, Some, None, option_map, false};
ghost use Rattle.std.specs.Prelude.{if◌then◌else◌};
ghost use Rattle.bstr.specs.BStr.{bstr_bytes};
ghost use Rattle.config_text.specs.Value.{IsRefused, IsAccepted, HasText, Reads, IsTextOf};
ghost use Rattle.config_text.specs.Value.{HasMeaning, Means, Normalizes, Compares, longest_text};

use arrayvec::ArrayString;
use bstr::BStr;

/// The length in bytes of the longest canonical text: two of the longest names and the words of all
/// attributes, with one space between.
pub const LONGEST_TEXT: usize = 127;

/// A canonical text, in a buffer with room for the longest one.
pub type CanonicalText = ArrayString<LONGEST_TEXT>;

/// A kind of value: which texts read to which values, and which one of the texts of a value is canonical.
/// Callers may implement it for types of their own.
///
/// `read` takes any bytes, and returns `None` if they are not a text of the kind: docs/GRAMMAR.md has a
/// section for each kind. [`TryRead`](crate::readers::TryRead) says why a text is refused.
///
/// ```rust
/// use bstr::BStr;
/// use gix_config_value::Boolean;
/// use gix_config_value::canonical::Value;
///
/// let on = Boolean::read(BStr::from("ON")).ok_or("no boolean")?;
/// assert!(rt; on.has_text());
/// assert_eq!(rt; on.text().as_str(), "true"); // the canonical text
/// ```
pub trait Value: Copy + Eq {
    /// Which texts read to which values.
    ghost grammar: { List ℕ → Self → Type 0 };

    /// The canonical texts, defined without reference to how values are shown.
    ghost canonical: { List ℕ → Type 0 };

    /// How a value is shown.
    ghost displayed: { Self → List ℕ };

    /// Reads the input, or returns `None` if the grammar gives it no value.
    fn read(input: BStr<'_>) -> Option<Self>
        ensures { Reads grammar (bstr_bytes input.entry) result };

    /// Returns whether some text of the kind reads to this value.
    fn has_text(&self) -> bool
        ensures { IsTrue result ↔ (HasText grammar self.now) };

    /// Writes the only canonical text that reads to this value into an empty text. The value must have a
    /// text, as `has_text` tells.
    fn write_to(&self, text: &mut CanonicalText)
        requires value { HasText grammar self.now }
        requires empty { text.old.bytes ≡ [] }
        ensures { text.new.bytes ≡ displayed self.now };

    /// Returns the only canonical text that reads to this value, which is the text that it is shown as. The
    /// value must have a text, as `has_text` tells.
    fn text(&self) -> CanonicalText
        requires { HasText grammar self.now }
        ensures text { IsTextOf grammar canonical self.now result.bytes }
        ensures shown { result.bytes ≡ displayed self.now }
    {
        let mut text = CanonicalText::new();
        self.write_to(&mut text);
        text
    }

    // The laws that a kind has to prove.

    /// A text has at most one value.
    ghost one_value: { (t : List ℕ) (v w : Self) → grammar t v → grammar t w → v ≡ w };

    /// A value has at most one canonical text.
    ghost one_text: { (s t : List ℕ) (v : Self)
        → canonical s → canonical t → grammar s v → grammar t v → s ≡ t };

    /// Each canonical text has a value.
    ghost canonical_reads: { (t : List ℕ) → canonical t → IsAccepted grammar t };

    /// A value that has a text is shown as its canonical text, which reads back to the value.
    ghost shown_is_text: { (v : Self) → HasText grammar v → IsTextOf grammar canonical v (displayed v) };

    /// Each text is accepted or refused.
    ghost decided: { (t : List ℕ) → IsAccepted grammar t ⊎ IsRefused grammar t };

    /// `==` says whether two values are the same.
    ghost equal_is_same: { (v w : Self) → (IsTrue (Self.eq v w)) ↔ (v ≡ w) };
}

/// Returns the canonical text that has the same value as the input, or `None` if the input has no value. A
/// canonical input is returned byte for byte, by the law [`one_meaning`].
///
/// ```rust
/// use bstr::BStr;
/// use gix_config_value::Color;
/// use gix_config_value::canonical::normalize_as;
///
/// let text = normalize_as::<Color>(BStr::from("bold red ul blue")).ok_or("no color")?;
/// assert_eq!(rt; text.as_str(), "red blue bold ul");
/// ```
pub fn normalize_as<V: Value>(input: BStr<'_>) -> Option<CanonicalText>
    ensures { Normalizes V.grammar V.canonical (bstr_bytes input.entry)
        (option_map (λ text. text.bytes) result) }
{
    let value = V::read(input)?;
    Some(value.text())
}

/// Replaces the text by the canonical text that has the same value as the input, and returns whether the
/// input has a value. If it has no value, the text is left empty.
#[inline(always)]
pub fn normalize_into_as<V: Value>(input: BStr<'_>, text: &mut CanonicalText) -> bool
    ensures text { Normalizes V.grammar V.canonical (bstr_bytes input.entry)
        (if result then Some text.new.bytes else None) }
    ensures empty { result ≡ false → text.new.bytes ≡ [] }
{
    text.clear();
    match V::read(input) {
        Some(value) => {
            value.write_to(text);
            true
        }
        None => false,
    }
}

/// Returns whether two texts have the same value, or `None` if the type's grammar gives one of them no value.
pub fn same_as<V: Value>(a: BStr<'_>, b: BStr<'_>) -> Option<bool>
    ensures { Compares V.grammar (bstr_bytes a.entry) (bstr_bytes b.entry) result }
{
    let left = V::read(a)?;
    let right = V::read(b)?;
    Some(left == right)
}

/// Returns what the input means: its value, and the only canonical text that reads to this value. Both are
/// `None` if the input has no value. The text takes no allocation.
///
/// ```rust
/// use bstr::BStr;
/// use gix_config_value::Boolean;
/// use gix_config_value::laws::headline::meaning;
///
/// let (value, text) = meaning::<Boolean>(BStr::from("0x10"));
/// assert_eq!(rt; value, Some(Boolean(true)));
/// assert_eq!(rt; text.ok_or("no boolean")?.as_str(), "true");
/// ```
pub fn meaning<V: Value>(input: BStr<'_>) -> (Option<V>, Option<CanonicalText>)
    ensures { Means V.grammar V.canonical (bstr_bytes input.entry) result.0
        (option_map (λ text. text.bytes) result.1) }
{
    (V::read(input), normalize_as::<V>(input))
}

/// Values are equal exactly if their canonical texts are, so accepted texts mean the same exactly if their
/// normalized texts are equal. A text has at most one meaning, and a canonical text is its own normalized
/// text.
pub fn one_meaning<V: Value>()
    ensures values { (v w : V) (s t : List ℕ) → IsTextOf V.grammar V.canonical v s
        → IsTextOf V.grammar V.canonical w t → (v ≡ w) ↔ (s ≡ t) }
    ensures one { (text s t : List ℕ) (v w : V) → HasMeaning V.grammar V.canonical text v s
        → HasMeaning V.grammar V.canonical text w t → (v ≡ w) × (s ≡ t) }
    ensures unchanged { (s : List ℕ) → V.canonical s → (v : V) × HasMeaning V.grammar V.canonical s v s }
{}

/// [`LONGEST_TEXT`] is the bound that the definition of a value's text states.
pub fn longest_text()
    ensures { LONGEST_TEXT ≡ longest_text }
{}
