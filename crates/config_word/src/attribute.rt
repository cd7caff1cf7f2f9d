//! Sets of text attributes.
ghost use Rattle.std.specs.Prelude.{MatchOption, ⊤, ◌≡◌, ◌+◌, ◌≤◌, ◌++◌, ◌↔◌, List, ℕ, length, map, IsTrue, Some};
ghost use Rattle.config_text.specs.declared.errors.Fault.TheVariants as faults;
ghost use Rattle.config_word.specs.Attribute.{AttributeText, CanonicalAttribute, attribute_flags};
ghost use Rattle.config_word.specs.Attribute.{attribute_shown, HasOpposites};
ghost use Rattle.config_word.specs.Laws.Attribute.{attribute_canonical_reads, attribute_decided};
ghost use Rattle.config_word.specs.Laws.Attribute.{attribute_one_text, attribute_one_value};
ghost use Rattle.config_word.specs.Laws.Attribute.{attribute_shown_is_text};
ghost use Rattle.config_word.specs.Reading.Attribute.{remaining, shown_row, shown_rows, words_in};
ghost use Rattle.config_word.specs.Reading.Attribute.{opposite_row, opposite_rows};
ghost use Rattle.config_text.specs.Refusals.{OnlyFault, ReadsBytes, ReadsFault};
ghost use Rattle.config_text.specs.Value.{HasText, IsTextOf, Reads};
ghost use Rattle.std.proofs.Common.{rules};
ghost use Rattle.config_text.specs.Json.{GivesJsonText};

use crate::item::Item;
use crate::name::LONGEST_NAME;
use crate::words::known_word;
use bitflags::{Flag, Flags, bitflag_items};
use bstr::BStr;
use config_text::errors::{Error, Fault};
use config_text::json::{JsonError, string};
use config_text::readers::{TryRead, read_bytes};
use config_text::value::{CanonicalText, LONGEST_TEXT, Value};
use serde_json::Value as JsonValue;
use std::alloc::Global;
use std::fmt;
use std::str::FromStr;

/// A set of attributes, such as bold or not underlined. Each attribute is one bit; bits that have
/// no constant are kept.
///
/// A text is one word, such as `bold`, `noul` or `no-ul`, and reads to the set with this one bit. Words are
/// read in lower case only, except `reset`, which is read in any case. Any other text is refused with
/// `Fault::Color`, and so are two words.
///
/// A set is shown as the words of its known bits. It has a text exactly if only one bit is set and this bit
/// is known; its word is then canonical: docs/GRAMMAR.md, Attributes.
///
/// ```rust
/// use gix_config_value::Fault;
/// use gix_config_value::color::Attribute;
/// use std::str::FromStr;
///
/// assert_eq!(rt; Attribute::from_str("no-ul"), Ok(Attribute::NO_UL));
/// assert_eq!(rt; Attribute::from_str("Bold"), Err(Fault::Color)); // lower case only, but `reset`
/// let set = Attribute::BOLD | Attribute::UL;
/// assert_eq!(rt; set.shown().as_str(), "bold ul");
/// ```
#[derive(Clone, Copy, PartialEq, Eq, PartialOrd, Ord, Hash, Debug, Default)]
pub struct Attribute(u32);

bitflag_items! {
    impl Attribute: u32 {
        /// Bold.
        const BOLD = 1 << 1;
        /// Dimmed.
        const DIM = 1 << 2;
        /// Italic.
        const ITALIC = 1 << 3;
        /// Underlined.
        const UL = 1 << 4;
        /// Blinking.
        const BLINK = 1 << 5;
        /// Reverse video: foreground and background change places.
        const REVERSE = 1 << 6;
        /// Struck through.
        const STRIKE = 1 << 7;
        /// Clears all earlier attributes.
        const RESET = 1 << 8;
        /// Not dimmed.
        const NO_DIM = 1 << 21;
        /// Not bold.
        const NO_BOLD = 1 << 22;
        /// Not italic.
        const NO_ITALIC = 1 << 23;
        /// Not underlined.
        const NO_UL = 1 << 24;
        /// Not blinking.
        const NO_BLINK = 1 << 25;
        /// Not reversed.
        const NO_REVERSE = 1 << 26;
        /// Not struck through.
        const NO_STRIKE = 1 << 27;
    }
}

impl Flags for Attribute {
    type Bits = u32;

    ghost exact = { ⊤ };

    ghost table = { attribute_flags };

    ghost set_of = { λ a. a.0 };

    /// Returns the constants with their names, by rising bit.
    fn flags<'a>() -> &'a [Flag<Attribute>] {
        Attribute::FLAGS
    }

    /// Returns the set as a number, each bit of which is an attribute.
    fn bits(&self) -> u32 {
        self.0
    }

    /// Returns the set of these bits, including those that have no constant.
    fn from_bits_retain(bits: u32) -> Attribute {
        Attribute(bits)
    }
}

/// A constant, the word that it is shown as, and its opposite: the empty set if it has none.
#[derive(Clone, Copy)]
struct Shown {
    attribute: Attribute,
    word: &'static str,
    opposite: Attribute,
}

macro_rules! shown {
    ($attribute:ident, $word:expr) => {
        Shown { attribute: Attribute::$attribute, word: $word, opposite: Attribute(0) }
    };
    ($attribute:ident, $word:expr, $opposite:ident) => {
        Shown { attribute: Attribute::$attribute, word: $word, opposite: Attribute::$opposite }
    };
}

/// The constants, the words that they are shown as, and their opposites, by rising bit.
const SHOWN: &[Shown] = &[
    shown!(BOLD, "bold", NO_BOLD),
    shown!(DIM, "dim", NO_DIM),
    shown!(ITALIC, "italic", NO_ITALIC),
    shown!(UL, "ul", NO_UL),
    shown!(BLINK, "blink", NO_BLINK),
    shown!(REVERSE, "reverse", NO_REVERSE),
    shown!(STRIKE, "strike", NO_STRIKE),
    shown!(RESET, "reset"),
    shown!(NO_DIM, "nodim", DIM),
    shown!(NO_BOLD, "nobold", BOLD),
    shown!(NO_ITALIC, "noitalic", ITALIC),
    shown!(NO_UL, "noul", UL),
    shown!(NO_BLINK, "noblink", BLINK),
    shown!(NO_REVERSE, "noreverse", REVERSE),
    shown!(NO_STRIKE, "nostrike", STRIKE),
];

/// Returns the constants, the words that they are shown as, and their opposites, by rising bit.
fn shown_words() -> &'static [Shown]
    ensures words { map shown_row result.now ≡ shown_rows }
    ensures opposites { map opposite_row result.now ≡ opposite_rows }
{
    SHOWN
}

/// How many rows one loop shows. The compiler unrolls a loop over eight rows, and knows the length of each
/// copy, but it does not unroll a loop over all rows.
const HALF: usize = 8;

/// The length in bytes of all words of [`SHOWN`] with one space between. It is the length of the longest text
/// without two of the longest names and a space after each.
pub const LONGEST_SET: usize = LONGEST_TEXT - 2 * (LONGEST_NAME + 1);

impl Attribute {
    /// Appends the words of the rows that are in the set, with a space before each; if `begins` is true, the
    /// first word has no space before it. Returns whether the next word is still the first.
    #[inline(always)]
    fn push_words(self, rows: &[Shown], begins: bool, text: &mut CanonicalText) -> bool
        requires { length text.old.bytes
            + length (remaining begins (words_in self.0 (map shown_row rows.now))) ≤ LONGEST_TEXT }
        ensures { (later : List (List ℕ)) → text.new.bytes ++ remaining result later
            ≡ text.old.bytes ++ remaining begins (words_in self.0 (map shown_row rows.now) ++ later) }
    {
        let mut is_first = begins;
        for shown in rows {
            if self.contains(shown.attribute) {
                if !is_first {
                    text.push_str(" ");
                }
                text.push_str(shown.word);
                is_first = false;
            }
        }
        is_first
    }

    /// Returns the word that the set is shown as if it is one of the constants, and otherwise `None`.
    #[inline(always)]
    pub fn word(self) -> Option<&'static str>
        ensures { MatchOption result (¬ (HasText AttributeText self))
            (λ word. word.now ≡ attribute_shown self.0) }
    {
        for shown in shown_words() {
            if shown.attribute == self {
                return Some(shown.word);
            }
        }
        None
    }

    /// Appends the words of the known bits that are set, by rising bit, with one space between. There must be
    /// room for `LONGEST_SET` bytes. Colors use it to append their attributes.
    #[inline(always)]
    pub fn push_to(self, text: &mut CanonicalText)
        requires { length text.old.bytes + LONGEST_SET ≤ LONGEST_TEXT }
        ensures { text.new.bytes ≡ text.old.bytes ++ attribute_shown self.0 }
    {
        let (first, second) = shown_words().split_at(HALF);
        let is_first = self.push_words(first, true, text);
        self.push_words(second, is_first, text);
    }

    /// Returns the set as it is shown: the words of its known bits, by rising bit, with one space between, in
    /// at most `LONGEST_SET` bytes.
    pub fn shown(self) -> CanonicalText
        ensures bytes { result.bytes ≡ attribute_shown self.0 }
        ensures text { HasText AttributeText self
            → IsTextOf AttributeText CanonicalAttribute self result.bytes }
    {
        let mut text = CanonicalText::new();
        self.push_to(&mut text);
        text
    }

    /// Returns the opposites of the constants that are in the set, as `NO_BOLD` for `BOLD`, and `BOLD` for
    /// `NO_BOLD`. `RESET` has none, nor has a bit without a constant.
    pub fn opposites(self) -> Attribute
        ensures { HasOpposites self.0 result }
    {
        let mut opposites = Attribute::empty();
        for shown in shown_words() {
            if self.contains(shown.attribute) {
                opposites = opposites.union(shown.opposite);
            }
        }
        opposites
    }

    /// Returns whether the set is one of the constants. No other set has a text.
    fn is_constant(self) -> bool
        ensures { IsTrue result ↔ (HasText AttributeText self) }
    {
        for shown in shown_words() {
            if shown.attribute == self {
                return true;
            }
        }
        false
    }
}

/// Reads the text, or returns `None` if it is not an attribute text.
fn attribute_of(text: &[u8]) -> Option<Attribute>
    ensures { Reads AttributeText text.now result }
{
    match known_word(text)? {
        Item::Attribute(attribute) => Some(attribute),
        Item::Name(_) => None,
    }
}

impl TryRead for Attribute {
    ghost refusal = { OnlyFault faults.Color };

    /// Reads the text, or returns `Fault::Color` if it is not an attribute text.
    fn try_read(text: &[u8]) -> Result<Attribute, Fault> {
        attribute_of(text).ok_or(Fault::Color)
    }
}

impl FromStr for Attribute {
    type Err = Fault;

    ghost from_str_gives = { ReadsFault AttributeText (OnlyFault faults.Color) };

    /// Reads the text, or returns `Fault::Color` if it is not an attribute text.
    fn from_str(text: &str) -> Result<Attribute, Fault> {
        Attribute::try_read(text.as_bytes())
    }
}

impl<'a> TryFrom<BStr<'a>> for Attribute {
    type Error = Error<'a>;

    ghost try_from_gives = { ReadsBytes AttributeText (OnlyFault faults.Color) };

    /// Reads the input, or returns `Fault::Color` with the whole input.
    fn try_from(input: BStr<'a>) -> Result<Attribute, Error<'a>> {
        read_bytes(input)
    }
}

impl Attribute {
    /// Returns the shown text as a JSON string. Fails with `JsonError::Memory` if memory runs out; an empty
    /// text takes no memory.
    pub fn to_json(&self, alloc: Global) -> Result<JsonValue, JsonError>
        ensures { GivesJsonText (attribute_shown self.now.0) result }
    {
        let words = self.shown();
        string(alloc, words.as_str())
    }
}

impl fmt::Display for Attribute {
    ghost output = { λ a. Some (attribute_shown a.0) };

    /// Writes the words of the known bits that are set, by rising bit, with one space between.
    fn fmt<W: fmt::Write>(&self, f: &mut fmt::Formatter<W>) -> fmt::Result {
        f.write_str(self.shown().as_str())
    }
}

impl Value for Attribute {
    ghost grammar = { AttributeText };

    ghost canonical = { CanonicalAttribute };

    ghost displayed = { λ a. attribute_shown a.0 };

    /// Reads the input, or returns `None` if it is not an attribute text.
    fn read(input: BStr<'_>) -> Option<Attribute> {
        attribute_of(input.as_bytes())
    }

    /// Returns whether exactly one bit is set, and that bit has a constant.
    fn has_text(&self) -> bool {
        self.is_constant()
    }

    /// Writes the word of the one bit that is set.
    #[inline(always)]
    fn write_to(&self, text: &mut CanonicalText) {
        self.push_to(text);
    }

    ghost one_value = { attribute_one_value };

    ghost one_text = { attribute_one_text };

    ghost canonical_reads = { attribute_canonical_reads };

    ghost shown_is_text = { attribute_shown_is_text };

    ghost decided = { attribute_decided };

    ghost equal_is_same = { Prim.search rules };
}
