//! The names of colors.
ghost use Rattle.std.specs.Prelude.{◌≡◌, ◌+◌, ◌<◌, ◌≤◌, ◌∷◌, [], ◌++◌, length, Some, MatchOption};
ghost use Rattle.std.specs.Char.{digit_char};
ghost use Rattle.config_text.specs.declared.errors.Fault.TheVariants as faults;
ghost use Rattle.std.specs.List.{slice_get};
ghost use Rattle.config_word.specs.declared.name.Name.TheVariants as names;
ghost use Rattle.config_word.specs.Name.{NameText, CanonicalName, HasNumbers, name_shown, word_names};
ghost use Rattle.config_word.specs.Orders.{name_place};
ghost use Rattle.config_word.specs.Laws.Name.{name_canonical_reads, name_decided, name_one_text};
ghost use Rattle.config_word.specs.Laws.Name.{name_one_value, name_shown_is_text};
ghost use Rattle.config_text.specs.Refusals.{OnlyFault, ReadsBytes, ReadsFault};
ghost use Rattle.config_text.specs.Value.{IsTextOf, Reads};
ghost use Rattle.std.proofs.Common.{rules};
ghost use Rattle.config_text.specs.Json.{GivesJsonText};

use crate::item::{Item, word};
use crate::laws::texts::numbers_fit;
use bstr::BStr;
use config_text::errors::{Error, Fault};
use config_text::json::{JsonError, string};
use config_text::readers::{TryRead, read_bytes};
use config_text::value::{CanonicalText, LONGEST_TEXT, Value};
use itoa::Buffer;
use serde_json::Value as JsonValue;
use std::alloc::Global;
use std::fmt;
use std::str::FromStr;

/// A color's name: a word, a palette number, or red, green and blue.
///
/// The eighteen words are read in any case, and `-1` is read as `normal`. A palette number is 0 to 255, and a
/// `+` and zeros may come before it. Red, green and blue are written as `#` and six hexadecimal digits, or as
/// `#` and three, each of which is taken twice.
///
/// Any other text is refused with `Fault::Color`. The canonical text is the word in lower case, the number in
/// decimal, or `#` and six lower-case digits: docs/GRAMMAR.md, Color names.
///
/// ```rust
/// use gix_config_value::Fault;
/// use gix_config_value::color::Name;
/// use std::str::FromStr;
///
/// assert_eq!(rt; Name::from_str("BrightRed"), Ok(Name::BrightRed));
/// assert_eq!(rt; Name::from_str("208"), Ok(Name::Ansi(208)));
/// assert_eq!(rt; Name::from_str("#f80"), Ok(Name::Rgb(0xff, 0x88, 0x00)));
/// assert_eq!(rt; Name::from_str("256"), Err(Fault::Color));
/// ```
#[derive(Clone, Copy, PartialEq, Eq, PartialOrd, Ord, Hash, Debug)]
pub enum Name {
    /// `normal` or `-1`: the color is left as it is.
    Normal,
    /// `default`: the color that the terminal has by default.
    Default,
    /// `black`.
    Black,
    /// `brightblack`.
    BrightBlack,
    /// `red`.
    Red,
    /// `brightred`.
    BrightRed,
    /// `green`.
    Green,
    /// `brightgreen`.
    BrightGreen,
    /// `yellow`.
    Yellow,
    /// `brightyellow`.
    BrightYellow,
    /// `blue`.
    Blue,
    /// `brightblue`.
    BrightBlue,
    /// `magenta`.
    Magenta,
    /// `brightmagenta`.
    BrightMagenta,
    /// `cyan`.
    Cyan,
    /// `brightcyan`.
    BrightCyan,
    /// `white`.
    White,
    /// `brightwhite`.
    BrightWhite,
    /// The color of this number in the terminal's palette, 0 to 255.
    Ansi(u8),
    /// Red, green and blue, each 0 to 255.
    Rgb(u8, u8, u8),
}

/// The length in bytes of the longest word of a name, `brightmagenta`.
pub const LONGEST_NAME: usize = 13;

/// Returns the lower-case hexadecimal digit of a number below 16.
#[inline(always)]
fn digit_byte(number: u8) -> u8
    requires { number < 16 }
    ensures { result ≡ digit_char number }
{
    if number < 10 {
        b'0' + number
    } else {
        b'a' - 10 + number
    }
}

/// Returns red, green and blue as they are shown: `#` and two digits for each. A caller that writes bytes
/// needs no canonical text for them.
#[inline(always)]
pub fn rgb_bytes(red: u8, green: u8, blue: u8) -> [u8; 7]
    ensures { result ≡ name_shown (names.Rgb red green blue) }
{
    [
        b'#',
        digit_byte(red / 16),
        digit_byte(red % 16),
        digit_byte(green / 16),
        digit_byte(green % 16),
        digit_byte(blue / 16),
        digit_byte(blue % 16),
    ]
}

/// Appends a palette number. It is a function of its own, since a function clears the room of its buffers at
/// entry, and most names need none.
#[inline(never)]
fn push_palette(text: &mut CanonicalText, number: u8)
    requires { length text.old.bytes + LONGEST_NAME ≤ LONGEST_TEXT }
    ensures { text.new.bytes ≡ text.old.bytes ++ name_shown (names.Ansi number) }
{
    text.push_str(Buffer::new().format(number));
}

/// Appends red, green and blue, as a function of its own for the same reason.
#[inline(never)]
fn push_rgb(text: &mut CanonicalText, red: u8, green: u8, blue: u8)
    requires { length text.old.bytes + LONGEST_NAME ≤ LONGEST_TEXT }
    ensures { text.new.bytes ≡ text.old.bytes ++ name_shown (names.Rgb red green blue) }
{
    let bytes = rgb_bytes(red, green, blue);
    // the bytes are ASCII, so this never fails
    if let Ok(shown) = str::from_utf8(&bytes) {
        text.push_str(shown);
    }
}

impl Name {
    /// Returns the name's place in the order of declaration: 0 for `Normal` to 19 for `Rgb`.
    #[inline(always)]
    pub fn place(self) -> u8
        ensures { result ≡ name_place self }
    {
        match self {
            Name::Normal => 0,
            Name::Default => 1,
            Name::Black => 2,
            Name::BrightBlack => 3,
            Name::Red => 4,
            Name::BrightRed => 5,
            Name::Green => 6,
            Name::BrightGreen => 7,
            Name::Yellow => 8,
            Name::BrightYellow => 9,
            Name::Blue => 10,
            Name::BrightBlue => 11,
            Name::Magenta => 12,
            Name::BrightMagenta => 13,
            Name::Cyan => 14,
            Name::BrightCyan => 15,
            Name::White => 16,
            Name::BrightWhite => 17,
            Name::Ansi(_) => 18,
            Name::Rgb(_, _, _) => 19,
        }
    }

    /// Returns the name at this place in the order of declaration, or `None` if names at this place have
    /// numbers or there is no such place.
    #[inline(always)]
    #[tactic(auto, unfolding(crate::specs::Name::word_names))]
    pub fn at_place(place: u8) -> Option<Name>
        ensures { result ≡ slice_get word_names place }
    {
        match place {
            0 => Some(Name::Normal),
            1 => Some(Name::Default),
            2 => Some(Name::Black),
            3 => Some(Name::BrightBlack),
            4 => Some(Name::Red),
            5 => Some(Name::BrightRed),
            6 => Some(Name::Green),
            7 => Some(Name::BrightGreen),
            8 => Some(Name::Yellow),
            9 => Some(Name::BrightYellow),
            10 => Some(Name::Blue),
            11 => Some(Name::BrightBlue),
            12 => Some(Name::Magenta),
            13 => Some(Name::BrightMagenta),
            14 => Some(Name::Cyan),
            15 => Some(Name::BrightCyan),
            16 => Some(Name::White),
            17 => Some(Name::BrightWhite),
            _ => None,
        }
    }

    /// Returns the word that the name is shown as, or `None` if it is shown by its numbers.
    #[inline(always)]
    pub fn word(self) -> Option<&'static str>
        ensures { MatchOption result (HasNumbers self) (λ word. word.now ≡ name_shown self) }
    {
        match self {
            Name::Normal => Some("normal"),
            Name::Default => Some("default"),
            Name::Black => Some("black"),
            Name::BrightBlack => Some("brightblack"),
            Name::Red => Some("red"),
            Name::BrightRed => Some("brightred"),
            Name::Green => Some("green"),
            Name::BrightGreen => Some("brightgreen"),
            Name::Yellow => Some("yellow"),
            Name::BrightYellow => Some("brightyellow"),
            Name::Blue => Some("blue"),
            Name::BrightBlue => Some("brightblue"),
            Name::Magenta => Some("magenta"),
            Name::BrightMagenta => Some("brightmagenta"),
            Name::Cyan => Some("cyan"),
            Name::BrightCyan => Some("brightcyan"),
            Name::White => Some("white"),
            Name::BrightWhite => Some("brightwhite"),
            Name::Ansi(_) | Name::Rgb(_, _, _) => None,
        }
    }

    /// Appends the name as it is shown. There must be room for `LONGEST_NAME` bytes. Colors use it to append
    /// their names.
    #[inline(always)]
    pub fn push_to(self, text: &mut CanonicalText)
        requires { length text.old.bytes + LONGEST_NAME ≤ LONGEST_TEXT }
        ensures { text.new.bytes ≡ text.old.bytes ++ name_shown self }
    {
        match self {
            Name::Ansi(number) => push_palette(text, number),
            Name::Rgb(red, green, blue) => push_rgb(text, red, green, blue),
            _ => text.push_str(self.word().unwrap_or("")),
        }
    }

    /// Returns the name as it is shown, which is its canonical text, in at most `LONGEST_NAME` bytes.
    pub fn shown(self) -> CanonicalText
        ensures bytes { result.bytes ≡ name_shown self }
        ensures text { IsTextOf NameText CanonicalName self result.bytes }
    {
        numbers_fit(self);
        let mut text = CanonicalText::new();
        self.push_to(&mut text);
        text
    }
}

/// Reads the text, or returns `None` if it is not a name text.
#[inline(always)]
fn name_of(text: &[u8]) -> Option<Name>
    ensures { Reads NameText text.now result }
{
    match word(text)? {
        Item::Name(name) => Some(name),
        Item::Attribute(_) => None,
    }
}

impl TryRead for Name {
    ghost refusal = { OnlyFault faults.Color };

    /// Reads the text, or returns `Fault::Color` if it is not a name text.
    fn try_read(text: &[u8]) -> Result<Name, Fault> {
        name_of(text).ok_or(Fault::Color)
    }
}

impl FromStr for Name {
    type Err = Fault;

    ghost from_str_gives = { ReadsFault NameText (OnlyFault faults.Color) };

    /// Reads the text, or returns `Fault::Color` if it is not a name text.
    fn from_str(text: &str) -> Result<Name, Fault> {
        Name::try_read(text.as_bytes())
    }
}

impl<'a> TryFrom<BStr<'a>> for Name {
    type Error = Error<'a>;

    ghost try_from_gives = { ReadsBytes NameText (OnlyFault faults.Color) };

    /// Reads the input, or returns `Fault::Color` with the whole input.
    fn try_from(input: BStr<'a>) -> Result<Name, Error<'a>> {
        read_bytes(input)
    }
}

impl Name {
    /// Returns the shown text as a JSON string. Fails with `JsonError::Memory` if memory runs out.
    pub fn to_json(&self, alloc: Global) -> Result<JsonValue, JsonError>
        ensures { GivesJsonText (name_shown self.now) result }
    {
        let name = self.shown();
        string(alloc, name.as_str())
    }
}

impl fmt::Display for Name {
    ghost output = { λ n. Some (name_shown n) };

    /// Writes the canonical text of the name.
    fn fmt<W: fmt::Write>(&self, f: &mut fmt::Formatter<W>) -> fmt::Result {
        f.write_str(self.shown().as_str())
    }
}

impl Value for Name {
    ghost grammar = { NameText };

    ghost canonical = { CanonicalName };

    ghost displayed = { name_shown };

    /// Reads the input, or returns `None` if it is not a name text.
    #[inline(always)]
    fn read(input: BStr<'_>) -> Option<Name> {
        name_of(input.as_bytes())
    }

    /// Every name has a text.
    #[tactic(auto, using(crate::specs::Laws::Name::name_has_text))]
    fn has_text(&self) -> bool {
        numbers_fit(*self);
        true
    }

    /// Writes the name as it is shown.
    fn write_to(&self, text: &mut CanonicalText) {
        self.push_to(text);
    }

    ghost one_value = { name_one_value };

    ghost one_text = { name_one_text };

    ghost canonical_reads = { name_canonical_reads };

    ghost shown_is_text = { name_shown_is_text };

    ghost decided = { name_decided };

    ghost equal_is_same = { Prim.search rules };
}
