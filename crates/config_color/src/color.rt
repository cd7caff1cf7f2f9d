//! Colors: how text is drawn. A color is read from a text and shown as a text.
ghost use Rattle.std.specs.Prelude.{◌↔◌, IsTrue, ◌≡◌, ◌+◌, ◌<◌, ◌≤◌, [], None, Some, length, slice_range};
ghost use Rattle.std.specs.Prelude.{MatchOption, ◌==◌, false};
ghost use Rattle.std.specs.Char.{is_ascii_digit};
ghost use Rattle.config_word.specs.Reading.Item.{plus_sign};
ghost use Rattle.std.specs.Cow.{cow_slice_items};
ghost use Rattle.bstr.specs.Owned.{bstring_bytes};
ghost use Rattle.config_text.specs.declared.errors.Fault.TheVariants as faults;
ghost use Rattle.config_color.specs.Color.{ColorText, CanonicalColor, PartFits, color_shown, no_color};
ghost use Rattle.config_color.specs.Laws.Color.{color_one_value, color_decided};
ghost use Rattle.config_color.specs.Reading.Color.{next_name, with_item, read_from, names_shown};
ghost use Rattle.config_color.specs.Reading.Color.{ArePlain, EndsWord, FirstWordEnds, IsTooLong};
ghost use Rattle.config_color.specs.Laws.ColorShown.{color_equal, color_canonical_reads, color_one_text};
ghost use Rattle.config_color.specs.Laws.ColorShown.{color_shown_is_text};
ghost use Rattle.config_word.specs.contracts.name.NameValue.TheImpl.Laws.{equal_is_same-law as name_equal};
ghost use Rattle.config_text.specs.Refusals.{OnlyFault, ReadsFault, ReadsBytes, ReadsText, ReadsOwned};
ghost use Rattle.config_color.specs.Space.{Space};
ghost use Rattle.config_text.specs.Value.{HasText, Reads};
ghost use Rattle.config_color.specs.Words.{piece};
ghost use Rattle.config_color.specs.Reading.Split.{IsWithoutSpace, words};

use crate::space::space_at;
use bitflags::Flags;
use bstr::{BStr, BString};
use config_text::errors::{Error, Fault, Returned};
use config_text::readers::{TryRead, read_bytes, read_cow, read_owned, read_text};
use config_text::value::{CanonicalText, LONGEST_TEXT, Value};
use config_text::words::begins_with_run;
use config_word::attribute::{Attribute, LONGEST_SET};
use config_word::item::{Item, word};
use config_word::laws::texts::numbers_fit;
use config_word::name::Name;
use std::borrow::CowSlice;
use std::fmt;
use std::str::FromStr;

/// How text is drawn: with a foreground, a background and attributes.
///
/// A text has names and attributes in any order, with Unicode white space between them. The first name is the
/// foreground, the second the background. The empty text reads to the default color.
///
/// A text with a third name, or with a word that is neither a name nor an attribute, is refused with
/// `Fault::Color`. The canonical text has the names first and then the attributes, in at most `LONGEST_TEXT`
/// bytes. A color has no text if it has an unknown bit, or a background without a foreground:
/// docs/GRAMMAR.md, Colors.
///
/// ```rust
/// use gix_config_value::color::{Attribute, Name};
/// use gix_config_value::{Color, Fault};
/// use std::str::FromStr;
///
/// let color = Color::try_from("bold brightred")?;
/// assert_eq!(rt; color.foreground, Some(Name::BrightRed));
/// assert_eq!(rt; color.attributes, Attribute::BOLD);
/// assert_eq!(rt; Color::from_str("red green blue"), Err(Fault::Color)); // a third name
/// ```
#[derive(Clone, Copy, PartialEq, Eq, PartialOrd, Ord, Hash, Debug)]
pub struct Color {
    /// The color of the text, if one is named.
    pub foreground: Option<Name>,
    /// The color behind the text, if one is named.
    pub background: Option<Name>,
    /// The attributes.
    pub attributes: Attribute,
}

impl Default for Color {
    ghost is_default = { λ c. c ≡ no_color };

    /// The color of the empty text: no names and no attributes.
    fn default() -> Color {
        Color {
            foreground: None,
            background: None,
            attributes: Attribute::empty(),
        }
    }
}

impl Color {
    /// Adds a name as the foreground, or as the background if there is a foreground. Returns `None` if there
    /// are both.
    #[inline(always)]
    fn with_name(self, name: Name) -> Option<Color>
        ensures { result
            ≡ next_name self.foreground self.background self.attributes.0 name }
    {
        match (self.foreground, self.background) {
            (None, _) => Some(Color {
                foreground: Some(name),
                ..self
            }),
            (Some(_), None) => Some(Color {
                background: Some(name),
                ..self
            }),
            (Some(_), Some(_)) => None,
        }
    }

    /// Adds a name or an attribute. Returns `None` for a third name.
    #[inline(always)]
    fn with_item(self, item: Item) -> Option<Color>
        ensures { result ≡ with_item self item }
    {
        match item {
            Item::Name(name) => self.with_name(name),
            Item::Attribute(attribute) => {
                let attributes = self.attributes.union(attribute);
                Some(Color { attributes, ..self })
            }
        }
    }

    /// Adds the item that a word means; an empty word adds nothing. Returns `None` if the word is not an
    /// item, or is a third name.
    #[inline(always)]
    fn with_word(self, text: &[u8]) -> Option<Color>
        ensures { result ≡ read_from self (piece text.now) }
    {
        if text.is_empty() {
            return Some(self);
        }
        self.with_item(word(text)?)
    }
}

/// Does nothing. The proof of `is_readable` uses what it ensures.
fn part_fits(part: Option<Name>)
    ensures { PartFits part }
{
    if let Some(name) = part {
        numbers_fit(name);
    }
}

impl Color {
    /// Writes the shown names, with one space between them, into an empty text.
    #[inline(always)]
    #[tactic(auto, using(config_word::specs::Laws::Name::name_short))]
    fn show_names(&self, text: &mut CanonicalText)
        requires { text.old.bytes ≡ [] }
        ensures names { text.new.bytes ≡ names_shown self.now.foreground self.now.background }
        ensures room { length text.new.bytes + 1 + LONGEST_SET ≤ LONGEST_TEXT }
    {
        match (self.foreground, self.background) {
            (None, None) => (),
            (Some(name), None) | (None, Some(name)) => {
                numbers_fit(name);
                name.push_to(text);
            }
            (Some(first), Some(second)) => {
                numbers_fit(first);
                numbers_fit(second);
                first.push_to(text);
                text.push_str(" ");
                second.push_to(text);
            }
        }
    }

    /// Returns whether some text reads to this color: each set bit has a constant, and there is no background
    /// without a foreground.
    fn is_readable(&self) -> bool
        ensures { IsTrue result ↔ (HasText ColorText self.now) }
    {
        part_fits(self.foreground);
        part_fits(self.background);
        Attribute::all().contains(self.attributes)
            && (self.background.is_none() || self.foreground.is_some())
    }

    /// Returns the color as it is shown, even if no text reads to it, in at most `LONGEST_TEXT` bytes.
    #[inline(always)]
    pub fn shown(&self) -> CanonicalText
        ensures { result.bytes ≡ color_shown self.now }
    {
        let mut text = CanonicalText::new();
        self.show(&mut text);
        text
    }

    /// Writes the color as it is shown into an empty text, even if no text reads to the color. A function
    /// clears the room of its texts at entry, so a caller that needs only the bytes makes one text and fills
    /// it.
    ///
    /// ```rust
    /// use gix_config_value::Color;
    /// use gix_config_value::canonical::CanonicalText;
    ///
    /// let mut text = CanonicalText::new();
    /// Color::try_from("ul bold red")?.show(&mut text);
    /// assert_eq!(rt; text.as_str(), "red bold ul");
    /// ```
    #[inline(always)]
    pub fn show(&self, text: &mut CanonicalText)
        requires { text.old.bytes ≡ [] }
        ensures { text.new.bytes ≡ color_shown self.now }
    {
        self.show_names(text);
        if self.attributes.is_empty() {
            return;
        }
        if self.foreground.is_some() || self.background.is_some() {
            text.push_str(" ");
        }
        self.attributes.push_to(text);
    }
}

/// Where the first word of a text ends.
#[derive(Clone, Copy)]
struct FirstWord {
    /// How many bytes come before the first white space.
    length: usize,
    /// How many bytes that white space has, or 0 if there is no white space.
    space: usize,
}

/// How many bytes of a long word are tested at once.
const RUN: usize = 16;

/// Returns true only if no byte of the run at `at` can begin white space.
#[inline(always)]
fn is_plain_run(text: &[u8], at: usize) -> bool
    requires { at + RUN ≤ length text.now }
    ensures { IsTrue result → ArePlain text.now at (at + RUN) }
{
    let mut is_plain = true;
    for place in at..at + RUN {
        let byte = text[place];
        is_plain &= b' ' < byte && byte < 0xc2;
    }
    is_plain
}

/// Returns the end of the plain runs that follow one another from `start` on.
fn end_of_runs(text: &[u8], start: usize) -> usize
    requires clear { IsWithoutSpace text.now start }
    requires within { start ≤ length text.now }
    ensures clear { IsWithoutSpace text.now result }
    ensures within { result ≤ length text.now }
{
    let mut at = start;
    while text.len() - at >= RUN && is_plain_run(text, at) {
        at += RUN;
    }
    at
}

/// Returns the first word if it ends at or after `start`, and before `end`.
#[inline(always)]
fn word_between(text: &[u8], start: usize, end: usize) -> Option<FirstWord>
    requires clear { IsWithoutSpace text.now start }
    requires within { end ≤ length text.now }
    ensures { MatchOption result (IsWithoutSpace text.now end)
        (λ first. EndsWord text.now first.length first.space) }
{
    for at in start..end {
        let space = space_at(text, at);
        if space > 0 {
            return Some(FirstWord { length: at, space });
        }
    }
    None
}

/// Returns whether a palette number can begin with this byte. Only such a word can be longer than `RUN`.
#[inline(always)]
fn begins_number(first: u8) -> bool
    ensures plus { result ≡ false → (first == plus_sign) ≡ false }
    ensures digit { result ≡ false → is_ascii_digit first ≡ false }
{
    first == b'+' || first.is_ascii_digit()
}

/// Finds the first word of a text. After its first bytes it skips whole runs, as long as they are plain.
/// Returns `None` if the word is longer than `RUN` and can be no palette number: then it is no item.
#[inline(always)]
fn first_word(text: &[u8]) -> Option<FirstWord>
    ensures { MatchOption result (IsTooLong text.now)
        (λ first. FirstWordEnds text.now first.length first.space) }
{
    let near = text.len().min(RUN);
    if let Some(first) = word_between(text, 0, near) {
        return Some(first);
    }
    if text.len() >= RUN && !begins_number(text[0]) {
        return None;
    }
    let start = end_of_runs(text, near);
    if let Some(first) = word_between(text, start, text.len()) {
        return Some(first);
    }
    Some(FirstWord {
        length: text.len(),
        space: 0,
    })
}

/// Returns the text without the spaces at its front.
#[inline(always)]
fn past_spaces(text: &[u8]) -> &[u8]
    ensures same { words result.now ≡ words text.now }
    ensures shorter { length result.now ≤ length text.now }
{
    let mut rest = text;
    while let [b' ', after @ ..] = rest {
        rest = if begins_with_run::<RUN>(after, b' ') {
            &after[RUN..]
        } else {
            after
        };
    }
    rest
}

/// Reads the text word by word from its front, or returns `None` if it is not a color text.
#[inline(always)]
fn color_of(input: &[u8]) -> Option<Color>
    ensures { Reads ColorText input.now result }
{
    // Most colors are one short word.
    if input.len() <= RUN && word_between(input, 0, input.len()).is_none() {
        return Color::default().with_word(input);
    }
    let mut color = Color::default();
    let mut rest = past_spaces(input);
    while !rest.is_empty() {
        let first = first_word(rest)?;
        let (text, after) = rest.split_at(first.length);
        color = color.with_word(text)?;
        rest = past_spaces(&after[first.space..]);
    }
    Some(color)
}

impl TryRead for Color {
    ghost refusal = { OnlyFault faults.Color };

    /// Reads the text, or returns `Fault::Color` if it is not a color text.
    #[inline(always)]
    fn try_read(text: &[u8]) -> Result<Color, Fault> {
        color_of(text).ok_or(Fault::Color)
    }
}

impl FromStr for Color {
    type Err = Fault;

    ghost from_str_gives = { ReadsFault ColorText (OnlyFault faults.Color) };

    /// Reads the text, or returns `Fault::Color` if it is not a color text.
    fn from_str(text: &str) -> Result<Color, Fault> {
        Color::try_read(text.as_bytes())
    }
}

impl<'a> TryFrom<BStr<'a>> for Color {
    type Error = Error<'a>;

    ghost try_from_gives = { ReadsBytes ColorText (OnlyFault faults.Color) };

    /// Reads the input, or returns `Fault::Color` with the whole input.
    fn try_from(input: BStr<'a>) -> Result<Color, Error<'a>> {
        read_bytes(input)
    }
}

impl<'a> TryFrom<&'a str> for Color {
    type Error = Error<'a>;

    ghost try_from_gives = { λ s r. ReadsText ColorText (OnlyFault faults.Color) s.now r };

    /// Reads the input, or returns `Fault::Color` with the whole input.
    fn try_from(input: &'a str) -> Result<Color, Error<'a>> {
        read_text(input)
    }
}

impl TryFrom<BString> for Color {
    type Error = Returned<BString>;

    ghost try_from_gives = { λ s r.
        ReadsOwned ColorText (OnlyFault faults.Color) (bstring_bytes s) s r };

    /// Reads the input, or returns `Fault::Color` and hands the input back.
    fn try_from(input: BString) -> Result<Color, Returned<BString>> {
        read_owned(input)
    }
}

impl<'a> TryFrom<CowSlice<'a, u8>> for Color {
    type Error = Returned<CowSlice<'a, u8>>;

    ghost try_from_gives = { λ s r.
        ReadsOwned ColorText (OnlyFault faults.Color) (cow_slice_items s) s r };

    /// Reads the input, or returns `Fault::Color` and hands the input back.
    fn try_from(input: CowSlice<'a, u8>) -> Result<Color, Returned<CowSlice<'a, u8>>> {
        read_cow(input)
    }
}

impl fmt::Display for Color {
    ghost output = { λ c. Some (color_shown c) };

    /// Writes the names and then the attributes, with one space between, in at most `LONGEST_TEXT` bytes.
    fn fmt<W: fmt::Write>(&self, f: &mut fmt::Formatter<W>) -> fmt::Result {
        f.write_str(self.shown().as_str())
    }
}

impl Value for Color {
    ghost grammar = { ColorText };

    ghost canonical = { CanonicalColor };

    ghost displayed = { color_shown };

    /// Reads the input, or returns `None` if it is not a color text.
    fn read(input: BStr<'_>) -> Option<Color> {
        color_of(input.as_bytes())
    }

    /// Returns whether each set bit has a constant, and there is no background without a foreground.
    fn has_text(&self) -> bool {
        self.is_readable()
    }

    /// Writes the names and then the attributes, with one space between, in at most `LONGEST_TEXT` bytes.
    #[inline(always)]
    fn write_to(&self, text: &mut CanonicalText) {
        self.show(text);
    }

    ghost one_value = { color_one_value };

    ghost one_text = { color_one_text };

    ghost canonical_reads = { color_canonical_reads };

    ghost shown_is_text = { color_shown_is_text };

    ghost decided = { color_decided };

    ghost equal_is_same = { color_equal ⟦<Name as PartialEq>⟧.eq name_equal };
}
