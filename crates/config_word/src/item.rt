//! What a word of a color text means: a name or an attribute.
ghost use Rattle.std.specs.Prelude.{◌≡◌, ◌<◌, SomeIff};
ghost use Rattle.std.specs.Char.{digit_value};
ghost use Rattle.config_text.specs.Value.{Reads};
ghost use Rattle.config_word.specs.Item.{ItemText};
ghost use Rattle.config_word.specs.Reading.Item.{hex_pair_of, item_of, palette_of, rgb_of};

use crate::attribute::Attribute;
use crate::name::Name;
use crate::words::known_word;
use config_text::digits::digit_of;

/// What a word of a color text means: docs/GRAMMAR.md, Attributes.
///
/// ```rust
/// use gix_config_value::color::{Attribute, Item, Name, word};
///
/// assert_eq!(rt; word(b"red"), Some(Item::Name(Name::Red)));
/// assert_eq!(rt; word(b"ul"), Some(Item::Attribute(Attribute::UL)));
/// ```
#[derive(Clone, Copy, PartialEq, Eq, Debug)]
pub enum Item {
    /// A color name.
    Name(Name),
    /// One attribute.
    Attribute(Attribute),
}

/// Returns the number that decimal digits write, or `None` if there are no digits or other bytes, or if the
/// number is more than 255.
fn palette_number(digits: &[u8]) -> Option<u8>
    ensures { result ≡ palette_of digits.now }
{
    if digits.is_empty() {
        return None;
    }
    let mut number: u8 = 0;
    for digit in digits {
        if !digit.is_ascii_digit() {
            return None;
        }
        number = number.checked_mul(10)?.checked_add(*digit - b'0')?;
    }
    Some(number)
}

/// Returns the value of a hexadecimal digit, or `None` for any other byte.
#[inline(always)]
fn hex_value(digit: u8) -> Option<u8>
    ensures { SomeIff result (digit_value digit < 16) (digit_value digit) }
{
    let value = digit_of(digit);
    if value < 16 { Some(value) } else { None }
}

/// Returns the number that two hexadecimal digits write, or `None` if one of them is no such digit.
#[inline(always)]
fn hex_pair(high: u8, low: u8) -> Option<u8>
    ensures { result ≡ hex_pair_of high low }
{
    Some(16 * hex_value(high)? + hex_value(low)?)
}

/// Returns the color of six hexadecimal digits, or of three, each of which is taken twice. Returns `None` for
/// any other text.
fn rgb(digits: &[u8]) -> Option<Name>
    ensures { result ≡ rgb_of digits.now }
{
    match digits {
        [a, b, c, d, e, f] => Some(Name::Rgb(
            hex_pair(*a, *b)?,
            hex_pair(*c, *d)?,
            hex_pair(*e, *f)?,
        )),
        [a, c, e] => Some(Name::Rgb(hex_pair(*a, *a)?, hex_pair(*c, *c)?, hex_pair(*e, *e)?)),
        _ => None,
    }
}

/// Reads an item, or returns `None`. Words are compared only if the first byte is not `#`, `+` or a digit.
#[inline(always)]
fn read_item(input: &[u8]) -> Option<Item>
    ensures { result ≡ item_of input.now }
{
    match input {
        [b'#', digits @ ..] => Some(Item::Name(rgb(digits)?)),
        [b'+', digits @ ..] => Some(Item::Name(Name::Ansi(palette_number(digits)?))),
        [b'0'..=b'9', ..] => Some(Item::Name(Name::Ansi(palette_number(input)?))),
        _ => known_word(input),
    }
}

/// Reads the input as a name or an attribute, or returns `None` if it is neither. No text is both:
/// docs/GRAMMAR.md, Attributes.
///
/// ```rust
/// use gix_config_value::color::{Item, Name, word};
///
/// assert_eq!(rt; word(b"-1"), Some(Item::Name(Name::Normal)));
/// assert_eq!(rt; word(b"red "), None); // white space is no part of a word
/// ```
#[inline(always)]
pub fn word(input: &[u8]) -> Option<Item>
    ensures { Reads ItemText input.now result }
{
    read_item(input)
}
