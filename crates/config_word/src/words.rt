//! The words of names and attributes, found by their length. `of_two` compares words of two bytes, and so on.
#![tactic(auto, unfolding(crate::specs::Attribute::attributes, crate::specs::Name::word_names))]

ghost use Rattle.std.specs.Prelude.{◌≡◌};
ghost use Rattle.config_word.specs.Reading.Item.{found, known, of_length, word_table};

use crate::attribute::Attribute;
use crate::item::Item;
use crate::name::Name;
use config_text::words::{equals, equals_ignoring_case};

/// What the text means if it is one of the words, otherwise `None`. The function before a word compares it.
macro_rules! first_of {
    ($text:ident, $($compared:ident $word:literal => $kind:ident::$constant:ident),+) => {
        $(if $compared($text, $word) {
            Some(Item::$kind($kind::$constant))
        } else)+ {
            None
        }
    };
}

#[inline(always)]
fn of_two(text: &[u8]) -> Option<Item>
    ensures { result ≡ found (of_length 2 word_table) text.now }
{
    first_of!(text,
        equals b"-1" => Name::Normal,
        equals b"ul" => Attribute::UL
    )
}

#[inline(always)]
fn of_three(text: &[u8]) -> Option<Item>
    ensures { result ≡ found (of_length 3 word_table) text.now }
{
    first_of!(text,
        equals_ignoring_case b"red" => Name::Red,
        equals b"dim" => Attribute::DIM
    )
}

#[inline(always)]
fn of_four(text: &[u8]) -> Option<Item>
    ensures { result ≡ found (of_length 4 word_table) text.now }
{
    first_of!(text,
        equals_ignoring_case b"blue" => Name::Blue,
        equals_ignoring_case b"cyan" => Name::Cyan,
        equals b"bold" => Attribute::BOLD,
        equals b"noul" => Attribute::NO_UL
    )
}

#[inline(always)]
fn of_five(text: &[u8]) -> Option<Item>
    ensures { result ≡ found (of_length 5 word_table) text.now }
{
    first_of!(text,
        equals_ignoring_case b"black" => Name::Black,
        equals_ignoring_case b"green" => Name::Green,
        equals_ignoring_case b"white" => Name::White,
        equals b"blink" => Attribute::BLINK,
        equals_ignoring_case b"reset" => Attribute::RESET,
        equals b"nodim" => Attribute::NO_DIM,
        equals b"no-ul" => Attribute::NO_UL
    )
}

#[inline(always)]
fn of_six(text: &[u8]) -> Option<Item>
    ensures { result ≡ found (of_length 6 word_table) text.now }
{
    first_of!(text,
        equals b"no-dim" => Attribute::NO_DIM,
        equals b"nobold" => Attribute::NO_BOLD,
        equals b"italic" => Attribute::ITALIC,
        equals b"strike" => Attribute::STRIKE,
        equals_ignoring_case b"normal" => Name::Normal,
        equals_ignoring_case b"yellow" => Name::Yellow
    )
}

#[inline(always)]
fn of_seven(text: &[u8]) -> Option<Item>
    ensures { result ≡ found (of_length 7 word_table) text.now }
{
    first_of!(text,
        equals_ignoring_case b"default" => Name::Default,
        equals_ignoring_case b"magenta" => Name::Magenta,
        equals b"reverse" => Attribute::REVERSE,
        equals b"no-bold" => Attribute::NO_BOLD,
        equals b"noblink" => Attribute::NO_BLINK
    )
}

#[inline(always)]
fn of_eight(text: &[u8]) -> Option<Item>
    ensures { result ≡ found (of_length 8 word_table) text.now }
{
    first_of!(text,
        equals b"noitalic" => Attribute::NO_ITALIC,
        equals b"no-blink" => Attribute::NO_BLINK,
        equals b"nostrike" => Attribute::NO_STRIKE
    )
}

#[inline(always)]
fn of_nine(text: &[u8]) -> Option<Item>
    ensures { result ≡ found (of_length 9 word_table) text.now }
{
    first_of!(text,
        equals_ignoring_case b"brightred" => Name::BrightRed,
        equals b"no-italic" => Attribute::NO_ITALIC,
        equals b"noreverse" => Attribute::NO_REVERSE,
        equals b"no-strike" => Attribute::NO_STRIKE
    )
}

#[inline(always)]
fn of_ten(text: &[u8]) -> Option<Item>
    ensures { result ≡ found (of_length 10 word_table) text.now }
{
    first_of!(text,
        equals_ignoring_case b"brightblue" => Name::BrightBlue,
        equals_ignoring_case b"brightcyan" => Name::BrightCyan,
        equals b"no-reverse" => Attribute::NO_REVERSE
    )
}

#[inline(always)]
fn of_eleven(text: &[u8]) -> Option<Item>
    ensures { result ≡ found (of_length 11 word_table) text.now }
{
    first_of!(text,
        equals_ignoring_case b"brightblack" => Name::BrightBlack,
        equals_ignoring_case b"brightgreen" => Name::BrightGreen,
        equals_ignoring_case b"brightwhite" => Name::BrightWhite
    )
}

#[inline(always)]
fn of_twelve(text: &[u8]) -> Option<Item>
    ensures { result ≡ found (of_length 12 word_table) text.now }
{
    first_of!(text, equals_ignoring_case b"brightyellow" => Name::BrightYellow)
}

#[inline(always)]
fn of_thirteen(text: &[u8]) -> Option<Item>
    ensures { result ≡ found (of_length 13 word_table) text.now }
{
    first_of!(text, equals_ignoring_case b"brightmagenta" => Name::BrightMagenta)
}

/// Returns what the text means if it is a word of a name or of an attribute, otherwise `None`.
#[inline(always)]
pub(crate) fn known_word(text: &[u8]) -> Option<Item>
    ensures { result ≡ known text.now }
{
    match text.len() {
        2 => of_two(text),
        3 => of_three(text),
        4 => of_four(text),
        5 => of_five(text),
        6 => of_six(text),
        7 => of_seven(text),
        8 => of_eight(text),
        9 => of_nine(text),
        10 => of_ten(text),
        11 => of_eleven(text),
        12 => of_twelve(text),
        13 => of_thirteen(text),
        _ => None,
    }
}
