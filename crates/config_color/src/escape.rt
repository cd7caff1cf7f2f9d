//! The escape sequences of colors, which a terminal understands.
ghost use Rattle.std.specs.Prelude.{◌≡◌, ◌+◌, ◌<◌, ◌≤◌, List, ℕ, [], ◌∷◌, ◌++◌, length, map, decimal};
ghost use Rattle.config_color.specs.Escape.{attribute_codes, row_codes, palette_codes, name_codes};
ghost use Rattle.config_color.specs.Escape.{part_codes, escape_sequence};
ghost use Rattle.config_color.specs.Reading.Escape.{Continues, code_row, opened, size};
ghost use Rattle.config_word.specs.declared.name.Name.TheVariants.{Rgb};

use crate::color::Color;
use arrayvec::ArrayString;
use bitflags::Flags;
use config_word::attribute::Attribute;
use config_word::name::Name;

/// The length in bytes of the longest escape sequence: ESC, `[`, the codes of all attributes, which have 19
/// bytes, a foreground and a background of 16 bytes each, as `38;2;255;255;255`, 15 semicolons between these
/// codes, and `m`.
pub const LONGEST_ESCAPE: usize = 69;

/// An escape sequence, in a buffer with room for the longest one.
pub type Escape = ArrayString<LONGEST_ESCAPE>;

/// One or two attributes, and the code of either.
#[derive(Clone, Copy)]
struct AttributeCode {
    one: Attribute,
    other: Attribute,
    code: &'static str,
}

macro_rules! code {
    ($attribute:ident, $code:expr) => {
        code!($attribute, $attribute, $code)
    };
    ($one:ident, $other:ident, $code:expr) => {
        AttributeCode { one: Attribute::$one, other: Attribute::$other, code: $code }
    };
}

/// The codes of attributes, in the order in which they are written.
const ATTRIBUTE_CODES: &[AttributeCode] = &[
    code!(RESET, ""),
    code!(BOLD, "1"),
    code!(DIM, "2"),
    code!(ITALIC, "3"),
    code!(UL, "4"),
    code!(BLINK, "5"),
    code!(REVERSE, "7"),
    code!(STRIKE, "9"),
    code!(NO_BOLD, NO_DIM, "22"),
    code!(NO_ITALIC, "23"),
    code!(NO_UL, "24"),
    code!(NO_BLINK, "25"),
    code!(NO_REVERSE, "27"),
    code!(NO_STRIKE, "29"),
];

/// The code of black as a foreground. The codes of the other colors are counted from it.
const FOREGROUND: u8 = 30;

/// The code of black as a background.
const BACKGROUND: u8 = 40;

/// The length in bytes of the longest codes of a name, as `;38;2;255;255;255`.
const LONGEST_PART: usize = 17;

/// Returns the codes of attributes, in the order in which they are written.
fn code_table() -> &'static [AttributeCode]
    ensures { map code_row result.now ≡ attribute_codes }
{
    ATTRIBUTE_CODES
}

/// Begins a sequence, or appends the semicolon before one more code.
#[inline(always)]
fn separate(text: &mut Escape)
    requires { length text.old.bytes + 2 ≤ LONGEST_ESCAPE }
    ensures next { (done : List (List ℕ)) (code : List ℕ) → text.old.bytes ≡ opened done
        → text.new.bytes ++ code ≡ opened (done ++ code ∷ []) }
    ensures short { (n : ℕ) → 1 ≤ n → length text.old.bytes ≤ n → length text.new.bytes ≤ n + 1 }
    ensures room { length text.new.bytes ≤ length text.old.bytes + 2 }
{
    if text.is_empty() {
        text.push_str("\u{1b}[");
        return;
    }
    text.push_str(";");
}

/// Appends the code of a row if one of its attributes is in the set.
#[inline(always)]
fn push_row(set: Attribute, row: &AttributeCode, text: &mut Escape)
    requires { length text.old.bytes + 2 + length row.now.code.now ≤ LONGEST_ESCAPE }
    ensures { Continues (row_codes set.0 (code_row row.now ∷ [])) (size (code_row row.now ∷ []))
        text.old.bytes text.new.bytes }
{
    if !set.intersects(row.one.union(row.other)) {
        return;
    }
    separate(text);
    text.push_str(row.code);
}

/// Appends the codes of the rows of which an attribute is in the set.
#[inline(always)]
fn push_rows(set: Attribute, rows: &[AttributeCode], text: &mut Escape)
    requires { length text.old.bytes + 2 + size (map code_row rows.now) ≤ LONGEST_ESCAPE }
    ensures { Continues (row_codes set.0 (map code_row rows.now)) (size (map code_row rows.now))
        text.old.bytes text.new.bytes }
{
    for row in rows {
        push_row(set, row, text);
    }
}

/// Writes the codes of a set of attributes into an empty text.
#[inline(always)]
fn push_set(set: Attribute, text: &mut Escape)
    requires { text.old.bytes ≡ [] }
    ensures { text.new.bytes ≡ opened (row_codes set.0 attribute_codes) }
{
    push_rows(set, code_table(), text);
}

/// Returns a decimal digit.
#[inline(always)]
fn digit(number: u8) -> &'static str
    requires { number < 10 }
    ensures { result.now ≡ (48 + number) ∷ [] }
{
    match number {
        0 => "0",
        1 => "1",
        2 => "2",
        3 => "3",
        4 => "4",
        5 => "5",
        6 => "6",
        7 => "7",
        8 => "8",
        _ => "9",
    }
}

/// Appends a number in decimal.
#[inline(always)]
fn push_decimal(number: u8, text: &mut Escape)
    requires { length text.old.bytes + 3 ≤ LONGEST_ESCAPE }
    ensures { text.new.bytes ≡ text.old.bytes ++ decimal number }
{
    if number < 10 {
        text.push_str(digit(number));
        return;
    }
    if number < 100 {
        text.push_str(digit(number / 10));
        text.push_str(digit(number % 10));
        return;
    }
    text.push_str(digit(number / 100));
    text.push_str(digit(number / 10 % 10));
    text.push_str(digit(number % 10));
}

/// Appends a number as a code.
#[inline(always)]
fn push_number(number: u8, text: &mut Escape)
    requires { length text.old.bytes + 5 ≤ LONGEST_ESCAPE }
    ensures { Continues (decimal number ∷ []) (1 + length (decimal number)) text.old.bytes text.new.bytes }
{
    separate(text);
    push_decimal(number, text);
}

/// Appends the codes of red, green and blue, if `black` is the code of black.
fn push_rgb(red: u8, green: u8, blue: u8, black: u8, text: &mut Escape)
    requires black { black ≤ BACKGROUND }
    requires room { length text.old.bytes + LONGEST_PART < LONGEST_ESCAPE }
    ensures { Continues (map decimal (name_codes black (Rgb red green blue))) LONGEST_PART
        text.old.bytes text.new.bytes }
{
    push_number(black + 8, text);
    push_number(2, text);
    push_number(red, text);
    push_number(green, text);
    push_number(blue, text);
}

/// Appends the codes of a number of the palette, if `black` is the code of black.
fn push_palette(number: u8, black: u8, text: &mut Escape)
    requires black { black ≤ BACKGROUND }
    requires room { length text.old.bytes + LONGEST_PART < LONGEST_ESCAPE }
    ensures { Continues (map decimal (palette_codes black number)) LONGEST_PART
        text.old.bytes text.new.bytes }
{
    if number < 8 {
        push_number(black + number, text);
        return;
    }
    if number < 16 {
        push_number(black + 60 + (number - 8), text);
        return;
    }
    push_number(black + 8, text);
    push_number(5, text);
    push_number(number, text);
}

/// Appends the codes of a name, if `black` is the code of black.
fn push_name(name: Name, black: u8, text: &mut Escape)
    requires black { black ≤ BACKGROUND }
    requires room { length text.old.bytes + LONGEST_PART < LONGEST_ESCAPE }
    ensures { Continues (map decimal (name_codes black name)) LONGEST_PART
        text.old.bytes text.new.bytes }
{
    let number = match name {
        Name::Normal => return,
        Name::Default => {
            push_number(black + 9, text);
            return;
        }
        Name::Rgb(red, green, blue) => {
            push_rgb(red, green, blue, black, text);
            return;
        }
        Name::Black => 0,
        Name::Red => 1,
        Name::Green => 2,
        Name::Yellow => 3,
        Name::Blue => 4,
        Name::Magenta => 5,
        Name::Cyan => 6,
        Name::White => 7,
        Name::BrightBlack => 8,
        Name::BrightRed => 9,
        Name::BrightGreen => 10,
        Name::BrightYellow => 11,
        Name::BrightBlue => 12,
        Name::BrightMagenta => 13,
        Name::BrightCyan => 14,
        Name::BrightWhite => 15,
        Name::Ansi(number) => number,
    };
    push_palette(number, black, text);
}

/// Appends the codes of a name, if there is one and `black` is the code of black.
fn push_part(part: Option<Name>, black: u8, text: &mut Escape)
    requires black { black ≤ BACKGROUND }
    requires room { length text.old.bytes + LONGEST_PART < LONGEST_ESCAPE }
    ensures { Continues (part_codes black part) LONGEST_PART
        text.old.bytes text.new.bytes }
{
    if let Some(name) = part {
        push_name(name, black, text);
    }
}

impl Color {
    /// Returns the bytes that make a terminal draw the text after them in this color, as
    /// `git config --get-color` writes them: docs/GRAMMAR.md, Escape sequences. They have at most
    /// `LONGEST_ESCAPE` bytes, and take no memory.
    ///
    /// A color has them even if no text reads to it. Unknown bits add nothing, and a background without a
    /// foreground is written as a background. A color without codes, as the default one, has no bytes.
    ///
    /// ```rust
    /// use gix_config_value::Color;
    ///
    /// let color = Color::try_from("bold red 208")?;
    /// assert_eq!(rt; color.escape().as_str(), "\u{1b}[1;31;48;5;208m");
    /// assert_eq!(rt; Color::default().escape().as_str(), "");
    /// ```
    pub fn escape(&self) -> Escape
        ensures bytes { result.bytes ≡ escape_sequence self.now }
        ensures short { length result.bytes ≤ LONGEST_ESCAPE }
    {
        let mut text = Escape::new();
        push_set(self.attributes, &mut text);
        push_part(self.foreground, FOREGROUND, &mut text);
        push_part(self.background, BACKGROUND, &mut text);
        if text.is_empty() {
            return text;
        }
        text.push_str("m");
        text
    }
}
