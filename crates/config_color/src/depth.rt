//! Fewer colors: the nearest color that a terminal with a palette of 16 or 256 colors has.
ghost use Rattle.std.specs.Prelude.{◌≡◌, ◌<◌, ◌≤◌, ◌+◌, ℕ};
ghost use Rattle.std.specs.Int.{abs_diff};
ghost use Rattle.config_color.specs.Color.{ColorText};
ghost use Rattle.config_color.specs.Depth.{IsNearest, ReducedColor, ReducedName, ReducedPart, distance, level};
ghost use Rattle.config_color.specs.Depth.{palette, replaced, square};
ghost use Rattle.config_color.specs.Reading.Depth.{IsBest, number_distance, step_distance};
ghost use Rattle.config_text.specs.Value.{HasText};

use crate::color::Color;
use config_word::name::Name;

/// How many colors a terminal has.
///
/// [`Terminal::depth`](crate::terminal::Terminal::depth) tells it from variables of the environment, and
/// [`Color::reduced`] gives the color that is left of another.
///
/// ```rust
/// use gix_config_value::Color;
/// use gix_config_value::color::Depth;
///
/// let orange = Color::try_from("#ff8800")?;
/// assert_eq!(rt; orange.reduced(Depth::TrueColor), orange);
/// assert_eq!(rt; orange.reduced(Depth::Ansi256), Color::try_from("208")?);
/// ```
#[derive(Clone, Copy, PartialEq, Eq, Debug)]
pub enum Depth {
    /// The 16 colors of the palette numbers 0 to 15.
    Ansi16,
    /// The 256 colors of the palette.
    Ansi256,
    /// All 2^24 mixtures of red, green and blue.
    TrueColor,
}

/// A mixture of red, green and blue, each 0 to 255.
#[derive(Clone, Copy)]
pub(crate) struct Shade {
    red: u8,
    green: u8,
    blue: u8,
}

macro_rules! shade {
    ($red:expr, $green:expr, $blue:expr) => {
        Shade { red: $red, green: $green, blue: $blue }
    };
}

/// The 16 colors that xterm shows for the numbers 0 to 15 if nobody configures others: the resources
/// `color0` to `color15` of its file XTerm-col.ad.
const XTERM_COLORS: &[Shade; 16] = &[
    shade!(0x00, 0x00, 0x00),
    shade!(0xcd, 0x00, 0x00),
    shade!(0x00, 0xcd, 0x00),
    shade!(0xcd, 0xcd, 0x00),
    shade!(0x00, 0x00, 0xee),
    shade!(0xcd, 0x00, 0xcd),
    shade!(0x00, 0xcd, 0xcd),
    shade!(0xe5, 0xe5, 0xe5),
    shade!(0x7f, 0x7f, 0x7f),
    shade!(0xff, 0x00, 0x00),
    shade!(0x00, 0xff, 0x00),
    shade!(0xff, 0xff, 0x00),
    shade!(0x5c, 0x5c, 0xff),
    shade!(0xff, 0x00, 0xff),
    shade!(0x00, 0xff, 0xff),
    shade!(0xff, 0xff, 0xff),
];

/// Returns the level, 0 to 255, of a step of the palette's cube.
#[inline(always)]
fn level_of(step: u8) -> u8
    requires { step < 6 }
    ensures { result ≡ level step }
{
    if step == 0 {
        return 0;
    }
    55 + 40 * step
}

/// Returns the red, green and blue of a palette number.
#[inline(always)]
fn shade_of(number: u8) -> Shade
    ensures { result ≡ palette number }
{
    if number < 16 {
        return XTERM_COLORS[number as usize];
    }
    if number >= 232 {
        let gray = 8 + 10 * (number - 232);
        return shade!(gray, gray, gray);
    }
    let place = number - 16;
    shade!(
        level_of(place / 36),
        level_of(place / 6 % 6),
        level_of(place % 6)
    )
}

/// Returns the square of the difference of two bytes.
#[inline(always)]
fn squared(a: u8, b: u8) -> u32
    ensures { result ≡ square (abs_diff a b) }
{
    let difference = a.abs_diff(b) as u32;
    difference * difference
}

/// Returns how far two shades are apart: the sum of the squares of the differences of red, green and blue.
#[inline(always)]
fn distance_between(a: Shade, b: Shade) -> u32
    ensures { result ≡ distance a b }
{
    squared(a.red, b.red) + squared(a.green, b.green) + squared(a.blue, b.blue)
}

/// Returns the step, 0 to 5, of the cube whose level is nearest to a byte, and of two such steps the lesser.
#[inline(always)]
fn nearest_step(byte: u8) -> u8
    ensures { IsBest (step_distance byte) 0 6 result }
{
    let mut best = 0;
    let mut least = squared(byte, level_of(best));
    for step in 1..6 {
        let apart = squared(byte, level_of(step));
        if apart < least {
            best = step;
            least = apart;
        }
    }
    best
}

/// Returns the number of the cube that is nearest to a shade, which has the nearest step of red, of green and
/// of blue.
#[inline(always)]
fn nearest_in_cube(shade: Shade) -> u8
    ensures { IsBest (number_distance shade) 16 232 result }
{
    let red = nearest_step(shade.red);
    let green = nearest_step(shade.green);
    let blue = nearest_step(shade.blue);
    16 + 36 * red + 6 * green + blue
}

/// Returns the first number from `first` to `last` that is the nearest of these to a shade, or `best` if none
/// of them is nearer than that number.
#[inline(always)]
fn nearest_of(shade: Shade, best: u8, first: u8, last: u8) -> u8
    requires { first ≤ last }
    ensures { (low : ℕ) → IsBest (number_distance shade) low first best
        → IsBest (number_distance shade) low (last + 1) result }
{
    let mut found = best;
    let mut least = distance_between(shade, shade_of(best));
    for number in first..=last {
        let apart = distance_between(shade, shade_of(number));
        if apart < least {
            found = number;
            least = apart;
        }
    }
    found
}

/// Returns the nearest number from 0 to 15.
#[inline(always)]
fn nearest_of_16(shade: Shade) -> u8
    ensures { IsNearest 0 15 shade result }
{
    nearest_of(shade, 0, 1, 15)
}

/// Returns the nearest number from 16 to 255.
#[inline(always)]
fn nearest_of_240(shade: Shade) -> u8
    ensures { IsNearest 16 255 shade result }
{
    nearest_of(shade, nearest_in_cube(shade), 232, 255)
}

/// Returns the shade of a name that has to be replaced at this depth, or `None` if the name stays.
fn shade_to_replace(name: Name, depth: Depth) -> Option<Shade>
    ensures { result ≡ replaced depth name }
{
    match (depth, name) {
        (Depth::Ansi16, Name::Ansi(number)) if number > 15 => Some(shade_of(number)),
        (Depth::Ansi16, Name::Rgb(red, green, blue)) => Some(shade!(red, green, blue)),
        (Depth::Ansi256, Name::Rgb(red, green, blue)) => Some(shade!(red, green, blue)),
        _ => None,
    }
}

/// Returns the name that is left at this depth.
fn reduced_name(name: Name, depth: Depth) -> Name
    ensures { ReducedName depth name result }
{
    let Some(shade) = shade_to_replace(name, depth) else {
        return name;
    };
    match depth {
        Depth::Ansi16 => Name::Ansi(nearest_of_16(shade)),
        Depth::Ansi256 => Name::Ansi(nearest_of_240(shade)),
        Depth::TrueColor => name,
    }
}

/// Returns the part of a color that is left at this depth.
fn reduced_part(part: Option<Name>, depth: Depth) -> Option<Name>
    ensures { ReducedPart depth part result }
{
    match part {
        None => None,
        Some(name) => Some(reduced_name(name, depth)),
    }
}

impl Color {
    /// Returns the color that a terminal of this depth can show in place of this one: docs/GRAMMAR.md, Fewer
    /// colors.
    ///
    /// At `Depth::Ansi256` red, green and blue become the number from 16 to 255 whose color is nearest. At
    /// `Depth::Ansi16` they, and numbers above 15, become the nearest number from 0 to 15. The distance is the
    /// sum of the squares of the differences of red, green and blue, and of several equally near numbers the
    /// least is taken. The numbers have the colors that xterm gives them if nobody configures others.
    ///
    /// Words, attributes and all other numbers stay as they are, and so does every color at
    /// `Depth::TrueColor`. A color that has a text still has one.
    ///
    /// ```rust
    /// use gix_config_value::Color;
    /// use gix_config_value::color::Depth;
    ///
    /// let color = Color::try_from("bold #ff8800 red")?;
    /// assert_eq!(rt; color.reduced(Depth::Ansi256), Color::try_from("bold 208 red")?);
    /// assert_eq!(rt; color.reduced(Depth::Ansi16), Color::try_from("bold 3 red")?);
    /// ```
    pub fn reduced(self, depth: Depth) -> Color
        ensures exact { ReducedColor depth self result }
        ensures text { HasText ColorText self → HasText ColorText result }
    {
        Color {
            foreground: reduced_part(self.foreground, depth),
            background: reduced_part(self.background, depth),
            attributes: self.attributes,
        }
    }
}
