//! The plain structs that represent values in C.
ghost use Rattle.std.specs.Prelude.{◌≡◌};
ghost use Rattle.gix_config_value_c.specs.Numbers.{StandsFor};
ghost use Rattle.gix_config_value_c.specs.Reading.Structs.{tagged_name};
ghost use Rattle.gix_config_value_c.specs.Structs.{tagged, integer_struct, name_struct, part_struct};
ghost use Rattle.gix_config_value_c.specs.Structs.{color_struct};

use crate::numbers::{suffix_number, suffix_of};
use bitflags::Flags;
use gix_config_value::color::{Attribute, Name};
use gix_config_value::{Color, Integer};

/// An integer: the number before the suffix, and the number of the suffix.
#[repr(C)]
#[derive(Clone, Copy, PartialEq, Eq)]
pub struct GcvInteger {
    /// The number before the suffix.
    pub value: i64,
    /// The number of the suffix: 0 for no suffix, 1 for `k`, 2 for `m`, 3 for `g`.
    pub suffix: u32,
}

/// The name of a color. The fields that its tag does not use are 0.
#[repr(C)]
#[derive(Clone, Copy, PartialEq, Eq)]
pub struct GcvName {
    /// 0 for no name, 1 to 18 for the words in the order of `Name`, 19 for a palette number, 20 for red,
    /// green and blue.
    pub tag: u32,
    /// The palette number.
    pub palette: u8,
    /// Red.
    pub red: u8,
    /// Green.
    pub green: u8,
    /// Blue.
    pub blue: u8,
}

/// A color: its two names, each of which may be absent, and the bits of its attributes.
#[repr(C)]
#[derive(Clone, Copy, PartialEq, Eq)]
pub struct GcvColor {
    /// The color of the text.
    pub foreground: GcvName,
    /// The color of the background.
    pub background: GcvName,
    /// The bits of the attributes.
    pub attributes: u32,
}

/// Returns the struct of an integer.
pub(crate) fn integer_struct(integer: Integer) -> GcvInteger
    ensures { result ≡ integer_struct integer }
{
    GcvInteger {
        value: integer.value,
        suffix: suffix_number(integer.suffix),
    }
}

/// Returns the integer that the struct represents, or `None` if no suffix has the number in the struct.
pub(crate) fn integer_of(integer: GcvInteger) -> Option<Integer>
    ensures { StandsFor integer_struct integer result }
{
    let suffix = suffix_of(integer.suffix)?;
    Some(Integer {
        value: integer.value,
        suffix,
    })
}

/// Returns the struct with this tag, in which all else is 0.
const fn tagged(tag: u32) -> GcvName
    ensures { result ≡ tagged tag }
{
    GcvName {
        tag,
        palette: 0,
        red: 0,
        green: 0,
        blue: 0,
    }
}

/// Returns the struct of a name. Its tag is one more than the place of the name.
#[inline(always)]
pub(crate) fn name_struct(name: Name) -> GcvName
    ensures { result ≡ name_struct name }
{
    let tag = u32::from(name.place()) + 1;
    let (palette, red, green, blue) = match name {
        Name::Ansi(palette) => (palette, 0, 0, 0),
        Name::Rgb(red, green, blue) => (0, red, green, blue),
        _ => (0, 0, 0, 0),
    };
    GcvName {
        tag,
        palette,
        red,
        green,
        blue,
    }
}

/// Returns the struct of a name, or of no name.
#[inline(always)]
fn part_struct(part: Option<Name>) -> GcvName
    ensures { result ≡ part_struct part }
{
    match part {
        None => tagged(0),
        Some(name) => name_struct(name),
    }
}

/// Returns the name with this tag and the numbers that the tag uses, or `None` if no name has the tag.
#[inline(always)]
fn tagged_name(name: GcvName) -> Option<Name>
    ensures { result ≡ tagged_name name }
{
    match name.tag {
        0 => None,
        19 => Some(Name::Ansi(name.palette)),
        20 => Some(Name::Rgb(name.red, name.green, name.blue)),
        tag => Name::at_place(u8::try_from(tag - 1).ok()?),
    }
}

/// Returns the name that the struct represents, or `None` if it represents no name.
#[inline(always)]
pub(crate) fn name_of(name: GcvName) -> Option<Name>
    ensures { StandsFor name_struct name result }
{
    let found = tagged_name(name)?;
    if name_struct(found) == name {
        Some(found)
    } else {
        None
    }
}

/// Returns the name that the struct represents, `Some(None)` if the struct is 0, or `None` if it is invalid.
#[inline(always)]
fn part_of(part: GcvName) -> Option<Option<Name>>
    ensures { StandsFor part_struct part result }
{
    if part == tagged(0) {
        return Some(None);
    }
    let name = name_of(part)?;
    Some(Some(name))
}

/// Returns the color that the struct represents, or `None` if one of its names is invalid.
#[inline(always)]
pub(crate) fn color_of(color: GcvColor) -> Option<Color>
    ensures { StandsFor color_struct color result }
{
    let foreground = part_of(color.foreground)?;
    let background = part_of(color.background)?;
    Some(Color {
        foreground,
        background,
        attributes: Attribute::from_bits_retain(color.attributes),
    })
}

/// Returns the struct of a color.
#[inline(always)]
pub(crate) fn color_struct(color: Color) -> GcvColor
    ensures { result ≡ color_struct color }
{
    GcvColor {
        foreground: part_struct(color.foreground),
        background: part_struct(color.background),
        attributes: color.attributes.bits(),
    }
}
