//! The texts that values are shown as.
//!
//! A call writes the text to the front of the buffer, and its length into `length`. If the buffer is shorter
//! than the text, the call returns `ShortBuffer` and writes only the length.
ghost use Rattle.std.specs.Prelude.{Some};
ghost use Rattle.gix_config_value.specs.Suffix.{suffix_shown};
ghost use Rattle.gix_config_value.specs.Integer.{integer_shown};
ghost use Rattle.gix_config_value.specs.Boolean.{boolean_shown};
ghost use Rattle.gix_config_value.specs.Name.{name_shown};
ghost use Rattle.gix_config_value.specs.Attribute.{attribute_shown};
ghost use Rattle.gix_config_value.specs.Color.{color_shown};
ghost use Rattle.config_color.specs.Escape.{escape_sequence};
ghost use Rattle.std.specs.Fmt.{signed_decimal};
ghost use Rattle.config_word.specs.declared.name.Name.TheVariants as names;
ghost use Rattle.gix_config_value_c.specs.declared.status.Status.TheVariants as statuses;
ghost use Rattle.gix_config_value_c.specs.Numbers.{suffix_number, flag_number};
ghost use Rattle.gix_config_value_c.specs.Structs.{integer_struct, name_struct, color_struct};
ghost use Rattle.gix_config_value_c.specs.Buffers.{PutsText};
ghost use Rattle.gix_config_value_c.specs.Values.{Shows};

use crate::buffer::put;
use crate::numbers::{flag_of, unit_of};
use crate::status::Status;
use crate::structs::{GcvColor, GcvInteger, GcvName, color_of, integer_of, name_of};
use bitflags::Flags;
use config_word::name::rgb_bytes;
use gix_config_value::canonical::{CanonicalText, Value};
use gix_config_value::color::{Attribute, Name};
use gix_config_value::{Boolean, Color};
use itoa::Buffer;

/// Shows the suffix with a number. Returns `BadSuffix` if no suffix has the number.
#[tactic(auto, using(config_integer::specs::Laws::Suffix::suffix_has_text))]
#[unsafe(no_mangle)]
pub extern "C" fn gcv_raw_show_suffix(suffix: u32, buffer: &mut [u8], length: &mut usize) -> u32
    ensures { Shows (λ s. suffix_number (Some s)) suffix_shown statuses.BadSuffix
        suffix buffer.old buffer.new length.old length.new result }
{
    let Some(suffix) = unit_of(suffix) else {
        return Status::BadSuffix as u32;
    };
    put(suffix.text().as_str().as_bytes(), buffer, length)
}

/// Shows an integer. Returns `BadSuffix` if no suffix has the number in the struct.
#[tactic(auto, using(config_integer::specs::Laws::IntegerShown::integer_has_text))]
#[unsafe(no_mangle)]
pub extern "C" fn gcv_raw_show_integer(
    value: &GcvInteger,
    buffer: &mut [u8],
    length: &mut usize,
) -> u32
    ensures { Shows integer_struct integer_shown statuses.BadSuffix
        value.now buffer.old buffer.new length.old length.new result }
{
    let Some(integer) = integer_of(*value) else {
        return Status::BadSuffix as u32;
    };
    put(integer.text().as_str().as_bytes(), buffer, length)
}

/// Shows an amount.
#[unsafe(no_mangle)]
pub extern "C" fn gcv_raw_show_amount(value: i64, buffer: &mut [u8], length: &mut usize) -> u32
    ensures { PutsText (signed_decimal value) buffer.old buffer.new length.new result }
{
    put(Buffer::new().format(value).as_bytes(), buffer, length)
}

/// Shows a boolean. Returns `BadFlag` if the value is neither 0 nor 1.
#[tactic(auto, using(config_boolean::specs::Laws::Boolean::boolean_has_text))]
#[unsafe(no_mangle)]
pub extern "C" fn gcv_raw_show_boolean(value: u32, buffer: &mut [u8], length: &mut usize) -> u32
    ensures { Shows (λ v. flag_number v.0) boolean_shown statuses.BadFlag
        value buffer.old buffer.new length.old length.new result }
{
    let Some(flag) = flag_of(value) else {
        return Status::BadFlag as u32;
    };
    put(Boolean(flag).text().as_str().as_bytes(), buffer, length)
}

/// Puts a name as it is shown. Its word or its digits are copied from where they are: a canonical text has room
/// for the longest color, and a function clears its room at entry. So no text is made here.
#[inline(always)]
fn put_name(name: Name, buffer: &mut [u8], length: &mut usize) -> u32
    ensures { PutsText (name_shown name) buffer.old buffer.new length.new result }
{
    match name {
        Name::Ansi(number) => put_palette(number, buffer, length),
        Name::Rgb(red, green, blue) => put(&rgb_bytes(red, green, blue), buffer, length),
        _ => put(name.word().unwrap_or("").as_bytes(), buffer, length),
    }
}

/// Puts a palette number.
#[inline(never)]
fn put_palette(number: u8, buffer: &mut [u8], length: &mut usize) -> u32
    ensures { PutsText (name_shown (names.Ansi number)) buffer.old buffer.new length.new result }
{
    put(Buffer::new().format(number).as_bytes(), buffer, length)
}

/// Puts a set of attributes as it is shown, and a single word from where it is, as a name's.
#[inline(always)]
fn put_set(set: Attribute, buffer: &mut [u8], length: &mut usize) -> u32
    ensures { PutsText (attribute_shown set.0) buffer.old buffer.new length.new result }
{
    match set.word() {
        Some(word) => put(word.as_bytes(), buffer, length),
        None => put_long_set(set, buffer, length),
    }
}

/// Puts any set of attributes, by its shown text.
#[inline(never)]
fn put_long_set(set: Attribute, buffer: &mut [u8], length: &mut usize) -> u32
    ensures { PutsText (attribute_shown set.0) buffer.old buffer.new length.new result }
{
    put(set.shown().as_str().as_bytes(), buffer, length)
}

/// Puts any color, by its shown text. The one text here is filled in its place, so that no other is cleared.
#[inline(never)]
fn put_long_color(color: Color, buffer: &mut [u8], length: &mut usize) -> u32
    ensures { PutsText (color_shown color) buffer.old buffer.new length.new result }
{
    let mut text = CanonicalText::new();
    color.show(&mut text);
    put(text.as_str().as_bytes(), buffer, length)
}

/// Shows a name. Returns `BadName` if the struct represents no name.
#[unsafe(no_mangle)]
pub extern "C" fn gcv_raw_show_name(value: &GcvName, buffer: &mut [u8], length: &mut usize) -> u32
    ensures { Shows name_struct name_shown statuses.BadName
        value.now buffer.old buffer.new length.old length.new result }
{
    let Some(name) = name_of(*value) else {
        return Status::BadName as u32;
    };
    put_name(name, buffer, length)
}

/// Shows a set of attributes: the words of its known bits.
#[unsafe(no_mangle)]
pub extern "C" fn gcv_raw_show_attribute(bits: u32, buffer: &mut [u8], length: &mut usize) -> u32
    ensures { PutsText (attribute_shown bits) buffer.old buffer.new length.new result }
{
    put_set(Attribute::from_bits_retain(bits), buffer, length)
}

/// Shows a color. Returns `BadName` if the struct has an invalid name.
#[unsafe(no_mangle)]
pub extern "C" fn gcv_raw_show_color(value: &GcvColor, buffer: &mut [u8], length: &mut usize) -> u32
    ensures { Shows color_struct color_shown statuses.BadName
        value.now buffer.old buffer.new length.old length.new result }
{
    let Some(color) = color_of(*value) else {
        return Status::BadName as u32;
    };
    match (
        color.foreground,
        color.background,
        color.attributes.is_empty(),
    ) {
        (Some(name), None, true) => put_name(name, buffer, length),
        (None, None, _) => put_set(color.attributes, buffer, length),
        _ => put_long_color(color, buffer, length),
    }
}

/// Puts the escape sequence of a color. Returns `BadName` if the struct has an invalid name.
#[unsafe(no_mangle)]
pub extern "C" fn gcv_raw_escape_color(
    value: &GcvColor,
    buffer: &mut [u8],
    length: &mut usize,
) -> u32
    ensures { Shows color_struct escape_sequence statuses.BadName
        value.now buffer.old buffer.new length.old length.new result }
{
    let Some(color) = color_of(*value) else {
        return Status::BadName as u32;
    };
    put(color.escape().as_str().as_bytes(), buffer, length)
}
