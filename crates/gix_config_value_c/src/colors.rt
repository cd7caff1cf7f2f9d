//! Two colors as one, and fewer colors.
ghost use Rattle.gix_config_value_c.specs.Colors.{ComposesInto, LaysOver, ReducesInto};
ghost use Rattle.gix_config_value_c.specs.Terminals.{TellsDepth};

use crate::numbers::{depth_of, flag_of, written_depth};
use crate::paths::given;
use crate::status::Status;
use crate::structs::{GcvColor, color_of, color_struct};
use gix_config_value::canonical::{Value, compose};
use gix_config_value::color::{Terminal, over};

/// Puts into `out` the color that a text of the first, white space and a text of the second read to together.
/// Returns `BadName` if a struct has an invalid name, otherwise `NoText` if one of the colors has no text, or
/// otherwise `TooManyNames` if they have more than two names together. After these `out` is left alone.
#[unsafe(no_mangle)]
pub extern "C" fn gcv_raw_compose(first: &GcvColor, second: &GcvColor, out: &mut GcvColor) -> u32
    ensures { ComposesInto first.now second.now out.old out.new result }
{
    let Some(first) = color_of(*first) else {
        return Status::BadName as u32;
    };
    let Some(second) = color_of(*second) else {
        return Status::BadName as u32;
    };
    if !first.has_text() {
        return Status::NoText as u32;
    }
    if !second.has_text() {
        return Status::NoText as u32;
    }
    match compose(first, second) {
        Some(both) => {
            *out = color_struct(both);
            Status::Ok as u32
        }
        None => Status::TooManyNames as u32,
    }
}

/// Puts into `out` the color `base` with what `top` has in its place. Returns `BadName`, and leaves `out`
/// alone, if a struct has an invalid name.
#[unsafe(no_mangle)]
pub extern "C" fn gcv_raw_over(base: &GcvColor, top: &GcvColor, out: &mut GcvColor) -> u32
    ensures { LaysOver base.now top.now out.old out.new result }
{
    let Some(base) = color_of(*base) else {
        return Status::BadName as u32;
    };
    let Some(top) = color_of(*top) else {
        return Status::BadName as u32;
    };
    *out = color_struct(over(base, top));
    Status::Ok as u32
}

/// Puts into `out` what is left of a color on a terminal with so many colors. Returns `BadName` if the struct
/// has an invalid name, or otherwise `BadDepth` if no depth has so many colors. After these `out` is left
/// alone.
#[unsafe(no_mangle)]
pub extern "C" fn gcv_raw_reduce_color(value: &GcvColor, colors: u32, out: &mut GcvColor) -> u32
    ensures { ReducesInto value.now colors out.old out.new result }
{
    let Some(color) = color_of(*value) else {
        return Status::BadName as u32;
    };
    let Some(depth) = depth_of(colors) else {
        return Status::BadDepth as u32;
    };
    *out = color_struct(color.reduced(depth));
    Status::Ok as u32
}

/// Puts into `out` how many colors a program writes with, or 0 if it writes none. A variable is set if its
/// flag is 1. Returns `BadFlag`, and leaves `out` alone, if a flag is neither 0 nor 1.
#[unsafe(no_mangle)]
pub extern "C" fn gcv_raw_terminal_depth(
    is_terminal: u32,
    has_no_color: u32,
    no_color: &[u8],
    has_term: u32,
    term: &[u8],
    has_colorterm: u32,
    colorterm: &[u8],
    out: &mut u32,
) -> u32
    ensures { TellsDepth is_terminal (has_no_color, no_color.now) (has_term, term.now)
        (has_colorterm, colorterm.now) out.old out.new result }
{
    let Some(is_terminal) = flag_of(is_terminal) else {
        return Status::BadFlag as u32;
    };
    let Some(no_color) = given(has_no_color, no_color) else {
        return Status::BadFlag as u32;
    };
    let Some(term) = given(has_term, term) else {
        return Status::BadFlag as u32;
    };
    let Some(colorterm) = given(has_colorterm, colorterm) else {
        return Status::BadFlag as u32;
    };
    let terminal = Terminal {
        is_terminal,
        no_color,
        term,
        colorterm,
    };
    *out = written_depth(terminal.depth());
    Status::Ok as u32
}
