//! The numbers that represent roles, kinds, suffixes, depths and truth values in C.
ghost use Rattle.std.specs.Prelude.{◌≡◌, Some};
ghost use Rattle.gix_config_value_c.specs.Numbers.{kind_number, suffix_number, flag_number, StandsFor};
ghost use Rattle.gix_config_value_c.specs.Numbers.{role_number, written_depth, depth_number};

use crate::roles::Role;
use gix_config_value::canonical::Kind;
use gix_config_value::color::Depth;
use gix_config_value::integer::Suffix;

/// Returns the number of a role.
pub(crate) fn role_number(role: Role) -> u32
    ensures { result ≡ role_number role }
{
    role as u32
}

/// Returns the kind with this number, or `None` if no kind has it.
pub(crate) fn kind_of(number: u32) -> Option<Kind>
    ensures { StandsFor kind_number number result }
{
    match number {
        1 => Some(Kind::Suffix),
        2 => Some(Kind::Integer),
        3 => Some(Kind::Amount),
        4 => Some(Kind::Boolean),
        5 => Some(Kind::Name),
        6 => Some(Kind::Attribute),
        7 => Some(Kind::Color),
        _ => None,
    }
}

/// Returns the number of a suffix, or 0 for no suffix.
pub(crate) fn suffix_number(suffix: Option<Suffix>) -> u32
    ensures { result ≡ suffix_number suffix }
{
    match suffix {
        None => 0,
        Some(Suffix::Kibi) => 1,
        Some(Suffix::Mebi) => 2,
        Some(Suffix::Gibi) => 3,
    }
}

/// Returns the suffix with this number, or `None` if no suffix has it.
pub(crate) fn unit_of(number: u32) -> Option<Suffix>
    ensures { StandsFor (λ s. suffix_number (Some s)) number result }
{
    match number {
        1 => Some(Suffix::Kibi),
        2 => Some(Suffix::Mebi),
        3 => Some(Suffix::Gibi),
        _ => None,
    }
}

/// Returns the suffix with this number, `Some(None)` for 0, or `None` for any other number.
pub(crate) fn suffix_of(number: u32) -> Option<Option<Suffix>>
    ensures { StandsFor suffix_number number result }
{
    if number == 0 {
        return Some(None);
    }
    let suffix = unit_of(number)?;
    Some(Some(suffix))
}

/// Returns the depth with this number, or `None` if no depth has it.
pub(crate) fn depth_of(number: u32) -> Option<Depth>
    ensures { StandsFor depth_number number result }
{
    match number {
        16 => Some(Depth::Ansi16),
        256 => Some(Depth::Ansi256),
        16777216 => Some(Depth::TrueColor),
        _ => None,
    }
}

/// Returns the number of a depth, or 0 for no colors.
pub(crate) fn written_depth(depth: Option<Depth>) -> u32
    ensures { result ≡ written_depth depth }
{
    match depth {
        None => 0,
        Some(Depth::Ansi16) => 16,
        Some(Depth::Ansi256) => 256,
        Some(Depth::TrueColor) => 16777216,
    }
}

/// Returns the number of a truth value.
pub(crate) fn flag_number(flag: bool) -> u32
    ensures { result ≡ flag_number flag }
{
    if flag { 1 } else { 0 }
}

/// Returns the truth value with this number, or `None` if the number is neither 0 nor 1.
pub(crate) fn flag_of(number: u32) -> Option<bool>
    ensures { StandsFor flag_number number result }
{
    match number {
        0 => Some(false),
        1 => Some(true),
        _ => None,
    }
}
