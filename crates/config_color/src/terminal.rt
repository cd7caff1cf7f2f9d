//! Whether a program writes colors, and how many, by what it knows of the place that it writes to.
ghost use Rattle.std.specs.Prelude.{◌↔◌, IsTrue, codes, option_copied};
ghost use Rattle.std.specs.Option.{IsSomeAnd};
ghost use Rattle.config_color.specs.Terminal.{DecidesFirst, EndsIn, HasWord, IsDumb, IsFilled, IsRich};
ghost use Rattle.config_color.specs.Terminal.{depth_rules};

use crate::depth::Depth;
use bstr::ByteSlice;

/// What a program knows of the place that it writes to.
///
/// ```rust
/// use gix_config_value::color::{Depth, Terminal};
///
/// let terminal = Terminal {
///     is_terminal: true,
///     no_color: None,
///     term: Some(b"xterm-256color"),
///     colorterm: None,
/// };
/// assert_eq!(rt; terminal.depth(), Some(Depth::Ansi256));
/// ```
#[derive(Clone, Copy)]
pub struct Terminal<'a> {
    /// Whether the output is a terminal, and not a file or a pipe.
    pub is_terminal: bool,
    /// The variable `NO_COLOR`, if it is set.
    pub no_color: Option<&'a [u8]>,
    /// The variable `TERM`, if it is set: the name of the terminal's kind.
    pub term: Option<&'a [u8]>,
    /// The variable `COLORTERM`, if it is set.
    pub colorterm: Option<&'a [u8]>,
}

/// Returns whether a variable is set, and not empty.
fn is_filled(variable: Option<&[u8]>) -> bool
    ensures { IsTrue result ↔ (IsFilled (option_copied variable.entry)) }
{
    match variable {
        None => false,
        Some(value) => !value.is_empty(),
    }
}

/// Returns whether `TERM` is missing, or names a terminal without abilities.
fn is_dumb(term: Option<&[u8]>) -> bool
    ensures { IsTrue result ↔ (IsDumb (option_copied term.entry)) }
{
    match term {
        None => true,
        Some(name) => name == b"dumb".as_slice(),
    }
}

/// Returns whether `COLORTERM` stands for all colors.
fn is_rich(colorterm: Option<&[u8]>) -> bool
    ensures { IsTrue result ↔ (IsRich (option_copied colorterm.entry)) }
{
    match colorterm {
        None => false,
        Some(value) => value == b"truecolor".as_slice() || value == b"24bit".as_slice(),
    }
}

/// Returns whether `TERM` names an entry of terminfo for all colors.
fn is_direct(term: Option<&[u8]>) -> bool
    ensures { IsTrue result ↔ (IsSomeAnd (option_copied term.entry) (EndsIn (codes "-direct"))) }
{
    match term {
        None => false,
        Some(name) => name.ends_with(b"-direct"),
    }
}

/// Returns whether `TERM` names a terminal with a palette of 256 colors.
fn has_palette(term: Option<&[u8]>) -> bool
    ensures { IsTrue result ↔ (IsSomeAnd (option_copied term.entry) (HasWord (codes "256color"))) }
{
    match term {
        None => false,
        Some(name) => name.contains_str(b"256color"),
    }
}

impl Terminal<'_> {
    /// Returns how many colors to write with, or `None` for a text without colors: docs/GRAMMAR.md, Fewer
    /// colors. The first of these rules that applies decides:
    ///
    /// 1. What is not a terminal gets no colors.
    /// 2. `NO_COLOR`, if it is set and not empty, refuses colors, as <https://no-color.org> says.
    /// 3. A terminal without `TERM`, or whose `TERM` is `dumb`, has no colors, as Git judges it.
    /// 4. `COLORTERM` of `truecolor` or `24bit` is `Depth::TrueColor`.
    /// 5. `TERM` that ends in `-direct` is `Depth::TrueColor`, as in the entries of terminfo.
    /// 6. `TERM` that contains `256color` is `Depth::Ansi256`.
    /// 7. Any other terminal is `Depth::Ansi16`.
    ///
    /// ```rust
    /// use gix_config_value::color::{Depth, Terminal};
    ///
    /// let terminal = Terminal {
    ///     is_terminal: true,
    ///     no_color: Some(b""),
    ///     term: Some(b"xterm"),
    ///     colorterm: Some(b"truecolor"),
    /// };
    /// assert_eq!(rt; terminal.depth(), Some(Depth::TrueColor));
    /// let refused = Terminal { no_color: Some(b"1"), ..terminal };
    /// assert_eq!(rt; refused.depth(), None);
    /// ```
    pub fn depth(&self) -> Option<Depth>
        ensures { DecidesFirst (depth_rules self.now.is_terminal (option_copied self.now.no_color)
            (option_copied self.now.term) (option_copied self.now.colorterm)) result }
    {
        if !self.is_terminal || is_filled(self.no_color) || is_dumb(self.term) {
            return None;
        }
        if is_rich(self.colorterm) || is_direct(self.term) {
            return Some(Depth::TrueColor);
        }
        if has_palette(self.term) {
            return Some(Depth::Ansi256);
        }
        Some(Depth::Ansi16)
    }
}
