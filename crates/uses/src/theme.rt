//! Previews a theme: a default color, the user's color over it, and a sample on the terminal.
ghost use Rattle.std.specs.Prelude.{◌≡◌, ◌++◌, IfOk, codes};
ghost use Rattle.config_color.specs.Escape.{escape_sequence};

use gix_config_value::Color;
use gix_config_value::color::{Depth, over};
use std::alloc::{AllocError, Global};

/// What a terminal of this depth shows for the user's color, if there is one, over the default of the theme.
pub fn drawn(default: Color, user: Option<Color>, depth: Depth) -> Color {
    match user {
        Some(user) => over(default, user).reduced(depth),
        None => default.reduced(depth),
    }
}

/// A line of a preview: the name, a sample in the color, and the end of the color.
///
/// ```rust
/// use gix_config_value::Color;
/// use gix_config_value::color::Depth;
/// use uses::theme::{drawn, preview};
///
/// let (default, user) = (Color::try_from("bold red")?, Color::try_from("nobold #ff8800")?);
/// let line = preview(alloc, "old", drawn(default, Some(user), Depth::Ansi256))?;
/// assert_eq!(rt; line.as_str(), "old \u{1b}[22;38;5;208msample\u{1b}[m");
/// let line = preview(alloc, "old", drawn(default, None, Depth::Ansi256))?;
/// assert_eq!(rt; line.as_str(), "old \u{1b}[1;31msample\u{1b}[m");
/// ```
pub fn preview(alloc: Global, name: &str, color: Color) -> Result<String, AllocError>
    ensures { IfOk result (λ line. line.bytes.items
        ≡ name.now ++ codes " " ++ escape_sequence color ++ codes "sample\u{1b}[m") }
{
    let mut line = String::new(alloc);
    line.push_str(name)?;
    line.push_str(" ")?;
    line.push_str(color.escape().as_str())?;
    line.push_str("sample\u{1b}[m")?;
    Ok(line)
}
