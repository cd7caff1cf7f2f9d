//! The composition of two colors, and one color over another.
ghost use Rattle.std.specs.Prelude.{◌≡◌};
ghost use Rattle.config_color.specs.Color.{ColorText};
ghost use Rattle.config_color.specs.Reading.Color.{places_of};
ghost use Rattle.config_color.specs.Composition.{Composes, IsOver};
ghost use Rattle.config_text.specs.Value.{HasText};

use crate::color::Color;
use bitflags::Flags;
use config_text::value::Value;
use config_word::name::Name;

/// Returns the names of `a` and then those of `b` as a foreground and a background, or `None` if there are
/// more than two names.
fn places(a: Color, b: Color) -> Option<(Option<Name>, Option<Name>)>
    ensures { result ≡ places_of a.foreground a.background b.foreground b.background }
{
    match (a.foreground, a.background) {
        (None, _) => Some((b.foreground, b.background)),
        (Some(first), None) => match b.background {
            None => Some((Some(first), b.foreground)),
            Some(_) => None,
        },
        (Some(first), Some(second)) => match b.foreground {
            None => Some((Some(first), Some(second))),
            Some(_) => None,
        },
    }
}

/// Returns the color of a text of `a`, white space and a text of `b`: docs/GRAMMAR.md, Colors. The names of
/// `a` and then those of `b` become its foreground and background, and it has the attributes of both. Returns
/// `None` if there are more than two names, or if one of the two colors has no text, as
/// [`Value::has_text`](config_text::value::Value::has_text) tells.
///
/// ```rust
/// use gix_config_value::Color;
/// use gix_config_value::canonical::compose;
///
/// let (base, over) = (Color::try_from("bold red")?, Color::try_from("ul blue")?);
/// let both = Color::try_from("bold red ul blue")?;
/// assert_eq!(rt; compose(base, over), Some(both));
/// assert_eq!(rt; compose(base, both), None); // three names
/// ```
pub fn compose(a: Color, b: Color) -> Option<Color>
    ensures { Composes a b result }
{
    if !a.has_text() || !b.has_text() {
        return None;
    }
    let (foreground, background) = places(a, b)?;
    let attributes = a.attributes.union(b.attributes);
    Some(Color {
        foreground,
        background,
        attributes,
    })
}

/// Returns `top` over `base`, as a theme and the changes of its user. The foreground and the background of
/// `top` replace those of `base`, each if `top` has it, and `normal` is a name like the others. An attribute
/// of `top` takes its opposite out of `base`, as `nobold` takes out `bold`. All other attributes of both
/// stay: `reset`, bits without a constant, and two opposites that `top` has itself.
///
/// The result has a text if both colors have one: docs/GRAMMAR.md, Colors.
///
/// ```rust
/// use gix_config_value::Color;
/// use gix_config_value::color::over;
///
/// let (theme, user) = (Color::try_from("bold red")?, Color::try_from("nobold blue")?);
/// assert_eq!(rt; over(theme, user), Color::try_from("blue nobold")?);
/// ```
pub fn over(base: Color, top: Color) -> Color
    ensures over { IsOver base top result }
    ensures text { HasText ColorText base → HasText ColorText top → HasText ColorText result }
{
    let stays = base.attributes.difference(top.attributes.opposites());
    Color {
        foreground: top.foreground.or(base.foreground),
        background: top.background.or(base.background),
        attributes: top.attributes.union(stays),
    }
}
