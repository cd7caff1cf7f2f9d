//! What `==`, `cmp`, `partial_cmp`, hashes and `clone` return for colors, and what the default is.
ghost use Rattle.std.specs.Prelude.{◌≡◌, None};
ghost use Rattle.config_text.specs.Orders.{HasOrder, IsCopied};
ghost use Rattle.config_color.specs.declared.color.Color.{Color};
ghost use Rattle.config_color.specs.Orders.{color_order};

use crate::color::Color;
use config_word::laws::orders::name_order;
use std::hash::Hash;

/// Colors are ordered by the foreground, then the background, `None` first in each, and then by the
/// attributes. The default color has no names and no attributes.
pub fn color_order()
    ensures order { HasOrder (◌≡◌) color_order ⟦<Color as PartialEq>⟧.eq ⟦<Color as Ord>⟧.cmp
        ⟦<Color as PartialOrd>⟧.partial_cmp ⟦<Color as Hash>⟧.hash_input }
    ensures clones { IsCopied ⟦<Color as Clone>⟧.is_clone
        ⟦<Color as Clone>⟧.is_infallible }
    ensures default { (c : Color) → ⟦<Color as Default>⟧.is_default c
        → (c.foreground ≡ None) × (c.background ≡ None) × (c.attributes.0 ≡ 0) }
{
    name_order();
}
