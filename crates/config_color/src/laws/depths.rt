//! Laws of reduced colors and of the depth of a terminal, and what `==` and `clone` return for both types.
ghost use Rattle.std.specs.Prelude.{◌≡◌, ℕ, Bool, List, Option};
ghost use Rattle.config_text.specs.Orders.{Equates, IsCopied};
ghost use Rattle.config_color.specs.declared.color.Color.{Color};
ghost use Rattle.config_color.specs.declared.depth.Depth.{Depth};
ghost use Rattle.config_color.specs.declared.depth.Shade.{Shade};
ghost use Rattle.config_color.specs.Depth.{IsNearest, ReducedColor};
ghost use Rattle.config_color.specs.Terminal.{DecidesFirst, depth_rules};

use crate::depth::Depth;
use crate::terminal::Terminal;

/// A shade has at most one nearest number in a range, and a color is reduced to at most one color at a depth.
pub fn one_reduction()
    ensures nearest { (first last : ℕ) (shade : Shade) (n m : ℕ) → IsNearest first last shade n
        → IsNearest first last shade m → n ≡ m }
    ensures color { (depth : Depth) (c d e : Color) → ReducedColor depth c d → ReducedColor depth c e
        → d ≡ e }
{}

/// The rules decide at most one depth.
pub fn one_depth()
    ensures { (is_terminal : Bool) (no_color term colorterm : Option (List ℕ)) (d e : Option Depth)
        → DecidesFirst (depth_rules is_terminal no_color term colorterm) d
        → DecidesFirst (depth_rules is_terminal no_color term colorterm) e → d ≡ e }
{}

/// Depths are equal exactly if they are the same. A clone of a depth or of a terminal is the same, and never
/// fails.
pub fn depths()
    ensures equality { Equates (◌≡◌) ⟦<Depth as PartialEq>⟧.eq }
    ensures clones { IsCopied ⟦<Depth as Clone>⟧.is_clone ⟦<Depth as Clone>⟧.is_infallible }
    ensures terminals { IsCopied ⟦<Terminal<'static> as Clone>⟧.is_clone
        ⟦<Terminal<'static> as Clone>⟧.is_infallible }
{}
