//! Laws about colors and about the words of their texts.
ghost use Rattle.std.specs.Prelude.{◌≡◌, ◌↔◌, ◌⊎◌, ◌++◌, ℕ, List, length, Option, None};
ghost use Rattle.config_color.specs.declared.color.Color.{Color};
ghost use Rattle.config_color.specs.declared.escape.TheConstants.{LONGEST_ESCAPE};
ghost use Rattle.config_color.specs.Color.{ColorText, CanonicalColor, PartFits, AreKnown};
ghost use Rattle.config_color.specs.Composition.{Composes, IsOver, Joined, HaveTooManyNames};
ghost use Rattle.config_color.specs.Composition.{Moves, SameWords};
ghost use Rattle.config_color.specs.Escape.{escape_sequence};
ghost use Rattle.config_color.specs.Space.{Space};
ghost use Rattle.config_text.specs.Value.{HasText, IsRefused, IsTextOf};
ghost use Rattle.config_color.specs.Words.{Words};

/// A color has a text exactly if each of its set bits has a constant, and it has no background
/// without a foreground.
pub fn known_and_beside()
    ensures { (c : Color) → PartFits c.foreground → PartFits c.background
        → (HasText ColorText c)
        ↔ (AreKnown c.attributes.0 × (c.foreground ≡ None → c.background ≡ None)) }
{}

/// The numbers of a color that was read are bytes.
pub fn numbers_fit()
    ensures { (text : List ℕ) (c : Color) → ColorText text c
        → PartFits c.foreground × PartFits c.background }
{}

/// Each text has exactly one list of words.
pub fn one_words()
    ensures { (text : List ℕ)
        → (ws : List (List ℕ)) × Words text ws × ((vs : List (List ℕ)) → Words text vs → vs ≡ ws) }
{}

/// The words of a text are those of the part before any white space in it, then those of the part after it.
pub fn joined_words()
    ensures { (before space rest : List ℕ) (ws vs : List (List ℕ)) → Space space
        → Words before ws → Words rest vs → Words (before ++ space ++ rest) (ws ++ vs) }
{}

/// Two texts joined by white space have a color exactly if both have a color and the two colors have a
/// composition, which is that color. They are refused exactly if one of them is, or if there are more than
/// two names.
pub fn joined()
    ensures read { (front space back : List ℕ) (c : Color) → Space space
        → (ColorText (front ++ space ++ back) c) ↔ (Joined front back c) }
    ensures refused { (front space back : List ℕ) → Space space
        → (IsRefused ColorText (front ++ space ++ back))
        ↔ (IsRefused ColorText front ⊎ IsRefused ColorText back ⊎ HaveTooManyNames front back) }
{}

/// `compose` has one result for two colors: their only composition; or `None` if one of them has no text, or if
/// they have no composition.
pub fn one_composition()
    ensures { (a b : Color) (r s : Option Color) → Composes a b r → Composes a b s → r ≡ s }
{}

/// Two texts have the same color exactly if their words have the same names in the same order, and
/// attributes of the same bits.
pub fn same_words()
    ensures { (a b : List ℕ) (v w : Color) → ColorText a v → ColorText b w
        → (v ≡ w) ↔ (SameWords a b) }
{}

/// Moving one whole attribute word to another place, or repeating it, changes nothing: both texts have the
/// same color, or neither has a color.
pub fn moved_words()
    ensures { (t u : List ℕ) (ws vs : List (List ℕ)) (c : Color) → Words t ws → Words u vs
        → Moves ws vs → (ColorText t c) ↔ (ColorText u c) }
{}

/// Colors with the same canonical text have the same escape sequence.
pub fn one_sequence()
    ensures { (c d : Color) (text : List ℕ) → IsTextOf ColorText CanonicalColor c text
        → IsTextOf ColorText CanonicalColor d text → escape_sequence c ≡ escape_sequence d }
{}

/// A color has an escape sequence of 69 bytes, and no color has a longer one: [`Color::escape`].
///
/// [`Color::escape`]: crate::color::Color::escape
pub fn longest_sequence()
    ensures bytes { LONGEST_ESCAPE ≡ 69 }
    ensures color { (c : Color) × (length (escape_sequence c) ≡ LONGEST_ESCAPE) }
{}

/// `over` has one result for two colors.
pub fn one_layering()
    ensures { (base top c d : Color) → IsOver base top c → IsOver base top d → c ≡ d }
{}
