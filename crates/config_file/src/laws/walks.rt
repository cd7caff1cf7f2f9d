//! Laws of walks over files and the files that they include.
ghost use Rattle.std.specs.Prelude.{◌≡◌, ◌++◌, ◌⊎◌, ℕ, Bool, List, true};
ghost use Rattle.config_file.specs.Walk.{Item, WalksText, HasOneContent};
ghost use Rattle.config_file.specs.declared.walk.Known.{Known};
ghost use Rattle.config_file.specs.declared.walk.FilePlace.{FilePlace};

use crate::files::Files;

/// If each name has at most one content, then a text has at most one whole walk. A walk that is cut is a
/// beginning of the whole one, and of two walks that are cut one is a beginning of the other.
pub fn one_walk<'t, S: Files<'t>>()
    ensures whole { (files : S) (known : Known) (place : FilePlace) (text : List ℕ) (a b : List (List ℕ × Item))
        → HasOneContent (S.contents files) → WalksText (S.contents files) known place text a true
        → WalksText (S.contents files) known place text b true → a ≡ b }
    ensures cut { (files : S) (known : Known) (place : FilePlace) (text : List ℕ) (a b : List (List ℕ × Item))
        (is_whole : Bool) → HasOneContent (S.contents files)
        → WalksText (S.contents files) known place text a true
        → WalksText (S.contents files) known place text b is_whole
        → (more : List (List ℕ × Item)) × (a ≡ b ++ more) }
    ensures both { (files : S) (known : Known) (place : FilePlace) (text : List ℕ) (a b : List (List ℕ × Item))
        (v w : Bool) → HasOneContent (S.contents files) → WalksText (S.contents files) known place text a v
        → WalksText (S.contents files) known place text b w
        → (more : List (List ℕ × Item)) × ((a ≡ b ++ more) ⊎ (b ≡ a ++ more)) }
{}
