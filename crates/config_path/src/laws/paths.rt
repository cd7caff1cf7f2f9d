//! Laws about paths.
ghost use Rattle.std.specs.Prelude.{◌≡◌, ◌++◌, ◌↔◌, ℕ, List, Result};
ghost use Rattle.config_text.specs.Orders.{HasOrder};
ghost use Rattle.config_path.specs.declared.path.Path.{Path};
ghost use Rattle.config_path.specs.Path.{IsPathOf, IsEqualPath, path_order};
ghost use Rattle.config_path.specs.Interpolation.{Form, HasForm, Gives, PathTable, Interpolated, known_in};
ghost use Rattle.config_path.specs.Interpolation.{PathResult, HaveOneHome, IsOutOfMemory, returned};
ghost use Rattle.config_path.specs.Interpolation.PathResult.{fault};
ghost use Rattle.config_path.specs.declared.interpolate.Context.{Context};
ghost use Rattle.config_path.specs.declared.interpolate.Error.{Error};
ghost use Rattle.config_path.specs.declared.interpolate.Error.TheVariants.{Memory};
ghost use Rattle.std.specs.declared.string.String.{String};
ghost use Rattle.std.specs.declared.alloc.Global.{Global};
ghost use Rattle.std.specs.declared.alloc.AllocError.{AllocError};

use crate::path::Path;
use bstr::BString;
use std::hash::Hash;

/// A text gives only one path.
pub fn one_path()
    ensures { (text : List ℕ) (p q : Path) → IsPathOf text p → IsPathOf text q → IsEqualPath p q }
{}

/// Paths are equal exactly if their bytes and their flags are. They are ordered by their bytes and then by
/// their flag, `false` first. The bytes and then the flag are hashed.
pub fn path_order()
    ensures order { HasOrder IsEqualPath path_order ⟦<Path as PartialEq>⟧.eq ⟦<Path as Ord>⟧.cmp
        ⟦<Path as PartialOrd>⟧.partial_cmp ⟦<Path as Hash>⟧.hash_input }
    ensures hash { (p : Path) → ⟦<Path as Hash>⟧.hash_input p
        ≡ ⟦<BString as Hash>⟧.hash_input p.value ++ ⟦<bool as Hash>⟧.hash_input p.is_optional }
{}

/// A value has one result in the path table, if the lookup returns only one home for each name.
///
/// - `form`: a value has exactly one form.
/// - `table`: a form has one result.
/// - `memory`: the table never gives `Memory`.
/// - `result`: two results of one value are the same, if both or neither of them are `Memory`.
pub fn one_result<'a, F>()
where
    F: FnOnce(&str) -> Option<&'a str> + Drop,
    ensures form { (value : List ℕ)
        → (form : Form) × HasForm value form × ((f : Form) → HasForm value f → f ≡ form) }
    ensures table { (context : Context F) (form : Form) (r s : PathResult)
        → HaveOneHome (known_in F.FnOnce context).users
        → Gives (known_in F.FnOnce context) form r → Gives (known_in F.FnOnce context) form s → r ≡ s }
    ensures memory { (context : Context F) (value : List ℕ) (e : AllocError)
        → ¬ (PathTable (known_in F.FnOnce context) value (fault (Memory e))) }
    ensures result { (context : Context F) (value : List ℕ) (r s : Result (String Global) Error)
        → HaveOneHome (known_in F.FnOnce context).users
        → Interpolated (known_in F.FnOnce context) value r → Interpolated (known_in F.FnOnce context) value s
        → (IsOutOfMemory r ↔ IsOutOfMemory s) → returned r ≡ returned s }
{}
