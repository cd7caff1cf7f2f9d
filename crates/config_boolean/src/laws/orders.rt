//! What `==`, `cmp`, `partial_cmp`, hashes and `clone` return for booleans, and the default.
ghost use Rattle.std.specs.Prelude.{◌≡◌, false};
ghost use Rattle.config_text.specs.Orders.{HasOrder, IsCopied};
ghost use Rattle.config_boolean.specs.declared.boolean.Boolean.{Boolean};
ghost use Rattle.config_boolean.specs.Orders.{boolean_order};

use crate::boolean::Boolean;
use std::hash::Hash;

/// False comes before true, and is the default; equal booleans hash equally.
pub fn boolean_order()
    ensures order { HasOrder (◌≡◌) boolean_order
        ⟦<Boolean as PartialEq>⟧.eq ⟦<Boolean as Ord>⟧.cmp ⟦<Boolean as PartialOrd>⟧.partial_cmp
        ⟦<Boolean as Hash>⟧.hash_input }
    ensures clones { IsCopied ⟦<Boolean as Clone>⟧.is_clone
        ⟦<Boolean as Clone>⟧.is_infallible }
    ensures default { (v : Boolean) → ⟦<Boolean as Default>⟧.is_default v → v.0 ≡ false }
{}
