//! What `==`, `cmp`, `partial_cmp`, hashes and `clone` return for the value types, and their defaults.
ghost use Rattle.std.specs.Prelude.{◌≡◌, None, pos};
ghost use Rattle.config_text.specs.Orders.{HasOrder, IsCopied};
ghost use Rattle.config_integer.specs.declared.integer.Integer.{Integer};
ghost use Rattle.config_integer.specs.declared.amount.Amount.{Amount};
ghost use Rattle.config_integer.specs.declared.suffix.Suffix.{Suffix};
ghost use Rattle.config_integer.specs.Orders.{suffix_order, integer_order, amount_order};

use crate::amount::Amount;
use crate::integer::Integer;
use crate::suffix::Suffix;
use std::hash::Hash;

/// Suffixes are ordered by their factors, and equal ones hash equally.
pub fn suffix_order()
    ensures order { HasOrder (◌≡◌) suffix_order
        ⟦<Suffix as PartialEq>⟧.eq ⟦<Suffix as Ord>⟧.cmp ⟦<Suffix as PartialOrd>⟧.partial_cmp
        ⟦<Suffix as Hash>⟧.hash_input }
    ensures clones { IsCopied ⟦<Suffix as Clone>⟧.is_clone
        ⟦<Suffix as Clone>⟧.is_infallible }
{}

/// Integers are ordered by their numbers and then by their suffixes, one without a suffix first, and equal
/// ones hash equally; the default is 0 without a suffix.
pub fn integer_order()
    ensures order { HasOrder (◌≡◌) integer_order
        ⟦<Integer as PartialEq>⟧.eq ⟦<Integer as Ord>⟧.cmp ⟦<Integer as PartialOrd>⟧.partial_cmp
        ⟦<Integer as Hash>⟧.hash_input }
    ensures clones { IsCopied ⟦<Integer as Clone>⟧.is_clone
        ⟦<Integer as Clone>⟧.is_infallible }
    ensures default { (v : Integer) → ⟦<Integer as Default>⟧.is_default v
        → (v.value ≡ pos 0) × (v.suffix ≡ None) }
{}

/// Amounts are ordered by their numbers, and equal ones hash equally; the default is 0.
pub fn amount_order()
    ensures order { HasOrder (◌≡◌) amount_order
        ⟦<Amount as PartialEq>⟧.eq ⟦<Amount as Ord>⟧.cmp ⟦<Amount as PartialOrd>⟧.partial_cmp
        ⟦<Amount as Hash>⟧.hash_input }
    ensures clones { IsCopied ⟦<Amount as Clone>⟧.is_clone
        ⟦<Amount as Clone>⟧.is_infallible }
    ensures default { (v : Amount) → ⟦<Amount as Default>⟧.is_default v → v.0 ≡ pos 0 }
{}
