//! What `==`, `cmp`, `partial_cmp`, hashes and `clone` return for names and sets of attributes, and what the
//! default is.
ghost use Rattle.std.specs.Prelude.{◌≡◌};
ghost use Rattle.config_text.specs.Orders.{HasOrder, IsCopied};
ghost use Rattle.config_word.specs.declared.attribute.Attribute.{Attribute};
ghost use Rattle.config_word.specs.Orders.{attribute_order, name_order};

use crate::attribute::Attribute;
use crate::name::Name;
use std::hash::Hash;

/// Sets of attributes are ordered by the number that their bits write, and equal ones hash equally;
/// the default is the empty set.
pub fn attribute_order()
    ensures order { HasOrder (◌≡◌) attribute_order
        ⟦<Attribute as PartialEq>⟧.eq ⟦<Attribute as Ord>⟧.cmp
        ⟦<Attribute as PartialOrd>⟧.partial_cmp ⟦<Attribute as Hash>⟧.hash_input }
    ensures clones { IsCopied ⟦<Attribute as Clone>⟧.is_clone
        ⟦<Attribute as Clone>⟧.is_infallible }
    ensures default { (a : Attribute) → ⟦<Attribute as Default>⟧.is_default a → a.0 ≡ 0 }
{}

/// Names are ordered by their places: words, then palette numbers, then red, green and blue. If the places
/// are equal, the numbers decide. Equal names hash equally.
pub fn name_order()
    ensures order { HasOrder (◌≡◌) name_order
        ⟦<Name as PartialEq>⟧.eq ⟦<Name as Ord>⟧.cmp
        ⟦<Name as PartialOrd>⟧.partial_cmp ⟦<Name as Hash>⟧.hash_input }
    ensures clones { IsCopied ⟦<Name as Clone>⟧.is_clone
        ⟦<Name as Clone>⟧.is_infallible }
{}
