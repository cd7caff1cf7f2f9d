//! What `==` and `clone` return for items.
ghost use Rattle.std.specs.Prelude.{◌≡◌};
ghost use Rattle.config_text.specs.Orders.{Equates, IsCopied};
ghost use Rattle.config_word.specs.declared.item.Item.{Item};

use crate::item::Item;

/// Items are equal exactly if they are the same.
pub fn items()
    ensures equality { Equates (◌≡◌) ⟦<Item as PartialEq>⟧.eq }
    ensures clones { IsCopied ⟦<Item as Clone>⟧.is_clone
        ⟦<Item as Clone>⟧.is_infallible }
{}
