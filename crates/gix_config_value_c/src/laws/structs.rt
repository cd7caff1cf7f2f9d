//! Laws about the structs that represent values in C.
ghost use Rattle.std.specs.Prelude.{◌≡◌};
ghost use Rattle.config_text.specs.Orders.{Equates, IsCopied};
ghost use Rattle.gix_config_value_c.specs.Answers.{TellsApart};
ghost use Rattle.gix_config_value_c.specs.Structs.{integer_struct, name_struct, part_struct, color_struct};

use crate::roles::Role;
use crate::status::Status;
use crate::structs::{GcvColor, GcvInteger, GcvName};

/// No two values have the same struct: two structs of values are equal exactly if the values are equal.
pub fn structs()
    ensures integers { TellsApart integer_struct }
    ensures names { TellsApart name_struct }
    ensures parts { TellsApart part_struct }
    ensures colors { TellsApart color_struct }
{}

/// Structs of integers are equal exactly if all of their fields are.
pub fn integers()
    ensures equality { Equates (◌≡◌) ⟦<GcvInteger as PartialEq>⟧.eq }
    ensures clones { IsCopied ⟦<GcvInteger as Clone>⟧.is_clone ⟦<GcvInteger as Clone>⟧.is_infallible }
{}

/// Structs of names are equal exactly if all of their fields are.
pub fn names()
    ensures equality { Equates (◌≡◌) ⟦<GcvName as PartialEq>⟧.eq }
    ensures clones { IsCopied ⟦<GcvName as Clone>⟧.is_clone ⟦<GcvName as Clone>⟧.is_infallible }
{}

/// Structs of colors are equal exactly if all of their fields are.
pub fn colors()
    ensures equality { Equates (◌≡◌) ⟦<GcvColor as PartialEq>⟧.eq }
    ensures clones { IsCopied ⟦<GcvColor as Clone>⟧.is_clone ⟦<GcvColor as Clone>⟧.is_infallible }
{}

/// A clone of a status or of a role is equal to it, and never fails.
pub fn enums()
    ensures statuses { IsCopied ⟦<Status as Clone>⟧.is_clone ⟦<Status as Clone>⟧.is_infallible }
    ensures roles { IsCopied ⟦<Role as Clone>⟧.is_clone ⟦<Role as Clone>⟧.is_infallible }
{}
