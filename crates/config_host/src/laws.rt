//! What `clone` returns.
ghost use Rattle.config_text.specs.Orders.{IsCopied};

use crate::options::{About, Ends, Given, Misuse, Takes};
use crate::terminal::When;
use crate::users::Users;

/// A clone is the same, and never fails.
pub fn copies()
    ensures users { IsCopied ⟦<Users<'static> as Clone>⟧.is_clone ⟦<Users<'static> as Clone>⟧.is_infallible }
    ensures times { IsCopied ⟦<When as Clone>⟧.is_clone ⟦<When as Clone>⟧.is_infallible }
{}

/// A clone of what options are and say is the same, and never fails.
pub fn copied_options()
    ensures takes { IsCopied ⟦<Takes as Clone>⟧.is_clone ⟦<Takes as Clone>⟧.is_infallible }
    ensures given { IsCopied ⟦<Given<'static> as Clone>⟧.is_clone ⟦<Given<'static> as Clone>⟧.is_infallible }
    ensures ends { IsCopied ⟦<Ends as Clone>⟧.is_clone ⟦<Ends as Clone>⟧.is_infallible }
    ensures misuses { IsCopied ⟦<Misuse<'static> as Clone>⟧.is_clone ⟦<Misuse<'static> as Clone>⟧.is_infallible }
    ensures abouts { IsCopied ⟦<About as Clone>⟧.is_clone ⟦<About as Clone>⟧.is_infallible }
{}
