//! What `clone` returns.
ghost use Rattle.config_text.specs.Orders.{IsCopied};

use crate::answer::Ending;
use crate::line::{Form, Name, Origin, Place, Unfiled};
use crate::typed::{Homes, Outcome, Shown};

/// A clone is the same, and never fails.
pub fn copies()
    ensures shown { IsCopied ⟦<Shown as Clone>⟧.is_clone ⟦<Shown as Clone>⟧.is_infallible }
    ensures homes { IsCopied ⟦<Homes<'static> as Clone>⟧.is_clone ⟦<Homes<'static> as Clone>⟧.is_infallible }
    ensures unfiled { IsCopied ⟦<Unfiled as Clone>⟧.is_clone ⟦<Unfiled as Clone>⟧.is_infallible }
    ensures outcomes { IsCopied ⟦<Outcome as Clone>⟧.is_clone ⟦<Outcome as Clone>⟧.is_infallible }
    ensures endings { IsCopied ⟦<Ending as Clone>⟧.is_clone ⟦<Ending as Clone>⟧.is_infallible }
    ensures origins { IsCopied ⟦<Origin as Clone>⟧.is_clone ⟦<Origin as Clone>⟧.is_infallible }
    ensures forms { IsCopied ⟦<Form as Clone>⟧.is_clone ⟦<Form as Clone>⟧.is_infallible }
    ensures names { IsCopied ⟦<Name<'static, 'static> as Clone>⟧.is_clone ⟦<Name<'static, 'static> as Clone>⟧.is_infallible }
    ensures places { IsCopied ⟦<Place<'static> as Clone>⟧.is_clone ⟦<Place<'static> as Clone>⟧.is_infallible }
{}
