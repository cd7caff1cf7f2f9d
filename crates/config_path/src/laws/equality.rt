//! What `==` and `clone` return for places, classes and refusals of paths, and `clone` for the other types.
ghost use Rattle.std.specs.Prelude.{◌≡◌};
ghost use Rattle.config_text.specs.Orders.{Equates, IsCopied};
ghost use Rattle.config_path.specs.declared.interpolate.Class.{Class};
ghost use Rattle.config_path.specs.declared.interpolate.Context.{Context};
ghost use Rattle.config_path.specs.declared.interpolate.Error.{Error};
ghost use Rattle.config_path.specs.declared.interpolate.Place.{Place};
ghost use Rattle.config_path.specs.Interpolation.{IsSameError};

use crate::interpolate::{Class, Context, Error, Place};
use crate::parts::{Form, Joint, Parts};

/// Places are equal exactly if they are the same.
pub fn places()
    ensures equality { Equates (◌≡◌) ⟦<Place as PartialEq>⟧.eq }
    ensures clones { IsCopied ⟦<Place as Clone>⟧.is_clone
        ⟦<Place as Clone>⟧.is_infallible }
{}

/// Classes are equal exactly if they are the same.
pub fn classes()
    ensures equality { Equates (◌≡◌) ⟦<Class as PartialEq>⟧.eq }
    ensures clones { IsCopied ⟦<Class as Clone>⟧.is_clone
        ⟦<Class as Clone>⟧.is_infallible }
{}

/// Refusals of paths are equal exactly if they are the same; ill-formed bytes are compared by their place and
/// byte by byte.
pub fn path_errors()
    ensures equality { Equates IsSameError ⟦<Error<'static> as PartialEq>⟧.eq }
    ensures clones { IsCopied ⟦<Error<'static> as Clone>⟧.is_clone
        ⟦<Error<'static> as Clone>⟧.is_infallible }
{}

/// A clone of a form or of the parts of a path is the same, and never fails.
pub fn parts()
    ensures forms { IsCopied ⟦<Form<'static> as Clone>⟧.is_clone ⟦<Form<'static> as Clone>⟧.is_infallible }
    ensures parts { IsCopied ⟦<Parts<'static, 'static> as Clone>⟧.is_clone
        ⟦<Parts<'static, 'static> as Clone>⟧.is_infallible }
{}

/// A clone of a joint is the same, and never fails, if both are true of clones of its directory.
pub fn joints<D: Clone>()
    ensures { IsCopied D.is_clone D.is_infallible
        → IsCopied ⟦<Joint<'static, D> as Clone>⟧.is_clone ⟦<Joint<'static, D> as Clone>⟧.is_infallible }
{}

/// A clone of a context is the same context, and never fails, if both are true of clones of its lookup.
pub fn contexts<F: Clone>()
    ensures { IsCopied F.is_clone F.is_infallible
        → IsCopied ⟦<Context<'static, F> as Clone>⟧.is_clone
        ⟦<Context<'static, F> as Clone>⟧.is_infallible }
{}
