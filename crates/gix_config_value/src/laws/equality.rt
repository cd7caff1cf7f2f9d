//! What `==` and `clone` return for kinds, refusals, and errors of the program.
ghost use Rattle.std.specs.Prelude.{◌≡◌};
ghost use Rattle.config_text.specs.Orders.{Equates, IsCopied};
ghost use Rattle.gix_config_value.specs.declared.kind.Kind.{Kind};
ghost use Rattle.gix_config_value.specs.declared.kind.UnknownKind.{UnknownKind};
ghost use Rattle.gix_config_value.specs.declared.refusal.Refusal.{Refusal};
ghost use Rattle.gix_config_value.specs.declared.program.RunError.{RunError};

use crate::kind::{Kind, UnknownKind};
use crate::program::RunError;
use crate::refusal::Refusal;

/// Kinds are equal exactly if they are the same.
pub fn kinds()
    ensures equality { Equates (◌≡◌) ⟦<Kind as PartialEq>⟧.eq }
    ensures clones { IsCopied ⟦<Kind as Clone>⟧.is_clone
        ⟦<Kind as Clone>⟧.is_infallible }
{}

/// All values of `UnknownKind` are equal.
pub fn unknown_kinds()
    ensures equality { Equates (◌≡◌) ⟦<UnknownKind as PartialEq>⟧.eq }
    ensures clones { IsCopied ⟦<UnknownKind as Clone>⟧.is_clone
        ⟦<UnknownKind as Clone>⟧.is_infallible }
{}

/// Reasons why a text has no value of a kind are equal exactly if they are the same.
pub fn refusals()
    ensures equality { Equates (◌≡◌) ⟦<Refusal as PartialEq>⟧.eq }
    ensures clones { IsCopied ⟦<Refusal as Clone>⟧.is_clone
        ⟦<Refusal as Clone>⟧.is_infallible }
{}

/// Errors of a run are equal exactly if they are the same.
pub fn run_errors()
    ensures equality { Equates (◌≡◌) ⟦<RunError as PartialEq>⟧.eq }
    ensures clones { IsCopied ⟦<RunError as Clone>⟧.is_clone
        ⟦<RunError as Clone>⟧.is_infallible }
{}
