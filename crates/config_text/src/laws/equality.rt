//! What `==` and `clone` return for faults, refusals and errors.
ghost use Rattle.std.specs.Prelude.{◌≡◌};
ghost use Rattle.config_text.specs.Faults.{fault_text};
ghost use Rattle.config_text.specs.Orders.{Equates, IsCopied};
ghost use Rattle.config_text.specs.Refusals.{IsSameError, IsSameReturned};
ghost use Rattle.config_text.specs.Settings.{IsSameRefused};
ghost use Rattle.config_text.specs.declared.errors.Fault.{Fault};
ghost use Rattle.config_text.specs.declared.errors.Error.{Error};
ghost use Rattle.config_text.specs.declared.errors.Returned.{Returned};
ghost use Rattle.config_text.specs.declared.json.JsonError.{JsonError};
ghost use Rattle.config_text.specs.declared.settings.Refused.{Refused};

use crate::errors::{Error, Fault, Returned};
use crate::json::JsonError;
use crate::settings::Refused;

/// Faults are equal exactly if they are the same, and no two of them have the same text.
pub fn faults()
    ensures equality { Equates (◌≡◌) ⟦<Fault as PartialEq>⟧.eq }
    ensures clones { IsCopied ⟦<Fault as Clone>⟧.is_clone ⟦<Fault as Clone>⟧.is_infallible }
    ensures texts { (f g : Fault) → fault_text f ≡ fault_text g → f ≡ g }
{}

/// Refusals of borrowed texts are equal exactly if their faults and the bytes of their inputs are the same.
pub fn errors()
    ensures equality { Equates IsSameError ⟦<Error<'static> as PartialEq>⟧.eq }
    ensures clones { IsCopied ⟦<Error<'static> as Clone>⟧.is_clone
        ⟦<Error<'static> as Clone>⟧.is_infallible }
{}

/// Refusals that hand the input back are equal exactly if their faults are the same, and their inputs are
/// equal by the `==` of their type.
pub fn returned<V: PartialEq + Drop>()
    ensures { Equates (IsSameReturned V.eq) ⟦<Returned<V> as PartialEq>⟧.eq }
{}

/// Refused settings are equal exactly if their indices and the bytes of their texts are the same.
pub fn refused()
    ensures equality { Equates IsSameRefused ⟦<Refused<'static> as PartialEq>⟧.eq }
    ensures clones { IsCopied ⟦<Refused<'static> as Clone>⟧.is_clone
        ⟦<Refused<'static> as Clone>⟧.is_infallible }
{}

/// Reasons why a value has no JSON value are equal exactly if they are the same.
pub fn json_errors()
    ensures equality { Equates (◌≡◌) ⟦<JsonError as PartialEq>⟧.eq }
    ensures clones { IsCopied ⟦<JsonError as Clone>⟧.is_clone
        ⟦<JsonError as Clone>⟧.is_infallible }
{}
