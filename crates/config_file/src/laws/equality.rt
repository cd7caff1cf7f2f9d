//! What `==` and `clone` return for errors and conditions, and `clone` for the other types.
ghost use Rattle.std.specs.Prelude.{◌≡◌};
ghost use Rattle.config_text.specs.Orders.{Equates, IsCopied};
ghost use Rattle.config_file.specs.Include.{IsSameCondition};

use crate::bytes::Class;
use crate::entry::{Entry, EntryForm, EntryParts};
use crate::errors::{FileError, ItemError, Stop, Why};
use crate::files::Content;
use crate::include::{Condition, Includes, Repository, Urls};
use crate::key::{Key, KeyError};
use crate::path::{Directories, Expanded};
use crate::scope::Scope;
use crate::section::{Section, Subsection};
use crate::settings::{AddError, GetError, RefusedSetting, SettingPlace};
use crate::value::Value;
use crate::walk::{FilePlace, Known};

/// Reasons are equal exactly if they are the same.
pub fn reasons()
    ensures equality { Equates (◌≡◌) ⟦<Why as PartialEq>⟧.eq }
    ensures clones { IsCopied ⟦<Why as Clone>⟧.is_clone ⟦<Why as Clone>⟧.is_infallible }
{}

/// Errors are equal exactly if their lines and their reasons are the same.
pub fn errors()
    ensures equality { Equates (◌≡◌) ⟦<FileError as PartialEq>⟧.eq }
    ensures clones { IsCopied ⟦<FileError as Clone>⟧.is_clone ⟦<FileError as Clone>⟧.is_infallible }
{}

/// Scopes are equal exactly if they are the same.
pub fn scopes()
    ensures equality { Equates (◌≡◌) ⟦<Scope as PartialEq>⟧.eq }
    ensures clones { IsCopied ⟦<Scope as Clone>⟧.is_clone ⟦<Scope as Clone>⟧.is_infallible }
{}

/// Refusals of keys are equal exactly if they are the same.
pub fn key_errors()
    ensures equality { Equates (◌≡◌) ⟦<KeyError as PartialEq>⟧.eq }
    ensures clones { IsCopied ⟦<KeyError as Clone>⟧.is_clone ⟦<KeyError as Clone>⟧.is_infallible }
{}

/// A clone of a key is the same, and never fails.
pub fn keys()
    ensures { IsCopied ⟦<Key<'static> as Clone>⟧.is_clone ⟦<Key<'static> as Clone>⟧.is_infallible }
{}

/// Conditions are equal exactly if they are the same; their patterns are compared byte by byte.
pub fn conditions()
    ensures equality { Equates IsSameCondition ⟦<Condition<'static> as PartialEq>⟧.eq }
    ensures clones { IsCopied ⟦<Condition<'static> as Clone>⟧.is_clone
        ⟦<Condition<'static> as Clone>⟧.is_infallible }
{}

/// A clone of an entry or of a part of it is the same, and never fails.
pub fn entries()
    ensures entries { IsCopied ⟦<Entry<'static> as Clone>⟧.is_clone
        ⟦<Entry<'static> as Clone>⟧.is_infallible }
    ensures sections { IsCopied ⟦<Section<'static> as Clone>⟧.is_clone
        ⟦<Section<'static> as Clone>⟧.is_infallible }
    ensures subsections { IsCopied ⟦<Subsection<'static> as Clone>⟧.is_clone
        ⟦<Subsection<'static> as Clone>⟧.is_infallible }
    ensures values { IsCopied ⟦<Value<'static> as Clone>⟧.is_clone ⟦<Value<'static> as Clone>⟧.is_infallible }
    ensures parts { IsCopied ⟦<EntryParts<'static> as Clone>⟧.is_clone
        ⟦<EntryParts<'static> as Clone>⟧.is_infallible }
    ensures forms { IsCopied ⟦<EntryForm as Clone>⟧.is_clone ⟦<EntryForm as Clone>⟧.is_infallible }
{}

/// A clone of a class of bytes, or of where the reading of an item stops, is the same, and never fails.
pub fn items()
    ensures classes { IsCopied ⟦<Class as Clone>⟧.is_clone ⟦<Class as Clone>⟧.is_infallible }
    ensures stops { IsCopied ⟦<ItemError as Clone>⟧.is_clone ⟦<ItemError as Clone>⟧.is_infallible }
{}

/// A clone of what a walk knows or finds is the same, and never fails.
pub fn walks()
    ensures known { IsCopied ⟦<Known<'static> as Clone>⟧.is_clone ⟦<Known<'static> as Clone>⟧.is_infallible }
    ensures places { IsCopied ⟦<FilePlace<'static> as Clone>⟧.is_clone ⟦<FilePlace<'static> as Clone>⟧.is_infallible }
    ensures contents { IsCopied ⟦<Content<'static> as Clone>⟧.is_clone
        ⟦<Content<'static> as Clone>⟧.is_infallible }
    ensures includes { IsCopied ⟦<Includes<'static> as Clone>⟧.is_clone
        ⟦<Includes<'static> as Clone>⟧.is_infallible }
    ensures urls { IsCopied ⟦<Urls<'static> as Clone>⟧.is_clone ⟦<Urls<'static> as Clone>⟧.is_infallible }
    ensures repositories { IsCopied ⟦<Repository<'static> as Clone>⟧.is_clone
        ⟦<Repository<'static> as Clone>⟧.is_infallible }
    ensures directories { IsCopied ⟦<Directories<'static> as Clone>⟧.is_clone
        ⟦<Directories<'static> as Clone>⟧.is_infallible }
    ensures expanded { IsCopied ⟦<Expanded<'static> as Clone>⟧.is_clone
        ⟦<Expanded<'static> as Clone>⟧.is_infallible }
{}

/// A clone of an error of settings, or of the place of one, is the same, and never fails.
pub fn errors_of_settings()
    ensures added { IsCopied ⟦<AddError<'static> as Clone>⟧.is_clone
        ⟦<AddError<'static> as Clone>⟧.is_infallible }
    ensures stops { IsCopied ⟦<Stop<&'static [u8]> as Clone>⟧.is_clone
        ⟦<Stop<&'static [u8]> as Clone>⟧.is_infallible }
    ensures got { IsCopied ⟦<GetError<'static, 'static> as Clone>⟧.is_clone
        ⟦<GetError<'static, 'static> as Clone>⟧.is_infallible }
    ensures places { IsCopied ⟦<SettingPlace<'static, 'static> as Clone>⟧.is_clone
        ⟦<SettingPlace<'static, 'static> as Clone>⟧.is_infallible }
{}

/// A clone of a refusal is the same refusal, and never fails, if both are true of clones of its fault.
pub fn refusals<F: Clone>()
    ensures { IsCopied F.is_clone F.is_infallible
        → IsCopied ⟦<RefusedSetting<'static, 'static, F> as Clone>⟧.is_clone
        ⟦<RefusedSetting<'static, 'static, F> as Clone>⟧.is_infallible }
{}
