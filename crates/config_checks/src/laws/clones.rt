//! What `clone` returns for the types of a check, and `==` for codes.
ghost use Rattle.std.specs.Prelude.{◌≡◌};
ghost use Rattle.config_text.specs.Orders.{Equates, IsCopied};

use crate::check::Counts;
use crate::code::Code;
use crate::finding::Finding;
use crate::fix::{Fix, Safety};
use crate::kind::Form;
use crate::options::Options;
use crate::outcome::Outcome;
use crate::paths::KnownUsers;
use crate::reason::{Reason, Severity};
use crate::row::Run;
use crate::shape::Shape;
use crate::suggestion::UnknownKey;
use crate::table::{BadRow, RowFault};
use crate::version::Version;
use crate::wrong::Wrong;

/// A clone of a form, a version, a run of rows or the fault of a row is the same, and never fails.
pub fn rows()
    ensures forms { IsCopied ⟦<Form as Clone>⟧.is_clone ⟦<Form as Clone>⟧.is_infallible }
    ensures versions { IsCopied ⟦<Version as Clone>⟧.is_clone ⟦<Version as Clone>⟧.is_infallible }
    ensures runs { IsCopied ⟦<Run<'static, 'static> as Clone>⟧.is_clone
        ⟦<Run<'static, 'static> as Clone>⟧.is_infallible }
    ensures faults { IsCopied ⟦<RowFault<'static> as Clone>⟧.is_clone ⟦<RowFault<'static> as Clone>⟧.is_infallible }
    ensures bad_rows { IsCopied ⟦<BadRow<'static> as Clone>⟧.is_clone ⟦<BadRow<'static> as Clone>⟧.is_infallible }
{}

/// Codes are equal exactly if they are the same.
pub fn codes()
    ensures equality { Equates (◌≡◌) ⟦<Code as PartialEq>⟧.eq }
    ensures clones { IsCopied ⟦<Code as Clone>⟧.is_clone ⟦<Code as Clone>⟧.is_infallible }
{}

/// A clone of a finding or of a part of it is the same, and never fails.
pub fn findings()
    ensures severities { IsCopied ⟦<Severity as Clone>⟧.is_clone ⟦<Severity as Clone>⟧.is_infallible }
    ensures shapes { IsCopied ⟦<Shape as Clone>⟧.is_clone ⟦<Shape as Clone>⟧.is_infallible }
    ensures reasons { IsCopied ⟦<Reason<'static, 'static> as Clone>⟧.is_clone
        ⟦<Reason<'static, 'static> as Clone>⟧.is_infallible }
    ensures unknown_keys { IsCopied ⟦<UnknownKey<'static> as Clone>⟧.is_clone
        ⟦<UnknownKey<'static> as Clone>⟧.is_infallible }
    ensures findings { IsCopied ⟦<Finding<'static> as Clone>⟧.is_clone
        ⟦<Finding<'static> as Clone>⟧.is_infallible }
    ensures fixes { IsCopied ⟦<Fix<'static> as Clone>⟧.is_clone ⟦<Fix<'static> as Clone>⟧.is_infallible }
    ensures safeties { IsCopied ⟦<Safety as Clone>⟧.is_clone ⟦<Safety as Clone>⟧.is_infallible }
    ensures wrongs { IsCopied ⟦<Wrong<'static> as Clone>⟧.is_clone ⟦<Wrong<'static> as Clone>⟧.is_infallible }
{}

/// A clone of the options, the users or the counts of a check is the same, and never fails.
pub fn checks()
    ensures users { IsCopied ⟦<KnownUsers<'static> as Clone>⟧.is_clone ⟦<KnownUsers<'static> as Clone>⟧.is_infallible }
    ensures options { IsCopied ⟦<Options<'static> as Clone>⟧.is_clone
        ⟦<Options<'static> as Clone>⟧.is_infallible }
    ensures counts { IsCopied ⟦<Counts as Clone>⟧.is_clone ⟦<Counts as Clone>⟧.is_infallible }
    ensures outcomes { IsCopied ⟦<Outcome as Clone>⟧.is_clone ⟦<Outcome as Clone>⟧.is_infallible }
{}
