//! Laws about the definitions, which are the contracts of functions that do nothing. A setting has at most
//! one finding, and a file has one report. What is mended stays as it is.
ghost use Rattle.std.specs.Prelude.{◌≡◌, ◌++◌, ℕ, Bool, List, [], Option};
ghost use Rattle.std.specs.List.{AllByRecursion};
ghost use Rattle.config_checks.specs.declared.reason.Reason.{Reason};
ghost use Rattle.config_checks.specs.declared.options.Options.{Options};
ghost use Rattle.config_checks.specs.declared.row.Row.{Row};
ghost use Rattle.config_checks.specs.declared.paths.KnownUsers.{KnownUsers};
ghost use Rattle.config_checks.specs.declared.check.Counts.{Counts};
ghost use Rattle.config_checks.specs.declared.mending.Mend.{Mend};
ghost use Rattle.config_checks.specs.declared.mending.Proposal.{Proposal};
ghost use Rattle.config_checks.specs.Findings.{Finding};
ghost use Rattle.config_checks.specs.Mending.{IsLeftOver, IsMended};
ghost use Rattle.config_checks.specs.Reasons.{HasReason, HasFinding, IsSameFinding};
ghost use Rattle.config_checks.specs.Report.{BeginsReport, IsReport};

pub mod clones;

/// The definitions give each value of a setting one result: one reason why it is wrong, or no reason.
pub fn one_reason()
    ensures { (users : Option KnownUsers) (row : Row) (value : Option (List ℕ)) (a b : Option Reason)
        → HasReason users row value a → HasReason users row value b → IsSameFinding a b }
{}

/// The definitions give each value of a setting one result: one finding, or no finding.
pub fn one_finding()
    ensures { (options : Options) (row : Row) (value : Option (List ℕ)) (a b : Option Reason)
        → HasFinding options row value a → HasFinding options row value b → IsSameFinding a b }
{}

/// A file has one report. Two checks of one file name and text, with the same rows and options, find the same
/// and return the same counts unless they fail. What a failed check found are the first findings of that
/// report.
pub fn one_report()
    ensures one { (rows : List Row) (options : Options) (file text : List ℕ) (a b : List Finding) (s t : Counts)
        → IsReport rows options file text a s → IsReport rows options file text b t → (a ≡ b) × (s ≡ t) }
    ensures begins { (rows : List Row) (options : Options) (file text : List ℕ) (a b : List Finding) (s : Counts)
        → BeginsReport rows options file text a → IsReport rows options file text b s
        → (more : List Finding) × (b ≡ a ++ more) }
{}

/// A text that was mended stays as it is if it is mended again with some of the same proposals, of which none is about an
/// entry that was changed. About those nothing is found any more.
pub fn mended_again()
    ensures { (rows : List Row) (options : Options) (guesses : Bool) (file text new newer : List ℕ)
        (proposals again : List Proposal) (mends more : List Mend)
        → IsMended rows options guesses file text proposals mends new
        → IsMended rows options guesses file new again more newer → AllByRecursion (IsLeftOver proposals mends) again
        → (more ≡ []) × (newer ≡ new) }
{}
