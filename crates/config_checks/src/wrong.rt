//! What is wrong with a setting beyond its own value: with what it includes, or beside other settings.
ghost use Rattle.std.specs.Prelude.{◌≡◌, option_map};
ghost use Rattle.config_file.specs.KeyView.{key_of};
ghost use Rattle.config_checks.specs.Findings.{finding_of};
ghost use Rattle.config_checks.specs.Wrong.{wrong_code, wrong_finding, wrong_severity, wrong_text};

use crate::code::Code;
use crate::finding::{Finding, value_of};
use crate::reason::Severity;
use crate::setting::Setting;
use config_file::key::Key;

/// What is wrong with a setting beyond its own value.
///
/// ```rust
/// use config_checks::wrong::Wrong;
///
/// assert_eq!(rt; Wrong::Loop.code().name(), "include-loop");
/// ```
#[derive(Clone, Copy)]
pub enum Wrong<'w> {
    /// The file that it includes includes this one.
    Loop,
    /// It includes a file behind ten others.
    TooDeep,
    /// It includes a file in a home directory that is not there.
    NoHome,
    /// It includes what Git cannot read either, for this reason.
    Unreadable(&'w str),
    /// It includes a file that Git reads, and a check does not, for this reason.
    Unread(&'w str),
    /// It includes a file that is not there.
    Missing,
    /// It includes a file on a condition that Git does not know.
    UnknownCondition,
    /// No file has it, and a row asks for it.
    MissingSetting,
    /// It is an alias that leads back to itself.
    EndlessAlias,
    /// It is about a submodule whose name Git does not take.
    SubmoduleName,
}

impl<'w> Wrong<'w> {
    /// Its code.
    pub fn code(self) -> Code
        ensures { result ≡ wrong_code self.entry }
    {
        match self {
            Wrong::Loop => Code::IncludeLoop,
            Wrong::TooDeep => Code::IncludeDepth,
            Wrong::NoHome | Wrong::Unreadable(_) | Wrong::Unread(_) => Code::IncludePath,
            Wrong::Missing => Code::MissingFile,
            Wrong::UnknownCondition => Code::UnknownCondition,
            Wrong::MissingSetting => Code::MissingSetting,
            Wrong::EndlessAlias => Code::EndlessAlias,
            Wrong::SubmoduleName => Code::SubmoduleName,
        }
    }

    /// How bad it is: Git stops at most of this, and passes a file that is not there without a word.
    pub fn severity(self) -> Severity
        ensures { result ≡ wrong_severity self.entry }
    {
        match self {
            Wrong::Missing => Severity::Note,
            Wrong::Unread(_) | Wrong::UnknownCondition | Wrong::SubmoduleName => Severity::Warning,
            _ => Severity::Error,
        }
    }

    /// What is said of it.
    pub fn text(self) -> &'w str
        ensures { result.now ≡ wrong_text self.entry }
    {
        match self {
            Wrong::Loop => "the file includes itself, at which Git stops",
            Wrong::TooDeep => "Git stops at more than ten includes, one in the other",
            Wrong::NoHome => "no such user or no home directory, at which Git stops",
            Wrong::Unreadable(why) | Wrong::Unread(why) => why,
            Wrong::Missing => "no such file",
            Wrong::UnknownCondition =>
                "not a condition of Git: not one of: gitdir, gitdir/i, onbranch, hasconfig:remote.*.url",
            Wrong::MissingSetting => "no file has this setting, which the row asks for",
            Wrong::EndlessAlias => "the alias leads back to itself, at which Git stops",
            Wrong::SubmoduleName =>
                "Git ignores a submodule of this name: it is empty, or .. is a part of it",
        }
    }
}

/// The finding about a setting with which this is wrong, or which this row asks for.
pub fn wrong_finding<'f>(
    setting: &'f Setting<'f>,
    row: Option<Key<'f>>,
    wrong: Wrong<'f>,
) -> Finding<'f>
    ensures { finding_of result ≡ wrong_finding setting.now (option_map key_of row.entry) wrong.entry }
{
    Finding {
        file: setting.file,
        line: setting.line,
        entry: None,
        code: wrong.code(),
        severity: wrong.severity(),
        key: Some(&setting.key),
        row,
        value: value_of(setting),
        reason: wrong.text().as_bytes(),
        fault: None,
        suggested_key: None,
        suggested_value: None,
    }
}
