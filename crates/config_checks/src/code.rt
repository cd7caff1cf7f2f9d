//! The codes of findings.
ghost use Rattle.std.specs.Prelude.{◌≡◌};
ghost use Rattle.config_checks.specs.Codes.{code_name, code_of_fault, code_of_shape, code_of};

use crate::reason::Reason;
use crate::shape::Shape;
use gix_config_value::Fault;

/// What kind of finding one is. Each has a short name, which no later version changes.
///
/// ```rust
/// use config_checks::code::Code;
///
/// assert_eq!(rt; Code::BadBoolean.name(), "bad-boolean");
/// ```
#[derive(Clone, Copy, PartialEq, Eq, Debug)]
pub enum Code {
    /// The value is no boolean.
    BadBoolean,
    /// The value is no integer.
    BadInteger,
    /// The value is no color.
    BadColor,
    /// The value is a number outside the row's range.
    OutOfRange,
    /// The value is none of the words of the row, nor what else its kind takes.
    NotAWord,
    /// The value is a path that begins with a home directory which is not there.
    NoHome,
    /// The value is no refspec.
    BadRefspec,
    /// The value is no name of a branch.
    BadBranch,
    /// The value is no command of Git with its arguments.
    BadCommand,
    /// The value looks like an option, so that Git ignores it.
    LikeAnOption,
    /// The value means something other than the row asks for.
    OtherValue,
    /// The setting has no value, and needs one.
    NoValue,
    /// No file has a setting that a row asks for.
    MissingSetting,
    /// No row has the key.
    UnknownKey,
    /// Only a newer Git reads the setting.
    TooNew,
    /// Only an older Git reads the setting.
    Gone,
    /// Git calls the setting deprecated.
    Deprecated,
    /// The value is right, and has another spelling.
    NotCanonical,
    /// Git cannot read the line.
    InvalidLine,
    /// A file includes itself.
    IncludeLoop,
    /// More than ten files include each other.
    IncludeDepth,
    /// An included path has no file that can be read.
    IncludePath,
    /// An included file is not there.
    MissingFile,
    /// Git does not know the condition of an include.
    UnknownCondition,
    /// An alias leads back to itself.
    EndlessAlias,
    /// Git does not take the name of a submodule.
    SubmoduleName,
}

impl Code {
    /// The name, by which `--ignore` and `--explain` take it.
    pub fn name(self) -> &'static str
        ensures { result.now ≡ code_name self }
    {
        match self {
            Code::BadBoolean => "bad-boolean",
            Code::BadInteger => "bad-integer",
            Code::BadColor => "bad-color",
            Code::OutOfRange => "out-of-range",
            Code::NotAWord => "not-a-word",
            Code::NoHome => "no-home",
            Code::BadRefspec => "bad-refspec",
            Code::BadBranch => "bad-branch",
            Code::BadCommand => "bad-command",
            Code::LikeAnOption => "like-an-option",
            Code::OtherValue => "other-value",
            Code::NoValue => "no-value",
            Code::MissingSetting => "missing-setting",
            Code::UnknownKey => "unknown-key",
            Code::TooNew => "too-new",
            Code::Gone => "gone",
            Code::Deprecated => "deprecated",
            Code::NotCanonical => "not-canonical",
            Code::InvalidLine => "invalid-line",
            Code::IncludeLoop => "include-loop",
            Code::IncludeDepth => "include-depth",
            Code::IncludePath => "include-path",
            Code::MissingFile => "missing-file",
            Code::UnknownCondition => "unknown-condition",
            Code::EndlessAlias => "endless-alias",
            Code::SubmoduleName => "submodule-name",
        }
    }
}

/// What a code means.
///
/// ```rust
/// use config_checks::code::EXPLAINED;
///
/// assert_eq!(rt; EXPLAINED[0].meaning, "the value is no boolean");
/// ```
pub struct Explained {
    /// The code.
    pub code: Code,
    /// What it means, in a few words.
    pub meaning: &'static str,
    /// Lines of a file with such a finding.
    pub wrong: &'static str,
    /// These lines as they should be.
    pub right: &'static str,
}

/// What each code means, in the order in which `--explain all` lists them.
pub const EXPLAINED: &[Explained] = &[
    Explained {
        code: Code::BadBoolean,
        meaning: "the value is no boolean",
        wrong: "[core]\n\tbare = ture\n",
        right: "[core]\n\tbare = true\n",
    },
    Explained {
        code: Code::BadInteger,
        meaning: "the value is no integer",
        wrong: "[gc]\n\tauto = many\n",
        right: "[gc]\n\tauto = 6700\n",
    },
    Explained {
        code: Code::BadColor,
        meaning: "the value is no color",
        wrong: "[color \"diff\"]\n\tmeta = yelow bold\n",
        right: "[color \"diff\"]\n\tmeta = yellow bold\n",
    },
    Explained {
        code: Code::OutOfRange,
        meaning: "the value is a number that the setting does not take",
        wrong: "[core]\n\tcompression = 10\n",
        right: "[core]\n\tcompression = 9\n",
    },
    Explained {
        code: Code::NotAWord,
        meaning: "the value is none of the words that the setting takes",
        wrong: "[push]\n\tdefault = simplest\n",
        right: "[push]\n\tdefault = simple\n",
    },
    Explained {
        code: Code::NoHome,
        meaning: "the value is a path that begins with a home directory which is not there",
        wrong: "[core]\n\texcludesFile = ~nobody-here/ignore\n",
        right: "[core]\n\texcludesFile = ~/ignore\n",
    },
    Explained {
        code: Code::BadRefspec,
        meaning: "the value is no refspec",
        wrong: "[remote \"origin\"]\n\tfetch = +refs/heads/*:refs/remotes/origin\n",
        right: "[remote \"origin\"]\n\tfetch = +refs/heads/*:refs/remotes/origin/*\n",
    },
    Explained {
        code: Code::BadBranch,
        meaning: "the value is no name of a branch",
        wrong: "[init]\n\tdefaultBranch = my branch\n",
        right: "[init]\n\tdefaultBranch = my-branch\n",
    },
    Explained {
        code: Code::BadCommand,
        meaning: "the value is no command of Git with its arguments",
        wrong: "[alias]\n\tlast = log \\\"-1\n",
        right: "[alias]\n\tlast = log -1\n",
    },
    Explained {
        code: Code::LikeAnOption,
        meaning: "the value looks like an option, so that Git ignores it",
        wrong: "# in .gitmodules\n[submodule \"x\"]\n\turl = -x\n",
        right: "[submodule \"x\"]\n\turl = ./-x\n",
    },
    Explained {
        code: Code::OtherValue,
        meaning: "the value means something other than the row asks for",
        wrong: "# with a row `transfer.fsckObjects is=true bool`\n[transfer]\n\tfsckObjects = no\n",
        right: "[transfer]\n\tfsckObjects = yes\n",
    },
    Explained {
        code: Code::NoValue,
        meaning: "the setting has no value, and needs one",
        wrong: "[core]\n\teditor\n",
        right: "[core]\n\teditor = vi\n",
    },
    Explained {
        code: Code::MissingSetting,
        meaning: "no file has a setting that a row asks for",
        wrong: "# with a row `user.email must text`\n[user]\n\tname = A\n",
        right: "[user]\n\tname = A\n\temail = a@example.org\n",
    },
    Explained {
        code: Code::UnknownKey,
        meaning: "no setting has the key",
        wrong: "[pull]\n\trebas = true\n",
        right: "[pull]\n\trebase = true\n",
    },
    Explained {
        code: Code::TooNew,
        meaning: "only a newer Git reads the setting",
        wrong: "# with --git 2.39\n[pull]\n\tautoStash = true\n",
        right: "[rebase]\n\tautoStash = true\n",
    },
    Explained {
        code: Code::Gone,
        meaning: "Git no longer reads the setting",
        wrong: "[add.interactive]\n\tuseBuiltin = false\n",
        right: "# nothing: Git behaves so\n",
    },
    Explained {
        code: Code::Deprecated,
        meaning: "Git calls the setting or its value deprecated",
        wrong: "[core]\n\tfsyncObjectFiles = true\n",
        right: "[core]\n\tfsync = loose-object\n",
    },
    Explained {
        code: Code::NotCanonical,
        meaning: "the value is right, and has a canonical spelling",
        wrong: "# with --canonical\n[core]\n\tbare = yes\n",
        right: "[core]\n\tbare = true\n",
    },
    Explained {
        code: Code::InvalidLine,
        meaning: "Git cannot read the line, and so nothing of the file",
        wrong: "[core]\n\teditor = \"vi\n",
        right: "[core]\n\teditor = \"vi\"\n",
    },
    Explained {
        code: Code::IncludeLoop,
        meaning: "the file includes itself",
        wrong: "# in the file a\n[include]\n\tpath = a\n",
        right: "[include]\n\tpath = b\n",
    },
    Explained {
        code: Code::IncludeDepth,
        meaning: "more than ten files include each other",
        wrong: "# in f1, and so on up to f11\n[include]\n\tpath = f2\n",
        right: "# in f1\n[include]\n\tpath = f2\n\tpath = f3\n",
    },
    Explained {
        code: Code::IncludePath,
        meaning: "Git cannot read what the path of an include names",
        wrong: "[include]\n\tpath = ~nobody-here/x\n",
        right: "[include]\n\tpath = ~/x\n",
    },
    Explained {
        code: Code::MissingFile,
        meaning: "the included file is not there",
        wrong: "[include]\n\tpath = no-such-file\n",
        right: "[include]\n\tpath = a-file-that-is-there\n",
    },
    Explained {
        code: Code::UnknownCondition,
        meaning: "Git does not know the condition of the include",
        wrong: "[includeIf \"gitdr:~/work/\"]\n\tpath = work\n",
        right: "[includeIf \"gitdir:~/work/\"]\n\tpath = work\n",
    },
    Explained {
        code: Code::EndlessAlias,
        meaning: "the alias leads back to itself",
        wrong: "[alias]\n\tci = co\n\tco = ci\n",
        right: "[alias]\n\tci = commit\n\tco = checkout\n",
    },
    Explained {
        code: Code::SubmoduleName,
        meaning: "Git ignores a submodule of this name",
        wrong: "# in .gitmodules\n[submodule \"../x\"]\n\turl = ./x\n",
        right: "[submodule \"x\"]\n\turl = ./x\n",
    },
];

/// The code of a value that a reader refuses.
fn code_of_fault(fault: Fault) -> Code
    ensures { result ≡ code_of_fault fault }
{
    match fault {
        Fault::Boolean => Code::BadBoolean,
        Fault::Integer => Code::BadInteger,
        Fault::Overflow | Fault::OutOfRange => Code::OutOfRange,
        Fault::Color => Code::BadColor,
    }
}

/// The code of a text that has not this shape.
fn code_of_shape(shape: Shape) -> Code
    ensures { result ≡ code_of_shape shape }
{
    match shape {
        Shape::FetchRefspec | Shape::PushRefspec => Code::BadRefspec,
        Shape::Branch => Code::BadBranch,
        Shape::Command => Code::BadCommand,
        Shape::NoOption => Code::LikeAnOption,
        Shape::ColorsByAge => Code::BadColor,
    }
}

impl Reason<'_, '_> {
    /// The code of this reason.
    pub fn code(&self) -> Code
        ensures { result ≡ code_of self.now }
    {
        match self {
            Reason::NoValue => Code::NoValue,
            Reason::Refused(fault) => code_of_fault(*fault),
            Reason::OutOfRange { .. } => Code::OutOfRange,
            Reason::NoWord { .. } => Code::NotAWord,
            Reason::NoHome => Code::NoHome,
            Reason::Misshapen(shape) => code_of_shape(*shape),
            Reason::IsNot(_) => Code::OtherValue,
            Reason::TooNew(_) => Code::TooNew,
            Reason::Gone(_) => Code::Gone,
            Reason::Deprecated(_) | Reason::Outdated(_) => Code::Deprecated,
            Reason::NotCanonical(_) | Reason::OtherCase(_) => Code::NotCanonical,
        }
    }
}
