//! Why Git stops: at a line of a text, at an include, or before it reads any.
ghost use Rattle.std.specs.Prelude.{◌≡◌, Some};
ghost use Rattle.config_file.specs.Errors.{error_shown, stop_shown, why_number, why_text};
ghost use Rattle.config_file.specs.Header.{why_at};

use bstr::BStr;
use std::{error, fmt};

/// Why Git stops.
///
/// ```rust
/// use config_file::{Entries, Why};
///
/// let error = Entries::new(b"[core]\nbare = \0").next().expect(&rt, "an item").unwrap_err();
/// assert!(rt; error.why == Why::Nul);
/// assert_eq!(rt; error.why.text(), "a NUL byte outside a comment");
/// ```
#[derive(Clone, Copy, PartialEq, Eq, Debug)]
#[non_exhaustive]
pub enum Why {
    /// A line has a byte that is not allowed there, or the text ends in it. Git reports `bad config line`.
    BadLine = 15,
    /// A NUL is outside a comment. Git reads on only in a value or a subsection, whose text it cuts at the NUL.
    Nul = 16,
    /// An include has no value.
    NoValue = 18,
    /// The path of an include begins with a user's name, or with a directory that is not known.
    UnknownDirectory = 19,
    /// A file is more than ten includes deep.
    TooDeep = 20,
    /// The URL of a remote is in a file that is included on a condition ([`Urls`](crate::Urls)).
    ForbiddenUrl = 36,
    /// A file is there, and cannot be read: the one that is included in this line, or, without a line, this one.
    Unreadable = 64,
    /// A setting of a command includes a file whose name does not begin at the root.
    Relative = 65,
    /// A setting or a variable that decides about the repository has no value that Git knows there, or a file of the
    /// repository names no folder.
    BadFormat = 68,
    /// The settings of the command are refused.
    BadCommand = 69,
    /// There is no such folder.
    NoFolder = 70,
}

impl Why {
    /// The number that the C library has for it.
    pub fn number(self) -> u32
        ensures { result ≡ why_number self }
    {
        self as u32
    }

    /// The reason in words, which `Display` writes. Where the system or Git says more of a stop, its
    /// [`words`](Stop::words) are other ones.
    pub fn text(self) -> &'static str
        ensures { result.now ≡ why_text self }
    {
        match self {
            Why::BadLine => "bad config line",
            Why::Nul => "a NUL byte outside a comment",
            Why::NoValue => "an include has no value",
            Why::UnknownDirectory => "the path of an include begins with an unknown directory",
            Why::TooDeep => "files include each other too deep",
            Why::ForbiddenUrl => {
                "remote URLs cannot be configured in file directly or indirectly included by \
                    includeIf.hasconfig:remote.*.url"
            }
            Why::Unreadable => "a file cannot be read",
            Why::Relative => "relative config includes must come from files",
            Why::BadFormat => "a value that Git does not know",
            Why::BadCommand => "the settings of the command are refused",
            Why::NoFolder => "No such file or directory",
        }
    }
}

impl fmt::Display for Why {
    ghost output = { λ why. Some (why_text why) };

    fn fmt<W: fmt::Write>(&self, f: &mut fmt::Formatter<W>) -> fmt::Result {
        f.write_str(self.text())
    }
}

impl error::Error for Why {}

/// Where Git stops in a text, and why.
///
/// ```rust
/// use config_file::{Entries, FileError};
///
/// let error: FileError = Entries::new(b"[core]\n\tbare = \"no").next().expect(&rt, "an item").unwrap_err();
/// assert_eq!(rt; error.line, 2);
/// assert_eq!(rt; error.to_string(alloc)?.as_str(), "2: bad config line");
/// ```
#[derive(Clone, Copy, PartialEq, Eq, Debug)]
pub struct FileError {
    /// The line that Git reports, counted from 1.
    pub line: usize,
    /// Why the reading stops on that line: `BadLine` or `Nul`.
    pub why: Why,
}

impl fmt::Display for FileError {
    ghost output = { λ error. Some (error_shown error) };

    /// Writes `LINE: reason`.
    fn fmt<W: fmt::Write>(&self, f: &mut fmt::Formatter<W>) -> fmt::Result {
        write!(f, "{}: {}", self.line, self.why)
    }
}

impl error::Error for FileError {}

/// Where Git stops, and why. Its texts are borrowed, or those of its owner.
///
/// ```rust
/// use config_file::{Stop, Why};
///
/// let stop: Stop<&[u8]> = Stop {
///     file: b".git/config",
///     line: 7,
///     why: Why::Unreadable,
///     words: b"cannot read more: Permission denied",
/// };
/// assert_eq!(rt; stop.to_string(alloc)?.as_str(), ".git/config:7: cannot read more: Permission denied");
/// ```
#[derive(Clone, Copy, Debug, Drop)]
pub struct Stop<S> {
    /// The name of the file, or of a variable or a folder.
    pub file: S,
    /// The line, counted from 1, or 0 if there is none.
    pub line: usize,
    /// Why.
    pub why: Why,
    /// The reason in words: those of `why`, or what the system or Git says.
    pub words: S,
}

impl<'t> Stop<&'t [u8]> {
    /// A stop in this line of a file, in the words of its reason.
    pub fn at(file: &'t [u8], line: usize, why: Why) -> Stop<&'t [u8]>
        ensures place { (result.file.now ≡ file.now) × (result.line ≡ line) }
        ensures reason { (result.why ≡ why) × (result.words.now ≡ why_text why) }
    {
        Stop {
            file,
            line,
            why,
            words: why.text().as_bytes(),
        }
    }
}

impl fmt::Display for Stop<&[u8]> {
    ghost output = { λ stop. Some (stop_shown stop) };

    /// Writes `FILE:LINE: reason`, or without a line `FILE: reason`.
    fn fmt<W: fmt::Write>(&self, f: &mut fmt::Formatter<W>) -> fmt::Result {
        let (file, words) = (BStr::new(self.file), BStr::new(self.words));
        match self.line {
            0 => write!(f, "{file}: {words}"),
            line => write!(f, "{file}:{line}: {words}"),
        }
    }
}

impl error::Error for Stop<&[u8]> {}

/// Where the reading of an entry or a header stops.
#[derive(Clone, Copy)]
pub struct ItemError {
    /// How many lines after its first one.
    pub lines: usize,
    /// Why.
    pub why: Why,
}

/// Why the reading stops at this rest: for a NUL that comes next, and otherwise for a bad line.
pub(crate) fn why_at(rest: &[u8]) -> Why
    ensures { result ≡ why_at rest.now }
{
    match rest {
        [0, ..] => Why::Nul,
        _ => Why::BadLine,
    }
}

/// A stop on the first line of an item, at this rest.
pub(crate) fn stop_at(rest: &[u8]) -> ItemError
    ensures lines { result.lines ≡ 0 }
    ensures why { result.why ≡ why_at rest.now }
{
    ItemError {
        lines: 0,
        why: why_at(rest),
    }
}
