//! The directories that `%(prefix)`, `~` and `~user` mean in a path value.
ghost use Rattle.std.specs.Prelude.{◌≡◌, ◌<◌, ◌≤◌, [], ◌∷◌, ◌++◌, codes, length, None, Some, MatchOption};
ghost use Rattle.std.specs.Prelude.{IfSome, option_copied};
ghost use Rattle.config_path.specs.Interpolation.{place_shown, path_error_text, class_of};
ghost use Rattle.config_path.specs.Passwd.{colon, pieces, home_of_fields, home_in};
ghost use Rattle.config_path.specs.Reading.Fields.{FollowsFields};

use bstr::ByteSlice;
use std::alloc::AllocError;
use std::fmt;
use thiserror::Error as ThisError;

/// What a path value may refer to. A directory or a lookup may be `None`; then only a value that needs it is
/// refused.
///
/// ```rust
/// use gix_config_value::Path;
/// use gix_config_value::path::interpolate::{Context, absent};
///
/// let context = Context {
///     git_install_dir: Some("/usr"),
///     home_dir: None,
///     home_for_user: absent(|_name: &str| None),
/// };
/// let path = Path::from_text(alloc, "%(prefix)/etc/gitconfig")?;
/// let whole = path.interpolate(alloc, context)?;
/// assert_eq!(rt; whole.as_str(), "/usr/etc/gitconfig");
/// ```
#[derive(Clone, Copy)]
pub struct Context<'a, F> {
    /// The directory that Git is installed in, for `%(prefix)`.
    pub git_install_dir: Option<&'a str>,
    /// The home directory of the current user, for `~`.
    pub home_dir: Option<&'a str>,
    /// The lookup of a user's home directory by name, for `~user`.
    pub home_for_user: Option<F>,
}

/// Which part of a path value is not UTF-8.
///
/// ```rust
/// use bstr::BStr;
/// use gix_config_value::Path;
/// use gix_config_value::path::interpolate::{Context, Error, Place, absent};
///
/// let context = Context {
///     home_for_user: absent(|_name: &str| None),
///     ..Context::default()
/// };
/// let path = Path::from_bstr(alloc, BStr::new(b"x\xff"))?;
/// let refused = path.interpolate(alloc, context).err();
/// let (place, input) = (Place::Whole, b"x\xff".as_slice());
/// assert_eq!(rt; refused, Some(Error::IllFormed { place, input }));
/// ```
#[derive(Clone, Copy, PartialEq, Eq, Debug)]
pub enum Place {
    /// What follows `%(prefix)/`.
    PastPrefix,
    /// What follows `~/`.
    PastHome,
    /// The user's name.
    Username,
    /// What follows the `/` after the user's name.
    PastUser,
    /// The whole value.
    Whole,
}

/// The class of an `Error`, which says what kind of refusal it is.
///
/// ```rust
/// use gix_config_value::path::interpolate::{Class, Error};
/// use std::alloc::AllocError;
///
/// assert_eq!(rt; Error::UserNotFound.class(), Class::NotFound);
/// assert_eq!(rt; Error::Memory(AllocError).class(), Class::Memory);
/// ```
#[derive(Clone, Copy, PartialEq, Eq, Debug)]
pub enum Class {
    /// Something that the value refers to is missing.
    NotFound,
    /// The value itself is invalid.
    Validation,
    /// There is no memory for the result.
    Memory,
}

/// Why a path value is refused. The table in docs/GRAMMAR.md, Paths, says which value is refused with which
/// error.
///
/// ```rust
/// use gix_config_value::Path;
/// use gix_config_value::path::interpolate::{Context, Error, absent};
///
/// let context = Context {
///     home_for_user: absent(|_name: &str| None),
///     ..Context::default()
/// };
/// let path = Path::from_text(alloc, "~bob/x")?;
/// let refused = path.interpolate(alloc, context).err();
/// assert_eq!(rt; refused, Some(Error::LookupMissing));
/// ```
#[derive(Clone, Copy, PartialEq, Eq, Debug, ThisError)]
#[error("{}", self.text())]
pub enum Error<'p> {
    /// The value is empty.
    PathMissing,
    /// The value begins with `%(prefix)/` and the context has no install directory.
    InstallDirMissing,
    /// The value is `~` or begins with `~/` and the context has no home directory.
    HomeMissing,
    /// The value begins with `~` and a user's name, and the context has no lookup.
    LookupMissing,
    /// The lookup finds no directory for the name.
    UserNotFound,
    /// A part of the value is not UTF-8.
    IllFormed {
        /// Which part.
        place: Place,
        /// The bytes of that part.
        input: &'p [u8],
    },
    /// There is no memory for the result.
    Memory(AllocError),
}

impl fmt::Display for Place {
    ghost output = { λ place. Some (place_shown place) };

    /// Writes the words that name the part in the text of `IllFormed`.
    fn fmt<W: fmt::Write>(&self, f: &mut fmt::Formatter<W>) -> fmt::Result {
        f.write_str(match self {
            Place::PastPrefix => "path past %(prefix)",
            Place::PastHome => "path past ~/",
            Place::Username => "username",
            Place::PastUser => "path past ~user/",
            Place::Whole => "path",
        })
    }
}

impl Place {
    /// Returns the text of an `IllFormed` error with this place.
    fn ill_formed_text(self) -> &'static str
        ensures { result.now ≡ codes "Ill-formed UTF-8 in " ++ place_shown self }
    {
        match self {
            Place::PastPrefix => "Ill-formed UTF-8 in path past %(prefix)",
            Place::PastHome => "Ill-formed UTF-8 in path past ~/",
            Place::Username => "Ill-formed UTF-8 in username",
            Place::PastUser => "Ill-formed UTF-8 in path past ~user/",
            Place::Whole => "Ill-formed UTF-8 in path",
        }
    }
}

impl Error<'_> {
    /// Returns what kind of refusal this is.
    pub fn class(&self) -> Class
        ensures { result ≡ class_of self.now }
    {
        match self {
            Error::PathMissing
            | Error::InstallDirMissing
            | Error::HomeMissing
            | Error::LookupMissing
            | Error::UserNotFound => Class::NotFound,
            Error::IllFormed { .. } => Class::Validation,
            Error::Memory(_) => Class::Memory,
        }
    }

    /// Returns what `Display` prints, which does not have the bytes that are not UTF-8.
    ///
    /// ```rust
    /// use gix_config_value::path::interpolate::Error;
    ///
    /// assert_eq!(rt; Error::UserNotFound.text(), "pwd user info is missing");
    /// ```
    pub fn text(&self) -> &'static str
        ensures { result.now ≡ path_error_text self.now }
    {
        match self {
            Error::PathMissing => "path is missing",
            Error::InstallDirMissing => "git install dir is missing",
            Error::HomeMissing => "home dir is missing",
            Error::LookupMissing => "home for user lookup is missing",
            Error::UserNotFound => "pwd user info is missing",
            Error::IllFormed { place, .. } => place.ill_formed_text(),
            Error::Memory(_) => "no memory",
        }
    }
}

/// Returns `None` as the lookup of a `Context`: `absent(|_name: &str| None)`. The closure only names the type
/// of the lookup; it is dropped and never called.
pub fn absent<'a, F>(lookup: F) -> Option<F>
where
    F: FnOnce(&str) -> Option<&'a str> + Drop,
    ensures { result ≡ None }
{
    drop(lookup);
    None
}

impl<'a, F> Default for Context<'a, F> {
    ghost is_default = { λ context. (context.git_install_dir ≡ None)
        × (context.home_dir ≡ None)
        × (context.home_for_user ≡ None) };

    /// Returns a context without directories and without a lookup.
    fn default() -> Context<'a, F> {
        Context {
            git_install_dir: None,
            home_dir: None,
            home_for_user: None,
        }
    }
}

/// Splits the text at the first separator, or returns `None` if it has no separator.
fn split_piece(text: &[u8], separator: u8) -> Option<(&[u8], &[u8])>
    ensures cut { MatchOption result
        (pieces separator text.now ≡ text.now ∷ [])
        (λ cut. pieces separator text.now ≡ cut.0.now ∷ pieces separator cut.1.now) }
    ensures shorter { IfSome result (λ cut. length cut.1.now < length text.now) }
{
    let at = text.find_byte(separator)?;
    Some((&text[..at], &text[at + 1..]))
}

/// Returns what follows the first `count` fields of a line, or `None` if it has at most `count` fields.
fn past_fields(line: &[u8], count: usize) -> Option<&[u8]>
    ensures { MatchOption result (length (pieces colon line.now) ≤ count)
        (λ rest. FollowsFields count (pieces colon line.now) (pieces colon rest.now)) }
{
    let mut rest = line;
    for _field in 0..count {
        let (_skipped, more) = split_piece(rest, b':')?;
        rest = more;
    }
    Some(rest)
}

/// Returns the home in a line of exactly seven fields whose first is the name, or `None` for any other line.
fn home_in_line<'a>(line: &'a [u8], name: &[u8]) -> Option<&'a [u8]>
    ensures { option_copied result ≡ home_of_fields name.now (pieces colon line.now) }
{
    let (user, rest) = split_piece(line, b':')?;
    if user != name {
        return None;
    }
    let rest = past_fields(rest, 4)?;
    let (home, shell) = split_piece(rest, b':')?;
    match split_piece(shell, b':') {
        Some(_) => None,
        None => Some(home),
    }
}

/// Does the same as [`home_for_user`], for a passwd text and a name of any bytes.
pub(crate) fn home_in_passwd<'a>(passwd: &'a [u8], name: &[u8]) -> Option<&'a [u8]>
    ensures { option_copied result ≡ home_in passwd.now name.now }
{
    if name.contains(&0) {
        return None;
    }
    let mut rest = passwd;
    while let Some((line, tail)) = split_piece(rest, b'\n') {
        if let Some(home) = home_in_line(line, name) {
            return Some(home);
        }
        rest = tail;
    }
    home_in_line(rest, name)
}

/// Finds the home directory of a user in a passwd text: the sixth field of the first line of exactly seven
/// fields whose first field is the name. Returns `None` if there is no such line, or if the name has a NUL.
///
/// Fields are separated by `:`, and lines end at LF, which the last line may lack. A CR is part of its field,
/// and there are no comments: docs/GRAMMAR.md, Paths.
///
/// ```rust
/// use gix_config_value::path::interpolate::home_for_user;
///
/// let passwd = "root:x:0:0::/root:/bin/sh\nann:x:1000:1000::/home/ann:/bin/sh\n";
/// assert_eq!(rt; home_for_user(passwd, "ann"), Some("/home/ann"));
/// assert_eq!(rt; home_for_user(passwd, "Ann"), None);
/// ```
pub fn home_for_user<'a>(passwd: &'a str, name: &str) -> Option<&'a str>
    ensures { option_copied result ≡ home_in passwd.now name.now }
{
    let home = home_in_passwd(passwd.as_bytes(), name.as_bytes())?;
    match str::from_utf8(home) {
        Ok(home) => Some(home),
        Err(_) => None,
    }
}
