//! What a path value means, as borrowed parts: a directory, a `/` and a rest.
//!
//! [`joint_of`] is the path table, over directories of any bytes, and [`parts_of`] is the same over the texts
//! of a `Context`. Neither takes memory. `Path::interpolate` joins the parts into one text, and a caller with
//! a buffer can write them there.
ghost use Rattle.std.specs.Prelude.{◌≡◌, ◌≢◌, ℕ, List, Option, [], ⊤, IsUtf8, MatchResult, codes};
ghost use Rattle.std.specs.Prelude.{if◌then◌else◌, option_copied, option_map, string_bytes};
ghost use Rattle.std.specs.Option.{ForSome};
ghost use Rattle.std.specs.Fn.{FnOnceReturnsAt};
ghost use Rattle.config_path.specs.declared.interpolate.Place.TheVariants.{Whole};
ghost use Rattle.config_path.specs.Interpolation.{PathTable, HasForm, WhereUtf8, IsBelow, IsBelowUser};
ghost use Rattle.config_path.specs.Interpolation.{IsOneName, below, join, refusal, users_of};
ghost use Rattle.config_path.specs.Interpolation.{known_by, known_in};
ghost use Rattle.config_path.specs.Interpolation.PathResult.{text as whole_text, ill_formed};
ghost use Rattle.config_path.specs.Passwd.{IsHomeIn};
ghost use Rattle.config_path.specs.Parts.{parts_text, parts_result, form_in, joint_text, joint_result};

use crate::interpolate::{Context, Error, Place, home_in_passwd};
use bstr::ByteSlice;
use std::alloc::{AllocError, Global};
use std::convert::AsSlice;

/// What a value begins with if it refers to the install directory.
const PREFIX: &[u8] = b"%(prefix)/";

/// Returns a `/` or nothing.
#[inline(always)]
fn slash_if(has_slash: bool) -> &'static str
    ensures { result.now ≡ (if has_slash then codes "/" else []) }
{
    if has_slash { "/" } else { "" }
}

/// A text in three parts, one after the other. Any of them may be empty.
///
/// ```rust
/// use gix_config_value::path::interpolate::{Context, absent};
/// use gix_config_value::path::parts::parts_of;
///
/// let context = Context {
///     git_install_dir: None,
///     home_dir: Some("/home/ann"),
///     home_for_user: absent(|_name: &str| None),
/// };
/// let parts = parts_of(b"~/x", context)?;
/// assert_eq!(rt; parts.dir, "/home/ann");
/// assert_eq!(rt; parts.slash(), "/");
/// assert_eq!(rt; parts.rest, "x");
/// ```
#[derive(Clone, Copy)]
pub struct Parts<'a, 'p> {
    /// The directory, from the context.
    pub dir: &'a str,
    /// Whether a `/` follows the directory.
    pub has_slash: bool,
    /// What follows, from the value.
    pub rest: &'p str,
}

impl<'a, 'p> Parts<'a, 'p> {
    /// Returns the parts of a rest and the directory before it.
    fn of(joint: Joint<'p, &'a str>) -> Parts<'a, 'p>
        ensures { parts_text result ≡ joint_text (λ dir. dir.now) joint.entry }
    {
        Parts {
            dir: joint.dir.unwrap_or(""),
            has_slash: joint.has_slash,
            rest: joint.rest,
        }
    }

    /// Returns what follows the directory: a `/` or nothing.
    #[inline(always)]
    pub fn slash(&self) -> &'static str
        ensures { result.now ≡ (if self.now.has_slash then codes "/" else []) }
    {
        slash_if(self.has_slash)
    }

    /// Joins the parts into one text, in one allocation. Fails only if memory runs out, and never if the text
    /// is empty.
    pub fn to_text(self, alloc: Global) -> Result<String, AllocError>
        ensures { MatchResult result
            (λ whole. string_bytes whole ≡ parts_text self.entry)
            (λ _. parts_text self.entry ≢ []) }
    {
        let slash = self.slash();
        let length = self.dir.len() + slash.len() + self.rest.len();
        let mut whole = String::with_capacity(alloc, length)?;
        whole.push_str(self.dir)?;
        whole.push_str(slash)?;
        whole.push_str(self.rest)?;
        Ok(whole)
    }
}

/// Returns the bytes as text. Fails with `IllFormed`, which holds the place and all the bytes.
#[inline(always)]
fn text_at<'p>(place: Place, bytes: &'p [u8]) -> Result<&'p str, Error<'p>>
    ensures { MatchResult result
        (λ text. (text.now ≡ bytes.now) × IsUtf8 bytes.now)
        (λ e. ¬ (IsUtf8 bytes.now) × (refusal e ≡ ill_formed place bytes.now)) }
{
    match str::from_utf8(bytes) {
        Ok(text) => Ok(text),
        Err(_) => Err(Error::IllFormed {
            place,
            input: bytes,
        }),
    }
}

/// A lookup of the home directories of users, by their names.
///
/// ```rust
/// use gix_config_value::path::parts::Homes;
///
/// let passwd = b"ann:x:1000:1000::/home/ann:/bin/sh\n".as_slice();
/// let home: Option<&[u8]> = passwd.home_of("ann");
/// assert!(rt; home == Some(b"/home/ann".as_slice()));
/// ```
pub trait Homes<D> {
    /// The lookup may be called, with any name.
    ghost can_find: { Self → Type 0 };

    /// The directory, or `None`, that the lookup may return for a name.
    ghost finds: { Self → List ℕ → Option D → Type 0 };

    /// Returns the home directory of the user with this name, or `None` if it is not known.
    fn home_of(self, name: &str) -> Option<D>
        requires { can_find self }
        ensures { finds self name.now result };
}

impl<'a, F: FnOnce(&str) -> Option<&'a str> + Drop> Homes<&'a str> for F {
    ghost can_find = { λ lookup. (name : _) → IsUtf8 name.now → F.pre lookup name };

    ghost finds = { λ lookup name found. FnOnceReturnsAt F.FnOnce lookup name found };

    fn home_of(self, name: &str) -> Option<&'a str> {
        self(name)
    }
}

impl<'a> Homes<&'a [u8]> for &'a [u8] {
    ghost can_find = { λ _. ⊤ };

    ghost finds = { λ passwd name found. IsHomeIn passwd.now name (option_copied found) };

    /// Does the same as [`home_in_passwd`], in this passwd text.
    fn home_of(self, name: &str) -> Option<&'a [u8]> {
        home_in_passwd(self, name.as_bytes())
    }
}

/// The rest of a path value, and the directory before it. A directory is of any type that lends bytes.
///
/// ```rust
/// use gix_config_value::path::parts::joint_of;
///
/// let passwd = b"ann:x:1000:1000::/home/ann:/bin/sh\n".as_slice();
/// let joint = joint_of(b"~ann/x", None, None, Some(passwd))?;
/// assert_eq!(rt; joint.dir, Some(b"/home/ann".as_slice()));
/// assert!(rt; joint.has_slash);
/// assert_eq!(rt; joint.rest, "x");
/// ```
#[derive(Clone, Copy)]
pub struct Joint<'p, D> {
    /// The directory, or `None` if no directory comes before the rest.
    pub dir: Option<D>,
    /// Whether a `/` follows the directory.
    pub has_slash: bool,
    /// What follows, from the value.
    pub rest: &'p str,
}

impl<D> Joint<'_, D> {
    /// Returns what follows the directory: a `/` or nothing.
    #[inline(always)]
    pub fn slash(&self) -> &'static str
        ensures { result.now ≡ (if self.now.has_slash then codes "/" else []) }
    {
        slash_if(self.has_slash)
    }
}

impl<'p, D: AsSlice<u8> + Copy> Joint<'p, D> {
    /// Returns the rest, joined to the directory. A rest that begins with `/` replaces the directory.
    fn of(dir: D, rest: &'p str) -> Joint<'p, D>
        ensures { joint_text D.items result ≡ join (D.items dir) rest.now }
    {
        if rest.as_bytes().starts_with(b"/") {
            return Joint {
                dir: None,
                has_slash: false,
                rest,
            };
        }
        let bytes = dir.as_slice();
        Joint {
            has_slash: !bytes.is_empty() && !bytes.ends_with(b"/"),
            dir: Some(dir),
            rest,
        }
    }
}

/// Returns the directory, joined with the rest if there is one. Fails with `missing` if there is no
/// directory, and with `IllFormed` at the place if the rest is not UTF-8.
fn below_dir<'p, D: AsSlice<u8> + Copy>(
    dir: Option<D>,
    missing: Error<'p>,
    rest: Option<&'p [u8]>,
    place: Place,
) -> Result<Joint<'p, D>, Error<'p>>
    ensures { IsBelow (record {
      dir = option_map D.items dir;
      missing = refusal missing.entry;
      rest = option_copied rest.entry;
      place = place;
    }) (joint_result D.items result) }
{
    let Some(dir) = dir else {
        return Err(missing);
    };
    match rest {
        None => Ok(Joint {
            dir: Some(dir),
            has_slash: false,
            rest: "",
        }),
        Some(rest) => Ok(Joint::of(dir, text_at(place, rest)?)),
    }
}

/// Does the same with the directory that the lookup returns for the name. Fails with `LookupMissing` without
/// a lookup, with `IllFormed` if the name is not UTF-8, and with `UserNotFound` if there is no directory.
fn below_user<'p, D: AsSlice<u8> + Copy, H: Homes<D> + Drop>(
    lookup: Option<H>,
    name: &'p [u8],
    rest: Option<&'p [u8]>,
) -> Result<Joint<'p, D>, Error<'p>>
    requires { ForSome lookup H.can_find }
    ensures { IsBelowUser (users_of D.items H.finds lookup) name.now (option_copied rest.entry)
        (joint_result D.items result) }
{
    let Some(lookup) = lookup else {
        return Err(Error::LookupMissing);
    };
    let name = text_at(Place::Username, name)?;
    below_dir(
        lookup.home_of(name),
        Error::UserNotFound,
        rest,
        Place::PastUser,
    )
}

/// Splits the path at its first `/`. Without a `/`, the name is the whole path, and there is no rest.
fn name_and_rest(path: &[u8]) -> (&[u8], Option<&[u8]>)
    ensures whole { path.now ≡ below result.0.now (option_copied result.1) }
    ensures name { IsOneName result.0.now }
{
    match path.find_byte(b'/') {
        None => (path, None),
        Some(at) => (&path[..at], Some(&path[at + 1..])),
    }
}

/// What a value is, by how it begins.
///
/// ```rust
/// use gix_config_value::path::parts::{Form, form_of};
///
/// assert!(rt; matches!(form_of(b"~/x"), Form::BelowHome(Some(_))));
/// assert!(rt; matches!(form_of(b"/etc/x"), Form::Other(_)));
/// ```
#[derive(Clone, Copy)]
pub enum Form<'p> {
    /// It is empty.
    Empty,
    /// It begins with `%(prefix)/`, and this follows.
    BelowPrefix(&'p [u8]),
    /// It is `~`, or begins with `~/`, and this follows.
    BelowHome(Option<&'p [u8]>),
    /// It begins with `~` and this name. The second field is what follows the `/` after the name, if there is
    /// a `/`.
    BelowUser(&'p [u8], Option<&'p [u8]>),
    /// It is any other value, which is this one.
    Other(&'p [u8]),
}

/// Returns the form of a value, which says which directory it refers to.
pub fn form_of(value: &[u8]) -> Form<'_>
    ensures { HasForm value.now (form_in result) }
{
    if value.is_empty() {
        return Form::Empty;
    }
    if !matches!(value, [b'%' | b'~', ..]) {
        return Form::Other(value);
    }
    if let Some(rest) = value.strip_prefix(PREFIX) {
        return Form::BelowPrefix(rest);
    }
    let Some(path) = value.strip_prefix(b"~") else {
        return Form::Other(value);
    };
    let (name, rest) = name_and_rest(path);
    if name.is_empty() {
        return Form::BelowHome(rest);
    }
    Form::BelowUser(name, rest)
}

/// Returns the value itself. Fails with `IllFormed` if it is not UTF-8.
fn unchanged<'p, D: AsSlice<u8> + Copy>(value: &'p [u8]) -> Result<Joint<'p, D>, Error<'p>>
    ensures { WhereUtf8 Whole value.now (joint_result D.items result ≡ whole_text value.now)
        (joint_result D.items result) }
{
    Ok(Joint {
        dir: None,
        has_slash: false,
        rest: text_at(Place::Whole, value)?,
    })
}

/// Returns what the path table gives for a value, over two directories and a lookup of users: the install
/// directory, the home directory, and the homes of users by their names. It fails with the same errors as
/// `Path::interpolate`, except for `Memory`, which the table never gives.
pub fn joint_of<'p, D: AsSlice<u8> + Copy, H: Homes<D> + Drop>(
    value: &'p [u8],
    install_dir: Option<D>,
    home_dir: Option<D>,
    home_for_user: Option<H>,
) -> Result<Joint<'p, D>, Error<'p>>
    requires { ForSome home_for_user H.can_find }
    ensures { PathTable (known_by D.items H.finds install_dir home_dir home_for_user) value.now
        (joint_result D.items result) }
{
    match form_of(value) {
        Form::Empty => Err(Error::PathMissing),
        Form::BelowPrefix(rest) => {
            let missing = Error::InstallDirMissing;
            below_dir(install_dir, missing, Some(rest), Place::PastPrefix)
        }
        Form::BelowHome(rest) => below_dir(home_dir, Error::HomeMissing, rest, Place::PastHome),
        Form::BelowUser(name, rest) => below_user(home_for_user, name, rest),
        Form::Other(whole) => unchanged(whole),
    }
}

/// Returns the same over the texts of a context, as parts.
pub fn parts_of<'p, 'a, F>(
    value: &'p [u8],
    context: Context<'a, F>,
) -> Result<Parts<'a, 'p>, Error<'p>>
where
    F: FnOnce(&str) -> Option<&'a str> + Drop,
    requires { ForSome context.home_for_user (λ f. (name : _) → IsUtf8 name.now → F.pre f name) }
    ensures { PathTable (known_in F.FnOnce context.entry) value.now (parts_result result) }
{
    let Context {
        git_install_dir,
        home_dir,
        home_for_user,
    } = context;
    match joint_of(value, git_install_dir, home_dir, home_for_user) {
        Ok(joint) => Ok(Parts::of(joint)),
        Err(error) => Err(error),
    }
}
