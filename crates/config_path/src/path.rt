//! Path values, which may be marked as optional.
ghost use Rattle.std.specs.Prelude.{◌≡◌, IsUtf8, IsOk, IfOk};
ghost use Rattle.std.specs.Option.{ForSome};
ghost use Rattle.std.specs.Cow.{cow_slice_items, IsOwnedSlice};
ghost use Rattle.bstr.specs.BStr.{bstr_bytes};
ghost use Rattle.bstr.specs.Owned.{bstring_bytes};
ghost use Rattle.config_path.specs.Path.{Marked, IsPathOf, IsEqualPath};
ghost use Rattle.config_path.specs.Interpolation.{Interpolated, known_in};

use crate::interpolate::{Context, Error};
use crate::parts::parts_of;
use bstr::{BStr, BString};
use std::alloc::{AllocError, Global};
use std::borrow::CowSlice;

/// The mark of an optional path.
const MARK: &[u8] = b":(optional)";

/// A path, and whether it may be missing.
///
/// Any bytes are a path; a call that copies them fails only if memory runs out. One leading `:(optional)`, in
/// exactly these bytes, marks a path as optional and is cut off. [`Path::interpolate`] puts in the
/// directories that a path refers to: docs/GRAMMAR.md, Paths.
///
/// ```rust
/// use gix_config_value::Path;
///
/// let path = Path::from_text(alloc, ":(optional)~/.gitignore")?;
/// assert!(rt; path.is_optional);
/// assert_eq!(rt; path.as_bytes(), b"~/.gitignore".as_slice());
/// ```
#[derive(PartialEq, Eq, PartialOrd, Ord, Hash, Debug, Drop)]
pub struct Path {
    /// The bytes of the path, without the mark.
    pub value: BString,
    /// Whether the path was marked as optional.
    pub is_optional: bool,
}

/// Returns whether the bytes begin with the mark of an optional path, and the bytes without that mark. Only
/// one mark is cut off.
///
/// ```rust
/// use gix_config_value::path::cut_mark;
///
/// let (is_optional, path) = cut_mark(b":(optional)~/x");
/// assert!(rt; is_optional);
/// assert_eq!(rt; path, b"~/x".as_slice());
/// ```
pub fn cut_mark(bytes: &[u8]) -> (bool, &[u8])
    ensures { Marked bytes.now result.0 result.1.now }
{
    if !matches!(bytes, [b':', ..]) {
        return (false, bytes);
    }
    match bytes.strip_prefix(MARK) {
        Some(path) => (true, path),
        None => (false, bytes),
    }
}

impl From<BString> for Path {
    ghost from_gives = { λ value path. IsPathOf (bstring_bytes value) path };

    /// Returns the path of these bytes. One leading `:(optional)` is cut off and makes the path optional. A
    /// second one is part of the path. The memory of the bytes is reused.
    fn from(value: BString) -> Path {
        let mut bytes = value.into_vec();
        let (is_optional, _path) = cut_mark(&bytes);
        if is_optional {
            bytes.drain(..MARK.len());
        }
        Path {
            value: BString::new(bytes),
            is_optional,
        }
    }
}

impl Path {
    /// Copies a text into a path. One leading `:(optional)` is cut off, as by `From<BString>`. Fails only if
    /// memory runs out.
    pub fn from_text(alloc: Global, value: &str) -> Result<Path, AllocError>
        ensures { IfOk result (IsPathOf value.now) }
    {
        Path::from_bstr(alloc, BStr::from(value))
    }

    /// Copies a byte string into a path. One leading `:(optional)` is cut off, as by `From<BString>`. Fails
    /// only if memory runs out.
    pub fn from_bstr(alloc: Global, value: BStr<'_>) -> Result<Path, AllocError>
        ensures { IfOk result (IsPathOf (bstr_bytes value.entry)) }
    {
        let (is_optional, path) = cut_mark(value.as_bytes());
        Ok(Path {
            value: BString::from_slice(alloc, path)?,
            is_optional,
        })
    }

    /// Returns the path of bytes that are borrowed or owned. One leading `:(optional)` is cut off, as by
    /// `From<BString>`. Owned bytes are reused, which never fails; borrowed bytes are copied, which fails
    /// only if memory runs out.
    pub fn from_cow(alloc: Global, value: CowSlice<'_, u8>) -> Result<Path, AllocError>
        ensures path { IfOk result (IsPathOf (cow_slice_items value.entry)) }
        ensures owned { IsOwnedSlice value.entry → IsOk result }
    {
        Ok(Path::from(BString::new(value.into_owned(alloc)?)))
    }

    /// Returns an equal path. Fails only if memory runs out.
    pub fn clone(&self, alloc: Global) -> Result<Path, AllocError>
        ensures { IfOk result (IsEqualPath self.now) }
    {
        Ok(Path {
            value: BString::from_slice(alloc, self.as_bytes())?,
            is_optional: self.is_optional,
        })
    }

    /// The bytes of the path, without the mark.
    pub fn as_bytes(&self) -> &[u8]
        ensures { result.now ≡ bstring_bytes self.now.value }
    {
        self.value.as_bytes()
    }

    /// Returns the bytes of the path, without the mark, as a byte string.
    pub fn as_bstr(&self) -> BStr<'_>
        ensures { bstr_bytes result ≡ bstring_bytes self.now.value }
    {
        self.value.as_bstr()
    }

    /// Replaces what the path begins with: `%(prefix)/` by the install directory, `~` by the home directory,
    /// and `~user` by what the lookup returns for that name. If the rest begins with `/`, the rest alone is
    /// the result. Any other value is returned unchanged.
    ///
    /// Whether the path is optional makes no difference. The lookup is called at most once, with the user's
    /// name, and must be callable with any text. The result takes one allocation, or no allocation if it is
    /// empty.
    ///
    /// Errors:
    /// - `PathMissing`: the path is empty.
    /// - `InstallDirMissing`, `HomeMissing`, `LookupMissing`: the path needs something that the context
    ///   lacks.
    /// - `UserNotFound`: the lookup returns `None`.
    /// - `IllFormed`: the rest, the user's name, or the whole of any other value is not UTF-8. The error has
    ///   those bytes.
    /// - `Memory`: there is no memory for the result.
    ///
    /// The first row of the table in docs/GRAMMAR.md, Paths, that fits the path decides.
    ///
    /// ```rust
    /// use gix_config_value::Path;
    /// use gix_config_value::path::interpolate::{Context, home_for_user};
    ///
    /// let passwd = "ann:x:1000:1000::/home/ann:/bin/sh\n";
    /// let context = Context {
    ///     home_for_user: Some(|name: &str| home_for_user(passwd, name)),
    ///     ..Context::default()
    /// };
    /// let path = Path::from_text(alloc, "~ann/.gitignore")?;
    /// let whole = path.interpolate(alloc, context)?;
    /// assert_eq!(rt; whole.as_str(), "/home/ann/.gitignore");
    /// ```
    #[tactic(auto, using(crate::specs::Laws::Interpolation::returned_error))]
    pub fn interpolate<'p, 'a, F>(
        &'p self,
        alloc: Global,
        context: Context<'a, F>,
    ) -> Result<String, Error<'p>>
    where
        F: FnOnce(&str) -> Option<&'a str> + Drop,
        requires { ForSome context.home_for_user
            (λ f. (name : _) → IsUtf8 name.now → F.pre f name) }
        ensures { Interpolated (known_in F.FnOnce context.entry) (bstring_bytes self.now.value) result }
    {
        let parts = parts_of(self.as_bytes(), context)?;
        // no `map_err`: the borrow checker does not cover a function whose result names a lifetime
        match parts.to_text(alloc) {
            Ok(text) => Ok(text),
            Err(e) => Err(Error::Memory(e)),
        }
    }
}
