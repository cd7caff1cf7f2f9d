//! What is shown for a value: the text as it is written, or the text of a type.
ghost use Rattle.std.specs.Prelude.{◌≡◌, ◌++◌, [], ℕ, List, Bool, Option, IfOk, option_copied};
ghost use Rattle.config_answers.specs.Types.{read_text, IsCanonical, IsEscape, IsSecond, OfType, ShowsPath};
ghost use Rattle.config_answers.specs.Types.{Shows, Writes, known_of};

use bstr::BStr;
use gix_config_value::canonical::{Kind, TryRead, normalize};
use gix_config_value::color::Depth;
use gix_config_value::integer::Amount;
use gix_config_value::path::cut_mark;
use gix_config_value::path::parts::joint_of;
use gix_config_value::{Boolean, Color};
use itoa::Buffer;
use std::alloc::AllocError;
use std::io;

/// As what a value is read, and how it is shown.
///
/// ```rust
/// use config_answers::typed::{Outcome, Shown, put_typed};
/// use gix_config_value::canonical::Kind;
///
/// let mut text = Vec::new(alloc);
/// let outcome = put_typed(&mut text, Shown::Canonical(Kind::Boolean), b"on")?;
/// assert!(rt; matches!(outcome, Outcome::Typed));
/// assert_eq!(rt; text.as_slice(), b"true".as_slice());
/// ```
#[derive(Clone, Copy)]
pub enum Shown {
    /// As it is written.
    Text,
    /// As the canonical text of this kind.
    Canonical(Kind),
    /// As a number if it is one, and otherwise as a truth value.
    BooleanOrAmount,
    /// As a truth value if it is one, and otherwise as it is written.
    BooleanOrText,
    /// As a whole path.
    Path,
    /// As the seconds of the epoch before which something is too old.
    Date,
    /// As the escape sequence of a color for a terminal of this depth, and as nothing where no colors are.
    Escape(Option<Depth>),
}

/// What becomes of a value.
///
/// ```rust
/// use config_answers::typed::{Outcome, Shown, put_typed};
///
/// let mut text = Vec::new(alloc);
/// let outcome = put_typed(&mut text, Shown::BooleanOrAmount, b"many")?;
/// assert!(rt; matches!(outcome, Outcome::Refused));
/// ```
#[derive(Clone, Copy)]
pub enum Outcome {
    /// The text of the value as it is written.
    AsWritten,
    /// A text of its type.
    Typed,
    /// The key stands alone, and has no text.
    Alone,
    /// It counts as not set, as the path of an optional file that is not there.
    Missing,
    /// It is none of its type.
    Refused,
}

/// The directories that paths begin with.
///
/// ```rust
/// use config_answers::typed::Homes;
/// use gix_config_value::path::parts::joint_of;
///
/// let homes = Homes { home: Some(b"/home/ann"), passwd: b"bob:x:1000:1000::/home/bob:/bin/sh" };
/// let joint = joint_of(b"~bob/x", None, homes.home, Some(homes.passwd))?;
/// assert!(rt; joint.dir == Some(b"/home/bob".as_slice()));
/// ```
#[derive(Clone, Copy)]
pub struct Homes<'h> {
    /// The home directory of the current user, if it is known.
    pub home: Option<&'h [u8]>,
    /// The list of users, as in `/etc/passwd`.
    pub passwd: &'h [u8],
}

/// What only the system says of a value.
///
/// ```rust
/// use config_answers::typed::Host;
/// use std::io;
///
/// /// Reads no dates, and has no files.
/// #[derive(Drop)]
/// struct Nothing;
///
/// impl Host for Nothing {
///     ghost dates = { λ _ _ _. ⊤ };
///     ghost is_there = { λ _ _ _. ⊤ };
///
///     fn second(&self, _: &[u8]) -> io::Result<Option<u64>> {
///         Ok(None)
///     }
///
///     fn is_there(&self, _: &[u8]) -> io::Result<bool> {
///         Ok(false)
///     }
/// }
///
/// assert!(rt; Nothing.second(b"now")?.is_none());
/// ```
pub trait Host {
    /// Which second of the epoch a date may have, if any.
    ghost dates: { Self → List ℕ → Option ℕ → Type 0 };

    /// Whether a file or a folder may be there.
    ghost is_there: { Self → List ℕ → Bool → Type 0 };

    /// The second of the epoch of a date, or `None` for a text that is no date. It fails only if the system does.
    fn second(&self, date: &[u8]) -> io::Result<Option<u64>>
        ensures { IfOk result (dates self.now date.now) };

    /// Whether there is a file or a folder of this name. It fails only if the system does.
    fn is_there(&self, name: &[u8]) -> io::Result<bool>
        ensures { IfOk result (is_there self.now name.now) };
}

/// The text for a reader: that of the value, or `true` for a key alone.
pub(crate) fn read_text<'v>(value: Option<&'v [u8]>) -> &'v [u8]
    ensures { result.now ≡ read_text (option_copied value.entry) }
{
    value.unwrap_or(b"true")
}

/// Puts the canonical text of this kind into an empty text.
fn put_canonical(text: &mut Vec<u8>, kind: Kind, value: &[u8]) -> Result<Outcome, AllocError>
    requires { text.old.items ≡ [] }
    ensures { IfOk result (λ outcome. IsCanonical kind value.now outcome text.new.items) }
{
    match normalize(kind, BStr::new(value)) {
        Some(canonical) => {
            text.extend_from_slice(canonical.as_str().as_bytes())?;
            Ok(Outcome::Typed)
        }
        None => Ok(Outcome::Refused),
    }
}

/// Puts the escape sequence of a color for this depth into an empty text, and nothing where no colors are.
fn put_escape(text: &mut Vec<u8>, depth: Option<Depth>, value: &[u8]) -> Result<Outcome, AllocError>
    requires { text.old.items ≡ [] }
    ensures { IfOk result (λ outcome. OfType (IsEscape depth value.now) outcome text.new.items) }
{
    match (Color::try_read(value), depth) {
        (Ok(color), Some(depth)) => {
            text.extend_from_slice(color.reduced(depth).escape().as_str().as_bytes())?;
            Ok(Outcome::Typed)
        }
        (Ok(_), None) => Ok(Outcome::Typed),
        (Err(_), _) => Ok(Outcome::Refused),
    }
}

/// Puts the text of a value of one of the types whose text is the same wherever it is into an empty text, unless that
/// is its own text. It fails only if memory is refused.
pub fn put_typed(text: &mut Vec<u8>, shown: Shown, value: &[u8]) -> Result<Outcome, AllocError>
    requires { text.old.items ≡ [] }
    ensures { IfOk result (λ outcome. Writes shown value.now outcome text.new.items) }
{
    match shown {
        Shown::Canonical(kind) => put_canonical(text, kind, value),
        Shown::BooleanOrAmount => {
            if Amount::try_read(value).is_ok() {
                put_canonical(text, Kind::Amount, value)
            } else {
                put_canonical(text, Kind::Boolean, value)
            }
        }
        Shown::BooleanOrText => {
            if Boolean::try_read(value).is_ok() {
                put_canonical(text, Kind::Boolean, value)
            } else {
                Ok(Outcome::AsWritten)
            }
        }
        Shown::Escape(_) => Ok(if Color::try_read(value).is_ok() {
            Outcome::AsWritten
        } else {
            Outcome::Refused
        }),
        Shown::Text | Shown::Path | Shown::Date => Ok(Outcome::AsWritten),
    }
}

/// How values are shown.
///
/// ```rust
/// use config_answers::typed::{Homes, Host, Outcome, Shown, Values};
/// use std::io;
///
/// # #[derive(Drop)]
/// # struct Nothing;
/// # impl Host for Nothing {
/// #     ghost dates = { λ _ _ _. ⊤ };
/// #     ghost is_there = { λ _ _ _. ⊤ };
/// #     fn second(&self, _: &[u8]) -> io::Result<Option<u64>> {
/// #         Ok(None)
/// #     }
/// #     fn is_there(&self, _: &[u8]) -> io::Result<bool> {
/// #         Ok(false)
/// #     }
/// # }
/// let homes = Homes { home: Some(b"/home/ann"), passwd: b"" };
/// let values = Values { host: Nothing, homes, shown: Shown::Path }; // no file is there
/// let mut text = Vec::new(alloc);
/// assert!(rt; matches!(values.show(&mut text, Some(b"~/x"))?, Outcome::Typed));
/// assert_eq!(rt; text.as_slice(), b"/home/ann/x".as_slice());
/// text.clear();
/// assert!(rt; matches!(values.show(&mut text, Some(b":(optional)~/x"))?, Outcome::Missing));
/// ```
#[derive(Drop)]
pub struct Values<'v, H> {
    /// The system.
    pub host: H,
    /// The directories that paths begin with.
    pub homes: Homes<'v>,
    /// As what values are read.
    pub shown: Shown,
}

impl<H: Host> Values<'_, H> {
    /// Puts the second of a date into an empty text.
    fn put_date(&self, text: &mut Vec<u8>, date: &[u8]) -> io::Result<Outcome>
        requires { text.old.items ≡ [] }
        ensures { IfOk result (λ outcome. OfType (IsSecond (H.dates self.now.host) date.now) outcome text.new.items) }
    {
        match self.host.second(date)? {
            Some(second) => {
                text.extend_from_slice(Buffer::new().format(second).as_bytes())?;
                Ok(Outcome::Typed)
            }
            None => Ok(Outcome::Refused),
        }
    }

    /// Puts a whole path into an empty text, unless it is optional and not there.
    fn put_path(&self, text: &mut Vec<u8>, value: &[u8]) -> io::Result<Outcome>
        requires { text.old.items ≡ [] }
        ensures { IfOk result
            (λ outcome. ShowsPath (H.is_there self.now.host) (known_of self.now.homes) value.now outcome text.new.items) }
    {
        let (is_optional, path) = cut_mark(value);
        let joint = match joint_of(path, None, self.homes.home, Some(self.homes.passwd)) {
            Ok(joint) => joint,
            Err(_) => return Ok(Outcome::Refused),
        };
        text.extend_from_slice(joint.dir.unwrap_or(b""))?;
        text.extend_from_slice(joint.slash().as_bytes())?;
        text.extend_from_slice(joint.rest.as_bytes())?;
        if is_optional && !self.host.is_there(text)? {
            return Ok(Outcome::Missing);
        }
        Ok(Outcome::Typed)
    }

    /// What becomes of a value, or of a key alone. A text of its type is put into the empty text. It fails only if
    /// memory or the system refuses it.
    #[inline(always)]
    pub fn show(&self, text: &mut Vec<u8>, value: Option<&[u8]>) -> io::Result<Outcome>
        requires { text.old.items ≡ [] }
        ensures { IfOk result
            (λ outcome. Shows (H.dates self.now.host) (H.is_there self.now.host) self.now.homes self.now.shown
            (option_copied value.entry) outcome text.new.items) }
    {
        match self.shown {
            Shown::Text => Ok(match value {
                Some(_) => Outcome::AsWritten,
                None => Outcome::Alone,
            }),
            Shown::Path => self.put_path(text, value.unwrap_or(b"")),
            Shown::Date => self.put_date(text, read_text(value)),
            Shown::Escape(depth) => Ok(put_escape(text, depth, read_text(value))?),
            Shown::Canonical(kind) => Ok(put_canonical(text, kind, read_text(value))?),
            Shown::BooleanOrAmount | Shown::BooleanOrText => {
                Ok(put_typed(text, self.shown, read_text(value))?)
            }
        }
    }
}
