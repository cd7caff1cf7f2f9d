//! Values as they are shown.
ghost use Rattle.std.specs.Prelude.{⊤};

use crate::dates;
use crate::output::{Origin, Place, tell, tell_line};
use config_answers::typed::Host;
pub use config_answers::typed::{Homes, Outcome, Shown, Values};
use config_host::names::exists;
use config_host::options::Options;
use config_host::terminal::{When, depth};
use config_host::{Disk, Users};
use gix_config_value::Fault;
use gix_config_value::canonical::{Kind, TryRead};
use gix_config_value::color::Depth;
use gix_config_value::integer::Amount;
use std::alloc::AllocError;
use std::io;
use std::str::FromStr;

/// Git's words for types. Those for other types are the names of kinds.
const NAMED: &[(&str, Shown)] = &[
    ("bool", Shown::Canonical(Kind::Boolean)),
    ("int", Shown::Canonical(Kind::Amount)),
    ("bool-or-int", Shown::BooleanOrAmount),
    ("bool-or-str", Shown::BooleanOrText),
    ("path", Shown::Path),
    ("expiry-date", Shown::Date),
];

/// For how many colors escape sequences are printed: as Git does for all, if the options do not say it.
pub fn depth_of(rt: &HostRuntime, options: &Options<'_>) -> Result<Option<Depth>, AllocError> {
    let when = match options.last("depth") {
        Some("16") => return Ok(Some(Depth::Ansi16)),
        Some("256") => return Ok(Some(Depth::Ansi256)),
        Some("auto") => When::Auto,
        Some("always") => When::Always,
        Some("never") => When::Never,
        _ => return Ok(Some(Depth::TrueColor)),
    };
    depth(rt, &rt.stdout(), when)
}

/// What this word after `--type` means, or `None` if it is no such word. A color is shown by its canonical text, or for
/// the depth `escape` as its escape sequence.
pub fn shown_by_name(word: &str, escape: Option<Option<Depth>>) -> Option<Shown> {
    match escape {
        Some(depth) if word == "color" => return Some(Shown::Escape(depth)),
        _ => {}
    }
    for (name, shown) in NAMED {
        if *name == word {
            return Some(*shown);
        }
    }
    match Kind::from_str(word) {
        Ok(kind) => Some(Shown::Canonical(kind)),
        Err(_) => None,
    }
}

/// The home directory and the list of users. They are found only if paths are shown.
pub fn homes_of<'t>(disk: &Disk<'t>, shown: Shown) -> Result<Homes<'t>, AllocError> {
    if !matches!(shown, Shown::Path) {
        let (home, passwd) = (None, b"");
        return Ok(Homes { home, passwd });
    }
    let users = Users::new(disk, b"")?;
    Ok(Homes {
        home: users.home,
        passwd: users.passwd.unwrap_or(b""),
    })
}

/// What the system says of values.
#[derive(Clone, Copy)]
pub struct System<'t>(pub &'t HostRuntime);

impl Host for System<'_> {
    ghost dates = { λ _ _ _. ⊤ };

    ghost is_there = { λ _ _ _. ⊤ };

    fn second(&self, date: &[u8]) -> io::Result<Option<u64>> {
        match str::from_utf8(date) {
            Ok(date) => dates::read(self.0, date),
            Err(_) => Ok(None),
        }
    }

    fn is_there(&self, name: &[u8]) -> io::Result<bool> {
        exists(self.0, name)
    }
}

/// A value that is none of its type.
#[derive(Clone, Copy)]
pub struct Wrong<'v> {
    /// The key, as Git lists it.
    pub key: &'v [u8],
    /// The text of the value, or `None` for a key alone.
    pub value: Option<&'v [u8]>,
    /// Where it is, if it is an entry.
    pub place: Option<Place<'v>>,
}

/// Whether a text begins with decimal digits whose number is too large.
fn is_too_large(value: &[u8]) -> bool {
    let rest = value.strip_prefix(b"-").unwrap_or(value);
    let count = rest.iter().take_while(|byte| byte.is_ascii_digit()).count();
    match rest.get(..count) {
        Some(digits) => count > 0 && Amount::try_read(digits).is_err(),
        None => false,
    }
}

/// Tells that a value is no number.
fn tell_number(rt: &HostRuntime, wrong: &Wrong<'_>) {
    let value = wrong.value.unwrap_or(b"");
    let why: &[u8] = match Amount::try_read(value) {
        Err(Fault::Overflow) => b": out of range",
        _ if is_too_large(value) => b": out of range",
        _ => b": invalid unit",
    };
    let (at, file): (&[u8], &[u8]) = match wrong.place {
        Some(
            Place {
                origin: Origin::File,
                file,
                ..
            },
        ) => (b" in file ", file),
        Some(
            Place {
                origin: Origin::Input,
                ..
            },
        ) => (b" in standard input", b""),
        _ => (b"", b""),
    };
    let front = b"fatal: bad numeric config value '";
    tell(
        rt,
        &[front, value, b"' for '", wrong.key, b"'", at, file, why],
    );
}

/// Tells in Git's words why a value is none of its type. Returns whether they have a second line.
fn tell_typed(rt: &HostRuntime, shown: Shown, wrong: &Wrong<'_>, value: &[u8]) -> bool {
    let (of_key, end) = (b"' for '", b"'");
    match shown {
        Shown::Path => {
            let front = b"fatal: failed to expand user dir in: '";
            tell(rt, &[front, value, end]);
        }
        Shown::Date => {
            let end = b"' is not a valid timestamp";
            tell(rt, &[b"error: '", value, of_key, wrong.key, end]);
        }
        Shown::Escape(_) | Shown::Canonical(Kind::Color) => {
            tell(rt, &[b"error: invalid color value: ", value]);
        }
        Shown::BooleanOrAmount | Shown::Canonical(Kind::Amount) => tell_number(rt, wrong),
        Shown::Canonical(Kind::Boolean) => {
            let front = b"fatal: bad boolean config value '";
            tell(rt, &[front, value, of_key, wrong.key, end]);
        }
        _ => {
            let front = b"fatal: bad config value '";
            tell(rt, &[front, value, of_key, wrong.key, end]);
        }
    }
    matches!(
        shown,
        Shown::Date | Shown::Escape(_) | Shown::Canonical(Kind::Color)
    )
}

/// Tells in Git's words why a value is none of its type. If they have a second line, it is that of the place
/// of the value, or the value between these texts.
pub fn tell_wrong(rt: &HostRuntime, shown: Shown, wrong: &Wrong<'_>, around: [&[u8]; 2]) {
    let needs_value = matches!(shown, Shown::Path | Shown::Date | Shown::Escape(_));
    let value = wrong.value.unwrap_or(b"true");
    if wrong.value.is_none() && needs_value {
        tell(rt, &[b"error: missing value for '", wrong.key, b"'"]);
    } else if !tell_typed(rt, shown, wrong, value) {
        return;
    }
    match wrong.place {
        Some(place) => tell_line(rt, &place, b""),
        None => tell(rt, &[around[0], value, around[1]]),
    }
}
