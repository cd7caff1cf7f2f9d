//! The entries that are asked for: of a key, or of a pattern of keys, and with a value that fits.

use crate::output::{Ending, tell};
use crate::posix::{NoPattern, translated};
use crate::request::{Chosen, Subject};
use config_answers::choice::{Choice, Keys};
use config_file::{Key, KeyError};
use regex::bytes::{Matcher, Regex};
use regex::{Error, RegexBuilder};
use std::alloc::{AllocError, Global};

/// The patterns of a request, in boxes, since they are long and most requests have none.
#[derive(Drop)]
pub struct Patterns {
    key: Option<Box<Regex>>,
    value: Option<Box<Regex>>,
    /// Whether a value fits that the pattern does not match.
    is_negated: bool,
}

/// Why it cannot be said which entries are asked for.
#[derive(Clone, Copy, Debug)]
pub enum Unclear {
    /// The text is no key.
    Key(KeyError),
    /// The text is no pattern of keys.
    Keys(NoPattern),
    /// The text is no pattern of values.
    Values(NoPattern),
}

/// Tells why a text is no key.
pub fn tell_key(rt: &HostRuntime, key: &str, error: KeyError) {
    let why = match error {
        KeyError::NoName => "key does not contain variable name",
        error => error.text(),
    };
    tell_about(rt, why, key);
}

/// Tells what is wrong with a text.
fn tell_about(rt: &HostRuntime, why: &str, text: &str) {
    tell(rt, &[b"error: ", why.as_bytes(), b": ", text.as_bytes()]);
}

/// Tells why a text is no pattern. Returns how the run ends.
fn tell_pattern(rt: &HostRuntime, what: &str, text: &str, why: NoPattern) -> Ending {
    let end: &[u8] = match why {
        NoPattern::Memory => {
            tell(rt, &[b"fatal: out of memory"]);
            return Ending::Refused;
        }
        NoPattern::Refers => b": \\1 to \\9 are not offered",
        NoPattern::Invalid => b"",
    };
    tell(
        rt,
        &[b"error: ", what.as_bytes(), b": ", text.as_bytes(), end],
    );
    Ending::NoPattern
}

impl Unclear {
    /// Tells it. Returns how the run ends.
    pub fn tell(self, rt: &HostRuntime, chosen: &Chosen<'_>) -> Ending {
        let key = match chosen.subject {
            Subject::Key(key) | Subject::Pattern(key) => key,
            _ => "",
        };
        let value = chosen.value.unwrap_or("");
        match self {
            Unclear::Key(error) => {
                tell_key(rt, key, error);
                Ending::Absent
            }
            Unclear::Keys(why) => tell_pattern(rt, "invalid key pattern", key, why),
            Unclear::Values(why) => {
                let pattern = value.strip_prefix("!").unwrap_or(value);
                tell_pattern(rt, "invalid pattern", pattern, why)
            }
        }
    }
}

/// The pattern of this text, in which a point stands for a line end too, or why there is none.
#[inline(never)]
fn pattern_of(alloc: Global, text: &str) -> Result<Box<Regex>, NoPattern> {
    let text = translated(alloc, text)?;
    let built = RegexBuilder::new(&text)
        .dot_matches_new_line(true)
        .build_bytes(alloc);
    match built {
        Ok(pattern) => match Box::new(alloc, pattern) {
            Ok(pattern) => Ok(pattern),
            Err(_) => Err(NoPattern::Memory),
        },
        Err(Error::OutOfMemory) => Err(NoPattern::Memory),
        Err(_) => Err(NoPattern::Invalid),
    }
}

/// A pattern of keys with its section and its name in lower case, as far as dots tell them, as in Git.
fn lower_ends(alloc: Global, pattern: &str) -> Result<String, AllocError> {
    let first = pattern.find('.').unwrap_or(pattern.len());
    let last = pattern.rfind('.').unwrap_or(0);
    let mut text = String::new(alloc);
    for (at, character) in pattern.char_indices() {
        let is_end = at < first || at > last;
        text.push(if is_end {
            character.to_ascii_lowercase()
        } else {
            character
        })?;
    }
    Ok(text)
}

impl Patterns {
    /// The patterns of what is asked for, or why one of its texts is none.
    pub fn new(alloc: Global, chosen: &Chosen<'_>) -> Result<Patterns, Unclear> {
        let key = match chosen.subject {
            Subject::Pattern(pattern) => match lower_ends(alloc, pattern) {
                Ok(text) => match pattern_of(alloc, &text) {
                    Ok(pattern) => Some(pattern),
                    Err(why) => return Err(Unclear::Keys(why)),
                },
                Err(_) => return Err(Unclear::Keys(NoPattern::Memory)),
            },
            _ => None,
        };
        let (is_negated, text) = match chosen.value {
            Some(value) if !chosen.is_fixed => match value.strip_prefix("!") {
                Some(rest) => (true, Some(rest)),
                None => (false, Some(value)),
            },
            _ => (false, None),
        };
        let value = match text {
            Some(text) => match pattern_of(alloc, text) {
                Ok(pattern) => Some(pattern),
                Err(why) => return Err(Unclear::Values(why)),
            },
            None => None,
        };
        Ok(Patterns {
            key,
            value,
            is_negated,
        })
    }
}

/// The section and the name of what is asked about for a URL, which the first dot separates.
pub fn section_and_name(text: &str) -> (&str, Option<&str>) {
    match text.split_once('.') {
        Some((section, name)) => (section, Some(name)),
        None => (text, None),
    }
}

/// A search for this pattern.
#[inline(never)]
fn matcher<'p>(alloc: Global, pattern: &'p Regex) -> Result<Box<Matcher<'p>>, AllocError> {
    Ok(Box::new(alloc, pattern.matcher(alloc)?)?)
}

/// A search for a pattern, if there is one.
fn search<'p>(
    alloc: Global,
    pattern: &'p Option<Box<Regex>>,
) -> Result<Option<Box<Matcher<'p>>>, Unclear> {
    let Some(pattern) = pattern else {
        return Ok(None);
    };
    match matcher(alloc, pattern) {
        Ok(matcher) => Ok(Some(matcher)),
        Err(_) => Err(Unclear::Values(NoPattern::Memory)),
    }
}

/// Which keys are asked for.
fn keys_of<'k, 'p>(
    alloc: Global,
    subject: Subject<'k>,
    pattern: &'p Option<Box<Regex>>,
) -> Result<Keys<'k, 'p>, Unclear> {
    Ok(match subject {
        Subject::Entries => Keys::All,
        Subject::Key(key) => match Key::parse(key.as_bytes()) {
            Ok(key) => Keys::One(key),
            Err(error) => return Err(Unclear::Key(error)),
        },
        Subject::Pattern(_) => match search(alloc, pattern)? {
            Some(matcher) => Keys::Found(matcher),
            None => Keys::All,
        },
        Subject::Url(text, _) => {
            let (section, name) = section_and_name(text);
            Keys::Within(section.as_bytes(), name.map(str::as_bytes))
        }
        Subject::Color(key) => Keys::Listed(key.as_bytes()),
        Subject::UsesColor(key, _) => Keys::Colored(key.as_bytes()),
    })
}

/// Which entries are asked for, with the patterns of that.
pub fn choice_of<'k, 'p>(
    alloc: Global,
    chosen: &Chosen<'k>,
    patterns: &'p Patterns,
) -> Result<Choice<'k, 'p>, Unclear> {
    Ok(Choice {
        keys: keys_of(alloc, chosen.subject, &patterns.key)?,
        fixed: match chosen.value {
            Some(value) if chosen.is_fixed => Some(value.as_bytes()),
            _ => None,
        },
        values: search(alloc, &patterns.value)?,
        is_negated: patterns.is_negated,
        listed: Vec::new(alloc),
    })
}

/// Whether a change is also of an entry that is a key alone: as in Git, it meets each fixed value, and no pattern.
pub fn fits_alone(choice: &Choice<'_, '_>) -> bool {
    choice.values.is_none() || choice.is_negated
}
