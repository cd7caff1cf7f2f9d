//! Keys of settings: a section, a subsection if there is one, and a name, with dots between them.
ghost use Rattle.std.specs.Prelude.{◌≡◌, ◌≢◌, ◌==◌, ◌++◌, ◌∷◌, ◌↔◌, ◌≤◌, ℕ, List, [], Option, Some, None};
ghost use Rattle.std.specs.Prelude.{true, length, map, IsTrue, OnOk, MatchOption, MatchResult, option_copied};
ghost use Rattle.std.specs.Char.{to_ascii_lowercase};
ghost use Rattle.std.specs.List.{list_all, list_any, prefix_len};
ghost use Rattle.config_text.specs.Bytes.{LacksFront};
ghost use Rattle.config_file.specs.Bytes as spec;
ghost use Rattle.config_file.specs.Bytes.{dot};
ghost use Rattle.config_file.specs.Key as keys;
ghost use Rattle.config_file.specs.Key.{is_no_dot, key_error_text};

use crate::bytes::{after_byte, is_key_byte, split};
use crate::entry::{Entry, push_lower};
use crate::section::Section;
use std::alloc::AllocError;
use std::{error, fmt};

/// The key of a setting: its section, its subsection if it has one, and its name.
///
/// ```rust
/// use config_file::key::{Key, KeyError};
/// use config_file::reader::Entries;
///
/// let key = Key::parse(b"Branch.Main.rebase").expect(&rt, "a key");
/// let mut entries = Entries::new(b"[branch \"Main\"]\n\tReBase");
/// let entry = entries.next().expect(&rt, "an entry").expect(&rt, "no error");
/// assert!(rt; key.is_of(&entry));
/// assert_eq!(rt; key.to_string(alloc)?.as_str(), "branch.Main.rebase"); // as Git lists it
/// assert!(rt; Key::parse(b"rebase").err() == Some(KeyError::NoSection));
/// ```
#[derive(Clone, Copy, Debug)]
pub struct Key<'k> {
    section: &'k [u8],
    subsection: Option<&'k [u8]>,
    name: &'k [u8],
    ghost section_has_no_dot: { list_all is_no_dot section.now ≡ true },
    ghost name_has_no_dot: { list_all is_no_dot name.now ≡ true },
}

/// Why Git refuses a key.
///
/// ```rust
/// use config_file::{Key, KeyError};
///
/// let error = Key::parse(b"core.a_b").err().expect(&rt, "an error");
/// assert!(rt; error == KeyError::BadByte);
/// assert_eq!(rt; error.text(), "invalid key");
/// ```
#[derive(Clone, Copy, PartialEq, Eq, Debug)]
pub enum KeyError {
    /// The key has no dot, or its only dot comes first.
    NoSection,
    /// Nothing follows the last dot.
    NoName,
    /// A byte of the section or of the name is not allowed there.
    BadByte,
    /// A line feed is in the subsection.
    LineFeed,
}

impl KeyError {
    /// The reason in words, which `Display` writes.
    pub fn text(self) -> &'static str
        ensures { result.now ≡ key_error_text self }
    {
        match self {
            KeyError::NoSection => "key does not contain a section",
            KeyError::NoName => "key does not contain a variable name",
            KeyError::BadByte => "invalid key",
            KeyError::LineFeed => "invalid key (newline)",
        }
    }
}

impl fmt::Display for KeyError {
    ghost output = { λ error. Some (key_error_text error) };

    fn fmt<W: fmt::Write>(&self, f: &mut fmt::Formatter<W>) -> fmt::Result {
        f.write_str(self.text())
    }
}

impl error::Error for KeyError {}

impl<'k> Key<'k> {
    ghost use Rattle.config_file.specs.Key.{IsKey, RefusesKey, IsCut, IsAccepted, IsWrong, HasKey};
    ghost use Rattle.config_file.specs.Key.{stem, listed};
    ghost use Rattle.config_file.specs.KeyView.{key_of};
    ghost use Rattle.config_file.specs.Listing.{IsListed, IsListedSection};
    ghost use Rattle.config_file.specs.Views.{section_of, entry_of};

    /// The key that this text is, or why Git refuses it.
    pub fn parse(text: &'k [u8]) -> Result<Key<'k>, KeyError>
        ensures { MatchResult result (λ key. IsKey text.now (key_of key)) (RefusesKey text.now) }
    {
        let Some(key) = Key::split(text) else {
            return Err(KeyError::NoSection);
        };
        match key.wrong() {
            Some(error) => Err(error),
            None => Ok(key),
        }
    }

    /// Cuts the text at its first dot and at its last dot, whatever bytes the parts have. A text without a
    /// dot gives `None`.
    pub fn split(text: &'k [u8]) -> Option<Key<'k>>
        ensures { MatchOption result (list_all is_no_dot text.now ≡ true)
            (λ key. IsCut text.now (key_of key)) }
    {
        let (stem, name) = cut_last(text)?;
        let (section, subsection) = match cut_first(stem) {
            Some((section, subsection)) => (section, Some(subsection)),
            None => (stem, None),
        };
        Some(Key {
            section,
            subsection,
            name,
        })
    }

    /// The section, in the case in which it was written.
    pub fn section(&self) -> &'k [u8]
        ensures { result.now ≡ (key_of self.now).section }
    {
        self.section
    }

    /// The subsection, or `None` if the key has none. A subsection that is empty is not `None`.
    pub fn subsection(&self) -> Option<&'k [u8]>
        ensures { option_copied result ≡ (key_of self.now).subsection }
    {
        self.subsection
    }

    /// The name, in the case in which it was written.
    pub fn name(&self) -> &'k [u8]
        ensures { result.now ≡ (key_of self.now).name }
    {
        self.name
    }

    /// The same key with this subsection, or with none.
    pub fn with_subsection(&self, subsection: Option<&'k [u8]>) -> Key<'k>
        ensures { key_of result
            ≡ keys.key (key_of self.now).section (option_copied subsection.entry) (key_of self.now).name }
    {
        Key {
            section: self.section,
            subsection,
            name: self.name,
        }
    }

    /// The same key with the name of another one.
    pub fn with_name_of(&self, other: &Key<'k>) -> Key<'k>
        ensures { key_of result ≡
            keys.key (key_of self.now).section (key_of self.now).subsection (key_of other.now).name }
    {
        Key {
            section: self.section,
            subsection: self.subsection,
            name: other.name,
        }
    }

    fn has_section(&self) -> bool
        ensures { result ≡ keys.has_section (key_of self.now) }
    {
        self.subsection.is_some() || !self.section.is_empty()
    }

    /// What Git reports if it refuses these parts.
    fn wrong(&self) -> Option<KeyError>
        ensures { MatchOption result (IsAccepted (key_of self.now)) (IsWrong (key_of self.now)) }
    {
        if !self.has_section() {
            return Some(KeyError::NoSection);
        }
        if self.name.is_empty() {
            return Some(KeyError::NoName);
        }
        if !are_key_bytes(self.section) {
            return Some(KeyError::BadByte);
        }
        if !is_one_line(self.subsection) {
            return Some(KeyError::LineFeed);
        }
        if !is_name(self.name) {
            return Some(KeyError::BadByte);
        }
        None
    }

    /// Whether an entry has this key. Sections and names are compared ignoring ASCII case, and the text of a
    /// quoted subsection byte by byte. What follows the first dot in a header like `[a.B]` counts as if it
    /// were in lower case.
    pub fn is_of(&self, entry: &Entry<'_>) -> bool
        ensures { (text : List ℕ) → IsListed (entry_of entry.now).section (entry_of entry.now).key text
            → (IsTrue result ↔ HasKey (entry_of entry.now) (key_of self.now)) }
    {
        match &entry.section {
            Some(section) if self.ends_unlike(section) => false,
            Some(section) => entry.has_key(self.name) && self.is_in(section),
            None => false,
        }
    }

    /// Whether the last byte of this section tells that it is another one.
    // Most sections of one name end with different bytes, and this is the fastest to look at.
    #[inline(always)]
    fn ends_unlike(&self, section: &Section<'_>) -> bool
        ensures { IsTrue result
            → ¬ (IsListedSection (section_of section.now) (stem (key_of self.now) ++ dot ∷ [])) }
    {
        let Some(text) = self.subsection else {
            return false;
        };
        match &section.subsection {
            Some(subsection) => {
                let subsection = *subsection;
                subsection.ends_unlike(text)
            }
            None => false,
        }
    }

    /// Whether Git lists this section as what precedes the last dot of the key.
    pub fn is_in(&self, section: &Section<'_>) -> bool
        ensures { (text : List ℕ) → IsListedSection (section_of section.now) text
            → (IsTrue result
            ↔ IsListedSection (section_of section.now) (stem (key_of self.now) ++ dot ∷ [])) }
    {
        let Some(bytes) = strip_ignoring_case(section.name, self.section) else {
            return false;
        };
        let Some(left) = left_after(self.subsection, bytes) else {
            return false;
        };
        match &section.subsection {
            Some(subsection) => match left {
                Some(left) => {
                    let subsection = *subsection;
                    subsection.is(left)
                }
                None => false,
            },
            None => left.is_none(),
        }
    }

    /// Appends the key as `git config --list` shows it: section and name in lower case, and the subsection
    /// unchanged. It fails only if memory is refused.
    pub fn push_to(&self, text: &mut Vec<u8>) -> Result<(), AllocError>
        ensures { OnOk result (text.new.items ≡ text.old.items ++ listed (key_of self.now)) }
    {
        push_lower(text, self.section)?;
        if let Some(subsection) = self.subsection {
            text.push(b'.')?;
            text.extend_from_slice(subsection)?;
        }
        text.push(b'.')?;
        push_lower(text, self.name)
    }
}

fn are_key_bytes(bytes: &[u8]) -> bool
    ensures { result ≡ list_all spec.is_key_byte bytes.now }
{
    bytes.iter().all(|byte| is_key_byte(*byte))
}

fn has_line_feed(bytes: &[u8]) -> bool
    ensures { result ≡ list_any (λ b. b == spec.line_feed) bytes.now }
{
    bytes.iter().any(|byte| *byte == b'\n')
}

fn is_one_line(subsection: Option<&[u8]>) -> bool
    ensures { result ≡ keys.is_one_line (option_copied subsection.entry) }
{
    match subsection {
        Some(subsection) => !has_line_feed(subsection),
        None => true,
    }
}

/// Whether Git takes this for the last part of a key: a letter, and then letters, digits and `-`.
pub fn is_name(name: &[u8]) -> bool
    ensures { result ≡ keys.is_name name.now }
{
    match split(name) {
        Some((first, rest)) => first.is_ascii_alphabetic() && are_key_bytes(rest),
        None => false,
    }
}

/// How many bytes precede the first dot.
fn first_dot(text: &[u8]) -> usize
    ensures count { result ≡ prefix_len is_no_dot text.now }
    ensures within { result ≤ length text.now }
{
    text.iter().take_while(|byte| **byte != b'.').count()
}

/// The bytes before the first dot, and what follows it.
fn cut_first(text: &[u8]) -> Option<(&[u8], &[u8])>
    ensures { MatchOption result (list_all is_no_dot text.now ≡ true)
        (λ p. (list_all is_no_dot p.0.now ≡ true) × (text.now ≡ p.0.now ++ dot ∷ p.1.now)) }
{
    let (front, rest) = text.split_at(first_dot(text));
    let (_, after) = split(rest)?;
    Some((front, after))
}

/// The bytes before the last dot, and what follows it.
fn cut_last(text: &[u8]) -> Option<(&[u8], &[u8])>
    ensures { MatchOption result (list_all is_no_dot text.now ≡ true)
        (λ p. (list_all is_no_dot p.1.now ≡ true) × (text.now ≡ p.0.now ++ dot ∷ p.1.now)) }
{
    let last = text.iter().rposition(|byte| *byte == b'.')?;
    Some((&text[..last], &text[last + 1..]))
}

/// What follows this prefix in lower case, or `None` if the text does not begin with that.
fn strip_lower<'t>(text: &'t [u8], front: &[u8]) -> Option<&'t [u8]>
    ensures { MatchOption result (LacksFront (map to_ascii_lowercase front.now) text.now)
        (λ rest. text.now ≡ map to_ascii_lowercase front.now ++ rest.now) }
{
    let mut rest = text;
    for byte in front {
        rest = after_byte(byte.to_ascii_lowercase(), rest)?;
    }
    Some(rest)
}

/// What follows these bytes in a name, ignoring ASCII case.
pub(crate) fn strip_ignoring_case<'n>(name: &'n [u8], front: &[u8]) -> Option<&'n [u8]>
    ensures { MatchOption result
        (LacksFront (map to_ascii_lowercase front.now) (map to_ascii_lowercase name.now))
        (λ rest. map to_ascii_lowercase name.now
        ≡ map to_ascii_lowercase front.now ++ map to_ascii_lowercase rest.now) }
{
    let (start, rest) = name.split_at_checked(front.len())?;
    if start.eq_ignore_ascii_case(front) {
        Some(rest)
    } else {
        None
    }
}

/// What is left of a dot and a subsection after these bytes in lower case: nothing, or a dot and the bytes
/// that are returned.
fn left_after<'s>(subsection: Option<&'s [u8]>, bytes: &[u8]) -> Option<Option<&'s [u8]>>
    ensures { MatchOption result
        ((left : Option (List ℕ)) → keys.dotted (option_copied subsection.entry)
        ≢ map to_ascii_lowercase bytes.now ++ keys.dotted left)
        (λ left. keys.dotted (option_copied subsection.entry)
        ≡ map to_ascii_lowercase bytes.now ++ keys.dotted (option_copied left)) }
{
    let Some((first, front)) = split(bytes) else {
        return Some(subsection);
    };
    if first != b'.' {
        return None;
    }
    let rest = strip_lower(subsection?, front)?;
    match split(rest) {
        Some((byte, left)) => { if byte == b'.' { Some(Some(left)) } else { None } }
        None => Some(None),
    }
}
