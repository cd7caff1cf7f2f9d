//! Which settings are asked for: those of a key, of a pattern of keys or of a section, and with a value that fits.
ghost use Rattle.std.specs.Prelude.{◌≡◌, ◌↔◌, ℕ, List, IsTrue, IfOk, IfSome, option_copied};
ghost use Rattle.config_file.specs.Listing.{IsListed};
ghost use Rattle.config_file.specs.Settings.{path_bytes};
ghost use Rattle.config_file.specs.Views.{entry_of};
ghost use Rattle.config_answers.specs.Choices.{choice_of, keys_of, FitsKey, FitsListed, FitsValue, IsWithin};

use config_file::bytes::has_no_dot;
use config_file::{Entry, Key, Setting};
use regex::bytes::Matcher;
use std::alloc::AllocError;

/// Which keys are asked for.
///
/// ```rust
/// use config_answers::choice::{Choice, Keys};
/// use config_file::{Entries};
///
/// let entry = Entries::new(b"[Core]\n\tBare").next().expect(&rt, "an entry").expect(&rt, "no error");
/// let mut choice = Choice {
///     keys: Keys::Within(b"core", None),
///     fixed: None,
///     values: None,
///     is_negated: false,
///     listed: Vec::new(alloc),
/// };
/// assert!(rt; choice.has_key(&entry)?);
/// ```
#[derive(Drop)]
pub enum Keys<'k, 'p> {
    /// Each key.
    All,
    /// This key.
    One(Key<'k>),
    /// Those that are listed as a text in which a pattern is found.
    Found(Box<Matcher<'p>>),
    /// The one that is listed as this text.
    Listed(&'k [u8]),
    /// The one that is listed as this text, and those that decide in its place: `diff.color` and `color.ui`.
    Colored(&'k [u8]),
    /// Those of this section, with this name if there is one, in each subsection. Their case does not count.
    Within(&'k [u8], Option<&'k [u8]>),
}

/// What is asked for.
///
/// ```rust
/// use config_answers::choice::{Choice, Keys};
/// use config_file::{Entries, Key};
///
/// let entry = Entries::new(b"[Core]\n\tBare").next().expect(&rt, "an entry").expect(&rt, "no error");
/// let mut choice = Choice {
///     keys: Keys::One(Key::parse(b"core.bare")?),
///     fixed: None,
///     values: None,
///     is_negated: false,
///     listed: Vec::new(alloc),
/// };
/// assert!(rt; choice.has_key(&entry)?);
/// ```
#[derive(Drop)]
pub struct Choice<'k, 'p> {
    /// The keys.
    pub keys: Keys<'k, 'p>,
    /// The value, byte for byte.
    pub fixed: Option<&'k [u8]>,
    /// What searches for the pattern of values.
    pub values: Option<Box<Matcher<'p>>>,
    /// Whether a value fits in which that is not found.
    pub is_negated: bool,
    /// The key of the last entry, as it is listed.
    pub listed: Vec<u8>,
}

/// The bytes of a value, which are empty for a key alone.
pub(crate) fn bytes_of<'s>(setting: &'s Setting<'_>) -> &'s [u8]
    ensures { result.now ≡ path_bytes setting.now }
{
    match &setting.value {
        Some(text) => text,
        None => b"",
    }
}

/// Whether a key that is listed as this has this section, and this name if there is one.
fn is_within(listed: &[u8], section: &[u8], name: Option<&[u8]>) -> bool
    ensures { IsTrue result ↔ IsWithin section.now (option_copied name.entry) listed.now }
{
    let Some(key) = Key::split(listed) else {
        return false;
    };
    if !key.section().eq_ignore_ascii_case(section) {
        return false;
    }
    match name {
        Some(name) => key.name().eq_ignore_ascii_case(name),
        None => true,
    }
}

/// Whether an entry is of this section, and has this name if there is one. It is `None` if a dot in its section or
/// in its name leaves open where its key is cut.
fn has_ends(entry: &Entry<'_>, section: &[u8], name: Option<&[u8]>) -> Option<bool>
    ensures { (listed : List ℕ) → IsListed (entry_of entry.now).section (entry_of entry.now).key listed
        → IfSome result (λ has. IsTrue has ↔ IsWithin section.now (option_copied name.entry) listed) }
{
    let own = entry.section?;
    if !has_no_dot(own.name) || !has_no_dot(entry.key) {
        return None;
    }
    if !own.has_name(section) {
        return Some(false);
    }
    match name {
        Some(name) => Some(entry.has_key(name)),
        None => Some(true),
    }
}

impl Keys<'_, '_> {
    /// Whether a key that is listed as this is asked for, if its text decides that.
    fn has_listed(&mut self, listed: &[u8]) -> bool
        ensures has { IsTrue result ↔ FitsListed (keys_of self.old) listed.now }
        ensures same { keys_of self.new ≡ keys_of self.old }
    {
        if let Keys::Found(pattern) = self {
            return pattern.is_match(listed);
        }
        match &*self {
            Keys::Listed(text) => listed == *text,
            Keys::Colored(text) => {
                listed == *text
                    || listed == b"diff.color".as_slice()
                    || listed == b"color.ui".as_slice()
            }
            Keys::Within(section, name) => is_within(listed, section, *name),
            _ => true,
        }
    }
}

impl Choice<'_, '_> {
    /// Whether an entry has a key that is asked for.
    #[inline(always)]
    pub fn has_key(&mut self, entry: &Entry<'_>) -> Result<bool, AllocError>
        ensures has { (listed : List ℕ)
            → IsListed (entry_of entry.now).section (entry_of entry.now).key listed
            → IfOk result (λ has. IsTrue has ↔ FitsKey (choice_of self.old).keys (entry_of entry.now) listed) }
        ensures same { choice_of self.new ≡ choice_of self.old }
    {
        match &self.keys {
            Keys::All => return Ok(true),
            Keys::One(key) => {
                if !entry.has_key(key.name()) {
                    return Ok(false);
                }
                // A copy is handed on, so that the entry itself needs no address.
                let held = *entry;
                return Ok(key.is_of(&held));
            }
            Keys::Within(section, name) => {
                let held = *entry;
                if let Some(has) = has_ends(&held, section, *name) {
                    return Ok(has);
                }
            }
            _ => {}
        }
        self.listed.clear();
        let held = *entry;
        held.push_key(&mut self.listed)?;
        Ok(self.keys.has_listed(&self.listed))
    }

    /// Whether a value is asked for. That of a key alone is the empty text.
    #[inline(always)]
    pub fn has_value(&mut self, value: &[u8]) -> bool
        ensures has { IsTrue result ↔ FitsValue (choice_of self.old).fixed (choice_of self.old).values
            self.old.is_negated value.now }
        ensures same { choice_of self.new ≡ choice_of self.old }
    {
        if let Some(fixed) = self.fixed {
            return value == fixed;
        }
        match &mut self.values {
            Some(values) => values.is_match(value) != self.is_negated,
            None => true,
        }
    }
}
