//! Entries, and the texts that their parts spell.
ghost use Rattle.std.specs.Prelude.{◌↔◌, IsTrue, ◌≡◌, ℕ, List, ◌++◌, IfOk, OnOk, MatchResult, map};
ghost use Rattle.std.specs.Prelude.{option_map};
ghost use Rattle.std.specs.Char.{to_ascii_lowercase};
ghost use Rattle.config_file.specs.Listing.{IsListed, IsListedSection};
ghost use Rattle.config_file.specs.Bytes.{is_space};
ghost use Rattle.config_file.specs.File.{TakesEntry, EntryStops};
ghost use Rattle.config_file.specs.Reading.Ends.{IsEntryEnd, value_as};
ghost use Rattle.config_file.specs.Runs.{Run};
ghost use Rattle.config_file.specs.Views.{section_of, value_of};

use crate::bytes::{Class, after_byte, is_at_line_end, run};
use crate::errors::{ItemError, why_at};
use crate::section::Section;
use crate::value::{Value, read_value};
use std::alloc::{AllocError, Global};

/// An entry, whose parts are borrowed from the text that it was read from.
///
/// ```rust
/// use config_file::Entries;
///
/// let entry = Entries::new(b"[Core]\n\tBare").next().expect(&rt, "an entry").expect(&rt, "no error");
/// assert!(rt; entry.section.is_some_and(|section| section.has_name(b"core")));
/// assert!(rt; entry.has_key(b"bare"));
/// assert!(rt; entry.value.is_none()); // a key alone, which as a boolean is true
/// assert_eq!(rt; entry.line, 2);
/// ```
#[derive(Clone, Copy, Debug)]
pub struct Entry<'a> {
    /// The section of the last header before the entry, or `None` if no header precedes it.
    pub section: Option<Section<'a>>,
    /// The key, in the case of the text.
    pub key: &'a [u8],
    /// The value, or `None` if the key has no `=`. A value that is empty is not `None`.
    pub value: Option<Value<'a>>,
    /// The line on which the entry ends, counted from 1; one more if a backslash ends the text.
    pub line: usize,
}

/// The number of bytes that is enough for most keys.
const USUAL_LENGTH: usize = 32;

/// The parts of an entry without its section, and what follows it.
#[derive(Clone, Copy)]
pub struct EntryParts<'a> {
    /// The key, as it is written.
    pub key: &'a [u8],
    /// The value, if an `=` follows the key.
    pub value: Option<Value<'a>>,
    /// How many line ends the entry continues over.
    pub lines: usize,
    /// What follows the value, or the key if there is none.
    pub rest: &'a [u8],
}

/// How an entry is written, as far as that decides how the text of its value is found.
///
/// ```rust
/// use config_file::entry::EntryForm;
/// use config_file::reader::Entries;
///
/// let mut entries = Entries::new(b"[a]b = c\n\td = \"e\"\n\tf");
/// assert!(rt; matches!(entries.advance(), Some(EntryForm::Plain)));
/// assert!(rt; matches!(entries.advance(), Some(EntryForm::Marked)));
/// assert!(rt; matches!(entries.advance(), Some(EntryForm::Alone)));
/// ```
#[derive(Clone, Copy, Debug)]
pub enum EntryForm {
    /// A key alone.
    Alone,
    /// A value that has no quote and no backslash.
    Plain,
    /// A value that has a quote or a backslash.
    Marked,
    /// What is no entry, so that Git stops.
    Refused,
}

/// How the entry at the start of a text ends.
#[derive(Clone, Copy)]
pub(crate) struct EntryEnd<'a> {
    /// Its key.
    pub key: &'a [u8],
    /// The bytes of its value, if it is `Plain` or `Marked`.
    pub raw: &'a [u8],
    /// How many line ends it continues over, or how many precede the place where it is refused.
    pub lines: usize,
    /// What follows it, or the place where it is refused.
    pub rest: &'a [u8],
    /// How it is written.
    pub form: EntryForm,
}

/// What follows the spaces and TABs at the start of a text.
#[inline(always)]
fn past_spaces(text: &[u8]) -> &[u8]
    ensures { (spaces : List ℕ) × Run is_space text.now spaces result.now }
{
    match text {
        // Most keys have one space before their `=`.
        [b' ', b'=', ..] => &text[1..],
        _ => run(text, Class::Space).1,
    }
}

/// Reads the entry at the start of the text.
#[inline(always)]
pub(crate) fn read_end(text: &[u8]) -> EntryEnd<'_>
    ensures { IsEntryEnd text.now result }
{
    let (key, spaced) = run(text, Class::Key);
    let rest = past_spaces(spaced);
    if let Some(after) = after_byte(b'=', rest) {
        let end = read_value(after);
        return EntryEnd {
            key,
            raw: end.raw,
            lines: end.lines,
            rest: end.rest,
            form: end.form,
        };
    }
    let form = if is_at_line_end(rest) {
        EntryForm::Alone
    } else {
        EntryForm::Refused
    };
    EntryEnd {
        key,
        raw: b"",
        lines: 0,
        rest,
        form,
    }
}

/// The value of an entry of this form, whose value has these bytes if it has one.
#[inline(always)]
pub(crate) fn value_as(form: EntryForm, raw: &[u8]) -> Option<Value<'_>>
    ensures { value_of result ≡ value_as form raw.now }
{
    match form {
        EntryForm::Plain | EntryForm::Marked => Some(Value { raw }),
        EntryForm::Alone | EntryForm::Refused => None,
    }
}

/// Reads the entry at the start of the text. It fails where the text is no entry.
pub fn read_entry(text: &[u8]) -> Result<EntryParts<'_>, ItemError>
    ensures { MatchResult result
        (λ parts. TakesEntry text.now parts.key.now (value_of parts.value) parts.lines parts.rest.now)
        (λ stop. EntryStops text.now stop.lines stop.why) }
{
    let end = read_end(text);
    if matches!(end.form, EntryForm::Refused) {
        return Err(ItemError {
            lines: end.lines,
            why: why_at(end.rest),
        });
    }
    Ok(EntryParts {
        key: end.key,
        value: value_as(end.form, end.raw),
        lines: end.lines,
        rest: end.rest,
    })
}

impl<'a> Entry<'a> {
    /// Whether the entry has this key, ignoring ASCII case, as Git compares it.
    pub fn has_key(&self, key: &[u8]) -> bool
        ensures { IsTrue result
            ↔ (map to_ascii_lowercase self.now.key.now ≡ map to_ascii_lowercase key.now) }
    {
        self.key == key || self.key.eq_ignore_ascii_case(key)
    }

    /// The key as `git config --list` shows it, in a new vector: what [`Entry::push_key`] appends. It fails
    /// only if memory is refused.
    ///
    /// ```rust
    /// use config_file::reader::Entries;
    ///
    /// let entry = Entries::new(b"[Core] Bare").next().expect(&rt, "an entry").expect(&rt, "no error");
    /// assert!(rt; entry.key_text(alloc)?.as_slice() == b"core.bare".as_slice());
    /// ```
    pub fn key_text(&self, alloc: Global) -> Result<Vec<u8>, AllocError>
        ensures { (listed : List ℕ)
            → IsListed (option_map section_of self.now.section) self.now.key.now listed
            → IfOk result (λ text. text.items ≡ listed) }
    {
        let mut text = Vec::with_capacity(alloc, USUAL_LENGTH)?;
        self.push_key(&mut text)?;
        Ok(text)
    }

    /// Appends the key as `git config --list` shows it: section and key in lower case, and the text of the
    /// subsection unchanged. A caller that lists many entries reuses one vector, and so asks rarely for
    /// memory. It fails only if memory is refused; then part of the key may have been appended.
    ///
    /// ```rust
    /// use config_file::reader::Entries;
    ///
    /// let text = b"[remote \"Up\"] URL = x";
    /// let entry = Entries::new(text).next().expect(&rt, "an entry").expect(&rt, "no error");
    /// let mut line = Vec::new(alloc);
    /// line.extend_from_slice(b"key: ")?;
    /// entry.push_key(&mut line)?;
    /// assert!(rt; line.as_slice() == b"key: remote.Up.url".as_slice());
    /// ```
    pub fn push_key(&self, text: &mut Vec<u8>) -> Result<(), AllocError>
        ensures { (listed : List ℕ)
            → IsListed (option_map section_of self.now.section) self.now.key.now listed
            → OnOk result (text.new.items ≡ text.old.items ++ listed) }
    {
        if let Some(section) = &self.section {
            push_section(text, section)?;
            push_lower(text, self.key)?;
            return Ok(());
        }
        push_lower(text, self.key)?;
        Ok(())
    }
}

/// Appends a section in lower case and a dot, and its subsection, if it has one, and a dot.
fn push_section(text: &mut Vec<u8>, section: &Section<'_>) -> Result<(), AllocError>
    ensures { (listed : List ℕ) → IsListedSection (section_of section.now) listed
        → OnOk result (text.new.items ≡ text.old.items ++ listed) }
{
    push_lower(text, section.name)?;
    text.push(b'.')?;
    if let Some(subsection) = &section.subsection {
        subsection.push_text(text)?;
        text.push(b'.')?;
    }
    Ok(())
}

/// Appends a name in lower case. It fails if memory is refused.
pub fn push_lower(text: &mut Vec<u8>, name: &[u8]) -> Result<(), AllocError>
    ensures { OnOk result (text.new.items ≡ text.old.items ++ map to_ascii_lowercase name.now) }
{
    let start = text.len();
    text.extend_from_slice(name)?;
    text[start..].make_ascii_lowercase();
    Ok(())
}
