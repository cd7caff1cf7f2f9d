//! The value of an entry.
ghost use Rattle.std.specs.Prelude.{◌≡◌, ◌≢◌, ℕ, List, [], ◌∷◌, ◌≤◌, length, true, false, IfOk, IfSome, OnOk};
ghost use Rattle.std.specs.Prelude.{MatchOption};
ghost use Rattle.std.specs.Prelude.{MatchResult, reverse};
ghost use Rattle.std.specs.Cow.{IsBorrowedSlice, cow_slice_items};
ghost use Rattle.std.specs.List.{Contains, list_all, prefix_len};
ghost use Rattle.config_file.specs.Bytes.{backslash, double_quote, is_blank};
ghost use Rattle.config_file.specs.Value as spec;
ghost use Rattle.config_file.specs.Value.{IsNoEscape, SpellsValue, kept, Ending};
ghost use Rattle.config_file.specs.Reading.Ends.{FitsForm, IsValueEnd};
ghost use Rattle.config_file.specs.Reading.Scans.{PassedValue, HasLinesBefore, EndsScan, Escapes, begins_with_mark};
ghost use Rattle.config_file.specs.Reading.Scans.{goes_on, is_held_back, is_unmarked, spells_itself, unescape};
ghost use Rattle.config_file.specs.Runs.{Run};

use crate::bytes::{
    Class, after_byte, before, is_blank, is_comment_sign, is_text_byte, run, split,
};
use crate::entry::EntryForm;
use crate::errors::{Why, why_at};
use std::alloc::{AllocError, Global};
use std::borrow::CowSlice;

/// The byte that a backslash and this letter spell, or `None` if they spell no byte.
pub(crate) fn escape(letter: u8) -> Option<u8>
    ensures { result ≡ spec.escape letter }
{
    match letter {
        b'n' => Some(b'\n'),
        b't' => Some(b'\t'),
        b'b' => Some(8),
        b'"' | b'\\' => Some(letter),
        _ => None,
    }
}

/// A value, as it is written in the text.
///
/// ```rust
/// use config_file::value::Value;
///
/// let value = Value { raw: b" \"a  b\"\\tc \\\n d " };
/// assert_eq!(rt; value.text(alloc)?.as_slice(), b"a  b\tc  d".as_slice());
/// ```
#[derive(Clone, Copy, Debug)]
pub struct Value<'a> {
    /// The bytes from the `=` to the line end or to the comment, with quotes, backslashes and all blanks.
    pub raw: &'a [u8],
}

/// How the value at the start of a text ends.
#[derive(Clone, Copy)]
pub(crate) struct ValueEnd<'a> {
    /// Its bytes, unless it is refused.
    pub raw: &'a [u8],
    /// How many line ends it continues over, or how many precede the place where it is refused.
    pub lines: usize,
    /// What follows it, or the place where it is refused.
    pub rest: &'a [u8],
    /// `Plain`, `Marked` or `Refused`.
    pub form: EntryForm,
}

impl<'a> Value<'a> {
    /// The text that these bytes spell: docs/GRAMMAR.md, Configuration files. It is borrowed, and takes no
    /// memory, if the bytes have no quote and no backslash. It fails only if memory is refused.
    ///
    /// ```rust
    /// use config_file::reader::Entries;
    ///
    /// let entry = Entries::new(b"[a]b = c  d # e").next().expect(&rt, "an entry").expect(&rt, "no error");
    /// let text = entry.value.expect(&rt, "a value").text(alloc)?;
    /// assert!(rt; text.as_slice() == b"c  d".as_slice());
    /// ```
    pub fn text(&self, alloc: Global) -> Result<CowSlice<'a, u8>, AllocError>
        ensures spelled { (spelled : List ℕ) (ending : Ending) → SpellsValue self.now.raw.now spelled ending
            → IfOk result (λ text. cow_slice_items text ≡ spelled) }
        ensures borrowed { ¬ (Contains self.now.raw.now double_quote) → ¬ (Contains self.now.raw.now backslash)
            → MatchResult result IsBorrowedSlice (λ _. ⊥) }
    {
        if is_unmarked_run(self.raw) {
            return Ok(CowSlice::Borrowed(self.trimmed()));
        }
        Ok(CowSlice::Owned(self.to_vec(alloc)?))
    }

    /// The same text, of an entry that is written in this form.
    #[inline(always)]
    pub(crate) fn text_as(
        &self,
        alloc: Global,
        form: EntryForm,
    ) -> Result<CowSlice<'a, u8>, AllocError>
        ensures { FitsForm form self.now.raw.now → (spelled : List ℕ) (ending : Ending)
            → SpellsValue self.now.raw.now spelled ending
            → IfOk result (λ text. cow_slice_items text ≡ spelled) }
    {
        match form {
            EntryForm::Plain => Ok(CowSlice::Borrowed(self.trimmed())),
            _ => self.text(alloc),
        }
    }

    /// What stands between the first and the last blanks of these bytes. Without a quote and a backslash they spell
    /// this text.
    pub(crate) fn trimmed(&self) -> &'a [u8]
        ensures { list_all is_unmarked self.now.raw.now ≡ true → (spelled : List ℕ) (ending : Ending)
            → SpellsValue self.now.raw.now spelled ending → result.now ≡ spelled }
    {
        let (_, start) = run(self.raw, Class::Blank);
        &start[..start.len() - last_blanks(start)]
    }

    /// The text that these bytes spell, as a new vector. It fails only if memory is refused.
    pub fn to_vec(&self, alloc: Global) -> Result<Vec<u8>, AllocError>
        ensures { (spelled : List ℕ) (ending : Ending) → SpellsValue self.now.raw.now spelled ending
            → IfOk result (λ text. text.items ≡ spelled) }
    {
        let mut text = Vec::with_capacity(alloc, self.raw.len())?;
        let mut at = self.raw;
        let mut quoted = false;
        let mut held: &[u8] = &[];
        'pieces: while let Some((byte, rest)) = split(at) {
            if is_held_back(quoted, byte) {
                let (blanks, after) = run(at, Class::Blank);
                held = blanks;
                at = after;
                continue;
            }
            push_held(&mut text, held)?;
            held = &[];
            if byte == b'"' {
                quoted = !quoted;
                at = rest;
            } else if byte == b'\\' {
                let (escaped, after) = unescape(rest);
                if let Some(escaped) = escaped {
                    text.push(escaped)?;
                }
                at = after;
            } else {
                let (word, after) = own_run(rest, quoted);
                text.push(byte)?;
                text.extend_from_slice(word)?;
                at = after;
            }
        }
        Ok(text)
    }
}

/// Whether a text has no quote and no backslash.
fn is_unmarked(text: &[u8]) -> bool
    ensures { result ≡ list_all is_unmarked text.now }
{
    text.iter().all(|byte| *byte != b'"' && *byte != b'\\')
}

/// Does the same as [`is_unmarked`].
// Most texts are plain to the end.
fn is_unmarked_run(text: &[u8]) -> bool
    ensures { result ≡ list_all is_unmarked text.now }
{
    is_unmarked(run(text, Class::Plain).1)
}

/// How many blanks a text ends with.
#[inline(always)]
fn last_blanks(text: &[u8]) -> usize
    ensures count { result ≡ prefix_len is_blank (reverse text.now) }
    ensures within { result ≤ length text.now }
{
    text.iter()
        .rev()
        .take_while(|byte| is_blank(**byte))
        .count()
}

/// Whether this byte is a blank outside quotes, which counts only if a byte of the value follows it.
fn is_held_back(quoted: bool, byte: u8) -> bool
    ensures { result ≡ is_held_back quoted byte }
{
    !quoted && is_blank(byte)
}

/// The longest run at the start of a text of bytes that spell themselves, in quotes or outside them, and the rest.
#[inline(always)]
fn own_run(text: &[u8], quoted: bool) -> (&[u8], &[u8])
    ensures { Run (spells_itself quoted) text.now result.0.now result.1.now }
{
    if quoted {
        run(text, Class::InQuotes)
    } else {
        run(text, Class::Word)
    }
}

/// Appends the blanks that were held back, unless the value has no byte yet.
fn push_held(text: &mut Vec<u8>, held: &[u8]) -> Result<(), AllocError>
    ensures { OnOk result (text.new.items ≡ kept text.old.items held.now) }
{
    if text.is_empty() || held.is_empty() {
        return Ok(());
    }
    text.extend_from_slice(held)?;
    Ok(())
}

/// The byte that a backslash before this text spells, unless it continues the line, and what follows.
fn unescape(text: &[u8]) -> (Option<u8>, &[u8])
    ensures unescaped { (result.0, result.1.now) ≡ unescape text.now }
    ensures within { length result.1.now ≤ length text.now }
{
    let Some((letter, rest)) = split(text) else {
        return (None, text);
    };
    let escaped = escape(letter);
    if escaped.is_some() || letter != b'\r' {
        return (escaped, rest);
    }
    match split(rest) {
        Some((_, after)) => (None, after),
        None => (None, rest),
    }
}

/// What follows the escaped byte or the line end after a backslash, and how many line ends that are, or `None` if
/// neither follows it.
fn after_escape(text: &[u8]) -> Option<(&[u8], usize)>
    ensures escapes { MatchOption result (text.now ≢ [] → IsNoEscape text.now)
        (λ p. Escapes text.now p.0.now × HasLinesBefore text.now p.1 p.0.now) }
    ensures few { IfSome result (λ p. p.1 ≤ 1) }
{
    let (letter, rest) = split(text)?;
    if escape(letter).is_some() {
        return Some((rest, 0));
    }
    if letter == b'\n' {
        return Some((rest, 1));
    }
    let after = after_byte(b'\n', rest)?;
    if letter == b'\r' {
        Some((after, 1))
    } else {
        None
    }
}

/// Whether the text begins with a quote or a backslash.
fn begins_with_mark(text: &[u8]) -> bool
    ensures { result ≡ begins_with_mark text.now }
{
    match split(text) {
        Some((byte, _)) => byte == b'"' || byte == b'\\',
        None => false,
    }
}

/// Whether a value goes on after this byte, which is no quote and no backslash.
fn goes_on(quoted: bool, byte: u8) -> bool
    ensures { result ≡ goes_on quoted byte }
{
    is_text_byte(byte) && (quoted || !is_comment_sign(byte))
}

/// Reads a value after its `=`, up to the end of its line or to a comment.
#[inline(always)]
pub(crate) fn read_value(text: &[u8]) -> ValueEnd<'_>
    ensures { IsValueEnd text.now result }
{
    let (raw, rest) = run(text, Class::Plain);
    if begins_with_mark(rest) {
        return read_marked(text, rest);
    }
    match why_at(rest) {
        Why::Nul => ValueEnd {
            raw,
            lines: 0,
            rest,
            form: EntryForm::Refused,
        },
        _ => ValueEnd {
            raw,
            lines: 0,
            rest,
            form: EntryForm::Plain,
        },
    }
}

/// Reads a value from its first quote or backslash on.
// Most values have neither, and are read in place.
#[inline(never)]
fn read_marked<'a>(text: &'a [u8], first: &'a [u8]) -> ValueEnd<'a>
    requires passed { PassedValue text.now false first.now }
    requires counted { HasLinesBefore text.now 0 first.now }
    ensures { IsValueEnd text.now result }
{
    let mut at = first;
    let mut quoted = false;
    let mut lines = 0;
    'pieces: while let Some((byte, rest)) = split(at) {
        if byte == b'"' {
            quoted = !quoted;
            at = run(rest, Class::Plain).1;
        } else if byte == b'\\' {
            match after_escape(rest) {
                Some((after, ends)) => {
                    lines += ends;
                    at = run(after, Class::Plain).1;
                }
                None => return end_after_backslash(text, at, rest, quoted, lines),
            }
        } else if goes_on(quoted, byte) {
            at = run(rest, Class::Plain).1;
        } else {
            return end(text, at, quoted, lines);
        }
    }
    end(text, at, quoted, lines)
}

/// Ends a value before LF, a comment, a NUL or the end of the text. In quotes or before a NUL it is refused.
fn end<'a>(text: &'a [u8], at: &'a [u8], quoted: bool, lines: usize) -> ValueEnd<'a>
    requires passed { PassedValue text.now quoted at.now }
    requires counted { HasLinesBefore text.now lines at.now }
    requires ends { EndsScan quoted at.now }
    ensures { IsValueEnd text.now result }
{
    let raw = before(text, at);
    if quoted {
        return ValueEnd {
            raw,
            lines,
            rest: at,
            form: EntryForm::Refused,
        };
    }
    match why_at(at) {
        Why::Nul => ValueEnd {
            raw,
            lines,
            rest: at,
            form: EntryForm::Refused,
        },
        _ => ValueEnd {
            raw,
            lines,
            rest: at,
            form: EntryForm::Marked,
        },
    }
}

/// Ends a value at a backslash. If that is the last byte of the text, and not in quotes, the value continues
/// over the end of the text. Otherwise it is refused.
fn end_after_backslash<'a>(
    text: &'a [u8],
    at: &'a [u8],
    rest: &'a [u8],
    quoted: bool,
    lines: usize,
) -> ValueEnd<'a>
    requires passed { PassedValue text.now quoted at.now }
    requires counted { HasLinesBefore text.now lines at.now }
    requires backslash { at.now ≡ 92 ∷ rest.now }
    requires stops { rest.now ≢ [] → IsNoEscape rest.now }
    ensures { IsValueEnd text.now result }
{
    let raw = before(text, at);
    if !rest.is_empty() {
        return ValueEnd {
            raw,
            lines,
            rest,
            form: EntryForm::Refused,
        };
    }
    if quoted {
        return ValueEnd {
            raw,
            lines: lines + 1,
            rest,
            form: EntryForm::Refused,
        };
    }
    ValueEnd {
        raw: text,
        lines: lines + 1,
        rest,
        form: EntryForm::Marked,
    }
}
