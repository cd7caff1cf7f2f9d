//! What an edit writes: values, entries, and the ends of lines.
ghost use Rattle.std.specs.Prelude.{◌≡◌, ◌≢◌, ◌++◌, ◌∷◌, ◌↔◌, [], true, false, List, ℕ, Some, IfOk, IsTrue, OnOk};
ghost use Rattle.config_file.specs.Bytes.{is_blank as spec_blank};
ghost use Rattle.config_edit.specs.Edit.{BeginsWithSign, PartsBlanks};
ghost use Rattle.config_file.specs.Value.{Ending, SpellsValue};
ghost use Rattle.config_file.specs.Views.{value_of};
ghost use Rattle.config_edit.specs.Reading.{IsEndOf, IsOpenEntry, IsValued, IsPutIn, line_ends, new_line, space_if, IsCommented, IsShaped};
ghost use Rattle.config_edit.specs.Edit.{WritesComment};
ghost use Rattle.config_edit.specs.Cut.{AreBlank};
ghost use Rattle.config_edit.specs.Reading.{IsEntry};
ghost use Rattle.config_file.specs.Reading.Spellings.{is_spellable};
ghost use Rattle.config_file.specs.Spelling.{git_spelled};

use crate::piece::{Held, Piece};
use config_file::bytes::{Class, after_byte, before, is_blank, is_comment_sign, run, split};
use config_file::entry::EntryParts;
use config_file::spelling::push_as_git;
use config_file::value::Value;
use std::alloc::{AllocError, Global};

/// Appends the line of an entry, as Git writes it.
pub(crate) fn push_line(
    text: &mut Vec<u8>,
    key: &[u8],
    value: &[u8],
    line_end: &[u8],
) -> Result<(), AllocError>
    ensures { OnOk result (text.new.items ≡ text.old.items ++ new_line key.now value.now line_end.now) }
{
    text.push(b'\t')?;
    text.extend_from_slice(key)?;
    text.extend_from_slice(b" = ")?;
    push_as_git(text, value)?;
    text.extend_from_slice(line_end)?;
    Ok(())
}

/// What ends the last line of a text.
#[derive(Clone, Copy)]
pub(crate) enum End {
    /// A line end, or the text has no byte.
    Line,
    /// Something else. A line end can be put there.
    Open,
    /// A backslash, which would continue a value over the line end that is put there.
    Backslash,
}

impl End {
    /// What ends a text whose last piece this is.
    pub(crate) fn of(piece: &Piece<'_>) -> End
        ensures { IsEndOf piece.now result }
    {
        if piece.is_line {
            return End::Line;
        }
        match &piece.held {
            Held::Entry(parts) => {
                if is_open(parts) {
                    End::Backslash
                } else {
                    End::Open
                }
            }
            Held::Nothing | Held::Comment | Held::Header(_) => End::Open,
        }
    }

    /// Appends what is missing of the line end.
    pub(crate) fn push(self, text: &mut Vec<u8>, line_end: &[u8]) -> Result<(), AllocError>
        ensures { OnOk result (text.new.items ≡ text.old.items ++ line_ends self line_end.now) }
    {
        match self {
            End::Line => Ok(()),
            End::Open => {
                text.extend_from_slice(line_end)?;
                Ok(())
            }
            End::Backslash => {
                text.extend_from_slice(line_end)?;
                text.extend_from_slice(line_end)?;
                Ok(())
            }
        }
    }
}

/// Whether a backslash ends the text of an entry.
fn is_open(parts: &EntryParts<'_>) -> bool
    ensures { IsTrue result ↔ IsOpenEntry parts.now }
{
    match &parts.value {
        Some(value) => config_file::bytes::line_feeds(value.raw) != parts.lines,
        None => false,
    }
}

/// The text before its last blanks, and these.
fn trimmed(text: &[u8]) -> (&[u8], &[u8])
    ensures joined { text.now ≡ result.0.now ++ result.1.now }
    ensures blank { AreBlank result.1.now }
    ensures last { (more : List ℕ) (b : ℕ) → result.0.now ≡ more ++ b ∷ [] → spec_blank b ≡ false }
{
    let mut front = text;
    'blanks: while let [more @ .., last] = front {
        if !is_blank(*last) {
            break;
        }
        front = more;
    }
    text.split_at(front.len())
}

/// Appends a piece with another value for its entry: only bytes of the old value change, and no blank around
/// them. If the entry has the value already, the piece stays as it is.
pub(crate) fn push_changed(
    text: &mut Vec<u8>,
    alloc: Global,
    piece: &Piece<'_>,
    parts: &EntryParts<'_>,
    value: &[u8],
) -> Result<(), AllocError>
    requires spellable { is_spellable value.now ≡ true }
    requires entry { IsEntry parts.now.key.now (value_of parts.now.value) parts.now.lines parts.now.rest.now
        piece.now.blanks.now piece.now.bytes.now piece.now.rest.now piece.now.is_line }
    ensures { OnOk result ((put : List ℕ) × (text.new.items ≡ text.old.items ++ put)
        × IsValued (Some value.now) parts.now piece.now put) }
{
    if has_value(alloc, parts, value)? {
        text.extend_from_slice(piece.bytes)?;
        return Ok(());
    }
    let tail = before(parts.rest, piece.rest);
    let front = before(piece.bytes, tail);
    match &parts.value {
        Some(old) => {
            let start = before(front, old.raw);
            text.extend_from_slice(start)?;
            push_in_place(text, old.raw, ends_spaced(start), value, tail)?;
        }
        None => {
            text.extend_from_slice(front)?;
            push_given(text, trimmed(front).1.is_empty(), value)?;
        }
    }
    text.extend_from_slice(tail)?;
    Ok(())
}

/// Whether an entry of these parts has this value already.
fn has_value(alloc: Global, parts: &EntryParts<'_>, value: &[u8]) -> Result<bool, AllocError>
    ensures spelled { (raw spelled : List ℕ) (ending : Ending) → value_of parts.now.value ≡ Some raw → SpellsValue raw spelled ending
        → IfOk result (λ same. IsTrue same ↔ (spelled ≡ value.now)) }
    ensures alone { value_of parts.now.value ≡ None → IfOk result (λ same. same ≡ false) }
{
    match &parts.value {
        Some(old) => Ok(old.text(alloc)?.as_slice() == value),
        None => Ok(false),
    }
}

/// Whether a blank precedes the `=` that ends this text.
fn ends_spaced(front: &[u8]) -> bool
    ensures { (before : List ℕ) (b c : ℕ) → front.now ≡ before ++ b ∷ c ∷ [] → result ≡ spec_blank b }
{
    match front {
        [.., byte, _] => is_blank(*byte),
        _ => false,
    }
}

/// Appends a gap if there has to be one.
fn push_gap(text: &mut Vec<u8>, is_wanted: bool) -> Result<(), AllocError>
    ensures { OnOk result (text.new.items ≡ text.old.items ++ space_if is_wanted) }
{
    if is_wanted {
        text.push(b' ')?;
    }
    Ok(())
}

/// Appends `=` and a value behind a key alone, with a gap before it if no blank is there.
fn push_given(text: &mut Vec<u8>, is_close: bool, value: &[u8]) -> Result<(), AllocError>
    ensures { OnOk result (text.new.items ≡ text.old.items ++ (space_if is_close ++ 61 ∷ 32 ∷ git_spelled value.now)) }
{
    push_gap(text, is_close)?;
    text.extend_from_slice(b"= ")?;
    push_as_git(text, value)
}

/// Appends another value in the place of these bytes of one.
fn push_in_place(
    text: &mut Vec<u8>,
    raw: &[u8],
    is_spaced: bool,
    value: &[u8],
    tail: &[u8],
) -> Result<(), AllocError>
    requires { is_spellable value.now ≡ true }
    ensures { (between : List ℕ) → (IsTrue is_spaced ↔ (between ≢ 61 ∷ [])) → OnOk result ((put : List ℕ)
        × (text.new.items ≡ text.old.items ++ put) × IsPutIn between tail.now raw.now value.now put) }
{
    let (lead, rest) = run(raw, Class::Blank);
    if rest.is_empty() {
        return push_in_blanks(text, raw, is_spaced, value, tail);
    }
    text.extend_from_slice(lead)?;
    push_as_git(text, value)?;
    text.extend_from_slice(trimmed(rest).1)?;
    Ok(())
}

/// Appends a value where only blanks were: after the first of them, and a space before a comment sign.
fn push_in_blanks(
    text: &mut Vec<u8>,
    blanks: &[u8],
    is_spaced: bool,
    value: &[u8],
    tail: &[u8],
) -> Result<(), AllocError>
    requires spellable { is_spellable value.now ≡ true }
    requires blank { AreBlank blanks.now }
    ensures { (between : List ℕ) → (IsTrue is_spaced ↔ (between ≢ 61 ∷ [])) → OnOk result ((put : List ℕ)
        × (text.new.items ≡ text.old.items ++ put) × IsPutIn between tail.now blanks.now value.now put) }
{
    let (lead, trail) = first_blank(blanks);
    text.extend_from_slice(lead)?;
    push_gap(text, lead.is_empty() && is_spaced)?;
    push_as_git(text, value)?;
    push_gap(text, trail.is_empty() && begins_with_sign(tail))?;
    text.extend_from_slice(trail)?;
    Ok(())
}

/// The first of these blanks, if it is no CR before the line end, and the others.
fn first_blank(blanks: &[u8]) -> (&[u8], &[u8])
    ensures joined { blanks.now ≡ result.0.now ++ result.1.now }
    ensures parts { PartsBlanks result.0.now result.1.now }
{
    match split(blanks) {
        None => blanks.split_at(0),
        Some((first, rest)) => {
            if first != b'\r' {
                blanks.split_at(1)
            } else if rest.is_empty() {
                blanks.split_at(0)
            } else {
                blanks.split_at(1)
            }
        }
    }
}

fn begins_with_sign(text: &[u8]) -> bool
    ensures { IsTrue result ↔ BeginsWithSign text.now }
{
    match split(text) {
        Some((byte, _)) => is_comment_sign(byte),
        None => false,
    }
}

/// Appends the piece of an entry with this comment behind its value, in place of the one that is there. The
/// piece has come to these bytes, in which the entry has the value.
pub(crate) fn push_commented(
    text: &mut Vec<u8>,
    alloc: Global,
    piece: &Piece<'_>,
    parts: &EntryParts<'_>,
    bytes: &[u8],
    value: &[u8],
    comment: &[u8],
) -> Result<(), AllocError>
    requires entry { IsEntry parts.now.key.now (value_of parts.now.value) parts.now.lines parts.now.rest.now
        piece.now.blanks.now piece.now.bytes.now piece.now.rest.now piece.now.is_line }
    requires shaped { (name : List ℕ) × IsShaped name (Some value.now) parts.now piece.now bytes.now }
    ensures { OnOk result ((put : List ℕ) × (text.new.items ≡ text.old.items ++ put)
        × IsCommented value.now comment.now parts.now piece.now bytes.now put) }
{
    let tail = before(parts.rest, piece.rest);
    text.extend_from_slice(trimmed(before(bytes, tail)).0)?;
    if is_open(parts) && has_value(alloc, parts, value)? {
        text.push(b'\n')?;
    }
    text.extend_from_slice(comment_front(comment))?;
    text.extend_from_slice(comment)?;
    text.extend_from_slice(piece.line_end())?;
    Ok(())
}

/// What Git writes before a comment: nothing before blanks and `#`, a space before `#`, and otherwise ` # `.
fn comment_front(comment: &[u8]) -> &'static [u8]
    ensures { WritesComment comment.now (result.now ++ comment.now) }
{
    let (blanks, rest) = run(comment, Class::Space);
    match after_byte(b'#', rest) {
        None => b" # ",
        Some(_) if blanks.is_empty() => b" ",
        Some(_) => b"",
    }
}
