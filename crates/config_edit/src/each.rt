//! Entries that get other keys and values.
ghost use Rattle.std.specs.Prelude.{◌≡◌, ◌++◌, ◌∷◌, [], List, ℕ, None, MatchOption, OnOk, IfOk, length, option_copied, drop, ◌+◌, ◌<◌};
ghost use Rattle.std.specs.List.{AllByRecursion};
ghost use Rattle.config_edit.specs.Edit.{Content, AreInOrder};
ghost use Rattle.config_file.specs.Views.{value_of};
ghost use Rattle.config_edit.specs.Reading.{AreLater, Ends, IsWritable, IsWritableValue, IsEachChanged, IsChangedIn, IsNamed, IsWritableName, IsValued};
ghost use Rattle.config_edit.specs.Reading.{IsEntry};

use crate::Change;
use crate::piece::{Held, Piece, next_piece};
use crate::write::{push_changed, push_commented};
use config_file::entry::EntryParts;
use std::alloc::{AllocError, Global};

/// A text in which entries have changed, or `None` if a change is of no entry, or not of one behind that of the
/// change before.
pub(crate) fn change_each(
    alloc: Global,
    text: &[u8],
    changes: &[Change<'_>],
) -> Result<Option<Vec<u8>>, AllocError>
    requires { AllByRecursion IsWritable changes.now }
    ensures { (contents : List Content) → Ends None text.now contents
        → IfOk result (λ found. MatchOption found (¬ (AreInOrder 0 changes.now (length contents)))
        (λ new. IsEachChanged changes.now text.now contents new.items)) }
{
    let mut new = Vec::with_capacity(alloc, text.len())?;
    let mut rest = text;
    let mut made = 0usize;
    let mut index = 0usize;
    'pieces: while let Some(piece) = next_piece(rest) {
        rest = piece.rest;
        let Held::Entry(parts) = &piece.held else {
            new.extend_from_slice(piece.bytes)?;
            continue;
        };
        match due(changes, made, index) {
            Some(change) => {
                push_change(&mut new, alloc, &piece, parts, change)?;
                made += 1;
            }
            None => new.extend_from_slice(piece.bytes)?,
        }
        index += 1;
    }
    if made < changes.len() {
        Ok(None)
    } else {
        Ok(Some(new))
    }
}

/// The change at this place, from 0.
pub(crate) fn change_at<'s, 'c>(changes: &'s [Change<'c>], place: usize) -> Option<&'s Change<'c>>
    ensures { MatchOption result (drop place changes.now ≡ [])
        (λ change. (drop place changes.now ≡ change.now ∷ drop (place + 1) changes.now) × (place < length changes.now)) }
{
    changes.get(place)
}

/// The first change behind those that are made, if it is of this entry.
fn due<'s, 'c>(changes: &'s [Change<'c>], made: usize, index: usize) -> Option<&'s Change<'c>>
    ensures { MatchOption result (AreLater (drop made changes.now) index)
        (λ change. (drop made changes.now ≡ change.now ∷ drop (made + 1) changes.now) × (change.now.entry ≡ index)
        × (made < length changes.now)) }
{
    match change_at(changes, made) {
        Some(change) if change.entry == index => Some(change),
        _ => None,
    }
}

/// Appends the piece of an entry that changes.
fn push_change(
    new: &mut Vec<u8>,
    alloc: Global,
    piece: &Piece<'_>,
    parts: &EntryParts<'_>,
    change: &Change<'_>,
) -> Result<(), AllocError>
    requires writable { IsWritable change.now }
    requires entry { IsEntry parts.now.key.now (value_of parts.now.value) parts.now.lines parts.now.rest.now
        piece.now.blanks.now piece.now.bytes.now piece.now.rest.now piece.now.is_line }
    ensures { OnOk result ((put : List ℕ) × (new.new.items ≡ new.old.items ++ put)
        × IsChangedIn change.now parts.now piece.now put) }
{
    let (Some(value), Some(comment)) = (change.value, change.comment) else {
        push_named(new, alloc, piece, parts, change.name, change.value)?;
        return Ok(());
    };
    let mut line = Vec::new(alloc);
    push_named(&mut line, alloc, piece, parts, change.name, Some(value))?;
    push_commented(new, alloc, piece, parts, line.as_slice(), value, comment)?;
    Ok(())
}

/// Appends the piece of an entry with this last part of its key and this value, where they are given.
fn push_named(
    new: &mut Vec<u8>,
    alloc: Global,
    piece: &Piece<'_>,
    parts: &EntryParts<'_>,
    name: Option<&[u8]>,
    value: Option<&[u8]>,
) -> Result<(), AllocError>
    requires writable { IsWritableName (option_copied name) × IsWritableValue (option_copied value) }
    requires entry { IsEntry parts.now.key.now (value_of parts.now.value) parts.now.lines parts.now.rest.now
        piece.now.blanks.now piece.now.bytes.now piece.now.rest.now piece.now.is_line }
    ensures { OnOk result ((put : List ℕ) × (new.new.items ≡ new.old.items ++ put)
        × IsNamed (option_copied name.entry) (option_copied value.entry) parts.now piece.now put) }
{
    let Some(name) = name else {
        push_valued(new, alloc, piece, parts, value)?;
        return Ok(());
    };
    let mut line = Vec::new(alloc);
    push_valued(&mut line, alloc, piece, parts, value)?;
    new.extend_from_slice(piece.blanks)?;
    new.extend_from_slice(name)?;
    new.extend_from_slice(behind(line.as_slice(), piece.blanks, parts.key))?;
    Ok(())
}

/// What follows these blanks and this key in the line of an entry.
fn behind<'l>(line: &'l [u8], blanks: &[u8], key: &[u8]) -> &'l [u8]
    requires { (more : List ℕ) × (line.now ≡ blanks.now ++ (key.now ++ more)) }
    ensures { line.now ≡ blanks.now ++ (key.now ++ result.now) }
{
    line.split_at(blanks.len() + key.len()).1
}

/// Appends the piece of an entry with this value, or as it is if there is none.
fn push_valued(
    new: &mut Vec<u8>,
    alloc: Global,
    piece: &Piece<'_>,
    parts: &EntryParts<'_>,
    value: Option<&[u8]>,
) -> Result<(), AllocError>
    requires writable { IsWritableValue (option_copied value) }
    requires entry { IsEntry parts.now.key.now (value_of parts.now.value) parts.now.lines parts.now.rest.now
        piece.now.blanks.now piece.now.bytes.now piece.now.rest.now piece.now.is_line }
    ensures { OnOk result ((put : List ℕ) × (new.new.items ≡ new.old.items ++ put)
        × IsValued (option_copied value.entry) parts.now piece.now put) }
{
    match value {
        Some(value) => push_changed(new, alloc, piece, parts, value)?,
        None => new.extend_from_slice(piece.bytes)?,
    }
    Ok(())
}
