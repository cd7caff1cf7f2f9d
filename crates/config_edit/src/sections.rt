//! Sections that get another name, or are taken out.
ghost use Rattle.std.specs.Prelude.{[], ◌≡◌, ◌↔◌, ◌⊎◌, ◌++◌, ◌∷◌, ℕ, List, true, false, IsTrue, IfOk, IfSome, MatchOption, OnOk, None, Some};
ghost use Rattle.config_edit.specs.Edit.{Content, IsEndOfLine, IsIn};
ghost use Rattle.config_edit.specs.Cut.{Cuts, Part};
ghost use Rattle.config_edit.specs.Sections.{Clears, IsHeaderIn, NoneIs, RenamesParts, end_of, goes_on_behind};
ghost use Rattle.config_file.specs.Listing.{IsListedSection};
ghost use Rattle.config_file.specs.Views.{section_of};
ghost use Rattle.config_edit.specs.declared.piece.Held.TheVariants.{Comment};
ghost use Rattle.config_file.specs.KeyView.{key_of};
ghost use Rattle.config_edit.specs.Reading.{Ends, IsHeaderHeld, IsPiece};

use crate::piece::{Held, Piece, next_piece};
use config_file::bytes::before;
use config_file::key::Key;
use config_file::section::Section;
use config_file::spelling::push_header;
use std::alloc::{AllocError, Global};

/// Whether a piece is a header of the section of this key.
fn is_header_of(key: &Key<'_>, piece: &Piece<'_>) -> bool
    ensures { (text : List ℕ) → IsPiece text piece.now
        → (IsTrue result ↔ IsHeaderHeld (key_of key.now) piece.now.held) }
{
    match &piece.held {
        Held::Header(section) => key.is_in(section),
        _ => false,
    }
}

/// A text in which the sections of one key have the section of the other. Returns `None` if there is none.
pub(crate) fn renamed(
    alloc: Global,
    text: &[u8],
    from: &Key<'_>,
    to: &Key<'_>,
) -> Result<Option<Vec<u8>>, AllocError>
    ensures { (contents : List Content) → Ends None text.now contents
        → IfOk result (λ found. (parts : List Part) × Cuts text.now parts
        × MatchOption found (NoneIs (IsHeaderIn (key_of from.now)) parts)
        (λ new. ¬ (NoneIs (IsHeaderIn (key_of from.now)) parts)
        × RenamesParts (key_of from.now) (key_of to.now) parts new.items)) }
{
    let mut header = Vec::new(alloc);
    push_header(&mut header, to.section(), to.subsection())?;
    let mut new = Vec::with_capacity(alloc, text.len())?;
    let mut rest = text;
    let mut is_found = false;
    'pieces: while let Some(piece) = next_piece(rest) {
        if is_header_of(from, &piece) {
            is_found = true;
            new.extend_from_slice(piece.blanks)?;
            new.extend_from_slice(header.as_slice())?;
        } else {
            new.extend_from_slice(piece.bytes)?;
        }
        rest = piece.rest;
    }
    Ok(if is_found { Some(new) } else { None })
}

/// A section that is left out.
#[derive(Clone, Copy)]
pub(crate) struct Lost<'a> {
    /// What follows all but its last comments, which stay with the next header.
    pub comments: &'a [u8],
    /// The end of its last line.
    pub line_end: &'static [u8],
}

/// The section of this header, if it is left out.
fn lost_from<'a>(key: &Key<'_>, section: &Section<'_>, piece: &Piece<'a>) -> Option<Lost<'a>>
    ensures { (text : List ℕ) → IsListedSection (section_of section.now) text
        → MatchOption result (¬ (IsIn (key_of key.now) (Some (section_of section.now))))
        (λ lost. IsIn (key_of key.now) (Some (section_of section.now)) × (lost.comments.now ≡ piece.now.rest.now)
        × (lost.line_end.now ≡ [])) }
{
    if key.is_in(section) {
        Some(Lost {
            comments: piece.rest,
            line_end: &[],
        })
    } else {
        None
    }
}

/// A section that is left out, with a piece more. A comment at the start of a line may stay.
fn lost_with<'a>(lost: &Option<Lost<'a>>, piece: &Piece<'a>, starts_line: bool) -> Option<Lost<'a>>
    ensures { MatchOption lost.now (result ≡ None) (λ before. MatchOption result ⊥ (λ after.
        (((after.comments.now ≡ before.comments.now) × (starts_line ≡ true) × (piece.now.held ≡ Comment))
        ⊎ ((after.comments.now ≡ piece.now.rest.now) × ¬ ((starts_line ≡ true) × (piece.now.held ≡ Comment))))
        × (((piece.now.is_line ≡ true) × IsEndOfLine piece.now.bytes.now true after.line_end.now)
        ⊎ ((piece.now.is_line ≡ false) × (after.line_end.now ≡ before.line_end.now))))) }
{
    let Some(last) = lost else {
        return None;
    };
    let comments = match piece.held {
        Held::Comment if starts_line => last.comments,
        _ => piece.rest,
    };
    let line_end = if piece.is_line {
        piece.line_end()
    } else {
        last.line_end
    };
    Some(Lost { comments, line_end })
}

/// Appends what stays of a section that is left out before this header, if there is one: the end of a line that
/// began before the section, and comments. Returns whether the header is in a line that began before.
fn push_left(
    new: &mut Vec<u8>,
    lost: &Option<Lost<'_>>,
    in_line: bool,
    header: &[u8],
) -> Result<bool, AllocError>
    requires { IfSome lost.now (λ last. (comments : List ℕ) × (last.comments.now ≡ comments ++ header.now)) }
    ensures { IfOk result (λ goes_on. MatchOption lost.now ((new.new.items ≡ new.old.items) × (goes_on ≡ in_line))
        (λ last. (comments : List ℕ) × (last.comments.now ≡ comments ++ header.now)
        × (new.new.items ≡ new.old.items ++ (end_of in_line last.line_end.now ++ comments))
        × (goes_on ≡ goes_on_behind in_line last.line_end.now))) }
{
    let Some(last) = lost else {
        return Ok(in_line);
    };
    push_between(new, in_line, last.line_end, before(last.comments, header))?;
    Ok(in_line && last.line_end.is_empty())
}

/// A text without the sections of the key. Comments directly above the next header stay with it. Returns
/// `None` if there is no such section.
pub(crate) fn without_section(
    alloc: Global,
    text: &[u8],
    key: &Key<'_>,
) -> Result<Option<Vec<u8>>, AllocError>
    ensures { (contents : List Content) → Ends None text.now contents
        → IfOk result (λ found. (parts : List Part) × Cuts text.now parts
        × MatchOption found (NoneIs (IsHeaderIn (key_of key.now)) parts)
        (λ new. ¬ (NoneIs (IsHeaderIn (key_of key.now)) parts) × Clears (key_of key.now) false parts new.items)) }
{
    let mut new = Vec::with_capacity(alloc, text.len())?;
    let mut rest = text;
    let mut lost: Option<Lost<'_>> = None;
    let mut is_found = false;
    let mut in_line = false;
    let mut starts_line = true;
    'pieces: while let Some(piece) = next_piece(rest) {
        if let Held::Header(section) = &piece.held {
            in_line = push_left(&mut new, &lost, in_line, rest)?;
            lost = lost_from(key, section, &piece);
        } else {
            lost = lost_with(&lost, &piece, starts_line);
        }
        if lost.is_some() {
            is_found = true;
        } else {
            new.extend_from_slice(piece.bytes)?;
            in_line = !piece.is_line;
        }
        starts_line = piece.is_line;
        rest = piece.rest;
    }
    if let Some(last) = &lost {
        push_between(&mut new, in_line, last.line_end, &[])?;
    }
    Ok(if is_found { Some(new) } else { None })
}

/// Appends the end of a line that began before a section that is left out, and comments.
fn push_between(
    new: &mut Vec<u8>,
    in_line: bool,
    line_end: &[u8],
    comments: &[u8],
) -> Result<(), AllocError>
    ensures { OnOk result (new.new.items ≡ new.old.items ++ (end_of in_line line_end.now ++ comments.now)) }
{
    if in_line {
        new.extend_from_slice(line_end)?;
    }
    new.extend_from_slice(comments)?;
    Ok(())
}
