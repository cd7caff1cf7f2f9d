//! A value that is set, and an entry that is added.
ghost use Rattle.std.specs.Prelude.{◌≡◌, ◌++◌, ◌∷◌, ◌↔◌, List, ℕ, None, true, IfOk, IfSome, IsTrue, OnOk, option_map};
ghost use Rattle.config_edit.specs.Edit.{Content, IsFeedAt, IsOf};
ghost use Rattle.config_file.specs.Key.{is_name};
ghost use Rattle.config_file.specs.KeyView.{key_of};
ghost use Rattle.config_file.specs.Views.{section_of};
ghost use Rattle.config_edit.specs.Reading.{ArePlaces, Ends, IsAdded, IsLeft, IsListable, IsReplacement, content_of, holds_header, is_item, line_ends, new_line};
ghost use Rattle.config_file.specs.Reading.Spellings.{is_section, is_spellable};
ghost use Rattle.config_file.specs.Spelling.{spelled_section};

use crate::piece::{Held, Piece, last_line_end, next_piece};
use crate::write::{End, push_changed, push_line};
use config_file::bytes::before;
use config_file::entry::{Entry, EntryParts};
use config_file::key::Key;
use config_file::section::Section;
use config_file::spelling::push_header;
use std::alloc::{AllocError, Global};

/// Whether an entry of these parts, in this section, has the key.
pub(crate) fn is_of(key: &Key<'_>, section: &Option<Section<'_>>, parts: &EntryParts<'_>) -> bool
    ensures { IsListable (option_map section_of section.now)
        → (IsTrue result ↔ IsOf (key_of key.now) (content_of (option_map section_of section.now) parts.now)) }
{
    key.is_of(&Entry {
        section: *section,
        key: parts.key,
        value: parts.value,
        line: 0,
    })
}

/// An entry that has the key: its piece, its parts, and whether a header precedes it on its line.
#[derive(Clone, Copy)]
pub(crate) struct Found<'a> {
    pub piece: Piece<'a>,
    pub parts: EntryParts<'a>,
    pub in_line: bool,
}

/// A new text, and whether its key had several entries.
#[derive(Drop)]
pub(crate) struct Replaced {
    pub text: Vec<u8>,
    pub several: bool,
}

/// What becomes of a text in which a key gets a value.
#[derive(Drop)]
pub(crate) enum Replacement {
    /// The text is no configuration file.
    Unread,
    /// No entry has the key.
    Nothing,
    Done(Replaced),
}

/// A text in which the last entry of the key has this value, and the entries of the key before that are left
/// out, with their lines.
pub(crate) fn replace(
    alloc: Global,
    text: &[u8],
    key: &Key<'_>,
    value: &[u8],
) -> Result<Replacement, AllocError>
    requires { is_spellable value.now ≡ true }
    ensures { IfOk result (IsReplacement (key_of key.now) value.now text.now) }
{
    let mut new = Vec::with_capacity(alloc, text.len())?;
    let mut rest = text;
    let mut start = text;
    let mut section: Option<Section<'_>> = None;
    let mut found: Option<Found<'_>> = None;
    let mut several = false;
    let mut in_line = false;
    'pieces: while let Some(piece) = next_piece(rest) {
        match piece.held {
            Held::Header(header) => section = Some(header),
            Held::Entry(parts) => {
                if is_of(key, &section, &parts) {
                    several = found.is_some();
                    push_before(&mut new, &found, before(start, rest))?;
                    found = Some(Found {
                        piece,
                        parts,
                        in_line,
                    });
                    start = piece.rest;
                }
            }
            Held::Nothing | Held::Comment => {}
        }
        in_line = is_header(&piece.held);
        rest = piece.rest;
    }
    if !rest.is_empty() {
        return Ok(Replacement::Unread);
    }
    let last = match &found {
        Some(last) => last,
        None => return Ok(Replacement::Nothing),
    };
    push_changed(&mut new, alloc, &last.piece, &last.parts, value)?;
    new.extend_from_slice(start)?;
    Ok(Replacement::Done(Replaced { text: new, several }))
}

/// Appends what precedes an entry of the key: what is left of the one before it, if there is one, and what is
/// between them. The line end stays of an entry that a header precedes on its line.
fn push_before(
    new: &mut Vec<u8>,
    found: &Option<Found<'_>>,
    between: &[u8],
) -> Result<(), AllocError>
    ensures { OnOk result ((left : List ℕ) × IsLeft found.now left × (new.new.items ≡ new.old.items ++ (left ++ between.now))) }
{
    if let Some(last) = found {
        if last.in_line {
            new.extend_from_slice(last.piece.line_end())?;
        }
    }
    new.extend_from_slice(between)?;
    Ok(())
}

/// Where a new entry comes: what follows it, and what ends the line before it.
#[derive(Clone, Copy)]
pub(crate) struct Insertion<'a> {
    pub rest: &'a [u8],
    pub end: End,
}

/// After the last entry of the last section of the key, or after its header; and the end of the text.
#[derive(Clone, Copy)]
pub(crate) struct Places<'a> {
    pub inside: Option<Insertion<'a>>,
    pub end: End,
}

fn is_header(held: &Held<'_>) -> bool
    ensures { result ≡ holds_header held.now }
{
    match held {
        Held::Header(_) => true,
        Held::Nothing | Held::Comment | Held::Entry(_) => false,
    }
}

/// Whether this is a header or an entry.
fn is_item(held: &Held<'_>) -> bool
    ensures { result ≡ is_item held.now }
{
    match held {
        Held::Header(_) | Held::Entry(_) => true,
        Held::Nothing | Held::Comment => false,
    }
}

/// Looks for the place of a new entry of the key.
fn find_places<'a>(text: &'a [u8], key: &Key<'_>) -> Places<'a>
    ensures places { (contents : List Content) → Ends None text.now contents
        → ArePlaces (key_of key.now) text.now contents result }
    ensures within { IfSome result.inside (λ place. (front : List ℕ) × (text.now ≡ front ++ place.rest.now)) }
{
    let mut rest = text;
    let mut is_inside = false;
    let mut after_header = false;
    let mut inside: Option<Insertion<'_>> = None;
    let mut end = End::Line;
    'pieces: while let Some(piece) = next_piece(rest) {
        end = End::of(&piece);
        rest = piece.rest;
        let mut is_header = false;
        if let Held::Header(section) = &piece.held {
            is_inside = key.is_in(section);
            is_header = true;
        }
        if is_inside && (after_header || is_item(&piece.held)) {
            inside = Some(Insertion { rest, end });
        }
        after_header = is_header;
    }
    Places { inside, end }
}

/// Appends a text with a new entry at this place in its section.
fn push_inside(
    new: &mut Vec<u8>,
    text: &[u8],
    place: &Insertion<'_>,
    key: &Key<'_>,
    value: &[u8],
) -> Result<(), AllocError>
    requires { (front : List ℕ) × (text.now ≡ front ++ place.now.rest.now) }
    ensures { OnOk result ((front feed : List ℕ) × IsFeedAt front text.now feed
        × (text.now ≡ front ++ place.now.rest.now)
        × (new.new.items ≡ new.old.items ++ (front ++ (line_ends place.now.end feed
        ++ (new_line (key_of key.now).name value.now feed ++ place.now.rest.now))))) }
{
    let front = before(text, place.rest);
    let line_end = line_end_at(front, text);
    new.extend_from_slice(front)?;
    place.end.push(new, line_end)?;
    push_line(new, key.name(), value, line_end)?;
    new.extend_from_slice(place.rest)?;
    Ok(())
}

/// Appends a text with a new section at its end.
fn push_behind(
    new: &mut Vec<u8>,
    text: &[u8],
    end: End,
    key: &Key<'_>,
    value: &[u8],
) -> Result<(), AllocError>
    ensures { let k = key_of key.now in OnOk result ((feed : List ℕ) × IsFeedAt text.now text.now feed
        × (new.new.items ≡ new.old.items ++ (text.now ++ (line_ends end feed
        ++ ((91 ∷ spelled_section k.section k.subsection) ++ (feed ++ new_line k.name value.now feed)))))) }
{
    let line_end = line_end_at(text, text);
    new.extend_from_slice(text)?;
    end.push(new, line_end)?;
    push_header(new, key.section(), key.subsection())?;
    new.extend_from_slice(line_end)?;
    push_line(new, key.name(), value, line_end)
}

/// A text with a new entry after the last one of its section, or in a new section at the end.
pub(crate) fn added(
    alloc: Global,
    text: &[u8],
    key: &Key<'_>,
    value: &[u8],
) -> Result<Vec<u8>, AllocError>
    requires spellable { is_spellable value.now ≡ true }
    requires section { is_section (key_of key.now).section (key_of key.now).subsection ≡ true }
    requires name { is_name (key_of key.now).name ≡ true }
    ensures { (contents : List Content) → Ends None text.now contents
        → IfOk result (λ new. IsAdded (key_of key.now) value.now text.now contents new.items) }
{
    let places = find_places(text, key);
    let mut new = Vec::with_capacity(alloc, text.len())?;
    match &places.inside {
        Some(place) => push_inside(&mut new, text, place, key, value)?,
        None => push_behind(&mut new, text, places.end, key, value)?,
    }
    Ok(new)
}

/// The line end to use behind this front of a text: its last one, otherwise that of the text, otherwise LF.
fn line_end_at(front: &[u8], text: &[u8]) -> &'static [u8]
    ensures { IsFeedAt front.now text.now result.now }
{
    match last_line_end(front) {
        Some(line_end) => line_end,
        None => match last_line_end(text) {
            Some(line_end) => line_end,
            None => b"\n",
        },
    }
}
