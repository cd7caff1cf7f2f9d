//! Entries that are taken out, with the headers of sections that they leave empty.
ghost use Rattle.std.specs.Prelude.{◌≡◌, ◌++◌, ◌↔◌, List, ℕ, [], None, Option, true, false, IfOk, IsTrue, OnOk, option_copied, ◌||◌, ◌⊎◌, not};
ghost use Rattle.config_edit.specs.Edit.{Content, IsPlaceOf};
ghost use Rattle.config_file.specs.KeyView.{key_of};
ghost use Rattle.config_edit.specs.Unset.{LeavesEnd};
ghost use Rattle.config_edit.specs.Reading.{AreLeft, EndsInCommentHeld, Ends, IsBegun, IsFinished, IsPushed, IsTaken, is_blank_held, one_more};

use crate::piece::{Held, Piece, next_piece};
use crate::setting::is_of;
use config_file::key::Key;
use config_file::section::Section;
use std::alloc::{AllocError, Global};

/// How many entries a key has.
#[derive(Clone, Copy)]
pub(crate) enum Count {
    None,
    One,
    Several,
}

impl Count {
    fn more(self) -> Count
        ensures { result ≡ one_more self }
    {
        match self {
            Count::None => Count::One,
            _ => Count::Several,
        }
    }
}

/// A new text, and how many entries were taken out.
#[derive(Drop)]
pub(crate) struct Taken {
    pub text: Vec<u8>,
    pub count: Count,
}

/// A section on its way to the new text.
#[derive(Drop)]
struct Group {
    /// The header, and the rest of its line.
    head: Vec<u8>,
    /// What follows that line.
    body: Vec<u8>,
    /// What stays of that line if the header goes.
    line_end: &'static [u8],
    /// Whether another header precedes this one on its line.
    in_line: bool,
    /// Whether the line of the header goes on.
    in_head: bool,
    /// Whether an entry was taken out.
    has_lost: bool,
    /// Whether an entry or a comment is left, or a comment precedes the header.
    is_kept: bool,
}

impl Group {
    /// What precedes the first header.
    fn new(alloc: Global) -> Group
        ensures head { result.head.items ≡ [] }
        ensures body { result.body.items ≡ [] }
        ensures line_end { result.line_end.now ≡ [] }
        ensures in_head { result.in_head ≡ false }
        ensures is_kept { result.is_kept ≡ true }
    {
        Group {
            head: Vec::new(alloc),
            body: Vec::new(alloc),
            line_end: &[],
            in_line: false,
            in_head: false,
            has_lost: false,
            is_kept: true,
        }
    }

    /// Goes on with the section of this header.
    fn begin(&mut self, piece: &Piece<'_>, is_kept: bool) -> Result<(), AllocError>
        ensures { OnOk result (IsBegun self.old self.new piece.now is_kept) }
    {
        self.head.clear();
        self.body.clear();
        self.head.extend_from_slice(piece.bytes)?;
        self.line_end = &[];
        self.in_line = self.in_head;
        self.in_head = true;
        self.has_lost = false;
        self.is_kept = is_kept;
        Ok(())
    }

    /// Keeps a piece.
    fn keep(&mut self, piece: &Piece<'_>) -> Result<(), AllocError>
        ensures { OnOk result (IsPushed self.old self.new piece.now piece.now.bytes.now
            × (self.new.has_lost ≡ self.old.has_lost) × (self.new.is_kept ≡ self.old.is_kept || not (is_blank_held piece.now.held))) }
    {
        self.is_kept = self.is_kept || !is_blank(piece);
        self.push(piece, piece.bytes)
    }

    /// Leaves an entry out. The end of its line stays if the header is on the line.
    fn lose(&mut self, piece: &Piece<'_>) -> Result<(), AllocError>
        ensures { OnOk result ((end : List ℕ) × LeavesEnd self.old.in_head piece.now.bytes.now piece.now.is_line end
            × IsPushed self.old self.new piece.now end
            × (self.new.has_lost ≡ true) × (self.new.is_kept ≡ self.old.is_kept)) }
    {
        self.has_lost = true;
        let end: &[u8] = if self.in_head { piece.line_end() } else { &[] };
        self.push(piece, end)
    }

    /// Appends what is left of a piece.
    fn push(&mut self, piece: &Piece<'_>, bytes: &[u8]) -> Result<(), AllocError>
        ensures { OnOk result (IsPushed self.old self.new piece.now bytes.now
            × (self.new.has_lost ≡ self.old.has_lost) × (self.new.is_kept ≡ self.old.is_kept)) }
    {
        if !self.in_head {
            self.body.extend_from_slice(bytes)?;
            return Ok(());
        }
        self.in_head = false;
        self.line_end = if self.in_line { piece.line_end() } else { &[] };
        self.head.extend_from_slice(bytes)?;
        Ok(())
    }

    /// Appends the section.
    fn finish(&self, new: &mut Vec<u8>) -> Result<(), AllocError>
        ensures { OnOk result ((put : List ℕ) × (new.new.items ≡ new.old.items ++ put) × IsFinished self.now put) }
    {
        new.extend_from_slice(self.head_left())?;
        new.extend_from_slice(self.body.as_slice())?;
        Ok(())
    }

    /// The head, or what stays of its line if the section has lost its only entries.
    fn head_left(&self) -> &[u8]
        ensures { ((result.now ≡ self.now.head.items) × ((self.now.is_kept ≡ true) ⊎ (self.now.has_lost ≡ false)))
            ⊎ ((result.now ≡ self.now.line_end.now) × (self.now.is_kept ≡ false) × (self.now.has_lost ≡ true)) }
    {
        if self.is_kept || !self.has_lost {
            self.head.as_slice()
        } else {
            self.line_end
        }
    }
}

/// Whether one of these places is this one, if they rise, and those that are left after it. Without places,
/// each is one.
fn at_place(places: Option<&[usize]>, index: usize) -> (bool, Option<&[usize]>)
    ensures here { IsTrue result.0 ↔ IsPlaceOf (option_copied places.entry) index }
    ensures left { AreLeft (option_copied places.entry) (option_copied result.1) index }
{
    let Some(mut left) = places else {
        return (true, None);
    };
    'smaller: while let [first, later @ ..] = left {
        if *first >= index {
            break;
        }
        left = later;
    }
    match left {
        [first, ..] => (*first == index, Some(left)),
        [] => (false, Some(left)),
    }
}

/// A text without the entries of the key at these places, or without all of them.
pub(crate) fn without(
    alloc: Global,
    text: &[u8],
    key: &Key<'_>,
    places: Option<&[usize]>,
) -> Result<Taken, AllocError>
    ensures { (contents : List Content) → Ends None text.now contents
        → IfOk result (λ taken. IsTaken (key_of key.now) (option_copied places.entry) text.now contents taken) }
{
    let mut new = Vec::with_capacity(alloc, text.len())?;
    let mut rest = text;
    let mut section: Option<Section<'_>> = None;
    let mut group = Group::new(alloc);
    let mut count = Count::None;
    let mut left = places;
    let mut index = 0usize;
    let mut below_comment = false;
    'pieces: while let Some(piece) = next_piece(rest) {
        match &piece.held {
            Held::Header(header) => {
                section = Some(*header);
                group.finish(&mut new)?;
                group.begin(&piece, below_comment)?;
            }
            Held::Entry(parts) => {
                let (is_place, later) = at_place(left, index);
                left = later;
                index += 1;
                if is_place && is_of(key, &section, parts) {
                    count = count.more();
                    group.lose(&piece)?;
                } else {
                    group.keep(&piece)?;
                }
            }
            Held::Nothing | Held::Comment => group.keep(&piece)?,
        }
        below_comment = is_below_comment(&piece, below_comment);
        rest = piece.rest;
    }
    group.finish(&mut new)?;
    Ok(Taken { text: new, count })
}

/// Whether a comment is right above what follows the piece, if it was so of the piece or not.
fn is_below_comment(piece: &Piece<'_>, was: bool) -> bool
    ensures { IsTrue result ↔ (EndsInCommentHeld piece.now.held ⊎ ((is_blank_held piece.now.held ≡ true) × (was ≡ true))) }
{
    piece.ends_in_comment() || (was && is_blank(piece))
}

/// Whether a piece has only blanks.
fn is_blank(piece: &Piece<'_>) -> bool
    ensures { result ≡ is_blank_held piece.now.held }
{
    match &piece.held {
        Held::Nothing => true,
        _ => false,
    }
}
