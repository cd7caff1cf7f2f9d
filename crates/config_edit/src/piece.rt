//! The pieces of a text: each holds the same wherever it stands.
ghost use Rattle.std.specs.Prelude.{◌≡◌, ◌≢◌, ◌<◌, ◌≤◌, ◌++◌, ◌⊎◌, ◌∷◌, List, ℕ, [], ◌↔◌, true, false, length, IfSome, IsTrue, MatchOption, None, Some};
ghost use Rattle.config_edit.specs.Reading.{EndsComment, EndsInCommentHeld, GoesOn, IsPiece, IsRead, StartsLine, StartsNoComment};
ghost use Rattle.config_edit.specs.Edit.{IsEndOfLine, IsLastLineEnd};
ghost use Rattle.config_edit.specs.Cut.{AreBlank, HasComment, IsComment, IsTail};
ghost use Rattle.config_file.specs.Bytes.{BeginsWithLetter};

use config_file::bytes::{Class, before, is_comment_sign, run, split};
use config_file::entry::{EntryParts, read_entry};
use config_file::header::read_header;
use config_file::section::Section;

/// What a piece has, beside blanks.
#[derive(Clone, Copy)]
pub(crate) enum Held<'a> {
    /// A line end, or the end of the text.
    Nothing,
    /// A comment, up to the end of its line.
    Comment,
    /// A header. What follows it on its line is another piece.
    Header(Section<'a>),
    /// An entry, and a comment behind it if there is one, up to the end of its line.
    Entry(EntryParts<'a>),
}

/// The first piece of a text.
#[derive(Clone, Copy)]
pub(crate) struct Piece<'a> {
    pub held: Held<'a>,
    /// The blanks before what the piece holds.
    pub blanks: &'a [u8],
    /// All bytes of the piece.
    pub bytes: &'a [u8],
    /// What follows the piece.
    pub rest: &'a [u8],
    /// Whether a line end ends the piece.
    pub is_line: bool,
}

/// What is left of a line behind its entry: blanks, a comment, and the line end.
#[derive(Clone, Copy)]
struct Tail<'a> {
    has_comment: bool,
    is_line: bool,
    rest: &'a [u8],
}

/// Whether the text begins with a comment, and what follows it.
#[tactic(auto, using(crate::proofs::Pieces::comment_cut, crate::proofs::Pieces::no_comment))]
fn after_comment(text: &[u8]) -> (bool, &[u8])
    ensures cut { (comment : List ℕ) × (text.now ≡ comment ++ result.1.now) × IsComment comment
        × (result.0 ≡ true → comment ≢ []) }
    ensures none { result.0 ≡ false → StartsNoComment text.now × (result.1.now ≡ text.now) }
    ensures end { result.0 ≡ true → EndsComment result.1.now }
{
    match split(text) {
        Some((sign, after)) if is_comment_sign(sign) => (true, run(after, Class::Comment).1),
        _ => (false, text),
    }
}

/// Reads what is left of a line, or `None` if something else comes before its end.
fn read_tail(text: &[u8]) -> Option<Tail<'_>>
    ensures tail { MatchOption result (GoesOn text.now)
        (λ left. (tail : List ℕ) × (text.now ≡ tail ++ left.rest.now) × (t : IsTail tail left.rest.now left.is_line)
        × (left.has_comment ≡ false → t.comment ≡ []) × (left.has_comment ≡ true → t.comment ≢ [])) }
    ensures within { IfSome result (λ left. length left.rest.now ≤ length text.now) }
    ensures shorter { text.now ≢ [] → IfSome result (λ left. length left.rest.now < length text.now) }
{
    let (_, at) = run(text, Class::Blank);
    let (has_comment, end) = after_comment(at);
    match split(end) {
        Some((b'\n', rest)) => Some(Tail {
            has_comment,
            is_line: true,
            rest,
        }),
        Some(_) => None,
        None => Some(Tail {
            has_comment,
            is_line: false,
            rest: end,
        }),
    }
}

/// The first piece of a text, or `None` if the text is empty or is no part of a file.
pub(crate) fn next_piece(text: &[u8]) -> Option<Piece<'_>>
    ensures piece { MatchOption result ((text.now ≡ []) ⊎ (¬ (IsRead text.now))) (IsPiece text.now) }
    ensures shorter { IfSome result (λ piece. length piece.rest.now < length text.now) }
{
    if text.is_empty() {
        return None;
    }
    let (blanks, at) = run(text, Class::Blank);
    match split(at) {
        Some((b'[', after)) => header_piece(text, blanks, after),
        Some((byte, _)) if byte.is_ascii_alphabetic() => entry_piece(text, blanks, at),
        _ => line_piece(text, blanks, at),
    }
}

/// The piece of a header, whose `[` comes after these blanks and before the other text.
fn header_piece<'a>(text: &'a [u8], blanks: &'a [u8], after: &'a [u8]) -> Option<Piece<'a>>
    requires joined { text.now ≡ blanks.now ++ 91 ∷ after.now }
    requires blank { AreBlank blanks.now }
    ensures piece { MatchOption result (¬ (IsRead text.now)) (IsPiece text.now) }
    ensures shorter { IfSome result (λ piece. length piece.rest.now < length text.now) }
{
    match read_header(after) {
        Ok((section, rest)) => Some(Piece {
            held: Held::Header(section),
            blanks,
            bytes: before(text, rest),
            rest,
            is_line: false,
        }),
        Err(_) => None,
    }
}

/// The piece of an entry, which begins after these blanks.
fn entry_piece<'a>(text: &'a [u8], blanks: &'a [u8], at: &'a [u8]) -> Option<Piece<'a>>
    requires joined { text.now ≡ blanks.now ++ at.now }
    requires blank { AreBlank blanks.now }
    requires letter { BeginsWithLetter at.now }
    ensures piece { MatchOption result (¬ (IsRead text.now)) (IsPiece text.now) }
    ensures shorter { IfSome result (λ piece. length piece.rest.now < length text.now) }
{
    match read_entry(at) {
        Ok(parts) => match read_tail(parts.rest) {
            Some(tail) => Some(Piece {
                held: Held::Entry(parts),
                blanks,
                bytes: before(text, tail.rest),
                rest: tail.rest,
                is_line: tail.is_line,
            }),
            None => None,
        },
        Err(_) => None,
    }
}

/// The piece without an entry or a header, which begins with these blanks.
fn line_piece<'a>(text: &'a [u8], blanks: &'a [u8], at: &'a [u8]) -> Option<Piece<'a>>
    requires some { text.now ≢ [] }
    requires joined { text.now ≡ blanks.now ++ at.now }
    requires blank { AreBlank blanks.now }
    requires starts { StartsLine at.now }
    ensures piece { MatchOption result (¬ (IsRead text.now)) (IsPiece text.now) }
    ensures shorter { IfSome result (λ piece. length piece.rest.now < length text.now) }
{
    match read_tail(at) {
        Some(tail) => Some(Piece {
            held: if tail.has_comment {
                Held::Comment
            } else {
                Held::Nothing
            },
            blanks,
            bytes: before(text, tail.rest),
            rest: tail.rest,
            is_line: tail.is_line,
        }),
        None => None,
    }
}

impl<'a> Piece<'a> {
    /// The line end of the piece, or nothing if none ends it.
    pub(crate) fn line_end(&self) -> &'static [u8]
        ensures { IsEndOfLine self.now.bytes.now self.now.is_line result.now }
    {
        if !self.is_line {
            return &[];
        }
        line_end(self.bytes)
    }

    /// Whether the last item of the piece is a comment.
    pub(crate) fn ends_in_comment(&self) -> bool
        ensures { IsTrue result ↔ EndsInCommentHeld self.now.held }
    {
        match &self.held {
            Held::Comment => true,
            Held::Entry(parts) => has_comment(parts.rest),
            Held::Nothing | Held::Header(_) => false,
        }
    }
}

/// Whether the text has a comment, behind any blanks.
fn has_comment(text: &[u8]) -> bool
    ensures { IsTrue result ↔ HasComment text.now }
{
    let (_, at) = run(text, Class::Blank);
    match split(at) {
        Some((sign, _)) => is_comment_sign(sign),
        None => false,
    }
}

/// The line end of a text that LF ends.
fn line_end(line: &[u8]) -> &'static [u8]
    ensures { IsEndOfLine line.now true result.now }
{
    if line.ends_with(b"\r\n") {
        b"\r\n"
    } else {
        b"\n"
    }
}

/// The line end that a text uses: its last one, or `None` if it has none.
pub(crate) fn last_line_end(text: &[u8]) -> Option<&'static [u8]>
    ensures { MatchOption result (IsLastLineEnd text.now None) (λ line_end. IsLastLineEnd text.now (Some line_end.now)) }
{
    let last = text.iter().rposition(|byte| *byte == b'\n')?;
    Some(line_end(&text[..last + 1]))
}
