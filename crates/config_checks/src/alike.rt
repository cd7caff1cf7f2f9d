//! Names that are not like the name of a key, which are told by its bytes without counting edits.
ghost use Rattle.std.specs.Prelude.{◌≡◌, ◌↔◌, ◌<◌, ℕ, List, length, not, true, slice_index_or, IsTrue, MatchOption};
ghost use Rattle.std.specs.List.{All, filter};
ghost use Rattle.config_text.specs.SameWord.{SameWord};
ghost use Rattle.config_checks.specs.Nearest.{FewEdits};
ghost use Rattle.config_checks.specs.Suggestions.{AreAlike, IsOtherWord};
ghost use Rattle.config_checks.specs.Reading.Steps.{has_byte, is_same_byte, IsMarkedByte, IsName, IsOtherFor, IsUnlike};

use crate::edits::{LONG, most_edits};
use crate::key::is_same_word;

/// The word of rows for which people write this text, or `None` if they write it for none.
fn word_for(text: &[u8]) -> Option<&'static [u8]>
    ensures { IsOtherFor text.now result }
{
    if is_same_word(b"added", text) {
        Some(b"new")
    } else if is_same_word(b"branches", text) {
        Some(b"branch")
    } else if is_same_word(b"command", text) {
        Some(b"cmd")
    } else if is_same_word(b"removed", text) {
        Some(b"old")
    } else if is_same_word(b"textconvert", text) {
        Some(b"textconv")
    } else if is_same_word(b"username", text) {
        Some(b"name")
    } else {
        None
    }
}

/// Whether this is the word of a row, if people write another text for one.
fn is_word(word: Option<&[u8]>, row: &[u8], text: &[u8]) -> bool
    requires { IsOtherFor text.now word }
    ensures { IsTrue result ↔ IsOtherWord row.now text.now }
{
    match word {
        Some(word) => is_same_word(word, row),
        None => false,
    }
}

/// Whether people write a text for the word of a row.
pub(crate) fn is_other_word(row: &[u8], text: &[u8]) -> bool
    ensures { IsTrue result ↔ IsOtherWord row.now text.now }
{
    is_word(word_for(text), row, text)
}

/// What is known of the name of a key before it is compared with those of many rows.
#[derive(Drop)]
pub(crate) struct NameFacts {
    /// Which bytes it has, each letter in both cases.
    bytes: [bool; 256],
    /// The word of rows for which people write it.
    word: Option<&'static [u8]>,
}

/// Marks each byte of a name, in both cases.
fn marked_bytes(name: &[u8]) -> [bool; 256]
    ensures { All (IsMarkedByte result) name.now }
{
    let mut bytes = [false; 256];
    for byte in name {
        bytes[usize::from(byte.to_ascii_lowercase())] = true;
        bytes[usize::from(byte.to_ascii_uppercase())] = true;
    }
    bytes
}

/// What is known of a name.
pub(crate) fn name_facts(name: &[u8]) -> NameFacts
    ensures { IsName name.now result }
{
    NameFacts {
        bytes: marked_bytes(name),
        word: word_for(name),
    }
}

/// Whether a byte is the same as this one of the name of a key, ignoring ASCII case, by what is known of that
/// name.
// Most bytes of rows are not in the name.
#[inline(always)]
fn is_same_byte(bytes: &[bool; 256], row: u8, name: u8) -> bool
    requires { IsMarkedByte bytes.now name }
    ensures { result ≡ is_same_byte row name }
{
    bytes[usize::from(row)] && row.eq_ignore_ascii_case(&name)
}

/// Whether the name of a row and the name of a key begin, or end, with the same byte, ignoring ASCII case, or one
/// of them is empty.
#[inline(always)]
fn share_an_end(bytes: &[bool; 256], row: &[u8], name: &[u8]) -> bool
    requires { All (IsMarkedByte bytes.now) name.now }
    ensures alike { AreAlike row.now name.now → IsTrue result }
    ensures same { SameWord row.now name.now → IsTrue result }
{
    if row.is_empty() || name.is_empty() {
        return true;
    }
    is_same_byte(bytes, row[0], name[0])
        || is_same_byte(bytes, row[row.len() - 1], name[name.len() - 1])
}

/// Whether a name of a row has more bytes than so many that the name of a key lacks, by what is known of the latter.
// It ends at the first byte that is one too many.
#[inline(always)]
fn has_more(bytes: &[bool; 256], row: &[u8], name: &[u8], most: usize) -> bool
    requires { All (IsMarkedByte bytes.now) name.now }
    ensures { IsTrue result → most < length (filter (λ byte. not (has_byte name.now byte)) row.now) }
{
    let mut left = most;
    for byte in row {
        if !bytes[usize::from(*byte)] {
            if left == 0 {
                return true;
            }
            left -= 1;
        }
    }
    false
}

/// Whether more edits lead from the name of a row to the name of a key than near texts may have, as their lengths or their
/// bytes tell.
#[inline(always)]
fn is_beyond(bytes: &[bool; 256], row: &[u8], name: &[u8]) -> bool
    requires { All (IsMarkedByte bytes.now) name.now }
    ensures { IsTrue result → (n : ℕ) → ¬ (FewEdits 5 row.now name.now n) }
{
    let most = most_edits(LONG, row, name);
    row.len().abs_diff(name.len()) > most || has_more(bytes, row, name, most)
}

impl NameFacts {
    /// Whether the name of a row is not like the name of this key. Most names are unlike it, and quickly told.
    #[inline(always)]
    pub(crate) fn are_unlike(&self, row: &[u8], name: &[u8]) -> bool
        requires { IsName name.now self.now }
        ensures { IsTrue result → IsUnlike row.now name.now }
    {
        self.word.is_none()
            && !share_an_end(&self.bytes, row, name)
            && is_beyond(&self.bytes, row, name)
    }

    /// Whether people write the name of this key for the name of a row.
    pub(crate) fn is_other_word(&self, row: &[u8], name: &[u8]) -> bool
        requires { IsName name.now self.now }
        ensures { IsTrue result ↔ IsOtherWord row.now name.now }
    {
        is_word(self.word, row, name)
    }
}
