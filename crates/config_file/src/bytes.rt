//! Bytes and runs of them, for the crates that read or change a text of which an [`Entry`](crate::Entry) is a
//! part.
ghost use Rattle.std.specs.Prelude.{◌≡◌, ℕ, ◌+◌, ◌<◌, ◌≤◌, ◌↔◌, List, [], ◌∷◌, ◌++◌, length, MatchOption, IsTrue};
ghost use Rattle.std.specs.Prelude.{◌==◌};
ghost use Rattle.std.specs.List.{list_all, prefix_len};
ghost use Rattle.config_file.specs.Bytes as spec;
ghost use Rattle.config_file.specs.Bytes.{IsAtLineEnd};
ghost use Rattle.config_file.specs.Header.{BeginsWithout};
ghost use Rattle.config_file.specs.Key.{is_no_dot};
ghost use Rattle.config_file.specs.Runs.{Run};
ghost use Rattle.config_file.specs.Value.{line_feeds};
ghost use Rattle.config_file.specs.Reading.Scans as scans;
ghost use Rattle.config_file.specs.Reading.Scans.{passes, block};
ghost use Rattle.config_file.specs.declared.bytes.Class.TheVariants.{Name, Key, Blank, Space, Comment, Unescaped};
ghost use Rattle.config_file.specs.declared.bytes.Class.TheVariants.{Word, Plain, InQuotes};

use std::simd::prelude::*;

/// The first byte of a text and what follows it, or `None` if the text is empty.
#[inline(always)]
pub fn split(text: &[u8]) -> Option<(u8, &[u8])>
    ensures { MatchOption result (text.now ≡ []) (λ p. text.now ≡ p.0 ∷ p.1.now) }
{
    match text {
        [first, rest @ ..] => Some((*first, rest)),
        [] => None,
    }
}

/// What follows this byte, if the text begins with it.
#[inline(always)]
pub fn after_byte(byte: u8, text: &[u8]) -> Option<&[u8]>
    ensures { MatchOption result (BeginsWithout byte text.now) (λ rest. text.now ≡ byte ∷ rest.now) }
{
    let (first, rest) = split(text)?;
    if first == byte { Some(rest) } else { None }
}

/// Whether this byte is a space, a TAB or a CR.
#[inline]
pub fn is_blank(byte: u8) -> bool
    ensures { result ≡ spec.is_blank byte }
{
    byte == b' ' || byte == b'\t' || byte == b'\r'
}

/// Whether this byte begins a comment: `#` or `;`.
#[inline]
pub fn is_comment_sign(byte: u8) -> bool
    ensures { result ≡ spec.is_comment_sign byte }
{
    byte == b'#' || byte == b';'
}

#[inline]
pub(crate) fn is_key_byte(byte: u8) -> bool
    ensures { result ≡ spec.is_key_byte byte }
{
    byte.is_ascii_alphanumeric() || byte == b'-'
}

#[inline]
pub(crate) fn is_name_byte(byte: u8) -> bool
    ensures { result ≡ spec.is_name_byte byte }
{
    is_key_byte(byte) || byte == b'.'
}

/// Whether this byte is neither LF nor NUL.
#[inline]
pub(crate) fn is_text_byte(byte: u8) -> bool
    ensures { result ≡ spec.is_text_byte byte }
{
    byte != 0 && byte != b'\n'
}

/// Whether this byte is no blank, no quote and no backslash.
#[inline]
fn is_word_byte(byte: u8) -> bool
    ensures { result ≡ scans.is_word_byte byte }
{
    !is_blank(byte) && byte != b'"' && byte != b'\\'
}

/// Whether a value goes on after this byte in quotes and outside them, and the byte is no quote and no
/// backslash.
#[inline]
fn is_plain_byte(byte: u8) -> bool
    ensures { result ≡ scans.is_plain_byte byte }
{
    is_text_byte(byte) && !is_comment_sign(byte) && byte != b'"' && byte != b'\\'
}

/// Whether this byte spells itself in quotes.
#[inline]
fn is_plain_in_quotes(byte: u8) -> bool
    ensures { result ≡ spec.is_plain_in_quotes byte }
{
    is_text_byte(byte) && byte != b'"' && byte != b'\\'
}

/// Whether the text is empty, or begins with LF or with CR LF.
pub(crate) fn is_at_line_end(text: &[u8]) -> bool
    ensures { IsTrue result ↔ (IsAtLineEnd text.now) }
{
    match text {
        [] => true,
        [first] => *first == b'\n',
        [first, second, ..] => *first == b'\n' || *first == b'\r' && *second == b'\n',
    }
}

/// A class of bytes, of which a run is wanted.
#[derive(Clone, Copy)]
pub enum Class {
    /// Letters, digits, `-` and `.`.
    Name,
    /// Letters, digits and `-`.
    Key,
    /// Spaces, TABs and CRs.
    Blank,
    /// Spaces and TABs.
    Space,
    /// All bytes but LF.
    Comment,
    /// All bytes but a backslash.
    Unescaped,
    /// All bytes but blanks, quotes and backslashes.
    Word,
    /// All bytes after which a value goes on in quotes and outside them, but quotes and backslashes.
    Plain,
    /// All bytes that spell themselves in quotes: all but LF, NUL, quotes and backslashes.
    InQuotes,
}

#[inline(always)]
fn is_in(class: Class, byte: u8) -> bool
    ensures { result ≡ passes class byte }
{
    match class {
        Class::Name => is_name_byte(byte),
        Class::Key => is_key_byte(byte),
        Class::Blank => is_blank(byte),
        Class::Space => byte == b' ' || byte == b'\t',
        Class::Comment => byte != b'\n',
        Class::Unescaped => byte != b'\\',
        Class::Word => is_word_byte(byte),
        Class::Plain => is_plain_byte(byte),
        Class::InQuotes => is_plain_in_quotes(byte),
    }
}

/// How many bytes are looked at at once.
const LANES: usize = 16;

/// The place of the lowest bit that is set, or the number of lanes if none is.
#[inline(always)]
fn first_set(mask: u64) -> usize
    ensures { result ≡ scans.first_set mask }
{
    if mask == 0 {
        LANES
    } else {
        mask.trailing_zeros() as usize
    }
}

#[inline(always)]
fn name_run(text: &[u8], at: usize) -> usize
    requires { at + LANES ≤ length text.now }
    ensures { result ≡ prefix_len (passes Name) (block at text.now) }
{
    let bytes = u8x16::from_slice(&text[at..]);
    let letters = (bytes | u8x16::splat(0x20)) - u8x16::splat(b'a');
    let digits = bytes - u8x16::splat(b'0');
    let stops = letters.simd_ge(u8x16::splat(26))
        & digits.simd_ge(u8x16::splat(10))
        & bytes.simd_ne(u8x16::splat(b'-'))
        & bytes.simd_ne(u8x16::splat(b'.'));
    first_set(stops.to_bitmask())
}

#[inline(always)]
fn key_run(text: &[u8], at: usize) -> usize
    requires { at + LANES ≤ length text.now }
    ensures { result ≡ prefix_len (passes Key) (block at text.now) }
{
    let bytes = u8x16::from_slice(&text[at..]);
    let letters = (bytes | u8x16::splat(0x20)) - u8x16::splat(b'a');
    let digits = bytes - u8x16::splat(b'0');
    let stops = letters.simd_ge(u8x16::splat(26))
        & digits.simd_ge(u8x16::splat(10))
        & bytes.simd_ne(u8x16::splat(b'-'));
    first_set(stops.to_bitmask())
}

#[inline(always)]
fn blank_run(text: &[u8], at: usize) -> usize
    requires { at + LANES ≤ length text.now }
    ensures { result ≡ prefix_len (passes Blank) (block at text.now) }
{
    let bytes = u8x16::from_slice(&text[at..]);
    let stops = bytes.simd_ne(u8x16::splat(b' '))
        & bytes.simd_ne(u8x16::splat(b'\t'))
        & bytes.simd_ne(u8x16::splat(b'\r'));
    first_set(stops.to_bitmask())
}

#[inline(always)]
fn space_run(text: &[u8], at: usize) -> usize
    requires { at + LANES ≤ length text.now }
    ensures { result ≡ prefix_len (passes Space) (block at text.now) }
{
    let bytes = u8x16::from_slice(&text[at..]);
    let stops = bytes.simd_ne(u8x16::splat(b' ')) & bytes.simd_ne(u8x16::splat(b'\t'));
    first_set(stops.to_bitmask())
}

#[inline(always)]
fn comment_run(text: &[u8], at: usize) -> usize
    requires { at + LANES ≤ length text.now }
    ensures { result ≡ prefix_len (passes Comment) (block at text.now) }
{
    let bytes = u8x16::from_slice(&text[at..]);
    let stops = bytes.simd_eq(u8x16::splat(b'\n'));
    first_set(stops.to_bitmask())
}

#[inline(always)]
fn unescaped_run(text: &[u8], at: usize) -> usize
    requires { at + LANES ≤ length text.now }
    ensures { result ≡ prefix_len (passes Unescaped) (block at text.now) }
{
    let bytes = u8x16::from_slice(&text[at..]);
    let stops = bytes.simd_eq(u8x16::splat(b'\\'));
    first_set(stops.to_bitmask())
}

#[inline(always)]
fn word_run(text: &[u8], at: usize) -> usize
    requires { at + LANES ≤ length text.now }
    ensures { result ≡ prefix_len (passes Word) (block at text.now) }
{
    let bytes = u8x16::from_slice(&text[at..]);
    let stops = bytes.simd_eq(u8x16::splat(b' '))
        | bytes.simd_eq(u8x16::splat(b'\t'))
        | bytes.simd_eq(u8x16::splat(b'\r'))
        | bytes.simd_eq(u8x16::splat(b'"'))
        | bytes.simd_eq(u8x16::splat(b'\\'));
    first_set(stops.to_bitmask())
}

#[inline(always)]
fn plain_run(text: &[u8], at: usize) -> usize
    requires { at + LANES ≤ length text.now }
    ensures { result ≡ prefix_len (passes Plain) (block at text.now) }
{
    let bytes = u8x16::from_slice(&text[at..]);
    let stops = bytes.simd_eq(u8x16::splat(0))
        | bytes.simd_eq(u8x16::splat(b'\n'))
        | bytes.simd_eq(u8x16::splat(b'#'))
        | bytes.simd_eq(u8x16::splat(b';'))
        | bytes.simd_eq(u8x16::splat(b'"'))
        | bytes.simd_eq(u8x16::splat(b'\\'));
    first_set(stops.to_bitmask())
}

#[inline(always)]
fn in_quotes_run(text: &[u8], at: usize) -> usize
    requires { at + LANES ≤ length text.now }
    ensures { result ≡ prefix_len (passes InQuotes) (block at text.now) }
{
    let bytes = u8x16::from_slice(&text[at..]);
    let stops = bytes.simd_eq(u8x16::splat(0))
        | bytes.simd_eq(u8x16::splat(b'\n'))
        | bytes.simd_eq(u8x16::splat(b'"'))
        | bytes.simd_eq(u8x16::splat(b'\\'));
    first_set(stops.to_bitmask())
}

/// How many bytes of a class come first at this place, among as many as are looked at at once.
#[inline(always)]
fn block_run(text: &[u8], at: usize, class: Class) -> usize
    requires { at + LANES ≤ length text.now }
    ensures { result ≡ prefix_len (passes class) (block at text.now) }
{
    match class {
        Class::Name => name_run(text, at),
        Class::Key => key_run(text, at),
        Class::Blank => blank_run(text, at),
        Class::Space => space_run(text, at),
        Class::Comment => comment_run(text, at),
        Class::Unescaped => unescaped_run(text, at),
        Class::Word => word_run(text, at),
        Class::Plain => plain_run(text, at),
        Class::InQuotes => in_quotes_run(text, at),
    }
}

#[inline(always)]
fn run_length(text: &[u8], class: Class) -> usize
    ensures length { result ≡ prefix_len (passes class) text.now }
    ensures within { result ≤ length text.now }
{
    let mut passed = 0;
    'strides: while text.len() - passed >= LANES {
        let run = block_run(text, passed, class);
        passed += run;
        if run < LANES {
            return passed;
        }
    }
    'bytes: while passed < text.len() && is_in(class, text[passed]) {
        passed += 1;
    }
    passed
}

/// The longest run of bytes of a class at the start of the text, and the rest.
#[inline(always)]
pub fn run(text: &[u8], class: Class) -> (&[u8], &[u8])
    ensures { Run (passes class) text.now result.0.now result.1.now }
{
    text.split_at(run_length(text, class))
}

/// Whether a text has no dot.
pub fn has_no_dot(text: &[u8]) -> bool
    ensures { result ≡ list_all is_no_dot text.now }
{
    text.iter().all(|byte| *byte != b'.')
}

/// How many LFs a text has.
pub fn line_feeds(text: &[u8]) -> usize
    ensures count { result ≡ line_feeds text.now }
    ensures within { result ≤ length text.now }
{
    let mut count = 0;
    let mut rest = text;
    'lines: while let Some((_, after)) = split(run(rest, Class::Comment).1) {
        count += 1;
        rest = after;
    }
    count
}

/// The part of the text that precedes this rest of it.
pub fn before<'a>(text: &'a [u8], rest: &[u8]) -> &'a [u8]
    requires { (front : List ℕ) × (text.now ≡ front ++ rest.now) }
    ensures { text.now ≡ result.now ++ rest.now }
{
    &text[..text.len() - rest.len()]
}
