//! Texts as messages show them, so that no terminal takes a part of one for a command.
ghost use Rattle.std.specs.Prelude.{◌≡◌, ◌<◌, ◌++◌, [], length, flat_map, Some, MatchOption, IfSome};
ghost use Rattle.std.specs.Char.{digit_char};
ghost use Rattle.std.specs.Fmt.{WritesOnOk};
ghost use Rattle.config_file.specs.Key.{key_shown, lower_shown};
ghost use Rattle.config_file.specs.KeyView.{key_of};
ghost use Rattle.config_file.specs.Shown.{hex, is_control, piece_shown, shown, quoted};

use crate::bytes::split;
use crate::key::Key;
use bstr::{BStr, ByteSlice, decode_utf8};
use std::fmt;

/// A text that displays in double quotes, with its control characters and invalid UTF-8 escaped.
#[derive(Clone, Copy)]
pub(crate) struct Quoted<'t>(pub &'t [u8]);

impl fmt::Display for Quoted<'_> {
    ghost output = { λ text. Some (quoted text.0.now) };

    fn fmt<W: fmt::Write>(&self, f: &mut fmt::Formatter<W>) -> fmt::Result {
        f.write_char('"')?;
        write_shown(f, self.0)?;
        f.write_char('"')
    }
}

/// Writes a text with what has to be escaped as `\xNN`, `\"` or `\\`.
fn write_shown<W: fmt::Write>(f: &mut fmt::Formatter<W>, text: &[u8]) -> fmt::Result
    ensures { WritesOnOk W.write_str_gives f.old result (shown text.now) f.new }
{
    let mut rest = text;
    'pieces: while let Some((character, bytes, tail)) = first_piece(rest) {
        write_piece(f, character, bytes)?;
        rest = tail;
    }
    Ok(())
}

/// The first character of a text, its bytes, and the rest of the text. The character is `None` if the bytes
/// are not UTF-8. Returns `None` if the text is empty.
fn first_piece(text: &[u8]) -> Option<(Option<char>, &[u8], &[u8])>
    ensures shown { MatchOption result (text.now ≡ [])
        (λ p. shown text.now ≡ piece_shown p.0 p.1.now ++ shown p.2.now) }
    ensures shorter { IfSome result (λ p. length p.2.now < length text.now) }
{
    if text.is_empty() {
        return None;
    }
    let (character, size) = decode_utf8(text);
    let (bytes, rest) = text.split_at(size);
    Some((character, bytes, rest))
}

/// Writes a character as it is shown, or bytes that are not a character.
fn write_piece<W: fmt::Write>(
    f: &mut fmt::Formatter<W>,
    character: Option<char>,
    bytes: &[u8],
) -> fmt::Result
    ensures { WritesOnOk W.write_str_gives f.old result (piece_shown character bytes.now) f.new }
{
    match character {
        None => write_hex(f, bytes),
        Some(character) if is_control(character) => write_hex(f, bytes),
        Some('\\') => f.write_str("\\\\"),
        Some('"') => f.write_str("\\\""),
        Some(character) => f.write_char(character),
    }
}

/// Whether a character is a control character.
fn is_control(character: char) -> bool
    ensures { result ≡ is_control character }
{
    character < ' ' || ('\x7f' <= character && character <= '\u{9f}')
}

/// Writes each byte as `\xNN`.
fn write_hex<W: fmt::Write>(f: &mut fmt::Formatter<W>, bytes: &[u8]) -> fmt::Result
    ensures { WritesOnOk W.write_str_gives f.old result (flat_map hex bytes.now) f.new }
{
    let mut rest = bytes;
    'bytes: while let Some((byte, more)) = split(rest) {
        write_byte(f, byte)?;
        rest = more;
    }
    Ok(())
}

/// Writes a byte as `\xNN`.
fn write_byte<W: fmt::Write>(f: &mut fmt::Formatter<W>, byte: u8) -> fmt::Result
    ensures { WritesOnOk W.write_str_gives f.old result (hex byte) f.new }
{
    f.write_str("\\x")?;
    f.write_char(digit(byte / 16))?;
    f.write_char(digit(byte % 16))
}

/// The hexadecimal digit of a number below 16.
fn digit(number: u8) -> char
    requires { number < 16 }
    ensures { result ≡ digit_char number }
{
    if number < 10 {
        char::from(b'0' + number)
    } else {
        char::from(b'a' + (number - 10))
    }
}

impl fmt::Display for Key<'_> {
    ghost output = { λ key. Some (key_shown (key_of key)) };

    /// Writes the key as `git config --list` shows it: section and name in lower case, and the subsection
    /// unchanged.
    fn fmt<W: fmt::Write>(&self, f: &mut fmt::Formatter<W>) -> fmt::Result {
        write_lower(f, self.section())?;
        if let Some(subsection) = self.subsection() {
            write!(f, ".{}", BStr::new(subsection))?;
        }
        f.write_char('.')?;
        write_lower(f, self.name())
    }
}

/// Writes a text in lower case, with U+FFFD for bytes that are not UTF-8.
fn write_lower<W: fmt::Write>(f: &mut fmt::Formatter<W>, text: &[u8]) -> fmt::Result
    ensures { WritesOnOk W.write_str_gives f.old result (lower_shown text.now) f.new }
{
    let mut rest = text.chars();
    while let Some(character) = rest.next() {
        f.write_char(character.to_ascii_lowercase())?;
    }
    Ok(())
}
