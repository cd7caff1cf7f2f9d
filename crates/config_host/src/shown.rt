//! Messages on standard error, which no terminal can take for commands, and names of files as Git writes them.

use crate::text::Text;
use std::alloc::{AllocError, Global};

/// Whether Git writes `?` for this byte in a message.
fn is_hidden(byte: u8) -> bool {
    byte.is_ascii_control() && byte != b'\t' && byte != b'\n'
}

/// A message as a line, with `?` for each control character but TAB and LF, as Git writes it.
pub fn line_of(alloc: Global, message: &[u8]) -> Result<Vec<u8>, AllocError> {
    let mut line = Vec::with_capacity(alloc, message.len().saturating_add(1))?;
    for byte in message {
        line.push(if is_hidden(*byte) { b'?' } else { *byte })?;
    }
    line.push(b'\n')?;
    Ok(line)
}

/// The bytes that have an escape of their own in the name of a file.
const LETTERS: &[(u8, &[u8])] = &[
    (7, b"\\a"),
    (8, b"\\b"),
    (b'\t', b"\\t"),
    (b'\n', b"\\n"),
    (11, b"\\v"),
    (12, b"\\f"),
    (b'\r', b"\\r"),
    (b'"', b"\\\""),
    (b'\\', b"\\\\"),
];

/// Whether Git escapes this byte in the name of a file.
fn is_escaped(byte: u8) -> bool {
    byte < 32 || byte > 126 || byte == b'"' || byte == b'\\'
}

/// Appends a byte of the name of a file, as Git escapes it.
fn put_escaped(text: &mut Text, byte: u8) {
    if !is_escaped(byte) {
        text.put_byte(byte);
        return;
    }
    for (letter, escape) in LETTERS {
        if *letter == byte {
            text.put(escape);
            return;
        }
    }
    text.put(&[
        b'\\',
        b'0' + byte / 64,
        b'0' + byte / 8 % 8,
        b'0' + byte % 8,
    ]);
}

/// Whether Git writes the name of a file in quotes.
fn is_quoted(name: &[u8]) -> bool {
    for byte in name {
        if is_escaped(*byte) {
            return true;
        }
    }
    false
}

/// Appends the name of a file as Git writes it: in quotes if one of its bytes is escaped.
///
/// ```rust
/// use config_host::shown::put_name;
/// use config_host::text::Text;
///
/// let mut text = Text::new(alloc);
/// put_name(&mut text, b"a\tb");
/// assert!(rt; text.end().expect(&rt, "memory").as_slice() == b"\"a\\tb\"".as_slice());
/// ```
pub fn put_name(text: &mut Text, name: &[u8]) {
    if !is_quoted(name) {
        text.put(name);
        return;
    }
    text.put_byte(b'"');
    for byte in name {
        put_escaped(text, *byte);
    }
    text.put_byte(b'"');
}
