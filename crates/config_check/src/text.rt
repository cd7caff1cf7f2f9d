//! A finding as a line of text, with the line of its file below it on a terminal.

use crate::hints::Hint;
use crate::options::Style;
use crate::source::{LONGEST_EXCERPT, Spot};
use config_checks::finding::{Finding, key_text, push_shown};
use config_checks::reason::Severity;
use config_checks::suggestion::filled_key;
use config_file::key::Key;
use config_host::text::Text;
use itoa::Buffer;
use std::alloc::{AllocError, Global};

/// A key or a value of more bytes than this is cut, and its length follows.
const MOST_BYTES: usize = 80;

/// The escape sequence of a severity: red, yellow or cyan.
fn color_of(severity: Severity) -> &'static str {
    match severity {
        Severity::Error => "\x1b[31m",
        Severity::Warning => "\x1b[33m",
        Severity::Note => "\x1b[36m",
    }
}

/// The escape sequence that ends a color.
const PLAIN: &str = "\x1b[m";

/// Appends a text.
#[inline]
pub(crate) fn put(line: &mut Text, text: &str) {
    line.put(text.as_bytes());
}

/// Appends a text as it is shown.
pub(crate) fn put_shown(line: &mut Text, text: &[u8]) {
    let appended = push_shown(line.bytes(), text);
    line.heed(appended);
}

/// Appends a number.
pub(crate) fn put_number(line: &mut Text, number: usize) {
    put(line, Buffer::new().format(number));
}

/// The beginning of a text that is too long, up to the end of a character.
fn beginning(text: &[u8]) -> &[u8] {
    let mut end = MOST_BYTES;
    for _ in 0..3 {
        if end < text.len() && 0x80 <= text[end] && text[end] < 0xc0 && end > 0 {
            end -= 1;
        }
    }
    if end < text.len() { &text[..end] } else { text }
}

/// Appends a text as it is shown. Only the beginning of a long one is, and `..`.
fn put_cut(line: &mut Text, text: &[u8]) {
    if text.len() <= MOST_BYTES {
        put_shown(line, text);
        return;
    }
    put_shown(line, beginning(text));
    put(line, "..");
}

/// Appends the length of a text if only its beginning is shown, and a colon.
fn put_length(line: &mut Text, text: &[u8]) {
    if text.len() > MOST_BYTES {
        put(line, " (");
        put_number(line, text.len());
        put(line, " bytes)");
    }
    put(line, ": ");
}

/// Appends the key of a finding, as its row writes it, or as Git lists it if no row covers it.
fn put_key(alloc: Global, line: &mut Text, finding: &Finding<'_>) -> Result<(), AllocError> {
    let Some(text) = finding.key else {
        return Ok(());
    };
    if let (Some(row), Some(key)) = (finding.row, Key::split(text)) {
        let named = key_text(alloc, &filled_key(&row, &key))?;
        put_cut(line, &named);
        put_length(line, &named);
        return Ok(());
    }
    put_cut(line, text);
    put_length(line, text);
    Ok(())
}

/// Appends the value of a finding in quotes, if it has one.
fn put_value(line: &mut Text, value: Option<&[u8]>) {
    if let Some(value) = value {
        put(line, "'");
        put_cut(line, value);
        put(line, "'");
        put_length(line, value);
    }
}

/// Appends the severity of a finding, in its color if colors are wanted.
fn put_severity(line: &mut Text, color: bool, severity: Severity) {
    if color {
        put(line, color_of(severity));
    }
    put(line, severity.name());
    put(line, ": ");
    if color {
        put(line, PLAIN);
    }
}

/// Appends what is known about a value that a reader refuses, beyond the reason.
pub(crate) fn put_hint(text: &mut Text, hint: &Hint<'_>) {
    if let Some(wrong) = hint.wrong {
        put(text, "; '");
        put_cut(text, wrong);
        put(text, "' is none");
    }
    if let Some(meant) = &hint.meant {
        put_meant(text, meant);
    }
}

/// Appends a suggestion.
pub(crate) fn put_meant(text: &mut Text, meant: &[u8]) {
    put(text, "; did you mean ");
    put_shown(text, meant);
    put(text, "?");
}

/// Appends the place of a finding: its file, its line and its column.
fn put_place(line: &mut Text, finding: &Finding<'_>, column: usize) {
    put_shown(line, finding.file.as_bytes());
    put(line, ":");
    put_number(line, finding.line);
    put(line, ":");
    put_number(line, column);
    put(line, ": ");
}

/// Appends a byte of this line for each byte: a space in place of a tab.
fn put_untabbed(out: &mut Text, text: &[u8]) {
    for byte in text {
        out.put_byte(match *byte {
            b'\t' => b' ',
            byte if byte < b' ' || byte == 0x7f => b'?',
            byte => byte,
        });
    }
}

/// How many characters a text has: bytes that begin one.
pub(crate) fn width(text: &[u8]) -> usize {
    let mut count: usize = 0;
    for byte in text {
        if *byte < 0x80 || *byte >= 0xc0 {
            count = count.saturating_add(1);
        }
    }
    count
}

/// Appends the line that a finding is about, and below it a mark under what is wrong.
fn put_excerpt(out: &mut Text, style: Style, severity: Severity, spot: &Spot<'_>) {
    if spot.line.len() > LONGEST_EXCERPT || str::from_utf8(spot.line).is_err() {
        return;
    }
    put(out, "    ");
    put_untabbed(out, spot.line);
    put(out, "\n    ");
    let (before, marked) = spot.marked();
    out.put_repeated(b' ', width(before));
    if style.color {
        put(out, color_of(severity));
    }
    out.put_repeated(b'^', width(marked).max(1));
    if style.color {
        put(out, PLAIN);
    }
    put(out, "\n");
}

/// Appends a finding as a line of text, and what it is about.
pub(crate) fn put_text(
    alloc: Global,
    line: &mut Text,
    style: Style,
    finding: &Finding<'_>,
    spot: &Spot<'_>,
) -> Result<(), AllocError> {
    put_place(line, finding, spot.column);
    put_severity(line, style.color, finding.severity);
    put_message(alloc, line, finding)?;
    put(line, " [");
    put(line, finding.code.name());
    put(line, "]\n");
    if style.excerpts {
        put_excerpt(line, style, finding.severity, spot);
    }
    Ok(())
}

/// Appends what a finding says: its key, its value and its reason.
pub(crate) fn put_message(
    alloc: Global,
    line: &mut Text,
    finding: &Finding<'_>,
) -> Result<(), AllocError> {
    put_key(alloc, line, finding)?;
    put_value(line, finding.value);
    line.put(finding.reason);
    Ok(())
}
