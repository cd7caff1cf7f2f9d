//! Where in the text of a file a finding is.

use crate::causes::Cause;
use crate::text::width;
use bstr::ByteSlice;
use config_checks::code::Code;
use config_checks::finding::Finding;
use config_file::key::Key;

/// A line of more bytes than this is not searched for a value, since it is not shown below its finding.
pub(crate) const LONGEST_EXCERPT: usize = 120;

/// A file whose findings are written, with the line that was looked at last.
#[derive(Drop)]
pub(crate) struct Source<'t> {
    pub(crate) name: &'t [u8],
    pub(crate) text: &'t [u8],
    number: usize,
    rest: &'t [u8],
    /// The line before the one that was looked at last, if there is one.
    above: &'t [u8],
}

/// What a comment begins with that leaves out findings, and no longer line is one.
const MARK: &[u8] = b"git-config-check:";

const LONGEST_COMMENT: usize = 1000;

/// Whether a line is a comment with this order for findings of this code.
fn orders(line: &[u8], order: &[u8], code: Code) -> bool {
    let line = line.trim_ascii_start();
    if line.len() > LONGEST_COMMENT || !(line.starts_with(b"#") || line.starts_with(b";")) {
        return false;
    }
    let Some(rest) = behind(line, 1).trim_ascii_start().strip_prefix(MARK) else {
        return false;
    };
    let mut is_ordered = false;
    for word in rest.split(|byte| matches!(*byte, b' ' | b'\t' | b',')) {
        if is_ordered && word == code.name().as_bytes() {
            return true;
        }
        is_ordered |= word == order;
    }
    false
}

/// The place that a finding is about.
#[derive(Clone, Copy)]
pub(crate) struct Spot<'t> {
    /// The number of the line, from 1.
    pub(crate) number: usize,
    /// The line.
    pub(crate) line: &'t [u8],
    /// The column in bytes, from 1.
    pub(crate) column: usize,
    /// The bytes before what is wrong, and how many are wrong.
    from: usize,
    length: usize,
}

/// The first bytes of a text.
pub(crate) fn front(text: &[u8], count: usize) -> &[u8] {
    if count < text.len() {
        &text[..count]
    } else {
        text
    }
}

/// What follows the first bytes of a text.
pub(crate) fn behind(text: &[u8], count: usize) -> &[u8] {
    if count < text.len() {
        &text[count..]
    } else {
        b""
    }
}

impl Spot<'_> {
    /// The column in characters, from 1.
    pub(crate) fn character(&self) -> usize {
        width(front(self.line, self.column.saturating_sub(1))).saturating_add(1)
    }

    /// What precedes that which is wrong in its line, and that which is wrong.
    pub(crate) fn marked(&self) -> (&[u8], &[u8]) {
        (
            front(self.line, self.from),
            front(behind(self.line, self.from), self.length),
        )
    }
}

/// What follows the first line of a text, if it has several.
fn after_line(text: &[u8]) -> Option<&[u8]> {
    Some(behind(text, text.find_byte(b'\n')?.saturating_add(1)))
}

/// The first line of a text, without its end.
fn line_of(text: &[u8]) -> &[u8] {
    let line = front(text, text.find_byte(b'\n').unwrap_or(text.len()));
    line.strip_suffix(b"\r").unwrap_or(line)
}

/// What of a line has been read.
#[derive(Clone, Copy)]
enum Read {
    Blanks,
    Header,
    Quoted,
    Escaped,
}

/// How many bytes of a line precede its key: blanks, the mark of UTF-8, and headers.
fn key_at(line: &[u8]) -> usize {
    let mut read = Read::Blanks;
    let mut at: usize = 0;
    for byte in line {
        read = match (read, *byte) {
            (Read::Blanks, b'[') => Read::Header,
            (Read::Blanks, b' ' | b'\t' | b'\r' | 0xef | 0xbb | 0xbf) => Read::Blanks,
            (Read::Blanks, _) => return at,
            (Read::Header, b']') => Read::Blanks,
            (Read::Header, b'"') => Read::Quoted,
            (Read::Header, _) => Read::Header,
            (Read::Quoted, b'"') => Read::Header,
            (Read::Quoted, b'\\') => Read::Escaped,
            (Read::Quoted | Read::Escaped, _) => Read::Quoted,
        };
        at = at.saturating_add(1);
    }
    at
}

/// How many bytes of a line precede the value, if it follows a key with a `=`.
fn value_at(line: &[u8], key_end: usize) -> Option<usize> {
    let rest = behind(line, key_end);
    let blanks = rest.len().saturating_sub(rest.trim_ascii_start().len());
    let after = behind(rest, blanks).strip_prefix(b"=")?;
    Some(line.len().saturating_sub(after.trim_ascii_start().len()))
}

/// The last part of a key.
fn name_of(key: Option<&[u8]>) -> &[u8] {
    match key {
        Some(key) => match Key::split(key) {
            Some(parts) => parts.name(),
            None => key,
        },
        None => b"",
    }
}

impl<'t> Source<'t> {
    /// A file with this name and this text.
    pub(crate) fn new(name: &'t [u8], text: &'t [u8]) -> Source<'t> {
        Source {
            name,
            text,
            number: 1,
            rest: text,
            above: b"",
        }
    }

    /// Whether findings with this code are left out at the line that was looked at last: by a comment on the line
    /// above it, or by one on the first line of the file.
    pub(crate) fn leaves_out(&self, code: Code) -> bool {
        orders(self.above, b"ignore", code) || orders(line_of(self.text), b"ignore-file", code)
    }

    /// The line with this number. The next search goes on from here, unless it is for a line before.
    fn line(&mut self, number: usize) -> &'t [u8] {
        if number < self.number {
            self.number = 1;
            self.rest = self.text;
            self.above = b"";
        }
        for _ in self.number..number {
            match after_line(self.rest) {
                Some(rest) => {
                    self.above = line_of(self.rest);
                    self.rest = rest;
                    self.number = self.number.saturating_add(1);
                }
                None => break,
            }
        }
        line_of(self.rest)
    }

    /// The place of a finding about an entry. `wrong` is the word of the value that is wrong, if it is known.
    pub(crate) fn spot(&mut self, finding: &Finding<'_>, wrong: Option<&[u8]>) -> Spot<'t> {
        let line = self.line(finding.line);
        let at = key_at(line);
        let name = name_of(finding.key);
        let mut spot = Spot {
            number: self.number,
            line,
            column: at.saturating_add(1),
            from: at,
            length: name.len(),
        };
        if line.len() > LONGEST_EXCERPT {
            return spot;
        }
        if let (Some(value), Some(from)) = (
            finding.value,
            value_at(line, at.saturating_add(name.len())),
        ) {
            let rest = behind(line, from);
            let part = wrong.unwrap_or(value);
            spot.from = from;
            spot.length = rest.len();
            if let Some(place) = rest.find(part) {
                spot.from = from.saturating_add(place);
                spot.length = part.len();
            }
        }
        spot
    }

    /// The place of a finding about a line that Git cannot read: the cause, if it is in this line.
    pub(crate) fn spot_of_cause(&mut self, number: usize, cause: &Cause) -> Spot<'t> {
        let line = self.line(number);
        let start = self.text.len().saturating_sub(self.rest.len());
        let from = if start <= cause.at && cause.at <= start.saturating_add(line.len()) {
            cause.at.saturating_sub(start)
        } else {
            0
        };
        Spot {
            number,
            line,
            column: from.saturating_add(1),
            from,
            length: 1,
        }
    }
}
