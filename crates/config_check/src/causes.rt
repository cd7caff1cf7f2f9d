//! Why Git cannot read a line.

use crate::source::behind;
use config_file::reader::Entries;

/// Why Git cannot read a file, and which byte shows it.
#[derive(Clone, Copy)]
pub(crate) struct Cause {
    /// What is wrong, if it is known.
    pub(crate) why: Option<&'static str>,
    /// How many bytes of the file precede the wrong one.
    pub(crate) at: usize,
}

const UTF_16: &str = "the file is UTF-16, and Git reads UTF-8";

const MERGE: &str = "a mark of a merge that is not finished";

const COMMENT: &str = "a comment begins with # or ;";

const KEY: &str = "a key begins with a letter";

const KEY_BYTES: &str = "a key has only letters, digits and -";

const COLON: &str = "a = belongs here, and no :";

const NO_EQUALS: &str = "no = after the key";

const QUOTE: &str = "a quote is open";

const ESCAPE: &str = "no escape: only \\\\, \\\", \\n, \\t and \\b are";

const SECTION: &str = "a section has only letters, digits, - and .";

const HEADER: &str = "the header has no ]";

const SUBSECTION: &str = "a subsection stands in quotes";

/// Characters that no editor shows, and what is said of one that Git does not take for white space.
const UNSEEN: &[(&[u8], &str)] = &[
    (
        b"\xc2\xa0",
        "a no-break space, U+00A0, which Git does not take for a space",
    ),
    (
        b"\xe2\x80\x8b",
        "a space without width, U+200B, which no key has",
    ),
    (
        b"\xe2\x80\xaf",
        "a narrow no-break space, U+202F, which Git does not take for a space",
    ),
    (
        b"\xef\xbb\xbf",
        "a byte order mark, U+FEFF, which only the start of a file may have",
    ),
];

/// The marks that a merge leaves.
const MERGES: &[&[u8]] = &[b"<<<<<<<", b"=======", b">>>>>>>", b"|||||||"];

/// What of an item has been read.
#[derive(Clone, Copy)]
enum Read {
    Nothing,
    Comment,
    Section,
    Blanks,
    Subsection,
    Escaped,
    Closed,
    Key,
    AfterKey,
    Value,
    Quoted,
    ValueEscape,
    QuotedEscape,
}

/// What begins with this byte, or why nothing does.
fn begun(text: &[u8], byte: u8) -> Result<Read, &'static str> {
    match byte {
        b' ' | b'\t' | b'\r' | b'\n' => Ok(Read::Nothing),
        b'#' | b';' => Ok(Read::Comment),
        b'[' => Ok(Read::Section),
        b'/' => Err(COMMENT),
        byte if byte.is_ascii_alphabetic() => Ok(Read::Key),
        _ if MERGES.iter().any(|mark| text.starts_with(mark)) => Err(MERGE),
        _ => Err(KEY),
    }
}

/// What is read after one more byte of a header.
fn in_header(read: Read, byte: u8) -> Result<Read, &'static str> {
    match (read, byte) {
        (Read::Section, b']') | (Read::Closed, b']') => Ok(Read::Nothing),
        (Read::Section, b' ' | b'\t' | b'\r') | (Read::Blanks, b' ' | b'\t' | b'\r') => {
            Ok(Read::Blanks)
        }
        (Read::Section, b'-' | b'.') => Ok(Read::Section),
        (Read::Section, byte) if byte.is_ascii_alphanumeric() => Ok(Read::Section),
        (Read::Section | Read::Blanks | Read::Closed, b'\n') => Err(HEADER),
        (Read::Section, b'"') => Err(SUBSECTION),
        (Read::Section, _) => Err(SECTION),
        (Read::Blanks, b'"') => Ok(Read::Subsection),
        (Read::Blanks, _) => Err(SUBSECTION),
        (Read::Subsection, b'"') => Ok(Read::Closed),
        (Read::Subsection, b'\\') => Ok(Read::Escaped),
        (Read::Subsection | Read::Escaped, b'\n') => Err(QUOTE),
        (Read::Subsection | Read::Escaped, _) => Ok(Read::Subsection),
        _ => Err(HEADER),
    }
}

/// What is read after one more byte of an entry.
fn in_entry(read: Read, byte: u8) -> Result<Read, &'static str> {
    match (read, byte) {
        (Read::Key | Read::AfterKey, b'=') => Ok(Read::Value),
        (Read::Key | Read::AfterKey, b'\n') => Ok(Read::Nothing),
        (Read::Key | Read::AfterKey, b' ' | b'\t' | b'\r') => Ok(Read::AfterKey),
        (Read::Key | Read::AfterKey, b':') => Err(COLON),
        (Read::Key, b'-') => Ok(Read::Key),
        (Read::Key, byte) if byte.is_ascii_alphanumeric() => Ok(Read::Key),
        (Read::Key, _) => Err(KEY_BYTES),
        (Read::AfterKey, _) => Err(NO_EQUALS),
        (Read::Value, b'"') => Ok(Read::Quoted),
        (Read::Value, b'\\') => Ok(Read::ValueEscape),
        (Read::Value, b'\n') => Ok(Read::Nothing),
        (Read::Value, b'#' | b';') => Ok(Read::Comment),
        (Read::Quoted, b'"') => Ok(Read::Value),
        (Read::Quoted, b'\\') => Ok(Read::QuotedEscape),
        (Read::Quoted, b'\n') => Err(QUOTE),
        (Read::ValueEscape, b'\\' | b'"' | b'n' | b't' | b'b' | b'\n' | b'\r') => Ok(Read::Value),
        (Read::QuotedEscape, b'\\' | b'"' | b'n' | b't' | b'b' | b'\n' | b'\r') => {
            Ok(Read::Quoted)
        }
        (Read::ValueEscape | Read::QuotedEscape, _) => Err(ESCAPE),
        (read, _) => Ok(read),
    }
}

/// What is read after one more byte, which the text begins with.
fn after(read: Read, text: &[u8], byte: u8) -> Result<Read, &'static str> {
    match read {
        Read::Nothing => begun(text, byte),
        Read::Comment if byte == b'\n' => Ok(Read::Nothing),
        Read::Comment => Ok(Read::Comment),
        Read::Section | Read::Blanks | Read::Subsection | Read::Escaped | Read::Closed => {
            in_header(read, byte)
        }
        _ => in_entry(read, byte),
    }
}

/// Why the text must not end here, if it must not.
fn at_end(read: Read) -> Option<&'static str> {
    match read {
        Read::Section | Read::Blanks | Read::Closed => Some(HEADER),
        Read::Subsection | Read::Escaped | Read::Quoted | Read::QuotedEscape => Some(QUOTE),
        _ => None,
    }
}

/// Whether an opened quote is what is wrong, and not the byte at which reading stops.
fn is_opened(read: Read) -> bool {
    matches!(read, Read::Quoted | Read::Subsection)
}

/// The cause for this reason at a byte: where a quote or an escape starts, or a character that is not seen, if there
/// is one.
fn stopped(why: &'static str, text: &[u8], at: usize, start: usize) -> Cause {
    if why == QUOTE || why == ESCAPE {
        return Cause {
            why: Some(why),
            at: start,
        };
    }
    let rest = behind(text, at);
    for (bytes, told) in UNSEEN {
        if rest.starts_with(bytes) {
            return Cause {
                why: Some(told),
                at,
            };
        }
    }
    Cause { why: Some(why), at }
}

/// Why Git cannot read the item after these bytes of a file.
fn cause_behind(text: &[u8], passed: usize) -> Cause {
    let mut read = Read::Nothing;
    let mut at = passed;
    let mut start = passed;
    for byte in behind(text, passed) {
        if *byte == 0 && !matches!(read, Read::Comment) {
            return Cause { why: None, at };
        }
        let next = match after(read, behind(text, at), *byte) {
            Ok(next) => next,
            Err(why) => return stopped(why, text, at, start),
        };
        let was_open = is_opened(read);
        if (is_opened(next) && !was_open)
            || matches!(next, Read::ValueEscape | Read::QuotedEscape)
        {
            start = at;
        }
        read = next;
        at = at.saturating_add(1);
    }
    match at_end(read) {
        Some(why) if why == QUOTE => Cause {
            why: Some(why),
            at: start,
        },
        why => Cause { why, at },
    }
}

/// Whether a text is UTF-16: it begins with its mark, or with a NUL in one of two bytes.
fn is_utf_16(text: &[u8]) -> bool {
    matches!(
        text,
        [0xff, 0xfe, ..] | [0xfe, 0xff, ..] | [0, _, ..] | [_, 0, ..]
    )
}

impl Cause {
    /// Why Git cannot read a file, and where.
    pub(crate) fn of(text: &[u8]) -> Cause {
        if is_utf_16(text) {
            return Cause {
                why: Some(UTF_16),
                at: 0,
            };
        }
        let mut entries = Entries::new(text);
        for _ in 0..u64::MAX {
            let (_, _, rest) = entries.parts();
            match entries.next() {
                Some(Ok(_)) => {}
                Some(Err(_)) => return cause_behind(text, text.len().saturating_sub(rest.len())),
                None => break,
            }
        }
        Cause { why: None, at: 0 }
    }
}
