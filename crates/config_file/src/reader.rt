//! The reader: the entries of a text, one by one.
ghost use Rattle.std.specs.Prelude.{◌≡◌, ◌+◌, ◌<◌, ◌≤◌, ◌^◌, ◌↔◌, IsTrue, None, Some, Option, IfSome, [], length};
ghost use Rattle.std.specs.Prelude.{option_map, MatchOption};
ghost use Rattle.config_file.specs.File.{Begins, after_mark, IsPartOfMark};
ghost use Rattle.config_file.specs.Bytes.{BeginsWithLetter};

use crate::bytes::{Class, is_at_line_end, is_blank, is_comment_sign, run, split};
use crate::entry::{Entry, EntryForm, read_end, value_as};
use crate::errors::{FileError, ItemError, Why, why_at};
use crate::header::read_header;
use crate::section::Section;

/// An iterator over the entries of a text, in order, which takes no memory. If Git refuses an item, it yields
/// the error, and nothing after that. It reads texts of any length in linear time.
///
/// ```rust
/// use config_file::Why;
/// use config_file::reader::Entries;
///
/// let mut entries = Entries::new(b"[core]\n\tbare = false\n[remote \"origin\"");
/// let entry = entries.next().expect(&rt, "an entry").expect(&rt, "no error");
/// assert!(rt; entry.has_key(b"Bare"));
/// assert_eq!(rt; entry.line, 2);
/// let error = entries.next().expect(&rt, "an error").unwrap_err();
/// assert_eq!(rt; error.line, 4); // Git counts the end of the text after a closing quote
/// assert!(rt; error.why == Why::BadLine);
/// ```
#[derive(Drop)]
pub struct Entries<'a> {
    section: Option<Section<'a>>,
    line: usize,
    rest: &'a [u8],
    /// The key of the last entry, and the bytes of its value.
    key: &'a [u8],
    raw: &'a [u8],
    /// Why the text is refused, if it is.
    why: Why,
    ghost line_fits: { line + length rest.now < 2 ^ 63 + 2 },
}

/// What follows the byte order mark, or `None` if the text does not begin with it.
pub fn after_mark(text: &[u8]) -> Option<&[u8]>
    ensures { option_map (λ rest. rest.now) result ≡ after_mark text.now }
{
    match text {
        [0xef, 0xbb, 0xbf, rest @ ..] => Some(rest),
        _ => None,
    }
}

/// Whether the first line holds only the first one or two bytes of the mark.
fn is_part_of_mark(text: &[u8]) -> bool
    ensures { IsTrue result ↔ (IsPartOfMark text.now) }
{
    match text {
        [0xef] => true,
        [0xef, second, rest @ ..] => {
            is_at_line_end(&text[1..]) || *second == 0xbb && is_at_line_end(rest)
        }
        _ => false,
    }
}

impl<'a> Entries<'a> {
    ghost use Rattle.config_file.specs.Left.{Advances, HasLeft, last_entry, last_error};
    ghost use Rattle.config_file.specs.declared.entry.EntryForm.TheVariants.{Refused};
    ghost use Rattle.config_file.specs.Views.{entry_of};

    /// The entries of a text, after its byte order mark if it has one.
    pub fn new(text: &'a [u8]) -> Self
        ensures section { result.section ≡ None }
        ensures begins { Begins text.now result.line result.rest.now }
    {
        if let Some(rest) = after_mark(text) {
            return Self::at(None, 1, rest);
        }
        if is_part_of_mark(text) {
            return Self::at(None, 2, text);
        }
        Self::at(None, 1, text)
    }

    /// The entries of the rest of a text, of which none has been read.
    fn at(section: Option<Section<'a>>, line: usize, rest: &'a [u8]) -> Self
        requires { line + length rest.now < 2 ^ 63 + 2 }
        ensures { (result.section ≡ section.entry) × (result.line ≡ line) × (result.rest ≡ rest.entry) }
    {
        Self {
            section,
            line,
            rest,
            key: b"",
            raw: b"",
            why: Why::BadLine,
        }
    }

    /// The entries of the rest of a text, which begins on this line and under this header. Returns `None` if
    /// the lines could not be counted, that is if `line` and the length of `rest` sum to more than 2^63 + 1.
    pub fn resume(section: Option<Section<'a>>, line: usize, rest: &'a [u8]) -> Option<Self>
        ensures { MatchOption result (2 ^ 63 + 2 ≤ line + length rest.now)
            (λ entries. (entries.section ≡ section.entry) × (entries.line ≡ line) × (entries.rest ≡ rest.entry)) }
    {
        if line > (1 << 63) + 1 - rest.len() {
            return None;
        }
        Some(Self::at(section, line, rest))
    }

    /// What [`Entries::resume`] goes on from: the last header, the line, and the rest of the text.
    pub fn parts(&self) -> (Option<Section<'a>>, usize, &'a [u8])
        ensures { (result.0 ≡ self.now.section) × (result.1 ≡ self.now.line) × (result.2 ≡ self.now.rest) }
    {
        (self.section, self.line, self.rest)
    }

    /// Goes on behind the next entry, and tells how it is written; or to the place where Git stops. Returns `None` at
    /// the end of the text. [`Entries::entry`] is the entry, and [`Entries::error`] tells why Git stops. So an entry
    /// that its caller passes by is not handed on.
    ///
    /// ```rust
    /// use config_file::entry::EntryForm;
    /// use config_file::reader::Entries;
    ///
    /// let mut entries = Entries::new(b"[core]\n\tbare\n\teditor = \"vi\"");
    /// let form = entries.advance().expect(&rt, "an entry");
    /// assert!(rt; matches!(form, EntryForm::Alone));
    /// assert!(rt; entries.entry(form).has_key(b"bare"));
    /// assert!(rt; matches!(entries.advance(), Some(EntryForm::Marked)));
    /// assert!(rt; entries.advance().is_none());
    /// ```
    #[inline(never)]
    pub fn advance(&mut self) -> Option<EntryForm>
        ensures advances { Advances self.old result self.new }
        ensures shorter { IfSome result (λ _. length self.new.rest.now < length self.old.rest.now) }
    {
        'items: while let Some((byte, rest)) = split(self.rest) {
            if is_blank(byte) {
                self.rest = rest;
            } else if byte == b'\n' {
                self.line += 1;
                self.rest = rest;
            } else if is_comment_sign(byte) {
                self.rest = run(rest, Class::Comment).1;
            } else if byte == b'[' {
                match read_header(rest) {
                    Ok((section, after)) => {
                        self.section = Some(section);
                        self.rest = after;
                    }
                    Err(stop) => return Some(self.refuse(stop)),
                }
            } else if byte.is_ascii_alphabetic() {
                return Some(self.advance_here());
            } else {
                let why = why_at(self.rest);
                return Some(self.refuse(ItemError { lines: 0, why }));
            }
        }
        None
    }

    /// Goes on behind the entry that begins with the next byte, or ends the reading where it is refused.
    #[inline(always)]
    fn advance_here(&mut self) -> EntryForm
        requires { BeginsWithLetter self.old.rest.now }
        ensures advances { Advances self.old (Some result) self.new }
        ensures shorter { length self.new.rest.now < length self.old.rest.now }
    {
        let end = read_end(self.rest);
        if let EntryForm::Refused = end.form {
            let why = why_at(end.rest);
            return self.refuse(ItemError {
                lines: end.lines,
                why,
            });
        }
        self.line += end.lines;
        self.rest = end.rest;
        self.key = end.key;
        self.raw = end.raw;
        end.form
    }

    /// Ends the reading with an error.
    fn refuse(&mut self, stop: ItemError) -> EntryForm
        requires { self.old.line + stop.lines < 2 ^ 63 + 2 }
        ensures line { self.new.line ≡ self.old.line + stop.lines }
        ensures why { self.new.why ≡ stop.why }
        ensures left { HasLeft self.new [] None }
        ensures end { self.new.rest.now ≡ [] }
        ensures form { result ≡ Refused }
    {
        self.rest = &[];
        self.line += stop.lines;
        self.why = stop.why;
        EntryForm::Refused
    }

    /// The last entry, which is written in this form.
    #[inline(always)]
    pub fn entry(&self, form: EntryForm) -> Entry<'a>
        ensures { entry_of result ≡ last_entry self.now form }
    {
        Entry {
            section: self.section,
            key: self.key,
            value: value_as(form, self.raw),
            line: self.line,
        }
    }

    /// Where and why Git stops, if it does.
    pub fn error(&self) -> FileError
        ensures { result ≡ last_error self.now }
    {
        FileError {
            line: self.line,
            why: self.why,
        }
    }
}

impl<'a> Iterator for Entries<'a> {
    ghost use Rattle.std.specs.Iterator.{at_most};
    ghost use Rattle.config_file.specs.Left.{GivesEntry};

    type Item = Result<Entry<'a>, FileError>;

    ghost next_gives = { GivesEntry };

    ghost remaining = { λ entries. at_most (length entries.rest.now) };

    /// The next entry, or the error at which the text is refused. After the last entry and after an error it
    /// returns `None`.
    #[inline(always)]
    fn next(&mut self) -> Option<Result<Entry<'a>, FileError>> {
        match self.advance()? {
            EntryForm::Refused => Some(Err(self.error())),
            form => Some(Ok(self.entry(form))),
        }
    }
}
