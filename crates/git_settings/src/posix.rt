//! Patterns as Git reads them, which are POSIX's extended ones, written as the regex crate reads them.

use std::alloc::{AllocError, Global};

/// What stands before a place of a pattern.
#[derive(Clone, Copy, PartialEq, Eq)]
enum Before {
    /// Nothing that can be repeated.
    Nothing,
    /// An item that can be repeated.
    Item,
    /// An item that is repeated.
    Repeated,
}

/// A pattern that is read, and what is written of it.
#[derive(Drop)]
struct Reading<'p> {
    rest: &'p str,
    written: String,
    before: Before,
    /// How many groups are open.
    open: usize,
    /// Whether it refers to what a group has matched.
    refers: bool,
}

/// Why a text is no pattern.
#[derive(Clone, Copy, Debug)]
pub enum NoPattern {
    /// Git takes it for none.
    Invalid,
    /// It refers to what a group has matched.
    Refers,
    /// Memory is refused.
    Memory,
}

/// The first character of a text, and the others.
fn first_of(text: &str) -> Option<(char, &str)> {
    let first = text.chars().next()?;
    Some((first, text.strip_prefix(first)?))
}

/// Whether a character means something of its own to the regex crate.
fn is_sign(character: char) -> bool {
    "\\.+*?()|[]{}^$#&-~".contains(character)
}

/// The largest count of an interval.
const MOST: u16 = 32767;

/// Whether a text has digits alone, and is at most the largest count of an interval, if it is not empty.
fn is_count(text: &str) -> bool {
    if !text.as_bytes().iter().all(|byte| byte.is_ascii_digit()) {
        return false;
    }
    text.is_empty() || matches!(text.parse::<u16>(), Ok(count) if count <= MOST)
}

/// The classes of characters that POSIX names.
const CLASSES: &[&str] = &[
    "alnum", "alpha", "blank", "cntrl", "digit", "graph", "lower", "print", "punct", "space",
    "upper", "xdigit",
];

/// Whether a class of characters has this name.
fn is_class(name: &str) -> bool {
    for class in CLASSES {
        if *class == name {
            return true;
        }
    }
    false
}

/// The least and the largest count of an interval such as `1,2`, as they are written, or `None` if it is none.
fn interval_of(text: &str) -> Option<(&str, &str)> {
    let (least, most) = match text.split_once(',') {
        Some(counts) => counts,
        None => (text, text),
    };
    if text.is_empty() || !is_count(least) || !is_count(most) {
        return None;
    }
    Some((least, most))
}

impl<'p> Reading<'p> {
    /// Takes the next character.
    fn next(&mut self) -> Option<char> {
        let (first, rest) = first_of(self.rest)?;
        self.rest = rest;
        Some(first)
    }

    /// Takes what stands before this text, and the text, or nothing if the pattern does not have it.
    fn take_to(&mut self, end: &str) -> Option<&'p str> {
        let (front, rest) = self.rest.split_once(end)?;
        self.rest = rest;
        Some(front)
    }

    /// Writes a character that stands for itself.
    fn put_plain(&mut self, character: char) -> Result<(), AllocError> {
        if is_sign(character) {
            self.written.push('\\')?;
        }
        self.written.push(character)
    }

    /// Writes what follows a backslash: a sign of GNU's, or a character that stands for itself. Returns false
    /// for a reference to a group, and at the end.
    fn put_escaped(&mut self) -> Result<bool, AllocError> {
        let Some(character) = self.next() else {
            return Ok(false);
        };
        self.before = Before::Item;
        match character {
            '1'..='9' => {
                self.refers = true;
                return Ok(false);
            }
            'w' | 'W' | 's' | 'S' | 'b' | 'B' | '<' | '>' => {
                self.written.push('\\')?;
                self.written.push(character)?;
            }
            '`' => self.written.push_str("\\A")?,
            '\'' => self.written.push_str("\\z")?,
            character => self.put_plain(character)?,
        }
        if "bB<>`'".contains(character) {
            self.before = Before::Nothing;
        }
        Ok(true)
    }

    /// The next character of a list in brackets, which may be spelled `[.x.]` or `[=x=]`.
    fn member(&mut self) -> Option<char> {
        let first = self.next()?;
        let end = match (first, first_of(self.rest)) {
            ('[', Some(('.', rest))) => {
                self.rest = rest;
                ".]"
            }
            ('[', Some(('=', rest))) => {
                self.rest = rest;
                "=]"
            }
            _ => return Some(first),
        };
        let (character, rest) = first_of(self.take_to(end)?)?;
        if rest.is_empty() {
            Some(character)
        } else {
            None
        }
    }

    /// Writes a class of characters such as `[:digit:]`, if one is next. Returns `None` if it has no end, or if
    /// there is no such class.
    fn put_class(&mut self) -> Result<Option<bool>, AllocError> {
        let Some(rest) = self.rest.strip_prefix("[:") else {
            return Ok(Some(false));
        };
        self.rest = rest;
        let Some(name) = self.take_to(":]") else {
            return Ok(None);
        };
        if !is_class(name) {
            return Ok(None);
        }
        self.written.push_str("[:")?;
        self.written.push_str(name)?;
        self.written.push_str(":]")?;
        Ok(Some(true))
    }

    /// Writes the next members of a list in brackets: one, or those from one to another. Returns false if there
    /// are none.
    fn put_members(&mut self) -> Result<bool, AllocError> {
        match self.put_class()? {
            None => return Ok(false),
            Some(true) => return Ok(true),
            Some(false) => {}
        }
        let is_class = self.rest.starts_with("[=");
        let Some(first) = self.member() else {
            return Ok(false);
        };
        self.put_plain(first)?;
        match self.rest.strip_prefix("-") {
            Some(rest) if !is_class && !rest.starts_with(']') => self.rest = rest,
            _ => return Ok(true),
        }
        let Some(last) = self.member() else {
            return Ok(false);
        };
        self.written.push('-')?;
        self.put_plain(last)?;
        Ok(true)
    }

    /// Writes a list in brackets, in which a backslash stands for itself. Returns false if it has no end, or a `-` that
    /// is neither first nor last nor of a range.
    fn put_list(&mut self) -> Result<bool, AllocError> {
        self.before = Before::Item;
        self.written.push('[')?;
        if let Some(rest) = self.rest.strip_prefix("^") {
            self.rest = rest;
            self.written.push('^')?;
        }
        let mut is_first = true;
        for _ in 0..self.rest.len() {
            if !is_first {
                if let Some(rest) = self.rest.strip_prefix("]") {
                    self.rest = rest;
                    self.written.push(']')?;
                    return Ok(true);
                }
                if self.rest.starts_with('-') && !self.rest.starts_with("-]") {
                    return Ok(false);
                }
            }
            is_first = false;
            if !self.put_members()? {
                return Ok(false);
            }
        }
        Ok(false)
    }

    /// Writes how often the item is repeated. Returns false if there is none, or if that is no interval.
    fn put_repetition(&mut self, sign: char) -> Result<bool, AllocError> {
        if self.before == Before::Nothing {
            return Ok(false);
        }
        let is_repeated = self.before == Before::Repeated;
        self.before = Before::Repeated;
        if sign != '{' {
            // after a sign the regex crate takes `?` for another thing
            if sign == '?' && is_repeated {
                self.written.push_str("{0,1}")?;
            } else {
                self.written.push(sign)?;
            }
            return Ok(true);
        }
        let Some(text) = self.take_to("}") else {
            return Ok(false);
        };
        let Some((least, most)) = interval_of(text) else {
            return Ok(false);
        };
        self.written.push('{')?;
        if least.is_empty() {
            self.written.push('0')?;
        }
        self.written.push_str(least)?;
        self.written.push(',')?;
        self.written.push_str(most)?;
        self.written.push('}')?;
        Ok(true)
    }

    /// Writes the next part of the pattern. Returns false if it is no pattern.
    fn put_next(&mut self, character: char) -> Result<bool, AllocError> {
        match character {
            '\\' => return self.put_escaped(),
            '[' => return self.put_list(),
            '*' | '+' | '?' | '{' => return self.put_repetition(character),
            ')' if self.open > 0 => {
                self.open -= 1;
                self.before = Before::Item;
            }
            '(' => {
                self.open = self.open.saturating_add(1);
                self.before = Before::Nothing;
            }
            '|' | '^' | '$' => self.before = Before::Nothing,
            '.' => self.before = Before::Item,
            character => {
                self.before = Before::Item;
                self.put_plain(character)?;
                return Ok(true);
            }
        }
        self.written.push(character)?;
        Ok(true)
    }
}

/// The pattern of a text as the regex crate reads it, or why it is none.
pub fn translated(alloc: Global, text: &str) -> Result<String, NoPattern> {
    let mut reading = Reading {
        rest: text,
        written: String::new(alloc),
        before: Before::Nothing,
        open: 0,
        refers: false,
    };
    for _ in 0..text.len() {
        let Some(character) = reading.next() else {
            break;
        };
        match reading.put_next(character) {
            Ok(true) => {}
            Ok(false) if reading.refers => return Err(NoPattern::Refers),
            Ok(false) => return Err(NoPattern::Invalid),
            Err(_) => return Err(NoPattern::Memory),
        }
    }
    Ok(reading.written)
}
