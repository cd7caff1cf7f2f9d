//! Options as Git reads them: by tables, with unique beginnings of names, with `--no-` before a name, and with
//! letters that stand together.

use crate::text::Text;
use std::alloc::{AllocError, Global};
use thiserror::Error;

/// What an option takes.
///
/// ```rust
/// use config_host::options::{Ends, Tables, Takes, read};
///
/// const TABLES: Tables = &[&[("file", "f", Takes::Value("FILE", &[]), "Read this file")]];
/// let options = read(alloc, TABLES, &["-fx"], Ends::AtWord).expect(&rt, "memory").expect(&rt, "an option");
/// assert!(rt; options.last("file") == Some("x"));
/// ```
#[derive(Clone, Copy)]
pub enum Takes {
    /// Nothing. `--no-` before its name undoes it.
    Nothing,
    /// Nothing. `--no-` before its name undoes it. Its name is never shortened, since Git has no such option.
    Whole,
    /// Nothing, and no option undoes it.
    Ever,
    /// Nothing, and nothing that follows it is read. Its name is never shortened.
    End,
    /// A value, which the help calls by this name. If there are words, the value is one of them. `--no-` before the
    /// name undoes it.
    Value(&'static str, &'static [&'static str]),
    /// A value, as `Value` says. Its name is never shortened, since Git has no such option.
    WholeValue(&'static str, &'static [&'static str]),
}

impl Takes {
    /// What the help calls the value, and the words that it can be, or `None` if there is no value.
    fn value(self) -> Option<(&'static str, &'static [&'static str])> {
        match self {
            Takes::Value(name, words) | Takes::WholeValue(name, words) => Some((name, words)),
            _ => None,
        }
    }
}

/// An option: its name, its letter or the empty text, what it takes, and what it does. Help leaves it out if it
/// does not say what it does.
pub type Row = (&'static str, &'static str, Takes, &'static str);

/// The options of a program, or of one of its words.
pub type Tables = &'static [&'static [Row]];

/// The options of every program.
pub const GENERAL: &[Row] = &[
    ("help", "h", Takes::End, "Print help"),
    ("version", "V", Takes::End, "Print version"),
];

/// An option that is given.
///
/// ```rust
/// use config_host::options::{Ends, GENERAL, Tables, read};
///
/// const TABLES: Tables = &[GENERAL];
/// let options = read(alloc, TABLES, &["-h"], Ends::AtWord).expect(&rt, "memory").expect(&rt, "an option");
/// assert!(rt; matches!(options.given.first(), Some(given) if given.name == "help" && !given.is_undone));
/// ```
#[derive(Clone, Copy)]
pub struct Given<'a> {
    /// The name of its row.
    pub name: &'static str,
    /// Its value, or the empty text.
    pub value: &'a str,
    /// Whether it undoes those of its name before it.
    pub is_undone: bool,
}

/// Where options end, beside `--` and `--end-of-options`.
///
/// ```rust
/// use config_host::options::{Ends, GENERAL, Tables, read};
///
/// const TABLES: Tables = &[GENERAL];
/// let options = read(alloc, TABLES, &["a.b", "-h"], Ends::AtWord).expect(&rt, "memory").expect(&rt, "word");
/// assert!(rt; options.words.len() == 2 && !options.has("help"));
/// ```
#[derive(Clone, Copy)]
pub enum Ends {
    /// At the first word that is no option.
    AtWord,
    /// Nowhere.
    Nowhere,
}

/// Why options are refused, in Git's words.
///
/// ```rust
/// use config_host::options::{Ends, GENERAL, Misuse, Tables, read};
///
/// const TABLES: Tables = &[GENERAL];
/// let misuse = read(alloc, TABLES, &["--helpless"], Ends::AtWord).expect(&rt, "memory");
/// assert!(rt; matches!(misuse, Err(Misuse::Unknown("helpless"))));
/// ```
#[derive(Clone, Copy, Debug, Error)]
pub enum Misuse<'a> {
    /// There is no such option.
    #[error("unknown option `{0}'")]
    Unknown(&'a str),
    /// There is no option with this letter.
    #[error("unknown switch `{0}'")]
    Switch(char),
    /// The name of an option follows one dash.
    #[error("did you mean `--{0}` (with two dashes)?")]
    OneDash(&'a str),
    /// The beginning of a name is that of these two options, and perhaps of others. Before the name of each is `no-` if
    /// it is undone.
    #[error("ambiguous option: {0} (could be --{1}{2} or --{3}{4})")]
    Ambiguous(&'a str, &'static str, &'static str, &'static str, &'static str),
    /// The option has no value.
    #[error("option `{0}' requires a value")]
    NeedsValue(&'static str),
    /// The option of this letter has no value.
    #[error("switch `{0}' requires a value")]
    SwitchNeedsValue(&'static str),
    /// The option has a value, and takes none. Before its name is `no-` if it is undone.
    #[error("option `{0}{1}' takes no value")]
    TakesNone(&'static str, &'static str),
    /// The value of the option is none of its words.
    #[error("no value of --{0}: {1}")]
    NoWord(&'static str, &'a str),
}

impl Misuse<'_> {
    /// Whether Git shows how to use the program after it.
    pub fn shows_usage(&self) -> bool {
        matches!(
            self,
            Misuse::Unknown(_) | Misuse::Switch(_) | Misuse::Ambiguous(..)
        )
    }
}

/// What precedes the name of an option.
fn negation(is_undone: bool) -> &'static str {
    if is_undone { "no-" } else { "" }
}

/// The options that are given, in order, and the other words.
///
/// ```rust
/// use config_host::options::{Ends, GENERAL, Tables, read};
///
/// const TABLES: Tables = &[GENERAL];
/// let options = read(alloc, TABLES, &["a", "-V"], Ends::Nowhere).expect(&rt, "memory").expect(&rt, "word");
/// assert!(rt; options.words.len() == 1 && options.has("version"));
/// ```
#[derive(Drop)]
pub struct Options<'a> {
    pub given: Vec<Given<'a>>,
    pub words: Vec<&'a str>,
}

impl<'a> Options<'a> {
    /// The value of the last option of this name, or the empty text for one that takes none. `None` if there is
    /// none, or it is undone.
    pub fn last(&self, name: &str) -> Option<&'a str> {
        for one in self.given.iter().rev() {
            if one.name == name {
                return if one.is_undone { None } else { Some(one.value) };
            }
        }
        None
    }

    /// Whether there is an option of this name that is not undone.
    pub fn has(&self, name: &str) -> bool {
        self.last(name).is_some()
    }
}

/// A row that is found, and whether its option is undone.
type NamedRow = (&'static Row, bool);

/// Whether `--no-` before its name undoes the option of this row.
fn can_be_undone(row: &Row) -> bool {
    !matches!(row.2, Takes::Ever | Takes::End)
}

/// The row of this very name.
fn row_of(tables: Tables, name: &str) -> Option<&'static Row> {
    for rows in tables {
        for row in *rows {
            if row.0 == name {
                return Some(row);
            }
        }
    }
    None
}

/// The option of this very name, which may begin with `no-`.
fn exact(tables: Tables, name: &str) -> Option<NamedRow> {
    if let Some(row) = row_of(tables, name) {
        return Some((row, false));
    }
    match row_of(tables, name.strip_prefix("no-")?) {
        Some(row) if can_be_undone(row) => Some((row, true)),
        _ => None,
    }
}

/// Whether the name of the option is never shortened, since Git has no such option.
fn is_whole(row: &Row) -> bool {
    matches!(row.2, Takes::Whole | Takes::WholeValue(..))
}

/// Whether a name is the beginning of that of the option, and whether it is the beginning of its opposite.
fn begins(row: &Row, name: &str) -> (bool, bool) {
    if is_whole(row) || matches!(row.2, Takes::End) {
        return (false, false);
    }
    let is_opposite = match name.strip_prefix("no-") {
        Some(rest) => row.0.starts_with(rest),
        None => "no-".starts_with(name),
    };
    (row.0.starts_with(name), is_opposite && can_be_undone(row))
}

/// The one option whose name has this beginning.
fn abbreviated<'a>(tables: Tables, name: &'a str) -> Result<NamedRow, Misuse<'a>> {
    let mut before: Option<NamedRow> = None;
    let mut found: Option<NamedRow> = None;
    for rows in tables {
        for row in *rows {
            let (is_named, is_opposite) = begins(row, name);
            if is_named || is_opposite {
                before = found;
                found = Some((row, !is_named));
            }
        }
    }
    match (before, found) {
        (Some((row, is_undone)), Some((other, is_other_undone))) => Err(Misuse::Ambiguous(
            name,
            negation(is_undone),
            row.0,
            negation(is_other_undone),
            other.0,
        )),
        (None, Some(found)) => Ok(found),
        _ => Err(Misuse::Unknown(name)),
    }
}

/// The row of a letter.
fn lettered(tables: Tables, letter: char) -> Option<&'static Row> {
    for rows in tables {
        for row in *rows {
            if row.1.starts_with(letter) {
                return Some(row);
            }
        }
    }
    None
}

/// Refuses letters behind one dash that begin the name of an option.
fn check_dashes<'a>(tables: Tables, letters: &'a str) -> Result<(), Misuse<'a>> {
    if letters.len() < 3 {
        return Ok(());
    }
    for rows in tables {
        for row in *rows {
            if row.0.starts_with(letters) && !is_whole(row) {
                return Err(Misuse::OneDash(letters));
            }
        }
    }
    Ok(())
}

/// A reading of words.
#[derive(Drop)]
struct Reading<'w, 'a> {
    tables: Tables,
    /// The words that are still to be read.
    left: &'w [&'a str],
    options: Options<'a>,
    /// Whether options follow.
    goes_on: bool,
    /// Whether memory was refused.
    has_failed: bool,
}

impl<'w, 'a> Reading<'w, 'a> {
    /// Keeps an option.
    fn keep(&mut self, row: &Row, value: &'a str, is_undone: bool) {
        let given = Given {
            name: row.0,
            value,
            is_undone,
        };
        self.has_failed |= self.options.given.push(given).is_err();
        if matches!(row.2, Takes::End) {
            self.goes_on = false;
            self.left = &[];
        }
    }

    /// Keeps a word.
    fn keep_word(&mut self, word: &'a str) {
        self.has_failed |= self.options.words.push(word).is_err();
    }

    /// Takes the next word.
    fn next(&mut self) -> Option<&'a str> {
        match self.left {
            [first, rest @ ..] => {
                self.left = rest;
                Some(*first)
            }
            [] => None,
        }
    }

    /// Reads an option of this row, with this value if the same word has one. If it lacks one, that is the misuse.
    fn read_option(
        &mut self,
        found: NamedRow,
        value: Option<&'a str>,
        lacking: Misuse<'a>,
    ) -> Result<(), Misuse<'a>> {
        let (row, is_undone) = found;
        let words = match row.2.value() {
            Some((_, words)) if !is_undone => words,
            _ => {
                if value.is_some() {
                    return Err(Misuse::TakesNone(negation(is_undone), row.0));
                }
                self.keep(row, "", is_undone);
                return Ok(());
            }
        };
        let value = match value {
            Some(value) => value,
            None => self.next().ok_or(lacking)?,
        };
        if !words.is_empty() && !words.contains(&value) {
            return Err(Misuse::NoWord(row.0, value));
        }
        self.keep(row, value, false);
        Ok(())
    }

    /// Reads the option of a name, with its value if a `=` and a value follow the name.
    fn read_named(&mut self, text: &'a str) -> Result<(), Misuse<'a>> {
        let (name, value) = match text.split_once('=') {
            Some((name, value)) => (name, Some(value)),
            None => (text, None),
        };
        let found = match exact(self.tables, name) {
            Some(found) => found,
            None => match abbreviated(self.tables, name) {
                Err(Misuse::Unknown(_)) => return Err(Misuse::Unknown(text)),
                Err(error) => return Err(error),
                Ok(found) => found,
            },
        };
        self.read_option(found, value, Misuse::NeedsValue(found.0.0))
    }

    /// Reads the options of letters, of which the last one may be followed by its value.
    fn read_letters(&mut self, letters: &'a str) -> Result<(), Misuse<'a>> {
        for (at, letter) in letters.char_indices() {
            let Some(row) = lettered(self.tables, letter) else {
                check_dashes(self.tables, letters)?;
                return Err(Misuse::Switch(letter));
            };
            if row.2.value().is_none() {
                self.keep(row, "", false);
                continue;
            }
            let rest = letters
                .get(at.saturating_add(letter.len_utf8())..)
                .unwrap_or("");
            let value = if rest.is_empty() { None } else { Some(rest) };
            return self.read_option((row, false), value, Misuse::SwitchNeedsValue(row.1));
        }
        Ok(())
    }

    /// Reads the next word, which is this one.
    fn read_word(&mut self, word: &'a str, ends: Ends) -> Result<(), Misuse<'a>> {
        if word == "--" || word == "--end-of-options" {
            self.goes_on = false;
            return Ok(());
        }
        if let Some(name) = word.strip_prefix("--") {
            return self.read_named(name);
        }
        match word.strip_prefix("-") {
            Some(letters) if !letters.is_empty() => self.read_letters(letters),
            _ => {
                self.keep_word(word);
                self.goes_on = matches!(ends, Ends::Nowhere);
                Ok(())
            }
        }
    }
}

/// Reads the options among these words. What follows their end are words.
pub fn read<'a>(
    alloc: Global,
    tables: Tables,
    words: &[&'a str],
    ends: Ends,
) -> Result<Result<Options<'a>, Misuse<'a>>, AllocError> {
    let mut reading = Reading {
        tables,
        left: words,
        options: Options {
            given: Vec::new(alloc),
            words: Vec::new(alloc),
        },
        goes_on: true,
        has_failed: false,
    };
    for _ in 0..words.len() {
        let Some(word) = reading.next() else {
            break;
        };
        if !reading.goes_on {
            reading.keep_word(word);
        } else if let Err(misuse) = reading.read_word(word, ends) {
            return Ok(Err(misuse));
        }
    }
    if reading.has_failed {
        return Err(AllocError);
    }
    Ok(Ok(reading.options))
}

/// What the help of a program says around its options.
///
/// ```rust
/// use config_host::options::{About, GENERAL, Tables, help};
///
/// const TABLES: Tables = &[GENERAL];
/// let about = About { summary: "Does nothing", usage: "nothing", after: "" };
/// let text = help(alloc, &about, TABLES).expect(&rt, "memory");
/// assert!(rt; text.starts_with(b"Does nothing\n\nUsage: nothing\n\nOptions:\n  -h, --help "));
/// ```
#[derive(Clone, Copy)]
pub struct About {
    /// What the program does.
    pub summary: &'static str,
    /// How it is called.
    pub usage: &'static str,
    /// What follows its options.
    pub after: &'static str,
}

/// How many columns the name of an option takes in the help, with the name of its value.
fn width(row: &Row) -> usize {
    let value = match row.2.value() {
        Some((name, _)) => name.len().saturating_add(3),
        None => 0,
    };
    row.0.len().saturating_add(value)
}

/// The columns of the widest option.
fn widest(tables: Tables) -> usize {
    let mut most = 0usize;
    for rows in tables {
        for row in *rows {
            if !row.3.is_empty() {
                most = most.max(width(row));
            }
        }
    }
    most
}

/// Appends words that a value can be.
fn put_words(text: &mut Text, words: &[&'static str]) {
    text.put(b" [possible values: ");
    for (at, word) in words.iter().enumerate() {
        if at > 0 {
            text.put(b", ");
        }
        text.put(word.as_bytes());
    }
    text.put(b"]");
}

/// Appends the line of an option.
fn put_row(text: &mut Text, row: &Row, columns: usize) {
    let (name, letter, takes, what) = row;
    text.put(b"  ");
    if letter.is_empty() {
        text.put(b"    ");
    } else {
        text.put(b"-");
        text.put(letter.as_bytes());
        text.put(b", ");
    }
    text.put(b"--");
    text.put(name.as_bytes());
    if let Some((value, _)) = takes.value() {
        text.put(b" <");
        text.put(value.as_bytes());
        text.put(b">");
    }
    text.put_repeated(b' ', columns.saturating_sub(width(row)).saturating_add(2));
    text.put(what.as_bytes());
    match takes.value() {
        Some((_, words)) if !words.is_empty() => put_words(text, words),
        _ => {}
    }
    text.put(b"\n");
}

/// The help of a program: what it does, how it is called, its options, and what follows them.
pub fn help(alloc: Global, about: &About, tables: Tables) -> Result<Vec<u8>, AllocError> {
    let mut text = Text::new(alloc);
    text.put(about.summary.as_bytes());
    text.put(b"\n\nUsage: ");
    text.put(about.usage.as_bytes());
    text.put(b"\n\nOptions:\n");
    let columns = widest(tables);
    for rows in tables {
        for row in *rows {
            if !row.3.is_empty() {
                put_row(&mut text, row, columns);
            }
        }
    }
    if !about.after.is_empty() {
        text.put(b"\n");
        text.put(about.after.as_bytes());
        text.put(b"\n");
    }
    text.end()
}
