//! The rows of a run: those of files, and the built-in ones.

use crate::failure::Failure;
use crate::hints::{has, words_in};
use crate::source::front;
use bstr::BStr;
use bumpalo::Bump;
use config_checks::git::SETTINGS;
use config_checks::lookup::{row_for, runs_of};
use config_checks::reason::{nearest_word, outside};
use config_checks::row::Row;
use config_checks::table::{BadRow, RowFault, read_row, read_rows};
use config_checks::version::Version;
use config_file::Entries;
use config_file::key::Key;
use config_host::repository::{find, within};
use config_host::text::Text;
use config_host::{Disk, ReadError};
use config_search::Outcome;
use std::alloc::{AllocError, Global};
use std::fs;
use std::io::ErrorKind;

/// The byte order mark, with which some editors begin a file.
const MARK: &[u8] = b"\xef\xbb\xbf";

/// The file of rows at the top of a repository.
const SHARED: &str = ".gitconfig-check";

/// What stands for a file in what is told of the built-in rows.
const BUILT_IN: &str = "the built-in settings";

/// The names of kinds, of which the nearest one is suggested.
const KINDS: &str = "\
text bool int bool-or-int color path word word-any-case bool-or-word bool-or-word-any-case int-or-word \
int-or-word-any-case words words-any-case date date-any-case sort-key sort-key-any-case fetch-refspec push-refspec \
branch command no-option colors-by-age";

/// Why a line is not a row, and the name of the nearest kind, if it has another name that is near.
fn why(alloc: Global, fault: RowFault<'_>) -> Result<String, AllocError> {
    if let RowFault::UnknownKind(name) = fault {
        if let Some(kind) = nearest_word(alloc, &words_in(alloc, KINDS)?, name)? {
            return format!(in alloc; "{fault}; did you mean {}?", BStr::new(kind));
        }
    }
    format!(in alloc; "{fault}")
}

/// A setting that one of the files has to have, since a row asks for it.
#[derive(Clone, Copy)]
pub(crate) struct Must<'m, 't> {
    /// The file of the row, and its text.
    pub(crate) file: &'m str,
    pub(crate) text: &'t [u8],
    /// The line of the row.
    pub(crate) line: usize,
    /// The key of the row.
    pub(crate) key: Key<'t>,
    /// Whether a file has it.
    pub(crate) is_met: bool,
}

/// The rows of a run.
#[derive(Drop)]
pub(crate) struct Rows<'m, 't> {
    /// All rows, those that hold for this Git first. None if only the built-in ones hold, which are not read yet.
    pub(crate) rows: Vec<Row<'t>>,
    /// The settings that rows for this Git ask for, in the order of the rows.
    pub(crate) musts: Vec<Must<'m, 't>>,
}

/// Adds the settings that the rows of a text ask for, if these hold for this Git.
fn add_musts<'m, 't>(
    alloc: Global,
    file: &'m str,
    text: &'t [u8],
    git: Version,
    musts: &mut Vec<Must<'m, 't>>,
) -> Result<(), AllocError> {
    let mut line: usize = 0;
    for written in text.split(|byte| *byte == b'\n') {
        line = line.saturating_add(1);
        let Ok(Some(row)) = read_row(alloc, written) else {
            continue;
        };
        if !row.must || outside(&row, git).is_some() {
            continue;
        }
        musts.push(Must {
            file,
            text,
            line,
            key: row.key,
            is_met: false,
        })?;
    }
    Ok(())
}

/// Adds the rows of a text, after a byte order mark if it has one.
fn add_text<'m, 't>(
    alloc: Global,
    file: &'m str,
    text: &'t [u8],
    git: Version,
    all: &mut Rows<'m, 't>,
) -> Result<(), Failure<'m>> {
    let text = text.strip_prefix(MARK).unwrap_or(text);
    let before = all.rows.len();
    if let Err(BadRow { line, fault }) = read_rows(alloc, text, &mut all.rows) {
        if let RowFault::Memory(error) = fault {
            return Err(Failure::Memory(error));
        }
        let why = why(alloc, fault)?;
        return Err(Failure::Row { file, line, why });
    }
    for row in all.rows.iter().skip(before) {
        if row.must {
            return Ok(add_musts(alloc, file, text, git, &mut all.musts)?);
        }
    }
    Ok(())
}

/// These rows, those that hold for this Git first.
fn in_order<'t>(
    alloc: Global,
    git: Version,
    rows: Vec<Row<'t>>,
) -> Result<Vec<Row<'t>>, AllocError> {
    let mut first = Vec::new(alloc);
    let mut last = Vec::new(alloc);
    for row in rows {
        if outside(&row, git).is_none() {
            first.push(row)?;
        } else {
            last.push(row)?;
        }
    }
    for row in last {
        first.push(row)?;
    }
    Ok(first)
}

/// The first bytes of a text that the name of a section may have.
pub(crate) fn word_of(text: &[u8]) -> &[u8] {
    let mut count: usize = 0;
    for byte in text {
        if !byte.is_ascii_alphanumeric() && *byte != b'-' {
            break;
        }
        count = count.saturating_add(1);
    }
    front(text, count)
}

/// The most sections of a text for which rows are read.
const MOST_SECTIONS: usize = 32;

/// What the sections of a text are called, and perhaps other words that follow a `[`. `None` if they are too
/// many.
fn sections_of(alloc: Global, text: &[u8]) -> Result<Option<Vec<&[u8]>>, AllocError> {
    let mut sections: Vec<&[u8]> = Vec::new(alloc);
    for piece in text.split(|byte| *byte == b'[').skip(1) {
        let name = word_of(piece);
        if has(&sections, name) {
            continue;
        }
        if sections.len() == MOST_SECTIONS {
            return Ok(None);
        }
        sections.push(name)?;
    }
    Ok(Some(sections))
}

/// The built-in rows that this text has, which is part of theirs. Those that hold for this Git come first.
pub(crate) fn built_in<'t>(
    alloc: Global,
    git: Version,
    text: &'t [u8],
) -> Result<Vec<Row<'t>>, Failure<'static>> {
    let mut all = Rows {
        rows: Vec::new(alloc),
        musts: Vec::new(alloc),
    };
    add_text(alloc, BUILT_IN, text, git, &mut all)?;
    Ok(in_order(alloc, git, all.rows)?)
}

/// The text of the built-in rows for the sections that a text has, in the order of all rows. `None` if it is so
/// long, or has so many sections, that all rows are as soon read.
pub(crate) fn settings_for(alloc: Global, text: &[u8]) -> Result<Option<Vec<u8>>, AllocError> {
    if SETTINGS.len() < text.len() {
        return Ok(None);
    }
    let Some(sections) = sections_of(alloc, text)? else {
        return Ok(None);
    };
    let mut lines = Text::new(alloc);
    for line in SETTINGS.as_bytes().split_inclusive(|byte| *byte == b'\n') {
        if has(&sections, word_of(line)) {
            lines.put(line);
        }
    }
    Ok(Some(lines.end()?))
}

/// Whether these rows have the key of each entry of a text, up to a line that Git cannot read.
pub(crate) fn knows_all(alloc: Global, rows: &[Row<'_>], text: &[u8]) -> Result<bool, AllocError> {
    let runs = runs_of(alloc, rows)?;
    for entry in Entries::new(text) {
        let Ok(entry) = entry else {
            break;
        };
        if row_for(&runs, &entry.key_text(alloc)?).is_none() {
            return Ok(false);
        }
    }
    Ok(true)
}

/// The text of the file of rows at the top of the repository of the current folder, if it is there.
fn shared_text<'t>(
    rt: &'t HostRuntime,
    texts: &'t Bump,
) -> Result<Option<&'t [u8]>, Failure<'static>> {
    let disk = Disk::new(rt, texts);
    let Ok(found) = find(&disk, b"") else {
        return Ok(None);
    };
    if matches!(found.outcome, Outcome::FindsNone | Outcome::Refuses(_)) {
        return Ok(None);
    }
    match within(&disk, &found)?.text_of(SHARED.as_bytes()) {
        Ok(text) => Ok(Some(text)),
        Err(ReadError::System(error)) if error.kind() == ErrorKind::NotFound => Ok(None),
        Err(error) => Err(Failure::Shared(error)),
    }
}

/// What the file of rows at the top of the repository has.
#[derive(Drop)]
pub(crate) struct Shared<'t> {
    /// The words of the lines that begin with `--`, which are options, without comments.
    pub(crate) words: Vec<&'t str>,
    /// The other lines, each at its place.
    pub(crate) rows: &'t [u8],
}

/// What the file of rows at the top of the repository of the current folder has, if it is there.
pub(crate) fn read_shared<'t>(
    rt: &'t HostRuntime,
    texts: &'t Bump,
) -> Result<Option<Shared<'t>>, Failure<'static>> {
    let alloc = rt.alloc();
    let Some(text) = shared_text(rt, texts)? else {
        return Ok(None);
    };
    let mut words = Vec::new(alloc);
    let mut rows = Text::new(alloc);
    for line in text
        .strip_prefix(MARK)
        .unwrap_or(text)
        .split_inclusive(|byte| *byte == b'\n')
    {
        let Some(line) = option_line(line) else {
            rows.put(line);
            continue;
        };
        rows.put_byte(b'\n');
        for word in line.split_ascii_whitespace() {
            if word.starts_with('#') {
                break;
            }
            if words.push(word).is_err() {
                return Err(Failure::Memory(AllocError));
            }
        }
    }
    let rows = Disk::new(rt, texts).kept(&rows.end()?)?;
    Ok(Some(Shared { words, rows }))
}

/// The text of a line that begins with `--`.
fn option_line(line: &[u8]) -> Option<&str> {
    match str::from_utf8(line) {
        Ok(text) if text.starts_with("--") => Some(text),
        _ => None,
    }
}

/// The rows of the files of `--settings`, of that of the repository, if it is there, and the built-in ones behind
/// them. The texts are kept.
pub(crate) fn rows_of<'m, 't>(
    rt: &'t HostRuntime,
    texts: &'t Bump,
    git: Version,
    files: &[&'m str],
    shared: Option<&'t [u8]>,
) -> Result<Rows<'m, 't>, Failure<'m>> {
    let alloc = rt.alloc();
    let mut all = Rows {
        rows: Vec::new(alloc),
        musts: Vec::new(alloc),
    };
    for file in files {
        let bytes = fs::read(rt, file).map_err(|error| Failure::File { file, error })?;
        let text = Disk::new(rt, texts).kept(&bytes)?;
        add_text(alloc, file, text, git, &mut all)?;
    }
    if let Some(text) = shared {
        add_text(alloc, SHARED, text, git, &mut all)?;
    }
    if all.rows.is_empty() {
        return Ok(all);
    }
    add_text(alloc, BUILT_IN, SETTINGS.as_bytes(), git, &mut all)?;
    Ok(Rows {
        rows: in_order(alloc, git, all.rows)?,
        musts: all.musts,
    })
}
