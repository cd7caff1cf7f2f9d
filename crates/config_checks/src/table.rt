//! Reads rows from text, in which each line is a row, a comment or blank.
ghost use Rattle.std.specs.Prelude.{◌≡◌, ◌≢◌, ◌↔◌, IsTrue, Bool, Some, [], map, option_copied, codes};
ghost use Rattle.std.specs.Prelude.{IfOk, IfErr, OnOk, OnErr, MatchOption};
ghost use Rattle.config_checks.specs.declared.kind.SettingKind as kinds;
ghost use Rattle.config_checks.specs.declared.kind.Form as forms;
ghost use Rattle.config_checks.specs.Rows.{fields_of, is_blank, plain_name, form_name, words_name, lines_of};
ghost use Rattle.config_checks.specs.Rows.{CutsText, CutsVersion, LacksVersion, CutsAlone, CutsMark};
ghost use Rattle.config_checks.specs.Rows.{HasMarks, HasBadVersion, AreNumbers, IsBounds};
ghost use Rattle.config_checks.specs.declared.table.RowFault.TheVariants.{NoVersion};
ghost use Rattle.config_integer.specs.declared.amount.Amount.{Amount};
ghost use Rattle.config_checks.specs.Rows.{SpellsRow, TakesWanted, IsRow, IsKind, IsBadKind, IsBadRow};
ghost use Rattle.config_checks.specs.Rows.{AddsRow, AddsRows, IsBadLine};

use crate::kind::{Form, SettingKind, WordList, without_front};
use crate::reason::{GREATEST_INT, LEAST_INT, judge};
use crate::row::Row;
use crate::shape::Shape;
use crate::version::Version;
use bstr::BStr;
use config_file::key::Key;
use gix_config_value::canonical::TryRead;
use gix_config_value::integer::Amount;
use std::alloc::{AllocError, Global};
use thiserror::Error;

/// Why a line is not a row.
///
/// ```rust
/// use config_checks::table::{RowFault, read_row};
///
/// assert!(rt; matches!(read_row(alloc, b"core.bare"), Err(RowFault::NoKind)));
/// assert!(rt; matches!(read_row(alloc, b"# a comment"), Ok(None)));
/// ```
#[derive(Clone, Copy, Debug, Error)]
pub enum RowFault<'t> {
    /// It has no kind after its key and its marks.
    #[error("no kind after the key")]
    NoKind,
    /// Its key has no dot.
    #[error("no dot in the key")]
    NoKey,
    /// No kind has the name after its key and its marks.
    #[error("no such kind: {}", BStr::new(.0))]
    UnknownKind(&'t [u8]),
    /// Its kind needs words, but no word follows it.
    #[error("no words after the kind")]
    NoWords,
    /// It has this word after a kind that takes no words.
    #[error("a word after a kind without words: {}", BStr::new(.0))]
    Words(&'t [u8]),
    /// After `since=` or `until=` it has something other than a version.
    #[error("no version after since= or until=")]
    NoVersion,
    /// After `int` it has something other than two integer texts.
    #[error("the bounds are not two integers")]
    Bounds,
    /// The first integer after `int` is greater than the second.
    #[error("the first bound is greater than the second")]
    NotInOrder,
    /// Its kind does not take the value after `is=`.
    #[error("the kind does not take the value after is=")]
    Unwanted,
    /// There was no memory to hold the row.
    #[error("no memory")]
    Memory(AllocError),
}

/// A line that is not a row.
///
/// ```rust
/// use config_checks::table::read_rows;
///
/// let mut rows = Vec::new(alloc);
/// let bad = read_rows(alloc, b"a.b text\na.c boolean\n", &mut rows).err();
/// let text = format!(in alloc; "{}", bad.expect(&rt, "the second line is no row").fault)?;
/// assert_eq!(rt; text.as_str(), "no such kind: boolean");
/// ```
#[derive(Clone, Copy, Debug)]
pub struct BadRow<'t> {
    /// The number of the line, from 1.
    pub line: usize,
    /// Why it is not a row.
    pub fault: RowFault<'t>,
}

/// Whether a byte separates fields.
fn is_blank(byte: u8) -> bool
    ensures { result ≡ is_blank byte }
{
    byte == b' ' || byte == b'\t' || byte == b'\r'
}

/// The fields of a line, which are separated by blanks, up to a field that begins with `#`. A backslash at
/// the start of a field is left out.
fn fields_of<'t>(alloc: Global, line: &'t [u8]) -> Result<Vec<&'t [u8]>, AllocError>
    ensures { IfOk result (λ v. map (λ field. field.now) v.items ≡ fields_of line.now) }
{
    let mut fields = Vec::new(alloc);
    for field in line.split(|byte| is_blank(*byte)) {
        if field.starts_with(b"#") {
            return Ok(fields);
        }
        if !field.is_empty() {
            fields.push(without_front(field, b"\\"))?;
        }
    }
    Ok(fields)
}

/// The marks of a row, which come between its key and its kind.
#[derive(Clone, Copy)]
struct Marks<'t> {
    since: Option<Version>,
    until: Option<Version>,
    instead: Option<&'t [u8]>,
    old: Option<&'t [u8]>,
    wanted: Option<&'t [u8]>,
    must: bool,
    alone: Option<bool>,
    goes_on: bool,
}

/// The rest of the first field after this text, if the field begins with it, and the fields after that one.
fn cut_text<'f, 't>(fields: &'f [&'t [u8]], front: &[u8]) -> (Option<&'t [u8]>, &'f [&'t [u8]])
    ensures { CutsText (map (λ field. field.now) fields.now) front.now (option_copied result.0)
        (map (λ field. field.now) result.1.now) }
{
    let Some((field, rest)) = fields.split_first() else {
        return (None, fields);
    };
    match field.strip_prefix(front) {
        Some(text) => (Some(text), rest),
        None => (None, fields),
    }
}

/// The version after this text in the first field, if the field begins with the text, and the fields after
/// it.
fn cut_version<'f, 't>(
    fields: &'f [&'t [u8]],
    front: &[u8],
) -> Result<(Option<Version>, &'f [&'t [u8]]), RowFault<'t>>
    ensures cut { IfOk result (λ cut. CutsVersion (map (λ field. field.now) fields.now) front.now cut.0
        (map (λ field. field.now) cut.1.now)) }
    ensures refused { IfErr result (λ fault. (fault ≡ NoVersion)
        × LacksVersion (map (λ field. field.now) fields.now) front.now) }
{
    match cut_text(fields, front) {
        (None, rest) => Ok((None, rest)),
        (Some(text), rest) => match Version::read(text) {
            Some(version) => Ok((Some(version), rest)),
            None => Err(RowFault::NoVersion),
        },
    }
}

/// Whether the fields begin with the mark `alone` (true), `needs-value` (false) or neither, and the fields
/// after the mark.
fn cut_alone<'f, 't>(fields: &'f [&'t [u8]]) -> (Option<bool>, &'f [&'t [u8]])
    ensures { CutsAlone (map (λ field. field.now) fields.now) result.0
        (map (λ field. field.now) result.1.now) }
{
    match fields.split_first() {
        Some((field, rest)) if *field == b"alone".as_slice() => (Some(true), rest),
        Some((field, rest)) if *field == b"needs-value".as_slice() => (Some(false), rest),
        _ => (None, fields),
    }
}

/// Whether the fields begin with this mark, and the fields after the mark.
fn cut_mark<'f, 't>(fields: &'f [&'t [u8]], mark: &[u8]) -> (bool, &'f [&'t [u8]])
    ensures { CutsMark (map (λ field. field.now) fields.now) mark.now result.0
        (map (λ field. field.now) result.1.now) }
{
    let Some((field, rest)) = fields.split_first() else {
        return (false, fields);
    };
    if *field == mark {
        return (true, rest);
    }
    (false, fields)
}

/// The marks of a row, in their order, and the fields after them.
fn cut_marks<'f, 't>(fields: &'f [&'t [u8]]) -> Result<(Marks<'t>, &'f [&'t [u8]]), RowFault<'t>>
    ensures marks { IfOk result (λ cut. HasMarks (map (λ field. field.now) fields.now) cut.0
        (map (λ field. field.now) cut.1.now)) }
    ensures refused { IfErr result (λ fault. (fault ≡ NoVersion)
        × HasBadVersion (map (λ field. field.now) fields.now)) }
{
    let (since, rest) = cut_version(fields, b"since=")?;
    let (until, rest) = cut_version(rest, b"until=")?;
    let (instead, rest) = cut_text(rest, b"instead=");
    let (old, rest) = cut_text(rest, b"old=");
    let (wanted, rest) = cut_text(rest, b"is=");
    let (must, rest) = cut_mark(rest, b"must");
    let (alone, rest) = cut_alone(rest);
    let (goes_on, rest) = cut_mark(rest, b"warn");
    Ok((
        Marks {
            since,
            until,
            instead,
            old,
            wanted,
            must,
            alone,
            goes_on,
        },
        rest,
    ))
}

/// The kind with this name, if it is a kind without words and bounds.
fn plain_kind(name: &[u8]) -> Option<SettingKind<'static>>
    ensures { MatchOption result ((k : kinds.SettingKind) → plain_name k ≢ Some name.now)
        (λ k. (plain_name k ≡ Some name.now) × IsKind name.now [] k) }
{
    if name == b"text".as_slice() {
        Some(SettingKind::Text)
    } else if name == b"bool".as_slice() {
        Some(SettingKind::Bool)
    } else if name == b"bool-or-int".as_slice() {
        Some(SettingKind::BoolOrInt)
    } else if name == b"color".as_slice() {
        Some(SettingKind::Color)
    } else if name == b"path".as_slice() {
        Some(SettingKind::Path)
    } else if name == b"fetch-refspec".as_slice() {
        Some(SettingKind::Shaped(Shape::FetchRefspec))
    } else if name == b"push-refspec".as_slice() {
        Some(SettingKind::Shaped(Shape::PushRefspec))
    } else if name == b"branch".as_slice() {
        Some(SettingKind::Shaped(Shape::Branch))
    } else if name == b"command".as_slice() {
        Some(SettingKind::Shaped(Shape::Command))
    } else if name == b"no-option".as_slice() {
        Some(SettingKind::Shaped(Shape::NoOption))
    } else if name == b"colors-by-age".as_slice() {
        Some(SettingKind::Shaped(Shape::ColorsByAge))
    } else {
        None
    }
}

/// The form with this name, or `None` if no form has this name.
fn form_of(name: &[u8]) -> Option<Form>
    ensures { MatchOption result ((form : forms.Form) → form_name form ≢ name.now)
        (λ form. form_name form ≡ name.now) }
{
    if name == b"word".as_slice() {
        Some(Form::Word)
    } else if name == b"bool-or-word".as_slice() {
        Some(Form::BoolOrWord)
    } else if name == b"int-or-word".as_slice() {
        Some(Form::IntOrWord)
    } else if name == b"words".as_slice() {
        Some(Form::Words)
    } else if name == b"date".as_slice() {
        Some(Form::Date)
    } else if name == b"sort-key".as_slice() {
        Some(Form::SortKey)
    } else {
        None
    }
}

/// Whether the kind with this name ignores ASCII case, and its form, if it is a kind with words.
fn words_kind(name: &[u8]) -> Option<(bool, Form)>
    ensures { MatchOption result ((ignores : Bool) (form : forms.Form) → words_name ignores form ≢ name.now)
        (λ p. words_name p.0 p.1 ≡ name.now) }
{
    match name.strip_suffix(b"-any-case") {
        Some(name) => Some((true, form_of(name)?)),
        None => Some((false, form_of(name)?)),
    }
}

/// The numbers of two words. `None` if there are not two, or one is no integer text.
fn numbers_of(words: &[&[u8]]) -> Option<(Amount, Amount)>
    ensures { MatchOption result
        ((low high : Amount) → ¬ (AreNumbers (map (λ word. word.now) words.now) low high))
        (λ bounds. AreNumbers (map (λ word. word.now) words.now) bounds.0 bounds.1) }
{
    let Some((low, rest)) = words.split_first() else {
        return None;
    };
    let Some((high, rest)) = rest.split_first() else {
        return None;
    };
    let None = rest.split_first() else {
        return None;
    };
    match (Amount::try_read(low), Amount::try_read(high)) {
        (Ok(low), Ok(high)) => Some((low, high)),
        _ => None,
    }
}

/// The bounds of `int` by the words after it: two numbers in order, or the range of 32 bits if there are no
/// words.
fn bounds_of(words: &[&[u8]]) -> Result<(Amount, Amount), RowFault<'static>>
    ensures bounds { IfOk result
        (λ bounds. IsBounds (map (λ word. word.now) words.now) bounds.0 bounds.1) }
    ensures refused { IfErr result (IsBadKind (codes "int") (map (λ word. word.now) words.now)) }
{
    if words.is_empty() {
        return Ok((LEAST_INT, GREATEST_INT));
    }
    let Some((low, high)) = numbers_of(words) else {
        return Err(RowFault::Bounds);
    };
    if low.0 > high.0 {
        return Err(RowFault::NotInOrder);
    }
    Ok((low, high))
}

/// The kind with this name and these words after it, or why there is no such kind.
fn kind_of<'t>(
    alloc: Global,
    name: &'t [u8],
    words: &[&'t [u8]],
) -> Result<SettingKind<'t>, RowFault<'t>>
    ensures kind { IfOk result (IsKind name.now (map (λ word. word.now) words.now)) }
    ensures refused { IfErr result (IsBadKind name.now (map (λ word. word.now) words.now)) }
{
    if let Some(kind) = plain_kind(name) {
        if let Some((word, _)) = words.split_first() {
            return Err(RowFault::Words(word));
        }
        return Ok(kind);
    }
    if name == b"int".as_slice() {
        let (low, high) = bounds_of(words)?;
        return Ok(SettingKind::Int { low, high });
    }
    let Some((ignores_case, form)) = words_kind(name) else {
        return Err(RowFault::UnknownKind(name));
    };
    if words.is_empty() {
        return Err(RowFault::NoWords);
    }
    match Vec::from_slice(alloc, words) {
        Ok(words) => Ok(SettingKind::Word(WordList {
            words,
            ignores_case,
            form,
        })),
        Err(error) => Err(RowFault::Memory(error)),
    }
}

/// The row that a line spells, whether or not its kind takes the value that it wants.
fn spelled_row<'t>(alloc: Global, line: &'t [u8]) -> Result<Option<Row<'t>>, RowFault<'t>>
    ensures row { IfOk result
        (λ r. MatchOption r (fields_of line.now ≡ []) (SpellsRow (fields_of line.now))) }
    ensures refused { IfErr result (IsBadRow (fields_of line.now)) }
{
    let fields = match fields_of(alloc, line) {
        Ok(fields) => fields,
        Err(error) => return Err(RowFault::Memory(error)),
    };
    let Some((key, marked)) = fields.split_first() else {
        return Ok(None);
    };
    let Some(key) = Key::split(key) else {
        return Err(RowFault::NoKey);
    };
    let (marks, rest) = cut_marks(marked)?;
    let Some((name, words)) = rest.split_first() else {
        return Err(RowFault::NoKind);
    };
    let kind = kind_of(alloc, name, words)?;
    Ok(Some(Row {
        key,
        since: marks.since,
        until: marks.until,
        instead: marks.instead,
        old: marks.old,
        wanted: marks.wanted,
        must: marks.must,
        takes_no_value: marks.alone.unwrap_or(kind.takes_true()),
        goes_on: marks.goes_on,
        kind,
    }))
}

/// Whether the kind of a row takes the value that the row wants, if it wants one.
fn takes_wanted(alloc: Global, row: &Row<'_>) -> Result<bool, AllocError>
    ensures { IfOk result (λ takes. IsTrue takes ↔ TakesWanted row.now) }
{
    let Some(wanted) = row.wanted else {
        return Ok(true);
    };
    match judge(alloc, None, row, Some(wanted)) {
        Ok(None) => Ok(true),
        Ok(Some(_)) => Ok(false),
        Err(error) => Err(error),
    }
}

/// Reads the row on a line. Returns `None` if the line is blank or a comment, and an error if it is not a
/// row, or if memory runs out.
pub fn read_row<'t>(alloc: Global, line: &'t [u8]) -> Result<Option<Row<'t>>, RowFault<'t>>
    ensures row { IfOk result
        (λ r. MatchOption r (fields_of line.now ≡ []) (IsRow (fields_of line.now))) }
    ensures refused { IfErr result (IsBadRow (fields_of line.now)) }
{
    let Some(row) = spelled_row(alloc, line)? else {
        return Ok(None);
    };
    match takes_wanted(alloc, &row) {
        Ok(true) => Ok(Some(row)),
        Ok(false) => Err(RowFault::Unwanted),
        Err(error) => Err(RowFault::Memory(error)),
    }
}

/// Appends the row on a line, if the line has one.
fn push_row<'t>(alloc: Global, rows: &mut Vec<Row<'t>>, line: &'t [u8]) -> Result<(), RowFault<'t>>
    ensures adds { OnOk result (AddsRow line.now rows.old.items rows.new.items) }
    ensures refused { IfErr result (IsBadRow (fields_of line.now)) }
    ensures kept { OnErr result (rows.new.items ≡ rows.old.items) }
{
    let Some(row) = read_row(alloc, line)? else {
        return Ok(());
    };
    match rows.push(row) {
        Ok(()) => Ok(()),
        Err(_) => Err(RowFault::Memory(AllocError)),
    }
}

/// Appends the rows of a text, in the order of its lines, and skips blank lines and comments. If another line
/// is not a row, or memory runs out, only the rows of the lines before it are appended.
pub fn read_rows<'t>(
    alloc: Global,
    text: &'t [u8],
    rows: &mut Vec<Row<'t>>,
) -> Result<(), BadRow<'t>>
    ensures adds { OnOk result (AddsRows (lines_of text.now) rows.old.items rows.new.items) }
    ensures refused { IfErr result (IsBadLine text.now rows.old.items rows.new.items) }
{
    let mut number = 1;
    for line in text.split(|byte| *byte == b'\n') {
        if let Err(fault) = push_row(alloc, rows, line) {
            return Err(BadRow {
                line: number,
                fault,
            });
        }
        number += 1;
    }
    Ok(())
}
