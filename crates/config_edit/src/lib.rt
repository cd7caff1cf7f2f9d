//! Edits of the text of a configuration file: one setting changes, and each other byte stays
//! (docs/GRAMMAR.md).
//!
//! An edit has the places of its bytes from the reader of `config_file`, and never from a search for `[` or a line
//! end. It is proved of each which entries and which bytes it changes, and when it is refused. [`laws`] states what is
//! got from a text in which a key was set.
#![tactic(auto)]

ghost use Rattle.std.specs.Prelude.{◌≡◌, ◌++◌, ◌∷◌, [], List, ℕ, None, Some, true, map, ⊤, IfOk, MatchResult, option_copied};
ghost use Rattle.config_edit.specs.Edit.{content, AddsOne, AreInOrder, ChangesEntries, HasNone, HasNoneAt, HasSeveral, Never, RefusesChanges, RefusesComment, RefusesEdit, RefusesLastPart, RefusesOneChange, RefusesOneOf, ReplacesAll, Sets};
ghost use Rattle.config_edit.specs.Unset.{Unsets, UnsetsAll, UnsetsAt, UnsetsEach};
ghost use Rattle.std.specs.List.{list_all, AllByRecursion};
ghost use Rattle.config_file.specs.Bytes.{is_comment_byte};
ghost use Rattle.config_file.specs.Spelling.{HasNoHeader, HasNoSpelling, LacksSpelling};
ghost use Rattle.config_file.specs.File.{Entry, IsFile};
ghost use Rattle.config_edit.specs.Reading.{IsWritable, IsWritableComment, IsWritableName, IsWritableValue, RefusesName, RefusesText};
ghost use Rattle.config_edit.specs.Cut.{IsSplit};
ghost use Rattle.config_edit.specs.Sections.{RefusesRemoval, RefusesRenaming, RemovesSection, RenamesSection};
ghost use Rattle.config_file.specs.Key.{IsKey};
ghost use Rattle.config_file.specs.KeyView.{key_of};
ghost use Rattle.config_file.specs.Reading.Spellings as spec;
ghost use Rattle.config_edit.specs.declared.EditError.TheVariants.{Comment, Memory, Value};

mod each;
pub mod laws;
mod piece;
mod removal;
mod sections;
mod setting;
mod write;

use crate::each::{change_at, change_each};
use crate::removal::{Count, without};
use crate::sections::{renamed, without_section};
use crate::setting::{Replacement, added, replace};
use config_file::bytes::{Class, run};
use config_file::errors::FileError;
use config_file::key::{Key, KeyError, is_name};
use config_file::reader::{Entries, after_mark};
use config_file::spelling::{is_section, is_spellable};
use std::alloc::{AllocError, Global};
use thiserror::Error;

/// Why a text is not edited.
///
/// ```rust
/// use config_edit::{EditError, set, unset};
///
/// let text = b"[remote \"a\"]\n\turl = b\n\turl = c\n";
/// assert!(rt; matches!(unset(alloc, text, b"remote.a.url"), Err(EditError::Several)));
/// assert!(rt; matches!(unset(alloc, text, b"core.bare"), Err(EditError::Absent)));
/// assert!(rt; matches!(set(alloc, text, b"core.bare", b"a\0b"), Err(EditError::Value)));
/// assert!(rt; matches!(set(alloc, b"[core", b"core.bare", b"true"), Err(EditError::File(_))));
/// let error = unset(alloc, b"[core", b"core.bare").unwrap_err();
/// assert_eq!(rt; error.to_string(alloc)?.as_str(), "2: bad config line");
/// ```
#[derive(Drop, Debug, Error)]
pub enum EditError {
    /// Memory was refused.
    #[error("{0}")]
    Memory(AllocError),
    /// Git refuses the key.
    #[error("{0}")]
    Key(KeyError),
    /// No header has the section of the key, or the new name of a section.
    #[error("no header can have this section")]
    Section,
    /// No bytes spell the value: it has a NUL.
    #[error("the value has a NUL")]
    Value,
    /// The comment has a line end, or comes without a value.
    #[error("the comment has a line end, or comes without a value")]
    Comment,
    /// The text is not a configuration file.
    #[error("{0}")]
    File(FileError),
    /// Several entries have the key.
    #[error("several entries have this key")]
    Several,
    /// No entry has the key, or no header has the section.
    #[error("nothing has this name")]
    Absent,
}

impl From<AllocError> for EditError {
    ghost from_gives = { λ error refused. refused ≡ Memory error };

    fn from(error: AllocError) -> EditError {
        EditError::Memory(error)
    }
}

/// The byte order mark of a text, or nothing, and what follows.
fn split_mark(text: &[u8]) -> (&[u8], &[u8])
    ensures { IsSplit text.now result.0.now result.1.now }
{
    match after_mark(text) {
        Some(body) => (b"\xef\xbb\xbf", body),
        None => (b"", text),
    }
}

/// Refuses a text that is not a configuration file.
fn check_file(text: &[u8]) -> Result<(), EditError>
    ensures { MatchResult result (λ _. (entries : List Entry) × IsFile text.now entries None) (RefusesText text.now) }
{
    for entry in Entries::new(text) {
        if let Err(error) = entry {
            return Err(EditError::File(error));
        }
    }
    Ok(())
}

/// Why a text is refused that is not a configuration file.
fn fault_of(text: &[u8]) -> EditError
    requires { (entries : List Entry) → ¬ (IsFile text.now entries None) }
    ensures { RefusesText text.now result }
{
    match check_file(text) {
        Err(error) => error,
        Ok(()) => unreachable!(),
    }
}

/// The key that this text is, if a header can have its section.
fn parse_key(text: &[u8]) -> Result<Key<'_>, EditError>
    ensures { MatchResult result
        (λ key. IsKey text.now (key_of key)
        × (spec.is_section (key_of key).section (key_of key).subsection ≡ true)
        × ¬ (HasNoHeader (key_of key).section (key_of key).subsection))
        (RefusesName text.now) }
{
    let key = match Key::parse(text) {
        Ok(key) => key,
        Err(error) => return Err(EditError::Key(error)),
    };
    if is_section(key.section(), key.subsection()) {
        Ok(key)
    } else {
        Err(EditError::Section)
    }
}

fn check_value(value: &[u8]) -> Result<(), EditError>
    ensures { MatchResult result (λ _. (spec.is_spellable value.now ≡ true) × ¬ (HasNoSpelling value.now))
        (λ error. (error ≡ Value) × HasNoSpelling value.now) }
{
    if is_spellable(value) {
        Ok(())
    } else {
        Err(EditError::Value)
    }
}

/// The mark, and then this body.
fn marked(body: Vec<u8>, alloc: Global, mark: &[u8]) -> Result<Vec<u8>, AllocError>
    ensures { IfOk result (λ text. text.items ≡ mark.now ++ body.items) }
{
    if mark.is_empty() {
        return Ok(body);
    }
    let mut text = Vec::with_capacity(alloc, mark.len() + body.len())?;
    text.extend_from_slice(mark)?;
    text.extend_from_slice(body.as_slice())?;
    Ok(text)
}

/// The text in which this key has this value. If an entry has the key, only bytes of its value change: its
/// indentation, the spelling of its key, blanks, the comment behind it and its line end stay. A key alone
/// gets ` = value`. Otherwise a new entry comes after the last one of the last section of that name, or in a
/// new section at the end. If the key has the value already, the text is returned as it is.
///
/// It fails, in this order, if Git refuses the key, no header can have its section, the value has a NUL, the
/// text is no configuration file, several entries have the key, or memory is refused at any time.
///
/// ```rust
/// use config_edit::set;
///
/// let text = b"[user]\n\tname = A # me\n";
/// let new = set(alloc, text, b"user.name", b"B").expect(&rt, "a text");
/// assert!(rt; new.as_slice() == b"[user]\n\tname = B # me\n".as_slice());
/// let new = set(alloc, text, b"user.email", b"a@b.c").expect(&rt, "a text");
/// assert!(rt; new.as_slice() == b"[user]\n\tname = A # me\n\temail = a@b.c\n".as_slice());
/// ```
pub fn set(alloc: Global, text: &[u8], key: &[u8], value: &[u8]) -> Result<Vec<u8>, EditError>
    ensures { MatchResult result (λ new. Sets key.now value.now text.now new.items)
        (RefusesEdit HasSeveral Never key.now (Some value.now) text.now) }
{
    let key = parse_key(key)?;
    check_value(value)?;
    let (mark, body) = split_mark(text);
    match replace(alloc, body, &key, value)? {
        Replacement::Done(replaced) => {
            if replaced.several {
                return Err(EditError::Several);
            }
            Ok(marked(replaced.text, alloc, mark)?)
        }
        Replacement::Nothing => Ok(marked(added(alloc, body, &key, value)?, alloc, mark)?),
        Replacement::Unread => Err(fault_of(text)),
    }
}

/// What [`set`] does, also if several entries have the key: the last one gets the value, and the others go
/// with their lines.
pub fn replace_all(
    alloc: Global,
    text: &[u8],
    key: &[u8],
    value: &[u8],
) -> Result<Vec<u8>, EditError>
    ensures { MatchResult result (λ new. ReplacesAll key.now value.now text.now new.items)
        (RefusesEdit Never Never key.now (Some value.now) text.now) }
{
    let key = parse_key(key)?;
    check_value(value)?;
    let (mark, body) = split_mark(text);
    match replace(alloc, body, &key, value)? {
        Replacement::Done(replaced) => Ok(marked(replaced.text, alloc, mark)?),
        Replacement::Nothing => Ok(marked(added(alloc, body, &key, value)?, alloc, mark)?),
        Replacement::Unread => Err(fault_of(text)),
    }
}

/// The text with one more entry, at the place of a new entry of [`set`]. It is refused as there, except that
/// the key may have any number of entries.
///
/// ```rust
/// use config_edit::add;
///
/// let new = add(alloc, b"[a]\n\tk = 1\n[b]\n", b"a.k", b"2").expect(&rt, "a text");
/// assert!(rt; new.as_slice() == b"[a]\n\tk = 1\n\tk = 2\n[b]\n".as_slice());
/// ```
pub fn add(alloc: Global, text: &[u8], key: &[u8], value: &[u8]) -> Result<Vec<u8>, EditError>
    ensures { MatchResult result (λ new. AddsOne key.now value.now text.now new.items)
        (RefusesEdit Never Never key.now (Some value.now) text.now) }
{
    let key = parse_key(key)?;
    check_value(value)?;
    check_file(text)?;
    let (mark, body) = split_mark(text);
    Ok(marked(added(alloc, body, &key, value)?, alloc, mark)?)
}

/// The text without the entry of a key that has one. The entry goes with its line and the comment on it; a
/// header before it on the line stays. If nothing is left in its section, neither an entry nor a comment, and
/// no comment precedes the header, the line of the header goes too.
///
/// It fails, in this order, if Git refuses the key, no header can have its section, the text is no
/// configuration file, no entry or more than one has the key, or memory is refused at any time.
///
/// ```rust
/// use config_edit::unset;
///
/// let new = unset(alloc, b"[a]\n\tk = 1\n\tj = 2\n", b"a.k").expect(&rt, "a text");
/// assert!(rt; new.as_slice() == b"[a]\n\tj = 2\n".as_slice());
/// ```
pub fn unset(alloc: Global, text: &[u8], key: &[u8]) -> Result<Vec<u8>, EditError>
    ensures { MatchResult result (λ new. Unsets key.now text.now new.items)
        (RefusesEdit HasSeveral HasNone key.now None text.now) }
{
    let key = parse_key(key)?;
    check_file(text)?;
    let (mark, body) = split_mark(text);
    let taken = without(alloc, body, &key, None)?;
    match taken.count {
        Count::None => Err(EditError::Absent),
        Count::One => Ok(marked(taken.text, alloc, mark)?),
        Count::Several => Err(EditError::Several),
    }
}

/// What [`unset`] does, with all entries of a key. It fails if there is none.
pub fn unset_all(alloc: Global, text: &[u8], key: &[u8]) -> Result<Vec<u8>, EditError>
    ensures { MatchResult result (λ new. UnsetsAll key.now text.now new.items)
        (RefusesEdit Never HasNone key.now None text.now) }
{
    unset_each(alloc, text, key, None)
}

/// What [`unset`] does, with those entries of a key that stand at these places. A place counts all entries of
/// the text, from 0. The places rise: one that is below one before it stands for no entry.
///
/// It fails, in this order, if Git refuses the key, no header can have its section, the text is no
/// configuration file, no entry of the key is at one of the places, or memory is refused at any time.
///
/// ```rust
/// use config_edit::{EditError, unset_at};
///
/// let text = b"[a]\n\tk = 1\n\tj = 2\n\tk = 3\n";
/// let new = unset_at(alloc, text, b"a.k", &[1, 2]).expect(&rt, "a text");
/// assert!(rt; new.as_slice() == b"[a]\n\tk = 1\n\tj = 2\n".as_slice());
/// assert!(rt; matches!(unset_at(alloc, text, b"a.k", &[1]), Err(EditError::Absent)));
/// ```
pub fn unset_at(
    alloc: Global,
    text: &[u8],
    key: &[u8],
    places: &[usize],
) -> Result<Vec<u8>, EditError>
    ensures { MatchResult result (λ new. UnsetsAt places.now key.now text.now new.items)
        (RefusesEdit Never (HasNoneAt (Some places.now)) key.now None text.now) }
{
    unset_each(alloc, text, key, Some(places))
}

/// The text without the entries of the key at these places, or without all of them.
fn unset_each(
    alloc: Global,
    text: &[u8],
    key: &[u8],
    places: Option<&[usize]>,
) -> Result<Vec<u8>, EditError>
    ensures { MatchResult result (λ new. UnsetsEach (option_copied places.entry) key.now text.now new.items)
        (RefusesEdit Never (HasNoneAt (option_copied places.entry)) key.now None text.now) }
{
    let key = parse_key(key)?;
    check_file(text)?;
    let (mark, body) = split_mark(text);
    let taken = without(alloc, body, &key, places)?;
    match taken.count {
        Count::None => Err(EditError::Absent),
        Count::One | Count::Several => Ok(marked(taken.text, alloc, mark)?),
    }
}

/// A key in this section.
fn in_section(alloc: Global, name: &[u8]) -> Result<Vec<u8>, AllocError>
    ensures { IfOk result (λ key. key.items ≡ name.now ++ 46 ∷ 120 ∷ []) }
{
    let mut key = Vec::with_capacity(alloc, name.len())?;
    key.extend_from_slice(name)?;
    key.extend_from_slice(b".x")?;
    Ok(key)
}

/// The text in which the sections of the old name have the new one. A name is a section, or a section, a dot
/// and a subsection. Only headers change, and what follows them on their lines stays.
///
/// It fails, in this order, with `Section` if no header can have the new name, if the text is no configuration
/// file, if no header has the old name, or if memory is refused at any time.
///
/// ```rust
/// use config_edit::rename_section;
///
/// let new = rename_section(alloc, b"[core] bare", b"core", b"a.B").expect(&rt, "a text");
/// assert!(rt; new.as_slice() == b"[a \"B\"] bare".as_slice());
/// ```
pub fn rename_section(
    alloc: Global,
    text: &[u8],
    old: &[u8],
    new: &[u8],
) -> Result<Vec<u8>, EditError>
    ensures { MatchResult result (λ edited. RenamesSection old.now new.now text.now edited.items)
        (RefusesRenaming old.now new.now text.now) }
{
    let old_key = in_section(alloc, old)?;
    let new_key = in_section(alloc, new)?;
    let Ok(to) = parse_key(new_key.as_slice()) else {
        return Err(EditError::Section);
    };
    check_file(text)?;
    let Ok(from) = Key::parse(old_key.as_slice()) else {
        return Err(EditError::Absent);
    };
    let (mark, body) = split_mark(text);
    match renamed(alloc, body, &from, &to)? {
        Some(_) if old == new => Ok(copied(alloc, text)?),
        Some(new) => Ok(marked(new, alloc, mark)?),
        None => Err(EditError::Absent),
    }
}

fn copied(alloc: Global, text: &[u8]) -> Result<Vec<u8>, AllocError>
    ensures { IfOk result (λ copy. copy.items ≡ text.now) }
{
    let mut copy = Vec::with_capacity(alloc, text.len())?;
    copy.extend_from_slice(text)?;
    Ok(copy)
}

/// The text without the sections of a name, with their headers. Comments directly above the next header stay
/// with it, and so does the last line end of a section that began behind another header on its line.
///
/// It fails, in this order, if the text is no configuration file, if no header has the name, or if memory is
/// refused at any time.
pub fn remove_section(alloc: Global, text: &[u8], name: &[u8]) -> Result<Vec<u8>, EditError>
    ensures { MatchResult result (λ new. RemovesSection name.now text.now new.items)
        (RefusesRemoval name.now text.now) }
{
    let key_text = in_section(alloc, name)?;
    check_file(text)?;
    let Ok(key) = Key::parse(key_text.as_slice()) else {
        return Err(EditError::Absent);
    };
    let (mark, body) = split_mark(text);
    match without_section(alloc, body, &key)? {
        Some(new) => Ok(marked(new, alloc, mark)?),
        None => Err(EditError::Absent),
    }
}

/// What an entry gets: another last part of its key, another value, or both.
///
/// ```rust
/// use config_edit::{Change, change_entries};
///
/// let text = b"[user]\n\temial = A # me\n\tname = B\n";
/// let changes = [
///     Change { entry: 0, name: Some(b"email"), value: None, comment: None },
///     Change { entry: 1, name: None, value: Some(b"C"), comment: Some(b"mine") },
/// ];
/// let new = change_entries(alloc, text, &changes).expect(&rt, "a text");
/// assert!(rt; new.as_slice() == b"[user]\n\temail = A # me\n\tname = C # mine\n".as_slice());
/// ```
#[derive(Clone, Copy, Debug)]
pub struct Change<'c> {
    /// Which entry of the text it is, from 0.
    pub entry: usize,
    /// The last part of its key from now on.
    pub name: Option<&'c [u8]>,
    /// The value that it has from now on.
    pub value: Option<&'c [u8]>,
    /// The comment that stands behind this value from now on, in place of the one that is there. A comment
    /// comes with a value only, since Git reads none behind a key alone. As `git config set --comment` does,
    /// ` # ` is written before it, or a space if it begins with `#`, or nothing if blanks and `#` begin it.
    pub comment: Option<&'c [u8]>,
}

/// Refuses a name that is not the last part of a key.
fn check_name(name: Option<&[u8]>) -> Result<(), KeyError>
    ensures { MatchResult result (λ _. IsWritableName (option_copied name.entry)) (RefusesLastPart (option_copied name.entry)) }
{
    match name {
        Some([]) => Err(KeyError::NoName),
        Some(name) if !is_name(name) => Err(KeyError::BadByte),
        _ => Ok(()),
    }
}

/// Refuses a new value that no bytes spell.
fn check_given(value: Option<&[u8]>) -> Result<(), EditError>
    ensures { MatchResult result (λ _. IsWritableValue (option_copied value.entry))
        (λ error. (error ≡ Value) × LacksSpelling (option_copied value.entry)) }
{
    match value {
        Some(value) => check_value(value),
        None => Ok(()),
    }
}

/// Whether no line end is in a comment.
#[tactic(auto, using(crate::proofs::Commented::run_is_all))]
fn is_one_line(comment: &[u8]) -> bool
    ensures { result ≡ list_all is_comment_byte comment.now }
{
    run(comment, Class::Comment).1.is_empty()
}

/// Refuses a comment that comes without a value, or has a line end.
fn check_comment(value: Option<&[u8]>, comment: Option<&[u8]>) -> Result<(), EditError>
    ensures { MatchResult result (λ _. IsWritableComment (option_copied value.entry) (option_copied comment.entry))
        (λ error. (error ≡ Comment) × RefusesComment (option_copied value.entry) (option_copied comment.entry)) }
{
    match (value, comment) {
        (_, None) => Ok(()),
        (Some(_), Some(comment)) if is_one_line(comment) => Ok(()),
        _ => Err(EditError::Comment),
    }
}

/// Refuses a change that cannot be written.
fn check_change(change: &Change<'_>) -> Result<(), EditError>
    ensures { MatchResult result (λ _. IsWritable change.now) (RefusesOneChange change.now) }
{
    if let Err(error) = check_name(change.name) {
        return Err(EditError::Key(error));
    }
    check_given(change.value)?;
    if let Err(error) = check_comment(change.value, change.comment) {
        return Err(error);
    }
    Ok(())
}

/// Refuses changes of which one cannot be written.
fn check_changes(changes: &[Change<'_>]) -> Result<(), EditError>
    ensures { MatchResult result (λ _. AllByRecursion IsWritable changes.now) (RefusesOneOf changes.now) }
{
    let mut index = 0usize;
    'changes: while let Some(change) = change_at(changes, index) {
        if let Err(error) = check_change(change) {
            return Err(error);
        }
        index += 1;
    }
    Ok(())
}

/// The text in which some of its entries have changed: the last part of a key, a value, or both, and a comment
/// behind a value. Only the bytes of this part and of this value change, as in [`set`], and with a comment what
/// follows the value on its line. The changes are in the order of their entries, one at most for each.
///
/// It fails, in this order, if a name is not the last part of a key, a value has a NUL, or a comment has a line
/// end or no value comes with it; if the text is no configuration file, a change is of no entry or not of one
/// behind that of the change before, or if memory is refused at any time.
pub fn change_entries(
    alloc: Global,
    text: &[u8],
    changes: &[Change<'_>],
) -> Result<Vec<u8>, EditError>
    ensures { MatchResult result (λ new. ChangesEntries changes.now text.now new.items)
        (RefusesChanges changes.now text.now) }
{
    check_changes(changes)?;
    if let Err(error) = check_file(text) {
        return Err(error);
    }
    let (mark, body) = split_mark(text);
    match change_each(alloc, body, changes)? {
        Some(new) => Ok(marked(new, alloc, mark)?),
        None => Err(EditError::Absent),
    }
}
