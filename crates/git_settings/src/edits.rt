//! Changes of a file.

ghost use Rattle.std.specs.Prelude.{◌≡◌, ◌⊎◌};
ghost use Rattle.git_settings.specs.declared.edits.Refusal.TheVariants.{Edit as OfEdit, Pattern};

use crate::output::{Ending, tell, tell_error};
use crate::posix::NoPattern;
use crate::request::{Change, Chosen, Edit, Subject, Texts};
use crate::shown::{Outcome, Wrong, tell_wrong};
use crate::sources::{FILES, disk_of, found_here, scope_file, tell_stop, uses_repository};
use crate::wanted::{Patterns, Unclear, choice_of, fits_alone, tell_key};
use bstr::ByteSlice;
use bumpalo::Bump;
use config_answers::choice::Choice;
use config_answers::typed::put_typed;
use config_edit::{self as edit, EditError};
use config_file::bytes::{self, Class};
use config_file::entry::push_lower;
use config_file::errors::FileError;
use config_file::header::read_header;
use config_file::{Entries, Entry, Key, KeyError, Scope, Stop};
use config_host::repository::within;
use config_host::text::Text;
use config_host::{Disk, HereError, HostError, LockError, Locked};
use itoa::Buffer;
use std::alloc::{AllocError, Global};

/// Why a text is not changed.
#[derive(Drop)]
enum Refusal {
    Edit(EditError),
    /// The text is no pattern.
    Pattern(NoPattern),
}

impl From<EditError> for Refusal {
    ghost from_gives = { λ error refusal. refusal ≡ OfEdit error };

    fn from(error: EditError) -> Refusal {
        Refusal::Edit(error)
    }
}

impl From<Unclear> for Refusal {
    ghost from_gives = { λ _ refusal. ((why : _) × (refusal ≡ Pattern why)) ⊎ ((error : _) × (refusal ≡ OfEdit error)) };

    fn from(unclear: Unclear) -> Refusal {
        match unclear {
            Unclear::Key(error) => Refusal::Edit(EditError::Key(error)),
            Unclear::Keys(why) | Unclear::Values(why) => Refusal::Pattern(why),
        }
    }
}

/// The entries of the key whose values fit.
fn chosen_of<'a>(edit: &Edit<'a>) -> Chosen<'a> {
    Chosen {
        subject: Subject::Key(edit.name),
        value: edit.pattern,
        is_fixed: edit.is_fixed,
    }
}

/// Whether an entry is to be changed.
fn is_wanted(
    alloc: Global,
    choice: &mut Choice<'_, '_>,
    entry: &Entry<'_>,
) -> Result<bool, AllocError> {
    if !choice.has_key(entry)? {
        return Ok(false);
    }
    match &entry.value {
        Some(value) => {
            let text = value.text(alloc)?;
            Ok(choice.has_value(&text))
        }
        None => Ok(fits_alone(choice)),
    }
}

/// The places, from 0, of the wanted entries of a text.
fn places_in(
    alloc: Global,
    text: &[u8],
    choice: &mut Choice<'_, '_>,
) -> Result<Vec<usize>, EditError> {
    let mut found = Vec::new(alloc);
    let mut place = 0usize;
    for entry in Entries::new(text) {
        let entry = match entry {
            Ok(entry) => entry,
            Err(error) => return Err(EditError::File(error)),
        };
        if is_wanted(alloc, choice, &entry)? && found.push(place).is_err() {
            return Err(EditError::Memory(AllocError));
        }
        place = place.saturating_add(1);
    }
    Ok(found)
}

/// The places of the entries of the key whose values fit.
fn places_of(alloc: Global, text: &[u8], chosen: &Chosen<'_>) -> Result<Vec<usize>, Refusal> {
    let patterns = Patterns::new(alloc, chosen)?;
    let mut choice = choice_of(alloc, chosen, &patterns)?;
    Ok(places_in(alloc, text, &mut choice)?)
}

/// The text in which the entry at this place has this value and this comment.
fn commented<'c>(
    alloc: Global,
    text: &[u8],
    place: usize,
    value: &'c [u8],
    comment: Option<&'c str>,
) -> Result<Vec<u8>, EditError> {
    let change = edit::Change {
        entry: place,
        name: None,
        value: Some(value),
        comment: comment.map(str::as_bytes),
    };
    edit::change_entries(alloc, text, &[change])
}

/// The text with one more entry of the key, with the comment behind it if there is one.
fn added(alloc: Global, text: &[u8], edit: &Edit<'_>, value: &[u8]) -> Result<Vec<u8>, Refusal> {
    let new = edit::add(alloc, text, edit.name.as_bytes(), value)?;
    if edit.comment.is_none() {
        return Ok(new);
    }
    let all = Chosen {
        value: None,
        ..chosen_of(edit)
    };
    match places_of(alloc, &new, &all)?.last() {
        Some(place) => Ok(commented(alloc, &new, *place, value, edit.comment)?),
        None => Ok(new),
    }
}

/// The text after a change of the entries of a key at these places, of which the last one keeps the value.
fn changed_at(
    alloc: Global,
    text: &[u8],
    edit: &Edit<'_>,
    value: &[u8],
    places: &[usize],
) -> Result<Vec<u8>, Refusal> {
    let key = edit.name.as_bytes();
    let is_one = matches!(edit.change, Change::Set(_) | Change::Unset);
    if is_one && places.len() > 1 {
        return Err(Refusal::Edit(EditError::Several));
    }
    if matches!(edit.change, Change::Unset | Change::UnsetAll) {
        return Ok(edit::unset_at(alloc, text, key, places)?);
    }
    let [others @ .., last] = places else {
        return added(alloc, text, edit, value);
    };
    let new = commented(alloc, text, *last, value, edit.comment)?;
    if others.is_empty() {
        return Ok(new);
    }
    Ok(edit::unset_at(alloc, &new, key, others)?)
}

/// The text after a change of sections, or of all entries of the key.
fn changed_all(
    alloc: Global,
    text: &[u8],
    edit: &Edit<'_>,
    value: &[u8],
) -> Result<Vec<u8>, EditError> {
    let name = edit.name.as_bytes();
    match edit.change {
        Change::Set(_) => edit::set(alloc, text, name, value),
        Change::Add(_) => edit::add(alloc, text, name, value),
        Change::Replace(_) => edit::replace_all(alloc, text, name, value),
        Change::Unset => edit::unset(alloc, text, name),
        Change::UnsetAll => edit::unset_all(alloc, text, name),
        Change::Rename(new) => edit::rename_section(alloc, text, name, new.as_bytes()),
        Change::Remove => edit::remove_section(alloc, text, name),
    }
}

/// The text after a change.
fn changed(alloc: Global, text: &[u8], edit: &Edit<'_>, value: &[u8]) -> Result<Vec<u8>, Refusal> {
    if edit.pattern.is_none() && edit.comment.is_none() {
        return Ok(changed_all(alloc, text, edit, value)?);
    }
    if let Err(error) = Key::parse(edit.name.as_bytes()) {
        return Err(Refusal::Edit(EditError::Key(error)));
    }
    if matches!(edit.change, Change::Add(_)) {
        return added(alloc, text, edit, value);
    }
    let places = places_of(alloc, text, &chosen_of(edit))?;
    changed_at(alloc, text, edit, value, &places)
}

/// What follows the last entry that Git reads.
fn behind_entries(text: &[u8]) -> &[u8] {
    let mut entries = Entries::new(text);
    let (_, _, mut rest) = entries.parts();
    for _ in 0..text.len() {
        match entries.next() {
            Some(Ok(_)) => rest = entries.parts().2,
            _ => break,
        }
    }
    rest
}

/// The first header that is none, behind its `[`, in a text in which no entry comes before it.
fn broken_header(text: &[u8]) -> Option<&[u8]> {
    let mut rest = text;
    for _ in 0..text.len() {
        let (_, after) = bytes::run(rest, Class::Blank);
        rest = match after {
            [b'\n', after @ ..] => after,
            [b'#' | b';', ..] => bytes::run(after, Class::Comment).1,
            [b'[', after @ ..] => match read_header(after) {
                Ok((_, after)) => after,
                Err(_) => return Some(after),
            },
            _ => return None,
        };
    }
    None
}

/// Whether the text of a subsection, up to where Git stops reading it, ends in a dot. An empty one does, as Git has
/// written the dot before it.
fn ends_in_dot(subsection: &[u8]) -> bool {
    let line = match subsection.split_once_str(b"\n") {
        Some((line, _)) => line.strip_suffix(b"\r").unwrap_or(line),
        None => subsection,
    };
    let (mut last, mut is_escaped) = (b'.', false);
    for byte in line {
        match (*byte, is_escaped) {
            (b'"', false) => break,
            (b'\\', false) => is_escaped = true,
            (byte, _) => (last, is_escaped) = (byte, false),
        }
    }
    last == b'.'
}

/// Whether Git stops within a header, and not behind a dot of its name: only then it says that the file is none.
fn is_no_file(text: &[u8]) -> bool {
    let Some(header) = broken_header(behind_entries(text)) else {
        return false;
    };
    let (name, after) = bytes::run(header, Class::Name);
    let (blanks, after) = bytes::run(after, Class::Blank);
    match after {
        _ if name.is_empty() => true,
        [b'"', subsection @ ..] if !blanks.is_empty() => !ends_in_dot(subsection),
        _ => name.len() == 1 || !name.ends_with(b"."),
    }
}

/// Tells that a file of this text is no configuration file. Returns how the run ends.
fn tell_file(
    rt: &HostRuntime,
    file: &[u8],
    text: &[u8],
    edit: &Edit<'_>,
    error: &FileError,
) -> Ending {
    let is_of_sections = matches!(edit.change, Change::Rename(_) | Change::Remove);
    if is_of_sections || !is_no_file(text) {
        let stop = Stop::at(file, error.line, error.why);
        tell_stop(rt, FILES, stop);
        return Ending::Refused;
    }
    let mut buffer = Buffer::new();
    let line = buffer.format(error.line).as_bytes();
    tell(rt, &[b"error: bad config line ", line, b" in file ", file]);
    tell(rt, &[b"error: invalid config file ", file]);
    Ending::NoFile
}

/// Tells that several entries have the key.
fn tell_several(rt: &HostRuntime, edit: &Edit<'_>) {
    let name = edit.name.as_bytes();
    tell(rt, &[b"warning: ", name, b" has multiple values"]);
    if matches!(edit.change, Change::Set(_)) && edit.pattern.is_none() {
        let front = b"error: cannot overwrite multiple values with a single value\n       ";
        tell(
            rt,
            &[front, edit.advice.as_bytes(), b" to change ", name, b"."],
        );
    }
}

/// Tells that no entry or no section is to be changed, if that is said, and under which name a section is listed whose
/// header may have this name. Returns how the run ends.
fn tell_absent(rt: &HostRuntime, text: &[u8], edit: &Edit<'_>) -> Result<Ending, AllocError> {
    if !matches!(edit.change, Change::Rename(_) | Change::Remove) {
        return Ok(Ending::NotOne);
    }
    let alloc = rt.alloc();
    let name = edit.name.as_bytes();
    tell(rt, &[b"fatal: no such section: ", name]);
    let mut listed = Vec::new(alloc);
    push_lower(&mut listed, name)?;
    if edit::remove_section(alloc, text, &listed).is_ok() {
        tell(rt, &[b"hint: a section is listed as ", &listed]);
    }
    Ok(Ending::Refused)
}

/// Tells why the text of a file is not changed. Returns how the run ends.
fn tell_refusal(
    rt: &HostRuntime,
    file: &[u8],
    text: &[u8],
    edit: &Edit<'_>,
    error: &EditError,
) -> Result<Ending, AllocError> {
    Ok(match error {
        EditError::Key(error) => {
            tell_key(rt, edit.name, *error);
            match error {
                KeyError::NoSection | KeyError::NoName => Ending::NoSection,
                _ => Ending::Absent,
            }
        }
        EditError::Section => {
            let name = match edit.change {
                Change::Rename(new) => new,
                _ => edit.name,
            };
            tell(rt, &[b"error: invalid section name: ", name.as_bytes()]);
            Ending::Failed
        }
        EditError::File(error) => tell_file(rt, file, text, edit, error),
        EditError::Several => {
            tell_several(rt, edit);
            Ending::NotOne
        }
        EditError::Absent => tell_absent(rt, text, edit)?,
        EditError::Memory(_) => return Err(AllocError),
        _ => {
            tell(rt, &[b"fatal: nothing spells the value or the comment"]);
            Ending::Refused
        }
    })
}

/// Tells why a file is not replaced. Returns how the run ends.
fn tell_lock(rt: &HostRuntime, name: &[u8], error: LockError) -> Ending {
    let (front, ending): (&[u8], Ending) = match &error {
        LockError::Held(..) | LockError::Lock(_) => {
            (b"error: could not lock config file ", Ending::Failed)
        }
        LockError::Read(_) => (b"error: invalid config file ", Ending::NoFile),
        LockError::Write(_) => (b"error: could not write config file ", Ending::NotWritten),
    };
    tell_error(rt, [front, name, b": "], error);
    ending
}

/// Changes the file of this name. Nothing is written if nothing changes. As in Git, `-` is no file.
fn change_file<'t>(
    rt: &'t HostRuntime,
    disk: &Disk<'t>,
    name: &[u8],
    edit: &Edit<'_>,
    value: &[u8],
) -> Result<Ending, HostError> {
    let locked = match Locked::of(disk, name) {
        Ok(locked) => locked,
        Err(error) => return Ok(tell_lock(rt, name, error)),
    };
    let text = locked.text();
    let new = match changed(rt.alloc(), text, edit, value) {
        Ok(new) => new,
        Err(Refusal::Edit(error)) => return Ok(tell_refusal(rt, name, text, edit, &error)?),
        Err(Refusal::Pattern(why)) => {
            return Ok(Unclear::Values(why).tell(rt, &chosen_of(edit)));
        }
    };
    if new.as_slice() == text {
        return Ok(Ending::Done);
    }
    match locked.commit(new.as_slice()) {
        Ok(()) => Ok(Ending::Done),
        Err(error) => Ok(tell_lock(rt, name, error)),
    }
}

/// Changes the file of a scope, which is that of the repository if the user says nothing.
fn change_here<'t>(
    rt: &'t HostRuntime,
    texts: &'t Bump,
    scope: Option<Scope>,
    edit: &Edit<'_>,
    value: &[u8],
    commands: &[u8],
) -> Result<Ending, HereError<'t>> {
    let disk = disk_of(rt, texts, commands)?;
    let found = found_here(rt, &disk, scope)?;
    let disk = within(&disk, &found)?;
    if scope.is_none() && !uses_repository(&found) {
        tell(rt, &[b"fatal: not in a git directory"]);
        return Ok(Ending::Refused);
    }
    match scope_file(rt, &disk, &found, scope.unwrap_or(Scope::Local))? {
        Some(name) => Ok(change_file(rt, &disk, name, edit, value)?),
        None => Ok(Ending::Refused),
    }
}

/// Changes a file that is named.
fn change_named(
    rt: &HostRuntime,
    name: &str,
    edit: &Edit<'_>,
    value: &[u8],
) -> Result<Ending, HostError> {
    if name == "-" {
        tell(rt, &[b"fatal: writing to stdin is not supported"]);
        return Ok(Ending::Refused);
    }
    let kept = Bump::new(rt.alloc());
    change_file(rt, &Disk::new(rt, &kept), name.as_bytes(), edit, value)
}

/// Changes the file of a scope. Tells why Git stops as it looks for a repository.
fn change_found(
    rt: &HostRuntime,
    scope: Option<Scope>,
    edit: &Edit<'_>,
    value: &[u8],
    commands: &[u8],
) -> Result<Ending, HostError> {
    let kept = Bump::new(rt.alloc());
    match change_here(rt, &kept, scope, edit, value, commands) {
        Ok(ending) => Ok(ending),
        Err(HereError::Host(error)) => Err(error),
        Err(HereError::Stops(stop)) => {
            tell_stop(rt, FILES, stop);
            Ok(Ending::Refused)
        }
    }
}

/// Does a change, with this text as its value, in the file that it names.
fn change_texts(
    rt: &HostRuntime,
    edit: &Edit<'_>,
    value: &[u8],
    commands: &[u8],
) -> Result<Ending, HostError> {
    match edit.texts {
        Texts::Named(file) => change_named(rt, file, edit, value),
        Texts::OfScope(scope) => change_found(rt, Some(scope), edit, value, commands),
        Texts::Here => change_found(rt, None, edit, value, commands),
    }
}

/// Does a change, with these settings of the command line. Its value is written as its type asks.
// Not inlined, so that a run that reads pays for no page of the stack that a change needs.
#[inline(never)]
pub fn run(rt: &HostRuntime, edit: &Edit<'_>, commands: &[u8]) -> Result<Ending, HostError> {
    let (Change::Set(value) | Change::Add(value) | Change::Replace(value)) = edit.change else {
        return change_texts(rt, edit, b"", commands);
    };
    let mut text = Vec::new(rt.alloc());
    match put_typed(&mut text, edit.shown, value.as_bytes())? {
        Outcome::AsWritten => change_texts(rt, edit, value.as_bytes(), commands),
        Outcome::Refused => {
            let wrong = Wrong {
                key: edit.name.as_bytes(),
                value: Some(value.as_bytes()),
                place: None,
            };
            tell_wrong(
                rt,
                edit.shown,
                &wrong,
                [b"fatal: cannot parse color '", b"'"],
            );
            Ok(Ending::Refused)
        }
        _ => change_texts(rt, edit, &text, commands),
    }
}
