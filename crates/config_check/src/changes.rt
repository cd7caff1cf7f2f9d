//! Changes the entries of a file that have findings with one suggestion.
ghost use Rattle.std.specs.Prelude.{⊤};

use crate::diff::{Span, lines_after, spans_of};
use config_checks::code::Code;
use config_checks::finding::Finding;
use config_checks::fix::{Safety, other_name};
use config_checks::mending::{MendedText, Proposal, mend_text};
use config_checks::options::Options;
use config_checks::row::Row;
use config_checks::setting::Setting;
use config_edit::EditError;
use config_file::entry::EntryForm;
use config_file::key::Key;
use config_file::{Entries, Entry, FileError, Scope};
use config_host::{Disk, HereError, LockError, Locked, hand_on};
use config_search::{Follows, Reading, Receiver};
use std::alloc::{AllocError, Global};
use std::collections::BTreeSet;
use std::io;
use thiserror::Error;

/// The lines of a change, and what they become, without their last end.
#[derive(Drop)]
pub(crate) struct ChangedLines {
    pub(crate) span: Span,
    pub(crate) text: Vec<u8>,
}

/// A change of the entry that this many entries precede.
#[derive(Drop)]
pub(crate) struct Mended {
    pub(crate) entry: usize,
    pub(crate) safety: Safety,
    /// Its lines, if they are asked for.
    pub(crate) lines: Option<ChangedLines>,
}

impl Mended {
    /// Whether it may be made unseen.
    pub(crate) fn is_safe(&self) -> bool {
        matches!(self.safety, Safety::Safe)
    }
}

/// The changes of a text, in the order of the entries, and what they turn it into.
#[derive(Drop)]
pub(crate) struct Changed {
    pub(crate) changes: Vec<Mended>,
    pub(crate) text: Vec<u8>,
}

/// Keeps what the findings of one file suggest.
#[derive(Drop)]
pub(crate) struct Mender<'t> {
    disk: Disk<'t>,
    /// What is suggested so far, in the order of the entries. Nothing mends a file that Git does not read to its end.
    pub(crate) proposals: Vec<Proposal<'t>>,
}

impl<'t> Mender<'t> {
    /// Keeps texts in the room of these files.
    pub(crate) fn new(alloc: Global, disk: Disk<'t>) -> Mender<'t> {
        Mender {
            disk,
            proposals: Vec::new(alloc),
        }
    }

    /// A text that is kept.
    fn kept(&self, text: Option<&[u8]>) -> Result<Option<&'t [u8]>, AllocError> {
        match text {
            Some(text) => Ok(Some(self.disk.kept(text)?)),
            None => Ok(None),
        }
    }

    /// Takes note of what a finding about a setting suggests, if it suggests anything.
    pub(crate) fn propose(
        &mut self,
        setting: &Setting<'_>,
        finding: &Finding<'_>,
    ) -> Result<(), AllocError> {
        if finding.suggested_key.is_none() && finding.suggested_value.is_none() {
            return Ok(());
        }
        let finding = Finding {
            file: "",
            line: finding.line,
            entry: finding.entry,
            code: finding.code,
            severity: finding.severity,
            key: self.kept(Some(&setting.key))?,
            row: None,
            value: None,
            reason: b"",
            fault: None,
            suggested_key: self.kept(finding.suggested_key)?,
            suggested_value: self.kept(finding.suggested_value)?,
        };
        self.proposals.push(Proposal {
            finding,
            is_guess: false,
        })?;
        Ok(())
    }
}

/// The key of this text as Git lists it.
fn listed(alloc: Global, text: &[u8]) -> Result<Vec<u8>, AllocError> {
    let mut listed = Vec::new(alloc);
    if let Some(key) = Key::split(text) {
        key.push_to(&mut listed)?;
    }
    Ok(listed)
}

/// The key that an entry gets, as Git lists it, if its last part is to change.
fn given(alloc: Global, proposal: &Proposal<'_>) -> Result<Option<Vec<u8>>, AllocError> {
    let finding = &proposal.finding;
    match (
        finding.code,
        finding.key,
        finding.suggested_key,
        finding.suggested_value,
    ) {
        (Code::UnknownKey, Some(key), Some(other), None) if other_name(key, other).is_some() => {
            Ok(Some(listed(alloc, other)?))
        }
        _ => Ok(None),
    }
}

/// The keys that are to be given, and those that several entries are to get.
fn given_twice(
    alloc: Global,
    proposals: &[Proposal<'_>],
) -> Result<(BTreeSet<Vec<u8>>, BTreeSet<Vec<u8>>), AllocError> {
    let mut once = BTreeSet::new(alloc);
    let mut twice = BTreeSet::new(alloc);
    for proposal in proposals {
        let Some(key) = given(alloc, proposal)? else {
            continue;
        };
        if once.contains(&key) {
            twice.insert(key)?;
        } else {
            once.insert(key)?;
        }
    }
    Ok((once, twice))
}

/// The most last parts of keys that an entry is compared with. If there are more, its key costs less to make and to look
/// up.
const FEW_NAMES: usize = 8;

/// The last parts of these keys, each once, or `None` if they are more than a few.
fn few_names<'k>(
    alloc: Global,
    keys: &'k BTreeSet<Vec<u8>>,
) -> Result<Option<Vec<&'k [u8]>>, AllocError> {
    let mut names = Vec::new(alloc);
    for key in keys {
        let Some(key) = Key::split(key) else {
            return Ok(None);
        };
        if names.contains(&key.name()) {
            continue;
        }
        if names.len() == FEW_NAMES {
            return Ok(None);
        }
        names.push(key.name())?;
    }
    Ok(Some(names))
}

/// The keys that entries are to get.
#[derive(Drop)]
struct Wanted<'k> {
    keys: &'k BTreeSet<Vec<u8>>,
    /// Their last parts, if those are few.
    names: Option<Vec<&'k [u8]>>,
}

impl<'k> Wanted<'k> {
    /// These keys.
    fn new(alloc: Global, keys: &'k BTreeSet<Vec<u8>>) -> Result<Wanted<'k>, AllocError> {
        Ok(Wanted {
            keys,
            names: few_names(alloc, keys)?,
        })
    }

    /// Whether one of the keys may be that of an entry, which costs less to tell than to make its key.
    fn may_have(&self, entry: &Entry<'_>) -> bool {
        match &self.names {
            Some(names) => names.iter().any(|name| entry.has_key(name)),
            None => true,
        }
    }

    /// Adds the key of an entry, as Git lists it, to those that are there, if it is one of these. It writes each key
    /// that it makes to `key`.
    fn meet(
        &self,
        alloc: Global,
        entry: &Entry<'_>,
        key: &mut Vec<u8>,
        there: &mut BTreeSet<Vec<u8>>,
    ) -> Result<(), AllocError> {
        if !self.may_have(entry) {
            return Ok(());
        }
        key.clear();
        entry.push_key(key)?;
        if self.keys.contains(&*key) {
            there.insert(key.to_vec(alloc)?)?;
        }
        Ok(())
    }
}

/// What gets the entries of a file, and adds those of the wanted keys that they have.
#[derive(Drop)]
struct Meeting<'w, 'k> {
    alloc: Global,
    wanted: &'w Wanted<'k>,
    /// The last key that was made.
    key: Vec<u8>,
    there: BTreeSet<Vec<u8>>,
}

impl<'t> Receiver<'t> for Meeting<'_, '_> {
    ghost receives = { λ _ _ _. ⊤ };

    fn receive(
        &mut self,
        _scope: Scope,
        _file: &'t [u8],
        entry: &Entry<'t>,
        _form: EntryForm,
    ) -> io::Result<()> {
        Ok(
            self.wanted
                .meet(self.alloc, entry, &mut self.key, &mut self.there)?,
        )
    }
}

/// These keys, and those of the wanted ones that entries of this file, or of what it includes, have.
fn meet_all<'t>(
    alloc: Global,
    disk: &Disk<'t>,
    file: &'t [u8],
    text: &'t [u8],
    wanted: &Wanted<'_>,
    there: BTreeSet<Vec<u8>>,
) -> Result<BTreeSet<Vec<u8>>, AllocError> {
    let mut texts = Vec::new(alloc);
    texts.push(config_search::Text {
        scope: Scope::Local,
        name: file,
        text,
        is_file: true,
    })?;
    let mut reading = Reading::of_texts(alloc, b"", b"", texts, Follows::Everything);
    let mut meeting = Meeting {
        alloc,
        wanted,
        key: Vec::new(alloc),
        there,
    };
    match hand_on(disk, &mut reading, &mut meeting) {
        Err(HereError::Host(_)) => Err(AllocError),
        _ => Ok(meeting.there),
    }
}

/// Calls those of these changes guesses by which an entry gets a key that this file, what it includes, or another of
/// the changes has too: Git would take another value than before.
pub(crate) fn heed_rivals<'t>(
    alloc: Global,
    disk: &Disk<'t>,
    file: &'t [u8],
    text: &'t [u8],
    proposals: &mut Vec<Proposal<'t>>,
) -> Result<(), AllocError> {
    let (once, twice) = given_twice(alloc, proposals)?;
    if once.is_empty() {
        return Ok(());
    }
    let wanted = Wanted::new(alloc, &once)?;
    let rivals = meet_all(alloc, disk, file, text, &wanted, twice)?;
    for proposal in proposals.iter_mut() {
        if let Some(key) = given(alloc, proposal)? {
            proposal.is_guess = rivals.contains(&key);
        }
    }
    Ok(())
}

/// The entries of these changes.
fn changes_of(alloc: Global, mended: &MendedText<'_>) -> Result<Vec<Mended>, AllocError> {
    let mut changes = Vec::new(alloc);
    for mend in &mended.mends {
        changes.push(Mended {
            entry: mend.entry,
            safety: mend.safety,
            lines: None,
        })?;
    }
    Ok(changes)
}

/// What becomes of a text by what is proposed for it: by all of it if guesses are wanted, and else by what is safe.
pub(crate) fn changed_text(
    alloc: Global,
    rows: &[Row<'_>],
    options: &Options<'_>,
    guesses: bool,
    file: &str,
    text: &[u8],
    proposals: &[Proposal<'_>],
) -> Result<Result<Changed, Unchanged>, AllocError> {
    match mend_text(alloc, rows, options, guesses, file, text, proposals) {
        Ok(mended) => Ok(Ok(Changed {
            changes: changes_of(alloc, &mended)?,
            text: mended.text,
        })),
        Err(EditError::Memory(error)) => Err(error),
        Err(EditError::File(error)) => Ok(Err(Unchanged::File(error))),
        Err(_) => Ok(Err(Unchanged::Change)),
    }
}

/// Keeps with each change of this text its lines, and what they become.
pub(crate) fn keep_lines(
    alloc: Global,
    text: &[u8],
    changed: &mut Changed,
) -> Result<(), AllocError> {
    let spans = spans_of(alloc, text, &changed.changes)?;
    let lines = lines_after(alloc, &changed.text, &changed.changes)?;
    for (change, (span, text)) in changed.changes.iter_mut().zip(spans.into_iter().zip(lines)) {
        change.lines = Some(ChangedLines { span, text });
    }
    Ok(())
}

/// Why a file is not changed. It then has its old text.
#[derive(Debug, Drop, Error)]
pub(crate) enum Unchanged {
    #[error("{0}")]
    Lock(LockError),
    #[error("another program has changed it since it was checked")]
    Moved,
    #[error("{0}")]
    File(FileError),
    #[error("a change that no configuration file can have")]
    Change,
}

/// Gives the file of this name, which has this text, its new text.
pub(crate) fn change_file<'t>(
    disk: &Disk<'t>,
    name: &[u8],
    text: &[u8],
    new: &[u8],
) -> Result<(), Unchanged> {
    let locked = match Locked::of(disk, name) {
        Ok(locked) => locked,
        Err(error) => return Err(Unchanged::Lock(error)),
    };
    if locked.text() != text {
        return Err(Unchanged::Moved);
    }
    match locked.commit(new) {
        Ok(()) => Ok(()),
        Err(error) => Err(Unchanged::Lock(error)),
    }
}
