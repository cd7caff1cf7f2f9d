//! A text in which findings are mended.
ghost use Rattle.std.specs.Prelude.{◌≡◌, ◌↔◌, List, map, if◌then◌else◌, IsTrue, IfOk, IfSome, MatchOption};
ghost use Rattle.std.specs.Prelude.{MatchResult};
ghost use Rattle.config_checks.specs.declared.fix.Safety.TheVariants.{Unsafe};
ghost use Rattle.config_checks.specs.declared.mending.Mend.{Mend};
ghost use Rattle.config_checks.specs.declared.setting.Setting.{Setting};
ghost use Rattle.config_checks.specs.Mending.{change_of, IsWanted, IsMend, HasMends, IsMended, RefusesMending};
ghost use Rattle.config_checks.specs.Reading.Steps.{IsSection, HasEntries, AreSettings};
ghost use Rattle.config_checks.specs.Rows.{rows_of};

use crate::finding::Finding;
use crate::fix::{Fix, Judge, Safety, mend_after};
use crate::options::Options;
use crate::row::Row;
use crate::setting::Setting;
use crate::suggestion::SectionFacts;
use config_edit::{Change, EditError, change_entries};
use config_file::entry::Entry;
use config_file::errors::FileError;
use config_file::reader::Entries;
use std::alloc::{AllocError, Global};

/// A finding about an entry of a text, with what is suggested in its place. The example of [`mend_text`] makes one.
#[derive(Drop)]
pub struct Proposal<'f> {
    /// The finding, and the value or the key that is suggested.
    pub finding: Finding<'f>,
    /// Whether its change is a guess whatever it changes, as where another entry has the key that it suggests.
    pub is_guess: bool,
}

/// A change of an entry that mends its finding. The example of [`mend_text`] makes one.
#[derive(Drop)]
pub struct Mend<'f> {
    /// How many entries of the text precede the entry.
    pub entry: usize,
    /// What the entry has from now on.
    pub fix: Fix<'f>,
    /// Whether it can be made unseen.
    pub safety: Safety,
}

/// A text in which findings are mended. The example of [`mend_text`] makes one.
#[derive(Drop)]
pub struct MendedText<'f> {
    /// The new text.
    pub text: Vec<u8>,
    /// The changes that were made, in the order of their entries.
    pub mends: Vec<Mend<'f>>,
}

/// The entries of the file with this name.
#[derive(Drop)]
pub(crate) struct FileEntries<'t> {
    file: &'t str,
    entries: Vec<Entry<'t>>,
}

/// The entries of a file with this name and text, up to its end or to the line that Git cannot read.
fn entries_of<'t>(
    alloc: Global,
    file: &'t str,
    text: &'t [u8],
) -> Result<(FileEntries<'t>, Option<FileError>), AllocError>
    ensures { IfOk result (λ read. HasEntries file.now text.now read.0 read.1) }
{
    let mut entries = Vec::new(alloc);
    for entry in Entries::new(text) {
        match entry {
            Ok(entry) => entries.push(entry)?,
            Err(error) => return Ok((FileEntries { file, entries }, Some(error))),
        }
    }
    Ok((FileEntries { file, entries }, None))
}

/// How safe a proposed change is whose own safety is this one.
fn safety_of(is_guess: bool, safety: Safety) -> Safety
    ensures { result ≡ (if is_guess then Unsafe else safety) }
{
    if is_guess { Safety::Unsafe } else { safety }
}

/// Whether a change is wanted that is as safe as this.
fn is_wanted(guesses: bool, safety: Safety) -> bool
    ensures { IsTrue result ↔ IsWanted guesses safety }
{
    match safety {
        Safety::Safe => true,
        Safety::Unsafe => guesses,
    }
}

/// The change that mends what is proposed for one of these entries, if it is wanted. `last` is what is known of
/// the last section.
fn mend_of<'f>(
    alloc: Global,
    judge: &Judge<'_, '_>,
    options: &Options<'_>,
    guesses: bool,
    read: &FileEntries<'_>,
    proposal: &Proposal<'f>,
    last: &mut Option<SectionFacts>,
) -> Result<Option<Mend<'f>>, AllocError>
    requires { IfSome last.old (IsSection judge.now.backwards.items) }
    ensures change { (settings : List Setting) → AreSettings read.now settings → IfOk result (λ r. MatchOption r
        ((change : Mend)
        → ¬ (IsMend (rows_of judge.now.runs.items) options.now guesses settings proposal.now change))
        (IsMend (rows_of judge.now.runs.items) options.now guesses settings proposal.now)) }
    ensures last { IfSome last.new (IsSection judge.now.backwards.items) }
{
    let Some(before) = proposal.finding.entry else {
        return Ok(None);
    };
    let entry = before as usize;
    let Some(found) = read.entries.get(entry) else {
        return Ok(None);
    };
    let setting = Setting::of_entry(alloc, read.file, found)?;
    let Some((fix, safety)) = mend_after(alloc, judge, options, &setting, &proposal.finding, last)?
    else {
        return Ok(None);
    };
    let safety = safety_of(proposal.is_guess, safety);
    if is_wanted(guesses, safety) {
        return Ok(Some(Mend { entry, fix, safety }));
    }
    Ok(None)
}

/// The wanted changes that mend what is proposed for these entries, in the order of the proposals.
fn mends_of<'f>(
    alloc: Global,
    judge: &Judge<'_, '_>,
    options: &Options<'_>,
    guesses: bool,
    read: &FileEntries<'_>,
    proposals: &[Proposal<'f>],
) -> Result<Vec<Mend<'f>>, AllocError>
    ensures { (settings : List Setting) → AreSettings read.now settings
        → IfOk result (λ mends. HasMends (rows_of judge.now.runs.items) options.now guesses settings
        proposals.now mends.items) }
{
    let mut mends = Vec::new(alloc);
    let mut last = None;
    for proposal in proposals {
        if let Some(change) = mend_of(alloc, judge, options, guesses, read, proposal, &mut last)? {
            mends.push(change)?;
        }
    }
    Ok(mends)
}

/// What becomes of the entry of a change.
fn change_of<'f>(mend: &Mend<'f>) -> Change<'f>
    ensures { result ≡ change_of mend.now }
{
    match mend.fix {
        Fix::Name(name) => Change {
            entry: mend.entry,
            name: Some(name),
            value: None,
            comment: None,
        },
        Fix::Value(value) => Change {
            entry: mend.entry,
            name: None,
            value: Some(value),
            comment: None,
        },
    }
}

/// What becomes of the entries of these changes.
fn changes_of<'f>(alloc: Global, mends: &[Mend<'f>]) -> Result<Vec<Change<'f>>, AllocError>
    ensures { IfOk result (λ changes. changes.items ≡ map change_of mends.now) }
{
    let mut changes = Vec::new(alloc);
    for mend in mends {
        changes.push(change_of(mend))?;
    }
    Ok(changes)
}

/// The text of a file in which all is mended that is proposed, as far as a change can mend it. Only safe changes are
/// made, or guesses too if they are wanted. The proposals are in the order of their entries, one at most for each.
///
/// It fails if memory is refused, if the text is no configuration file, or if no configuration file can have one of the
/// changes.
///
/// ```rust
/// use config_checks::check::{CheckError, Receiver};
/// use config_checks::code::Code;
/// use config_checks::finding::Finding;
/// use config_checks::mending::{Proposal, mend_text};
/// use config_checks::options::Options;
/// use config_checks::reason::Severity;
/// use config_checks::table::read_rows;
/// use config_checks::version::Version;
///
/// let mut rows = Vec::new(alloc);
/// assert!(rt; read_rows(alloc, b"push.default word nothing current", &mut rows).is_ok());
/// let git = Version::read(b"2.55").expect(&rt, "a version");
/// let options = Options { git, canonical: false, users: None };
/// let finding = Finding {
///     file: "f",
///     line: 2,
///     entry: Some(0),
///     code: Code::NotAWord,
///     severity: Severity::Error,
///     key: Some(b"push.default"),
///     row: None,
///     value: Some(b"curent"),
///     reason: b"",
///     fault: None,
///     suggested_key: None,
///     suggested_value: Some(b"current"),
/// };
/// let mut proposals = Vec::new(alloc);
/// proposals.push(Proposal { finding, is_guess: false })?;
/// let text = b"[push]\n\tdefault = curent # mine\n";
/// let mended = mend_text(alloc, &rows, &options, false, "f", text, &proposals).expect(&rt, "a text");
/// assert!(rt; mended.text.as_slice() == b"[push]\n\tdefault = current # mine\n".as_slice());
/// ```
pub fn mend_text<'f>(
    alloc: Global,
    rows: &[Row<'_>],
    options: &Options<'_>,
    guesses: bool,
    file: &str,
    text: &[u8],
    proposals: &[Proposal<'f>],
) -> Result<MendedText<'f>, EditError>
    ensures { MatchResult result
        (λ mended. IsMended rows.now options.now guesses file.now text.now proposals.now mended.mends.items
        mended.text.items)
        (RefusesMending rows.now options.now guesses file.now text.now proposals.now) }
{
    let (read, refused) = entries_of(alloc, file, text)?;
    if let Some(error) = refused {
        return Err(EditError::File(error));
    }
    let judge = Judge::new(alloc, rows)?;
    let mends = mends_of(alloc, &judge, options, guesses, &read, proposals)?;
    let changes = changes_of(alloc, &mends)?;
    match change_entries(alloc, text, &changes) {
        Ok(text) => Ok(MendedText { text, mends }),
        Err(error) => Err(error),
    }
}
