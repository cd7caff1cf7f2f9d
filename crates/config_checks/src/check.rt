//! Checks the settings of a file, and hands on each finding.
ghost use Rattle.std.specs.Prelude.{◌≡◌, ◌==◌, ◌∷◌, [], List, Option, if◌then◌else◌, OnOk, OnErr, IfOk};
ghost use Rattle.std.specs.Prelude.{IfSome, Some, option_copied};
ghost use Rattle.config_file.specs.Key.{IsCut};
ghost use Rattle.config_file.specs.KeyView.{key_of};
ghost use Rattle.config_checks.specs.Findings.{Finding, finding_of};
ghost use Rattle.config_checks.specs.Report.{counted, counts_shown, reason_finding, IsAbout, Receives};
ghost use Rattle.config_checks.specs.Report.{Completes, Fails};
ghost use Rattle.config_checks.specs.Rows.{rows_of, IsUnknown};
ghost use Rattle.config_checks.specs.Reading.Steps.{HasRoom, HasRoomForFinding, Reports, IsKept, IsSection, AreMarked};
ghost use Rattle.config_checks.specs.Reading.Steps.{said_findings, is_reported, ReportsError, ReportsEntries};
ghost use Rattle.config_checks.specs.Reading.Steps.{IsFirstRun};

use crate::code::Code;
use crate::finding::{
    Finding, bytes_of, fault_of, instead_of, key_meant, push_reason, reason_shown, value_meant,
    value_of,
};
use crate::lookup::runs_of;
use crate::marks::{marked_row_for, marks_of};
use crate::options::Options;
use crate::reason::{Reason, Severity, find};
use crate::row::{Row, Run};
use crate::setting::Setting;
use crate::suggestion::{
    SectionFacts, push_unknown, recalled_section, unknown_in, unknown_severity,
};
use config_file::errors::FileError;
use config_file::key::Key;
use config_file::reader::Entries;
use std::alloc::{AllocError, Global};
use std::{fmt, io};

/// Why a check failed.
///
/// ```rust
/// use config_checks::check::CheckError;
/// use std::alloc::AllocError;
///
/// let text = match CheckError::Memory(AllocError) {
///     CheckError::Write(_) => "the output cannot be written",
///     CheckError::Memory(_) => "no memory",
/// };
/// assert_eq!(rt; text, "no memory");
/// ```
#[derive(Drop)]
pub enum CheckError {
    /// What receives the findings could not write one.
    Write(io::Error),
    /// There was no memory to look up a row or a suggestion, for a setting, or for a finding.
    Memory(AllocError),
}

/// What receives the findings of a check, one after the other.
///
/// ```rust
/// use config_checks::check::{CheckError, Receiver};
/// use config_checks::finding::Finding;
/// use config_checks::setting::Setting;
///
/// /// Counts findings.
/// #[derive(Drop)]
/// struct Count(u64);
///
/// impl Receiver for Count {
///     ghost received = { λ _. None };
///
///     fn receive(&mut self, _: Option<&Setting<'_>>, _: &Finding<'_>) -> Result<(), CheckError> {
///         self.0 = self.0.saturating_add(1);
///         Ok(())
///     }
/// }
/// ```
pub trait Receiver {
    /// The findings that it has received, if they are known.
    ghost received: { Self → Option (List Finding) };

    /// Receives one more finding, and the setting that it is about if it is about one. An error ends the check,
    /// and the finding does not count as received.
    fn receive(
        &mut self,
        setting: Option<&Setting<'_>>,
        finding: &Finding<'_>,
    ) -> Result<(), CheckError>
        requires { IsAbout (option_copied setting) (finding_of finding.now) }
        ensures ok { OnOk result
            (Receives (received self.old) (received self.new) (finding_of finding.now ∷ [])) }
        ensures err { OnErr result (Receives (received self.old) (received self.new) []) };
}

/// The counts of a check.
///
/// ```rust
/// use config_checks::check::Counts;
///
/// let counts = Counts { entries: 3, unknown: 1, findings: 1, errors: 1, warnings: 0 };
/// let text = format!(in alloc; "{counts}")?;
/// assert_eq!(rt; text.as_str(), "3 entries, 2 judged, 1 unknown key, 1 finding");
/// ```
#[derive(Clone, Copy, Default)]
pub struct Counts {
    /// The number of entries.
    pub entries: u64,
    /// The number of entries that no row covers.
    pub unknown: u64,
    /// The number of findings: at most one for each entry, and one for a line that Git cannot read.
    pub findings: u64,
    /// The number of findings that are errors.
    pub errors: u64,
    /// The number of findings that are warnings.
    pub warnings: u64,
}

impl Counts {
    /// These counts with one more finding of this severity.
    fn with(self, severity: Severity) -> Counts
        requires { HasRoomForFinding self }
        ensures { result ≡ counted severity self }
    {
        let findings = self.findings + 1;
        match severity {
            Severity::Error => Counts {
                findings,
                errors: self.errors + 1,
                ..self
            },
            Severity::Warning => Counts {
                findings,
                warnings: self.warnings + 1,
                ..self
            },
            Severity::Note => Counts { findings, ..self },
        }
    }
}

/// The first text if the count is one, and otherwise the second.
fn plural(count: u64, one: &'static str, several: &'static str) -> &'static str
    ensures { result.now ≡ (if count == 1 then one.now else several.now) }
{
    if count == 1 { one } else { several }
}

impl fmt::Display for Counts {
    ghost output = { λ s. Some (counts_shown s) };

    /// Writes the counts in the form of the last line of `config_check`.
    fn fmt<W: fmt::Write>(&self, f: &mut fmt::Formatter<W>) -> fmt::Result {
        let judged = self.entries.saturating_sub(self.unknown);
        write!(
            f,
            "{}{}{} judged, {}{}{}{}",
            self.entries,
            plural(self.entries, " entry, ", " entries, "),
            judged,
            self.unknown,
            plural(self.unknown, " unknown key, ", " unknown keys, "),
            self.findings,
            plural(self.findings, " finding", " findings"),
        )
    }
}

/// Hands on that a setting is wrong, or should be spelled in another way, for this reason of its row. `before`
/// is how many entries precede it.
fn give_reason<R: Receiver>(
    alloc: Global,
    before: u64,
    setting: &Setting<'_>,
    row: &Row<'_>,
    reason: &Reason<'_, '_>,
    receiver: &mut R,
) -> Result<(), CheckError>
    ensures ok { OnOk result (Receives (R.received receiver.old) (R.received receiver.new)
        (reason_finding before setting.now row.now reason.now ∷ [])) }
    ensures err { OnErr result (Receives (R.received receiver.old) (R.received receiver.new) []) }
{
    let mut text = Vec::new(alloc);
    push_reason(&mut text, reason).map_err(CheckError::Memory)?;
    let finding = Finding {
        file: setting.file,
        line: setting.line,
        entry: Some(before),
        code: reason.code(),
        severity: reason.severity(row.goes_on),
        key: Some(&setting.key),
        row: Some(row.key),
        value: value_of(setting),
        reason: &text,
        fault: fault_of(reason),
        suggested_key: instead_of(reason),
        suggested_value: value_meant(reason),
    };
    receiver.receive(Some(setting), &finding)
}

/// What is said of a key that no row covers. The last one is kept, since many settings may have one key, or
/// keys of one section.
#[derive(Drop)]
struct Said {
    key: Vec<u8>,
    /// The text of the reason, if the key is reported.
    reason: Option<Vec<u8>>,
    /// The key that is suggested, if there is one.
    meant: Option<Vec<u8>>,
    /// What is known of a section, which is mostly that of the key.
    section: Option<SectionFacts>,
}

/// What is said of a key that no row covers, with these parts.
fn said_of_parts(
    alloc: Global,
    runs: &[Run<'_, '_>],
    marks: &[bool],
    key: &[u8],
    parts: &Key<'_>,
    section: SectionFacts,
) -> Result<Said, AllocError>
    requires marked { AreMarked (rows_of runs.now) marks.now }
    requires unknown { IsUnknown (rows_of runs.now) key.now }
    requires parts { IsCut key.now (key_of parts.now) }
    requires section { IsSection runs.now section }
    requires same { section.name.items ≡ (key_of parts.now).section }
    ensures { IfOk result (λ said. (said.key.items ≡ key.now) × IsKept runs.now said) }
{
    let copy = key.to_vec(alloc)?;
    match unknown_in(alloc, runs, marks, &section, parts)? {
        Some(unknown) => {
            let mut text = Vec::new(alloc);
            push_unknown(&mut text, &unknown)?;
            let meant = key_meant(alloc, &unknown)?;
            Ok(Said {
                key: copy,
                reason: Some(text),
                meant,
                section: Some(section),
            })
        }
        None => Ok(Said {
            key: copy,
            reason: None,
            meant: None,
            section: Some(section),
        }),
    }
}

/// What is said of a key that no row covers. `last` is what is known of the last section.
fn said_of(
    alloc: Global,
    runs: &[Run<'_, '_>],
    marks: &[bool],
    key: &[u8],
    last: Option<SectionFacts>,
) -> Result<Said, AllocError>
    requires marked { AreMarked (rows_of runs.now) marks.now }
    requires unknown { IsUnknown (rows_of runs.now) key.now }
    requires last { IfSome last (IsSection runs.now) }
    ensures { IfOk result (λ said. (said.key.items ≡ key.now) × IsKept runs.now said) }
{
    let Some(parts) = Key::split(key) else {
        return Ok(Said {
            key: key.to_vec(alloc)?,
            reason: None,
            meant: None,
            section: last,
        });
    };
    let section = recalled_section(alloc, runs, parts.section(), last)?;
    said_of_parts(alloc, runs, marks, key, &parts, section)
}

/// What is said of a key that no row covers. It is what was said last, if that was of this key.
fn recalled(
    alloc: Global,
    runs: &[Run<'_, '_>],
    marks: &[bool],
    key: &[u8],
    last: Option<Said>,
) -> Result<Said, AllocError>
    requires marked { AreMarked (rows_of runs.now) marks.now }
    requires unknown { IsUnknown (rows_of runs.now) key.now }
    requires last { IfSome last (IsKept runs.now) }
    ensures { IfOk result (λ said. (said.key.items ≡ key.now) × IsKept runs.now said) }
{
    match last {
        Some(said) if said.key.as_slice() == key => Ok(said),
        Some(said) => said_of(alloc, runs, marks, key, said.section),
        None => said_of(alloc, runs, marks, key, None),
    }
}

/// Hands on what is said of the unknown key of a setting, which `before` entries precede, and returns whether
/// there is anything.
fn give_said<'f, R: Receiver>(
    before: u64,
    setting: &'f Setting<'_>,
    said: &'f Said,
    receiver: &mut R,
) -> Result<bool, CheckError>
    ensures ok { OnOk result (Receives (R.received receiver.old) (R.received receiver.new)
        (said_findings before setting.now said.now)) }
    ensures reported { IfOk result (λ told. told ≡ is_reported said.now) }
    ensures err { OnErr result (Receives (R.received receiver.old) (R.received receiver.new) []) }
{
    let Some(reason) = &said.reason else {
        return Ok(false);
    };
    let suggested_key = bytes_of(&said.meant);
    let finding = Finding {
        file: setting.file,
        line: setting.line,
        entry: Some(before),
        code: Code::UnknownKey,
        severity: unknown_severity(&setting.key),
        key: Some(&setting.key),
        row: None,
        value: None,
        reason,
        fault: None,
        suggested_key,
        suggested_value: None,
    };
    receiver.receive(Some(setting), &finding)?;
    Ok(true)
}

/// How far a check has come: its counts, what it said last of an unknown key, and the place of the first run of the last
/// section.
#[derive(Drop)]
struct Progress {
    counts: Counts,
    last: Option<Said>,
    near: usize,
}

/// Counts a setting, and hands on its finding if it has one.
fn report<R: Receiver>(
    alloc: Global,
    runs: &[Run<'_, '_>],
    marks: &[bool],
    options: &Options<'_>,
    setting: &Setting<'_>,
    progress: Progress,
    receiver: &mut R,
) -> Result<Progress, CheckError>
    requires marked { AreMarked (rows_of runs.now) marks.now }
    requires room { HasRoom progress.counts }
    requires last { IfSome progress.last (IsKept runs.now) }
    requires near { IsFirstRun runs.now progress.near }
    ensures ok { IfOk result (λ after. Reports (rows_of runs.now) options.now setting.now
        progress.counts after.counts (R.received receiver.old) (R.received receiver.new)) }
    ensures last { IfOk result (λ after. IfSome after.last (IsKept runs.now)) }
    ensures near { IfOk result (λ after. IsFirstRun runs.now after.near) }
    ensures err { OnErr result (Receives (R.received receiver.old) (R.received receiver.new) []) }
{
    let Progress {
        counts,
        last,
        mut near,
    } = progress;
    let before = counts.entries;
    let mut counts = Counts {
        entries: counts.entries + 1,
        ..counts
    };
    let Some(row) = marked_row_for(runs, marks, &mut near, &setting.key) else {
        counts.unknown += 1;
        let said = match recalled(alloc, runs, marks, &setting.key, last) {
            Ok(said) => said,
            Err(error) => return Err(CheckError::Memory(error)),
        };
        let severity = unknown_severity(&setting.key);
        if give_said(before, setting, &said, receiver)? {
            counts = counts.with(severity);
        }
        return Ok(Progress {
            counts,
            last: Some(said),
            near,
        });
    };
    let value = value_of(setting);
    match find(alloc, options, row, value) {
        Ok(Some(reason)) => {
            give_reason(alloc, before, setting, row, &reason, receiver)?;
            let counts = counts.with(reason.severity(row.goes_on));
            Ok(Progress { counts, last, near })
        }
        Ok(None) => Ok(Progress { counts, last, near }),
        Err(error) => Err(CheckError::Memory(error)),
    }
}

/// Hands on the findings of the entries of a file, up to the line that Git cannot read, if there is one.
/// Returns the counts, and the error of that line.
fn report_entries<R: Receiver>(
    alloc: Global,
    runs: &[Run<'_, '_>],
    marks: &[bool],
    options: &Options<'_>,
    file: &str,
    text: &[u8],
    receiver: &mut R,
) -> Result<(Counts, Option<FileError>), CheckError>
    requires { AreMarked (rows_of runs.now) marks.now }
    ensures ok { IfOk result (λ reported. ReportsEntries (rows_of runs.now) options.now file.now text.now
        (R.received receiver.old) (R.received receiver.new) reported.0 reported.1) }
    ensures err { OnErr result (Fails (rows_of runs.now) options.now file.now text.now
        (R.received receiver.old) (R.received receiver.new)) }
    ensures room { IfOk result (λ reported. HasRoomForFinding reported.0) }
{
    let mut progress = Progress {
        counts: Counts::default(),
        last: None,
        near: 0,
    };
    for entry in Entries::new(text) {
        let entry = match entry {
            Ok(entry) => entry,
            Err(error) => return Ok((progress.counts, Some(error))),
        };
        let setting = match Setting::of_entry(alloc, file, &entry) {
            Ok(setting) => setting,
            Err(error) => return Err(CheckError::Memory(error)),
        };
        progress = report(alloc, runs, marks, options, &setting, progress, receiver)?;
    }
    Ok((progress.counts, None))
}

/// If a file is refused, hands on the line of its error, and counts it as a finding.
fn tell<R: Receiver>(
    file: &str,
    refused: Option<FileError>,
    counts: Counts,
    receiver: &mut R,
) -> Result<Counts, CheckError>
    requires { HasRoomForFinding counts }
    ensures ok { IfOk result (λ after. ReportsError file.now refused counts after
        (R.received receiver.old) (R.received receiver.new)) }
    ensures err { OnErr result (Receives (R.received receiver.old) (R.received receiver.new) []) }
{
    let Some(error) = refused else {
        return Ok(counts);
    };
    let finding = Finding {
        file,
        line: error.line,
        entry: None,
        code: Code::InvalidLine,
        severity: Severity::Error,
        key: None,
        row: None,
        value: None,
        reason: reason_shown(error.why).as_bytes(),
        fault: None,
        suggested_key: None,
        suggested_value: None,
    };
    receiver.receive(None, &finding)?;
    Ok(counts.with(Severity::Error))
}

/// Checks a file with this name and this text. It hands on each finding, in the order of the entries, and
/// returns the counts. A line that Git cannot read is also a finding, and the last one.
///
/// Errors:
/// - `Write`: what receives the findings could not write one.
/// - `Memory`: there was no memory to look up a row or a suggestion, for a setting, or for a finding.
///
/// What was received before an error are the first findings of the file.
///
/// The clauses are about receivers whose findings the prover knows. It does not know what standard output
/// shows, but `check_file` does the same with every receiver.
///
/// ```rust
/// use config_checks::check::{CheckError, Receiver, check_file};
/// use config_checks::finding::Finding;
/// use config_checks::options::Options;
/// use config_checks::setting::Setting;
/// use config_checks::table::read_rows;
/// use config_checks::version::Version;
///
/// /// Holds the reasons.
/// #[derive(Drop)]
/// struct Reasons(Vec<u8>);
///
/// impl Receiver for Reasons {
///     ghost received = { λ _. None };
///
///     fn receive(&mut self, _: Option<&Setting<'_>>, finding: &Finding<'_>) -> Result<(), CheckError> {
///         self.0.extend_from_slice(finding.reason).map_err(CheckError::Memory)
///     }
/// }
///
/// let mut rows = Vec::new(alloc);
/// assert!(rt; read_rows(alloc, b"push.default word nothing current", &mut rows).is_ok());
/// let git = Version::read(b"2.55").expect(&rt, "a version");
/// let options = Options { git, canonical: false, users: None };
/// let mut reasons = Reasons(Vec::new(alloc));
/// let checked = check_file(alloc, &rows, &options, "f", b"[push]\ndefault = maybe", &mut reasons);
/// assert!(rt; checked.is_ok_and(|counts| counts.findings == 1));
/// assert_eq!(rt; reasons.0.as_slice(), b"not one of: nothing, current".as_slice());
/// ```
pub fn check_file<R: Receiver>(
    alloc: Global,
    rows: &[Row<'_>],
    options: &Options<'_>,
    file: &str,
    text: &[u8],
    receiver: &mut R,
) -> Result<Counts, CheckError>
    ensures completes { IfOk result (Completes rows.now options.now file.now text.now
        (R.received receiver.old) (R.received receiver.new)) }
    ensures fails { OnErr result (Fails rows.now options.now file.now text.now
        (R.received receiver.old) (R.received receiver.new)) }
{
    let runs = match runs_of(alloc, rows) {
        Ok(runs) => runs,
        Err(error) => return Err(CheckError::Memory(error)),
    };
    let marks = match marks_of(alloc, rows) {
        Ok(marks) => marks,
        Err(error) => return Err(CheckError::Memory(error)),
    };
    let (counts, refused) = report_entries(alloc, &runs, &marks, options, file, text, receiver)?;
    tell(file, refused, counts, receiver)
}
