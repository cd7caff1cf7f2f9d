//! Decides about each finding whether it is reported, mended or hidden, and writes it.
ghost use Rattle.std.specs.Prelude.{None};

use crate::annotations::put_annotation;
use crate::causes::Cause;
use crate::changes::{Mended, Mender};
use crate::hints::{Hint, hint_for, key_in_order, name_meant, put_slots};
use crate::options::{Format, Ignored, Output, Request, Style};
use crate::sarif::result_of;
use crate::source::{Source, Spot};
use crate::text::{put, put_hint, put_meant, put_number, put_text};
use config_checks::check::{CheckError, Counts, Receiver};
use config_checks::code::{Code, EXPLAINED};
use config_checks::finding::Finding;
use config_checks::fingerprint::{fingerprint, is_known};
use config_checks::json_line::json_text;
use config_checks::key::covers;
use config_checks::outcome::Outcome;
use config_checks::reason::Severity;
use config_checks::row::Row;
use config_checks::setting::Setting;
use config_file::key::Key;
use config_host::text::Text;
use std::alloc::{AllocError, Global};
use std::collections::{BTreeMap, BTreeSet};
use std::io::{self, Write};

/// Why findings are not reported, and how many of them.
#[derive(Clone, Copy, Default)]
pub(crate) struct Hidden {
    /// The counts of those that are not reported.
    pub(crate) outcome: Outcome,
    pub(crate) ignored: u64,
    pub(crate) known: u64,
}

/// The counts of one finding of this severity, about no entry.
pub(crate) fn counts_of(severity: Severity) -> Counts {
    Counts {
        findings: 1,
        errors: u64::from(matches!(severity, Severity::Error)),
        warnings: u64::from(matches!(severity, Severity::Warning)),
        ..Counts::default()
    }
}

impl Hidden {
    /// Counts a finding of this severity that is not reported, since it is ignored or in the baseline.
    fn add(&mut self, severity: Severity, is_ignored: bool) {
        if is_ignored {
            self.ignored = self.ignored.saturating_add(1);
        } else {
            self.known = self.known.saturating_add(1);
        }
        self.outcome.add(counts_of(severity));
    }
}

/// What a run reports of its findings.
#[derive(Drop)]
pub(crate) struct Report<'c> {
    pub(crate) style: Style,
    pub(crate) output: Output,
    pub(crate) ignored: &'c [Ignored<'c>],
    /// The fingerprints of the baseline, if there is one.
    pub(crate) baseline: Option<BTreeSet<String>>,
    pub(crate) hidden: Hidden,
    /// How many findings there were by now, by their fingerprints without their counts.
    seen: BTreeMap<String, u64>,
    /// How many of the findings whose suggestions were collected there were by now, by their fingerprints.
    collected: BTreeMap<String, u64>,
    /// How many findings each code has, in the order of the codes.
    counts: Vec<u64>,
    is_first: bool,
    /// The findings of a text that is changed next, unless they are too many.
    pub(crate) held: Option<Vec<Held>>,
}

/// How many findings a code has.
#[derive(Clone, Copy)]
struct Counted {
    code: Code,
    count: u64,
}

/// The reason of a finding about an entry, with what is known of its value, and the key that is suggested or the slots that
/// rows have.
fn reason_of_entry(
    alloc: Global,
    rows: &[Row<'_>],
    finding: &Finding<'_>,
    hint: &Hint<'_>,
    key: &Option<Vec<u8>>,
) -> Result<Vec<u8>, AllocError> {
    let mut reason = Text::new(alloc);
    reason.put(finding.reason);
    put_hint(&mut reason, hint);
    match key {
        Some(key) => put_meant(&mut reason, key),
        None => put_slots(alloc, &mut reason, rows, finding)?,
    }
    reason.end()
}

/// What is told of a line that Git cannot read: the reason, the cause, and the name that is suggested for its key.
fn reason_of_line(
    alloc: Global,
    finding: &Finding<'_>,
    cause: &Cause,
    meant: Option<&[u8]>,
) -> Result<Vec<u8>, AllocError> {
    let mut reason = Text::new(alloc);
    reason.put(finding.reason);
    if let Some(why) = cause.why {
        put(&mut reason, ": ");
        put(&mut reason, why);
    }
    if let Some(name) = meant {
        put_meant(&mut reason, name);
    }
    reason.end()
}

/// Whether the findings with this code and key are ignored.
fn is_ignored(ignored: &[Ignored<'_>], finding: &Finding<'_>) -> bool {
    let key = finding.key.and_then(|key| Key::split(key));
    for one in ignored {
        let is_this = match (one, &key) {
            (Ignored::Code(code), _) => *code == finding.code,
            (Ignored::Key(ignored), Some(key)) => covers(ignored, key),
            (Ignored::Key(_), None) => false,
        };
        if is_this {
            return true;
        }
    }
    false
}

/// How many findings before this one have the same file, code, key and value, by what was seen so far.
fn equals_before(
    alloc: Global,
    seen: &mut BTreeMap<String, u64>,
    finding: &Finding<'_>,
) -> Result<u64, AllocError> {
    let same = fingerprint(alloc, 0, finding)?;
    let count = match seen.get(&same) {
        Some(count) => *count,
        None => 0,
    };
    match seen.insert(same, count.saturating_add(1)) {
        Ok(_) => Ok(count),
        Err(_) => Err(AllocError),
    }
}

impl<'c> Report<'c> {
    /// A report without a finding so far.
    pub(crate) fn new(
        alloc: Global,
        request: &Request<'c, 'c>,
        baseline: Option<BTreeSet<String>>,
    ) -> Result<Report<'c>, AllocError> {
        let mut counts = Vec::new(alloc);
        counts.resize(EXPLAINED.len(), 0)?;
        Ok(Report {
            style: request.style,
            output: request.output,
            ignored: request.ignored,
            baseline,
            hidden: Hidden::default(),
            seen: BTreeMap::new(alloc),
            collected: BTreeMap::new(alloc),
            counts,
            is_first: true,
            held: None,
        })
    }

    /// Whether fingerprints are asked for.
    fn needs_fingerprints(&self) -> bool {
        self.baseline.is_some() || matches!(self.style.format, Format::Json | Format::Sarif)
    }

    /// Holds the findings to come whose suggestions are collected, unless one may depend on those before.
    pub(crate) fn hold(&mut self, alloc: Global) {
        self.held = if self.needs_fingerprints() {
            None
        } else {
            Some(Vec::new(alloc))
        };
    }

    /// Takes note of a finding that was held. Returns whether it is reported.
    pub(crate) fn counts_held(&mut self, held: &Held) -> bool {
        if held.is_ignored {
            self.hidden.add(held.severity, true);
        } else {
            self.count(held.code);
        }
        !held.is_ignored
    }

    /// Counts a finding of this code that is reported.
    fn count(&mut self, code: Code) {
        for (row, count) in EXPLAINED.iter().zip(self.counts.iter_mut()) {
            if row.code == code {
                *count = count.saturating_add(1);
            }
        }
    }

    /// The lines of `--statistics`: how many findings each code has that has one, the most first.
    pub(crate) fn statistics(&self, alloc: Global) -> Result<Vec<u8>, AllocError> {
        let mut all = Vec::new(alloc);
        for (row, count) in EXPLAINED.iter().zip(self.counts.iter()) {
            all.push(Counted {
                code: row.code,
                count: *count,
            })?;
        }
        all.sort_by_key(|one| u64::MAX - one.count)?;
        let mut text = Text::new(alloc);
        for one in &all {
            if one.count > 0 {
                put_number(&mut text, one.count as usize);
                put(&mut text, "\t");
                put(&mut text, one.code.name());
                put(&mut text, "\n");
            }
        }
        text.end()
    }
}

/// A finding that is written only if its entry is not changed.
#[derive(Drop)]
pub(crate) struct Held {
    pub(crate) entry: Option<u64>,
    pub(crate) code: Code,
    pub(crate) severity: Severity,
    pub(crate) is_ignored: bool,
    pub(crate) text: Vec<u8>,
}

impl Held {
    /// What it counts for.
    pub(crate) fn counts(&self) -> Counts {
        Counts {
            unknown: u64::from(self.code == Code::UnknownKey),
            ..counts_of(self.severity)
        }
    }
}

/// How many findings of one file are held at most.
const MOST_HELD: usize = 10_000;

/// Receives the findings of one file.
#[derive(Drop)]
pub(crate) struct Lines<'l, 's, 'r, 'c, 'k, 'w, 'm, W: Write> {
    pub(crate) alloc: Global,
    /// The rows by which the file is checked.
    pub(crate) rows: &'k [Row<'w>],
    pub(crate) report: &'r mut Report<'c>,
    pub(crate) source: &'s mut Source<'l>,
    /// What keeps the suggestions, if the file may be changed.
    pub(crate) mender: Option<Mender<'m>>,
    /// Whether suggestions are only collected, and nothing is counted or written.
    pub(crate) collects: bool,
    /// What is known of the changes of the findings to come, the last first.
    pub(crate) fixes: Vec<Mended>,
    pub(crate) writer: W,
}

impl<W: Write> Lines<'_, '_, '_, '_, '_, '_, '_, W> {
    /// How many findings before this one have the same file, code, key and value, if that is asked for.
    fn equal(&mut self, finding: &Finding<'_>) -> Result<u64, AllocError> {
        if !self.report.needs_fingerprints() {
            return Ok(0);
        }
        if self.collects {
            return equals_before(self.alloc, &mut self.report.collected, finding);
        }
        equals_before(self.alloc, &mut self.report.seen, finding)
    }

    /// The text of a finding in the format that is wanted.
    fn formatted(
        &mut self,
        finding: &Finding<'_>,
        spot: &Spot<'_>,
        equal: u64,
    ) -> Result<Vec<u8>, AllocError> {
        let mut out = Text::new(self.alloc);
        let fix = self.fix_of(finding.entry);
        let safety = fix.as_ref().map(|fix| fix.safety);
        match self.report.style.format {
            Format::Text => put_text(self.alloc, &mut out, self.report.style, finding, spot)?,
            Format::Json => {
                out.put(&json_text(self.alloc, spot.column, equal, safety, finding)?);
                put(&mut out, "\n");
            }
            Format::Github => put_annotation(self.alloc, &mut out, finding, spot)?,
            Format::Sarif => {
                let print = fingerprint(self.alloc, equal, finding)?;
                put(&mut out, if self.report.is_first { "\n" } else { ",\n" });
                out.put(&result_of(self.alloc, finding, spot, &print, fix.as_ref())?);
                self.report.is_first = false;
            }
        }
        out.end()
    }

    /// The change of a finding about the entry that this many precede. It is not asked for again.
    fn fix_of(&mut self, entry: Option<u64>) -> Option<Mended> {
        let entry = entry? as usize;
        for _ in 0..self.fixes.len() {
            match self.fixes.last() {
                Some(fix) if fix.entry <= entry => {}
                _ => break,
            }
            match self.fixes.pop() {
                Some(fix) if fix.entry == entry => return Some(fix),
                _ => {}
            }
        }
        None
    }

    /// Whether a finding is left out, since it is ignored or in the baseline. It is counted as such.
    fn is_left_out(&mut self, finding: &Finding<'_>, equal: u64) -> Result<bool, AllocError> {
        let is_ignored = is_ignored(self.report.ignored, finding)
            || self.source.leaves_out(finding.code);
        let is_left_out = match &self.report.baseline {
            Some(baseline) if !is_ignored => is_known(self.alloc, baseline, equal, finding)?,
            _ => is_ignored,
        };
        if is_left_out && !self.collects {
            self.report.hidden.add(finding.severity, is_ignored);
        }
        Ok(is_left_out)
    }

    /// Holds a finding, unless too many are held.
    fn hold(
        &mut self,
        finding: &Finding<'_>,
        spot: &Spot<'_>,
        is_ignored: bool,
    ) -> Result<(), AllocError> {
        let Some(mut held) = self.report.held.take() else {
            return Ok(());
        };
        if held.len() >= MOST_HELD {
            return Ok(());
        }
        held.push(Held {
            entry: finding.entry,
            code: finding.code,
            severity: finding.severity,
            is_ignored,
            text: self.formatted(finding, spot, 0)?,
        })?;
        self.report.held = Some(held);
        Ok(())
    }

    /// What is written about a finding, with all that is told of it: nothing if it is left out, or if
    /// suggestions are collected. `mended` is its setting if its change is sure: nothing else is as near as the value that is
    /// suggested.
    fn text_for(
        &mut self,
        finding: &Finding<'_>,
        spot: &Spot<'_>,
        mended: Option<&Setting<'_>>,
    ) -> Result<Vec<u8>, AllocError> {
        let equal = self.equal(finding)?;
        let is_left_out = self.is_left_out(finding, equal)?;
        if self.collects {
            self.hold(finding, spot, is_left_out)?;
        }
        if is_left_out {
            return Ok(Vec::new(self.alloc));
        }
        if let (Some(mender), Some(setting)) = (&mut self.mender, mended) {
            mender.propose(setting, finding)?;
        }
        if self.collects {
            return Ok(Vec::new(self.alloc));
        }
        self.report.count(finding.code);
        match self.report.output {
            Output::Findings | Output::Fixed => self.formatted(finding, spot, equal),
            Output::Diff | Output::Statistics => Ok(Vec::new(self.alloc)),
        }
    }

    /// What is written about a finding of an entry.
    fn text_for_entry(
        &mut self,
        setting: &Setting<'_>,
        finding: &Finding<'_>,
    ) -> Result<Vec<u8>, AllocError> {
        let hint = hint_for(self.alloc, self.rows, finding)?;
        let key = key_in_order(self.alloc, self.rows, finding)?;
        let spot = self.source.spot(finding, hint.wrong);
        let reason = reason_of_entry(self.alloc, self.rows, finding, &hint, &key)?;
        let mended = if hint.is_sure { Some(setting) } else { None };
        let mut whole = Finding {
            line: spot.number,
            reason: &reason,
            ..*finding
        };
        if let Some(meant) = &hint.meant {
            whole.suggested_value = Some(meant);
        }
        if let Some(key) = &key {
            whole.suggested_key = Some(key);
        }
        self.text_for(&whole, &spot, mended)
    }

    /// What is written about a line that Git cannot read. Nothing of its file is changed.
    fn text_for_line(&mut self, finding: &Finding<'_>) -> Result<Vec<u8>, AllocError> {
        let cause = Cause::of(self.source.text);
        let spot = self.source.spot_of_cause(finding.line, &cause);
        let meant = name_meant(self.alloc, self.rows, self.source.text, cause.at)?;
        let reason = reason_of_line(self.alloc, finding, &cause, meant)?;
        let whole = Finding {
            reason: &reason,
            ..*finding
        };
        if let Some(mender) = &mut self.mender {
            mender.proposals.clear();
        }
        self.text_for(&whole, &spot, None)
    }

    /// Writes what is still held.
    pub(crate) fn flush(&mut self) -> io::Result<()> {
        self.writer.flush()
    }
}

impl<W: Write> Receiver for Lines<'_, '_, '_, '_, '_, '_, '_, W> {
    ghost received = { λ _. None };

    /// Writes what is to be written about a finding.
    fn receive(
        &mut self,
        setting: Option<&Setting<'_>>,
        finding: &Finding<'_>,
    ) -> Result<(), CheckError> {
        let text = match setting {
            Some(setting) => self.text_for_entry(setting, finding),
            None => self.text_for_line(finding),
        };
        match text {
            Ok(text) => self.writer.write_all(&text).map_err(CheckError::Write),
            Err(error) => Err(CheckError::Memory(error)),
        }
    }
}
