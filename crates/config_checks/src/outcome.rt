//! The outcome of the checks of several files.
ghost use Rattle.std.specs.Prelude.{◌≡◌, ◌↔◌, IsTrue};
ghost use Rattle.config_checks.specs.Outcome.{counts_of_both, HasAtLeast, IsStatus};

use crate::check::Counts;
use crate::reason::Severity;

/// The counts of the files so far, and whether one of them could not be read.
///
/// ```rust
/// use config_checks::check::Counts;
/// use config_checks::outcome::Outcome;
/// use config_checks::reason::Severity;
///
/// let mut outcome = Outcome::default();
/// outcome.add(Counts { entries: 2, unknown: 0, findings: 1, errors: 1, warnings: 0 });
/// outcome.add(Counts::default()); // a file without a finding
/// assert_eq!(rt; outcome.status(Severity::Error), 1);
/// ```
#[derive(Clone, Copy, Default)]
pub struct Outcome {
    /// The sums of the counts of the files.
    pub counts: Counts,
    /// Whether a file could not be read.
    pub is_unread: bool,
}

impl Outcome {
    /// Adds the counts of a file. A sum that exceeds 64 bits becomes the greatest number of 64 bits.
    pub fn add(&mut self, counts: Counts)
        ensures counts { self.new.counts ≡ counts_of_both self.old.counts counts }
        ensures unread { self.new.is_unread ≡ self.old.is_unread }
    {
        self.counts = Counts {
            entries: self.counts.entries.saturating_add(counts.entries),
            unknown: self.counts.unknown.saturating_add(counts.unknown),
            findings: self.counts.findings.saturating_add(counts.findings),
            errors: self.counts.errors.saturating_add(counts.errors),
            warnings: self.counts.warnings.saturating_add(counts.warnings),
        };
    }

    /// Whether there is a finding of at least this severity.
    pub fn has(&self, least: Severity) -> bool
        ensures { IsTrue result ↔ (HasAtLeast least self.now.counts) }
    {
        match least {
            Severity::Note => self.counts.findings > 0,
            Severity::Warning => self.counts.errors > 0 || self.counts.warnings > 0,
            Severity::Error => self.counts.errors > 0,
        }
    }

    /// The exit status: 2 if a file could not be read, otherwise 1 if there is a finding of at least this
    /// severity, and otherwise 0.
    pub fn status(&self, fails_on: Severity) -> u8
        ensures { IsStatus fails_on self.now.is_unread self.now.counts result }
    {
        if self.is_unread {
            2
        } else if self.has(fails_on) {
            1
        } else {
            0
        }
    }
}
