//! Versions of Git.
ghost use Rattle.std.specs.Prelude.{◌↔◌, IsTrue, MatchOption};
ghost use Rattle.config_checks.specs.declared.version.Version as versions;
ghost use Rattle.config_checks.specs.Versions.{IsBefore, IsVersion};

use config_file::key::Key;
use gix_config_value::canonical::TryRead;
use gix_config_value::integer::Amount;

/// A version of Git by its first two numbers: `2.55`, and also `2.55.0`.
///
/// ```rust
/// use config_checks::version::Version;
///
/// let old = Version::read(b"2.39.5").expect(&rt, "a version");
/// let new = Version::read(b"2.51").expect(&rt, "a version");
/// assert!(rt; old.is_before(new));
/// assert!(rt; Version::read(b"2").is_none());
/// ```
#[derive(Clone, Copy, Debug)]
pub struct Version {
    /// The first number.
    pub major: Amount,
    /// The second number.
    pub minor: Amount,
}

impl Version {
    /// Whether this version is older than the other.
    pub fn is_before(self, other: Version) -> bool
        ensures { IsTrue result ↔ IsBefore self other }
    {
        self.major.0 < other.major.0
            || (self.major.0 == other.major.0 && self.minor.0 < other.minor.0)
    }

    /// The version that a text names: two numbers with a dot between them, after which a dot and a number of
    /// the release may follow. Returns `None` for any other text.
    pub fn read(text: &[u8]) -> Option<Version>
        ensures { MatchOption result ((v : versions.Version) → ¬ (IsVersion text.now v))
            (IsVersion text.now) }
    {
        let parts = Key::split(text)?;
        let minor = parts.subsection().unwrap_or(parts.name());
        match Amount::try_read(parts.section()) {
            Ok(major) => match Amount::try_read(minor) {
                Ok(minor) => Some(Version { major, minor }),
                Err(_) => None,
            },
            Err(_) => None,
        }
    }
}
