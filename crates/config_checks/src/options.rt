//! The options of a check.

use crate::paths::KnownUsers;
use crate::version::Version;

/// The options of a check.
///
/// ```rust
/// use config_checks::options::Options;
/// use config_checks::version::Version;
///
/// let git = Version::read(b"2.39").expect(&rt, "a version");
/// let options = Options { git, canonical: true, users: None }; // also reports `yes`, which should be `true`
/// ```
#[derive(Clone, Copy)]
pub struct Options<'u> {
    /// The version of Git by whose rows values are judged.
    pub git: Version,
    /// Whether valid values are also reported if they should be spelled in another way.
    pub canonical: bool,
    /// The users whose home directories paths may begin with. If none are known, each path is right.
    pub users: Option<KnownUsers<'u>>,
}
