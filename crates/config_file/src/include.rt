//! The entries that include a file: their conditions.
ghost use Rattle.std.specs.Prelude.{◌↔◌, ◌≡◌, ℕ, List, IsTrue, IfOk, OnOk, option_map, option_copied, map};
ghost use Rattle.std.specs.Prelude.{codes};
ghost use Rattle.std.specs.Char.{to_ascii_lowercase};
ghost use Rattle.config_file.specs.Include as spec;
ghost use Rattle.config_file.specs.Include.{SpellsCondition, IsGitDir, IsOnBranch, HasUrl, Holds};
ghost use Rattle.config_file.specs.Include.{EntryFollows, IsSameName, MatchesBelow, MatchesDir, IsRemoteUrl};
ghost use Rattle.config_file.specs.Include.{Forbids};
ghost use Rattle.config_file.specs.Listing.{IsListed};
ghost use Rattle.config_file.specs.Views.{entry_of};

use crate::entry::Entry;
use crate::key::strip_ignoring_case;
use crate::path::{Directories, expand, joined};
use crate::pattern::matches;
use std::alloc::{AllocError, Global};

/// The condition on which an entry includes its file.
///
/// ```rust
/// use config_file::Condition;
///
/// assert!(rt; Condition::parse(b"onbranch:main") == Condition::OnBranch(b"main"));
/// assert!(rt; Condition::parse(b"OnBranch:main") == Condition::Unknown); // here case counts
/// ```
#[derive(Clone, Copy, PartialEq, Eq, Debug)]
#[non_exhaustive]
pub enum Condition<'c> {
    /// Always: `include.path`.
    Always,
    /// If the pattern matches the git directory: `gitdir:`.
    GitDir(&'c [u8]),
    /// The same, ignoring ASCII case: `gitdir/i:`.
    GitDirIgnoringCase(&'c [u8]),
    /// If the pattern matches the branch: `onbranch:`.
    OnBranch(&'c [u8]),
    /// If the pattern matches the URL of a remote: `hasconfig:remote.*.url:`.
    HasRemoteUrl(&'c [u8]),
    /// A condition that Git does not know, which never holds.
    Unknown,
}

/// The repository that conditions ask about.
///
/// ```rust
/// use config_file::Repository;
///
/// let repository = Repository {
///     real_git_dir: b"/home/ann/work/a/.git",
///     git_dir: b"/home/ann/work/a/.git",
///     branch: Some(b"fix/typo"),
///     real_home: Some(b"/home/ann"),
/// };
/// assert!(rt; repository.is_git_dir(alloc, b"/home/ann", b"~/work/", false)?);
/// assert!(rt; repository.is_on_branch(alloc, b"fix/*")?);
/// assert!(rt; !repository.is_on_branch(alloc, b"fix")?);
/// ```
#[derive(Clone, Copy)]
pub struct Repository<'r> {
    /// The absolute path of the git directory, with its links resolved.
    pub real_git_dir: &'r [u8],
    /// The absolute path of the git directory, with its links kept.
    pub git_dir: &'r [u8],
    /// The name of the branch without `refs/heads/`, or `None` if HEAD is detached.
    pub branch: Option<&'r [u8]>,
    /// The home directory, with its links resolved, for a pattern that begins with `~/`.
    pub real_home: Option<&'r [u8]>,
}

impl<'c> Condition<'c> {
    /// The condition that the subsection of `includeIf` has as its text.
    pub fn parse(text: &'c [u8]) -> Condition<'c>
        ensures { SpellsCondition text.now result }
    {
        if let Some(pattern) = text.strip_prefix(b"gitdir:") {
            return Condition::GitDir(pattern);
        }
        if let Some(pattern) = text.strip_prefix(b"gitdir/i:") {
            return Condition::GitDirIgnoringCase(pattern);
        }
        if let Some(pattern) = text.strip_prefix(b"onbranch:") {
            return Condition::OnBranch(pattern);
        }
        match text.strip_prefix(b"hasconfig:remote.*.url:") {
            Some(pattern) => Condition::HasRemoteUrl(pattern),
            None => Condition::Unknown,
        }
    }
}

/// Appends `**` to the pattern if it ends with `/`, so that it matches everything below.
fn push_below(pattern: &mut Vec<u8>) -> Result<(), AllocError>
    ensures { OnOk result (pattern.new.items ≡ spec.below pattern.old.items) }
{
    if pattern.as_slice().ends_with(b"/") {
        pattern.extend_from_slice(b"**")?;
    }
    Ok(())
}

/// The pattern, with `**/` before it unless it begins with `/`, so that it matches in any directory.
fn anywhere(alloc: Global, pattern: &[u8]) -> Result<Vec<u8>, AllocError>
    ensures { IfOk result (λ whole. whole.items ≡ spec.anywhere pattern.now) }
{
    let mut whole = Vec::new(alloc);
    if !pattern.starts_with(b"/") {
        whole.extend_from_slice(b"**/")?;
    }
    whole.extend_from_slice(pattern)?;
    Ok(whole)
}

/// The pattern, with a `~` that is alone or before `/` replaced by the home directory, if that is known.
#[tactic(auto, using(crate::proofs::Conditions::home_expands, crate::proofs::Conditions::home_unknown))]
fn at_home(alloc: Global, home: Option<&[u8]>, pattern: &[u8]) -> Result<Vec<u8>, AllocError>
    ensures { IfOk result (λ whole. whole.items ≡ spec.at_home (option_copied home.entry) pattern.now) }
{
    let directories = Directories {
        home,
        install_dir: None,
    };
    match expand(pattern, directories) {
        Some(parts) => Ok(joined(alloc, parts.directory, parts.rest)?),
        None => Ok(joined(alloc, b"", pattern)?),
    }
}

/// Whether two names are the same, ignoring ASCII case if `ignores_case` is true.
fn is_same_name(a: &[u8], b: &[u8], ignores_case: bool) -> bool
    ensures { IsTrue result ↔ (IsSameName ignores_case a.now b.now) }
{
    if ignores_case {
        a.eq_ignore_ascii_case(b)
    } else {
        a == b
    }
}

/// Whether the name begins with the directory, and the pattern matches what follows.
fn matches_below(pattern: &[u8], name: &[u8], dir: &[u8], ignores_case: bool) -> bool
    ensures { IsTrue result ↔ (MatchesBelow ignores_case dir.now pattern.now name.now) }
{
    match name.split_at_checked(dir.len()) {
        Some((front, left)) => is_same_name(front, dir, ignores_case)
            && matches(pattern, left, ignores_case),
        None => false,
    }
}

/// Whether the pattern, in a file of this directory, matches the name of a git directory whose name without
/// links is `real`.
#[tactic(auto, using(crate::proofs::Conditions::is_other))]
fn matches_dir(
    alloc: Global,
    dir: &[u8],
    pattern: &[u8],
    real: &[u8],
    name: &[u8],
    ignores_case: bool,
) -> Result<bool, AllocError>
    ensures { IfOk result (λ holds. IsTrue holds
        ↔ (MatchesDir ignores_case dir.now real.now pattern.now name.now)) }
{
    match pattern.strip_prefix(b"./") {
        Some(rest) => {
            if !matches_below(b"/**", real, dir, ignores_case) {
                return Ok(false);
            }
            let mut whole = joined(alloc, b"/", rest)?;
            push_below(&mut whole)?;
            Ok(matches_below(&whole, name, dir, ignores_case))
        }
        None => {
            let mut whole = anywhere(alloc, pattern)?;
            push_below(&mut whole)?;
            Ok(matches(&whole, name, ignores_case))
        }
    }
}

impl Repository<'_> {
    /// Whether the pattern of `gitdir:` matches the git directory. `~` at its start is the home directory, if
    /// that is known, and the `.` of `./` is `real_dir`, the directory of the file that has the pattern, with
    /// its links resolved and no `/` at its end. A pattern with `./` matches only if the git directory, with its
    /// links resolved, is below that directory. It fails only if memory is refused.
    pub fn is_git_dir(
        &self,
        alloc: Global,
        real_dir: &[u8],
        pattern: &[u8],
        ignores_case: bool,
    ) -> Result<bool, AllocError>
        ensures { IfOk result (λ holds. IsTrue holds
            ↔ (IsGitDir ignores_case real_dir.now pattern.now self.now)) }
    {
        let (pattern, real) = (at_home(alloc, self.real_home, pattern)?, self.real_git_dir);
        if matches_dir(alloc, real_dir, &pattern, real, real, ignores_case)? {
            return Ok(true);
        }
        Ok(matches_dir(alloc, real_dir, &pattern, real, self.git_dir, ignores_case)?)
    }

    /// Whether the pattern of `onbranch:` matches the branch, if there is one.
    pub fn is_on_branch(&self, alloc: Global, pattern: &[u8]) -> Result<bool, AllocError>
        ensures { IfOk result (λ holds. IsTrue holds
            ↔ (IsOnBranch pattern.now (option_map (λ branch. branch.now) self.now.branch))) }
    {
        let Some(branch) = self.branch else {
            return Ok(false);
        };
        let mut whole = Vec::new(alloc);
        whole.extend_from_slice(pattern)?;
        push_below(&mut whole)?;
        Ok(matches(&whole, branch, false))
    }
}

/// Whether an entry is the URL of a remote, because Git lists it as `remote.NAME.url`. The case of the
/// section and of the key does not count, and a header like `[remote.name]` has a name too. It may be a key
/// alone, which has no URL: Git crashes there if it looks for URLs.
///
/// ```rust
/// use config_file::{Entries, is_remote_url};
///
/// let mut entries = Entries::new(b"[remote \"origin\"]\n\turl = git@example.org:b\n\tfetch = x");
/// let first = entries.next().expect(&rt, "an entry").expect(&rt, "no error");
/// let second = entries.next().expect(&rt, "an entry").expect(&rt, "no error");
/// assert!(rt; is_remote_url(&first));
/// assert!(rt; !is_remote_url(&second));
/// ```
pub fn is_remote_url(entry: &Entry<'_>) -> bool
    ensures { (text : List ℕ) → IsListed (entry_of entry.now).section (entry_of entry.now).key text
        → (IsTrue result ↔ (IsRemoteUrl (entry_of entry.now))) }
{
    let Some(section) = &entry.section else {
        return false;
    };
    if !entry.key.eq_ignore_ascii_case(b"url") {
        return false;
    }
    match strip_ignoring_case(section.name, b"remote") {
        Some([]) => section.subsection.is_some(),
        Some([first, ..]) => *first == b'.',
        None => false,
    }
}

/// The URLs of remotes, which `hasconfig:remote.*.url:` asks about.
///
/// Git reads all files twice if one has such a condition. The first time the URLs are sought, and the second
/// time they are known. Each time a walk stops at a URL in a file that such a condition includes, directly or
/// not; while the URLs are sought, also in one that any other condition includes.
///
/// ```rust
/// use config_file::Urls;
///
/// let urls: [&[u8]; 2] = [b"git@example.org:b", b"https://example.com/a"];
/// assert!(rt; Urls::Known(&urls).have(b"https://example.com/**"));
/// assert!(rt; !Urls::Known(&urls).have(b"https://example.com/"));
/// assert!(rt; Urls::Sought.have(b"https://example.com/"));
/// ```
#[derive(Clone, Copy)]
pub enum Urls<'r> {
    /// They are being sought, and each such condition holds.
    Sought,
    /// The values of all entries `remote.NAME.url`, in any order.
    Known(&'r [&'r [u8]]),
}

impl Urls<'_> {
    /// Whether the pattern of `hasconfig:remote.*.url:` matches one of the URLs, or they are being sought.
    /// Nothing is added to the pattern, and case counts.
    pub fn have(self, pattern: &[u8]) -> bool
        ensures { IsTrue result ↔ (HasUrl pattern.now self.entry) }
    {
        match self {
            Urls::Sought => true,
            Urls::Known(urls) => urls.iter().any(|url| matches(pattern, url, false)),
        }
    }
}

/// Which includes a walk follows.
///
/// ```rust
/// use config_file::{Condition, Includes, Urls};
///
/// let outside = Includes::AsGit(None, Urls::Known(&[]));
/// assert!(rt; outside.hold(alloc, b"/etc", Condition::Always)?);
/// assert!(rt; !outside.hold(alloc, b"/etc", Condition::OnBranch(b"main"))?);
/// assert!(rt; Includes::All.hold(alloc, b"/etc", Condition::OnBranch(b"main"))?);
/// ```
#[derive(Clone, Copy)]
pub enum Includes<'r> {
    /// None of them.
    Skipped,
    /// Those that Git follows in this repository, or outside of any repository, with these URLs of remotes.
    AsGit(Option<Repository<'r>>, Urls<'r>),
    /// All of them, whatever their conditions.
    All,
}

impl Includes<'_> {
    /// Whether an include on this condition is followed in a file of the directory `real_dir`, which is
    /// written as in [`Repository::is_git_dir`]. It fails only if memory is refused.
    pub fn hold(
        self,
        alloc: Global,
        real_dir: &[u8],
        condition: Condition<'_>,
    ) -> Result<bool, AllocError>
        ensures { IfOk result (λ holds. IsTrue holds ↔ (Holds self.entry real_dir.now condition.entry)) }
    {
        let Includes::AsGit(repository, urls) = self else {
            return Ok(matches!(self, Includes::All));
        };
        if let Condition::Always = condition {
            return Ok(true);
        }
        if let Condition::HasRemoteUrl(pattern) = condition {
            return Ok(urls.have(pattern));
        }
        let Some(repository) = repository else {
            return Ok(false);
        };
        match condition {
            Condition::GitDir(pattern) => Ok(repository.is_git_dir(
                alloc, real_dir, pattern, false,
            )?),
            Condition::GitDirIgnoringCase(pattern) => {
                Ok(repository.is_git_dir(alloc, real_dir, pattern, true)?)
            }
            Condition::OnBranch(pattern) => Ok(repository.is_on_branch(alloc, pattern)?),
            // the last two have returned above
            Condition::Unknown | Condition::Always | Condition::HasRemoteUrl(_) => Ok(false),
        }
    }

    /// Whether an entry with the key `path`, of a file in the directory `real_dir`, includes a file and is
    /// followed.
    pub(crate) fn follow(
        self,
        alloc: Global,
        real_dir: &[u8],
        entry: &Entry<'_>,
    ) -> Result<bool, AllocError>
        requires path { map to_ascii_lowercase entry.now.key.now ≡ codes "path" }
        ensures { IfOk result (EntryFollows self.entry real_dir.now (entry_of entry.now)) }
    {
        let Some(section) = &entry.section else {
            return Ok(false);
        };
        let Some(subsection) = &section.subsection else {
            if !section.name.eq_ignore_ascii_case(b"include") {
                return Ok(false);
            }
            return self.hold(alloc, real_dir, Condition::Always);
        };
        if !section.name.eq_ignore_ascii_case(b"includeif") {
            return Ok(false);
        }
        let mut text = Vec::new(alloc);
        subsection.push_text(&mut text)?;
        self.hold(alloc, real_dir, Condition::parse(&text))
    }

    /// Whether Git allows no URL of a remote in a file that is included on this condition.
    fn forbids_urls(self, condition: Condition<'_>) -> bool
        ensures { result ≡ spec.forbids_urls self.entry condition.entry }
    {
        let Includes::AsGit(_, urls) = self else {
            return false;
        };
        match urls {
            Urls::Sought => true,
            Urls::Known(_) => matches!(condition, Condition::HasRemoteUrl(_)),
        }
    }

    /// Whether Git allows no URL of a remote in the file that an entry includes, because of its condition.
    pub(crate) fn forbid(self, alloc: Global, entry: &Entry<'_>) -> Result<bool, AllocError>
        ensures { IfOk result (Forbids self.entry (entry_of entry.now)) }
    {
        let Some(section) = &entry.section else {
            return Ok(false);
        };
        let Some(subsection) = &section.subsection else {
            return Ok(false);
        };
        let mut text = Vec::new(alloc);
        subsection.push_text(&mut text)?;
        Ok(self.forbids_urls(Condition::parse(&text)))
    }
}
