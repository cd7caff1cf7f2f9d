//! What a search comes to.

use crate::name::joined;
use config_file::{Scope, Stop};
use itoa::Buffer;
use std::alloc::{AllocError, Global};

/// What Git does in a folder.
///
/// ```rust
/// use config_file::Why;
/// use config_search::{Fact, LEADS, Outcome, Search, VARIABLE};
///
/// let mut search = Search::new(alloc, b"gone");
/// for name in ["PWD", "GIT_CONFIG_NOSYSTEM", "GIT_CONFIG_SYSTEM", "GIT_CONFIG_GLOBAL", "XDG_CONFIG_HOME", "HOME"] {
///     search.tell(Fact { name: name.as_bytes(), text: b"", subject: VARIABLE, has: 0 })?; // it is not set
/// }
/// search.tell(Fact { name: b"gone", text: b"", subject: LEADS, has: 0 })?; // there is no such folder
/// let Ok(answer) = search.next() else {
///     panic!(rt; "an answer");
/// };
/// assert_eq!(rt; answer.files[0].name.as_slice(), b"/etc/gitconfig".as_slice());
/// assert!(rt; matches!(answer.outcome, Outcome::Stops(stop) if stop.why == Why::NoFolder));
/// ```
#[derive(Drop)]
pub struct Answer {
    /// The folder in which Git works: the top of the work tree, or the folder itself. It is empty if that is the current
    /// folder of the caller, in which it begins. Names that do not begin with `/` begin in it.
    pub folder: Vec<u8>,
    /// What Git does there.
    pub outcome: Outcome,
    /// The files that Git reads if they are there, in its order. Where it uses no repository, those of the system and of
    /// the user.
    pub files: Vec<Named>,
    /// The file of each scope, in this order, that `git config` reads and changes by `--system`, `--global`, `--local` or
    /// `--worktree`. Without a home folder the user has none, and a work tree has one only where each has one of its own.
    /// A name is empty if a variable gives it so.
    pub of_scopes: Vec<Named>,
}

/// A file of Git, which may be there or not. The example of [`Answer`] shows how it comes.
#[derive(Drop)]
pub struct Named {
    /// Where Git has it from.
    pub scope: Scope,
    /// Its name, as Git shows it.
    pub name: Vec<u8>,
}

/// What Git does once it has looked for a repository. The example of [`Answer`] shows how it comes.
#[derive(Drop)]
pub enum Outcome {
    /// It uses this repository.
    Uses(Repository),
    /// It finds none.
    FindsNone,
    /// It does not use the one that is there.
    Refuses(Refusal),
    /// It stops.
    Stops(Stop<Vec<u8>>),
}

/// The repository that Git uses. The example of [`Answer`] shows how it comes.
#[derive(Drop)]
pub struct Repository {
    /// The path of the git directory from the root, with its links kept.
    pub git_dir: Vec<u8>,
    /// The path of the git directory from the root, with its links resolved.
    pub real_git_dir: Vec<u8>,
    /// The name of the branch that is checked out, without `refs/heads/`, or `None` if HEAD names no branch.
    pub branch: Option<Vec<u8>>,
    /// The name of the git directory, as Git shows it: from the folder in which Git works.
    pub named_dir: Vec<u8>,
    /// The name of the folder that all work trees share, as Git shows it.
    pub common_dir: Vec<u8>,
    /// Whether each work tree has a file of its own.
    pub has_worktree_files: bool,
}

/// Why Git uses no repository although one is there. It then reads no settings of it.
///
/// ```rust
/// use config_search::Refusal;
///
/// let words = Refusal::Version(2).words(alloc)?;
/// assert_eq!(rt; words.as_slice(), b"Expected git repo version <= 1, found 2".as_slice());
/// ```
#[derive(Drop)]
#[non_exhaustive]
pub enum Refusal {
    /// GIT_DIR has this text, which names no git directory.
    GitDir(Vec<u8>),
    /// Its format has this version, and Git knows 0 and 1.
    Version(i32),
    /// Git does not know this extension of version 1. If there are more, this is the first.
    Extension(Vec<u8>),
    /// Its format has version 0, and this extension needs version 1. If there are more, this is the first.
    ExtensionOfLater(Vec<u8>),
    /// This folder, its git directory or the file `.git` belongs to another user, and `safe.directory` does not name the
    /// folder.
    Owner(Vec<u8>),
    /// This is a bare repository, and `safe.bareRepository` says that those have to be named by GIT_DIR.
    Bare(Vec<u8>),
}

impl Refusal {
    /// The reason in Git's words. It fails only if memory is refused.
    pub fn words(&self, alloc: Global) -> Result<Vec<u8>, AllocError> {
        match self {
            Refusal::GitDir(text) => joined(alloc, b"not a git repository: '", text, b"'"),
            Refusal::Version(version) => {
                let mut digits = Buffer::new();
                let version = digits.format(*version).as_bytes();
                joined(
                    alloc,
                    b"Expected git repo version <= 1, found ",
                    version,
                    b"",
                )
            }
            Refusal::Extension(name) => {
                joined(alloc, b"unknown repository extension found: ", name, b"")
            }
            Refusal::ExtensionOfLater(name) => {
                let front = b"repo version is 0, but v1-only extension found: ";
                joined(alloc, front, name, b"")
            }
            Refusal::Owner(folder) => {
                let front = b"detected dubious ownership in repository at '";
                joined(alloc, front, folder, b"'")
            }
            Refusal::Bare(folder) => {
                let behind = b"' (safe.bareRepository is 'explicit')";
                joined(alloc, b"cannot use bare repository '", folder, behind)
            }
        }
    }
}
