//! Finds where Git works in a folder, and the files of its scopes.

use crate::disk::Disk;
use crate::environment::HostError;
use crate::error::HereError;
use crate::facts::{kept_stop, search_here};
use crate::names::{answer, exists, known_of, opened_above, path_inside, text_of};
use config_file::{Scope, Why};
use config_search::{Answer, Outcome};
use std::alloc::AllocError;
use std::{fs, io};

/// What Git does if it is started in the folder of this name: an empty one, or `.`, is the current folder. Names of the
/// disk begin in the current folder. It fails if there is no such folder, and whatever else stops Git is in the answer.
///
/// ```rust
/// use bumpalo::Bump;
/// use config_file::Scope;
/// use config_host::Disk;
/// use config_host::repository::{file_of, find};
/// use config_search::Outcome;
///
/// let texts = Bump::new(rt.alloc());
/// let answer = find(&Disk::new(&rt, &texts), b".").expect(&rt, "a folder");
/// assert!(rt; matches!(answer.outcome, Outcome::FindsNone));
/// assert!(rt; matches!(file_of(&answer, Scope::System), Some(name) if name.starts_with(b"/")));
/// assert!(rt; file_of(&answer, Scope::Local).is_none());
/// ```
pub fn find<'t>(disk: &Disk<'t>, name: &[u8]) -> Result<Answer, HereError<'t>> {
    let found = search_here(disk, disk.kept(name)?)?;
    if let Outcome::Stops(stop) = &found.outcome {
        if stop.why == Why::NoFolder {
            return Err(HereError::Stops(kept_stop(disk, stop)?));
        }
    }
    Ok(found)
}

/// Stops where Git does as it looks for the repository.
pub fn check_found<'t>(disk: &Disk<'t>, found: &Answer) -> Result<(), HereError<'t>> {
    match &found.outcome {
        Outcome::Stops(stop) => Err(HereError::Stops(kept_stop(disk, stop)?)),
        _ => Ok(()),
    }
}

/// The same disk, with names that begin where Git works.
pub fn within<'t>(disk: &Disk<'t>, found: &Answer) -> Result<Disk<'t>, HostError> {
    Ok(disk.within(&opened_above(disk.host, &found.folder)?)?)
}

/// The name of the file that `git config` reads and changes for a scope, by `--global` or the like. `None` if there is
/// none, as for the user without a home folder, or for a work tree where none has a file of its own. It is empty if a
/// variable gives it so, and then no file has it.
pub fn file_of(found: &Answer, scope: Scope) -> Option<&[u8]> {
    for file in &found.of_scopes {
        if file.scope == scope {
            return Some(&file.name);
        }
    }
    None
}

/// Whether a folder of the work trees of a repository has one: it has the name of the file `.git` of that tree.
fn is_worktree(host: &HostRuntime, folder: &str) -> io::Result<bool> {
    let name = path_inside(host.alloc(), folder.as_bytes(), b"gitdir")?;
    Ok(match known_of(host, &name)? {
        Some(known) => known.len() > 0,
        None => false,
    })
}

/// Whether a repository has a work tree beside its own one, as `git worktree add` makes it. Its work trees share the
/// folder of this name.
pub fn has_worktrees(disk: &Disk<'_>, common_dir: &[u8]) -> io::Result<bool> {
    let name = path_inside(disk.host.alloc(), common_dir, b"worktrees")?;
    let Ok(opened) = disk.opened_name(&name) else {
        return Ok(false);
    };
    let Some(entries) = answer(fs::read_dir(disk.host, text_of(&opened)?))? else {
        return Ok(false);
    };
    for entry in entries {
        if let Some(entry) = answer(entry)? {
            if is_worktree(disk.host, entry.path().as_str())? {
                return Ok(true);
            }
        }
    }
    Ok(false)
}

/// Whether the system has a file of this name, or opens no file of such a name.
pub(crate) fn is_there(disk: &Disk<'_>, name: &[u8]) -> io::Result<bool> {
    match disk.opened_name(name) {
        Ok(opened) => Ok(str::from_utf8(&opened).is_err() || exists(disk.host, &opened)?),
        Err(_) => Err(io::Error::from(AllocError)),
    }
}
