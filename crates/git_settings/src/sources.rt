//! Opens the texts that a request reads.

use crate::output::{Place, Unfiled, tell, tell_error, tell_line, tell_place};
use crate::request::{Request, Texts};
use bumpalo::Bump;
use config_answers::line::{INPUT, Origin};
use config_file::{Scope, Stop, Why};
use config_host::disk::ReadError;
use config_host::environment::variable;
use config_host::repository::{check_found, file_of, find, has_worktrees, within};
use config_host::{Disk, HereError};
use config_search::{Answer, Follows, Outcome, Reading, Repository, Text};
use std::alloc::{AllocError, Global};
use std::io;

/// What a request reads, where nothing is read yet.
#[derive(Drop)]
pub struct Opened<'t> {
    /// The files by which it is read.
    pub disk: Disk<'t>,
    /// The reading.
    pub reading: Reading<'t>,
    /// Which of its texts are no files.
    pub unfiled: Unfiled,
}

/// Where each text is a file.
pub const FILES: Unfiled = Unfiled {
    command: false,
    input: false,
};

/// The settings of GIT_CONFIG_PARAMETERS, and behind them these.
fn parameters_with(rt: &HostRuntime, commands: &[u8]) -> Result<Vec<u8>, AllocError> {
    match variable(rt, "GIT_CONFIG_PARAMETERS")? {
        Some(mut parameters) if !parameters.is_empty() => {
            parameters.push(b' ')?;
            parameters.extend_from_slice(commands)?;
            Ok(parameters)
        }
        _ => commands.to_vec(rt.alloc()),
    }
}

/// The files of the system, where these settings of the command line, in the form of GIT_CONFIG_PARAMETERS, are behind
/// those of that variable.
pub fn disk_of<'t>(
    rt: &'t HostRuntime,
    texts: &'t Bump,
    commands: &[u8],
) -> Result<Disk<'t>, AllocError> {
    let disk = Disk::new(rt, texts);
    if commands.is_empty() {
        return Ok(disk);
    }
    disk.with_parameters(&parameters_with(rt, commands)?)
}

/// Tells where Git stops, and why. Some texts are no files.
pub fn tell_stop(rt: &HostRuntime, unfiled: Unfiled, stop: Stop<&[u8]>) {
    let why: &[u8] = match stop.why {
        Why::BadLine => b"",
        Why::Nul => b": a NUL byte outside a comment",
        _ => return tell_place(rt, stop),
    };
    let place = Place {
        origin: if unfiled.input && stop.file == INPUT {
            Origin::Input
        } else {
            Origin::File
        },
        scope: Scope::Command,
        file: stop.file,
        line: stop.line,
    };
    tell_line(rt, &place, why);
}

/// The text of a file, or of standard input.
fn read_text<'t>(
    rt: &HostRuntime,
    disk: &Disk<'t>,
    name: &[u8],
    is_file: bool,
) -> Result<&'t [u8], ReadError> {
    if is_file {
        return disk.text_of(name);
    }
    disk.text(rt.stdin(), None)
}

/// The text of this name, if it is read. As in Git, a list of its entries fails if it cannot be read, and otherwise the file
/// counts as empty.
fn open<'t>(
    rt: &HostRuntime,
    request: &Request<'_>,
    disk: &Disk<'t>,
    name: &'t [u8],
    is_file: bool,
) -> Result<Option<&'t [u8]>, HereError<'t>> {
    match read_text(rt, disk, name, is_file) {
        Ok(text) => Ok(Some(text)),
        Err(error) if error.is_memory() => Err(HereError::from(AllocError)),
        Err(error) if request.lists() => Err(HereError::Stops(disk.stop(name, &error)?)),
        Err(error) => {
            if !error.is_missing() {
                tell_error(rt, [b"warning: unable to access '", name, b"': "], error);
            }
            Ok(None)
        }
    }
}

/// This text alone.
fn one<'t>(alloc: Global, text: Text<'t>) -> Result<Vec<Text<'t>>, AllocError> {
    let mut texts = Vec::new(alloc);
    texts.push(text)?;
    Ok(texts)
}

/// A reading of the text of this name, whose entries have this scope. Names begin in the folder `start`.
fn open_text<'t>(
    rt: &HostRuntime,
    request: &Request<'_>,
    disk: Disk<'t>,
    start: &'t [u8],
    scope: Scope,
    name: &'t [u8],
    is_file: bool,
) -> Result<Opened<'t>, HereError<'t>> {
    let alloc = rt.alloc();
    let texts = match open(rt, request, &disk, name, is_file)? {
        Some(text) => one(
            alloc,
            Text {
                scope,
                name,
                text,
                is_file,
            },
        )?,
        None => Vec::new(alloc),
    };
    Ok(Opened {
        disk,
        reading: Reading::of_texts(alloc, b"", start, texts, followed(request)),
        unfiled: Unfiled {
            command: false,
            input: !is_file,
        },
    })
}

/// Which includes a request follows.
fn followed(request: &Request<'_>) -> Follows {
    if request.follows {
        Follows::AsGit
    } else {
        Follows::Nothing
    }
}

/// Tells that there is no file of a scope here.
fn tell_no_file(rt: &HostRuntime, scope: Scope) {
    match scope {
        Scope::Local | Scope::Worktree => {
            let end = b" can only be used inside a git repository";
            tell(rt, &[b"fatal: --", scope.name().as_bytes(), end]);
        }
        _ => tell(rt, &[b"fatal: $HOME not set"]),
    }
}

/// What Git says of a file of one work tree of several that have none of their own.
const SHARED: &[u8] = b"\
fatal: --worktree cannot be used with multiple working trees unless the config
extension worktreeConfig is enabled. Please read \"CONFIGURATION FILE\"
section in \"git help worktree\" for details";

/// The scope of the file that `--worktree` names. Without files of its own a work tree has that of the repository, but
/// if another one shares it, it has none, which is told.
fn scope_of_worktree(
    rt: &HostRuntime,
    disk: &Disk<'_>,
    repository: &Repository,
) -> io::Result<Option<Scope>> {
    if repository.has_worktree_files {
        return Ok(Some(Scope::Worktree));
    }
    if has_worktrees(disk, &repository.common_dir)? {
        tell(rt, &[SHARED]);
        return Ok(None);
    }
    Ok(Some(Scope::Local))
}

/// The name of the file of a scope where Git does this, or `None` if there is none, which is told.
pub fn scope_file<'t>(
    rt: &HostRuntime,
    disk: &Disk<'t>,
    found: &Answer,
    scope: Scope,
) -> Result<Option<&'t [u8]>, HereError<'t>> {
    let wanted = match (scope, &found.outcome) {
        (Scope::Worktree, Outcome::Uses(repository)) => scope_of_worktree(rt, disk, repository)?,
        _ => Some(scope),
    };
    let Some(wanted) = wanted else {
        return Ok(None);
    };
    match file_of(found, wanted) {
        Some(name) => Ok(Some(disk.kept(name)?)),
        None => {
            tell_no_file(rt, scope);
            Ok(None)
        }
    }
}

/// Tells why Git uses no repository although one is there.
pub fn tell_refusal(rt: &HostRuntime, outcome: &Outcome) -> Result<(), AllocError> {
    if let Outcome::Refuses(refusal) = outcome {
        let words = refusal.words(rt.alloc())?;
        tell(rt, &[b"warning: ", &words]);
    }
    Ok(())
}

/// What Git does here. If no scope is asked for, or that of a repository, it tells why Git uses none although one is there.
pub fn found_here<'t>(
    rt: &HostRuntime,
    disk: &Disk<'t>,
    scope: Option<Scope>,
) -> Result<Answer, HereError<'t>> {
    let found = find(disk, b"")?;
    if !matches!(scope, Some(Scope::System | Scope::Global)) {
        tell_refusal(rt, &found.outcome)?;
    }
    check_found(disk, &found)?;
    Ok(found)
}

/// Whether Git uses a repository where it does this.
pub fn uses_repository(found: &Answer) -> bool {
    matches!(found.outcome, Outcome::Uses(_))
}

/// The scope that entries of the file of a scope have. In Git a work tree is not told from the repository here.
fn listed_scope(scope: Scope) -> Scope {
    match scope {
        Scope::Worktree => Scope::Local,
        scope => scope,
    }
}

/// A reading of the file of a scope here, or `None` if there is none, which is told.
fn open_scope<'t>(
    rt: &HostRuntime,
    request: &Request<'_>,
    disk: &Disk<'t>,
    scope: Scope,
) -> Result<Option<Opened<'t>>, HereError<'t>> {
    let found = found_here(rt, disk, Some(scope))?;
    let disk = within(disk, &found)?;
    match scope_file(rt, &disk, &found, scope)? {
        Some(name) => {
            let start = disk.kept(&found.folder)?;
            let scope = listed_scope(scope);
            Ok(Some(open_text(rt, request, disk, start, scope, name, true)?))
        }
        None => Ok(None),
    }
}

/// What a request reads, with these settings of the command line, or `None` if there is nothing, which is told.
pub fn open_texts<'t>(
    rt: &'t HostRuntime,
    texts: &'t Bump,
    request: &Request<'_>,
    commands: &[u8],
) -> Result<Option<Opened<'t>>, HereError<'t>> {
    let disk = disk_of(rt, texts, commands)?;
    match request.texts {
        Texts::Named("-") => {
            let scope = Scope::Command;
            Ok(Some(open_text(rt, request, disk, b"", scope, INPUT, false)?))
        }
        Texts::Named(file) => {
            let (scope, name) = (Scope::Command, disk.kept(file.as_bytes())?);
            Ok(Some(open_text(rt, request, disk, b"", scope, name, true)?))
        }
        Texts::OfScope(scope) => open_scope(rt, request, &disk, scope),
        Texts::Here => Ok(Some(Opened {
            reading: Reading::here(rt.alloc(), b"", followed(request)),
            disk,
            unfiled: Unfiled {
                command: true,
                input: false,
            },
        })),
    }
}
