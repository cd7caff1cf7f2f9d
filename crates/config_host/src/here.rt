//! All settings that Git reads in a folder, in one call.

use crate::disk::Disk;
use crate::environment::HostError;
use crate::error::HereError;
use crate::facts::hand_on;
use crate::names::opened_above;
use crate::repository::{find, is_there, within};
use bumpalo::Bump;
use config_file::Settings;
use config_search::settings::Collector;
use config_search::{Answer, Follows, Named, Outcome, Reading, Refusal};
use std::alloc::AllocError;
use std::io::{self, ErrorKind};

/// What Git reads in a folder.
///
/// ```rust
/// use bumpalo::Bump;
/// use config_host::{Disk, read_here};
///
/// let texts = Bump::new(rt.alloc());
/// let here = read_here(&rt, &texts, b".").expect(&rt, "settings that Git can read");
/// assert!(rt; here.refusal.is_none());
/// let disk = Disk::new(&rt, &texts).within(here.folder)?; // opens the files of `here.settings`
/// ```
#[derive(Drop)]
pub struct Here<'t> {
    /// All settings, in Git's order, each with its scope, its file and its line. The name of a file that does
    /// not begin at the root begins in `folder`.
    pub settings: Settings<'t>,
    /// The folder in which Git works: the top of the work tree, or the folder that was asked about.
    pub folder: &'t [u8],
    /// The branch that is checked out, without `refs/heads/`: `None` if HEAD names none, or without a repository.
    pub branch: Option<&'t [u8]>,
    /// Why Git uses no repository although one is there. It then reads none of its settings.
    pub refusal: Option<Refusal>,
}

/// The branch that is checked out where Git does this.
fn branch_of<'t>(disk: &Disk<'t>, outcome: &Outcome) -> Result<Option<&'t [u8]>, AllocError> {
    match outcome {
        Outcome::Uses(repository) => match &repository.branch {
            Some(branch) => Ok(Some(disk.kept(branch)?)),
            None => Ok(None),
        },
        _ => Ok(None),
    }
}

/// Why Git uses no repository although one is there.
fn refusal_of(outcome: Outcome) -> Option<Refusal> {
    match outcome {
        Outcome::Refuses(refusal) => Some(refusal),
        Outcome::Uses(_used) => None,
        Outcome::Stops(_stop) => None,
        Outcome::FindsNone => None,
    }
}

/// What Git reads if it is started in this folder, and why it uses no repository that is there. It fails as
/// [`settings_here`] does.
pub fn read_here<'t>(
    host: &'t HostRuntime,
    texts: &'t Bump,
    folder: &[u8],
) -> Result<Here<'t>, HereError<'t>> {
    let disk = Disk::new(host, texts);
    let alloc = host.alloc();
    let mut reading = Reading::here(alloc, disk.kept(folder)?, Follows::AsGit);
    let mut collector = Collector::new(alloc);
    hand_on(&disk, &mut reading, &mut collector)?;
    let Some(answer) = reading.into_answer() else {
        return Err(HereError::from(AllocError));
    };
    let folder = disk.kept(&opened_above(host, &answer.folder)?)?;
    let branch = branch_of(&disk, &answer.outcome)?;
    Ok(Here {
        settings: collector.settings,
        folder,
        branch,
        refusal: refusal_of(answer.outcome),
    })
}

/// All settings that Git reads if it is started in this folder: those of the system, of the user, of the
/// repository and of the command, with what they include. An empty name, or `.`, is the current folder. The
/// texts of the files are kept in `texts`. It fails where Git stops, or refuses to go on: at a line that
/// cannot be read, at an include that cannot be followed, at a wrong setting of the repository's format, or
/// of a command. A folder that is not there is refused with its name.
///
/// ```rust
/// use bumpalo::Bump;
/// use config_host::settings_here;
///
/// let texts = Bump::new(rt.alloc());
/// let settings = settings_here(&rt, &texts, b".").expect(&rt, "settings that Git can read");
/// for setting in &settings.entries {
///     assert!(rt; !setting.file.is_empty());
/// }
/// ```
pub fn settings_here<'t>(
    host: &'t HostRuntime,
    texts: &'t Bump,
    folder: &[u8],
) -> Result<Settings<'t>, HereError<'t>> {
    Ok(read_here(host, texts, folder)?.settings)
}

/// What Git does in the current folder. A line at which Git stops is no error.
fn found_here(disk: &Disk<'_>) -> Result<Answer, HostError> {
    match find(disk, b"") {
        Ok(found) => Ok(found),
        Err(HereError::Host(error)) => Err(error),
        // the current folder is not there, and whatever else stops Git is in the answer
        Err(_) => Err(HostError::System(io::Error::from(ErrorKind::NotFound))),
    }
}

/// The name by which the system opens a file, or `None` if it is not there.
fn opened_if_there<'t>(disk: &Disk<'t>, name: &[u8]) -> io::Result<Option<&'t [u8]>> {
    if !is_there(disk, name)? {
        return Ok(None);
    }
    match disk.opened_name(name) {
        Ok(opened) => Ok(Some(disk.kept(&opened)?)),
        Err(_) => Err(io::Error::from(AllocError)),
    }
}

/// The names by which the system opens those of these files that are there.
fn those_there<'t>(disk: &Disk<'t>, files: &[Named]) -> io::Result<Vec<&'t [u8]>> {
    let mut names = Vec::new(disk.host.alloc());
    for file in files {
        if let Some(name) = opened_if_there(disk, &file.name)? {
            names.push(name)?;
        }
    }
    Ok(names)
}

/// The names of the files that Git reads in the current folder, by which the system opens them, in the order
/// in which Git reads them. A line at which Git stops is no error here.
pub fn files_here<'t>(disk: &Disk<'t>) -> Result<Vec<&'t [u8]>, HostError> {
    let found = found_here(disk)?;
    Ok(those_there(&within(disk, &found)?, &found.files)?)
}
