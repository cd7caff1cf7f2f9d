//! Replaces the text of a file as Git does: the new text is written beside it, into a file that is its lock,
//! which then takes its place. So whoever reads the file finds its old text or the new one.
ghost use Rattle.std.specs.Prelude.{◌≡◌, ◌≢◌};
ghost use Rattle.std.specs.IoError.{error_kind};
ghost use Rattle.std.specs.declared.io.ErrorKind.TheVariants.{AlreadyExists};
ghost use Rattle.config_host.specs.declared.disk.ReadError.TheVariants.{System};
ghost use Rattle.config_host.specs.declared.locked.LockError.TheVariants.{Held, Lock, Read};

use crate::disk::{Disk, ReadError, known_length, opened};
use crate::names::{answer, folder_of, inside, joined, known_of_link, text_of};
use bstr::BStr;
use std::alloc::AllocError;
use std::fs::{self, File, OpenFile, OpenOptions, Permissions};
use std::io::{self, ErrorKind, Write};
use std::os::unix::fs::{MetadataExt, PermissionsExt};
use thiserror::Error;

/// How many links are followed from the name of a file, as many as the system follows.
const LINKS: usize = 40;

/// The bits of a mode that say who may read, write and run a file.
const MODE: u32 = 0o7777;

/// Why the text of a file is not replaced. The file then has its old text.
///
/// ```rust
/// use bumpalo::Bump;
/// use config_host::{Disk, LockError, Locked};
///
/// let texts = Bump::new(rt.alloc());
/// let disk = Disk::new(&rt, &texts);
/// let _locked = Locked::of(&disk, b"twice").expect(&rt, "a lock");
/// assert!(rt; matches!(Locked::of(&disk, b"twice"), Err(LockError::Held(..))));
/// ```
#[derive(Debug, Drop, Error)]
pub enum LockError {
    /// The lock of this name was made so many seconds ago, as far as the system tells: another program replaces the
    /// text, or a signal ended it as it did.
    #[error("{}: the lock is held, and {} seconds old: remove it if no program is changing the file", BStr::new(.0), .1)]
    Held(Vec<u8>, u64),
    /// The system makes no lock.
    #[error("{0}")]
    Lock(io::Error),
    /// The name of the file, or its old text, is not read.
    #[error("{0}")]
    Read(ReadError),
    /// The system does not take the new text.
    #[error("{0}")]
    Write(io::Error),
}

impl From<ReadError> for LockError {
    ghost from_gives = { λ error refused. refused ≡ Read error };

    fn from(error: ReadError) -> LockError {
        LockError::Read(error)
    }
}

impl From<AllocError> for LockError {
    ghost from_gives = { λ error refused. (read : _) × (refused ≡ Read read) };

    fn from(error: AllocError) -> LockError {
        LockError::Read(ReadError::from(error))
    }
}

impl From<io::Error> for LockError {
    ghost from_gives = { λ _ refused. (error : _) × (refused ≡ Read error) };

    fn from(error: io::Error) -> LockError {
        LockError::Read(ReadError::from(error))
    }
}

/// How many seconds old the file of this name is, or 0 if the system does not say it.
fn age_of(host: &HostRuntime, name: &[u8]) -> io::Result<u64> {
    let Some(known) = known_of_link(host, name)? else {
        return Ok(0);
    };
    match answer(known.modified()?.elapsed(host))? {
        Some(age) => Ok(age.as_secs()),
        None => Ok(0),
    }
}

/// Why there is no lock of this name and this age, if the system refuses to make it with this error.
fn refusal(lock: Vec<u8>, age: u64, error: io::Error) -> LockError
    ensures held { error_kind error ≡ AlreadyExists → result ≡ Held lock age }
    ensures other { error_kind error ≢ AlreadyExists → result ≡ Lock error }
{
    match error.kind() {
        ErrorKind::AlreadyExists => LockError::Held(lock, age),
        _ => LockError::Lock(error),
    }
}

/// What the link of this name leads to, or `None` if this is no link.
fn target_of<'t>(disk: &Disk<'t>, name: &[u8]) -> io::Result<Option<&'t [u8]>> {
    match fs::read_link(disk.host, text_of(name)?) {
        Ok(target) => Ok(Some(disk.kept(target.as_path().as_str().as_bytes())?)),
        Err(error) => match error.kind() {
            // below a regular file there is none
            ErrorKind::InvalidInput | ErrorKind::NotFound | ErrorKind::NotADirectory => Ok(None),
            _ => Err(error),
        },
    }
}

/// The name of the file to which the links from this name lead. There need not be such a file.
fn behind_links<'t>(disk: &Disk<'t>, name: &'t [u8]) -> io::Result<&'t [u8]> {
    let mut name = name;
    for _ in 0..LINKS {
        match target_of(disk, name)? {
            Some(target) => name = inside(disk, folder_of(name), target)?,
            None => return Ok(name),
        }
    }
    Err(io::Error::from(ErrorKind::FilesystemLoop))
}

/// A lock: a file that is open to be written, and is removed with this value while it is held.
struct LockFile<'t> {
    host: &'t HostRuntime,
    name: &'t [u8],
    file: File,
    is_held: bool,
}

impl Drop for LockFile<'_> {
    fn drop(self) {
        if self.is_held {
            if let Ok(name) = text_of(self.name) {
                let _ = fs::remove_file(self.host, name);
            }
        }
        let LockFile {
            host: _,
            name: _,
            file: _,
            is_held: _,
        } = self;
    }
}

/// Makes the lock of the file of this name, which nobody else may hold.
fn lock_beside<'t>(disk: &Disk<'t>, name: &[u8]) -> Result<LockFile<'t>, LockError> {
    let host = disk.host;
    let name = joined(disk, &[name, b".lock"])?;
    let made = OpenOptions::new()
        .write(true)
        .create_new(true)
        .open(host, text_of(name)?);
    match made {
        Ok(file) => Ok(LockFile {
            host,
            name,
            file,
            is_held: true,
        }),
        Err(error) => Err(refusal(name.to_vec(host.alloc())?, age_of(host, name)?, error)),
    }
}

/// The text of a regular file.
fn text_in<'t>(disk: &Disk<'t>, name: &str) -> Result<&'t [u8], ReadError> {
    let file = opened(disk.host, name, false)?;
    match known_length(&file, false)? {
        Some(length) => disk.text(file, Some(length)),
        None => Err(ReadError::Kind),
    }
}

/// The mode of a file, or `None` if it is not there.
fn mode_of(host: &HostRuntime, name: &str) -> io::Result<Option<u32>> {
    match fs::metadata(host, name) {
        Ok(known) => Ok(Some(known.mode() & MODE)),
        Err(error) if error.kind() == ErrorKind::NotFound => Ok(None),
        Err(error) => Err(error),
    }
}

/// The text and the mode of a file, or an empty text if it is not there.
fn old_of<'t>(disk: &Disk<'t>, name: &str) -> Result<(&'t [u8], Option<u32>), ReadError> {
    match mode_of(disk.host, name)? {
        Some(mode) => Ok((text_in(disk, name)?, Some(mode))),
        None => Ok((b"", None)),
    }
}

/// A file whose text is replaced, and whose lock is held until then. If this value is let go, the lock is
/// removed, and the file keeps its text. A program that a signal ends leaves the lock, which its user then has to
/// remove: nothing here catches a signal.
///
/// ```rust
/// use bumpalo::Bump;
/// use config_host::{Disk, Locked};
///
/// let texts = Bump::new(rt.alloc());
/// let locked = Locked::of(&Disk::new(&rt, &texts), b"config").expect(&rt, "a lock");
/// assert!(rt; locked.text().is_empty());
/// locked.commit(b"[core]\n\tbare\n").expect(&rt, "a file that can be written");
/// ```
#[derive(Drop)]
pub struct Locked<'t> {
    lock: LockFile<'t>,
    name: &'t [u8],
    text: &'t [u8],
    mode: Option<u32>,
}

impl<'t> Locked<'t> {
    /// Locks the file of this name, and then reads it. If the name is that of a link, this is the file to
    /// which it leads, and the lock is beside that. The file has to be a regular one of at most 1 GiB, or not
    /// there. It fails if the lock is held, and if the system does not make it or does not read the file.
    pub fn of(disk: &Disk<'t>, name: &[u8]) -> Result<Locked<'t>, LockError> {
        let name = disk.opened_name(name)?;
        let name = behind_links(disk, disk.kept(&name)?)?;
        let lock = lock_beside(disk, name)?;
        let (text, mode) = old_of(disk, text_of(name)?)?;
        Ok(Locked {
            lock,
            name,
            text,
            mode,
        })
    }

    /// The text of the file as the lock found it, which is empty if there is no file.
    pub fn text(&self) -> &'t [u8] {
        self.text
    }

    /// Gives the file this text in place of its old one, and lets go of the lock. The file keeps its mode,
    /// and one that was not there gets that of a new file. It fails if the system does not take the whole
    /// text, and the file then has its old one.
    pub fn commit(mut self, text: &[u8]) -> Result<(), LockError> {
        match self.replace(text) {
            Ok(()) => Ok(()),
            Err(error) => Err(LockError::Write(error)),
        }
    }

    fn replace(&mut self, text: &[u8]) -> io::Result<()> {
        // whoever may not read the file reads no text of its lock
        if let Some(mode) = self.mode {
            self.lock
                .file
                .set_permissions(Permissions::from_mode(mode))?;
        }
        self.lock.file.write_all(text)?;
        self.lock.file.sync_all()?;
        fs::rename(
            self.lock.host,
            text_of(self.lock.name)?,
            text_of(self.name)?,
        )?;
        self.lock.is_held = false;
        Ok(())
    }
}
