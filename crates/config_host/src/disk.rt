//! Reads files, and keeps their texts for as long as a walk borrows from them.
ghost use Rattle.std.specs.Prelude.{◌≡◌, ◌⊎◌, ⊤, IfOk};
ghost use Rattle.config_host.specs.declared.disk.ReadError.TheVariants.{Name, System};

use crate::environment::current_folder;
use crate::names::{answer, path_inside, real_name, split_last, text_of};
use bstr::{BStr, ByteSlice};
use bumpalo::Bump;
use bumpalo::collections::into_bump_slice;
use config_file::reader::Entries;
use config_file::{Content, FilePlace, Files, Stop, Why};
use std::alloc::{AllocError, Global};
use std::fs::{self, File, FileType, OpenFile};
use std::io::{self, ErrorKind, Read};
use std::os::unix::fs::FileTypeExt;
use thiserror::Error;

/// The number of bytes of the longest file that is read: 1 GiB.
pub(crate) const LONGEST: usize = 1 << 30;

/// How many bytes are read at once.
const PIECE: usize = 1 << 16;

/// How many are read at once of a short file, which may be longer than the system says.
const LEAST: usize = 1 << 10;

/// Why a file is not read.
///
/// ```rust
/// use bumpalo::Bump;
/// use config_host::{Disk, ReadError};
///
/// let texts = Bump::new(rt.alloc());
/// let disk = Disk::new(&rt, &texts);
/// assert!(rt; matches!(disk.text_of(b"missing"), Err(error) if error.is_missing()));
/// assert!(rt; matches!(disk.text_of(b"\xff"), Err(ReadError::Name)));
/// ```
#[derive(Debug, Drop, Error)]
#[non_exhaustive]
pub enum ReadError {
    /// Its name is not UTF-8, and the system opens no such file here.
    #[error("its name is not UTF-8")]
    Name,
    /// It is a folder, a pipe, or another thing whose end an include does not wait for.
    #[error("it is no regular file")]
    Kind,
    /// It is longer than 1 GiB.
    #[error("it is longer than 1 GiB")]
    Length,
    /// The system refuses it.
    #[error("{0}")]
    System(io::Error),
}

impl From<io::Error> for ReadError {
    ghost from_gives = { λ error read. (read ≡ Name) ⊎ (read ≡ System error) };

    fn from(error: io::Error) -> ReadError {
        match error.kind() {
            ErrorKind::InvalidFilename => ReadError::Name,
            _ => ReadError::System(error),
        }
    }
}

impl From<AllocError> for ReadError {
    ghost from_gives = { λ _ read. (error : _) × (read ≡ System error) };

    fn from(error: AllocError) -> ReadError {
        ReadError::System(io::Error::from(error))
    }
}

impl ReadError {
    /// Whether memory was refused, which ends a run.
    pub fn is_memory(&self) -> bool {
        matches!(self, ReadError::System(error) if error.kind() == ErrorKind::OutOfMemory)
    }

    /// Whether the system lets the user of this program not read the file.
    pub fn is_denied(&self) -> bool {
        matches!(self, ReadError::System(error) if error.kind() == ErrorKind::PermissionDenied)
    }

    /// Whether there is no such file, or its name is below a file.
    pub fn is_missing(&self) -> bool {
        matches!(self, ReadError::System(error)
            if matches!(error.kind(), ErrorKind::NotFound | ErrorKind::NotADirectory))
    }
}

/// Whether Git stops in these whole lines.
fn is_wrong(lines: &[u8]) -> bool {
    for entry in Entries::new(lines) {
        if entry.is_err() {
            return true;
        }
    }
    false
}

/// Whether what follows this text cannot change where Git stops in it.
fn is_refused(text: &[u8]) -> bool {
    let lines = text.iter().filter(|byte| **byte == b'\n').count();
    for entry in Entries::new(text) {
        if let Err(error) = entry {
            return error.why == Why::Nul || error.line < lines;
        }
    }
    false
}

/// Reads bytes, and returns how many there are: none at the end of the file.
fn read_some<F: Read>(file: &mut F, room: &mut [u8]) -> io::Result<usize> {
    for _ in 0..u64::MAX {
        match file.read(room) {
            Err(error) if error.kind() == ErrorKind::Interrupted => {}
            answer => return answer,
        }
    }
    Ok(0)
}

/// Reads bytes into this room, and appends them to the text. Returns false at the end of the file.
fn read_piece<'t, F: Read>(
    file: &mut F,
    room: &mut [u8],
    text: &mut Vec<u8, &'t Bump>,
) -> io::Result<bool> {
    let count = read_some(file, room)?;
    let Some((read, _)) = room.split_at_checked(count) else {
        return Ok(false);
    };
    if text.extend_from_slice(read).is_err() {
        return Err(io::Error::from(ErrorKind::OutOfMemory));
    }
    Ok(count != 0)
}

/// Where the last line ends that ends behind this place, unless the next line may continue it.
fn last_end(text: &[u8], seen: usize) -> Option<usize> {
    let (_, new) = text.split_at_checked(seen)?;
    let end = seen.saturating_add(new.rfind_byte(b'\n')?);
    let (lines, _) = text.split_at_checked(end)?;
    if lines.ends_with(b"\\") || lines.ends_with(b"\\\r") {
        return None;
    }
    Some(end.saturating_add(1))
}

/// How far a text is judged that still comes.
#[derive(Drop)]
struct Judged {
    /// The number of bytes at its start in which Git does not stop. They are whole lines.
    passed: usize,
    /// The length at which the rest is judged though no line of it has ended.
    next: usize,
}

impl Judged {
    /// Whether Git stops in this text, whatever follows it. What follows `seen` has come since it was asked last.
    /// Each line is read once.
    fn stops(&mut self, text: &[u8], seen: usize) -> bool {
        if let Some(end) = last_end(text, seen) {
            if is_wrong(text.get(self.passed..end).unwrap_or_default()) {
                return true;
            }
            (self.passed, self.next) = (end, end.saturating_add(PIECE));
        }
        if text.len() < self.next {
            return false;
        }
        let rest = text.get(self.passed..).unwrap_or_default();
        self.next = text.len().saturating_add(rest.len());
        is_refused(rest)
    }
}

/// Reads to the end, at most 1 GiB, through this room. Behind the length that is known it reads until Git would
/// stop, and judges each line as soon as it has come.
fn read_all<'t, F: Read>(
    file: &mut F,
    room: &mut [u8],
    text: &mut Vec<u8, &'t Bump>,
    known: usize,
) -> Result<(), ReadError> {
    let mut judged = Judged {
        passed: 0,
        next: PIECE,
    };
    for _ in 0..u64::MAX {
        let seen = text.len();
        if !read_piece(file, room, text)? {
            break;
        }
        if LONGEST < text.len() {
            return Err(ReadError::Length);
        }
        if known < text.len() && judged.stops(text, seen) {
            break;
        }
    }
    Ok(())
}

/// Whether a file of this type may be included: a regular file, or a device whose bytes are read in turn.
pub(crate) fn is_included(kind: FileType) -> bool {
    kind.is_file() || kind.is_char_device()
}

/// Opens the file of this name, which has to be one that may be included if `is_first` is false.
pub(crate) fn opened(host: &HostRuntime, name: &str, is_first: bool) -> Result<File, ReadError> {
    if !is_first && !is_included(fs::metadata(host, name)?.file_type()) {
        return Err(ReadError::Kind);
    }
    Ok(File::open(host, name)?)
}

/// The length of a file, or `None` if it has no length before it is read.
pub(crate) fn known_length<F: OpenFile>(
    file: &F,
    is_first: bool,
) -> Result<Option<usize>, ReadError> {
    let known = file.metadata()?;
    if !is_first && !is_included(known.file_type()) {
        return Err(ReadError::Kind);
    }
    if !known.is_file() {
        return Ok(None);
    }
    match usize::try_from(known.len()) {
        Ok(length) if length <= LONGEST => Ok(Some(length)),
        _ => Err(ReadError::Length),
    }
}

/// The name of a file from the root, without links as far as the system knows it.
fn name_from_root(host: &HostRuntime, name: &[u8]) -> io::Result<Vec<u8>> {
    if let Some(real) = real_name(host, name)? {
        return Ok(real);
    }
    match answer(current_folder(host))? {
        Some(folder) => Ok(path_inside(host.alloc(), &folder, name)?),
        None => Ok(name.to_vec(host.alloc())?),
    }
}

/// The files of a host, whose texts are kept in memory until all of them are given up together.
///
/// ```rust
/// use bumpalo::Bump;
/// use config_file::Scope;
/// use config_host::{Disk, hand_on};
/// use config_search::settings::Collector;
/// use config_search::{Follows, Reading, Text};
/// use std::fs;
///
/// fs::write(&rt, "disk-top", b"[include]\n\tpath = disk-more\n")?;
/// fs::write(&rt, "disk-more", b"[core]\n\tbare\n")?;
/// let kept = Bump::new(rt.alloc());
/// let disk = Disk::new(&rt, &kept);
/// let text = disk.text_of(b"disk-top").expect(&rt, "a text");
/// let mut texts = Vec::new(alloc);
/// texts.push(Text { scope: Scope::Local, name: b"disk-top", text, is_file: true })?;
/// let mut reading = Reading::of_texts(alloc, b"", b"", texts, Follows::AsGit);
/// let mut collector = Collector::new(alloc);
/// assert!(rt; hand_on(&disk, &mut reading, &mut collector).is_ok());
/// assert_eq!(rt; collector.settings.entries.len(), 2);
/// ```
#[derive(Drop)]
pub struct Disk<'t> {
    pub(crate) host: &'t HostRuntime,
    pub(crate) texts: &'t Bump,
    /// The folder in which each name begins that does not begin at the root.
    folder: &'t [u8],
    /// The settings of the command line, in the form of GIT_CONFIG_PARAMETERS, with those that this variable has.
    pub(crate) parameters: Option<&'t [u8]>,
}

impl<'t> Disk<'t> {
    /// The files of this host, whose texts are kept there. Names begin in the current folder.
    pub fn new(host: &'t HostRuntime, texts: &'t Bump) -> Disk<'t> {
        Disk {
            host,
            texts,
            folder: b"",
            parameters: None,
        }
    }

    /// The same files, with names that begin in this folder. An empty one is the current folder.
    pub fn within(&self, folder: &[u8]) -> Result<Disk<'t>, AllocError> {
        let mut disk = self.again();
        disk.folder = self.kept(folder)?;
        Ok(disk)
    }

    /// The same files.
    pub fn again(&self) -> Disk<'t> {
        Disk {
            host: self.host,
            texts: self.texts,
            folder: self.folder,
            parameters: self.parameters,
        }
    }

    /// The same files, where the settings of the command are these, in the form of GIT_CONFIG_PARAMETERS and in its
    /// place.
    pub fn with_parameters(&self, parameters: &[u8]) -> Result<Disk<'t>, AllocError> {
        let mut disk = self.again();
        disk.parameters = Some(self.kept(parameters)?);
        Ok(disk)
    }

    /// A copy of these bytes that is kept.
    pub fn kept(&self, bytes: &[u8]) -> Result<&'t [u8], AllocError> {
        Ok(self.texts.try_alloc_slice_copy(bytes)?)
    }

    /// The name by which the system opens the file of this name.
    pub fn opened_name(&self, name: &[u8]) -> Result<Vec<u8>, ReadError> {
        let alloc = self.host.alloc();
        // an empty name would become that of the folder
        if name.is_empty() {
            return Ok(Vec::new(alloc));
        }
        Ok(path_inside(alloc, self.folder, name)?)
    }

    /// The bytes to the end of what is read, at most 1 GiB. If there are more than is known, as in a device or a
    /// pipe, they are read until Git would stop in them.
    pub fn text<F: Read + Drop>(
        &self,
        mut file: F,
        length: Option<usize>,
    ) -> Result<&'t [u8], ReadError> {
        let wanted = length.unwrap_or(PIECE).saturating_add(1);
        let mut text = Vec::with_capacity(self.texts, wanted)?;
        let mut room = Vec::new(self.host.alloc());
        room.resize(wanted.max(LEAST).min(PIECE), 0)?;
        read_all(&mut file, &mut room, &mut text, length.unwrap_or(0))?;
        Ok(into_bump_slice(text))
    }

    /// The bytes of the file of this name, which has to be one that may be included if `is_first` is false.
    fn read_file(&self, name: &[u8], is_first: bool) -> Result<&'t [u8], ReadError> {
        let name = self.opened_name(name)?;
        self.read_opened(text_of(&name)?, is_first)
    }

    /// The bytes of the file that the system opens by this name.
    pub(crate) fn read_opened(&self, name: &str, is_first: bool) -> Result<&'t [u8], ReadError> {
        let file = opened(self.host, name, is_first)?;
        let length = known_length(&file, is_first)?;
        self.text(file, length)
    }

    /// The name of a file from the root, without links as far as the system knows it.
    pub fn real_name(&self, name: &[u8]) -> Result<Vec<u8>, AllocError> {
        let opened = match self.opened_name(name) {
            Ok(opened) => opened,
            Err(error) if error.is_memory() => return Err(AllocError),
            Err(_) => return Ok(name.to_vec(self.host.alloc())?),
        };
        match name_from_root(self.host, &opened) {
            Ok(real) => Ok(real),
            Err(_) => Err(AllocError),
        }
    }

    /// The place of the file of this name.
    pub fn place(&self, name: &[u8]) -> Result<FilePlace<'t>, AllocError>
        ensures { IfOk result (λ place. place.name.now ≡ name.now) }
    {
        let real = self.real_name(name)?;
        let folder = match split_last(&real) {
            Some((folder, _)) => folder,
            None => b"",
        };
        Ok(FilePlace {
            name: self.texts.try_alloc_slice_copy(name)?,
            real_dir: self.kept(folder)?,
        })
    }

    /// The text of a file that the user names, or that Git reads by itself. It may be a pipe or a terminal.
    pub fn text_of(&self, name: &[u8]) -> Result<&'t [u8], ReadError> {
        self.read_file(name, true)
    }

    /// The same, with the place of the file.
    pub fn first(&self, name: &[u8]) -> Result<(FilePlace<'t>, &'t [u8]), ReadError> {
        let text = self.text_of(name)?;
        Ok((self.place(name)?, text))
    }

    /// Git stops since the file of this name is not read for this reason.
    pub fn stop(&self, name: &[u8], error: &ReadError) -> Result<Stop<&'t [u8]>, AllocError> {
        Ok(Stop {
            file: self.kept(name)?,
            line: 0,
            why: Why::Unreadable,
            words: self.kept(format!(in self.host.alloc(); "{error}")?.as_bytes())?,
        })
    }

    /// Why the file of this name is not read, as a text that is kept.
    fn reason(&self, name: &[u8], error: &ReadError) -> Result<&'t str, AllocError> {
        let name = BStr::new(name);
        let text = format!(in self.host.alloc(); "cannot read {name}: {error}")?;
        self.texts.try_alloc_str(&text)
    }
}

impl<'t> Files<'t> for Disk<'t> {
    ghost contents = { λ _ _ _. ⊤ };

    /// What the file of this name holds. It is missing if it does not exist, or if its name is below a file.
    fn read(&self, _alloc: Global, name: &[u8]) -> Result<Content<'t>, AllocError> {
        match self.read_file(name, false) {
            Ok(text) => Ok(Content::Text(self.place(name)?, text)),
            Err(error) if error.is_memory() => Err(AllocError),
            Err(error) if error.is_missing() => Ok(Content::Missing),
            Err(error) => Ok(Content::Unreadable(self.reason(name, &error)?)),
        }
    }
}
