//! Answers what a search asks, by this system.
use crate::disk::{Disk, ReadError, is_included};
use crate::environment::{CommandVariables, HostError, current_folder, kept_variable};
use crate::error::HereError;
use crate::names::{answer, known_of, known_of_link, opened_above, real_name, text_of};
use crate::users::Users;
use config_file::Stop;
use config_search as asks;
use config_search::{Answer, Fact, Halt, Pause, Question, Reading, Receiver, Search};
use gix_config_value::path::interpolate::home_for_user;
use std::alloc::AllocError;
use std::fs::{self, File, Metadata};
use std::io::{self, ErrorKind, Read};
use std::os::unix::fs::MetadataExt;

/// The number of bytes of the start of a file.
const START: u64 = 1 << 16;

/// The number of bytes of a long start of a file.
const LONG_START: u64 = 1 << 24;

/// The value of a variable. The settings of the command line stand in one. The system opens no folder of a name that is not UTF-8, so that those that name the git
/// directory have to be.
fn variable<'t>(disk: &Disk<'t>, name: &str) -> Result<Option<&'t [u8]>, HostError> {
    if name == "GIT_CONFIG_PARAMETERS" && disk.parameters.is_some() {
        return Ok(disk.parameters);
    }
    let value = kept_variable(disk, name)?;
    if str::from_utf8(value.unwrap_or_default()).is_ok() {
        return Ok(value);
    }
    if !matches!(name, "GIT_DIR" | "GIT_COMMON_DIR") {
        return Ok(value);
    }
    Err(HostError::Variable(format!(in disk.host.alloc(); "{name}")?))
}

/// What a file is.
fn kind_of(known: io::Result<Metadata>) -> io::Result<Option<&'static [u8]>> {
    let kind = match known {
        Ok(known) => known.file_type(),
        Err(error) => return match error.kind() {
            ErrorKind::NotFound | ErrorKind::NotADirectory | ErrorKind::InvalidFilename => Ok(None),
            ErrorKind::OutOfMemory => Err(error),
            _ => Ok(Some(b"unknown")),
        },
    };
    Ok(Some(if kind.is_symlink() {
        b"link"
    } else if kind.is_dir() {
        b"folder"
    } else if kind.is_file() {
        b"file"
    } else {
        b"other"
    }))
}

/// The name in a link.
fn target_of<'t>(disk: &Disk<'t>, name: &str) -> io::Result<Option<&'t [u8]>> {
    match answer(fs::read_link(disk.host, name))? {
        Some(target) => Ok(Some(disk.kept(target.as_path().as_str().as_bytes())?)),
        None => Ok(None),
    }
}

/// The first bytes of a regular file.
fn start_of<'t>(disk: &Disk<'t>, name: &str, most: u64) -> io::Result<Option<&'t [u8]>> {
    match answer(fs::metadata(disk.host, name))? {
        Some(known) if known.is_file() => {}
        _ => return Ok(None),
    }
    let Some(file) = answer(File::open(disk.host, name))? else {
        return Ok(None);
    };
    let mut text = Vec::new(disk.host.alloc());
    match answer(file.take(most).read_to_end(&mut text))? {
        Some(_) => Ok(Some(disk.kept(&text)?)),
        None => Ok(None),
    }
}

/// The whole text of a file that Git reads first, or that is included.
fn whole_of<'t>(
    disk: &Disk<'t>,
    name: &str,
    is_first: bool,
) -> Result<Option<&'t [u8]>, AllocError> {
    match disk.read_opened(name, is_first) {
        Ok(text) => Ok(Some(text)),
        Err(error) if error.is_memory() => Err(AllocError),
        Err(_) => Ok(None),
    }
}

/// Whether the user may read a file of this kind. Since the system has no call that asks, a file or a folder is opened,
/// and all else goes by its mode, so that no pipe waits for a writer.
fn may_read(host: &HostRuntime, name: &str, known: &Metadata) -> io::Result<bool> {
    if known.is_file() || known.is_dir() {
        return Ok(answer(File::open(host, name))?.is_some());
    }
    Ok(known.mode() & 0o444 != 0)
}

/// Why a file is not read. A pipe is not opened, since it waits for a writer.
fn reason_of(disk: &Disk<'_>, name: &str) -> io::Result<ReadError> {
    let known = fs::metadata(disk.host, name)?;
    if !known.is_dir() && !is_included(known.file_type()) {
        return match may_read(disk.host, name, &known)? {
            true => Ok(ReadError::Kind),
            false => Err(io::Error::from(ErrorKind::PermissionDenied)),
        };
    }
    match disk.read_opened(name, true) {
        Ok(_) => Ok(ReadError::Kind),
        Err(error) => Ok(error),
    }
}

/// Why the text of a file is not read, as an answer.
fn refusal_of<'t>(disk: &Disk<'t>, name: &str) -> Result<Option<&'t [u8]>, AllocError> {
    let error = match reason_of(disk, name) {
        Ok(error) => error,
        Err(error) => ReadError::from(error),
    };
    if error.is_memory() {
        return Err(AllocError);
    }
    if error.is_missing() {
        return Ok(None);
    }
    if error.is_denied() {
        return Ok(Some(b"denied"));
    }
    let words = format!(in disk.host.alloc(); "{error}")?;
    Ok(Some(disk.kept(words.as_bytes())?))
}

/// Whether the user may read a file, as an answer.
fn readable_of(host: &HostRuntime, name: &str) -> io::Result<Option<&'static [u8]>> {
    match answer(fs::metadata(host, name))? {
        Some(known) if may_read(host, name, &known)? => Ok(Some(b"yes")),
        _ => Ok(None),
    }
}

/// The home folder of a user.
fn home_of<'t>(disk: &Disk<'t>, user: &str) -> Result<Option<&'t [u8]>, AllocError> {
    let Some(passwd) = Users::new(disk, b"")?.passwd else {
        return Ok(None);
    };
    let Ok(passwd) = str::from_utf8(passwd) else {
        return Ok(None);
    };
    match home_for_user(passwd, user) {
        Some(home) => Ok(Some(home.as_bytes())),
        None => Ok(None),
    }
}

/// A number that the system knows of a file, in decimal, with another one behind it if there is one.
fn number<'t>(disk: &Disk<'t>, first: u64, second: Option<u64>) -> Result<&'t [u8], AllocError> {
    let text = match second {
        Some(second) => format!(in disk.host.alloc(); "{first} {second}")?,
        None => format!(in disk.host.alloc(); "{first}")?,
    };
    disk.kept(text.as_bytes())
}

/// What the system knows of a file, as an answer about this subject.
fn numbers_of<'t>(
    disk: &Disk<'t>,
    subject: u32,
    known: Option<Metadata>,
) -> Result<Option<&'t [u8]>, AllocError> {
    let Some(known) = known else {
        return Ok(None);
    };
    Ok(Some(match subject {
        asks::DEVICE => number(disk, known.dev(), None)?,
        asks::IDENTITY => number(disk, known.dev(), Some(known.ino()))?,
        _ => number(disk, u64::from(known.uid()), None)?,
    }))
}

/// The answer about the file, the variable or the user of this name.
// Not inlined, so that its values are not on the stack while the search goes on: a run pays for each page.
#[inline(never)]
fn answer_named<'t>(
    disk: &Disk<'t>,
    subject: u32,
    name: &str,
) -> Result<Option<&'t [u8]>, HostError> {
    let host = disk.host;
    Ok(match subject {
        asks::VARIABLE => variable(disk, name)?,
        asks::KIND => kind_of(fs::symlink_metadata(host, name))?,
        asks::LEADS => kind_of(fs::metadata(host, name))?,
        asks::LINK => target_of(disk, name)?,
        asks::REAL => match real_name(host, name.as_bytes())? {
            Some(real) => Some(disk.kept(&real)?),
            None => None,
        },
        asks::TEXT => start_of(disk, name, START)?,
        asks::BLOCK => start_of(disk, name, LONG_START)?,
        asks::SETTINGS => whole_of(disk, name, true)?,
        asks::INCLUDED => whole_of(disk, name, false)?,
        asks::REFUSAL => refusal_of(disk, name)?,
        asks::HOME => home_of(disk, name)?,
        asks::READABLE => readable_of(host, name)?,
        asks::OWNER => numbers_of(disk, subject, known_of_link(host, name.as_bytes())?)?,
        _ => numbers_of(disk, subject, known_of(host, name.as_bytes())?)?,
    })
}

/// The answer to a question.
#[inline(never)]
fn answer_to<'t>(disk: &Disk<'t>, question: &Question) -> Result<Option<&'t [u8]>, HostError> {
    match question.subject {
        asks::CURRENT => Ok(match answer(current_folder(disk.host))? {
            Some(folder) => Some(disk.kept(&folder)?),
            None => None,
        }),
        // a text of the search itself, which only has to be kept
        asks::KEEP => Ok(None),
        asks::USER => Ok(numbers_of(disk, asks::OWNER, known_of(disk.host, b"/proc/self")?)?),
        subject => {
            let opened = opened_above(disk.host, &question.name)?;
            match text_of(&opened) {
                Ok(name) => answer_named(disk, subject, name),
                // no other file takes the place of one that the system does not open
                Err(_) if subject == asks::READABLE => Ok(Some(b"yes")),
                Err(_) if subject == asks::REFUSAL => Ok(Some(b"its name is not UTF-8")),
                Err(_) => Ok(None),
            }
        }
    }
}

/// Whether a question is about a variable of a setting that GIT_CONFIG_COUNT counts.
fn is_counted(question: &Question) -> bool {
    let name = &question.name;
    question.subject == asks::VARIABLE
        && (name.starts_with(b"GIT_CONFIG_KEY_") || name.starts_with(b"GIT_CONFIG_VALUE_"))
}

/// The answer to a question, as a fact.
#[inline(never)]
fn fact_of<'t>(
    disk: &Disk<'t>,
    variables: &mut CommandVariables<'t>,
    question: &Question,
) -> Result<Fact<'t>, HostError> {
    let told = match str::from_utf8(&question.name) {
        Ok(name) if is_counted(question) => variables.get(disk, name)?,
        _ => answer_to(disk, question)?,
    };
    Ok(Fact {
        name: disk.kept(&question.name)?,
        text: told.unwrap_or_default(),
        subject: question.subject,
        has: u32::from(told.is_some()),
    })
}

/// What Git does in the folder of this name, which begins in the current folder.
pub(crate) fn search_here<'t>(disk: &Disk<'t>, folder: &'t [u8]) -> Result<Answer, HostError> {
    let mut search = Search::new(disk.host.alloc(), folder);
    let mut variables = CommandVariables::Unread;
    for _ in 0..u64::MAX {
        match search.next() {
            Ok(answer) => return Ok(answer),
            Err(Pause::Ask(question)) => search.tell(fact_of(disk, &mut variables, &question)?)?,
            Err(Pause::Memory(error)) => return Err(HostError::from(error)),
        }
    }
    Err(HostError::from(AllocError))
}

/// Where Git stops, with texts that are kept.
pub(crate) fn kept_stop<'t>(
    disk: &Disk<'t>,
    stop: &Stop<Vec<u8>>,
) -> Result<Stop<&'t [u8]>, AllocError> {
    Ok(Stop {
        file: disk.kept(&stop.file)?,
        line: stop.line,
        why: stop.why,
        words: disk.kept(&stop.words)?,
    })
}

/// Hands on the entries of a reading to the end. This system answers what it asks, and names begin in the current folder.
/// It fails where Git stops, and where the system or memory is refused.
pub fn hand_on<'t, R: Receiver<'t>>(
    disk: &Disk<'t>,
    reading: &mut Reading<'t>,
    receiver: &mut R,
) -> Result<(), HereError<'t>> {
    let mut variables = CommandVariables::Unread;
    for _ in 0..u64::MAX {
        match reading.read(receiver) {
            Ok(()) => return Ok(()),
            Err(Halt::Pauses(Pause::Ask(question))) => {
                reading.tell(fact_of(disk, &mut variables, &question)?)?;
            }
            Err(Halt::Pauses(Pause::Memory(error))) => return Err(HereError::from(error)),
            Err(Halt::Stops(stop)) => return Err(HereError::Stops(kept_stop(disk, &stop)?)),
            Err(Halt::Fails(error)) => return Err(HereError::from(error)),
        }
    }
    Err(HereError::from(AllocError))
}
