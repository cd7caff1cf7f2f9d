//! The arguments and the variables of a program, as bytes.
ghost use Rattle.std.specs.Prelude.{◌≡◌};
ghost use Rattle.config_host.specs.declared.environment.HostError.TheVariants.{System};
ghost use Rattle.config_host.specs.declared.environment.ArgumentError.TheVariants.{Memory};

use crate::disk::Disk;
use crate::names::answer;
use bstr::{BStr, ByteSlice};
use std::alloc::{AllocError, Global};
use std::collections::HashMap;
use std::env::{Env, FillError};
use std::{fs, io};
use thiserror::Error;

/// Why a program cannot say where it runs.
///
/// ```rust
/// use bumpalo::Bump;
/// use config_host::{Disk, HostError, files_here};
///
/// let texts = Bump::new(rt.alloc());
/// let said = match files_here(&Disk::new(&rt, &texts)) {
///     Ok(_) => "no fault",
///     Err(HostError::Variable(_)) => "a variable that is not UTF-8",
///     Err(_) => "the system",
/// };
/// assert_eq!(rt; said, "no fault");
/// ```
#[derive(Debug, Drop, Error)]
#[non_exhaustive]
pub enum HostError {
    /// The variable of this name is needed, and it is not UTF-8.
    #[error("{0} is not UTF-8")]
    Variable(String),
    /// The system refuses an answer, or memory.
    #[error("{0}")]
    System(io::Error),
}

impl From<io::Error> for HostError {
    ghost from_gives = { λ error host. host ≡ System error };

    fn from(error: io::Error) -> HostError {
        HostError::System(error)
    }
}

impl From<AllocError> for HostError {
    ghost from_gives = { λ _ host. (error : _) × (host ≡ System error) };

    fn from(error: AllocError) -> HostError {
        HostError::System(io::Error::from(error))
    }
}

/// Why the arguments of a program cannot be read.
///
/// ```rust
/// use config_host::{ArgumentError, arguments};
///
/// let count = match arguments(&rt) {
///     Ok(arguments) => arguments.len(), // the name of the program is the first
///     Err(ArgumentError::NotUtf8(bytes)) => bytes.len(),
///     Err(_) => 0, // memory was refused
/// };
/// assert!(rt; count > 0);
/// ```
#[derive(Debug, Drop, Error)]
#[non_exhaustive]
pub enum ArgumentError {
    /// This argument is not UTF-8.
    #[error("{}: the argument is not UTF-8", BStr::new(.0))]
    NotUtf8(Vec<u8>),
    /// Memory was refused.
    #[error("out of memory")]
    Memory(AllocError),
}

impl From<AllocError> for ArgumentError {
    ghost from_gives = { λ error refused. refused ≡ Memory error };

    fn from(error: AllocError) -> ArgumentError {
        ArgumentError::Memory(error)
    }
}

/// What the environment is asked for.
#[derive(Clone, Copy)]
enum Input<'n> {
    Argument(usize),
    Variable(&'n str),
}

/// The number of bytes that is enough for most variables.
const USUAL: usize = 256;

/// The number of bytes that is enough for the name of a folder.
const LONGEST_FOLDER: usize = 4096;

fn fill(host: &HostRuntime, input: Input<'_>, buffer: &mut [u8]) -> Result<usize, FillError> {
    match input {
        Input::Argument(index) => host.arg(index, buffer),
        Input::Variable(name) => host.var(name, buffer),
    }
}

/// The bytes of what is asked for, or `None` if there is no such thing.
fn bytes_of(host: &HostRuntime, input: Input<'_>) -> Result<Option<Vec<u8>>, AllocError> {
    let mut size = USUAL;
    for _ in 0..usize::BITS {
        let mut bytes = Vec::new(host.alloc());
        bytes.resize(size, 0)?;
        match fill(host, input, &mut bytes) {
            Ok(length) => {
                bytes.truncate(length);
                return Ok(Some(bytes));
            }
            Err(FillError::NotPresent) => return Ok(None),
            Err(FillError::TooLong) => size = size.saturating_mul(2),
        }
    }
    Err(AllocError)
}

/// The value of an environment variable, or `None` if it is not set.
pub fn variable(host: &HostRuntime, name: &str) -> Result<Option<Vec<u8>>, AllocError> {
    bytes_of(host, Input::Variable(name))
}

/// The value of an environment variable, which is kept, or `None` if it is not set.
pub fn kept_variable<'t>(disk: &Disk<'t>, name: &str) -> Result<Option<&'t [u8]>, AllocError> {
    match variable(disk.host, name)? {
        Some(value) => Ok(Some(disk.kept(&value)?)),
        None => Ok(None),
    }
}

/// The variables whose names begin with `GIT_CONFIG_`. They are read together when the first is asked for, since the
/// system looks through all variables for each one, and there may be two for each setting of a command.
#[derive(Drop)]
pub(crate) enum CommandVariables<'t> {
    /// None is asked for yet.
    Unread,
    /// Their values by their names.
    Shown(HashMap<&'t [u8], &'t [u8]>),
    /// The system does not show them, so that it is asked for each.
    Hidden,
}

/// The variables as the system shows them, each with a NUL behind it, or `None` if it does not.
fn shown_variables<'t>(disk: &Disk<'t>) -> Result<Option<&'t [u8]>, AllocError> {
    match answer(fs::read(disk.host, "/proc/self/environ")) {
        Ok(Some(text)) => Ok(Some(disk.kept(&text)?)),
        Ok(None) => Ok(None),
        Err(_) => Err(AllocError),
    }
}

/// The values of those of a command by their names, of which the first counts.
fn values_of<'t>(
    alloc: Global,
    variables: &'t [u8],
) -> Result<HashMap<&'t [u8], &'t [u8]>, AllocError> {
    let mut values = HashMap::new(alloc);
    for variable in variables.split_str(b"\0") {
        if !variable.starts_with(b"GIT_CONFIG_") {
            continue;
        }
        if let Some((name, value)) = variable.split_once_str(b"=") {
            if values.get(&name).is_none() {
                values.insert(name, value)?;
            }
        }
    }
    Ok(values)
}

impl<'t> CommandVariables<'t> {
    /// The value of one, or `None` if it is not set.
    pub fn get(&mut self, disk: &Disk<'t>, name: &str) -> Result<Option<&'t [u8]>, AllocError> {
        if matches!(self, CommandVariables::Unread) {
            *self = match shown_variables(disk)? {
                Some(variables) => {
                    CommandVariables::Shown(values_of(disk.host.alloc(), variables)?)
                }
                None => CommandVariables::Hidden,
            };
        }
        match self {
            CommandVariables::Shown(values) => Ok(values.get(&name.as_bytes()).copied()),
            _ => kept_variable(disk, name),
        }
    }
}

/// The arguments of the program, which begin with its name.
pub fn arguments(host: &HostRuntime) -> Result<Vec<String>, ArgumentError> {
    let mut all = Vec::new(host.alloc());
    for index in 0..usize::MAX {
        let Some(argument) = bytes_of(host, Input::Argument(index))? else {
            break;
        };
        if str::from_utf8(&argument).is_err() {
            return Err(ArgumentError::NotUtf8(argument));
        }
        if let Ok(text) = String::from_utf8(argument) {
            if all.push(text).is_err() {
                return Err(ArgumentError::Memory(AllocError));
            }
        }
    }
    Ok(all)
}

/// The arguments as words, without the name of the program.
pub fn words_of(alloc: Global, arguments: &[String]) -> Result<Vec<&str>, AllocError> {
    let mut words = Vec::new(alloc);
    for argument in arguments.iter().skip(1) {
        words.push(argument.as_str())?;
    }
    Ok(words)
}

/// The name of the current folder from the root, without links.
pub(crate) fn current_folder(host: &HostRuntime) -> io::Result<Vec<u8>> {
    let mut bytes = Vec::new(host.alloc());
    bytes.resize(LONGEST_FOLDER, 0)?;
    let length = host.current_dir(&mut bytes)?;
    bytes.truncate(length);
    Ok(bytes)
}
