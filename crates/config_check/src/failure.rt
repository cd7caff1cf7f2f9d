//! Why a run ends with status 2, and how that is told.

use config_checks::check::CheckError;
use config_checks::finding::push_shown;
use config_host::options::Misuse;
use config_host::{ArgumentError, HostError, ReadError};
use std::alloc::{AllocError, Global};
use std::io::{self, ErrorKind, Write};
use std::process::ExitCode;
use thiserror::Error;

/// Why a run ends with status 2.
// A `match` makes some of them, since the prover forgets the result of a `map_err` there.
#[derive(Debug, Drop, Error)]
pub(crate) enum Failure<'m> {
    #[error("cannot read the arguments: {0}")]
    Arguments(ArgumentError),
    #[error("{0}")]
    Misuse(Misuse<'m>),
    /// An argument is wrong, for this reason: what is said before it and behind it.
    #[error("{0}{1}{2}")]
    Argument(&'static str, &'m str, &'static str),
    /// The arguments are wrong together, or name no files, for this reason.
    #[error("{0}")]
    Whole(&'static str),
    #[error("cannot read {file}: {error}")]
    File {
        file: &'m str,
        error: io::Error,
    },
    #[error("{file}:{line}: {why}")]
    Row {
        file: &'m str,
        line: usize,
        why: String,
    },
    #[error("{file}:{line}: not a finding of --format json")]
    Baseline {
        file: &'m str,
        line: usize,
    },
    #[error("cannot read .gitconfig-check: {0}")]
    Shared(ReadError),
    #[error("cannot find the files that Git reads here: {0}")]
    Here(#[from] HostError),
    #[error("cannot write: {0}")]
    Write(io::Error),
    #[error("no memory")]
    Memory(#[from] AllocError),
}

impl Failure<'_> {
    /// Whether the failure is printed. It is not printed if nothing reads the output anymore.
    fn is_printed(&self) -> bool {
        match self {
            Failure::Write(error) => error.kind() != ErrorKind::BrokenPipe,
            _ => true,
        }
    }
}

/// The failure of a check.
pub(crate) fn failed<T>(checked: Result<T, CheckError>) -> Result<T, Failure<'static>> {
    match checked {
        Ok(done) => Ok(done),
        Err(CheckError::Write(error)) => Err(Failure::Write(error)),
        Err(CheckError::Memory(error)) => Err(Failure::Memory(error)),
    }
}

/// The failure of a write.
pub(crate) fn written<T>(outcome: io::Result<T>) -> Result<T, Failure<'static>> {
    match outcome {
        Ok(done) => Ok(done),
        Err(error) => Err(Failure::Write(error)),
    }
}

/// A text as a line, with its control characters shown safely.
fn line_of(alloc: Global, text: Result<String, AllocError>) -> Result<Vec<u8>, AllocError> {
    let mut line = Vec::new(alloc);
    push_shown(&mut line, text?.as_bytes())?;
    line.push(b'\n')?;
    Ok(line)
}

/// Writes a line on standard error.
pub(crate) fn tell(rt: &HostRuntime, text: Result<String, AllocError>) {
    let _ = match line_of(rt.alloc(), text) {
        Ok(line) => rt.stderr().write_all(&line),
        Err(_) => rt.stderr().write_all(b"config_check: no memory\n"),
    };
}

/// The exit status of an outcome. If the outcome is a failure, prints it on standard error.
pub(crate) fn status(rt: &HostRuntime, outcome: Result<u8, Failure<'_>>) -> ExitCode {
    match outcome {
        Ok(status) => ExitCode::from(status),
        Err(failure) => {
            if failure.is_printed() {
                tell(rt, format!(in rt.alloc(); "config_check: {failure}"));
            }
            ExitCode::from(2)
        }
    }
}
