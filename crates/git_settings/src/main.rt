//! Stands for `git config`: prints, lists and changes settings.
#![tactic(auto)]

mod answers;
mod dates;
mod edits;
mod files;
mod options;
mod output;
mod overrides;
mod posix;
mod request;
mod shown;
mod sources;
mod task;
mod wanted;

use crate::options::{Word, word_of};
use crate::output::{Ending, tell, tell_error, tell_fatal};
use crate::shown::depth_of;
use crate::task::{Task, task_of};
use config_host::HostError;
use config_host::environment::{arguments as arguments_of, variable, words_of};
use config_host::options::{Ends, Misuse, Options, help, read};
use std::io::{ErrorKind, Write};
use std::process::ExitCode;

/// What `--version` prints.
const VERSION: &[u8] = b"git-settings 0.2.0\n";

/// Tells in Git's words how options are wrong, and where Git does so how to use them.
fn refuse(rt: &HostRuntime, word: &Word, misuse: &Misuse<'_>) -> Result<Ending, HostError> {
    tell_error(rt, [b"error: ", b"", b""], misuse);
    if misuse.shows_usage() {
        tell(rt, &[&help(rt.alloc(), &word.about(), word.tables)?]);
    }
    Ok(Ending::Misused)
}

/// Does what a word and its options ask, after these settings of the command line. If no option names a file, Git looks
/// for that of GIT_CONFIG, which has this name.
fn run_word<'a>(
    rt: &HostRuntime,
    word: &Word,
    options: &Options<'a>,
    named: Option<&'a [u8]>,
    commands: &[u8],
) -> Result<Ending, HostError> {
    let named = match named {
        Some(name) if !options.has("file") => match str::from_utf8(name) {
            Ok(name) => Some(name),
            Err(_) => return Err(HostError::Variable(format!(in rt.alloc(); "GIT_CONFIG")?)),
        },
        _ => None,
    };
    match task_of(word, options, named, depth_of(rt, options)?) {
        Ok(Task::Read(request)) => files::run(rt, &request, commands),
        Ok(Task::Change(edit)) => edits::run(rt, &edit, commands),
        Err(misuse) => Ok(misuse.tell(rt)),
    }
}

/// Does what these words ask. GIT_CONFIG may have named a file.
fn run<'a>(
    rt: &HostRuntime,
    words: &[&'a str],
    named: Option<&'a [u8]>,
) -> Result<Ending, HostError> {
    let alloc = rt.alloc();
    let mut commands = Vec::new(alloc);
    let Some(words) = overrides::take(rt, words, &mut commands)? else {
        return Ok(Ending::Refused);
    };
    let (word, rest) = word_of(words);
    let options = match read(alloc, word.tables, rest, Ends::AtWord)? {
        Ok(options) => options,
        Err(misuse) => return refuse(rt, word, &misuse),
    };
    if options.has("help") {
        let text = help(alloc, &word.about(), word.tables)?;
        rt.stdout().write_all(&text)?;
        return Ok(Ending::Done);
    }
    if options.has("version") {
        rt.stdout().write_all(VERSION)?;
        return Ok(Ending::Done);
    }
    run_word(rt, word, &options, named, &commands)
}

/// Does what the arguments ask. GIT_CONFIG may have named a file.
fn run_arguments<'a>(
    rt: &HostRuntime,
    arguments: &'a [String],
    named: Option<&'a [u8]>,
) -> Result<Ending, HostError> {
    let words = words_of(rt.alloc(), arguments)?;
    run(rt, &words, named)
}

/// Does what the arguments of the program ask.
fn run_program(rt: &HostRuntime, arguments: &[String]) -> Result<Ending, HostError> {
    let named = variable(rt, "GIT_CONFIG")?;
    run_arguments(rt, arguments, named.as_deref())
}

/// The status of a program whose output nobody reads any longer, which a signal ends without a word in Git.
const UNREAD: u8 = 141;

/// The status of a run, whose error is told.
fn status_of(rt: &HostRuntime, outcome: Result<Ending, HostError>) -> u8 {
    match outcome {
        Ok(ending) => ending.status(),
        Err(HostError::System(error)) if error.kind() == ErrorKind::BrokenPipe => UNREAD,
        Err(error) => {
            tell_fatal(rt, error);
            Ending::Refused.status()
        }
    }
}

fn main(rt: HostRuntime) -> ExitCode {
    let status = match arguments_of(&rt) {
        Ok(arguments) => status_of(&rt, run_program(&rt, &arguments)),
        Err(error) => {
            tell_fatal(&rt, error);
            Ending::Refused.status()
        }
    };
    ExitCode::from(status)
}
