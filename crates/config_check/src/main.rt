//! Reports wrong values, unknown keys and invalid lines in Git configuration files, and mends them.
#![tactic(auto)]

mod aliases;
mod annotations;
mod baseline;
mod causes;
mod changes;
mod checking;
mod diff;
mod explain;
mod failure;
mod hints;
mod options;
mod report;
mod rows;
mod sarif;
mod source;
mod text;

use crate::checking::check;
use crate::explain::{explain_code, explain_key};
use crate::failure::{Failure, status, written};
use crate::options::{
    ABOUT, Request, TABLES, VERSION, check_once, git_of, ignored_by, values_of, with_those_of,
};
use crate::rows::{built_in, read_shared, rows_of};
use bumpalo::Bump;
use config_checks::git::SETTINGS;
use config_host::environment::{arguments, words_of};
use config_host::options::{Ends, Options, help, read};
use std::io::Write;
use std::process::ExitCode;

/// Checks what the options ask for, those of the repository's file of rows before them. Returns the exit status.
fn run_check<'m>(
    rt: &'m HostRuntime,
    texts: &'m Bump,
    given: &Options<'m>,
) -> Result<u8, Failure<'m>> {
    let alloc = rt.alloc();
    let (words, text) = match read_shared(rt, texts)? {
        Some(shared) => (shared.words, Some(shared.rows)),
        None => (Vec::new(alloc), None),
    };
    let options = with_those_of(alloc, &words, given)?;
    let ignored = ignored_by(alloc, &values_of(alloc, &options, "ignore")?)?;
    let request = Request::of(rt, &options, &ignored)?;
    let files = values_of(alloc, &options, "settings")?;
    let rows = rows_of(rt, texts, request.git, &files, text)?;
    check(rt, texts, rows, request)
}

/// Says what a code means, or what the rows say of a key. Returns the exit status.
fn run_explain<'m>(
    rt: &'m HostRuntime,
    texts: &'m Bump,
    options: &Options<'m>,
    name: &'m str,
) -> Result<u8, Failure<'m>> {
    if let Some(status) = explain_code(rt, name)? {
        return Ok(status);
    }
    let git = git_of(rt, options)?;
    let files = values_of(rt.alloc(), options, "settings")?;
    let text = match read_shared(rt, texts)? {
        Some(shared) => Some(shared.rows),
        None => None,
    };
    let mut all = rows_of(rt, texts, git, &files, text)?;
    if all.rows.is_empty() {
        all.rows = built_in(rt.alloc(), git, SETTINGS.as_bytes())?;
    }
    explain_key(rt, name, &all)
}

/// Does what the options ask for, and returns the exit status.
fn run<'m>(rt: &'m HostRuntime, texts: &'m Bump, options: &Options<'m>) -> Result<u8, Failure<'m>> {
    if options.has("help") {
        let text = help(rt.alloc(), &ABOUT, TABLES)?;
        written(rt.stdout().write_all(&text))?;
        return Ok(0);
    }
    if options.has("version") {
        written(println!(rt; "config_check {VERSION}"))?;
        return Ok(0);
    }
    check_once(&options.given)?;
    match options.last("explain") {
        Some(name) => run_explain(rt, texts, options, name),
        None => run_check(rt, texts, options),
    }
}

/// Does what the arguments ask for, and returns the exit status.
fn run_arguments<'m>(
    rt: &'m HostRuntime,
    texts: &'m Bump,
    arguments: &'m [String],
) -> Result<u8, Failure<'m>> {
    let words = words_of(rt.alloc(), arguments)?;
    match read(rt.alloc(), TABLES, &words, Ends::Nowhere)? {
        Ok(options) => run(rt, texts, &options),
        Err(misuse) => Err(Failure::Misuse(misuse)),
    }
}

fn main(rt: HostRuntime) -> ExitCode {
    let texts = Bump::new(rt.alloc());
    match arguments(&rt) {
        Ok(arguments) => status(&rt, run_arguments(&rt, &texts, &arguments)),
        Err(error) => status(&rt, Err(Failure::Arguments(error))),
    }
}
