//! Answers lines of standard input, each of which has a kind, a space and a text, as [`program::run`] says.
#![tactic(auto)]

use gix_config_value::program;
use std::env::{Env, FillError};
use std::io::{self, Write};
use std::process::ExitCode;

/// What `--help` prints.
const HELP: &[u8] = b"\
Answers each line of standard input, which is a kind, a space and a text

Usage: config_value

The kinds are suffix, integer, amount, boolean, name, attribute and color. An answer is `ok` and the one way in
which the value is written, or `refused` for a text without a value of the kind, or `unknown kind`.

Options:
      --help     Print help
      --version  Print version

Exit status:
  0  each line is ok
  1  a line is not
  2  the input cannot be read, the output cannot be written, memory is refused, or there is another argument

Example:
  echo 'color bold brightred' | config_value
";

/// What `--version` prints.
const VERSION: &[u8] = b"config_value 0.2.0\n";

/// What an argument that is none of the options gets.
const MISUSED: &[u8] = b"config_value: there are no arguments but --help and --version\n";

/// The status of a run that cannot do what it is asked for.
const FAILED: u8 = 2;

/// The status after a text is written.
fn written(outcome: io::Result<()>) -> u8 {
    match outcome {
        Ok(()) => 0,
        Err(_) => FAILED,
    }
}

/// Does what the first argument asks.
fn answer(rt: &HostRuntime, argument: &[u8]) -> u8 {
    match argument {
        b"--help" => written(rt.stdout().write_all(HELP)),
        b"--version" => written(rt.stdout().write_all(VERSION)),
        _ => {
            let _ = rt.stderr().write_all(MISUSED);
            FAILED
        }
    }
}

fn main(rt: HostRuntime) -> ExitCode {
    let mut argument = [0u8; 16];
    ExitCode::from(match rt.arg(1, &mut argument) {
        Err(FillError::NotPresent) => {
            program::status(&program::run(rt.alloc(), &mut rt.stdin(), &mut rt.stdout()))
        }
        Err(FillError::TooLong) => answer(&rt, b""),
        Ok(length) => answer(&rt, argument.get(..length).unwrap_or(b"")),
    })
}
