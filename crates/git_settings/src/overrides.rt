//! Settings of the command line, which stand before everything else: those of `-c` and `--config-env`.

use crate::output::{tell, tell_place};
use config_answers::line::COMMAND;
use config_file::{CommandError, Stop, Why, push_setting};
use config_host::HostError;
use config_host::environment::variable;
use std::alloc::AllocError;

/// A setting of the command line.
#[derive(Clone, Copy)]
enum Override<'a> {
    /// A key, or a key, `=` and a value, after `-c`.
    Given(&'a str),
    /// A key, `=` and the name of the variable that has the value, after `--config-env`.
    OfVariable(&'a str),
}

/// The setting with which words begin, if it is one, and how many words it takes.
fn front<'a>(words: &[&'a str]) -> Option<(Override<'a>, usize)> {
    match words {
        ["-c", given, ..] => Some((Override::Given(given), 2)),
        ["--config-env", given, ..] => Some((Override::OfVariable(given), 2)),
        [option, ..] => match option.strip_prefix("--config-env=") {
            Some(given) => Some((Override::OfVariable(given), 1)),
            None => None,
        },
        [] => None,
    }
}

/// Appends a text in the quotes of a shell, as Git writes it.
fn push_quoted(parameters: &mut Vec<u8>, text: &[u8]) -> Result<(), AllocError> {
    parameters.push(b'\'')?;
    for byte in text {
        if matches!(*byte, b'\'' | b'!') {
            parameters.extend_from_slice(b"'\\")?;
            parameters.push(*byte)?;
            parameters.push(b'\'')?;
        } else {
            parameters.push(*byte)?;
        }
    }
    Ok(parameters.push(b'\'')?)
}

/// Appends a setting, as Git writes it in GIT_CONFIG_PARAMETERS.
fn push_parameter(
    parameters: &mut Vec<u8>,
    key: &str,
    value: Option<&[u8]>,
) -> Result<(), AllocError> {
    if !parameters.is_empty() {
        parameters.push(b' ')?;
    }
    push_quoted(parameters, key.as_bytes())?;
    parameters.push(b'=')?;
    match value {
        Some(value) => push_quoted(parameters, value),
        None => Ok(()),
    }
}

/// Appends a setting. Tells that its key is none, and then returns false.
fn push(
    rt: &HostRuntime,
    parameters: &mut Vec<u8>,
    key: &str,
    value: Option<&[u8]>,
) -> Result<bool, HostError> {
    let mut text = Vec::new(rt.alloc());
    match push_setting(rt.alloc(), &mut text, key.as_bytes(), value) {
        Ok(()) => {
            push_parameter(parameters, key, value)?;
            Ok(true)
        }
        Err(CommandError::Memory(error)) => Err(HostError::from(error)),
        Err(error) => {
            let words = format!(in rt.alloc(); "{error}")?;
            tell_place(
                rt,
                Stop {
                    file: COMMAND,
                    line: 0,
                    why: Why::BadCommand,
                    words: words.as_bytes(),
                },
            );
            Ok(false)
        }
    }
}

/// Appends a setting of `--config-env`. Tells that it is none, and then returns false.
fn push_of_variable(
    rt: &HostRuntime,
    parameters: &mut Vec<u8>,
    given: &str,
) -> Result<bool, HostError> {
    let Some((key, name)) = given.rsplit_once('=') else {
        tell(rt, &[b"fatal: invalid config format: ", given.as_bytes()]);
        return Ok(false);
    };
    if let Some(value) = variable(rt, name)? {
        return push(rt, parameters, key, Some(&value));
    }
    let (key, name) = (key.as_bytes(), name.as_bytes());
    let (missing, of_key) = (
        b"fatal: missing environment variable",
        b" for configuration '",
    );
    if name.is_empty() {
        tell(rt, &[missing, b" name", of_key, key, b"'"]);
    } else {
        tell(rt, &[missing, b" '", name, b"'", of_key, key, b"'"]);
    }
    Ok(false)
}

/// Appends the settings with which words begin to those of GIT_CONFIG_PARAMETERS, as `git -c` does. Returns the words
/// after them, or `None` if one is no setting, which is told.
pub fn take<'w, 'a>(
    rt: &HostRuntime,
    words: &'w [&'a str],
    parameters: &mut Vec<u8>,
) -> Result<Option<&'w [&'a str]>, HostError> {
    let mut count = 0usize;
    for _ in 0..words.len() {
        let Some((setting, taken)) = front(words.get(count..).unwrap_or(&[])) else {
            break;
        };
        let is_taken = match setting {
            Override::OfVariable(given) => push_of_variable(rt, parameters, given)?,
            Override::Given(given) => match given.split_once('=') {
                Some((key, value)) => push(rt, parameters, key, Some(value.as_bytes()))?,
                None => push(rt, parameters, given, None)?,
            },
        };
        if !is_taken {
            return Ok(None);
        }
        count = count.saturating_add(taken);
    }
    Ok(words.get(count..))
}
