//! The settings of a command, as the text of a configuration file.
ghost use Rattle.std.specs.Prelude.{◌≡◌};
ghost use Rattle.gix_config_value_c.specs.Commands.{CountsInto, PutsParameters, PutsSetting};
ghost use Rattle.gix_config_value_c.specs.Commands.{command_status as status_of, key_status as key_status_of};
ghost use Rattle.gix_config_value_c.specs.Numbers.{status_number};

use crate::buffer::put;
use crate::status::Status;
use config_file::Why;
use config_file::command::{CommandError, count_of, push_parameters, push_setting};
use config_file::key::KeyError;
use std::alloc::Global;

/// Returns the number of the status that says why Git refuses a key.
pub(crate) fn key_status(error: KeyError) -> u32
    ensures { result ≡ status_number (key_status_of error) }
{
    match error {
        KeyError::NoSection => Status::NoSection as u32,
        KeyError::NoName => Status::NoKeyName as u32,
        KeyError::BadByte => Status::BadKey as u32,
        KeyError::LineFeed => Status::KeyLineFeed as u32,
    }
}

/// Returns the number of the status that says why Git refuses the settings of a command.
fn command_status(error: &CommandError) -> u32
    ensures { result ≡ status_of error.now }
{
    match error {
        CommandError::BadCount => Status::BadCount as u32,
        CommandError::TooMany => Status::TooManySettings as u32,
        CommandError::MissingKey(_) => Status::MissingKey as u32,
        CommandError::MissingValue(_) => Status::MissingValue as u32,
        CommandError::BadFormat => Status::BadParameters as u32,
        CommandError::NoKey(_) => Status::NoKey as u32,
        CommandError::EmptyKey => Status::EmptyKey as u32,
        CommandError::Key { error, .. } => key_status(*error),
        CommandError::Nul => Why::Nul.number(),
        CommandError::Memory(_) => Status::NoMemory as u32,
    }
}

/// Puts lines that add one setting of a command to a configuration file into the buffer, and their length
/// into `length`: a `GIT_CONFIG_KEY_n` with its `GIT_CONFIG_VALUE_n`.
///
/// Returns `EmptyKey`, `NoSection`, `NoKeyName`, `BadKey` or `KeyLineFeed` for a key that Git refuses, and
/// `Nul` if there is a NUL. Returns `NoMemory` if memory is refused, and then writes nothing. Returns
/// `ShortBuffer` if the buffer is shorter than the lines.
#[unsafe(no_mangle)]
pub extern "C" fn gcv_raw_command_setting(
    alloc: Global,
    key: &[u8],
    value: &[u8],
    buffer: &mut [u8],
    length: &mut usize,
) -> u32
    ensures { PutsSetting key.now value.now buffer.old buffer.new length.old length.new result }
{
    let mut lines = Vec::new(alloc);
    match push_setting(alloc, &mut lines, key, Some(value)) {
        Ok(()) => put(&lines, buffer, length),
        Err(error) => command_status(&error),
    }
}

/// Puts lines that add the settings of `GIT_CONFIG_PARAMETERS` to a configuration file into the buffer, and
/// their length into `length`.
///
/// Returns `BadParameters` or `NoKey` if Git refuses the text, and otherwise as `gcv_raw_command_setting`.
#[unsafe(no_mangle)]
pub extern "C" fn gcv_raw_command_parameters(
    alloc: Global,
    parameters: &[u8],
    buffer: &mut [u8],
    length: &mut usize,
) -> u32
    ensures { PutsParameters parameters.now buffer.old buffer.new length.old length.new result }
{
    let mut lines = Vec::new(alloc);
    match push_parameters(alloc, &mut lines, parameters) {
        Ok(()) => put(&lines, buffer, length),
        Err(error) => command_status(&error),
    }
}

/// Puts the number of settings that a `GIT_CONFIG_COUNT` of this text announces into `count`: 0 to
/// 2147483647. Returns `BadCount` if it is no number, and `TooManySettings` if it is larger.
#[unsafe(no_mangle)]
pub extern "C" fn gcv_raw_command_count(text: &[u8], count: &mut usize) -> u32
    ensures { CountsInto text.now count.old count.new result }
{
    match count_of(text) {
        Ok(number) => {
            *count = number;
            Status::Ok as u32
        }
        Err(error) => command_status(&error),
    }
}
