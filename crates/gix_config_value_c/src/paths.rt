//! Path values: the mark of an optional path, and the directories that a path refers to.
ghost use Rattle.std.specs.Prelude.{ℕ, MatchOption, option_copied};
ghost use Rattle.config_path.specs.Parts.{joint_text, joint_result};
ghost use Rattle.gix_config_value.specs.Interpolation.PathResult.{text as whole_text};
ghost use Rattle.gix_config_value_c.specs.Numbers.{flag_number};
ghost use Rattle.gix_config_value_c.specs.Values.{IsNoValue};
ghost use Rattle.gix_config_value_c.specs.Paths.{CutsMark, IsGiven, PutsPath, InterpolatesInto};

use crate::buffer::push;
use crate::faults::path_fault_number;
use crate::numbers::{flag_number, flag_of};
use crate::status::Status;
use gix_config_value::path::cut_mark;
use gix_config_value::path::interpolate::Error;
use gix_config_value::path::parts::{Joint, joint_of};

/// The length of the longest block of memory in bytes, and so of the longest text.
const LONGEST_BLOCK: usize = usize::MAX / 2;

/// Puts into `optional` whether a path is marked as optional, 1 or 0, and into `start` the index at which the
/// path begins after the mark. Only one mark is cut off.
#[unsafe(no_mangle)]
pub extern "C" fn gcv_raw_cut_mark(text: &[u8], optional: &mut u32, start: &mut usize)
    ensures { CutsMark text.now optional.new start.new }
{
    let (is_optional, path) = cut_mark(text);
    *optional = flag_number(is_optional);
    *start = text.len() - path.len();
}

/// Returns the bytes if the flag is 1, `Some(None)` if it is 0, and `None` if it is neither.
pub(crate) fn given<'a>(flag: u32, bytes: &'a [u8]) -> Option<Option<&'a [u8]>>
    ensures { MatchOption result
        (IsNoValue flag_number flag)
        (λ given. IsGiven (flag, bytes.now) (option_copied given)) }
{
    if flag_of(flag)? {
        return Some(Some(bytes));
    }
    Some(None)
}

/// Puts the text of the joint into the buffer. Returns `NoMemory` if no block of memory could hold the text.
fn put_joint(joint: Joint<'_, &[u8]>, buffer: &mut [u8], length: &mut usize) -> u32
    ensures { (fault : ℕ) → PutsPath LONGEST_BLOCK (whole_text (joint_text (λ dir. dir.now) joint.entry))
        buffer.old buffer.new length.old length.new fault fault result }
{
    let dir = joint.dir.unwrap_or(&[]);
    let (slash, rest) = (joint.slash().as_bytes(), joint.rest.as_bytes());
    let size = dir.len() + slash.len() + rest.len();
    if size > LONGEST_BLOCK {
        return Status::NoMemory as u32;
    }
    *length = size;
    if buffer.len() < size {
        return Status::ShortBuffer as u32;
    }
    let at = push(dir, buffer, 0);
    let at = push(slash, buffer, at);
    push(rest, buffer, at);
    Status::Ok as u32
}

/// Puts the text of the joint into the buffer, or the number of the fault into `fault`.
fn put_path(
    answer: Result<Joint<'_, &[u8]>, Error<'_>>,
    buffer: &mut [u8],
    length: &mut usize,
    fault: &mut u32,
) -> u32
    ensures { PutsPath LONGEST_BLOCK (joint_result (λ dir. dir.now) answer.entry)
        buffer.old buffer.new length.old length.new fault.old fault.new result }
{
    match answer {
        Ok(joint) => put_joint(joint, buffer, length),
        Err(error) => {
            *fault = path_fault_number(error);
            Status::Refused as u32
        }
    }
}

/// Interpolates a path value, and puts the text into the buffer and its length into `length`. One mark of an
/// optional path is cut off first. The install directory, the home directory and the passwd text are given if
/// their flags are 1, and may hold any bytes.
///
/// Returns `BadFlag` if a flag is neither 0 nor 1. Returns `Refused` if the path is refused, and then puts
/// the number of the fault into `fault`. Returns `NoMemory` if the text is longer than a block of memory can
/// be; the call itself takes no memory. Returns `ShortBuffer` if the buffer is shorter than the text.
#[unsafe(no_mangle)]
pub extern "C" fn gcv_raw_interpolate(
    text: &[u8],
    has_install_dir: u32,
    install_dir: &[u8],
    has_home: u32,
    home: &[u8],
    has_passwd: u32,
    passwd: &[u8],
    buffer: &mut [u8],
    length: &mut usize,
    fault: &mut u32,
) -> u32
    ensures { InterpolatesInto text.now (has_install_dir, install_dir.now) (has_home, home.now)
        (has_passwd, passwd.now)
        buffer.old buffer.new length.old length.new fault.old fault.new result }
{
    let Some(install_dir) = given(has_install_dir, install_dir) else {
        return Status::BadFlag as u32;
    };
    let Some(home) = given(has_home, home) else {
        return Status::BadFlag as u32;
    };
    let Some(passwd) = given(has_passwd, passwd) else {
        return Status::BadFlag as u32;
    };
    let (_is_optional, path) = cut_mark(text);
    let answer = joint_of(path, install_dir, home, passwd);
    put_path(answer, buffer, length, fault)
}
