//! The entries of a file that include no other one, many in one call.
ghost use Rattle.std.specs.Prelude.{◌≡◌, ◌≤◌, IfOk, IfErr, OnOk, length};
ghost use Rattle.gix_config_value_c.specs.Plain.{TellsNext, PlainInto};

use crate::status::Status;
use crate::walk::{GcvFrame, GcvKnown, GcvStep, frame_of, held, known_of, step_struct, texts_of};
use config_file::walk::include_of;
use config_file::{Include, Known};
use std::alloc::{AllocError, Global};

/// Goes on behind the next entry of the file of this frame, and puts its texts behind the first `size` bytes of the
/// buffer. Returns what the step to it tells. If the file has no entry left, is refused there, or the entry includes a
/// file, or its texts do not fit, the frame and the buffer stay as they are.
fn tell_next<'t>(
    alloc: Global,
    known: &Known<'_>,
    frame: &mut GcvFrame<'t>,
    buffer: &mut [u8],
    size: usize,
) -> Result<Option<GcvStep<'t>>, AllocError>
    requires { size ≤ length buffer.old }
    ensures ok { IfOk result (TellsNext known.now frame.old frame.new size buffer.old buffer.new) }
    ensures err { IfErr result (λ e. (frame.new ≡ frame.old) × (buffer.new ≡ buffer.old)) }
{
    let Some(mut file) = frame_of(frame) else {
        return Ok(None);
    };
    let entry = match file.entries.next() {
        Some(Ok(entry)) => entry,
        Some(Err(_)) => return Ok(None),
        None => return Ok(None),
    };
    let place = file.place;
    let include = include_of(alloc, known, place, &entry)?;
    let Include::NotFollowed = include else {
        return Ok(None);
    };
    let texts = texts_of(alloc, &entry, &include)?;
    let length = texts.bytes.len();
    if buffer.len() - size < length {
        return Ok(None);
    }
    buffer[size..size + length].copy_from_slice(&texts.bytes);
    *frame = held(&file);
    Ok(Some(step_struct(place, &entry, &include, &texts)))
}

/// Takes entries off the file of this frame, from the next one on, as far as they include no file and the buffer and
/// `steps` have room. Puts the texts of one behind those of another into the buffer, tells each entry in `steps`, and puts
/// the number of them into `count`. [`gcv_raw_next`](crate::walk::gcv_raw_next) takes the one that comes next.
///
/// Returns `BadFlag` if a flag of `known` is neither 0 nor 1, and then writes nothing. Returns `NoMemory` if memory is
/// refused for the entry that comes next.
#[unsafe(no_mangle)]
pub extern "C" fn gcv_raw_next_plain<'t>(
    alloc: Global,
    frame: &mut GcvFrame<'t>,
    known: &GcvKnown<'_>,
    buffer: &mut [u8],
    steps: &mut [GcvStep<'t>],
    count: &mut usize,
) -> u32
    ensures { PlainInto frame.old known.now buffer.old steps.old count.old frame.new buffer.new steps.new count.new
        result }
{
    let Some(known) = known_of(known) else {
        return Status::BadFlag as u32;
    };
    let mut size = 0;
    let mut told = 0;
    'steps: while told < steps.len() {
        match tell_next(alloc, &known, frame, buffer, size) {
            Ok(Some(step)) => {
                size += step.size;
                steps[told] = step;
                told += 1;
            }
            Ok(None) => break 'steps,
            Err(_) => {
                *count = told;
                return Status::NoMemory as u32;
            }
        }
    }
    *count = told;
    Status::Ok as u32
}
