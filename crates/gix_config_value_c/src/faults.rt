//! The reasons why a text or a path is refused, as numbers and as texts.
ghost use Rattle.std.specs.Prelude.{◌≡◌, ◌++◌, codes, option_copied};
ghost use Rattle.config_path.specs.Interpolation.{place_shown};
ghost use Rattle.gix_config_value_c.specs.Numbers.{fault_number};
ghost use Rattle.gix_config_value_c.specs.Faults.{place_number, path_fault_number, numbered_text, TellsFault};

use crate::buffer::put;
use crate::status::Status;
use gix_config_value::Fault;
use gix_config_value::path::interpolate::{Error, Place};

/// Returns the number of a fault of a text.
pub(crate) fn fault_number(fault: Fault) -> u32
    ensures { result ≡ fault_number fault }
{
    match fault {
        Fault::Boolean => 1,
        Fault::Integer => 2,
        Fault::Overflow => 3,
        Fault::OutOfRange => 4,
        Fault::Color => 5,
    }
}

/// Returns the number of a place in a path that is not UTF-8.
fn place_number(place: Place) -> u32
    ensures { result ≡ place_number place }
{
    match place {
        Place::PastPrefix => 11,
        Place::PastHome => 12,
        Place::Username => 13,
        Place::PastUser => 14,
        Place::Whole => 15,
    }
}

/// Returns the number of a fault of a path, or 0 for out of memory.
pub(crate) fn path_fault_number(error: Error<'_>) -> u32
    ensures { result ≡ path_fault_number error.entry }
{
    match error {
        Error::PathMissing => 6,
        Error::InstallDirMissing => 7,
        Error::HomeMissing => 8,
        Error::LookupMissing => 9,
        Error::UserNotFound => 10,
        Error::IllFormed { place, .. } => place_number(place),
        Error::Memory(_) => 0,
    }
}

/// Returns the text of an error about bytes that are not UTF-8.
fn ill_formed_text(place: Place) -> &'static str
    ensures { result.now ≡ codes "Ill-formed UTF-8 in " ++ place_shown place }
{
    Error::IllFormed { place, input: b"" }.text()
}

/// Returns the text of the fault with this number, or `None` if no fault has it.
fn numbered_text(number: u32) -> Option<&'static str>
    ensures { option_copied result ≡ numbered_text number }
{
    match number {
        1 => Some(Fault::Boolean.text()),
        2 => Some(Fault::Integer.text()),
        3 => Some(Fault::Overflow.text()),
        4 => Some(Fault::OutOfRange.text()),
        5 => Some(Fault::Color.text()),
        6 => Some(Error::PathMissing.text()),
        7 => Some(Error::InstallDirMissing.text()),
        8 => Some(Error::HomeMissing.text()),
        9 => Some(Error::LookupMissing.text()),
        10 => Some(Error::UserNotFound.text()),
        11 => Some(ill_formed_text(Place::PastPrefix)),
        12 => Some(ill_formed_text(Place::PastHome)),
        13 => Some(ill_formed_text(Place::Username)),
        14 => Some(ill_formed_text(Place::PastUser)),
        15 => Some(ill_formed_text(Place::Whole)),
        _ => None,
    }
}

/// Puts the text of a fault into the buffer, and its length into `length`. Returns `UnknownFault` if no fault
/// has the number, and then writes nothing. Returns `ShortBuffer` if the buffer is shorter than the text, and
/// then writes only the length.
#[unsafe(no_mangle)]
pub extern "C" fn gcv_raw_fault_text(fault: u32, buffer: &mut [u8], length: &mut usize) -> u32
    ensures { TellsFault fault buffer.old buffer.new length.old length.new result }
{
    match numbered_text(fault) {
        Some(text) => put(text.as_bytes(), buffer, length),
        None => Status::UnknownFault as u32,
    }
}
