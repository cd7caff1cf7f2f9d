//! The readers of the seven kinds.
//!
//! A reader returns `Ok` and puts the value into `out`, or it returns `Refused` and puts the number of the
//! fault into `fault`. It leaves the other one alone.
ghost use Rattle.config_text.specs.declared.errors.Fault.TheVariants as faults;
ghost use Rattle.std.specs.Prelude.{Some};
ghost use Rattle.gix_config_value.specs.Refusals.{OnlyFault};
ghost use Rattle.gix_config_value.specs.Suffix.{SuffixText};
ghost use Rattle.gix_config_value.specs.Integer.{IntegerText};
ghost use Rattle.gix_config_value.specs.Amount.{AmountText, AmountFault};
ghost use Rattle.gix_config_value.specs.Boolean.{BooleanText};
ghost use Rattle.gix_config_value.specs.Name.{NameText};
ghost use Rattle.gix_config_value.specs.Attribute.{AttributeText};
ghost use Rattle.gix_config_value.specs.Color.{ColorText};
ghost use Rattle.gix_config_value_c.specs.Numbers.{suffix_number, flag_number};
ghost use Rattle.gix_config_value_c.specs.Structs.{integer_struct, name_struct, color_struct};
ghost use Rattle.gix_config_value_c.specs.Readers.{ReadsInto, Faults, NoFault};

use crate::faults::fault_number;
use crate::numbers::{flag_number, suffix_number};
use crate::status::Status;
use crate::structs::{GcvColor, GcvInteger, GcvName, color_struct, integer_struct, name_struct};
use bitflags::Flags;
use bstr::BStr;
use gix_config_value::canonical::TryRead;
use gix_config_value::color::{Attribute, Name};
use gix_config_value::integer::{Amount, Suffix};
use gix_config_value::{Boolean, Color, Integer};

/// Reads a suffix, as its number. A refused text has no fault: `fault` is then 0.
#[unsafe(no_mangle)]
pub extern "C" fn gcv_raw_read_suffix(text: &[u8], out: &mut u32, fault: &mut u32) -> u32
    ensures { ReadsInto (λ s. suffix_number (Some s)) SuffixText NoFault
        text.now out.old out.new fault.old fault.new result }
{
    match Suffix::try_from(BStr::new(text)) {
        Ok(suffix) => {
            *out = suffix_number(Some(suffix));
            Status::Ok as u32
        }
        Err(()) => {
            *fault = 0;
            Status::Refused as u32
        }
    }
}

/// Reads an integer.
#[unsafe(no_mangle)]
pub extern "C" fn gcv_raw_read_integer(text: &[u8], out: &mut GcvInteger, fault: &mut u32) -> u32
    ensures { ReadsInto integer_struct IntegerText (Faults (OnlyFault faults.Integer))
        text.now out.old out.new fault.old fault.new result }
{
    match Integer::try_read(text) {
        Ok(integer) => {
            *out = integer_struct(integer);
            Status::Ok as u32
        }
        Err(reason) => {
            *fault = fault_number(reason);
            Status::Refused as u32
        }
    }
}

/// Reads an amount, as its number.
#[unsafe(no_mangle)]
pub extern "C" fn gcv_raw_read_amount(text: &[u8], out: &mut i64, fault: &mut u32) -> u32
    ensures { ReadsInto (λ v. v.0) AmountText (Faults AmountFault)
        text.now out.old out.new fault.old fault.new result }
{
    match Amount::try_read(text) {
        Ok(amount) => {
            *out = amount.0;
            Status::Ok as u32
        }
        Err(reason) => {
            *fault = fault_number(reason);
            Status::Refused as u32
        }
    }
}

/// Reads a boolean, as 0 or 1.
#[unsafe(no_mangle)]
pub extern "C" fn gcv_raw_read_boolean(text: &[u8], out: &mut u32, fault: &mut u32) -> u32
    ensures { ReadsInto (λ v. flag_number v.0) BooleanText (Faults (OnlyFault faults.Boolean))
        text.now out.old out.new fault.old fault.new result }
{
    match Boolean::try_read(text) {
        Ok(boolean) => {
            *out = flag_number(boolean.0);
            Status::Ok as u32
        }
        Err(reason) => {
            *fault = fault_number(reason);
            Status::Refused as u32
        }
    }
}

/// Reads a color's name.
#[unsafe(no_mangle)]
pub extern "C" fn gcv_raw_read_name(text: &[u8], out: &mut GcvName, fault: &mut u32) -> u32
    ensures { ReadsInto name_struct NameText (Faults (OnlyFault faults.Color))
        text.now out.old out.new fault.old fault.new result }
{
    match Name::try_read(text) {
        Ok(name) => {
            *out = name_struct(name);
            Status::Ok as u32
        }
        Err(reason) => {
            *fault = fault_number(reason);
            Status::Refused as u32
        }
    }
}

/// Reads an attribute, as its bits.
#[unsafe(no_mangle)]
pub extern "C" fn gcv_raw_read_attribute(text: &[u8], out: &mut u32, fault: &mut u32) -> u32
    ensures { ReadsInto (λ a. a.0) AttributeText (Faults (OnlyFault faults.Color))
        text.now out.old out.new fault.old fault.new result }
{
    match Attribute::try_read(text) {
        Ok(attribute) => {
            *out = attribute.bits();
            Status::Ok as u32
        }
        Err(reason) => {
            *fault = fault_number(reason);
            Status::Refused as u32
        }
    }
}

/// Reads a color.
#[unsafe(no_mangle)]
pub extern "C" fn gcv_raw_read_color(text: &[u8], out: &mut GcvColor, fault: &mut u32) -> u32
    ensures { ReadsInto color_struct ColorText (Faults (OnlyFault faults.Color))
        text.now out.old out.new fault.old fault.new result }
{
    match Color::try_read(text) {
        Ok(color) => {
            *out = color_struct(color);
            Status::Ok as u32
        }
        Err(reason) => {
            *fault = fault_number(reason);
            Status::Refused as u32
        }
    }
}
