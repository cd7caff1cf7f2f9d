//! The product of an integer.
ghost use Rattle.gix_config_value_c.specs.Values.{Multiplies};

use crate::status::Status;
use crate::structs::{GcvInteger, integer_of};

/// Puts the number times the factor of its suffix into `out`. Returns `Overflow` if the product does not fit
/// `i64`, and `BadSuffix` if no suffix has the number in the struct. After these `out` is left alone.
#[unsafe(no_mangle)]
pub extern "C" fn gcv_raw_product(value: &GcvInteger, out: &mut i64) -> u32
    ensures { Multiplies value.now out.old out.new result }
{
    let Some(integer) = integer_of(*value) else {
        return Status::BadSuffix as u32;
    };
    match integer.to_decimal() {
        Some(product) => {
            *out = product;
            Status::Ok as u32
        }
        None => Status::Overflow as u32,
    }
}
