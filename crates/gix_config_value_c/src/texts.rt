//! Texts of a kind that is chosen at run time.
ghost use Rattle.gix_config_value.specs.declared.kind.Kind.TheVariants as kinds;
ghost use Rattle.gix_config_value_c.specs.Numbers.{kind_number};
ghost use Rattle.gix_config_value_c.specs.Texts.{NormalizesInto, ComparesInto};

use crate::buffer::put;
use crate::numbers::{flag_number, kind_of};
use crate::status::Status;
use bstr::BStr;
use gix_config_value::canonical::{CanonicalText, Kind, Value, normalize_into, same};
use gix_config_value::integer::Suffix;

/// Puts the letter of the suffix that a text names. Returns `Refused` if the text names no suffix.
#[inline(never)]
#[tactic(auto, using(config_integer::specs::Laws::Suffix::suffix_has_text))]
fn put_suffix(text: &[u8], buffer: &mut [u8], length: &mut usize) -> u32
    ensures { NormalizesInto (kind_number kinds.Suffix) text.now
        buffer.old buffer.new length.old length.new result }
{
    match Suffix::try_from(BStr::new(text)) {
        Ok(suffix) => put(suffix.text().as_str().as_bytes(), buffer, length),
        Err(()) => Status::Refused as u32,
    }
}

/// Puts the canonical text of the value of a text into the buffer, and its length into `length`. Returns
/// `UnknownKind` if no kind has the number, `Refused` if the text has no value of the kind, and `ShortBuffer`
/// if the buffer is shorter than the canonical text. After the last one only that text's length is written.
#[unsafe(no_mangle)]
pub extern "C" fn gcv_raw_normalize(
    kind: u32,
    text: &[u8],
    buffer: &mut [u8],
    length: &mut usize,
) -> u32
    ensures { NormalizesInto kind text.now buffer.old buffer.new length.old length.new result }
{
    let Some(kind) = kind_of(kind) else {
        return Status::UnknownKind as u32;
    };
    if let Kind::Suffix = kind {
        return put_suffix(text, buffer, length);
    }
    let mut canonical = CanonicalText::new();
    if !normalize_into(kind, BStr::new(text), &mut canonical) {
        return Status::Refused as u32;
    }
    put(canonical.as_str().as_bytes(), buffer, length)
}

/// Puts into `out` whether two texts mean the same, 1 or 0. Returns `UnknownKind` if no kind has the number,
/// and `Refused` if one of the texts has no value of the kind. After these `out` is left alone.
#[unsafe(no_mangle)]
pub extern "C" fn gcv_raw_same(kind: u32, first: &[u8], second: &[u8], out: &mut u32) -> u32
    ensures { ComparesInto kind first.now second.now out.old out.new result }
{
    let Some(kind) = kind_of(kind) else {
        return Status::UnknownKind as u32;
    };
    match same(kind, BStr::new(first), BStr::new(second)) {
        Some(answer) => {
            *out = flag_number(answer);
            Status::Ok as u32
        }
        None => Status::Refused as u32,
    }
}
