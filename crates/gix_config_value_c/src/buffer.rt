//! Texts that are written into the caller's memory.
ghost use Rattle.std.specs.Prelude.{◌≡◌, ℕ, ◌+◌, ◌≤◌, ◌++◌, length as list_length, take, drop};
ghost use Rattle.gix_config_value_c.specs.Buffers.{PutsText};

use crate::status::Status;

/// Writes a text to the front of the buffer, and its length into `length`. If the buffer is shorter than the
/// text, only that length is written.
#[inline(always)]
pub(crate) fn put(text: &[u8], buffer: &mut [u8], length: &mut usize) -> u32
    ensures { PutsText text.now buffer.old buffer.new length.new result }
{
    *length = text.len();
    if buffer.len() < text.len() {
        return Status::ShortBuffer as u32;
    }
    buffer[..text.len()].copy_from_slice(text);
    Status::Ok as u32
}

/// Writes a text into the buffer at index `at`, after which there must be room for it. Returns the index at
/// which the text ends.
#[inline(always)]
pub(crate) fn push(text: &[u8], buffer: &mut [u8], at: usize) -> usize
    requires { at + list_length text.now ≤ list_length buffer.old }
    ensures end { result ≡ at + list_length text.now }
    ensures front { take result buffer.new ≡ take at buffer.old ++ text.now }
    ensures behind { (n : ℕ) → result ≤ n → drop n buffer.new ≡ drop n buffer.old }
{
    let end = at + text.len();
    buffer[at..end].copy_from_slice(text);
    end
}
