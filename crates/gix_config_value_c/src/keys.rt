//! The keys of settings, as Git lists them.
ghost use Rattle.gix_config_value_c.specs.Keys.{PutsListed};

use crate::status::Status;
use config_file::Key;

/// Puts a key into the buffer as Git lists it, and its length into `length`: what precedes the first dot and
/// what follows the last one are in lower case.
///
/// Returns `NoSection` if the key has no dot, and otherwise takes any bytes. Returns `ShortBuffer` if the
/// buffer is shorter than the key.
#[unsafe(no_mangle)]
pub extern "C" fn gcv_raw_list_key(key: &[u8], buffer: &mut [u8], length: &mut usize) -> u32
    ensures { PutsListed key.now buffer.old buffer.new length.old length.new result }
{
    let Some(parts) = Key::split(key) else {
        return Status::NoSection as u32;
    };
    let (section, name) = (parts.section().len(), parts.name().len());
    *length = key.len();
    if buffer.len() < key.len() {
        return Status::ShortBuffer as u32;
    }
    buffer[..key.len()].copy_from_slice(key);
    buffer[..section].make_ascii_lowercase();
    buffer[key.len() - name..key.len()].make_ascii_lowercase();
    Status::Ok as u32
}
