//! What a check judges: the entries of a file.
ghost use Rattle.std.specs.Prelude.{◌≡◌, IfOk};
ghost use Rattle.config_file.specs.Views.{entry_of};
ghost use Rattle.config_checks.specs.Settings.{first_line, IsSettingOf};

use config_file::entry::Entry;
use std::alloc::{AllocError, Global};

/// An entry of a file, with its key as Git lists it and the text of its value.
///
/// ```rust
/// use config_checks::setting::Setting;
/// use config_file::Entries;
///
/// let entry = Entries::new(b"[Core]\n\tBare = yes # no\n").next();
/// let entry = entry.expect(&rt, "an entry").expect(&rt, "a line that can be read");
/// let setting = Setting::of_entry(alloc, "config", &entry)?;
/// assert_eq!(rt; setting.line, 2);
/// assert_eq!(rt; setting.key.as_slice(), b"core.bare".as_slice());
/// assert!(rt; matches!(setting.value, Some(text) if text.as_slice() == b"yes".as_slice()));
/// ```
#[derive(Drop)]
pub struct Setting<'a> {
    /// The name of the file.
    pub file: &'a str,
    /// The line of the key, from 1.
    pub line: usize,
    /// The line on which its value ends.
    pub last: usize,
    /// The key as Git lists it.
    pub key: Vec<u8>,
    /// The text of the value, or `None` for a key alone.
    pub value: Option<Vec<u8>>,
}

/// The line of the key of an entry: the value may continue over further lines, on the last of which the entry
/// ends.
pub fn first_line(entry: &Entry<'_>) -> usize
    ensures { result ≡ first_line (entry_of entry.now) }
{
    match &entry.value {
        Some(value) => {
            let feeds = value.raw.iter().filter(|byte| **byte == b'\n').count();
            entry.line.saturating_sub(feeds)
        }
        None => entry.line,
    }
}

impl<'a> Setting<'a> {
    /// The setting of an entry of the file with this name. It fails only if there is no memory for its texts.
    pub fn of_entry(alloc: Global, file: &'a str, entry: &Entry<'_>) -> Result<Self, AllocError>
        ensures { IfOk result (IsSettingOf file.now (entry_of entry.now)) }
    {
        let value = match &entry.value {
            Some(value) => Some(value.text(alloc)?.into_owned(alloc)?),
            None => None,
        };
        Ok(Self {
            file,
            line: first_line(entry),
            last: entry.line,
            key: entry.key_text(alloc)?,
            value,
        })
    }
}
