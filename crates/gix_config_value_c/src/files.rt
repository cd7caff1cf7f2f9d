//! The settings of entries: their keys and values, each with a NUL at its end.
ghost use Rattle.std.specs.Prelude.{◌≡◌, ◌++◌, [], IfOk, OnOk, option_map};
ghost use Rattle.std.specs.Option.{option_map_or};
ghost use Rattle.std.specs.Cow.{cow_slice_items};
ghost use Rattle.config_file.specs.Views.{entry_of};
ghost use Rattle.gix_config_value_c.specs.Files.{ended, IsSettingOf};

use config_file::entry::Entry;
use std::alloc::{AllocError, Global};
use std::borrow::CowSlice;

/// An entry of a file, with its key as Git lists it and the text of its value.
#[derive(Drop)]
pub(crate) struct Setting<'t> {
    pub key: Vec<u8>,
    pub value: Option<CowSlice<'t, u8>>,
    pub line: usize,
}

/// Returns how many bytes the key and the value of an entry take at most, with their NULs.
fn room_for(entry: &Entry<'_>) -> usize {
    let mut room = entry.key.len().saturating_add(4);
    if let Some(section) = &entry.section {
        room = room.saturating_add(section.name.len());
        if let Some(subsection) = &section.subsection {
            room = room.saturating_add(subsection.raw.len());
        }
    }
    if let Some(value) = &entry.value {
        room = room.saturating_add(value.raw.len());
    }
    room
}

impl<'t> Setting<'t> {
    /// Returns the setting of an entry, whose key has room for the value behind it. It fails only if memory is refused.
    pub(crate) fn of_entry(alloc: Global, entry: &Entry<'t>) -> Result<Self, AllocError>
        ensures { IfOk result (IsSettingOf (entry_of entry.now)) }
    {
        let value = match &entry.value {
            Some(value) => Some(value.text(alloc)?),
            None => None,
        };
        let mut key = Vec::with_capacity(alloc, room_for(entry))?;
        entry.push_key(&mut key)?;
        Ok(Self {
            key,
            value,
            line: entry.line,
        })
    }
}

/// Appends a text and NUL.
pub(crate) fn push_text(bytes: &mut Vec<u8>, text: &[u8]) -> Result<(), AllocError>
    ensures { OnOk result (bytes.new.items ≡ bytes.old.items ++ ended text.now) }
{
    bytes.extend_from_slice(text)?;
    bytes.push(0)?;
    Ok(())
}

/// Appends the value of a setting and returns 1, or returns 0 if the setting has no value.
pub(crate) fn push_value(
    bytes: &mut Vec<u8>,
    value: &Option<CowSlice<'_, u8>>,
) -> Result<u32, AllocError>
    ensures bytes { OnOk result (bytes.new.items
        ≡ bytes.old.items ++ option_map_or ended (option_map cow_slice_items value.now) []) }
    ensures flag { IfOk result
        (λ flag. flag ≡ option_map_or (λ v. 1) (option_map cow_slice_items value.now) 0) }
{
    match value {
        Some(text) => {
            push_text(bytes, text)?;
            Ok(1)
        }
        None => Ok(0),
    }
}
