//! Edits of the text of a configuration file.
ghost use Rattle.std.specs.Prelude.{◌≡◌, MatchResult};
ghost use Rattle.gix_config_value_c.specs.Buffers.{PutsText};
ghost use Rattle.gix_config_value_c.specs.Edits.{EditsBy, Makes, Refuses, edit_number, told_line};
ghost use Rattle.gix_config_value_c.specs.Edits.{edit_status as status_of};
ghost use Rattle.gix_config_value_c.specs.Numbers.{StandsFor, status_number};

use crate::buffer::put;
use crate::commands::key_status;
use crate::status::Status;
use config_edit::{
    EditError, add, remove_section, rename_section, replace_all, set, unset, unset_all,
};
use std::alloc::Global;

/// An edit, and the texts that it takes. `raw.h` has its number.
#[derive(Clone, Copy)]
pub(crate) enum Edit {
    /// Of a key and a value: the one entry of the key gets the value, or there is a new one.
    Set = 0,
    /// Of a key and a value: the last entry of the key gets the value, and the others go.
    ReplaceAll = 1,
    /// Of a key and a value: there is one more entry.
    Add = 2,
    /// Of a key: its one entry goes.
    Unset = 3,
    /// Of a key: its entries go.
    UnsetAll = 4,
    /// Of two names: the sections of the first one get the second one.
    RenameSection = 5,
    /// Of a name: its sections go.
    RemoveSection = 6,
}

/// Returns the edit with this number, or `None` if no edit has it.
fn edit_of(number: u32) -> Option<Edit>
    ensures { StandsFor edit_number number result }
{
    match number {
        0 => Some(Edit::Set),
        1 => Some(Edit::ReplaceAll),
        2 => Some(Edit::Add),
        3 => Some(Edit::Unset),
        4 => Some(Edit::UnsetAll),
        5 => Some(Edit::RenameSection),
        6 => Some(Edit::RemoveSection),
        _ => None,
    }
}

/// Makes an edit of a text. One that takes a single text leaves the second one alone.
fn edited(
    alloc: Global,
    edit: Edit,
    text: &[u8],
    first: &[u8],
    second: &[u8],
) -> Result<Vec<u8>, EditError>
    ensures { MatchResult result (λ new. Makes edit first.now second.now text.now new.items)
        (Refuses edit first.now second.now text.now) }
{
    match edit {
        Edit::Set => set(alloc, text, first, second),
        Edit::ReplaceAll => replace_all(alloc, text, first, second),
        Edit::Add => add(alloc, text, first, second),
        Edit::Unset => unset(alloc, text, first),
        Edit::UnsetAll => unset_all(alloc, text, first),
        Edit::RenameSection => rename_section(alloc, text, first, second),
        Edit::RemoveSection => remove_section(alloc, text, first),
    }
}

/// Returns the number of the status that says why a text is not edited.
fn edit_status(error: &EditError) -> u32
    ensures { result ≡ status_of error.now }
{
    match error {
        EditError::Memory(_) => Status::NoMemory as u32,
        EditError::Key(error) => key_status(*error),
        EditError::Section => Status::BadSection as u32,
        EditError::Value | EditError::Comment => Status::BadValue as u32,
        EditError::File(error) => error.why.number(),
        EditError::Several => Status::Several as u32,
        EditError::Absent => Status::Absent as u32,
    }
}

/// Puts the edited text into the buffer. If it was refused, returns why, and puts the line of a refused file.
fn answer(
    edited: Result<Vec<u8>, EditError>,
    buffer: &mut [u8],
    size: &mut usize,
    line: &mut usize,
) -> u32
    ensures { MatchResult edited
        (λ new. PutsText new.items buffer.old buffer.new size.new result × (line.new ≡ line.old))
        (λ error. (result ≡ status_of error) × (line.new ≡ told_line error line.old)
        × (buffer.new ≡ buffer.old) × (size.new ≡ size.old)) }
{
    match edited {
        Ok(text) => put(&text, buffer, size),
        Err(error) => {
            if let EditError::File(reason) = &error {
                *line = reason.line;
            }
            edit_status(&error)
        }
    }
}

/// Puts the text that the edit with this number makes into the buffer, and its length into `size`.
///
/// Returns `UnknownKind` if no edit has the number. Returns `NoSection`, `NoKeyName`, `BadKey` or `KeyLineFeed`
/// for a key that Git refuses, `BadSection` if no header can have its section or the new name, and `BadValue`
/// if the value has a NUL. Returns `Several` if several entries have the key of `Set` or `Unset`, and `Absent`
/// if there is no entry or section to change. Returns `BadLine` or `Nul` if the text is no configuration
/// file, and puts the line of the fault into `line`. Returns `NoMemory` if memory is refused, and
/// `ShortBuffer` if the buffer is shorter than the text.
#[unsafe(no_mangle)]
pub extern "C" fn gcv_raw_edit(
    alloc: Global,
    number: u32,
    text: &[u8],
    first: &[u8],
    second: &[u8],
    buffer: &mut [u8],
    size: &mut usize,
    line: &mut usize,
) -> u32
    ensures { EditsBy number first.now second.now text.now
        buffer.old buffer.new size.old size.new line.old line.new result }
{
    let Some(edit) = edit_of(number) else {
        return Status::UnknownKind as u32;
    };
    answer(edited(alloc, edit, text, first, second), buffer, size, line)
}
