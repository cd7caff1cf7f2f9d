//! References that are in a reftable, which is a stack of tables in the folder `reftable`. Git's technical/reftable
//! has the format of a table: the names of its first block come in order, HEAD among the first of them.
ghost use Rattle.std.specs.Prelude.{IfErr};
ghost use Rattle.config_search.specs.Names.{inside};
ghost use Rattle.config_search.specs.Questions.{IsKept, IsNeeded};
ghost use Rattle.config_search.specs.Shown.{IsNew};
ghost use Rattle.config_search.specs.declared.TheConstants.{TEXT, BLOCK};

use crate::fact::{Lookup, Pause, answer_in};
use crate::name::{inside, line};
use crate::{BLOCK, TEXT};
use std::alloc::{AllocError, Global};

/// The number of bytes that are read of all tables, so that a list which names a long one often ends.
const MOST: usize = 1 << 25;

/// The number at the start of these bytes, which ends with a byte whose highest bit is not set, and what follows.
fn number(bytes: &[u8]) -> Option<(usize, &[u8])> {
    let mut value = 0usize;
    let mut rest = bytes;
    for byte in bytes {
        rest = rest.split_first()?.1;
        let digit = usize::from(*byte & 0x7f);
        value = value.checked_mul(128)?.checked_add(digit)?;
        if *byte & 0x80 == 0 {
            return Some((value, rest));
        }
        value = value.checked_add(1)?;
    }
    None
}

/// A reference of a table.
#[derive(Clone, Copy)]
struct Record<'t> {
    /// How many bytes its name has in common with the name before it.
    kept: usize,
    /// The other bytes of its name.
    more: &'t [u8],
    /// The reference that it names, if it is a symbolic one.
    target: Option<&'t [u8]>,
}

/// The first of these records, and those after it. An object id has this many bytes.
fn first_record(records: &[u8], id: usize) -> Option<(Record<'_>, &[u8])> {
    let (kept, rest) = number(records)?;
    let (length, rest) = number(rest)?;
    let (more, rest) = rest.split_at_checked(length / 8)?;
    let (_, rest) = number(rest)?;
    let (target, rest) = match length % 8 {
        0 => (None, rest),
        1 => (None, rest.split_at_checked(id)?.1),
        2 => (None, rest.split_at_checked(id.checked_mul(2)?)?.1),
        3 => {
            let (length, rest) = number(rest)?;
            let (target, rest) = rest.split_at_checked(length)?;
            (Some(target), rest)
        }
        _ => return None,
    };
    Some((Record { kept, more, target }, rest))
}

/// How many bytes the header of a table has, and an object id in it. `None` if this is no table.
fn sizes_of(table: &[u8]) -> Option<(usize, usize)> {
    match table {
        [b'R', b'E', b'F', b'T', 1, ..] => Some((24, 20)),
        [b'R', b'E', b'F', b'T', 2, ..] => {
            let (_, hash) = table.split_at_checked(24)?;
            Some((28, if hash.starts_with(b"s256") { 32 } else { 20 }))
        }
        _ => None,
    }
}

/// The number of bytes of the first block of a table, from the start of the table. `None` if it has no references.
fn block_length(table: &[u8]) -> Option<usize> {
    let (header, _) = sizes_of(table)?;
    let (_, [b'r', high, middle, low, ..]) = table.split_at_checked(header)? else {
        return None;
    };
    Some(usize::from(*high) * 65536 + usize::from(*middle) * 256 + usize::from(*low))
}

/// The records of the first block of a table whose header has this many bytes. Places of names follow them, and
/// how many these are.
fn records_of(table: &[u8], header: usize) -> Option<&[u8]> {
    let (block, _) = table.split_at_checked(block_length(table)?)?;
    let (block, [high, low]) = block.split_at_checked(block.len().checked_sub(2)?)? else {
        return None;
    };
    let places = 3 * (usize::from(*high) * 256 + usize::from(*low));
    let (block, _) = block.split_at_checked(block.len().checked_sub(places)?)?;
    let (_, records) = block.split_at_checked(header.checked_add(4)?)?;
    Some(records)
}

/// The record of the reference of this name in the first block of a table, if that has one.
fn record_of<'a>(
    alloc: Global,
    table: &'a [u8],
    wanted: &[u8],
) -> Result<Option<Record<'a>>, AllocError> {
    let Some((header, id)) = sizes_of(table) else {
        return Ok(None);
    };
    let mut rest = records_of(table, header).unwrap_or(b"");
    let mut name = Vec::new(alloc);
    for _ in 0..table.len() {
        let Some((record, after)) = first_record(rest, id) else {
            break;
        };
        name.truncate(record.kept);
        name.extend_from_slice(record.more)?;
        if name.as_slice() == wanted {
            return Ok(Some(record));
        }
        rest = after;
    }
    Ok(None)
}

/// The first block of a table, or less if no more than `left` bytes may be read. `None` if there is no such file.
fn first_block<'t>(
    lookup: &Lookup<'_, 't>,
    folder: &[u8],
    table: &[u8],
    left: usize,
) -> Result<Option<&'t [u8]>, Pause>
    requires text_of { IsNeeded lookup.now.folder.now lookup.now.facts.now TEXT (inside folder.now table.now) }
    requires block_of { IsNeeded lookup.now.folder.now lookup.now.facts.now BLOCK (inside folder.now table.now) }
    ensures { IfErr result (IsNew lookup.now.folder.now lookup.now.facts.now) }
{
    let Some(start) = answer_in(lookup, TEXT, folder, table)? else {
        return Ok(None);
    };
    let block = match block_length(start) {
        Some(length) if start.len() < length && start.len() < left => {
            answer_in(lookup, BLOCK, folder, table)?.unwrap_or(start)
        }
        _ => start,
    };
    Ok(Some(block.get(..left).unwrap_or(block)))
}

/// The record of a reference in a table, as the reference that it names, or `Some(None)` if it names none. `None` if
/// the table has no such record. Takes what is read from what may be read.
fn target_in_table<'t>(
    lookup: &Lookup<'_, 't>,
    folder: &[u8],
    table: &[u8],
    name: &[u8],
    left: &mut usize,
) -> Result<Option<Option<&'t [u8]>>, Pause>
    requires text_of { IsNeeded lookup.now.folder.now lookup.now.facts.now TEXT (inside folder.now table.now) }
    requires block_of { IsNeeded lookup.now.folder.now lookup.now.facts.now BLOCK (inside folder.now table.now) }
    ensures { IfErr result (IsNew lookup.now.folder.now lookup.now.facts.now) }
{
    let Some(block) = first_block(lookup, folder, table, *left)? else {
        return Ok(None);
    };
    *left = left.saturating_sub(block.len());
    match record_of(lookup.alloc, block, name)? {
        Some(record) => Ok(Some(record.target)),
        None => Ok(None),
    }
}

/// The reference that this one names in the tables of a folder, or `None` if it names none. A later table decides over
/// those before it.
pub(crate) fn target_in<'t>(
    lookup: &Lookup<'_, 't>,
    folder: &[u8],
    name: &[u8],
) -> Result<Option<&'t [u8]>, Pause>
    requires { IsKept lookup.now.folder.now lookup.now.facts.now folder.now }
    ensures { IfErr result (IsNew lookup.now.folder.now lookup.now.facts.now) }
{
    let folder = inside(lookup.alloc, folder, b"reftable")?;
    let Some(tables) = answer_in(lookup, TEXT, &folder, b"tables.list")? else {
        return Ok(None);
    };
    let mut left = MOST;
    for table in line(tables).rsplit(|byte| *byte == b'\n') {
        if let Some(target) = target_in_table(lookup, &folder, table, name, &mut left)? {
            return Ok(target);
        }
    }
    Ok(None)
}
