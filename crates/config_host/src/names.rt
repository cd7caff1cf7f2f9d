//! The names of files and folders: bytes, of which the system opens those that are UTF-8. Those that are found are
//! kept with the texts of files.

use crate::disk::Disk;
use crate::environment::current_folder;
use bstr::ByteSlice;
use bumpalo::collections::into_bump_slice;
use std::alloc::{AllocError, Global};
use std::fs::{self, Metadata};
use std::io::{self, ErrorKind};

/// The name as a text. Otherwise the error that the system has for such names, which no file has.
pub(crate) fn text_of(name: &[u8]) -> io::Result<&str> {
    match str::from_utf8(name) {
        Ok(text) => Ok(text),
        Err(_) => Err(io::Error::from(ErrorKind::InvalidFilename)),
    }
}

/// What the system answers, or `None` if it has no answer. Only refused memory is an error.
pub(crate) fn answer<T: Drop>(asked: io::Result<T>) -> io::Result<Option<T>> {
    match asked {
        Ok(answer) => Ok(Some(answer)),
        Err(error) if error.kind() == ErrorKind::OutOfMemory => Err(error),
        Err(_) => Ok(None),
    }
}

/// The bytes before the last `/` of a name, and those after it, or `None` if it has no `/`.
pub(crate) fn split_last(name: &[u8]) -> Option<(&[u8], &[u8])> {
    name.rsplit_once_str(b"/")
}

/// The folder of a file, in which the name that it links to begins.
pub(crate) fn folder_of(name: &[u8]) -> &[u8] {
    match split_last(name) {
        Some(([], _)) => b"/",
        Some((folder, _)) => folder,
        None => b"",
    }
}

/// What follows a folder in the name of a file below it or of the folder itself, or `None` if it is that of another.
fn below_folder<'n>(name: &'n [u8], folder: &[u8]) -> Option<&'n [u8]> {
    match name.strip_prefix(folder)? {
        [] => Some(b""),
        [b'/', rest @ ..] => Some(rest),
        _ => None,
    }
}

/// The name by which the system opens a file. It opens no name that is not UTF-8, so that such a one from the root
/// becomes that of its place as the current folder sees it, if it is one above this, or below one above.
pub(crate) fn opened_above(host: &HostRuntime, name: &[u8]) -> io::Result<Vec<u8>> {
    let mut steps = b".".to_vec(host.alloc())?;
    if str::from_utf8(name).is_ok() || !name.starts_with(b"/") {
        return Ok(name.to_vec(host.alloc())?);
    }
    let current = current_folder(host)?;
    let mut folder = current.as_slice();
    for _ in 0..current.len() {
        if let Some(rest) = below_folder(name, folder) {
            return Ok(path_inside(host.alloc(), &steps, rest)?);
        }
        let Some((above, _)) = split_last(folder) else {
            break;
        };
        folder = above;
        steps.extend_from_slice(b"/..")?;
    }
    Ok(name.to_vec(host.alloc())?)
}

/// These parts, one after the other, as a name that is kept.
pub(crate) fn joined<'t>(disk: &Disk<'t>, parts: &[&[u8]]) -> Result<&'t [u8], AllocError> {
    let mut whole = Vec::new(disk.texts);
    for part in parts {
        whole.extend_from_slice(part)?;
    }
    Ok(into_bump_slice(whole))
}

/// The name of a file in a folder. A name that begins with `/` stays. An empty folder is the current one.
pub(crate) fn path_inside(
    alloc: Global,
    folder: &[u8],
    name: &[u8],
) -> Result<Vec<u8>, AllocError> {
    let mut whole = Vec::new(alloc);
    if !folder.is_empty() && !name.starts_with(b"/") {
        whole.extend_from_slice(folder)?;
        if !folder.ends_with(b"/") {
            whole.push(b'/')?;
        }
    }
    whole.extend_from_slice(name)?;
    Ok(whole)
}

/// The name of a file in a folder, which is kept.
pub(crate) fn inside<'t>(
    disk: &Disk<'t>,
    folder: &[u8],
    name: &[u8],
) -> Result<&'t [u8], AllocError> {
    disk.kept(&path_inside(disk.host.alloc(), folder, name)?)
}

/// What the system knows of the file of this name, which may be a link, or `None`.
pub(crate) fn known_of_link(host: &HostRuntime, name: &[u8]) -> io::Result<Option<Metadata>> {
    answer(match text_of(name) {
        Ok(name) => fs::symlink_metadata(host, name),
        Err(error) => Err(error),
    })
}

/// What the system knows of the file of this name, or `None`.
pub(crate) fn known_of(host: &HostRuntime, name: &[u8]) -> io::Result<Option<Metadata>> {
    answer(match text_of(name) {
        Ok(name) => fs::metadata(host, name),
        Err(error) => Err(error),
    })
}

/// Whether there is a file or a folder of this name.
pub fn exists(host: &HostRuntime, name: &[u8]) -> io::Result<bool> {
    Ok(known_of(host, name)?.is_some())
}

/// The name from the root without links, or `None` if the system does not know it.
pub(crate) fn real_name(host: &HostRuntime, name: &[u8]) -> io::Result<Option<Vec<u8>>> {
    let real = answer(match text_of(name) {
        Ok(name) => fs::canonicalize(host, name),
        Err(error) => Err(error),
    })?;
    match real {
        Some(real) => Ok(Some(real.as_path().as_str().as_bytes().to_vec(host.alloc())?)),
        None => Ok(None),
    }
}
