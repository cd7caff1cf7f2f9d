//! The name of an included file.
ghost use Rattle.std.specs.Prelude.{◌≡◌, ◌≤◌, ◌++◌, length, drop, IfOk, MatchOption, None, Some};
ghost use Rattle.std.specs.Prelude.{option_copied};
ghost use Rattle.config_file.specs.Path as spec;
ghost use Rattle.config_file.specs.Path.{Expands, BeginsUnknown, IsIncludedName, is_no_slash};
ghost use Rattle.std.specs.List.{suffix_len};

use config_path::parts::{Form, form_of};
use std::alloc::{AllocError, Global};

/// The directories that a path may begin with.
///
/// ```rust
/// use config_file::Directories;
/// use config_file::path::expand;
///
/// let directories = Directories { home: Some(b"/home/ann"), install_dir: None };
/// assert!(rt; expand(b"~/more", directories).is_some());
/// assert!(rt; expand(b"%(prefix)/more", directories).is_none()); // this directory is not known
/// ```
#[derive(Clone, Copy)]
pub struct Directories<'d> {
    /// The home directory of the current user, for `~`.
    pub home: Option<&'d [u8]>,
    /// The directory that Git is installed in, for `%(prefix)/`.
    pub install_dir: Option<&'d [u8]>,
}

/// Two texts, one after the other.
pub(crate) fn joined(alloc: Global, first: &[u8], second: &[u8]) -> Result<Vec<u8>, AllocError>
    ensures { IfOk result (λ whole. whole.items ≡ first.now ++ second.now) }
{
    let mut whole = Vec::new(alloc);
    whole.extend_from_slice(first)?;
    whole.extend_from_slice(second)?;
    Ok(whole)
}

/// How many bytes follow the last `/`, or how many there are if there is no `/`.
fn name_length(file: &[u8]) -> usize
    ensures count { result ≡ suffix_len is_no_slash file.now }
    ensures within { result ≤ length file.now }
{
    file.iter().rev().take_while(|byte| **byte != b'/').count()
}

/// The directory of a file: its name up to its last `/`, which is included; empty if it has no `/`.
fn directory(file: &[u8]) -> &[u8]
    ensures { result.now ≡ spec.directory file.now }
{
    &file[..file.len() - name_length(file)]
}

/// The name of the file that a path includes. A relative path is put after the directory of the including
/// file. It fails only if memory is refused.
#[tactic(auto, using(crate::proofs::Paths::absolute_name, crate::proofs::Paths::relative_name))]
pub fn included_name(alloc: Global, file: &[u8], path: &[u8]) -> Result<Vec<u8>, AllocError>
    ensures { IfOk result (λ name. IsIncludedName file.now path.now name.items) }
{
    match path.strip_prefix(b"/") {
        Some(_rest) => Ok(joined(alloc, b"", path)?),
        None => Ok(joined(alloc, directory(file), path)?),
    }
}

/// The directory that a path begins with, and what follows it.
///
/// ```rust
/// use config_file::Directories;
/// use config_file::path::expand;
///
/// let directories = Directories { home: Some(b"/home/ann"), install_dir: None };
/// let parts = expand(b"~/more", directories).expect(&rt, "a known home");
/// assert_eq!(rt; parts.directory, b"/home/ann".as_slice());
/// assert_eq!(rt; parts.rest, b"/more".as_slice());
/// ```
#[derive(Clone, Copy)]
pub struct Expanded<'e> {
    /// The directory, which is empty if the value names neither the home nor the install directory.
    pub directory: &'e [u8],
    /// What follows the directory.
    pub rest: &'e [u8],
}

/// The directory, if it is known, and the value without its first bytes.
fn below<'e>(directory: Option<&'e [u8]>, value: &'e [u8], front: usize) -> Option<Expanded<'e>>
    requires { front ≤ length value.now }
    ensures { MatchOption result (option_copied directory.entry ≡ None)
        (λ parts. (option_copied directory.entry ≡ Some parts.directory.now)
        × (parts.rest.now ≡ drop front value.now)) }
{
    Some(Expanded {
        directory: directory?,
        rest: &value[front..],
    })
}

/// The path of a value, in two parts, or `None` if the value begins with a directory that is not known. Users
/// are not looked up, so the directory of `~user` is not known.
pub fn expand<'e>(value: &'e [u8], directories: Directories<'e>) -> Option<Expanded<'e>>
    ensures { MatchOption result
        (BeginsUnknown (option_copied directories.entry.home) (option_copied directories.entry.install_dir)
        value.now)
        (λ parts. Expands (option_copied directories.entry.home)
        (option_copied directories.entry.install_dir) value.now
        (parts.directory.now ++ parts.rest.now)) }
{
    match form_of(value) {
        Form::BelowHome(_) => below(directories.home, value, 1),
        Form::BelowPrefix(_) => below(directories.install_dir, value, 9),
        Form::BelowUser(_, _) => None,
        Form::Empty | Form::Other(_) => Some(Expanded {
            directory: b"",
            rest: value,
        }),
    }
}
