//! The users of a system, whose home directories a `~` at the start of a path stands for.

use crate::disk::Disk;
use crate::environment::kept_variable;
use crate::names::joined;
use std::alloc::AllocError;

/// What a system knows of its users.
///
/// ```rust
/// use bumpalo::Bump;
/// use config_host::{Disk, Users};
///
/// let texts = Bump::new(rt.alloc());
/// let users = Users::new(&Disk::new(&rt, &texts), b"/no-such-root")?;
/// assert!(rt; users.passwd.is_none());
/// ```
#[derive(Clone, Copy)]
pub struct Users<'t> {
    /// The home directory of the current user: the variable `HOME`, if it is set.
    pub home: Option<&'t [u8]>,
    /// The text of the list of users, or `None` if it cannot be read.
    pub passwd: Option<&'t [u8]>,
}

impl<'t> Users<'t> {
    /// The users in `/etc/passwd` below this folder, which is empty for the system itself. It fails only if
    /// memory is refused.
    pub fn new(disk: &Disk<'t>, root: &[u8]) -> Result<Users<'t>, AllocError> {
        let passwd = match disk.text_of(joined(disk, &[root, b"/etc/passwd"])?) {
            Ok(text) => Some(text),
            Err(error) if error.is_memory() => return Err(AllocError),
            Err(_) => None,
        };
        Ok(Users {
            home: kept_variable(disk, "HOME")?,
            passwd,
        })
    }
}
