//! Paths, which may begin with a home directory.
ghost use Rattle.std.specs.Prelude.{◌≡◌, ◌↔◌, IsTrue, IsUtf8, None};
ghost use Rattle.config_path.specs.Passwd.{home_in};
ghost use Rattle.config_path.specs.Parts.{form_in};
ghost use Rattle.config_checks.specs.Paths.{LacksHome, IsHomeless};

use config_path::parts::{Form, Homes, form_of};
use config_path::path::cut_mark;

/// What a check knows of users, whose home directories Git puts in place of a `~` at the start of a path.
///
/// ```rust
/// use config_checks::paths::{KnownUsers, is_homeless};
///
/// let passwd = b"ann:x:1000:1000::/home/ann:/bin/sh\n";
/// let users = Some(KnownUsers { has_home: false, passwd });
/// assert!(rt; !is_homeless(users, b"~ann/x") && is_homeless(users, b"~bob/x"));
/// assert!(rt; is_homeless(users, b"~/x")); // the current user has no home directory
/// assert!(rt; !is_homeless(None, b"~bob/x"));
/// ```
#[derive(Clone, Copy)]
pub struct KnownUsers<'u> {
    /// Whether the current user has a home directory: the variable `HOME` is set.
    pub has_home: bool,
    /// The text of the list of users, in the form of `/etc/passwd`.
    pub passwd: &'u [u8],
}

impl KnownUsers<'_> {
    /// Whether the list of users has no home directory for this name.
    fn lack_user(&self, name: &[u8]) -> bool
        ensures { IsTrue result ↔ (IsUtf8 name.now → home_in self.now.passwd.now name.now ≡ None) }
    {
        match str::from_utf8(name) {
            Ok(name) => self.passwd.home_of(name).is_none(),
            Err(_) => true,
        }
    }

    /// Whether a path of this form begins with a home directory that these users do not have.
    fn lack(&self, form: Form<'_>) -> bool
        ensures { IsTrue result ↔ LacksHome self.now (form_in form.entry) }
    {
        match form {
            Form::BelowHome(_) => !self.has_home,
            Form::BelowUser(name, _) => self.lack_user(name),
            _ => false,
        }
    }
}

/// Whether a path begins with a home directory that is not there: it is `~` or begins with `~/`, and the
/// current user has none, or it begins with `~` and a name that the list of users does not have. One
/// leading `:(optional)` does not count. If no users are known, no path does.
pub fn is_homeless(users: Option<KnownUsers<'_>>, path: &[u8]) -> bool
    ensures { IsTrue result ↔ IsHomeless users.entry path.now }
{
    let Some(users) = users else {
        return false;
    };
    let (_, path) = cut_mark(path);
    users.lack(form_of(path))
}
