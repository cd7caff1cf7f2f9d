//! Paths that are interpolated without a lookup of users, and with one in a passwd text.
ghost use Rattle.std.specs.Prelude.{None, Some};
ghost use Rattle.bstr.specs.Owned.{bstring_bytes};
ghost use Rattle.gix_config_value.specs.Interpolation.{Interpolated};
ghost use Rattle.gix_config_value.specs.Interpolation.Users.{no_lookup, looked_up};
ghost use Rattle.gix_config_value.specs.Passwd.{IsHomeIn};

use gix_config_value::Path;
use gix_config_value::path::interpolate::{Context, Error, absent, home_for_user};
use std::alloc::Global;

/// The interpolated path, if `~` means this home directory and no user is looked up.
///
/// ```rust
/// use gix_config_value::Path;
/// use uses::paths::path_at_home;
///
/// let path = Path::from_text(alloc, "~/x")?;
/// assert_eq!(rt; path_at_home(alloc, &path, "/h")?.as_str(), "/h/x");
/// ```
pub fn path_at_home<'p>(alloc: Global, path: &'p Path, home: &str) -> Result<String, Error<'p>>
    ensures { Interpolated (record { install_dir = None; home_dir = Some home.now; users = no_lookup })
        (bstring_bytes path.now.value) result }
{
    path.interpolate(
        alloc,
        Context {
            git_install_dir: None,
            home_dir: Some(home),
            home_for_user: absent(|_name: &str| None),
        },
    )
}

/// The interpolated path, if `~user` means the home directory that the passwd text has for that user.
///
/// ```rust
/// use gix_config_value::Path;
/// use uses::paths::path_of_user;
///
/// let passwd = "a:x:1:1::/h/a\na:x:1:1:g:/h/b:/sh"; // only the second line has seven fields
/// let path = Path::from_text(alloc, "~a/x")?;
/// assert_eq!(rt; path_of_user(alloc, &path, passwd)?.as_str(), "/h/b/x");
/// ```
pub fn path_of_user<'p>(alloc: Global, path: &'p Path, passwd: &str) -> Result<String, Error<'p>>
    ensures { Interpolated
        (record { install_dir = None; home_dir = None; users = looked_up (IsHomeIn passwd.now) })
        (bstring_bytes path.now.value) result }
{
    path.interpolate(
        alloc,
        Context {
            git_install_dir: None,
            home_dir: None,
            home_for_user: Some(|name: &str| home_for_user(passwd, name)),
        },
    )
}
