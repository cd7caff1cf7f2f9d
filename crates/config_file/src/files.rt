//! What opens files for a walk.
ghost use Rattle.std.specs.Prelude.{List, ℕ, IfOk};
ghost use Rattle.config_file.specs.Walk as walk;
ghost use Rattle.config_file.specs.Settings.{HoldsContent};

use crate::walk::FilePlace;
use std::alloc::{AllocError, Global};

/// What the file of a name holds.
///
/// ```rust
/// use config_file::{Content, FilePlace};
///
/// let place = FilePlace { name: b"/etc/gitconfig", real_dir: b"/etc" };
/// let content = Content::Text(place, b"[core]\n\tbare");
/// assert!(rt; matches!(content, Content::Text(_, text) if text.len() == 12));
/// ```
#[derive(Clone, Copy)]
pub enum Content<'t> {
    /// A text, in the file at this place.
    Text(FilePlace<'t>, &'t [u8]),
    /// There is no such file: an include of it is skipped.
    Missing,
    /// The file cannot be read, for the reason that the text says.
    Unreadable(&'t str),
}

/// Files by their names: those of the system, or of a test, or texts in memory.
///
/// ```rust
/// use config_file::{Content, Directories, FilePlace, Files, Includes, Known, Scope, Settings};
/// use std::alloc::{AllocError, Global};
///
/// #[derive(Drop)]
/// struct OneFile;
///
/// impl<'t> Files<'t> for OneFile {
///     ghost contents = { λ _ _ _. ⊤ };
///
///     fn read(&self, _alloc: Global, name: &[u8]) -> Result<Content<'t>, AllocError> {
///         match name {
///             b"more" => Ok(Content::Text(FilePlace { name: b"more", real_dir: b"" }, b"[core]\n\tbare")),
///             _ => Ok(Content::Missing),
///         }
///     }
/// }
///
/// let directories = Directories { home: None, install_dir: None };
/// let known = Known { directories, includes: Includes::All };
/// let place = FilePlace { name: b"config", real_dir: b"" };
/// let mut settings = Settings::new(alloc);
/// let text = b"[include]\n\tpath = more";
/// assert!(rt; settings.add_with_includes(alloc, Scope::Local, &OneFile, &known, place, text).is_ok());
/// assert_eq!(rt; settings.entries.len(), 2);
/// ```
pub trait Files<'t> {
    /// What the file of a name may hold. A file system promises nothing, so that any content may be there.
    ghost contents: { Self → List ℕ → walk.Content → Type 0 };

    /// What the file of this name holds. It fails only if memory is refused.
    fn read(&self, alloc: Global, name: &[u8]) -> Result<Content<'t>, AllocError>
        ensures { IfOk result (HoldsContent (contents self.now) name.now) };
}
