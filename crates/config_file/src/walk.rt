//! The walk over the entries of a file and of the files that it includes, in Git's order. Its caller pulls
//! it, and opens the files.
ghost use Rattle.std.specs.Prelude.{◌≡◌, ◌≤◌, ◌++◌, ◌∷◌, ℕ, List, [], IfOk, MatchOption, length, true, false};
ghost use Rattle.std.specs.Prelude.{option_copied, map, codes, reverse, None};
ghost use Rattle.std.specs.Char.{to_ascii_lowercase};
ghost use Rattle.config_file.specs.Path.{BeginsUnknown};
ghost use Rattle.config_file.specs.Views.{entry_of};
ghost use Rattle.config_file.specs.Walk.{Content, IsNameOf, IsInclude};
ghost use Rattle.config_file.specs.Left.{HasLeft};
ghost use Rattle.config_file.specs.Reading.Walks.{Enters, Takes, IsIncludeIn, ForbidsBelow, none_allowed};

use crate::entry::Entry;
use crate::errors::FileError;
use crate::include::{Includes, is_remote_url};
use crate::path::{Directories, expand, included_name, joined};
use crate::reader::Entries;
use arrayvec::ArrayVec;
use std::alloc::{AllocError, Global};

/// Where a file is.
///
/// ```rust
/// use config_file::FilePlace;
/// use config_file::path::included_name;
///
/// let place = FilePlace { name: b"/home/ann/.gitconfig", real_dir: b"/home/ann" };
/// let name = included_name(alloc, place.name, b"more")?;
/// assert_eq!(rt; name.as_slice(), b"/home/ann/more".as_slice());
/// ```
#[derive(Clone, Copy)]
pub struct FilePlace<'t> {
    /// The name of the file, as it is included.
    pub name: &'t [u8],
    /// The absolute path of its directory, with all links resolved and no `/` at its end. Only conditions
    /// whose patterns begin with `./` use it.
    pub real_dir: &'t [u8],
}

/// What a walk over files knows.
///
/// ```rust
/// use config_file::{Directories, Entries, FilePlace, Include, Includes, Known, Urls};
/// use config_file::walk::include_of;
///
/// let known = Known {
///     directories: Directories { home: Some(b"/home/ann"), install_dir: None },
///     includes: Includes::AsGit(None, Urls::Known(&[])), // outside of any repository
/// };
/// let place = FilePlace { name: b"/etc/gitconfig", real_dir: b"/etc" };
/// let entry = Entries::new(b"[include]path = ~/b").next().expect(&rt, "an entry").expect(&rt, "no error");
/// let Include::Named(name) = include_of(alloc, &known, place, &entry)? else {
///     panic!(rt; "the name of a file");
/// };
/// assert_eq!(rt; name.as_slice(), b"/home/ann/b".as_slice());
/// ```
#[derive(Clone, Copy)]
pub struct Known<'k> {
    /// The directories that the path of an include may begin with.
    pub directories: Directories<'k>,
    /// Which includes are followed.
    pub includes: Includes<'k>,
}

/// What an entry includes.
///
/// ```rust
/// use config_file::{Directories, Entries, FilePlace, Include, Includes, Known};
/// use config_file::walk::include_of;
///
/// let directories = Directories { home: None, install_dir: None };
/// let known = Known { directories, includes: Includes::All };
/// let place = FilePlace { name: b".git/config", real_dir: b"/a/.git" };
/// let mut entries = Entries::new(b"[include]\n\tpath\n\tpath = ~/b\n[core]\n\tbare");
/// let first = entries.next().expect(&rt, "an entry").expect(&rt, "no error");
/// assert!(rt; matches!(include_of(alloc, &known, place, &first)?, Include::MissingValue));
/// let second = entries.next().expect(&rt, "an entry").expect(&rt, "no error");
/// assert!(rt; matches!(include_of(alloc, &known, place, &second)?, Include::UnknownDirectory));
/// let third = entries.next().expect(&rt, "an entry").expect(&rt, "no error");
/// assert!(rt; matches!(include_of(alloc, &known, place, &third)?, Include::NotFollowed));
/// ```
#[derive(Drop)]
pub enum Include {
    /// It includes no file, or it is not followed.
    NotFollowed,
    /// It has no value, where Git stops.
    MissingValue,
    /// Its path begins with a user's name, or with a directory that is not known, where Git stops.
    UnknownDirectory,
    /// It is the URL of a remote, in a file that is included on a condition, directly or not, where Git allows
    /// none ([`Urls`](crate::Urls)) and stops.
    ForbiddenUrl,
    /// It includes the file of this name.
    Named(Vec<u8>),
}

/// The name of the file that a value in this file includes, or `None` if it begins with an unknown directory.
fn name_of(
    alloc: Global,
    directories: Directories<'_>,
    file: &[u8],
    value: &[u8],
) -> Result<Option<Vec<u8>>, AllocError>
    ensures { IfOk result (λ name. MatchOption name
        (BeginsUnknown (option_copied directories.entry.home) (option_copied directories.entry.install_dir)
        value.now)
        (λ name. IsNameOf directories.entry file.now value.now name.items)) }
{
    let Some(parts) = expand(value, directories) else {
        return Ok(None);
    };
    let path = joined(alloc, parts.directory, parts.rest)?;
    Ok(Some(included_name(alloc, file, &path)?))
}

/// What an entry of a file with the key `path` includes.
#[inline(never)]
fn include_by_path(
    alloc: Global,
    known: &Known<'_>,
    place: FilePlace<'_>,
    entry: &Entry<'_>,
) -> Result<Include, AllocError>
    requires path { map to_ascii_lowercase entry.now.key.now ≡ codes "path" }
    ensures { IfOk result (λ include. IsInclude known.now place.entry (entry_of entry.now) include) }
{
    if !known.includes.follow(alloc, place.real_dir, entry)? {
        return Ok(Include::NotFollowed);
    }
    let Some(value) = &entry.value else {
        return Ok(Include::MissingValue);
    };
    let text = value.to_vec(alloc)?;
    match name_of(alloc, known.directories, place.name, &text)? {
        Some(name) => Ok(Include::Named(name)),
        None => Ok(Include::UnknownDirectory),
    }
}

/// What an entry of a file includes. It fails only if memory is refused.
#[inline(always)]
pub fn include_of(
    alloc: Global,
    known: &Known<'_>,
    place: FilePlace<'_>,
    entry: &Entry<'_>,
) -> Result<Include, AllocError>
    ensures { IfOk result (λ include. IsInclude known.now place.entry (entry_of entry.now) include) }
{
    if entry.key.eq_ignore_ascii_case(b"path") {
        // A copy is handed on, here and below, so that the entry itself needs no address and stays in registers.
        let held = *entry;
        include_by_path(alloc, known, place, &held)
    } else {
        Ok(Include::NotFollowed)
    }
}

/// What an entry of a file includes, or that it is the URL of a remote where none is allowed.
#[inline(always)]
fn include_in(
    alloc: Global,
    known: &Known<'_>,
    place: FilePlace<'_>,
    none_allowed: bool,
    entry: &Entry<'_>,
) -> Result<Include, AllocError>
    ensures { IfOk result (IsIncludeIn known.now place.entry none_allowed (entry_of entry.now)) }
{
    let include = include_of(alloc, known, place, entry)?;
    if none_allowed && matches!(include, Include::NotFollowed) {
        let held = *entry;
        if is_remote_url(&held) {
            return Ok(Include::ForbiddenUrl);
        }
    }
    Ok(include)
}

/// Whether Git allows no URL of a remote in the file that an entry includes, if it includes one: none may be in
/// its own file, or its condition says so.
#[inline(always)]
fn forbids_below(
    alloc: Global,
    known: &Known<'_>,
    none_allowed: bool,
    entry: &Entry<'_>,
    include: &Include,
) -> Result<bool, AllocError>
    ensures { IfOk result (ForbidsBelow known.now.includes none_allowed (entry_of entry.now) include.now) }
{
    match include {
        Include::Named(_) => {
            let held = *entry;
            Ok(known.includes.forbid(alloc, &held)? || none_allowed)
        }
        _ => Ok(false),
    }
}

/// A file that a walk is in, and the entries that are left of it.
///
/// ```rust
/// use config_file::{Entries, FilePlace, Frame, Walk};
///
/// let place = FilePlace { name: b"/etc/gitconfig", real_dir: b"/etc" };
/// let walk = Walk::new(place, b"[core]\n\tbare");
/// let mut same = Walk::default();
/// for frame in walk.frames() {
///     let (section, line, rest) = frame.entries.parts();
///     let entries = Entries::resume(section, line, rest).expect(&rt, "lines that can be counted");
///     assert!(rt; same.go_on(Frame { place: frame.place, entries, forbids_urls: frame.forbids_urls }));
/// }
/// assert_eq!(rt; same.frames().len(), 1);
/// ```
#[derive(Drop)]
pub struct Frame<'t> {
    /// Where the file is.
    pub place: FilePlace<'t>,
    /// What is left of it.
    pub entries: Entries<'t>,
    /// Whether Git allows no URL of a remote in the file that the last entry includes.
    pub forbids_urls: bool,
}

impl Default for Frame<'_> {
    ghost is_default = { λ frame. (frame.place.name.now ≡ []) × (frame.place.real_dir.now ≡ [])
        × HasLeft frame.entries [] None × (frame.forbids_urls ≡ false) };

    fn default() -> Self {
        let place = FilePlace {
            name: b"",
            real_dir: b"",
        };
        Frame {
            place,
            entries: Entries::new(b""),
            forbids_urls: false,
        }
    }
}

/// A step of a walk.
///
/// ```rust
/// use config_file::{Directories, FilePlace, Includes, Known, Step, Walk};
///
/// let directories = Directories { home: None, install_dir: None };
/// let known = Known { directories, includes: Includes::All };
/// let mut walk = Walk::new(FilePlace { name: b"config", real_dir: b"/a" }, b"[core]\n\tbare\n[us er]");
/// assert!(rt; matches!(walk.next(alloc, &known)?, Step::Entry(_, entry, _) if entry.line == 2));
/// assert!(rt; matches!(walk.next(alloc, &known)?, Step::Line(_, error) if error.line == 3));
/// assert!(rt; matches!(walk.next(alloc, &known)?, Step::Ends));
/// ```
#[derive(Drop)]
pub enum Step<'t> {
    /// An entry of the file at this place, and what it includes.
    Entry(FilePlace<'t>, Entry<'t>, Include),
    /// A line of the file at this place that Git cannot read. The file ends there.
    Line(FilePlace<'t>, FileError),
    /// The walk has ended.
    Ends,
}

/// A walk over the entries of a file and of the files that it includes, in Git's order.
///
/// [`Walk::next`] returns one entry after the other. If an entry includes a file, it returns the name of that
/// file, and the caller says what this file holds: [`Walk::enter`] goes on in its text. A caller that does
/// not enter it goes on after the entry, as Git does if there is no such file. Git stops where an entry
/// cannot be followed, a line cannot be read, a file cannot be opened, `enter` returns false, or the URL of a
/// remote is forbidden; a caller may go on all the same. A walk takes no memory, and it borrows from the texts.
///
/// ```rust
/// use config_file::{Directories, FilePlace, Include, Includes, Known, Step, Urls, Walk};
///
/// let known = Known {
///     directories: Directories { home: None, install_dir: None },
///     includes: Includes::AsGit(None, Urls::Known(&[])),
/// };
/// let place = FilePlace { name: b"/etc/gitconfig", real_dir: b"/etc" };
/// let mut walk = Walk::new(place, b"[include]\n\tpath = more\n[core]\n\tbare");
/// match walk.next(alloc, &known)? {
///     Step::Entry(_, _, Include::Named(name)) => {
///         assert_eq!(rt; name.as_slice(), b"/etc/more".as_slice());
///         let place = FilePlace { name: b"/etc/more", real_dir: b"/etc" };
///         assert!(rt; walk.enter(place, b"[user]\n\tname = Ann"));
///     }
///     _ => panic!(rt; "an include"),
/// }
/// for key in [b"name".as_slice(), b"bare"] {
///     let Step::Entry(_, entry, _) = walk.next(alloc, &known)? else {
///         panic!(rt; "an entry");
///     };
///     assert!(rt; entry.has_key(key));
/// }
/// assert!(rt; matches!(walk.next(alloc, &known)?, Step::Ends));
/// ```
#[derive(Drop)]
pub struct Walk<'t> {
    frames: ArrayVec<Frame<'t>, 11>,
    ghost fits: { length frames.items ≤ 11 },
}

impl Default for Walk<'_> {
    ghost is_default = { λ walk. walk.frames.items ≡ [] };

    /// A walk that is in no file.
    fn default() -> Self {
        Walk {
            frames: ArrayVec::new(),
        }
    }
}

impl<'t> Walk<'t> {
    /// A walk over the text of the file at this place.
    pub fn new(place: FilePlace<'t>, text: &'t [u8]) -> Walk<'t>
        ensures { Enters [] place.entry text.now result.frames.items }
    {
        let mut frames = ArrayVec::new();
        let _ = frames.try_push(Frame {
            place,
            entries: Entries::new(text),
            forbids_urls: false,
        });
        Walk { frames }
    }

    /// Goes on in the text of an included file. Returns false, and changes nothing, if the file is more than
    /// ten includes deep.
    pub fn enter(&mut self, place: FilePlace<'t>, text: &'t [u8]) -> bool
        ensures entered { result ≡ true
            → Enters self.old.frames.items place.entry text.now self.new.frames.items }
        ensures too_deep { result ≡ false
            → (self.new.frames.items ≡ self.old.frames.items) × (length self.old.frames.items ≡ 11) }
    {
        self.go_on(Frame {
            place,
            entries: Entries::new(text),
            forbids_urls: false,
        })
    }

    /// Goes on in what is left of a file, as [`Walk::enter`] does in a whole file.
    pub fn go_on(&mut self, frame: Frame<'t>) -> bool
        ensures goes_on { result ≡ true
            → self.new.frames.items ≡ self.old.frames.items ++ frame.entry ∷ [] }
        ensures too_deep { result ≡ false
            → (self.new.frames.items ≡ self.old.frames.items) × (length self.old.frames.items ≡ 11) }
    {
        self.frames.try_push(frame).is_ok()
    }

    /// The files that the walk is in: the first one, and each after the one that includes it. Whoever holds a
    /// walk in a form of his own, as C does, takes it apart here, and makes it again with [`Walk::go_on`].
    pub fn frames(&self) -> &[Frame<'t>]
        ensures { result.now ≡ self.now.frames.items }
    {
        &self.frames
    }

    /// Whether Git allows no URL of a remote in the next file that is entered.
    fn none_allowed(&self) -> bool
        ensures { result ≡ none_allowed (reverse self.now.frames.items) }
    {
        match self.frames.last() {
            Some(frame) => frame.forbids_urls,
            None => false,
        }
    }

    /// The next step of the walk. It fails only if memory is refused, and the walk is of no use after that.
    #[inline(always)]
    pub fn next(&mut self, alloc: Global, known: &Known<'_>) -> Result<Step<'t>, AllocError>
        ensures takes { (answers : List (List ℕ × Content)) → IfOk result
            (λ step. Takes answers known.now self.old.frames.items step self.new.frames.items) }
        ensures no_more { length self.new.frames.items ≤ length self.old.frames.items }
    {
        'frames: while let Some(mut frame) = self.frames.pop() {
            let place = frame.place;
            let entry = match frame.entries.next() {
                Some(Ok(entry)) => entry,
                Some(Err(error)) => return Ok(Step::Line(place, error)),
                None => continue 'frames,
            };
            let none_allowed = self.none_allowed();
            let include = include_in(alloc, known, place, none_allowed, &entry)?;
            let forbids_urls = forbids_below(alloc, known, none_allowed, &entry, &include)?;
            frame.forbids_urls = forbids_urls;
            let _ = self.frames.try_push(frame);
            return Ok(Step::Entry(place, entry, include));
        }
        Ok(Step::Ends)
    }
}
