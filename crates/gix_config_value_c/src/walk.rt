//! The walk over the entries of a file and of the files that it includes. C pulls it, and opens the files.
ghost use Rattle.std.specs.Prelude.{◌≡◌, ◌≤◌, ◌<◌, ◌+◌, ◌++◌, List, [], None, Some, IfOk, OnOk, MatchOption};
ghost use Rattle.std.specs.Prelude.{length, take, option_copied};
ghost use Rattle.std.specs.List.{AllZip};
ghost use Rattle.std.specs.Option.{option_map_or};
ghost use Rattle.config_file.specs.Views.{entry_of};
ghost use Rattle.config_file.specs.declared.walk.Frame.{Frame as held_frame};
ghost use Rattle.gix_config_value_c.specs.Files.{ended};
ghost use Rattle.gix_config_value_c.specs.Numbers.{status_number, flag_number};
ghost use Rattle.gix_config_value_c.specs.Paths.{HasBadFlag};
ghost use Rattle.gix_config_value_c.specs.Walks.{HoldsSection, HoldsFrame, AreTextsOf, EntersInto, NextInto};
ghost use Rattle.gix_config_value_c.specs.Walks.{AreUrls, flags, IsKnown, name_in, include_status};
ghost use Rattle.gix_config_value_c.specs.Walks.{step_struct, line_struct};
ghost use Rattle.gix_config_value_c.specs.Values.{IsNoValue};

use crate::files::{Setting, push_text, push_value};
use crate::numbers::{flag_number, flag_of, role_number};
use crate::paths::given;
use crate::roles::{Role, role_of};
use crate::status::Status;
use config_file::errors::FileError;
use config_file::section::{Section, Subsection};
use config_file::{
    Directories, Entries, Entry, FilePlace, Frame, Include, Includes, Known, Repository, Step,
    Urls, Walk, Why,
};
use std::alloc::{AllocError, Global};

/// How many files a walk can be in: one, and those that are up to ten includes deep.
const MOST_FRAMES: usize = 11;

/// A file that a walk is in, and what is left of it.
#[repr(C)]
#[derive(Drop)]
pub struct GcvFrame<'t> {
    /// The name of the file.
    pub name: &'t [u8],
    /// Its directory, with all links resolved and no `/` at its end.
    pub real_dir: &'t [u8],
    /// The name of the last section, if there is one.
    pub section: &'t [u8],
    /// The bytes of its subsection, if there is one.
    pub subsection: &'t [u8],
    /// The rest of the text.
    pub rest: &'t [u8],
    /// The line of its first byte.
    pub line: usize,
    /// 0 if no section has begun, 1 if the section has no subsection, and 2 if it has one.
    pub parts: u32,
    /// 1 if Git allows no URL of a remote in the file that the last entry includes, and otherwise 0.
    pub forbids_urls: u32,
}

/// What a walk knows. A directory counts if its flag is 1, and is not known if it is 0.
#[repr(C)]
#[derive(Drop)]
pub struct GcvKnown<'k> {
    /// The directory where Git is installed.
    pub install_dir: &'k [u8],
    /// The home directory.
    pub home: &'k [u8],
    /// The home directory, with its links resolved.
    pub real_home: &'k [u8],
    /// The absolute path of the git directory, with its links kept.
    pub git_dir: &'k [u8],
    /// The absolute path of the git directory, with its links resolved.
    pub real_git_dir: &'k [u8],
    /// The name of the branch.
    pub branch: &'k [u8],
    /// The URLs of remotes: the values of all entries `remote.NAME.url`.
    pub urls: &'k [&'k [u8]],
    /// Whether the directory where Git is installed is known.
    pub has_install_dir: u32,
    /// Whether the home directory is known.
    pub has_home: u32,
    /// Whether the home directory with its links resolved is known.
    pub has_real_home: u32,
    /// Whether there is a repository, with both paths of its git directory.
    pub has_repository: u32,
    /// Whether HEAD names a branch.
    pub has_branch: u32,
    /// 1 if includes are followed as Git follows them, and 0 if none is.
    pub follows: u32,
    /// 1 if the URLs of remotes are being sought, so that each condition on them holds.
    pub seeks_urls: u32,
}

/// What a step of a walk tells.
#[repr(C)]
#[derive(Drop)]
pub struct GcvStep<'t> {
    /// The name of the file.
    pub name: &'t [u8],
    /// The line of the entry, or the line that is refused.
    pub line: usize,
    /// The index of the first byte of the value.
    pub value: usize,
    /// The index of the first byte of the name of the file that the entry includes.
    pub included: usize,
    /// The number of bytes that the texts of the entry take, with their NULs.
    pub size: usize,
    /// 1 if the entry has a value, and 0 if its key is alone on its line.
    pub has_value: u32,
    /// The number of the status that says what the entry includes: `Ok` if it includes a file.
    pub include: u32,
    /// The number of the role of the entry.
    pub role: u32,
}

/// The texts of an entry: its key as Git lists it, its value, and the name of the file that it includes; and its
/// role.
#[derive(Drop)]
pub(crate) struct Texts {
    pub(crate) bytes: Vec<u8>,
    value: usize,
    included: usize,
    has_value: u32,
    role: Role,
}

/// Returns the section of a frame, or `None` if no frame has such a number of parts.
fn section_of<'t>(frame: &GcvFrame<'t>) -> Option<Option<Section<'t>>>
    ensures { MatchOption result ((section : _) → ¬ (HoldsSection frame.now section))
        (HoldsSection frame.now) }
{
    let name = frame.section;
    match frame.parts {
        0 => Some(None),
        1 => Some(Some(Section {
            name,
            subsection: None,
        })),
        2 => {
            let raw = frame.subsection;
            Some(Some(Section {
                name,
                subsection: Some(Subsection { raw }),
            }))
        }
        _ => None,
    }
}

/// Returns the frame of a walk that this one holds, or `None` if it holds none.
pub(crate) fn frame_of<'t>(frame: &GcvFrame<'t>) -> Option<Frame<'t>>
    ensures { MatchOption result ((f : held_frame) → ¬ (HoldsFrame frame.now f)) (HoldsFrame frame.now) }
{
    let section = section_of(frame)?;
    let entries = Entries::resume(section, frame.line, frame.rest)?;
    let place = FilePlace {
        name: frame.name,
        real_dir: frame.real_dir,
    };
    let forbids_urls = flag_of(frame.forbids_urls)?;
    Some(Frame {
        place,
        entries,
        forbids_urls,
    })
}

/// Returns the frame that holds this one of a walk.
pub(crate) fn held<'t>(frame: &Frame<'t>) -> GcvFrame<'t>
    ensures { HoldsFrame result frame.now }
{
    let FilePlace { name, real_dir } = frame.place;
    let (section, line, rest) = frame.entries.parts();
    let bare = GcvFrame {
        name,
        real_dir,
        section: b"",
        subsection: b"",
        rest,
        line,
        parts: 0,
        forbids_urls: flag_number(frame.forbids_urls),
    };
    let Some(section) = section else {
        return bare;
    };
    match section.subsection {
        None => GcvFrame {
            section: section.name,
            parts: 1,
            ..bare
        },
        Some(subsection) => GcvFrame {
            section: section.name,
            subsection: subsection.raw,
            parts: 2,
            ..bare
        },
    }
}

/// Returns the walk that these frames hold, or `None` if they hold none.
fn walk_of<'t>(frames: &[GcvFrame<'t>]) -> Option<Walk<'t>>
    ensures { MatchOption result
        ((old : List held_frame) → length old ≤ 11 → ¬ (AllZip HoldsFrame frames.now old))
        (λ walk. AllZip HoldsFrame frames.now walk.frames.items) }
{
    let mut walk = Walk::default();
    for frame in frames {
        let frame = frame_of(frame)?;
        if !walk.go_on(frame) {
            return None;
        }
    }
    Some(walk)
}

/// Puts the frames of a walk at the front of the array, and returns their number.
fn put_frames<'t>(walk: &Walk<'t>, frames: &mut [GcvFrame<'t>]) -> usize
    requires { length walk.now.frames.items ≤ length frames.old }
    ensures count { result ≡ length walk.now.frames.items }
    ensures holds { AllZip HoldsFrame (take result frames.new) walk.now.frames.items }
{
    let mut count = 0;
    for frame in walk.frames() {
        frames[count] = held(frame);
        count += 1;
    }
    count
}

/// Returns the repository with these directories and this branch, or `None` without a git directory.
fn repository_of<'r>(
    git_dir: Option<&'r [u8]>,
    real_git_dir: &'r [u8],
    branch: Option<&'r [u8]>,
    real_home: Option<&'r [u8]>,
) -> Option<Repository<'r>>
    ensures { MatchOption result (option_copied git_dir.entry ≡ None)
        (λ r. (option_copied git_dir.entry ≡ Some r.git_dir.now) × (r.real_git_dir.now ≡ real_git_dir.now)
        × (option_copied r.branch ≡ option_copied branch.entry)
        × (option_copied r.real_home ≡ option_copied real_home.entry)) }
{
    match git_dir {
        Some(git_dir) => Some(Repository {
            real_git_dir,
            git_dir,
            branch,
            real_home,
        }),
        None => None,
    }
}

/// Returns the URLs of remotes, or `None` if the flag is neither 0 nor 1.
fn urls_of<'k>(seeks: u32, urls: &'k [&'k [u8]]) -> Option<Urls<'k>>
    ensures { MatchOption result (IsNoValue flag_number seeks) (AreUrls seeks urls.entry) }
{
    if flag_of(seeks)? {
        return Some(Urls::Sought);
    }
    Some(Urls::Known(urls))
}

/// Returns what is known, or `None` if a flag is neither 0 nor 1.
pub(crate) fn known_of<'k>(known: &GcvKnown<'k>) -> Option<Known<'k>>
    ensures { MatchOption result (HasBadFlag (flags known.now)) (IsKnown known.now) }
{
    let install_dir = given(known.has_install_dir, known.install_dir)?;
    let home = given(known.has_home, known.home)?;
    let git_dir = given(known.has_repository, known.git_dir)?;
    let branch = given(known.has_branch, known.branch)?;
    let real_home = given(known.has_real_home, known.real_home)?;
    let urls = urls_of(known.seeks_urls, known.urls)?;
    let directories = Directories { home, install_dir };
    if !flag_of(known.follows)? {
        return Some(Known {
            directories,
            includes: Includes::Skipped,
        });
    }
    let repository = repository_of(git_dir, known.real_git_dir, branch, real_home);
    Some(Known {
        directories,
        includes: Includes::AsGit(repository, urls),
    })
}

/// Appends the name of the file that is included, and NUL.
fn push_included(bytes: &mut Vec<u8>, include: &Include) -> Result<(), AllocError>
    ensures { OnOk result (bytes.new.items
        ≡ bytes.old.items ++ option_map_or ended (name_in include.now) []) }
{
    match include {
        Include::Named(name) => push_text(bytes, name),
        _ => Ok(()),
    }
}

/// Returns the texts of an entry, which includes this, and its role.
pub(crate) fn texts_of(
    alloc: Global,
    entry: &Entry<'_>,
    include: &Include,
) -> Result<Texts, AllocError>
    ensures { IfOk result (AreTextsOf (entry_of entry.now) include.now) }
{
    let Setting {
        key: mut bytes,
        value: text,
        ..
    } = Setting::of_entry(alloc, entry)?;
    bytes.push(0)?;
    let value = bytes.len();
    let has_value = push_value(&mut bytes, &text)?;
    let included = bytes.len();
    push_included(&mut bytes, include)?;
    Ok(Texts {
        bytes,
        value,
        included,
        has_value,
        role: role_of(alloc, entry)?,
    })
}

/// Returns the number of the status that says what an entry includes.
fn include_status(include: &Include) -> u32
    ensures { result ≡ include_status include.now }
{
    match include {
        Include::NotFollowed => Status::NoInclude as u32,
        Include::MissingValue => Why::NoValue.number(),
        Include::UnknownDirectory => Why::UnknownDirectory.number(),
        Include::ForbiddenUrl => Why::ForbiddenUrl.number(),
        Include::Named(_) => Status::Ok as u32,
    }
}

/// Returns what the step to an entry tells.
pub(crate) fn step_struct<'t>(
    place: FilePlace<'t>,
    entry: &Entry<'_>,
    include: &Include,
    texts: &Texts,
) -> GcvStep<'t>
    ensures { result ≡ step_struct place.entry entry.now include.now texts.now }
{
    GcvStep {
        name: place.name,
        line: entry.line,
        value: texts.value,
        included: texts.included,
        size: texts.bytes.len(),
        has_value: texts.has_value,
        include: include_status(include),
        role: role_number(texts.role),
    }
}

/// Returns what the step to a line that is refused tells.
fn line_struct(place: FilePlace<'_>, error: FileError) -> GcvStep<'_>
    ensures { result ≡ line_struct place.entry error }
{
    GcvStep {
        name: place.name,
        line: error.line,
        value: 0,
        included: 0,
        size: 0,
        has_value: 0,
        include: Status::NoInclude as u32,
        role: role_number(Role::Plain),
    }
}

/// Puts a frame for the text of the file of this name, behind the first `count` ones of a walk, and adds 1 to
/// `count`. `real_dir` is the directory of the file, with its links resolved and no `/` at its end.
///
/// Returns `TooDeep` if there are eleven frames already, and then writes nothing.
#[unsafe(no_mangle)]
pub extern "C" fn gcv_raw_enter<'t>(
    count: &mut usize,
    frame: &mut GcvFrame<'t>,
    name: &'t [u8],
    real_dir: &'t [u8],
    text: &'t [u8],
) -> u32
    ensures { EntersInto count.old frame.old name.now real_dir.now text.now count.new frame.new result }
{
    if *count >= MOST_FRAMES {
        return Why::TooDeep.number();
    }
    let place = FilePlace { name, real_dir };
    let entries = Entries::new(text);
    *frame = held(&Frame {
        place,
        entries,
        forbids_urls: false,
    });
    *count += 1;
    Status::Ok as u32
}

/// Takes the next step of the walk that these frames hold. Puts into `count` how many of them are left, puts
/// the texts of an entry at the front of the buffer, each followed by NUL, and tells the rest in `out`.
///
/// Returns `Absent` if the walk has ended, and `BadLine` or `Nul` if a line is refused, where its file ends.
/// Returns `ShortBuffer` if the buffer is shorter than the texts, and then only writes `out`. Returns
/// `BadFlag` if a flag of `known` is neither 0 nor 1, `BadLengths` if the frames hold no walk, and `NoMemory`
/// if memory is refused, and then writes nothing.
#[unsafe(no_mangle)]
pub extern "C" fn gcv_raw_next<'t>(
    alloc: Global,
    frames: &mut [GcvFrame<'t>],
    count: &mut usize,
    known: &GcvKnown<'_>,
    buffer: &mut [u8],
    out: &mut GcvStep<'t>,
) -> u32
    ensures { NextInto frames.old count.old known.now buffer.old out.old frames.new count.new buffer.new out.new
        result }
{
    let Some(known) = known_of(known) else {
        return Status::BadFlag as u32;
    };
    let Some(mut walk) = walk_of(frames) else {
        return Status::BadLengths as u32;
    };
    let Ok(step) = walk.next(alloc, &known) else {
        return Status::NoMemory as u32;
    };
    match step {
        Step::Entry(place, entry, include) => {
            let Ok(texts) = texts_of(alloc, &entry, &include) else {
                return Status::NoMemory as u32;
            };
            *out = step_struct(place, &entry, &include, &texts);
            let size = texts.bytes.len();
            if buffer.len() < size {
                return Status::ShortBuffer as u32;
            }
            buffer[..size].copy_from_slice(&texts.bytes);
            *count = put_frames(&walk, frames);
            Status::Ok as u32
        }
        Step::Line(place, error) => {
            *out = line_struct(place, error);
            *count = put_frames(&walk, frames);
            error.why.number()
        }
        Step::Ends => {
            *count = put_frames(&walk, frames);
            Status::Absent as u32
        }
    }
}
