//! The format of a repository: its version, its extensions, and whether it is bare.
ghost use Rattle.std.specs.Prelude.{◌≡◌, None, MatchResult, IfOk, IfErr, IfSome};
ghost use Rattle.config_search.specs.System.{System, AreTrueIn};
ghost use Rattle.config_search.specs.Questions.{MayName};
ghost use Rattle.config_search.specs.Answers.{IsOfOneThere};
ghost use Rattle.config_search.specs.Shown.{IsNew, IsNewHalt, IsStore, AsksNothing};

use crate::answer::Refusal;
use crate::fact::{Lookup, Pause, answer_in, answer_to};
use crate::halt::{Halt, stop};
use crate::name::{inside, joined};
use crate::{SETTINGS, VARIABLE};
use bstr::ByteSlice;
use config_file::{Entries, Entry, Setting, Stop, Why};
use gix_config_value::{Boolean, Integer};
use std::alloc::{AllocError, Global};
use std::fmt;

/// What the file of a repository says of its format.
#[derive(Drop)]
pub(crate) struct Format {
    /// Whether `core.bare` says that it is bare.
    pub is_bare: bool,
    /// The folder of `core.worktree`.
    pub work_tree: Option<Vec<u8>>,
    /// Whether each work tree has a file of its own.
    pub has_worktree_files: bool,
    /// How references are stored.
    pub store: Store,
    version: Option<i32>,
    unknown: Option<Vec<u8>>,
    of_later: Option<Vec<u8>>,
}

/// What Git knows of an extension.
#[derive(Clone, Copy)]
enum Extension {
    /// It is none.
    Unknown,
    /// Its value is not looked at.
    Any,
    /// Its value is a boolean.
    Boolean,
    /// It needs a value.
    Text,
    /// Its value is the name of a hash.
    Hash,
    /// Its value says how references are stored.
    Store,
}

/// What a setting is about.
#[derive(Clone, Copy)]
enum Subject {
    Bare,
    WorkTree,
    Version,
    WorktreeFiles,
    Store,
    Other,
}

/// What a setting of this key is about.
fn subject_of(key: &[u8]) -> Subject {
    match str::from_utf8(key) {
        Ok("core.bare") => Subject::Bare,
        Ok("core.worktree") => Subject::WorkTree,
        Ok("core.repositoryformatversion") => Subject::Version,
        Ok("extensions.worktreeconfig") => Subject::WorktreeFiles,
        Ok("extensions.refstorage") => Subject::Store,
        _ => Subject::Other,
    }
}

/// How references are stored, and in which folder, if they are in a place of their own.
#[derive(Drop)]
pub(crate) struct Store {
    pub is_table: bool,
    pub place: Option<Vec<u8>>,
}

/// The extensions that count in each version.
fn early(name: &[u8]) -> Extension {
    match str::from_utf8(name) {
        Ok("noop") => Extension::Any,
        Ok("preciousobjects" | "worktreeconfig") => Extension::Boolean,
        Ok("partialclone") => Extension::Text,
        _ => Extension::Unknown,
    }
}

/// The extensions that need version 1.
fn later(name: &[u8]) -> Extension {
    match str::from_utf8(name) {
        Ok("noop-v1") => Extension::Any,
        Ok("objectformat" | "compatobjectformat") => Extension::Hash,
        Ok("refstorage") => Extension::Store,
        Ok("relativeworktrees" | "submodulepathconfig") => Extension::Boolean,
        _ => Extension::Unknown,
    }
}

/// What a text says of how references are stored: a form, and a place that may follow `://`. `None` if Git knows no
/// such form.
fn store_in(alloc: Global, text: &[u8]) -> Result<Option<Store>, AllocError> {
    let (form, place) = match text.split_once_str(b"://") {
        Some((form, place)) => (form, Some(place.to_vec(alloc)?)),
        None => (text, None),
    };
    let is_table = form == b"reftable".as_slice();
    if is_table || form == b"files".as_slice() {
        return Ok(Some(Store { is_table, place }));
    }
    Ok(None)
}

/// What GIT_REFERENCE_BACKEND says of how references are stored, or `None` if it is not set.
pub(crate) fn given_store(lookup: &Lookup<'_, '_>) -> Result<Option<Store>, Halt>
    ensures { MatchResult result (λ store. IfSome store (IsStore lookup.now.facts.now))
        (IsNewHalt lookup.now.folder.now lookup.now.facts.now) }
{
    let Some(given) = answer_to(lookup, VARIABLE, b"GIT_REFERENCE_BACKEND")? else {
        return Ok(None);
    };
    let store = store_in(lookup.alloc, given)?;
    if store.is_some() {
        return Ok(store);
    }
    let words = joined(lookup.alloc, b"unknown ref storage format: '", given, b"'")?;
    let at = Stop {
        file: b"GIT_REFERENCE_BACKEND".as_slice(),
        line: 0,
        why: Why::BadFormat,
        words: words.as_slice(),
    };
    Err(stop(lookup.alloc, at)?)
}

/// Where Git stops at a setting.
fn at_setting<F: fmt::Display + Drop>(
    alloc: Global,
    setting: &Setting<'_>,
    why: F,
) -> Result<Halt, AllocError>
    ensures { IfOk result AsksNothing }
{
    let (file, line) = (setting.file, setting.entry.line);
    let whole = format!(in alloc; "{}", setting.refused(why))?;
    // the place of the setting comes first, which is told apart
    let place = format!(in alloc; "{line}: ")?
        .len()
        .saturating_add(file.len())
        .saturating_add(1);
    let at = Stop {
        file,
        line,
        why: Why::BadFormat,
        words: whole.as_bytes().get(place..).unwrap_or_default(),
    };
    stop(alloc, at)
}

/// The boolean of a setting.
fn boolean(alloc: Global, setting: &Setting<'_>) -> Result<bool, Halt>
    ensures { IfErr result AsksNothing }
{
    match setting.read::<Boolean>() {
        Ok(boolean) => Ok(boolean.0),
        Err(refused) => Err(at_setting(alloc, setting, refused.fault)?),
    }
}

/// The text of a setting, which needs one.
fn text<'s>(alloc: Global, setting: &'s Setting<'_>) -> Result<&'s [u8], Halt>
    ensures { IfErr result AsksNothing }
{
    match setting.value.as_deref() {
        Some(text) => Ok(text),
        None => Err(at_setting(alloc, setting, "no value")?),
    }
}

/// The version that a setting has.
fn version(alloc: Global, setting: &Setting<'_>) -> Result<i32, Halt>
    ensures { IfErr result AsksNothing }
{
    match Integer::from_bytes::<i32>(setting.text()) {
        Ok(version) => Ok(version),
        Err(error) => Err(at_setting(alloc, setting, error.fault)?),
    }
}

/// Whether an extension may have the value of this setting.
fn is_right(alloc: Global, setting: &Setting<'_>, extension: Extension) -> Result<bool, Halt>
    ensures { IfErr result AsksNothing }
{
    match extension {
        Extension::Unknown | Extension::Any => Ok(true),
        Extension::Boolean => {
            boolean(alloc, setting)?;
            Ok(true)
        }
        Extension::Text => Ok(setting.value.is_some()),
        Extension::Hash => Ok(matches!(
            str::from_utf8(text(alloc, setting)?),
            Ok("sha1" | "sha256")
        )),
        Extension::Store => Ok(store_in(alloc, text(alloc, setting)?)?.is_some()),
    }
}

/// Whether an extension is known. It then has to have a value that it may have.
fn is_extension(alloc: Global, setting: &Setting<'_>, extension: Extension) -> Result<bool, Halt>
    ensures { IfErr result AsksNothing }
{
    if matches!(extension, Extension::Unknown) {
        return Ok(false);
    }
    if is_right(alloc, setting, extension)? {
        return Ok(true);
    }
    Err(at_setting(alloc, setting, "no value of this extension")?)
}

/// Keeps the name of an extension, if it is the first.
fn keep_first(first: &mut Option<Vec<u8>>, alloc: Global, name: &[u8]) -> Result<(), AllocError> {
    if first.is_none() {
        *first = Some(name.to_vec(alloc)?);
    }
    Ok(())
}

/// Whether the section of an entry is one that a format looks at. The first letter passes over most.
fn may_count(entry: &Entry<'_>) -> bool {
    let Some(section) = &entry.section else {
        return false;
    };
    let begins = |front: &[u8]| match section.name.get(..front.len()) {
        Some(start) => start.eq_ignore_ascii_case(front),
        None => false,
    };
    match section.name {
        [b'c' | b'C', ..] => begins(b"core"),
        [b'e' | b'E', ..] => begins(b"extensions"),
        _ => false,
    }
}

impl Format {
    /// A format of which nothing is said.
    fn new() -> Format
        ensures { result.store.place ≡ None }
    {
        Format {
            is_bare: false,
            work_tree: None,
            has_worktree_files: false,
            store: Store {
                is_table: false,
                place: None,
            },
            version: None,
            unknown: None,
            of_later: None,
        }
    }

    /// Reads an extension of this name, in lower case.
    fn extend(&mut self, alloc: Global, setting: &Setting<'_>, name: &[u8]) -> Result<(), Halt>
        ensures { IfErr result AsksNothing }
    {
        if is_extension(alloc, setting, early(name))? {
            return Ok(());
        }
        if is_extension(alloc, setting, later(name))? {
            return Ok(keep_first(&mut self.of_later, alloc, name)?);
        }
        Ok(keep_first(&mut self.unknown, alloc, name)?)
    }

    /// Reads what a setting says of the work tree.
    fn read_work_tree(
        &mut self,
        alloc: Global,
        setting: &Setting<'_>,
        subject: Subject,
    ) -> Result<(), Halt>
        ensures { IfErr result AsksNothing }
    {
        match subject {
            Subject::Bare => self.is_bare = boolean(alloc, setting)?,
            Subject::WorkTree => self.work_tree = Some(text(alloc, setting)?.to_vec(alloc)?),
            _ => {}
        }
        Ok(())
    }

    /// Reads what a setting says of the storage of references. A form that Git does not know is refused as an extension.
    fn read_store(&mut self, alloc: Global, setting: &Setting<'_>) -> Result<(), Halt>
        ensures { IfErr result AsksNothing }
    {
        if let Some(store) = store_in(alloc, text(alloc, setting)?)? {
            self.store = store;
        }
        Ok(())
    }

    /// Reads what a setting says.
    fn read_setting(
        &mut self,
        alloc: Global,
        setting: &Setting<'_>,
        subject: Subject,
    ) -> Result<(), Halt>
        ensures { IfErr result AsksNothing }
    {
        match subject {
            Subject::Version => self.version = Some(version(alloc, setting)?),
            Subject::WorktreeFiles => self.has_worktree_files = boolean(alloc, setting)?,
            Subject::Store => self.read_store(alloc, setting)?,
            _ => self.read_work_tree(alloc, setting, subject)?,
        }
        Ok(())
    }

    /// Reads what a setting of this key says, which may be an extension.
    fn read_named(&mut self, alloc: Global, setting: &Setting<'_>, key: &[u8]) -> Result<(), Halt>
        ensures { IfErr result AsksNothing }
    {
        self.read_setting(alloc, setting, subject_of(key))?;
        match key.strip_prefix(b"extensions.") {
            Some(name) => self.extend(alloc, setting, name),
            None => Ok(()),
        }
    }

    /// Reads what an entry says of a file of the repository, or of that of a work tree of its own.
    fn read_entry(
        &mut self,
        alloc: Global,
        file: &[u8],
        entry: Entry<'_>,
        is_own: bool,
    ) -> Result<(), Halt>
        ensures { IfErr result AsksNothing }
    {
        let setting = Setting::of_entry(alloc, file, entry)?;
        let key = entry.key_text(alloc)?;
        if is_own {
            self.read_work_tree(alloc, &setting, subject_of(&key))
        } else {
            self.read_named(alloc, &setting, &key)
        }
    }

    /// Reads what the text of a file of the repository says, or that of a work tree of its own. Git looks at no include
    /// here.
    fn read_text(
        &mut self,
        alloc: Global,
        file: &[u8],
        text: &[u8],
        is_own: bool,
    ) -> Result<(), Halt>
        ensures { IfErr result AsksNothing }
    {
        for entry in Entries::new(text) {
            let entry = match entry {
                Ok(entry) => entry,
                Err(error) => return Err(stop(alloc, Stop::at(file, error.line, error.why))?),
            };
            if may_count(&entry) {
                match self.read_entry(alloc, file, entry, is_own) {
                    Ok(()) => {}
                    Err(halt) => return Err(halt),
                }
            }
        }
        Ok(())
    }

    /// Reads what the file of a work tree of its own says, which has this text.
    pub fn read_own(
        &mut self,
        lookup: &Lookup<'_, '_>,
        git_dir: &[u8],
        text: &[u8],
    ) -> Result<(), Halt>
        ensures { IfErr result (IsNewHalt lookup.now.folder.now lookup.now.facts.now) }
    {
        let file = inside(lookup.alloc, git_dir, b"config.worktree")?;
        self.read_text(lookup.alloc, &file, text, true)
    }

    /// The format of a work tree without a file of its own. What it shares with others says nothing of its top.
    pub fn of_tree(self, is_linked: bool) -> Format
        ensures { result.store ≡ self.store }
    {
        if !is_linked {
            return self;
        }
        Format {
            is_bare: false,
            work_tree: None,
            has_worktree_files: self.has_worktree_files,
            store: self.store,
            version: self.version,
            unknown: self.unknown,
            of_later: self.of_later,
        }
    }

    /// Why Git uses no repository of this format, if it does not.
    pub fn refusal(&self, alloc: Global) -> Result<Option<Refusal>, AllocError>
        ensures { IfOk result (λ refusal. IfSome refusal IsOfOneThere) }
    {
        if let Some(version @ 2..) = self.version {
            return Ok(Some(Refusal::Version(version)));
        }
        match (self.version, &self.unknown, &self.of_later) {
            (Some(1), Some(name), _) => Ok(Some(Refusal::Extension(name.to_vec(alloc)?))),
            (Some(1), None, _) | (_, _, None) => Ok(None),
            (_, _, Some(name)) => Ok(Some(Refusal::ExtensionOfLater(name.to_vec(alloc)?))),
        }
    }
}

/// The format that the text of a repository's file states. One that states no version states nothing.
fn stated(alloc: Global, file: &[u8], text: &[u8]) -> Result<Format, Halt>
    ensures { IfErr result AsksNothing }
{
    let mut format = Format::new();
    format.read_text(alloc, file, text, false)?;
    match format.version {
        Some(version) if 0 <= version => Ok(format),
        _ => Ok(Format::new()),
    }
}

/// The format that the file in the folder which work trees share states.
pub(crate) fn format_in(lookup: &Lookup<'_, '_>, common: &[u8]) -> Result<Format, Halt>
    ensures { MatchResult result (λ format. IsStore lookup.now.facts.now format.store)
        (IsNewHalt lookup.now.folder.now lookup.now.facts.now) }
{
    let Some(text) = answer_in(lookup, SETTINGS, common, b"config")? else {
        return Ok(Format::new());
    };
    let file = inside(lookup.alloc, common, b"config")?;
    match stated(lookup.alloc, &file, text) {
        Ok(format) => Ok(format),
        Err(halt) => Err(halt),
    }
}

/// The text of the file of a work tree of its own, if it is read.
pub(crate) fn own_text<'t>(
    lookup: &Lookup<'_, 't>,
    git_dir: &[u8],
) -> Result<Option<&'t [u8]>, Pause>
    ensures { MatchResult result
        (λ text. (system : System) → AreTrueIn system lookup.now.facts.now → IfSome text (λ t. MayName system))
        (IsNew lookup.now.folder.now lookup.now.facts.now) }
{
    Ok(answer_in(lookup, SETTINGS, git_dir, b"config.worktree")?)
}
