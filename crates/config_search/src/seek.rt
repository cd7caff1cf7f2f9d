//! Seeks the git directory of a folder, as Git does: GIT_DIR, or the first one upwards.

ghost use Rattle.std.specs.Prelude.{◌≡◌, ◌≤◌, ◌∷◌, ℕ, Bool, List, [], true, false, None, Contains, codes, length, map, MatchBool, MatchResult, IfErr, IfSome, option_copied, option_map};
ghost use Rattle.std.specs.List.{prefix_len};
ghost use Rattle.config_search.specs.System.{System, AreTrueIn};
ghost use Rattle.config_search.specs.Questions.{IsNeeded, IsPlace};
ghost use Rattle.config_search.specs.Shown.{IsNew, AreLimits, form_of, found_of, git_dir_of};
ghost use Rattle.config_search.specs.Rule as rule;
ghost use Rattle.config_search.specs.Search as search;
ghost use Rattle.config_search.specs.Names as names;
ghost use Rattle.config_search.specs.declared.TheConstants.{VARIABLE, DEVICE};

use crate::fact::{Lookup, Pause, answer_in, answer_to, is_known, is_word};
use crate::git_dir::{has_folder, is_git_dir, linked};
use crate::name::{inside, opened, push};
use crate::{CURRENT, DEVICE, IDENTITY, KIND, REAL, VARIABLE};
use config_text::readers::TryRead;
use gix_config_value::Boolean;

/// A folder: its name as the system opens it, and its path from the root, with links that PWD has.
#[derive(Clone, Copy)]
pub(crate) struct Folder<'t> {
    pub name: &'t [u8],
    pub path: &'t [u8],
}

/// How a git directory is named.
#[derive(Clone, Copy, PartialEq, Eq)]
pub(crate) enum Form {
    /// By GIT_DIR.
    Given,
    /// It is `.git` in a folder, or a file of that name leads to it.
    Below,
    /// It is a folder itself.
    Bare,
}

/// A git directory.
#[derive(Drop)]
pub(crate) struct GitDir {
    /// Its name, as the system opens it.
    pub name: Vec<u8>,
    /// Its name as Git has it, from the folder in which it is found.
    pub named: Vec<u8>,
    /// How it is named.
    pub form: Form,
}

/// What Git finds.
#[derive(Drop)]
pub(crate) enum Discovery<'t> {
    /// There is no git directory.
    Nothing,
    /// There is one in this folder.
    In(Folder<'t>, GitDir),
    /// GIT_DIR has this text, which names none.
    Refused(&'t [u8]),
}

/// Whether a value is a boolean text that is true.
fn is_true(value: Option<&[u8]>) -> bool
    ensures { MatchBool result (search.IsOnText (option_copied value.entry))
        (¬ (search.IsOnText (option_copied value.entry))) }
{
    let Some(value) = value else {
        return false;
    };
    match Boolean::try_read(value) {
        Ok(boolean) => boolean.0,
        Err(_) => false,
    }
}

/// Whether a variable has a boolean text that is true.
pub(crate) fn is_on(lookup: &Lookup<'_, '_>, name: &[u8]) -> Result<bool, Pause>
    requires { IsNeeded lookup.now.folder.now lookup.now.facts.now VARIABLE name.now }
    ensures { MatchResult result
        (λ is. (system : System) → AreTrueIn system lookup.now.facts.now
        → MatchBool is (search.IsOn system name.now) (¬ (search.IsOn system name.now)))
        (IsNew lookup.now.folder.now lookup.now.facts.now) }
{
    let value = answer_to(lookup, VARIABLE, name)?;
    Ok(is_true(value))
}

/// The path of a folder without links, or `None` if there is no such folder.
pub(crate) fn real_folder<'t>(
    lookup: &Lookup<'_, 't>,
    name: &[u8],
) -> Result<Option<&'t [u8]>, Pause>
    requires { IsPlace lookup.now.folder.now lookup.now.facts.now name.now }
    ensures { MatchResult result
        (λ found. (system : System) → AreTrueIn system lookup.now.facts.now
        → option_copied found ≡ rule.real_folder system name.now)
        (IsNew lookup.now.folder.now lookup.now.facts.now) }
{
    if name.is_empty() {
        return Ok(answer_to(lookup, CURRENT, b"")?);
    }
    if !has_folder(lookup, b"", name)? {
        return Ok(None);
    }
    Ok(answer_to(lookup, REAL, name)?)
}

/// Whether there are answers to two questions, and they are the same.
pub(crate) fn is_same(first: Option<&[u8]>, second: Option<&[u8]>) -> bool
    ensures { result ≡ search.is_same (option_copied first.entry) (option_copied second.entry) }
{
    match first {
        Some(first) => is_word(second, first),
        None => false,
    }
}

/// Whether this name begins at the root, and is one of the folder.
fn is_path_of(lookup: &Lookup<'_, '_>, path: &[u8], folder: &[u8]) -> Result<bool, Pause>
    requires place { IsPlace lookup.now.folder.now lookup.now.facts.now folder.now }
    requires answer_to { (system : System) → AreTrueIn system lookup.now.facts.now → system VARIABLE (codes "PWD") ≡ Some path.now }
    ensures { MatchResult result
        (λ is. (system : System) → AreTrueIn system lookup.now.facts.now
        → is ≡ search.is_path_of system path.now folder.now)
        (IsNew lookup.now.folder.now lookup.now.facts.now) }
{
    if !path.starts_with(b"/") {
        return Ok(false);
    }
    let here = answer_to(lookup, IDENTITY, opened(folder))?;
    Ok(is_same(here, answer_to(lookup, IDENTITY, path)?))
}

/// The path of a folder: this one from the root if it is one of the folder, and otherwise the one without links.
fn path_by<'t>(
    lookup: &Lookup<'_, 't>,
    name: &[u8],
    given: Option<&'t [u8]>,
) -> Result<Option<&'t [u8]>, Pause>
    requires place { IsPlace lookup.now.folder.now lookup.now.facts.now name.now }
    requires answer_to { (system : System) → AreTrueIn system lookup.now.facts.now → option_copied given ≡ system VARIABLE (codes "PWD") }
    ensures { MatchResult result
        (λ path. (system : System) → AreTrueIn system lookup.now.facts.now
        → option_copied path ≡ search.path_by system name.now (option_copied given.entry))
        (IsNew lookup.now.folder.now lookup.now.facts.now) }
{
    let Some(path) = given else {
        return Ok(real_folder(lookup, name)?);
    };
    if is_path_of(lookup, path, name)? {
        return Ok(Some(path));
    }
    Ok(real_folder(lookup, name)?)
}

/// The path of a folder: the text of PWD if that is the same folder, and otherwise its path without links.
fn named_path<'t>(lookup: &Lookup<'_, 't>, name: &[u8]) -> Result<Option<&'t [u8]>, Pause>
    requires { IsPlace lookup.now.folder.now lookup.now.facts.now name.now }
    ensures { MatchResult result
        (λ path. (system : System) → AreTrueIn system lookup.now.facts.now
        → option_copied path ≡ search.path_of system name.now)
        (IsNew lookup.now.folder.now lookup.now.facts.now) }
{
    let path = answer_to(lookup, VARIABLE, b"PWD")?;
    Ok(path_by(lookup, name, path)?)
}

/// The name of a folder in which Git starts: `.` is the current one.
fn start_of(name: &[u8]) -> &[u8]
    ensures { result.now ≡ search.start_of name.now }
{
    if name == b".".as_slice() { b"" } else { name }
}

/// The folder about which is asked, or `None` if there is no such folder: an empty name, or `.`, is the current one.
pub(crate) fn first_folder<'t>(lookup: &Lookup<'_, 't>) -> Result<Option<Folder<'t>>, Pause>
    ensures { MatchResult result
        (λ folder. (system : System) → AreTrueIn system lookup.now.facts.now
        → (option_map (λ f. f.path.now) folder ≡ search.path_of system (search.start_of lookup.now.folder.now))
        × IfSome folder (λ f. f.name.now ≡ search.start_of lookup.now.folder.now))
        (IsNew lookup.now.folder.now lookup.now.facts.now) }
{
    let name = start_of(lookup.folder);
    match named_path(lookup, name)? {
        Some(path) => Ok(Some(Folder { name, path })),
        None => Ok(None),
    }
}

/// The git directory of this name, or to which the file of this name links. In its folder it has the other name.
fn linked_or(
    lookup: &Lookup<'_, '_>,
    name: Vec<u8>,
    named: &[u8],
    form: Form,
) -> Result<GitDir, Pause>
    requires { IsPlace lookup.now.folder.now lookup.now.facts.now name.items }
    ensures { MatchResult result
        (λ found. (system : System) → AreTrueIn system lookup.now.facts.now
        → git_dir_of found
        ≡ rule.linked_or name.items named.now (form_of form) (rule.linked system name.items))
        (IsNew lookup.now.folder.now lookup.now.facts.now) }
{
    match linked(lookup, &name)? {
        Some(target) => Ok(GitDir {
            named: target.to_vec(lookup.alloc)?,
            name: target,
            form,
        }),
        None => Ok(GitDir {
            name,
            named: named.to_vec(lookup.alloc)?,
            form,
        }),
    }
}

/// The git directory of a folder that has the name `.git` there, or that a file of that name links to.
fn find_below(lookup: &Lookup<'_, '_>, start: &[u8], folder: &[u8]) -> Result<Option<GitDir>, Pause>
    requires start_place { IsPlace lookup.now.folder.now lookup.now.facts.now start.now }
    requires place { IsPlace lookup.now.folder.now lookup.now.facts.now folder.now }
    ensures { MatchResult result
        (λ found. (system : System) → AreTrueIn system lookup.now.facts.now
        → option_map git_dir_of found ≡ rule.find_below system start.now folder.now)
        (IsNew lookup.now.folder.now lookup.now.facts.now) }
{
    let kind = answer_in(lookup, KIND, folder, b".git")?;
    if !is_known(kind) {
        return Ok(None);
    }
    let link = inside(lookup.alloc, folder, b".git")?;
    let git_dir = linked_or(lookup, link, b".git", Form::Below)?;
    if is_git_dir(lookup, start, &git_dir.name)? {
        return Ok(Some(git_dir));
    }
    Ok(None)
}

/// The git directory that a folder itself is.
#[tactic(auto, unfolding(crate::specs::Rule::find_bare))]
fn find_bare(lookup: &Lookup<'_, '_>, start: &[u8], folder: &[u8]) -> Result<Option<GitDir>, Pause>
    requires start_place { IsPlace lookup.now.folder.now lookup.now.facts.now start.now }
    requires place { IsPlace lookup.now.folder.now lookup.now.facts.now folder.now }
    ensures { MatchResult result
        (λ found. (system : System) → AreTrueIn system lookup.now.facts.now
        → option_map git_dir_of found ≡ rule.find_bare system start.now folder.now)
        (IsNew lookup.now.folder.now lookup.now.facts.now) }
{
    if !is_git_dir(lookup, start, folder)? {
        return Ok(None);
    }
    Ok(Some(GitDir {
        name: opened(folder).to_vec(lookup.alloc)?,
        named: b".".to_vec(lookup.alloc)?,
        form: Form::Bare,
    }))
}

/// The git directory of a folder, if it has one or is one.
pub(crate) fn find_in(
    lookup: &Lookup<'_, '_>,
    start: &[u8],
    folder: &[u8],
) -> Result<Option<GitDir>, Pause>
    requires start_place { IsPlace lookup.now.folder.now lookup.now.facts.now start.now }
    requires place { IsPlace lookup.now.folder.now lookup.now.facts.now folder.now }
    ensures { MatchResult result
        (λ found. (system : System) → AreTrueIn system lookup.now.facts.now
        → option_map git_dir_of found ≡ rule.find_in system start.now folder.now)
        (IsNew lookup.now.folder.now lookup.now.facts.now) }
{
    if let Some(git_dir) = find_below(lookup, start, folder)? {
        return Ok(Some(git_dir));
    }
    Ok(find_bare(lookup, start, folder)?)
}

/// A name without one slash at its end, unless it is that of the root.
fn without_slash(name: &[u8]) -> &[u8]
    ensures { result.now ≡ search.without_slash name.now }
{
    if name.ends_with(b"/") && name.len() != 1 {
        return &name[..name.len() - 1];
    }
    name
}

/// A folder of GIT_CEILING_DIRECTORIES without links if it is to be resolved and begins at the root, and otherwise
/// without one slash at its end.
fn ceiling<'t>(
    lookup: &Lookup<'_, 't>,
    folder: &'t [u8],
    is_resolved: bool,
) -> Result<&'t [u8], Pause>
    ensures { MatchResult result
        (λ at. (system : System) → AreTrueIn system lookup.now.facts.now
        → at.now ≡ search.ceiling system is_resolved folder.now)
        (IsNew lookup.now.folder.now lookup.now.facts.now) }
{
    if !is_resolved || !folder.starts_with(b"/") {
        return Ok(without_slash(folder));
    }
    match answer_to(lookup, REAL, folder)? {
        Some(real) => Ok(real),
        None => Ok(folder),
    }
}

/// Whether links count in a part of a list: they did before it, and it is not empty.
fn counts(is_resolved: bool, part: &[u8]) -> bool
    ensures { result ≡ search.counts is_resolved part.now }
{
    is_resolved && !part.is_empty()
}

/// How many bytes a text has before its first colon.
fn part_length(text: &[u8]) -> usize
    ensures count { result ≡ prefix_len search.is_no_colon text.now }
    ensures within { result ≤ length text.now }
{
    text.iter().take_while(|byte| **byte != b':').count()
}

/// The first part of a list between colons, and what follows its colon, if it has one.
fn cut(text: &[u8]) -> (&[u8], Option<&[u8]>)
    ensures { (system : System) (resolves : Bool) → search.ceilings_in system resolves [] text.now
        ≡ search.ceiling system (search.counts resolves result.0.now) result.0.now
        ∷ search.ceilings_left system (search.counts resolves result.0.now) (option_copied result.1) }
{
    let (part, rest) = text.split_at(part_length(text));
    match rest {
        [] => (part, None),
        [_, more @ ..] => (part, Some(more)),
    }
}

/// Whether a folder is among these.
fn is_among(folders: &[&[u8]], folder: &[u8]) -> bool
    ensures { MatchBool result (Contains (map (λ c. c.now) folders.now) folder.now)
        (¬ (Contains (map (λ c. c.now) folders.now) folder.now)) }
{
    for other in folders {
        if *other == folder {
            return true;
        }
    }
    false
}

/// The device of the folder in which a search begins, unless that does not count.
fn device_of<'t>(
    lookup: &Lookup<'_, 't>,
    crosses: bool,
    folder: &[u8],
) -> Result<Option<&'t [u8]>, Pause>
    requires { IsPlace lookup.now.folder.now lookup.now.facts.now folder.now }
    ensures { MatchResult result
        (λ device. (system : System) → AreTrueIn system lookup.now.facts.now
        → crosses ≡ false → option_copied device ≡ system DEVICE (names.opened folder.now))
        (IsNew lookup.now.folder.now lookup.now.facts.now) }
{
    if crosses {
        return Ok(None);
    }
    Ok(answer_to(lookup, DEVICE, opened(folder))?)
}

/// Where a search upwards ends.
#[derive(Drop)]
pub(crate) struct Limits<'t> {
    /// Whether it goes on in other devices than that of the first folder.
    crosses: bool,
    device: Option<&'t [u8]>,
    /// The first folders of GIT_CEILING_DIRECTORIES.
    ceilings: Vec<&'t [u8]>,
    /// Whether links count in the next one.
    is_resolved: bool,
    /// Those that are not looked at yet.
    rest: Option<&'t [u8]>,
}

impl<'t> Limits<'t> {
    /// What the environment says of a search that begins in this folder. No ceiling is looked at.
    pub fn new(lookup: &Lookup<'_, 't>, folder: &[u8]) -> Result<Limits<'t>, Pause>
        requires { IsPlace lookup.now.folder.now lookup.now.facts.now folder.now }
        ensures { MatchResult result
            (λ limits. (system : System) → AreTrueIn system lookup.now.facts.now
            → AreLimits system folder.now limits)
            (IsNew lookup.now.folder.now lookup.now.facts.now) }
    {
        let crosses = is_on(lookup, b"GIT_DISCOVERY_ACROSS_FILESYSTEM")?;
        let device = device_of(lookup, crosses, folder)?;
        let rest = answer_to(lookup, VARIABLE, b"GIT_CEILING_DIRECTORIES")?;
        Ok(Limits {
            crosses,
            device,
            ceilings: Vec::new(lookup.alloc),
            is_resolved: true,
            rest,
        })
    }

    /// Whether all ceilings are looked at.
    pub fn are_whole(&self) -> bool
        ensures { result ≡ true → self.now.rest ≡ None }
    {
        match self.rest {
            Some(_) => false,
            None => true,
        }
    }

    /// Looks at the next ceiling. All stays the same where this fails.
    pub fn push_next(&mut self, lookup: &Lookup<'_, 't>) -> Result<(), Pause>
        ensures limits { (system : System) (folder : List ℕ) → AreTrueIn system lookup.now.facts.now
            → AreLimits system folder self.old → AreLimits system folder self.new }
        ensures asks { IfErr result (IsNew lookup.now.folder.now lookup.now.facts.now) }
    {
        let Some(text) = self.rest else {
            return Ok(());
        };
        let (part, more) = cut(text);
        let is_resolved = counts(self.is_resolved, part);
        let at = ceiling(lookup, part, is_resolved)?;
        push(&mut self.ceilings, at)?;
        self.is_resolved = is_resolved;
        self.rest = more;
        Ok(())
    }

    /// Whether the search ends before this folder.
    pub fn end_at(&self, lookup: &Lookup<'_, '_>, folder: &[u8]) -> Result<bool, Pause>
        requires { IsPlace lookup.now.folder.now lookup.now.facts.now folder.now }
        ensures { MatchResult result
            (λ ends. (system : System) (start : List ℕ) → AreTrueIn system lookup.now.facts.now
            → AreLimits system start self.now → self.now.rest ≡ None
            → MatchBool ends (search.Ends system start folder.now) (¬ (search.Ends system start folder.now)))
            (IsNew lookup.now.folder.now lookup.now.facts.now) }
    {
        if is_among(&self.ceilings, folder) {
            return Ok(true);
        }
        if self.crosses {
            return Ok(false);
        }
        if answer_to(lookup, DEVICE, folder)? != self.device {
            return Ok(true);
        }
        Ok(false)
    }
}

/// The git directory that GIT_DIR names, or to which the file of that name links.
pub(crate) fn find_given<'t>(
    lookup: &Lookup<'_, 't>,
    start: Folder<'t>,
    given: &'t [u8],
) -> Result<Discovery<'t>, Pause>
    requires place { IsPlace lookup.now.folder.now lookup.now.facts.now start.name.now }
    requires answer_to { (system : System) → AreTrueIn system lookup.now.facts.now → system VARIABLE (codes "GIT_DIR") ≡ Some given.now }
    ensures { MatchResult result
        (λ found. (system : System) → AreTrueIn system lookup.now.facts.now
        → found_of found ≡ search.given_in system start.entry.name.now given.now)
        (IsNew lookup.now.folder.now lookup.now.facts.now) }
{
    // an empty text would become the name of the folder
    if given.is_empty() {
        return Ok(Discovery::Refused(given));
    }
    let whole = inside(lookup.alloc, start.name, given)?;
    let git_dir = linked_or(lookup, whole, given, Form::Given)?;
    if is_git_dir(lookup, start.name, &git_dir.name)? {
        return Ok(Discovery::In(start, git_dir));
    }
    Ok(Discovery::Refused(given))
}
