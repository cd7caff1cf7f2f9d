//! Where Git works with a git directory that it uses, and the files that it then reads.
ghost use Rattle.std.specs.Prelude.{◌≡◌, ◌++◌, ℕ, List, IfOk, IfErr, OnOk, MatchResult, map};
ghost use Rattle.config_search.specs.System.{System, AreTrueIn};
ghost use Rattle.config_search.specs.Questions.{IsNeeded, IsPlace};
ghost use Rattle.config_search.specs.Shown.{AsksNothing, IsNew, IsNewHalt, IsStore, common_of as common_shown, file_of, git_dir_of};
ghost use Rattle.config_search.specs.Rule as rule;
ghost use Rattle.config_search.specs.Search as search;
ghost use Rattle.config_search.specs.Files as files;
ghost use Rattle.config_search.specs.Answers as answers;
ghost use Rattle.config_search.specs.Trust.{IsTrusted};
ghost use Rattle.config_search.specs.declared.TheConstants.{REAL, VARIABLE};

use crate::answer::{Named, Outcome, Repository};
use crate::fact::{Lookup, Pause, answer_to};
use crate::files::{protected_files, push_repository, scope_files};
use crate::format::{Format, Store};
use crate::git_dir::{Common, common_of, resolved};
use crate::halt::{Halt, stop};
use crate::head::branch_of;
use crate::name::{inside, opened};
use crate::seek::{Folder, Form, GitDir};
use crate::{REAL, VARIABLE};
use config_file::{Stop, Why};
use config_text::readers::TryRead;
use gix_config_value::Boolean;
use std::alloc::{AllocError, Global};

/// A git directory that is found: the folder in which Git starts, that of the git directory, and the folder that it
/// shares with others.
#[derive(Drop)]
pub(crate) struct Site<'t> {
    pub start: Folder<'t>,
    pub folder: Folder<'t>,
    pub git_dir: GitDir,
    pub common: Common,
}

/// Where Git stops at a variable.
fn of_variable(alloc: Global, name: &[u8], why: &[u8]) -> Result<Halt, AllocError>
    ensures { IfOk result AsksNothing }
{
    let at = Stop {
        file: name,
        line: 0,
        why: Why::BadFormat,
        words: why,
    };
    stop(alloc, at)
}

/// Whether a variable has a boolean text, if it is set.
fn is_boolean(value: Option<&[u8]>) -> bool {
    match value {
        Some(value) => Boolean::try_read(value).is_ok(),
        None => true,
    }
}

/// Stops where Git does if a variable is no boolean.
fn check_boolean(lookup: &Lookup<'_, '_>, name: &[u8]) -> Result<(), Halt>
    requires { IsNeeded lookup.now.folder.now lookup.now.facts.now VARIABLE name.now }
    ensures { IfErr result (IsNewHalt lookup.now.folder.now lookup.now.facts.now) }
{
    if is_boolean(answer_to(lookup, VARIABLE, name)?) {
        return Ok(());
    }
    Err(of_variable(lookup.alloc, name, b"no boolean")?)
}

/// Stops where Git does at a variable that has to be a boolean. One of them counts only for a search upwards.
pub(crate) fn check_booleans(lookup: &Lookup<'_, '_>) -> Result<(), Halt>
    ensures { IfErr result (IsNewHalt lookup.now.folder.now lookup.now.facts.now) }
{
    check_boolean(lookup, b"GIT_CONFIG_NOSYSTEM")?;
    if answer_to(lookup, VARIABLE, b"GIT_DIR")?.is_some() {
        return Ok(());
    }
    check_boolean(lookup, b"GIT_DISCOVERY_ACROSS_FILESYSTEM")
}

/// Where Git works, and what it does there.
#[derive(Drop)]
pub(crate) struct Place {
    pub folder: Vec<u8>,
    pub outcome: Outcome,
}

/// The top of the work tree that GIT_WORK_TREE or `core.worktree` names, without links. That of `core.worktree` means
/// nothing to a bare repository. Git stops at an empty GIT_WORK_TREE.
fn named_top(
    lookup: &Lookup<'_, '_>,
    site: &Site<'_>,
    format: &Format,
) -> Result<Option<Vec<u8>>, Halt>
    ensures { IfErr result (IsNewHalt lookup.now.folder.now lookup.now.facts.now) }
{
    let top = match answer_to(lookup, VARIABLE, b"GIT_WORK_TREE")? {
        Some(b"") => return Err(of_variable(
            lookup.alloc,
            b"GIT_WORK_TREE",
            b"the empty string is no path",
        )?),
        Some(top) => inside(lookup.alloc, site.start.name, top)?,
        None => match &format.work_tree {
            Some(top) if !format.is_bare => inside(lookup.alloc, &site.git_dir.name, top)?,
            _ => return Ok(None),
        },
    };
    Ok(Some(resolved(lookup, &top)?))
}

/// Whether a folder is below the top of a work tree. Both have no links.
fn is_below(folder: &[u8], top: &[u8]) -> bool {
    match folder.strip_prefix(top) {
        Some(rest) => rest.starts_with(b"/") || (top == b"/".as_slice() && !rest.is_empty()),
        None => false,
    }
}

/// The name of a git directory in the folder in which Git starts: the same as in the folder in which it is found, if
/// that is this one, and otherwise its path.
fn name_here(lookup: &Lookup<'_, '_>, site: &Site<'_>) -> Result<Vec<u8>, Pause>
    ensures { MatchResult result
        (λ name. (system : System) → AreTrueIn system lookup.now.facts.now
        → answers.IsNamed system (git_dir_of site.now.git_dir) name.items)
        (IsNew lookup.now.folder.now lookup.now.facts.now) }
{
    if site.folder.name == site.start.name {
        return Ok(site.git_dir.named.to_vec(lookup.alloc)?);
    }
    Ok(resolved(lookup, &site.git_dir.name)?)
}

/// A folder in which Git works: its name and its path, and the name of the git directory there.
#[derive(Drop)]
struct WorkFolder {
    name: Vec<u8>,
    path: Vec<u8>,
    named_dir: Vec<u8>,
}

impl WorkFolder {
    /// This folder, with this name of the git directory.
    fn new(alloc: Global, folder: Folder<'_>, named_dir: Vec<u8>) -> Result<WorkFolder, AllocError>
        ensures { IfOk result (λ made. made.named_dir.items ≡ named_dir.items) }
    {
        Ok(WorkFolder {
            name: folder.name.to_vec(alloc)?,
            path: folder.path.to_vec(alloc)?,
            named_dir,
        })
    }
}

/// The folder in which Git works where a work tree is named: its top if Git starts below it, and otherwise where it
/// starts.
fn named_folder(lookup: &Lookup<'_, '_>, site: &Site<'_>, top: &[u8]) -> Result<WorkFolder, Pause>
    ensures { MatchResult result
        (λ place. (system : System) → AreTrueIn system lookup.now.facts.now
        → answers.IsNamed system (git_dir_of site.now.git_dir) place.named_dir.items)
        (IsNew lookup.now.folder.now lookup.now.facts.now) }
{
    let start = site.start;
    let real = answer_to(lookup, REAL, opened(start.name))?.unwrap_or(start.path);
    if !is_below(real, top) {
        let named_dir = name_here(lookup, site)?;
        return Ok(WorkFolder::new(lookup.alloc, start, named_dir)?);
    }
    let place = Folder {
        name: top,
        path: top,
    };
    let named_dir = resolved(lookup, &site.git_dir.name)?;
    Ok(WorkFolder::new(lookup.alloc, place, named_dir)?)
}

/// The folder in which Git works where no work tree is named: that in which `.git` is found, and otherwise where it
/// starts.
fn plain_folder(
    lookup: &Lookup<'_, '_>,
    site: &Site<'_>,
    is_bare: bool,
) -> Result<WorkFolder, Pause>
    ensures { MatchResult result
        (λ place. (system : System) → AreTrueIn system lookup.now.facts.now
        → answers.IsNamed system (git_dir_of site.now.git_dir) place.named_dir.items)
        (IsNew lookup.now.folder.now lookup.now.facts.now) }
{
    if site.git_dir.form == Form::Below && !is_bare {
        let named_dir = site.git_dir.named.to_vec(lookup.alloc)?;
        return Ok(WorkFolder::new(lookup.alloc, site.folder, named_dir)?);
    }
    let named_dir = name_here(lookup, site)?;
    Ok(WorkFolder::new(lookup.alloc, site.start, named_dir)?)
}

/// The folder in which Git works.
fn work_folder(
    lookup: &Lookup<'_, '_>,
    site: &Site<'_>,
    format: &Format,
) -> Result<WorkFolder, Halt>
    ensures { MatchResult result
        (λ place. (system : System) → AreTrueIn system lookup.now.facts.now
        → answers.IsNamed system (git_dir_of site.now.git_dir) place.named_dir.items)
        (IsNewHalt lookup.now.folder.now lookup.now.facts.now) }
{
    match named_top(lookup, site, format)? {
        Some(top) => Ok(named_folder(lookup, site, &top)?),
        None => Ok(plain_folder(lookup, site, format.is_bare)?),
    }
}

/// A name without links, or what GIT_COMMON_DIR gives in its place.
fn given_or_resolved(lookup: &Lookup<'_, '_>, folder: &[u8]) -> Result<Vec<u8>, Pause>
    ensures { MatchResult result
        (λ name. (system : System) → AreTrueIn system lookup.now.facts.now
        → name.items ≡ answers.shown_linked system folder.now)
        (IsNew lookup.now.folder.now lookup.now.facts.now) }
{
    match answer_to(lookup, VARIABLE, b"GIT_COMMON_DIR")? {
        Some(given) => Ok(given.to_vec(lookup.alloc)?),
        None => Ok(resolved(lookup, folder)?),
    }
}

/// The name of the folder that work trees share, as Git shows it.
fn shown_common(
    lookup: &Lookup<'_, '_>,
    common: &Common,
    named_dir: &[u8],
) -> Result<Vec<u8>, Pause>
    ensures { MatchResult result
        (λ name. (system : System) → AreTrueIn system lookup.now.facts.now
        → name.items ≡ answers.shown_common system named_dir.now (common_shown common.now))
        (IsNew lookup.now.folder.now lookup.now.facts.now) }
{
    match common {
        Common::Linked(folder) => Ok(given_or_resolved(lookup, folder)?),
        _ => Ok(named_dir.to_vec(lookup.alloc)?),
    }
}

/// A name from the root without links, or the other name if the system knows none.
fn real_or(lookup: &Lookup<'_, '_>, name: &[u8], other: &[u8]) -> Result<Vec<u8>, Pause>
    ensures { MatchResult result
        (λ real. (system : System) → AreTrueIn system lookup.now.facts.now
        → real.items ≡ rule.or_itself other.now (system REAL name.now))
        (IsNew lookup.now.folder.now lookup.now.facts.now) }
{
    match answer_to(lookup, REAL, name)? {
        Some(real) => Ok(real.to_vec(lookup.alloc)?),
        None => Ok(other.to_vec(lookup.alloc)?),
    }
}

/// The branch of a git directory.
fn branch_in(
    lookup: &Lookup<'_, '_>,
    git_dir: &[u8],
    store: &Store,
) -> Result<Option<Vec<u8>>, Pause>
    requires place { IsPlace lookup.now.folder.now lookup.now.facts.now git_dir.now }
    requires stored { IsStore lookup.now.facts.now store.now }
    ensures { IfErr result (IsNew lookup.now.folder.now lookup.now.facts.now) }
{
    match branch_of(lookup, git_dir, store)? {
        Some(branch) => Ok(Some(branch.to_vec(lookup.alloc)?)),
        None => Ok(None),
    }
}

/// The repository of this git directory, in this folder.
fn repository_in(
    lookup: &Lookup<'_, '_>,
    site: &Site<'_>,
    place: &WorkFolder,
    format: &Format,
) -> Result<Repository, Pause>
    requires place { IsPlace lookup.now.folder.now lookup.now.facts.now site.now.git_dir.name.items }
    requires stored { IsStore lookup.now.facts.now format.now.store }
    ensures { MatchResult result
        (λ repository. (system : System) → AreTrueIn system lookup.now.facts.now
        → common_shown site.now.common ≡ rule.common_of system site.now.folder.name.now site.now.git_dir.name.items
        → answers.IsNamed system (git_dir_of site.now.git_dir) place.now.named_dir.items
        → answers.IsOf system site.now.folder.name.now (git_dir_of site.now.git_dir) repository)
        (IsNew lookup.now.folder.now lookup.now.facts.now) }
{
    let path = inside(lookup.alloc, &place.path, &place.named_dir)?;
    let real = real_or(lookup, &site.git_dir.name, &path)?;
    let branch = branch_in(lookup, &site.git_dir.name, &format.store)?;
    let common_dir = shown_common(lookup, &site.common, &place.named_dir)?;
    Ok(Repository {
        git_dir: path,
        real_git_dir: real,
        branch,
        named_dir: place.named_dir.to_vec(lookup.alloc)?,
        common_dir,
        has_worktree_files: format.has_worktree_files,
    })
}

/// Where Git works with this git directory, if it may have this format.
pub(crate) fn place_by_format(
    lookup: &Lookup<'_, '_>,
    site: &Site<'_>,
    format: &Format,
) -> Result<Place, Halt>
    requires place { IsPlace lookup.now.folder.now lookup.now.facts.now site.now.git_dir.name.items }
    requires stored { IsStore lookup.now.facts.now format.now.store }
    ensures { MatchResult result
        (λ place. (system : System) → AreTrueIn system lookup.now.facts.now
        → common_shown site.now.common ≡ rule.common_of system site.now.folder.name.now site.now.git_dir.name.items
        → IsTrusted system site.now.start.name.now site.now.folder.name.now (git_dir_of site.now.git_dir)
        → answers.Tells system site.now.start.name.now
        (search.Inside site.now.folder.name.now (git_dir_of site.now.git_dir)) place.outcome)
        (IsNewHalt lookup.now.folder.now lookup.now.facts.now) }
{
    if let Some(refusal) = format.refusal(lookup.alloc)? {
        return Ok(Place::new(lookup.alloc, site.folder, Outcome::Refuses(refusal))?);
    }
    let place = work_folder(lookup, site, format)?;
    let repository = repository_in(lookup, site, &place, format)?;
    Ok(Place {
        folder: place.name,
        outcome: Outcome::Uses(repository),
    })
}

impl Place {
    /// This folder, and what Git does there.
    pub fn new(alloc: Global, folder: Folder<'_>, outcome: Outcome) -> Result<Place, AllocError>
        ensures { IfOk result (λ place. place.outcome ≡ outcome) }
    {
        Ok(Place {
            folder: folder.name.to_vec(alloc)?,
            outcome,
        })
    }
}

/// The git directory that is found in this folder, with the folder that it shares with others. Git goes to the folder
/// first, in which a relative GIT_COMMON_DIR then begins.
pub(crate) fn site_of<'t>(
    lookup: &Lookup<'_, 't>,
    start: Folder<'t>,
    folder: Folder<'t>,
    git_dir: GitDir,
) -> Result<Site<'t>, Halt>
    requires place { IsPlace lookup.now.folder.now lookup.now.facts.now folder.name.now }
    requires git_dir_place { IsPlace lookup.now.folder.now lookup.now.facts.now git_dir.name.items }
    ensures { MatchResult result
        (λ site. (site.start ≡ start.entry) × (site.folder ≡ folder.entry) × (site.git_dir ≡ git_dir)
        × ((system : System) → AreTrueIn system lookup.now.facts.now
        → common_shown site.common ≡ rule.common_of system folder.entry.name.now site.git_dir.name.items))
        (IsNewHalt lookup.now.folder.now lookup.now.facts.now) }
{
    let common = common_of(lookup, folder.name, &git_dir.name)?;
    if matches!(common, Common::Broken) {
        let file = inside(lookup.alloc, &git_dir.name, b"commondir")?;
        let at = Stop {
            file: file.as_slice(),
            line: 0,
            why: Why::BadFormat,
            words: b"no name of a folder",
        };
        return Err(stop(lookup.alloc, at)?);
    }
    Ok(Site {
        start,
        folder,
        git_dir,
        common,
    })
}

/// Adds the files of the repository that Git uses, if it uses one.
fn push_used(alloc: Global, names: &mut Vec<Named>, outcome: &Outcome) -> Result<(), AllocError>
    ensures { OnOk result (map file_of names.new.items
        ≡ map file_of names.old.items ++ answers.files_of outcome.now) }
{
    let Outcome::Uses(repository) = outcome else {
        return Ok(());
    };
    let (shared, own) = (&repository.common_dir, &repository.named_dir);
    push_repository(alloc, names, shared, own, repository.has_worktree_files)
}

/// The files that Git reads where it does this.
fn files_of(lookup: &Lookup<'_, '_>, outcome: &Outcome) -> Result<Vec<Named>, Pause>
    ensures { MatchResult result
        (λ names. (system : System) → AreTrueIn system lookup.now.facts.now
        → files.AreFiles system (answers.files_of outcome.now) (map file_of names.items))
        (IsNew lookup.now.folder.now lookup.now.facts.now) }
{
    let mut names = protected_files(lookup)?;
    push_used(lookup.alloc, &mut names, outcome)?;
    Ok(names)
}

/// The file of each scope in this place.
fn files_of_scopes(lookup: &Lookup<'_, '_>, place: &Place) -> Result<Vec<Named>, Pause>
    ensures { MatchResult result
        (λ names. (system : System) → AreTrueIn system lookup.now.facts.now
        → map file_of names.items
        ≡ files.files_of_scopes system place.now.folder.items (answers.files_of place.now.outcome))
        (IsNew lookup.now.folder.now lookup.now.facts.now) }
{
    let mut names = scope_files(lookup, &place.folder)?;
    push_used(lookup.alloc, &mut names, &place.outcome)?;
    Ok(names)
}

/// The files that Git reads in a place, and the file of each scope.
#[derive(Drop)]
pub(crate) struct Lists {
    pub files: Vec<Named>,
    pub of_scopes: Vec<Named>,
}

/// The lists of this place.
pub(crate) fn lists_of(lookup: &Lookup<'_, '_>, place: &Place) -> Result<Lists, Pause>
    ensures { MatchResult result
        (λ lists. (system : System) → AreTrueIn system lookup.now.facts.now
        → files.AreOnlyFiles system (answers.files_of place.now.outcome) (map file_of lists.files.items)
        × (map file_of lists.of_scopes.items
        ≡ files.files_of_scopes system place.now.folder.items (answers.files_of place.now.outcome)))
        (IsNew lookup.now.folder.now lookup.now.facts.now) }
{
    let files = files_of(lookup, &place.outcome)?;
    let of_scopes = files_of_scopes(lookup, place)?;
    Ok(Lists { files, of_scopes })
}

/// What Git does in a folder that is not there.
pub(crate) fn nowhere(alloc: Global, folder: &[u8]) -> Result<Place, AllocError>
    ensures { IfOk result (λ place. answers.IsNowhere place.outcome) }
{
    Ok(Place {
        folder: folder.to_vec(alloc)?,
        outcome: Outcome::Stops(Stop {
            file: folder.to_vec(alloc)?,
            line: 0,
            why: Why::NoFolder,
            words: Why::NoFolder.text().as_bytes().to_vec(alloc)?,
        }),
    })
}
