//! The files that Git reads, in its order.
ghost use Rattle.std.specs.Prelude.{◌≡◌, ◌≤◌, ◌++◌, List, IfOk, OnOk, MatchResult, None, Some, codes, length, map, option_copied};
ghost use Rattle.config_search.specs.declared.TheConstants.{VARIABLE};
ghost use Rattle.std.specs.List.{prefix_len};
ghost use Rattle.config_search.specs.System.{System, AreTrueIn};
ghost use Rattle.config_search.specs.Shown.{IsNew, file_of};
ghost use Rattle.config_search.specs.Files as files;
ghost use Rattle.config_file.specs.declared.scope.Scope.TheVariants.{Global as of_user, System as of_system};

use crate::answer::Named;
use crate::fact::{Lookup, Pause, answer_in, answer_to, is_word};
use crate::name::joined;
use crate::seek::is_on;
use crate::{READABLE, VARIABLE};
use bstr::ByteSlice;
use config_file::Scope;
use std::alloc::{AllocError, Global};

/// Adds a file, whose name may be empty.
fn push_named(names: &mut Vec<Named>, scope: Scope, name: Vec<u8>) -> Result<(), AllocError>
    ensures { OnOk result (map file_of names.new.items ≡ map file_of names.old.items ++ files.named scope name.items) }
{
    Ok(names.push(Named { scope, name })?)
}

/// Adds a file. An empty name is that of no file.
fn push(names: &mut Vec<Named>, scope: Scope, name: Vec<u8>) -> Result<(), AllocError>
    ensures { OnOk result (map file_of names.new.items ≡ map file_of names.old.items ++ files.file scope name.items) }
{
    if name.is_empty() {
        return Ok(());
    }
    push_named(names, scope, name)
}

/// The name of the file of the system.
fn system_name(lookup: &Lookup<'_, '_>) -> Result<Vec<u8>, Pause>
    ensures { MatchResult result
        (λ name. (system : System) → AreTrueIn system lookup.now.facts.now
        → name.items ≡ files.system_name system)
        (IsNew lookup.now.folder.now lookup.now.facts.now) }
{
    match answer_to(lookup, VARIABLE, b"GIT_CONFIG_SYSTEM")? {
        Some(name) => Ok(name.to_vec(lookup.alloc)?),
        None => Ok(b"/etc/gitconfig".to_vec(lookup.alloc)?),
    }
}

/// Adds the file of the system, unless GIT_CONFIG_NOSYSTEM says that it is not read.
fn push_system(lookup: &Lookup<'_, '_>, names: &mut Vec<Named>) -> Result<(), Pause>
    ensures { MatchResult result
        (λ done. (system : System) → AreTrueIn system lookup.now.facts.now
        → (first : List files.File) × files.IsOfSystem system first
        × (map file_of names.new.items ≡ map file_of names.old.items ++ first))
        (IsNew lookup.now.folder.now lookup.now.facts.now) }
{
    if is_on(lookup, b"GIT_CONFIG_NOSYSTEM")? {
        return Ok(());
    }
    let name = system_name(lookup)?;
    push(names, Scope::System, name)?;
    Ok(())
}

/// A name without the slashes at its start.
fn without_slashes(name: &[u8]) -> &[u8]
    ensures { result.now ≡ files.without_slashes name.now }
{
    &name[count_slashes(name)..]
}

/// How many slashes are at the start of a name.
fn count_slashes(name: &[u8]) -> usize
    ensures count { result ≡ prefix_len files.is_slash name.now }
    ensures within { result ≤ length name.now }
{
    name.iter().take_while(|byte| **byte == b'/').count()
}

/// A name without `./` at its start.
fn without_dot(name: &[u8]) -> &[u8]
    ensures { result.now ≡ files.without_dot name.now }
{
    if name.starts_with(b"./") {
        return without_slashes(&name[2..]);
    }
    name
}

/// The name of a file in a folder, as Git shows it: without `./` at its start.
fn shown_in(alloc: Global, folder: &[u8], name: &[u8]) -> Result<Vec<u8>, AllocError>
    ensures { IfOk result (λ whole. whole.items ≡ files.shown_in folder.now name.now) }
{
    let whole = joined(alloc, folder, b"/", name)?;
    without_dot(&whole).to_vec(alloc)
}

/// Adds the file of this name below the home folder, if that is known.
fn push_home(
    alloc: Global,
    names: &mut Vec<Named>,
    home: Option<&[u8]>,
    name: &[u8],
) -> Result<(), AllocError>
    ensures { OnOk result (map file_of names.new.items
        ≡ map file_of names.old.items ++ files.in_home (option_copied home.entry) name.now) }
{
    let Some(home) = home else {
        return Ok(());
    };
    let whole = joined(alloc, home, b"/", name)?;
    push(names, Scope::Global, whole)?;
    Ok(())
}

/// Adds the file of the user of this name in a folder.
fn push_shown(
    alloc: Global,
    names: &mut Vec<Named>,
    folder: &[u8],
    name: &[u8],
) -> Result<(), AllocError>
    ensures { OnOk result (map file_of names.new.items
        ≡ map file_of names.old.items ++ files.file of_user (files.shown_in folder.now name.now)) }
{
    let whole = shown_in(alloc, folder, name)?;
    push(names, Scope::Global, whole)
}

/// Adds the file of the user in `.config` of the home folder, if that is known.
fn push_config_home(
    alloc: Global,
    names: &mut Vec<Named>,
    home: Option<&[u8]>,
) -> Result<(), AllocError>
    ensures { OnOk result (map file_of names.new.items
        ≡ map file_of names.old.items ++ files.in_config_home (option_copied home.entry)) }
{
    let Some(home) = home else {
        return Ok(());
    };
    push_shown(alloc, names, home, b".config/git/config")
}

/// Adds the first file of the user: in this folder of XDG_CONFIG_HOME, if it is not empty, or in `.config` of the home
/// folder.
fn push_xdg(
    alloc: Global,
    names: &mut Vec<Named>,
    home: Option<&[u8]>,
    own: Option<&[u8]>,
) -> Result<(), AllocError>
    ensures { OnOk result (map file_of names.new.items ≡ map file_of names.old.items
        ++ files.in_xdg (option_copied home.entry) (option_copied own.entry)) }
{
    let Some(folder) = own else {
        return push_config_home(alloc, names, home);
    };
    if folder.is_empty() {
        return push_config_home(alloc, names, home);
    }
    push_shown(alloc, names, folder, b"git/config")
}

/// Adds the files of the user that no variable names.
fn push_own(lookup: &Lookup<'_, '_>, names: &mut Vec<Named>) -> Result<(), Pause>
    ensures { MatchResult result
        (λ done. (system : System) → AreTrueIn system lookup.now.facts.now
        → map file_of names.new.items ≡ map file_of names.old.items ++ files.of_user_by system None)
        (IsNew lookup.now.folder.now lookup.now.facts.now) }
{
    let own = answer_to(lookup, VARIABLE, b"XDG_CONFIG_HOME")?;
    let home = answer_to(lookup, VARIABLE, b"HOME")?;
    push_xdg(lookup.alloc, names, home, own)?;
    push_home(lookup.alloc, names, home, b".gitconfig")?;
    Ok(())
}

/// Adds the files of the user: the one that GIT_CONFIG_GLOBAL names, or the two that are theirs.
fn push_user(lookup: &Lookup<'_, '_>, names: &mut Vec<Named>) -> Result<(), Pause>
    ensures { MatchResult result
        (λ done. (system : System) → AreTrueIn system lookup.now.facts.now
        → map file_of names.new.items ≡ map file_of names.old.items ++ files.files_of_user system)
        (IsNew lookup.now.folder.now lookup.now.facts.now) }
{
    let Some(name) = answer_to(lookup, VARIABLE, b"GIT_CONFIG_GLOBAL")? else {
        return push_own(lookup, names);
    };
    let name = name.to_vec(lookup.alloc)?;
    push(names, Scope::Global, name)?;
    Ok(())
}

/// The files that no repository can change: those of the system and of the user.
pub(crate) fn protected_files(lookup: &Lookup<'_, '_>) -> Result<Vec<Named>, Pause>
    ensures { MatchResult result
        (λ names. (system : System) → AreTrueIn system lookup.now.facts.now
        → (first : List files.File) × files.IsOfSystem system first
        × (map file_of names.items ≡ first ++ files.files_of_user system))
        (IsNew lookup.now.folder.now lookup.now.facts.now) }
{
    let mut names = Vec::new(lookup.alloc);
    push_system(lookup, &mut names)?;
    push_user(lookup, &mut names)?;
    Ok(names)
}

/// Adds the files of a repository: that of the folder that work trees share, and that of a work tree of its own, if it
/// has one.
pub(crate) fn push_repository(
    alloc: Global,
    names: &mut Vec<Named>,
    shared: &[u8],
    own: &[u8],
    has_own: bool,
) -> Result<(), AllocError>
    ensures { OnOk result (map file_of names.new.items
        ≡ map file_of names.old.items ++ files.of_repository_in shared.now own.now has_own) }
{
    let name = shown_in(alloc, shared, b"config")?;
    push(names, Scope::Local, name)?;
    if !has_own {
        return Ok(());
    }
    let name = shown_in(alloc, own, b"config.worktree")?;
    push(names, Scope::Worktree, name)?;
    Ok(())
}

/// Whether the user may read the first of these files, whose names begin in this folder.
fn can_read(lookup: &Lookup<'_, '_>, folder: &[u8], names: &[Named]) -> Result<bool, Pause>
    ensures { MatchResult result
        (λ can. (system : System) → AreTrueIn system lookup.now.facts.now
        → can ≡ files.can_read system folder.now (map file_of names.now))
        (IsNew lookup.now.folder.now lookup.now.facts.now) }
{
    match names {
        [] => Ok(false),
        [file, ..] => Ok(is_word(answer_in(lookup, READABLE, folder, &file.name)?, b"yes")),
    }
}

/// These files, unless the user may read only the others.
fn or_readable(
    lookup: &Lookup<'_, '_>,
    folder: &[u8],
    own: Vec<Named>,
    others: Vec<Named>,
) -> Result<Vec<Named>, Pause>
    ensures { MatchResult result
        (λ names. (system : System) → AreTrueIn system lookup.now.facts.now
        → map file_of names.items
        ≡ files.or_readable system folder.now (map file_of own.items) (map file_of others.items))
        (IsNew lookup.now.folder.now lookup.now.facts.now) }
{
    if can_read(lookup, folder, &own)? || !can_read(lookup, folder, &others)? {
        return Ok(own);
    }
    Ok(others)
}

/// The file of the user that no variable names: the one in this home folder, unless the user may read only the other.
fn one_of_home(lookup: &Lookup<'_, '_>, folder: &[u8], home: &[u8]) -> Result<Vec<Named>, Pause>
    ensures { MatchResult result
        (λ names. (system : System) → AreTrueIn system lookup.now.facts.now
        → map file_of names.items ≡ files.one_of_home system folder.now (Some home.now))
        (IsNew lookup.now.folder.now lookup.now.facts.now) }
{
    let (mut own, mut others) = (Vec::new(lookup.alloc), Vec::new(lookup.alloc));
    let xdg = answer_to(lookup, VARIABLE, b"XDG_CONFIG_HOME")?;
    push_home(lookup.alloc, &mut own, Some(home), b".gitconfig")?;
    push_xdg(lookup.alloc, &mut others, Some(home), xdg)?;
    Ok(or_readable(lookup, folder, own, others)?)
}

/// The file of the user that `--global` means: the one that GIT_CONFIG_GLOBAL names, or one of the two that are theirs.
fn one_of_user(lookup: &Lookup<'_, '_>, folder: &[u8]) -> Result<Vec<Named>, Pause>
    ensures { MatchResult result
        (λ names. (system : System) → AreTrueIn system lookup.now.facts.now
        → map file_of names.items ≡ files.one_of_user system folder.now)
        (IsNew lookup.now.folder.now lookup.now.facts.now) }
{
    let mut names = Vec::new(lookup.alloc);
    if let Some(name) = answer_to(lookup, VARIABLE, b"GIT_CONFIG_GLOBAL")? {
        let name = name.to_vec(lookup.alloc)?;
        push_named(&mut names, Scope::Global, name)?;
        return Ok(names);
    }
    match answer_to(lookup, VARIABLE, b"HOME")? {
        Some(home) => Ok(one_of_home(lookup, folder, home)?),
        None => Ok(names),
    }
}

/// The files that `--system` and `--global` mean where Git works in this folder.
pub(crate) fn scope_files(lookup: &Lookup<'_, '_>, folder: &[u8]) -> Result<Vec<Named>, Pause>
    ensures { MatchResult result
        (λ names. (system : System) → AreTrueIn system lookup.now.facts.now
        → map file_of names.items
        ≡ files.named of_system (files.system_name system) ++ files.one_of_user system folder.now)
        (IsNew lookup.now.folder.now lookup.now.facts.now) }
{
    let mut names = Vec::new(lookup.alloc);
    let name = system_name(lookup)?;
    push_named(&mut names, Scope::System, name)?;
    let mut of_user = one_of_user(lookup, folder)?;
    names.append(&mut of_user)?;
    Ok(names)
}
