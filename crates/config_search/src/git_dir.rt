//! What makes a folder a git directory.
ghost use Rattle.std.specs.Prelude.{◌≡◌, [], codes, MatchResult, IfOk, option_copied, option_map};
ghost use Rattle.config_search.specs.System.{System, AreTrueIn};
ghost use Rattle.config_search.specs.Names.{inside};
ghost use Rattle.config_search.specs.Questions.{IsNeeded, IsPlace};
ghost use Rattle.config_search.specs.Shown.{IsNew, common_of as common_shown, folder_in};
ghost use Rattle.config_search.specs.Rule as rule;
ghost use Rattle.config_search.specs.declared.TheConstants.{LEADS, TEXT, VARIABLE};

use crate::fact::{Lookup, Pause, answer_in, answer_to, is_known, is_word};
use crate::name::{folder_of, inside, line};
use crate::start::has_head;
use crate::{KIND, LEADS, REAL, TEXT, VARIABLE};
use std::alloc::{AllocError, Global};

/// The folder that a git directory shares with others.
#[derive(Drop)]
pub(crate) enum Common {
    /// The git directory itself.
    Own,
    /// Another one.
    Linked(Vec<u8>),
    /// None: the file commondir names no folder, where Git stops.
    Broken,
}

impl Common {
    /// The folder of a git directory.
    pub fn or<'a>(&'a self, git_dir: &'a [u8]) -> &'a [u8]
        ensures { result.now ≡ folder_in git_dir.now self.now }
    {
        match self {
            Common::Linked(folder) => folder,
            _ => git_dir,
        }
    }

    /// Whether it is another folder.
    pub fn is_linked(&self) -> bool {
        matches!(self, Common::Linked(_))
    }
}

/// Whether a name in a folder leads to a folder.
pub(crate) fn has_folder(lookup: &Lookup<'_, '_>, folder: &[u8], name: &[u8]) -> Result<bool, Pause>
    requires { IsNeeded lookup.now.folder.now lookup.now.facts.now LEADS (inside folder.now name.now) }
    ensures { MatchResult result
        (λ has. (system : System) → AreTrueIn system lookup.now.facts.now
        → has ≡ rule.has_folder system folder.now name.now)
        (IsNew lookup.now.folder.now lookup.now.facts.now) }
{
    Ok(is_word(answer_in(lookup, LEADS, folder, name)?, b"folder"))
}

/// Whether there is a folder of this name, or one in which it may be.
fn may_be_folder(lookup: &Lookup<'_, '_>, name: &[u8]) -> Result<bool, Pause>
    requires { IsPlace lookup.now.folder.now lookup.now.facts.now name.now }
    ensures { MatchResult result
        (λ may. (system : System) → AreTrueIn system lookup.now.facts.now
        → may ≡ rule.may_be_folder system name.now)
        (IsNew lookup.now.folder.now lookup.now.facts.now) }
{
    if has_folder(lookup, b"", name)? {
        return Ok(true);
    }
    has_folder(lookup, b"", folder_of(name))
}

/// What a text of the file commondir names.
fn linked_by(lookup: &Lookup<'_, '_>, git_dir: &[u8], text: Option<&[u8]>) -> Result<Common, Pause>
    requires place { IsPlace lookup.now.folder.now lookup.now.facts.now git_dir.now }
    requires answer_to { (system : System) → AreTrueIn system lookup.now.facts.now → option_copied text ≡ system TEXT (inside git_dir.now (codes "commondir")) }
    ensures { MatchResult result
        (λ common. (system : System) → AreTrueIn system lookup.now.facts.now
        → common_shown common ≡ rule.linked_by system git_dir.now (option_copied text.entry))
        (IsNew lookup.now.folder.now lookup.now.facts.now) }
{
    let Some(text) = text else {
        return Ok(Common::Broken);
    };
    if text.is_empty() {
        return Ok(Common::Broken);
    }
    let folder = inside(lookup.alloc, git_dir, line(text))?;
    if may_be_folder(lookup, &folder)? {
        return Ok(Common::Linked(folder));
    }
    Ok(Common::Broken)
}

/// What the file commondir of a git directory names.
pub(crate) fn linked_folder(lookup: &Lookup<'_, '_>, git_dir: &[u8]) -> Result<Common, Pause>
    requires { IsPlace lookup.now.folder.now lookup.now.facts.now git_dir.now }
    ensures { MatchResult result
        (λ common. (system : System) → AreTrueIn system lookup.now.facts.now
        → common_shown common ≡ rule.linked_folder system git_dir.now)
        (IsNew lookup.now.folder.now lookup.now.facts.now) }
{
    let kind = answer_in(lookup, KIND, git_dir, b"commondir")?;
    if !is_known(kind) {
        return Ok(Common::Own);
    }
    let text = answer_in(lookup, TEXT, git_dir, b"commondir")?;
    Ok(linked_by(lookup, git_dir, text)?)
}

/// The folder that GIT_COMMON_DIR names where Git starts in this one. An empty name is that of the root.
fn given_in(alloc: Global, start: &[u8], name: &[u8]) -> Result<Vec<u8>, AllocError>
    ensures { IfOk result (λ folder. folder.items ≡ rule.given_in start.now name.now) }
{
    if name.is_empty() {
        return b"/".to_vec(alloc);
    }
    inside(alloc, start, name)
}

/// The folder that a git directory shares: that of GIT_COMMON_DIR, or of its file commondir.
pub(crate) fn common_of(
    lookup: &Lookup<'_, '_>,
    start: &[u8],
    git_dir: &[u8],
) -> Result<Common, Pause>
    requires start_place { IsPlace lookup.now.folder.now lookup.now.facts.now start.now }
    requires place { IsPlace lookup.now.folder.now lookup.now.facts.now git_dir.now }
    ensures { MatchResult result
        (λ common. (system : System) → AreTrueIn system lookup.now.facts.now
        → common_shown common ≡ rule.common_of system start.now git_dir.now)
        (IsNew lookup.now.folder.now lookup.now.facts.now) }
{
    match answer_to(lookup, VARIABLE, b"GIT_COMMON_DIR")? {
        Some(name) => Ok(Common::Linked(given_in(lookup.alloc, start, name)?)),
        None => Ok(linked_folder(lookup, git_dir)?),
    }
}

/// Whether a folder has objects, or GIT_OBJECT_DIRECTORY, if it is given, names one in the folder in which Git starts.
fn has_objects_by(
    lookup: &Lookup<'_, '_>,
    start: &[u8],
    folder: &[u8],
    given: Option<&[u8]>,
) -> Result<bool, Pause>
    requires start_place { IsPlace lookup.now.folder.now lookup.now.facts.now start.now }
    requires place { IsPlace lookup.now.folder.now lookup.now.facts.now folder.now }
    requires answer_to { (system : System) → AreTrueIn system lookup.now.facts.now → option_copied given ≡ system VARIABLE (codes "GIT_OBJECT_DIRECTORY") }
    ensures { MatchResult result
        (λ has. (system : System) → AreTrueIn system lookup.now.facts.now
        → has ≡ rule.has_objects_by system start.now folder.now (option_copied given.entry))
        (IsNew lookup.now.folder.now lookup.now.facts.now) }
{
    match given {
        None => Ok(has_folder(lookup, folder, b"objects")?),
        Some(given) if given.is_empty() => Ok(false),
        Some(given) => Ok(has_folder(lookup, start, given)?),
    }
}

/// Whether there are objects, and refs in a folder.
fn has_folders(lookup: &Lookup<'_, '_>, start: &[u8], folder: &[u8]) -> Result<bool, Pause>
    requires start_place { IsPlace lookup.now.folder.now lookup.now.facts.now start.now }
    requires place { IsPlace lookup.now.folder.now lookup.now.facts.now folder.now }
    ensures { MatchResult result
        (λ has. (system : System) → AreTrueIn system lookup.now.facts.now
        → has ≡ rule.has_folders system start.now folder.now)
        (IsNew lookup.now.folder.now lookup.now.facts.now) }
{
    let given = answer_to(lookup, VARIABLE, b"GIT_OBJECT_DIRECTORY")?;
    if !has_objects_by(lookup, start, folder, given)? {
        return Ok(false);
    }
    Ok(has_folder(lookup, folder, b"refs")?)
}

/// Whether a git directory that shares this has objects and refs, or Git stops at it.
fn shares(
    lookup: &Lookup<'_, '_>,
    start: &[u8],
    folder: &[u8],
    common: &Common,
) -> Result<bool, Pause>
    requires start_place { IsPlace lookup.now.folder.now lookup.now.facts.now start.now }
    requires place { IsPlace lookup.now.folder.now lookup.now.facts.now folder.now }
    requires answer_to { (system : System) → AreTrueIn system lookup.now.facts.now → common_shown common.now ≡ rule.common_of system start.now folder.now }
    ensures { MatchResult result
        (λ has. (system : System) → AreTrueIn system lookup.now.facts.now
        → has ≡ rule.shares system start.now folder.now (common_shown common.now))
        (IsNew lookup.now.folder.now lookup.now.facts.now) }
{
    match common {
        Common::Own => Ok(has_folders(lookup, start, folder)?),
        Common::Linked(other) => Ok(has_folders(lookup, start, other)?),
        Common::Broken => Ok(true),
    }
}

/// Whether this folder is a git directory: its HEAD is Git's, there are objects, and what it shares has refs. One whose
/// file commondir names no folder counts, and Git stops there. A search begins in the folder `start`.
#[tactic(auto, unfolding(crate::specs::Rule::is_git_dir))]
pub(crate) fn is_git_dir(
    lookup: &Lookup<'_, '_>,
    start: &[u8],
    folder: &[u8],
) -> Result<bool, Pause>
    requires start_place { IsPlace lookup.now.folder.now lookup.now.facts.now start.now }
    requires place { IsPlace lookup.now.folder.now lookup.now.facts.now folder.now }
    ensures { MatchResult result
        (λ is. (system : System) → AreTrueIn system lookup.now.facts.now
        → is ≡ rule.is_git_dir system start.now folder.now)
        (IsNew lookup.now.folder.now lookup.now.facts.now) }
{
    if !has_head(lookup, folder)? {
        return Ok(false);
    }
    let common = common_of(lookup, start, folder)?;
    Ok(shares(lookup, start, folder, &common)?)
}

/// A name from the root without links, or the name itself if the system knows none.
pub(crate) fn resolved(lookup: &Lookup<'_, '_>, name: &[u8]) -> Result<Vec<u8>, Pause>
    ensures { MatchResult result
        (λ real. (system : System) → AreTrueIn system lookup.now.facts.now
        → real.items ≡ rule.resolved system name.now)
        (IsNew lookup.now.folder.now lookup.now.facts.now) }
{
    match answer_to(lookup, REAL, name)? {
        Some(real) => Ok(real.to_vec(lookup.alloc)?),
        None => Ok(name.to_vec(lookup.alloc)?),
    }
}

/// The name that a text `gitdir: NAME` gives in a folder, or `None` if it gives none.
fn target(alloc: Global, folder: &[u8], text: Option<&[u8]>) -> Result<Option<Vec<u8>>, AllocError>
    ensures { IfOk result (λ name. option_map (λ n. n.items) name
        ≡ rule.target folder.now (option_copied text.entry)) }
{
    let Some(text) = text else {
        return Ok(None);
    };
    match line(text).strip_prefix(b"gitdir: ") {
        Some(name) => Ok(Some(inside(alloc, folder, name)?)),
        None => Ok(None),
    }
}

/// Whether a file of this kind may hold a line.
fn may_link(kind: Option<&[u8]>) -> bool
    ensures { result ≡ rule.may_link (option_copied kind.entry) }
{
    match kind {
        Some(kind) => kind != b"folder".as_slice(),
        None => false,
    }
}

/// The name to which the line `gitdir: ..` of the file of this name leads, or `None` if it leads to none.
pub(crate) fn linked(lookup: &Lookup<'_, '_>, name: &[u8]) -> Result<Option<Vec<u8>>, Pause>
    requires { IsPlace lookup.now.folder.now lookup.now.facts.now name.now }
    ensures { MatchResult result
        (λ found. (system : System) → AreTrueIn system lookup.now.facts.now
        → option_map (λ n. n.items) found ≡ rule.linked system name.now)
        (IsNew lookup.now.folder.now lookup.now.facts.now) }
{
    let kind = answer_to(lookup, KIND, name)?;
    if !may_link(kind) {
        return Ok(None);
    }
    let text = answer_to(lookup, TEXT, name)?;
    match target(lookup.alloc, folder_of(name), text)? {
        Some(target) => Ok(Some(resolved(lookup, &target)?)),
        None => Ok(None),
    }
}
