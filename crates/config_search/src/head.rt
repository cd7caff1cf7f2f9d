//! The branch to which HEAD of a git directory leads.
ghost use Rattle.std.specs.Prelude.{◌≡◌, true, IfErr, MatchResult};
ghost use Rattle.config_search.specs.Questions.{IsKept, IsPlace, StaysBelow};
ghost use Rattle.config_search.specs.Shown.{IsNew, IsStore};

use crate::fact::{Lookup, Pause, answer_in};
use crate::format::Store;
use crate::git_dir::{Common, linked_folder};
use crate::name::{before_nul, inside, last_part};
use crate::reftable::target_in;
use crate::start::{count_digits, without_blanks};
use crate::{KIND, LEADS, LINK, TEXT};
use bstr::ByteSlice;
use std::alloc::AllocError;

/// How many references Git reads of which each names the next one.
const DEPTH: usize = 5;

/// Whether Git takes this for a blank around a reference.
fn is_blank(character: char) -> bool {
    matches!(character, ' ' | '\t' | '\n' | '\r')
}

/// Whether the name of a reference may have this byte.
fn is_allowed(byte: u8) -> bool {
    !byte.is_ascii_control() && !b" ~^:?*[\\".contains(&byte)
}

/// Whether the name of a reference may have this between two slashes.
fn is_part(part: &[u8]) -> bool {
    !part.is_empty() && !part.starts_with(b".") && !part.ends_with(b".lock")
}

/// Whether a reference may have this name, by the rules of git-check-ref-format(1).
fn is_reference(name: &[u8]) -> bool
    ensures { result ≡ true → StaysBelow name.now }
{
    for byte in name {
        if !is_allowed(*byte) {
            return false;
        }
    }
    for part in name.split_str(b"/") {
        if !is_part(part) {
            return false;
        }
    }
    !name.starts_with(b"/")
        && !name.contains_str(b"..")
        && !name.contains_str(b"@{")
        && !name.ends_with(b".")
}

/// What is kept of a reference.
#[derive(Clone, Copy)]
enum Reference<'t> {
    /// The name of another one.
    Symbolic(&'t [u8]),
    /// An object, or nothing.
    Last,
    /// A text that Git does not understand.
    Broken,
}

/// The reference that is kept in a file with this text.
fn reference_in(text: &[u8]) -> Reference<'_> {
    let text = before_nul(text.trim_end_with(is_blank));
    if let Some(target) = text.strip_prefix(b"ref:") {
        return Reference::Symbolic(without_blanks(target));
    }
    match text.split_at_checked(count_digits(text)) {
        Some((id, [] | [b' ' | b'\t' | b'\n' | b'\r', ..])) if matches!(id.len(), 40 | 64) => {
            Reference::Last
        }
        _ => Reference::Broken,
    }
}

/// The reference that is kept in the file of this name in a folder, to which a link may lead.
fn text_at<'t>(lookup: &Lookup<'_, 't>, folder: &[u8], name: &[u8]) -> Result<Reference<'t>, Pause>
    requires kept { IsKept lookup.now.folder.now lookup.now.facts.now folder.now }
    requires named { StaysBelow name.now }
    ensures { IfErr result (IsNew lookup.now.folder.now lookup.now.facts.now) }
{
    match answer_in(lookup, TEXT, folder, name)? {
        Some(text) => Ok(reference_in(text)),
        None => Ok(Reference::Broken),
    }
}

/// The reference that is kept where this link leads.
fn linked_at<'t>(
    lookup: &Lookup<'_, 't>,
    folder: &[u8],
    name: &[u8],
) -> Result<Reference<'t>, Pause>
    requires kept { IsKept lookup.now.folder.now lookup.now.facts.now folder.now }
    requires named { StaysBelow name.now }
    ensures { IfErr result (IsNew lookup.now.folder.now lookup.now.facts.now) }
{
    match answer_in(lookup, LINK, folder, name)? {
        Some(target) if target.starts_with(b"refs/") && is_reference(target) => {
            Ok(Reference::Symbolic(target))
        }
        _ => match answer_in(lookup, LEADS, folder, name)? {
            None | Some(b"folder") => Ok(Reference::Last),
            _ => text_at(lookup, folder, name),
        },
    }
}

/// The reference that is kept in the file of this name in a folder. A folder counts as not there.
fn reference_at<'t>(
    lookup: &Lookup<'_, 't>,
    folder: &[u8],
    name: &[u8],
) -> Result<Reference<'t>, Pause>
    requires kept { IsKept lookup.now.folder.now lookup.now.facts.now folder.now }
    requires named { StaysBelow name.now }
    ensures { IfErr result (IsNew lookup.now.folder.now lookup.now.facts.now) }
{
    match answer_in(lookup, KIND, folder, name)? {
        None | Some(b"folder") => Ok(Reference::Last),
        Some(b"link") => linked_at(lookup, folder, name),
        _ => text_at(lookup, folder, name),
    }
}

/// Where references are kept: HEAD in the first folder, and branches in that which work trees share.
#[derive(Drop)]
struct References {
    is_table: bool,
    own: Vec<u8>,
    shared: Vec<u8>,
}

/// Where a git directory keeps references that are in a place of their own.
fn references_in(
    lookup: &Lookup<'_, '_>,
    git_dir: &[u8],
    linked: &Common,
    store: &Store,
    place: &[u8],
) -> Result<References, AllocError> {
    let shared = inside(lookup.alloc, linked.or(git_dir), place)?;
    let own = if linked.is_linked() {
        let trees = inside(lookup.alloc, &shared, b"worktrees")?;
        inside(lookup.alloc, &trees, last_part(git_dir))?
    } else {
        shared.to_vec(lookup.alloc)?
    };
    Ok(References {
        is_table: store.is_table,
        own,
        shared,
    })
}

/// Where a git directory keeps references.
fn references_of(
    lookup: &Lookup<'_, '_>,
    git_dir: &[u8],
    store: &Store,
) -> Result<References, Pause>
    requires place { IsPlace lookup.now.folder.now lookup.now.facts.now git_dir.now }
    requires stored { IsStore lookup.now.facts.now store.now }
    ensures { MatchResult result (λ references. IsKept lookup.now.folder.now lookup.now.facts.now references.own.items
        × IsKept lookup.now.folder.now lookup.now.facts.now references.shared.items)
        (IsNew lookup.now.folder.now lookup.now.facts.now) }
{
    let linked = linked_folder(lookup, git_dir)?;
    if let Some(place) = &store.place {
        return Ok(references_in(lookup, git_dir, &linked, store, place)?);
    }
    Ok(References {
        is_table: store.is_table,
        own: git_dir.to_vec(lookup.alloc)?,
        shared: linked.or(git_dir).to_vec(lookup.alloc)?,
    })
}

impl References {
    /// The reference of this name.
    fn get<'t>(&self, lookup: &Lookup<'_, 't>, name: &[u8]) -> Result<Reference<'t>, Pause>
        requires own { IsKept lookup.now.folder.now lookup.now.facts.now self.now.own.items }
        requires shared { IsKept lookup.now.folder.now lookup.now.facts.now self.now.shared.items }
        requires named { StaysBelow name.now }
        ensures { IfErr result (IsNew lookup.now.folder.now lookup.now.facts.now) }
    {
        let folder = if name == b"HEAD".as_slice() {
            &self.own
        } else {
            &self.shared
        };
        if !self.is_table {
            return reference_at(lookup, folder, name);
        }
        match target_in(lookup, folder, name)? {
            Some(target) => Ok(Reference::Symbolic(target)),
            None => Ok(Reference::Last),
        }
    }
}

/// The branch to which HEAD of a git directory leads, or `None` if it leads to no branch.
pub(crate) fn branch_of<'t>(
    lookup: &Lookup<'_, 't>,
    git_dir: &[u8],
    store: &Store,
) -> Result<Option<&'t [u8]>, Pause>
    requires place { IsPlace lookup.now.folder.now lookup.now.facts.now git_dir.now }
    requires stored { IsStore lookup.now.facts.now store.now }
    ensures { IfErr result (IsNew lookup.now.folder.now lookup.now.facts.now) }
{
    let references = references_of(lookup, git_dir, store)?;
    let mut name: &'t [u8] = b"HEAD";
    for _ in 0..DEPTH {
        let target = match references.get(lookup, name)? {
            Reference::Symbolic(target) => target,
            Reference::Last => return Ok(name.strip_prefix(b"refs/heads/")),
            Reference::Broken => return Ok(None),
        };
        if !is_reference(target) {
            return Ok(None);
        }
        name = target;
    }
    Ok(None)
}
