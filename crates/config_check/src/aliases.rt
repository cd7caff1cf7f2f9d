//! Aliases that lead back to themselves, at which Git stops.

use crate::hints::{has, words_in};
use bstr::ByteSlice;
use config_checks::setting::Setting;
use config_file::Entries;
use config_file::key::Key;
use std::alloc::{AllocError, Global};
use std::collections::BTreeMap;

/// The commands of Git 2.55.0, which win over aliases of the same names.
const COMMANDS: &str = "\
add am annotate apply archive backfill bisect blame branch bugreport bundle cat-file check-attr check-ignore \
check-mailmap check-ref-format checkout checkout-index cherry cherry-pick clean clone column commit commit-graph \
commit-tree config count-objects credential credential-cache credential-store daemon describe diagnose diff \
diff-files diff-index diff-pairs diff-tree difftool fast-export fast-import fetch fetch-pack filter-branch \
fmt-merge-msg for-each-ref for-each-repo format-patch format-rev fsck fsck-objects gc get-tar-commit-id grep \
hash-object help history hook http-backend http-fetch http-push imap-send index-pack init init-db instaweb \
interpret-trailers last-modified log ls-files ls-remote ls-tree mailinfo mailsplit maintenance merge merge-base \
merge-file merge-index merge-octopus merge-one-file merge-ours merge-recursive merge-resolve merge-subtree \
merge-tree mergetool mktag mktree multi-pack-index mv name-rev notes pack-objects pack-redundant pack-refs patch-id \
pickaxe prune prune-packed pull push quiltimport range-diff read-tree rebase receive-pack reflog refs remote \
repack replace replay repo request-pull rerere reset restore rev-list rev-parse revert rm send-pack shell shortlog \
show show-branch show-index show-ref sparse-checkout stage stash status stripspace submodule subtree switch \
symbolic-ref tag unpack-file unpack-objects update-index update-ref update-server-info upload-archive upload-pack \
url-parse var verify-commit verify-pack verify-tag version whatchanged worktree write-tree";

/// An alias, in a file of this text.
#[derive(Drop)]
pub(crate) struct Alias<'t> {
    pub(crate) setting: Setting<'t>,
    pub(crate) text: &'t [u8],
    /// The command that it begins with, or `None` for one of the shell, or in quotes, or behind options.
    target: Option<Vec<u8>>,
}

/// What is known of where an alias leads.
#[derive(Clone, Copy)]
enum End {
    Unknown,
    /// It is among those that are being followed.
    Open,
    Command,
    Nowhere,
}

/// The aliases of all files.
#[derive(Drop)]
pub(crate) struct Aliases<'t> {
    commands: Vec<&'static [u8]>,
    pub(crate) all: Vec<Alias<'t>>,
    /// The place of the last alias of each name.
    places: BTreeMap<Vec<u8>, usize>,
}

/// The name of an alias with this key, as Git lists it.
fn name_of<'k>(key: &'k [u8]) -> Option<&'k [u8]> {
    let key = Key::split(key)?;
    if !key.section().eq_ignore_ascii_case(b"alias") {
        return None;
    }
    match key.subsection() {
        None => Some(key.name()),
        Some(name) if key.name().eq_ignore_ascii_case(b"command") => Some(name),
        Some(_) => None,
    }
}

/// The command that the value of an alias begins with, unless that is not plain to see.
fn target_of(value: &[u8]) -> Option<&[u8]> {
    let word = value
        .split(|byte| byte.is_ascii_whitespace())
        .find(|word| !word.is_empty())?;
    let is_plain = !word
        .iter()
        .any(|byte| matches!(*byte, b'!' | b'\'' | b'"' | b'\\'));
    if is_plain && !word.starts_with(b"-") {
        Some(word)
    } else {
        None
    }
}

/// Whether a text may have aliases: a header of it begins with the name of their section.
fn has_aliases(text: &[u8]) -> bool {
    let mut rest = text;
    for _ in 0..text.len() {
        let Some((_, after)) = rest.split_once_str(b"[") else {
            break;
        };
        rest = after.trim_ascii_start();
        if rest
            .split_at_checked(5)
            .is_some_and(|parts| parts.0.eq_ignore_ascii_case(b"alias"))
        {
            return true;
        }
    }
    false
}

/// Keeps what is found of an alias.
fn set(ends: &mut Vec<End>, place: usize, end: End) {
    if let Some(kept) = ends.get_mut(place) {
        *kept = end;
    }
}

impl<'t> Aliases<'t> {
    /// None so far.
    pub(crate) fn new(alloc: Global) -> Result<Aliases<'t>, AllocError> {
        Ok(Aliases {
            commands: words_in(alloc, COMMANDS)?,
            all: Vec::new(alloc),
            places: BTreeMap::new(alloc),
        })
    }

    /// Takes note of the aliases of a file, up to a line that Git cannot read.
    pub(crate) fn add_file(
        &mut self,
        alloc: Global,
        file: &'t str,
        text: &'t [u8],
    ) -> Result<(), AllocError> {
        if !has_aliases(text) {
            return Ok(());
        }
        for entry in Entries::new(text) {
            let Ok(entry) = entry else {
                break;
            };
            let setting = Setting::of_entry(alloc, file, &entry)?;
            let Some(name) = name_of(&setting.key) else {
                continue;
            };
            if has(&self.commands, name) {
                continue;
            }
            let name = name.to_vec(alloc)?;
            let target = match setting.value.as_deref() {
                Some(value) => target_of(value),
                None => None,
            };
            let target = match target {
                Some(target) => Some(target.to_vec(alloc)?),
                None => None,
            };
            self.places.insert(name, self.all.len())?;
            self.all.push(Alias {
                setting,
                text,
                target,
            })?;
        }
        Ok(())
    }

    /// The place of the alias to which the one at a place leads.
    fn next(&self, alloc: Global, place: usize) -> Result<Option<usize>, AllocError> {
        let Some(alias) = self.all.get(place) else {
            return Ok(None);
        };
        let Some(target) = &alias.target else {
            return Ok(None);
        };
        if let Some(place) = self.places.get(target.as_slice()) {
            return Ok(Some(*place));
        }
        let lower = target.to_ascii_lowercase(alloc)?;
        match self.places.get(lower.as_slice()) {
            Some(place) => Ok(Some(*place)),
            None => Ok(None),
        }
    }

    /// Follows the alias at a place to its end, and keeps what is found of all on the way.
    fn follow(&self, alloc: Global, ends: &mut Vec<End>, place: usize) -> Result<(), AllocError> {
        let mut way = Vec::new(alloc);
        let mut at = place;
        let mut found = End::Command;
        for _ in 0..u64::MAX {
            match ends.get(at) {
                Some(End::Open | End::Nowhere) => {
                    found = End::Nowhere;
                    break;
                }
                Some(End::Unknown) => {}
                _ => break,
            }
            set(ends, at, End::Open);
            way.push(at)?;
            match self.next(alloc, at)? {
                Some(next) => at = next,
                None => break,
            }
        }
        for at in &way {
            set(ends, *at, found);
        }
        Ok(())
    }

    /// Whether each alias leads to no command. Of several of one name only the last counts.
    pub(crate) fn are_endless(&self, alloc: Global) -> Result<Vec<bool>, AllocError> {
        let mut ends = Vec::new(alloc);
        ends.resize(self.all.len(), End::Unknown)?;
        for place in self.places.values() {
            self.follow(alloc, &mut ends, *place)?;
        }
        let mut are = Vec::new(alloc);
        for end in &ends {
            are.push(matches!(end, End::Nowhere))?;
        }
        Ok(are)
    }
}
