//! Names of files and folders.
ghost use Rattle.std.specs.Prelude.{◌≡◌, ◌≢◌, ◌≤◌, ◌<◌, ◌++◌, ◌∷◌, ◌-◌, [], ℕ, List, length, take, IfOk, OnErr, OnOk, IfSome, MatchBool, MatchOption, option_copied};
ghost use Rattle.std.specs.List.{prefix_len, suffix_len};
ghost use Rattle.config_search.specs.Names as names;

use std::alloc::{AllocError, Global};

/// Appends to a list.
pub(crate) fn push<T: Drop>(list: &mut Vec<T>, item: T) -> Result<(), AllocError>
    ensures pushed { OnOk result (list.new.items ≡ list.old.items ++ item ∷ []) }
    ensures same { OnErr result (list.new.items ≡ list.old.items) }
{
    Ok(list.push(item)?)
}

/// The same text once more.
pub(crate) fn copied(alloc: Global, text: &[u8]) -> Result<Vec<u8>, AllocError>
    ensures { IfOk result (λ copy. copy.items ≡ text.now) }
{
    text.to_vec(alloc)
}

/// Three texts, one after the other.
pub(crate) fn joined(
    alloc: Global,
    first: &[u8],
    second: &[u8],
    third: &[u8],
) -> Result<Vec<u8>, AllocError>
    ensures { IfOk result (λ whole. whole.items ≡ first.now ++ second.now ++ third.now) }
{
    let mut whole = Vec::new(alloc);
    whole.extend_from_slice(first)?;
    whole.extend_from_slice(second)?;
    whole.extend_from_slice(third)?;
    Ok(whole)
}

/// The name of a file in a folder. A name from the root stays. An empty folder is the current one.
pub(crate) fn inside(alloc: Global, folder: &[u8], name: &[u8]) -> Result<Vec<u8>, AllocError>
    ensures { IfOk result (λ whole. whole.items ≡ names.inside folder.now name.now) }
{
    if name.starts_with(b"/") || folder.is_empty() {
        return joined(alloc, b"", b"", name);
    }
    if folder.ends_with(b"/") {
        return joined(alloc, folder, b"", name);
    }
    joined(alloc, folder, b"/", name)
}

/// What follows these bytes in a text, or `None` if it does not begin with them.
pub(crate) fn after<'a>(front: &[u8], text: &'a [u8]) -> Option<&'a [u8]>
    ensures { MatchOption result ((rest : List ℕ) → text.now ≢ front.now ++ rest)
        (λ rest. text.now ≡ front.now ++ rest.now) }
{
    match text.strip_prefix(front) {
        Some(rest) => Some(rest),
        None => None,
    }
}

/// What precedes these bytes in a text, or `None` if it does not end with them.
pub(crate) fn before<'a>(end: &[u8], text: &'a [u8]) -> Option<&'a [u8]>
    ensures { MatchOption result ((front : List ℕ) → text.now ≢ front ++ end.now)
        (λ front. text.now ≡ front.now ++ end.now) }
{
    let (front, back) = text.split_at(text.len().saturating_sub(end.len()));
    if back == end { Some(front) } else { None }
}

/// Whether a text is these three, one after the other.
fn is_joined(whole: &[u8], first: &[u8], second: &[u8], third: &[u8]) -> bool
    ensures { MatchBool result (whole.now ≡ first.now ++ second.now ++ third.now)
        (whole.now ≢ first.now ++ second.now ++ third.now) }
{
    let Some(rest) = after(first, whole) else {
        return false;
    };
    let Some(rest) = after(second, rest) else {
        return false;
    };
    if rest == third {
        return true;
    }
    false
}

/// Whether a name is that of the file of another name in a folder.
pub(crate) fn is_inside(whole: &[u8], folder: &[u8], name: &[u8]) -> bool
    ensures { MatchBool result (whole.now ≡ names.inside folder.now name.now)
        (whole.now ≢ names.inside folder.now name.now) }
{
    if name.starts_with(b"/") || folder.is_empty() {
        return whole == name;
    }
    if folder.ends_with(b"/") {
        return is_joined(whole, folder, b"", name);
    }
    is_joined(whole, folder, b"/", name)
}

/// The name of a folder that is not empty: the current one is `.`.
pub(crate) fn opened(folder: &[u8]) -> &[u8]
    ensures { result.now ≡ names.opened folder.now }
{
    if folder.is_empty() { b"." } else { folder }
}

/// How many bytes follow the last `/`, or how many there are if there is no `/`.
fn last_length(name: &[u8]) -> usize
    ensures count { result ≡ suffix_len names.is_no_slash name.now }
    ensures within { result ≤ length name.now }
{
    name.iter().rev().take_while(|byte| **byte != b'/').count()
}

/// The folder above one from the root whose name has no `/` at its end, or `None` above the root.
pub(crate) fn parent(name: &[u8]) -> Option<&[u8]>
    ensures is { option_copied result ≡ names.parent_of name.now }
    ensures shorter { IfSome result (λ above. length above.now < length name.now) }
{
    let front = name.len() - last_length(name);
    if front == 0 || front == name.len() {
        return None;
    }
    Some(&name[..(front - 1).max(1)])
}

/// The folder of a file, in which the name that it links to begins.
pub(crate) fn folder_of(name: &[u8]) -> &[u8]
    ensures { result.now ≡ names.folder_of name.now }
{
    let front = name.len() - last_length(name);
    if front == 0 {
        return b"";
    }
    &name[..(front - 1).max(1)]
}

/// The folder of a name from the root without links, without a slash at its end.
pub(crate) fn dir_of(name: &[u8]) -> &[u8]
    ensures { result.now ≡ take (names.front_len name.now - 1) name.now }
{
    let front = name.len() - last_length(name);
    &name[..front.saturating_sub(1)]
}

/// The last part of a name.
pub(crate) fn last_part(name: &[u8]) -> &[u8] {
    &name[name.len() - last_length(name)..]
}

/// How many line ends are at the end of a text.
fn ends_length(text: &[u8]) -> usize
    ensures count { result ≡ suffix_len names.is_end text.now }
    ensures within { result ≤ length text.now }
{
    text.iter()
        .rev()
        .take_while(|byte| **byte == b'\n' || **byte == b'\r')
        .count()
}

/// How many bytes precede the first NUL of a text.
fn nul_place(text: &[u8]) -> usize
    ensures count { result ≡ prefix_len names.is_no_nul text.now }
    ensures within { result ≤ length text.now }
{
    text.iter().take_while(|byte| **byte != 0).count()
}

/// The bytes before the first NUL, at which a text ends in Git.
pub(crate) fn before_nul(text: &[u8]) -> &[u8]
    ensures { result.now ≡ names.before_nul text.now }
{
    &text[..nul_place(text)]
}

/// A text without the line ends at its end, up to its first NUL.
pub(crate) fn line(text: &[u8]) -> &[u8]
    ensures { result.now ≡ names.line text.now }
{
    before_nul(&text[..text.len() - ends_length(text)])
}
