//! Paths of URLs, without the names `.` and `..`.

ghost use Rattle.std.specs.Prelude.{◌≡◌, ◌≤◌, ◌∷◌, ◌++◌, [], ℕ, List, length, map, ◌↔◌};
ghost use Rattle.std.specs.Prelude.{MatchOption, IfOk, OnOk, IsTrue, codes, true};
ghost use Rattle.std.specs.List.{list_all, prefix_len};
ghost use Rattle.config_file.specs.Key.{is_no_dot};
ghost use Rattle.config_url.specs.Url as spec;
ghost use Rattle.config_url.specs.Url.{IsPath, Leads, pieces, joined_names, slash};
ghost use Rattle.config_url.specs.Reading.Urls.{Steps, is_own_byte};

use crate::normal::normal;
use crate::pieces::cut_piece;
use config_file::bytes::{has_no_dot, split};
use std::alloc::{AllocError, Global};

/// How many bytes precede the query and the fragment.
fn path_length(text: &[u8]) -> usize
    ensures count { result ≡ prefix_len spec.is_path_byte text.now }
    ensures within { result ≤ length text.now }
{
    text.iter().take_while(|byte| !b"?#".contains(byte)).count()
}

/// Whether a name stands for this place.
fn is_here(name: &[u8]) -> bool
    ensures { IsTrue result ↔ (name.now ≡ codes ".") }
{
    name == b".".as_slice()
}

/// Whether a name stands for the place above.
fn is_up(name: &[u8]) -> bool
    ensures { IsTrue result ↔ (name.now ≡ codes "..") }
{
    name == b"..".as_slice()
}

/// Goes on to a name: `.` is this place, and `..` the one before the last name. Returns false if there is no
/// name before `..`.
fn keep<'t>(kept: &mut Vec<&'t [u8]>, name: &'t [u8]) -> Result<bool, AllocError>
    ensures { IfOk result (λ b. Steps (map (λ n. n.now) kept.old.items) name.now b
        (map (λ n. n.now) kept.new.items)) }
{
    if is_here(name) {
        return Ok(true);
    }
    if is_up(name) {
        return match kept.pop() {
            Some(_) => Ok(true),
            None => Ok(false),
        };
    }
    kept.push(name)?;
    Ok(true)
}

/// The names of a path without `.` and `..`, or `None` if a `..` has no name before it.
fn kept_names<'t>(alloc: Global, path: &'t [u8]) -> Result<Option<Vec<&'t [u8]>>, AllocError>
    ensures { IfOk result (λ found. MatchOption found
        ((all : List (List ℕ)) → ¬ (Leads [] (pieces slash (path.now ++ slash ∷ [])) all))
        (λ kept. Leads [] (pieces slash (path.now ++ slash ∷ [])) (map (λ n. n.now) kept.items))) }
{
    let mut kept = Vec::new(alloc);
    let mut rest = path;
    'names: loop {
        let (name, after) = cut_piece(rest, b'/');
        if !keep(&mut kept, name)? {
            return Ok(None);
        }
        let Some(after) = after else {
            return Ok(Some(kept));
        };
        rest = after;
    }
}

/// Appends a slash and a name.
fn push_name(path: &mut Vec<u8>, name: &[u8]) -> Result<(), AllocError>
    ensures { OnOk result (path.new.items ≡ path.old.items ++ slash ∷ name.now) }
{
    path.push(b'/')?;
    path.extend_from_slice(name)?;
    Ok(())
}

/// Appends the names, each with a slash before it, or a slash if there are none.
fn push_names(path: &mut Vec<u8>, names: &[&[u8]]) -> Result<(), AllocError>
    ensures { OnOk result (path.new.items ≡ path.old.items ++ joined_names (map (λ n. n.now) names.now)) }
{
    if names.is_empty() {
        path.push(b'/')?;
        return Ok(());
    }
    for name in names {
        push_name(path, name)?;
    }
    Ok(())
}

/// A path without the slash at its start.
fn without_root(path: &[u8]) -> &[u8]
    ensures { result.now ≡ spec.without_root path.now }
{
    match path {
        [b'/', rest @ ..] => rest,
        _ => path,
    }
}

/// Whether a path begins with a slash and has no `.`, so that no name stands for another place.
fn is_plain(path: &[u8]) -> bool
    ensures { IsTrue result
        → (rest : List ℕ) × (path.now ≡ slash ∷ rest) × (list_all is_no_dot rest ≡ true) }
{
    match path {
        [b'/', rest @ ..] => has_no_dot(rest),
        _ => false,
    }
}

/// Whether a byte is a letter, a digit, `/`, `-` or `_`.
fn is_own_byte(byte: u8) -> bool
    ensures { result ≡ is_own_byte byte }
{
    byte.is_ascii_alphanumeric() || b"/-_".contains(&byte)
}

fn are_own_bytes(text: &[u8]) -> bool
    ensures { result ≡ list_all is_own_byte text.now }
{
    text.iter().all(|byte| is_own_byte(*byte))
}

/// Whether a path is its own normal form, since it has only names of such bytes.
pub(crate) fn is_own_form(path: &[u8]) -> bool
    ensures { IsTrue result → IsPath path.now path.now }
{
    match split(path) {
        Some((first, rest)) => first == b'/' && are_own_bytes(rest),
        None => false,
    }
}

/// The path, the query and the fragment in normal form, or `None` if an escape is none, or a `..` has no name
/// before it.
pub(crate) fn path_of(alloc: Global, text: &[u8]) -> Result<Option<Vec<u8>>, AllocError>
    ensures { IfOk result (λ found. MatchOption found ((path : List ℕ) → ¬ (IsPath text.now path))
        (λ path. IsPath text.now path.items)) }
{
    let Some(text) = normal(alloc, text)? else {
        return Ok(None);
    };
    let length = path_length(&text);
    if is_plain(&text[..length]) {
        return Ok(Some(text));
    }
    let (names, query) = text.split_at(length);
    let Some(kept) = kept_names(alloc, without_root(names))? else {
        return Ok(None);
    };
    let mut path = Vec::with_capacity(alloc, text.len())?;
    push_names(&mut path, &kept)?;
    path.extend_from_slice(query)?;
    Ok(Some(path))
}
