//! Patterns of paths, as in Git's conditions of includes.
ghost use Rattle.std.specs.Prelude.{◌≡◌, ◌↔◌, IsTrue, MatchOption, List, ℕ, [], ◌<◌, ◌≤◌, length};
ghost use Rattle.std.specs.Prelude.{true, false};
ghost use Rattle.std.specs.List.{prefix_len};
ghost use Rattle.config_file.specs.Runs.{Run};
ghost use Rattle.config_file.specs.Pattern as spec;
ghost use Rattle.config_file.specs.Pattern.{Item, Matches, MatchesText, MatchesLater, LacksStar};
ghost use Rattle.config_file.specs.Pattern.{MatchesNoDirectory, is_star};
ghost use Rattle.config_file.specs.Reading.Places.{Follows, FromHere, FindsStar, FindsDeep, MatchesDeep};
ghost use Rattle.config_file.specs.Reading.Places.{size};

use crate::bytes::{after_byte, split};
use crate::set::{after_set, folded};

/// Whether a byte of a pattern matches this byte.
fn stands_for(item: u8, byte: u8, ignores_case: bool) -> bool
    ensures { result ≡ spec.stands_for ignores_case item byte }
{
    match item {
        b'?' => byte != b'/',
        b'*' | b'[' | b'\\' => false,
        _ => folded(item, ignores_case) == folded(byte, ignores_case),
    }
}

/// What follows the first item of the pattern, or `None` if that item does not match the byte.
#[tactic(auto, using(crate::proofs::Patterns::byte_item, crate::proofs::Patterns::escaped_item, crate::proofs::Patterns::no_item, crate::proofs::Patterns::no_escaped_item, crate::proofs::Patterns::no_byte_item, crate::proofs::Patterns::set_item, crate::proofs::Patterns::no_set_item))]
fn after_item(pattern: &[u8], byte: u8, ignores_case: bool) -> Option<&[u8]>
    ensures { MatchOption result ((rest : List ℕ) → ¬ (Item ignores_case pattern.now byte rest))
        (λ rest. Item ignores_case pattern.now byte rest.now) }
{
    let (first, rest) = split(pattern)?;
    if first == b'\\' {
        let escaped = folded(byte, ignores_case);
        return after_byte(escaped, rest);
    }
    if first == b'[' {
        return after_set(rest, byte, ignores_case);
    }
    if stands_for(first, byte, ignores_case) {
        Some(rest)
    } else {
        None
    }
}

/// How many stars the pattern begins with.
fn star_count(pattern: &[u8]) -> usize
    ensures count { result ≡ prefix_len is_star pattern.now }
    ensures within { result ≤ length pattern.now }
{
    pattern.iter().take_while(|byte| **byte == b'*').count()
}

/// The stars at the front, and the rest.
fn stars(pattern: &[u8]) -> (&[u8], &[u8])
    ensures { Run is_star pattern.now result.0.now result.1.now }
{
    pattern.split_at(star_count(pattern))
}

/// Whether the pattern is empty, or begins with `/` or with a backslash and `/`.
fn ends_name(pattern: &[u8]) -> bool
    ensures { result ≡ spec.ends_name pattern.now }
{
    match pattern {
        [] => true,
        [first] => *first == b'/',
        [first, second, ..] => *first == b'/' || *first == b'\\' && *second == b'/',
    }
}

/// Whether stars before this rest match `/` too. `more` has the stars after the first one.
fn crosses(starts: bool, more: &[u8], rest: &[u8]) -> bool
    ensures { result ≡ spec.crosses starts more.now rest.now }
{
    match more {
        [] => false,
        _ => starts && ends_name(rest),
    }
}

/// A place in a match: what is left of the pattern and of the text, and whether a name starts there.
#[derive(Clone, Copy)]
struct FilePlace<'t> {
    pattern: &'t [u8],
    text: &'t [u8],
    starts: bool,
}

/// The pattern matches, or it does not, or it does if stars and what is left match what is left of the text.
#[derive(Clone, Copy)]
enum Found<'t> {
    Whole,
    Nothing,
    Stars(FilePlace<'t>),
}

/// The place after the items at the front of the pattern, up to a star or the first item that does not match.
#[tactic(auto, using(crate::proofs::Patterns::item_shortens))]
fn after_items<'t>(
    pattern: &'t [u8],
    text: &'t [u8],
    starts: bool,
    ignores_case: bool,
) -> FilePlace<'t>
    ensures follows { Follows ignores_case starts pattern.now text.now
        result.starts result.pattern.now result.text.now }
    ensures within { length result.pattern.now ≤ length pattern.now }
    ensures stops { LacksStar result.pattern.now
        → (Matches ignores_case result.starts result.pattern.now result.text.now)
        ↔ ((result.pattern.now ≡ []) × (result.text.now ≡ [])) }
{
    let mut at = FilePlace {
        pattern,
        text,
        starts,
    };
    'items: loop {
        let Some((byte, text)) = split(at.text) else {
            return at;
        };
        let Some(pattern) = after_item(at.pattern, byte, ignores_case) else {
            return at;
        };
        at = FilePlace {
            pattern,
            text,
            starts: byte == b'/',
        };
    }
}

/// Whether the pattern matches the text, up to its first star.
fn found_here<'t>(pattern: &'t [u8], text: &'t [u8], starts: bool, ignores_case: bool) -> Found<'t>
    ensures is { FindsStar ignores_case (Matches ignores_case starts pattern.now text.now)
        (λ crossing. FromHere ignores_case crossing starts pattern.now text.now) result }
    ensures shorter { size result ≤ length pattern.now }
{
    let at = after_items(pattern, text, starts, ignores_case);
    match after_byte(b'*', at.pattern) {
        Some(rest) => Found::Stars(FilePlace {
            pattern: rest,
            text: at.text,
            starts: at.starts,
        }),
        None => {
            if at.pattern.is_empty() && at.text.is_empty() {
                Found::Whole
            } else {
                Found::Nothing
            }
        }
    }
}

/// Whether stars that do not match `/` and then this pattern match the text, up to the pattern's first star.
fn found_later<'t>(pattern: &'t [u8], text: &'t [u8], ignores_case: bool) -> Found<'t>
    ensures is { FindsStar ignores_case (MatchesLater ignores_case false pattern.now text.now)
        (λ crossing. FromHere ignores_case crossing false pattern.now text.now) result }
    ensures shorter { size result ≤ length pattern.now }
{
    let mut at = text;
    'places: loop {
        let found = found_here(pattern, at, false, ignores_case);
        let Found::Nothing = found else {
            return found;
        };
        let Some((byte, rest)) = split(at) else {
            return Found::Nothing;
        };
        if byte == b'/' {
            return Found::Nothing;
        }
        at = rest;
    }
}

/// Whether the pattern matches the text, up to its first stars that cross directories.
fn found_deep<'t>(pattern: &'t [u8], text: &'t [u8], starts: bool, ignores_case: bool) -> Found<'t>
    ensures is { FindsDeep ignores_case (Matches ignores_case starts pattern.now text.now)
        (FromHere ignores_case true starts pattern.now text.now) result }
    ensures shorter { size result ≤ length pattern.now }
{
    let mut found = found_here(pattern, text, starts, ignores_case);
    'steps: loop {
        let Found::Stars(at) = found else {
            return found;
        };
        let (more, rest) = stars(at.pattern);
        if crosses(at.starts, more, rest) {
            return Found::Stars(FilePlace {
                pattern: rest,
                text: at.text,
                starts: true,
            });
        }
        found = found_later(rest, at.text, ignores_case);
    }
}

/// Whether what follows `/` matches the text, up to the next stars that cross directories.
fn found_no_directory<'t>(pattern: &'t [u8], text: &'t [u8], ignores_case: bool) -> Found<'t>
    ensures is { FindsDeep ignores_case (MatchesNoDirectory ignores_case true pattern.now text.now)
        (MatchesDeep ignores_case pattern.now text.now) result }
    ensures shorter { size result ≤ length pattern.now }
{
    match after_byte(b'/', pattern) {
        Some(after) => found_deep(after, text, true, ignores_case),
        None => Found::Nothing,
    }
}

/// Whether stars that cross directories and then this pattern match the text, up to the next such stars. The
/// stars match each byte before the pattern.
fn found_below<'t>(pattern: &'t [u8], text: &'t [u8], ignores_case: bool) -> Found<'t>
    ensures is { FindsDeep ignores_case (MatchesLater ignores_case true pattern.now text.now)
        (MatchesLater ignores_case true pattern.now text.now) result }
    ensures shorter { size result ≤ length pattern.now }
{
    let mut at = text;
    'places: loop {
        let found = found_deep(pattern, at, false, ignores_case);
        let Found::Nothing = found else {
            return found;
        };
        let Some((_, rest)) = split(at) else {
            return Found::Nothing;
        };
        at = rest;
    }
}

/// Whether stars that cross directories and then this pattern match the text, up to the next such stars.
fn found_after_deep<'t>(pattern: &'t [u8], text: &'t [u8], ignores_case: bool) -> Found<'t>
    ensures is { FindsDeep ignores_case (MatchesDeep ignores_case pattern.now text.now)
        (MatchesDeep ignores_case pattern.now text.now) result }
    ensures shorter { size result ≤ length pattern.now }
{
    let found = found_no_directory(pattern, text, ignores_case);
    match found {
        Found::Nothing => found_below(pattern, text, ignores_case),
        _ => found,
    }
}

/// Whether the pattern matches the whole text. Stars and `?` do not match `/`, except for two or more stars
/// that are a whole name: `**/`, `/**/` and `/**`.
///
/// It takes no memory, and at most as much time as the length of the pattern times the square of that of the
/// text. An earlier star is not tried again, since what would match from there matches from the last star
/// too.
pub(crate) fn matches(pattern: &[u8], text: &[u8], ignores_case: bool) -> bool
    ensures { IsTrue result ↔ (MatchesText ignores_case pattern.now text.now) }
{
    let mut found = found_deep(pattern, text, true, ignores_case);
    'steps: loop {
        match found {
            Found::Whole => return true,
            Found::Nothing => return false,
            Found::Stars(at) => found = found_after_deep(at.pattern, at.text, ignores_case),
        }
    }
}
