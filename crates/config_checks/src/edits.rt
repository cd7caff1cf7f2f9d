//! The edits that lead from one text to another.
ghost use Rattle.std.specs.Prelude.{◌≡◌, ◌⊎◌, ◌<◌, ◌≤◌, ◌+◌, ◌↔◌, ◌==◌, ◌++◌, ℕ, List, length, not, IsTrue, IfOk};
ghost use Rattle.std.specs.List.{prefix_len, zip, filter};
ghost use Rattle.config_checks.specs.Nearest.{Edits, IsSwap, FewEdits, HasOtherEnd, most_edits, LacksRun, lower};
ghost use Rattle.config_checks.specs.Reading.Steps.{AreApart, AreRests, IsFew, has_byte, is_same_byte};

use crate::key::is_same_word;
use std::alloc::{AllocError, Global};
use strsim::generic_levenshtein;

/// The greatest number of edits that is counted, which is that of a missing run of bytes.
pub(crate) const MOST_EDITS: usize = 3;

/// A text of at least this many bytes is long. Two edits turn a shorter one into another word.
pub(crate) const LONG: usize = 5;

/// How many bytes both texts begin with.
fn common(a: &[u8], b: &[u8]) -> usize
    ensures count { result ≡ prefix_len (λ p. p.0 == p.1) (zip a.now b.now) }
    ensures within { (result ≤ length a.now) × (result ≤ length b.now) }
{
    a.iter().zip(b).take_while(|(a, b)| a == b).count()
}

/// What follows the longest text that both texts begin with.
fn rests<'t>(a: &'t [u8], b: &'t [u8]) -> (&'t [u8], &'t [u8])
    ensures { AreRests a.now b.now result.0.now result.1.now }
{
    let count = common(a, b);
    (&a[count..], &b[count..])
}

/// Whether two texts that do not begin with the same byte differ only in that their first two bytes are
/// swapped.
fn swaps_first(from: &[u8], to: &[u8]) -> bool
    requires { AreApart from.now to.now }
    ensures { IsTrue result ↔ (IsSwap from.now to.now) }
{
    match (from, to) {
        ([a, b, from @ ..], [c, d, to @ ..]) => a == d && b == c && from == to,
        _ => false,
    }
}

/// Whether two texts differ only in that two different neighboring bytes are swapped.
#[tactic(auto, using(crate::proofs::NearestLemmas::swap_rests))]
fn is_swap(from: &[u8], to: &[u8]) -> bool
    ensures { IsTrue result ↔ (IsSwap from.now to.now) }
{
    let (from, to) = rests(from, to);
    swaps_first(from, to)
}

/// The most edits between near texts: two if both have at least `long` bytes, otherwise one.
#[inline(always)]
pub(crate) fn most_edits(long: usize, from: &[u8], to: &[u8]) -> usize
    ensures { result ≡ most_edits long from.now to.now }
{
    if from.len() < long || to.len() < long {
        1
    } else {
        2
    }
}

/// How many edits lead from one text to the other, ignoring ASCII case.
fn edits_between(alloc: Global, from: &[u8], to: &[u8]) -> Result<usize, AllocError>
    ensures { IfOk result (Edits from.now to.now) }
{
    let from = from.to_ascii_lowercase(alloc)?;
    let to = to.to_ascii_lowercase(alloc)?;
    if is_swap(&from, &to) {
        return Ok(1);
    }
    generic_levenshtein(alloc, from.as_slice(), to.as_slice())
}

/// Whether a text has a byte, ignoring ASCII case.
fn has_byte(text: &[u8], byte: u8) -> bool
    ensures { result ≡ has_byte text.now byte }
{
    text.iter().any(|other| byte.eq_ignore_ascii_case(other))
}

/// Whether one text has more bytes than so many that the other lacks, ignoring ASCII case. Then more edits than that lead
/// from one to the other.
// It ends at the first byte that is one too many.
fn lacks_more(from: &[u8], to: &[u8], most: usize) -> bool
    ensures { IsTrue result → most < length (filter (λ byte. not (has_byte to.now byte)) from.now) }
{
    let mut left = most;
    for byte in from {
        if !has_byte(to, *byte) {
            if left == 0 {
                return true;
            }
            left -= 1;
        }
    }
    false
}

/// How many edits lead from one text to the other, or `None` if the texts are not near.
// Most texts are not compared, since their lengths or their bytes differ by more edits than near texts may have.
pub(crate) fn few_edits(
    alloc: Global,
    long: usize,
    from: &[u8],
    to: &[u8],
) -> Result<Option<usize>, AllocError>
    ensures { IfOk result (λ r. IsFew (FewEdits long from.now to.now) r) }
{
    let most = most_edits(long, from, to);
    if from.len().abs_diff(to.len()) > most || lacks_more(from, to, most) {
        return Ok(None);
    }
    let edits = edits_between(alloc, from, to)?;
    if edits > most {
        return Ok(None);
    }
    Ok(Some(edits))
}

/// How many bytes both texts begin with, ignoring ASCII case.
fn common_word(a: &[u8], b: &[u8]) -> usize
    ensures count { result ≡ prefix_len (λ p. is_same_byte p.0 p.1) (zip a.now b.now) }
    ensures within { (result ≤ length a.now) × (result ≤ length b.now) }
{
    a.iter()
        .zip(b)
        .take_while(|(a, b)| a.eq_ignore_ascii_case(b))
        .count()
}

/// What follows the longest text that both texts begin with, ignoring ASCII case.
fn word_rests<'t>(a: &'t [u8], b: &'t [u8]) -> (&'t [u8], &'t [u8])
    ensures { AreRests (lower a.now) (lower b.now) (lower result.0.now) (lower result.1.now) }
{
    let count = common_word(a, b);
    (&a[count..], &b[count..])
}

/// Whether a text ends with another one, ignoring ASCII case.
fn ends_with_word(text: &[u8], end: &[u8]) -> bool
    ensures { IsTrue result ↔ ((word : List ℕ) × (lower text.now ≡ word ++ lower end.now)) }
{
    if text.len() < end.len() {
        return false;
    }
    is_same_word(&text[text.len() - end.len()..], end)
}

/// Whether the first text is long, and is the second one without one run of bytes, ignoring ASCII case. `rest` and
/// `other` are what follows the longest text that both begin with.
fn lacks_run(short: &[u8], long: &[u8], rest: &[u8], other: &[u8]) -> bool
    requires { AreRests (lower short.now) (lower long.now) (lower rest.now) (lower other.now) }
    ensures { IsTrue result ↔ (LacksRun short.now long.now) }
{
    if short.len() < LONG {
        return false;
    }
    ends_with_word(other, rest)
}

/// The least front of two texts that differ in how they end.
const FRONT: usize = 6;

/// The longest of these ends.
const END: usize = 3;

/// Whether these are the short ends of two texts, the first of which begins with a long front.
fn are_ends(text: &[u8], x: &[u8], y: &[u8]) -> bool
    ensures { IsTrue result ↔ ((length x.now ≤ 3) × (length y.now ≤ 3) × (length x.now + 6 ≤ length text.now)) }
{
    x.len() <= END && y.len() <= END && x.len() + FRONT <= text.len()
}

/// Whether two texts begin alike, ignoring ASCII case, and differ only in how they end: in `x` and `y`, which follow the
/// longest text that both begin with.
fn has_other_end(a: &[u8], b: &[u8], x: &[u8], y: &[u8]) -> bool
    requires { AreRests (lower a.now) (lower b.now) (lower x.now) (lower y.now) }
    ensures { IsTrue result ↔ (HasOtherEnd a.now b.now) }
{
    are_ends(a, x, y)
}

/// Whether one text is long and only lacks a run of bytes of the other, or both differ only in how they end.
#[tactic(auto, using(crate::proofs::NearestLemmas::swapped_rests))]
pub(crate) fn are_alike(a: &[u8], b: &[u8]) -> bool
    ensures { IsTrue result ↔ (LacksRun a.now b.now ⊎ (LacksRun b.now a.now ⊎ HasOtherEnd a.now b.now)) }
{
    let (x, y) = word_rests(a, b);
    lacks_run(a, b, x, y) || lacks_run(b, a, y, x) || has_other_end(a, b, x, y)
}
