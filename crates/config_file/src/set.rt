//! Sets of bytes in patterns, such as `[a-z]` and `[!/]`.
ghost use Rattle.std.specs.Prelude.{◌≡◌, ◌<◌, ◌≤◌, ◌≢◌, ◌∷◌, Bool, true, List, ℕ, IfSome, MatchOption};
ghost use Rattle.std.specs.Prelude.{length};
ghost use Rattle.std.specs.Int.{is_in_range};
ghost use Rattle.std.specs.List.{prefix_len};
ghost use Rattle.config_file.specs.Runs.{Run};
ghost use Rattle.config_file.specs.Set as spec;
ghost use Rattle.config_file.specs.Set.{Class, IsClass, IsNoClass, IsNoRange, Member, RangeEnd, SetByte};
ghost use Rattle.config_file.specs.Set.{SetHas, StandsForByte, is_unclosed};
ghost use Rattle.config_file.specs.Reading.Places.{Closing};

use crate::bytes::{after_byte, before, is_blank, split};
use config_text::words::equals;

/// A byte as it is compared: in lower case if case is ignored.
pub(crate) fn folded(byte: u8, ignores_case: bool) -> u8
    ensures { result ≡ spec.folded ignores_case byte }
{
    if ignores_case {
        byte.to_ascii_lowercase()
    } else {
        byte
    }
}

/// Whether the set is negated, and the text from its first member on.
fn opened(text: &[u8]) -> (bool, &[u8])
    ensures { (result.0, result.1.now) ≡ spec.opened text.now }
{
    match text {
        [b'!' | b'^', rest @ ..] => (true, rest),
        _ => (false, text),
    }
}

/// The next byte of a set, or the byte after a backslash, and the rest, or `None` if the set ends.
fn set_byte(text: &[u8], starts: bool) -> Option<(u8, &[u8])>
    ensures { MatchOption result ((c : ℕ) (rest : List ℕ) → ¬ (SetByte starts text.now c rest))
        (λ p. SetByte starts text.now p.0 p.1.now) }
{
    let (first, rest) = split(text)?;
    if first == b'\\' {
        let (escaped, after) = split(rest)?;
        return Some((escaped, after));
    }
    if first == b']' && !starts {
        None
    } else {
        Some((first, rest))
    }
}

/// The last byte of a range, after its `-`, and the rest, or `None` if there is no range.
fn range_end(text: &[u8]) -> Option<(u8, &[u8])>
    ensures { MatchOption result (IsNoRange text.now) (λ p. RangeEnd text.now p.0 p.1.now) }
{
    let after = after_byte(b'-', text)?;
    let (last, rest) = set_byte(after, false)?;
    Some((last, rest))
}

/// Whether a range has the byte, in either case if case is ignored.
fn range_has(first: u8, last: u8, byte: u8, ignores_case: bool) -> bool
    ensures { result ≡ spec.range_has ignores_case first last byte }
{
    is_between(first, last, folded(byte, ignores_case))
        || ignores_case && is_between(first, last, byte.to_ascii_uppercase())
}

/// Whether a byte is in the range from the first to the last, which are included.
fn is_between(first: u8, last: u8, byte: u8) -> bool
    ensures { result ≡ is_in_range first last byte }
{
    first <= byte && byte <= last
}

/// Whether a byte or a range at the start of the text has the byte, and the rest, or `None` if the set ends.
fn byte_or_range(text: &[u8], starts: bool, byte: u8, ignores_case: bool) -> Option<(bool, &[u8])>
    requires { IsNoClass text.now }
    ensures { MatchOption result ((has : Bool) (rest : List ℕ)
        → ¬ (Member ignores_case byte starts text.now has rest))
        (λ p. Member ignores_case byte starts text.now p.0 p.1.now) }
{
    let (first, after) = set_byte(text, starts)?;
    let is_first = first == folded(byte, ignores_case);
    match range_end(after) {
        Some((last, rest)) => Some((is_first || range_has(first, last, byte, ignores_case), rest)),
        None => Some((is_first, after)),
    }
}

/// What follows the `]` at which the set ends, or `None` if it does not end here.
fn after_end(text: &[u8]) -> Option<&[u8]>
    ensures { MatchOption result ((rest : List ℕ) → text.now ≢ 93 ∷ rest) (λ rest. text.now ≡ 93 ∷ rest.now) }
{
    match text {
        [b']', rest @ ..] => Some(rest),
        _ => None,
    }
}

/// Whether the class of this name has the byte, or `None` if there is no such class.
fn class_has(name: &[u8], byte: u8, ignores_case: bool) -> Option<bool>
    ensures { MatchOption result ((has : Bool) → ¬ (Class ignores_case byte name.now has))
        (λ has. Class ignores_case byte name.now has) }
{
    if equals(name, b"alnum") {
        Some(byte.is_ascii_alphanumeric())
    } else if equals(name, b"alpha") {
        Some(byte.is_ascii_alphabetic())
    } else if equals(name, b"blank") {
        Some(byte == b' ' || byte == b'\t')
    } else if equals(name, b"cntrl") {
        Some(byte.is_ascii_control())
    } else if equals(name, b"digit") {
        Some(byte.is_ascii_digit())
    } else if equals(name, b"graph") {
        Some(byte.is_ascii_graphic())
    } else if equals(name, b"lower") {
        Some(byte.is_ascii_lowercase() || ignores_case && byte.is_ascii_uppercase())
    } else if equals(name, b"print") {
        Some(byte == b' ' || byte.is_ascii_graphic())
    } else if equals(name, b"punct") {
        Some(byte.is_ascii_punctuation())
    } else if equals(name, b"space") {
        Some(is_blank(byte) || byte == b'\n')
    } else if equals(name, b"upper") {
        Some(byte.is_ascii_uppercase() || ignores_case && byte.is_ascii_lowercase())
    } else if equals(name, b"xdigit") {
        Some(byte.is_ascii_hexdigit())
    } else {
        None
    }
}

/// How many bytes precede the first `]`.
fn unclosed_count(text: &[u8]) -> usize
    ensures count { result ≡ prefix_len is_unclosed text.now }
    ensures within { result ≤ length text.now }
{
    text.iter().take_while(|byte| **byte != b']').count()
}

/// What precedes the first `]`, and the rest from it on.
fn unclosed(text: &[u8]) -> (&[u8], &[u8])
    ensures { Run is_unclosed text.now result.0.now result.1.now }
{
    text.split_at(unclosed_count(text))
}

/// What begins with the next `]` of the set. It is at `closing`, unless the set went on past that.
fn next_closing<'t>(text: &'t [u8], closing: &'t [u8]) -> &'t [u8]
    requires { Closing text.now closing.now }
    ensures { (inside : List ℕ) × Run is_unclosed text.now inside result.now }
{
    if text.len() < closing.len() {
        let (_, next) = unclosed(text);
        return next;
    }
    closing
}

/// The name of the class with which the text begins, and the rest, or `None` if it begins with no class.
/// `closing` begins with the next `]`, so that a class takes no time that grows with the set.
#[tactic(auto, using(crate::proofs::Sets::is_class, crate::proofs::Sets::not_opened, crate::proofs::Sets::no_closing))]
fn class_name<'t>(text: &'t [u8], closing: &'t [u8]) -> Option<(&'t [u8], &'t [u8])>
    requires { (inside : List ℕ) × Run is_unclosed text.now inside closing.now }
    ensures { MatchOption result (IsNoClass text.now) (λ p. IsClass text.now p.0.now p.1.now) }
{
    let inner = text.strip_prefix(b"[:")?;
    let inside = before(inner, closing);
    let name = inside.strip_suffix(b":")?;
    let rest = after_end(closing)?;
    Some((name, rest))
}

/// Whether the first member has the byte, and the rest, or `None` if the text begins with no member.
#[tactic(auto, using(crate::proofs::Sets::member_shortens))]
fn member<'t>(
    text: &'t [u8],
    closing: &'t [u8],
    starts: bool,
    byte: u8,
    ignores_case: bool,
) -> Option<(bool, &'t [u8])>
    requires { (inside : List ℕ) × Run is_unclosed text.now inside closing.now }
    ensures is { MatchOption result ((has : Bool) (rest : List ℕ)
        → ¬ (Member ignores_case byte starts text.now has rest))
        (λ p. Member ignores_case byte starts text.now p.0 p.1.now) }
    ensures shorter { IfSome result (λ p. length p.1.now < length text.now) }
{
    match class_name(text, closing) {
        Some((name, rest)) => match class_has(name, byte, ignores_case) {
            Some(has) => Some((has, rest)),
            None => None,
        },
        None => {
            let (has, rest) = byte_or_range(text, starts, byte, ignores_case)?;
            Some((has, rest))
        }
    }
}

/// Whether one of the members up to `]` has the byte, and what follows, or `None` if the set has no end or an
/// invalid member. It takes time that is linear in the set.
#[tactic(auto, using(crate::proofs::Sets::goes_on_first, crate::proofs::Sets::goes_on_found, crate::proofs::Sets::goes_on_here, crate::proofs::Sets::set_closed, crate::proofs::Sets::no_first))]
fn members(text: &[u8], byte: u8, ignores_case: bool) -> Option<(bool, &[u8])>
    ensures { MatchOption result ((found : Bool) (rest : List ℕ)
        → ¬ (SetHas ignores_case byte true text.now found rest))
        (λ p. SetHas ignores_case byte true text.now p.0 p.1.now) }
{
    let (_, mut closing) = unclosed(text);
    let (mut found, mut rest) = member(text, closing, true, byte, ignores_case)?;
    'members: loop {
        if let Some(after) = after_end(rest) {
            return Some((found, after));
        }
        closing = next_closing(rest, closing);
        let (is_here, after) = member(rest, closing, false, byte, ignores_case)?;
        found = found || is_here;
        rest = after;
    }
}

/// Whether the set matches the byte: one of its members has it, or, if it is negated, none of them has it.
fn is_wanted(found: bool, is_negated: bool) -> bool
    ensures { result ≡ spec.is_wanted found is_negated }
{
    if is_negated { !found } else { found }
}

/// What follows the set, or `None` if the set does not match the byte or is invalid.
#[tactic(auto, using(crate::proofs::Sets::stands, crate::proofs::Sets::stands_not, crate::proofs::Sets::stands_for_no_slash))]
pub(crate) fn after_set(text: &[u8], byte: u8, ignores_case: bool) -> Option<&[u8]>
    ensures { MatchOption result ((rest : List ℕ) → ¬ (StandsForByte ignores_case text.now byte rest))
        (λ rest. StandsForByte ignores_case text.now byte rest.now) }
{
    if byte == b'/' {
        return None;
    }
    let (is_negated, inner) = opened(text);
    let (found, rest) = members(inner, byte, ignores_case)?;
    if is_wanted(found, is_negated) {
        Some(rest)
    } else {
        None
    }
}
