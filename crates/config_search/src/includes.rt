//! The sections of a text that include files, as far as they are known before it is read.
ghost use Rattle.std.specs.Prelude.{◌≡◌, ◌≤◌, ◌<◌, false, length, MatchOption};
ghost use Rattle.config_search.specs.Reads as reads;

use bstr::ByteSlice;

/// What begins at the next `[` of a text, or `None` if there is none.
fn at_bracket(text: &[u8]) -> Option<&[u8]>
    ensures { MatchOption result (reads.has_include text.now ≡ false)
        (λ found. (reads.has_include text.now ≡ reads.has_include found.now) × (1 ≤ length found.now)
        × (length found.now ≤ length text.now)) }
{
    let at = text.find_byte(b'[')?;
    Some(&text[at..])
}

/// Whether a text begins with `[include`, in either case.
fn begins_include(text: &[u8]) -> bool
    ensures { result ≡ reads.begins_include text.now }
{
    let [b'[', rest @ ..] = text else {
        return false;
    };
    match rest.split_at_checked(7) {
        Some((front, _)) => front.eq_ignore_ascii_case(b"include"),
        None => false,
    }
}

/// Whether a text has a section whose name begins with `include`: no other text includes a file.
pub fn has_include(text: &[u8]) -> bool
    ensures { result ≡ reads.has_include text.now }
{
    let mut rest = text;
    'brackets: while let Some(found) = at_bracket(rest) {
        if begins_include(found) {
            return true;
        }
        rest = &found[1..];
    }
    false
}
