//! The start of HEAD, by which Git knows a git directory.
ghost use Rattle.std.specs.Prelude.{◌≡◌, ◌≤◌, length, take, codes, MatchResult, option_copied};
ghost use Rattle.std.specs.List.{prefix_len};
ghost use Rattle.config_search.specs.System.{System, AreTrueIn};
ghost use Rattle.config_search.specs.Questions.{IsPlace};
ghost use Rattle.config_search.specs.Shown.{IsNew};
ghost use Rattle.config_search.specs.Rule as rule;

use crate::fact::{Lookup, Pause, answer_in, is_word};
use crate::{KIND, LINK, TEXT};

/// Whether Git takes this for a blank around a reference.
fn is_blank(byte: u8) -> bool
    ensures { result ≡ rule.is_blank byte }
{
    byte == b' ' || byte == b'\t' || byte == b'\n' || byte == b'\r'
}

/// Whether this is a hexadecimal digit.
fn is_hex(byte: u8) -> bool
    ensures { result ≡ rule.is_hex byte }
{
    (48 <= byte && byte <= 57) || (65 <= byte && byte <= 70) || (97 <= byte && byte <= 102)
}

/// The number of hexadecimal digits at the start of a text.
pub(crate) fn count_digits(text: &[u8]) -> usize
    ensures count { result ≡ prefix_len rule.is_hex text.now }
    ensures within { result ≤ length text.now }
{
    text.iter().take_while(|byte| is_hex(**byte)).count()
}

/// The number of blanks at the start of a text.
fn count_blanks(text: &[u8]) -> usize
    ensures count { result ≡ prefix_len rule.is_blank text.now }
    ensures within { result ≤ length text.now }
{
    text.iter().take_while(|byte| is_blank(**byte)).count()
}

/// A text without the blanks at its start.
pub(crate) fn without_blanks(text: &[u8]) -> &[u8]
    ensures { result.now ≡ rule.without_blanks text.now }
{
    &text[count_blanks(text)..]
}

/// Whether this start of a HEAD is Git's: it names a reference, or an object by 40 digits or more.
fn is_start(text: &[u8]) -> bool
    ensures { result ≡ rule.is_start text.now }
{
    if text.starts_with(b"ref:") {
        return without_blanks(&text[4..]).starts_with(b"refs/");
    }
    40 <= count_digits(text)
}

/// The bytes of a HEAD at which Git looks.
fn start_of(text: &[u8]) -> &[u8]
    ensures { result.now ≡ take 255 text.now }
{
    if 255 < text.len() {
        return &text[..255];
    }
    text
}

/// Whether a text of HEAD is Git's.
fn is_head(text: Option<&[u8]>) -> bool
    ensures { result ≡ rule.is_head (option_copied text.entry) }
{
    match text {
        Some(text) => is_start(start_of(text)),
        None => false,
    }
}

/// Whether a link leads to a reference.
fn is_reference_link(target: Option<&[u8]>) -> bool
    ensures { result ≡ rule.is_reference_link (option_copied target.entry) }
{
    match target {
        Some(target) => target.starts_with(b"refs/"),
        None => false,
    }
}

/// Whether HEAD of a folder is Git's.
#[tactic(auto, unfolding(crate::specs::Rule::has_head))]
pub(crate) fn has_head(lookup: &Lookup<'_, '_>, folder: &[u8]) -> Result<bool, Pause>
    requires { IsPlace lookup.now.folder.now lookup.now.facts.now folder.now }
    ensures { MatchResult result
        (λ has. (system : System) → AreTrueIn system lookup.now.facts.now → has ≡ rule.has_head system folder.now)
        (IsNew lookup.now.folder.now lookup.now.facts.now) }
{
    let kind = answer_in(lookup, KIND, folder, b"HEAD")?;
    if is_word(kind, b"link") {
        return Ok(is_reference_link(answer_in(lookup, LINK, folder, b"HEAD")?));
    }
    if is_word(kind, b"file") {
        return Ok(is_head(answer_in(lookup, TEXT, folder, b"HEAD")?));
    }
    Ok(false)
}
