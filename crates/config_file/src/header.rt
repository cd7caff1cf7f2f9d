//! Section headers.
ghost use Rattle.std.specs.Prelude.{◌≡◌, ◌≢◌, ℕ, true, [], ◌∷◌, MatchOption, MatchResult};
ghost use Rattle.config_file.specs.Bytes.{is_text_byte, EndsText};
ghost use Rattle.config_file.specs.Header.{Header, HeaderStops, ClosesSubsection, SubsectionStops, NameStops};
ghost use Rattle.config_file.specs.Subsection.{TakesSubsection, StopsInSubsection};
ghost use Rattle.config_file.specs.Views.{section_of};

use crate::bytes::{Class, after_byte, before, is_at_line_end, is_text_byte, run, split};
use crate::errors::{ItemError, Why, stop_at};
use crate::section::{Section, Subsection};

/// Reads a header after its `[`. Returns the section, and what follows the header. It fails where the text is
/// no header.
pub fn read_header(text: &[u8]) -> Result<(Section<'_>, &[u8]), ItemError>
    ensures { MatchResult result (λ p. Header text.now (section_of p.0) p.1.now)
        (λ stop. HeaderStops text.now stop.lines stop.why) }
{
    let (name, after) = run(text, Class::Name);
    let (blanks, quoted) = run(after, Class::Blank);
    if blanks.is_empty() {
        let rest = close_name(name, after)?;
        return Ok((
            Section {
                name,
                subsection: None,
            },
            rest,
        ));
    }
    let Some(inner) = after_byte(b'"', quoted) else {
        return Err(stop_at(quoted));
    };
    let (subsection, rest) = read_subsection(inner)?;
    Ok((
        Section {
            name,
            subsection: Some(subsection),
        },
        rest,
    ))
}

/// What follows the `]` after a name. A name that is empty or is not closed is refused.
fn close_name<'a>(name: &[u8], after: &'a [u8]) -> Result<&'a [u8], ItemError>
    ensures { MatchResult result (λ rest. (name.now ≢ []) × (after.now ≡ 93 ∷ rest.now))
        (λ stop. NameStops name.now after.now stop.lines stop.why) }
{
    if after.is_empty() {
        return Err(ItemError {
            lines: 1,
            why: Why::BadLine,
        });
    }
    if name.is_empty() {
        return Err(stop_at(after));
    }
    match after_byte(b']', after) {
        Some(rest) => Ok(rest),
        None => Err(stop_at(after)),
    }
}

/// Reads a subsection after its opening quote. Returns the subsection, and what follows the `]`.
fn read_subsection(text: &[u8]) -> Result<(Subsection<'_>, &[u8]), ItemError>
    ensures { MatchResult result (λ p. ClosesSubsection text.now p.0.raw.now p.1.now)
        (λ stop. SubsectionStops text.now stop.lines stop.why) }
{
    let (raw, after) = match quoted(text) {
        Ok(parts) => parts,
        Err(at) => return Err(stop_at(at)),
    };
    if let Some(rest) = after_byte(b']', after) {
        return Ok((Subsection { raw }, rest));
    }
    if is_at_line_end(after) {
        return Err(ItemError {
            lines: 1,
            why: Why::BadLine,
        });
    }
    Err(stop_at(after))
}

/// The bytes up to the closing quote, and what follows it; otherwise the rest at which the reading stops.
fn quoted(text: &[u8]) -> Result<(&[u8], &[u8]), &[u8]>
    ensures { MatchResult result (λ p. TakesSubsection text.now p.0.now p.1.now)
        (λ rest. StopsInSubsection text.now rest.now) }
{
    let (_, mut at) = run(text, Class::InQuotes);
    'pieces: while let Some((byte, rest)) = split(at) {
        if byte == b'"' {
            return Ok((before(text, at), rest));
        }
        if byte != b'\\' {
            return Err(at);
        }
        match after_escaped(rest) {
            Some(after) => at = run(after, Class::InQuotes).1,
            None => return Err(rest),
        }
    }
    Err(at)
}

/// What follows the byte that a backslash escapes, or `None` if the text is empty or begins with LF or NUL.
fn after_escaped(text: &[u8]) -> Option<&[u8]>
    ensures { MatchOption result (EndsText text.now)
        (λ rest. (e : ℕ) × (text.now ≡ e ∷ rest.now) × (is_text_byte e ≡ true)) }
{
    let (byte, rest) = split(text)?;
    if is_text_byte(byte) { Some(rest) } else { None }
}
