//! Looks up settings by name. The last entry with a name decides.
ghost use Rattle.std.specs.Prelude.{MatchOption, MatchResult};
ghost use Rattle.config_text.specs.Settings.{entry_texts, IsAbsent, Decides, Finds, DecidingIsRefused};

use crate::value::Value;
use bstr::BStr;

/// A refused setting: the text of its deciding entry has no value (docs/GRAMMAR.md, Settings). If the type
/// implements [`TryRead`](crate::readers::TryRead), its `try_read` says why.
///
/// ```rust
/// use gix_config_value::Boolean;
/// use gix_config_value::settings::lookup;
///
/// let entries: [(&[u8], &[u8]); 2] = [(b"core.bare", b"yes"), (b"core.bare", b"maybe")];
/// let answer = lookup(&entries, b"core.bare", Boolean(false));
/// let refused = answer.err().ok_or("a boolean")?;
/// assert_eq!(rt; refused.index, 1);
/// assert_eq!(rt; refused.input, b"maybe".as_slice());
/// ```
#[derive(Clone, Copy, PartialEq, Eq, Debug)]
pub struct Refused<'a> {
    /// The index of the deciding entry, counted from 0.
    pub index: usize,
    /// The text of the deciding entry.
    pub input: &'a [u8],
}

/// Returns the index and the text of the last entry with this name, or `None` if no entry has the name.
fn deciding_entry<'a>(entries: &[(&[u8], &'a [u8])], name: &[u8]) -> Option<(usize, &'a [u8])>
    ensures { MatchOption result (IsAbsent (entry_texts entries.now) name.now)
        (λ e. Decides (entry_texts entries.now) name.now e.0 e.1.now) }
{
    let index = entries.iter().rposition(|entry| entry.0 == name)?;
    Some((index, entries[index].1))
}

/// Returns the value of a setting. An entry is a name and a text, and the last entry with exactly this name
/// decides; earlier ones are not read. Returns the default if no entry has the name, and refuses the setting
/// if the type's grammar gives the text of the deciding entry no value: docs/GRAMMAR.md, Settings.
///
/// Names are compared byte by byte, so their case matters. Git reads a key without `=` as true, so give its
/// entry the text `true`.
///
/// ```rust
/// use gix_config_value::Boolean;
/// use gix_config_value::settings::lookup;
///
/// let entries: [(&[u8], &[u8]); 2] = [(b"core.bare", b"no"), (b"core.bare", b"yes")];
/// let is_bare = lookup(&entries, b"core.bare", Boolean(false));
/// assert_eq!(rt; is_bare, Ok(Boolean(true))); // the last entry decides
/// let default = lookup(&entries, b"core.Bare", Boolean(false));
/// assert_eq!(rt; default, Ok(Boolean(false))); // no entry has this name
/// ```
pub fn lookup<'a, V: Value>(
    entries: &[(&[u8], &'a [u8])],
    name: &[u8],
    default: V,
) -> Result<V, Refused<'a>>
    ensures { MatchResult result
        (Finds V.grammar (entry_texts entries.now) name.now default)
        (λ r. DecidingIsRefused V.grammar (entry_texts entries.now) name.now r.index r.input.now) }
{
    let Some((index, input)) = deciding_entry(entries, name) else {
        return Ok(default);
    };
    match V::read(BStr::new(input)) {
        Some(value) => Ok(value),
        None => Err(Refused { index, input }),
    }
}
