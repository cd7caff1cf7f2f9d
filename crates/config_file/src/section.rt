//! Sections and subsections.
ghost use Rattle.std.specs.Prelude.{◌≡◌, ◌≢◌, ℕ, ◌<◌, ◌↔◌, List, [], ◌∷◌, ◌++◌, length, map, IsTrue, IfSome, OnOk};
ghost use Rattle.std.specs.Prelude.{MatchOption};
ghost use Rattle.std.specs.Char.{to_ascii_lowercase};
ghost use Rattle.config_file.specs.Subsection.{SpellsSubsection};

use crate::bytes::{Class, after_byte, run, split};
use std::alloc::AllocError;

/// A section: its name, and its subsection if the header has one.
///
/// ```rust
/// use config_file::Entries;
///
/// let mut entries = Entries::new(b"[Remote \"Up\"]\n\turl = x");
/// let entry = entries.next().expect(&rt, "an entry").expect(&rt, "no error");
/// let section = entry.section.expect(&rt, "a section");
/// assert!(rt; section.has_name(b"remote"));
/// assert!(rt; section.subsection.is_some_and(|subsection| subsection.is(b"Up")));
/// ```
#[derive(Clone, Copy, Debug)]
pub struct Section<'a> {
    /// Letters, digits, `-` and `.`, in the case of the text. The name can be empty only before a subsection.
    pub name: &'a [u8],
    /// The subsection, which the header has in quotes.
    pub subsection: Option<Subsection<'a>>,
}

impl<'a> Section<'a> {
    /// Whether the section has this name, ignoring ASCII case, as Git compares it.
    pub fn has_name(&self, name: &[u8]) -> bool
        ensures { IsTrue result
            ↔ (map to_ascii_lowercase self.now.name.now ≡ map to_ascii_lowercase name.now) }
    {
        self.name.eq_ignore_ascii_case(name)
    }
}

/// A subsection: the bytes between its quotes.
///
/// ```rust
/// use config_file::section::Subsection;
///
/// let subsection = Subsection { raw: b"a\\\"b" };
/// let mut text = Vec::new(alloc);
/// subsection.push_text(&mut text)?;
/// assert_eq!(rt; text.as_slice(), b"a\"b".as_slice());
/// assert!(rt; !subsection.is(b"A\"b")); // case counts
/// ```
#[derive(Clone, Copy, Debug)]
pub struct Subsection<'a> {
    /// The bytes as they are in the text, with their backslashes.
    pub raw: &'a [u8],
}

impl<'a> Subsection<'a> {
    /// Appends the text that these bytes spell: a backslash is dropped, and the byte after it is kept. It
    /// fails only if memory is refused.
    pub fn push_text(&self, text: &mut Vec<u8>) -> Result<(), AllocError>
        ensures { (spelled : List ℕ) → SpellsSubsection self.now.raw.now spelled
            → OnOk result (text.new.items ≡ text.old.items ++ spelled) }
    {
        let (unescaped, mut at) = run(self.raw, Class::Unescaped);
        text.extend_from_slice(unescaped)?;
        'bytes: while let Some((byte, rest)) = spelled_byte(at) {
            text.push(byte)?;
            at = rest;
        }
        Ok(())
    }

    /// Whether these bytes and this text end with different bytes. No text then ends with this text and with what
    /// these bytes spell.
    #[inline(always)]
    pub(crate) fn ends_unlike(&self, text: &[u8]) -> bool
        ensures { IsTrue result → (spelled front before : List ℕ) → SpellsSubsection self.now.raw.now spelled
            → before ++ spelled ≢ front ++ text.now }
    {
        match text {
            [.., last] => match self.raw {
                [.., own] => *own != *last,
                [] => false,
            },
            [] => false,
        }
    }

    /// Whether these bytes spell this text. Case counts, as in Git.
    pub fn is(&self, text: &[u8]) -> bool
        ensures { (spelled : List ℕ) → SpellsSubsection self.now.raw.now spelled
            → (IsTrue result ↔ (spelled ≡ text.now)) }
    {
        let mut at = self.raw;
        let mut left = text;
        'bytes: while let Some((byte, rest)) = spelled_byte(at) {
            match after_byte(byte, left) {
                Some(more) => {
                    at = rest;
                    left = more;
                }
                None => return false,
            }
        }
        left.is_empty()
    }
}

/// The first byte of the text that these bytes spell, and the bytes that spell what follows it.
fn spelled_byte(raw: &[u8]) -> Option<(u8, &[u8])>
    ensures spelled { (spelled : List ℕ) → SpellsSubsection raw.now spelled
        → MatchOption result (spelled ≡ [])
        (λ p. (more : List ℕ) × SpellsSubsection p.1.now more × (spelled ≡ p.0 ∷ more)) }
    ensures shorter { IfSome result (λ p. length p.1.now < length raw.now) }
{
    let (byte, rest) = split(raw)?;
    if byte == b'\\' {
        split(rest)
    } else {
        Some((byte, rest))
    }
}
