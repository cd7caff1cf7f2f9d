//! Keys, as Git lists them, of entries that follow each other.
ghost use Rattle.std.specs.Prelude.{◌≡◌, ◌++◌, ◌+◌, ◌≤◌, ℕ, List, IsTrue, IfSome, OnOk, drop, length, map, take};
ghost use Rattle.std.specs.Char.{to_ascii_lowercase};
ghost use Rattle.std.proofs.Props.{props};
ghost use Rattle.config_file.specs.Listing.{IsListed, IsListedSection};
ghost use Rattle.config_file.specs.Views.{entry_of, section_of};

use config_file::Entry;
use config_file::entry::push_lower;
use config_file::section::Section;
use std::alloc::{AllocError, Global};
use std::simd::prelude::*;

/// Lists keys one after the other. What Git lists of a section before a key is built once for all entries that follow
/// each other in it.
///
/// ```rust
/// use config_answers::keys::KeyList;
/// use config_file::Entries;
///
/// let mut keys = KeyList::new(alloc);
/// let mut text = Vec::new(alloc);
/// for entry in Entries::new(b"[A \"B\"]\n\tC = 1\n\tD = 2") {
///     let entry = entry.expect(&rt, "no error");
///     keys.push(&mut text, &entry)?;
///     text.push(b'\n')?;
/// }
/// assert_eq!(rt; text.as_slice(), b"a.B.c\na.B.d\n".as_slice());
/// ```
#[derive(Drop)]
pub struct KeyList<'t> {
    section: Option<Section<'t>>,
    front: Vec<u8>,
    ghost lists: { IfSome section (λ last. (listed : List ℕ) → IsListedSection (section_of last) listed
        → front.items ≡ listed) } by { Prim.hlevel props },
}

/// Whether two texts are the same, of which a block at the start and one at the end leave nothing out.
#[inline(always)]
fn have_equal_ends<const N: usize>(one: &[u8], other: &[u8]) -> bool
    requires { (N ≤ 64) × (length one.now ≡ length other.now) × (N ≤ length one.now) × (length one.now ≤ N + N) }
    ensures { IsTrue result → one.now ≡ other.now }
{
    let back = one.len() - N;
    Simd::<u8, N>::from_slice(one) == Simd::<u8, N>::from_slice(other)
        && Simd::<u8, N>::from_slice(&one[back..]) == Simd::<u8, N>::from_slice(&other[back..])
}

/// Whether two texts are the same. Names and most subsections are short, and then two blocks cost fewer instructions
/// than `==`.
fn are_equal(one: &[u8], other: &[u8]) -> bool
    ensures { IsTrue result → one.now ≡ other.now }
{
    if one.len() != other.len() {
        return false;
    }
    match one.len() {
        2..=3 => have_equal_ends::<2>(one, other),
        4..=7 => have_equal_ends::<4>(one, other),
        8..=16 => have_equal_ends::<8>(one, other),
        17..=32 => have_equal_ends::<16>(one, other),
        _ => one == other,
    }
}

/// Whether two sections are written in the same way.
fn are_same(one: &Section<'_>, other: &Section<'_>) -> bool
    ensures { IsTrue result → section_of one.now ≡ section_of other.now }
{
    match (&one.subsection, &other.subsection) {
        (Some(first), Some(second)) => are_equal(first.raw, second.raw)
            && are_equal(one.name, other.name),
        (None, None) => are_equal(one.name, other.name),
        _ => false,
    }
}

/// A block of a name, in lower case.
#[inline(always)]
fn lower_block<const N: usize>(name: &[u8], at: usize) -> [u8; N]
    requires { at + N ≤ length name.now }
    ensures { result ≡ map to_ascii_lowercase (take N (drop at name.now)) }
{
    let bytes = Simd::<u8, N>::from_slice(&name[at..]);
    let is_upper = (bytes - Simd::splat(b'A')).simd_lt(Simd::splat(26));
    (bytes + is_upper.select(Simd::splat(32), Simd::splat(0))).to_array()
}

/// Appends in lower case a name of which a block at the start and one at the end leave nothing out.
#[inline(always)]
fn push_lower_ends<const N: usize>(text: &mut Vec<u8>, name: &[u8]) -> Result<(), AllocError>
    requires { (N ≤ length name.now) × (length name.now ≤ N + N) }
    ensures { OnOk result (text.new.items ≡ text.old.items ++ map to_ascii_lowercase name.now) }
{
    let back = name.len() - N;
    let end = text.len() + back;
    text.extend_from_slice(&lower_block::<N>(name, 0))?;
    text.truncate(end);
    text.extend_from_slice(&lower_block::<N>(name, back))
}

/// Appends the name of a key in lower case, as [`push_lower`] does. Most are short, and then two blocks of fixed lengths
/// cost fewer instructions than a copy and a loop over it.
fn push_lower_key(text: &mut Vec<u8>, key: &[u8]) -> Result<(), AllocError>
    ensures { OnOk result (text.new.items ≡ text.old.items ++ map to_ascii_lowercase key.now) }
{
    match key.len() {
        2..=3 => push_lower_ends::<2>(text, key),
        4..=7 => push_lower_ends::<4>(text, key),
        8..=16 => push_lower_ends::<8>(text, key),
        _ => push_lower(text, key),
    }
}

impl<'t> KeyList<'t> {
    /// A list that is in no section yet.
    pub fn new(alloc: Global) -> KeyList<'t> {
        KeyList {
            section: None,
            front: Vec::new(alloc),
        }
    }

    /// Whether the last entry was in a section that is written in the same way.
    fn is_in(&self, section: &Section<'_>) -> bool
        ensures { IsTrue result → (listed : List ℕ) → IsListedSection (section_of section.now) listed
            → self.now.front.items ≡ listed }
    {
        match &self.section {
            Some(last) => are_same(last, section),
            None => false,
        }
    }

    /// Goes on in a section.
    fn enter(&mut self, section: Section<'t>) -> Result<(), AllocError>
        ensures { OnOk result ((listed : List ℕ) → IsListedSection (section_of section.entry) listed
            → self.new.front.items ≡ listed) }
    {
        self.section = None;
        self.front.clear();
        let head = Entry {
            section: Some(section),
            key: b"",
            value: None,
            line: 0,
        };
        head.push_key(&mut self.front)?;
        self.section = Some(section);
        Ok(())
    }

    /// Appends the key of an entry, as [`Entry::push_key`] does. It fails only if memory is refused.
    #[inline(always)]
    pub fn push(&mut self, text: &mut Vec<u8>, entry: &Entry<'t>) -> Result<(), AllocError>
        ensures { (listed : List ℕ)
            → IsListed (entry_of entry.now).section (entry_of entry.now).key listed
            → OnOk result (text.new.items ≡ text.old.items ++ listed) }
    {
        let Some(section) = entry.section else {
            return push_lower_key(text, entry.key);
        };
        if !self.is_in(&section) {
            self.enter(section)?;
        }
        text.extend_from_slice(&self.front)?;
        push_lower_key(text, entry.key)
    }
}
