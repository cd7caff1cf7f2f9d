//! Which keys the key of a row covers.
ghost use Rattle.std.specs.Prelude.{◌↔◌, IsTrue};
ghost use Rattle.config_text.specs.SameWord.{SameWord};
ghost use Rattle.config_file.specs.KeyView.{key_of};
ghost use Rattle.config_checks.specs.Keys.{CoversSubsection, CoversName, Covers};

use config_file::key::Key;

/// The part of a row's key that covers any subsection or any name.
pub(crate) const ANY: &[u8] = b"*";

/// Whether a text of a row and another text are the same, ignoring ASCII case.
pub(crate) fn is_same_word(row: &[u8], text: &[u8]) -> bool
    ensures { IsTrue result ↔ SameWord row.now text.now }
{
    // mostly they are written alike, which is told faster
    row == text || row.eq_ignore_ascii_case(text)
}

/// Whether the subsection of a row's key covers the subsection of a key, or neither has a subsection.
pub(crate) fn covers_subsection(row: &Key<'_>, key: &Key<'_>) -> bool
    ensures { IsTrue result ↔ CoversSubsection (key_of row.now).subsection (key_of key.now).subsection }
{
    match (row.subsection(), key.subsection()) {
        (None, None) => true,
        (Some(row), Some(subsection)) => row == ANY || row == subsection,
        _ => false,
    }
}

/// Whether the name of a row's key covers the name of a key.
pub(crate) fn covers_name(row: &Key<'_>, key: &Key<'_>) -> bool
    ensures { IsTrue result ↔ CoversName (key_of row.now).name (key_of key.now).name }
{
    row.name() == ANY || is_same_word(row.name(), key.name())
}

/// Whether the key of a row covers a key. Sections and names are compared ignoring ASCII case, and
/// subsections byte by byte. A `*` in the row's key covers any subsection, or any name.
pub fn covers(row: &Key<'_>, key: &Key<'_>) -> bool
    ensures { IsTrue result ↔ Covers (key_of row.now) (key_of key.now) }
{
    covers_name(row, key)
        && covers_subsection(row, key)
        && is_same_word(row.section(), key.section())
}
