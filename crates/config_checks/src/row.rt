//! Rows of the checker's table, which say what the values of settings have to be.
ghost use Rattle.std.specs.Prelude.{◌<◌, length};
ghost use Rattle.std.specs.List.{All};
ghost use Rattle.config_text.specs.SameWord.{SameWord};
ghost use Rattle.config_file.specs.KeyView.{key_of};

use crate::kind::SettingKind;
use crate::version::Version;
use config_file::key::Key;

/// A row says what the value of a setting has to be if the key of the row covers the setting's key.
///
/// ```rust
/// use config_checks::table::read_row;
///
/// let row = read_row(alloc, b"color.*.* warn color").expect(&rt, "a line").expect(&rt, "a row");
/// assert!(rt; row.goes_on && row.key.name() == b"*".as_slice());
/// ```
#[derive(Drop)]
pub struct Row<'t> {
    /// The key, which may have `*` as its subsection and as its name.
    pub key: Key<'t>,
    /// The first version of Git that reads such settings, if some Gits are too old.
    pub since: Option<Version>,
    /// The first version of Git that no longer reads them as this row says.
    pub until: Option<Version>,
    /// What to use instead, if Git calls these settings deprecated, or only the value `old` of them.
    pub instead: Option<&'t [u8]>,
    /// The value that Git calls deprecated, if it does not call the settings so.
    pub old: Option<&'t [u8]>,
    /// What the value has to mean, if the row asks for one meaning.
    pub wanted: Option<&'t [u8]>,
    /// Whether one of the files has to have such a setting.
    pub must: bool,
    /// Whether a key alone, which has no value, is right.
    pub takes_no_value: bool,
    /// Whether Git continues after a wrong value, since it only warns about the value or ignores it.
    pub goes_on: bool,
    /// The kind of value that these settings need.
    pub kind: SettingKind<'t>,
}

/// Consecutive rows of one section. A search skips most runs, because it first compares their sections.
///
/// ```rust
/// use config_checks::lookup::{row_for, runs_of};
/// use config_checks::table::read_rows;
///
/// let mut rows = Vec::new(alloc);
/// assert!(rt; read_rows(alloc, b"core.bare bool\ncore.* text\nuser.name text", &mut rows).is_ok());
/// let runs = runs_of(alloc, &rows)?;
/// assert!(rt; row_for(&runs, b"core.editor").is_some() && row_for(&runs, b"user.email").is_none());
/// ```
#[derive(Clone, Copy)]
pub struct Run<'r, 't> {
    /// The section of each of the rows, ignoring ASCII case.
    pub section: &'t [u8],
    /// The rows.
    pub rows: &'r [Row<'t>],
    ghost of_section: { All (λ row. SameWord (key_of row.key).section section.now) rows.now },
    ghost some: { 0 < length rows.now },
}
