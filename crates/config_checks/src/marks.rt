//! Marks of names: without one a name is no row's, which takes no search through all rows to tell.
ghost use Rattle.std.specs.Prelude.{◌≡◌, ◌↔◌, ℕ, IsTrue, IfOk, MatchOption, true, slice_index_or};
ghost use Rattle.config_file.specs.KeyView.{key_of};
ghost use Rattle.config_checks.specs.Reading.Steps.{next_number, number_of, HasMark, IsMarked, AreMarked, LacksMarks};
ghost use Rattle.config_checks.specs.Reading.Steps.{IsFirstRun};
ghost use Rattle.config_checks.specs.Rows.{Decides, IsUnknown, rows_of};

use crate::key::ANY;
use crate::lookup::{place_of, row_from};
use crate::row::{Row, Run};
use config_file::key::Key;
use std::alloc::{AllocError, Global};

/// How many marks there are: more than thirty for each name that the rows of Git have.
const MARKS: usize = 32768;

/// The number of a name with one more byte, ignoring ASCII case.
fn next_number(number: usize, byte: u8) -> usize
    ensures { result ≡ next_number number byte }
{
    ((number % MARKS) * 31 + usize::from(byte.to_ascii_lowercase())) % MARKS
}

/// The number of a name. Names that are the same, ignoring ASCII case, have one number.
fn number_of(name: &[u8]) -> usize
    ensures { result ≡ number_of name.now }
{
    let mut number = 0;
    for byte in name {
        number = next_number(number, *byte);
    }
    number
}

/// Whether the number of a name is marked. If it is not, no row has the name.
pub(crate) fn has_mark(marks: &[bool], name: &[u8]) -> bool
    ensures { IsTrue result ↔ HasMark marks.now name.now }
{
    match marks.get(number_of(name)) {
        Some(mark) => *mark,
        None => true,
    }
}

/// Marks a number, if there is a mark for it.
fn set_mark(marks: &mut Vec<bool>, number: usize)
    ensures kept { (n : ℕ) → slice_index_or marks.old.items n true ≡ true → slice_index_or marks.new.items n true ≡ true }
    ensures set { slice_index_or marks.new.items number true ≡ true }
{
    if number < marks.len() {
        marks[number] = true;
    }
}

/// Marks the name of a row, and its section if the row is for all names.
fn mark_row(marks: &mut Vec<bool>, row: &Row<'_>)
    ensures kept { (n : ℕ) → slice_index_or marks.old.items n true ≡ true → slice_index_or marks.new.items n true ≡ true }
    ensures marked { IsMarked marks.new.items row.now }
{
    set_mark(marks, number_of(row.key.name()));
    if row.key.name() == ANY {
        set_mark(marks, number_of(row.key.section()));
    }
}

/// Marks each row.
pub(crate) fn marks_of(alloc: Global, rows: &[Row<'_>]) -> Result<Vec<bool>, AllocError>
    ensures { IfOk result (λ marks. AreMarked rows.now marks.items) }
{
    let mut marks = Vec::new(alloc);
    marks.resize(MARKS, false)?;
    for row in rows {
        mark_row(&mut marks, row);
    }
    Ok(marks)
}

/// Whether neither the name nor the section of a key is marked.
fn lacks_marks(marks: &[bool], key: &Key<'_>) -> bool
    ensures { IsTrue result → LacksMarks marks.now (key_of key.now) }
{
    !has_mark(marks, key.name()) && !has_mark(marks, key.section())
}

/// Does the same as [`row_for`](crate::lookup::row_for). `marks` are those of the rows, and `near` is the place of the
/// first run of the last section that was asked for, or 0.
// Most unknown keys have no mark, so no row is looked at, and most keys are of the section of the one before.
pub(crate) fn marked_row_for<'r, 't>(
    runs: &[Run<'r, 't>],
    marks: &[bool],
    near: &mut usize,
    key: &[u8],
) -> Option<&'r Row<'t>>
    requires marked { AreMarked (rows_of runs.now) marks.now }
    requires near { IsFirstRun runs.now near.old }
    ensures row { MatchOption result (IsUnknown (rows_of runs.now) key.now)
        (λ row. Decides (rows_of runs.now) key.now row.now) }
    ensures near { IsFirstRun runs.now near.new }
{
    let key = Key::split(key)?;
    if lacks_marks(marks, &key) {
        return None;
    }
    let place = place_of(runs, key.section(), *near);
    *near = place;
    row_from(runs, place, &key)
}
