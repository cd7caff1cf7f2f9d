//! Looks up the row that decides about a key.
ghost use Rattle.std.specs.Prelude.{◌≡◌, ◌≤◌, [], length, take, IfOk, MatchOption};
ghost use Rattle.config_file.specs.KeyView.{key_of};
ghost use Rattle.config_checks.specs.Reading.Steps.{IsFirstRun, LacksSection};
ghost use Rattle.config_checks.specs.Rows.{Decides, IsFirstCovering, IsUnknown, CoversNone, rows_of};

use crate::key::{covers, is_same_word};
use crate::row::{Row, Run};
use config_file::key::Key;
use std::alloc::{AllocError, Global};

/// The run that the rows begin with, or `None` if there are no rows.
fn first_run<'r, 't>(rows: &'r [Row<'t>]) -> Option<Run<'r, 't>>
    ensures { MatchOption result (rows.now ≡ []) (λ run. (length run.rows.now ≤ length rows.now)
        × (run.rows.now ≡ take (length run.rows.now) rows.now)) }
{
    let section = rows.first()?.key.section();
    let end = rows
        .iter()
        .position(|row| !is_same_word(row.key.section(), section))
        .unwrap_or(rows.len());
    Some(Run {
        section,
        rows: &rows[..end],
    })
}

/// Divides rows into runs, in order. Returns an error only if memory runs out.
pub fn runs_of<'r, 't>(alloc: Global, rows: &'r [Row<'t>]) -> Result<Vec<Run<'r, 't>>, AllocError>
    ensures { IfOk result (λ runs. rows_of runs.items ≡ rows.now) }
{
    let mut runs = Vec::new(alloc);
    let mut start = 0;
    'runs: while let Some(run) = first_run(&rows[start..]) {
        start += run.rows.len();
        runs.push(run)?;
    }
    Ok(runs)
}

/// The first of these rows that covers a key, or `None` if no row covers it.
fn first_covering<'r, 't>(rows: &'r [Row<'t>], key: &Key<'_>) -> Option<&'r Row<'t>>
    ensures { MatchOption result (CoversNone rows.now (key_of key.now))
        (λ row. IsFirstCovering rows.now (key_of key.now) row.now) }
{
    rows.iter().find(|row| covers(&row.key, key))
}

/// How many runs precede the first one of a section, or how many there are if none is. `near` is what this was for another
/// section, or 0: mostly it is the same one.
pub(crate) fn place_of(runs: &[Run<'_, '_>], section: &[u8], near: usize) -> usize
    requires { IsFirstRun runs.now near }
    ensures within { result ≤ length runs.now }
    ensures lacks { LacksSection (take result runs.now) section.now }
    ensures first { IsFirstRun runs.now result }
{
    match runs.get(near) {
        Some(run) if is_same_word(run.section, section) => near,
        _ => runs
            .iter()
            .position(|run| is_same_word(run.section, section))
            .unwrap_or(runs.len()),
    }
}

/// The first row that covers a key, which is in none of the first runs.
pub(crate) fn row_from<'r, 't>(
    runs: &[Run<'r, 't>],
    place: usize,
    key: &Key<'_>,
) -> Option<&'r Row<'t>>
    requires within { place ≤ length runs.now }
    requires lacks { LacksSection (take place runs.now) (key_of key.now).section }
    ensures { MatchOption result (CoversNone (rows_of runs.now) (key_of key.now))
        (λ row. IsFirstCovering (rows_of runs.now) (key_of key.now) row.now) }
{
    let mut at = place;
    'runs: while at < runs.len() {
        let run = runs[at];
        at += 1;
        if !is_same_word(run.section, key.section()) {
            continue 'runs;
        }
        if let Some(row) = first_covering(run.rows, key) {
            return Some(row);
        }
    }
    None
}

/// The first row that covers a key. Returns `None` if no row covers it, or if the text has no dot.
pub fn row_for<'r, 't>(runs: &[Run<'r, 't>], key: &[u8]) -> Option<&'r Row<'t>>
    ensures { MatchOption result (IsUnknown (rows_of runs.now) key.now)
        (λ row. Decides (rows_of runs.now) key.now row.now) }
{
    let key = Key::split(key)?;
    row_from(runs, 0, &key)
}
