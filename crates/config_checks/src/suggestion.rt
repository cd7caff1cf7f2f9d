//! Keys that no row covers, and the nearest keys of the rows.
ghost use Rattle.std.specs.Prelude.{◌≡◌, ◌++◌, ◌↔◌, IsTrue, MatchOption, IfOk, IfSome, OnOk, Some};
ghost use Rattle.std.specs.Prelude.{option_copied};
ghost use Rattle.std.specs.List.{Any};
ghost use Rattle.config_text.specs.SameWord.{SameWord};
ghost use Rattle.config_file.specs.KeyView.{key_of};
ghost use Rattle.config_checks.specs.Keys.{CoversSubsection, CoversName};
ghost use Rattle.config_checks.specs.Nearest.{AreFar, IsNearest};
ghost use Rattle.config_checks.specs.Suggestions.{AreAlike, SubsectionEdits, NameEdits, EditsAfter, OnePartEdits};
ghost use Rattle.config_checks.specs.Suggestions.{RowEdits, Fills, FillsSubsection, FillsKey, IsShared};
ghost use Rattle.config_checks.specs.Suggestions.{IsOwn, IsTopic, IsMoved, IsMovedRow, HasNone, IsFirstSuch};
ghost use Rattle.config_checks.specs.Suggestions.{IsNowhere, IsElsewhere, HasSlots, IsForeign, Suggests};
ghost use Rattle.config_checks.specs.Suggestions.{nearest_of, HasSection, IsPassed, IsUnknownKey, dotted};
ghost use Rattle.config_checks.specs.Suggestions.{subsection_shown, after_shown, key_shown, asked};
ghost use Rattle.config_checks.specs.Suggestions.{unknown_severity, unknown_text};
ghost use Rattle.config_checks.specs.Rows.{IsUnknown, rows_of};
ghost use Rattle.config_checks.specs.Reading.Steps.{IsFew, IsName, IsRelation, AreRelations, IsSection, AreMarked};

use crate::alike::{NameFacts, is_other_word, name_facts};
use crate::edits::{LONG, MOST_EDITS, are_alike, few_edits};
use crate::finding::push_shown;
use crate::key::{ANY, covers_name, covers_subsection, is_same_word};
use crate::marks::has_mark;
use crate::reason::Severity;
use crate::row::{Row, Run};
use config_file::key::Key;
use std::alloc::{AllocError, Global};

/// A section of at least this many bytes is long.
const LONG_SECTION: usize = 8;

/// No edits if the names of two keys are the same, of which only one has a subsection, and otherwise `None`.
fn shape_edits(row: &Key<'_>, key: &Key<'_>) -> Option<usize>
    ensures { MatchOption result (¬ (SameWord (key_of row.now).name (key_of key.now).name))
        (λ n. SameWord (key_of row.now).name (key_of key.now).name × (n ≡ 0)) }
{
    if is_same_word(row.name(), key.name()) {
        return Some(0);
    }
    None
}

/// How many edits lead from one subsection to the other. `None` if they are not near, or if neither key has a
/// subsection. If only one has a subsection, the names have to be the same, and there are no edits.
fn subsection_edits(
    alloc: Global,
    row: &Key<'_>,
    key: &Key<'_>,
) -> Result<Option<usize>, AllocError>
    ensures { IfOk result (λ r. IsFew
        (SubsectionEdits (SameWord (key_of row.now).name (key_of key.now).name)
        (key_of row.now).subsection (key_of key.now).subsection) r) }
{
    match (row.subsection(), key.subsection()) {
        (Some(row), Some(subsection)) => few_edits(alloc, LONG, row, subsection),
        (None, None) => Ok(None),
        _ => Ok(shape_edits(row, key)),
    }
}

/// Whether one of the names only lacks a run of bytes of the other, or ends otherwise, and the key has no subsection.
fn are_alike_alone(row: &Key<'_>, key: &Key<'_>) -> bool
    ensures { IsTrue result ↔ (((key_of key.now).subsection ≡ None) × AreAlike (key_of row.now).name (key_of key.now).name) }
{
    key.subsection().is_none() && are_alike(row.name(), key.name())
}

/// How many edits lead from one name to the other: none if it is another word for it, or three if they are not near but
/// alike. `None` in all other cases. `name` is what is known of the name of the key.
#[inline(never)]
fn name_edits(
    alloc: Global,
    name: &NameFacts,
    row: &Key<'_>,
    key: &Key<'_>,
) -> Result<Option<usize>, AllocError>
    requires { IsName (key_of key.now).name name.now }
    ensures { IfOk result (λ r. IsFew (NameEdits (key_of row.now) (key_of key.now)) r) }
{
    if name.is_other_word(row.name(), key.name()) {
        return Ok(Some(0));
    }
    if let Some(edits) = few_edits(alloc, LONG, row.name(), key.name())? {
        return Ok(Some(edits));
    }
    if are_alike_alone(row, key) {
        Ok(Some(MOST_EDITS))
    } else {
        Ok(None)
    }
}

/// How many edits lead from the key of a row to a key with the same section. `None` unless the two keys are
/// near, and so differ in exactly one part. `name` is what is known of the name of the key.
// Most names are told to be unlike at once.
#[inline(always)]
fn edits_after(
    alloc: Global,
    name: &NameFacts,
    row: &Key<'_>,
    key: &Key<'_>,
) -> Result<Option<usize>, AllocError>
    requires { IsName (key_of key.now).name name.now }
    ensures { IfOk result (λ r. IsFew (EditsAfter (key_of row.now) (key_of key.now)) r) }
{
    if row.name() != ANY && name.are_unlike(row.name(), key.name()) {
        return Ok(None);
    }
    match (covers_subsection(row, key), covers_name(row, key)) {
        (true, false) => name_edits(alloc, name, row, key),
        (false, true) => subsection_edits(alloc, row, key),
        _ => Ok(None),
    }
}

/// How the section of rows is related to a section.
#[derive(Clone, Copy)]
enum Relation {
    /// They are the same, ignoring ASCII case.
    Same,
    /// They are near, and this many edits apart.
    Near(usize),
    /// They are not near.
    Far,
}

/// How the section of rows is related to a section.
fn relation_between(alloc: Global, row: &[u8], section: &[u8]) -> Result<Relation, AllocError>
    ensures { IfOk result (IsRelation row.now section.now) }
{
    if is_same_word(row, section) {
        return Ok(Relation::Same);
    }
    if is_other_word(row, section) {
        return Ok(Relation::Near(0));
    }
    match few_edits(alloc, LONG_SECTION, row, section)? {
        Some(edits) => Ok(Relation::Near(edits)),
        None => Ok(Relation::Far),
    }
}

/// How the section of rows is related to a section. It is known already if the rows before them have the same section.
fn relation_after(
    alloc: Global,
    last: Option<(&[u8], Relation)>,
    row: &[u8],
    section: &[u8],
) -> Result<Relation, AllocError>
    requires { IfSome last (λ known. IsRelation known.0.now section.now known.1) }
    ensures { IfOk result (IsRelation row.now section.now) }
{
    match last {
        Some((other, relation)) if is_same_word(row, other) => Ok(relation),
        _ => relation_between(alloc, row, section),
    }
}

/// How the section of each run is related to a section.
fn relations_of(
    alloc: Global,
    runs: &[Run<'_, '_>],
    section: &[u8],
) -> Result<Vec<Relation>, AllocError>
    ensures { IfOk result (λ v. AreRelations runs.now section.now v.items) }
{
    let mut relations = Vec::new(alloc);
    let mut last = None;
    for run in runs {
        let relation = relation_after(alloc, last, run.section, section)?;
        relations.push(relation)?;
        last = Some((run.section, relation));
    }
    Ok(relations)
}

/// What is known of a section: how those of the runs are related to it. It is kept, since many keys have one
/// section.
#[derive(Drop)]
pub(crate) struct SectionFacts {
    name: Vec<u8>,
    relations: Vec<Relation>,
    /// Whether a row has the section.
    is_known: bool,
}

/// What is known of a section.
fn section_of(alloc: Global, runs: &[Run<'_, '_>], name: &[u8]) -> Result<SectionFacts, AllocError>
    ensures { IfOk result (λ section. (section.name.items ≡ name.now) × IsSection runs.now section) }
{
    Ok(SectionFacts {
        name: name.to_vec(alloc)?,
        relations: relations_of(alloc, runs, name)?,
        is_known: has_section(runs, name),
    })
}

/// What is known of the section of this name: that of the last section, if it has this name, or what the rows say.
pub(crate) fn recalled_section(
    alloc: Global,
    runs: &[Run<'_, '_>],
    name: &[u8],
    last: Option<SectionFacts>,
) -> Result<SectionFacts, AllocError>
    requires { IfSome last (IsSection runs.now) }
    ensures { IfOk result (λ section. (section.name.items ≡ name.now) × IsSection runs.now section) }
{
    match last {
        Some(section) if section.name.as_slice() == name => Ok(section),
        _ => section_of(alloc, runs, name),
    }
}

/// This number of edits if the key of a row covers a key but for its section, and otherwise `None`.
fn edits_if_covered(edits: usize, row: &Key<'_>, key: &Key<'_>) -> Option<usize>
    ensures { MatchOption result
        (¬ (CoversSubsection (key_of row.now).subsection (key_of key.now).subsection
        × CoversName (key_of row.now).name (key_of key.now).name))
        (λ n. CoversSubsection (key_of row.now).subsection (key_of key.now).subsection
        × CoversName (key_of row.now).name (key_of key.now).name × (n ≡ edits)) }
{
    if covers_name(row, key) && covers_subsection(row, key) {
        Some(edits)
    } else {
        None
    }
}

/// How many edits lead from the key of a row to a key. `None` unless the two keys are near, and so differ in
/// exactly one part. `relation` is that of their sections, and `name` what is known of the name of the key.
#[inline(always)]
fn one_part_edits(
    alloc: Global,
    relation: Relation,
    name: &NameFacts,
    row: &Key<'_>,
    key: &Key<'_>,
) -> Result<Option<usize>, AllocError>
    requires name { IsName (key_of key.now).name name.now }
    requires relation { IsRelation (key_of row.now).section (key_of key.now).section relation }
    ensures { IfOk result (λ r. IsFew (OnePartEdits (key_of row.now) (key_of key.now)) r) }
{
    match relation {
        Relation::Same => edits_after(alloc, name, row, key),
        Relation::Near(edits) => Ok(edits_if_covered(edits, row, key)),
        Relation::Far => Ok(None),
    }
}

/// The first of the rows whose keys are nearest to a key, or `None` if no row's key is near. `relations` are
/// those of the runs to the key's section.
// Most runs are skipped at once, since their sections are far.
fn nearest<'r, 't>(
    alloc: Global,
    runs: &[Run<'r, 't>],
    relations: &[Relation],
    key: &Key<'_>,
) -> Result<Option<&'r Row<'t>>, AllocError>
    requires { AreRelations runs.now (key_of key.now).section relations.now }
    ensures { IfOk result (λ r. MatchOption r (AreFar (RowEdits (key_of key.now)) (rows_of runs.now))
        (λ row. IsNearest (RowEdits (key_of key.now)) (rows_of runs.now) row.now)) }
{
    let name = name_facts(key.name());
    let mut best = None;
    let mut least = MOST_EDITS + 1;
    'runs: for (place, run) in runs.iter().enumerate() {
        let relation = relations[place];
        if matches!(relation, Relation::Far) {
            continue;
        }
        'rows: for row in run.rows {
            if let Some(edits) = one_part_edits(alloc, relation, &name, &row.key, key)? {
                if edits < least {
                    least = edits;
                    best = Some(row);
                }
            }
        }
    }
    Ok(best)
}

/// Whether the names in a section are those of commands, as in `pager`, or of what helpers ask for.
fn is_topic(section: &[u8]) -> bool
    ensures { IsTrue result ↔ IsTopic section.now }
{
    is_same_word(b"advice", section)
        || is_same_word(b"color", section)
        || is_same_word(b"credential", section)
        || is_same_word(b"pager", section)
}

/// Whether the key of a row has the name of a key in another section, and neither key has a subsection. A name `color`
/// does not count: it may be that of many commands.
fn is_moved(row: &Key<'_>, key: &Key<'_>) -> bool
    ensures { IsTrue result ↔ IsMoved (key_of row.now) (key_of key.now) }
{
    match (row.subsection(), key.subsection()) {
        (None, None) => {
            is_same_word(row.name(), key.name())
                && !is_same_word(row.section(), key.section())
                && !is_topic(row.section())
                && !is_same_word(COLOR, row.name())
        }
        _ => false,
    }
}

/// The first of these rows that has the name of a key in another section, or `None` if there is none.
fn first_moved<'r, 't>(rows: &'r [Row<'t>], key: &Key<'_>) -> Option<&'r Row<'t>>
    ensures { MatchOption result (HasNone (IsMovedRow (key_of key.now)) rows.now)
        (λ row. IsFirstSuch (IsMovedRow (key_of key.now)) rows.now row.now) }
{
    rows.iter().find(|row| is_moved(&row.key, key))
}

/// The first row of these runs that has the name of a key in another section, or `None` if there is none.
fn moved<'r, 't>(runs: &[Run<'r, 't>], key: &Key<'_>) -> Option<&'r Row<'t>>
    ensures { MatchOption result (HasNone (IsMovedRow (key_of key.now)) (rows_of runs.now))
        (λ row. IsFirstSuch (IsMovedRow (key_of key.now)) (rows_of runs.now) row.now) }
{
    for run in runs {
        if let Some(row) = first_moved(run.rows, key) {
            return Some(row);
        }
    }
    None
}

/// Does the same as [`moved`]. `marks` are those of the rows.
// Most names have no mark, so no row is looked at.
fn moved_if_marked<'r, 't>(
    runs: &[Run<'r, 't>],
    marks: &[bool],
    key: &Key<'_>,
) -> Option<&'r Row<'t>>
    requires { AreMarked (rows_of runs.now) marks.now }
    ensures { MatchOption result (HasNone (IsMovedRow (key_of key.now)) (rows_of runs.now))
        (λ row. IsFirstSuch (IsMovedRow (key_of key.now)) (rows_of runs.now) row.now) }
{
    if has_mark(marks, key.name()) {
        moved(runs, key)
    } else {
        None
    }
}

/// The first row that has the name of the key in another section. `None` unless a row has the key's section,
/// which `is_known` says. `marks` are those of the rows.
fn elsewhere<'r, 't>(
    runs: &[Run<'r, 't>],
    marks: &[bool],
    is_known: bool,
    key: &Key<'_>,
) -> Option<&'r Row<'t>>
    requires known { IsTrue is_known ↔ HasSection (rows_of runs.now) (key_of key.now).section }
    requires marked { AreMarked (rows_of runs.now) marks.now }
    ensures { MatchOption result (IsNowhere (rows_of runs.now) (key_of key.now))
        (λ row. IsElsewhere (rows_of runs.now) (key_of key.now) row.now) }
{
    if is_known {
        moved_if_marked(runs, marks, key)
    } else {
        None
    }
}

/// The part of the key if the part of the row's key is `*`, and otherwise the row's part.
fn filled<'k>(row: &'k [u8], part: &'k [u8]) -> &'k [u8]
    ensures { Fills row.now part.now result.now }
{
    if row == ANY { part } else { row }
}

/// What stands for the subsection of a key without one.
const NAME: &[u8] = b"NAME";

/// The subsection of the key if that of the row's key is `*`, or `NAME` if the key has none, and otherwise
/// the row's. `None` if the row's key has no subsection.
fn filled_subsection<'k>(row: &Key<'k>, key: &Key<'k>) -> Option<&'k [u8]>
    ensures { FillsSubsection (key_of row.now).subsection (key_of key.now).subsection
        (option_copied result) }
{
    match (row.subsection(), key.subsection()) {
        (Some(row), Some(subsection)) => Some(filled(row, subsection)),
        (Some(row), None) => Some(filled(row, NAME)),
        (None, _) => None,
    }
}

/// The key of a row, in which the parts of a key replace `*`, or `NAME` if the key has no subsection.
pub fn filled_key<'k>(row: &Key<'k>, key: &Key<'k>) -> Key<'k>
    ensures { FillsKey (key_of row.now) (key_of key.now) (key_of result) }
{
    let filled = row.with_subsection(filled_subsection(row, key));
    if row.name() == ANY {
        filled.with_name_of(key)
    } else {
        filled
    }
}

/// Whether a section also has settings without a row: those of Git for Windows and of credential helpers,
/// what git-gui stores, what users record about themselves, and the advice of later Gits.
fn is_shared(section: &[u8]) -> bool
    ensures { IsTrue result ↔ IsShared section.now }
{
    is_same_word(b"advice", section)
        || is_same_word(b"core", section)
        || is_same_word(b"credential", section)
        || is_same_word(b"gui", section)
        || is_same_word(b"user", section)
}

/// How bad it is that no row has this key, as Git lists it: Git stops at a message that git-fsck(1) does not have, and
/// at a slot of colors that git-grep(1) does not have. It ignores all other keys that it does not know.
pub(crate) fn unknown_severity(key: &[u8]) -> Severity
    ensures { result ≡ unknown_severity key.now }
{
    if key.starts_with(b"fsck.") || key.starts_with(b"color.grep.") {
        Severity::Error
    } else {
        Severity::Warning
    }
}

/// Whether a row has this section, ignoring ASCII case.
fn has_section(runs: &[Run<'_, '_>], section: &[u8]) -> bool
    ensures { IsTrue result ↔ HasSection (rows_of runs.now) section.now }
{
    for run in runs {
        if is_same_word(run.section, section) {
            return true;
        }
    }
    false
}

/// The section whose subsections have no slots but those of rows.
const COLOR: &[u8] = b"color";

/// Whether a key has this subsection.
fn is_within(key: &Key<'_>, subsection: &[u8]) -> bool
    ensures { IsTrue result ↔ ((key_of key.now).subsection ≡ Some subsection.now) }
{
    match key.subsection() {
        Some(other) => other == subsection,
        None => false,
    }
}

/// The first of these rows that has this subsection, or `None` if none has it.
fn first_within<'r, 't>(rows: &'r [Row<'t>], subsection: &[u8]) -> Option<&'r Row<'t>>
    ensures { MatchOption result
        (HasNone (λ row. (key_of row.key).subsection ≡ Some subsection.now) rows.now)
        (λ row. IsFirstSuch (λ row. (key_of row.key).subsection ≡ Some subsection.now) rows.now row.now) }
{
    rows.iter().find(|row| is_within(&row.key, subsection))
}

/// Whether a row of the section `color` has this subsection.
fn has_slots(runs: &[Run<'_, '_>], subsection: &[u8]) -> bool
    ensures { IsTrue result ↔ HasSlots (rows_of runs.now) subsection.now }
{
    for run in runs {
        if is_same_word(run.section, COLOR) && first_within(run.rows, subsection).is_some() {
            return true;
        }
    }
    false
}

/// Whether only rows have settings where a key is: in its section if it has no subsection, and otherwise in
/// its subsection of `color`. `is_known` says whether a row has its section.
fn is_own(runs: &[Run<'_, '_>], is_known: bool, key: &Key<'_>) -> bool
    requires { IsTrue is_known ↔ HasSection (rows_of runs.now) (key_of key.now).section }
    ensures { IsTrue result ↔ IsOwn (rows_of runs.now) (key_of key.now) }
{
    match key.subsection() {
        Some(subsection) => is_same_word(COLOR, key.section()) && has_slots(runs, subsection),
        None => is_known && !is_shared(key.section()),
    }
}

/// A key that no row covers and that a check reports.
///
/// ```rust
/// use config_checks::suggestion::{UnknownKey, push_unknown};
///
/// let mut text = Vec::new(alloc);
/// push_unknown(&mut text, &UnknownKey { nearest: None })?;
/// assert_eq!(rt; text.as_slice(), b"unknown key".as_slice());
/// ```
#[derive(Clone, Copy)]
pub struct UnknownKey<'k> {
    /// The nearest key of the rows if a key is near, with parts of the unknown key in place of `*`.
    pub nearest: Option<Key<'k>>,
}

/// Returns what is said of a key that no row covers, if a check should report it: it is near the key of a row,
/// or a row has its name in another section, or only rows have settings where it is: in its section if it has
/// no subsection, and in its subsection of `color`. Two keys are near if they differ in exactly one part: by one
/// edit, by two if the part is long in both, by another word such as `command` for `cmd` or, in the name of a key without a
/// subsection, by a missing run of bytes or another end. Returns an error if there is no memory. `marks` are those of the
/// rows, and `section` is that of the key.
pub(crate) fn unknown_in<'k>(
    alloc: Global,
    runs: &[Run<'_, 'k>],
    marks: &[bool],
    section: &SectionFacts,
    key: &Key<'k>,
) -> Result<Option<UnknownKey<'k>>, AllocError>
    requires marked { AreMarked (rows_of runs.now) marks.now }
    requires known { IsSection runs.now section.now }
    requires same { section.now.name.items ≡ (key_of key.now).section }
    ensures { IfOk result (λ r. MatchOption r (IsForeign (rows_of runs.now) (key_of key.now))
        (λ k. Suggests (rows_of runs.now) (key_of key.now) (nearest_of k))) }
{
    if let Some(row) = nearest(alloc, runs, &section.relations, key)? {
        return Ok(Some(UnknownKey {
            nearest: Some(filled_key(&row.key, key)),
        }));
    }
    match elsewhere(runs, marks, section.is_known, key) {
        Some(row) => Ok(Some(UnknownKey {
            nearest: Some(filled_key(&row.key, key)),
        })),
        None if is_own(runs, section.is_known, key) => Ok(Some(UnknownKey { nearest: None })),
        None => Ok(None),
    }
}

/// Returns what is said of a text that no row covers, as a key. Returns `None` for a text without a dot. `last` is
/// what is known of the last section, and from now on of that of the key.
pub(crate) fn unknown_key<'k>(
    alloc: Global,
    runs: &[Run<'_, 'k>],
    text: &'k [u8],
    last: &mut Option<SectionFacts>,
) -> Result<Option<UnknownKey<'k>>, AllocError>
    requires unknown { IsUnknown (rows_of runs.now) text.now }
    requires last { IfSome last.old (IsSection runs.now) }
    ensures said { IfOk result (λ r. MatchOption r (IsPassed (rows_of runs.now) text.now)
        (IsUnknownKey (rows_of runs.now) text.now)) }
    ensures last { IfSome last.new (IsSection runs.now) }
{
    let Some(key) = Key::split(text) else {
        return Ok(None);
    };
    let section = recalled_section(alloc, runs, key.section(), last.take())?;
    let unknown = unknown_in(alloc, runs, &[], &section, &key)?;
    *last = Some(section);
    Ok(unknown)
}

/// Appends a part of a key and a dot.
fn push_dotted(out: &mut Vec<u8>, part: &[u8]) -> Result<(), AllocError>
    ensures { OnOk result (out.new.items ≡ out.old.items ++ dotted part.now) }
{
    push_shown(out, part)?;
    out.extend_from_slice(b".")
}

/// Appends the subsection and a dot, if there is a subsection.
fn push_subsection(out: &mut Vec<u8>, key: &Key<'_>) -> Result<(), AllocError>
    ensures { OnOk result
        (out.new.items ≡ out.old.items ++ subsection_shown (key_of key.now).subsection) }
{
    match key.subsection() {
        Some(subsection) => push_dotted(out, subsection),
        None => Ok(()),
    }
}

/// Appends what follows the section of a key and its dot.
fn push_after(out: &mut Vec<u8>, key: &Key<'_>) -> Result<(), AllocError>
    ensures { OnOk result (out.new.items ≡ out.old.items ++ after_shown (key_of key.now)) }
{
    push_subsection(out, key)?;
    push_shown(out, key.name())
}

/// Appends a key.
fn push_key(out: &mut Vec<u8>, key: &Key<'_>) -> Result<(), AllocError>
    ensures { OnOk result (out.new.items ≡ out.old.items ++ key_shown (key_of key.now)) }
{
    push_dotted(out, key.section())?;
    push_after(out, key)
}

/// Appends a key and a question mark.
fn push_asked(out: &mut Vec<u8>, key: &Key<'_>) -> Result<(), AllocError>
    ensures { OnOk result (out.new.items ≡ out.old.items ++ asked (key_of key.now)) }
{
    push_key(out, key)?;
    out.extend_from_slice(b"?")
}

/// Appends a text, a key and a question mark.
fn push_meant(out: &mut Vec<u8>, front: &str, key: &Key<'_>) -> Result<(), AllocError>
    ensures { OnOk result (out.new.items ≡ out.old.items ++ (front.now ++ asked (key_of key.now))) }
{
    out.extend_from_slice(front.as_bytes())?;
    push_asked(out, key)
}

/// Appends the text about an unknown key.
pub fn push_unknown(out: &mut Vec<u8>, unknown: &UnknownKey<'_>) -> Result<(), AllocError>
    ensures { OnOk result (out.new.items ≡ out.old.items ++ unknown_text unknown.now) }
{
    match &unknown.nearest {
        Some(key) => push_meant(out, "unknown key; did you mean ", key),
        None => out.extend_from_slice(b"unknown key"),
    }
}
