//! Which change of an entry mends its finding, and which changes are safe.
ghost use Rattle.std.specs.Prelude.{◌≡◌, ◌↔◌, ℕ, List, IsTrue, IfOk, IfSome, MatchOption, None, Some};
ghost use Rattle.std.specs.Prelude.{option_copied, reverse, ◌∷◌, [], ◌++◌, codes};
ghost use Rattle.config_text.specs.SameWord.{SameWord};
ghost use Rattle.config_file.specs.KeyView.{key_of};
ghost use Rattle.config_checks.specs.declared.code.Code.TheVariants.{NotAWord};
ghost use Rattle.config_checks.specs.declared.fix.Fix.{Fix};
ghost use Rattle.config_checks.specs.Findings.{finding_of};
ghost use Rattle.config_checks.specs.Fixes.{IsClean, IsOnlyMeant, IsOnlyKey};
ghost use Rattle.config_checks.specs.Fixes.{MendsValue, IsRenamed, MendsKey, Mends, IsSafe, IsSafeName, IsSafeValue, HasSafety, IsTypingError, lacks_digit};
ghost use Rattle.config_checks.specs.Json.{safety_name};
ghost use Rattle.config_checks.specs.Reading.Steps.{IsSection};
ghost use Rattle.config_checks.specs.Reasons.{HasFinding};
ghost use Rattle.config_checks.specs.Rows.{rows_of, IsUnknown};

use crate::code::Code;
use crate::edits::{LONG, few_edits};
use crate::finding::{Finding, key_meant, value_of};
use crate::key::is_same_word;
use crate::kind::SettingKind;
use crate::lookup::{row_for, runs_of};
use crate::options::Options;
use crate::reason::{find, nearest_word};
use crate::row::{Row, Run};
use crate::setting::Setting;
use crate::suggestion::{SectionFacts, unknown_key};
use config_file::key::Key;
use std::alloc::{AllocError, Global};

/// A change of an entry.
///
/// ```rust
/// use config_checks::fix::Fix;
/// use config_edit::Change;
///
/// let fix = Fix::Value(b"true");
/// let change = match fix {
///     Fix::Name(name) => Change { entry: 0, name: Some(name), value: None, comment: None },
///     Fix::Value(value) => Change { entry: 0, name: None, value: Some(value), comment: None },
/// };
/// assert!(rt; change.value == Some(b"true".as_slice()));
/// ```
#[derive(Clone, Copy)]
pub enum Fix<'f> {
    /// The last part of its key is this one.
    Name(&'f [u8]),
    /// Its value is this one.
    Value(&'f [u8]),
}

/// Whether a program can make a change unseen.
///
/// ```rust
/// use config_checks::fix::Safety;
///
/// assert_eq!(rt; Safety::Unsafe.name(), "unsafe");
/// ```
#[derive(Clone, Copy)]
pub enum Safety {
    /// It undoes one typing error, or writes what was asked for.
    Safe,
    /// It is a guess.
    Unsafe,
}

impl Safety {
    /// The word that tells it.
    pub fn name(self) -> &'static str
        ensures { result.now ≡ safety_name self }
    {
        match self {
            Safety::Safe => "safe",
            Safety::Unsafe => "unsafe",
        }
    }
}

/// The rows by which changes are judged.
///
/// ```rust
/// use config_checks::fix::Judge;
/// use config_checks::table::read_rows;
///
/// let mut rows = Vec::new(alloc);
/// assert!(rt; read_rows(alloc, b"core.bare bool", &mut rows).is_ok());
/// let judge = Judge::new(alloc, &rows)?; // `mend` asks it about each finding
/// ```
#[derive(Drop)]
pub struct Judge<'r, 't> {
    runs: Vec<Run<'r, 't>>,
    /// The same rows from the last to the first.
    backwards: Vec<Run<'r, 't>>,
    ghost order: { rows_of backwards.items ≡ reverse (rows_of runs.items) },
}

/// A run of one row.
fn run_of<'r, 't>(row: &'r Row<'t>) -> Run<'r, 't>
    ensures { result.rows.now ≡ row.now ∷ [] }
{
    Run {
        section: row.key.section(),
        rows: std::slice::from_ref(row),
    }
}

/// Runs of one row each, from the last row to the first.
fn backwards<'r, 't>(alloc: Global, rows: &'r [Row<'t>]) -> Result<Vec<Run<'r, 't>>, AllocError>
    ensures { IfOk result (λ runs. rows_of runs.items ≡ reverse rows.now) }
{
    let mut runs = Vec::new(alloc);
    let mut left = rows.len();
    'runs: while left > 0 {
        left -= 1;
        runs.push(run_of(&rows[left]))?;
    }
    Ok(runs)
}

impl<'r, 't> Judge<'r, 't> {
    /// Judges by these rows. It fails only if memory is refused.
    pub fn new(alloc: Global, rows: &'r [Row<'t>]) -> Result<Judge<'r, 't>, AllocError>
        ensures { IfOk result (λ judge. rows_of judge.runs.items ≡ rows.now) }
    {
        Ok(Judge {
            runs: runs_of(alloc, rows)?,
            backwards: backwards(alloc, rows)?,
        })
    }
}

/// Whether nothing is found for a setting with this row and value.
fn has_none(
    alloc: Global,
    options: &Options<'_>,
    row: &Row<'_>,
    value: Option<&[u8]>,
) -> Result<bool, AllocError>
    ensures { IfOk result (λ none. IsTrue none
        ↔ HasFinding options.now row.now (option_copied value.entry) None) }
{
    match find(alloc, options, row, value) {
        Ok(None) => Ok(true),
        Ok(Some(_)) => Ok(false),
        Err(error) => Err(error),
    }
}

/// Whether the words of a kind are looked through from the last to the first, and none but this one is near.
fn is_only_meant(
    alloc: Global,
    kind: &SettingKind<'_>,
    value: Option<&[u8]>,
    word: &[u8],
) -> Result<bool, AllocError>
    ensures { IfOk result (λ only. IsTrue only
        ↔ IsOnlyMeant kind.now (option_copied value.entry) word.now) }
{
    let (SettingKind::Word(list), Some(value)) = (kind, value) else {
        return Ok(true);
    };
    let mut words = Vec::from_slice(alloc, &list.words)?;
    words.reverse();
    match nearest_word(alloc, &words, value)? {
        Some(last) => Ok(last == word),
        None => Ok(true),
    }
}

/// Whether no other word is meant, if words are.
fn is_only_value(
    alloc: Global,
    kind: &SettingKind<'_>,
    code: Code,
    value: Option<&[u8]>,
    new: &[u8],
) -> Result<bool, AllocError>
    ensures { IfOk result (λ only. IsTrue only
        ↔ (code ≡ NotAWord → IsOnlyMeant kind.now (option_copied value.entry) new.now)) }
{
    if code == Code::NotAWord {
        is_only_meant(alloc, kind, value, new)
    } else {
        Ok(true)
    }
}

/// Whether nothing is found for a setting with this value, and no other word is meant if words are.
fn mends_value(
    alloc: Global,
    runs: &[Run<'_, '_>],
    options: &Options<'_>,
    setting: &Setting<'_>,
    code: Code,
    new: &[u8],
) -> Result<bool, AllocError>
    ensures { IfOk result (λ mends. IsTrue mends
        ↔ MendsValue (rows_of runs.now) options.now setting.now code new.now) }
{
    let Some(row) = row_for(runs, &setting.key) else {
        return Ok(false);
    };
    if !has_none(alloc, options, row, Some(new))? {
        return Ok(false);
    }
    is_only_value(alloc, &row.kind, code, value_of(setting), new)
}

/// Whether two keys have the same section, ignoring ASCII case, and the same subsection.
fn is_beside(key: &Key<'_>, other: &Key<'_>) -> bool
    ensures { IsTrue result ↔ (SameWord (key_of key.now).section (key_of other.now).section
        × ((key_of key.now).subsection ≡ (key_of other.now).subsection)) }
{
    is_same_word(key.section(), other.section())
        && match (key.subsection(), other.subsection()) {
            (None, None) => true,
            (Some(subsection), Some(other)) => subsection == other,
            _ => false,
        }
}

/// The last part of another key that differs in this part alone.
///
/// ```rust
/// use config_checks::fix::other_name;
///
/// assert!(rt; other_name(b"user.nmae", b"user.name") == Some(b"name".as_slice()));
/// assert!(rt; other_name(b"usr.name", b"user.name").is_none());
/// ```
pub fn other_name<'k>(key: &[u8], other: &'k [u8]) -> Option<&'k [u8]>
    ensures { MatchOption result ((name : List ℕ) → ¬ (IsRenamed key.now other.now name))
        (λ name. IsRenamed key.now other.now name.now) }
{
    let key = Key::split(key)?;
    let other = Key::split(other)?;
    if is_beside(&key, &other) {
        Some(other.name())
    } else {
        None
    }
}

/// Whether nothing is found for a setting with this key.
fn is_clean(
    alloc: Global,
    runs: &[Run<'_, '_>],
    options: &Options<'_>,
    key: &[u8],
    value: Option<&[u8]>,
) -> Result<bool, AllocError>
    ensures { IfOk result (λ clean. IsTrue clean
        ↔ IsClean (rows_of runs.now) options.now key.now (option_copied value.entry)) }
{
    match row_for(runs, key) {
        Some(row) => has_none(alloc, options, row, value),
        None => Ok(false),
    }
}

/// Whether these rows suggest no other key than this one for a key that no row covers. `last` is what is known of
/// the last section.
fn is_only_unknown(
    alloc: Global,
    runs: &[Run<'_, '_>],
    key: &[u8],
    suggested: &[u8],
    last: &mut Option<SectionFacts>,
) -> Result<bool, AllocError>
    requires unknown { IsUnknown (rows_of runs.now) key.now }
    requires last { IfSome last.old (IsSection runs.now) }
    ensures only { IfOk result (λ only. IsTrue only
        ↔ IsOnlyKey (rows_of runs.now) key.now suggested.now) }
    ensures last { IfSome last.new (IsSection runs.now) }
{
    let Some(unknown) = unknown_key(alloc, runs, key, last)? else {
        return Ok(true);
    };
    match key_meant(alloc, &unknown)? {
        Some(other) => Ok(other.as_slice() == suggested),
        None => Ok(false),
    }
}

/// Whether the rows, from the last to the first, suggest no key but this one for a key. None is suggested for a key
/// that a row covers. `last` is what is known of the last section.
fn is_only_key(
    alloc: Global,
    judge: &Judge<'_, '_>,
    key: &[u8],
    suggested: &[u8],
    last: &mut Option<SectionFacts>,
) -> Result<bool, AllocError>
    requires { IfSome last.old (IsSection judge.now.backwards.items) }
    ensures only { IfOk result (λ only. IsTrue only
        ↔ IsOnlyKey (rows_of judge.now.backwards.items) key.now suggested.now) }
    ensures last { IfSome last.new (IsSection judge.now.backwards.items) }
{
    match row_for(&judge.runs, key) {
        Some(_) => Ok(true),
        None => is_only_unknown(alloc, &judge.backwards, key, suggested, last),
    }
}

/// Whether nothing is found for a setting with this key, and no other key is suggested. `last` is what is known of
/// the last section.
fn mends_key(
    alloc: Global,
    judge: &Judge<'_, '_>,
    options: &Options<'_>,
    setting: &Setting<'_>,
    key: &[u8],
    last: &mut Option<SectionFacts>,
) -> Result<bool, AllocError>
    requires { IfSome last.old (IsSection judge.now.backwards.items) }
    ensures mends { IfOk result (λ mends. IsTrue mends
        ↔ MendsKey (rows_of judge.now.runs.items) options.now setting.now key.now) }
    ensures last { IfSome last.new (IsSection judge.now.backwards.items) }
{
    if !is_clean(alloc, &judge.runs, options, key, value_of(setting))? {
        return Ok(false);
    }
    is_only_key(alloc, judge, &setting.key, key, last)
}

/// Whether a digit of the first text is not in the second one.
fn lacks_digit(text: &[u8], other: &[u8]) -> bool
    ensures { result ≡ lacks_digit text.now other.now }
{
    text.iter()
        .any(|byte| byte.is_ascii_digit() && !other.contains(byte))
}

/// A text with an `s` behind it.
fn with_s(alloc: Global, text: &[u8]) -> Result<Vec<u8>, AllocError>
    ensures { IfOk result (λ several. several.items ≡ text.now ++ codes "s") }
{
    let mut several = text.to_vec(alloc)?;
    several.push(b's')?;
    Ok(several)
}

/// Whether the second text is the first one with an `s` behind it, ignoring ASCII case.
fn are_several(alloc: Global, one: &[u8], several: &[u8]) -> Result<bool, AllocError>
    ensures { IfOk result (λ are. IsTrue are ↔ SameWord (one.now ++ codes "s") several.now) }
{
    let word = with_s(alloc, one)?;
    Ok(is_same_word(&word, several))
}

/// A text of fewer bytes has too many neighbors: one typing error may turn it into any of several words.
const SHORTEST: usize = 4;

/// Whether one typing error at most leads from one text to the other, which is not short.
fn is_typing_error(alloc: Global, was: &[u8], now: &[u8]) -> Result<bool, AllocError>
    ensures { IfOk result (λ is. IsTrue is ↔ IsTypingError was.now now.now) }
{
    if now.len() < SHORTEST || lacks_digit(was, now) || lacks_digit(now, was) {
        return Ok(false);
    }
    if are_several(alloc, was, now)? {
        return Ok(false);
    }
    if are_several(alloc, now, was)? {
        return Ok(false);
    }
    match few_edits(alloc, LONG, now, was)? {
        Some(edits) => Ok(edits <= 1),
        None => Ok(false),
    }
}

/// Whether a new value is safe.
fn is_safe_value(
    alloc: Global,
    setting: &Setting<'_>,
    code: Code,
    new: &[u8],
) -> Result<bool, AllocError>
    ensures { IfOk result (λ safe. IsTrue safe ↔ IsSafeValue setting.now code new.now) }
{
    if code == Code::NotCanonical || code == Code::OtherValue {
        return Ok(true);
    }
    match value_of(setting) {
        Some(value) => is_typing_error(alloc, value, new),
        None => Ok(false),
    }
}

/// Whether a new last part of the key is safe.
fn is_safe_name(alloc: Global, setting: &Setting<'_>, name: &[u8]) -> Result<bool, AllocError>
    ensures { IfOk result (λ safe. IsTrue safe ↔ IsSafeName setting.now name.now) }
{
    match Key::split(&setting.key) {
        Some(key) => is_typing_error(alloc, key.name(), name),
        None => Ok(false),
    }
}

/// Whether a change of a setting with a finding of this code is safe.
fn is_safe(
    alloc: Global,
    setting: &Setting<'_>,
    code: Code,
    change: &Fix<'_>,
) -> Result<bool, AllocError>
    ensures { IfOk result (λ safe. IsTrue safe ↔ IsSafe setting.now code change.now) }
{
    match change {
        Fix::Value(new) => is_safe_value(alloc, setting, code, new),
        Fix::Name(name) => is_safe_name(alloc, setting, name),
    }
}

/// The change of a setting that its finding suggests, if the changed setting has no finding left. `last` is what is
/// known of the last section.
fn change_for<'f>(
    alloc: Global,
    judge: &Judge<'_, '_>,
    options: &Options<'_>,
    setting: &Setting<'_>,
    finding: &Finding<'f>,
    last: &mut Option<SectionFacts>,
) -> Result<Option<Fix<'f>>, AllocError>
    requires { IfSome last.old (IsSection judge.now.backwards.items) }
    ensures change { IfOk result (λ r. MatchOption r
        ((change : Fix)
        → ¬ (Mends (rows_of judge.now.runs.items) options.now setting.now (finding_of finding.now) change))
        (Mends (rows_of judge.now.runs.items) options.now setting.now (finding_of finding.now))) }
    ensures last { IfSome last.new (IsSection judge.now.backwards.items) }
{
    match (finding.suggested_value, finding.suggested_key, finding.code) {
        (Some(new), _, code) => {
            if mends_value(alloc, &judge.runs, options, setting, code, new)? {
                return Ok(Some(Fix::Value(new)));
            }
            Ok(None)
        }
        (None, Some(key), Code::UnknownKey) => {
            let Some(name) = other_name(&setting.key, key) else {
                return Ok(None);
            };
            if mends_key(alloc, judge, options, setting, key, last)? {
                return Ok(Some(Fix::Name(name)));
            }
            Ok(None)
        }
        _ => Ok(None),
    }
}

/// How safe a change of a setting with a finding of this code is.
fn safety_of(
    alloc: Global,
    setting: &Setting<'_>,
    code: Code,
    change: &Fix<'_>,
) -> Result<Safety, AllocError>
    ensures { IfOk result (HasSafety setting.now code change.now) }
{
    if is_safe(alloc, setting, code, change)? {
        Ok(Safety::Safe)
    } else {
        Ok(Safety::Unsafe)
    }
}

/// Does the same as [`mend`]. `last` is what is known of the last section.
// Mends that follow each other are mostly in one section.
pub(crate) fn mend_after<'f>(
    alloc: Global,
    judge: &Judge<'_, '_>,
    options: &Options<'_>,
    setting: &Setting<'_>,
    finding: &Finding<'f>,
    last: &mut Option<SectionFacts>,
) -> Result<Option<(Fix<'f>, Safety)>, AllocError>
    requires { IfSome last.old (IsSection judge.now.backwards.items) }
    ensures change { IfOk result (λ r. MatchOption r
        ((change : Fix)
        → ¬ (Mends (rows_of judge.now.runs.items) options.now setting.now (finding_of finding.now) change))
        (λ m. Mends (rows_of judge.now.runs.items) options.now setting.now (finding_of finding.now) m.0
        × HasSafety setting.now finding.now.code m.0 m.1)) }
    ensures last { IfSome last.new (IsSection judge.now.backwards.items) }
{
    let Some(change) = change_for(alloc, judge, options, setting, finding, last)? else {
        return Ok(None);
    };
    let safety = safety_of(alloc, setting, finding.code, &change)?;
    Ok(Some((change, safety)))
}

/// The change of a setting that its finding suggests, if the changed setting has no finding left, and whether a program
/// can make it unseen: the value that is suggested, unless another word is as near, or the last part of the key that is
/// suggested in place of an unknown one, if the other parts stay and no other key is as near. A safe change undoes one
/// typing error, a byte less, more or other, or two in the wrong order, or it writes what a row asks for, or the same
/// value as Git writes it. Two typing errors, a missing word, another digit, an `s` at the end, and a name or value of three
/// bytes or fewer in place of the wrong one are guesses. It fails only if memory is refused.
pub fn mend<'f>(
    alloc: Global,
    judge: &Judge<'_, '_>,
    options: &Options<'_>,
    setting: &Setting<'_>,
    finding: &Finding<'f>,
) -> Result<Option<(Fix<'f>, Safety)>, AllocError>
    ensures { IfOk result (λ r. MatchOption r
        ((change : Fix)
        → ¬ (Mends (rows_of judge.now.runs.items) options.now setting.now (finding_of finding.now) change))
        (λ m. Mends (rows_of judge.now.runs.items) options.now setting.now (finding_of finding.now) m.0
        × HasSafety setting.now finding.now.code m.0 m.1)) }
{
    mend_after(alloc, judge, options, setting, finding, &mut None)
}
