//! Why the value of a setting is wrong, and how a valid value should be spelled.
ghost use Rattle.std.specs.Prelude.{◌≡◌, ◌↔◌, IsTrue, IfOk, MatchOption, Option, option_copied, None, Some};
ghost use Rattle.config_checks.specs.declared.paths.KnownUsers as declared;
ghost use Rattle.config_text.specs.declared.errors.Fault.TheVariants as faults;
ghost use Rattle.gix_config_value.specs.Kinds.{KindGrammar, KindCanonical};
ghost use Rattle.config_text.specs.Value.{IsAccepted};
ghost use Rattle.gix_config_value.specs.Boolean.{BooleanText, CanonicalBoolean};
ghost use Rattle.config_checks.specs.Reasons.{IsWithin, IsJudged, IsJudgedWithin, IsJudgedBool, IsInt, IsMeantBy};
ghost use Rattle.config_checks.specs.Reasons.{WordEdits, IsMeant, IsJudgedByWords, IsTakenByForm, IsTaken};
ghost use Rattle.config_checks.specs.Reasons.{IsJudgedPath, IsJudgedText, HaveSameValue, AreSameBoolOrInt};
ghost use Rattle.config_checks.specs.Reasons.{AreSameByForm, AreSameByWords, MeanSame, IsComparedTo};
ghost use Rattle.config_checks.specs.Reasons.{IsJudgedAlone, HasReason, HasSpelling, IsOutside, IsOld, IsSpelled, IsRemark};
ghost use Rattle.config_checks.specs.Reasons.{HasFinding, severity_of, IsRespelled, IsRespelledBoolOrInt};
ghost use Rattle.config_checks.specs.Reasons.{IsRespelledAs, IsRespelledByForm, IsRespelledByWords};
ghost use Rattle.gix_config_value.specs.Amount.{AmountText};
ghost use Rattle.config_checks.specs.Json.{severity_name};
ghost use Rattle.config_checks.specs.Versions.{IsTooNew, IsOf};
ghost use Rattle.config_checks.specs.Reading.Steps.{IsFew};

use crate::edits::{LONG, MOST_EDITS, few_edits};
use crate::key::is_same_word;
use crate::kind::{Form, SettingKind, WordList, pattern_front};
use crate::options::Options;
use crate::paths::{KnownUsers, is_homeless};
use crate::row::Row;
use crate::shape::{Shape, has_shape};
use crate::version::Version;
use bstr::BStr;
use config_text::value::same_as;
use gix_config_value::canonical::{CanonicalText, Kind, TryRead, Value, normalize};
use gix_config_value::integer::Amount;
use gix_config_value::{Boolean, Color, Fault};
use std::alloc::{AllocError, Global};

/// A word of at most this many bytes is never suggested, since one edit turns it into another word.
const SHORT: usize = 2;

/// Why a setting is wrong, or how it should be spelled.
///
/// ```rust
/// use config_checks::reason::{Reason, judge};
/// use config_checks::table::read_row;
///
/// let row = read_row(alloc, b"core.abbrev int 4 64").expect(&rt, "a line").expect(&rt, "a row");
/// assert!(rt; matches!(judge(alloc, None, &row, Some(b"3"))?, Some(Reason::OutOfRange { .. })));
/// assert!(rt; matches!(judge(alloc, None, &row, None)?, Some(Reason::NoValue)));
/// assert!(rt; judge(alloc, None, &row, Some(b"7"))?.is_none());
/// ```
#[derive(Clone, Copy)]
pub enum Reason<'r, 't> {
    /// It has no value, and needs one.
    NoValue,
    /// The reader of its kind refuses its value.
    Refused(Fault),
    /// Its value is a number, but less than `low` or greater than `high`.
    OutOfRange {
        low: Amount,
        high: Amount,
    },
    /// Its value is wrong according to this list of words. `meant` is the nearest word, if a word is near.
    NoWord {
        list: &'r WordList<'t>,
        meant: Option<&'t [u8]>,
    },
    /// Its value is a path that begins with a home directory which is not there.
    NoHome,
    /// Its value has not this shape.
    Misshapen(Shape),
    /// Its value is right by its kind, but does not mean this, which its row asks for.
    IsNot(&'t [u8]),
    /// Its row is for Git from this version on, which is newer.
    TooNew(Version),
    /// Its row is for Git before this version.
    Gone(Version),
    /// Its value is valid, but Git warns of the setting. This is what to use instead.
    Deprecated(&'t [u8]),
    /// Its value is valid, but Git warns of the value. This is the value to use instead.
    Outdated(&'t [u8]),
    /// Its value is valid, but differs from this, its canonical text.
    NotCanonical(CanonicalText),
    /// Its value is valid, but is this word of the list in another case.
    OtherCase(&'t [u8]),
}

/// How bad a finding is.
///
/// ```rust
/// use config_checks::reason::{Reason, Severity};
///
/// // Git stops at a wrong value, unless the row says that it goes on
/// assert!(rt; matches!(Reason::NoValue.severity(false), Severity::Error));
/// ```
#[derive(Clone, Copy)]
pub enum Severity {
    /// A Git command fails because of it.
    Error,
    /// Git warns about the setting or ignores it, or the key is unknown.
    Warning,
    /// The value is valid, but it should be spelled in another way, or only a newer Git reads it.
    Note,
}

impl Severity {
    /// The word that tells it.
    pub fn name(self) -> &'static str
        ensures { result.now ≡ severity_name self }
    {
        match self {
            Severity::Error => "error",
            Severity::Warning => "warning",
            Severity::Note => "note",
        }
    }
}

impl Reason<'_, '_> {
    /// The severity of this reason, given whether Git continues after a wrong value of the setting.
    pub fn severity(&self, goes_on: bool) -> Severity
        ensures { result ≡ severity_of goes_on self.now }
    {
        match self {
            Reason::NoValue => Severity::Error,
            Reason::Gone(_) | Reason::Deprecated(_) | Reason::Outdated(_) => Severity::Warning,
            Reason::TooNew(_) | Reason::NotCanonical(_) | Reason::OtherCase(_) => Severity::Note,
            _ if goes_on => Severity::Warning,
            _ => Severity::Error,
        }
    }
}

/// Why the reader of a type refuses a text, or `None` if it accepts the text.
fn refusal_by<'r, 't, V: TryRead>(text: &[u8]) -> Option<Reason<'r, 't>>
    ensures { IsJudged V.grammar V.refusal text.now result }
{
    match V::try_read(text) {
        Ok(_) => None,
        Err(fault) => Some(Reason::Refused(fault)),
    }
}

/// The least signed number of 32 bits.
pub(crate) const LEAST_INT: Amount = Amount(-2147483648);

/// The greatest signed number of 32 bits.
pub(crate) const GREATEST_INT: Amount = Amount(2147483647);

/// Whether a number lies in a range, both ends included.
fn is_within(amount: Amount, low: Amount, high: Amount) -> bool
    ensures { IsTrue result ↔ IsWithin low high amount }
{
    low.0 <= amount.0 && amount.0 <= high.0
}

/// Why a text is not a number in a range, or `None` if it is one.
fn number_reason<'r, 't>(text: &[u8], low: Amount, high: Amount) -> Option<Reason<'r, 't>>
    ensures { IsJudgedWithin low high text.now result }
{
    match Amount::try_read(text) {
        Ok(amount) if is_within(amount, low, high) => None,
        Ok(_) => Some(Reason::OutOfRange { low, high }),
        Err(fault) => Some(Reason::Refused(fault)),
    }
}

/// Whether a text is an integer text whose product is a signed number of 32 bits.
fn is_int(text: &[u8]) -> bool
    ensures { IsTrue result ↔ IsInt text.now }
{
    match Amount::try_read(text) {
        Ok(amount) => is_within(amount, LEAST_INT, GREATEST_INT),
        Err(_) => false,
    }
}

/// Why a text is neither a number of 32 bits nor a boolean word nor empty, or `None` if it is one of them.
fn boolean_reason<'r, 't>(text: &[u8]) -> Option<Reason<'r, 't>>
    ensures { IsJudgedBool text.now result }
{
    match Amount::try_read(text) {
        Ok(amount) if is_within(amount, LEAST_INT, GREATEST_INT) => None,
        Ok(_) => Some(Reason::OutOfRange {
            low: LEAST_INT,
            high: GREATEST_INT,
        }),
        Err(_) => refusal_by::<Boolean>(text),
    }
}

/// Whether a text is right as a boolean.
fn is_boolean(text: &[u8]) -> bool
    ensures { IsTrue result ↔ IsJudgedBool text.now None }
{
    match boolean_reason(text) {
        None => true,
        Some(_) => false,
    }
}

/// Whether the form of a list takes a text, even if no word of the list matches all of it.
fn is_taken_by_form(list: &WordList<'_>, text: &[u8]) -> bool
    ensures { IsTrue result ↔ IsTakenByForm list.now text.now list.now.form }
{
    match list.form {
        Form::Word => false,
        Form::BoolOrWord => is_boolean(text),
        Form::IntOrWord => is_int(text),
        Form::Words => list.has_each(text),
        Form::Date => list.has_date(text),
        Form::SortKey => list.has_sort_key(text),
    }
}

/// How many edits lead from a word of a list to a text. `None` if the two are not near, or if the word is
/// never suggested because it is short or ends in `*`.
fn word_edits(alloc: Global, word: &[u8], text: &[u8]) -> Result<Option<usize>, AllocError>
    ensures { IfOk result (λ r. IsFew (WordEdits text.now word.entry) r) }
{
    match pattern_front(word) {
        None if word.len() > SHORT => few_edits(alloc, LONG, word, text),
        _ => Ok(None),
    }
}

/// The first of the words that are nearest to a text, or `None` if no word is near. Words of one or two
/// bytes, or with a `*` at the end, are never near. It fails only if memory is refused.
pub fn nearest_word<'t>(
    alloc: Global,
    words: &[&'t [u8]],
    text: &[u8],
) -> Result<Option<&'t [u8]>, AllocError>
    ensures { IfOk result (IsMeant words.now text.now) }
{
    let mut best = None;
    let mut least = MOST_EDITS + 1;
    for word in words {
        if let Some(edits) = word_edits(alloc, word, text)? {
            if edits < least {
                least = edits;
                best = Some(word);
            }
        }
    }
    Ok(best.copied())
}

/// The nearest word of a list. `None` if no word is near, or if a word is only part of a right text.
fn word_meant<'t>(
    alloc: Global,
    list: &WordList<'t>,
    text: &[u8],
) -> Result<Option<&'t [u8]>, AllocError>
    ensures { IfOk result (IsMeantBy list.now.form list.now.words.items text.now) }
{
    match list.form {
        Form::SortKey => Ok(None),
        _ => nearest_word(alloc, &list.words, text),
    }
}

/// Why a text is wrong according to a list of words, or `None` if it is right.
fn word_reason<'r, 't>(
    alloc: Global,
    list: &'r WordList<'t>,
    text: &[u8],
) -> Result<Option<Reason<'r, 't>>, AllocError>
    ensures { IfOk result (IsJudgedByWords list.now text.now) }
{
    if list.has(text) || is_taken_by_form(list, text) {
        return Ok(None);
    }
    let meant = word_meant(alloc, list, text)?;
    Ok(Some(Reason::NoWord { list, meant }))
}

/// That a path begins with a home directory that is not there, or `None` if it does not.
fn path_reason<'r, 't>(users: Option<KnownUsers<'_>>, path: &[u8]) -> Option<Reason<'r, 't>>
    ensures { IsJudgedPath users.entry path.now result }
{
    if is_homeless(users, path) {
        return Some(Reason::NoHome);
    }
    None
}

/// Why a text is wrong as a value of this kind, or `None` if it is right.
fn text_reason<'r, 't>(
    alloc: Global,
    users: Option<KnownUsers<'_>>,
    kind: &'r SettingKind<'t>,
    text: &[u8],
) -> Result<Option<Reason<'r, 't>>, AllocError>
    ensures { IfOk result (IsJudgedText users.entry kind.now text.now) }
{
    match kind {
        SettingKind::Text => Ok(None),
        SettingKind::Bool | SettingKind::BoolOrInt => Ok(boolean_reason(text)),
        SettingKind::Int { low, high } => Ok(number_reason(text, *low, *high)),
        SettingKind::Color => Ok(refusal_by::<Color>(text)),
        SettingKind::Path => Ok(path_reason(users, text)),
        SettingKind::Shaped(shape) => match has_shape(alloc, *shape, text) {
            Ok(true) => Ok(None),
            Ok(false) => Ok(Some(Reason::Misshapen(*shape))),
            Err(error) => Err(error),
        },
        SettingKind::Word(list) => word_reason(alloc, list, text),
    }
}

/// Whether a type reads two texts as the same value.
fn have_same_value<V: Value>(text: &[u8], other: &[u8]) -> bool
    ensures { IsTrue result ↔ HaveSameValue V.grammar text.now other.now }
{
    same_as::<V>(BStr::new(text), BStr::new(other)).unwrap_or(false)
}

/// Whether a text is an integer text.
fn is_number(text: &[u8]) -> bool
    ensures { IsTrue result ↔ IsAccepted AmountText text.now }
{
    match Amount::try_read(text) {
        Ok(_) => true,
        Err(_) => false,
    }
}

/// Whether two texts are the same number or, if neither is a number, the same boolean.
fn are_same_bool_or_int(text: &[u8], other: &[u8]) -> bool
    ensures { IsTrue result ↔ AreSameBoolOrInt text.now other.now }
{
    if have_same_value::<Amount>(text, other) {
        return true;
    }
    if is_number(text) || is_number(other) {
        return false;
    }
    have_same_value::<Boolean>(text, other)
}

/// Whether two texts are the same boolean or number, if the form takes such texts.
fn are_same_by_form(form: Form, text: &[u8], other: &[u8]) -> bool
    ensures { IsTrue result ↔ AreSameByForm form text.now other.now }
{
    match form {
        Form::BoolOrWord => have_same_value::<Boolean>(text, other),
        Form::IntOrWord => have_same_value::<Amount>(text, other),
        _ => false,
    }
}

/// Whether two texts mean the same by a list of words.
fn are_same_by_words(list: &WordList<'_>, text: &[u8], other: &[u8]) -> bool
    ensures { IsTrue result ↔ AreSameByWords list.now text.now other.now }
{
    list.is_same(text, other)
        || (!list.has(text) && !list.has(other) && are_same_by_form(list.form, text, other))
}

/// Whether two values of a kind mean the same.
fn mean_same(kind: &SettingKind<'_>, text: &[u8], other: &[u8]) -> bool
    ensures { IsTrue result ↔ MeanSame kind.now text.now other.now }
{
    match kind {
        SettingKind::Text | SettingKind::Path | SettingKind::Shaped(_) => text == other,
        SettingKind::Bool => have_same_value::<Boolean>(text, other),
        SettingKind::Int { .. } => have_same_value::<Amount>(text, other),
        SettingKind::BoolOrInt => are_same_bool_or_int(text, other),
        SettingKind::Color => have_same_value::<Color>(text, other),
        SettingKind::Word(list) => are_same_by_words(list, text, other),
    }
}

/// That a value, which its kind takes, does not mean what its row wants. `None` if it does, or if the row
/// wants nothing.
fn compared<'r, 't>(row: &Row<'t>, text: &[u8]) -> Option<Reason<'r, 't>>
    ensures { IsComparedTo row.now.wanted row.now.kind text.now result }
{
    let wanted = row.wanted?;
    if mean_same(&row.kind, text, wanted) {
        return None;
    }
    Some(Reason::IsNot(wanted))
}

/// Why a key alone is wrong by its row, or `None` if the row allows it.
fn no_value_reason<'r, 't>(row: &Row<'t>) -> Option<Reason<'r, 't>>
    ensures { IsJudgedAlone row.now.takes_no_value row.now result }
{
    if row.takes_no_value {
        return compared(row, b"true");
    }
    Some(Reason::NoValue)
}

/// Returns why the value of a setting is wrong by its row, or `None` if it is valid. `users` are those whose
/// home directories paths may begin with: if none are known, each path is valid. `value` is `None` for a key
/// alone. Returns an error if there is no memory to find the nearest word.
pub fn judge<'r, 't>(
    alloc: Global,
    users: Option<KnownUsers<'_>>,
    row: &'r Row<'t>,
    value: Option<&[u8]>,
) -> Result<Option<Reason<'r, 't>>, AllocError>
    ensures { IfOk result (HasReason users.entry row.now (option_copied value.entry)) }
{
    let Some(text) = value else {
        return Ok(no_value_reason(row));
    };
    match text_reason(alloc, users, &row.kind, text) {
        Ok(Some(reason)) => Ok(Some(reason)),
        Ok(None) => Ok(compared(row, text)),
        Err(error) => Err(error),
    }
}

/// The canonical text of a text, or `None` if the text is canonical.
fn respelled_by<'r, 't>(kind: Kind, text: &[u8]) -> Option<Reason<'r, 't>>
    requires { IsAccepted (KindGrammar kind) text.now }
    ensures { IsRespelled (KindGrammar kind) (KindCanonical kind) text.now result }
{
    let canonical = normalize(kind, BStr::new(text))?;
    if canonical.as_str().as_bytes() == text {
        return None;
    }
    Some(Reason::NotCanonical(canonical))
}

/// The canonical text of a boolean or a number, or `None` if the text is canonical.
fn respelled_boolean_or_number<'r, 't>(text: &[u8]) -> Option<Reason<'r, 't>>
    requires { IsJudgedBool text.now None }
    ensures { IsRespelledBoolOrInt text.now result }
{
    match Amount::try_read(text) {
        Ok(_) => respelled_by(Kind::Integer, text),
        Err(_) => respelled_by(Kind::Boolean, text),
    }
}

/// The word that matches a text, if the text is the same word in another case, and otherwise `None`.
fn respelled_as<'r, 't>(word: &'t [u8], text: &[u8]) -> Option<Reason<'r, 't>>
    ensures { IsRespelledAs text.now word.entry result }
{
    if word == text || !is_same_word(word, text) {
        return None;
    }
    Some(Reason::OtherCase(word))
}

/// The canonical text of a text that is right as a boolean, or `None` if the text is canonical.
#[tactic(auto, using(crate::proofs::BooleanLemmas::accepted_boolean))]
fn respelled_boolean<'r, 't>(text: &[u8]) -> Option<Reason<'r, 't>>
    requires { IsJudgedBool text.now None }
    ensures { IsRespelled BooleanText CanonicalBoolean text.now result }
{
    respelled_by(Kind::Boolean, text)
}

/// The canonical text of a text that no word matches. `None` if it is canonical, or if its form has no
/// canonical texts.
fn respelled_by_form<'r, 't>(list: &WordList<'_>, text: &[u8]) -> Option<Reason<'r, 't>>
    requires { IsTakenByForm list.now text.now list.now.form }
    ensures { IsRespelledByForm list.now.form text.now result }
{
    match list.form {
        Form::BoolOrWord => respelled_boolean(text),
        Form::IntOrWord => respelled_by(Kind::Integer, text),
        _ => None,
    }
}

/// How a text that a list takes should be spelled, or `None` if it needs no other spelling.
fn respelled_word<'r, 't>(list: &WordList<'t>, text: &[u8]) -> Option<Reason<'r, 't>>
    requires { IsTaken list.now text.now }
    ensures { IsRespelledByWords list.now text.now result }
{
    match list.find(text) {
        Some(word) => respelled_as(word, text),
        None => respelled_by_form(list, text),
    }
}

/// The canonical text of a valid value, or `None` if the value is canonical.
fn respelled<'r, 't>(kind: &SettingKind<'t>, text: &[u8]) -> Option<Reason<'r, 't>>
    requires { (users : Option declared.KnownUsers) × IsJudgedText users kind.now text.now None }
    ensures { HasSpelling kind.now (Some text.now) result }
{
    match kind {
        SettingKind::Text | SettingKind::Path | SettingKind::Shaped(_) => None,
        SettingKind::Bool => respelled_boolean(text),
        SettingKind::Int { .. } => respelled_by(Kind::Integer, text),
        SettingKind::BoolOrInt => respelled_boolean_or_number(text),
        SettingKind::Color => respelled_by(Kind::Color, text),
        SettingKind::Word(list) => respelled_word(list, text),
    }
}

/// Why the row of a setting is not for this Git, or `None` if it is.
pub fn outside<'r, 't>(row: &Row<'t>, git: Version) -> Option<Reason<'r, 't>>
    ensures { MatchOption result (IsOf git row.now) (IsOutside git row.now) }
{
    if let Some(since) = row.since {
        if git.is_before(since) {
            return Some(Reason::TooNew(since));
        }
    }
    if let Some(until) = row.until {
        if !git.is_before(until) {
            return Some(Reason::Gone(until));
        }
    }
    None
}

/// Whether a value means the same as this one. A key alone means `true`.
fn is_old(kind: &SettingKind<'_>, value: Option<&[u8]>, old: &[u8]) -> bool
    ensures { IsTrue result ↔ IsOld kind.now (option_copied value.entry) old.now }
{
    match value {
        Some(text) => mean_same(kind, text, old),
        None => mean_same(kind, b"true", old),
    }
}

/// How a valid value should be spelled, if canonical texts are wanted.
fn spelling<'r, 't>(
    row: &'r Row<'t>,
    value: Option<&[u8]>,
    wants_canonical: bool,
) -> Option<Reason<'r, 't>>
    requires { (users : Option declared.KnownUsers) × HasReason users row.now (option_copied value) None }
    ensures { IsSpelled wants_canonical row.now.kind (option_copied value.entry) result }
{
    if !wants_canonical {
        return None;
    }
    respelled(&row.kind, value?)
}

/// What is said of a valid value: what to use in place of a deprecated setting or value or, if canonical texts are
/// wanted, how the value should be spelled. `None` if there is nothing to say.
fn remark<'r, 't>(
    row: &'r Row<'t>,
    value: Option<&[u8]>,
    wants_canonical: bool,
) -> Option<Reason<'r, 't>>
    requires { (users : Option declared.KnownUsers) × HasReason users row.now (option_copied value) None }
    ensures { IsRemark wants_canonical row.now (option_copied value.entry) result }
{
    match (row.instead, row.old) {
        (Some(instead), None) => Some(Reason::Deprecated(instead)),
        (Some(instead), Some(old)) if is_old(&row.kind, value, old) => {
            Some(Reason::Outdated(instead))
        }
        _ => spelling(row, value, wants_canonical),
    }
}

/// Returns what a check with these options finds for a setting with this row: that the row is not for this
/// Git, why the value is wrong, what to use in place of a deprecated setting or value or, if canonical texts are
/// wanted, how the value should be spelled. Returns `None` if there is nothing to report, and an error if
/// there is no memory to find the nearest word. `value` is `None` for a key alone.
pub fn find<'r, 't>(
    alloc: Global,
    options: &Options<'_>,
    row: &'r Row<'t>,
    value: Option<&[u8]>,
) -> Result<Option<Reason<'r, 't>>, AllocError>
    ensures { IfOk result (HasFinding options.now row.now (option_copied value.entry)) }
{
    if let Some(reason) = outside(row, options.git) {
        return Ok(Some(reason));
    }
    match judge(alloc, options.users, row, value) {
        Ok(None) => Ok(remark(row, value, options.canonical)),
        Ok(Some(reason)) => Ok(Some(reason)),
        Err(error) => Err(error),
    }
}
