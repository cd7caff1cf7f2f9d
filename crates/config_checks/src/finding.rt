//! A finding, and the texts of its parts.
ghost use Rattle.std.specs.Prelude.{◌≡◌, ◌<◌, ◌++◌, [], length, take, flat_map, option_copied, option_map};
ghost use Rattle.std.specs.Prelude.{OnOk, IfOk, MatchOption, IfSome, Some, codes};
ghost use Rattle.std.specs.Char.{digit_char};
ghost use Rattle.std.specs.Fmt.{signed_decimal};
ghost use Rattle.config_file.specs.Key.{written};
ghost use Rattle.config_file.specs.KeyView.{key_of};
ghost use Rattle.config_file.specs.Shown.{hex, is_control};
ghost use Rattle.config_checks.specs.Findings.{piece_shown, shown, range_text, version_text, words_text};
ghost use Rattle.config_checks.specs.Findings.{more_text, few_words_text, no_word_front, list_text};
ghost use Rattle.config_checks.specs.Findings.{word_asked, meant_text, no_word_text, reason_text};
ghost use Rattle.config_checks.specs.Report.{value_meant, instead_of, fault_of_form, fault_of, key_meant};
ghost use Rattle.config_checks.specs.Report.{reason_shown};
ghost use Rattle.config_checks.specs.Settings.{value_of};

use crate::code::Code;
use crate::kind::{Form, WordList};
use crate::reason::{Reason, Severity};
use crate::setting::Setting;
use crate::suggestion::UnknownKey;
use crate::version::Version;
use bstr::decode_utf8;
use config_file::Why;
use config_file::key::Key;
use gix_config_value::integer::Amount;
use itoa::Buffer;
use std::alloc::{AllocError, Global};

/// The hexadecimal digit of a number below 16.
fn digit(number: u8) -> u8
    requires { number < 16 }
    ensures { result ≡ digit_char number }
{
    if number < 10 {
        b'0' + number
    } else {
        b'a' + (number - 10)
    }
}

/// Appends each byte as `\xNN`.
fn push_hex(out: &mut Vec<u8>, bytes: &[u8]) -> Result<(), AllocError>
    ensures { OnOk result (out.new.items ≡ out.old.items ++ flat_map hex bytes.now) }
{
    for byte in bytes {
        out.extend_from_slice(&[b'\\', b'x', digit(*byte / 16), digit(*byte % 16)])?;
    }
    Ok(())
}

/// Whether a character is a control character.
fn is_control(character: char) -> bool
    ensures { result ≡ is_control character }
{
    character < ' ' || ('\x7f' <= character && character <= '\u{9f}')
}

/// Appends a character as it is shown, or bytes that are not a character.
fn push_piece(out: &mut Vec<u8>, character: Option<char>, bytes: &[u8]) -> Result<(), AllocError>
    ensures { OnOk result (out.new.items ≡ out.old.items ++ piece_shown character bytes.now) }
{
    match character {
        None => push_hex(out, bytes),
        Some(character) if is_control(character) => push_hex(out, bytes),
        Some('\\') => out.extend_from_slice(b"\\\\"),
        Some(_) => out.extend_from_slice(bytes),
    }
}

/// The first character of a text, its bytes, and the rest of the text. The character is `None` if the bytes
/// are not UTF-8. Returns `None` if the text is empty.
fn first_piece(text: &[u8]) -> Option<(Option<char>, &[u8], &[u8])>
    ensures shown { MatchOption result (text.now ≡ [])
        (λ p. shown text.now ≡ piece_shown p.0 p.1.now ++ shown p.2.now) }
    ensures shorter { IfSome result (λ p. length p.2.now < length text.now) }
{
    if text.is_empty() {
        return None;
    }
    let (character, size) = decode_utf8(text);
    let (bytes, rest) = text.split_at(size);
    Some((character, bytes, rest))
}

/// Appends a text: control characters and invalid UTF-8 as `\xNN`, and a backslash twice.
pub fn push_shown(out: &mut Vec<u8>, text: &[u8]) -> Result<(), AllocError>
    ensures { OnOk result (out.new.items ≡ out.old.items ++ shown text.now) }
{
    let mut rest = text;
    while let Some((character, bytes, tail)) = first_piece(rest) {
        push_piece(out, character, bytes)?;
        rest = tail;
    }
    Ok(())
}

/// Appends a text and a number.
fn push_number(out: &mut Vec<u8>, front: &str, number: Amount) -> Result<(), AllocError>
    ensures { OnOk result (out.new.items ≡ out.old.items ++ (front.now ++ signed_decimal number.0)) }
{
    out.extend_from_slice(front.as_bytes())?;
    out.extend_from_slice(Buffer::new().format(number.0).as_bytes())
}

/// Appends the reason that a number is out of range.
fn push_range(out: &mut Vec<u8>, low: Amount, high: Amount) -> Result<(), AllocError>
    ensures { OnOk result (out.new.items ≡ out.old.items ++ range_text low high) }
{
    push_number(out, "out of range: not from ", low)?;
    push_number(out, " to ", high)
}

/// Appends a text, and a version after it.
fn push_version(out: &mut Vec<u8>, front: &str, version: Version) -> Result<(), AllocError>
    ensures { OnOk result (out.new.items ≡ out.old.items ++ version_text front.now version) }
{
    push_number(out, front, version.major)?;
    push_number(out, ".", version.minor)
}

/// Appends words, with `, ` between them.
fn push_listed(out: &mut Vec<u8>, words: &[&[u8]]) -> Result<(), AllocError>
    ensures { OnOk result (out.new.items ≡ out.old.items ++ words_text words.now) }
{
    let [first, rest @ ..] = words else {
        return Ok(());
    };
    push_shown(out, first)?;
    for word in rest {
        out.extend_from_slice(b", ")?;
        push_shown(out, word)?;
    }
    Ok(())
}

/// How many words of a list are shown.
const MOST_WORDS: usize = 10;

/// The first ten words, or all if there are fewer.
fn first_words<'w, 't>(words: &'w [&'t [u8]]) -> &'w [&'t [u8]]
    ensures { result.now ≡ take 10 words.now }
{
    if words.len() > MOST_WORDS {
        &words[..MOST_WORDS]
    } else {
        words
    }
}

/// Appends how many words are not shown, if some are not.
fn push_more(out: &mut Vec<u8>, count: usize) -> Result<(), AllocError>
    ensures { OnOk result (out.new.items ≡ out.old.items ++ more_text count) }
{
    if count == 0 {
        return Ok(());
    }
    out.extend_from_slice(b" and ")?;
    out.extend_from_slice(Buffer::new().format(count).as_bytes())?;
    out.extend_from_slice(b" more")
}

/// Appends at most ten words, with `, ` between them, and how many more there are.
fn push_words(out: &mut Vec<u8>, words: &[&[u8]]) -> Result<(), AllocError>
    ensures { OnOk result (out.new.items ≡ out.old.items ++ few_words_text words.now) }
{
    push_listed(out, first_words(words))?;
    push_more(out, words.len().saturating_sub(MOST_WORDS))
}

/// The text that precedes the words of a list in a reason.
fn no_word_front(form: Form) -> &'static str
    ensures { result.now ≡ no_word_front form }
{
    match form {
        Form::Word => "not one of: ",
        Form::BoolOrWord => "not a boolean, nor one of: ",
        Form::IntOrWord => "not an integer, nor one of: ",
        Form::Words => "not a list of: ",
        Form::Date => "not a date: it has no digit, nor one of: ",
        Form::SortKey => "not a key to sort by: ",
    }
}

/// Appends the reason that a text is wrong according to a list, with the words of the list.
fn push_list(out: &mut Vec<u8>, list: &WordList<'_>) -> Result<(), AllocError>
    ensures { OnOk result (out.new.items ≡ out.old.items ++ list_text list.now) }
{
    out.extend_from_slice(no_word_front(list.form).as_bytes())?;
    push_words(out, &list.words)
}

/// Appends a word and a question mark.
fn push_asked(out: &mut Vec<u8>, word: &[u8]) -> Result<(), AllocError>
    ensures { OnOk result (out.new.items ≡ out.old.items ++ word_asked word.now) }
{
    push_shown(out, word)?;
    out.extend_from_slice(b"?")
}

/// Appends the suggestion of a word.
fn push_word_meant(out: &mut Vec<u8>, word: &[u8]) -> Result<(), AllocError>
    ensures { OnOk result (out.new.items ≡ out.old.items
        ++ (codes "; did you mean " ++ word_asked word.now)) }
{
    out.extend_from_slice(b"; did you mean ")?;
    push_asked(out, word)
}

/// Appends the suggestion of a word, if there is one.
fn push_meant(out: &mut Vec<u8>, meant: Option<&[u8]>) -> Result<(), AllocError>
    ensures { OnOk result (out.new.items ≡ out.old.items ++ meant_text meant.entry) }
{
    match meant {
        Some(word) => push_word_meant(out, word),
        None => Ok(()),
    }
}

/// Appends the reason that a text is wrong according to a list, and the word that is suggested, if any.
fn push_no_word(
    out: &mut Vec<u8>,
    list: &WordList<'_>,
    meant: Option<&[u8]>,
) -> Result<(), AllocError>
    ensures { OnOk result (out.new.items ≡ out.old.items ++ no_word_text list.now meant.entry) }
{
    push_list(out, list)?;
    push_meant(out, meant)
}

/// Appends a text, and a word after it.
fn push_word(out: &mut Vec<u8>, front: &str, word: &[u8]) -> Result<(), AllocError>
    ensures { OnOk result (out.new.items ≡ out.old.items ++ (front.now ++ shown word.now)) }
{
    out.extend_from_slice(front.as_bytes())?;
    push_shown(out, word)
}

/// Appends the text of a reason.
pub fn push_reason(out: &mut Vec<u8>, reason: &Reason<'_, '_>) -> Result<(), AllocError>
    ensures { OnOk result (out.new.items ≡ out.old.items ++ reason_text reason.now) }
{
    match reason {
        Reason::NoValue => out.extend_from_slice(b"no value"),
        Reason::Refused(fault) => out.extend_from_slice(fault.text().as_bytes()),
        Reason::OutOfRange { low, high } => push_range(out, *low, *high),
        Reason::NoWord { list, meant } => push_no_word(out, list, *meant),
        Reason::NoHome => out.extend_from_slice(b"no such user or no home directory"),
        Reason::Misshapen(shape) => out.extend_from_slice(shape.fault().as_bytes()),
        Reason::IsNot(wanted) => push_word(out, "has to be ", wanted),
        Reason::TooNew(since) => push_version(out, "Git reads it only since ", *since),
        Reason::Gone(until) => push_version(out, "Git reads it only before ", *until),
        Reason::Deprecated(word) => push_word(out, "deprecated: use ", word),
        Reason::Outdated(word) => push_word(out, "deprecated: use ", word),
        Reason::NotCanonical(canonical) => {
            out.extend_from_slice(b"should be ")?;
            out.extend_from_slice(canonical.as_str().as_bytes())
        }
        Reason::OtherCase(word) => push_word(out, "should be ", word),
    }
}

/// What a check finds on a line of a file.
///
/// ```rust
/// use config_checks::finding::Finding;
///
/// /// The value that a finding suggests, or what it says if it suggests none.
/// fn hint<'f>(finding: &Finding<'f>) -> &'f [u8] {
///     finding.suggested_value.unwrap_or(finding.reason)
/// }
/// ```
#[derive(Clone, Copy)]
pub struct Finding<'f> {
    /// The name of the file.
    pub file: &'f str,
    /// The number of the line, from 1: that of the key, or of the line that Git cannot read.
    pub line: usize,
    /// How many entries of the file precede the one that it is about. `None` for a line that Git cannot read.
    pub entry: Option<u64>,
    /// What kind of finding it is.
    pub code: Code,
    /// How bad it is.
    pub severity: Severity,
    /// The key of the entry, as Git lists it. `None` for a line that Git cannot read.
    pub key: Option<&'f [u8]>,
    /// The key of the row that decides about the entry. `None` if there is none.
    pub row: Option<Key<'f>>,
    /// The value of the entry. `None` for a key alone, an unknown key, and a line that Git cannot read.
    pub value: Option<&'f [u8]>,
    /// The text of the reason.
    pub reason: &'f [u8],
    /// The fault of the reader that refuses the value, if one does and no word is suggested.
    pub fault: Option<gix_config_value::Fault>,
    /// The key that is suggested in place of an unknown or a deprecated one, if there is one.
    pub suggested_key: Option<&'f [u8]>,
    /// The value that is suggested, if there is one.
    pub suggested_value: Option<&'f [u8]>,
}

/// The bytes of a text that may be missing.
pub(crate) fn bytes_of(text: &Option<Vec<u8>>) -> Option<&[u8]>
    ensures { option_copied result ≡ option_map (λ t. t.items) text.now }
{
    match text {
        Some(text) => Some(text.as_slice()),
        None => None,
    }
}

/// The value of a setting, if it has one.
pub(crate) fn value_of<'s>(setting: &'s Setting<'_>) -> Option<&'s [u8]>
    ensures { option_copied result ≡ value_of setting.now }
{
    bytes_of(&setting.value)
}

/// The key that is suggested in place of a deprecated one, if the reason has one.
pub(crate) fn instead_of<'r>(reason: &'r Reason<'_, '_>) -> Option<&'r [u8]>
    ensures { option_copied result ≡ instead_of reason.now }
{
    match reason {
        Reason::Deprecated(word) => Some(word),
        _ => None,
    }
}

/// The value that is suggested, if the reason has one.
pub(crate) fn value_meant<'r>(reason: &'r Reason<'_, '_>) -> Option<&'r [u8]>
    ensures { option_copied result ≡ value_meant reason.now }
{
    match reason {
        Reason::NoWord { meant, .. } => *meant,
        Reason::IsNot(wanted) => Some(wanted),
        Reason::NotCanonical(canonical) => Some(canonical.as_str().as_bytes()),
        Reason::OtherCase(word) => Some(word),
        Reason::Outdated(word) => Some(word),
        _ => None,
    }
}

/// The fault of the reader that also refuses a text which no word of a list of this form is near.
fn fault_of_form(form: Form) -> Option<gix_config_value::Fault>
    ensures { result ≡ fault_of_form form }
{
    match form {
        Form::BoolOrWord => Some(gix_config_value::Fault::Boolean),
        Form::IntOrWord => Some(gix_config_value::Fault::Integer),
        _ => None,
    }
}

/// The fault of the reader that refuses a value, if one does and no word is suggested.
pub(crate) fn fault_of(reason: &Reason<'_, '_>) -> Option<gix_config_value::Fault>
    ensures { result ≡ fault_of reason.now }
{
    match reason {
        Reason::Refused(fault) => Some(*fault),
        Reason::NoWord { list, meant: None } => fault_of_form(list.form),
        _ => None,
    }
}

/// The text of a key. It fails only if memory is refused.
pub fn key_text(alloc: Global, key: &Key<'_>) -> Result<Vec<u8>, AllocError>
    ensures { IfOk result (λ t. t.items ≡ written (key_of key.now)) }
{
    let mut text = Vec::new(alloc);
    text.extend_from_slice(key.section())?;
    if let Some(subsection) = key.subsection() {
        text.push(b'.')?;
        text.extend_from_slice(subsection)?;
    }
    text.push(b'.')?;
    text.extend_from_slice(key.name())?;
    Ok(text)
}

/// The text of the key that is suggested, if a key is near.
pub(crate) fn key_meant(
    alloc: Global,
    unknown: &UnknownKey<'_>,
) -> Result<Option<Vec<u8>>, AllocError>
    ensures { IfOk result (λ t. option_map (λ t. t.items) t ≡ key_meant unknown.now) }
{
    match &unknown.nearest {
        Some(key) => Ok(Some(key_text(alloc, key)?)),
        None => Ok(None),
    }
}

/// Why a file is refused at a line.
pub(crate) fn reason_shown(why: Why) -> &'static str
    ensures { result.now ≡ reason_shown why }
{
    match why {
        Why::BadLine => "Git cannot read this line, and reads nothing of the file",
        why => why.text(),
    }
}
