//! The settings of a command, as the text of a configuration file: those of `git -c KEY=VALUE` and
//! `--config-env`, which reach hooks and aliases in the variable `GIT_CONFIG_PARAMETERS`, and those of the
//! variables `GIT_CONFIG_COUNT`, `GIT_CONFIG_KEY_n` and `GIT_CONFIG_VALUE_n`.
//!
//! The rules are those of Git 2.55. The lines of the text are written as [`crate::spelling`] writes them, so
//! that the readers of files read them like those of any other file. Their numbers mean nothing to a user.
ghost use Rattle.std.specs.Prelude.{◌≡◌, ◌++◌, ◌∷◌, [], ℕ, List, false, ◌≤◌, ◌<◌, ◌^◌, length, Some, IsTrue};
ghost use Rattle.std.specs.Prelude.{◌↔◌, IfOk, MatchOption, MatchResult, option_copied};
ghost use Rattle.std.specs.List.{list_all, prefix_len};
ghost use Rattle.std.specs.Char.{is_ascii_digit};
ghost use Rattle.std.specs.Str.Parse.{AllDigits, IsNumeral, digits_value};
ghost use Rattle.config_file.specs.Command as spec;
ghost use Rattle.config_file.specs.Command.{EndsParameter, TakesParameter, LacksParameter, AfterEquals};
ghost use Rattle.config_file.specs.Command.{AddsSettings, SettingsOf, RefusesSetting, RefusesParameters};
ghost use Rattle.config_file.specs.Command.{Accepts, Counts, TakesQuoted, Quotes, KeyValue, key_value};
ghost use Rattle.config_file.specs.Command.{is_no_equals, value_after, is_c_space, in_64_bits};
ghost use Rattle.config_file.specs.Reading.Commands.{parameter_of, text_of, NextPiece, Lacks};
ghost use Rattle.config_file.specs.Reading.Commands.{PushesParameter, CutsSign, GoesOn, Limits, ShowsKey};
ghost use Rattle.config_file.specs.Runs.{Run};

use crate::bytes::{after_byte, is_blank, split};
use crate::key::{Key, KeyError};
use crate::spelling::spell_entry;
use bstr::BStr;
use std::alloc::{AllocError, Global};
use std::{error, fmt};

/// Why Git refuses the settings of a command.
///
/// ```rust
/// use config_file::command::{CommandError, push_setting};
///
/// let mut text = Vec::new(alloc);
/// let refused = push_setting(alloc, &mut text, b"user", None);
/// assert!(rt; matches!(&refused, Err(CommandError::Key { .. })));
/// ```
#[derive(Debug, Drop)]
pub enum CommandError {
    /// `GIT_CONFIG_COUNT` is no number.
    BadCount,
    /// `GIT_CONFIG_COUNT` is larger than 2147483647.
    TooMany,
    /// There is no `GIT_CONFIG_KEY_n` of this number.
    MissingKey(usize),
    /// There is no `GIT_CONFIG_VALUE_n` of this number.
    MissingValue(usize),
    /// `GIT_CONFIG_PARAMETERS` has something else than quoted texts, `=` and white space, or a quoted text
    /// that does not end.
    BadFormat,
    /// This quoted text of `GIT_CONFIG_PARAMETERS` has no key: it is empty, or begins with `=`.
    NoKey(Vec<u8>),
    /// A key is empty.
    EmptyKey,
    /// Git refuses this key, for this reason.
    Key { key: Vec<u8>, error: KeyError },
    /// A NUL is in the key or in the value, as in no variable.
    Nul,
    /// Memory was refused.
    Memory(AllocError),
}

impl From<AllocError> for CommandError {
    ghost use Rattle.config_file.specs.declared.command.CommandError.TheVariants.{Memory};

    ghost from_gives = { λ error refusal. refusal ≡ Memory error };

    fn from(error: AllocError) -> Self {
        CommandError::Memory(error)
    }
}

impl fmt::Display for CommandError {
    ghost use Rattle.config_file.specs.Command.{command_error_shown};

    ghost output = { λ error. Some (command_error_shown error) };

    /// Writes Git's words.
    fn fmt<W: fmt::Write>(&self, f: &mut fmt::Formatter<W>) -> fmt::Result {
        match self {
            CommandError::BadCount => f.write_str("bogus count in GIT_CONFIG_COUNT"),
            CommandError::TooMany => f.write_str("too many entries in GIT_CONFIG_COUNT"),
            CommandError::MissingKey(n) => write!(f, "missing config key GIT_CONFIG_KEY_{n}"),
            CommandError::MissingValue(n) => write!(f, "missing config value GIT_CONFIG_VALUE_{n}"),
            CommandError::BadFormat => f.write_str("bogus format in GIT_CONFIG_PARAMETERS"),
            CommandError::NoKey(text) => {
                write!(f, "bogus config parameter: {}", BStr::new(text.as_slice()))
            }
            CommandError::EmptyKey => f.write_str("empty config key"),
            CommandError::Key { key, error } => {
                write!(f, "{error}: {}", BStr::new(key.as_slice()))
            }
            CommandError::Nul => f.write_str("a NUL byte in the settings of a command"),
            CommandError::Memory(_) => f.write_str("no memory"),
        }
    }
}

impl error::Error for CommandError {}

/// Appends the setting of a key and a value, or of a key alone, as a line to the text of a configuration
/// file. The text is empty, or was made by this module, or is a file whose last line ends in LF without a
/// backslash before that. If the setting is refused, the text stays as it was.
///
/// A key that is empty gives [`CommandError::EmptyKey`], and one that [`Key::parse`] refuses gives
/// [`CommandError::Key`] with a copy of the key. A NUL in the key or in the value gives
/// [`CommandError::Nul`], and refused memory gives [`CommandError::Memory`].
///
/// ```rust
/// use config_file::command::push_setting;
///
/// let mut text = Vec::new(alloc);
/// push_setting(alloc, &mut text, b"branch.Main.rebase", Some(b"true"))?;
/// assert!(rt; text.as_slice() == b"[branch \"Main\"]rebase=true\n".as_slice());
/// ```
pub fn push_setting(
    alloc: Global,
    text: &mut Vec<u8>,
    key: &[u8],
    value: Option<&[u8]>,
) -> Result<(), CommandError>
    ensures { let setting = key_value key.now (option_copied value.entry) in MatchResult result
        (λ _. Accepts setting × ((line : List ℕ) × AddsSettings line (setting ∷ [])
        × (text.new.items ≡ text.old.items ++ line)))
        (λ error. RefusesSetting setting error × (text.new.items ≡ text.old.items)) }
{
    let line = line_of(alloc, key, value)?;
    text.extend_from_slice(&line)?;
    Ok(())
}

/// The line of a key and a value.
fn line_of(alloc: Global, key: &[u8], value: Option<&[u8]>) -> Result<Vec<u8>, CommandError>
    ensures { let setting = key_value key.now (option_copied value.entry) in MatchResult result
        (λ line. Accepts setting × AddsSettings line.items (setting ∷ []))
        (RefusesSetting setting) }
{
    if key.is_empty() {
        return Err(CommandError::EmptyKey);
    }
    let parts = match Key::parse(key) {
        Ok(parts) => parts,
        Err(error) => return Err(refused_key(alloc, key, error)),
    };
    if has_nul(key) || some_has_nul(value) {
        return Err(CommandError::Nul);
    }
    let (section, subsection) = (parts.section(), parts.subsection());
    match spell_entry(alloc, section, subsection, parts.name(), value)? {
        Some(line) => Ok(line),
        None => Err(CommandError::Nul),
    }
}

/// The error about a key that Git refuses.
fn refused_key(alloc: Global, key: &[u8], error: KeyError) -> CommandError
    ensures { ShowsKey key.now error result }
{
    match key.to_vec(alloc) {
        Ok(key) => CommandError::Key { key, error },
        Err(refused) => CommandError::Memory(refused),
    }
}

fn has_nul(bytes: &[u8]) -> bool
    ensures { result ≡ spec.has_nul bytes.now }
{
    bytes.iter().any(|byte| *byte == 0)
}

fn some_has_nul(bytes: Option<&[u8]>) -> bool
    ensures { result ≡ spec.some_has_nul (option_copied bytes.entry) }
{
    match bytes {
        Some(bytes) => has_nul(bytes),
        None => false,
    }
}

/// Appends the settings of `GIT_CONFIG_PARAMETERS` as lines to the text of a configuration file, which is
/// such a text as [`push_setting`] takes. If one of them is refused, the text stays as it was, without those
/// before it, since Git does not use them either.
///
/// What is no quoted text, or not followed by white space, gives [`CommandError::BadFormat`]. A text that is
/// empty or begins with `=` gives [`CommandError::NoKey`]. The other errors are those of [`push_setting`].
///
/// ```rust
/// use config_file::command::push_parameters;
///
/// let mut text = Vec::new(alloc);
/// push_parameters(alloc, &mut text, b"'user.name'='A' 'core.bare'=")?;
/// assert!(rt; text.as_slice() == b"[user]name=A\n[core]bare\n".as_slice());
/// ```
pub fn push_parameters(
    alloc: Global,
    text: &mut Vec<u8>,
    parameters: &[u8],
) -> Result<(), CommandError>
    ensures { MatchResult result
        (λ _. (settings : List KeyValue) × SettingsOf parameters.now settings
        × ((lines : List ℕ) × AddsSettings lines settings × (text.new.items ≡ text.old.items ++ lines)))
        (λ error. RefusesParameters parameters.now error × (text.new.items ≡ text.old.items)) }
{
    let lines = lines_of(alloc, parameters)?;
    text.extend_from_slice(&lines)?;
    Ok(())
}

/// The lines of the settings of parameters.
fn lines_of(alloc: Global, parameters: &[u8]) -> Result<Vec<u8>, CommandError>
    ensures { MatchResult result
        (λ lines. (settings : List KeyValue) × SettingsOf parameters.now settings
        × AddsSettings lines.items settings)
        (RefusesParameters parameters.now) }
{
    let mut lines = Vec::new(alloc);
    let mut at = parameters;
    'parameters: while !at.is_empty() {
        let Some(Taken { parameter, rest }) = parameter_at(alloc, at)? else {
            return Err(CommandError::BadFormat);
        };
        push_parameter(alloc, &mut lines, parameter)?;
        at = after_white(rest);
    }
    Ok(lines)
}

/// A parameter: a text, or a key and its value.
#[derive(Drop)]
enum Parameter {
    Whole(Vec<u8>),
    Pair(Vec<u8>, Option<Vec<u8>>),
}

/// A parameter, and what follows it.
#[derive(Drop)]
struct Taken<'p> {
    parameter: Parameter,
    rest: &'p [u8],
}

/// A quoted text without its quotes, and what follows it.
#[derive(Drop)]
struct Quoted<'p> {
    text: Vec<u8>,
    rest: &'p [u8],
}

/// The value after an `=`, if there is one, and what follows it.
#[derive(Drop)]
struct After<'p> {
    value: Option<Vec<u8>>,
    rest: &'p [u8],
}

/// What comes next in a quoted text.
enum Piece<'p> {
    /// A byte of the text, and what follows it.
    Byte(u8, &'p [u8]),
    /// The closing quote, and what follows it.
    Close(&'p [u8]),
    /// The end of the parameters.
    End,
}

/// Appends the line of the setting of a parameter.
fn push_parameter(
    alloc: Global,
    lines: &mut Vec<u8>,
    parameter: Parameter,
) -> Result<(), CommandError>
    ensures { PushesParameter (parameter_of parameter) lines.old.items lines.new.items result }
{
    match parameter {
        Parameter::Whole(text) => push_whole(alloc, lines, text),
        Parameter::Pair(key, value) => push_pair(alloc, lines, &key, &value),
    }
}

/// Appends the line of a text: of a key alone, or of a key, `=` and a value.
fn push_whole(alloc: Global, lines: &mut Vec<u8>, text: Vec<u8>) -> Result<(), CommandError>
    ensures { PushesParameter (spec.whole text.items) lines.old.items lines.new.items result }
{
    let (key, value) = cut(&text);
    if key.is_empty() {
        return Err(CommandError::NoKey(text));
    }
    push_setting(alloc, lines, key, value)
}

/// Appends the line of a key and a value.
fn push_pair(
    alloc: Global,
    lines: &mut Vec<u8>,
    key: &[u8],
    value: &Option<Vec<u8>>,
) -> Result<(), CommandError>
    ensures { PushesParameter (spec.pair key.now (text_of value.now)) lines.old.items lines.new.items result }
{
    match value {
        Some(value) => push_setting(alloc, lines, key, Some(value)),
        None => push_setting(alloc, lines, key, None),
    }
}

/// The bytes before the first `=`, and what follows it, if there is one.
fn cut(text: &[u8]) -> (&[u8], Option<&[u8]>)
    ensures { (rest : List ℕ) × Run is_no_equals text.now result.0.now rest
        × (option_copied result.1 ≡ value_after rest) }
{
    let (key, rest) = text.split_at(key_length(text));
    match split(rest) {
        Some((_, value)) => (key, Some(value)),
        None => (key, None),
    }
}

fn key_length(text: &[u8]) -> usize
    ensures count { result ≡ prefix_len is_no_equals text.now }
    ensures within { result ≤ length text.now }
{
    text.iter().take_while(|byte| **byte != b'=').count()
}

fn is_white(byte: u8) -> bool
    ensures { result ≡ spec.is_white byte }
{
    is_blank(byte) || byte == b'\n'
}

/// Whether a parameter ends before this rest.
fn is_end(rest: &[u8]) -> bool
    ensures { IsTrue result ↔ (EndsParameter rest.now) }
{
    match rest {
        [first, ..] => is_white(*first),
        [] => true,
    }
}

fn white_length(text: &[u8]) -> usize
    ensures count { result ≡ prefix_len spec.is_white text.now }
    ensures within { result ≤ length text.now }
{
    text.iter().take_while(|byte| is_white(**byte)).count()
}

fn after_white(text: &[u8]) -> &[u8]
    ensures run { (white : List ℕ) × Run spec.is_white text.now white result.now }
    ensures within { length result.now ≤ length text.now }
{
    let (_, rest) = text.split_at(white_length(text));
    rest
}

/// The `'` or `!` between a backslash and a quote, by which a quoted text goes on after a quote, and what
/// follows them.
fn escaped(text: &[u8]) -> Option<(u8, &[u8])>
    ensures { MatchOption result (spec.goes_on text.now ≡ false) (λ p. GoesOn text.now p.0 p.1.now) }
{
    let (byte, rest) = split(after_byte(b'\\', text)?)?;
    let rest = after_byte(b'\'', rest)?;
    if byte == b'\'' || byte == b'!' {
        Some((byte, rest))
    } else {
        None
    }
}

/// What comes next after the opening quote of a text, or after a byte of it.
fn piece_at(text: &[u8]) -> Piece<'_>
    ensures { NextPiece text.now result }
{
    let Some((byte, rest)) = split(text) else {
        return Piece::End;
    };
    if byte != b'\'' {
        return Piece::Byte(byte, rest);
    }
    match escaped(rest) {
        Some((byte, rest)) => Piece::Byte(byte, rest),
        None => Piece::Close(rest),
    }
}

/// The quoted text that begins here, or `None` if none begins here or it does not end.
fn quoted_at(alloc: Global, text: &[u8]) -> Result<Option<Quoted<'_>>, AllocError>
    ensures { IfOk result (λ found. MatchOption found (Lacks TakesQuoted text.now)
        (λ quoted. TakesQuoted text.now quoted.text.items quoted.rest.now)) }
{
    match after_byte(b'\'', text) {
        Some(inner) => closed(alloc, inner),
        None => Ok(None),
    }
}

/// The quoted text after its opening quote, or `None` if it does not end.
fn closed(alloc: Global, inner: &[u8]) -> Result<Option<Quoted<'_>>, AllocError>
    ensures { IfOk result (λ found. MatchOption found (Lacks Quotes inner.now)
        (λ quoted. Quotes inner.now quoted.text.items quoted.rest.now)) }
{
    let mut text = Vec::new(alloc);
    let mut at = inner;
    'pieces: loop {
        match piece_at(at) {
            Piece::Byte(byte, rest) => {
                text.push(byte)?;
                at = rest;
            }
            Piece::Close(rest) => return Ok(Some(Quoted { text, rest })),
            Piece::End => return Ok(None),
        }
    }
}

/// The value after an `=`, or `None` if neither a quoted value nor the end of the parameter follows it.
fn value_at(alloc: Global, text: &[u8]) -> Result<Option<After<'_>>, AllocError>
    ensures { IfOk result (λ found. MatchOption found (Lacks AfterEquals text.now)
        (λ after. AfterEquals text.now (text_of after.value) after.rest.now)) }
{
    if is_end(text) {
        return Ok(Some(After {
            value: None,
            rest: text,
        }));
    }
    let Some(Quoted { text: value, rest }) = quoted_at(alloc, text)? else {
        return Ok(None);
    };
    if !is_end(rest) {
        return Ok(None);
    }
    Ok(Some(After {
        value: Some(value),
        rest,
    }))
}

/// The parameter that begins here, or `None` if none does.
fn parameter_at(alloc: Global, text: &[u8]) -> Result<Option<Taken<'_>>, AllocError>
    ensures { IfOk result (λ found. MatchOption found (LacksParameter text.now)
        (λ taken. TakesParameter text.now (parameter_of taken.parameter) taken.rest.now)) }
{
    let Some(Quoted { text: key, rest }) = quoted_at(alloc, text)? else {
        return Ok(None);
    };
    if is_end(rest) {
        let parameter = Parameter::Whole(key);
        return Ok(Some(Taken { parameter, rest }));
    }
    let Some(value) = after_byte(b'=', rest) else {
        return Ok(None);
    };
    let Some(After { value, rest }) = value_at(alloc, value)? else {
        return Ok(None);
    };
    let parameter = Parameter::Pair(key, value);
    Ok(Some(Taken { parameter, rest }))
}

/// How many pairs of variables a `GIT_CONFIG_COUNT` of this text announces: 0 to 2147483647. Git reads it as
/// `strtoul` of C does: white space, a sign and digits, where a number after `-` counts down from 2 to the
/// power of 64. An empty text is 0.
///
/// A text that is no such number gives [`CommandError::BadCount`], and a larger number gives
/// [`CommandError::TooMany`].
///
/// ```rust
/// use config_file::command::count_of;
///
/// assert!(rt; count_of(b" +2")? == 2);
/// assert!(rt; count_of(b"2 ").is_err());
/// ```
pub fn count_of(text: &[u8]) -> Result<usize, CommandError>
    ensures { Counts text.now result }
{
    if text.is_empty() {
        return Ok(0);
    }
    let (is_negative, digits) = cut_sign(after_spaces(text));
    if !are_digits(digits) {
        return Err(CommandError::BadCount);
    }
    match number_of(digits) {
        Some(number) => limited(signed(is_negative, number)),
        None => Err(CommandError::TooMany),
    }
}

/// The number with its sign, in 64 bits.
fn signed(is_negative: bool, number: u64) -> u64
    ensures { result ≡ in_64_bits is_negative number }
{
    if is_negative && number != 0 {
        u64::MAX - number + 1
    } else {
        number
    }
}

/// The count, unless it is too large.
fn limited(count: u64) -> Result<usize, CommandError>
    ensures { Limits count result }
{
    if count <= 2147483647 {
        Ok(count as usize)
    } else {
        Err(CommandError::TooMany)
    }
}

/// Whether this is white space in C.
fn is_space(byte: u8) -> bool
    ensures { result ≡ is_c_space byte }
{
    byte == b' ' || 8 < byte && byte < 14
}

fn space_length(text: &[u8]) -> usize
    ensures count { result ≡ prefix_len is_c_space text.now }
    ensures within { result ≤ length text.now }
{
    text.iter().take_while(|byte| is_space(**byte)).count()
}

fn after_spaces(text: &[u8]) -> &[u8]
    ensures { (spaces : List ℕ) × Run is_c_space text.now spaces result.now }
{
    let (_, rest) = text.split_at(space_length(text));
    rest
}

/// Whether a `-` comes first, and what follows the sign, if there is one.
fn cut_sign(text: &[u8]) -> (bool, &[u8])
    ensures { CutsSign text.now result.0 result.1.now }
{
    let Some((first, rest)) = split(text) else {
        return (false, text);
    };
    if first == b'-' {
        return (true, rest);
    }
    if first == b'+' {
        return (false, rest);
    }
    (false, text)
}

/// Whether these are digits, and at least one.
fn are_digits(text: &[u8]) -> bool
    ensures { IsTrue result ↔ (IsNumeral 10 text.now) }
{
    !text.is_empty() && has_only_digits(text)
}

fn has_only_digits(text: &[u8]) -> bool
    ensures { result ≡ list_all is_ascii_digit text.now }
{
    text.iter().all(|byte| byte.is_ascii_digit())
}

/// The number that these digits are, or `None` if it needs more than 64 bits.
fn number_of(digits: &[u8]) -> Option<u64>
    requires { AllDigits 10 digits.now }
    ensures { MatchOption result (2 ^ 64 ≤ digits_value 10 digits.now)
        (λ number. number ≡ digits_value 10 digits.now) }
{
    let mut number = 0u64;
    'digits: for digit in digits {
        number = number
            .checked_mul(10)?
            .checked_add(u64::from(*digit - b'0'))?;
    }
    Some(number)
}
