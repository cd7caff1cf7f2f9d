//! Spellings: the bytes that Git writes for a value, a section header or an entry. They read back to it.
ghost use Rattle.std.specs.Prelude.{◌≡◌, ◌++◌, ◌∷◌, [], ◌⊎◌, IfOk, IfSome, OnOk, MatchOption, option_copied};
ghost use Rattle.std.specs.List.{flat_map, list_all, list_any};
ghost use Rattle.config_file.specs.Bytes.{is_name_byte, is_text_byte, is_key_byte};
ghost use Rattle.config_file.specs.Spelling as spell;
ghost use Rattle.config_file.specs.Spelling.{IsGitSpelling, HasNoSpelling, LacksSpelling, IsGitHeader};
ghost use Rattle.config_file.specs.Spelling.{HasNoHeader, IsNoKey, AddsEntry, IsLine};
ghost use Rattle.config_file.specs.Reading.Spellings as spec;
ghost use Rattle.config_file.specs.Spelling.{spelled_byte, git_spelled, spelled_subsection, spelled_section};
ghost use Rattle.config_file.specs.Reading.Spellings.{spelled_line};

use crate::bytes;
use std::alloc::{AllocError, Global};

/// The bytes that Git writes for this value between an `=` and the end of its line, or `None` if it has a
/// NUL.
///
/// ```rust
/// use config_file::spelling::spell_value;
///
/// let raw = spell_value(alloc, b" a\n")?;
/// assert!(rt; raw.is_some_and(|raw| raw.as_slice() == b"\" a\\n\"".as_slice()));
/// ```
pub fn spell_value(alloc: Global, value: &[u8]) -> Result<Option<Vec<u8>>, AllocError>
    ensures { IfOk result (λ spelling. MatchOption spelling (HasNoSpelling value.now)
        (λ raw. IsGitSpelling raw.items value.now)) }
{
    if !is_spellable(value) {
        return Ok(None);
    }
    let mut spelling = Vec::new(alloc);
    push_as_git(&mut spelling, value)?;
    Ok(Some(spelling))
}

/// The header of a section and a subsection that Git writes. Returns `None` if the name has a byte
/// that is no letter, digit, `-` or `.`, if it is empty without a subsection, or if the subsection has an LF
/// or a NUL.
///
/// ```rust
/// use config_file::spelling::spell_header;
///
/// let header = spell_header(alloc, b"branch", Some(b"main"))?;
/// assert!(rt; header.is_some_and(|header| header.as_slice() == b"[branch \"main\"]".as_slice()));
/// ```
pub fn spell_header(
    alloc: Global,
    name: &[u8],
    subsection: Option<&[u8]>,
) -> Result<Option<Vec<u8>>, AllocError>
    ensures { let text = option_copied subsection.entry in
        IfOk result (λ spelling. MatchOption spelling (HasNoHeader name.now text)
        (λ bytes. IsGitHeader bytes.items name.now text)) }
{
    if !is_section(name, subsection) {
        return Ok(None);
    }
    let mut spelling = Vec::new(alloc);
    push_header(&mut spelling, name, subsection)?;
    Ok(Some(spelling))
}

/// A line that adds an entry to a file: the header, the key, `=` and the spelling of the
/// value if there is one, and an LF. It can be appended to any file that is empty or ends in an LF, unless a
/// backslash before that LF continues the line. Returns `None` if the section has no header, if the key is
/// not a letter and then letters, digits and `-`, or if the value has a NUL.
///
/// ```rust
/// use config_file::spelling::spell_entry;
///
/// let line = spell_entry(alloc, b"user", None, b"name", Some(b"A"))?;
/// assert!(rt; line.is_some_and(|line| line.as_slice() == b"[user]name=A\n".as_slice()));
/// ```
pub fn spell_entry(
    alloc: Global,
    name: &[u8],
    subsection: Option<&[u8]>,
    key: &[u8],
    value: Option<&[u8]>,
) -> Result<Option<Vec<u8>>, AllocError>
    ensures adds { let text = option_copied subsection.entry in
        let spelled = option_copied value.entry in
        IfOk result (λ spelling. MatchOption spelling
        (HasNoHeader name.now text ⊎ IsNoKey key.now ⊎ LacksSpelling spelled)
        (λ bytes. AddsEntry bytes.items name.now text key.now spelled)) }
    ensures line { let text = option_copied subsection.entry in
        IfOk result (λ spelling. IfSome spelling
        (λ bytes. IsLine bytes.items name.now text key.now (option_copied value.entry))) }
{
    if !is_writable(name, subsection, key, value) {
        return Ok(None);
    }
    let mut line = Vec::new(alloc);
    push_header(&mut line, name, subsection)?;
    push_line(&mut line, key, value)?;
    Ok(Some(line))
}

/// Whether a value has a spelling: it has no NUL.
pub fn is_spellable(value: &[u8]) -> bool
    ensures { result ≡ spec.is_spellable value.now }
{
    value.iter().all(|byte| *byte != 0)
}

fn is_spellable_or_absent(value: Option<&[u8]>) -> bool
    ensures { result ≡ spec.is_spellable_or_absent (option_copied value.entry) }
{
    match value {
        Some(value) => is_spellable(value),
        None => true,
    }
}

fn are_name_bytes(name: &[u8]) -> bool
    ensures { result ≡ list_all is_name_byte name.now }
{
    name.iter().all(|byte| bytes::is_name_byte(*byte))
}

fn are_text_bytes(text: &[u8]) -> bool
    ensures { result ≡ list_all is_text_byte text.now }
{
    text.iter().all(|byte| bytes::is_text_byte(*byte))
}

fn are_key_bytes(key: &[u8]) -> bool
    ensures { result ≡ list_all is_key_byte key.now }
{
    key.iter().all(|byte| bytes::is_key_byte(*byte))
}

/// Whether a header can have this name and this subsection.
pub fn is_section(name: &[u8], subsection: Option<&[u8]>) -> bool
    ensures { result ≡ spec.is_section name.now (option_copied subsection.entry) }
{
    match subsection {
        Some(text) => are_name_bytes(name) && are_text_bytes(text),
        None => !name.is_empty() && are_name_bytes(name),
    }
}

fn is_key(key: &[u8]) -> bool
    ensures { result ≡ spec.is_key key.now }
{
    match key {
        [first, ..] => first.is_ascii_alphabetic() && are_key_bytes(key),
        [] => false,
    }
}

/// Whether an entry can have these parts.
fn is_writable(name: &[u8], subsection: Option<&[u8]>, key: &[u8], value: Option<&[u8]>) -> bool
    ensures { let text = option_copied subsection.entry in
        result ≡ spec.is_writable name.now text key.now (option_copied value.entry) }
{
    is_section(name, subsection) && is_key(key) && is_spellable_or_absent(value)
}

/// The letter that spells this byte of a value after a backslash, or `None` if it needs no backslash.
fn letter_of(byte: u8) -> Option<u8>
    ensures { result ≡ spell.letter_of byte }
{
    match byte {
        b'\n' => Some(b'n'),
        b'"' | b'\\' => Some(byte),
        b'\t' => Some(b't'),
        _ => None,
    }
}

fn push_byte(spelling: &mut Vec<u8>, byte: u8) -> Result<(), AllocError>
    ensures { OnOk result (spelling.new.items ≡ spelling.old.items ++ spelled_byte byte) }
{
    match letter_of(byte) {
        Some(letter) => {
            spelling.push(b'\\')?;
            spelling.push(letter)?;
        }
        None => spelling.push(byte)?,
    }
    Ok(())
}

fn push_bytes(spelling: &mut Vec<u8>, value: &[u8]) -> Result<(), AllocError>
    ensures { OnOk result (spelling.new.items ≡ spelling.old.items ++ flat_map spelled_byte value.now) }
{
    'bytes: for byte in value {
        push_byte(spelling, *byte)?;
    }
    Ok(())
}

/// Whether this byte of a value needs quotes.
fn is_lost(byte: u8) -> bool
    ensures { result ≡ spell.is_lost byte }
{
    byte == b'\r' || bytes::is_comment_sign(byte)
}

fn ends_with_space(value: &[u8]) -> bool
    ensures { result ≡ spell.ends_with_space value.now }
{
    match value {
        [.., last] => *last == b' ',
        [] => false,
    }
}

fn begins_with_space(value: &[u8]) -> bool
    ensures { result ≡ spell.begins_with_space value.now }
{
    match value {
        [first, ..] => *first == b' ',
        [] => false,
    }
}

fn has_lost(value: &[u8]) -> bool
    ensures { result ≡ list_any spell.is_lost value.now }
{
    value.iter().any(|byte| is_lost(*byte))
}

fn needs_quotes(value: &[u8]) -> bool
    ensures { result ≡ spell.needs_quotes value.now }
{
    begins_with_space(value) || ends_with_space(value) || has_lost(value)
}

/// Appends the spelling of a value. It fails if memory is refused.
pub fn push_as_git(spelling: &mut Vec<u8>, value: &[u8]) -> Result<(), AllocError>
    ensures { OnOk result (spelling.new.items ≡ spelling.old.items ++ git_spelled value.now) }
{
    if needs_quotes(value) {
        spelling.push(b'"')?;
        push_bytes(spelling, value)?;
        spelling.push(b'"')?;
        return Ok(());
    }
    push_bytes(spelling, value)
}

fn push_subsection(spelling: &mut Vec<u8>, subsection: &[u8]) -> Result<(), AllocError>
    ensures { OnOk result (spelling.new.items ≡ spelling.old.items ++ spelled_subsection subsection.now) }
{
    'bytes: for byte in subsection {
        if *byte == b'"' || *byte == b'\\' {
            spelling.push(b'\\')?;
        }
        spelling.push(*byte)?;
    }
    Ok(())
}

/// Appends the header of a section and a subsection. It fails if memory is refused.
pub fn push_header(
    spelling: &mut Vec<u8>,
    name: &[u8],
    subsection: Option<&[u8]>,
) -> Result<(), AllocError>
    ensures { let text = option_copied subsection.entry in
        OnOk result (spelling.new.items ≡ spelling.old.items ++ 91 ∷ spelled_section name.now text) }
{
    spelling.push(b'[')?;
    spelling.extend_from_slice(name)?;
    if let Some(subsection) = subsection {
        spelling.extend_from_slice(b" \"")?;
        push_subsection(spelling, subsection)?;
        spelling.push(b'"')?;
    }
    spelling.push(b']')?;
    Ok(())
}

fn push_line(spelling: &mut Vec<u8>, key: &[u8], value: Option<&[u8]>) -> Result<(), AllocError>
    ensures { let text = option_copied value.entry in
        OnOk result (spelling.new.items ≡ spelling.old.items ++ spelled_line key.now text) }
{
    spelling.extend_from_slice(key)?;
    if let Some(value) = value {
        spelling.push(b'=')?;
        push_as_git(spelling, value)?;
    }
    spelling.push(b'\n')?;
    Ok(())
}
