//! The line that Git writes for a setting.
ghost use Rattle.std.specs.Prelude.{◌≡◌, ◌++◌, ◌∷◌, [], ℕ, List, OnOk, if◌then◌else◌, option_copied, option_map};
ghost use Rattle.std.specs.Prelude.{flat_map};
ghost use Rattle.std.specs.List.{list_all};
ghost use Rattle.config_file.specs.Scope.{scope_name};
ghost use Rattle.config_answers.specs.Lines.{letter_of, escape, escaped, is_plain, name_shown, origin_shown};
ghost use Rattle.config_answers.specs.Lines.{gap, end, value_part, line, IsName, Lies, IsText, IsPlaceOf};

use crate::keys::KeyList;
use config_file::{Entry, Scope, Setting};
use std::alloc::AllocError;

/// What settings are in.
///
/// ```rust
/// use config_answers::line::{COMMAND, Origin, Unfiled};
/// use config_file::Scope;
///
/// let unfiled = Unfiled { command: true, input: false };
/// assert!(rt; matches!(unfiled.origin(Scope::Command, COMMAND), Origin::Command));
/// ```
#[derive(Clone, Copy)]
pub enum Origin {
    /// A file.
    File,
    /// The text of standard input.
    Input,
    /// The settings of a command.
    Command,
}

/// The name of the text of the settings of a command.
pub const COMMAND: &[u8] = b"command line";

/// The name of the text of standard input.
pub const INPUT: &[u8] = b"standard input";

/// Which of the texts that settings are from are no files. A file of the scope of a command has the name of none of
/// them: the settings of a command include files by whole paths, as those of standard input do.
///
/// ```rust
/// use config_answers::line::{COMMAND, Origin, Unfiled};
/// use config_file::Scope;
///
/// let unfiled = Unfiled { command: false, input: true };
/// assert!(rt; matches!(unfiled.origin(Scope::Command, COMMAND), Origin::File)); // a file of this name
/// ```
#[derive(Clone, Copy)]
pub struct Unfiled {
    /// Whether the settings of a command, with the name [`COMMAND`].
    pub command: bool,
    /// Whether standard input, with the name [`INPUT`].
    pub input: bool,
}

/// How settings are written.
///
/// ```rust
/// use config_answers::keys::KeyList;
/// use config_answers::line::{Form, Name, Origin, Place, push_line};
/// use config_file::Scope;
///
/// let form = Form {
///     all: true,
///     null: false,
///     shows_scope: false,
///     shows_origin: false,
///     shows_names: true,
///     shows_values: true,
///     between: b'=',
/// };
/// let place = Place { origin: Origin::File, scope: Scope::Local, file: b"a\tb", line: 2 };
/// let mut text = Vec::new(alloc);
/// push_line(&mut KeyList::new(alloc), &mut text, &form, &place, Name::Text(b"core.bare"), Some(b"no"))?;
/// assert_eq!(rt; text.as_slice(), b"core.bare=no\n".as_slice());
/// ```
#[derive(Clone, Copy)]
pub struct Form {
    /// Whether all settings are written, and not the last one alone.
    pub all: bool,
    /// Whether a NUL ends each line, and each part before a key, and an LF each key before a value.
    pub null: bool,
    /// Whether the scope is written first.
    pub shows_scope: bool,
    /// Whether the origin is written before the key.
    pub shows_origin: bool,
    /// Whether the key is written.
    pub shows_names: bool,
    /// Whether the value is written.
    pub shows_values: bool,
    /// What stands between a key and its value without NUL.
    pub between: u8,
}

/// The key under which a setting is written.
///
/// ```rust
/// use config_answers::line::Name;
/// use config_file::Entries;
///
/// let entry = Entries::new(b"[a \"B\"]\n\tC = 1").next().expect(&rt, "an entry").expect(&rt, "no error");
/// assert!(rt; matches!(Name::Of(&entry), Name::Of(entry) if entry.line == 2)); // written as a.B.c
/// ```
#[derive(Clone, Copy)]
pub enum Name<'s, 't> {
    /// This text.
    Text(&'s [u8]),
    /// The key of this entry, as Git lists it.
    Of(&'s Entry<'t>),
}

/// Where a setting is.
///
/// ```rust
/// use config_answers::keys::KeyList;
/// use config_answers::line::{Form, Name, Origin, Place, push_line};
/// use config_file::Scope;
///
/// let form = Form {
///     all: true,
///     null: false,
///     shows_scope: false,
///     shows_origin: true,
///     shows_names: true,
///     shows_values: true,
///     between: b' ',
/// };
/// let place = Place { origin: Origin::File, scope: Scope::Local, file: b"a\tb", line: 2 };
/// let mut text = Vec::new(alloc);
/// push_line(&mut KeyList::new(alloc), &mut text, &form, &place, Name::Text(b"core.bare"), None)?;
/// assert_eq!(rt; text.as_slice(), b"file:\"a\\tb\"\tcore.bare\n".as_slice());
/// ```
#[derive(Clone, Copy)]
pub struct Place<'s> {
    /// What it is in.
    pub origin: Origin,
    /// Where Git has this from.
    pub scope: Scope,
    /// The name of the file.
    pub file: &'s [u8],
    /// The line, counted from 1.
    pub line: usize,
}

impl Unfiled {
    /// What the settings of a file of this scope and name are in.
    #[inline(always)]
    pub fn origin(self, scope: Scope, file: &[u8]) -> Origin
        ensures { Lies self scope file.now result }
    {
        if !matches!(scope, Scope::Command) {
            return Origin::File;
        }
        if self.command && file == COMMAND {
            return Origin::Command;
        }
        if self.input && file == INPUT {
            return Origin::Input;
        }
        Origin::File
    }

    /// Where a setting is.
    #[inline(always)]
    pub fn place<'s>(self, setting: &Setting<'s>) -> Place<'s>
        ensures { IsPlaceOf self setting.now result }
    {
        Place {
            origin: self.origin(setting.scope, setting.file),
            scope: setting.scope,
            file: setting.file,
            line: setting.entry.line,
        }
    }
}

/// The letter that stands for a byte after a backslash, if there is one.
fn letter_of(byte: u8) -> Option<u8>
    ensures { result ≡ letter_of byte }
{
    match byte {
        7 => Some(b'a'),
        8 => Some(b'b'),
        9 => Some(b't'),
        10 => Some(b'n'),
        11 => Some(b'v'),
        12 => Some(b'f'),
        13 => Some(b'r'),
        34 => Some(b'"'),
        92 => Some(b'\\'),
        _ => None,
    }
}

/// Whether a byte of the name of a file is written as it is.
fn is_plain(byte: u8) -> bool
    ensures { result ≡ is_plain byte }
{
    32 <= byte && byte <= 126 && byte != b'"' && byte != b'\\'
}

/// Appends a byte of the name of a file, as it is written in quotes.
fn push_escaped(text: &mut Vec<u8>, byte: u8) -> Result<(), AllocError>
    ensures { OnOk result (text.new.items ≡ text.old.items ++ escaped byte) }
{
    if is_plain(byte) {
        text.push(byte)?;
        return Ok(());
    }
    text.push(b'\\')?;
    if let Some(letter) = letter_of(byte) {
        text.push(letter)?;
        return Ok(());
    }
    text.extend_from_slice(&[b'0' + byte / 64, b'0' + byte / 8 % 8, b'0' + byte % 8])
}

/// Whether the name of a file is written as it is.
fn is_plain_name(name: &[u8]) -> bool
    ensures { result ≡ list_all is_plain name.now }
{
    name.iter().all(|byte| is_plain(*byte))
}

/// Appends the name of a file as Git writes it: in quotes if one of its bytes is escaped.
fn push_name(text: &mut Vec<u8>, name: &[u8]) -> Result<(), AllocError>
    ensures { OnOk result (text.new.items ≡ text.old.items ++ name_shown name.now) }
{
    if is_plain_name(name) {
        return text.extend_from_slice(name);
    }
    text.push(b'"')?;
    for byte in name {
        push_escaped(text, *byte)?;
    }
    text.push(b'"')?;
    Ok(())
}

/// Appends what ends a scope or an origin.
fn push_gap(text: &mut Vec<u8>, form: &Form) -> Result<(), AllocError>
    ensures { OnOk result (text.new.items ≡ text.old.items ++ gap form.now) }
{
    text.push(if form.null { 0 } else { b'\t' })?;
    Ok(())
}

/// Appends where a setting is.
fn push_origin(text: &mut Vec<u8>, form: &Form, place: &Place<'_>) -> Result<(), AllocError>
    ensures { OnOk result (text.new.items ≡ text.old.items
        ++ origin_shown form.now.null place.now.origin place.now.file.now) }
{
    match place.origin {
        Origin::File => {
            text.extend_from_slice(b"file:")?;
            if form.null {
                text.extend_from_slice(place.file)
            } else {
                push_name(text, place.file)
            }
        }
        Origin::Input => text.extend_from_slice(b"standard input:"),
        Origin::Command => text.extend_from_slice(b"command line:"),
    }
}

/// Appends the key under which a setting is written.
#[inline(always)]
fn push_key<'t>(
    keys: &mut KeyList<'t>,
    text: &mut Vec<u8>,
    name: Name<'_, 't>,
) -> Result<(), AllocError>
    ensures { (key : List ℕ) → IsName name.entry key
        → OnOk result (text.new.items ≡ text.old.items ++ key) }
{
    match name {
        Name::Text(key) => text.extend_from_slice(key),
        Name::Of(entry) => keys.push(text, entry),
    }
}

/// Appends a value, and what stands between it and its key.
#[inline(always)]
fn push_value(text: &mut Vec<u8>, form: &Form, value: Option<&[u8]>) -> Result<(), AllocError>
    ensures { OnOk result (text.new.items ≡ text.old.items ++ value_part form.now (option_copied value.entry)) }
{
    let Some(value) = value else {
        return Ok(());
    };
    if !form.shows_values {
        return Ok(());
    }
    if form.shows_names {
        text.push(if form.null { b'\n' } else { form.between })?;
    }
    text.extend_from_slice(value)
}

/// Appends the scope and the origin of a setting, as far as they are written.
#[inline(always)]
fn push_place(text: &mut Vec<u8>, form: &Form, place: &Place<'_>) -> Result<(), AllocError>
    ensures { OnOk result (text.new.items ≡ text.old.items
        ++ ((if form.now.shows_scope then scope_name place.now.scope ++ gap form.now else [])
        ++ (if form.now.shows_origin
        then origin_shown form.now.null place.now.origin place.now.file.now ++ gap form.now else []))) }
{
    if form.shows_scope {
        text.extend_from_slice(place.scope.name().as_bytes())?;
        push_gap(text, form)?;
    }
    if form.shows_origin {
        push_origin(text, form, place)?;
        push_gap(text, form)?;
    }
    Ok(())
}

/// Appends the line of a setting at this place, under this key and with this value, or without one for a key
/// alone. The keys of entries are listed one after the other by `keys`. It fails only if memory is refused.
#[inline(always)]
pub fn push_line<'t>(
    keys: &mut KeyList<'t>,
    text: &mut Vec<u8>,
    form: &Form,
    place: &Place<'_>,
    name: Name<'_, 't>,
    value: Option<&[u8]>,
) -> Result<(), AllocError>
    ensures { (key : List ℕ) → IsName name.entry key
        → OnOk result (text.new.items ≡ text.old.items
        ++ line form.now place.now key (option_copied value.entry)) }
{
    push_place(text, form, place)?;
    if form.shows_names {
        push_key(keys, text, name)?;
    }
    push_value(text, form, value)?;
    text.push(if form.null { 0 } else { b'\n' })?;
    Ok(())
}
