//! What the arguments ask.

use crate::shown::Shown;
use config_file::Scope;

/// Which texts are read, or which file is changed.
#[derive(Clone, Copy)]
pub enum Texts<'a> {
    /// This file, or standard input if it is `-`.
    Named(&'a str),
    /// All that Git reads here.
    Here,
    /// Of the files that Git reads here, the one of this scope.
    OfScope(Scope),
}

/// What settings are asked about.
#[derive(Clone, Copy)]
pub enum Subject<'a> {
    /// All entries, which are listed.
    Entries,
    /// The settings of this key.
    Key(&'a str),
    /// The settings whose keys this pattern matches.
    Pattern(&'a str),
    /// Of this section, or of this key without a subsection, the settings that decide for a URL.
    Url(&'a str, &'a str),
    /// The color under the key that is listed as this, written for a terminal.
    Color(&'a str),
    /// Whether the part of the output is colored whose setting is listed as this, and whether the output is a
    /// terminal, if this is said.
    UsesColor(&'a str, Option<&'a str>),
}

/// Which entries are asked for.
#[derive(Clone, Copy)]
pub struct Chosen<'a> {
    /// What they are about.
    pub subject: Subject<'a>,
    /// The pattern that the value has to match, or after `!` the one that it must not match.
    pub value: Option<&'a str>,
    /// Whether `value` is no pattern, but the value itself.
    pub is_fixed: bool,
}

/// What is asked of settings.
#[derive(Clone, Copy)]
pub struct Request<'a> {
    /// The texts that are read.
    pub texts: Texts<'a>,
    /// The entries that are asked for.
    pub chosen: Chosen<'a>,
    /// As what a value is read, and how it is shown.
    pub shown: Shown,
    /// Whether includes are followed.
    pub follows: bool,
    /// Whether a NUL follows each entry and each value.
    pub null: bool,
    /// Whether the scope is written before an entry.
    pub shows_scope: bool,
    /// Whether the origin is written before an entry.
    pub shows_origin: bool,
    /// Whether the key is written before a value.
    pub shows_names: bool,
    /// Whether the value is written.
    pub shows_values: bool,
    /// Whether all settings that are asked for are shown, and not the last one alone.
    pub all: bool,
    /// The value, or the color, if no entry has the key.
    pub default: Option<&'a str>,
}

impl Request<'_> {
    /// Whether all entries are listed.
    pub fn lists(&self) -> bool {
        matches!(self.chosen.subject, Subject::Entries)
    }
}

/// A change of a file.
#[derive(Clone, Copy)]
pub enum Change<'a> {
    /// The key, which has at most one entry, has this value.
    Set(&'a str),
    /// The key has one more entry, of this value.
    Add(&'a str),
    /// The key has this value, and no other.
    Replace(&'a str),
    /// The key, which has one entry, has none.
    Unset,
    /// The key has no entry.
    UnsetAll,
    /// The sections have this name.
    Rename(&'a str),
    /// There is no section of the name.
    Remove,
}

/// What is changed.
#[derive(Clone, Copy)]
pub struct Edit<'a> {
    /// The file.
    pub texts: Texts<'a>,
    /// The change.
    pub change: Change<'a>,
    /// The key, or the name of the sections.
    pub name: &'a str,
    /// The pattern of the values of the entries that change, if not all of the key do.
    pub pattern: Option<&'a str>,
    /// Whether the pattern is the value itself.
    pub is_fixed: bool,
    /// The comment that the value gets.
    pub comment: Option<&'a str>,
    /// As what the value is written.
    pub shown: Shown,
    /// What to do if several entries have the key, as Git says it.
    pub advice: &'a str,
}
