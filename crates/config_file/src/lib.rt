//! Git's configuration files, from their texts to the values of settings (docs/GRAMMAR.md).
//!
//! - [`Entries`] yields the entries of a text one by one, in order, and takes no memory. An [`Entry`] has
//!   parts that are borrowed from the text, and a [`FileError`] the line that Git reports, and why.
//! - [`Walk`] goes on in the files that a file includes, in Git's order. Its caller opens them.
//! - [`Settings`] holds the entries of several files, and what they include. A [`Key`] finds the last entry,
//!   and its text is read as a value.
//! - [`spelling`] writes entries.
//! - [`laws`] states that each text has exactly one reading: it is a configuration file, or it is refused on
//!   a line.
#![tactic(auto)]

pub mod bytes;
pub mod command;
pub mod entry;
pub mod errors;
pub mod files;
pub mod header;
pub mod include;
pub mod key;
pub mod laws;
pub mod path;
pub mod pattern;
pub mod reader;
pub mod scope;
pub mod section;
mod set;
pub mod settings;
mod shown;
pub mod spelling;
pub mod value;
pub mod walk;

pub use crate::command::{CommandError, count_of, push_parameters, push_setting};
pub use crate::entry::Entry;
pub use crate::errors::{FileError, Stop, Why};
pub use crate::files::{Content, Files};
pub use crate::include::{Condition, Includes, Repository, Urls, is_remote_url};
pub use crate::key::{Key, KeyError};
pub use crate::path::Directories;
pub use crate::reader::Entries;
pub use crate::scope::Scope;
pub use crate::settings::{
    AddError, GetError, Next, RefusedSetting, Setting, SettingPlace, Settings, next_of,
};
pub use crate::walk::{FilePlace, Frame, Include, Known, Step, Walk};
