//! What Git reads in a folder, by facts: a caller knows the system, and tells what he is asked.
//!
//! A [`Search`] in a folder ends with an [`Answer`]: where Git works, the repository that it uses or why it uses none,
//! the files that it reads, and the file of each scope. If it needs what no fact tells, it stops with that question as
//! [`Pause::Ask`]. The caller tells the answer as a [`Fact`], and the search goes on where it was, since it keeps what it
//! has found. He may also tell what was not asked yet. No question is asked again that a fact answers, so a loop over
//! questions ends where a system ends: a folder has so many above it, and files include each other at most ten deep.
//!
//! A [`Reading`] goes on from there: it hands on each entry of what Git reads in the folder, or of texts that are given, to
//! a [`Receiver`], up to the end or to where Git stops. [`settings::settings_of`] is a whole reading where all facts are
//! told before.
//!
//! A [`Question`] has a subject, one of the numbers below, and a name. Its answer is a text, or none, if the system has
//! no answer. The name of a file that does not begin with `/` begins in the current folder of the caller. A caller
//! whose system cannot open a file of such a name answers as if it were not there, but [`READABLE`] by `yes`, so that no
//! other file takes its place.
//!
//! | Subject | Name | Text of the answer | None |
//! |---|---|---|---|
//! | [`VARIABLE`] | of an environment variable | its value | it is not set |
//! | [`CURRENT`] | empty | the current folder from the root, without links | unknown |
//! | [`KIND`] | of a file | what it is itself, a link not followed (`lstat`): `link`, `folder`, `file`, `other`, or `unknown` if the system does not let us know | no such file, or below a file |
//! | [`LEADS`] | of a file | what it leads to, links followed (`stat`): `folder`, `file`, `other` or `unknown` | the same |
//! | [`LINK`] | of a link | the name in it (`readlink`) | it is no link |
//! | [`REAL`] | of a file | its name from the root without links (`realpath`) | unknown |
//! | [`TEXT`] | of a file | its first 65,536 bytes (all, if it is shorter) | no regular file, links followed, or not readable |
//! | [`BLOCK`] | of a file | its first 16,777,216 bytes | the same |
//! | [`SETTINGS`] | of a file | its whole text, up to 1 GiB; a pipe or a device is read too | it is not read |
//! | [`INCLUDED`] | of a file | its whole text, of a regular file or a device of characters only | it is not read |
//! | [`REFUSAL`] | of a file that is not read | `denied` if the user may not read it, and otherwise why, in words | there is no such file, or it is below a file |
//! | [`DEVICE`] | of a file | bytes that tell its device from others (`st_dev`), links followed | unknown |
//! | [`IDENTITY`] | of a file | bytes that tell it from all other files (`st_dev` and `st_ino`), links followed | unknown |
//! | [`OWNER`] | of a file | the number of its owner in decimal, a link not followed | unknown |
//! | [`USER`] | empty | the number of the user as whom the caller runs (`geteuid`), in decimal | unknown |
//! | [`HOME`] | of a user | the home folder of this user | no such user |
//! | [`READABLE`] | of a file | `yes` if the user may read it (`access`), links followed | the user may not, or no such file |
//! | [`KEEP`] | a text that the search has made | | always: the name of the fact keeps the text as long as the search needs it |
#![tactic(auto)]

pub mod answer;
mod command;
pub mod fact;
mod files;
mod format;
mod git_dir;
pub mod halt;
mod head;
pub mod includes;
pub mod known;
pub mod laws;
mod name;
mod owner;
mod place;
mod protected;
mod reader;
pub mod reading;
pub mod receiver;
mod reftable;
mod rounds;
mod seek;
pub mod settings;
mod stages;
mod start;
mod state;
pub mod texts;

pub use crate::answer::{Answer, Named, Outcome, Refusal, Repository};
pub use crate::fact::{Fact, Pause, Question};
pub use crate::halt::Halt;
pub use crate::known::Follows;
pub use crate::reading::Reading;
pub use crate::receiver::Receiver;
pub use crate::stages::Search;
pub use crate::texts::Text;

/// Asks for the value of a variable.
pub const VARIABLE: u32 = 1;
/// Asks for the current folder, by an empty name.
pub const CURRENT: u32 = 2;
/// Asks what a file is itself.
pub const KIND: u32 = 3;
/// Asks what a file is to which links lead.
pub const LEADS: u32 = 4;
/// Asks for the name in a link.
pub const LINK: u32 = 5;
/// Asks for a name from the root without links.
pub const REAL: u32 = 6;
/// Asks for the start of a file.
pub const TEXT: u32 = 7;
/// Asks for a long start of a file.
pub const BLOCK: u32 = 8;
/// Asks for the text of a file of settings.
pub const SETTINGS: u32 = 9;
/// Asks for the text of a file that is included.
pub const INCLUDED: u32 = 10;
/// Asks why the text of a file is not read.
pub const REFUSAL: u32 = 11;
/// Asks for the device of a file.
pub const DEVICE: u32 = 12;
/// Asks for what tells a file from others.
pub const IDENTITY: u32 = 13;
/// Asks for the owner of a file.
pub const OWNER: u32 = 14;
/// Asks for the user, by an empty name.
pub const USER: u32 = 15;
/// Asks for the home folder of a user.
pub const HOME: u32 = 16;
/// Asks whether the user may read a file.
pub const READABLE: u32 = 17;
/// Asks to keep a text.
pub const KEEP: u32 = 18;
