//! Git's path values: a path that may be marked as optional, and the directories that it may refer
//! to.
//!
//! [`path::Path`] is made from a text or from bytes, borrowed or owned. One leading `:(optional)` marks a
//! path as optional, and is not part of it.
//!
//! [`path::Path::interpolate`] replaces what the path begins with: `%(prefix)/` by the directory that Git is
//! installed in, `~` and `~/` by the home directory, `~user` and `~user/` by that user's home. The caller
//! passes these directories as an [`interpolate::Context`], with a lookup for users, such as
//! [`interpolate::home_for_user`] over the text of a passwd file.
//!
//! [`parts`] returns the same as borrowed parts, for callers with a buffer of their own.
//!
//! An [`interpolate::Error`] says why a call failed, and has an [`interpolate::Class`]. Calls that allocate
//! their result take the allocator.
//!
//! [`laws`] states that a text gives one path, how paths compare, and that a value has one result in the
//! table of `interpolate`.
#![tactic(auto)]

pub mod interpolate;
pub mod laws;
pub mod parts;
pub mod path;
