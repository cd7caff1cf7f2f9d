//! Where a program runs: the one room with input, and with files as output. No contract can say what a system
//! returns.
//!
//! - [`settings_here`] reads all that Git reads in a folder, in one call.
//! - [`environment`] gives arguments and variables as bytes, and [`names`] the paths that they spell.
//! - [`disk`] reads files, and refuses those that would take all memory. [`locked`] replaces the text of one.
//! - [`hand_on`] answers what a reading asks, by this system, and [`repository`] finds where Git works.
//! - [`users`] knows whose home directories there are. [`shown`] writes messages without control characters.
//! - [`options`] reads a command line as Git does. [`terminal`] tells whether to write colors, and how many.
//!   [`text`] builds what a program writes.
#![tactic(auto)]

pub mod disk;
pub mod environment;
pub mod error;
mod facts;
pub mod here;
pub mod laws;
pub mod locked;
pub mod names;
pub mod options;
pub mod repository;
pub mod shown;
pub mod terminal;
pub mod text;
pub mod users;

pub use crate::disk::{Disk, ReadError};
pub use crate::environment::{ArgumentError, HostError, arguments};
pub use crate::error::HereError;
pub use crate::facts::hand_on;
pub use crate::here::{Here, files_here, read_here, settings_here};
pub use crate::locked::{LockError, Locked};
pub use crate::users::Users;
pub use config_search::Refusal;
