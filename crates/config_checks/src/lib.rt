//! Finds wrong values, unknown keys and invalid lines in Git configuration files.
#![tactic(auto)]

mod alike;
pub mod check;
pub mod code;
mod edits;
pub mod finding;
pub mod fingerprint;
pub mod fix;
pub mod git;
pub mod json_line;
pub mod key;
pub mod kind;
pub mod laws;
pub mod lookup;
mod marks;
pub mod mending;
pub mod options;
pub mod outcome;
pub mod paths;
pub mod reason;
pub mod row;
pub mod setting;
pub mod shape;
pub mod suggestion;
pub mod table;
pub mod version;
pub mod wrong;
