//! A C interface to the readers of Git configuration values.
//!
//! `raw.h` declares these calls, and `calls.c` makes those of the header of them. A slice is a pointer and a
//! length in C. The pointer is not null here, since `calls.c` passes some address if the length is 0. No call
//! keeps a pointer after it returns, but those of a search: its texts stay as they are until it has ended.
#![tactic(auto)]

mod buffer;
mod colors;
mod commands;
mod edits;
mod faults;
mod files;
mod held;
mod keys;
pub mod laws;
mod numbers;
mod paths;
mod plain;
mod products;
mod readers;
mod roles;
mod search;
mod shown;
mod status;
mod structs;
mod texts;
mod walk;
