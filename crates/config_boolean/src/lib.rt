//! Truth values: the words for true and false, and numbers.
//!
//! A text that is neither empty nor a word is read as an amount, and only the contract of amounts is used for
//! it: see [`boolean`]. `specs/Boolean.antt` has the grammar.
#![tactic(auto)]

pub mod boolean;
pub mod laws;
