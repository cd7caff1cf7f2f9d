//! Integers with the suffixes `k`, `m` and `g`.
//!
//! - [`suffix`]: a suffix and the number that it multiplies by.
//! - [`integer`]: a number and its suffix, kept apart, and the reader `scan`.
//! - [`amount`]: an integer text read as its product.
//! - [`laws`]: the orders of the three types, that each value has a text, and that a refused text has one
//!   fault.
//!
//! `specs/Integer.antt` has the grammar. `specs/Reading/` says what the loops compute, for the contracts of
//! private functions, and `specs/Laws/` proves that this is what the grammar says.
#![tactic(auto)]

pub mod amount;
pub mod integer;
pub mod laws;
mod magnitude;
pub mod suffix;
