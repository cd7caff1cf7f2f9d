//! What it means to read a text as a value, for any kind of value.
//!
//! - [`value`]: the trait `Value`, which says what a kind has to provide: exact reading, one canonical text
//!   for each value, and the laws that connect the two. It also has a normalizer and a comparison for all
//!   kinds.
//! - [`errors`]: why a text is refused, together with the input.
//! - [`readers`]: readers of borrowed and owned inputs, for all kinds that say why they refuse a text.
//! - [`digits`]: the value of a byte as a digit.
//! - [`words`]: comparisons of a text with a word.
//! - [`json`]: why a value has no JSON value, and texts as JSON.
//! - [`settings`]: looks up a setting by its name in a list of entries.
//! - [`laws`]: laws of settings, and what `==` and `clone` return.
//!
//! This crate defines no kind of value. Its definitions are at the top of `specs/`; `specs/Laws/` holds
//! lemmas.
#![tactic(auto)]

pub mod digits;
pub mod errors;
pub mod json;
pub mod laws;
pub mod readers;
pub mod settings;
pub mod value;
pub mod words;
