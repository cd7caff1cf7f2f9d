//! The words of a color text: names of colors, and attributes such as bold.
//!
//! - [`name::Name`] is a color's name, and [`attribute::Attribute`] a set of attributes. Each is read by
//!   `TryFrom` and `FromStr`, shown by `Display`, and has one canonical text if some text reads to it
//!   ([`Value`](config_text::value::Value)).
//! - [`item::word`] reads one word as whichever of the two it is.
//! - [`laws`] has the laws of both, each of which is the contract of a function that does nothing.
//!
//! The grammars of names and of attributes, and how both are shown and ordered, are `Name`, `Attribute`,
//! `Item` and `Orders` in `specs/`. `specs/Reading/` says what the private functions compute, and
//! `specs/Laws/` proves that this is what the grammars say.
#![tactic(auto)]

pub mod attribute;
pub mod item;
pub mod laws;
pub mod name;
mod words;
