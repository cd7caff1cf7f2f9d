//! Laws over the definitions. Each is the contract of a function that does nothing.

pub mod attributes;
pub mod equality;
pub mod orders;
pub mod texts;
