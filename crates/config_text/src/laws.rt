//! Laws over the definitions. Each is the contract of a function that does nothing.

pub mod equality;
pub mod settings;
