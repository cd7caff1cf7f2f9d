//! Laws of colors. Each is the contract of a function that does nothing.

pub mod colors;
pub mod depths;
pub mod orders;
