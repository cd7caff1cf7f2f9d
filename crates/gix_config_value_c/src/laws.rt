//! Laws of the C interface. Each law is the contract of a function that does nothing when it runs.

pub mod answers;
pub mod numbers;
pub mod structs;
