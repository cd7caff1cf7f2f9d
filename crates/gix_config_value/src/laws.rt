//! Laws about the definitions. Each law is the contract of a function that does nothing when it runs. Laws of
//! other crates that callers cite are here too.

pub mod answers;
pub mod equality;
pub mod headline;
pub mod kinds;

pub use config_color::laws::colors;
pub use config_text::laws::settings;
pub use config_word::laws::texts;
