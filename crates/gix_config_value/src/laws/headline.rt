//! Three theorems that state what is proved about the readers and the normalizers.
//!
//! [`meaning`] holds for each of the seven kinds and for each byte string. The reader accepts exactly the
//! texts that the grammar derives, with their one value. The normalizer returns the only canonical text that
//! reads to this value, which has at most [`LONGEST_TEXT`](crate::canonical::LONGEST_TEXT) bytes, and takes
//! no memory. [`one_meaning`] says that two accepted texts mean the same exactly if their normalized texts
//! are equal. [`joined`] says what color texts joined by white space are read as, and exactly when they are
//! refused.

pub use config_color::laws::colors::joined;
pub use config_text::value::{meaning, one_meaning};
