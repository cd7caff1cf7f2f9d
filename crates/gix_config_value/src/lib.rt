//! The readers of Git configuration values: booleans, integers with the suffixes `k`, `m` and `g`, colors,
//! color names, attributes and paths. Every reader except that of paths is proved to accept exactly the texts
//! of its kind's written grammar.
//!
//! ```
//! use gix_config_value::canonical::{Kind, normalize};
//! use gix_config_value::{Boolean, Color, Integer};
//!
//! let bare = Boolean::try_from("yes"); // also on, true, 1, 0x10; no, off, false, 0 and "" are false
//! let limit = Integer::from_bytes::<usize>(b"10m"); // Ok(10 * 1024 * 1024)
//! let style = Color::try_from("bold brightred"); // a foreground and an attribute
//! let text = normalize(Kind::Integer, "0x10k".into()); // Some("16k"), the one canonical text of that value
//! ```
//!
//! This crate is the front door of a family, in which each kind of value has a crate of its own:
//!
//! | Crate | What it gives here |
//! |---|---|
//! | `config_text` | [`errors`], [`json`], [`settings`]; [`canonical::Value`], [`canonical::TryRead`] |
//! | `config_integer` | [`integer`]: suffixes, integers, amounts |
//! | `config_boolean` | [`boolean`]: truth values |
//! | `config_word` | [`color`]: `Name`, `Attribute`, `Item`, `word` |
//! | `config_color` | [`color`]: `Color`, `Escape`, `over`, `Depth`, `Terminal`, `space_at`; [`canonical::compose`] |
//! | `config_path` | [`path`]: paths, interpolation, the passwd text |
//!
//! This crate itself has [`canonical::Kind`], a kind chosen at run time, with [`canonical::normalize`],
//! [`canonical::same`] and [`canonical::refusal`]; and [`program`], which answers lines.
//!
//! The program `config_value` is over this crate. `config_file` reads configuration files, over `config_text`
//! and `config_path`; the checker (`config_checks`, and its program `config_check`) and the C interface
//! (`gix_config_value_c`) are over both. crates.txt lists who uses whom.
//!
//! Each public type, and each call that a user meets first, has an example in its comment. The grammar of a
//! kind is at the top of its crate's `specs/`, and docs/GRAMMAR.md describes it in words.
#![tactic(auto)]

mod kind;
pub mod laws;
pub mod program;
mod refusal;

pub use config_boolean::boolean;
pub use config_boolean::boolean::Boolean;
pub use config_color::color::Color;
pub use config_integer::integer::Integer;
pub use config_path::path::Path;
pub use config_text::errors::{Error, Fault, Returned};
pub use config_text::{errors, json, settings};

/// One canonical text for each value, and why a text has no value.
pub mod canonical {
    pub use crate::kind::{Kind, UnknownKind, normalize, normalize_into, refusal, same};
    pub use crate::refusal::Refusal;
    pub use config_color::composition::compose;
    pub use config_text::readers::TryRead;
    pub use config_text::value::{CanonicalText, LONGEST_TEXT, Value, normalize_as};
}

/// Integers, their suffixes, and amounts.
pub mod integer {
    pub use config_integer::amount::Amount;
    pub use config_integer::integer::{Integer, scan};
    pub use config_integer::suffix::Suffix;
}

/// Color names, attributes and colors.
pub mod color {
    pub use config_color::color::Color;
    pub use config_color::composition::over;
    pub use config_color::depth::Depth;
    pub use config_color::escape::{Escape, LONGEST_ESCAPE};
    pub use config_color::space::space_at;
    pub use config_color::terminal::Terminal;
    pub use config_word::attribute::Attribute;
    pub use config_word::item::{Item, word};
    pub use config_word::name::Name;
}

/// Paths that may be marked as optional.
pub mod path {
    pub use config_path::path::{Path, cut_mark};
    pub use config_path::{interpolate, parts};
}
