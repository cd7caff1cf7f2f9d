//! Git's colors: how text is drawn, as a value such as `bold red #1e1e1e` says.
//!
//! [`color::Color`] is a foreground, a background and a set of attributes. It is read from a text or from
//! bytes, borrowed or owned, by `TryFrom`. The words of the text are names and attributes in any order. The
//! first name is the foreground, the second the background, and a third is refused. A refusal holds the whole
//! input. A color is shown by `Display`, and as a [`Value`] it has one canonical text, if any text reads to
//! it.
//!
//! [`Color::escape`](color::Color::escape) writes the escape sequence that a terminal understands.
//! [`composition::compose`] combines two colors in the same way as reading a joined text of both,
//! [`composition::over`] lays one color over another, and [`space::space_at`] finds the Unicode white space
//! between words.
//!
//! [`laws`] states which colors have a text, what the words of a text are, and how colors compare.
//!
//! [`Value`]: config_text::value::Value
#![tactic(auto)]

pub mod color;
pub mod composition;
pub mod depth;
pub mod escape;
pub mod laws;
pub mod space;
pub mod terminal;
