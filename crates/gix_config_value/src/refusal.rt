//! The reason why a text has no value of a kind that is chosen at run time.
ghost use Rattle.std.specs.Prelude.{◌≡◌};
ghost use Rattle.gix_config_value.specs.Kinds.{refusal_text};

use config_text::errors::Fault;
use thiserror::Error;

/// The reason why a text has no value of a kind, with a text that says so to a user.
///
/// ```rust
/// use gix_config_value::Fault;
/// use gix_config_value::canonical::Refusal;
///
/// assert_eq!(rt; Refusal::Suffix.text(), "Suffixes are k, m and g, in either case");
/// assert_eq!(rt; Refusal::Fault(Fault::Color).text(), Fault::Color.text());
/// ```
#[derive(Clone, Copy, PartialEq, Eq, Debug, Error)]
#[error("{}", self.text())]
pub enum Refusal {
    /// The text is not a suffix. The reader of suffixes has no fault.
    Suffix,
    /// The fault with which the reader of any other kind refuses the text.
    Fault(Fault),
}

impl Refusal {
    /// Returns the text that `Display` prints.
    pub fn text(self) -> &'static str
        ensures { result.now ≡ refusal_text self }
    {
        match self {
            Refusal::Suffix => "Suffixes are k, m and g, in either case",
            Refusal::Fault(fault) => fault.text(),
        }
    }
}
