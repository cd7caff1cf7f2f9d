//! Defaults that a program writes as Git would. Their values are known when the program is proved, so callers
//! do not have to handle a refusal.
ghost use Rattle.std.specs.Prelude.{◌≡◌, None, Some};
ghost use Rattle.config_word.specs.declared.attribute.TheConstants.Attribute.{BOLD};
ghost use Rattle.config_word.specs.declared.name.Name.TheVariants as names;

use gix_config_value::{Color, Integer};

/// The largest object that is shown, in bytes.
pub fn default_limit() -> usize
    ensures { result ≡ 10485760 }
{
    Integer::from_bytes::<usize>(b"10m").unwrap()
}

/// The color of a warning.
///
/// ```rust
/// use uses::literals::{default_limit, default_warning};
///
/// assert_eq!(rt; default_limit(), 10_485_760);
/// assert_eq!(rt; default_warning().shown().as_str(), "brightred bold");
/// ```
pub fn default_warning() -> Color
    ensures names { (result.foreground ≡ Some names.BrightRed) × (result.background ≡ None) }
    ensures attributes { result.attributes ≡ BOLD }
{
    Color::try_from("bold brightred").unwrap()
}
