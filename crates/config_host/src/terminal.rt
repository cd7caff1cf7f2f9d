//! Whether to write colors, and how many: by settings, by the variables of a program and by its output.

use crate::environment::variable;
use config_file::{GetError, Key, Settings};
use gix_config_value::canonical::TryRead;
use gix_config_value::color::{Depth, Terminal};
use gix_config_value::{Boolean, Fault};
use std::alloc::AllocError;
use std::io::IsTerminal;

/// When a program writes colors.
///
/// ```rust
/// use config_host::terminal::When;
///
/// assert!(rt; matches!(When::read(b"Always"), Some(When::Always)));
/// assert!(rt; matches!(When::read(b"yes"), Some(When::Auto)));
/// assert!(rt; When::read(b"sometimes").is_none());
/// ```
#[derive(Clone, Copy, Debug)]
pub enum When {
    /// Never.
    Never,
    /// On a terminal that has colors.
    Auto,
    /// Always.
    Always,
}

/// The words of Git's settings, which count in any case.
const WORDS: &[(&[u8], When)] = &[
    (b"never", When::Never),
    (b"auto", When::Auto),
    (b"always", When::Always),
];

impl When {
    /// What the text of a setting such as `color.ui` says: `never`, `auto`, `always`, or a boolean, of which true
    /// is `auto`. Any other text gives `None`.
    pub fn read(text: &[u8]) -> Option<When> {
        for (word, when) in WORDS {
            if text.eq_ignore_ascii_case(word) {
                return Some(*when);
            }
        }
        match Boolean::try_read(text) {
            Ok(Boolean(true)) => Some(When::Auto),
            Ok(Boolean(false)) => Some(When::Never),
            Err(_) => None,
        }
    }
}

/// When the output of a key such as `color.table` has colors: as the last entry of the key says, otherwise as that of
/// `color.ui` says, and otherwise `Auto`. A text that says nothing of this is refused as no boolean.
///
/// ```rust
/// use config_file::{Scope, Settings};
/// use config_host::terminal::{When, uses_color};
///
/// let mut settings = Settings::new(alloc);
/// assert!(rt; settings.add_file(alloc, Scope::Local, b"config", b"[color]\n\tui = always\n\ttable = no").is_ok());
/// assert!(rt; matches!(uses_color(&settings, "color.table"), Ok(When::Never)));
/// assert!(rt; matches!(uses_color(&settings, "color.graph"), Ok(When::Always)));
/// ```
pub fn uses_color<'s, 't>(settings: &'s Settings<'t>, key: &str) -> Result<When, GetError<'s, 't>> {
    for name in [key, "color.ui"] {
        let key = match Key::parse(name.as_bytes()) {
            Ok(key) => key,
            Err(error) => return Err(GetError::Key(error)),
        };
        if let Some(setting) = settings.last(&key) {
            return match When::read(setting.text()) {
                Some(when) => Ok(when),
                None => Err(GetError::Refused(setting.refused(Fault::Boolean))),
            };
        }
    }
    Ok(When::Auto)
}

/// How many colors to write with on this output, or `None` for a text without colors. With `Auto` the variables
/// `NO_COLOR`, `TERM` and `COLORTERM` and the output decide, as [`Terminal::depth`] says. With `Always` the output
/// and `NO_COLOR` do not count, and there are 16 colors where `TERM` is missing or `dumb`.
pub fn depth<W: IsTerminal>(
    host: &HostRuntime,
    output: &W,
    when: When,
) -> Result<Option<Depth>, AllocError> {
    let no_color = variable(host, "NO_COLOR")?;
    let term = variable(host, "TERM")?;
    let colorterm = variable(host, "COLORTERM")?;
    let terminal = Terminal {
        is_terminal: output.is_terminal(),
        no_color: no_color.as_deref(),
        term: term.as_deref(),
        colorterm: colorterm.as_deref(),
    };
    match when {
        When::Never => Ok(None),
        When::Auto => Ok(terminal.depth()),
        When::Always => {
            let always = Terminal {
                is_terminal: true,
                no_color: None,
                ..terminal
            };
            Ok(Some(always.depth().unwrap_or(Depth::Ansi16)))
        }
    }
}
