//! A tool in one call: six of the settings that Git reads in a folder, each with its scope, its file and its
//! line.

use bstr::BStr;
use bumpalo::Bump;
use config_file::{Key, Setting};
use config_host::{HereError, settings_here};
use std::io::{self, Write};

/// The keys of the settings.
const KEYS: [&str; 6] = [
    "core.bare",
    "core.editor",
    "user.name",
    "push.default",
    "pull.rebase",
    "remote.origin.url",
];

/// Writes the last setting of a key, or that no file has the key.
fn write<W: Write>(out: &mut W, key: &str, setting: Option<&Setting<'_>>) -> io::Result<()> {
    let Some(setting) = setting else {
        return writeln!(out, "{key} is not set");
    };
    let (scope, file) = (setting.scope.name(), BStr::new(setting.file));
    let (line, text) = (setting.entry.line, BStr::new(setting.text()));
    writeln!(out, "{scope}\t{file}:{line}\t{key} = {text}")
}

/// Writes the six settings of a folder. The `main` of a program passes `&rt` and `io::writer(&rt)`.
///
/// ```rust
/// use bumpalo::Bump;
/// use std::fs;
/// use uses::six_settings::six_settings;
///
/// for folder in ["uses.six/objects", "uses.six/refs"] {
///     fs::create_dir_all(&rt, folder)?;
/// }
/// fs::write(&rt, "uses.six/HEAD", b"ref: refs/heads/main\n")?;
/// let own = "[core]\n\tbare = true\n\teditor = vim -c \\\"set tw=72\\\"\n[user]\n\tname = Bob\n\tname = Ann\n\
///     [pull]\n\trebase\n[remote \"origin\"]\n\turl = https://example.com/a.git\n";
/// fs::write(&rt, "uses.six/config", own.as_bytes())?;
/// let texts = Bump::new(rt.alloc());
/// let mut written = Vec::new(rt.alloc());
/// assert!(rt; six_settings(&rt, &texts, b"uses.six", &mut written).is_ok());
/// let first = "local\tconfig:2\tcore.bare = true\n\
///     local\tconfig:3\tcore.editor = vim -c \"set tw=72\"\n\
///     local\tconfig:6\tuser.name = Ann\n";
/// let last = "local\tconfig:8\tpull.rebase = true\n\
///     local\tconfig:10\tremote.origin.url = https://example.com/a.git\n";
/// // between them is push.default, which no file of the repository sets
/// assert!(rt; written.starts_with(first.as_bytes()) && written.ends_with(last.as_bytes()));
/// fs::remove_dir_all(&rt, "uses.six")?;
/// ```
pub fn six_settings<'t, W: Write>(
    rt: &'t HostRuntime,
    texts: &'t Bump,
    folder: &[u8],
    out: &mut W,
) -> Result<(), HereError<'t>> {
    let settings = settings_here(rt, texts, folder)?;
    for key in KEYS {
        if let Ok(parsed) = Key::parse(key.as_bytes()) {
            write(out, key, settings.last(&parsed))?;
        }
    }
    Ok(())
}
