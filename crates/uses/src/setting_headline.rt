//! The headline of configuration files, stated once: which value a setting has in several files, each with the
//! files that it includes. `SettingHeadline` of specs/SettingHeadline.antt states it.
ghost use Rattle.std.specs.Prelude.{List, ℕ, MatchResult};
ghost use Rattle.uses.specs.Reading.{AreRead};
ghost use Rattle.uses.specs.SettingHeadline.{SettingHeadline, StopsWith};

use config_file::laws::each_is_listed;
use config_file::{AddError, FilePlace, Files, Key, KeyError, Known, Scope, Settings};
use gix_config_value::Fault;
use gix_config_value::canonical::TryRead;
use std::alloc::Global;

/// A file that is read first, and not because another file includes it.
///
/// ```rust
/// use config_file::FilePlace;
/// use uses::setting_headline::FirstFile;
///
/// let place = FilePlace { name: b"/etc/gitconfig", real_dir: b"/etc" };
/// let first = FirstFile { place, text: b"[core]\n\tbare\n" };
/// assert!(rt; first.text.starts_with(b"[core]"));
/// ```
#[derive(Clone, Copy)]
pub struct FirstFile<'t> {
    /// Where the file is.
    pub place: FilePlace<'t>,
    /// The text of the file.
    pub text: &'t [u8],
}

/// Why a setting has no value of the wanted type.
///
/// ```rust
/// use uses::setting_headline::NoValue;
///
/// let told = |none: &NoValue<'_>| match none {
///     NoValue::Key(_) => "no key",
///     NoValue::Stops(_) => "a file cannot be read",
///     NoValue::Refused { .. } => "the text has no such value",
/// };
/// assert_eq!(rt; told(&NoValue::Key(config_file::KeyError::NoName)), "no key");
/// ```
#[derive(Debug, Drop)]
pub enum NoValue<'t> {
    /// Git refuses the key.
    Key(KeyError),
    /// Git stops in a file, or memory was refused.
    Stops(AddError<'t>),
    /// The text of the last entry has no value of the type.
    Refused {
        /// The name of the file of the entry.
        file: &'t [u8],
        /// The line of the entry.
        line: usize,
        /// The text of its value.
        text: Vec<u8>,
        /// Why the text is refused.
        fault: Fault,
    },
}

/// The settings of the first files and of those that they include, in Git's order.
fn read_all<'t, F: Files<'t>>(
    alloc: Global,
    files: &F,
    known: &Known<'_>,
    first: &[FirstFile<'t>],
) -> Result<Settings<'t>, AddError<'t>>
    ensures { MatchResult result
        (λ settings. AreRead (F.contents files.now) known.now first.now settings.entries.items)
        (StopsWith (F.contents files.now) known.now first.now) }
{
    let mut settings = Settings::new(alloc);
    for file in first {
        match settings.add_with_includes(
            alloc,
            Scope::Command,
            files,
            known,
            file.place,
            file.text,
        ) {
            Ok(()) => {}
            Err(error) => return Err(error),
        }
    }
    Ok(settings)
}

/// The value that a key has in these first files and in the files that they include, or `None` if no entry has
/// the key.
///
/// ```rust
/// use bumpalo::Bump;
/// use config_file::{Directories, Includes, Known};
/// use config_host::Disk;
/// use gix_config_value::{Boolean, Fault};
/// use std::fs;
/// use uses::setting_headline::{FirstFile, NoValue, value_of};
///
/// fs::write(&rt, "headline-a", b"[core]\n\tbare = no\n\tx = 1\n[b]\n\tx")?;
/// fs::write(&rt, "headline-b", b"[include]\n\tpath = headline-c\n[b]\n\tx = \"2 \"")?;
/// fs::write(&rt, "headline-c", b"[core]\n\tbare")?;
/// let texts = Bump::new(rt.alloc());
/// let disk = Disk::new(&rt, &texts);
/// let directories = Directories { home: None, install_dir: None };
/// let known = Known { directories, includes: Includes::All };
/// let (place, text) = disk.first(b"headline-a").expect(&rt, "a text");
/// let first = FirstFile { place, text };
/// let (place, text) = disk.first(b"headline-b").expect(&rt, "a text");
/// let files = [first, FirstFile { place, text }];
/// for (key, wanted) in [
///     ("core.bare", Some(Boolean(true))),
///     ("core.x", Some(Boolean(true))),
///     ("core.y", None),
/// ] {
///     let found: Result<Option<Boolean>, NoValue<'_>> = value_of(alloc, &disk, &known, &files, key);
///     assert!(rt; matches!(found, Ok(found) if found == wanted));
/// }
/// let found: Result<Option<Boolean>, NoValue<'_>> = value_of(alloc, &disk, &known, &files, "b.x");
/// assert!(rt; matches!(found, Err(NoValue::Refused { file: b"headline-b", line: 4, fault: Fault::Boolean, .. })));
/// ```
pub fn value_of<'t, F: Files<'t>, V: TryRead>(
    alloc: Global,
    files: &F,
    known: &Known<'_>,
    first: &[FirstFile<'t>],
    key: &str,
) -> Result<Option<V>, NoValue<'t>>
    ensures { SettingHeadline (F.contents files.now) known.now first.now key.now
        V.grammar V.refusal result }
{
    each_is_listed();
    let key = match Key::parse(key.as_bytes()) {
        Ok(key) => key,
        Err(error) => return Err(NoValue::Key(error)),
    };
    let settings = match read_all(alloc, files, known, first) {
        Ok(settings) => settings,
        Err(error) => return Err(NoValue::Stops(error)),
    };
    let Some(setting) = settings.last(&key) else {
        return Ok(None);
    };
    let fault = match setting.read() {
        Ok(value) => return Ok(Some(value)),
        Err(refused) => refused.fault,
    };
    match Vec::from_slice(alloc, setting.text()) {
        Ok(text) => Err(NoValue::Refused {
            file: setting.file,
            line: setting.entry.line,
            text,
            fault,
        }),
        Err(error) => Err(NoValue::Stops(AddError::Memory(error))),
    }
}
