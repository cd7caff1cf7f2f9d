//! A setting of a repository, from the files of the system, the user and the repository.
ghost use Rattle.std.specs.Prelude.{◌≡◌, IfOk, MatchResult, Option, Ok, Err};
ghost use Rattle.config_boolean.specs.declared.boolean.Boolean as value;
ghost use Rattle.config_file.specs.Settings.{AreListed};
ghost use Rattle.uses.specs.Repository.{or_false, GetsBare};

use config_file::laws::settings::added_are_listed;
use config_file::settings::GetError;
use config_file::{AddError, Scope, Settings};
use gix_config_value::Boolean;
use std::alloc::Global;

/// A configuration file: its name, for refusals, and its bytes.
///
/// ```rust
/// use config_file::Key;
/// use gix_config_value::path::interpolate::{Context, absent};
/// use uses::repository::{File, read};
///
/// let bytes = b"[core]\n\texcludesFile = ~/ignore\n[branch \"Main\"]\n\tmerge = a\n\tmerge = b\n";
/// let settings = read(alloc, &[File { name: "user", bytes }])?;
/// let key = Key::parse(b"branch.Main.merge")?;
/// assert_eq!(rt; settings.all(alloc, &key)?.len(), 2);
/// assert!(rt; settings.last(&key).ok_or("no entry")?.text() == b"b".as_slice());
///
/// let context = Context {
///     git_install_dir: None,
///     home_dir: Some("/home/ann"),
///     home_for_user: absent(|_name: &str| None),
/// };
/// let ignore = settings.last(&Key::parse(b"core.excludesfile")?).ok_or("no path")?;
/// let (_, parts) = ignore.path(context)?;
/// assert_eq!(rt; parts.to_text(alloc)?.as_str(), "/home/ann/ignore");
/// ```
#[derive(Clone, Copy)]
pub struct File<'a> {
    pub name: &'a str,
    pub bytes: &'a [u8],
}

/// Reads the settings of files. A later file decides over an earlier one. It fails at the first invalid line.
/// Git lists each of the settings, which is what `is_bare` asks for.
///
/// ```rust
/// use gix_config_value::Fault;
/// use gix_config_value::integer::Amount;
/// use uses::repository::{File, read};
///
/// let name = "user";
/// let settings = read(alloc, &[File { name, bytes: b"[pack]\n\tmemory = 512M\n\tlimit = 08 ; octal\n" }])?;
/// assert!(rt; settings.get::<Amount>("PACK.memory")? == Some(Amount(536_870_912)));
/// let told = match settings.get::<Amount>("pack.limit") {
///     Err(error) => error.to_string(alloc)?,
///     Ok(_) => String::new(alloc),
/// };
/// let wanted = format!(in alloc; "user:3: pack.limit: {}: \"08\"", Fault::Integer.text())?;
/// assert_eq!(rt; told.as_str(), wanted.as_str());
///
/// let told = match read(alloc, &[File { name, bytes: b"[a]\n\tb = c\n[" }]) {
///     Err(error) => error.to_string(alloc)?,
///     Ok(_) => String::new(alloc),
/// };
/// assert_eq!(rt; told.as_str(), "user:4: bad config line");
/// ```
pub fn read<'a>(alloc: Global, files: &[File<'a>]) -> Result<Settings<'a>, AddError<'a>>
    ensures { IfOk result (λ settings. AreListed settings.entries.items) }
{
    added_are_listed();
    let mut settings = Settings::new(alloc);
    for file in files {
        settings.add_file(alloc, Scope::Local, file.name.as_bytes(), file.bytes)?;
    }
    Ok(settings)
}

/// Whether the repository is bare. The last `core.bare` decides, ignoring ASCII case. A key alone is true. An
/// empty text is false, and so is the result if there is no entry.
///
/// ```rust
/// use uses::repository::{File, is_bare, read};
///
/// let system = File { name: "system", bytes: b"[core]\n\tbare = no\n" };
/// let own = File { name: "repository", bytes: b"[Core]\n\tbare\n[branch \"Main\"]\n\trebase =\n" };
/// let settings = read(alloc, &[system, own])?;
/// assert!(rt; is_bare(&settings)?);
/// for (key, wanted) in [("branch.Main.rebase", Some(Boolean(false))), ("branch.main.rebase", None)] {
///     assert!(rt; settings.get::<Boolean>(key)? == wanted);
/// }
/// ```
pub fn is_bare<'s, 't>(settings: &'s Settings<'t>) -> Result<bool, GetError<'s, 't>>
    ensures { AreListed settings.now.entries.items → MatchResult result
        (λ bare. (found : Option value.Boolean) × GetsBare settings.now.entries.items (Ok found)
        × (bare ≡ or_false found))
        (λ error. GetsBare settings.now.entries.items (Err error)) }
{
    match settings.get("core.bare") {
        Ok(Some(Boolean(bare))) => Ok(bare),
        Ok(None) => Ok(false),
        Err(error) => Err(error),
    }
}
