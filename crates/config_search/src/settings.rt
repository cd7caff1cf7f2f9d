//! Keeps the settings that Git reads.
ghost use Rattle.std.specs.Prelude.{◌≡◌, [], IfOk};
ghost use Rattle.config_search.specs.System.{System, AreTrueIn};
ghost use Rattle.config_search.specs.Collecting.{AreSettingsHere, Collects};

use crate::fact::Fact;
use crate::halt::Halt;
use crate::known::Follows;
use crate::reading::Reading;
use crate::receiver::Receiver;
use config_file::entry::EntryForm;
use config_file::{Entry, Scope, Setting, Settings};
use std::alloc::Global;
use std::io;

/// What keeps each entry as a setting, for a reading that hands them on.
///
/// ```rust
/// use config_file::{Key, Scope};
/// use config_search::settings::Collector;
/// use config_search::{Follows, Reading, Text};
///
/// let mut texts = Vec::new(alloc);
/// texts.push(Text { scope: Scope::Local, name: b"config", text: b"[user]\n\tname = A", is_file: true })?;
/// let mut collector = Collector::new(alloc);
/// assert!(rt; Reading::of_texts(alloc, b"", b"", texts, Follows::Nothing).read(&mut collector).is_ok());
/// let name = collector.settings.last(&Key::parse(b"user.name")?).expect(&rt, "a setting");
/// assert_eq!(rt; name.text(), b"A".as_slice());
/// ```
#[derive(Drop)]
pub struct Collector<'t> {
    /// What gives the memory for them.
    pub alloc: Global,
    /// Those that are kept.
    pub settings: Settings<'t>,
}

impl<'t> Collector<'t> {
    /// Nothing is kept.
    pub fn new(alloc: Global) -> Collector<'t>
        ensures { result.settings.entries.items ≡ [] }
    {
        Collector {
            alloc,
            settings: Settings::new(alloc),
        }
    }
}

impl<'t> Receiver<'t> for Collector<'t> {
    ghost receives = { Collects };

    fn receive(
        &mut self,
        scope: Scope,
        file: &'t [u8],
        entry: &Entry<'t>,
        form: EntryForm,
    ) -> io::Result<()> {
        let setting = Setting::of_form(self.alloc, scope, file, *entry, form)?;
        Ok(self.settings.entries.push(setting)?)
    }
}

/// All settings that Git reads in this folder, in order, where these are the facts. It stops with a question that none of
/// them answers, where Git stops, and where memory is refused.
///
/// ```rust
/// use config_file::Why;
/// use config_search::settings::settings_of;
/// use config_search::{Fact, Halt, LEADS, VARIABLE};
///
/// let mut facts = Vec::new(alloc);
/// for name in ["PWD", "GIT_CONFIG_NOSYSTEM", "GIT_CONFIG_SYSTEM", "GIT_CONFIG_GLOBAL", "XDG_CONFIG_HOME", "HOME"] {
///     facts.push(Fact { name: name.as_bytes(), text: b"", subject: VARIABLE, has: 0 })?; // it is not set
/// }
/// facts.push(Fact { name: b"gone", text: b"", subject: LEADS, has: 0 })?; // there is no such folder
/// let read = settings_of(alloc, b"gone", &facts);
/// assert!(rt; matches!(read, Err(Halt::Stops(stop)) if stop.why == Why::NoFolder));
/// ```
pub fn settings_of<'t>(
    alloc: Global,
    folder: &'t [u8],
    facts: &[Fact<'t>],
) -> Result<Settings<'t>, Halt>
    ensures { IfOk result (λ settings. (system : System) → AreTrueIn system facts.now
        → AreSettingsHere system folder.now settings) }
{
    let mut reading = Reading::here(alloc, folder, Follows::AsGit);
    'facts: for fact in facts {
        reading.tell(*fact)?;
    }
    let mut collector = Collector::new(alloc);
    reading.read(&mut collector)?;
    Ok(collector.settings)
}
