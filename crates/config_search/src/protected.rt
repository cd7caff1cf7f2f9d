//! The settings that no repository can change, which decide whether Git uses one: those of the system, of the user and of
//! the command. No repository is known to their conditions.
ghost use Rattle.std.specs.Prelude.{◌≡◌, [], MatchResult};
ghost use Rattle.config_search.specs.System.{System, AreTrueIn};
ghost use Rattle.config_search.specs.Protected.{IsKnown};
ghost use Rattle.config_search.specs.Shown.{IsNew};
ghost use Rattle.config_search.specs.Stages.{Collects};

use crate::VARIABLE;
use crate::fact::{Lookup, Pause, answer_to};
use crate::receiver::Receiver;
use config_file::entry::EntryForm;
use config_file::{Directories, Entry, Includes, Known, Scope, Setting, Settings, Urls};
use std::alloc::Global;
use std::io;

/// What conditions know outside of a repository, before the URLs of remotes are sought.
pub(crate) fn outside<'t>(lookup: &Lookup<'_, 't>) -> Result<Known<'t>, Pause>
    ensures { MatchResult result
        (λ known. (system : System) → AreTrueIn system lookup.now.facts.now → IsKnown system known)
        (IsNew lookup.now.folder.now lookup.now.facts.now) }
{
    let directories = Directories {
        home: answer_to(lookup, VARIABLE, b"HOME")?,
        install_dir: None,
    };
    Ok(Known {
        directories,
        includes: Includes::AsGit(None, Urls::Known(&[])),
    })
}

/// The settings of the entries that are read.
#[derive(Drop)]
pub(crate) struct Collected<'t> {
    alloc: Global,
    pub settings: Settings<'t>,
}

impl<'t> Collected<'t> {
    /// None.
    pub fn new(alloc: Global) -> Collected<'t>
        ensures { result.settings.entries.items ≡ [] }
    {
        Collected {
            alloc,
            settings: Settings::new(alloc),
        }
    }
}

impl<'t> Receiver<'t> for Collected<'t> {
    ghost receives = { Collects };

    fn receive(
        &mut self,
        scope: Scope,
        file: &'t [u8],
        entry: &Entry<'t>,
        form: EntryForm,
    ) -> io::Result<()> {
        let setting = Setting::of_form(self.alloc, scope, file, *entry, form)?;
        self.settings.entries.push(setting)?;
        Ok(())
    }
}
