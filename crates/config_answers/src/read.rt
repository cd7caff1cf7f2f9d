//! Hands on the settings that are asked for, of the entries that Git reads.
ghost use Rattle.std.specs.Prelude.{◌≡◌, ◌++◌, ◌∷◌, [], OnOk};
ghost use Rattle.config_file.specs.Reading.Ends.{FitsEntry};
ghost use Rattle.config_file.specs.Views.{entry_of};
ghost use Rattle.config_file.specs.declared.settings.Setting as code;
ghost use Rattle.config_answers.specs.Choices.{choice_of};
ghost use Rattle.config_answers.specs.Given.{Gives, GivesValue, Passes};

use crate::choice::{Choice, bytes_of};
use config_file::entry::EntryForm;
use config_file::{Entry, Scope, Setting};
use config_search::Receiver as EntryReceiver;
use std::alloc::Global;
use std::io;

/// What gets the settings that are asked for, one after the other.
///
/// ```rust
/// use config_answers::read::Receiver;
/// use config_file::{Entries, Setting};
///
/// let entry = Entries::new(b"[a]b").next().expect(&rt, "an entry").expect(&rt, "no error");
/// let mut found = Vec::new(alloc);
/// found.receive(Setting::of_entry(alloc, b"config", entry)?)?;
/// assert_eq!(rt; found.len(), 1);
/// ```
pub trait Receiver<'t> {
    /// What it may become as it gets a setting.
    ghost receives: { Self → code.Setting → Self → Type 0 };

    /// Gets a setting. It fails only if memory or the system refuses it.
    fn receive(&mut self, setting: Setting<'t>) -> io::Result<()>
        ensures { OnOk result (receives self.old setting.entry self.new) };
}

impl<'t> Receiver<'t> for Vec<Setting<'t>> {
    ghost receives = { λ old setting new. new.items ≡ old.items ++ setting ∷ [] };

    fn receive(&mut self, setting: Setting<'t>) -> io::Result<()> {
        Ok(self.push(setting)?)
    }
}

impl Choice<'_, '_> {
    /// Hands on the setting of an entry of this form whose key is asked for, if its value is.
    #[inline(always)]
    fn give_value<'t, R: Receiver<'t>>(
        &mut self,
        alloc: Global,
        scope: Scope,
        file: &'t [u8],
        entry: Entry<'t>,
        form: EntryForm,
        receiver: &mut R,
    ) -> io::Result<()>
        requires fits { FitsEntry form (entry_of entry) }
        ensures gives { OnOk result (GivesValue R.receives (choice_of self.old) scope
            (file.now, entry_of entry.entry) receiver.old receiver.new) }
        ensures same { choice_of self.new ≡ choice_of self.old }
    {
        let setting = Setting::of_form(alloc, scope, file, entry, form)?;
        if !self.has_value(bytes_of(&setting)) {
            return Ok(());
        }
        receiver.receive(setting)
    }

    /// Hands on the setting of an entry of this form, if it is asked for.
    #[inline(always)]
    fn give<'t, R: Receiver<'t>>(
        &mut self,
        alloc: Global,
        scope: Scope,
        file: &'t [u8],
        entry: &Entry<'t>,
        form: EntryForm,
        receiver: &mut R,
    ) -> io::Result<()>
        requires fits { FitsEntry form (entry_of entry.now) }
        ensures gives { OnOk result
            (Gives R.receives (choice_of self.old) scope (file.now, entry_of entry.now) receiver.old receiver.new) }
        ensures same { choice_of self.new ≡ choice_of self.old }
    {
        if !self.has_key(entry)? {
            return Ok(());
        }
        self.give_value(alloc, scope, file, *entry, form, receiver)
    }
}

/// What gets entries, and hands on the settings that are asked for.
///
/// ```rust
/// use config_answers::choice::{Choice, Keys};
/// use config_answers::read::Asked;
/// use config_file::Scope;
/// use config_search::{Follows, Reading, Text};
///
/// let choice = Choice {
///     keys: Keys::All,
///     fixed: Some(b"1"),
///     values: None,
///     is_negated: false,
///     listed: Vec::new(alloc),
/// };
/// let mut asked = Asked { alloc, choice, receiver: Vec::new(alloc) };
/// let mut texts = Vec::new(alloc);
/// texts.push(Text { scope: Scope::Local, name: b"config", text: b"[a]\n\tb = 1\n\tc = 2\n", is_file: true })?;
/// let mut reading = Reading::of_texts(alloc, b"", b"", texts, Follows::Nothing);
/// assert!(rt; reading.read(&mut asked).is_ok());
/// assert_eq!(rt; asked.receiver.len(), 1); // of a.b
/// ```
#[derive(Drop)]
pub struct Asked<'k, 'p, R: Drop> {
    /// What gives the memory for settings.
    pub alloc: Global,
    /// Which settings are asked for.
    pub choice: Choice<'k, 'p>,
    /// What gets them.
    pub receiver: R,
}

impl<'t, R: Receiver<'t> + Drop> EntryReceiver<'t> for Asked<'_, '_, R> {
    ghost receives = { Passes R.receives };

    #[inline(always)]
    fn receive(
        &mut self,
        scope: Scope,
        file: &'t [u8],
        entry: &Entry<'t>,
        form: EntryForm,
    ) -> io::Result<()> {
        self.choice
            .give(self.alloc, scope, file, entry, form, &mut self.receiver)
    }
}
