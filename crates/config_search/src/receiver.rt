//! What gets the entries that Git reads.
ghost use Rattle.std.specs.Prelude.{OnOk};
ghost use Rattle.config_file.specs.Reading.Ends.{FitsEntry};
ghost use Rattle.config_file.specs.Views.{entry_of};
ghost use Rattle.config_search.specs.Reads.{ReadEntry, with_scope};

use config_file::entry::EntryForm;
use config_file::{Entry, Scope};
use std::io;

/// What gets the entries that Git reads, one after the other.
///
/// ```rust
/// use config_file::entry::EntryForm;
/// use config_file::{Entries, Scope};
/// use config_search::Receiver;
/// use config_search::settings::Collector;
///
/// let entry = Entries::new(b"[a]b").next().expect(&rt, "an entry").expect(&rt, "no error");
/// let mut collector = Collector::new(alloc);
/// collector.receive(Scope::Local, b"config", &entry, EntryForm::Marked)?;
/// assert_eq!(rt; collector.settings.entries.len(), 1);
/// ```
pub trait Receiver<'t> {
    /// What it may become as it gets an entry.
    ghost receives: { Self → ReadEntry → Self → Type 0 };

    /// Gets an entry of a file, which is written in this form. It fails only if memory or the system refuses it.
    fn receive(
        &mut self,
        scope: Scope,
        file: &'t [u8],
        entry: &Entry<'t>,
        form: EntryForm,
    ) -> io::Result<()>
        requires fits { FitsEntry form (entry_of entry.now) }
        ensures { OnOk result (receives self.old (with_scope scope (file.now, entry_of entry.now)) self.new) };
}
