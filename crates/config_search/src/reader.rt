//! Reads a text of settings with what it includes, an entry at a time. Where an entry includes a file of which no fact
//! tells, it waits, and goes on there once one does.
ghost use Rattle.std.specs.Prelude.{◌≡◌, ◌-◌, ◌||◌, [], List, ℕ, None, IfErr, IfOk, OnOk, MatchResult, codes, drop, length, option_copied};
ghost use Rattle.config_file.specs.File.{Entry as EntryOf};
ghost use Rattle.config_file.specs.Settings.{HoldsContent};
ghost use Rattle.config_file.specs.declared.errors.Why.TheVariants.{Relative, TooDeep, Unreadable};
ghost use Rattle.config_file.specs.declared.walk.Known.{Known as KnownOf};
ghost use Rattle.config_search.specs.System.{System, AreTrueIn};
ghost use Rattle.config_search.specs.Names.{begins, inside};
ghost use Rattle.config_search.specs.Reads.{Holds, HoldsFor, IsDirOf, shown_reason};
ghost use Rattle.config_search.specs.Reading.{GoesOn, GoesThrough, HasCome, IsLost, ReadsNext, ReadsPlain, StepsOn, StopsHere, in_one};
ghost use Rattle.config_search.specs.Shown.{AsksNothing, IsNew, IsNewHalt};
ghost use Rattle.config_search.specs.declared.TheConstants.{REFUSAL as REFUSAL_OF};

use crate::fact::{Lookup, Pause, answer_in, answer_of, fact_in};
use crate::halt::{Halt, stop};
use crate::includes::has_include;
use crate::name::{dir_of, joined};
use crate::receiver::Receiver;
use crate::{INCLUDED, REAL, REFUSAL};
use config_file::entry::EntryForm;
use config_file::walk::include_of;
use config_file::{
    Content, Entries, Entry, FilePlace, Frame, Include, Known, Scope, Step, Stop, Walk, Why,
};
use std::alloc::{AllocError, Global};

/// A text of settings, and where Git has it from.
#[derive(Clone, Copy)]
pub(crate) struct Source<'t> {
    pub scope: Scope,
    pub place: FilePlace<'t>,
    pub text: &'t [u8],
    /// Whether it is the text of a file, so that what it includes may begin in a folder.
    pub is_file: bool,
}

/// An entry that is read, and includes the file of this name.
#[derive(Drop)]
struct Waits<'t> {
    place: FilePlace<'t>,
    entry: Entry<'t>,
    name: Vec<u8>,
}

/// A text that is being read.
#[derive(Drop)]
pub(crate) struct Reader<'t> {
    source: Source<'t>,
    walk: Walk<'t>,
    /// The last entry, if it is not known yet what its file holds.
    waits: Option<Waits<'t>>,
}

/// The end of a name, which has as many bytes as another one.
pub(crate) fn end_of<'a>(name: &'a [u8], end: &[u8]) -> &'a [u8]
    ensures { result.now ≡ drop (length name.now - length end.now) name.now }
{
    &name[name.len().saturating_sub(end.len())..]
}

/// Why the text of a file in a folder is not read, or `None` if there is no such file.
pub(crate) fn refusal_in<'t>(
    lookup: &Lookup<'_, 't>,
    folder: &[u8],
    name: &[u8],
) -> Result<Option<&'t [u8]>, Pause>
    ensures { MatchResult result
        (λ refusal. (system : System) → AreTrueIn system lookup.now.facts.now
        → option_copied refusal ≡ system REFUSAL_OF (inside folder.now name.now))
        (IsNew lookup.now.folder.now lookup.now.facts.now) }
{
    Ok(answer_in(lookup, REFUSAL, folder, name)?)
}

/// The words of such a reason.
pub(crate) fn words_of(reason: &[u8]) -> &[u8]
    ensures { result.now ≡ shown_reason reason.now }
{
    if reason == b"denied".as_slice() {
        return b"Permission denied";
    }
    reason
}

/// The folder without links of a file in a folder that has this text, if a condition in it may ask for that.
pub(crate) fn dir_in<'t>(
    lookup: &Lookup<'_, 't>,
    folder: &[u8],
    name: &[u8],
    text: &[u8],
) -> Result<&'t [u8], Pause>
    ensures { MatchResult result
        (λ dir. (system : System) → AreTrueIn system lookup.now.facts.now
        → IsDirOf system folder.now name.now text.now dir.now)
        (IsNew lookup.now.folder.now lookup.now.facts.now) }
{
    if !has_include(text) {
        return Ok(b"");
    }
    match answer_in(lookup, REAL, folder, name)? {
        Some(real) => Ok(dir_of(real)),
        None => Ok(b"\0"),
    }
}

/// What the file of this name in a folder holds, if an entry includes it.
fn content_of<'t>(lookup: &Lookup<'_, 't>, folder: &[u8], name: &[u8]) -> Result<Content<'t>, Pause>
    ensures { MatchResult result
        (λ content. (system : System) → AreTrueIn system lookup.now.facts.now
        → HoldsContent (Holds system folder.now) name.now content)
        (IsNew lookup.now.folder.now lookup.now.facts.now) }
{
    let fact = fact_in(lookup, INCLUDED, folder, name)?;
    if let Some(text) = answer_of(&fact) {
        let place = FilePlace {
            name: end_of(fact.name, name),
            real_dir: dir_in(lookup, folder, name, text)?,
        };
        return Ok(Content::Text(place, text));
    }
    match refusal_in(lookup, folder, name)? {
        None => Ok(Content::Missing),
        Some(_) => Ok(Content::Unreadable("")),
    }
}

/// Whether a text may include the file of this name. One that is of no file includes only what is named from the root.
fn may_include(is_file: bool, name: &[u8]) -> bool
    ensures { result ≡ (is_file || begins (codes "/") name.now) }
{
    is_file || name.starts_with(b"/")
}

impl Waits<'_> {
    /// Where Git stops, since this is no entry of a file, and the name of what it includes does not begin at the root.
    fn of_no_file(&self, alloc: Global) -> Result<Halt, AllocError>
        ensures asks { IfOk result AsksNothing }
        ensures stops { IfOk result (StopsHere self.now.place.name.now self.now.entry.line Relative) }
    {
        let at = Stop::at(self.place.name, self.entry.line, Why::Relative);
        stop(alloc, at)
    }

    /// Where Git stops, since the file is included too deep.
    fn too_deep(&self, alloc: Global) -> Result<Halt, AllocError>
        ensures asks { IfOk result AsksNothing }
        ensures stops { IfOk result (StopsHere self.now.place.name.now self.now.entry.line TooDeep) }
    {
        let at = Stop::at(self.place.name, self.entry.line, Why::TooDeep);
        stop(alloc, at)
    }

    /// Where Git stops, since the file is there, and is not read.
    fn not_read(&self, lookup: &Lookup<'_, '_>, folder: &[u8]) -> Result<Halt, Pause>
        ensures asks { MatchResult result AsksNothing (IsNew lookup.now.folder.now lookup.now.facts.now) }
        ensures stops { IfOk result (StopsHere self.now.place.name.now self.now.entry.line Unreadable) }
    {
        let alloc = lookup.alloc;
        let why = words_of(refusal_in(lookup, folder, &self.name)?.unwrap_or_default());
        let front = joined(alloc, b"cannot read ", &self.name, b": ")?;
        let words = joined(alloc, &front, why, b"")?;
        let at = Stop {
            file: self.place.name,
            line: self.entry.line,
            why: Why::Unreadable,
            words: words.as_slice(),
        };
        Ok(stop(alloc, at)?)
    }
}

/// Hands on the entries of a file as far as they include none. Returns what is left of the file.
fn read_plain<'t, R: Receiver<'t>>(
    alloc: Global,
    known: &Known<'_>,
    scope: Scope,
    place: FilePlace<'t>,
    entries: Entries<'t>,
    receiver: &mut R,
) -> Result<Entries<'t>, Halt>
    ensures reads { IfOk result (λ left. ReadsPlain known.now R.receives scope
        (in_one place.entry entries.entry) (in_one place.entry left) receiver.old receiver.new) }
    ensures lost { IfErr result IsLost }
{
    let mut left = entries;
    'plain: for _ in 0..u64::MAX {
        let (section, line, rest) = left.parts();
        if let Some(form) = left.advance() {
            match form {
                EntryForm::Refused => {}
                form => {
                    let entry = left.entry(form);
                    if let Include::NotFollowed = include_of(alloc, known, place, &entry)? {
                        match receiver.receive(scope, place.name, &entry, form) {
                            Ok(()) => continue 'plain,
                            Err(error) => return Err(Halt::Fails(error)),
                        }
                    }
                }
            }
        }
        match Entries::resume(section, line, rest) {
            Some(same) => return Ok(same),
            None => return Err(Halt::from(AllocError)),
        }
    }
    Err(Halt::from(AllocError))
}

/// Hands on the entries of the first file of a walk as far as they include none, if the walk is in no other file. A walk
/// copies what is left of its last file at each step, which takes longer.
fn read_first<'t, R: Receiver<'t>>(
    alloc: Global,
    known: &Known<'_>,
    scope: Scope,
    walk: &mut Walk<'t>,
    receiver: &mut R,
) -> Result<(), Halt>
    ensures reads { OnOk result (ReadsPlain known.now R.receives scope walk.old.frames.items walk.new.frames.items
        receiver.old receiver.new) }
    ensures lost { IfErr result IsLost }
{
    let [frame] = walk.frames() else {
        return Ok(());
    };
    let place = frame.place;
    let (section, line, rest) = frame.entries.parts();
    let Some(entries) = Entries::resume(section, line, rest) else {
        return Err(Halt::from(AllocError));
    };
    let entries = read_plain(alloc, known, scope, place, entries, receiver)?;
    let mut first = Walk::default();
    if !first.go_on(Frame {
        place,
        entries,
        forbids_urls: false,
    }) {
        return Err(Halt::from(AllocError));
    }
    *walk = first;
    Ok(())
}

impl<'t> Reader<'t> {
    /// Nothing of this text is read.
    pub fn new(source: Source<'t>) -> Reader<'t>
        ensures source { result.source ≡ source.entry }
        ensures begins { (system : System) (folder : List ℕ) (known : KnownOf)
            → HasCome (HoldsFor system folder source.entry.is_file) known result [] }
    {
        Reader {
            source,
            walk: Walk::new(source.place, source.text),
            waits: None,
        }
    }

    /// The same in a box. It fails only if memory is refused.
    pub fn boxed(alloc: Global, source: Source<'t>) -> Result<Box<Reader<'t>>, AllocError>
        ensures source { IfOk result (λ reader. reader.value.source ≡ source.entry) }
        ensures begins { IfOk result (λ reader. (system : System) (folder : List ℕ) (known : KnownOf)
            → HasCome (HoldsFor system folder source.entry.is_file) known reader.value []) }
    {
        Ok(Box::new(alloc, Reader::new(source))?)
    }

    /// Goes on behind the entry that waits, in the file that it includes if there is one. Names begin in this folder.
    fn go_on(&mut self, lookup: &Lookup<'_, 't>, folder: &[u8]) -> Result<(), Halt>
        ensures goes { OnOk result (self.new.waits ≡ None) }
        ensures keeps { (system : System) (known : KnownOf) (found : List (List ℕ × EntryOf))
            → AreTrueIn system lookup.now.facts.now
            → HasCome (HoldsFor system folder.now self.old.source.is_file) known self.old found
            → GoesOn (HoldsFor system folder.now self.old.source.is_file) known self.new found result }
        ensures asks { IfErr result (IsNewHalt lookup.now.folder.now lookup.now.facts.now) }
        ensures source { self.new.source ≡ self.old.source }
    {
        let Some(waits) = &self.waits else {
            return Ok(());
        };
        if !may_include(self.source.is_file, &waits.name) {
            return Err(waits.of_no_file(lookup.alloc)?);
        }
        match content_of(lookup, folder, &waits.name)? {
            Content::Missing => {}
            Content::Unreadable(_) => return Err(waits.not_read(lookup, folder)?),
            Content::Text(place, text) => {
                if !self.walk.enter(place, text) {
                    return Err(waits.too_deep(lookup.alloc)?);
                }
            }
        }
        self.waits = None;
        Ok(())
    }

    /// Hands on the next entry, and returns false at the end of the text.
    fn read_next<R: Receiver<'t>>(
        &mut self,
        alloc: Global,
        known: &Known<'_>,
        receiver: &mut R,
    ) -> Result<bool, Halt>
        requires { self.old.waits ≡ None }
        ensures reads { ReadsNext known.now R.receives self.old self.new receiver.old receiver.new result }
        ensures asks { IfErr result AsksNothing }
        ensures source { self.new.source ≡ self.old.source }
    {
        let (place, entry, include) = match self.walk.next(alloc, known)? {
            Step::Entry(place, entry, include) => (place, entry, include),
            Step::Line(place, error) => {
                return Err(stop(alloc, Stop::at(place.name, error.line, error.why))?);
            }
            Step::Ends => return Ok(false),
        };
        let (file, line) = (place.name, entry.line);
        // a walk does not tell how an entry is written, and this fits each
        match receiver.receive(self.source.scope, file, &entry, EntryForm::Marked) {
            Ok(()) => {}
            Err(error) => return Err(Halt::Fails(error)),
        }
        let why = match include {
            Include::NotFollowed => return Ok(true),
            Include::Named(name) => {
                self.waits = Some(Waits { place, entry, name });
                return Ok(true);
            }
            Include::MissingValue => Why::NoValue,
            Include::UnknownDirectory => Why::UnknownDirectory,
            Include::ForbiddenUrl => Why::ForbiddenUrl,
        };
        Err(stop(alloc, Stop::at(file, line, why))?)
    }

    /// Hands on entries up to one that may include a file, and returns false at the end of the text. Names begin in this
    /// folder.
    #[inline(always)]
    fn step<R: Receiver<'t>>(
        &mut self,
        lookup: &Lookup<'_, 't>,
        folder: &[u8],
        known: &Known<'_>,
        receiver: &mut R,
    ) -> Result<bool, Halt>
        ensures reads { StepsOn lookup.now.facts.now folder.now known.now R.receives self.old self.new
            receiver.old receiver.new result }
        ensures asks { IfErr result (IsNewHalt lookup.now.folder.now lookup.now.facts.now) }
        ensures source { self.new.source ≡ self.old.source }
    {
        match self.go_on(lookup, folder) {
            Ok(()) => {}
            Err(halt) => return Err(halt),
        }
        read_first(
            lookup.alloc,
            known,
            self.source.scope,
            &mut self.walk,
            receiver,
        )?;
        match self.read_next(lookup.alloc, known, receiver) {
            Ok(goes) => Ok(goes),
            Err(halt) => Err(halt),
        }
    }

    /// Hands on the entries of the text and of what it includes, from where it has come, to the end. Names begin in this
    /// folder.
    pub fn read<R: Receiver<'t>>(
        &mut self,
        lookup: &Lookup<'_, 't>,
        folder: &[u8],
        known: &Known<'_>,
        receiver: &mut R,
    ) -> Result<(), Halt>
        ensures reads { GoesThrough lookup.now.facts.now folder.now known.now R.receives self.old self.new
            receiver.old receiver.new result }
        ensures asks { IfErr result (IsNewHalt lookup.now.folder.now lookup.now.facts.now) }
        ensures source { self.new.source ≡ self.old.source }
    {
        'steps: for _ in 0..u64::MAX {
            let goes = match self.step(lookup, folder, known, receiver) {
                Ok(goes) => goes,
                Err(halt) => return Err(halt),
            };
            if !goes {
                return Ok(());
            }
        }
        Err(Halt::from(AllocError))
    }
}
