//! Reads texts as Git does: where a condition asks about the URLs of remotes, once to find that out, once for the URLs, and
//! then once more.
ghost use Rattle.std.specs.Prelude.{◌≡◌, ◌++◌, ◌||◌, ◌&&◌, [], ℕ, List, Bool, Option, None, IfErr, IfOk, OnOk, map, option_map};
ghost use Rattle.std.specs.List.{list_any};
ghost use Rattle.config_file.specs.Views.{entry_of};
ghost use Rattle.config_search.specs.System.{System};
ghost use Rattle.config_search.specs.Reads as reads;
ghost use Rattle.config_search.specs.Reads.{End, HasUrlCondition, IsUrlOf};
ghost use Rattle.config_search.specs.Reading.{AreSame, EndsAs, EndsTexts, FindsCondition, FindsConditions, FindsUrl, GoesRound, GoesRounds, InRounds, IsAfter, IsAsked, IsReaderOf, KeepsRounds, ReadsByUrls, SeeksRounds, text_of};
ghost use Rattle.config_search.specs.Shown.{AsksNothing, IsNew, IsNewHalt};

use crate::fact::{Lookup, Pause};
use crate::halt::{Halt, same_stop};
use crate::includes::has_include;
use crate::name::{after, push};
use crate::reader::{Reader, Source};
use crate::receiver::Receiver;
use crate::texts::Texts;
use config_file::entry::EntryForm;
use config_file::{Entry, Includes, Known, Scope, Urls, is_remote_url};
use std::alloc::{AllocError, Global};
use std::{io, mem};

/// Whether an entry has a condition on the URLs of remotes.
fn has_url_condition(alloc: Global, entry: &Entry<'_>) -> Result<bool, AllocError>
    ensures { IfOk result (HasUrlCondition (entry_of entry.now)) }
{
    let Some(section) = &entry.section else {
        return Ok(false);
    };
    let Some(subsection) = &section.subsection else {
        return Ok(false);
    };
    if !section.name.eq_ignore_ascii_case(b"includeif") {
        return Ok(false);
    }
    let mut text = Vec::new(alloc);
    subsection.push_text(&mut text)?;
    match after(b"hasconfig:remote.*.url:", &text) {
        Some(_) => Ok(true),
        None => Ok(false),
    }
}

/// The URL of a remote that an entry has, if it has one.
fn url_of(alloc: Global, entry: &Entry<'_>) -> Result<Option<Vec<u8>>, AllocError>
    ensures { IfOk result (λ url. IsUrlOf (entry_of entry.now) (option_map (λ text. text.items) url)) }
{
    let Some(value) = &entry.value else {
        return Ok(None);
    };
    if !is_remote_url(entry) {
        return Ok(None);
    }
    Ok(Some(value.to_vec(alloc)?))
}

/// Whether one of the entries has a condition on the URLs of remotes.
#[derive(Drop)]
struct Conditions {
    alloc: Global,
    has: bool,
}

impl<'t> Receiver<'t> for Conditions {
    ghost receives = { FindsCondition };

    fn receive(
        &mut self,
        _scope: Scope,
        _file: &'t [u8],
        entry: &Entry<'t>,
        _form: EntryForm,
    ) -> io::Result<()> {
        if has_url_condition(self.alloc, entry)? {
            self.has = true;
        }
        Ok(())
    }
}

/// The URLs of remotes that the entries have.
#[derive(Drop)]
struct Remotes {
    alloc: Global,
    urls: Vec<Vec<u8>>,
}

impl<'t> Receiver<'t> for Remotes {
    ghost receives = { FindsUrl };

    fn receive(
        &mut self,
        _scope: Scope,
        _file: &'t [u8],
        entry: &Entry<'t>,
        _form: EntryForm,
    ) -> io::Result<()> {
        if let Some(url) = url_of(self.alloc, entry)? {
            self.urls.push(url)?;
        }
        Ok(())
    }
}

/// What a reading of all texts has come to.
#[derive(Drop)]
struct Round<'t> {
    /// How many texts are read.
    done: usize,
    /// The next one, if it is begun. A reader is long, and this is moved often, so that it is in a box.
    reader: Option<Box<Reader<'t>>>,
}

/// Where Git stops behind texts, if it does.
fn check_end(alloc: Global, texts: &Texts<'_>) -> Result<(), Halt>
    ensures ends { (opened : End) → EndsAs texts.now.stop opened → EndsTexts opened result }
    ensures asks { IfErr result AsksNothing }
{
    let Some(stop) = &texts.stop else {
        return Ok(());
    };
    Err(Halt::Stops(same_stop(alloc, stop)?))
}

/// This reader, or one of which nothing is read if there is none.
fn or_new<'t>(
    alloc: Global,
    reader: Option<Box<Reader<'t>>>,
    source: &Source<'t>,
) -> Result<Box<Reader<'t>>, AllocError>
    ensures { IfOk result (IsReaderOf reader.entry source.now) }
{
    match reader {
        Some(reader) => Ok(reader),
        None => Reader::boxed(alloc, *source),
    }
}

impl<'t> Round<'t> {
    /// Nothing is read.
    fn new() -> Round<'t>
        ensures { (result.done ≡ 0) × (result.reader ≡ None) }
    {
        Round {
            done: 0,
            reader: None,
        }
    }

    /// Hands on the entries of the texts from where it has come, to the end. Names begin in this folder.
    fn read<R: Receiver<'t>>(
        &mut self,
        lookup: &Lookup<'_, 't>,
        start: &[u8],
        known: &Known<'_>,
        texts: &Texts<'t>,
        receiver: &mut R,
    ) -> Result<(), Halt>
        ensures reads { GoesRound lookup.now.facts.now start.now known.now texts.now R.receives self.old self.new
            receiver.old receiver.new result }
        ensures asks { IfErr result (IsNewHalt lookup.now.folder.now lookup.now.facts.now) }
    {
        'texts: for _ in 0..u64::MAX {
            let Some(source) = texts.list.get(self.done) else {
                return check_end(lookup.alloc, texts);
            };
            let begun = self.reader.take();
            let mut reader = or_new(lookup.alloc, begun, source)?;
            match reader.read(lookup, start, known, receiver) {
                Ok(()) => self.done += 1,
                Err(halt) => {
                    self.reader = Some(reader);
                    return Err(halt);
                }
            }
        }
        Err(Halt::from(AllocError))
    }
}

/// What the reading of texts has come to.
#[derive(Drop)]
enum Phase {
    /// Whether a condition asks about the URLs of remotes is not known.
    Asks(Conditions),
    /// One does, and they are sought.
    Seeks(Remotes),
    /// None does.
    Plain,
}

impl Phase {
    /// The phase after it is known whether a condition asks about the URLs of remotes.
    fn after(alloc: Global, has_condition: bool) -> Phase
        ensures { IsAfter has_condition result }
    {
        if !has_condition {
            return Phase::Plain;
        }
        Phase::Seeks(Remotes {
            alloc,
            urls: Vec::new(alloc),
        })
    }
}

/// Texts that are being read, and what conditions know, of which the URLs of remotes are none at first.
#[derive(Drop)]
pub(crate) struct Rounds<'t> {
    pub texts: Texts<'t>,
    pub known: Known<'t>,
    round: Round<'t>,
    phase: Phase,
}

/// What conditions know, with these URLs.
fn knowing<'k>(known: Known<'k>, urls: Urls<'k>) -> Known<'k>
    ensures { result ≡ reads.knowing known.entry urls.entry }
{
    Known {
        directories: known.directories,
        includes: match known.includes {
            Includes::AsGit(repository, _) => Includes::AsGit(repository, urls),
            others => others,
        },
    }
}

/// Whether some of these texts may include a file.
pub(crate) fn some_include(texts: &[Source<'_>]) -> bool
    ensures { result ≡ list_any (λ source. reads.has_include source.text.now) texts.now }
{
    texts.iter().any(|source| has_include(source.text))
}

/// Whether a condition on the URLs of remotes may be asked.
fn may_ask(known: &Known<'_>, texts: &[Source<'_>]) -> bool
    ensures { result ≡ (reads.is_as_git known.now.includes && reads.some_include (map text_of texts.now)) }
{
    match known.includes {
        Includes::AsGit(_, _) => some_include(texts),
        _ => false,
    }
}

/// Texts of URLs.
fn slices<'s>(alloc: Global, texts: &'s [Vec<u8>]) -> Result<Vec<&'s [u8]>, AllocError>
    ensures { IfOk result (λ made. map (λ url. url.now) made.items ≡ map (λ text. text.items) texts.now) }
{
    let mut slices = Vec::new(alloc);
    'texts: for text in texts {
        push(&mut slices, text.as_slice())?;
    }
    Ok(slices)
}

impl<'t> Rounds<'t> {
    /// Nothing is read.
    pub fn new(alloc: Global, texts: Texts<'t>, known: Known<'t>) -> Rounds<'t>
        ensures texts { result.texts ≡ texts.entry }
        ensures known { result.known ≡ known.entry }
        ensures begins { (system : System) (start : List ℕ) (opened : End) → InRounds system start result opened [] }
    {
        let phase = if may_ask(&known, &texts.list) {
            Phase::Asks(Conditions { alloc, has: false })
        } else {
            Phase::Plain
        };
        Rounds {
            texts,
            known,
            round: Round::new(),
            phase,
        }
    }

    /// Goes on in this phase.
    fn set_phase(&mut self, phase: Phase)
        ensures same { AreSame self.old self.new }
        ensures round { self.new.round ≡ self.old.round }
        ensures phase { self.new.phase ≡ phase }
    {
        self.phase = phase;
    }

    /// Begins with the texts anew, in this phase.
    fn begin(&mut self, phase: Phase)
        ensures same { AreSame self.old self.new }
        ensures round { (self.new.round.done ≡ 0) × (self.new.round.reader ≡ None) }
        ensures phase { self.new.phase ≡ phase }
    {
        self.phase = phase;
        self.round = Round::new();
    }

    /// Whether one of the entries up to the end, or up to where Git stops, has a condition on the URLs of remotes.
    fn have_condition(
        &mut self,
        lookup: &Lookup<'_, 't>,
        start: &[u8],
        conditions: &mut Conditions,
    ) -> Result<bool, Pause>
        ensures same { AreSame self.old self.new }
        ensures asks { IfErr result (IsNew lookup.now.folder.now lookup.now.facts.now) }
        ensures finds { FindsConditions lookup.now.facts.now start.now self.old self.new conditions.old conditions.new result }
    {
        match self
            .round
            .read(lookup, start, &self.known, &self.texts, conditions)
        {
            Ok(()) => Ok(conditions.has),
            Err(halt) => match halt.into_stop() {
                Ok(_) => Ok(conditions.has),
                Err(pause) => Err(pause),
            },
        }
    }

    /// Finds out whether a condition asks about the URLs of remotes, where that is not known.
    fn ask(&mut self, lookup: &Lookup<'_, 't>, start: &[u8]) -> Result<(), Pause>
        ensures asks { IfErr result (IsNew lookup.now.folder.now lookup.now.facts.now) }
        ensures goes { KeepsRounds lookup.now.facts.now start.now self.old self.new result }
        ensures asked { OnOk result (IsAsked self.new.phase) }
    {
        match mem::replace(&mut self.phase, Phase::Plain) {
            Phase::Asks(mut conditions) => {
                let have = match self.have_condition(lookup, start, &mut conditions) {
                    Ok(have) => have,
                    Err(pause) => {
                        self.set_phase(Phase::Asks(conditions));
                        return Err(pause);
                    }
                };
                self.begin(Phase::after(lookup.alloc, have));
            }
            other => self.set_phase(other),
        }
        Ok(())
    }

    /// Finds the URLs of remotes, where they are sought.
    fn seek(&mut self, lookup: &Lookup<'_, 't>, start: &[u8]) -> Result<Option<Remotes>, Halt>
        requires { IsAsked self.old.phase }
        ensures asks { IfErr result (IsNewHalt lookup.now.folder.now lookup.now.facts.now) }
        ensures seeks { SeeksRounds lookup.now.facts.now start.now self.old self.new result }
    {
        match mem::replace(&mut self.phase, Phase::Plain) {
            Phase::Seeks(mut remotes) => {
                let known = knowing(self.known, Urls::Sought);
                match self
                    .round
                    .read(lookup, start, &known, &self.texts, &mut remotes)
                {
                    Ok(()) => {
                        self.begin(Phase::Plain);
                        Ok(Some(remotes))
                    }
                    Err(halt) => {
                        self.set_phase(Phase::Seeks(remotes));
                        Err(halt)
                    }
                }
            }
            other => {
                self.set_phase(other);
                Ok(None)
            }
        }
    }

    /// Hands on the entries where the URLs of remotes are known. No fact is missing by then, since all that is included
    /// was included as they were sought too.
    fn read_by_urls<R: Receiver<'t>>(
        &mut self,
        lookup: &Lookup<'_, 't>,
        start: &[u8],
        remotes: &Remotes,
        receiver: &mut R,
    ) -> Result<(), Halt>
        ensures asks { IfErr result (IsNewHalt lookup.now.folder.now lookup.now.facts.now) }
        ensures reads { ReadsByUrls lookup.now.facts.now start.now self.old self.new remotes.now R.receives
            receiver.old receiver.new result }
    {
        let urls = slices(lookup.alloc, &remotes.urls)?;
        let known = knowing(self.known, Urls::Known(&urls));
        match self
            .round
            .read(lookup, start, &known, &self.texts, receiver)
        {
            Ok(()) => Ok(()),
            Err(halt) => match halt.into_stop() {
                Ok(stop) => Err(Halt::Stops(stop)),
                Err(_) => Err(Halt::from(AllocError)),
            },
        }
    }

    /// Hands on the entries that Git reads of the texts, from where it has come, to the end. Names begin in this folder.
    pub fn read<R: Receiver<'t>>(
        &mut self,
        lookup: &Lookup<'_, 't>,
        start: &[u8],
        receiver: &mut R,
    ) -> Result<(), Halt>
        ensures asks { IfErr result (IsNewHalt lookup.now.folder.now lookup.now.facts.now) }
        ensures reads { GoesRounds lookup.now.facts.now start.now R.receives self.old self.new
            receiver.old receiver.new result }
    {
        match self.ask(lookup, start) {
            Ok(()) => {}
            Err(pause) => return Err(Halt::Pauses(pause)),
        }
        let found = match self.seek(lookup, start) {
            Ok(found) => found,
            Err(halt) => return Err(halt),
        };
        match found {
            Some(remotes) => self.read_by_urls(lookup, start, &remotes, receiver),
            None => match self
                .round
                .read(lookup, start, &self.known, &self.texts, receiver)
            {
                Ok(()) => Ok(()),
                Err(halt) => Err(halt),
            },
        }
    }
}
