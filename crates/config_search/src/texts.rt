//! The texts that Git reads first: those of files, and the settings of the command.
ghost use Rattle.std.specs.Prelude.{◌≡◌, ℕ, List, None, Some, true, false, IfErr, MatchBool, MatchOption, MatchResult, map};
ghost use Rattle.config_file.specs.declared.scope.Scope.TheVariants.{Global as of_user};
ghost use Rattle.config_search.specs.System.{System, AreTrueIn};
ghost use Rattle.config_search.specs.Names.{inside};
ghost use Rattle.config_search.specs.Files.{File};
ghost use Rattle.config_search.specs.Reads.{IsMissing, IsTextOf, command_of, denied};
ghost use Rattle.std.specs.List.{All};
ghost use Rattle.config_search.specs.Handing.{IsOpenedOf, given_of};
ghost use Rattle.config_search.specs.Reading.{IsAtDir, IsOpening, OpensFiles, StopsAtFile, text_of};
ghost use Rattle.config_search.specs.Shown.{IsNew, IsNewHalt, file_of};
ghost use Rattle.config_search.specs.declared.TheConstants.{SETTINGS as SETTINGS_OF};

use crate::SETTINGS;
use crate::answer::Named;
use crate::command::{COMMAND, Counted, command_in};
use crate::fact::{Lookup, Pause, answer_of, fact_in};
use crate::halt::{Halt, stop};
use crate::name::push;
use crate::reader::{Source, dir_in, end_of, refusal_in, words_of};
use config_file::{FilePlace, Scope, Stop, Why};
use std::alloc::Global;

/// A text that is given to a reading.
///
/// ```rust
/// use config_file::Scope;
/// use config_search::settings::Collector;
/// use config_search::{Follows, Reading, Text};
///
/// let mut texts = Vec::new(alloc);
/// texts.push(Text { scope: Scope::Local, name: b"config", text: b"[core]\n\tbare\n", is_file: true })?;
/// let mut reading = Reading::of_texts(alloc, b"", b"", texts, Follows::AsGit);
/// let mut collector = Collector::new(alloc);
/// assert!(rt; reading.read(&mut collector).is_ok()); // it includes nothing, and so nothing is asked
/// assert_eq!(rt; collector.settings.entries.len(), 1);
/// ```
#[derive(Clone, Copy)]
pub struct Text<'t> {
    /// The scope that its entries have.
    pub scope: Scope,
    /// The name of its file, or what stands for that.
    pub name: &'t [u8],
    /// The text.
    pub text: &'t [u8],
    /// Whether it is the text of a file, in whose folder the names of what it includes begin.
    pub is_file: bool,
}

/// The texts that Git reads first, in order.
#[derive(Drop)]
pub(crate) struct Texts<'t> {
    pub list: Vec<Source<'t>>,
    /// Where Git stops behind them, if it does.
    pub stop: Option<Stop<Vec<u8>>>,
}

/// Whether a file that is not read for this reason counts as missing: the user may not read it, and it is the user's.
fn is_hidden(reason: &[u8], scope: Scope) -> bool
    ensures { MatchBool result ((reason.now ≡ denied) × (scope ≡ of_user)) (¬ ((reason.now ≡ denied) × (scope ≡ of_user))) }
{
    if reason != b"denied".as_slice() {
        return false;
    }
    if scope == Scope::Global {
        return true;
    }
    false
}

/// Stops where Git does at a file that is not read: one that is there, unless it is a file of the user who may not read
/// it.
fn check_unread(lookup: &Lookup<'_, '_>, start: &[u8], named: &Named) -> Result<(), Halt>
    ensures unread { (system : System) → AreTrueIn system lookup.now.facts.now
        → system SETTINGS_OF (inside start.now named.now.name.items) ≡ None
        → MatchResult result (λ done. IsMissing system start.now (file_of named.now))
        (StopsAtFile system start.now (file_of named.now)) }
    ensures asks { IfErr result (IsNewHalt lookup.now.folder.now lookup.now.facts.now) }
{
    let Some(reason) = refusal_in(lookup, start, &named.name)? else {
        return Ok(());
    };
    if is_hidden(reason, named.scope) {
        return Ok(());
    }
    let at = Stop {
        file: named.name.as_slice(),
        line: 0,
        why: Why::Unreadable,
        words: words_of(reason),
    };
    Err(stop(lookup.alloc, at)?)
}

/// The text of a file, if it is read. Names begin in this folder.
fn source_of<'t>(
    lookup: &Lookup<'_, 't>,
    start: &[u8],
    named: &Named,
) -> Result<Option<Source<'t>>, Halt>
    ensures opens { (system : System) → AreTrueIn system lookup.now.facts.now
        → MatchResult result
        (λ found. MatchOption found (IsMissing system start.now (file_of named.now))
        (λ source. IsTextOf system start.now (file_of named.now) (text_of source) × IsAtDir system start.now source))
        (StopsAtFile system start.now (file_of named.now)) }
    ensures asks { IfErr result (IsNewHalt lookup.now.folder.now lookup.now.facts.now) }
{
    let fact = fact_in(lookup, SETTINGS, start, &named.name)?;
    let Some(text) = answer_of(&fact) else {
        check_unread(lookup, start, named)?;
        return Ok(None);
    };
    let place = FilePlace {
        name: end_of(fact.name, &named.name),
        real_dir: dir_in(lookup, start, &named.name, text)?,
    };
    Ok(Some(Source {
        scope: named.scope,
        place,
        text,
        is_file: true,
    }))
}

/// The settings of the command.
fn source_of_command(command: &[u8]) -> Source<'_>
    ensures text { text_of result ≡ command_of command.now }
    ensures dir { (system : System) (start : List ℕ) → IsAtDir system start result }
{
    let place = FilePlace {
        name: COMMAND,
        real_dir: b"\0",
    };
    Source {
        scope: Scope::Command,
        place,
        text: command,
        is_file: false,
    }
}

/// The texts of these files, up to one at which Git stops. Names begin in this folder.
fn open_files<'t>(
    lookup: &Lookup<'_, 't>,
    start: &[u8],
    files: &[Named],
) -> Result<Texts<'t>, Pause>
    ensures { MatchResult result
        (λ texts. (system : System) → AreTrueIn system lookup.now.facts.now
        → OpensFiles system start.now (map file_of files.now) texts)
        (IsNew lookup.now.folder.now lookup.now.facts.now) }
{
    let mut texts = Texts {
        list: Vec::new(lookup.alloc),
        stop: None,
    };
    'files: for file in files {
        let found = match source_of(lookup, start, file) {
            Ok(found) => found,
            Err(halt) => match halt.into_stop() {
                Ok(stop) => {
                    texts.stop = Some(stop);
                    return Ok(texts);
                }
                Err(pause) => return Err(pause),
            },
        };
        if let Some(source) = found {
            push(&mut texts.list, source)?;
        }
    }
    Ok(texts)
}

/// A text that is given, with the folder of its file, in which that of other names is.
fn source_given<'t>(
    lookup: &Lookup<'_, 't>,
    start: &[u8],
    text: &Text<'t>,
) -> Result<Source<'t>, Pause>
    ensures { MatchResult result
        (λ source. (text_of source ≡ given_of text.now) × ((system : System) → AreTrueIn system lookup.now.facts.now
        → IsAtDir system start.now source))
        (IsNew lookup.now.folder.now lookup.now.facts.now) }
{
    let real_dir = if text.is_file {
        dir_in(lookup, start, text.name, text.text)?
    } else {
        b"\0"
    };
    let place = FilePlace {
        name: text.name,
        real_dir,
    };
    Ok(Source {
        scope: text.scope,
        place,
        text: text.text,
        is_file: text.is_file,
    })
}

/// Texts that are given. Names begin in this folder.
fn give_texts<'t>(
    lookup: &Lookup<'_, 't>,
    start: &[u8],
    given: &[Text<'t>],
) -> Result<Texts<'t>, Pause>
    ensures { MatchResult result
        (λ texts. (texts.stop ≡ None) × (map text_of texts.list.items ≡ map given_of given.now)
        × ((system : System) → AreTrueIn system lookup.now.facts.now → All (IsAtDir system start.now) texts.list.items))
        (IsNew lookup.now.folder.now lookup.now.facts.now) }
{
    let mut texts = Texts {
        list: Vec::new(lookup.alloc),
        stop: None,
    };
    'given: for text in given {
        push(&mut texts.list, source_given(lookup, start, text)?)?;
    }
    Ok(texts)
}

/// Texts that are being opened.
#[derive(Drop)]
pub(crate) struct Opening<'t> {
    pub texts: Texts<'t>,
    /// The settings that GIT_CONFIG_COUNT counts, as far as they are known.
    counted: Counted,
    /// Whether all texts are opened, that of the command too.
    pub is_whole: bool,
}

impl<'t> Opening<'t> {
    /// The texts of these files are opened. Names begin in this folder.
    pub fn new(lookup: &Lookup<'_, 't>, start: &[u8], files: &[Named]) -> Result<Opening<'t>, Pause>
        ensures { MatchResult result
            (λ opening. (system : System) → AreTrueIn system lookup.now.facts.now
            → IsOpening system start.now (map file_of files.now) opening)
            (IsNew lookup.now.folder.now lookup.now.facts.now) }
    {
        let texts = open_files(lookup, start, files)?;
        if texts.stop.is_some() {
            return Ok(Opening {
                texts,
                counted: Counted::none(lookup.alloc),
                is_whole: true,
            });
        }
        match Counted::new(lookup) {
            Ok(counted) => Ok(Opening {
                texts,
                counted,
                is_whole: false,
            }),
            Err(halt) => match halt.into_stop() {
                Ok(stop) => Ok(Opening {
                    texts: Texts {
                        list: texts.list,
                        stop: Some(stop),
                    },
                    counted: Counted::none(lookup.alloc),
                    is_whole: true,
                }),
                Err(pause) => Err(pause),
            },
        }
    }

    /// These texts are opened, and no other. Names begin in this folder.
    pub fn of_texts(
        lookup: &Lookup<'_, 't>,
        start: &[u8],
        given: &[Text<'t>],
    ) -> Result<Opening<'t>, Pause>
        ensures { MatchResult result
            (λ opening. (system : System) → AreTrueIn system lookup.now.facts.now
            → IsOpenedOf system start.now (map given_of given.now) opening)
            (IsNew lookup.now.folder.now lookup.now.facts.now) }
    {
        Ok(Opening {
            texts: give_texts(lookup, start, given)?,
            counted: Counted::none(lookup.alloc),
            is_whole: true,
        })
    }

    /// Git stops behind the texts.
    fn end(&mut self, stop: Stop<Vec<u8>>)
        ensures list { self.new.texts.list ≡ self.old.texts.list }
        ensures stop { self.new.texts.stop ≡ Some stop }
        ensures whole { self.new.is_whole ≡ true }
    {
        self.texts.stop = Some(stop);
        self.is_whole = true;
    }

    /// Goes on with the settings of the command, if they are not opened. It stays the same where this pauses.
    pub fn go_on(&mut self, lookup: &Lookup<'_, 't>) -> Result<(), Pause>
        requires { self.old.is_whole ≡ false }
        ensures opens { (system : System) (start : List ℕ) (files : List File)
            → AreTrueIn system lookup.now.facts.now
            → IsOpening system start files self.old → IsOpening system start files self.new }
        ensures asks { IfErr result (IsNew lookup.now.folder.now lookup.now.facts.now) }
    {
        if !self.counted.is_whole() {
            match self.counted.push_next(lookup) {
                Ok(()) => return Ok(()),
                Err(halt) => match halt.into_stop() {
                    Ok(stop) => {
                        self.end(stop);
                        return Ok(());
                    }
                    Err(pause) => return Err(pause),
                },
            }
        }
        match command_in(lookup, &self.counted) {
            Ok(command) => {
                push(&mut self.texts.list, source_of_command(command))?;
                self.is_whole = true;
            }
            Err(halt) => match halt.into_stop() {
                Ok(stop) => self.end(stop),
                Err(pause) => return Err(pause),
            },
        }
        Ok(())
    }
}
