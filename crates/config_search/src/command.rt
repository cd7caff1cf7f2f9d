//! The settings of the command, which are in variables.
ghost use Rattle.std.specs.Prelude.{◌≡◌, ◌≤◌, ◌<◌, ◌++◌, ◌∷◌, [], ℕ, List, true, false, IfErr, IfOk, OnErr, MatchResult, option_copied};
ghost use Rattle.std.specs.Fmt.{decimal};
ghost use Rattle.config_search.specs.System.{System, AreTrueIn};
ghost use Rattle.config_file.specs.Command.{AddsSettings, KeyValue};
ghost use Rattle.config_search.specs.Command as rule;
ghost use Rattle.config_search.specs.Reading.{IsCountIn, IsCounting, StopsCommand};
ghost use Rattle.config_search.specs.Questions.{IsNeeded};
ghost use Rattle.config_search.specs.Shown.{AsksNothing, IsNew, IsNewHalt};
ghost use Rattle.config_search.specs.declared.TheConstants.{VARIABLE};

use crate::fact::{Lookup, Pause, answer_to, fact_in};
use crate::halt::{Halt, stop};
use crate::name::{copied, joined};
use crate::{KEEP, VARIABLE};
use config_file::{CommandError, Stop, Why, count_of, push_parameters, push_setting};
use itoa::Buffer;
use std::alloc::{AllocError, Global};

/// The settings that GIT_CONFIG_COUNT counts, as the text of a file, as far as they are known.
#[derive(Drop)]
pub(crate) struct Counted {
    text: Vec<u8>,
    /// How many of them are known.
    number: usize,
    /// How many there are.
    count: usize,
}

/// The name of the text of the settings of a command.
pub(crate) const COMMAND: &[u8] = b"command line";

/// The refusal of the settings of a command.
fn of_command(alloc: Global, error: CommandError) -> Result<Halt, AllocError>
    ensures asks { IfOk result AsksNothing }
    ensures stops { IfOk result StopsCommand }
{
    match error {
        CommandError::Memory(error) => Ok(Halt::from(error)),
        error => {
            let words = format!(in alloc; "{error}")?;
            let at = Stop {
                file: COMMAND,
                line: 0,
                why: Why::BadCommand,
                words: words.as_bytes(),
            };
            stop(alloc, at)
        }
    }
}

/// The value of the variable with this name and this number.
fn numbered<'t>(
    lookup: &Lookup<'_, 't>,
    name: &[u8],
    number: usize,
) -> Result<Option<&'t [u8]>, Pause>
    requires { IsNeeded lookup.now.folder.now lookup.now.facts.now VARIABLE (name.now ++ decimal number) }
    ensures { MatchResult result
        (λ answer. (system : System) → AreTrueIn system lookup.now.facts.now
        → option_copied answer ≡ system VARIABLE (name.now ++ decimal number))
        (IsNew lookup.now.folder.now lookup.now.facts.now) }
{
    let mut digits = Buffer::new();
    let name = joined(lookup.alloc, name, digits.format(number).as_bytes(), b"")?;
    Ok(answer_to(lookup, VARIABLE, &name)?)
}

/// A text that lives as long as facts, since the name of one is this text.
pub(crate) fn kept<'t>(lookup: &Lookup<'_, 't>, text: &[u8]) -> Result<&'t [u8], Pause>
    ensures { MatchResult result (λ whole. whole.now ≡ text.now)
        (IsNew lookup.now.folder.now lookup.now.facts.now) }
{
    let fact = fact_in(lookup, KEEP, b"", text)?;
    Ok(fact.name)
}

/// How many settings GIT_CONFIG_COUNT counts: none, if it is not set.
fn count_in(lookup: &Lookup<'_, '_>) -> Result<usize, Halt>
    ensures count { MatchResult result
        (λ count. (system : System) → AreTrueIn system lookup.now.facts.now → IsCountIn system count)
        (IsNewHalt lookup.now.folder.now lookup.now.facts.now) }
    ensures stops { IfErr result StopsCommand }
{
    let Some(text) = answer_to(lookup, VARIABLE, b"GIT_CONFIG_COUNT")? else {
        return Ok(0);
    };
    match count_of(text) {
        Ok(count) => Ok(count),
        Err(error) => Err(of_command(lookup.alloc, error)?),
    }
}

/// Appends the setting of this number. The text stays the same where it fails.
fn push_numbered(lookup: &Lookup<'_, '_>, text: &mut Vec<u8>, number: usize) -> Result<(), Halt>
    ensures next { MatchResult result
        (λ done. (system : System) → AreTrueIn system lookup.now.facts.now
        → (setting : KeyValue) × (line : List ℕ) × rule.IsNumbered system number setting
        × AddsSettings line (setting ∷ []) × (text.new.items ≡ text.old.items ++ line))
        (IsNewHalt lookup.now.folder.now lookup.now.facts.now) }
    ensures kept { OnErr result (text.new.items ≡ text.old.items) }
    ensures stops { IfErr result StopsCommand }
{
    let Some(key) = numbered(lookup, b"GIT_CONFIG_KEY_", number)? else {
        return Err(of_command(lookup.alloc, CommandError::MissingKey(number))?);
    };
    let Some(value) = numbered(lookup, b"GIT_CONFIG_VALUE_", number)? else {
        return Err(of_command(lookup.alloc, CommandError::MissingValue(number))?);
    };
    match push_setting(lookup.alloc, text, key, Some(value)) {
        Ok(()) => Ok(()),
        Err(error) => Err(of_command(lookup.alloc, error)?),
    }
}

impl Counted {
    /// There are none.
    pub fn none(alloc: Global) -> Counted {
        Counted {
            text: Vec::new(alloc),
            number: 0,
            count: 0,
        }
    }

    /// None is known yet.
    pub fn new(lookup: &Lookup<'_, '_>) -> Result<Counted, Halt>
        ensures counts { MatchResult result
            (λ counted. (system : System) → AreTrueIn system lookup.now.facts.now → IsCounting system counted)
            (IsNewHalt lookup.now.folder.now lookup.now.facts.now) }
        ensures stops { IfErr result StopsCommand }
    {
        let count = count_in(lookup)?;
        Ok(Counted {
            text: Vec::new(lookup.alloc),
            number: 0,
            count,
        })
    }

    /// Whether all of them are known.
    pub fn is_whole(&self) -> bool
        ensures whole { result ≡ true → self.now.count ≤ self.now.number }
        ensures begun { result ≡ false → self.now.number < self.now.count }
    {
        self.count <= self.number
    }

    /// Adds the next one. It stays the same where this fails.
    pub fn push_next(&mut self, lookup: &Lookup<'_, '_>) -> Result<(), Halt>
        requires { self.old.number < self.old.count }
        ensures counts { (system : System) → AreTrueIn system lookup.now.facts.now
            → IsCounting system self.old → IsCounting system self.new }
        ensures asks { IfErr result (IsNewHalt lookup.now.folder.now lookup.now.facts.now) }
        ensures stops { IfErr result StopsCommand }
    {
        push_numbered(lookup, &mut self.text, self.number)?;
        self.number += 1;
        Ok(())
    }
}

/// The settings of the command as the text of a file: first those of GIT_CONFIG_COUNT, which are all known, and then those
/// of GIT_CONFIG_PARAMETERS, in which `git -c` hands them on.
fn command_text(lookup: &Lookup<'_, '_>, counted: &Counted) -> Result<Vec<u8>, Halt>
    ensures text { MatchResult result
        (λ text. (system : System) → AreTrueIn system lookup.now.facts.now → IsCounting system counted.now
        → counted.now.count ≤ counted.now.number → rule.IsOfCommand system text.items)
        (IsNewHalt lookup.now.folder.now lookup.now.facts.now) }
    ensures stops { IfErr result StopsCommand }
{
    let mut text = copied(lookup.alloc, &counted.text)?;
    let Some(parameters) = answer_to(lookup, VARIABLE, b"GIT_CONFIG_PARAMETERS")? else {
        return Ok(text);
    };
    match push_parameters(lookup.alloc, &mut text, parameters) {
        Ok(()) => Ok(text),
        Err(error) => Err(of_command(lookup.alloc, error)?),
    }
}

/// The same, as a text that lives as long as facts.
pub(crate) fn command_in<'t>(lookup: &Lookup<'_, 't>, counted: &Counted) -> Result<&'t [u8], Halt>
    ensures text { MatchResult result
        (λ text. (system : System) → AreTrueIn system lookup.now.facts.now → IsCounting system counted.now
        → counted.now.count ≤ counted.now.number → rule.IsOfCommand system text.now)
        (IsNewHalt lookup.now.folder.now lookup.now.facts.now) }
    ensures stops { IfErr result StopsCommand }
{
    let text = command_text(lookup, counted)?;
    Ok(kept(lookup, &text)?)
}
