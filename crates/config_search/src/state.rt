//! What a reading has come to, and how it goes on.
ghost use Rattle.std.specs.Prelude.{◌≡◌, ℕ, List, None, Some, true, IfErr, IfSome, MatchResult, option_copied};
ghost use Rattle.config_search.specs.Folder.{Asked, start_by};
ghost use Rattle.config_search.specs.Handing.{Fits, GoesOnBy, HandsIn, HandsRounds, IsUnopened, KeepsState, StopsAt, StopsBy};
ghost use Rattle.config_search.specs.Folder as folder;
ghost use Rattle.config_search.specs.Shown.{AsksNothing, IsNew, IsNewHalt};
ghost use Rattle.config_search.specs.declared.state.State.TheVariants.{Begins, Given, Opens, Reads};

use crate::answer::{Answer, Outcome};
use crate::fact::{Lookup, Pause};
use crate::halt::{Halt, same_stop};
use crate::includes::has_include;
use crate::known::{Follows, known_at};
use crate::receiver::Receiver;
use crate::rounds::Rounds;
use crate::texts::{Opening, Text};
use std::alloc::{AllocError, Global};

/// What a reading has come to.
#[derive(Drop)]
pub(crate) enum State<'t> {
    /// Nothing is known of what Git reads in the folder.
    Begins,
    /// These texts are given.
    Given(Vec<Text<'t>>),
    /// The texts are being opened.
    Opens(Opening<'t>),
    /// They are read.
    Reads(Rounds<'t>),
    /// All are read.
    Ends,
    /// It goes on no more: Git has stopped, memory was refused, or what gets the entries has failed.
    Lost,
}

/// A state, and why it is not passed, if it is not.
#[derive(Drop)]
struct Moved<'t> {
    state: State<'t>,
    pause: Option<Pause>,
}

impl State<'_> {
    /// Whether it has to be known what Git does in the folder before a reading goes on that follows these includes.
    pub fn needs_answer(&self, follows: Follows) -> bool
        ensures unopened { result ≡ true → IsUnopened self.now }
    {
        match self {
            State::Begins => true,
            State::Given(texts) => {
                follows != Follows::Nothing && texts.iter().any(|text| has_include(text.text))
            }
            _ => false,
        }
    }
}

/// The folder in which names begin: this one if texts are given, and else the one in which Git works.
fn start_of<'a>(start: Option<&'a [u8]>, answer: &'a Option<Answer>) -> &'a [u8]
    ensures { (asked : Asked) → Fits asked (option_copied start.entry) → result.now ≡ start_by asked answer.now }
{
    if let Some(start) = start {
        return start;
    }
    match answer {
        Some(answer) => &answer.folder,
        None => b"",
    }
}

impl<'t> Moved<'t> {
    /// To the next state.
    fn to(state: State<'t>) -> Moved<'t>
        ensures same { result.state ≡ state.entry }
        ensures none { result.pause ≡ None }
    {
        Moved { state, pause: None }
    }

    /// Not further than this state.
    fn stays(state: State<'t>, pause: Pause) -> Moved<'t>
        ensures same { result.state ≡ state.entry }
        ensures stops { result.pause ≡ Some pause }
    {
        Moved {
            state,
            pause: Some(pause),
        }
    }
}

/// What comes after a state in which nothing is known but what Git does in the folder.
#[inline(never)]
fn move_begins<'t>(
    lookup: &Lookup<'_, 't>,
    follows: Follows,
    start: Option<&[u8]>,
    answer: &Option<Answer>,
) -> Moved<'t>
    ensures keeps { KeepsState lookup.now.facts.now follows (option_copied start.entry) answer.now Begins result.state }
    ensures asks { IfSome result.pause (IsNew lookup.now.folder.now lookup.now.facts.now) }
{
    let Some(answer) = answer else {
        return Moved::stays(State::Begins, Pause::Memory(AllocError));
    };
    match Opening::new(lookup, &answer.folder, &answer.files) {
        Ok(opening) => Moved::to(State::Opens(opening)),
        Err(pause) => Moved::stays(State::Begins, pause),
    }
}

/// What comes after a state in which texts are given.
#[inline(never)]
fn move_given<'t>(
    lookup: &Lookup<'_, 't>,
    follows: Follows,
    start: Option<&[u8]>,
    answer: &Option<Answer>,
    texts: Vec<Text<'t>>,
) -> Moved<'t>
    ensures keeps { KeepsState lookup.now.facts.now follows (option_copied start.entry) answer.now (Given texts.entry)
        result.state }
    ensures asks { IfSome result.pause (IsNew lookup.now.folder.now lookup.now.facts.now) }
{
    match Opening::of_texts(lookup, start_of(start, answer), &texts) {
        Ok(opening) => Moved::to(State::Opens(opening)),
        Err(pause) => Moved::stays(State::Given(texts), pause),
    }
}

/// What comes after a state in which texts are opened.
#[inline(never)]
fn move_opens<'t>(
    lookup: &Lookup<'_, 't>,
    follows: Follows,
    start: Option<&[u8]>,
    answer: &Option<Answer>,
    opening: Opening<'t>,
) -> Moved<'t>
    ensures keeps { KeepsState lookup.now.facts.now follows (option_copied start.entry) answer.now (Opens opening.entry)
        result.state }
    ensures asks { IfSome result.pause (IsNew lookup.now.folder.now lookup.now.facts.now) }
{
    let mut opening = opening;
    if !opening.is_whole {
        return match opening.go_on(lookup) {
            Ok(()) => Moved::to(State::Opens(opening)),
            Err(pause) => Moved::stays(State::Opens(opening), pause),
        };
    }
    match known_at(lookup, follows, answer, &opening.texts.list) {
        Ok(known) => {
            let rounds = Rounds::new(lookup.alloc, opening.texts, known);
            Moved::to(State::Reads(rounds))
        }
        Err(pause) => Moved::stays(State::Opens(opening), pause),
    }
}

/// What comes after a state in which not all texts are opened.
#[inline(never)]
fn move_on<'t>(
    lookup: &Lookup<'_, 't>,
    follows: Follows,
    start: Option<&[u8]>,
    answer: &Option<Answer>,
    state: State<'t>,
) -> Moved<'t>
    ensures keeps { KeepsState lookup.now.facts.now follows (option_copied start.entry) answer.now state.entry
        result.state }
    ensures asks { IfSome result.pause (IsNew lookup.now.folder.now lookup.now.facts.now) }
{
    match state {
        State::Begins => move_begins(lookup, follows, start, answer),
        State::Given(texts) => move_given(lookup, follows, start, answer, texts),
        State::Opens(opening) => move_opens(lookup, follows, start, answer, opening),
        State::Reads(rounds) => Moved::to(State::Reads(rounds)),
        State::Ends => Moved::to(State::Ends),
        State::Lost => Moved::to(State::Lost),
    }
}

/// Whether texts are still to be opened.
fn is_opening(state: &State<'_>) -> bool {
    match state {
        State::Begins | State::Given(_) | State::Opens(_) => true,
        _ => false,
    }
}

/// Goes on from a state up to one in which all texts are opened.
fn open<'t>(
    lookup: &Lookup<'_, 't>,
    follows: Follows,
    start: Option<&[u8]>,
    answer: &Option<Answer>,
    state: State<'t>,
) -> Moved<'t>
    ensures keeps { KeepsState lookup.now.facts.now follows (option_copied start.entry) answer.now state.entry
        result.state }
    ensures asks { IfSome result.pause (IsNew lookup.now.folder.now lookup.now.facts.now) }
{
    let mut state = state;
    'states: for _ in 0..u64::MAX {
        if !is_opening(&state) {
            return Moved::to(state);
        }
        let moved = move_on(lookup, follows, start, answer, state);
        state = moved.state;
        if let Some(pause) = moved.pause {
            return Moved::stays(state, pause);
        }
    }
    Moved::stays(state, Pause::Memory(AllocError))
}

/// Stops where Git does before it reads a text.
fn check_outcome(alloc: Global, outcome: &Outcome) -> Result<(), Halt>
    ensures stops { MatchResult result (λ done. folder.DoesNotStop outcome.now) (StopsAt outcome.now) }
    ensures asks { IfErr result AsksNothing }
{
    match outcome {
        Outcome::Stops(stop) => Err(Halt::Stops(same_stop(alloc, stop)?)),
        _ => Ok(()),
    }
}

/// Stops where Git does as it looks for the repository, if it is known what it does.
pub(crate) fn check_answer(alloc: Global, answer: &Option<Answer>) -> Result<(), Halt>
    ensures stops { MatchResult result (λ done. GoesOnBy answer.now) (StopsBy answer.now) }
    ensures asks { IfErr result AsksNothing }
{
    match answer {
        Some(answer) => check_outcome(alloc, &answer.outcome),
        None => Ok(()),
    }
}

/// A state, and how handing on has ended there.
#[derive(Drop)]
pub(crate) struct Handed<'t> {
    pub state: State<'t>,
    pub end: Result<(), Halt>,
}

/// Hands on the entries of texts that are opened, from where it has come, to the end. Names begin in this folder.
fn hand_rounds<'t, R: Receiver<'t>>(
    lookup: &Lookup<'_, 't>,
    start: &[u8],
    rounds: Rounds<'t>,
    receiver: &mut R,
) -> Handed<'t>
    ensures asks { IfErr result.end (IsNewHalt lookup.now.folder.now lookup.now.facts.now) }
    ensures hands { HandsRounds lookup.now.facts.now start.now R.receives rounds.entry result.state
        receiver.old receiver.new result.end }
{
    let mut rounds = rounds;
    match rounds.read(lookup, start, receiver) {
        Ok(()) => Handed {
            state: State::Ends,
            end: Ok(()),
        },
        Err(halt) => match halt {
            Halt::Pauses(pause) => match pause {
                Pause::Ask(question) => Handed {
                    state: State::Reads(rounds),
                    end: Err(Halt::Pauses(Pause::Ask(question))),
                },
                Pause::Memory(error) => Handed {
                    state: State::Lost,
                    end: Err(Halt::from(error)),
                },
            },
            Halt::Stops(stop) => Handed {
                state: State::Lost,
                end: Err(Halt::Stops(stop)),
            },
            Halt::Fails(error) => Handed {
                state: State::Lost,
                end: Err(Halt::Fails(error)),
            },
        },
    }
}

/// Hands on the entries of what is read where Git does this in the folder, from where it has come, to the end.
pub(crate) fn hand_on<'t, R: Receiver<'t>>(
    lookup: &Lookup<'_, 't>,
    follows: Follows,
    start: Option<&[u8]>,
    answer: &Option<Answer>,
    state: State<'t>,
    receiver: &mut R,
) -> Handed<'t>
    ensures asks { IfErr result.end (IsNewHalt lookup.now.folder.now lookup.now.facts.now) }
    ensures hands { HandsIn lookup.now.facts.now follows (option_copied start.entry) answer.now R.receives state.entry
        result.state receiver.old receiver.new result.end }
{
    let Moved { state, pause } = open(lookup, follows, start, answer, state);
    if let Some(pause) = pause {
        return Handed {
            state,
            end: Err(Halt::Pauses(pause)),
        };
    }
    match state {
        State::Reads(rounds) => hand_rounds(lookup, start_of(start, answer), rounds, receiver),
        State::Ends => Handed {
            state: State::Ends,
            end: Ok(()),
        },
        other => Handed {
            state: other,
            end: Err(Halt::from(AllocError)),
        },
    }
}
