//! What Git reads in a folder, or of texts that are given, from there to each entry.
ghost use Rattle.std.specs.Prelude.{◌≡◌, ◌++◌, ◌∷◌, [], ℕ, List, None, Some, IfErr, OnErr, OnOk, map, option_map};
ghost use Rattle.config_search.specs.System.{System, AreTrueIn};
ghost use Rattle.config_search.specs.Folder.{Asked, Here, These};
ghost use Rattle.config_search.specs.Handing.{HandsOn, IsAt, given_of};
ghost use Rattle.config_search.specs.Reads.{ReadEntry};
ghost use Rattle.config_search.specs.Shown.{IsNew, IsNewHalt};
ghost use Rattle.config_search.specs.declared.state.State.TheVariants.{Lost};

use crate::answer::Answer;
use crate::fact::{Fact, Pause};
use crate::halt::Halt;
use crate::known::Follows;
use crate::receiver::Receiver;
use crate::stages::Search;
use crate::state::{Handed, State, check_answer, hand_on};
use crate::texts::Text;
use std::alloc::{AllocError, Global};
use std::mem;

/// What Git reads in a folder, or of texts that are given, of which each entry is handed on once, in Git's order.
///
/// A reading asks questions as a [`Search`] does, and each is new. It hands on what it has come to before it asks, and
/// goes on there once the answer is told.
///
/// ```rust
/// use config_search::settings::Collector;
/// use config_search::{Follows, Halt, Pause, Reading, VARIABLE};
///
/// let mut reading = Reading::here(alloc, b"", Follows::AsGit);
/// let mut collector = Collector::new(alloc);
/// let Err(Halt::Pauses(Pause::Ask(question))) = reading.read(&mut collector) else {
///     panic!(rt; "a question");
/// };
/// assert_eq!(rt; question.subject, VARIABLE); // tell the answer, and read on
/// ```
#[derive(Drop)]
pub struct Reading<'t> {
    search: Search<'t>,
    follows: Follows,
    /// The folder in which names begin, if texts are given.
    start: Option<&'t [u8]>,
    /// What Git does in the folder, once that is known.
    answer: Option<Answer>,
    state: State<'t>,
}

impl<'t> Reading<'t> {
    /// A reading of what Git reads in this folder, of which nothing is told. The name of the folder begins in the current
    /// folder of the caller, which is meant by an empty one and by `.`.
    pub fn here(alloc: Global, folder: &'t [u8], follows: Follows) -> Reading<'t>
        ensures untold { (result.search.folder ≡ folder.now) × (result.search.facts ≡ []) }
        ensures follows { result.follows ≡ follows }
        ensures begins { (system : System) → IsAt system Here result [] }
    {
        Reading {
            search: Search::new(alloc, folder),
            follows,
            start: None,
            answer: None,
            state: State::Begins,
        }
    }

    /// A reading of these texts, in which names begin in the folder `start`. Conditions ask about what Git does in the
    /// other folder, and only where one of the texts includes a file it asks about that.
    pub fn of_texts(
        alloc: Global,
        folder: &'t [u8],
        start: &'t [u8],
        texts: Vec<Text<'t>>,
        follows: Follows,
    ) -> Reading<'t>
        ensures untold { (result.search.folder ≡ folder.now) × (result.search.facts ≡ []) }
        ensures follows { result.follows ≡ follows }
        ensures begins { (system : System) → IsAt system (These start.now (map given_of texts.entry.items)) result [] }
    {
        Reading {
            search: Search::new(alloc, folder),
            follows,
            start: Some(start),
            answer: None,
            state: State::Given(texts),
        }
    }

    /// Tells a fact, as [`Search::tell`] does.
    pub fn tell(&mut self, fact: Fact<'t>) -> Result<(), AllocError>
        ensures told { OnOk result (self.new.search.facts ≡ self.old.search.facts ++ fact.entry ∷ []) }
        ensures untold { OnErr result (self.new.search.facts ≡ self.old.search.facts) }
        ensures same { (self.new.search.folder ≡ self.old.search.folder) × (self.new.follows ≡ self.old.follows)
            × (self.new.start ≡ self.old.start) × (self.new.answer ≡ self.old.answer)
            × (self.new.state ≡ self.old.state) }
    {
        self.search.tell(fact)
    }

    /// What Git does in the folder, once that is known.
    pub fn answer(&self) -> Option<&Answer>
        ensures { option_map (λ answer. answer.now) result ≡ self.now.answer }
    {
        self.answer.as_ref()
    }

    /// The same, which it gives away.
    pub fn into_answer(self) -> Option<Answer>
        ensures { result ≡ self.entry.answer }
    {
        self.answer
    }

    /// Finds what Git does in the folder, where that is not known and has to be.
    fn seek(&mut self) -> Result<(), Pause>
        ensures asks { IfErr result (IsNew self.old.search.folder self.old.search.facts) }
        ensures same { (self.new.search ≡ self.old.search) × (self.new.follows ≡ self.old.follows)
            × (self.new.start ≡ self.old.start) × (self.new.state ≡ self.old.state) }
        ensures keeps { (system : System) (asked : Asked) (read : List ReadEntry)
            → AreTrueIn system self.old.search.facts → IsAt system asked self.old read → IsAt system asked self.new read }
    {
        if self.answer.is_some() || !self.state.needs_answer(self.follows) {
            return Ok(());
        }
        match self.search.next() {
            Ok(answer) => {
                self.answer = Some(answer);
                Ok(())
            }
            Err(pause) => Err(pause),
        }
    }

    /// The state, in whose place it is lost.
    fn take_state(&mut self) -> State<'t>
        ensures taken { result ≡ self.old.state }
        ensures lost { self.new.state ≡ Lost }
        ensures same { (self.new.search ≡ self.old.search) × (self.new.follows ≡ self.old.follows)
            × (self.new.start ≡ self.old.start) × (self.new.answer ≡ self.old.answer) }
    {
        mem::replace(&mut self.state, State::Lost)
    }

    /// Hands on the entries from where it has come, to the end, which is `Ok`. It stops with a question that no fact
    /// answers, and goes on there once one does. It stops where Git stops, where memory is refused and where the receiver
    /// fails, and then it does not go on.
    pub fn read<R: Receiver<'t>>(&mut self, receiver: &mut R) -> Result<(), Halt>
        ensures asks { IfErr result (IsNewHalt self.old.search.folder self.old.search.facts) }
        ensures same { (self.new.search ≡ self.old.search) × (self.new.follows ≡ self.old.follows)
            × (self.new.start ≡ self.old.start) }
        ensures hands { HandsOn R.receives self.old self.new receiver.old receiver.new result }
    {
        match self.seek() {
            Ok(()) => {}
            Err(pause) => return Err(Halt::Pauses(pause)),
        }
        match check_answer(self.search.lookup().alloc, &self.answer) {
            Ok(()) => {}
            Err(halt) => return Err(halt),
        }
        let state = self.take_state();
        let Handed { state, end } = hand_on(
            &self.search.lookup(),
            self.follows,
            self.start,
            &self.answer,
            state,
            receiver,
        );
        self.state = state;
        end
    }
}
