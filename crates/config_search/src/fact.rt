//! Facts, and the questions that they answer.
ghost use Rattle.std.specs.Prelude.{◌≡◌, ◌++◌, ◌∷◌, [], List, Some, IfSome, MatchResult, OnErr, OnOk, is_some, option_copied};
ghost use Rattle.config_search.specs.System.{System, AreTrueIn, IsFactOf};
ghost use Rattle.config_search.specs.System as system;
ghost use Rattle.config_search.specs.Questions.{IsNeeded};
ghost use Rattle.config_search.specs.Shown.{AreFirst, AreRecent, IsFirst, IsNew, first_of};
ghost use Rattle.config_search.specs.Names.{inside};
ghost use Rattle.config_search.specs.Rule as rule;
ghost use Rattle.config_search.specs.declared.fact.Fact.{Fact as FactOf};
ghost use Rattle.config_search.specs.declared.fact.Pause.TheVariants.{Memory};

use crate::name::{copied, inside};
use std::alloc::{AllocError, Global};
use std::collections::HashMap;
use std::marker::Model;

/// A fact: the answer to a question about a subject, which is one of the numbers of this crate, and a name. The
/// example of [`Answer`](crate::Answer) tells some.
#[repr(C)]
#[derive(Clone, Copy)]
pub struct Fact<'t> {
    /// The name.
    pub name: &'t [u8],
    /// The answer.
    pub text: &'t [u8],
    /// The subject.
    pub subject: u32,
    /// 0 if there is no answer, and otherwise the answer is the text.
    pub has: u32,
}

/// A question. The example of [`Search`](crate::Search) gets one.
#[derive(Drop)]
pub struct Question {
    /// Its subject.
    pub subject: u32,
    /// The name that it is about.
    pub name: Vec<u8>,
}

/// Why a search stops before its end. The example of [`Search`](crate::Search) gets one.
#[derive(Drop)]
pub enum Pause {
    /// It needs the answer to this question, which no fact gives.
    Ask(Question),
    /// Memory is refused.
    Memory(AllocError),
}

impl From<AllocError> for Pause {
    ghost from_gives = { λ error pause. pause ≡ Memory error };

    fn from(error: AllocError) -> Pause {
        Pause::Memory(error)
    }
}

/// Facts, by the questions that they answer. The first one that answers a question counts.
#[derive(Drop)]
pub(crate) struct Facts<'t> {
    list: Vec<Fact<'t>>,
    first: HashMap<(u32, Vec<u8>), Fact<'t>>,
    recent: Recent<'t>,
}

/// The last facts that count, of which a stage that goes on asks first: the map reads a long name slowly.
#[derive(Clone, Copy)]
pub(crate) struct Recent<'t> {
    last: Option<Fact<'t>>,
    before: Option<Fact<'t>>,
    third: Option<Fact<'t>>,
}

/// The fact, if it answers the question.
fn if_about<'t>(fact: &Option<Fact<'t>>, question: &(u32, Vec<u8>)) -> Option<Fact<'t>>
    ensures { IfSome result (λ it. (fact.now ≡ Some it) × (it.subject ≡ question.now.0)
        × (it.name.now ≡ question.now.1.items)) }
{
    match fact {
        Some(fact) if fact.subject == question.0 && fact.name == question.1.as_slice() => {
            Some(*fact)
        }
        _ => None,
    }
}

impl<'t> Recent<'t> {
    /// The one that answers a question.
    fn get(&self, question: &(u32, Vec<u8>)) -> Option<Fact<'t>>
        ensures { (facts : List FactOf) → AreRecent facts self.now
            → IfSome result (λ fact. first_of facts question.now.0 question.now.1.items ≡ Some fact) }
    {
        if let Some(fact) = if_about(&self.last, question) {
            return Some(fact);
        }
        if let Some(fact) = if_about(&self.before, question) {
            return Some(fact);
        }
        if_about(&self.third, question)
    }

    /// Those after this one, which is the first that answers its question.
    fn after(self, fact: Fact<'t>) -> Recent<'t>
        ensures { (facts : List FactOf) → AreRecent facts self.entry → IsFirst facts fact.entry
            → AreRecent facts result }
    {
        Recent {
            last: Some(fact),
            before: self.last,
            third: self.before,
        }
    }
}

impl<'t> Model for Facts<'t> {
    ghost Value = { List FactOf };

    ghost view = { λ f. f.list.items };

    ghost invariant = { λ f. AreFirst f.first f.list.items × AreRecent f.list.items f.recent };
}

impl<'t> Facts<'t> {
    /// No facts.
    pub fn new(alloc: Global) -> Facts<'t>
        ensures { result ≡ [] }
    {
        Facts {
            list: Vec::new(alloc),
            first: HashMap::new(alloc),
            recent: Recent {
                last: None,
                before: None,
                third: None,
            },
        }
    }

    /// The fact that answers a question about a name, if there is one.
    pub fn get(&self, question: &(u32, Vec<u8>)) -> Option<Fact<'t>>
        ensures { result ≡ first_of self.now question.now.0 question.now.1.items }
    {
        if let Some(fact) = self.recent.get(question) {
            return Some(fact);
        }
        match self.first.get(question) {
            Some(fact) => Some(*fact),
            None => None,
        }
    }

    /// Adds a fact. Nothing is added where memory is refused.
    pub fn push(&mut self, alloc: Global, fact: Fact<'t>) -> Result<(), AllocError>
        ensures told { OnOk result (self.new ≡ self.old ++ fact.entry ∷ []) }
        ensures same { OnErr result (self.new ≡ self.old) }
    {
        let question = (fact.subject, copied(alloc, fact.name)?);
        if let Some(_) = self.get(&question) {
            return Ok(self.list.push(fact)?);
        }
        self.list.push(fact)?;
        match self.first.insert(question, fact) {
            Ok(_) => {
                self.recent = self.recent.after(fact);
                Ok(())
            }
            Err(_) => {
                let _ = self.list.pop();
                Err(AllocError)
            }
        }
    }
}

/// What a search knows.
#[derive(Drop)]
pub(crate) struct Lookup<'f, 't> {
    pub alloc: Global,
    /// The folder about which is asked.
    pub folder: &'t [u8],
    pub facts: &'f Facts<'t>,
}

/// The fact that answers a question about the file of this name in a folder, or the question.
pub(crate) fn fact_in<'t>(
    lookup: &Lookup<'_, 't>,
    subject: u32,
    folder: &[u8],
    name: &[u8],
) -> Result<Fact<'t>, Pause>
    requires { IsNeeded lookup.now.folder.now lookup.now.facts.now subject (inside folder.now name.now) }
    ensures { MatchResult result (IsFactOf lookup.now.facts.now subject (inside folder.now name.now))
        (IsNew lookup.now.folder.now lookup.now.facts.now) }
{
    let question = (subject, inside(lookup.alloc, folder, name)?);
    if let Some(fact) = lookup.facts.get(&question) {
        return Ok(fact);
    }
    let (subject, name) = question;
    Err(Pause::Ask(Question { subject, name }))
}

/// The answer that a fact gives.
pub(crate) fn answer_of<'t>(fact: &Fact<'t>) -> Option<&'t [u8]>
    ensures { option_copied result ≡ system.answer_of fact.now }
{
    if fact.has == 0 {
        return None;
    }
    Some(fact.text)
}

/// The text of the answer to a question about the file of this name in a folder, or the question.
pub(crate) fn answer_in<'t>(
    lookup: &Lookup<'_, 't>,
    subject: u32,
    folder: &[u8],
    name: &[u8],
) -> Result<Option<&'t [u8]>, Pause>
    requires { IsNeeded lookup.now.folder.now lookup.now.facts.now subject (inside folder.now name.now) }
    ensures { MatchResult result
        (λ answer. (system : System) → AreTrueIn system lookup.now.facts.now
        → option_copied answer ≡ system subject (inside folder.now name.now))
        (IsNew lookup.now.folder.now lookup.now.facts.now) }
{
    let fact = fact_in(lookup, subject, folder, name)?;
    Ok(answer_of(&fact))
}

/// The text of the answer to a question about this name, or the question.
pub(crate) fn answer_to<'t>(
    lookup: &Lookup<'_, 't>,
    subject: u32,
    name: &[u8],
) -> Result<Option<&'t [u8]>, Pause>
    requires { IsNeeded lookup.now.folder.now lookup.now.facts.now subject name.now }
    ensures { MatchResult result
        (λ answer. (system : System) → AreTrueIn system lookup.now.facts.now
        → option_copied answer ≡ system subject name.now)
        (IsNew lookup.now.folder.now lookup.now.facts.now) }
{
    answer_in(lookup, subject, b"", name)
}

/// Whether an answer is this word.
pub(crate) fn is_word(answer: Option<&[u8]>, word: &[u8]) -> bool
    ensures { result ≡ rule.is_word word.now (option_copied answer.entry) }
{
    match answer {
        Some(text) => text == word,
        None => false,
    }
}

/// Whether there is an answer.
pub(crate) fn is_known(answer: Option<&[u8]>) -> bool
    ensures { result ≡ is_some (option_copied answer.entry) }
{
    match answer {
        Some(_) => true,
        None => false,
    }
}
