//! The search for what Git reads in a folder. C holds it, tells it facts, and is asked for those that it needs.
ghost use Rattle.std.specs.Prelude.{◌≡◌, None, is_some, true};
ghost use Rattle.gix_config_value_c.specs.Held.{Begins, Refuses, Tells};

use crate::held::GcvSearch;
use crate::status::Status;
use config_file::{Scope, Stop};
use config_search::{Answer, Fact, Named, Outcome, Pause, Refusal, Repository, Search};
use std::alloc::{AllocError, Global};

/// What a search tells. A text is an index in the buffer, at which it begins; a NUL is at its end. A text that does not
/// belong to the outcome is empty.
#[derive(Drop)]
#[repr(C)]
pub struct GcvFound {
    /// The folder in which Git works; and the name that a question is about.
    pub folder: usize,
    /// The path of the git directory, with its links kept.
    pub git_dir: usize,
    /// The path of the git directory, with its links resolved.
    pub real_git_dir: usize,
    /// The name of the branch.
    pub branch: usize,
    /// The name of the file in which Git stops.
    pub file: usize,
    /// Why Git refuses the repository, or stops.
    pub reason: usize,
    /// The files: for each a byte with the number of its scope, and its name.
    pub files: usize,
    /// How many files there are.
    pub count: usize,
    /// The file of each scope, as the files.
    pub of_scopes: usize,
    /// How many scopes have one.
    pub scope_count: usize,
    /// The line on which Git stops.
    pub line: usize,
    /// The number of bytes that the texts take.
    pub size: usize,
    /// The subject of a question.
    pub subject: u32,
    /// What Git does: 0 it finds no repository, 1 it uses one, 2 it refuses one, 3 it stops.
    pub outcome: u32,
    /// The number of the refusal, or of the reason for which Git stops.
    pub kind: u32,
    /// 1 if HEAD names a branch, and otherwise 0.
    pub has_branch: u32,
}

/// A search finds no repository.
const FINDS_NONE: u32 = 0;
/// A search finds a repository that Git uses.
const USES: u32 = 1;
/// A search finds a repository that Git does not use.
const REFUSES: u32 = 2;
/// A search comes to where Git stops.
const STOPS: u32 = 3;

/// Texts, each with a NUL at its end, and what else a search tells.
#[derive(Drop)]
struct Told {
    bytes: Vec<u8>,
    found: GcvFound,
}

impl Told {
    /// Nothing.
    fn new(alloc: Global) -> Told {
        Told {
            bytes: Vec::new(alloc),
            found: GcvFound {
                folder: 0,
                git_dir: 0,
                real_git_dir: 0,
                branch: 0,
                file: 0,
                reason: 0,
                files: 0,
                count: 0,
                of_scopes: 0,
                scope_count: 0,
                line: 0,
                size: 0,
                subject: 0,
                outcome: FINDS_NONE,
                kind: 0,
                has_branch: 0,
            },
        }
    }

    /// Appends a text and NUL, and returns where the text begins.
    fn push(&mut self, text: &[u8]) -> Result<usize, AllocError> {
        let at = self.bytes.len();
        self.bytes.extend_from_slice(text)?;
        self.bytes.push(0)?;
        Ok(at)
    }

    /// Tells of a repository.
    fn push_repository(&mut self, repository: &Repository) -> Result<(), AllocError> {
        self.found.outcome = USES;
        self.found.git_dir = self.push(&repository.git_dir)?;
        self.found.real_git_dir = self.push(&repository.real_git_dir)?;
        if let Some(branch) = &repository.branch {
            self.found.has_branch = 1;
            self.found.branch = self.push(branch)?;
        }
        Ok(())
    }

    /// Tells why Git uses no repository.
    fn push_refusal(&mut self, alloc: Global, refusal: &Refusal) -> Result<(), AllocError> {
        self.found.outcome = REFUSES;
        self.found.kind = refusal_number(refusal);
        let words = refusal.words(alloc)?;
        self.found.reason = self.push(&words)?;
        Ok(())
    }

    /// Tells where Git stops.
    fn push_stop(&mut self, stop: &Stop<Vec<u8>>) -> Result<(), AllocError> {
        self.found.outcome = STOPS;
        self.found.kind = stop.why.number();
        self.found.line = stop.line;
        self.found.file = self.push(&stop.file)?;
        self.found.reason = self.push(&stop.words)?;
        Ok(())
    }

    /// Tells what Git does.
    fn push_outcome(&mut self, alloc: Global, outcome: &Outcome) -> Result<(), AllocError> {
        match outcome {
            Outcome::FindsNone => Ok(()),
            Outcome::Uses(repository) => self.push_repository(repository),
            Outcome::Refuses(refusal) => self.push_refusal(alloc, refusal),
            Outcome::Stops(stop) => self.push_stop(stop),
        }
    }

    /// Appends files, and returns where they begin.
    fn push_files(&mut self, files: &[Named]) -> Result<usize, AllocError> {
        let at = self.bytes.len();
        for file in files {
            self.bytes.push(scope_number(file.scope))?;
            self.push(&file.name)?;
        }
        Ok(at)
    }

    /// Tells the answer, after an empty text for those that do not belong to it.
    fn push_answer(&mut self, alloc: Global, answer: &Answer) -> Result<(), AllocError> {
        self.push(b"")?;
        self.found.folder = self.push(&answer.folder)?;
        self.push_outcome(alloc, &answer.outcome)?;
        self.found.count = answer.files.len();
        self.found.files = self.push_files(&answer.files)?;
        self.found.scope_count = answer.of_scopes.len();
        self.found.of_scopes = self.push_files(&answer.of_scopes)?;
        Ok(())
    }
}

/// The number of a scope.
fn scope_number(scope: Scope) -> u8 {
    match scope {
        Scope::System => 1,
        Scope::Global => 2,
        Scope::Local => 3,
        Scope::Worktree => 4,
        Scope::Command => 5,
    }
}

/// The number of a refusal.
fn refusal_number(refusal: &Refusal) -> u32 {
    match refusal {
        Refusal::GitDir(_) => 1,
        Refusal::Version(_) => 2,
        Refusal::Extension(_) => 3,
        Refusal::ExtensionOfLater(_) => 4,
        Refusal::Owner(_) => 5,
        Refusal::Bare(_) => 6,
        // none that a header of this version names
        _ => 0,
    }
}

/// What a search tells next, and the status of that.
fn told_next(alloc: Global, search: &mut Search<'static>) -> Result<(Told, u32), AllocError>
    ensures { search.new ≡ search.old }
{
    let mut told = Told::new(alloc);
    match search.next() {
        Ok(answer) => {
            told.push_answer(alloc, &answer)?;
            Ok((told, Status::Ok as u32))
        }
        Err(Pause::Ask(question)) => {
            told.found.subject = question.subject;
            told.push(&question.name)?;
            Ok((told, Status::Asks as u32))
        }
        Err(Pause::Memory(error)) => Err(error),
    }
}

/// Puts what a search has told into the memory of C, if there is room for its texts, and returns the status.
fn put_told(told: Result<(Told, u32), AllocError>, buffer: &mut [u8], out: &mut GcvFound) -> u32 {
    let Ok((Told { bytes, mut found }, status)) = told else {
        return Status::NoMemory as u32;
    };
    found.size = bytes.len();
    *out = found;
    if buffer.len() < bytes.len() {
        return Status::ShortBuffer as u32;
    }
    buffer[..bytes.len()].copy_from_slice(&bytes);
    status
}

/// Begins a search in a folder, and hands it to C. C keeps the folder as it is until the search has ended.
///
/// Returns `NoMemory` if memory is refused, and then hands nothing to C.
#[unsafe(no_mangle)]
pub extern "C" fn gcv_raw_begin_search(
    alloc: Global,
    folder: &'static [u8],
    out: &mut GcvSearch,
) -> u32
    ensures begun { Begins folder.now out.new.told result }
    ensures refused { Refuses out.old.told out.new.told result }
{
    match Box::new(alloc, Search::new(alloc, folder)) {
        Ok(search) => {
            out.put(search);
            Status::Ok as u32
        }
        Err(_) => Status::NoMemory as u32,
    }
}

/// Tells a search that C holds a fact. C keeps the texts of the fact as they are until the search has ended.
///
/// Returns `NoMemory` if memory is refused, and then has told nothing.
#[unsafe(no_mangle)]
pub extern "C" fn gcv_raw_tell_fact(
    alloc: Global,
    search: &mut GcvSearch,
    fact: &Fact<'static>,
) -> u32
    requires { is_some search.old.told ≡ true }
    ensures held { is_some search.new.told ≡ true }
    ensures told { Tells fact.now search.old.told search.new.told result }
{
    let mut held = search.take(alloc);
    let told = held.tell(*fact);
    search.put(held);
    match told {
        Ok(()) => Status::Ok as u32,
        Err(_) => Status::NoMemory as u32,
    }
}

/// Goes on with a search that C holds. Puts the texts that it tells at the front of the buffer, and tells the rest in
/// `out`.
///
/// Returns `Asks` if it needs a fact that it was not told: `subject` and `folder` are the question. Returns
/// `ShortBuffer` if the buffer is shorter than the texts, and then only writes `out`. Returns `NoMemory` if memory is
/// refused, and then writes nothing. After both the next call tells the same.
#[unsafe(no_mangle)]
pub extern "C" fn gcv_raw_continue_search(
    alloc: Global,
    search: &mut GcvSearch,
    buffer: &mut [u8],
    out: &mut GcvFound,
) -> u32
    requires { is_some search.old.told ≡ true }
    ensures { search.new.told ≡ search.old.told }
{
    let mut held = search.take(alloc);
    let told = told_next(alloc, &mut held);
    search.put(held);
    put_told(told, buffer, out)
}

/// Ends a search that C holds, and frees its memory.
#[unsafe(no_mangle)]
pub extern "C" fn gcv_raw_end_search(alloc: Global, search: &mut GcvSearch)
    requires { is_some search.old.told ≡ true }
    ensures { search.new.told ≡ None }
{
    drop(search.take(alloc));
}
