//! What conditions of includes ask about.
ghost use Rattle.std.specs.Prelude.{◌≡◌, ℕ, List, true, MatchResult, option_copied, option_map};
ghost use Rattle.std.specs.List.{list_any};
ghost use Rattle.config_search.specs.System.{System, AreTrueIn};
ghost use Rattle.config_search.specs.Folder as folder;
ghost use Rattle.config_search.specs.Handing.{GoesOnBy, Knows};
ghost use Rattle.config_search.specs.Reads as reads;
ghost use Rattle.config_search.specs.Shown.{IsNew};
ghost use Rattle.config_search.specs.declared.answer.Outcome.{Outcome as OutcomeOf};

use crate::answer::{Answer, Outcome, Repository};
use crate::command::kept;
use crate::fact::{Lookup, Pause, answer_to};
use crate::reader::Source;
use crate::rounds::some_include;
use crate::{REAL, VARIABLE};
use config_file::{Directories, Includes, Known, Urls};
use std::alloc::AllocError;

/// Which includes are followed.
///
/// ```rust
/// use config_file::Scope;
/// use config_search::settings::Collector;
/// use config_search::{Fact, Follows, REAL, Reading, Text};
///
/// let mut texts = Vec::new(alloc);
/// texts.push(Text { scope: Scope::Local, name: b"config", text: b"[include]\n\tpath = more\n", is_file: true })?;
/// let mut reading = Reading::of_texts(alloc, b"", b"", texts, Follows::Nothing);
/// reading.tell(Fact { name: b"config", text: b"/a/config", subject: REAL, has: 1 })?;
/// assert!(rt; reading.read(&mut Collector::new(alloc)).is_ok()); // nothing is asked about `more`
/// ```
#[derive(Clone, Copy, PartialEq, Eq)]
pub enum Follows {
    /// None of them.
    Nothing,
    /// Those that Git follows.
    AsGit,
    /// All of them, whatever their conditions.
    Everything,
}

/// The home folder without links.
fn real_home<'t>(lookup: &Lookup<'_, 't>, home: Option<&'t [u8]>) -> Result<Option<&'t [u8]>, Pause>
    ensures { MatchResult result
        (λ real. (system : System) → AreTrueIn system lookup.now.facts.now
        → option_copied real ≡ folder.without_links system (option_copied home.entry))
        (IsNew lookup.now.folder.now lookup.now.facts.now) }
{
    let Some(home) = home else {
        return Ok(None);
    };
    match answer_to(lookup, REAL, home)? {
        Some(real) => Ok(Some(real)),
        None => Ok(Some(home)),
    }
}

/// The branch of a repository, as long as facts live.
fn kept_branch<'t>(
    lookup: &Lookup<'_, 't>,
    branch: &Option<Vec<u8>>,
) -> Result<Option<&'t [u8]>, Pause>
    ensures { MatchResult result
        (λ made. option_copied made ≡ option_map (λ name. name.items) branch.now)
        (IsNew lookup.now.folder.now lookup.now.facts.now) }
{
    match branch {
        Some(branch) => Ok(Some(kept(lookup, branch)?)),
        None => Ok(None),
    }
}

/// What conditions ask about a repository.
fn conditions_on<'t>(
    lookup: &Lookup<'_, 't>,
    home: Option<&'t [u8]>,
    repository: &Repository,
) -> Result<config_file::Repository<'t>, Pause>
    ensures { MatchResult result
        (λ made. (system : System) → AreTrueIn system lookup.now.facts.now
        → option_copied home.entry ≡ folder.home system
        → folder.IsAbout system repository.now made)
        (IsNew lookup.now.folder.now lookup.now.facts.now) }
{
    Ok(config_file::Repository {
        real_git_dir: kept(lookup, &repository.real_git_dir)?,
        git_dir: kept(lookup, &repository.git_dir)?,
        branch: kept_branch(lookup, &repository.branch)?,
        real_home: real_home(lookup, home)?,
    })
}

/// What conditions ask about the repository that Git uses, if it uses one.
fn repository_of<'t>(
    lookup: &Lookup<'_, 't>,
    home: Option<&'t [u8]>,
    outcome: &Outcome,
) -> Result<Option<config_file::Repository<'t>>, Pause>
    ensures { MatchResult result
        (λ found. (system : System) → AreTrueIn system lookup.now.facts.now
        → option_copied home.entry ≡ folder.home system
        → folder.IsAboutUsed system outcome.now found)
        (IsNew lookup.now.folder.now lookup.now.facts.now) }
{
    match outcome {
        Outcome::Uses(repository) => Ok(Some(conditions_on(lookup, home, repository)?)),
        _ => Ok(None),
    }
}

/// What includes ask about where this is what Git does. Where none of the texts includes a file, or none is followed, it
/// does not matter.
pub(crate) fn known_at<'t>(
    lookup: &Lookup<'_, 't>,
    follows: Follows,
    answer: &Option<Answer>,
    texts: &[Source<'_>],
) -> Result<Known<'t>, Pause>
    ensures { MatchResult result
        (λ known. (system : System) (asked : List ℕ) → AreTrueIn system lookup.now.facts.now
        → Knows system asked answer.now → GoesOnBy answer.now
        → list_any (λ source. reads.has_include source.text.now) texts.now ≡ true
        → folder.IsKnownBy system asked follows answer.now known)
        (IsNew lookup.now.folder.now lookup.now.facts.now) }
{
    if follows == Follows::Nothing || !some_include(texts) {
        return Ok(Known {
            directories: Directories {
                home: None,
                install_dir: None,
            },
            includes: included(follows, None),
        });
    }
    let Some(answer) = answer else {
        return Err(Pause::Memory(AllocError));
    };
    let home = answer_to(lookup, VARIABLE, b"HOME")?;
    let repository = repository_of(lookup, home, &answer.outcome)?;
    Ok(Known {
        directories: Directories {
            home,
            install_dir: None,
        },
        includes: included(follows, repository),
    })
}

/// These includes, where conditions ask about this repository and no URL of a remote is known.
fn included(follows: Follows, repository: Option<config_file::Repository<'_>>) -> Includes<'_>
    ensures { (system : System) (outcome : OutcomeOf) → folder.IsAboutUsed system outcome repository.entry
        → folder.AreFollowed system follows outcome result }
{
    match follows {
        Follows::Nothing => Includes::Skipped,
        Follows::AsGit => Includes::AsGit(repository, Urls::Known(&[])),
        Follows::Everything => Includes::All,
    }
}
