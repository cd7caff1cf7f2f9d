//! The search in stages. What a stage has found is kept, so that nothing begins anew when a fact is told.
ghost use Rattle.std.specs.Prelude.{◌≡◌, ◌∷◌, ◌++◌, ℕ, List, [], None, Decides, IfOk, IfSome, OnErr, OnOk, MatchOption, MatchResult, codes};
ghost use Rattle.config_search.specs.System.{System, AreTrueIn};
ghost use Rattle.config_search.specs.Questions.{IsPlace};
ghost use Rattle.config_search.specs.Shown.{IsNew, IsNewHalt, IsStore, AreLimits, first_of, found_of, git_dir_of};
ghost use Rattle.config_search.specs.Answers as answers;
ghost use Rattle.config_search.specs.Search as search;
ghost use Rattle.config_search.specs.Stages as stages;
ghost use Rattle.config_search.specs.declared.TheConstants.{VARIABLE};
ghost use Rattle.config_search.specs.Trust.{SaysSafe};
ghost use Rattle.config_search.specs.declared.answer.Outcome.TheVariants.{Stops};
ghost use Rattle.config_search.specs.declared.stages.Stage.TheVariants.{Opens, Reads, Weighs, Names, Trusts, States, Knows, Does};

use crate::VARIABLE;
use crate::answer::{Answer, Outcome, Refusal};
use crate::fact::{Fact, Facts, Lookup, Pause, answer_to};
use crate::files::protected_files;
use crate::format::{Format, Store, format_in, given_store, own_text};
use crate::halt::Halt;
use crate::name::{copied, parent};
use crate::owner::{Naming, Weighed, is_weighed, weigh};
use crate::place::{Place, Site, check_booleans, lists_of, nowhere, place_by_format, site_of};
use crate::protected::{Collected, outside};
use crate::rounds::Rounds;
use crate::seek::{
    Discovery, Folder, GitDir, Limits, find_given, find_in, first_folder, real_folder,
};
use crate::texts::Opening;
use config_file::Settings;
use std::alloc::{AllocError, Global};
use std::marker::Model;
use std::mem;

/// What a search has come to.
#[derive(Drop)]
pub(crate) enum Stage<'t> {
    /// To nothing.
    Begins,
    /// To the folder in which Git starts.
    Starts(Folder<'t>),
    /// To what ends a way up, of which not all may be known.
    Bounds(Folder<'t>, Limits<'t>),
    /// To a folder up to which there is no git directory.
    Climbs(Folder<'t>, Limits<'t>, &'t [u8]),
    /// To what is found from the folder in which Git starts.
    Finds(Folder<'t>, Discovery<'t>),
    /// To a git directory, of which is not known whether Git trusts it.
    Has(Site<'t>),
    /// To one that settings decide about, whose texts are being opened.
    Opens(Site<'t>, Opening<'t>),
    /// They are being read.
    Reads(Site<'t>, Rounds<'t>, Collected<'t>),
    /// All are read.
    Weighs(Site<'t>, Settings<'t>),
    /// Some are looked through for those that name the folder as safe.
    Names(Site<'t>, Naming<'t>),
    /// To one that Git trusts.
    Trusts(Site<'t>),
    /// To what the file that work trees share states of its format.
    States(Site<'t>, Format),
    /// To one whose format is known.
    Knows(Site<'t>, Format),
    /// To what Git does.
    Does(Place),
}

/// What one step upwards comes to.
#[derive(Drop)]
pub(crate) enum Climb<'t> {
    /// To the end of the search.
    Ends(Discovery<'t>),
    /// To this folder, up to which there is no git directory.
    Goes(&'t [u8]),
}

/// A stage, and why it is not passed, if it is not.
#[derive(Drop)]
struct Passed<'t> {
    stage: Stage<'t>,
    pause: Option<Pause>,
}

/// The same git directory once more.
fn same_git_dir(alloc: Global, git_dir: &GitDir) -> Result<GitDir, AllocError>
    ensures { IfOk result (λ made. git_dir_of made ≡ git_dir_of git_dir.now) }
{
    Ok(GitDir {
        name: git_dir.name.to_vec(alloc)?,
        named: git_dir.named.to_vec(alloc)?,
        form: git_dir.form,
    })
}

/// The folder in which Git starts.
fn begin<'t>(lookup: &Lookup<'_, 't>) -> Result<Stage<'t>, Pause>
    ensures { MatchResult result (stages.IsRight lookup.now.folder.now lookup.now.facts.now)
        (IsNew lookup.now.folder.now lookup.now.facts.now) }
{
    match first_folder(lookup)? {
        Some(start) => Ok(Stage::Starts(start)),
        None => Ok(Stage::Does(nowhere(lookup.alloc, lookup.folder)?)),
    }
}

/// What is found in the folder itself, or the start of the way up.
fn look_in<'t>(lookup: &Lookup<'_, 't>, start: Folder<'t>) -> Result<Stage<'t>, Pause>
    requires started { (system : System) → AreTrueIn system lookup.now.facts.now
        → stages.IsStart system lookup.now.folder.now start }
    requires place { IsPlace lookup.now.folder.now lookup.now.facts.now start.name.now }
    requires unset { (system : System) → AreTrueIn system lookup.now.facts.now
        → system VARIABLE (codes "GIT_DIR") ≡ None }
    ensures { MatchResult result (stages.IsRight lookup.now.folder.now lookup.now.facts.now)
        (IsNew lookup.now.folder.now lookup.now.facts.now) }
{
    if let Some(git_dir) = find_in(lookup, start.name, start.name)? {
        return Ok(Stage::Finds(start, Discovery::In(start, git_dir)));
    }
    let limits = Limits::new(lookup, start.name)?;
    Ok(Stage::Bounds(start, limits))
}

/// What is found without going upwards, or the start of the way up.
fn look_at<'t>(lookup: &Lookup<'_, 't>, start: Folder<'t>) -> Result<Stage<'t>, Pause>
    requires started { (system : System) → AreTrueIn system lookup.now.facts.now
        → stages.IsStart system lookup.now.folder.now start }
    requires place { IsPlace lookup.now.folder.now lookup.now.facts.now start.name.now }
    ensures { MatchResult result (stages.IsRight lookup.now.folder.now lookup.now.facts.now)
        (IsNew lookup.now.folder.now lookup.now.facts.now) }
{
    match answer_to(lookup, VARIABLE, b"GIT_DIR")? {
        Some(given) => Ok(Stage::Finds(start, find_given(lookup, start, given)?)),
        None => Ok(look_in(lookup, start)?),
    }
}

/// One step upwards from a folder up to which there is no git directory.
fn step_up<'t>(
    lookup: &Lookup<'_, 't>,
    start: &[u8],
    limits: &Limits<'t>,
    at: &'t [u8],
) -> Result<Climb<'t>, Pause>
    requires start_place { IsPlace lookup.now.folder.now lookup.now.facts.now start.now }
    requires place { IsPlace lookup.now.folder.now lookup.now.facts.now at.now }
    ensures { MatchResult result
        (λ step. (system : System) → AreTrueIn system lookup.now.facts.now
        → AreLimits system start.now limits.now → limits.now.rest ≡ None → stages.IsStep system lookup.now.folder.now start.now at.now step)
        (IsNew lookup.now.folder.now lookup.now.facts.now) }
{
    let Some(above) = parent(at) else {
        return Ok(Climb::Ends(Discovery::Nothing));
    };
    if limits.end_at(lookup, above)? {
        return Ok(Climb::Ends(Discovery::Nothing));
    }
    if let Some(git_dir) = find_in(lookup, start, above)? {
        let place = Folder {
            name: above,
            path: above,
        };
        return Ok(Climb::Ends(Discovery::In(place, git_dir)));
    }
    Ok(Climb::Goes(above))
}

impl<'t> Passed<'t> {
    /// To the next stage.
    fn to(stage: Stage<'t>) -> Passed<'t>
        ensures same { result.stage ≡ stage.entry }
        ensures none { result.pause ≡ None }
    {
        Passed { stage, pause: None }
    }

    /// Not further than this stage.
    fn stays(stage: Stage<'t>, pause: Pause) -> Passed<'t>
        ensures same { result.stage ≡ stage.entry }
        ensures stops { result.pause ≡ Some pause }
    {
        Passed {
            stage,
            pause: Some(pause),
        }
    }
}

/// What comes after a stage that looks at what ends a way up.
#[inline(never)]
fn pass_bounds<'t>(lookup: &Lookup<'_, 't>, start: Folder<'t>, limits: Limits<'t>) -> Passed<'t>
    requires { (system : System) → AreTrueIn system lookup.now.facts.now
        → stages.IsBounded system lookup.now.folder.now start limits }
    ensures right { stages.IsRight lookup.now.folder.now lookup.now.facts.now result.stage }
    ensures asks { IfSome result.pause (IsNew lookup.now.folder.now lookup.now.facts.now) }
{
    let mut limits = limits;
    if !limits.are_whole() {
        return match limits.push_next(lookup) {
            Ok(()) => Passed::to(Stage::Bounds(start, limits)),
            Err(pause) => Passed::stays(Stage::Bounds(start, limits), pause),
        };
    }
    let found = match real_folder(lookup, start.name) {
        Ok(found) => found,
        Err(pause) => return Passed::stays(Stage::Bounds(start, limits), pause),
    };
    match found {
        Some(lowest) => Passed::to(Stage::Climbs(start, limits, lowest)),
        None => Passed::to(Stage::Finds(start, Discovery::Nothing)),
    }
}

/// What comes after a stage in which the search climbs.
#[inline(never)]
fn pass_up<'t>(
    lookup: &Lookup<'_, 't>,
    start: Folder<'t>,
    limits: Limits<'t>,
    at: &'t [u8],
) -> Passed<'t>
    requires right { (system : System) → AreTrueIn system lookup.now.facts.now
        → stages.IsUpTo system lookup.now.folder.now start limits at.now }
    ensures right { stages.IsRight lookup.now.folder.now lookup.now.facts.now result.stage }
    ensures asks { IfSome result.pause (IsNew lookup.now.folder.now lookup.now.facts.now) }
{
    match step_up(lookup, start.name, &limits, at) {
        Ok(Climb::Ends(found)) => Passed::to(Stage::Finds(start, found)),
        Ok(Climb::Goes(above)) => Passed::to(Stage::Climbs(start, limits, above)),
        Err(pause) => Passed::stays(Stage::Climbs(start, limits, at), pause),
    }
}

/// This is what Git does, unless it stops at GIT_REFERENCE_BACKEND.
fn settle<'t>(
    lookup: &Lookup<'_, 't>,
    start: Folder<'t>,
    outcome: Outcome,
) -> Result<Stage<'t>, Halt>
    requires { (system : System) → AreTrueIn system lookup.now.facts.now
        → answers.Does system (search.start_of lookup.now.folder.now)
        (search.path_of system (search.start_of lookup.now.folder.now)) outcome }
    ensures { MatchResult result (stages.IsRight lookup.now.folder.now lookup.now.facts.now)
        (IsNewHalt lookup.now.folder.now lookup.now.facts.now) }
{
    given_store(lookup)?;
    let place = Place::new(lookup.alloc, start, outcome)?;
    Ok(Stage::Does(place))
}

/// What Git does where it finds this, or the git directory that it finds.
fn find<'t>(
    lookup: &Lookup<'_, 't>,
    start: Folder<'t>,
    found: &Discovery<'t>,
) -> Result<Stage<'t>, Halt>
    requires started { (system : System) → AreTrueIn system lookup.now.facts.now
        → stages.IsStart system lookup.now.folder.now start }
    requires sought { (system : System) → AreTrueIn system lookup.now.facts.now
        → search.Seeks system start.name.now (found_of found.now) }
    ensures { MatchResult result (stages.IsRight lookup.now.folder.now lookup.now.facts.now)
        (IsNewHalt lookup.now.folder.now lookup.now.facts.now) }
{
    check_booleans(lookup)?;
    match found {
        Discovery::In(folder, git_dir) => {
            let git_dir = same_git_dir(lookup.alloc, git_dir)?;
            let site = site_of(lookup, start, *folder, git_dir)?;
            Ok(Stage::Has(site))
        }
        Discovery::Nothing => Ok(settle(lookup, start, Outcome::FindsNone)?),
        Discovery::Refused(given) => {
            let text = given.to_vec(lookup.alloc)?;
            Ok(settle(lookup, start, Outcome::Refuses(Refusal::GitDir(text)))?)
        }
    }
}

/// What Git does with a git directory that it does not use for this reason.
fn refuse<'t>(lookup: &Lookup<'_, 't>, site: &Site<'t>, refusal: Refusal) -> Result<Stage<'t>, Halt>
    requires right { (system : System) → AreTrueIn system lookup.now.facts.now
        → stages.IsSite system lookup.now.folder.now site.now }
    requires refuses { (system : System) → AreTrueIn system lookup.now.facts.now
        → answers.RefusesIt system site.now.start.name.now
        (search.Inside site.now.folder.name.now (git_dir_of site.now.git_dir)) refusal }
    ensures { MatchResult result (stages.IsRight lookup.now.folder.now lookup.now.facts.now)
        (IsNewHalt lookup.now.folder.now lookup.now.facts.now) }
{
    Ok(settle(lookup, site.start, Outcome::Refuses(refusal))?)
}

/// The format that is stated of a git directory, in which references are stored as it is given.
fn read_format(
    lookup: &Lookup<'_, '_>,
    site: &Site<'_>,
    given: Option<Store>,
) -> Result<Format, Halt>
    requires { IfSome given (IsStore lookup.now.facts.now) }
    ensures { MatchResult result
        (λ format. (system : System) → AreTrueIn system lookup.now.facts.now → stages.IsNamedBy system format)
        (IsNewHalt lookup.now.folder.now lookup.now.facts.now) }
{
    let mut format = format_in(lookup, site.common.or(&site.git_dir.name))?;
    format.store = given.unwrap_or(format.store);
    Ok(format)
}

/// Where Git stops in this folder, or a stage that is not passed.
fn halts<'t>(
    lookup: &Lookup<'_, 't>,
    folder: Folder<'t>,
    stage: Stage<'t>,
    halt: Halt,
) -> Passed<'t>
    requires right { stages.IsRight lookup.now.folder.now lookup.now.facts.now stage }
    requires stops { (system : System) (stop : _) → AreTrueIn system lookup.now.facts.now
        → answers.Does system (search.start_of lookup.now.folder.now)
        (search.path_of system (search.start_of lookup.now.folder.now)) (Stops stop) }
    requires asks { IsNewHalt lookup.now.folder.now lookup.now.facts.now halt }
    ensures right { stages.IsRight lookup.now.folder.now lookup.now.facts.now result.stage }
    ensures asks { IfSome result.pause (IsNew lookup.now.folder.now lookup.now.facts.now) }
{
    match halt {
        Halt::Pauses(pause) => Passed::stays(stage, pause),
        Halt::Fails(_) => Passed::stays(stage, Pause::Memory(AllocError)),
        Halt::Stops(stop) => match Place::new(lookup.alloc, folder, Outcome::Stops(stop)) {
            Ok(place) => Passed::to(Stage::Does(place)),
            Err(error) => Passed::stays(stage, Pause::Memory(error)),
        },
    }
}

/// What comes after a stage that has found something.
#[inline(never)]
fn pass_found<'t>(lookup: &Lookup<'_, 't>, start: Folder<'t>, found: Discovery<'t>) -> Passed<'t>
    requires started { (system : System) → AreTrueIn system lookup.now.facts.now
        → stages.IsStart system lookup.now.folder.now start }
    requires sought { (system : System) → AreTrueIn system lookup.now.facts.now
        → search.Seeks system start.name.now (found_of found) }
    ensures right { stages.IsRight lookup.now.folder.now lookup.now.facts.now result.stage }
    ensures asks { IfSome result.pause (IsNew lookup.now.folder.now lookup.now.facts.now) }
{
    match find(lookup, start, &found) {
        Ok(stage) => Passed::to(stage),
        Err(halt) => halts(lookup, start, Stage::Finds(start, found), halt),
    }
}

/// Whether Git trusts a git directory without settings, or the texts of those that decide.
fn begin_weighing<'t>(
    lookup: &Lookup<'_, 't>,
    site: &Site<'t>,
) -> Result<Option<Opening<'t>>, Pause>
    requires { (system : System) → AreTrueIn system lookup.now.facts.now
        → stages.IsSite system lookup.now.folder.now site.now }
    ensures { MatchResult result
        (λ found. (system : System) → AreTrueIn system lookup.now.facts.now
        → MatchOption found (stages.IsSafeSite system site.now) (stages.OpensProtected system site.now))
        (IsNew lookup.now.folder.now lookup.now.facts.now) }
{
    if !is_weighed(lookup, site.folder.name, &site.git_dir)? {
        return Ok(None);
    }
    let files = protected_files(lookup)?;
    Ok(Some(Opening::new(lookup, site.start.name, &files)?))
}

/// What comes after a stage that has a git directory.
#[inline(never)]
fn pass_site<'t>(lookup: &Lookup<'_, 't>, site: Site<'t>) -> Passed<'t>
    requires { (system : System) → AreTrueIn system lookup.now.facts.now
        → stages.IsSite system lookup.now.folder.now site }
    ensures right { stages.IsRight lookup.now.folder.now lookup.now.facts.now result.stage }
    ensures asks { IfSome result.pause (IsNew lookup.now.folder.now lookup.now.facts.now) }
{
    let found = match begin_weighing(lookup, &site) {
        Ok(found) => found,
        Err(pause) => return Passed::stays(Stage::Has(site), pause),
    };
    match found {
        None => Passed::to(Stage::Trusts(site)),
        Some(opening) => Passed::to(Stage::Opens(site, opening)),
    }
}

/// What comes after a stage in which texts are opened.
#[inline(never)]
fn pass_opens<'t>(lookup: &Lookup<'_, 't>, site: Site<'t>, opening: Opening<'t>) -> Passed<'t>
    requires { (system : System) → AreTrueIn system lookup.now.facts.now
        → stages.Right system lookup.now.folder.now (Opens site opening) }
    ensures right { stages.IsRight lookup.now.folder.now lookup.now.facts.now result.stage }
    ensures asks { IfSome result.pause (IsNew lookup.now.folder.now lookup.now.facts.now) }
{
    let mut opening = opening;
    if !opening.is_whole {
        return match opening.go_on(lookup) {
            Ok(()) => Passed::to(Stage::Opens(site, opening)),
            Err(pause) => Passed::stays(Stage::Opens(site, opening), pause),
        };
    }
    match outside(lookup) {
        Ok(known) => {
            let rounds = Rounds::new(lookup.alloc, opening.texts, known);
            Passed::to(Stage::Reads(site, rounds, Collected::new(lookup.alloc)))
        }
        Err(pause) => Passed::stays(Stage::Opens(site, opening), pause),
    }
}

/// What comes after a stage in which texts are read.
#[inline(never)]
fn pass_reads<'t>(
    lookup: &Lookup<'_, 't>,
    site: Site<'t>,
    rounds: Rounds<'t>,
    collected: Collected<'t>,
) -> Passed<'t>
    requires { (system : System) → AreTrueIn system lookup.now.facts.now
        → stages.Right system lookup.now.folder.now (Reads site rounds collected) }
    ensures right { stages.IsRight lookup.now.folder.now lookup.now.facts.now result.stage }
    ensures asks { IfSome result.pause (IsNew lookup.now.folder.now lookup.now.facts.now) }
{
    let (mut rounds, mut collected) = (rounds, collected);
    let start = site.start;
    match rounds.read(lookup, start.name, &mut collected) {
        Ok(()) => Passed::to(Stage::Weighs(site, collected.settings)),
        Err(halt) => match halt.into_stop() {
            Ok(stop) => halts(lookup, start, Stage::Begins, Halt::Stops(stop)),
            Err(pause) => match pause {
                Pause::Ask(question) => {
                    Passed::stays(Stage::Reads(site, rounds, collected), Pause::Ask(question))
                }
                // what is read is lost, where memory is refused
                Pause::Memory(error) => Passed::stays(Stage::Begins, Pause::Memory(error)),
            },
        },
    }
}

/// What comes after a stage in which all settings are read.
#[inline(never)]
fn pass_weighed<'t>(lookup: &Lookup<'_, 't>, site: Site<'t>, settings: Settings<'t>) -> Passed<'t>
    requires { (system : System) → AreTrueIn system lookup.now.facts.now
        → stages.Right system lookup.now.folder.now (Weighs site settings) }
    ensures right { stages.IsRight lookup.now.folder.now lookup.now.facts.now result.stage }
    ensures asks { IfSome result.pause (IsNew lookup.now.folder.now lookup.now.facts.now) }
{
    let start = site.start;
    let weighed = match weigh(lookup, site.folder, &site.git_dir, &settings.entries) {
        Ok(weighed) => weighed,
        Err(halt) => return halts(lookup, start, Stage::Weighs(site, settings), halt),
    };
    match weighed {
        Weighed::Trusted => Passed::to(Stage::Trusts(site)),
        Weighed::Other(real) => Passed::to(Stage::Names(site, Naming::new(settings, real))),
        Weighed::Refused(refusal) => match refuse(lookup, &site, refusal) {
            Ok(stage) => Passed::to(stage),
            Err(halt) => halts(lookup, start, Stage::Weighs(site, settings), halt),
        },
    }
}

/// What Git does once it is known whether a folder is safe.
fn decide<'t>(
    lookup: &Lookup<'_, 't>,
    site: &Site<'t>,
    naming: &Naming<'t>,
    is_safe: bool,
) -> Result<Option<Stage<'t>>, Halt>
    requires right { (system : System) → AreTrueIn system lookup.now.facts.now
        → stages.IsSite system lookup.now.folder.now site.now × stages.IsNaming system site.now naming.now }
    requires decides { (system : System) → AreTrueIn system lookup.now.facts.now
        → Decides is_safe (SaysSafe system site.now.start.name.now naming.now.folder.now
        naming.now.settings.entries.items) }
    ensures { MatchResult result
        (λ found. (system : System) → AreTrueIn system lookup.now.facts.now
        → MatchOption found (stages.IsSafeSite system site.now) (stages.Right system lookup.now.folder.now))
        (IsNewHalt lookup.now.folder.now lookup.now.facts.now) }
{
    if is_safe {
        return Ok(None);
    }
    let refusal = Refusal::Owner(naming.folder.to_vec(lookup.alloc)?);
    Ok(Some(refuse(lookup, site, refusal)?))
}

/// What comes after a stage in which settings are looked through for those that name the folder as safe.
#[inline(never)]
fn pass_named<'t>(lookup: &Lookup<'_, 't>, site: Site<'t>, naming: Naming<'t>) -> Passed<'t>
    requires { (system : System) → AreTrueIn system lookup.now.facts.now
        → stages.Right system lookup.now.folder.now (Names site naming) }
    ensures right { stages.IsRight lookup.now.folder.now lookup.now.facts.now result.stage }
    ensures asks { IfSome result.pause (IsNew lookup.now.folder.now lookup.now.facts.now) }
{
    let mut naming = naming;
    let start = site.start;
    let Some(is_safe) = naming.decides() else {
        return match naming.look_at_next(lookup, start.name) {
            Ok(()) => Passed::to(Stage::Names(site, naming)),
            Err(halt) => halts(lookup, start, Stage::Names(site, naming), halt),
        };
    };
    let found = match decide(lookup, &site, &naming, is_safe) {
        Ok(found) => found,
        Err(halt) => return halts(lookup, start, Stage::Names(site, naming), halt),
    };
    match found {
        None => Passed::to(Stage::Trusts(site)),
        Some(stage) => Passed::to(stage),
    }
}

/// What comes after a stage that has a git directory which Git trusts.
#[inline(never)]
fn pass_trusted<'t>(lookup: &Lookup<'_, 't>, site: Site<'t>) -> Passed<'t>
    requires { (system : System) → AreTrueIn system lookup.now.facts.now
        → stages.Right system lookup.now.folder.now (Trusts site) }
    ensures right { stages.IsRight lookup.now.folder.now lookup.now.facts.now result.stage }
    ensures asks { IfSome result.pause (IsNew lookup.now.folder.now lookup.now.facts.now) }
{
    let (start, folder) = (site.start, site.folder);
    let given = match given_store(lookup) {
        Ok(given) => given,
        Err(halt) => return halts(lookup, start, Stage::Trusts(site), halt),
    };
    match read_format(lookup, &site, given) {
        Ok(format) => Passed::to(Stage::States(site, format)),
        Err(halt) => halts(lookup, folder, Stage::Trusts(site), halt),
    }
}

/// What comes after a stage that knows what is stated of the format.
#[inline(never)]
fn pass_stated<'t>(lookup: &Lookup<'_, 't>, site: Site<'t>, format: Format) -> Passed<'t>
    requires { (system : System) → AreTrueIn system lookup.now.facts.now
        → stages.Right system lookup.now.folder.now (States site format) }
    ensures right { stages.IsRight lookup.now.folder.now lookup.now.facts.now result.stage }
    ensures asks { IfSome result.pause (IsNew lookup.now.folder.now lookup.now.facts.now) }
{
    if !format.has_worktree_files {
        let format = format.of_tree(site.common.is_linked());
        return Passed::to(Stage::Knows(site, format));
    }
    let mut format = format;
    let folder = site.folder;
    let found = match own_text(lookup, &site.git_dir.name) {
        Ok(found) => found,
        Err(pause) => return Passed::stays(Stage::States(site, format), pause),
    };
    let Some(text) = found else {
        return Passed::to(Stage::Knows(site, format));
    };
    match format.read_own(lookup, &site.git_dir.name, text) {
        Ok(()) => Passed::to(Stage::Knows(site, format)),
        // what is stated is lost, where memory is refused
        Err(halt) => halts(lookup, folder, Stage::Trusts(site), halt),
    }
}

/// What comes after a stage that knows the format.
#[inline(never)]
fn pass_known<'t>(lookup: &Lookup<'_, 't>, site: Site<'t>, format: Format) -> Passed<'t>
    requires { (system : System) → AreTrueIn system lookup.now.facts.now
        → stages.Right system lookup.now.folder.now (Knows site format) }
    ensures right { stages.IsRight lookup.now.folder.now lookup.now.facts.now result.stage }
    ensures asks { IfSome result.pause (IsNew lookup.now.folder.now lookup.now.facts.now) }
{
    let folder = site.folder;
    match place_by_format(lookup, &site, &format) {
        Ok(place) => Passed::to(Stage::Does(place)),
        Err(halt) => halts(lookup, folder, Stage::Knows(site, format), halt),
    }
}

/// What comes after a stage.
// No stage is inlined here, so that the stack holds the values of one stage and not of all: a run pays for each page.
#[inline(never)]
fn pass<'t>(lookup: &Lookup<'_, 't>, stage: Stage<'t>) -> Passed<'t>
    requires { stages.IsRight lookup.now.folder.now lookup.now.facts.now stage }
    ensures right { stages.IsRight lookup.now.folder.now lookup.now.facts.now result.stage }
    ensures asks { IfSome result.pause (IsNew lookup.now.folder.now lookup.now.facts.now) }
{
    match stage {
        Stage::Begins => match begin(lookup) {
            Ok(stage) => Passed::to(stage),
            Err(pause) => Passed::stays(Stage::Begins, pause),
        },
        Stage::Starts(start) => match look_at(lookup, start) {
            Ok(stage) => Passed::to(stage),
            Err(pause) => Passed::stays(Stage::Starts(start), pause),
        },
        Stage::Bounds(start, limits) => pass_bounds(lookup, start, limits),
        Stage::Climbs(start, limits, at) => pass_up(lookup, start, limits, at),
        Stage::Finds(start, found) => pass_found(lookup, start, found),
        Stage::Has(site) => pass_site(lookup, site),
        Stage::Opens(site, opening) => pass_opens(lookup, site, opening),
        Stage::Reads(site, rounds, collected) => pass_reads(lookup, site, rounds, collected),
        Stage::Weighs(site, settings) => pass_weighed(lookup, site, settings),
        Stage::Names(site, naming) => pass_named(lookup, site, naming),
        Stage::Trusts(site) => pass_trusted(lookup, site),
        Stage::States(site, format) => pass_stated(lookup, site, format),
        Stage::Knows(site, format) => pass_known(lookup, site, format),
        Stage::Does(place) => Passed::to(Stage::Does(place)),
    }
}

/// A stage, and what a search ends with there.
#[derive(Drop)]
struct Ended<'t> {
    stage: Stage<'t>,
    end: Result<Answer, Pause>,
}

/// The answer of a search that has come to what Git does.
#[inline(never)]
fn conclude<'t>(lookup: &Lookup<'_, 't>, place: Place) -> Ended<'t>
    requires { stages.IsRight lookup.now.folder.now lookup.now.facts.now (Does place) }
    ensures right { stages.IsRight lookup.now.folder.now lookup.now.facts.now result.stage }
    ensures answers { MatchResult result.end
        (λ answer. (system : System) → AreTrueIn system lookup.now.facts.now
        → answers.Answers system lookup.now.folder.now answer)
        (IsNew lookup.now.folder.now lookup.now.facts.now) }
{
    match lists_of(lookup, &place) {
        Ok(lists) => Ended {
            stage: Stage::Begins,
            end: Ok(Answer {
                folder: place.folder,
                outcome: place.outcome,
                files: lists.files,
                of_scopes: lists.of_scopes,
            }),
        },
        Err(pause) => Ended {
            stage: Stage::Does(place),
            end: Err(pause),
        },
    }
}

/// Goes on from a stage as far as facts lead.
fn go<'t>(lookup: &Lookup<'_, 't>, stage: Stage<'t>) -> Ended<'t>
    requires { stages.IsRight lookup.now.folder.now lookup.now.facts.now stage }
    ensures right { stages.IsRight lookup.now.folder.now lookup.now.facts.now result.stage }
    ensures answers { MatchResult result.end
        (λ answer. (system : System) → AreTrueIn system lookup.now.facts.now
        → answers.Answers system lookup.now.folder.now answer)
        (IsNew lookup.now.folder.now lookup.now.facts.now) }
{
    let mut stage = stage;
    'stages: for _ in 0..u64::MAX {
        match stage {
            Stage::Does(place) => return conclude(lookup, place),
            other => {
                let passed = pass(lookup, other);
                stage = passed.stage;
                if let Some(pause) = passed.pause {
                    return Ended {
                        stage,
                        end: Err(pause),
                    };
                }
            }
        }
    }
    Ended {
        stage,
        end: Err(Pause::Memory(AllocError)),
    }
}

/// What Git reads in a folder: a search that keeps what it has found.
///
/// Each question that it asks is new: none of the facts that it was told answers it. The answer is told, and the search
/// goes on where it was. Texts of facts have to live as long as the search. Which questions come is what a system makes of
/// them: a folder below 300 others takes about 900, and each file that is included one or two.
///
/// ```rust
/// use config_search::{Search, Pause, VARIABLE};
///
/// let mut search = Search::new(alloc, b"");
/// let Err(Pause::Ask(question)) = search.next() else {
///     panic!(rt; "a question");
/// };
/// assert_eq!(rt; question.subject, VARIABLE);
/// assert_eq!(rt; question.name.as_slice(), b"PWD".as_slice()); // tell the answer, and go on
/// ```
#[derive(Drop)]
pub struct Search<'t> {
    alloc: Global,
    folder: &'t [u8],
    facts: Facts<'t>,
    stage: Stage<'t>,
}

impl<'t> Model for Search<'t> {
    ghost Value = { stages.Told };

    ghost view = { λ s. record { folder = s.folder.now; facts = s.facts } };

    ghost invariant = { λ s. stages.IsRight s.folder.now s.facts s.stage };
}

impl<'t> Search<'t> {
    /// A search in this folder, of which nothing is told. The name of the folder begins in the current folder of the
    /// caller, which is meant by an empty one and by `.`.
    pub fn new(alloc: Global, folder: &'t [u8]) -> Search<'t>
        ensures { result ≡ record { folder = folder.now; facts = [] } }
    {
        Search {
            alloc,
            folder,
            facts: Facts::new(alloc),
            stage: Stage::Begins,
        }
    }

    /// Tells a fact, which may also be one that was not asked for. If one answers the same question already, that one
    /// counts. Where memory is refused nothing is told.
    pub fn tell(&mut self, fact: Fact<'t>) -> Result<(), AllocError>
        ensures told { OnOk result (self.new
            ≡ record { folder = self.old.folder; facts = self.old.facts ++ fact.entry ∷ [] }) }
        ensures same { OnErr result (self.new ≡ self.old) }
    {
        self.facts.push(self.alloc, fact)
    }

    /// What is known.
    pub(crate) fn lookup(&self) -> Lookup<'_, 't>
        ensures { (result.folder.now ≡ self.now.folder) × (result.facts.now ≡ self.now.facts) }
    {
        Lookup {
            alloc: self.alloc,
            folder: self.folder,
            facts: &self.facts,
        }
    }

    /// The fact that answers a question about this subject and this name, if one was told. It fails only if memory is
    /// refused.
    pub fn told(&self, subject: u32, name: &[u8]) -> Result<Option<Fact<'t>>, AllocError>
        ensures { IfOk result (λ fact. fact ≡ first_of self.now.facts subject name.now) }
    {
        let question = (subject, copied(self.alloc, name)?);
        Ok(self.facts.get(&question))
    }

    /// What Git reads in the folder, or the question that no fact answers yet. It stops if memory is refused too, and then
    /// may go on. After an answer the search begins again.
    pub fn next(&mut self) -> Result<Answer, Pause>
        ensures same { self.new ≡ self.old }
        ensures answers { MatchResult result
            (λ answer. (system : System) → AreTrueIn system self.old.facts
            → answers.Answers system self.old.folder answer)
            (IsNew self.old.folder self.old.facts) }
    {
        let stage = mem::replace(&mut self.stage, Stage::Begins);
        let lookup = Lookup {
            alloc: self.alloc,
            folder: self.folder,
            facts: &self.facts,
        };
        let ended = go(&lookup, stage);
        self.stage = ended.stage;
        ended.end
    }
}
