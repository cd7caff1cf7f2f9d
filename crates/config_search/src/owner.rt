//! Which repositories Git trusts: those of the same owner, and those that settings name which no repository can change.
ghost use Rattle.std.specs.Prelude.{◌≡◌, ◌≢◌, ◌≤◌, ◌⊎◌, ◌++◌, ℕ, List, [], true, false, codes, length, Decides, IfErr, IfOk, IfSome, MatchBool, MatchOption, MatchResult};
ghost use Rattle.std.specs.List.{prefix_len};
ghost use Rattle.config_file.specs.Listing.{IsListed};
ghost use Rattle.config_file.specs.Settings.{AreListed, path_bytes};
ghost use Rattle.config_file.specs.Views.{entry_of};
ghost use Rattle.config_search.specs.System.{System, AreTrueIn};
ghost use Rattle.config_search.specs.Rule.{IsBelow};
ghost use Rattle.config_search.specs.Names as names;
ghost use Rattle.config_search.specs.Owner as rule;
ghost use Rattle.config_search.specs.Reading.{IsNamedSafe, IsWeighed};
ghost use Rattle.config_search.specs.Trust as trust;
ghost use Rattle.config_search.specs.Answers.{IsOfBareOne};
ghost use Rattle.config_search.specs.Shown.{AsksNothing, IsNew, IsNewHalt, IsSafeAfter, form_of, git_dir_of};
ghost use Rattle.config_file.specs.KeyView.{key_of};
ghost use Rattle.config_search.specs.Questions.{IsPlace};

use crate::answer::Refusal;
use crate::fact::{Lookup, Pause, answer_to, is_word};
use crate::halt::{Halt, stop};
use crate::name::{after, before, inside, joined, opened};
use crate::seek::{Folder, Form, GitDir, is_on, is_same};
use crate::{HOME, OWNER, REAL, USER, VARIABLE};
use bstr::ByteSlice;
use config_file::path::expand;
use config_file::{Directories, Key, Setting, Settings, Stop, Why};
use std::alloc::{AllocError, Global};

/// Whether the file of this name, which may be a link, belongs to the user. To root it also belongs if its owner became
/// root by sudo.
fn is_owned(lookup: &Lookup<'_, '_>, name: &[u8]) -> Result<bool, Pause>
    requires { IsPlace lookup.now.folder.now lookup.now.facts.now name.now }
    ensures { MatchResult result
        (λ is. (system : System) → AreTrueIn system lookup.now.facts.now → is ≡ rule.is_owned system name.now)
        (IsNew lookup.now.folder.now lookup.now.facts.now) }
{
    let owner = answer_to(lookup, OWNER, name)?;
    let user = answer_to(lookup, USER, b"")?;
    if is_same(owner, user) {
        return Ok(true);
    }
    if !is_word(user, b"0") {
        return Ok(false);
    }
    Ok(is_same(owner, answer_to(lookup, VARIABLE, b"SUDO_UID")?))
}

/// Whether `.git` of a folder, the folder and the git directory belong to the user.
fn are_owned_below(lookup: &Lookup<'_, '_>, folder: &[u8], name: &[u8]) -> Result<bool, Pause>
    requires place { IsPlace lookup.now.folder.now lookup.now.facts.now folder.now }
    requires git_dir_place { IsPlace lookup.now.folder.now lookup.now.facts.now name.now }
    ensures { MatchResult result
        (λ are. (system : System) → AreTrueIn system lookup.now.facts.now
        → are ≡ rule.are_owned system folder.now name.now IsBelow)
        (IsNew lookup.now.folder.now lookup.now.facts.now) }
{
    let link = inside(lookup.alloc, folder, b".git")?;
    if !is_owned(lookup, &link)? {
        return Ok(false);
    }
    if !is_owned(lookup, opened(folder))? {
        return Ok(false);
    }
    is_owned(lookup, name)
}

/// Whether all files that have to belong to the user do.
fn are_owned(lookup: &Lookup<'_, '_>, folder: &[u8], git_dir: &GitDir) -> Result<bool, Pause>
    requires place { IsPlace lookup.now.folder.now lookup.now.facts.now folder.now }
    requires git_dir_place { IsPlace lookup.now.folder.now lookup.now.facts.now git_dir.now.name.items }
    ensures { MatchResult result
        (λ are. (system : System) → AreTrueIn system lookup.now.facts.now
        → are ≡ rule.are_owned system folder.now git_dir.now.name.items (form_of git_dir.now.form))
        (IsNew lookup.now.folder.now lookup.now.facts.now) }
{
    match git_dir.form {
        Form::Given => Ok(true),
        Form::Below => are_owned_below(lookup, folder, &git_dir.name),
        Form::Bare => is_owned(lookup, opened(folder)),
    }
}

/// Whether the git directory of a folder is the user's own. A variable may say that it is not, which Git has for tests.
pub(crate) fn is_own(
    lookup: &Lookup<'_, '_>,
    folder: &[u8],
    git_dir: &GitDir,
) -> Result<bool, Pause>
    requires place { IsPlace lookup.now.folder.now lookup.now.facts.now folder.now }
    requires git_dir_place { IsPlace lookup.now.folder.now lookup.now.facts.now git_dir.now.name.items }
    ensures { MatchResult result
        (λ is. (system : System) → AreTrueIn system lookup.now.facts.now
        → MatchBool is (rule.IsOwn system folder.now (git_dir_of git_dir.now))
        (¬ (rule.IsOwn system folder.now (git_dir_of git_dir.now))))
        (IsNew lookup.now.folder.now lookup.now.facts.now) }
{
    if is_on(lookup, b"GIT_TEST_ASSUME_DIFFERENT_OWNER")? {
        return Ok(false);
    }
    if are_owned(lookup, folder, git_dir)? {
        return Ok(true);
    }
    Ok(false)
}

/// How many bytes a name has before its first slash.
fn first_length(name: &[u8]) -> usize
    ensures count { result ≡ prefix_len names.is_no_slash name.now }
    ensures within { result ≤ length name.now }
{
    name.iter().take_while(|byte| **byte != b'/').count()
}

/// The path that a value of `safe.directory` spells below the home folder of another user, if it begins with one that
/// the system knows.
fn of_user(lookup: &Lookup<'_, '_>, value: &[u8]) -> Result<Option<Vec<u8>>, Pause>
    ensures { MatchResult result
        (λ found. (system : System) → AreTrueIn system lookup.now.facts.now
        → MatchOption found ((path : List ℕ) → ¬ (trust.SpellsOther system value.now path))
        (λ path. trust.SpellsOther system value.now path.items))
        (IsNew lookup.now.folder.now lookup.now.facts.now) }
{
    let Some(rest) = after(b"~", value) else {
        return Ok(None);
    };
    let (user, below) = rest.split_at(first_length(rest));
    if user.is_empty() {
        return Ok(None);
    }
    match answer_to(lookup, HOME, user)? {
        Some(home) => Ok(Some(joined(lookup.alloc, home, below, b"")?)),
        None => Ok(None),
    }
}

/// The path that a value of `safe.directory` spells, or `None` if it begins with a folder that is not known.
fn spelled(lookup: &Lookup<'_, '_>, value: &[u8]) -> Result<Option<Vec<u8>>, Pause>
    ensures { MatchResult result
        (λ found. (system : System) → AreTrueIn system lookup.now.facts.now
        → MatchOption found ((path : List ℕ) → ¬ (trust.Spells system value.now path))
        (λ path. trust.Spells system value.now path.items))
        (IsNew lookup.now.folder.now lookup.now.facts.now) }
{
    let directories = Directories {
        home: answer_to(lookup, VARIABLE, b"HOME")?,
        install_dir: None,
    };
    match expand(value, directories) {
        Some(parts) => Ok(Some(joined(lookup.alloc, parts.directory, parts.rest, b"")?)),
        None => Ok(of_user(lookup, value)?),
    }
}

/// A name without one slash at its end.
fn without_slash(name: &[u8]) -> &[u8]
    ensures { (name.now ≡ result.now ++ codes "/")
        ⊎ (((front : List ℕ) → name.now ≢ front ++ codes "/") × (name.now ≡ result.now)) }
{
    match before(b"/", name) {
        Some(front) => front,
        None => name,
    }
}

/// Whether the folder is below another one.
fn is_below(top: &[u8], folder: &[u8]) -> bool
    ensures { Decides result (trust.IsBelow top.now folder.now) }
{
    let Some(rest) = after(without_slash(top), folder) else {
        return false;
    };
    match after(b"/", rest) {
        Some(_) => true,
        None => false,
    }
}

/// Whether the folder is below the one of this name, of which an empty one is the root.
fn is_above(lookup: &Lookup<'_, '_>, name: &[u8], folder: &[u8]) -> Result<bool, Pause>
    ensures { MatchResult result
        (λ is. (system : System) → AreTrueIn system lookup.now.facts.now
        → Decides is (trust.IsAbove system name.now folder.now))
        (IsNew lookup.now.folder.now lookup.now.facts.now) }
{
    let above = if name.is_empty() { b"/" } else { name };
    match answer_to(lookup, REAL, above)? {
        Some(top) => Ok(is_below(top, folder)),
        None => Ok(false),
    }
}

/// Whether a path from the root is that of a folder, or is one above it that ends with `/*`.
fn covers(lookup: &Lookup<'_, '_>, path: &[u8], folder: &[u8]) -> Result<bool, Pause>
    ensures { MatchResult result
        (λ is. (system : System) → AreTrueIn system lookup.now.facts.now
        → Decides is (trust.Covers system path.now folder.now))
        (IsNew lookup.now.folder.now lookup.now.facts.now) }
{
    if let Some(above) = before(b"/*", path) {
        return Ok(is_above(lookup, above, folder)?);
    }
    match answer_to(lookup, REAL, path)? {
        Some(real) => Ok(real == folder),
        None => Ok(false),
    }
}

/// Whether a value of `safe.directory` names this folder: it is `*`, spells `.` where the search starts in it, or a path
/// from the root that covers it.
fn names_folder(
    lookup: &Lookup<'_, '_>,
    start: &[u8],
    value: &[u8],
    folder: &[u8],
) -> Result<bool, Pause>
    ensures { MatchResult result
        (λ is. (system : System) → AreTrueIn system lookup.now.facts.now
        → Decides is (trust.NamesFolder system start.now value.now folder.now))
        (IsNew lookup.now.folder.now lookup.now.facts.now) }
{
    if value == b"*".as_slice() {
        return Ok(true);
    }
    let Some(path) = spelled(lookup, value)? else {
        return Ok(false);
    };
    if path.as_slice() == b".".as_slice() {
        let here = inside(lookup.alloc, start, b".")?;
        return Ok(covers(lookup, &here, folder)?);
    }
    if path.starts_with(b"/") {
        return Ok(covers(lookup, &path, folder)?);
    }
    Ok(false)
}

/// The text of a setting, which is empty for a key alone.
fn text_of<'s>(setting: &'s Setting<'_>) -> &'s [u8]
    ensures { result.now ≡ path_bytes setting.now }
{
    match &setting.value {
        Some(text) => text,
        None => &[],
    }
}

/// Whether a folder was safe and stays so at a value, since that is not empty.
fn stays_safe(was_safe: bool, value: &[u8]) -> bool
    ensures { Decides result ((was_safe ≡ true) × (value.now ≢ [])) }
{
    was_safe && !value.is_empty()
}

/// Whether a folder is safe after a setting, before which it was or not. An empty value of this key takes back those
/// before it.
fn is_safe_after(
    lookup: &Lookup<'_, '_>,
    start: &[u8],
    folder: &[u8],
    key: &Key<'_>,
    setting: &Setting<'_>,
    was_safe: bool,
) -> Result<bool, Pause>
    ensures asks { IfErr result (IsNew lookup.now.folder.now lookup.now.facts.now) }
    ensures safe { (text : List ℕ)
        → IsListed (entry_of setting.now.entry).section (entry_of setting.now.entry).key text → IfOk result
        (λ is. (system : System) → AreTrueIn system lookup.now.facts.now
        → Decides is (IsSafeAfter system start.now folder.now (key_of key.now) setting.now was_safe)) }
{
    if !key.is_of(&setting.entry) {
        return Ok(was_safe);
    }
    let value = text_of(setting);
    if stays_safe(was_safe, value) {
        return Ok(true);
    }
    Ok(names_folder(lookup, start, value, folder)?)
}

/// Stops where Git does at a setting of this key: at a home folder that is not known, also if a value before it names the
/// folder.
fn check_home(lookup: &Lookup<'_, '_>, key: &Key<'_>, setting: &Setting<'_>) -> Result<(), Halt>
    ensures { IfErr result (IsNewHalt lookup.now.folder.now lookup.now.facts.now) }
{
    let value = text_of(setting);
    if !value.starts_with(b"~") || !key.is_of(&setting.entry) {
        return Ok(());
    }
    if spelled(lookup, value)?.is_some() {
        return Ok(());
    }
    let front = b"failed to expand user dir in: '";
    let words = joined(lookup.alloc, front, value, b"'")?;
    let at = Stop {
        file: setting.file,
        line: setting.entry.line,
        why: Why::BadFormat,
        words: words.as_slice(),
    };
    Err(stop(lookup.alloc, at)?)
}

/// Settings of which the first are looked through for those that name a folder as safe.
#[derive(Drop)]
pub(crate) struct Naming<'t> {
    settings: Settings<'t>,
    /// The folder, without links.
    pub folder: &'t [u8],
    /// How many are looked through.
    done: usize,
    /// Whether the folder is safe by these.
    is_safe: bool,
}

impl<'t> Naming<'t> {
    /// None is looked through.
    pub fn new(settings: Settings<'t>, folder: &'t [u8]) -> Naming<'t>
        ensures settings { result.settings.entries.items ≡ settings.entry.entries.items }
        ensures folder { result.folder.now ≡ folder.now }
        ensures safe { (system : System) (start : List ℕ) → IsNamedSafe system start result }
    {
        Naming {
            settings,
            folder,
            done: 0,
            is_safe: false,
        }
    }

    /// Whether the folder is safe, if all settings are looked through.
    pub fn decides(&self) -> Option<bool>
        ensures { (system : System) (start : List ℕ) → IsNamedSafe system start self.now
            → IfSome result (λ is. Decides is (trust.SaysSafe system start self.now.folder.now self.now.settings.entries.items)) }
    {
        if self.done < self.settings.entries.len() {
            return None;
        }
        Some(self.is_safe)
    }

    /// Looks through the next setting. It stays the same where this fails.
    pub fn look_at_next(&mut self, lookup: &Lookup<'_, 't>, start: &[u8]) -> Result<(), Halt>
        ensures safe { (system : System) → AreTrueIn system lookup.now.facts.now
            → AreListed self.old.settings.entries.items
            → IsNamedSafe system start.now self.old → IsNamedSafe system start.now self.new }
        ensures same { (self.new.settings ≡ self.old.settings) × (self.new.folder ≡ self.old.folder) }
        ensures asks { IfErr result (IsNewHalt lookup.now.folder.now lookup.now.facts.now) }
    {
        let Some(setting) = self.settings.entries.get(self.done) else {
            return Ok(());
        };
        let Ok(key) = Key::parse(b"safe.directory") else {
            return Err(Halt::from(AllocError));
        };
        check_home(lookup, &key, setting)?;
        let is_safe = is_safe_after(lookup, start, self.folder, &key, setting, self.is_safe)?;
        self.is_safe = is_safe;
        self.done = self.done.saturating_add(1);
        Ok(())
    }
}

/// Whether a setting of `safe.bareRepository` lets Git find bare repositories, which needs one of two words.
fn allows_bare(alloc: Global, setting: &Setting<'_>) -> Result<bool, Halt>
    ensures { IfErr result AsksNothing }
{
    match setting.value.as_deref() {
        Some(b"explicit") => Ok(false),
        Some(b"all") => Ok(true),
        _ => {
            let at = Stop {
                file: setting.file,
                line: setting.entry.line,
                why: Why::BadFormat,
                words: b"safe.barerepository: neither 'all' nor 'explicit'",
            };
            Err(stop(alloc, at)?)
        }
    }
}

/// Whether the last setting of `safe.bareRepository` lets Git find bare repositories.
fn allow_bare(alloc: Global, settings: &[Setting<'_>]) -> Result<bool, Halt>
    ensures { IfErr result AsksNothing }
{
    let mut may_be = true;
    let Ok(key) = Key::parse(b"safe.bareRepository") else {
        return Ok(may_be);
    };
    for setting in settings {
        if key.is_of(&setting.entry) {
            may_be = match allows_bare(alloc, setting) {
                Ok(allows) => allows,
                Err(halt) => return Err(halt),
            };
        }
    }
    Ok(may_be)
}

/// Whether this is the name of a git directory of a work tree, or of something below one.
fn is_in_work_tree(folder: &[u8]) -> bool {
    folder.ends_with(b"/.git")
        || folder.contains_str(b"/.git/worktrees/")
        || folder.contains_str(b"/.git/modules/")
}

/// Why Git does not use the bare repository in this folder, which it finds without GIT_DIR, by these settings.
fn refuses_bare(
    lookup: &Lookup<'_, '_>,
    folder: Folder<'_>,
    settings: &[Setting<'_>],
) -> Result<Option<Refusal>, Halt>
    ensures { MatchResult result (λ refusal. IfSome refusal IsOfBareOne)
        (IsNewHalt lookup.now.folder.now lookup.now.facts.now) }
{
    let may_be = match allow_bare(lookup.alloc, settings) {
        Ok(may_be) => may_be,
        Err(halt) => return Err(halt),
    };
    let real = answer_to(lookup, REAL, opened(folder.name))?.unwrap_or(folder.path);
    if may_be || is_in_work_tree(real) {
        return Ok(None);
    }
    Ok(Some(Refusal::Bare(folder.path.to_vec(lookup.alloc)?)))
}

/// Whether settings decide if Git uses a git directory of a folder. They do not decide about one that GIT_DIR names,
/// and about the user's own one only if that is the folder itself.
pub(crate) fn is_weighed(
    lookup: &Lookup<'_, '_>,
    folder: &[u8],
    git_dir: &GitDir,
) -> Result<bool, Pause>
    requires place { IsPlace lookup.now.folder.now lookup.now.facts.now folder.now }
    requires git_dir_place { IsPlace lookup.now.folder.now lookup.now.facts.now git_dir.now.name.items }
    ensures { MatchResult result
        (λ is. (system : System) (start : List ℕ) → AreTrueIn system lookup.now.facts.now → is ≡ false
        → trust.IsTrusted system start folder.now (git_dir_of git_dir.now))
        (IsNew lookup.now.folder.now lookup.now.facts.now) }
{
    match git_dir.form {
        Form::Given => Ok(false),
        Form::Bare => Ok(true),
        Form::Below => {
            if is_own(lookup, folder, git_dir)? {
                return Ok(false);
            }
            Ok(true)
        }
    }
}

/// What the settings that no repository can change have to do with a git directory.
#[derive(Drop)]
pub(crate) enum Weighed<'t> {
    /// Git trusts it.
    Trusted,
    /// Git does not use it.
    Refused(Refusal),
    /// It is not the user's own, and its folder has this name without links.
    Other(&'t [u8]),
}

/// Whether these settings let Git use a git directory of a folder, as far as they name no folder as safe.
pub(crate) fn weigh<'t>(
    lookup: &Lookup<'_, 't>,
    folder: Folder<'t>,
    git_dir: &GitDir,
    settings: &[Setting<'_>],
) -> Result<Weighed<'t>, Halt>
    requires place { IsPlace lookup.now.folder.now lookup.now.facts.now folder.name.now }
    requires git_dir_place { IsPlace lookup.now.folder.now lookup.now.facts.now git_dir.now.name.items }
    ensures { MatchResult result
        (λ weighed. (system : System) (start : List ℕ) → AreTrueIn system lookup.now.facts.now
        → IsWeighed system start folder.entry.name.now (git_dir_of git_dir.now) weighed)
        (IsNewHalt lookup.now.folder.now lookup.now.facts.now) }
{
    match git_dir.form {
        Form::Given => return Ok(Weighed::Trusted),
        Form::Bare => {
            if let Some(refusal) = refuses_bare(lookup, folder, settings)? {
                return Ok(Weighed::Refused(refusal));
            }
        }
        Form::Below => {}
    }
    if is_own(lookup, folder.name, git_dir)? {
        return Ok(Weighed::Trusted);
    }
    match answer_to(lookup, REAL, opened(folder.name))? {
        Some(real) => Ok(Weighed::Other(real)),
        None => Ok(Weighed::Refused(Refusal::Owner(folder.path.to_vec(lookup.alloc)?))),
    }
}
