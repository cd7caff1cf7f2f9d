//! The settings of several files, in order. The last entry of a key decides its value.
ghost use Rattle.std.specs.Prelude.{◌≡◌, List, ℕ, [], Some, MatchOption, IfOk, OnOk, IsUtf8, ◌≢◌, Contains};
ghost use Rattle.std.specs.Prelude.{MatchBool, map, option_map};
ghost use Rattle.std.specs.Option.{ForSome};
ghost use Rattle.config_path.specs.Interpolation.{known_in};
ghost use Rattle.config_file.specs.Settings.{place_shown, text_shown, refused_shown, get_error_shown};
ghost use Rattle.config_file.specs.Settings.{add_error_shown, value_text, text_of};
ghost use Rattle.config_file.specs.Settings.{path_bytes, IsSettingOf, IsRefusalOf, ReadsSetting};
ghost use Rattle.config_file.specs.Settings.{IsPathOfSetting, AddsFile, AddsWalk, AddsInScope, IsNext};
ghost use Rattle.config_file.specs.Settings.{AreListed, LacksKey, IsLast, AllWithKey, Gets, GetsText, GetsWord};
ghost use Rattle.config_file.specs.Settings.{GivesText, GivesWord, setting_place};
ghost use Rattle.config_file.specs.Settings.{HasSubsection, LacksSubsection, AreSubsections};
ghost use Rattle.config_file.specs.Reading.Adds.{AddsEntry, AddsNext, AddsOnce, Decides};
ghost use Rattle.config_file.specs.Errors.{why_text};
ghost use Rattle.config_file.specs.declared.scope.Scope.TheVariants.{Command};
ghost use Rattle.config_file.specs.declared.settings.Next.TheVariants.{Stops};
ghost use Rattle.config_file.specs.KeyView.{key_of};
ghost use Rattle.config_file.specs.Listing.{IsListed};
ghost use Rattle.config_file.specs.Reading.Ends.{FitsEntry};
ghost use Rattle.config_file.specs.Views.{entry_of};

use crate::entry::{Entry, EntryForm};
use crate::errors::{Stop, Why};
use crate::files::{Content, Files};
use crate::key::{Key, KeyError};
use crate::reader::Entries;
use crate::scope::Scope;
use crate::shown::Quoted;
use crate::walk::{FilePlace, Include, Known, Step, Walk};
use bstr::BStr;
use config_path::interpolate::{Context, Error as PathError};
use config_path::parts::{Parts, parts_of};
use config_path::path::cut_mark;
use config_text::errors::Fault;
use config_text::readers::TryRead;
use std::alloc::{AllocError, Global};
use std::borrow::CowSlice;
use std::{error, fmt};

/// An entry of a file, and the text of its value. Both are borrowed from the text of the file, but for a
/// value that is quoted, escaped or continued.
///
/// ```rust
/// use config_file::{Key, Scope, Settings};
///
/// let mut settings = Settings::new(alloc);
/// assert!(rt; settings.add_file(alloc, Scope::Local, b".git/config", b"[core]\n\tabbrev = \"1\"2 # digits").is_ok());
/// let key = Key::parse(b"core.abbrev")?;
/// let setting = settings.last(&key).expect(&rt, "a setting");
/// assert_eq!(rt; setting.text(), b"12".as_slice());
/// assert_eq!(rt; setting.file, b".git/config".as_slice());
/// assert_eq!(rt; setting.entry.line, 2);
/// ```
#[derive(Debug, Drop)]
pub struct Setting<'t> {
    /// Where Git has the file from.
    pub scope: Scope,
    /// The name of the file.
    pub file: &'t [u8],
    /// The entry.
    pub entry: Entry<'t>,
    /// The text of its value, or `None` for a key alone.
    pub value: Option<CowSlice<'t, u8>>,
}

/// The refusal of a setting: its text has no value of the wanted type.
///
/// ```rust
/// use config_file::{Key, Scope, Settings};
/// use gix_config_value::{Fault, Integer};
///
/// let mut settings = Settings::new(alloc);
/// assert!(rt; settings.add_file(alloc, Scope::Local, b"config", b"[pack]\n\tthreads = many").is_ok());
/// let key = Key::parse(b"pack.threads")?;
/// let refused = settings.last(&key).expect(&rt, "a setting").read::<Integer>().unwrap_err();
/// assert!(rt; refused.fault == Fault::Integer);
/// assert_eq!(rt; refused.setting.entry.line, 2);
/// ```
#[derive(Clone, Copy, Debug)]
pub struct RefusedSetting<'s, 't, F> {
    /// The setting.
    pub setting: &'s Setting<'t>,
    /// Why its text is refused.
    pub fault: F,
}

/// The place of a setting, which displays as `FILE:LINE`: [`Setting::place`].
///
/// ```rust
/// use config_file::{Scope, Settings};
///
/// let mut settings = Settings::new(alloc);
/// assert!(rt; settings.add_file(alloc, Scope::Local, b".git/config", b"[core]\n\tbare").is_ok());
/// assert_eq!(rt; settings.entries[0].place().to_string(alloc)?.as_str(), ".git/config:2");
/// ```
#[derive(Clone, Copy)]
pub struct SettingPlace<'s, 't>(&'s Setting<'t>);

impl fmt::Display for SettingPlace<'_, '_> {
    ghost output = { λ place. Some (setting_place place.0.now) };

    fn fmt<W: fmt::Write>(&self, f: &mut fmt::Formatter<W>) -> fmt::Result {
        write!(f, "{}:{}", BStr::new(self.0.file), self.0.entry.line)
    }
}

/// Displays as the place of a setting and its key: `FILE:LINE: KEY: `.
#[derive(Clone, Copy)]
struct PlaceOf<'s, 't>(&'s Setting<'t>);

impl fmt::Display for PlaceOf<'_, '_> {
    ghost output = { λ place. Some (place_shown place.0.now) };

    fn fmt<W: fmt::Write>(&self, f: &mut fmt::Formatter<W>) -> fmt::Result {
        let Setting { entry, .. } = self.0;
        write!(f, "{}: ", self.0.place())?;
        if let Some(section) = &entry.section {
            write!(f, "{}.", BStr::new(section.name))?;
            if let Some(subsection) = &section.subsection {
                write!(f, "{}.", BStr::new(subsection.raw))?;
            }
        }
        write!(f, "{}: ", BStr::new(entry.key))
    }
}

/// Displays as `: ` and the text of a setting in quotes, or as nothing for a key alone.
#[derive(Clone, Copy)]
struct TextOf<'s, 't>(&'s Setting<'t>);

impl fmt::Display for TextOf<'_, '_> {
    ghost output = { λ text. Some (text_shown (value_text text.0.now)) };

    fn fmt<W: fmt::Write>(&self, f: &mut fmt::Formatter<W>) -> fmt::Result {
        match &self.0.value {
            Some(text) => write!(f, ": {}", Quoted(text)),
            None => Ok(()),
        }
    }
}

impl<F: fmt::Display> fmt::Display for RefusedSetting<'_, '_, F> {
    ghost output = { λ refused. option_map (refused_shown refused.setting.now) (F.output refused.fault) };

    /// Writes `FILE:LINE: KEY: reason: "text"`, with the key as it is written in the file. In the text
    /// control characters and bytes that are not UTF-8 are written as `\xNN`. No text follows the reason for
    /// a key alone.
    fn fmt<W: fmt::Write>(&self, f: &mut fmt::Formatter<W>) -> fmt::Result {
        write!(
            f,
            "{}{}{}",
            PlaceOf(self.setting),
            self.fault,
            TextOf(self.setting)
        )
    }
}

/// Why not all entries of a file, or of the files that it includes, are added.
///
/// ```rust
/// use config_file::{Scope, Settings};
///
/// let mut settings = Settings::new(alloc);
/// let error = settings.add_file(alloc, Scope::Local, b"config", b"[core]\n\tbare\n[us er]").unwrap_err();
/// assert_eq!(rt; error.to_string(alloc)?.as_str(), "config:3: bad config line");
/// assert_eq!(rt; settings.entries.len(), 1); // the entry before that line
/// ```
#[derive(Clone, Copy, Debug)]
pub enum AddError<'t> {
    /// Git stops at a line of a file, or at an include that it cannot follow. The entries up to there are added.
    Stops(Stop<&'t [u8]>),
    /// Memory was refused. The entries before that are added.
    Memory(AllocError),
}

impl fmt::Display for AddError<'_> {
    ghost output = { λ error. Some (add_error_shown error) };

    /// Writes `FILE:LINE: reason`, or `no memory`.
    fn fmt<W: fmt::Write>(&self, f: &mut fmt::Formatter<W>) -> fmt::Result {
        match self {
            AddError::Stops(stop) => write!(f, "{stop}"),
            AddError::Memory(_) => f.write_str("no memory"),
        }
    }
}

impl error::Error for AddError<'_> {}

/// Why a key has no value of the wanted type.
///
/// ```rust
/// use config_file::{GetError, KeyError, Scope, Settings};
/// use gix_config_value::{Boolean, Fault};
///
/// let mut settings = Settings::new(alloc);
/// assert!(rt; settings.add_file(alloc, Scope::Local, b"config", b"[core]\n\tbare = x").is_ok());
/// let error = settings.get::<Boolean>("core.bare").unwrap_err();
/// assert!(rt; matches!(error, GetError::Refused(refused) if refused.fault == Fault::Boolean));
/// let error = settings.get::<Boolean>("bare").unwrap_err();
/// assert!(rt; matches!(error, GetError::Key(KeyError::NoSection)));
/// ```
#[derive(Clone, Copy, Debug)]
pub enum GetError<'s, 't> {
    /// The text is no key.
    Key(KeyError),
    /// Its last setting is a key alone, which the type does not accept.
    NoValue(&'s Setting<'t>),
    /// The text of its last setting has no value of the type.
    Refused(RefusedSetting<'s, 't, Fault>),
    /// The text of its last setting is none of the words: [`Settings::one_of`].
    NoWord(&'s Setting<'t>),
}

impl fmt::Display for GetError<'_, '_> {
    ghost output = { λ error. Some (get_error_shown error) };

    /// Writes the reason that a text is no key, or `FILE:LINE: KEY: reason`, followed by `: "text"` if the
    /// setting has a text, as a [`RefusedSetting`] is written.
    fn fmt<W: fmt::Write>(&self, f: &mut fmt::Formatter<W>) -> fmt::Result {
        match self {
            GetError::Key(error) => write!(f, "{error}"),
            GetError::NoValue(setting) => write!(f, "{}no value", PlaceOf(setting)),
            GetError::Refused(RefusedSetting { setting, fault }) => {
                write!(f, "{}{}{}", PlaceOf(setting), fault.text(), TextOf(setting))
            }
            GetError::NoWord(setting) => {
                write!(
                    f,
                    "{}not one of the allowed words{}",
                    PlaceOf(setting),
                    TextOf(setting)
                )
            }
        }
    }
}

impl error::Error for GetError<'_, '_> {}

impl<'t> Setting<'t> {
    /// The setting of an entry of a file, with the scope `Command`. It fails only if memory is refused.
    pub fn of_entry(alloc: Global, file: &'t [u8], entry: Entry<'t>) -> Result<Self, AllocError>
        ensures entry { IfOk result (IsSettingOf (file.now, entry_of entry.entry)) }
        ensures scope { IfOk result (λ setting. setting.scope ≡ Command) }
    {
        Self::of_form(alloc, Scope::Command, file, entry, EntryForm::Marked)
    }

    /// The setting of an entry of a file of this scope, which was read in this form: [`Entries::advance`]. A plain value
    /// is not looked at for marks again. If the form is not known, `Marked` fits each entry. It fails only if memory is
    /// refused.
    ///
    /// ```rust
    /// use config_file::{Entries, Scope, Setting};
    ///
    /// let mut entries = Entries::new(b"[core]\n\teditor = vi # mine");
    /// let form = entries.advance().expect(&rt, "an entry");
    /// let setting = Setting::of_form(alloc, Scope::Local, b"config", entries.entry(form), form)?;
    /// assert_eq!(rt; setting.text(), b"vi".as_slice());
    /// ```
    #[inline(always)]
    pub fn of_form(
        alloc: Global,
        scope: Scope,
        file: &'t [u8],
        entry: Entry<'t>,
        form: EntryForm,
    ) -> Result<Self, AllocError>
        ensures entry { FitsEntry form (entry_of entry.entry)
            → IfOk result (IsSettingOf (file.now, entry_of entry.entry)) }
        ensures scope { IfOk result (λ setting. setting.scope ≡ scope) }
    {
        let value = match &entry.value {
            Some(value) => Some(value.text_as(alloc, form)?),
            None => None,
        };
        Ok(Self {
            scope,
            file,
            entry,
            value,
        })
    }

    /// The text for a reader: that of the value, or `true` for a key alone.
    pub fn text(&self) -> &[u8]
        ensures { result.now ≡ text_of self.now }
    {
        match &self.value {
            Some(text) => text,
            None => b"true",
        }
    }

    /// The text of the value. A key alone has none, and is refused as `NoValue`: Git says "missing value" where
    /// it needs a text.
    pub fn own_text(&self) -> Result<&[u8], GetError<'_, 't>>
        ensures { GivesText self.now result }
    {
        match &self.value {
            Some(text) => Ok(text),
            None => Err(GetError::NoValue(self)),
        }
    }

    /// The text of the value, which has to be one of these words, byte by byte. Any other text is refused as
    /// `NoWord`, and a key alone as `NoValue`.
    pub fn one_of<'w>(&self, words: &[&'w str]) -> Result<&'w str, GetError<'_, 't>>
        ensures { GivesWord (map (λ word. word.now) words.now) self.now result }
    {
        let text = self.own_text()?;
        match word_of(words, text) {
            Some(word) => Ok(word),
            None => Err(GetError::NoWord(self)),
        }
    }

    /// Where the setting is, which displays as `FILE:LINE`.
    pub fn place(&self) -> SettingPlace<'_, 't>
        ensures { result.0.now ≡ self.now }
    {
        SettingPlace(self)
    }

    /// A refusal of this setting, with this fault.
    pub fn refused<F>(&self, fault: F) -> RefusedSetting<'_, 't, F>
        ensures { IsRefusalOf self.now fault result }
    {
        RefusedSetting {
            setting: self,
            fault,
        }
    }

    /// The value of the text, or a refusal with the place of the entry.
    pub fn read<V: TryRead>(&self) -> Result<V, RefusedSetting<'_, 't, Fault>>
        ensures { ReadsSetting V.grammar V.refusal self.now result }
    {
        match V::try_read(self.text()) {
            Ok(value) => Ok(value),
            Err(fault) => Err(self.refused(fault)),
        }
    }

    /// The subsection of the key under which Git lists the setting, if the key has this section and a
    /// subsection.
    fn subsection_in(&self, alloc: Global, section: &[u8]) -> Result<Option<Vec<u8>>, AllocError>
        ensures { (text : List ℕ)
            → IsListed (entry_of self.now.entry).section (entry_of self.now.entry).key text
            → IfOk result (λ found. MatchOption found (LacksSubsection section.now self.now)
            (λ subsection. HasSubsection section.now self.now subsection.items)) }
    {
        let text = self.entry.key_text(alloc)?;
        let Some(key) = Key::split(&text) else {
            return Ok(None);
        };
        if !key.section().eq_ignore_ascii_case(section) {
            return Ok(None);
        }
        match key.subsection() {
            Some(subsection) => Ok(Some(Vec::from_slice(alloc, subsection)?)),
            None => Ok(None),
        }
    }

    /// The bytes of a path, which are empty for a key alone.
    fn path_bytes(&self) -> &[u8]
        ensures { result.now ≡ path_bytes self.now }
    {
        match &self.value {
            Some(text) => text,
            None => &[],
        }
    }

    /// Whether the path is optional, and the parts of the interpolated path: docs/GRAMMAR.md, Paths. A key
    /// alone is refused, as the empty path is. The lookup of the context is called at most once.
    pub fn path<'s, 'c, F>(
        &'s self,
        context: Context<'c, F>,
    ) -> Result<(bool, Parts<'c, 's>), RefusedSetting<'s, 't, PathError<'s>>>
    where
        F: FnOnce(&str) -> Option<&'c str> + Drop,
        requires { ForSome context.home_for_user (λ f. (name : _) → IsUtf8 name.now → F.pre f name) }
        ensures { IsPathOfSetting (known_in F.FnOnce context.entry) self.now result }
    {
        let (is_optional, path) = cut_mark(self.path_bytes());
        match parts_of(path, context) {
            Ok(parts) => Ok((is_optional, parts)),
            Err(error) => Err(self.refused(error)),
        }
    }
}

/// The last of these settings with a key, or `None` if none has it.
fn last_of<'s, 't>(settings: &'s [Setting<'t>], key: &Key<'_>) -> Option<&'s Setting<'t>>
    ensures { AreListed settings.now → MatchOption result (LacksKey settings.now (key_of key.now))
        (λ setting. IsLast settings.now (key_of key.now) setting.now) }
{
    let mut index = settings.len();
    'settings: while index > 0 {
        index -= 1;
        let setting = &settings[index];
        if key.is_of(&setting.entry) {
            return Some(setting);
        }
    }
    None
}

/// The settings of several files, in the order in which the files were added.
///
/// ```rust
/// use config_file::{GetError, Scope, Settings};
/// use gix_config_value::Boolean;
///
/// let mut settings = Settings::new(alloc);
/// assert!(rt; settings.add_file(alloc, Scope::System, b"/etc/gitconfig", b"[core]\n\tbare = no").is_ok());
/// assert!(rt; settings.add_file(alloc, Scope::Local, b".git/config", b"[core]\n\tbare\n\tautoCRLF = x").is_ok());
/// let is_bare = settings.get::<Boolean>("core.bare").expect(&rt, "no refusal");
/// assert!(rt; is_bare == Some(Boolean(true)));
/// let GetError::Refused(refused) = settings.get::<Boolean>("core.autocrlf").unwrap_err() else {
///     panic!(rt; "a refusal");
/// };
/// assert_eq!(rt; refused.setting.entry.line, 3);
/// ```
#[derive(Drop)]
pub struct Settings<'t> {
    /// The settings, in order.
    pub entries: Vec<Setting<'t>>,
}

/// How a walk goes on after an entry.
///
/// ```rust
/// use config_file::{Content, Files, Include, Next, Why, next_of};
/// use std::alloc::{AllocError, Global};
///
/// #[derive(Drop)]
/// struct NoFiles;
///
/// impl<'t> Files<'t> for NoFiles {
///     ghost contents = { λ _ _ _. ⊤ };
///
///     fn read(&self, _alloc: Global, _name: &[u8]) -> Result<Content<'t>, AllocError> {
///         Ok(Content::Missing)
///     }
/// }
///
/// let name = Vec::from_slice(alloc, b"more")?;
/// assert!(rt; matches!(next_of(alloc, &NoFiles, Include::Named(name))?, Next::Behind));
/// assert!(rt; matches!(next_of(alloc, &NoFiles, Include::MissingValue)?, Next::Stops(Why::NoValue, _)));
/// ```
#[derive(Drop)]
pub enum Next<'t> {
    /// Behind it: the entry includes no file, or there is no such file.
    Behind,
    /// In the file at this place, which has this text.
    In(FilePlace<'t>, &'t [u8]),
    /// Not at all, as Git stops here, for this reason, in these words.
    Stops(Why, &'t [u8]),
}

/// Git stops, in the words of the reason.
fn stops<'t>(why: Why) -> Next<'t>
    ensures { (words : _) × (result ≡ Stops why words) × (words.now ≡ why_text why) }
{
    Next::Stops(why, why.text().as_bytes())
}

/// How a walk goes on after an entry that includes this. The files are asked for the text. It fails only if
/// memory is refused.
pub fn next_of<'t, S: Files<'t>>(
    alloc: Global,
    files: &S,
    include: Include,
) -> Result<Next<'t>, AllocError>
    ensures { IfOk result (IsNext (S.contents files.now) include) }
{
    let name = match include {
        Include::NotFollowed => return Ok(Next::Behind),
        Include::MissingValue => return Ok(stops(Why::NoValue)),
        Include::UnknownDirectory => return Ok(stops(Why::UnknownDirectory)),
        Include::ForbiddenUrl => return Ok(stops(Why::ForbiddenUrl)),
        Include::Named(name) => name,
    };
    match files.read(alloc, &name)? {
        Content::Text(place, text) => Ok(Next::In(place, text)),
        Content::Missing => Ok(Next::Behind),
        Content::Unreadable(words) => Ok(Next::Stops(Why::Unreadable, words.as_bytes())),
    }
}

impl<'t> Settings<'t> {
    /// Settings without any entry.
    pub fn new(alloc: Global) -> Settings<'t>
        ensures { result.entries.items ≡ [] }
    {
        Settings {
            entries: Vec::new(alloc),
        }
    }

    /// Adds the setting of an entry.
    fn add(
        &mut self,
        alloc: Global,
        scope: Scope,
        file: &'t [u8],
        entry: Entry<'t>,
    ) -> Result<(), AllocError>
        ensures adds { AddsEntry (file.now, entry_of entry.entry) self.old.entries.items self.new.entries.items
            result }
        ensures scope { AddsInScope scope self.old.entries.items self.new.entries.items }
    {
        let setting = Setting::of_form(alloc, scope, file, entry, EntryForm::Marked)?;
        match self.entries.push(setting) {
            Ok(()) => Ok(()),
            Err(_) => Err(AllocError),
        }
    }

    /// Adds the entries of a file of this scope, which decide over earlier ones. Its includes are entries as
    /// others are.
    pub fn add_file(
        &mut self,
        alloc: Global,
        scope: Scope,
        file: &'t [u8],
        text: &'t [u8],
    ) -> Result<(), AddError<'t>>
        ensures adds { AddsFile file.now text.now self.old.entries.items self.new.entries.items result }
        ensures scope { AddsInScope scope self.old.entries.items self.new.entries.items }
    {
        for entry in Entries::new(text) {
            let entry = match entry {
                Ok(entry) => entry,
                Err(error) => return Err(AddError::Stops(Stop::at(file, error.line, error.why))),
            };
            match self.add(alloc, scope, file, entry) {
                Ok(()) => {}
                Err(error) => return Err(AddError::Memory(error)),
            }
        }
        Ok(())
    }

    /// Adds the entries of a file of this scope, and those of the files that it includes, in Git's order. All
    /// have this scope, and decide over earlier ones. It stops where Git does.
    pub fn add_with_includes<S: Files<'t>>(
        &mut self,
        alloc: Global,
        scope: Scope,
        files: &S,
        known: &Known<'_>,
        place: FilePlace<'t>,
        text: &'t [u8],
    ) -> Result<(), AddError<'t>>
        ensures adds { AddsWalk (S.contents files.now) known.now place.entry text.now
            self.old.entries.items self.new.entries.items result }
        ensures scope { AddsInScope scope self.old.entries.items self.new.entries.items }
    {
        let mut walk = Walk::new(place, text);
        'steps: for _ in 0..u64::MAX {
            let goes_on = match self.add_next(alloc, scope, files, known, &mut walk) {
                Ok(goes_on) => goes_on,
                Err(error) => return Err(error),
            };
            if !goes_on {
                return Ok(());
            }
        }
        Err(AddError::Memory(AllocError))
    }

    /// Adds the next entry of a walk, and enters the file that it includes. Returns false at the end.
    fn add_next<S: Files<'t>>(
        &mut self,
        alloc: Global,
        scope: Scope,
        files: &S,
        known: &Known<'_>,
        walk: &mut Walk<'t>,
    ) -> Result<bool, AddError<'t>>
        ensures adds { AddsNext (S.contents files.now) known.now walk.old.frames.items walk.new.frames.items
            self.old.entries.items self.new.entries.items result }
        ensures scope { AddsInScope scope self.old.entries.items self.new.entries.items }
    {
        let step = match walk.next(alloc, known) {
            Ok(step) => step,
            Err(error) => return Err(AddError::Memory(error)),
        };
        let (place, entry, include) = match step {
            Step::Entry(place, entry, include) => (place, entry, include),
            Step::Line(place, error) => {
                return Err(AddError::Stops(Stop::at(place.name, error.line, error.why)));
            }
            Step::Ends => return Ok(false),
        };
        let (file, line) = (place.name, entry.line);
        let next = match next_of(alloc, files, include) {
            Ok(next) => next,
            Err(error) => return Err(AddError::Memory(error)),
        };
        match self.add(alloc, scope, file, entry) {
            Ok(()) => {}
            Err(error) => return Err(AddError::Memory(error)),
        }
        match next {
            Next::Behind => Ok(true),
            Next::In(place, text) if walk.enter(place, text) => Ok(true),
            Next::In(_, _) => Err(AddError::Stops(Stop::at(file, line, Why::TooDeep))),
            Next::Stops(why, words) => Err(AddError::Stops(Stop {
                file,
                line,
                why,
                words,
            })),
        }
    }

    /// The last setting with a key, or `None` if no entry has it. Git lists each entry of a file.
    pub fn last(&self, key: &Key<'_>) -> Option<&Setting<'t>>
        ensures { AreListed self.now.entries.items
            → MatchOption result (LacksKey self.now.entries.items (key_of key.now))
            (λ setting. IsLast self.now.entries.items (key_of key.now) setting.now) }
    {
        last_of(&self.entries, key)
    }

    /// The settings with a key, in order. It fails only if memory is refused.
    pub fn all(&self, alloc: Global, key: &Key<'_>) -> Result<Vec<&Setting<'t>>, AllocError>
        ensures { AreListed self.now.entries.items → IfOk result
            (λ all. AllWithKey (key_of key.now) self.now.entries.items (map (λ setting. setting.now) all.items)) }
    {
        let mut all = Vec::new(alloc);
        for setting in &self.entries {
            if key.is_of(&setting.entry) {
                all.push(setting)?;
            }
        }
        Ok(all)
    }

    /// The texts of the different subsections of a section, each once, in the order in which they come first:
    /// for `remote` the names of all remotes. The case of the section does not count, and that of a
    /// subsection does. A setting without a subsection has none to give. It fails only if memory is refused.
    ///
    /// ```rust
    /// use config_file::{Scope, Settings};
    ///
    /// let mut settings = Settings::new(alloc);
    /// let text = b"[remote \"b\"]\n\turl = x\n[Remote \"a\"]\n\turl = y\n[remote \"b\"]\n\tprune";
    /// assert!(rt; settings.add_file(alloc, Scope::Local, b".git/config", text).is_ok());
    /// let remotes = settings.subsections(alloc, b"remote")?;
    /// assert_eq!(rt; remotes.len(), 2);
    /// assert_eq!(rt; remotes[0].as_slice(), b"b".as_slice());
    /// ```
    pub fn subsections(&self, alloc: Global, section: &[u8]) -> Result<Vec<Vec<u8>>, AllocError>
        ensures { AreListed self.now.entries.items → IfOk result
            (λ found. AreSubsections section.now self.now.entries.items (map (λ text. text.items) found.items)) }
    {
        let mut found = Vec::new(alloc);
        for setting in &self.entries {
            let subsection = setting.subsection_in(alloc, section)?;
            add_once(&mut found, subsection)?;
        }
        Ok(found)
    }

    /// The last setting of a key that is given as text, or `None` if no entry has it.
    fn deciding(&self, key: &str) -> Result<Option<&Setting<'t>>, KeyError>
        ensures { AreListed self.now.entries.items → Decides self.now.entries.items key.now result }
    {
        let key = Key::parse(key.as_bytes())?;
        Ok(self.last(&key))
    }

    /// The value of the last entry of a key, such as `branch.main.rebase`, or `None` if no entry has it.
    ///
    /// ```rust
    /// use config_file::{GetError, Scope, Settings};
    /// use gix_config_value::Color;
    ///
    /// let mut settings = Settings::new(alloc);
    /// assert!(rt; settings.add_file(alloc, Scope::Local, b"config", b"[color \"diff\"]\n\told\n\tnew = rde").is_ok());
    /// let error = settings.get::<Color>("color.diff.old").unwrap_err();
    /// assert!(rt; matches!(error, GetError::NoValue(_)));
    /// assert_eq!(rt; error.to_string(alloc)?.as_str(), "config:2: color.diff.old: no value");
    /// ```
    pub fn get<V: TryRead>(&self, key: &str) -> Result<Option<V>, GetError<'_, 't>>
        ensures { AreListed self.now.entries.items
            → Gets V.grammar V.refusal self.now.entries.items key.now result }
    {
        let setting = match self.deciding(key) {
            Ok(Some(setting)) => setting,
            Ok(None) => return Ok(None),
            Err(error) => return Err(GetError::Key(error)),
        };
        match setting.read() {
            Ok(value) => Ok(Some(value)),
            Err(_) if setting.value.is_none() => Err(GetError::NoValue(setting)),
            Err(refused) => Err(GetError::Refused(refused)),
        }
    }

    /// The text of the last entry of a key, or `None` if no entry has it. A key alone is refused, as by
    /// [`Setting::own_text`].
    ///
    /// ```rust
    /// use config_file::{GetError, Scope, Settings};
    ///
    /// let mut settings = Settings::new(alloc);
    /// assert!(rt; settings.add_file(alloc, Scope::Local, b"config", b"[user]\n\tname = A\n\temail").is_ok());
    /// let name = settings.text("user.name").expect(&rt, "no refusal").expect(&rt, "a text");
    /// assert_eq!(rt; name, b"A".as_slice());
    /// assert!(rt; matches!(settings.text("user.email"), Err(GetError::NoValue(_))));
    /// ```
    pub fn text(&self, key: &str) -> Result<Option<&[u8]>, GetError<'_, 't>>
        ensures { AreListed self.now.entries.items → GetsText self.now.entries.items key.now result }
    {
        match self.deciding(key) {
            Ok(Some(setting)) => Ok(Some(setting.own_text()?)),
            Ok(None) => Ok(None),
            Err(error) => Err(GetError::Key(error)),
        }
    }

    /// The value of the last entry of a key, which has to be one of these words, byte by byte, or `None` if
    /// no entry has the key. Any other text is refused as `NoWord`, and a key alone as `NoValue`.
    ///
    /// ```rust
    /// use config_file::{Scope, Settings};
    ///
    /// let mut settings = Settings::new(alloc);
    /// assert!(rt; settings.add_file(alloc, Scope::Local, b"config", b"[push]\n\tdefault = Simple").is_ok());
    /// let error = settings.one_of("push.default", &["current", "simple"]).unwrap_err();
    /// let shown = "config:2: push.default: not one of the allowed words: \"Simple\"";
    /// assert_eq!(rt; error.to_string(alloc)?.as_str(), shown);
    /// ```
    pub fn one_of<'w>(
        &self,
        key: &str,
        words: &[&'w str],
    ) -> Result<Option<&'w str>, GetError<'_, 't>>
        ensures { AreListed self.now.entries.items
            → GetsWord (map (λ word. word.now) words.now) self.now.entries.items key.now result }
    {
        let setting = match self.deciding(key) {
            Ok(Some(setting)) => setting,
            Ok(None) => return Ok(None),
            Err(error) => return Err(GetError::Key(error)),
        };
        let text = setting.own_text()?;
        match word_of(words, text) {
            Some(word) => Ok(Some(word)),
            None => Err(GetError::NoWord(setting)),
        }
    }
}

/// Whether a word is this text, byte by byte.
fn is_word(word: &str, text: &[u8]) -> bool
    ensures { MatchBool result (word.now ≡ text.now) (word.now ≢ text.now) }
{
    word.as_bytes() == text
}

/// The word that is this text, byte by byte, or `None` if none is.
fn word_of<'w>(words: &[&'w str], text: &[u8]) -> Option<&'w str>
    ensures { MatchOption result (¬ (Contains (map (λ word. word.now) words.now) text.now))
        (λ word. Contains (map (λ word. word.now) words.now) text.now × (word.now ≡ text.now)) }
{
    for word in words {
        if is_word(word, text) {
            return Some(word);
        }
    }
    None
}

/// Whether a text is among these.
fn is_among(texts: &[Vec<u8>], text: &[u8]) -> bool
    ensures { MatchBool result (Contains (map (λ text. text.items) texts.now) text.now)
        (¬ (Contains (map (λ text. text.items) texts.now) text.now)) }
{
    for other in texts {
        if other.as_slice() == text {
            return true;
        }
    }
    false
}

/// Adds a text, if there is one, unless it is already among these.
fn add_once(found: &mut Vec<Vec<u8>>, text: Option<Vec<u8>>) -> Result<(), AllocError>
    ensures { OnOk result (AddsOnce (option_map (λ text. text.items) text)
        (map (λ text. text.items) found.old.items) (map (λ text. text.items) found.new.items)) }
{
    let Some(text) = text else {
        return Ok(());
    };
    if is_among(found, &text) {
        return Ok(());
    }
    found.push(text)?;
    Ok(())
}
