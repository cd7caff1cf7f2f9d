//! What is answered from the settings that are asked for.
ghost use Rattle.std.specs.Prelude.{◌≡◌, ◌++◌, ◌∷◌, [], ℕ, List, IfOk, OnOk, option_map, option_copied};
ghost use Rattle.config_file.specs.Listing.{IsListed};
ghost use Rattle.config_file.specs.Settings.{AreListed, value_text};
ghost use Rattle.config_file.specs.Views.{entry_of};
ghost use Rattle.config_file.specs.declared.settings.Setting as code;
ghost use Rattle.config_answers.specs.Answers.{value_of, IsLine, IsLineOf, Becomes, Puts, Answers, AnswersOr};
ghost use Rattle.config_answers.specs.Answers.{ending_of, status_of};
ghost use Rattle.config_answers.specs.Lines.{IsName};
ghost use Rattle.config_answers.specs.Types.{Shows};

use crate::keys::KeyList;
use crate::line::{COMMAND, Form, Name, Origin, Place, Unfiled, push_line};
use crate::typed::{Host, Outcome, Values, read_text};
use config_file::{Scope, Setting};
use std::alloc::{AllocError, Global};
use std::io;

/// How a run ends. Its number is the exit status, which is Git's.
///
/// ```rust
/// use config_answers::answer::Ending;
///
/// assert_eq!(rt; Ending::Absent.status(), 1);
/// ```
#[derive(Clone, Copy)]
pub enum Ending {
    /// All is listed, the value is printed, or the file is as asked.
    Done,
    /// No entry has the key, or a byte of it is wrong.
    Absent,
    /// The key of a change has no section, or no name.
    NoSection,
    /// The file is no configuration file.
    NoFile,
    /// The new file is not written.
    NotWritten,
    /// No entry is to be changed, or several are.
    NotOne,
    /// A text is no pattern.
    NoPattern,
    /// A file, a line, a value or a change is refused, or the system refuses an answer, output or memory.
    Refused,
    /// The arguments are wrong.
    Misused,
    /// The default is no color, the file cannot be locked, or no section has the name.
    Failed,
}

impl Ending {
    /// The exit status.
    pub fn status(self) -> u8
        ensures { result ≡ status_of self }
    {
        match self {
            Ending::Done => 0,
            Ending::Absent => 1,
            Ending::NoSection => 2,
            Ending::NoFile => 3,
            Ending::NotWritten => 4,
            Ending::NotOne => 5,
            Ending::NoPattern => 6,
            Ending::Refused => 128,
            Ending::Misused => 129,
            Ending::Failed => 255,
        }
    }
}

/// How settings are written, and the texts that are built for that.
///
/// ```rust
/// use config_answers::answer::Writer;
/// use config_answers::line::{Form, Unfiled};
///
/// let form = Form {
///     all: false,
///     null: false,
///     shows_scope: false,
///     shows_origin: false,
///     shows_names: false,
///     shows_values: true,
///     between: b' ',
/// };
/// let writer = Writer::new(alloc, form, Unfiled { command: false, input: false });
/// assert!(rt; writer.output.is_empty());
/// ```
#[derive(Drop)]
pub struct Writer<'t> {
    /// How they are written.
    pub form: Form,
    /// Which of the texts that they are from are no files.
    pub unfiled: Unfiled,
    /// What lists their keys.
    pub keys: KeyList<'t>,
    /// The text of a value.
    pub typed: Vec<u8>,
    /// What is written so far.
    pub output: Vec<u8>,
}

/// What is answered, or answered so far.
///
/// ```rust
/// use config_answers::answer::{Answer, Ending};
///
/// assert!(rt; matches!(Answer::NoDefault.ending(), Ending::Refused));
/// ```
#[derive(Drop)]
pub enum Answer<'t> {
    /// The lines of settings, or that of the default.
    Written,
    /// Nothing, as no setting has a line.
    Absent,
    /// Nothing, as the value of this setting is none of its type.
    Refused(Setting<'t>),
    /// Nothing, as the default is none of its type.
    NoDefault,
}

/// The text of a value, or `None` for a key alone.
fn text_of<'s>(setting: &'s Setting<'_>) -> Option<&'s [u8]>
    ensures { option_copied result ≡ value_text setting.now }
{
    match &setting.value {
        Some(text) => Some(text),
        None => None,
    }
}

/// The value in a line.
fn value_of<'v>(outcome: Outcome, value: Option<&'v [u8]>, typed: &'v [u8]) -> Option<&'v [u8]>
    ensures { option_copied result ≡ value_of outcome (option_copied value.entry) typed.now }
{
    match outcome {
        Outcome::AsWritten => Some(read_text(value)),
        Outcome::Typed => Some(typed),
        _ => None,
    }
}

impl Answer<'_> {
    /// How the run ends.
    pub fn ending(&self) -> Ending
        ensures { result ≡ ending_of self.now }
    {
        match self {
            Answer::Written => Ending::Done,
            Answer::Absent => Ending::Absent,
            Answer::Refused(_) | Answer::NoDefault => Ending::Refused,
        }
    }
}

impl<'t> Writer<'t> {
    /// Writes nothing yet.
    pub fn new(alloc: Global, form: Form, unfiled: Unfiled) -> Writer<'t>
        ensures output { result.output.items ≡ [] }
        ensures form { result.form ≡ form }
        ensures unfiled { result.unfiled ≡ unfiled }
    {
        Writer {
            form,
            unfiled,
            keys: KeyList::new(alloc),
            typed: Vec::new(alloc),
            output: Vec::new(alloc),
        }
    }

    /// Writes the line of a value, or of a key alone, at this place and under this key, if it has one.
    #[inline(always)]
    pub fn put<H: Host>(
        &mut self,
        values: &Values<'_, H>,
        value: Option<&[u8]>,
        place: &Place<'_>,
        name: Name<'_, 't>,
    ) -> io::Result<Outcome>
        ensures puts { (key : List ℕ) → IsName name.entry key → IfOk result
            (let shows = Shows (H.dates values.now.host) (H.is_there values.now.host) values.now.homes
            values.now.shown in
            Puts (Becomes shows (option_copied value.entry))
            (IsLine shows self.old.form (option_copied value.entry) place.now key)
            self.old.form.all self.old.output.items self.new.output.items) }
        ensures form { self.new.form ≡ self.old.form }
        ensures unfiled { self.new.unfiled ≡ self.old.unfiled }
    {
        self.typed.clear();
        let outcome = values.show(&mut self.typed, value)?;
        if matches!(outcome, Outcome::Missing | Outcome::Refused) {
            return Ok(outcome);
        }
        if !self.form.all {
            self.output.clear();
        }
        let value = value_of(outcome, value, &self.typed);
        push_line(
            &mut self.keys,
            &mut self.output,
            &self.form,
            place,
            name,
            value,
        )?;
        Ok(outcome)
    }

    /// Writes the line of a setting, if it has one.
    #[inline(always)]
    pub fn put_setting<H: Host>(
        &mut self,
        values: &Values<'_, H>,
        setting: &Setting<'t>,
    ) -> io::Result<Outcome>
        ensures puts { (key : List ℕ)
            → IsListed (entry_of setting.now.entry).section (entry_of setting.now.entry).key key → IfOk result
            (let shows = Shows (H.dates values.now.host) (H.is_there values.now.host) values.now.homes
            values.now.shown in
            Puts (Becomes shows (value_text setting.now))
            (IsLineOf shows self.old.unfiled self.old.form setting.now)
            self.old.form.all self.old.output.items self.new.output.items) }
        ensures form { self.new.form ≡ self.old.form }
        ensures unfiled { self.new.unfiled ≡ self.old.unfiled }
    {
        let place = self.unfiled.place(setting);
        self.put(values, text_of(setting), &place, Name::Of(&setting.entry))
    }

    /// Answers from one more setting that is asked for. `answer` is what is answered so far: `Absent` from none. A setting
    /// behind a refused one changes nothing. It fails only if memory or the system refuses it.
    #[inline(always)]
    pub fn answer<H: Host>(
        &mut self,
        values: &Values<'_, H>,
        setting: Setting<'t>,
        answer: &mut Answer<'t>,
    ) -> io::Result<()>
        ensures answers { AreListed (setting.entry ∷ []) → (settings : List code.Setting)
            → (let shows = Shows (H.dates values.now.host) (H.is_there values.now.host) values.now.homes
            values.now.shown in
            Answers shows self.old.unfiled self.old.form settings self.old.output.items answer.old
            → OnOk result (Answers shows self.old.unfiled self.old.form (settings ++ setting.entry ∷ [])
            self.new.output.items answer.new)) }
        ensures form { self.new.form ≡ self.old.form }
        ensures unfiled { self.new.unfiled ≡ self.old.unfiled }
    {
        if let Answer::Refused(_) = answer {
            return Ok(());
        }
        match self.put_setting(values, &setting)? {
            Outcome::Missing => {}
            Outcome::Refused => {
                self.output.clear();
                *answer = Answer::Refused(setting);
            }
            _ => *answer = Answer::Written,
        }
        Ok(())
    }

    /// Answers with the line of this default under this key, if there is one and no setting has a line. `answer` is what is
    /// answered from all settings. It fails only if memory or the system refuses it.
    pub fn answer_or<H: Host>(
        &mut self,
        values: &Values<'_, H>,
        answer: Answer<'t>,
        key: &[u8],
        default: Option<&[u8]>,
    ) -> io::Result<Answer<'t>>
        ensures { (settings : List code.Setting)
            → (let shows = Shows (H.dates values.now.host) (H.is_there values.now.host) values.now.homes
            values.now.shown in
            Answers shows self.old.unfiled self.old.form settings self.old.output.items answer.entry
            → IfOk result (AnswersOr shows self.old.unfiled self.old.form settings key.now
            (option_copied default.entry) self.new.output.items)) }
    {
        let (Answer::Absent, Some(default)) = (&answer, default) else {
            return Ok(answer);
        };
        let place = Place {
            origin: Origin::Command,
            scope: Scope::Command,
            file: COMMAND,
            line: 1,
        };
        Ok(
            match self.put(values, Some(default), &place, Name::Text(key))? {
                Outcome::Missing => Answer::Absent,
                Outcome::Refused => Answer::NoDefault,
                _ => Answer::Written,
            },
        )
    }
}
