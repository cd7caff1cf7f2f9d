//! Lists the entries of texts, or prints values of them.
ghost use Rattle.std.specs.Prelude.{⊤};

use crate::answers::ForUrl;
use crate::output::{Ending, Name, form_of};
use crate::request::{Request, Subject, Texts};
use crate::shown::{Outcome, Shown, System, Values, Wrong, homes_of, tell_wrong};
use crate::sources::{FILES, Opened, open_texts, tell_refusal, tell_stop};
use crate::wanted::{Patterns, Unclear, choice_of};
use bumpalo::Bump;
use config_answers::answer::{Answer, Writer};
use config_answers::choice::Choice;
use config_answers::read::{Asked, Receiver};
use config_file::{Key, Setting};
use config_host::{HereError, HostError, hand_on};
use std::alloc::AllocError;
use std::io::{self, Write};
use std::mem;

/// How many bytes of output are kept before they are written.
const ROOM: usize = 65536;

/// What becomes of the settings that are asked for.
#[derive(Clone, Copy)]
enum Use {
    /// They are listed.
    Listed,
    /// The answer is made from one after the other.
    Answered,
    /// They are kept, if they are of the URL that is asked for.
    Kept,
}

impl Use {
    /// What becomes of the settings of a request.
    fn of(request: &Request<'_>) -> Use {
        match request.chosen.subject {
            Subject::Entries => Use::Listed,
            Subject::Key(_) | Subject::Pattern(_) => Use::Answered,
            _ => Use::Kept,
        }
    }
}

/// What gets the settings that are asked for, and what is to be written of them.
#[derive(Drop)]
pub struct Collector<'r, 't> {
    /// How values are shown, by the system.
    pub values: Values<'t, System<'t>>,
    uses: Use,
    /// The URL of which settings have to be, if one is asked for.
    pub for_url: Option<ForUrl<'r, 't>>,
    /// The settings that are kept.
    settings: Vec<Setting<'t>>,
    /// What is answered so far.
    answer: Answer<'t>,
    /// What is still to be written.
    pub writer: Writer<'t>,
}

impl<'t> Collector<'_, 't> {
    /// Keeps a setting, if it is of the URL that is asked for.
    fn keep(&mut self, setting: Setting<'t>) -> io::Result<()> {
        if let Some(wanted) = &mut self.for_url {
            if !wanted.has(self.values.host.0.alloc(), &setting)? {
                return Ok(());
            }
        }
        Ok(self.settings.push(setting)?)
    }

    /// Appends a setting, as it is listed under this key.
    pub fn put(&mut self, setting: &Setting<'_>, key: &[u8]) -> io::Result<Outcome> {
        let place = self.writer.unfiled.place(setting);
        let value = setting.value.as_deref();
        self.writer
            .put(&self.values, value, &place, Name::Text(key))
    }

    /// What is answered, which may be the default under this key.
    fn answer_or(&mut self, key: &[u8], default: Option<&[u8]>) -> io::Result<Answer<'t>> {
        let answer = mem::replace(&mut self.answer, Answer::Absent);
        self.writer.answer_or(&self.values, answer, key, default)
    }

    /// Lists a setting. As in Git, a list leaves out what is none of its type.
    #[inline(always)]
    fn list(&mut self, setting: &Setting<'t>) -> io::Result<()> {
        self.writer.put_setting(&self.values, setting)?;
        if self.writer.output.len() >= ROOM {
            self.write()?;
        }
        Ok(())
    }

    /// Writes the output so far.
    fn write(&mut self) -> io::Result<()> {
        self.values.host.0.stdout().write_all(&self.writer.output)?;
        self.writer.output.clear();
        Ok(())
    }
}

impl<'t> Receiver<'t> for Collector<'_, 't> {
    ghost receives = { λ _ _ _. ⊤ };

    /// Lists a setting, answers from it, or keeps it.
    #[inline(always)]
    fn receive(&mut self, setting: Setting<'t>) -> io::Result<()> {
        match self.uses {
            Use::Listed => self.list(&setting),
            Use::Answered => self.writer.answer(&self.values, setting, &mut self.answer),
            Use::Kept => self.keep(setting),
        }
    }
}

/// A run over the requested texts.
#[derive(Drop)]
pub struct Reading<'r, 't> {
    /// The system.
    pub rt: &'t HostRuntime,
    /// What is asked.
    pub request: &'r Request<'r>,
    /// What is collected.
    pub collector: Collector<'r, 't>,
}

impl<'t> Reading<'_, 't> {
    /// Tells that a setting, which is listed under this key, is none of this type.
    pub fn tell_setting(&self, shown: Shown, setting: &Setting<'_>, key: &[u8]) {
        let wrong = Wrong {
            key,
            value: setting.value.as_deref(),
            place: Some(self.collector.writer.unfiled.place(setting)),
        };
        tell_wrong(self.rt, shown, &wrong, [b"", b""]);
    }

    /// Tells that the default value of this key is none of its type.
    fn tell_default<'x>(&self, key: &'x str, default: &'x str) {
        let wrong = Wrong {
            key: key.as_bytes(),
            value: Some(default.as_bytes()),
            place: None,
        };
        let front = b"fatal: failed to format default config value: ";
        tell_wrong(self.rt, self.request.shown, &wrong, [front, b""]);
    }

    /// The settings that were kept, which are taken out.
    pub fn kept_settings(&mut self) -> Vec<Setting<'t>> {
        mem::replace(&mut self.collector.settings, Vec::new(self.rt.alloc()))
    }

    /// Answers with the values of the key, or of the keys of a pattern, or with the default under it as it was asked
    /// for. If one is refused, there is no output.
    fn answer_key(&mut self, key: &str) -> Result<Ending, HostError> {
        let default = self.request.default.map(str::as_bytes);
        let answer = self.collector.answer_or(key.as_bytes(), default)?;
        match &answer {
            Answer::Written | Answer::Absent => {}
            Answer::NoDefault => self.tell_default(key, self.request.default.unwrap_or("")),
            Answer::Refused(setting) => {
                let key = setting.entry.key_text(self.rt.alloc())?;
                self.tell_setting(self.request.shown, setting, &key);
            }
        }
        Ok(answer.ending())
    }

    /// Appends what is asked about.
    fn answer(&mut self) -> Result<Ending, HostError> {
        match self.request.chosen.subject {
            Subject::Entries => Ok(Ending::Done),
            Subject::Key(key) | Subject::Pattern(key) => self.answer_key(key),
            Subject::Url(_, url) => self.answer_url(url),
            Subject::Color(_) => self.answer_color(),
            Subject::UsesColor(key, said) => self.answer_use(key, said),
        }
    }
}

/// What collects the settings, before the texts that are opened are read.
fn new_collector<'r, 't>(
    rt: &'t HostRuntime,
    request: &Request<'r>,
    opened: &Opened<'t>,
) -> Result<Collector<'r, 't>, AllocError> {
    let alloc = rt.alloc();
    let shown = if request.shows_values {
        request.shown
    } else {
        Shown::Text
    };
    Ok(Collector {
        values: Values {
            host: System(rt),
            homes: homes_of(&opened.disk, shown)?,
            shown,
        },
        uses: Use::of(request),
        for_url: match request.chosen.subject {
            Subject::Url(text, url) => ForUrl::new(alloc, text, url)?,
            _ => None,
        },
        settings: Vec::new(alloc),
        answer: Answer::Absent,
        writer: Writer::new(alloc, form_of(request), opened.unfiled),
    })
}

/// Reads what is opened, up to where Git stops, which is told, unless it stopped before at a value.
fn read_opened<'t>(
    rt: &HostRuntime,
    opened: Opened<'t>,
    asked: &mut Asked<'_, '_, Collector<'_, 't>>,
) -> Result<Ending, HereError<'t>> {
    let Opened {
        disk,
        mut reading,
        unfiled,
    } = opened;
    let ended = hand_on(&disk, &mut reading, asked);
    if let Some(answer) = reading.into_answer() {
        tell_refusal(rt, &answer.outcome)?;
    }
    match ended {
        Ok(()) => Ok(Ending::Done),
        Err(HereError::Stops(_)) if matches!(asked.receiver.answer, Answer::Refused(_)) => {
            Ok(Ending::Done)
        }
        Err(HereError::Stops(stop)) => {
            tell_stop(rt, unfiled, stop);
            Ok(Ending::Refused)
        }
        Err(error) => Err(error),
    }
}

/// Answers the request for the chosen entries. The texts of the files are kept in `texts`. If a file is not
/// read completely, no value is printed, since a later line could have another one. As in Git, a list of all that is read
/// here is empty then, unless it is long.
fn answer_in<'r, 't>(
    rt: &'t HostRuntime,
    texts: &'t Bump,
    request: &'r Request<'r>,
    choice: Choice<'r, 'r>,
    commands: &[u8],
) -> Result<Ending, HereError<'t>> {
    let Some(opened) = open_texts(rt, texts, request, commands)? else {
        return Ok(Ending::Refused);
    };
    let mut asked = Asked {
        alloc: rt.alloc(),
        choice,
        receiver: new_collector(rt, request, &opened)?,
    };
    let mut ending = read_opened(rt, opened, &mut asked)?;
    let mut reading = Reading {
        rt,
        request,
        collector: asked.receiver,
    };
    if matches!(ending, Ending::Done) {
        ending = reading.answer()?;
    } else if !request.lists() || matches!(request.texts, Texts::Here) {
        reading.collector.writer.output.clear();
    }
    reading.collector.write()?;
    Ok(ending)
}

/// Answers the request, with these settings of the command line.
// Not inlined, so that a run pays for no page of the stack that a change needs.
#[inline(never)]
pub fn run<'a>(
    rt: &HostRuntime,
    request: &Request<'a>,
    commands: &[u8],
) -> Result<Ending, HostError> {
    if let Subject::Key(key) = request.chosen.subject {
        if let Err(error) = Key::parse(key.as_bytes()) {
            return Ok(Unclear::Key(error).tell(rt, &request.chosen));
        }
    }
    let patterns = match Patterns::new(rt.alloc(), &request.chosen) {
        Ok(patterns) => patterns,
        Err(why) => return Ok(why.tell(rt, &request.chosen)),
    };
    let choice = match choice_of(rt.alloc(), &request.chosen, &patterns) {
        Ok(choice) => choice,
        Err(why) => return Ok(why.tell(rt, &request.chosen)),
    };
    let texts = Bump::new(rt.alloc());
    match answer_in(rt, &texts, request, choice, commands) {
        Ok(ending) => Ok(ending),
        Err(HereError::Host(error)) => Err(error),
        Err(HereError::Stops(stop)) => {
            tell_stop(rt, FILES, stop);
            Ok(Ending::Refused)
        }
    }
}
