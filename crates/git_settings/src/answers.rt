//! Answers about a URL, a color, and whether output is colored.

use crate::files::Reading;
use crate::output::{Ending, tell};
use crate::shown::{Outcome, Shown, Wrong, tell_wrong};
use crate::wanted::section_and_name;
use config_file::entry::push_lower;
use config_file::{Key, Setting, Settings};
use config_host::HostError;
use config_host::environment::variable;
use config_host::terminal::When;
use config_url::{Url, is_of_url, last_for_url};
use gix_config_value::canonical::{Kind, TryRead};
use gix_config_value::{Boolean, Color};
use std::alloc::{AllocError, Global};
use std::cmp::Ordering;
use std::io::IsTerminal;

/// The order of the names of two settings, in which case does not count.
fn order_of_names(one: &Setting<'_>, other: &Setting<'_>) -> Ordering {
    let lower = |byte: &u8| byte.to_ascii_lowercase();
    one.entry
        .key
        .iter()
        .map(lower)
        .cmp(other.entry.key.iter().map(lower))
}

/// Whether a setting has another name than those of a group.
fn is_of_other(group: &Settings<'_>, setting: &Setting<'_>) -> bool {
    match group.entries.first() {
        Some(first) => !first.entry.has_key(setting.entry.key),
        None => false,
    }
}

/// Puts the key of a section and a name, as Git lists it, in place of a text.
fn put_key(text: &mut Vec<u8>, section: &str, name: &[u8]) -> Result<(), AllocError> {
    text.clear();
    push_lower(text, section.as_bytes())?;
    text.push(b'.')?;
    push_lower(text, name)
}

/// The URL for which settings are asked for, of a section or of a key.
#[derive(Drop)]
pub struct ForUrl<'r, 't> {
    section: &'r str,
    url: Url,
    /// The name of the settings that are looked at.
    name: &'t [u8],
    /// Their key as Git lists it, and whether it is one.
    listed: Vec<u8>,
    is_key: bool,
    /// Those settings, which have one name.
    group: Settings<'t>,
}

impl<'r, 't> ForUrl<'r, 't> {
    /// What is asked about this URL, or `None` if Git compares none like it. The text is a section, or a key.
    pub fn new(
        alloc: Global,
        text: &'r str,
        url: &str,
    ) -> Result<Option<ForUrl<'r, 't>>, AllocError> {
        let (section, _) = section_and_name(text);
        let Some(url) = Url::parse(alloc, url.as_bytes())? else {
            return Ok(None);
        };
        Ok(Some(ForUrl {
            section,
            url,
            name: b"",
            listed: Vec::new(alloc),
            is_key: false,
            group: Settings::new(alloc),
        }))
    }

    /// Lists the key of this name, unless it was listed last.
    fn list(&mut self, name: &'t [u8]) -> Result<(), AllocError> {
        if self.name == name {
            return Ok(());
        }
        put_key(&mut self.listed, self.section, name)?;
        self.is_key = Key::parse(&self.listed).is_ok();
        self.name = name;
        Ok(())
    }

    /// The key that was listed last, if it is one.
    fn key(&self) -> Option<Key<'_>> {
        if self.is_key {
            Key::split(&self.listed)
        } else {
            None
        }
    }

    /// Adds a setting to the group.
    fn add(&mut self, setting: Setting<'t>) -> Result<(), AllocError> {
        self.list(setting.entry.key)?;
        Ok(self.group.entries.push(setting)?)
    }

    /// The setting of the group that decides for the URL, if one does.
    fn decided(&self, alloc: Global) -> Result<Option<&Setting<'t>>, AllocError> {
        match self.key() {
            Some(key) => last_for_url(alloc, &self.group, &key, &self.url),
            None => Ok(None),
        }
    }

    /// Whether a setting is of the URL.
    pub fn has(&mut self, alloc: Global, setting: &Setting<'t>) -> Result<bool, AllocError> {
        self.list(setting.entry.key)?;
        match self.key() {
            Some(key) => is_of_url(alloc, &setting.entry, &key, &self.url),
            None => Ok(false),
        }
    }
}

/// Whether the run goes on after a setting that has no value of its type. As in Git, it ends at others.
fn is_passed_over(shown: Shown, setting: &Setting<'_>) -> bool {
    match shown {
        Shown::Escape(_) | Shown::Date => true,
        Shown::Path => setting.value.is_none(),
        _ => false,
    }
}

impl<'t> Reading<'_, 't> {
    /// Appends the settings that decide for a URL: of a section the one of each name, in the order of names.
    pub fn answer_url(&mut self, url: &str) -> Result<Ending, HostError> {
        let Some(mut wanted) = self.collector.for_url.take() else {
            tell(
                self.rt,
                &[b"fatal: no URL that Git compares: ", url.as_bytes()],
            );
            return Ok(Ending::Refused);
        };
        let mut kept = self.kept_settings();
        kept.sort_by(order_of_names)?;
        let mut ending = Ending::Absent;
        for setting in kept {
            if is_of_other(&wanted.group, &setting) {
                ending = self.answer_group(ending, &wanted)?;
                wanted.group.entries.clear();
            }
            if matches!(ending, Ending::Refused) {
                return Ok(ending);
            }
            wanted.add(setting)?;
        }
        self.answer_group(ending, &wanted)
    }

    /// Appends the one of the settings of a name that decides for a URL, if one does. Returns how the run ends.
    fn answer_group(
        &mut self,
        ending: Ending,
        wanted: &ForUrl<'_, 't>,
    ) -> Result<Ending, HostError> {
        match wanted.decided(self.rt.alloc())? {
            Some(setting) => self.answer_for_url(setting, &wanted.listed),
            None => Ok(ending),
        }
    }

    /// Appends a setting that decides for a URL, or tells that it has no value of its type.
    fn answer_for_url(&mut self, setting: &Setting<'_>, key: &[u8]) -> Result<Ending, HostError> {
        let outcome = self.collector.put(setting, key)?;
        if matches!(outcome, Outcome::Refused) {
            self.tell_setting(self.request.shown, setting, key);
            if !is_passed_over(self.request.shown, setting) {
                return Ok(Ending::Refused);
            }
        }
        Ok(Ending::Done)
    }

    /// The last color that was found, or `None` if one of them is wrong, which is told.
    fn last_color(&mut self) -> Result<Option<Option<Color>>, HostError> {
        let mut color = None;
        let found = self.kept_settings();
        for setting in &found {
            match Color::try_read(setting.text()) {
                Ok(read) if setting.value.is_some() => color = Some(read),
                _ => {
                    let key = setting.entry.key_text(self.rt.alloc())?;
                    self.tell_setting(self.request.shown, setting, &key);
                    return Ok(None);
                }
            }
        }
        Ok(Some(color))
    }

    /// Appends the escape sequence of the last color that was found, or of the default, for the depth that is asked
    /// for, and nothing after it.
    pub fn answer_color(&mut self) -> Result<Ending, HostError> {
        let Some(mut color) = self.last_color()? else {
            return Ok(Ending::Refused);
        };
        if let (None, Some(default)) = (color, self.request.default) {
            match Color::try_from(default) {
                Ok(read) => color = Some(read),
                Err(_) => {
                    tell(
                        self.rt,
                        &[b"error: invalid color value: ", default.as_bytes()],
                    );
                    tell(self.rt, &[b"error: unable to parse default color value"]);
                    return Ok(Ending::Failed);
                }
            }
        }
        if let (Some(color), Shown::Escape(Some(depth))) = (color, self.request.shown) {
            self.collector
                .writer
                .output
                .extend_from_slice(color.reduced(depth).escape().as_str().as_bytes())?;
        }
        Ok(Ending::Done)
    }

    /// What the settings that were found say of the output of this key, or `None` if one of them is wrong,
    /// which is told.
    fn decided_use(&mut self, key: &str) -> Result<Option<When>, HostError> {
        let (mut own, mut of_diff, mut of_all) = (None, None, None);
        let found = self.kept_settings();
        for setting in &found {
            let listed = setting.entry.key_text(self.rt.alloc())?;
            let Some(means) = When::read(setting.text()) else {
                self.tell_setting(Shown::Canonical(Kind::Boolean), setting, &listed);
                return Ok(None);
            };
            if listed.as_slice() == key.as_bytes() {
                own = Some(means);
            } else if listed.as_slice() == b"diff.color".as_slice() {
                of_diff = Some(means);
            } else {
                of_all = Some(means);
            }
        }
        if key != "color.diff" {
            of_diff = None;
        }
        let decided = own.or(of_diff).or(of_all);
        Ok(Some(decided.unwrap_or(When::Auto)))
    }

    /// Whether the output is a terminal with colors, or `None` if what is said of it is no boolean, which is
    /// told.
    fn is_for_terminal(&self, said: Option<&str>) -> Result<Option<bool>, HostError> {
        let is_terminal = match said {
            None => self.rt.stdout().is_terminal(),
            Some(text) => match Boolean::try_read(text.as_bytes()) {
                Ok(Boolean(is_terminal)) => is_terminal,
                Err(_) => {
                    let wrong = Wrong {
                        key: b"command line",
                        value: Some(text.as_bytes()),
                        place: None,
                    };
                    tell_wrong(self.rt, Shown::Canonical(Kind::Boolean), &wrong, [b"", b""]);
                    return Ok(None);
                }
            },
        };
        let is_dumb = match variable(self.rt, "TERM")? {
            Some(name) => name.as_slice() == b"dumb".as_slice(),
            None => true,
        };
        Ok(Some(is_terminal && !is_dumb))
    }

    /// Says whether output is colored: by a text if it is said whether the output is a terminal, and by the
    /// status otherwise.
    pub fn answer_use(&mut self, key: &str, said: Option<&str>) -> Result<Ending, HostError> {
        let Some(has_terminal) = self.is_for_terminal(said)? else {
            return Ok(Ending::Refused);
        };
        let Some(means) = self.decided_use(key)? else {
            return Ok(Ending::Refused);
        };
        let is_colored = match means {
            When::Never => false,
            When::Always => true,
            When::Auto => has_terminal,
        };
        if said.is_some() {
            self.collector
                .writer
                .output
                .extend_from_slice(if is_colored {
                    b"true\n"
                } else {
                    b"false\n".as_slice()
                })?;
        } else if !is_colored {
            return Ok(Ending::Absent);
        }
        Ok(Ending::Done)
    }
}
