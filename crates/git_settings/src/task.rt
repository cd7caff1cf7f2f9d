//! What the words and the options of the command line ask, as Git reads them.

use crate::options::{Action, Counted, OLDER_ACTIONS, TYPE_FLAGS, Word};
use crate::output::{Ending, tell};
use crate::request::{Change, Chosen, Edit, Request, Subject, Texts};
use crate::shown::{Shown, shown_by_name};
use config_file::{Key, Scope};
use config_host::options::Options;
use gix_config_value::color::Depth;

/// What a command line asks for.
#[derive(Clone, Copy)]
pub enum Task<'a> {
    /// Values or entries are printed.
    Read(Request<'a>),
    /// A file is changed.
    Change(Edit<'a>),
}

/// Why words and options are refused, in Git's words: how the run ends, and the parts of the message.
#[derive(Clone, Copy)]
pub struct Misuse<'a>(Ending, [&'a [u8]; 7]);

impl Misuse<'_> {
    /// Tells it. Returns how the run ends.
    pub fn tell(&self, rt: &HostRuntime) -> Ending {
        tell(rt, &self.1);
        self.0
    }
}

/// A misuse that ends with the status of a wrong usage.
fn error<'a>(why: &'a str) -> Misuse<'a> {
    Misuse(
        Ending::Misused,
        [b"error: ", why.as_bytes(), b"", b"", b"", b"", b""],
    )
}

/// A misuse of a word, for which Git has a status of its own.
fn fatal<'a>(why: &'a str, text: &'a str, end: &'a str) -> Misuse<'a> {
    let (why, text, end) = (why.as_bytes(), text.as_bytes(), end.as_bytes());
    Misuse(Ending::Refused, [b"fatal: ", why, text, end, b"", b"", b""])
}

/// A key and a value that `=` joins behind the last dot, if there is one.
fn joined(text: &str) -> Option<(&str, &str)> {
    let (_, end) = text.rsplit_once('.')?;
    let (name, value) = end.split_once('=')?;
    let length = text
        .len()
        .saturating_sub(end.len())
        .saturating_add(name.len());
    Some((text.get(..length)?, value))
}

/// The misuse of a word that should be a key and a value. If `=` joins them, Git says how they are written.
fn no_value<'a>(text: &'a str) -> Misuse<'a> {
    let front = b"error: missing value to set to the variable '";
    let unknown = b"error: missing value to set to a variable with an invalid name '";
    let bytes = text.as_bytes();
    let parts: [&'a [u8]; 7] = match joined(text) {
        Some((key, value)) if Key::parse(key.as_bytes()).is_ok() => {
            let hint = b"'\nhint: did you mean \"git config set ";
            [
                front,
                bytes,
                hint,
                key.as_bytes(),
                b" ",
                value.as_bytes(),
                b"\"?",
            ]
        }
        _ if Key::parse(bytes).is_ok() => [front, bytes, b"'", b"", b"", b"", b""],
        _ => [unknown, bytes, b"'", b"", b"", b"", b""],
    };
    Misuse(Ending::Misused, parts)
}

/// The flags that name a scope.
const SCOPES: &[(&str, Scope)] = &[
    ("system", Scope::System),
    ("global", Scope::Global),
    ("local", Scope::Local),
    ("worktree", Scope::Worktree),
];

/// Which texts are read or changed. If no option names a file, GIT_CONFIG may have named one.
fn texts_of<'a>(options: &Options<'a>, named: Option<&'a str>) -> Result<Texts<'a>, Misuse<'a>> {
    if options.has("blob") {
        return Err(error("--blob is not offered: ask git config"));
    }
    let mut texts = match options.last("file").or(named) {
        Some(file) => Texts::Named(file),
        None => Texts::Here,
    };
    for (name, scope) in SCOPES {
        if options.has(name) {
            if !matches!(texts, Texts::Here) {
                return Err(error("only one config file at a time"));
            }
            texts = Texts::OfScope(*scope);
        }
    }
    Ok(texts)
}

/// The word of a type that an option of this name and value gives.
fn type_of<'a>(name: &'static str, value: &'a str) -> Option<&'a str> {
    if name == "type" {
        return Some(value);
    }
    for row in TYPE_FLAGS {
        if row.0 == name {
            return Some(row.0);
        }
    }
    None
}

/// As what values are read and shown. A color is shown for this depth.
fn shown_of<'a>(options: &Options<'a>, depth: Option<Depth>) -> Result<Shown, Misuse<'a>> {
    let mut found: Option<&'a str> = None;
    for given in &options.given {
        let Some(word) = type_of(given.name, given.value) else {
            continue;
        };
        match found {
            _ if given.is_undone => found = None,
            Some(other) if other != word => {
                return Err(error("only one type at a time"));
            }
            _ => found = Some(word),
        }
    }
    let Some(word) = found else {
        return Ok(Shown::Text);
    };
    let escape = if options.has("canonical") {
        None
    } else {
        Some(depth)
    };
    shown_by_name(word, escape).ok_or(fatal("unrecognized --type argument, ", word, ""))
}

/// Whether includes are followed: if this is not said, in all that Git reads here and in standard input, and not in
/// one file.
fn follows(options: &Options<'_>, texts: Texts<'_>) -> bool {
    let mut follows = matches!(texts, Texts::Here | Texts::Named("-"));
    for given in &options.given {
        if given.name == "includes" {
            follows = !given.is_undone;
        }
    }
    follows
}

/// What a word or an older flag says, whichever of them it is.
#[derive(Clone, Copy)]
struct Plain<'a> {
    action: Action,
    is_word: bool,
    /// The key, a pattern of keys, or the name of a section.
    first: &'a str,
    /// The value, the new name, the URL, the color, or whether the output is a terminal.
    second: Option<&'a str>,
    /// The pattern of values.
    pattern: Option<&'a str>,
}

/// Refuses another number of words.
fn check_count(count: usize, least: usize, most: usize) -> Result<(), Misuse<'static>> {
    if least <= count && count <= most {
        return Ok(());
    }
    Err(error(match (least, most) {
        (0, _) => "wrong number of arguments, should be 0",
        (1, 1) => "wrong number of arguments, should be 1",
        (1, _) => "wrong number of arguments, should be from 1 to 2",
        (_, 2) => "wrong number of arguments, should be 2",
        _ => "wrong number of arguments, should be from 2 to 3",
    }))
}

/// The action of an older flag, or `None` if it is another option.
fn action_of(name: &str) -> Option<Counted> {
    for (flag, counted) in OLDER_ACTIONS {
        if *flag == name {
            return Some(*counted);
        }
    }
    None
}

/// Whether Git's word is asked for that opens an editor, or its flag.
fn edits(options: &Options<'_>) -> bool {
    options.has("edit") || matches!(options.words.first(), Some(word) if *word == "edit")
}

/// The action of the one older flag, or that of this number of words without a flag.
fn older_action<'a>(options: &Options<'a>) -> Result<Counted, Misuse<'a>> {
    let mut found: Option<(&'static str, Counted)> = None;
    for given in &options.given {
        let Some(counted) = action_of(given.name) else {
            continue;
        };
        match found {
            Some((other, _)) if other != given.name => {
                let (front, end) = (b"error: options '--", b"' cannot be used together");
                let (one, other) = (given.name.as_bytes(), other.as_bytes());
                let parts = [front, one, b"' and '--", other, end, b"", b""];
                return Err(Misuse(Ending::Misused, parts));
            }
            _ => found = Some((given.name, counted)),
        }
    }
    if found.is_none() && edits(options) {
        return Err(error("edit is not offered: ask git config"));
    }
    match (found, options.words.as_slice()) {
        (Some((_, counted)), _) => Ok(counted),
        (None, [word]) if joined(*word).is_some() => Err(no_value(*word)),
        (None, [_]) => Ok((Action::Get, 1, 1)),
        (None, [_, _] | [_, _, _]) => Ok((Action::Set, 2, 3)),
        _ => Err(error("no action specified")),
    }
}

/// What a command line without a word says.
fn older<'a>(options: &Options<'a>) -> Result<Plain<'a>, Misuse<'a>> {
    let (action, least, most) = older_action(options)?;
    let words = options.words.as_slice();
    check_count(words.len(), least, most)?;
    let (second, third) = (words.get(1).copied(), words.get(2).copied());
    let has_pattern = matches!(
        action,
        Action::Get | Action::GetAll | Action::GetRegexp | Action::Unset | Action::UnsetAll
    );
    Ok(Plain {
        action,
        is_word: false,
        first: words.first().copied().unwrap_or(""),
        second: if has_pattern { None } else { second },
        pattern: if has_pattern { second } else { third },
    })
}

/// The action of a word with its options.
fn word_action(action: Action, options: &Options<'_>) -> Action {
    match action {
        Action::Get if options.has("url") => Action::GetUrlMatch,
        Action::Get if options.has("regexp") => Action::GetRegexp,
        Action::Set if options.has("append") => Action::Add,
        Action::Set if options.has("all") => Action::ReplaceAll,
        Action::Unset if options.has("all") => Action::UnsetAll,
        action => action,
    }
}

/// What a word says.
fn worded<'a>(word: &Word, options: &Options<'a>) -> Result<Plain<'a>, Misuse<'a>> {
    match (word.action, options.words.as_slice()) {
        (Action::Set, [word]) => return Err(no_value(*word)),
        (_, words) => check_count(words.len(), word.count, word.count)?,
    }
    Ok(Plain {
        action: word_action(word.action, options),
        is_word: true,
        first: options.words.first().copied().unwrap_or(""),
        second: options.last("url").or(options.words.get(1).copied()),
        pattern: options.last("value"),
    })
}

/// Refuses options that do not go with an older flag.
fn check_older(plain: &Plain<'_>, options: &Options<'_>) -> Result<(), Misuse<'static>> {
    let action = plain.action;
    let is_get = matches!(action, Action::Get | Action::GetAll | Action::GetRegexp);
    let is_list = matches!(action, Action::List);
    if options.has("name-only") && !is_list && !matches!(action, Action::GetRegexp) {
        return Err(error("--name-only is only applicable to --list or --get-regexp"));
    }
    if options.has("show-origin") && !is_list && !is_get {
        return Err(error(
            "--show-origin is only applicable to --get, --get-all, --get-regexp, and --list",
        ));
    }
    if options.has("default") && !matches!(action, Action::Get) {
        return Err(error("--default is only applicable to --get"));
    }
    let is_set = matches!(action, Action::Set | Action::Add | Action::ReplaceAll);
    if options.has("comment") && !is_set {
        return Err(error("--comment is only applicable to add/set/replace operations"));
    }
    if options.has("fixed-value") && plain.pattern.is_none() {
        return Err(error("--fixed-value only applies with 'value-pattern'"));
    }
    Ok(())
}

/// Refuses options that do not go with a word.
fn check_word(plain: &Plain<'_>, options: &Options<'_>) -> Result<(), Misuse<'static>> {
    let (has_url, has_all) = (options.has("url"), options.has("all"));
    let has_pattern = plain.pattern.is_some();
    if options.has("fixed-value") && !has_pattern {
        let with = match plain.action {
            Action::Set | Action::Add | Action::ReplaceAll => "--value=<pattern>",
            _ => "'value-pattern'",
        };
        return Err(fatal("--fixed-value only applies with ", with, ""));
    }
    if options.has("default") && (has_all || has_url) {
        return Err(fatal("--default= cannot be used with --all or --url=", "", ""));
    }
    if has_url && (has_all || has_pattern || options.has("regexp")) {
        return Err(fatal(
            "--url= cannot be used with --all, --regexp or --value",
            "",
            "",
        ));
    }
    if options.has("append") && has_pattern {
        return Err(fatal("--append cannot be used with --value=<pattern>", "", ""));
    }
    Ok(())
}

/// What is asked about. The color of no key is that of the default.
fn subject_of<'a>(plain: &Plain<'a>, default: Option<&'a str>, shown: Shown) -> Subject<'a> {
    let first = plain.first;
    match plain.action {
        Action::List => Subject::Entries,
        Action::GetRegexp => Subject::Pattern(first),
        Action::GetUrlMatch => Subject::Url(first, plain.second.unwrap_or("")),
        Action::GetColor => Subject::Color(first),
        Action::GetColorBool => Subject::UsesColor(first, plain.second),
        _ if plain.is_word && first.is_empty() && matches!(shown, Shown::Escape(_)) => {
            if default.is_some() {
                Subject::Color(first)
            } else {
                Subject::Key(first)
            }
        }
        _ => Subject::Key(first),
    }
}

/// Whether the keys are shown of what is asked about. For a URL they are if it is a section.
fn shows_names(plain: &Plain<'_>, options: &Options<'_>) -> bool {
    match plain.action {
        Action::List => true,
        Action::GetRegexp if !plain.is_word => true,
        Action::GetUrlMatch => !plain.first.contains('.'),
        _ => options.has("show-names"),
    }
}

/// What is read.
fn request_of<'a>(
    plain: &Plain<'a>,
    options: &Options<'a>,
    texts: Texts<'a>,
    shown: Shown,
) -> Request<'a> {
    let default = match plain.action {
        Action::GetColor => plain.second,
        _ => options.last("default"),
    };
    Request {
        texts,
        chosen: Chosen {
            subject: subject_of(plain, default, shown),
            value: plain.pattern,
            is_fixed: options.has("fixed-value"),
        },
        shown,
        follows: follows(options, texts),
        null: options.has("null"),
        shows_scope: options.has("show-scope"),
        shows_origin: options.has("show-origin"),
        shows_names: shows_names(plain, options),
        shows_values: !options.has("name-only"),
        all: match plain.action {
            Action::Get => options.has("all"),
            Action::GetRegexp => options.has("all") || !plain.is_word,
            _ => true,
        },
        default,
    }
}

/// The change of an action, or `None` if it reads.
fn change_of<'a>(plain: &Plain<'a>) -> Option<Change<'a>> {
    let second = plain.second.unwrap_or("");
    match plain.action {
        Action::Set => Some(Change::Set(second)),
        Action::Add => Some(Change::Add(second)),
        Action::ReplaceAll => Some(Change::Replace(second)),
        Action::Unset => Some(Change::Unset),
        Action::UnsetAll => Some(Change::UnsetAll),
        Action::RenameSection => Some(Change::Rename(second)),
        Action::RemoveSection => Some(Change::Remove),
        _ => None,
    }
}

/// What is changed.
fn edit_of<'a>(
    plain: &Plain<'a>,
    change: Change<'a>,
    options: &Options<'a>,
    texts: Texts<'a>,
    shown: Shown,
) -> Result<Edit<'a>, Misuse<'a>> {
    let comment = options.last("comment");
    match comment {
        Some(text) if text.contains('\n') => {
            return Err(fatal("no multi-line comment allowed: '", text, "'"));
        }
        _ => {}
    }
    Ok(Edit {
        texts,
        change,
        name: plain.first,
        pattern: plain.pattern,
        is_fixed: options.has("fixed-value"),
        comment,
        shown,
        advice: match plain.is_word {
            true => "Use --value=<pattern>, --append or --all",
            false => "Use a regexp, --add or --replace-all",
        },
    })
}

/// Refuses a depth where no escape sequence is printed.
fn check_depth(
    plain: &Plain<'_>,
    options: &Options<'_>,
    shown: Shown,
) -> Result<(), Misuse<'static>> {
    let prints = matches!(shown, Shown::Escape(_)) && change_of(plain).is_none();
    if options.has("depth") && !prints {
        return Err(error("--depth is only applicable to reading with --type=color or --get-color"));
    }
    Ok(())
}

/// What a word, or a command line without one, asks with these options. GIT_CONFIG may have named a file, and escape
/// sequences are those for this depth.
pub fn task_of<'a>(
    word: &Word,
    options: &Options<'a>,
    named: Option<&'a str>,
    depth: Option<Depth>,
) -> Result<Task<'a>, Misuse<'a>> {
    let mut shown = shown_of(options, depth)?;
    let plain = if word.name.is_empty() {
        older(options)?
    } else {
        worded(word, options)?
    };
    let is_color = matches!(plain.action, Action::GetColor | Action::GetColorBool);
    if is_color && !matches!(shown, Shown::Text) {
        return Err(error("--get-color and variable type are incoherent"));
    }
    if matches!(plain.action, Action::GetColor) {
        shown = Shown::Escape(depth);
    }
    if plain.is_word {
        check_word(&plain, options)?;
    } else {
        check_older(&plain, options)?;
    }
    check_depth(&plain, options, shown)?;
    let texts = texts_of(options, named)?;
    match change_of(&plain) {
        Some(change) => Ok(Task::Change(edit_of(&plain, change, options, texts, shown)?)),
        None => Ok(Task::Read(request_of(&plain, options, texts, shown))),
    }
}
