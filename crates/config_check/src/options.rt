//! The command line: what a run is asked for.

use crate::failure::{Failure, tell};
use config_checks::code::{Code, EXPLAINED};
use config_checks::git::NEWEST;
use config_checks::reason::Severity;
use config_checks::version::Version;
use config_file::key::Key;
use config_host::options::{About, Ends, GENERAL, Given, Options, Row, Tables, Takes, read};
use config_host::terminal::{When, depth};
use std::alloc::{AllocError, Global};
use std::io::IsTerminal;

/// The version of the program.
pub(crate) const VERSION: &str = "0.2.0";

/// What `--help` says around the options.
pub(crate) const ABOUT: About = About {
    summary: "Reports what is wrong in Git configuration files: those named, or those that Git reads here",
    usage: "config_check [OPTIONS] [FILE]...",
    after: "\
A FILE is a configuration file, or - for standard input.

Exit status:
  0  nothing is found that counts
  1  something is found that counts: by --fail-on
  2  a file cannot be read or written, or an argument or a row of --settings is wrong

With --fix a file keeps its mode, and becomes one of the user who runs this, as with Git: run it as the user \
whose file it is.

Install it as git-config-check, and call it by that name: by `git config-check` Git stops first at many \
errors.",
};

/// The options that may be given several times.
const SEVERAL: &[Row] = &[
    (
        "settings",
        "",
        Takes::Value("FILE", &[]),
        "Rows of further settings, which win over the built-in ones, and over those of later files; may be repeated",
    ),
    (
        "ignore",
        "",
        Takes::Value("CODE", &[]),
        "Report no finding with this code or, if it is a KEY, about keys that it covers as that of a row; may be \
repeated",
    ),
];

/// The other options.
const ONCE: &[Row] = &[
    ("quiet", "q", Takes::Ever, "Write no counts"),
    (
        "canonical",
        "",
        Takes::Ever,
        "Report right values too that are not spelled canonically",
    ),
    (
        "no-includes",
        "",
        Takes::Ever,
        "Check no file that another one includes",
    ),
    (
        "fix",
        "",
        Takes::Ever,
        "Undo in each FILE what is surely a typing error, and report the rest",
    ),
    (
        "unsafe-fixes",
        "",
        Takes::Ever,
        "With --fix or --diff, take what is only a guess too, if it is the only suggestion",
    ),
    (
        "diff",
        "",
        Takes::Ever,
        "Write what --fix would change as a unified diff, and change nothing: the exit status is as without it",
    ),
    (
        "exit-zero",
        "",
        Takes::Ever,
        "End with 0 whatever is found, and with 2 still after a failure",
    ),
    (
        "statistics",
        "",
        Takes::Ever,
        "Write how many findings each code has, in place of the findings",
    ),
    (
        "git",
        "",
        Takes::Value("VERSION", &[]),
        "The version of Git that reads the files, as 2.39: if none is given, the newest of the rows",
    ),
    (
        "root",
        "",
        Takes::Value("DIR", &[]),
        "Look for users, and for included files with an absolute path or below a home directory, in this folder; HOME is \
the name that its user's home has there, as /home/ann",
    ),
    (
        "baseline",
        "",
        Takes::Value("FILE", &[]),
        "Report only what this output of --format json does not have",
    ),
    (
        "explain",
        "",
        Takes::Value("CODE|KEY", &[]),
        "Say what a code means or what a key takes, or list all codes by all, and check nothing",
    ),
    (
        "color",
        "",
        Takes::Value("WHEN", &["auto", "always", "never"]),
        "Whether severities have colors: auto (the default), which is on a terminal, always or never",
    ),
    (
        "fail-on",
        "",
        Takes::Value("SEVERITY", &["note", "warning", "error"]),
        "The least severity that makes the exit status 1: note (the default), warning or error",
    ),
    (
        "format",
        "",
        Takes::Value("FORMAT", &["text", "json", "github", "sarif"]),
        "How findings are written: text (the default), json (an object a line), github or sarif",
    ),
];

/// The options of the program.
pub(crate) const TABLES: Tables = &[ONCE, SEVERAL, GENERAL];

/// How findings are written.
#[derive(Clone, Copy)]
pub(crate) enum Format {
    /// Each finding is a line of text.
    Text,
    /// Each finding is a JSON object on a line of its own.
    Json,
    /// Each finding is a command for GitHub's runners, which show it as an annotation.
    Github,
    /// All findings are a SARIF document.
    Sarif,
}

/// How findings are shown.
#[derive(Clone, Copy)]
pub(crate) struct Style {
    pub(crate) format: Format,
    /// Whether severities in text have colors.
    pub(crate) color: bool,
    /// Whether the line that a finding is about follows it, with a mark under what is wrong.
    pub(crate) excerpts: bool,
}

/// What is written on standard output.
#[derive(Clone, Copy)]
pub(crate) enum Output {
    /// The findings.
    Findings,
    /// The findings that are left after the files are changed.
    Fixed,
    /// What would be changed.
    Diff,
    /// How many findings each code has.
    Statistics,
}

/// Findings that are not reported.
#[derive(Clone, Copy)]
pub(crate) enum Ignored<'m> {
    /// Those with this code.
    Code(Code),
    /// Those about keys that this one covers.
    Key(Key<'m>),
}

/// What a run is asked for.
#[derive(Clone, Copy)]
pub(crate) struct Request<'r, 'm> {
    pub(crate) git: Version,
    pub(crate) canonical: bool,
    pub(crate) style: Style,
    pub(crate) output: Output,
    /// Whether changes are made that are not safe, too.
    pub(crate) guesses: bool,
    pub(crate) fails_on: Severity,
    /// Whether what is found does not count for the exit status.
    pub(crate) passes: bool,
    pub(crate) is_quiet: bool,
    pub(crate) follows: bool,
    pub(crate) root: Option<&'m str>,
    pub(crate) baseline: Option<&'m str>,
    pub(crate) ignored: &'r [Ignored<'m>],
    /// The names of the files: none for those that Git reads here.
    pub(crate) files: &'r [&'m str],
}

/// The options that the file of rows at the top of a repository may have.
const IN_FILES: &[&str] = &[
    "git",
    "ignore",
    "fail-on",
    "canonical",
    "no-includes",
    "exit-zero",
];

/// These options, with those of the words of a file before them, so that these win.
pub(crate) fn with_those_of<'m>(
    alloc: Global,
    words: &[&'m str],
    options: &Options<'m>,
) -> Result<Options<'m>, Failure<'m>> {
    let mut all = match read(alloc, TABLES, words, Ends::Nowhere)? {
        Ok(all) => all,
        Err(misuse) => return Err(Failure::Misuse(misuse)),
    };
    check_once(&all.given)?;
    for one in &all.given {
        if !IN_FILES.contains(&one.name) {
            return Err(Failure::Argument("not an option of .gitconfig-check: --", one.name, ""));
        }
    }
    if let Some(word) = all.words.first() {
        return Err(Failure::Argument("not an option of .gitconfig-check: ", word, ""));
    }
    for one in &options.given {
        if all.given.push(*one).is_err() {
            return Err(Failure::Memory(AllocError));
        }
    }
    for word in &options.words {
        if all.words.push(*word).is_err() {
            return Err(Failure::Memory(AllocError));
        }
    }
    Ok(all)
}

/// Whether an option may be given several times.
fn is_several(given: &Given<'_>) -> bool {
    for row in SEVERAL {
        if row.0 == given.name {
            return true;
        }
    }
    false
}

/// Refuses an option that is given twice and has one value.
pub(crate) fn check_once(given: &[Given<'_>]) -> Result<(), Failure<'static>> {
    for (at, one) in given.iter().enumerate() {
        for before in given.iter().take(at) {
            if before.name == one.name && !is_several(one) {
                return Err(Failure::Argument("option `", one.name, "' is given twice"));
            }
        }
    }
    Ok(())
}

/// The values of an option that may be given several times: those behind the last one that undoes them.
pub(crate) fn values_of<'m>(
    alloc: Global,
    options: &Options<'m>,
    name: &str,
) -> Result<Vec<&'m str>, AllocError> {
    let mut values = Vec::new(alloc);
    for one in &options.given {
        if one.name != name {
            continue;
        }
        if one.is_undone {
            values.clear();
        } else {
            values.push(one.value)?;
        }
    }
    Ok(values)
}

/// The severity of `--fail-on`.
fn fails_on(options: &Options<'_>) -> Severity {
    match options.last("fail-on") {
        Some("error") => Severity::Error,
        Some("warning") => Severity::Warning,
        _ => Severity::Note,
    }
}

/// The first three parts of a version, behind which builds other than releases have more.
fn release_of(text: &str) -> &str {
    let mut dots: usize = 0;
    for (at, byte) in text.bytes().enumerate() {
        if byte == b'.' {
            dots = dots.saturating_add(1);
            if dots == 3 {
                return text.get(..at).unwrap_or(text);
            }
        }
    }
    text
}

/// The version of `--git`.
pub(crate) fn git_of<'m>(rt: &HostRuntime, options: &Options<'m>) -> Result<Version, Failure<'m>> {
    match options.last("git") {
        Some(text) => match Version::read(release_of(text).as_bytes()) {
            Some(version) if NEWEST.is_before(version) => {
                let (major, minor) = (NEWEST.major, NEWEST.minor);
                let said = "the built-in rows do not know what is new in Git after";
                tell(
                    rt,
                    format!(in rt.alloc(); "config_check: {said} {major}.{minor}: {text}"),
                );
                Ok(version)
            }
            Some(version) => Ok(version),
            None => Err(Failure::Argument("not a version of Git, as 2.39 is: ", text, "")),
        },
        None => Ok(NEWEST),
    }
}

/// The format of `--format`.
fn format_of(options: &Options<'_>) -> Format {
    match options.last("format") {
        Some("json") => Format::Json,
        Some("github") => Format::Github,
        Some("sarif") => Format::Sarif,
        _ => Format::Text,
    }
}

/// Whether `--color` and standard output want colors.
fn wants_color(rt: &HostRuntime, options: &Options<'_>) -> Result<bool, AllocError> {
    let when = match options.last("color") {
        Some("always") => When::Always,
        Some("never") => When::Never,
        _ => When::Auto,
    };
    Ok(depth(rt, &rt.stdout(), when)?.is_some())
}

/// The code of this name.
pub(crate) fn code_of(name: &str) -> Option<Code> {
    for row in EXPLAINED {
        if row.code.name() == name {
            return Some(row.code);
        }
    }
    None
}

/// What `--ignore` names.
pub(crate) fn ignored_by<'m>(
    alloc: Global,
    names: &[&'m str],
) -> Result<Vec<Ignored<'m>>, Failure<'m>> {
    let mut all = Vec::new(alloc);
    for name in names {
        let one = match (code_of(name), Key::split(name.as_bytes())) {
            (Some(code), _) => Ignored::Code(code),
            (None, Some(key)) => Ignored::Key(key),
            (None, None) => return Err(Failure::Argument("neither a code nor a key: ", name, "")),
        };
        if all.push(one).is_err() {
            return Err(Failure::Memory(AllocError));
        }
    }
    Ok(all)
}

/// What is written on standard output.
fn output_of(options: &Options<'_>) -> Result<Output, Failure<'static>> {
    let kinds = (
        options.has("fix"),
        options.has("diff"),
        options.has("statistics"),
    );
    match kinds {
        (false, false, false) => Ok(Output::Findings),
        (true, false, false) => Ok(Output::Fixed),
        (false, true, false) => Ok(Output::Diff),
        (false, false, true) => Ok(Output::Statistics),
        _ => Err(Failure::Whole("only one of --fix, --diff and --statistics")),
    }
}

/// Whether `--unsafe-fixes` is given, which says what `--fix` and `--diff` do.
fn guesses_of(options: &Options<'_>) -> Result<bool, Failure<'static>> {
    if !options.has("unsafe-fixes") {
        return Ok(false);
    }
    if options.has("fix") || options.has("diff") {
        Ok(true)
    } else {
        Err(Failure::Whole("--unsafe-fixes goes with --fix or --diff"))
    }
}

impl<'r, 'm: 'r> Request<'r, 'm> {
    /// What these options ask for, of which `--ignore` is read already.
    pub(crate) fn of(
        rt: &HostRuntime,
        options: &'r Options<'m>,
        ignored: &'r [Ignored<'m>],
    ) -> Result<Request<'r, 'm>, Failure<'m>> {
        Ok(Request {
            git: git_of(rt, options)?,
            canonical: options.has("canonical"),
            style: Style {
                format: format_of(options),
                color: wants_color(rt, options)?,
                excerpts: rt.stdout().is_terminal(),
            },
            output: output_of(options)?,
            guesses: guesses_of(options)?,
            fails_on: fails_on(options),
            passes: options.has("exit-zero"),
            is_quiet: options.has("quiet"),
            follows: !options.has("no-includes"),
            root: options.last("root"),
            baseline: options.last("baseline"),
            ignored,
            files: &options.words,
        })
    }
}
