//! The words of the command line, their options, and what the help says of them.

use config_host::options::Takes::{self, Ever, Nothing, Value, Whole, WholeValue};
use config_host::options::{About, GENERAL, Row, Tables};

/// What is done.
#[derive(Clone, Copy)]
pub enum Action {
    Get,
    GetAll,
    GetRegexp,
    GetUrlMatch,
    GetColor,
    GetColorBool,
    List,
    Set,
    Add,
    ReplaceAll,
    Unset,
    UnsetAll,
    RenameSection,
    RemoveSection,
}

/// An action, and the least and the largest number of words that it takes.
pub type Counted = (Action, usize, usize);

/// Git's older flags, each of which is an action.
pub const OLDER_ACTIONS: &[(&str, Counted)] = &[
    ("get", (Action::Get, 1, 2)),
    ("get-all", (Action::GetAll, 1, 2)),
    ("get-regexp", (Action::GetRegexp, 1, 2)),
    ("get-urlmatch", (Action::GetUrlMatch, 2, 2)),
    ("get-color", (Action::GetColor, 1, 2)),
    ("get-colorbool", (Action::GetColorBool, 1, 2)),
    ("list", (Action::List, 0, 0)),
    ("add", (Action::Add, 2, 2)),
    ("replace-all", (Action::ReplaceAll, 2, 3)),
    ("unset", (Action::Unset, 1, 2)),
    ("unset-all", (Action::UnsetAll, 1, 2)),
    ("rename-section", (Action::RenameSection, 2, 2)),
    ("remove-section", (Action::RemoveSection, 1, 1)),
];

/// A word of the command line.
pub struct Word {
    /// The word, or the empty text for a command line without one.
    pub name: &'static str,
    /// Its action, which its options can change.
    pub action: Action,
    /// The number of words that follow its options.
    pub count: usize,
    /// Its options.
    pub tables: Tables,
    /// What it does.
    pub summary: &'static str,
    /// How it is called.
    pub usage: &'static str,
}

impl Word {
    /// What its help says around its options.
    pub fn about(&self) -> About {
        About {
            summary: self.summary,
            usage: self.usage,
            after: match (self.name, self.action) {
                ("", _) => ALONE,
                (_, Action::List | Action::Get) => READING,
                _ => CHANGING,
            },
        }
    }
}

/// Which file is read or changed. There is no `--blob`, and it is told so.
const LOCATION: &[Row] = &[
    ("global", "", Nothing, "Use the file of the user"),
    ("system", "", Nothing, "Use the file of the system"),
    ("local", "", Nothing, "Use the repository's file"),
    ("worktree", "", Nothing, "Use the work tree's file"),
    ("file", "f", FILE, "Use this file, or standard input for -"),
    ("blob", "", Value("BLOB", &[]), ""),
];

const FILE: Takes = Value("FILE", &[]);

/// The flags that are types.
pub const TYPE_FLAGS: &[Row] = &[
    ("bool", "", Ever, "As --type=bool"),
    ("int", "", Ever, "As --type=int"),
    ("bool-or-int", "", Ever, "As --type=bool-or-int"),
    ("bool-or-str", "", Ever, "As --type=bool-or-str"),
    ("path", "", Ever, "As --type=path"),
    ("expiry-date", "", Ever, "As --type=expiry-date"),
];

/// Of which type values are, and how one is shown that Git shows otherwise.
const TYPE: &[Row] = &[
    ("type", "t", Value("TYPE", &[]), TYPES),
    ("canonical", "", Whole, CANONICAL),
];

const TYPES: &str = "\
Read or write values as this: bool, int, bool-or-int, bool-or-str, path, expiry-date or color, as Git does; \
or suffix, integer, amount, boolean, name or attribute";

const CANONICAL: &str = "Show or write a color by its canonical text, which Git does not do";

/// For how many colors an escape sequence is printed.
const DEPTH: &[Row] = &[("depth", "", DEPTHS, FEWER)];

const DEPTHS: Takes = WholeValue(
    "DEPTH",
    &["auto", "always", "never", "16", "256", "16777216"],
);

const FEWER: &str = "\
Print the escape sequence of a color for so many colors, which Git does not do: those of the output (auto), those that \
TERM and COLORTERM tell of any output (always), none (never), or a number";

/// How entries are shown.
const DISPLAY: &[Row] = &[
    ("null", "z", Nothing, "End each entry with a NUL"),
    ("name-only", "", Nothing, "Show names, and no values"),
    ("show-origin", "", Nothing, "Show where each entry is"),
    ("show-scope", "", Nothing, "Show each entry's scope"),
    ("show-names", "", Nothing, "Show keys before values"),
];

const INCLUDES: &[Row] = &[("includes", "", Nothing, "Follow includes")];

const DEFAULT: &[Row] = &[("default", "", VALUE, "What is printed if no entry has KEY")];

const VALUE: Takes = Value("VALUE", &[]);

const COMMENT: &[Row] = &[("comment", "", TEXT, "Write this comment behind the value")];

const TEXT: Takes = Value("TEXT", &[]);

const FIXED: &[Row] = &[("fixed-value", "", Nothing, "PATTERN is the value itself")];

/// Of which entries a word is.
const FILTER: &[Row] = &[
    ("all", "", Nothing, "Take all entries, and not one"),
    ("value", "", Value("PATTERN", &[]), MATCHES),
];

const MATCHES: &str =
    "Take only entries whose value the pattern matches, or after ! does not match";

/// Of which keys `get` is.
const KEYS: &[Row] = &[
    ("regexp", "", Nothing, "KEY is a pattern of keys"),
    ("url", "", Value("URL", &[]), DECIDES),
];

const DECIDES: &str = "\
Print the value that decides for the URL, as http.proxy has one for each host; KEY may be a section, all of \
whose names are then printed";

/// Whether `set` adds an entry.
const APPEND: &[Row] = &[("append", "", Nothing, "Add an entry, and keep the others")];

/// What Git's older flags do. There is no `--edit`, and it is told so.
const OLDER: &[Row] = &[
    ("get", "", Ever, "Print the last value of KEY"),
    ("get-all", "", Ever, "Print all values of KEY"),
    (
        "get-regexp",
        "",
        Ever,
        "KEY is a pattern: print all keys and values",
    ),
    (
        "get-urlmatch",
        "",
        Ever,
        "Print what decides in KEY for a URL",
    ),
    ("replace-all", "", Ever, "Replace all values of KEY"),
    ("add", "", Ever, "Add an entry, and keep the others"),
    ("unset", "", Ever, "Remove the one entry of KEY"),
    ("unset-all", "", Ever, "Remove all entries of KEY"),
    ("rename-section", "", Ever, "Give sections another name"),
    ("remove-section", "", Ever, "Remove sections"),
    ("list", "l", Ever, "List all entries"),
    (
        "get-color",
        "",
        Ever,
        "Print the color of KEY, or a default",
    ),
    (
        "get-colorbool",
        "",
        Ever,
        "Say whether the output of KEY is colored",
    ),
    ("edit", "e", Ever, ""),
];

/// What the help of the words that read ends with.
const READING: &str = "\
Each option but the flags of types has an opposite, such as --no-type. Statuses: 0 if all is printed,
1 if no entry has the key, it is no key, or the file of get is not there, 6 for an invalid pattern, 128
if a file, a line, a value, a default or a URL is refused, or after an error of the output or of memory,
129 for a wrong usage, and 141 if nobody reads the output to its end.

An expiry date is never, false, all or now; or the seconds since 1970, from 100000000 to 4102444799;
or an age: a number, a space or a dot, and a unit from second to week, perhaps with ago, as in
2.weeks.ago.";

/// What the help of the words that change a file ends with.
const CHANGING: &str = "\
Without a file or a scope the file of the repository changes. All bytes but those of the change stay.
If a signal ends a change, its lock FILE.lock may stay. The next change then says how old the lock is:
remove it if no program is changing the file.

Each option but the flags of types has an opposite, such as --no-type. Statuses: 0 if the file is as
asked, 1 for a key with a wrong byte, 2 for a key without a section or a name, 3 for a file that is
not read or has a broken header, 4 if the new file is not written, 5 if several entries have the key
or none, 6 for an invalid pattern, 128 if another line is invalid, the value is none of its type, the
comment has a line end, no section has the name or the file is -, 129 for a wrong usage, and 255 if
the file cannot be locked or no section can have the name.";

/// What the help without a word ends with.
const ALONE: &str = "\
Words: list, get, set, unset, rename-section and remove-section, each of which has a --help of its
own. Git's word edit and its option --blob are missing. Without a word and without one of the flags
from --get to --get-colorbool a key alone is read, and a key and a value are set. Before them each
`-c KEY=VALUE` and each `--config-env=KEY=VARIABLE` adds a setting of the command. Statuses are those
of the words, and 255 if the default of --get-color is no color.

Examples:
  git-settings get --type=bool --default=false core.bare
  git-settings get --url=https://example.com/a.git http
  git-settings list --file .gitmodules --null
  git-settings set core.editor 'vim -n'
  git-settings unset --global alias.st";

/// The words.
const WORDS: &[Word] = &[
    Word {
        name: "list",
        action: Action::List,
        count: 0,
        tables: &[
            LOCATION, DISPLAY, TYPE, DEPTH, TYPE_FLAGS, INCLUDES, GENERAL,
        ],
        summary: "Lists all entries, as `git config list` does",
        usage: "git-settings [-c KEY=VALUE]... list [OPTIONS]",
    },
    Word {
        name: "get",
        action: Action::Get,
        count: 1,
        tables: &[
            LOCATION, FILTER, FIXED, KEYS, DISPLAY, TYPE, DEPTH, TYPE_FLAGS, INCLUDES, DEFAULT,
            GENERAL,
        ],
        summary: "Prints the last value of a key, or all of them, as `git config get` does",
        usage: "git-settings [-c KEY=VALUE]... get [OPTIONS] KEY",
    },
    Word {
        name: "set",
        action: Action::Set,
        count: 2,
        tables: &[
            LOCATION, TYPE, TYPE_FLAGS, FILTER, FIXED, COMMENT, APPEND, GENERAL,
        ],
        summary: "Gives a key a value in a file, as `git config set` does",
        usage: "git-settings set [OPTIONS] KEY VALUE",
    },
    Word {
        name: "unset",
        action: Action::Unset,
        count: 1,
        tables: &[LOCATION, FILTER, FIXED, GENERAL],
        summary: "Removes the entry of a key from a file, as `git config unset` does",
        usage: "git-settings unset [OPTIONS] KEY",
    },
    Word {
        name: "rename-section",
        action: Action::RenameSection,
        count: 2,
        tables: &[LOCATION, GENERAL],
        summary: "Gives sections of a file another name, as `git config rename-section` does",
        usage: "git-settings rename-section [OPTIONS] OLD NEW",
    },
    Word {
        name: "remove-section",
        action: Action::RemoveSection,
        count: 1,
        tables: &[LOCATION, GENERAL],
        summary: "Removes sections from a file, as `git config remove-section` does",
        usage: "git-settings remove-section [OPTIONS] NAME",
    },
];

/// A command line without a word.
const WITHOUT: &Word = &Word {
    name: "",
    action: Action::Get,
    count: 0,
    tables: &[
        LOCATION, OLDER, DISPLAY, TYPE, DEPTH, TYPE_FLAGS, DEFAULT, COMMENT, FIXED, INCLUDES,
        GENERAL,
    ],
    summary: "Reads and changes Git's settings, as `git config` does",
    usage: "git-settings [-c KEY=VALUE]... [OPTIONS] [KEY [VALUE [PATTERN]]]",
};

/// The arguments without a first `--`.
fn behind_dashes<'w, 'a>(arguments: &'w [&'a str]) -> &'w [&'a str] {
    match arguments {
        [first, rest @ ..] if *first == "--" => rest,
        _ => arguments,
    }
}

/// The word with which arguments begin, and what follows it. Without a word all of them follow, but for a first `--`.
pub fn word_of<'w, 'a>(arguments: &'w [&'a str]) -> (&'static Word, &'w [&'a str]) {
    if let [first, rest @ ..] = arguments {
        for word in WORDS {
            if word.name == *first {
                return (word, rest);
            }
        }
    }
    (WITHOUT, behind_dashes(arguments))
}
