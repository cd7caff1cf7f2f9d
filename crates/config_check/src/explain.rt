//! What the codes of findings mean, and what the rows say of a key.

use crate::failure::{Failure, written};
use crate::rows::Rows;
use crate::text::{put, put_shown};
use config_checks::code::{EXPLAINED, Explained};
use config_checks::finding::key_text;
use config_checks::key::covers;
use config_checks::kind::{Form, SettingKind, WordList};
use config_checks::row::Row;
use config_checks::shape::Shape;
use config_checks::version::Version;
use config_file::key::Key;
use config_host::text::Text;
use itoa::Buffer;
use std::alloc::{AllocError, Global};
use std::io::Write;

/// Appends lines, each behind four spaces.
fn put_indented(out: &mut Text, lines: &str) {
    for line in lines.lines() {
        put(out, "    ");
        put(out, line);
        put(out, "\n");
    }
}

/// Appends a code, with what it means.
fn put_meaning(out: &mut Text, row: &Explained) {
    put(out, row.code.name());
    put(out, ": ");
    put(out, row.meaning);
    put(out, "\n");
}

/// Appends an example of a code.
fn put_example(out: &mut Text, row: &Explained) {
    put(out, "\nwrong:\n");
    put_indented(out, row.wrong);
    put(out, "right:\n");
    put_indented(out, row.right);
}

/// Appends a number.
fn put_signed(out: &mut Text, number: i64) {
    put(out, Buffer::new().format(number));
}

/// What precedes the words of a list.
fn front_of(form: Form) -> &'static str {
    match form {
        Form::Word => "one of: ",
        Form::BoolOrWord => "a boolean, or one of: ",
        Form::IntOrWord => "an integer, or one of: ",
        Form::Words => "a list of: ",
        Form::Date => "a date, or one of: ",
        Form::SortKey => "a key to sort by: ",
    }
}

/// Appends the words of a list, and how they are compared.
fn put_list(out: &mut Text, list: &WordList<'_>) {
    put(out, front_of(list.form));
    let mut front = "";
    for word in &list.words {
        put(out, front);
        put_shown(out, word);
        front = ", ";
    }
    if list.ignores_case {
        put(out, " (in any case)");
    }
}

/// Appends what a kind takes.
fn put_kind(out: &mut Text, kind: &SettingKind<'_>) {
    match kind {
        SettingKind::Text => put(out, "any text"),
        SettingKind::Bool => put(out, "a boolean"),
        SettingKind::BoolOrInt => put(out, "a boolean or an integer"),
        SettingKind::Int { low, high } => {
            put(out, "an integer from ");
            put_signed(out, low.0);
            put(out, " to ");
            put_signed(out, high.0);
        }
        SettingKind::Color => put(out, "a color"),
        SettingKind::Path => put(out, "a path"),
        SettingKind::Shaped(Shape::FetchRefspec) => put(out, "a refspec of a fetch"),
        SettingKind::Shaped(Shape::PushRefspec) => put(out, "a refspec of a push"),
        SettingKind::Shaped(Shape::Branch) => put(out, "the name of a branch"),
        SettingKind::Shaped(Shape::Command) => {
            put(
                out,
                "a command of Git with its arguments, or ! and a command of the shell",
            )
        }
        SettingKind::Shaped(Shape::NoOption) => put(out, "any text that does not begin with -"),
        SettingKind::Shaped(Shape::ColorsByAge) => put(out, "colors with dates between them"),
        SettingKind::Word(list) => put_list(out, list),
    }
}

/// Appends a version behind this text, if there is one.
fn put_version(out: &mut Text, front: &str, version: Option<Version>) {
    if let Some(version) = version {
        put(out, front);
        put_signed(out, version.major.0);
        put(out, ".");
        put_signed(out, version.minor.0);
    }
}

/// Appends what a row says: which Gits read it, what it takes, and what Git does with a wrong value.
fn put_row(alloc: Global, out: &mut Text, row: &Row<'_>) -> Result<(), AllocError> {
    put_shown(out, &key_text(alloc, &row.key)?);
    put(out, ": ");
    put_kind(out, &row.kind);
    put_version(out, "; since Git ", row.since);
    put_version(out, "; before Git ", row.until);
    if let Some(instead) = row.instead {
        put(out, "; deprecated");
        if let Some(old) = row.old {
            put(out, " as ");
            put_shown(out, old);
        }
        put(out, ": use ");
        put_shown(out, instead);
    }
    put(
        out,
        if row.takes_no_value {
            "; a key alone is right"
        } else {
            "; a key alone is wrong"
        },
    );
    if !matches!(row.kind, SettingKind::Text) {
        put(
            out,
            if row.goes_on {
                "; Git goes on at a wrong value"
            } else {
                "; Git stops at a wrong value"
            },
        );
    }
    put(out, "\n");
    Ok(())
}

/// Writes what the code of this name means, with an example, or lists all codes. Returns the exit status, or `None` if
/// there is no such code.
pub(crate) fn explain_code(rt: &HostRuntime, name: &str) -> Result<Option<u8>, Failure<'static>> {
    let mut text = Text::new(rt.alloc());
    for row in EXPLAINED {
        if name == "all" {
            put_meaning(&mut text, row);
        } else if row.code.name() == name {
            put_meaning(&mut text, row);
            put_example(&mut text, row);
        }
    }
    if text.len() == 0 {
        return Ok(None);
    }
    written(rt.stdout().write_all(text.so_far()?))?;
    Ok(Some(0))
}

/// Writes what each row says that covers this key. Returns the exit status.
pub(crate) fn explain_key<'m>(
    rt: &HostRuntime,
    name: &'m str,
    all: &Rows<'_, '_>,
) -> Result<u8, Failure<'m>> {
    let Some(key) = Key::split(name.as_bytes()) else {
        return Err(Failure::Argument("no such code: ", name, "; --explain all lists them"));
    };
    let mut text = Text::new(rt.alloc());
    for row in &all.rows {
        if covers(&row.key, &key) {
            put_row(rt.alloc(), &mut text, row)?;
        }
    }
    if text.len() == 0 {
        return Err(Failure::Argument("no row has the key ", name, ""));
    }
    written(rt.stdout().write_all(text.so_far()?))?;
    Ok(0)
}
