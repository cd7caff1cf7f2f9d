//! Writes messages.

use crate::request::Request;
use bstr::BStr;
pub use config_answers::answer::Ending;
pub use config_answers::line::{Form, Name, Origin, Place, Unfiled};
use config_file::{Stop, Why};
use config_host::shown::line_of;
use config_host::text::Text;
use itoa::Buffer;
use std::alloc::AllocError;
use std::fmt;
use std::io::Write;

/// The line of a message.
fn message_of(rt: &HostRuntime, parts: &[&[u8]]) -> Result<Vec<u8>, AllocError> {
    let mut message = Text::new(rt.alloc());
    for part in parts {
        message.put(part);
    }
    line_of(rt.alloc(), message.so_far()?)
}

/// Writes a message of these parts on standard error. As in Git, one that cannot be written is lost.
pub fn tell(rt: &HostRuntime, parts: &[&[u8]]) {
    let _ = match message_of(rt, parts) {
        Ok(line) => rt.stderr().write_all(&line),
        Err(_) => rt.stderr().write_all(b"fatal: out of memory\n"),
    };
}

/// A message without the number that the system has for an error, which Git does not write.
fn without_number(text: &str) -> &str {
    match text.rsplit_once(" (os error ") {
        Some((front, number)) if number.ends_with(')') => front,
        _ => text,
    }
}

/// Writes these parts and an error on standard error.
pub fn tell_error<E: fmt::Display + Drop>(rt: &HostRuntime, parts: [&[u8]; 3], error: E) {
    let [front, name, end] = parts;
    match format!(in rt.alloc(); "{error}") {
        Ok(text) => tell(rt, &[front, name, end, without_number(&text).as_bytes()]),
        Err(_) => tell(rt, &[b"fatal: out of memory"]),
    }
}

/// Writes that a run ends with this error.
pub fn tell_fatal<E: fmt::Display + Drop>(rt: &HostRuntime, error: E) {
    tell_error(rt, [b"fatal: ", b"", b""], error);
}

/// Tells where Git stops, and why. Without a line it is told as one of the command, or of a file that is not read.
pub fn tell_place(rt: &HostRuntime, stop: Stop<&[u8]>) {
    match (stop.why, stop.line) {
        (Why::BadCommand, _) => {
            tell(rt, &[b"error: ", stop.words]);
            tell(rt, &[b"fatal: unable to parse command-line config"]);
        }
        (Why::Unreadable | Why::NoFolder, 0) => {
            let front = b"fatal: unable to read config file '";
            tell_error(rt, [front, stop.file, b"': "], BStr::new(stop.words));
        }
        _ => tell_fatal(rt, stop),
    }
}

/// How the settings of a request are written.
pub fn form_of(request: &Request<'_>) -> Form {
    Form {
        all: request.all,
        null: request.null,
        shows_scope: request.shows_scope,
        shows_origin: request.shows_origin,
        shows_names: request.shows_names,
        shows_values: request.shows_values,
        between: if request.lists() { b'=' } else { b' ' },
    }
}

/// Tells that Git reads no further than this line, and why if its words do not say so.
pub fn tell_line(rt: &HostRuntime, place: &Place<'_>, why: &[u8]) {
    let mut buffer = Buffer::new();
    let line = buffer.format(place.line).as_bytes();
    let front = b"fatal: bad config line ";
    match place.origin {
        Origin::File => tell(rt, &[front, line, b" in file ", place.file, why]),
        Origin::Input => tell(rt, &[front, line, b" in standard input", why]),
        Origin::Command => tell(rt, &[b"fatal: unable to parse command-line config", why]),
    }
}
