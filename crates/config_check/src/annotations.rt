//! A finding as a command for GitHub's runners, which show it as an annotation of its line.

use crate::source::Spot;
use crate::text::{put, put_message, put_number};
use config_checks::finding::Finding;
use config_checks::reason::Severity;
use config_host::text::Text;
use std::alloc::{AllocError, Global};

/// The command of a severity.
fn command_of(severity: Severity) -> &'static str {
    match severity {
        Severity::Error => "error",
        Severity::Warning => "warning",
        Severity::Note => "notice",
    }
}

/// Appends a text as the message of a command, or as a property, in which a colon or a comma would end it.
fn put_escaped(line: &mut Text, text: &[u8], is_property: bool) {
    for byte in text {
        match *byte {
            b'%' => put(line, "%25"),
            b'\r' => put(line, "%0D"),
            b'\n' => put(line, "%0A"),
            b':' if is_property => put(line, "%3A"),
            b',' if is_property => put(line, "%2C"),
            byte => line.put_byte(byte),
        }
    }
}

/// Appends the command for a finding.
pub(crate) fn put_annotation(
    alloc: Global,
    line: &mut Text,
    finding: &Finding<'_>,
    spot: &Spot<'_>,
) -> Result<(), AllocError> {
    put(line, "::");
    put(line, command_of(finding.severity));
    put(line, " file=");
    put_escaped(line, finding.file.as_bytes(), true);
    put(line, ",line=");
    put_number(line, finding.line);
    put(line, ",col=");
    put_number(line, spot.column);
    put(line, ",title=");
    put_escaped(line, finding.code.name().as_bytes(), true);
    put(line, "::");
    let mut message = Text::new(alloc);
    put_message(alloc, &mut message, finding)?;
    put_escaped(line, message.so_far()?, false);
    put(line, "\n");
    Ok(())
}
