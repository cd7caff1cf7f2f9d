//! Findings as a SARIF document, of version 2.1.0.

use crate::changes::Mended;
use crate::options::VERSION;
use crate::source::Spot;
use crate::text::{put, put_message};
use config_checks::code::{Code, EXPLAINED, Explained};
use config_checks::finding::Finding;
use config_host::text::Text;
use percent_encoding::{AsciiSet, NON_ALPHANUMERIC, percent_encode};
use serde_json::{Value, json};
use std::alloc::{AllocError, Global};

/// The bytes that a path in a URI has as `%XX`.
fn escaped() -> AsciiSet {
    NON_ALPHANUMERIC
        .remove(b'/')
        .remove(b'-')
        .remove(b'.')
        .remove(b'_')
        .remove(b'~')
}

/// The name of a file as a reference to a URI.
fn uri_of(alloc: Global, file: &str) -> Result<String, AllocError> {
    let mut uri = String::new(alloc);
    if file.starts_with('/') {
        uri.push_str("file://")?;
    }
    percent_encode(file.as_bytes(), escaped()).append_to(&mut uri)?;
    Ok(uri)
}

/// The rule of a code, with its examples as the help of it.
fn rule_of(alloc: Global, row: &Explained) -> Result<Vec<u8>, AllocError> {
    let help = format!(in alloc; "wrong:\n{}right:\n{}", row.wrong, row.right)?;
    let rule: Value = json!(in alloc; {
        "id": row.code.name(),
        "shortDescription": { "text": row.meaning },
        "help": { "text": help }
    })?;
    rule.to_vec(alloc)
}

/// What the document begins with, up to the results.
pub(crate) fn beginning(alloc: Global) -> Result<Vec<u8>, AllocError> {
    let mut text = Text::new(alloc);
    put(
        &mut text,
        "{\"$schema\":\"https://json.schemastore.org/sarif-2.1.0.json\",\"version\":\"2.1.0\",\
         \"runs\":[{\"tool\":{\"driver\":{\"name\":\"config_check\",\"version\":\"",
    );
    put(&mut text, VERSION);
    put(&mut text, "\",\"rules\":[");
    let mut front = "\n";
    for row in EXPLAINED {
        put(&mut text, front);
        front = ",\n";
        text.put(&rule_of(alloc, row)?);
    }
    put(
        &mut text,
        "]}},\"columnKind\":\"unicodeCodePoints\",\"results\":[",
    );
    text.end()
}

/// What the document ends with.
pub(crate) const END: &str = "\n]}]}\n";

/// The message of a finding, as JSON.
fn message_of(alloc: Global, finding: &Finding<'_>) -> Result<Value, AllocError> {
    let mut message = Text::new(alloc);
    put_message(alloc, &mut message, finding)?;
    let text = String::from_utf8_lossy(alloc, message.so_far()?)?;
    json!(in alloc; { "text": text })
}

/// The location of a finding, as JSON.
fn location_of(alloc: Global, finding: &Finding<'_>, spot: &Spot<'_>) -> Result<Value, AllocError> {
    let uri = uri_of(alloc, finding.file)?;
    json!(in alloc; { "physicalLocation": {
        "artifactLocation": { "uri": uri },
        "region": { "startLine": finding.line, "startColumn": spot.character() }
    } })
}

/// A change as a fix: its lines, and what they become. `None` if it is a guess, or is not UTF-8.
fn fix_of(alloc: Global, file: &str, fix: &Mended) -> Result<Option<Value>, AllocError> {
    let Some(lines) = &fix.lines else {
        return Ok(None);
    };
    let (true, Ok(text)) = (fix.is_safe(), str::from_utf8(&lines.text)) else {
        return Ok(None);
    };
    let uri = uri_of(alloc, file)?;
    let fix = json!(in alloc; { "artifactChanges": [{
        "artifactLocation": { "uri": uri },
        "replacements": [{
            "deletedRegion": { "startLine": lines.span.first, "endLine": lines.span.last },
            "insertedContent": { "text": text }
        }]
    }] })?;
    Ok(Some(fix))
}

/// The place of a code among the rules.
fn index_of(code: Code) -> usize {
    EXPLAINED
        .iter()
        .position(|row| row.code == code)
        .unwrap_or(0)
}

/// The result of a finding with this fingerprint, and with this change if one mends it.
pub(crate) fn result_of(
    alloc: Global,
    finding: &Finding<'_>,
    spot: &Spot<'_>,
    fingerprint: &str,
    fix: Option<&Mended>,
) -> Result<Vec<u8>, AllocError> {
    let message = message_of(alloc, finding)?;
    let location = location_of(alloc, finding, spot)?;
    let mut result: Value = json!(in alloc; {
        "ruleId": finding.code.name(),
        "ruleIndex": index_of(finding.code),
        "level": finding.severity.name(),
        "message": message,
        "locations": [location],
        "partialFingerprints": { "gitConfigCheck/v1": fingerprint }
    })?;
    if let Some(fix) = fix {
        let safety: Value = json!(in alloc; { "fix": fix.safety.name() })?;
        let change = fix_of(alloc, finding.file, fix)?;
        if let Some(members) = result.as_object_mut() {
            serde_json::put(members, alloc, "properties", safety)?;
            if let Some(change) = change {
                serde_json::put(members, alloc, "fixes", json!(in alloc; [change])?)?;
            }
        }
    }
    result.to_vec(alloc)
}
