//! A finding as JSON.
ghost use Rattle.std.specs.Prelude.{◌≡◌, IfOk, Some, option_copied, option_map};
ghost use Rattle.serde_json.specs.Read.{read};
ghost use Rattle.serde_json.specs.Data.{string};
ghost use Rattle.serde_json.specs.View.{view, members_view};
ghost use Rattle.serde_json.specs.Written.{compact_text};
ghost use Rattle.config_checks.specs.Findings.{finding_of};
ghost use Rattle.config_checks.specs.Json.{text_json, text_or_null, bytes_json, bytes_or_null, safety_name, members_from_line};
ghost use Rattle.config_checks.specs.Json.{finding_json, IsOneLine};

use crate::finding::Finding;
use crate::fingerprint::fingerprint;
use crate::fix::Safety;
use base64::engine::general_purpose::STANDARD;
use serde_json::{Map, Value, put};
use std::alloc::{AllocError, Global};

/// A text as a JSON string.
fn str_json(alloc: Global, text: &str) -> Result<Value, AllocError>
    ensures { IfOk result (λ v. view v ≡ string text.now) }
{
    Ok(Value::from(String::from_str(alloc, text)?))
}

/// A text as a JSON string, with U+FFFD for bytes that are not UTF-8.
fn text_json(alloc: Global, text: &[u8]) -> Result<Value, AllocError>
    ensures { IfOk result (λ v. view v ≡ text_json text.now) }
{
    Ok(Value::from(String::from_utf8_lossy(alloc, text)?))
}

/// A text as a JSON string, or `null` if it is missing.
fn text_or_null(alloc: Global, text: Option<&[u8]>) -> Result<Value, AllocError>
    ensures { IfOk result (λ v. view v ≡ text_or_null (option_copied text.entry)) }
{
    match text {
        Some(text) => text_json(alloc, text),
        None => Ok(Value::Null),
    }
}

/// The bytes of a text that is not UTF-8, in base64, and otherwise `null`.
fn bytes_json(alloc: Global, text: &[u8]) -> Result<Value, AllocError>
    ensures { IfOk result (λ v. view v ≡ bytes_json text.now) }
{
    match str::from_utf8(text) {
        Ok(_) => Ok(Value::Null),
        Err(_) => Ok(Value::from(STANDARD.encode(alloc, text)?)),
    }
}

/// The bytes of a text that is not UTF-8, in base64, and `null` for any other and for a missing one.
fn bytes_or_null(alloc: Global, text: Option<&[u8]>) -> Result<Value, AllocError>
    ensures { IfOk result (λ v. view v ≡ bytes_or_null (option_copied text.entry)) }
{
    match text {
        Some(text) => bytes_json(alloc, text),
        None => Ok(Value::Null),
    }
}

/// The word for how safe a change is, if there is one.
fn name_of(fix: Option<Safety>) -> Option<&'static [u8]>
    ensures { option_copied result ≡ option_map safety_name fix }
{
    match fix {
        Some(safety) => Some(safety.name().as_bytes()),
        None => None,
    }
}

/// The members of a finding from `line` on.
// the last name first: so each is compared only with the one before it
fn members_from_line(alloc: Global, finding: &Finding<'_>) -> Result<Map<String, Value>, AllocError>
    ensures { IfOk result (λ map. members_view map.entries ≡ members_from_line (finding_of finding.now)) }
{
    let mut map = Map::new(alloc);
    put(
        &mut map,
        alloc,
        "value_base64",
        bytes_or_null(alloc, finding.value)?,
    )?;
    put(
        &mut map,
        alloc,
        "value",
        text_or_null(alloc, finding.value)?,
    )?;
    put(
        &mut map,
        alloc,
        "suggested_value",
        text_or_null(alloc, finding.suggested_value)?,
    )?;
    put(
        &mut map,
        alloc,
        "suggested_key",
        text_or_null(alloc, finding.suggested_key)?,
    )?;
    put(
        &mut map,
        alloc,
        "severity",
        str_json(alloc, finding.severity.name())?,
    )?;
    put(&mut map, alloc, "reason", text_json(alloc, finding.reason)?)?;
    put(&mut map, alloc, "line", Value::from(finding.line))?;
    Ok(map)
}

/// A finding as a JSON object.
fn finding_json(
    alloc: Global,
    column: usize,
    equal: u64,
    fix: Option<Safety>,
    finding: &Finding<'_>,
) -> Result<Value, AllocError>
    ensures { IfOk result (λ v. view v ≡ finding_json column equal fix (finding_of finding.now)) }
{
    let mut map = members_from_line(alloc, finding)?;
    put(
        &mut map,
        alloc,
        "key_base64",
        bytes_or_null(alloc, finding.key)?,
    )?;
    put(&mut map, alloc, "key", text_or_null(alloc, finding.key)?)?;
    put(&mut map, alloc, "fix", text_or_null(alloc, name_of(fix))?)?;
    put(
        &mut map,
        alloc,
        "fingerprint",
        Value::from(fingerprint(alloc, equal, finding)?),
    )?;
    put(&mut map, alloc, "file", str_json(alloc, finding.file)?)?;
    put(&mut map, alloc, "column", Value::from(column))?;
    put(
        &mut map,
        alloc,
        "code",
        str_json(alloc, finding.code.name())?,
    )?;
    Ok(Value::Object(map))
}

/// The text of a finding as a JSON object.
fn finding_text(
    alloc: Global,
    column: usize,
    equal: u64,
    fix: Option<Safety>,
    finding: &Finding<'_>,
) -> Result<Vec<u8>, AllocError>
    ensures text { IfOk result
        (λ t. t.items ≡ compact_text (finding_json column equal fix (finding_of finding.now))) }
    ensures reads_back { IfOk result
        (λ t. read t.items ≡ Some (finding_json column equal fix (finding_of finding.now))) }
{
    finding_json(alloc, column, equal, fix, finding)?.to_vec(alloc)
}

/// The JSON text of a finding at this column, which has no line feed. `equal` is that of its fingerprint, and `fix` says
/// whether the change that mends it is safe, if one does. The text always reads back to the same JSON object.
pub fn json_text(
    alloc: Global,
    column: usize,
    equal: u64,
    fix: Option<Safety>,
    finding: &Finding<'_>,
) -> Result<Vec<u8>, AllocError>
    ensures text { IfOk result
        (λ t. t.items ≡ compact_text (finding_json column equal fix (finding_of finding.now))) }
    ensures reads_back { IfOk result
        (λ t. read t.items ≡ Some (finding_json column equal fix (finding_of finding.now))) }
    ensures one_line { IfOk result (λ t. IsOneLine t.items) }
{
    finding_text(alloc, column, equal, fix, finding)
}
