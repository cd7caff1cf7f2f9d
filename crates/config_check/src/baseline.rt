//! The findings of an earlier check.

use crate::failure::Failure;
use serde_json::Value;
use std::alloc::{AllocError, Global};
use std::collections::BTreeSet;
use std::fs;

/// The fingerprint that a line of `--format json` has.
fn fingerprint_in(alloc: Global, line: &[u8]) -> Option<String> {
    let line = str::from_utf8(line).ok()?;
    let object = Value::from_str(alloc, line).ok()?;
    let text = object.get("fingerprint")?.as_str()?;
    String::from_str(alloc, text).ok()
}

/// The fingerprints in this output of `--format json`.
pub(crate) fn fingerprints<'m>(
    rt: &HostRuntime,
    file: &'m str,
) -> Result<BTreeSet<String>, Failure<'m>> {
    let alloc = rt.alloc();
    let bytes = fs::read(rt, file).map_err(|error| Failure::File { file, error })?;
    let mut known = BTreeSet::new(alloc);
    let mut number: usize = 1;
    for line in bytes.split(|byte| *byte == b'\n') {
        if !line.trim_ascii().is_empty() {
            let Some(fingerprint) = fingerprint_in(alloc, line) else {
                return Err(Failure::Baseline { file, line: number });
            };
            if known.insert(fingerprint).is_err() {
                return Err(Failure::Memory(AllocError));
            }
        }
        number = number.saturating_add(1);
    }
    Ok(known)
}
