//! What tells a finding from others, also in a later check of a file whose lines have moved.
ghost use Rattle.std.specs.Prelude.{◌≡◌, ◌++◌, IfOk, OnOk, option_copied, string_bytes};
ghost use Rattle.std.specs.BTreeSet.{contains_text};
ghost use Rattle.config_checks.specs.Findings.{finding_of};
ghost use Rattle.config_checks.specs.Json.{part, part_or_nothing, identity, fingerprint_of};

use crate::finding::Finding;
use itoa::Buffer;
use sha2::{Digest, Sha256};
use std::alloc::{AllocError, Global};
use std::collections::BTreeSet;

/// Appends a text, and a NUL.
fn push_part(out: &mut Vec<u8>, text: &[u8]) -> Result<(), AllocError>
    ensures { OnOk result (out.new.items ≡ out.old.items ++ part text.now) }
{
    out.extend_from_slice(text)?;
    out.extend_from_slice(b"\0")
}

/// Appends a text and a NUL, or nothing if the text is missing.
fn push_part_or_nothing(out: &mut Vec<u8>, text: Option<&[u8]>) -> Result<(), AllocError>
    ensures { OnOk result (out.new.items ≡ out.old.items ++ part_or_nothing (option_copied text.entry)) }
{
    match text {
        Some(text) => push_part(out, text),
        None => Ok(()),
    }
}

/// What a fingerprint is the digest of.
fn identity(alloc: Global, equal: u64, finding: &Finding<'_>) -> Result<Vec<u8>, AllocError>
    ensures { IfOk result (λ t. t.items ≡ identity equal (finding_of finding.now)) }
{
    let mut text = Vec::new(alloc);
    push_part(&mut text, finding.file.as_bytes())?;
    push_part(&mut text, finding.code.name().as_bytes())?;
    push_part_or_nothing(&mut text, finding.key)?;
    push_part_or_nothing(&mut text, finding.value)?;
    text.extend_from_slice(Buffer::new().format(equal).as_bytes())?;
    Ok(text)
}

/// The fingerprint of a finding: 32 hexadecimal digits. They stay the same as long as its file, code, key and
/// value do, and as `equal` does: the number of findings before it that have the same four.
pub fn fingerprint(alloc: Global, equal: u64, finding: &Finding<'_>) -> Result<String, AllocError>
    ensures { IfOk result (λ t. string_bytes t ≡ fingerprint_of (identity equal (finding_of finding.now))) }
{
    let digest = Sha256::digest(identity(alloc, equal, finding)?.as_slice());
    hex::encode(alloc, &digest[..16])
}

/// Whether a baseline has a finding, which `equal` findings of the same four precede. These are the
/// fingerprints in it.
pub fn is_known(
    alloc: Global,
    baseline: &BTreeSet<String>,
    equal: u64,
    finding: &Finding<'_>,
) -> Result<bool, AllocError>
    ensures { IfOk result (λ known. known ≡ contains_text baseline.now
        (fingerprint_of (identity equal (finding_of finding.now)))) }
{
    let print = fingerprint(alloc, equal, finding)?;
    Ok(baseline.contains(print.as_str()))
}
