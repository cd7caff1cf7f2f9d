//! Escapes of URLs, such as `%20`, in the form in which Git compares them.

ghost use Rattle.std.specs.Prelude.{◌≡◌, ◌<◌, ◌≤◌, ◌∷◌, ◌++◌, ℕ, List, length, MatchOption};
ghost use Rattle.std.specs.Prelude.{IfSome, IfOk, OnOk};
ghost use Rattle.config_url.specs.Url as spec;
ghost use Rattle.config_url.specs.Url.{IsNormal};
ghost use Rattle.config_url.specs.Reading.Urls.{GoesOn, written_as};

use config_file::bytes::split;
use std::alloc::{AllocError, Global};

/// A byte that a text spells, and what follows it.
#[derive(Clone, Copy)]
struct Spelled<'t> {
    byte: u8,
    is_escaped: bool,
    rest: &'t [u8],
}

fn hex_value(digit: u8) -> Option<u8>
    ensures { result ≡ spec.hex_value digit }
{
    match digit {
        b'0'..=b'9' => Some(digit - b'0'),
        b'a'..=b'f' => Some(digit - b'a' + 10),
        b'A'..=b'F' => Some(digit - b'A' + 10),
        _ => None,
    }
}

fn hex_digit(value: u8) -> u8
    requires { value < 16 }
    ensures { result ≡ spec.hex_digit value }
{
    if value < 10 {
        b'0' + value
    } else {
        b'A' + (value - 10)
    }
}

/// Whether a byte is always escaped.
fn is_unsafe(byte: u8) -> bool
    ensures { result ≡ spec.is_unsafe byte }
{
    b" <>\"%{}|\\^`".contains(&byte) || (byte < 0x20 || 0x7e < byte)
}

/// Whether a byte is one that separates parts of URLs, so that it differs from its escape.
fn is_reserved(byte: u8) -> bool
    ensures { result ≡ spec.is_reserved byte }
{
    b":/?#[]@!$&'()*+,;=".contains(&byte)
}

/// The first byte that the text spells. It is `None` for a `%` without two hexadecimal digits.
fn first_spelled(first: u8, rest: &[u8]) -> Option<Spelled<'_>>
    ensures spelled { MatchOption result ((normal : List ℕ) → ¬ (IsNormal (first ∷ rest.now) normal))
        (λ s. GoesOn (first ∷ rest.now) (written_as s.is_escaped s.byte) s.rest.now) }
    ensures within { IfSome result (λ s. length s.rest.now ≤ length rest.now) }
{
    if first != b'%' {
        return Some(Spelled {
            byte: first,
            is_escaped: false,
            rest,
        });
    }
    let (high, rest) = split(rest)?;
    let (low, rest) = split(rest)?;
    let high = hex_value(high)?;
    let low = hex_value(low)?;
    Some(Spelled {
        byte: high * 16 + low,
        is_escaped: true,
        rest,
    })
}

/// Appends a byte, escaped or as it is.
fn push_spelled(text: &mut Vec<u8>, byte: u8, is_escaped: bool) -> Result<(), AllocError>
    ensures { OnOk result (text.new.items ≡ text.old.items ++ written_as is_escaped byte) }
{
    if is_unsafe(byte) || is_escaped && is_reserved(byte) {
        text.push(b'%')?;
        text.push(hex_digit(byte / 16))?;
        text.push(hex_digit(byte % 16))?;
        return Ok(());
    }
    text.push(byte)?;
    Ok(())
}

/// The text with the escapes that it needs and no others, or `None` if a `%` has not two hexadecimal digits.
pub(crate) fn normal(alloc: Global, text: &[u8]) -> Result<Option<Vec<u8>>, AllocError>
    ensures { IfOk result (λ found. MatchOption found ((normal : List ℕ) → ¬ (IsNormal text.now normal))
        (λ normal. IsNormal text.now normal.items)) }
{
    let mut written = Vec::with_capacity(alloc, text.len())?;
    let mut rest = text;
    'bytes: while let Some((first, after)) = split(rest) {
        let Some(spelled) = first_spelled(first, after) else {
            return Ok(None);
        };
        push_spelled(&mut written, spelled.byte, spelled.is_escaped)?;
        rest = spelled.rest;
    }
    Ok(Some(written))
}
