//! The magnitude of an integer, and the suffix after it, read in one pass over the bytes.
ghost use Rattle.std.specs.Prelude.{◌≡◌, ℕ, ◌≤◌, ◌<◌, ◌+◌, ◌*◌, IfSome, SomeIff};
ghost use Rattle.config_integer.specs.Reading.Integer.{number_and_suffix, base_and_digits, magnitude_of};

use crate::suffix::{Suffix, suffix_of};
use config_text::digits::digit_of;
use config_text::words::begins_with_run;

/// 2 to the power of 59. A smaller number with one more digit, in any base up to 16, is below 2 to the power
/// of 63.
const CHECKED_FROM: u64 = 0x0800_0000_0000_0000;

/// Returns the number with one more digit of the base, or `None` if that is more than `limit`.
#[inline(always)]
fn with_digit(number: u64, base: u64, digit: u64, limit: u64) -> Option<u64>
    requires high { base ≤ 16 }
    requires digit { digit < base }
    requires wide { 9223372036854775807 ≤ limit }
    ensures { SomeIff result (number * base + digit ≤ limit) (number * base + digit) }
{
    if number < CHECKED_FROM {
        return Some(number * base + digit);
    }
    let number = number.checked_mul(base)?.checked_add(digit)?;
    if number <= limit { Some(number) } else { None }
}

/// Reads one or more digits of the base, whose number is at most `limit`, and the suffix after them, if there
/// is one. Returns `None` for any other text.
#[inline(always)]
fn number_and_suffix(text: &[u8], base: u64, limit: u64) -> Option<(u64, Option<Suffix>)>
    requires high { base ≤ 16 }
    requires wide { 9223372036854775807 ≤ limit }
    ensures answer { result ≡ number_and_suffix base limit text.now }
    ensures small { IfSome result (λ r. r.0 ≤ limit) }
{
    let mut number: u64 = 0;
    for (at, byte) in text.iter().enumerate() {
        let digit = u64::from(digit_of(*byte));
        if digit >= base {
            if at == 0 {
                return None;
            }
            let suffix = suffix_of(&text[at..])?;
            return Some((number, Some(suffix)));
        }
        number = with_digit(number, base, digit, limit)?;
    }
    if text.is_empty() {
        None
    } else {
        Some((number, None))
    }
}

/// Returns the base that the first bytes of the text mark, and the text from its first digit on.
#[inline(always)]
fn base_and_digits(text: &[u8]) -> (u64, &[u8])
    ensures { (result.0, result.1.now) ≡ base_and_digits text.now }
{
    match text {
        [b'0', b'x' | b'X', digits @ ..] => (16, digits),
        [b'0', b'b' | b'B', digits @ ..] => (2, digits),
        [b'0', ..] => (8, text),
        _ => (10, text),
    }
}

/// Returns the text without each leading zero before another zero. Such zeros do not change the number.
#[inline(always)]
fn without_zeros(text: &[u8]) -> &[u8]
    ensures { (base limit : ℕ) → 0 < base → base ≤ 16
        → number_and_suffix base limit result.now ≡ number_and_suffix base limit text.now }
{
    let mut rest = text;
    while let [b'0', b'0', after @ ..] = rest {
        rest = if begins_with_run::<16>(after, b'0') {
            &after[15..]
        } else {
            &rest[1..]
        };
    }
    rest
}

/// Reads a text without a sign as a magnitude of at most `limit` and a suffix, if there is one. Returns
/// `None` for any other text.
#[inline(always)]
pub(crate) fn magnitude_and_suffix(text: &[u8], limit: u64) -> Option<(u64, Option<Suffix>)>
    requires { 9223372036854775807 ≤ limit }
    ensures answer { result ≡ magnitude_of limit text.now }
    ensures small { IfSome result (λ r. r.0 ≤ limit) }
{
    let (base, digits) = base_and_digits(text);
    number_and_suffix(without_zeros(digits), base, limit)
}
