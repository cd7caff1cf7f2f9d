//! Dates before which something is too old: of those that Git reads, the ones that no calendar is needed for.

use std::io;
use std::time::{SystemTime, UNIX_EPOCH};

/// The units of an age, and the seconds that each has.
const UNITS: &[(&str, u64)] = &[
    ("second", 1),
    ("minute", 60),
    ("hour", 3600),
    ("day", 86400),
    ("week", 604800),
];

/// The texts that are dates by themselves.
const WORDS: &[(&str, u64)] = &[
    ("never", 0),
    ("false", 0),
    ("all", u64::MAX),
    ("now", u64::MAX),
];

/// The longest age in seconds, beyond which Git's own product of a count and a unit does not fit.
const OLDEST: u64 = 2_147_483_647;

/// What a table has for a name.
fn named(table: &[(&str, u64)], name: &str) -> Option<u64> {
    for (one, value) in table {
        if *one == name {
            return Some(*value);
        }
    }
    None
}

/// The number of a text that has digits alone, of which the first is not 0.
fn number_of(text: &str) -> Option<u64> {
    match text.as_bytes() {
        [b'1'..=b'9', ..] => text.parse::<u64>().ok(),
        _ => None,
    }
}

/// The seconds of an age such as `90 days` or `2.weeks.ago`, or `None` if the text is another one.
fn age_of(text: &str) -> Option<u64> {
    let mut words = text.split(['.', ' '].as_slice());
    let (count, unit) = (words.next()?, words.next()?);
    if !matches!(
        (words.next(), words.next()),
        (None, _) | (Some("ago"), None)
    ) {
        return None;
    }
    let seconds = named(UNITS, unit.strip_suffix("s").unwrap_or(unit))?;
    match number_of(count)?.checked_mul(seconds) {
        Some(age) if age <= OLDEST => Some(age),
        _ => None,
    }
}

/// The second of the epoch of a date, or `None` for a text that is no date which is read here. `never` and
/// `false` are the first one, `all` and `now` the last one, a number in Git's range is the second itself, and
/// an age is before this moment.
pub fn read(rt: &HostRuntime, text: &str) -> io::Result<Option<u64>> {
    if let Some(second) = named(WORDS, text) {
        return Ok(Some(second));
    }
    if let Some(second) = number_of(text) {
        let is_read = matches!(second, 100_000_000..=4_102_444_799);
        return Ok(if is_read { Some(second) } else { None });
    }
    let Some(age) = age_of(text) else {
        return Ok(None);
    };
    match SystemTime::now(rt)?.duration_since(UNIX_EPOCH) {
        Ok(passed) => Ok(passed.as_secs().checked_sub(age)),
        Err(_) => Ok(None),
    }
}
