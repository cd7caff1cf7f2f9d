//! What to write in place of a value that the reader of a boolean, an integer or a color refuses, or in place of a part
//! of a value, and which slots there are in place of an unknown one.

use crate::rows::word_of;
use crate::text::{put, put_number, put_shown};
use config_checks::code::Code;
use config_checks::finding::{Finding, key_text};
use config_checks::key::covers;
use config_checks::kind::{Form, SettingKind, WordList, is_separator, sort_name};
use config_checks::reason::nearest_word;
use config_checks::row::Row;
use config_file::key::Key;
use config_host::text::Text;
use gix_config_value::canonical::TryRead;
use gix_config_value::color::Attribute;
use gix_config_value::integer::Amount;
use gix_config_value::{Color, Fault};
use std::alloc::{AllocError, Global};

/// What is known of a value that is refused.
#[derive(Drop)]
pub(crate) struct Hint<'v> {
    /// The word of the value that is wrong, if the value has several.
    pub(crate) wrong: Option<&'v [u8]>,
    /// What to write instead, if anything is near.
    pub(crate) meant: Option<Vec<u8>>,
    /// Whether nothing else is as near.
    pub(crate) is_sure: bool,
}

/// A text that is meant, and whether it alone is.
#[derive(Drop)]
struct Meant {
    text: Vec<u8>,
    is_sure: bool,
}

/// Words that people write for booleans.
const BOOLEANS: &[&[u8]] = &[b"true", b"false", b"yes", b"off"];

/// Other words that people write for true, and for false.
const FOR_TRUE: &[&[u8]] = &[b"enable", b"enabled", b"y", b"t"];

const FOR_FALSE: &[&[u8]] = &[b"disable", b"disabled", b"n", b"f"];

/// The names of colors.
const NAMES: &str = "\
normal default black red green yellow blue magenta cyan white brightblack brightred brightgreen brightyellow \
brightblue brightmagenta brightcyan brightwhite";

/// The words of a text.
pub(crate) fn words_in(
    alloc: Global,
    text: &'static str,
) -> Result<Vec<&'static [u8]>, AllocError> {
    let mut words = Vec::new(alloc);
    for word in text.as_bytes().split(|byte| *byte == b' ') {
        words.push(word)?;
    }
    Ok(words)
}

/// The words of colors: the names, and then those of attributes.
fn color_words(alloc: Global) -> Result<Vec<&'static [u8]>, AllocError> {
    let mut words = words_in(alloc, NAMES)?;
    for attribute in !Attribute::default() {
        if let Some(word) = attribute.word() {
            words.push(word.as_bytes())?;
        }
    }
    Ok(words)
}

/// This text, which alone is meant.
fn surely(alloc: Global, text: &[u8]) -> Result<Option<Meant>, AllocError> {
    Ok(Some(Meant {
        text: text.to_vec(alloc)?,
        is_sure: true,
    }))
}

/// The first of the nearest words, and whether it is the last one too.
fn nearest<'w>(
    alloc: Global,
    words: &[&'w [u8]],
    text: &[u8],
) -> Result<Option<(&'w [u8], bool)>, AllocError> {
    let Some(first) = nearest_word(alloc, words, text)? else {
        return Ok(None);
    };
    let mut others = Vec::from_slice(alloc, words)?;
    others.reverse();
    let last = nearest_word(alloc, &others, text)?;
    Ok(Some((first, last.is_some_and(|last| last == first))))
}

/// Whether one of the words is this text, ignoring ASCII case.
pub(crate) fn has(words: &[&[u8]], text: &[u8]) -> bool {
    for word in words {
        if word.eq_ignore_ascii_case(text) {
            return true;
        }
    }
    false
}

/// The boolean that is meant by a text.
fn boolean(alloc: Global, text: &[u8]) -> Result<Option<Meant>, AllocError> {
    let text = text.trim_ascii();
    if has(FOR_TRUE, text) {
        return surely(alloc, b"true");
    }
    if has(FOR_FALSE, text) {
        return surely(alloc, b"false");
    }
    match nearest(alloc, BOOLEANS, text)? {
        Some((word, is_sure)) => Ok(Some(Meant {
            text: word.to_vec(alloc)?,
            is_sure,
        })),
        None => Ok(None),
    }
}

/// The number without what Git does not read in it: blanks, `_` and `,`, and the bytes of a unit, as in
/// `500MB`.
fn number(alloc: Global, text: &[u8]) -> Result<Option<Meant>, AllocError> {
    let mut plain = Text::new(alloc);
    for byte in text {
        if !matches!(*byte, b' ' | b'\t' | b'_' | b',') {
            plain.put_byte(byte.to_ascii_lowercase());
        }
    }
    let mut plain = plain.end()?;
    for unit in [b"ib".as_slice(), b"b".as_slice()] {
        if let Some(front) = plain.strip_suffix(unit) {
            let end = front.len();
            if matches!(front.last(), Some(b'k' | b'm' | b'g')) {
                plain.truncate(end);
            }
        }
    }
    if plain.as_slice() == text || Amount::try_read(&plain).is_err() {
        return number_before_unit(alloc, text);
    }
    // a comma may also be that of a fraction
    let is_sure = !text.contains(&b',');
    Ok(Some(Meant {
        text: plain,
        is_sure,
    }))
}

/// What people write behind a number whose unit the setting decides.
const UNITS: &[&[u8]] = &[
    b"s", b"sec", b"secs", b"second", b"seconds", b"ms", b"b", b"byte", b"bytes", b"commit",
    b"commits", b"job", b"jobs", b"thread", b"threads", b"%",
];

/// The number before a unit, which is a guess, since the setting may count in another one.
fn number_before_unit(alloc: Global, text: &[u8]) -> Result<Option<Meant>, AllocError> {
    let count = text.iter().take_while(|byte| byte.is_ascii_digit()).count();
    let Some((number, unit)) = text.split_at_checked(count) else {
        return Ok(None);
    };
    if number.is_empty() || !has(UNITS, unit.trim_ascii()) || Amount::try_read(number).is_err() {
        return Ok(None);
    }
    Ok(Some(Meant {
        text: number.to_vec(alloc)?,
        is_sure: false,
    }))
}

/// The first word of a color that is none.
fn wrong_word(text: &[u8]) -> Option<&[u8]> {
    text.split(|byte| byte.is_ascii_whitespace())
        .find(|word| Color::try_read(word).is_err())
}

/// The words of a text, with one space between them, and with another word in place of the first that is wrong.
fn replaced(alloc: Global, text: &[u8], wrong: &[u8], word: &[u8]) -> Result<Vec<u8>, AllocError> {
    let mut color = Text::new(alloc);
    let mut is_done = false;
    for part in text.split(|byte| byte.is_ascii_whitespace()) {
        if part.is_empty() {
            continue;
        }
        if color.len() > 0 {
            color.put_byte(b' ');
        }
        if !is_done && part == wrong {
            color.put(word);
            is_done = true;
        } else {
            color.put(part);
        }
    }
    color.end()
}

/// A color in which `-`, `_`, `,`, `+` and `/` separate words, if that makes it right.
fn separated(alloc: Global, text: &[u8]) -> Result<Option<Vec<u8>>, AllocError> {
    let mut words = Text::new(alloc);
    for byte in text {
        words.put_byte(match *byte {
            b'-' | b'_' | b',' | b'+' | b'/' => b' ',
            byte => byte.to_ascii_lowercase(),
        });
    }
    let color = replaced(alloc, words.so_far()?, b"", b"")?;
    if Color::try_read(&color).is_err() {
        return Ok(None);
    }
    Ok(Some(color))
}

/// The color that is meant by a text in which this word and the next one are one word, as in `light green`.
fn joined(alloc: Global, text: &[u8], wrong: &[u8]) -> Result<Option<Meant>, AllocError> {
    let mut parts = text
        .split(|byte| byte.is_ascii_whitespace())
        .skip_while(|part| *part != wrong)
        .filter(|part| !part.is_empty())
        .skip(1);
    let Some(next) = parts.next() else {
        return Ok(None);
    };
    let mut both = wrong.to_vec(alloc)?;
    both.extend_from_slice(next)?;
    let Some((word, _)) = nearest(alloc, &color_words(alloc)?, &both)? else {
        return Ok(None);
    };
    let shorter = replaced(alloc, text, next, b"")?;
    let color = replaced(alloc, &shorter, wrong, word)?;
    if Color::try_read(&color).is_err() {
        return Ok(None);
    }
    Ok(Some(Meant {
        text: color,
        is_sure: false,
    }))
}

/// The color that is meant by a text in which this word is none.
fn color_meant(alloc: Global, text: &[u8], wrong: &[u8]) -> Result<Option<Meant>, AllocError> {
    if let Some(color) = separated(alloc, text)? {
        return Ok(Some(Meant {
            text: color,
            is_sure: true,
        }));
    }
    let Some((word, is_sure)) = nearest(alloc, &color_words(alloc)?, wrong)? else {
        return joined(alloc, text, wrong);
    };
    let color = replaced(alloc, text, wrong, word)?;
    if Color::try_read(&color).is_err() {
        // another word is wrong too, and only this one is told
        return Ok(Some(Meant {
            text: word.to_vec(alloc)?,
            is_sure: false,
        }));
    }
    Ok(Some(Meant {
        text: color,
        is_sure,
    }))
}

/// What is known, if this is meant.
fn hint_of<'v>(wrong: Option<&'v [u8]>, meant: Option<Meant>) -> Hint<'v> {
    match meant {
        Some(Meant { text, is_sure }) => Hint {
            wrong,
            meant: Some(text),
            is_sure,
        },
        None => Hint {
            wrong,
            meant: None,
            is_sure: true,
        },
    }
}

/// What is known of a color that is refused.
fn color<'v>(alloc: Global, text: &'v [u8]) -> Result<Hint<'v>, AllocError> {
    let Some(wrong) = wrong_word(text) else {
        return Ok(hint_of(None, None));
    };
    let named = if wrong == text.trim_ascii() {
        None
    } else {
        Some(wrong)
    };
    Ok(hint_of(named, color_meant(alloc, text, wrong)?))
}

/// The first of these fields that should be a color and is none: every other one should.
fn wrong_field(fields: &[&[u8]]) -> Option<usize> {
    fields.iter().enumerate().position(|(place, field)| place % 2 == 0
        && Color::try_read(field).is_err())
}

/// What is known of colors by age that are refused: which one is wrong, and the value with another one.
fn colors_by_age<'v>(alloc: Global, text: &'v [u8]) -> Result<Hint<'v>, AllocError> {
    let mut fields = Vec::new(alloc);
    for field in text.split(|byte| *byte == b',') {
        fields.push(field)?;
    }
    let Some(place) = wrong_field(&fields) else {
        return Ok(hint_of(None, None));
    };
    let Some(wrong) = fields.get(place) else {
        return Ok(hint_of(None, None));
    };
    let named = if fields.len() > 1 { Some(*wrong) } else { None };
    let Some((word, is_sure)) = nearest(alloc, &color_words(alloc)?, wrong)? else {
        return Ok(hint_of(named, None));
    };
    let mut value = Text::new(alloc);
    for (at, field) in fields.iter().enumerate() {
        if at > 0 {
            value.put_byte(b',');
        }
        value.put(if at == place { word } else { field });
    }
    let text = value.end()?;
    Ok(hint_of(named, Some(Meant { text, is_sure })))
}

/// A text with another one in place of its part that this many bytes precede.
fn with_part(
    alloc: Global,
    text: &[u8],
    before: usize,
    part: &[u8],
    other: &[u8],
) -> Result<Vec<u8>, AllocError> {
    let mut value = Text::new(alloc);
    value.put(text.get(..before).unwrap_or(b""));
    value.put(other);
    value.put(text.get(before.saturating_add(part.len())..).unwrap_or(b""));
    value.end()
}

/// What is known of a key to sort by whose name is none: the value with the nearest name in it.
fn sort_key<'v>(alloc: Global, words: &[&[u8]], text: &'v [u8]) -> Result<Hint<'v>, AllocError> {
    let rest = sort_name(text);
    let name = rest.split(|byte| *byte == b':').next().unwrap_or(b"");
    let Some((word, is_sure)) = nearest(alloc, words, name)? else {
        return Ok(hint_of(None, None));
    };
    let before = text.len().saturating_sub(rest.len());
    let text = with_part(alloc, text, before, name, word)?;
    Ok(hint_of(None, Some(Meant { text, is_sure })))
}

/// The nearest of the words that end in `=*`, without its `*`, and what follows the `=` of a piece.
fn setting_meant(
    alloc: Global,
    words: &[&[u8]],
    piece: &[u8],
) -> Result<Option<Meant>, AllocError> {
    let mut fronts = Vec::new(alloc);
    for word in words {
        if let Some(front) = word.strip_suffix(b"=*") {
            fronts.push(front)?;
        }
    }
    let name = piece.split(|byte| *byte == b'=').next().unwrap_or(b"");
    if name.len() == piece.len() {
        return Ok(None);
    }
    match nearest(alloc, &fronts, name)? {
        Some((front, is_sure)) => Ok(Some(Meant {
            text: with_part(alloc, piece, 0, name, front)?,
            is_sure,
        })),
        None => Ok(None),
    }
}

/// The word that is meant by a piece of a list.
fn piece_meant(alloc: Global, words: &[&[u8]], piece: &[u8]) -> Result<Option<Meant>, AllocError> {
    match nearest(alloc, words, piece)? {
        Some((word, is_sure)) => Ok(Some(Meant {
            text: word.to_vec(alloc)?,
            is_sure,
        })),
        None => setting_meant(alloc, words, piece),
    }
}

/// What is known of a text that is not a list of these words: which piece is none, and the value with another one.
fn words<'v>(alloc: Global, list: &WordList<'_>, text: &'v [u8]) -> Result<Hint<'v>, AllocError> {
    let mut before: usize = 0;
    for piece in text.split(|byte| is_separator(*byte)) {
        if piece.is_empty() || list.find(piece).is_some() {
            before = before.saturating_add(piece.len()).saturating_add(1);
            continue;
        }
        let named = if piece == text { None } else { Some(piece) };
        let Some(
            Meant {
                text: word,
                is_sure,
            },
        ) = piece_meant(alloc, &list.words, piece)?
        else {
            return Ok(hint_of(named, None));
        };
        let text = with_part(alloc, text, before, piece, &word)?;
        return Ok(hint_of(named, Some(Meant { text, is_sure })));
    }
    Ok(hint_of(None, None))
}

/// The list by which a value is wrong.
fn list_of<'r, 'w>(rows: &'r [Row<'w>], finding: &Finding<'_>) -> Option<&'r WordList<'w>> {
    let key = Key::split(finding.key?)?;
    let row = rows.iter().find(|row| covers(&row.key, &key))?;
    match &row.kind {
        SettingKind::Word(list) => Some(list),
        _ => None,
    }
}

/// What is known of a value that is wrong by a list, and near none of its words.
fn listed<'v>(
    alloc: Global,
    rows: &[Row<'_>],
    finding: &Finding<'_>,
    value: &'v [u8],
) -> Result<Hint<'v>, AllocError> {
    match list_of(rows, finding) {
        Some(list) => match list.form {
            Form::SortKey => sort_key(alloc, &list.words, value),
            Form::Words => words(alloc, list, value),
            _ => Ok(hint_of(None, None)),
        },
        None => Ok(hint_of(None, None)),
    }
}

/// What is known of a value beyond the reason of its finding.
pub(crate) fn hint_for<'v>(
    alloc: Global,
    rows: &[Row<'_>],
    finding: &Finding<'v>,
) -> Result<Hint<'v>, AllocError> {
    match (finding.fault, finding.value) {
        (Some(Fault::Color), Some(value)) => color(alloc, value),
        (Some(Fault::Boolean), Some(value)) => Ok(hint_of(None, boolean(alloc, value)?)),
        (Some(Fault::Integer), Some(value)) => Ok(hint_of(None, number(alloc, value)?)),
        (None, Some(value)) if finding.code == Code::BadColor => colors_by_age(alloc, value),
        (None, Some(value))
            if finding.code == Code::NotAWord && finding.suggested_value.is_none() => listed(
            alloc, rows, finding, value,
        ),
        _ => Ok(hint_of(None, None)),
    }
}

/// Whether a row has this section and this name, and no subsection.
fn is_alone(row: &Row<'_>, section: &[u8], name: &[u8]) -> bool {
    row.key.subsection().is_none()
        && row.key.section().eq_ignore_ascii_case(section)
        && row.key.name().eq_ignore_ascii_case(name)
}

/// The key of a row that has the parts of an unknown key in another order, if no other key is suggested: `color.grep`
/// for `grep.color`, and `diff.colorMoved` for `color.diff.colorMoved`.
pub(crate) fn key_in_order(
    alloc: Global,
    rows: &[Row<'_>],
    finding: &Finding<'_>,
) -> Result<Option<Vec<u8>>, AllocError> {
    if finding.code != Code::UnknownKey || finding.suggested_key.is_some() {
        return Ok(None);
    }
    let Some(key) = Key::split(finding.key.unwrap_or(b"")) else {
        return Ok(None);
    };
    let (section, name) = match key.subsection() {
        Some(subsection) if key.section().eq_ignore_ascii_case(b"color") => (
            subsection,
            key.name(),
        ),
        None if key.name().eq_ignore_ascii_case(b"color") => (key.name(), key.section()),
        _ => return Ok(None),
    };
    match rows.iter().find(|row| is_alone(row, section, name)) {
        Some(row) => Ok(Some(key_text(alloc, &row.key)?)),
        None => Ok(None),
    }
}

/// Whether a byte may stand in the name of a key, or is a `_`, which many write in it.
fn is_in_name(byte: u8) -> bool {
    byte.is_ascii_alphanumeric() || matches!(byte, b'-' | b'_')
}

/// The name around the `_` that this many bytes of a text precede, without its bytes `_`.
fn plain_name(alloc: Global, text: &[u8], at: usize) -> Result<Vec<u8>, AllocError> {
    let (before, after) = text.split_at_checked(at).unwrap_or((b"", b""));
    let front = before.rsplit(|byte| !is_in_name(*byte)).next();
    let end = after.split(|byte| !is_in_name(*byte)).next();
    let mut name = Text::new(alloc);
    for byte in front.unwrap_or(b"").iter().chain(end.unwrap_or(b"")) {
        if *byte != b'_' {
            name.put_byte(*byte);
        }
    }
    name.end()
}

/// What the section is called that is open behind this many bytes of a text, or another word that follows a `[`.
fn section_before(text: &[u8], at: usize) -> &[u8] {
    let (before, _) = text.split_at_checked(at).unwrap_or((b"", b""));
    match before.rsplit(|byte| *byte == b'[').next() {
        Some(header) => word_of(header),
        None => b"",
    }
}

/// The name of a row for a key in which Git stops at a `_`, if it lacks nothing else. This many bytes precede the `_`.
pub(crate) fn name_meant<'r>(
    alloc: Global,
    rows: &[Row<'r>],
    text: &[u8],
    at: usize,
) -> Result<Option<&'r [u8]>, AllocError> {
    if text.get(at) != Some(&b'_') {
        return Ok(None);
    }
    let name = plain_name(alloc, text, at)?;
    let section = section_before(text, at);
    for row in rows {
        if row.key.section().eq_ignore_ascii_case(section)
            && row.key.name().eq_ignore_ascii_case(&name)
        {
            return Ok(Some(row.key.name()));
        }
    }
    Ok(None)
}

/// How many slots are told.
const MOST_SLOTS: usize = 10;

/// The slots of colors that rows have in a subsection of `color`, each once.
fn slots<'r>(
    alloc: Global,
    rows: &[Row<'r>],
    subsection: &[u8],
) -> Result<Vec<&'r [u8]>, AllocError> {
    let mut names: Vec<&[u8]> = Vec::new(alloc);
    for row in rows {
        let is_color = row.key.section().eq_ignore_ascii_case(b"color");
        if is_color && row.key.subsection() == Some(subsection) && !has(&names, row.key.name()) {
            names.push(row.key.name())?;
        }
    }
    Ok(names)
}

/// The key of a finding about a slot that no row has, if it has a subsection and no other key is suggested.
fn unknown_slot<'f>(finding: &Finding<'f>) -> Option<Key<'f>> {
    if !matches!(finding.code, Code::UnknownKey) || finding.suggested_key.is_some() {
        return None;
    }
    let key = Key::split(finding.key?)?;
    key.subsection()?;
    Some(key)
}

/// Appends which slots the rows have, if a finding is about an unknown slot and suggests none.
pub(crate) fn put_slots(
    alloc: Global,
    reason: &mut Text,
    rows: &[Row<'_>],
    finding: &Finding<'_>,
) -> Result<(), AllocError> {
    let Some(subsection) = unknown_slot(finding).and_then(|key| key.subsection()) else {
        return Ok(());
    };
    put(reason, "; color.");
    put_shown(reason, subsection);
    let names = slots(alloc, rows, subsection)?;
    let mut front = b" has: ".as_slice();
    for name in names.iter().take(MOST_SLOTS) {
        reason.put(front);
        put_shown(reason, name);
        front = b", ";
    }
    if names.len() > MOST_SLOTS {
        put(reason, " and ");
        put_number(reason, names.len().saturating_sub(MOST_SLOTS));
        put(reason, " more");
    }
    Ok(())
}
