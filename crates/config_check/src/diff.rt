//! What changes turn a text into, as a unified diff.

use crate::changes::Mended;
use crate::text::{put, put_number};
use config_checks::setting::first_line;
use config_file::Entries;
use config_host::shown::put_name;
use config_host::text::Text;
use std::alloc::{AllocError, Global};

/// How many lines around a change are shown.
const CONTEXT: usize = 3;

/// The first and the last line of something, from 1.
#[derive(Clone, Copy)]
pub(crate) struct Span {
    pub(crate) first: usize,
    pub(crate) last: usize,
}

/// Lines that change: in the old text and in the new one.
#[derive(Clone, Copy)]
struct Region {
    old: Span,
    new: Span,
    is_guess: bool,
}

/// The lines of the entries that change, in a text before or after the change.
pub(crate) fn spans_of(
    alloc: Global,
    text: &[u8],
    mended: &[Mended],
) -> Result<Vec<Span>, AllocError> {
    let mut all = Vec::new(alloc);
    let mut left = mended;
    let mut at: usize = 0;
    for entry in Entries::new(text) {
        let (Ok(entry), Some((next, others))) = (entry, left.split_first()) else {
            break;
        };
        if next.entry == at {
            all.push(Span {
                first: first_line(&entry),
                last: entry.line,
            })?;
            left = others;
        }
        at = at.saturating_add(1);
    }
    Ok(all)
}

/// The lines of the entries that change, in the text after the change, each without its last end.
pub(crate) fn lines_after(
    alloc: Global,
    new: &[u8],
    mended: &[Mended],
) -> Result<Vec<Vec<u8>>, AllocError> {
    let lines = lines_of(alloc, new)?;
    let mut all = Vec::new(alloc);
    for span in spans_of(alloc, new, mended)? {
        let mut text = Vec::new(alloc);
        let passed = span.first.saturating_sub(1);
        for line in lines.iter().skip(passed).take(count_of(span)) {
            text.extend_from_slice(line)?;
        }
        let count = match text.as_slice().strip_suffix(b"\n") {
            Some(front) => front.strip_suffix(b"\r").unwrap_or(front).len(),
            None => text.len(),
        };
        text.truncate(count);
        all.push(text)?;
    }
    Ok(all)
}

/// Whether the lines of a region directly follow those of another, and are as safe.
fn is_next(last: &Region, next: &Region) -> bool {
    last.old.last.saturating_add(1) == next.old.first && last.is_guess == next.is_guess
}

/// Two regions of which one directly follows the other, as one.
fn joined(last: &Region, next: &Region) -> Region {
    Region {
        old: Span {
            first: last.old.first,
            last: next.old.last,
        },
        new: Span {
            first: last.new.first,
            last: next.new.last,
        },
        is_guess: next.is_guess,
    }
}

/// The lines of the entries that change, in both texts. Entries that follow each other, and are as safe, are one region.
fn regions(
    alloc: Global,
    old: &[u8],
    new: &[u8],
    mended: &[Mended],
) -> Result<Vec<Region>, AllocError> {
    let mut all = Vec::new(alloc);
    let mut held: Option<Region> = None;
    let spans = spans_of(alloc, old, mended)?
        .into_iter()
        .zip(spans_of(alloc, new, mended)?);
    for (change, (old, new)) in mended.iter().zip(spans) {
        let next = Region {
            old,
            new,
            is_guess: !change.is_safe(),
        };
        held = Some(match held {
            Some(last) if is_next(&last, &next) => joined(&last, &next),
            Some(last) => {
                all.push(last)?;
                next
            }
            None => next,
        });
    }
    if let Some(last) = held {
        all.push(last)?;
    }
    Ok(all)
}

/// The lines of a text, each with its end.
fn lines_of(alloc: Global, text: &[u8]) -> Result<Vec<&[u8]>, AllocError> {
    let mut lines = Vec::new(alloc);
    for line in text.split_inclusive(|byte| *byte == b'\n') {
        lines.push(line)?;
    }
    Ok(lines)
}

/// How many lines there are from the first to the last one.
fn count_of(span: Span) -> usize {
    span.last.saturating_add(1).saturating_sub(span.first)
}

/// Appends lines behind a sign.
fn put_lines(out: &mut Text, sign: u8, lines: &[&[u8]], span: Span) {
    let passed = span.first.saturating_sub(1);
    for line in lines.iter().skip(passed).take(count_of(span)) {
        out.put_byte(sign);
        out.put(line);
        if !line.ends_with(b"\n") {
            put(out, "\n\\ No newline at end of file\n");
        }
    }
}

/// Appends a place of a hunk.
fn put_range(out: &mut Text, sign: &str, span: Span) {
    let count = count_of(span);
    put(out, sign);
    put_number(out, span.first);
    if count != 1 {
        put(out, ",");
        put_number(out, count);
    }
}

/// The lines of a text that a hunk shows, of which these change.
fn in_hunk(lines: &[&[u8]], first: Span, last: Span) -> Span {
    Span {
        first: first.first.saturating_sub(CONTEXT).max(1),
        last: last.last.saturating_add(CONTEXT).min(lines.len()),
    }
}

/// Appends which lines of a hunk are only guesses, if some are.
fn put_guesses(out: &mut Text, regions: &[Region]) {
    let mut front = " guesses: ";
    for region in regions {
        if !region.is_guess {
            continue;
        }
        put(out, front);
        put_number(out, region.old.first);
        if region.old.first < region.old.last {
            put(out, "-");
            put_number(out, region.old.last);
        }
        front = ", ";
    }
}

/// Appends a hunk, which shows these regions.
fn put_hunk(out: &mut Text, old: &[&[u8]], new: &[&[u8]], regions: &[Region]) {
    let (Some(first), Some(last)) = (regions.first(), regions.last()) else {
        return;
    };
    let whole = in_hunk(old, first.old, last.old);
    put_range(out, "@@ -", whole);
    put_range(out, " +", in_hunk(new, first.new, last.new));
    put(out, " @@");
    put_guesses(out, regions);
    put(out, "\n");
    let mut next = whole.first;
    for region in regions {
        let before = Span {
            first: next,
            last: region.old.first.saturating_sub(1),
        };
        put_lines(out, b' ', old, before);
        put_lines(out, b'-', old, region.old);
        put_lines(out, b'+', new, region.new);
        next = region.old.last.saturating_add(1);
    }
    let behind = Span {
        first: next,
        last: whole.last,
    };
    put_lines(out, b' ', old, behind);
}

/// How many of the regions one hunk shows.
fn together(regions: &[Region]) -> usize {
    let mut count: usize = 0;
    let mut end = None;
    for region in regions {
        if let Some(end) = end {
            let between = region.old.first.saturating_sub(end);
            if between > 2 * CONTEXT + 1 {
                break;
            }
        }
        end = Some(region.old.last);
        count = count.saturating_add(1);
    }
    count
}

/// Appends a line with the name of the file, behind `a/` or `b/`, as Git does.
fn put_file(
    alloc: Global,
    out: &mut Text,
    fronts: [&str; 2],
    file: &str,
) -> Result<(), AllocError> {
    let [sign, front] = fronts;
    let file = file.strip_prefix("/").unwrap_or(file);
    let mut name = Text::new(alloc);
    put(&mut name, front);
    put(&mut name, file);
    put(out, sign);
    put_name(out, name.so_far()?);
    // a TAB ends a name with blanks
    put(out, if file.contains(' ') { "\t\n" } else { "\n" });
    Ok(())
}

/// The diff of a file whose text these changes turn into the new text.
pub(crate) fn diff_of(
    alloc: Global,
    file: &str,
    old: &[u8],
    new: &[u8],
    mended: &[Mended],
) -> Result<Vec<u8>, AllocError> {
    let mut out = Text::new(alloc);
    put_file(alloc, &mut out, ["--- ", "a/"], file)?;
    put_file(alloc, &mut out, ["+++ ", "b/"], file)?;
    let all = regions(alloc, old, new, mended)?;
    let old = lines_of(alloc, old)?;
    let new = lines_of(alloc, new)?;
    let mut left = all.as_slice();
    for _ in 0..all.len() {
        let (hunk, others) = left.split_at(together(left).min(left.len()));
        put_hunk(&mut out, &old, &new, hunk);
        left = others;
    }
    out.end()
}
