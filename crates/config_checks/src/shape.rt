//! Texts that Git reads by rules of their own: refspecs, names of branches, the command lines of aliases, and colors
//! by age.
ghost use Rattle.std.specs.Prelude.{◌≡◌, ◌≢◌, ◌&&◌, ◌↔◌, ◌++◌, IsTrue, All, IfOk, MatchOption, option_copied, codes};
ghost use Rattle.std.specs.List.{list_any, slice_split, fold};
ghost use Rattle.config_checks.specs.Shapes.{is_no_ref_byte, is_slash, IsRefPart, stars, IsRef, IsName, IsBranch, IsSource};
ghost use Rattle.config_checks.specs.Shapes.{HasSides, IsFetched, IsPushed, IsLeftOut, IsRefspec, quote_after};
ghost use Rattle.config_checks.specs.Shapes.{BeginsWith, EndsWith, HaveSides, is_black, IsCommand, is_comma, Follows, AreColorsByAge};
ghost use Rattle.config_checks.specs.Shapes.{is_path_separator, IsSubmoduleName, HasShape, shape_fault};
ghost use Rattle.config_checks.specs.declared.shape.Quote.TheVariants.{Outside};

use crate::kind::without_front;
use bstr::ByteSlice;
use gix_config_value::Color;
use gix_config_value::canonical::TryRead;
use std::alloc::{AllocError, Global};

/// What a text has to be that no type reads.
///
/// ```rust
/// use config_checks::shape::{Shape, has_shape};
///
/// assert!(rt; has_shape(alloc, Shape::FetchRefspec, b"+refs/heads/*:refs/remotes/origin/*")?);
/// assert!(rt; !has_shape(alloc, Shape::Branch, b"my branch")?);
/// ```
#[derive(Clone, Copy, Debug)]
pub enum Shape {
    /// What a fetch takes, as git-fetch(1) has it.
    FetchRefspec,
    /// What a push takes, as git-push(1) has it.
    PushRefspec,
    /// The name of a branch, by the rules of git-check-ref-format(1).
    Branch,
    /// A command of Git with its arguments, in which no quote is open, or `!` and what a shell takes.
    Command,
    /// A text that does not begin with `-`, since Git ignores what may be an option.
    NoOption,
    /// Colors with a date between each two of them, separated by commas.
    ColorsByAge,
}

impl Shape {
    /// What is said of a text that has not this shape.
    pub fn fault(self) -> &'static str
        ensures { result.now ≡ shape_fault self }
    {
        match self {
            Shape::FetchRefspec | Shape::PushRefspec => "not a refspec",
            Shape::Branch => "not the name of a branch",
            Shape::Command =>
                "not a command: it is empty, or a quote or a backslash is open at its end",
            Shape::NoOption => "begins with -, as an option",
            Shape::ColorsByAge => "not colors with dates between them",
        }
    }
}

/// What follows this front, or `None` if the text does not begin with it.
fn after_front<'t>(text: &'t [u8], front: &[u8]) -> Option<&'t [u8]>
    ensures { MatchOption result (¬ (BeginsWith text.now front.now)) (λ rest. text.now ≡ front.now ++ rest.now) }
{
    text.strip_prefix(front)
}

/// Whether a text begins with this one.
fn begins_with(text: &[u8], front: &[u8]) -> bool
    ensures { IsTrue result ↔ BeginsWith text.now front.now }
{
    match after_front(text, front) {
        Some(_) => true,
        None => false,
    }
}

/// Whether a text ends with this one.
fn ends_with(text: &[u8], end: &[u8]) -> bool
    ensures { IsTrue result ↔ EndsWith text.now end.now }
{
    match text.strip_suffix(end) {
        Some(_) => true,
        None => false,
    }
}

/// Whether no name of a ref has this byte.
fn is_no_ref_byte(byte: u8) -> bool
    ensures { result ≡ is_no_ref_byte byte }
{
    byte < 33
        || byte == 127
        || byte == b'~'
        || byte == b'^'
        || byte == b':'
        || byte == b'?'
        || byte == b'['
        || byte == b'\\'
}

/// Whether a text has a byte that no name of a ref has.
fn has_no_ref_byte(text: &[u8]) -> bool
    ensures { result ≡ list_any is_no_ref_byte text.now }
{
    text.iter().any(|byte| is_no_ref_byte(*byte))
}

/// Whether a name of a ref may have this between slashes.
fn is_ref_part(part: &[u8]) -> bool
    ensures { IsTrue result ↔ IsRefPart part.now }
{
    !part.is_empty() && !begins_with(part, b".") && !ends_with(part, b".lock")
}

/// Whether a name of a ref may have what a text has between slashes.
fn are_ref_parts(text: &[u8]) -> bool
    ensures { IsTrue result ↔ All IsRefPart (slice_split is_slash text.now) }
{
    for part in text.split(|byte| *byte == b'/') {
        if !is_ref_part(part) {
            return false;
        }
    }
    true
}

/// How many `*` a text has.
fn stars(text: &[u8]) -> usize
    ensures { result ≡ stars text.now }
{
    text.iter().filter(|byte| **byte == b'*').count()
}

/// Whether a text is the name of a ref, or with one `*` a pattern of names.
fn is_ref(text: &[u8]) -> bool
    ensures { IsTrue result ↔ IsRef text.now }
{
    !has_no_ref_byte(text)
        && are_ref_parts(text)
        && !text.contains_str(b"..")
        && !text.contains_str(b"@{")
        && !ends_with(text, b".")
        && text != b"@".as_slice()
        && stars(text) <= 1
}

/// Whether a text is the name of a ref.
fn is_name(text: &[u8]) -> bool
    ensures { IsTrue result ↔ IsName text.now }
{
    is_ref(text) && stars(text) == 0
}

/// The name of the ref of a branch.
fn name_of_branch(alloc: Global, text: &[u8]) -> Result<Vec<u8>, AllocError>
    ensures { IfOk result (λ name. name.items ≡ codes "refs/heads/" ++ text.now) }
{
    let mut name = Vec::from_slice(alloc, b"refs/heads/")?;
    name.extend_from_slice(text)?;
    Ok(name)
}

/// Whether a text is the name of a branch.
fn is_branch(alloc: Global, text: &[u8]) -> Result<bool, AllocError>
    ensures { IfOk result (λ is. IsTrue is ↔ IsBranch text.now) }
{
    let name = name_of_branch(alloc, text)?;
    Ok(is_name(&name))
}

/// Whether a text is a ref, or `@`, which is HEAD.
fn is_source(source: &[u8]) -> bool
    ensures { IsTrue result ↔ IsSource source.now }
{
    source == b"@".as_slice() || is_ref(source)
}

/// The two sides of the last colon, or the only side.
fn sides_of(text: &[u8]) -> (&[u8], Option<&[u8]>)
    ensures { HasSides text.now result.0.now (option_copied result.1) }
{
    let Some(last) = text.iter().rposition(|byte| *byte == b':') else {
        return (text, None);
    };
    (&text[..last], Some(&text[last + 1..]))
}

/// Whether a fetch takes this source into this target.
fn is_fetched(source: &[u8], target: Option<&[u8]>) -> bool
    ensures { IsTrue result ↔ IsFetched source.now (option_copied target.entry) }
{
    if !source.is_empty() && !is_source(source) {
        return false;
    }
    match target {
        None => stars(source) == 0,
        Some(target) => (target.is_empty() || is_ref(target)) && stars(source) == stars(target),
    }
}

/// Whether a push takes this source into this target.
fn is_pushed(source: &[u8], target: Option<&[u8]>) -> bool
    ensures { IsTrue result ↔ IsPushed source.now (option_copied target.entry) }
{
    let Some(target) = target else {
        return is_source(source);
    };
    if source.is_empty() && target.is_empty() {
        return true;
    }
    is_ref(target) && stars(source) == stars(target) && (stars(source) == 0 || is_ref(source))
}

/// Whether a source without a target can be left out.
fn is_left_out(source: &[u8], target: Option<&[u8]>) -> bool
    ensures { IsTrue result ↔ IsLeftOut source.now (option_copied target.entry) }
{
    match target {
        None => is_source(source),
        Some(_) => false,
    }
}

/// Whether what follows a `^` has one side, which can be left out.
fn leaves_out(rest: &[u8]) -> bool
    ensures { IsTrue result ↔ HaveSides IsLeftOut rest.now }
{
    let (source, target) = sides_of(rest);
    is_left_out(source, target)
}

/// Whether a fetch takes the sides of a text.
fn are_fetched(text: &[u8]) -> bool
    ensures { IsTrue result ↔ HaveSides IsFetched text.now }
{
    let (source, target) = sides_of(text);
    is_fetched(source, target)
}

/// Whether a push takes the sides of a text.
fn are_pushed(text: &[u8]) -> bool
    ensures { IsTrue result ↔ HaveSides IsPushed text.now }
{
    let (source, target) = sides_of(text);
    is_pushed(source, target)
}

/// Whether a text is a refspec of a fetch.
fn is_fetch_refspec(text: &[u8]) -> bool
    ensures { IsTrue result ↔ IsRefspec IsFetched text.now }
{
    match after_front(text, b"^") {
        Some(rest) => leaves_out(rest),
        None => are_fetched(without_front(text, b"+")),
    }
}

/// Whether a text is a refspec of a push.
fn is_push_refspec(text: &[u8]) -> bool
    ensures { IsTrue result ↔ IsRefspec IsPushed text.now }
{
    match after_front(text, b"^") {
        Some(rest) => leaves_out(rest),
        None => are_pushed(without_front(text, b"+")),
    }
}

/// Where in a command line its next byte is.
#[derive(Clone, Copy)]
enum Quote {
    Outside,
    Single,
    Double,
    Escaped,
    DoubleEscaped,
}

/// Where in a command line one is after this byte.
fn quote_after(quote: Quote, byte: u8) -> Quote
    ensures { result ≡ quote_after quote byte }
{
    match (quote, byte) {
        (Quote::Outside, b'\'') => Quote::Single,
        (Quote::Outside, b'"') => Quote::Double,
        (Quote::Outside, b'\\') => Quote::Escaped,
        (Quote::Outside, _)
        | (Quote::Escaped, _)
        | (Quote::Single, b'\'')
        | (Quote::Double, b'"') => { Quote::Outside }
        (Quote::Single, _) => Quote::Single,
        (Quote::Double, b'\\') => Quote::DoubleEscaped,
        (Quote::Double, _) | (Quote::DoubleEscaped, _) => Quote::Double,
    }
}

/// Where in a command line one is at its end.
fn quote_at_end(text: &[u8]) -> Quote
    ensures { result ≡ fold quote_after Outside text.now }
{
    let mut quote = Quote::Outside;
    for byte in text {
        quote = quote_after(quote, *byte);
    }
    quote
}

/// Whether a text has a byte that is no white space of ASCII.
fn has_black(text: &[u8]) -> bool
    ensures { result ≡ list_any is_black text.now }
{
    text.iter().any(|byte| !matches!(*byte, b' ' | b'\t' | b'\n' | 11 | 12 | b'\r'))
}

/// Whether a text is the command line of an alias.
fn is_command(text: &[u8]) -> bool
    ensures { IsTrue result ↔ IsCommand text.now }
{
    begins_with(text, b"!") || (has_black(text) && matches!(quote_at_end(text), Quote::Outside))
}

/// Whether a field may follow a color, or something else: a color is followed by any date, and else a color follows.
fn may_follow(color: bool, field: &[u8]) -> bool
    ensures { IsTrue result ↔ Follows color field.now }
{
    if color {
        return true;
    }
    match Color::try_read(field) {
        Ok(_) => true,
        Err(_) => false,
    }
}

/// Whether both are true, of which each is known.
fn both(one: bool, other: bool) -> bool
    ensures { result ≡ (one && other) }
{
    one && other
}

/// Whether a text is colors with a date between each two of them.
fn are_colors_by_age(text: &[u8]) -> bool
    ensures { IsTrue result ↔ AreColorsByAge text.now }
{
    let mut is_right = true;
    let mut color = false;
    for field in text.split(|byte| *byte == b',') {
        is_right = both(is_right, may_follow(color, field));
        color = !color;
    }
    both(is_right, color)
}

/// Whether no part of a path is `..`.
fn stays_within(path: &[u8]) -> bool
    ensures { IsTrue result ↔ All (λ part. part ≢ codes "..") (slice_split is_path_separator path.now) }
{
    for part in path.split(|byte| *byte == b'/' || *byte == b'\\') {
        if part == b"..".as_slice() {
            return false;
        }
    }
    true
}

/// Whether Git takes this name of a submodule: it is not empty, and no part of it is `..`.
pub fn is_submodule_name(name: &[u8]) -> bool
    ensures { IsTrue result ↔ IsSubmoduleName name.now }
{
    !name.is_empty() && stays_within(name)
}

/// Whether a text has this shape. It fails only if memory is refused.
pub fn has_shape(alloc: Global, shape: Shape, text: &[u8]) -> Result<bool, AllocError>
    ensures { IfOk result (λ has. IsTrue has ↔ HasShape shape text.now) }
{
    match shape {
        Shape::FetchRefspec => Ok(is_fetch_refspec(text)),
        Shape::PushRefspec => Ok(is_push_refspec(text)),
        Shape::Branch => is_branch(alloc, text),
        Shape::Command => Ok(is_command(text)),
        Shape::NoOption => Ok(!begins_with(text, b"-")),
        Shape::ColorsByAge => Ok(are_colors_by_age(text)),
    }
}
