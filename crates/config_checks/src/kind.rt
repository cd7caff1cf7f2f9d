//! What a row demands of the value of a setting.
ghost use Rattle.std.specs.Prelude.{◌≡◌, ◌↔◌, ℕ, List, IsTrue, MatchOption, take};
ghost use Rattle.std.specs.List.{slice_split, Any};
ghost use Rattle.config_checks.specs.Kinds.{IsSame, IsPattern, IsWord, IsNoWord, IsFirstWord, HasWord};
ghost use Rattle.config_checks.specs.Kinds.{is_separator, IsPiece, AreWords, is_no_letter, HasDigit, HasDate};
ghost use Rattle.config_checks.specs.Kinds.{without_front, sort_name, EndsName, BeginsWithName, IsSortKey};
ghost use Rattle.config_checks.specs.Kinds.{takes_booleans, takes_true};

use crate::key::is_same_word;
use crate::shape::Shape;
use gix_config_value::integer::Amount;

/// What a text has to be, given the words of a list.
///
/// ```rust
/// use config_checks::kind::{Form, SettingKind};
/// use config_checks::table::read_row;
///
/// let row = read_row(alloc, b"core.safecrlf bool-or-word warn").expect(&rt, "a line").expect(&rt, "a row");
/// let SettingKind::Word(list) = &row.kind else {
///     return Ok(());
/// };
/// assert!(rt; matches!(list.form, Form::BoolOrWord));
/// ```
#[derive(Clone, Copy)]
pub enum Form {
    /// It is one of the words.
    Word,
    /// It is one of the words, or a boolean text.
    BoolOrWord,
    /// It is one of the words, or an integer text whose product is a signed number of 32 bits.
    IntOrWord,
    /// It is a list of the words, with commas, spaces, tabs, LFs or CRs between them.
    Words,
    /// It is a date: it has a digit, or one of the words between bytes that are not letters.
    Date,
    /// It is a key to sort by, such as `-version:refname`. Before the word may be `-`, `version:`, `v:` and
    /// `*`, in this order, and after the word the text ends or goes on with a colon.
    SortKey,
}

/// The words of a row. A word that ends in `*` matches each text that begins with the part before the `*`.
///
/// ```rust
/// use config_checks::kind::SettingKind;
/// use config_checks::table::read_row;
///
/// let row = read_row(alloc, b"push.default word nothing current").expect(&rt, "a line").expect(&rt, "a row");
/// let SettingKind::Word(list) = &row.kind else {
///     return Ok(());
/// };
/// assert!(rt; list.find(b"current").is_some() && list.find(b"matching").is_none());
/// ```
#[derive(Drop)]
pub struct WordList<'t> {
    /// The words.
    pub words: Vec<&'t [u8]>,
    /// Whether the words are compared ignoring ASCII case.
    pub ignores_case: bool,
    /// What a text has to be, given the words.
    pub form: Form,
}

/// What a row demands of the value of a setting.
///
/// ```rust
/// use config_checks::kind::SettingKind;
/// use config_checks::table::read_row;
///
/// let row = read_row(alloc, b"core.bare bool").expect(&rt, "a line").expect(&rt, "a row");
/// assert!(rt; matches!(row.kind, SettingKind::Bool) && row.kind.takes_true());
/// ```
#[derive(Drop)]
pub enum SettingKind<'t> {
    /// Any text.
    Text,
    /// A boolean text.
    Bool,
    /// An integer text whose product is at least `low` and at most `high`.
    Int { low: Amount, high: Amount },
    /// An integer text whose product is a signed number of 32 bits, or a boolean word, or empty.
    BoolOrInt,
    /// A color text.
    Color,
    /// A path. If it begins with a home directory, that has to be there.
    Path,
    /// A text that Git reads by rules of its own.
    Shaped(Shape),
    /// A text that is valid according to a list of words.
    Word(WordList<'t>),
}

/// Whether a byte separates the words of a list: a comma, a space, a tab, a line feed or a carriage return.
pub fn is_separator(byte: u8) -> bool
    ensures { result ≡ is_separator byte }
{
    byte == b',' || byte == b' ' || byte == b'\t' || byte == b'\n' || byte == b'\r'
}

/// Whether a text has a digit.
fn has_digit(text: &[u8]) -> bool
    ensures { IsTrue result ↔ HasDigit text.now }
{
    text.iter().any(|byte| byte.is_ascii_digit())
}

/// A text without this prefix, or the whole text if it does not begin with the prefix.
pub(crate) fn without_front<'a>(text: &'a [u8], front: &[u8]) -> &'a [u8]
    ensures { result.now ≡ without_front front.now text.now }
{
    if text.starts_with(front) {
        &text[front.len()..]
    } else {
        text
    }
}

/// A key to sort by without the prefixes `-`, `version:`, `v:` and `*`, in this order, if it has them.
pub fn sort_name(text: &[u8]) -> &[u8]
    ensures { result.now ≡ sort_name text.now }
{
    let ascending = without_front(text, b"-");
    let plain = without_front(without_front(ascending, b"version:"), b"v:");
    without_front(plain, b"*")
}

/// Whether the rest after a name is empty or begins with a colon.
fn ends_name(rest: &[u8]) -> bool
    ensures { IsTrue result ↔ EndsName rest.now }
{
    match rest.split_first() {
        Some((byte, _)) => *byte == b':',
        None => true,
    }
}

/// Whether a text is this name, or begins with this name and a colon.
fn names(text: &[u8], name: &[u8]) -> bool
    ensures { IsTrue result ↔ BeginsWithName text.now name.now }
{
    match text.strip_prefix(name) {
        Some(rest) => ends_name(rest),
        None => false,
    }
}

/// The first `count` bytes of a text, or the whole text if it is shorter.
fn first_bytes(text: &[u8], count: usize) -> &[u8]
    ensures { result.now ≡ take count text.now }
{
    if count < text.len() {
        &text[..count]
    } else {
        text
    }
}

/// The part of a word before its final `*`, or `None` if the word does not end in `*`.
pub(crate) fn pattern_front(word: &[u8]) -> Option<&[u8]>
    ensures { MatchOption result ((front : List ℕ) → ¬ (IsPattern word.now front))
        (λ front. IsPattern word.now front.now) }
{
    word.strip_suffix(b"*")
}

impl Form {
    /// Whether a list of this form also takes boolean texts.
    pub fn takes_booleans(&self) -> bool
        ensures { result ≡ takes_booleans self.now }
    {
        matches!(self, Form::BoolOrWord)
    }
}

impl<'t> WordList<'t> {
    /// Whether a word and a text are the same, ignoring ASCII case if this list does.
    pub(crate) fn is_same(&self, word: &[u8], text: &[u8]) -> bool
        ensures { IsTrue result ↔ IsSame self.now.ignores_case word.now text.now }
    {
        if self.ignores_case {
            is_same_word(word, text)
        } else {
            word == text
        }
    }

    /// Whether this word of the list matches a text.
    fn is_word(&self, word: &[u8], text: &[u8]) -> bool
        ensures { IsTrue result ↔ IsWord self.now text.now word.now }
    {
        match pattern_front(word) {
            Some(front) => self.is_same(front, first_bytes(text, front.len())),
            None => self.is_same(word, text),
        }
    }

    /// The first word of the list that matches a text, or `None` if no word matches it.
    pub fn find(&self, text: &[u8]) -> Option<&'t [u8]>
        ensures { MatchOption result (IsNoWord self.now text.now self.now.words.items)
            (IsFirstWord self.now text.now) }
    {
        let words: &[&'t [u8]] = &self.words;
        for word in words {
            if self.is_word(word, text) {
                return Some(word);
            }
        }
        None
    }

    /// Whether a word of the list matches a text.
    pub(crate) fn has(&self, text: &[u8]) -> bool
        ensures { IsTrue result ↔ HasWord self.now text.now }
    {
        match self.find(text) {
            Some(_) => true,
            None => false,
        }
    }

    /// Whether a piece of a text is empty, or a word of this list matches it.
    fn takes_piece(&self, piece: &[u8]) -> bool
        ensures { IsTrue result ↔ IsPiece self.now piece.now }
    {
        piece.is_empty() || self.has(piece)
    }

    /// Whether a text is a list of the words, with separators between them.
    pub(crate) fn has_each(&self, text: &[u8]) -> bool
        ensures { IsTrue result ↔ AreWords self.now text.now }
    {
        for piece in text.split(|byte| is_separator(*byte)) {
            if !self.takes_piece(piece) {
                return false;
            }
        }
        true
    }

    /// Whether one of the words matches a piece of a text between bytes that are not letters.
    fn has_one(&self, text: &[u8]) -> bool
        ensures { IsTrue result ↔ Any (HasWord self.now) (slice_split is_no_letter text.now) }
    {
        for piece in text.split(|byte| !byte.is_ascii_alphabetic()) {
            if self.has(piece) {
                return true;
            }
        }
        false
    }

    /// Whether a text has a digit, or one of the words between bytes that are not letters.
    pub(crate) fn has_date(&self, text: &[u8]) -> bool
        ensures { IsTrue result ↔ HasDate self.now text.now }
    {
        has_digit(text) || self.has_one(text)
    }

    /// Whether a text is a key to sort by whose name is one of the words.
    pub(crate) fn has_sort_key(&self, text: &[u8]) -> bool
        ensures { IsTrue result ↔ IsSortKey self.now text.now }
    {
        let name = sort_name(text);
        self.words.iter().any(|word| names(name, word))
    }
}

impl SettingKind<'_> {
    /// Whether a key alone, which Git reads as true, is right if its row has no mark that decides it.
    pub fn takes_true(&self) -> bool
        ensures { result ≡ takes_true self.now }
    {
        match self {
            SettingKind::Bool | SettingKind::BoolOrInt => true,
            SettingKind::Word(list) => list.form.takes_booleans(),
            _ => false,
        }
    }
}
