//! Finds white space in a text by its bytes, without decoding.
ghost use Rattle.std.specs.Prelude.{◌≡◌, ℕ, ◌+◌, ◌<◌, ◌≤◌, ◌↔◌, ◌++◌, IsTrue, List, [], ◌∷◌, length, drop};
ghost use Rattle.std.specs.Prelude.{slice_range};
ghost use Rattle.config_color.specs.Space.{Space};

/// Returns whether this byte is a spelling of white space.
fn is_narrow(first: u8) -> bool
    ensures { IsTrue result ↔ (Space (first ∷ [])) }
{
    matches!(first, 9..=13 | 32)
}

/// Returns whether these two bytes are a spelling of white space.
fn is_double(first: u8, second: u8) -> bool
    ensures { IsTrue result ↔ (Space (first ∷ second ∷ [])) }
{
    first == 0xc2 && matches!(second, 0x85 | 0xa0)
}

/// Returns whether this byte ends one of the spellings that begin with `e280`.
fn ends_general(third: u8) -> bool
    ensures { IsTrue result ↔ (Space (226 ∷ 128 ∷ third ∷ [])) }
{
    matches!(third, 0x80..=0x8a | 0xa8 | 0xa9 | 0xaf)
}

/// Returns whether these three bytes are a spelling of white space.
fn is_triple(first: u8, second: u8, third: u8) -> bool
    ensures { IsTrue result ↔ (Space (first ∷ second ∷ third ∷ [])) }
{
    match (first, second) {
        (0xe1, 0x9a) => third == 0x80,
        (0xe2, 0x80) => ends_general(third),
        (0xe2, 0x81) => third == 0x9f,
        (0xe3, 0x80) => third == 0x80,
        _ => false,
    }
}

/// Returns the length in bytes of the white space at the front, or 0 if there is no white space.
#[inline(always)]
fn space_length(bytes: &[u8]) -> usize
    ensures none { result ≡ 0
        → (space rest : List ℕ) → Space space → ¬ (bytes.now ≡ space ++ rest) }
    ensures within { result ≤ length bytes.now }
    ensures some { 0 < result → Space (slice_range bytes.now 0 result) }
{
    match bytes {
        [first, ..] if *first > b' ' && *first < 0xc2 => 0,
        [first, ..] if is_narrow(*first) => 1,
        [first, second, ..] if is_double(*first, *second) => 2,
        [first, second, third, ..] if is_triple(*first, *second, *third) => 3,
        _ => 0,
    }
}

/// Returns the length in bytes of the white space that begins at byte `at` of the input, or 0 if none begins
/// there. White space is 25 code points of Unicode, which have 1 to 3 bytes in UTF-8: docs/GRAMMAR.md, White
/// space and words. `at` must be at most `input.len()`.
///
/// ```rust
/// use gix_config_value::color::space_at;
///
/// let text = b"red\xe3\x80\x80blue"; // U+3000 between two words
/// assert_eq!(rt; space_at(text, 3), 3);
/// assert_eq!(rt; space_at(text, 4), 0);
/// ```
#[inline(always)]
pub fn space_at(input: &[u8], at: usize) -> usize
    requires { at ≤ length input.now }
    ensures none { result ≡ 0
        → (space rest : List ℕ) → Space space → ¬ (drop at input.now ≡ space ++ rest) }
    ensures within { at + result ≤ length input.now }
    ensures some { 0 < result → Space (slice_range input.now at (at + result)) }
{
    space_length(&input[at..])
}
