//! Comparisons of a text with a word or a run of bytes. As the compiler knows the length, it can unroll each
//! comparison, or compare all bytes at once.
ghost use Rattle.std.specs.Prelude.{◌≡◌, ◌↔◌, ◌++◌, IsTrue, bytes_eq, drop, map, replicate};
ghost use Rattle.std.specs.Char.{to_ascii_lowercase};

/// Returns whether the text is exactly this word.
#[inline(always)]
pub fn equals<const N: usize>(text: &[u8], word: &[u8; N]) -> bool
    ensures { result ≡ bytes_eq text.now word.now }
{
    if text.len() != N {
        return false;
    }
    for at in 0..N {
        if text[at] != word[at] {
            return false;
        }
    }
    true
}

/// Returns whether the text is this word, ignoring ASCII case.
#[inline(always)]
pub fn equals_ignoring_case<const N: usize>(text: &[u8], word: &[u8; N]) -> bool
    ensures { result ≡ bytes_eq (map to_ascii_lowercase text.now) (map to_ascii_lowercase word.now) }
{
    if text.len() != N {
        return false;
    }
    for at in 0..N {
        let (lower, upper) = (word[at].to_ascii_lowercase(), word[at].to_ascii_uppercase());
        if text[at] != lower && text[at] != upper {
            return false;
        }
    }
    true
}

/// Returns whether the text begins with a run of `N` copies of the byte.
#[inline(always)]
pub fn begins_with_run<const N: usize>(text: &[u8], byte: u8) -> bool
    ensures { IsTrue result ↔ (text.now ≡ replicate N byte ++ drop N text.now) }
{
    if text.len() < N {
        return false;
    }
    let mut is_run = true;
    for at in 0..N {
        is_run &= text[at] == byte;
    }
    is_run
}
