//! Pieces of a text between separators.
ghost use Rattle.std.specs.Prelude.{◌≡◌, ◌≢◌, ◌==◌, ◌≤◌, ◌<◌, ◌∷◌, [], length, not, option_copied};
ghost use Rattle.std.specs.List.{prefix_len};
ghost use Rattle.config_url.specs.Url.{pieces};
ghost use Rattle.config_url.specs.Reading.Urls.{CutsPiece};

use config_file::bytes::split;

/// How many bytes precede the first separator.
fn piece_length(text: &[u8], separator: u8) -> usize
    ensures count { result ≡ prefix_len (λ b. not (b == separator)) text.now }
    ensures within { result ≤ length text.now }
{
    text.iter().take_while(|byte| **byte != separator).count()
}

/// What precedes the first separator, and what follows it, if there is one.
pub(crate) fn cut_piece(text: &[u8], separator: u8) -> (&[u8], Option<&[u8]>)
    ensures { CutsPiece separator text.now result.0.now (option_copied result.1) }
{
    let (piece, rest) = text.split_at(piece_length(text, separator));
    match split(rest) {
        Some((_, after)) => (piece, Some(after)),
        None => (piece, None),
    }
}

/// The first piece, and what follows the separator behind it.
pub(crate) fn next_piece(text: &[u8], separator: u8) -> (&[u8], &[u8])
    ensures pieces { text.now ≢ []
        → pieces separator text.now ≡ result.0.now ∷ pieces separator result.1.now }
    ensures shorter { text.now ≢ [] → length result.1.now < length text.now }
{
    let (piece, after) = cut_piece(text, separator);
    match after {
        Some(after) => (piece, after),
        None => (piece, &[]),
    }
}
