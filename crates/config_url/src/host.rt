//! Hosts of URLs: their labels, and their ports.
ghost use Rattle.std.specs.Prelude.{◌≡◌, ◌↔◌, ◌≤◌, ℕ, Option, true, IsTrue, MatchOption};
ghost use Rattle.std.specs.Char.{is_ascii_digit};
ghost use Rattle.std.specs.List.{list_all, AllZip};
ghost use Rattle.config_file.specs.Bytes.{dot};
ghost use Rattle.config_url.specs.Url.{StandsFor, pieces, number_after, IsDefault, IsPort};

use crate::pieces::next_piece;
use config_file::bytes::split;

/// Whether a label of a pattern stands for this label: it is the same, or `*`.
fn stands_for(wanted: &[u8], label: &[u8]) -> bool
    ensures { IsTrue result ↔ StandsFor wanted.now label.now }
{
    wanted == label || wanted == b"*".as_slice()
}

/// Whether the labels of a pattern stand for the labels of a host, one for one.
pub(crate) fn stands_for_host(pattern: &[u8], host: &[u8]) -> bool
    ensures { IsTrue result ↔ AllZip StandsFor (pieces dot pattern.now) (pieces dot host.now) }
{
    let mut wanted = pattern;
    let mut left = host;
    'labels: loop {
        if wanted.is_empty() {
            return left.is_empty();
        }
        if left.is_empty() {
            return false;
        }
        let (first_wanted, after_wanted) = next_piece(wanted, b'.');
        let (first, after) = next_piece(left, b'.');
        if !stands_for(first_wanted, first) {
            return false;
        }
        wanted = after_wanted;
        left = after;
    }
}

/// The number that these digits write, or `None` if it is above 65535.
fn number_of(digits: &[u8]) -> Option<u16>
    requires { list_all is_ascii_digit digits.now ≡ true }
    ensures { MatchOption result (65536 ≤ number_after 0 digits.now) (λ n. number_after 0 digits.now ≡ n) }
{
    let mut number: u32 = 0;
    let mut rest = digits;
    'digits: while let Some((digit, after)) = split(rest) {
        number = number * 10 + (digit - b'0') as u32;
        if number > 65535 {
            return None;
        }
        rest = after;
    }
    Some(number as u16)
}

/// Whether URLs of the scheme have this port if they name none.
fn is_default(scheme: &[u8], port: u16) -> bool
    ensures { IsTrue result ↔ IsDefault scheme.now port }
{
    scheme == b"http".as_slice() && port == 80 || scheme == b"https".as_slice() && port == 443
}

/// The port that these digits write behind a host, where the scheme's own port and no digits count as none.
/// It is `None` if they write no port.
pub(crate) fn port_of(scheme: &[u8], digits: &[u8]) -> Option<Option<u16>>
    requires { list_all is_ascii_digit digits.now ≡ true }
    ensures { MatchOption result ((port : Option ℕ) → ¬ (IsPort scheme.now digits.now port))
        (IsPort scheme.now digits.now) }
{
    if digits.is_empty() {
        return Some(None);
    }
    let port = number_of(digits)?;
    if is_default(scheme, port) {
        return Some(None);
    }
    if port == 0 {
        return None;
    }
    Some(Some(port))
}
