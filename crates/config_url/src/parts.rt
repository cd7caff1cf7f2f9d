//! The parts of a URL, as they are written.
ghost use Rattle.std.specs.Prelude.{◌≡◌, ◌++◌, ◌≤◌, List, ℕ, [], true, length};
ghost use Rattle.std.specs.Prelude.{option_copied, MatchOption, codes};
ghost use Rattle.std.specs.Char.{is_ascii_digit};
ghost use Rattle.std.specs.List.{list_all, prefix_len};
ghost use Rattle.config_file.specs.Runs.{Run};
ghost use Rattle.config_url.specs.Url as spec;
ghost use Rattle.config_url.specs.Url.{IsWritten};
ghost use Rattle.config_url.specs.UrlView.{parts_of};
ghost use Rattle.config_url.specs.Reading.Urls.{CutsScheme, CutsLogin, CutsPort, IsCutUrl, is_port_byte};

use crate::pieces::cut_piece;

/// The parts of a URL, which are borrowed from its text.
#[derive(Clone, Copy)]
pub(crate) struct SplitUrl<'t> {
    pub scheme: &'t [u8],
    /// What precedes `@`: a user, and a password behind a colon.
    pub login: Option<&'t [u8]>,
    pub host: &'t [u8],
    /// What follows the colon behind the host.
    pub port: Option<&'t [u8]>,
    /// The path, the query and the fragment.
    pub path: &'t [u8],
}

fn is_scheme_byte(byte: u8) -> bool
    ensures { result ≡ spec.is_scheme_byte byte }
{
    byte.is_ascii_alphanumeric() || b"+-.".contains(&byte)
}

/// Whether a byte can precede the path.
fn is_place_byte(byte: u8) -> bool
    ensures { result ≡ spec.is_place_byte byte }
{
    !b"/?#".contains(&byte)
}

fn is_host_byte(byte: u8, has_stars: bool) -> bool
    ensures { result ≡ spec.is_host_byte has_stars byte }
{
    byte.is_ascii_alphanumeric() || b".-_[:]".contains(&byte) || has_stars && byte == b'*'
}

fn scheme_length(text: &[u8]) -> usize
    ensures count { result ≡ prefix_len spec.is_scheme_byte text.now }
    ensures within { result ≤ length text.now }
{
    text.iter()
        .take_while(|byte| is_scheme_byte(**byte))
        .count()
}

fn is_scheme(text: &[u8]) -> bool
    requires { list_all spec.is_scheme_byte text.now ≡ true }
    ensures { result ≡ spec.is_scheme text.now }
{
    match text {
        [first, ..] => first.is_ascii_alphabetic(),
        [] => false,
    }
}

/// What follows `://` at the front.
fn after_mark(text: &[u8]) -> Option<&[u8]>
    ensures { MatchOption result ((rest : List ℕ) → ¬ (text.now ≡ codes "://" ++ rest))
        (λ rest. text.now ≡ codes "://" ++ rest.now) }
{
    match text {
        [b':', b'/', b'/', rest @ ..] => Some(rest),
        _ => None,
    }
}

/// The scheme, and what follows `://` behind it.
fn cut_scheme(text: &[u8]) -> Option<(&[u8], &[u8])>
    ensures { MatchOption result ((scheme rest : List ℕ) → ¬ (CutsScheme text.now scheme rest))
        (λ p. CutsScheme text.now p.0.now p.1.now) }
{
    let (scheme, rest) = text.split_at(scheme_length(text));
    if !is_scheme(scheme) {
        return None;
    }
    let rest = after_mark(rest)?;
    Some((scheme, rest))
}

fn place_length(text: &[u8]) -> usize
    ensures count { result ≡ prefix_len spec.is_place_byte text.now }
    ensures within { result ≤ length text.now }
{
    text.iter().take_while(|byte| is_place_byte(**byte)).count()
}

/// What precedes the path, and the path.
fn cut_place(text: &[u8]) -> (&[u8], &[u8])
    ensures { Run spec.is_place_byte text.now result.0.now result.1.now }
{
    text.split_at(place_length(text))
}

/// What precedes the first `@`, if there is one, and what follows it.
fn cut_login(text: &[u8]) -> (Option<&[u8]>, &[u8])
    ensures { CutsLogin text.now (option_copied result.0) result.1.now }
{
    let (login, after) = cut_piece(text, b'@');
    match after {
        Some(after) => (Some(login), after),
        None => (None, text),
    }
}

/// Whether a byte is neither a colon nor `]`.
fn is_port_byte(byte: u8) -> bool
    ensures { result ≡ is_port_byte byte }
{
    byte != b':' && byte != b']'
}

/// The host, and what follows the last colon if no `]` follows that.
fn cut_port(text: &[u8]) -> (&[u8], Option<&[u8]>)
    ensures { CutsPort text.now result.0.now (option_copied result.1) }
{
    let last = text.iter().rposition(|byte| !is_port_byte(*byte));
    let Some(last) = last else {
        return (text, None);
    };
    if text[last] != b':' {
        return (text, None);
    }
    (&text[..last], Some(&text[last + 1..]))
}

fn are_host_bytes(host: &[u8], has_stars: bool) -> bool
    ensures { result ≡ list_all (spec.is_host_byte has_stars) host.now }
{
    host.iter().all(|byte| is_host_byte(*byte, has_stars))
}

fn are_digits(port: &[u8]) -> bool
    ensures { result ≡ list_all is_ascii_digit port.now }
{
    port.iter().all(|byte| byte.is_ascii_digit())
}

/// The parts into which a text is cut.
fn cut(text: &[u8]) -> Option<SplitUrl<'_>>
    ensures { MatchOption result ((parts : spec.SplitUrl) → ¬ (IsCutUrl text.now parts))
        (λ parts. IsCutUrl text.now (parts_of parts)) }
{
    let (scheme, rest) = cut_scheme(text)?;
    let (place, path) = cut_place(rest);
    let (login, place) = cut_login(place);
    let (host, port) = cut_port(place);
    Some(SplitUrl {
        scheme,
        login,
        host,
        port,
        path,
    })
}

/// The parts of a URL, or `None` if the text is none. A byte `*` in its host is allowed if it has stars.
pub(crate) fn read_parts(text: &[u8], has_stars: bool) -> Option<SplitUrl<'_>>
    ensures { MatchOption result ((parts : spec.SplitUrl) → ¬ (IsWritten has_stars text.now parts))
        (λ parts. IsWritten has_stars text.now (parts_of parts)) }
{
    let parts = cut(text)?;
    if !are_host_bytes(parts.host, has_stars) {
        return None;
    }
    if !are_digits(parts.port.unwrap_or(&[])) {
        return None;
    }
    Some(parts)
}
