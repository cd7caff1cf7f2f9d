//! URLs of settings: a setting such as `http.https://example.com/.proxy` is of the URLs below the one in its
//! subsection.
#![tactic(auto)]

ghost use Rattle.std.specs.Prelude.{◌≡◌, ◌↔◌, ◌++◌, ◌∷◌, [], ℕ, List, Option, Some, true, IsTrue};
ghost use Rattle.std.specs.Prelude.{MatchOption, IfOk, IfSome, None};
ghost use Rattle.std.specs.Prelude.{map, option_map, option_copied, unwrap_or, codes, false};
ghost use Rattle.std.specs.Char.{to_ascii_lowercase, is_ascii_digit};
ghost use Rattle.std.specs.List.{list_all};
ghost use Rattle.config_url.specs.Deciding.{Fits, IsUnder, LacksFit, IsClosest};
ghost use Rattle.config_file.specs.KeyView.{key_of};
ghost use Rattle.config_file.specs.Listing.{IsListed};
ghost use Rattle.config_url.specs.Reading.Fits.{FitsBy, TakesNext};
ghost use Rattle.config_file.specs.Settings.{AreListed};
ghost use Rattle.config_url.specs.Url as spec;
ghost use Rattle.config_url.specs.Url.{IsUrl, IsForm, IsPath, IsUser, Matches, AllowsUser, closed, slash, IsCloser};
ghost use Rattle.config_url.specs.UrlView.{parts_of, url_of, fit_in};
ghost use Rattle.config_file.specs.Views.{entry_of};

mod host;
mod normal;
mod parts;
mod path;
mod pieces;

use crate::host::{port_of, stands_for_host};
use crate::normal::normal;
use crate::parts::{SplitUrl, read_parts};
use crate::path::{is_own_form, path_of};
use crate::pieces::cut_piece;
use config_file::bytes::{Class, after_byte, run, split};
use config_file::entry::{Entry, push_lower};
use config_file::key::Key;
use config_file::settings::{Setting, Settings};
use std::alloc::{AllocError, Global};

/// A URL in the form in which Git compares URLs: git-config(1) under `http.<url>.*`, and docs/GRAMMAR.md,
/// URLs of settings.
///
/// ```rust
/// use config_file::{Key, Scope, Settings};
/// use config_url::{Url, last_for_url};
///
/// let mut settings = Settings::new(alloc);
/// let text = b"[http]\n\tproxy = a\n[http \"https://*.example.com\"]\n\tproxy = b";
/// assert!(rt; settings.add_file(alloc, Scope::Local, b".git/config", text).is_ok());
/// let key = Key::parse(b"http.proxy").expect(&rt, "a key");
/// let url = Url::parse(alloc, b"https://git.example.com:443/x.git")?.expect(&rt, "a URL");
/// let setting = last_for_url(alloc, &settings, &key, &url)?.expect(&rt, "a setting");
/// assert_eq!(rt; setting.text(), b"b".as_slice());
/// ```
#[derive(Drop)]
pub struct Url {
    /// The scheme, in lower case.
    scheme: Vec<u8>,
    /// The user, without a password.
    user: Option<Vec<u8>>,
    /// The host, in lower case.
    host: Vec<u8>,
    /// The port, unless it is the scheme's own.
    port: Option<u16>,
    /// The path, the query and the fragment.
    path: Vec<u8>,
}

/// How closely a setting fits a URL.
#[derive(Clone, Copy)]
struct Fit {
    /// The length of the host of its pattern.
    host: usize,
    /// The length of the path of its pattern, with a slash at the end, or 0 if the setting has no pattern.
    path: usize,
    /// Whether its pattern names the user.
    has_user: bool,
}

/// A text in lower case.
fn lower(alloc: Global, text: &[u8]) -> Result<Vec<u8>, AllocError>
    ensures { IfOk result (λ written. written.items ≡ map to_ascii_lowercase text.now) }
{
    let mut written = Vec::with_capacity(alloc, text.len())?;
    push_lower(&mut written, text)?;
    Ok(written)
}

/// Whether a host is missing, as Git sees it: it is empty or begins with a colon.
fn is_missing(host: &[u8]) -> bool
    ensures { result ≡ spec.is_missing host.now }
{
    match host {
        [] => true,
        [first, ..] => *first == b':',
    }
}

/// Whether the scheme is `file`.
fn is_file(scheme: &[u8]) -> bool
    ensures { IsTrue result ↔ (scheme.now ≡ codes "file") }
{
    scheme == b"file".as_slice()
}

/// Whether a URL has a host, or its scheme is `file` and it has no digits of a port.
fn is_placed(scheme: &[u8], host: &[u8], digits: &[u8]) -> bool
    ensures { IsTrue result
        ↔ (spec.is_missing host.now ≡ true → (scheme.now ≡ codes "file") × (digits.now ≡ [])) }
{
    if !is_missing(host) {
        return true;
    }
    if !is_file(scheme) {
        return false;
    }
    digits.is_empty()
}

/// The host that Git compares: in lower case, and empty if it is missing.
fn compared_host(alloc: Global, host: &[u8]) -> Result<Vec<u8>, AllocError>
    ensures { IfOk result (λ written. written.items ≡ spec.compared_host host.now) }
{
    if is_missing(host) {
        return Ok(Vec::new(alloc));
    }
    lower(alloc, host)
}

/// The user of a login, which precedes its first colon, in normal form. It is `None` if an escape is none.
fn name_of(alloc: Global, login: &[u8]) -> Result<Option<Vec<u8>>, AllocError>
    ensures { IfOk result (λ found. MatchOption found
        ((user : Option (List ℕ)) → ¬ (IsUser (Some login.now) user))
        (λ name. IsUser (Some login.now) (Some name.items))) }
{
    let Some(mut name) = normal(alloc, login)? else {
        return Ok(None);
    };
    let length = cut_piece(&name, b':').0.len();
    name.truncate(length);
    Ok(Some(name))
}

/// The user of a login, if there is one. It is `None` if an escape is none.
fn user_of(alloc: Global, login: Option<&[u8]>) -> Result<Option<Option<Vec<u8>>>, AllocError>
    ensures { IfOk result (λ found. MatchOption found
        ((user : Option (List ℕ)) → ¬ (IsUser (option_copied login.entry) user))
        (λ user. IsUser (option_copied login.entry) (option_map (λ name. name.items) user))) }
{
    let Some(text) = login else {
        return Ok(Some(None));
    };
    let Some(name) = name_of(alloc, text)? else {
        return Ok(None);
    };
    Ok(Some(Some(name)))
}

impl Url {
    /// The URL that this text is, or `None` if it is none: its scheme or its host is missing or has a wrong
    /// byte, its port is no number from 1 to 65535, a `%` has not two hexadecimal digits behind it, or a `..`
    /// has no name before it. It fails only if memory is refused.
    ///
    /// ```rust
    /// use config_url::Url;
    ///
    /// assert!(rt; Url::parse(alloc, b"HTTP://User@Example.com:80/a/./%7Eb")?.is_some());
    /// assert!(rt; Url::parse(alloc, b"example.com/a")?.is_none());
    /// ```
    pub fn parse(alloc: Global, text: &[u8]) -> Result<Option<Url>, AllocError>
        ensures { IfOk result (λ found. MatchOption found ((u : spec.Url) → ¬ (IsUrl false text.now u))
            (λ u. IsUrl false text.now (url_of u))) }
    {
        match read_parts(text, false) {
            Some(parts) => Url::of_parts(alloc, parts),
            None => Ok(None),
        }
    }

    /// The URL of these parts.
    fn of_parts(alloc: Global, parts: SplitUrl<'_>) -> Result<Option<Url>, AllocError>
        requires { list_all is_ascii_digit (unwrap_or (option_copied parts.port) []) ≡ true }
        ensures { IfOk result (λ found. MatchOption found
            ((u : spec.Url) → ¬ (IsForm (parts_of parts.entry) u))
            (λ u. IsForm (parts_of parts.entry) (url_of u))) }
    {
        let scheme = lower(alloc, parts.scheme)?;
        let digits = parts.port.unwrap_or(&[]);
        if !is_placed(&scheme, parts.host, digits) {
            return Ok(None);
        }
        let Some(port) = port_of(&scheme, digits) else {
            return Ok(None);
        };
        let Some(user) = user_of(alloc, parts.login)? else {
            return Ok(None);
        };
        let Some(path) = path_of(alloc, parts.path)? else {
            return Ok(None);
        };
        let host = compared_host(alloc, parts.host)?;
        Ok(Some(Url {
            scheme,
            user,
            host,
            port,
            path,
        }))
    }

    /// How closely this pattern fits a URL, or `None` if it does not match it.
    fn fit(&self, url: &Url) -> Option<Fit>
        ensures { MatchOption result (¬ (Matches (url_of self.now) (url_of url.now)))
            (λ f. Matches (url_of self.now) (url_of url.now) × (fit_in f ≡ spec.fit_of (url_of self.now))) }
    {
        if self.scheme.as_slice() != url.scheme.as_slice() {
            return None;
        }
        if !is_same_port(self.port, url.port) {
            return None;
        }
        if !allows_user(&self.user, &url.user) {
            return None;
        }
        if !stands_for_host(&self.host, &url.host) {
            return None;
        }
        let path = without_slash(&self.path);
        if !is_at_or_below(path, &url.path) {
            return None;
        }
        Some(Fit {
            host: self.host.len(),
            path: path.len() + 1,
            has_user: self.user.is_some(),
        })
    }
}

/// Whether both ports are the same, or there is none.
fn is_same_port(a: Option<u16>, b: Option<u16>) -> bool
    ensures { IsTrue result ↔ (a ≡ b) }
{
    a == b
}

/// Whether a pattern with this user, or with none, matches URLs with that one.
fn allows_user(wanted: &Option<Vec<u8>>, user: &Option<Vec<u8>>) -> bool
    ensures { IsTrue result ↔ AllowsUser (option_map (λ name. name.items) wanted.now)
        (option_map (λ name. name.items) user.now) }
{
    let Some(wanted) = wanted else {
        return true;
    };
    match user {
        Some(user) => wanted.as_slice() == user.as_slice(),
        None => false,
    }
}

/// The path without the slash at its end, if it has one.
fn without_slash(path: &[u8]) -> &[u8]
    ensures { closed path.now ≡ result.now ++ slash ∷ [] }
{
    let Some((last, front)) = path.split_last() else {
        return path;
    };
    if *last == b'/' { front } else { path }
}

/// Whether a path is this one, or goes on behind it with a slash.
fn is_at_or_below(front: &[u8], path: &[u8]) -> bool
    ensures { IsTrue result
        ↔ ((rest : List ℕ) × (path.now ++ slash ∷ [] ≡ (front.now ++ slash ∷ []) ++ rest)) }
{
    let mut wanted = front;
    let mut left = path;
    'bytes: while let Some((byte, more)) = split(wanted) {
        let Some(after) = after_byte(byte, left) else {
            return false;
        };
        wanted = more;
        left = after;
    }
    match split(left) {
        Some((first, _)) => first == b'/',
        None => true,
    }
}

impl Fit {
    /// Whether the other one is closer: a longer host, then a longer path, then a user.
    fn is_below(&self, other: &Fit) -> bool
        ensures { IsTrue result ↔ IsCloser (fit_in self.now) (fit_in other.now) }
    {
        if self.host != other.host {
            return self.host < other.host;
        }
        if self.path != other.path {
            return self.path < other.path;
        }
        !self.has_user && other.has_user
    }
}

/// The subsection of an entry of this section and this name, if no byte of it is escaped.
fn plain_pattern<'a>(entry: &Entry<'a>, key: &Key<'_>) -> Option<&'a [u8]>
    ensures { (text : List ℕ) → IsListed (entry_of entry.now).section (entry_of entry.now).key text
        → (key_of key.now).subsection ≡ None
        → IfSome result (λ pattern. IsUnder (key_of key.now) (entry_of entry.now) (Some pattern.now)) }
{
    let section = entry.section?;
    let subsection = section.subsection?;
    if !section.has_name(key.section()) || !entry.has_key(key.name()) {
        return None;
    }
    let (pattern, escaped) = run(subsection.raw, Class::Unescaped);
    if escaped.is_empty() {
        Some(pattern)
    } else {
        None
    }
}

/// Whether no pattern with this path matches a URL, which is plain from the path.
fn is_beside(path: &[u8], url: &Url) -> bool
    ensures { IsTrue result
        → (p : spec.Url) → IsPath path.now p.path → ¬ (Matches p (url_of url.now)) }
{
    !is_at_or_below(without_slash(path), &url.path) && is_own_form(path)
}

/// How closely this pattern fits a URL, or `None` if it is none or does not match it.
fn fit_of_pattern(alloc: Global, pattern: &[u8], url: &Url) -> Result<Option<Fit>, AllocError>
    ensures { IfOk result (λ found. MatchOption found
        ((p : spec.Url) → IsUrl true pattern.now p → ¬ (Matches p (url_of url.now)))
        (λ fit. FitsBy pattern.now (url_of url.now) (fit_in fit))) }
{
    let Some(parts) = read_parts(pattern, true) else {
        return Ok(None);
    };
    // Most patterns have another path. A URL of its own takes memory.
    if is_beside(parts.path, url) {
        return Ok(None);
    }
    match Url::of_parts(alloc, parts)? {
        Some(pattern) => Ok(pattern.fit(url)),
        None => Ok(None),
    }
}

/// How closely an entry fits a URL, or `None` if it has another key or its pattern does not match.
fn fit_of(
    alloc: Global,
    entry: &Entry<'_>,
    key: &Key<'_>,
    url: &Url,
) -> Result<Option<Fit>, AllocError>
    ensures { (text : List ℕ) → IsListed (entry_of entry.now).section (entry_of entry.now).key text
        → IfOk result (λ found. MatchOption found
        ((f : spec.Fit) → ¬ (Fits (key_of key.now) (url_of url.now) (entry_of entry.now) f))
        (λ fit. Fits (key_of key.now) (url_of url.now) (entry_of entry.now) (fit_in fit)
        × ((f : spec.Fit) → Fits (key_of key.now) (url_of url.now) (entry_of entry.now) f
        → f ≡ fit_in fit))) }
{
    if key.subsection().is_some() {
        return Ok(None);
    }
    if let Some(pattern) = plain_pattern(entry, key) {
        return fit_of_pattern(alloc, pattern, url);
    }
    let text = entry.key_text(alloc)?;
    let Some(of_entry) = Key::split(&text) else {
        return Ok(None);
    };
    if !of_entry.section().eq_ignore_ascii_case(key.section()) {
        return Ok(None);
    }
    if !of_entry.name().eq_ignore_ascii_case(key.name()) {
        return Ok(None);
    }
    match of_entry.subsection() {
        Some(pattern) => fit_of_pattern(alloc, pattern, url),
        None => Ok(Some(Fit {
            host: 0,
            path: 0,
            has_user: false,
        })),
    }
}

/// Whether an entry is of a URL: it has the section and the name of the key, and no subsection, or as one a
/// pattern that matches the URL. [`last_for_url`] chooses among these. It fails only if memory is refused.
///
/// ```rust
/// use config_file::{Entries, Key};
/// use config_url::{Url, is_of_url};
///
/// let text = b"[http \"https://*.example.com\"]\n\tproxy = b";
/// let entry = Entries::new(text).next().expect(&rt, "an entry").expect(&rt, "no error");
/// let key = Key::parse(b"http.proxy").expect(&rt, "a key");
/// let url = Url::parse(alloc, b"https://git.example.com/x.git")?.expect(&rt, "a URL");
/// assert!(rt; is_of_url(alloc, &entry, &key, &url)?);
/// ```
pub fn is_of_url(
    alloc: Global,
    entry: &Entry<'_>,
    key: &Key<'_>,
    url: &Url,
) -> Result<bool, AllocError>
    ensures { (text : List ℕ) → IsListed (entry_of entry.now).section (entry_of entry.now).key text
        → IfOk result (λ is. IsTrue is
        ↔ ((f : spec.Fit) × Fits (key_of key.now) (url_of url.now) (entry_of entry.now) f)) }
{
    Ok(fit_of(alloc, entry, key, url)?.is_some())
}

/// The setting that decides for a URL, as `git config --get-urlmatch` finds it, or `None` if no setting of
/// the key is of the URL. The key is a section and a name; with a subsection no setting has it. A setting
/// without a subsection is of every URL, and any other is of those that the pattern in its subsection
/// matches. The one with the longest host in its pattern decides, then the one with the longest path, then
/// one with a user, and of equals the last. It fails only if memory is refused.
///
/// ```rust
/// use config_file::{Key, Scope, Settings};
/// use config_url::{Url, last_for_url};
///
/// let mut settings = Settings::new(alloc);
/// let text = b"[http \"http://h/a\"]\n\tproxy = b\n[http \"http://h\"]\n\tproxy = c";
/// assert!(rt; settings.add_file(alloc, Scope::Local, b".git/config", text).is_ok());
/// let key = Key::parse(b"http.proxy").expect(&rt, "a key");
/// let below = Url::parse(alloc, b"http://h/a/x")?.expect(&rt, "a URL");
/// let beside = Url::parse(alloc, b"http://h/ab")?.expect(&rt, "a URL");
/// let found = last_for_url(alloc, &settings, &key, &below)?.expect(&rt, "a setting");
/// assert_eq!(rt; found.text(), b"b".as_slice());
/// let found = last_for_url(alloc, &settings, &key, &beside)?.expect(&rt, "a setting");
/// assert_eq!(rt; found.text(), b"c".as_slice());
/// ```
pub fn last_for_url<'s, 't>(
    alloc: Global,
    settings: &'s Settings<'t>,
    key: &Key<'_>,
    url: &Url,
) -> Result<Option<&'s Setting<'t>>, AllocError>
    ensures { AreListed settings.now.entries.items → IfOk result (λ found. MatchOption found
        (LacksFit (key_of key.now) (url_of url.now) settings.now.entries.items)
        (λ setting. IsClosest (key_of key.now) (url_of url.now) settings.now.entries.items setting.now)) }
{
    let mut best: Option<(Fit, &'s Setting<'t>)> = None;
    for setting in &settings.entries {
        best = next_best(alloc, best, setting, key, url)?;
    }
    match best {
        Some((_, setting)) => Ok(Some(setting)),
        None => Ok(None),
    }
}

/// The closest setting so far and its fit, or the next one if it fits as closely.
fn next_best<'s, 't>(
    alloc: Global,
    best: Option<(Fit, &'s Setting<'t>)>,
    setting: &'s Setting<'t>,
    key: &Key<'_>,
    url: &Url,
) -> Result<Option<(Fit, &'s Setting<'t>)>, AllocError>
    ensures { TakesNext fit_in (key_of key.now) (url_of url.now) setting.now best.entry result }
{
    let Some(fit) = fit_of(alloc, &setting.entry, key, url)? else {
        return Ok(best);
    };
    let Some((other, kept)) = best else {
        return Ok(Some((fit, setting)));
    };
    if fit.is_below(&other) {
        return Ok(Some((other, kept)));
    }
    Ok(Some((fit, setting)))
}
