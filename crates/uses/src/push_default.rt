//! A kind of value of the caller's own: the values of `push.default`. Since its type is a [`Value`], it gets
//! `lookup`, `normalize_as` and the other generic calls of the library.
ghost use Rattle.std.specs.Prelude.{◌≡◌, codes, MatchResult};
ghost use Rattle.std.proofs.Common.{rules};
ghost use Rattle.gix_config_value.specs.Settings.{entry_texts, Finds, DecidingIsRefused};
ghost use Rattle.uses.specs.declared.push_default.PushDefault.TheVariants as values;
ghost use Rattle.uses.specs.PushDefault.{PushDefaultText, CanonicalPushDefault, push_default_shown};
ghost use Rattle.uses.specs.Laws.PushDefault as laws;

use bstr::BStr;
use gix_config_value::canonical::{CanonicalText, Value};
use gix_config_value::settings::{Refused, lookup};

/// What `git push` pushes by default, by the words of git-config(1).
///
/// ```rust
/// use bstr::BStr;
/// use gix_config_value::canonical::normalize_as;
/// use uses::push_default::PushDefault;
///
/// let text = normalize_as::<PushDefault>(BStr::from("tracking")).ok_or("refused")?;
/// assert_eq!(rt; text.as_str(), "upstream");
/// assert!(rt; normalize_as::<PushDefault>(BStr::from("Simple")).is_none());
/// ```
#[derive(Clone, Copy, PartialEq, Eq, Debug)]
pub enum PushDefault {
    Nothing,
    Current,
    /// `upstream`, or its old name `tracking`.
    Upstream,
    Simple,
    Matching,
}

impl Value for PushDefault {
    ghost grammar = { PushDefaultText };

    ghost canonical = { CanonicalPushDefault };

    ghost displayed = { push_default_shown };

    fn read(input: BStr<'_>) -> Option<PushDefault> {
        let text = input.as_bytes();
        if text == b"nothing".as_slice() {
            Some(PushDefault::Nothing)
        } else if text == b"current".as_slice() {
            Some(PushDefault::Current)
        } else if text == b"upstream".as_slice() || text == b"tracking".as_slice() {
            Some(PushDefault::Upstream)
        } else if text == b"simple".as_slice() {
            Some(PushDefault::Simple)
        } else if text == b"matching".as_slice() {
            Some(PushDefault::Matching)
        } else {
            None
        }
    }

    fn has_text(&self) -> bool {
        true
    }

    fn write_to(&self, text: &mut CanonicalText) {
        text.push_str(match self {
            PushDefault::Nothing => "nothing",
            PushDefault::Current => "current",
            PushDefault::Upstream => "upstream",
            PushDefault::Simple => "simple",
            PushDefault::Matching => "matching",
        });
    }

    ghost one_value = { laws.push_default_one_value };

    ghost one_text = { laws.push_default_one_text };

    ghost canonical_reads = { laws.push_default_canonical_reads };

    ghost shown_is_text = { laws.push_default_shown_is_text };

    ghost decided = { laws.push_default_decided };

    ghost equal_is_same = { Prim.search rules };
}

/// The value of `push.default`: that of the last entry that sets it, or `simple` if no entry does. Returns a
/// refusal if the text of that entry has no value.
///
/// ```rust
/// use uses::push_default::{PushDefault, push_default};
///
/// let entries: [(&[u8], &[u8]); 1] = [(b"push.default", b"matching")];
/// assert!(rt; push_default(&entries) == Ok(PushDefault::Matching));
/// assert!(rt; push_default(&[]) == Ok(PushDefault::Simple));
/// ```
pub fn push_default<'a>(entries: &[(&[u8], &'a [u8])]) -> Result<PushDefault, Refused<'a>>
    ensures { MatchResult result
        (Finds PushDefaultText (entry_texts entries.now) (codes "push.default") values.Simple)
        (λ r. DecidingIsRefused PushDefaultText (entry_texts entries.now) (codes "push.default")
        r.index r.input.now) }
{
    lookup(entries, b"push.default", PushDefault::Simple)
}
