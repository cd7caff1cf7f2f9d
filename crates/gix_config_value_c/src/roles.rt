//! What entries are to conditions on the URLs of remotes.
ghost use Rattle.std.specs.Prelude.{◌≡◌, ℕ, List, IfOk};
ghost use Rattle.config_file.specs.Listing.{IsListed};
ghost use Rattle.config_file.specs.Views.{entry_of};
ghost use Rattle.gix_config_value_c.specs.Roles.{HasRole, asks_urls};

use config_file::{Condition, Entry, is_remote_url};
use std::alloc::{AllocError, Global};

/// What an entry is to conditions on the URLs of remotes: `hasconfig:remote.*.url:`. Git looks for these URLs
/// only if there is such a condition, and refuses them in files that are included on a condition.
#[derive(Clone, Copy)]
pub enum Role {
    /// None of the others.
    Plain = 0,
    /// The URL of a remote: `remote.NAME.url`.
    RemoteUrl = 1,
    /// An entry in a section `includeIf`. A file that it includes is included on a condition.
    Condition = 2,
    /// An entry in such a section, whose condition asks about the URLs of remotes.
    UrlCondition = 3,
}

/// Whether a condition asks about the URLs of remotes.
fn asks_urls(condition: Condition<'_>) -> bool
    ensures { result ≡ asks_urls condition.entry }
{
    matches!(condition, Condition::HasRemoteUrl(_))
}

/// Returns the role of an entry. It fails only if memory is refused.
pub(crate) fn role_of(alloc: Global, entry: &Entry<'_>) -> Result<Role, AllocError>
    ensures { (listed : List ℕ) → IsListed (entry_of entry.now).section (entry_of entry.now).key listed
        → IfOk result (HasRole (entry_of entry.now)) }
{
    if is_remote_url(entry) {
        return Ok(Role::RemoteUrl);
    }
    let Some(section) = &entry.section else {
        return Ok(Role::Plain);
    };
    let Some(subsection) = &section.subsection else {
        return Ok(Role::Plain);
    };
    if !section.has_name(b"includeif") {
        return Ok(Role::Plain);
    }
    let mut text = Vec::new(alloc);
    subsection.push_text(&mut text)?;
    if asks_urls(Condition::parse(&text)) {
        Ok(Role::UrlCondition)
    } else {
        Ok(Role::Condition)
    }
}
