//! Calls of `Path::interpolate` and their results, each on a line.

use bstr::BString;
use gix_config_value::Path;
use gix_config_value::path::interpolate::{Context, Error, Place};
use std::alloc::Global;
use std::cell::Cell;

/// A call, whose texts are written as hexadecimal digits.
#[derive(Clone, Copy)]
pub struct Call<'a> {
    /// The value with its mark.
    value: &'a str,
    /// The install directory, or `-`.
    git_install_dir: &'a str,
    /// The home directory, or `-`.
    home_dir: &'a str,
    /// What the lookup knows, as `user=directory` separated by commas, or `-` if there is no lookup.
    lookup: &'a str,
}

/// The call of a line, whose fields are separated by tabs, or `None` if there are fewer than four.
pub fn parse(line: &str) -> Option<Call<'_>> {
    let mut fields = line.splitn(4, '\t');
    Some(Call {
        value: fields.next()?,
        git_install_dir: fields.next()?,
        home_dir: fields.next()?,
        lookup: fields.next()?,
    })
}

/// The text that these hexadecimal digits write.
fn text(alloc: Global, digits: &str) -> anyhow::Result<String> {
    Ok(String::from_utf8(hex::decode(alloc, digits)?)?)
}

/// The text that these hexadecimal digits write, or `None` for `-`.
fn directory(alloc: Global, field: &str) -> anyhow::Result<Option<String>> {
    match field {
        "-" => Ok(None),
        digits => Ok(Some(text(alloc, digits)?)),
    }
}

/// A user and the home directory that the lookup returns.
#[derive(Drop)]
struct User {
    name: String,
    home: String,
}

/// The users that the lookup knows.
fn users(alloc: Global, field: &str) -> anyhow::Result<Vec<User>> {
    let mut users = Vec::new(alloc);
    for entry in field.split(',') {
        if let Some((name, home)) = entry.split_once('=') {
            users.push(User {
                name: text(alloc, name)?,
                home: text(alloc, home)?,
            })?;
        }
    }
    Ok(users)
}

/// What the lookup returns for this name.
fn home_of<'a>(users: &'a [User], name: &str) -> Option<&'a str> {
    for user in users {
        if user.name.as_str() == name {
            return Some(user.home.as_str());
        }
    }
    None
}

/// How an answer names a place.
fn place_name(place: Place) -> &'static str {
    match place {
        Place::PastPrefix => "PastPrefix",
        Place::PastHome => "PastHome",
        Place::Username => "Username",
        Place::PastUser => "PastUser",
        Place::Whole => "Whole",
    }
}

/// How an answer writes the text or the error.
fn outcome(alloc: Global, given: Result<String, Error<'_>>) -> anyhow::Result<String> {
    Ok(match given {
        Ok(text) => format!(in alloc; "ok\t{}", hex::encode(alloc, text)?)?,
        Err(Error::IllFormed { place, input }) => {
            format!(in alloc;
                "IllFormed\t{}\t{}",
                place_name(place),
                hex::encode(alloc, input)?
            )?
        }
        Err(Error::PathMissing) => format!(in alloc; "PathMissing")?,
        Err(Error::InstallDirMissing) => format!(in alloc; "InstallDirMissing")?,
        Err(Error::HomeMissing) => format!(in alloc; "HomeMissing")?,
        Err(Error::LookupMissing) => format!(in alloc; "LookupMissing")?,
        Err(Error::UserNotFound) => format!(in alloc; "UserNotFound")?,
        Err(Error::Memory(_)) => format!(in alloc; "Memory")?,
    })
}

impl Call<'_> {
    /// Makes the call. Returns, separated by tabs, the flag, the value after the mark, how often the lookup
    /// was called, and the text or the error. It fails if digits are invalid, if a directory or a user is not
    /// UTF-8, or if memory is refused.
    pub fn answer(&self, alloc: Global) -> anyhow::Result<String> {
        let path = Path::from(BString::new(hex::decode(alloc, self.value)?));
        let git_install_dir = directory(alloc, self.git_install_dir)?;
        let home_dir = directory(alloc, self.home_dir)?;
        let users = users(alloc, self.lookup)?;
        let calls = Cell::new(0u32);
        let lookup = |name: &str| {
            calls.set(calls.get().wrapping_add(1));
            home_of(&users, name)
        };
        let result = path.interpolate(
            alloc,
            Context {
                git_install_dir: git_install_dir.as_deref(),
                home_dir: home_dir.as_deref(),
                home_for_user: (self.lookup != "-").then_some(lookup),
            },
        );
        let outcome = outcome(alloc, result)?;
        let value = hex::encode(alloc, path.as_bytes())?;
        let flag = u8::from(path.is_optional);
        Ok(format!(in alloc; "{flag}\t{value}\t{}\t{outcome}", calls.get())?)
    }
}
