//! Settings of two scopes, as Git lists them, and the messages of refusals.

use crate::support::equal;
use bstr::BStr;
use config_file::{Key, Scope, Setting, Settings};
use gix_config_value::{Fault, Integer};
use std::alloc::{AllocError, Global};
use std::test::Fail;

/// The file of a user.
const USER: &[u8] =
    b"[branch \"main\"]\n\trebase\n\tRemote = o\n[branch \"mainline\"]\n\tremote = p\n\
    [Branch]\n\tsort = name";

/// The file of a repository.
const OWN: &[u8] =
    b"[Branch \"Main\"]\n\tremote = q\n[branch \"main\"]\n\tmerge = \"a\x1b\xff\\\"\"\n\
    [branch.Dev]\n\tremote";

/// The settings of both files.
fn both(alloc: Global) -> Result<Settings<'static>, Fail> {
    let mut settings = Settings::new(alloc);
    settings.add_file(alloc, Scope::Global, b"user", USER)?;
    settings.add_file(alloc, Scope::Local, b"own", OWN)?;
    Ok(settings)
}

/// Appends the key of a setting, as Git lists it, and a space.
fn push_key(alloc: Global, keys: &mut Vec<u8>, setting: &Setting<'_>) -> Result<(), AllocError> {
    keys.extend_from_slice(&setting.entry.key_text(alloc)?)?;
    keys.push(b' ')?;
    Ok(())
}

/// The keys of the settings of a scope.
fn in_scope(alloc: Global, settings: &Settings<'_>, scope: Scope) -> Result<Vec<u8>, AllocError> {
    let mut keys = Vec::new(alloc);
    for setting in &settings.entries {
        if setting.scope == scope {
            push_key(alloc, &mut keys, setting)?;
        }
    }
    Ok(keys)
}

/// Scopes, and the keys of their settings.
const SCOPES: [(Scope, &str); 3] = [
    (
        Scope::Global,
        "branch.main.rebase branch.main.remote branch.mainline.remote branch.sort ",
    ),
    (
        Scope::Local,
        "branch.Main.remote branch.main.merge branch.dev.remote ",
    ),
    (Scope::Command, ""),
];

#[test]
fn shows_keys(rt: HostRuntime) -> Result<(), Fail> {
    // what `git config --list` prints, read as UTF-8
    for (text, wanted) in [
        (b"Core.Bare" as &[u8], "core.bare"),
        (b"Branch.Main.x.ReBase", "branch.Main.x.rebase"),
        (b"A..B", "a..b"),
        (
            b"URL.https://X/\xff.insteadOf",
            "url.https://X/\u{fffd}.insteadof",
        ),
    ] {
        let key = Key::parse(text)?;
        equal(&rt, key.to_string(rt.alloc())?.as_str(), wanted, wanted);
    }
    Ok(())
}

#[test]
fn lists_settings_and_subsections(rt: HostRuntime) -> Result<(), Fail> {
    let alloc = rt.alloc();
    let settings = both(alloc)?;
    for (scope, wanted) in SCOPES {
        let given = in_scope(alloc, &settings, scope)?;
        equal(&rt, BStr::new(&given), BStr::from(wanted), wanted);
    }
    assert!(rt; settings.subsections(alloc, b"remote")?.is_empty());
    let found = settings.subsections(alloc, b"BRANCH")?;
    assert!(rt; found.len() == 4);
    for (given, wanted) in found.iter().zip(["main", "mainline", "Main", "dev"]) {
        equal(&rt, BStr::new(given), BStr::from(wanted), wanted);
    }
    Ok(())
}

/// The word of a key among two, or the message of its refusal.
fn word(alloc: Global, key: &str) -> Result<String, Fail> {
    let settings = both(alloc)?;
    match settings.one_of(key, &["o", "q"]) {
        Ok(Some(word)) => Ok(String::from_str(alloc, word)?),
        Ok(None) => Ok(String::new(alloc)),
        Err(error) => Ok(error.to_string(alloc)?),
    }
}

/// Keys, each before what is found among the words `o` and `q`. Control characters and what is not UTF-8 are escaped.
const WORDS: &str = r#"branch.main.remote o
branch.Main.Remote q
branch.other.remote 
branch.main.rebase user:2: branch.main.rebase: no value
branch.mainline.remote user:5: branch.mainline.remote: not one of the allowed words: "p"
branch.main.merge own:4: branch.main.merge: not one of the allowed words: "a\x1b\xff\"""#;

/// The message of the refusal of an integer.
fn refusal(alloc: Global, key: &str) -> Result<String, Fail> {
    match both(alloc)?.get::<Integer>(key) {
        Ok(_) => Ok(String::new(alloc)),
        Err(error) => Ok(error.to_string(alloc)?),
    }
}

#[test]
fn takes_one_of_some_words(rt: HostRuntime) -> Result<(), Fail> {
    for row in WORDS.lines() {
        let (key, wanted) = row.split_once(' ').ok_or("a key")?;
        equal(&rt, word(rt.alloc(), key)?.as_str(), wanted, key);
    }
    let alone = refusal(rt.alloc(), "branch.main.rebase")?;
    assert!(&rt; alone.as_str() == "user:2: branch.main.rebase: no value");
    let fault = Fault::Integer.text();
    let wanted = format!(in rt.alloc(); "own:4: branch.main.merge: {fault}: \"a\\x1b\\xff\\\"\"")?;
    let given = refusal(rt.alloc(), "branch.main.merge")?;
    equal(&rt, given.as_str(), wanted.as_str(), "branch.main.merge");
    Ok(())
}
