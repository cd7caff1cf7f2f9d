//! A walk that goes on after a stop.

use config_file::{Directories, FilePlace, Include, Includes, Known, Step, Urls, Walk};
use std::alloc::{AllocError, Global};

/// The place of a file of the directory `/r`.
fn place<'t>(name: &'t str) -> FilePlace<'t> {
    FilePlace {
        name: name.as_bytes(),
        real_dir: b"/r",
    }
}

/// A word for a step of a walk: what stands in the way of an include, the name of an entry, or the file whose
/// third line cannot be read.
fn word_of<'t>(step: &Step<'t>) -> &'t [u8] {
    match step {
        Step::Entry(_, _, Include::MissingValue) => b"(no value)",
        Step::Entry(_, _, Include::UnknownDirectory) => b"(unknown directory)",
        Step::Entry(_, _, Include::ForbiddenUrl) => b"(forbidden URL)",
        Step::Entry(_, _, Include::Named(_)) => b"(include)",
        Step::Entry(_, entry, _) => entry.key,
        Step::Line(at, error) if error.line == 3 => at.name,
        Step::Line(..) => b"(another line)",
        Step::Ends => b"(end)",
    }
}

/// Whether the next steps of the walk have these words. There is one remote, `https://x/y`.
fn has_steps(alloc: Global, walk: &mut Walk<'_>, words: &str) -> Result<bool, AllocError> {
    let known = Known {
        directories: Directories {
            home: Some(b"/home/ann"),
            install_dir: None,
        },
        includes: Includes::AsGit(None, Urls::Known(&[b"https://x/y"])),
    };
    for word in words.split(", ") {
        let step = walk.next(alloc, &known)?;
        if word_of(&step) != word.as_bytes() {
            return Ok(false);
        }
    }
    Ok(true)
}

#[test]
fn a_walk_goes_on_after_a_stop(rt: HostRuntime) {
    let text = b"[include]\n\tpath\n\tpath = ~bob/x\n\tpath = b\n[x]\n\tz = 1";
    let mut walk = Walk::new(place("/a"), text);
    let first = "(no value), (unknown directory), (include)";
    assert!(rt; has_steps(rt.alloc(), &mut walk, first) == Ok(true));
    assert!(rt; walk.enter(place("/b"), b"[y]\n\tb = 1\n="));
    assert!(rt; has_steps(rt.alloc(), &mut walk, "b, /b, z, (end), (end)") == Ok(true));
}

#[test]
fn a_walk_stops_at_a_forbidden_url(rt: HostRuntime) {
    // Git 2.39.5, 2.47.3 and 2.55.0 end `git config --file a --includes --list` with status 128 here
    let text =
        b"[remote \"a\"]\n\turl = https://x/y\n[includeIf \"hasconfig:remote.*.url:https://x/**\"]\n\tpath = b\n";
    let mut walk = Walk::new(place("/a"), text);
    assert!(rt; has_steps(rt.alloc(), &mut walk, "url, (include)") == Ok(true));
    assert!(rt;
        walk.enter(
            place("/b"),
            b"[include]\n\tpath = c\n[remote \"c\"]\n\turl = https://x/z"
        )
    );
    assert!(rt; has_steps(rt.alloc(), &mut walk, "(include)") == Ok(true));
    assert!(rt; walk.enter(place("/c"), b"[remote \"b\"]\n\turl = https://z"));
    let rest = "(forbidden URL), (forbidden URL), (end)";
    assert!(rt; has_steps(rt.alloc(), &mut walk, rest) == Ok(true));
}
