//! Colors that no text reads to. The sequences of texts are in crates/git_settings/tests/rows.tsv, and fewer colors in
//! compare/depth.py.

use crate::support::equal;
use bitflags::Flags;
use gix_config_value::Color;
use gix_config_value::canonical::compose;
use gix_config_value::color::{Attribute, LONGEST_ESCAPE, Name};
use std::test::Fail;

/// Each name, and numbers on both sides of 8 and 16.
const NAMES: &str =
    "normal -1 default black red green yellow blue magenta cyan white brightblack brightred brightgreen \
    brightyellow brightblue brightmagenta brightcyan brightwhite 0 7 8 15 16 255 #0a64ff";

/// The color whose background alone is set.
fn behind(background: Option<Name>) -> Color {
    Color {
        background,
        ..Color::default()
    }
}

#[test]
fn a_background_alone_has_the_codes_of_one_behind_normal(rt: HostRuntime) -> Result<(), Fail> {
    for name in NAMES.split(' ') {
        let alone = behind(Color::try_from(name)?.foreground);
        let beside = Color {
            foreground: Some(Name::Normal),
            ..alone
        };
        equal(&rt, alone.escape().as_str(), beside.escape().as_str(), name);
    }
    let longest = Color {
        attributes: !Attribute::default(),
        ..Color::try_from("#ffffff #ffffff")?
    };
    assert!(rt; longest.escape().as_str().len() == LONGEST_ESCAPE);
    Ok(())
}

#[test]
fn unknown_bits_have_no_code(rt: HostRuntime) {
    for bit in [1, 1 << 20, 1 << 31] {
        let mut unknown = Color {
            attributes: Attribute::from_bits_retain(bit),
            ..Color::default()
        };
        equal(&rt, unknown.escape().as_str(), "", bit);
        unknown.attributes |= Attribute::UL;
        equal(&rt, unknown.escape().as_str(), "\u{1b}[4m", bit);
    }
}

#[test]
fn composes_only_colors_with_a_text(rt: HostRuntime) -> Result<(), Fail> {
    let red = Color::try_from("red")?;
    let unknown = Color {
        attributes: Attribute::from_bits_retain(1),
        ..Color::default()
    };
    for none in [unknown, behind(Some(Name::Red))] {
        assert!(rt; compose(red, none).is_none() && compose(none, red).is_none());
    }
    assert!(rt; compose(red, Color::default()) == Some(red));
    Ok(())
}
