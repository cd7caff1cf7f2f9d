//! Texts that take memory, and values that are lent where they take none.

use bstr::BStr;
use config_file::reader::Entries;
use gix_config_value::Path;
use gix_config_value::color::{Attribute, Name};
use gix_config_value::integer::Suffix;
use std::alloc::{AllocError, Global};
use std::borrow::CowSlice;
use std::test::Fail;

/// Whether the text of the first value of a file is borrowed.
fn is_borrowed(alloc: Global, text: &[u8]) -> Result<bool, AllocError> {
    if let Some(Ok(entry)) = Entries::new(text).next() {
        if let Some(value) = entry.value {
            return Ok(matches!(&value.text(alloc)?, CowSlice::Borrowed(_)));
        }
    }
    Ok(false)
}

#[test]
fn a_value_is_lent_where_it_needs_no_memory(rt: HostRuntime) {
    for (text, wanted) in [
        (b"a = x  y # z" as &[u8], true),
        (b"a=x\ty\rz \t\r\n", true),
        (b"a=", true),
        (b"a=\"x\"", false),
        (b"a=x\\\\", false),
    ] {
        assert!(rt; is_borrowed(rt.alloc(), text) == Ok(wanted));
    }
}

/// Texts, and whether they have the mark, and what follows it.
const MARKED: [(&str, bool, &str); 4] = [
    (":(optional):(optional)x", true, ":(optional)x"),
    (":(optional)", true, ""),
    ("/etc/gitconfig", false, "/etc/gitconfig"),
    (
        ":(optional)~/a/path/that/is/longer/than/the/smallest/blocks/of/memory/are",
        true,
        "~/a/path/that/is/longer/than/the/smallest/blocks/of/memory/are",
    ),
];

#[test]
fn a_path_is_made_in_each_way(rt: HostRuntime) -> Result<(), Fail> {
    let alloc = rt.alloc();
    for (text, is_optional, rest) in MARKED {
        let path = Path::from_text(alloc, text)?;
        let ways = [
            Path::from_cow(alloc, CowSlice::Borrowed(text.as_bytes()))?,
            Path::from_bstr(alloc, BStr::from(text))?,
            path.clone(alloc)?,
            path,
        ];
        for path in &ways {
            assert!(rt; path.is_optional == is_optional && path.as_bytes() == rest.as_bytes());
            assert!(rt; path.as_bstr() == BStr::from(rest));
        }
    }
    Ok(())
}

#[test]
fn values_are_json_texts(rt: HostRuntime) -> Result<(), Fail> {
    let alloc = rt.alloc();
    assert!(rt; Suffix::Mebi.to_json(alloc)?.as_str() == Some("m"));
    assert!(rt; Name::Rgb(255, 17, 187).to_json(alloc)?.as_str() == Some("#ff11bb"));
    let attributes = Attribute::BOLD | Attribute::UL;
    assert!(rt; attributes.to_json(alloc)?.as_str() == Some("bold ul"));
    Ok(())
}
