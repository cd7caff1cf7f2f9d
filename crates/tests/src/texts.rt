//! What `Display` writes of errors and of one value of each kind, since no contract says that it succeeds. The texts of
//! faults are in crates/gix_config_value_c/tests/calls.c.

use crate::support::equal;
use gix_config_value::canonical::UnknownKind;
use gix_config_value::color::{Attribute, Name};
use gix_config_value::integer::{Amount, Suffix};
use gix_config_value::json::JsonError;
use gix_config_value::path::interpolate::{Class, Error, Place};
use gix_config_value::program::RunError;
use gix_config_value::{Boolean, Color, Fault, Integer};
use std::alloc::AllocError;
use std::test::Fail;

const FAULTS: [Fault; 5] = [
    Fault::Boolean,
    Fault::Integer,
    Fault::Overflow,
    Fault::OutOfRange,
    Fault::Color,
];

macro_rules! ill_formed {
    ($place:ident) => {
        Error::IllFormed { place: Place::$place, input: b"\xff" }
    };
}

static PATH_ERRORS: [Error<'static>; 11] = [
    Error::PathMissing,
    Error::InstallDirMissing,
    Error::HomeMissing,
    Error::LookupMissing,
    Error::UserNotFound,
    ill_formed!(PastPrefix),
    ill_formed!(PastHome),
    ill_formed!(Username),
    ill_formed!(PastUser),
    ill_formed!(Whole),
    Error::Memory(AllocError),
];

#[test]
fn errors_have_texts(rt: HostRuntime) -> Result<(), Fail> {
    for fault in FAULTS {
        let shown = fault.to_string(rt.alloc())?;
        equal(&rt, shown.as_str(), fault.text(), "a fault");
    }
    for error in &PATH_ERRORS {
        let shown = error.to_string(rt.alloc())?;
        equal(&rt, shown.as_str(), error.text(), "a path");
    }
    assert!(rt; Error::Memory(AllocError).text() == "no memory");
    let (overflow, refused) = (JsonError::Overflow, JsonError::Memory(AllocError));
    let (read, write) = (RunError::Read, RunError::Write);
    let memory = RunError::Memory(AllocError);
    let shown = format!(in rt.alloc();
        "{overflow}; {refused}; {read}; {write}; {memory}; {UnknownKind}"
    )?;
    let wanted =
        "integer suffix multiplication overflows `i64`; no memory; cannot read; cannot write; \
        no memory; Kinds are suffix, integer, amount, boolean, name, attribute and color";
    equal(&rt, shown.as_str(), wanted, "errors of calls");
    Ok(())
}

#[test]
fn values_have_texts(rt: HostRuntime) -> Result<(), Fail> {
    let integer = Integer {
        value: 16,
        suffix: Some(Suffix::Kibi),
    };
    let (amount, boolean) = (Amount(-5), Boolean(true));
    let color = Color {
        foreground: Some(Name::Red),
        background: Some(Name::Blue),
        attributes: Attribute::BOLD,
    };
    let (name, attribute) = (Name::Rgb(255, 17, 187), Attribute::NO_UL);
    let shown = format!(in rt.alloc();
        "{} {integer} {amount} {boolean} {name} {attribute}; {color}",
        Suffix::Mebi
    )?;
    equal(
        &rt,
        shown.as_str(),
        "m 16k -5 true #ff11bb noul; red blue bold",
        "values",
    );
    Ok(())
}
