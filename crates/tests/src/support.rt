//! The assertion of a row, written once, since each use of an assertion with a message has its own proof.

use std::fmt::Debug;
use std::process::Abort;

/// Asserts that both values are equal. Otherwise the test ends, and shows both values and their row.
pub fn equal<T, R>(rt: &impl Abort, given: T, wanted: T, row: R)
where
    T: Copy + PartialEq + Debug,
    R: Copy + Debug,
{
    assert!(rt;
        given == wanted,
        "{row:?}: {given:?} in place of {wanted:?}"
    );
}
