//! What tests compare.

use std::fmt::{Debug, Display};
use std::process::Abort;

/// Stops the test where what was found isn't what is wanted.
pub fn same<T: PartialEq + Debug + Drop>(rt: &impl Abort, found: T, wanted: T) {
    assert_eq!(rt; found, wanted);
}

/// The same of a row of a table.
pub fn same_at<T: PartialEq + Debug + Drop>(
    rt: &impl Abort,
    row: impl Display + Drop,
    found: T,
    wanted: T,
) {
    assert_eq!(rt; found, wanted, "at {row}");
}

/// Stops the test where this doesn't hold.
pub fn holds(rt: &impl Abort, fact: bool) {
    assert!(rt; fact);
}

/// The same of a row of a table.
pub fn holds_at(rt: &impl Abort, row: impl Display + Drop, fact: bool) {
    assert!(rt; fact, "at {row}");
}
