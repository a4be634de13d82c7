//! What a test compares, in calls. An assertion within a test is a way out of it, at which its proof lets go of all
//! that the test has; a call is one step.
use std::fmt::Debug;
use std::process::Abort;

/// Checks that what was found is what is wanted.
pub fn is<T: PartialEq + Debug>(rt: &impl Abort, found: &T, wanted: &T) {
    assert_eq!(rt; *found, *wanted);
}

/// Checks the same of things in a row.
pub fn are<T: PartialEq + Debug>(rt: &impl Abort, found: &[T], wanted: &[T]) {
    assert_eq!(rt; *found, *wanted);
}
