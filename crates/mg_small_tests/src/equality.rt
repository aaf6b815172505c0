use std::fmt::Debug;
use std::process::Abort;

/// Ends the test and prints both values, unless they are equal. The prover takes a second longer for each `assert_eq!`
/// that a test contains itself, and several seconds for each type whose values a module compares.
pub fn assert_equal<T: PartialEq + Debug + Drop>(rt: &impl Abort, found: T, wanted: T) {
    assert_eq!(rt; found, wanted);
}

/// If the case has a wrong step, ends the test and prints the case's name and the number of the first wrong step.
pub fn assert_right(rt: &impl Abort, name: &str, wrong: Option<usize>) {
    assert_equal(rt, (name, wrong), (name, None));
}
