use std::fmt::Debug;
use std::process::Abort;

/// Ends the test and prints both values, unless they are equal. The prover takes a second longer for each `assert_eq!`
/// in the body of a test.
pub fn assert_equal<T: PartialEq + Debug + Drop>(rt: &impl Abort, found: T, wanted: T) {
    assert_eq!(rt; found, wanted);
}
