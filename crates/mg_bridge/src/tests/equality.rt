use std::fmt::Debug;
use std::process::Abort;

/// Ends the test and prints both values, unless they are equal. A proof takes a second longer for each `assert_eq!`
/// that a test contains directly.
pub fn assert_equal<T: PartialEq + Debug + Drop>(rt: &impl Abort, found: T, wanted: T) {
    assert_eq!(rt; found, wanted);
}
