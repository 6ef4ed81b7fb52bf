use std::process::Abort;

/// Ends the test unless both are the same. A function of its own, since the proof of a test grows
/// with the square of what stands in it.
pub fn same<T: PartialEq + Drop>(rt: &impl Abort, found: T, wanted: T) {
    assert!(rt; found == wanted);
}
