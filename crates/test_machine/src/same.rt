//! What each test says.
use std::fmt::Debug;
use std::process::Abort;

/// Fails where two values differ, and tells both. It is a function, since an `assert_eq!` is proved again wherever it stands.
pub fn same<T: PartialEq + Debug>(rt: &impl Abort, ours: &T, wanted: &T) {
    assert_eq!(*rt; *ours, *wanted);
}

/// The same of one row of a table, and tells what is tried there too.
pub fn same_for<R: Debug, T: PartialEq + Debug>(rt: &impl Abort, tried: &R, ours: &T, wanted: &T) {
    assert_eq!(*rt; *ours, *wanted, "{tried:?}");
}
