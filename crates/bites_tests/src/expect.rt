//! Comparisons, which are proved once for all tests.

use std::fmt::Debug;
use std::process::Abort;

/// Fails unless both values are equal. `at` says of which row they are.
pub fn expect_equal<T: PartialEq + Debug>(rt: &impl Abort, found: &T, wanted: &T, at: &str) {
    assert_eq!(rt; found, wanted, "{at}");
}
