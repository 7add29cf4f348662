//! How a test fails: the macros of `pfs_tests_cases` call this.

use std::fmt::Debug;
use std::process::Abort;

/// The value of an expression, whose text is `what`, is the one that is wanted; `at` shows the row.
pub fn same<R: Abort, T: PartialEq + Debug, D: Debug>(
    rt: &R,
    what: &str,
    told: &T,
    wanted: &T,
    at: &D,
) {
    assert_eq!(*rt; *told, *wanted, "{what} at {at:?}");
}
