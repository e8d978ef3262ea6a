use std::fmt::Debug;
use std::process::Abort;

/// Compares a result with the value worked out by hand; `what` names it where they differ.
pub(crate) fn same<T: PartialEq + Debug + Drop>(
    rt: &impl Abort,
    what: impl Debug + Drop,
    got: T,
    want: T,
) {
    assert_eq!(rt; got, want, "{what:?}");
}
