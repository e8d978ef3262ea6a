//! Counted calls, some of which are to fail.
use crate::compare::same;
use arrayvec::ArrayVec;
use plc_io::{Calls, IoFault};

/// The calls that are to fail: the one of this number alone.
pub(crate) fn only(number: u64) -> ArrayVec<u64, 16> {
    let mut calls = ArrayVec::new();
    calls.push(number);
    calls
}

#[test]
fn calls_are_counted(rt: HostRuntime) {
    let mut calls = Calls::new();
    calls.failing = only(2);
    // whether a call is to fail, whether it does, and how many were made and failed then
    for (chosen, fails, made, failed) in [
        (false, false, 1, 0),
        (true, true, 2, 1),
        // one that wasn't chosen
        (false, true, 3, 2),
        (false, false, 4, 2),
    ] {
        same(&rt, ("call", made), calls.is_next_to_fail(), chosen);
        if fails {
            same(&rt, ("call", made), calls.fail(), IoFault::Failed);
        } else {
            calls.pass();
        }
        same(
            &rt,
            ("call", made),
            (calls.made, calls.failed),
            (made, failed),
        );
    }
}

#[test]
fn counts_end(rt: HostRuntime) {
    let mut calls = Calls::new();
    calls.failing = only(u64::MAX);
    same(&rt, "at the start", calls.is_next_to_fail(), false);
    calls.made = u64::MAX;
    same(&rt, "at the end", calls.is_next_to_fail(), true);
    same(&rt, "the call", calls.fail(), IoFault::Failed);
    let counts = (calls.made, calls.failed);
    same(&rt, "the counts", counts, (u64::MAX, 1));
}
