//! Passing time: timers, delays, periods and the cycle time.
use crate::bench::{Row, all_hold};
use std::test::Fail;

/// S5T#50S is 16#1500.
const LONG_TIMER: &str = "OB 100 20 0 { SET; L #1500; SD T1; A T1; = Q4.0";
/// S5T#50MS is 16#0005.
const SHORT_TIMER: &str = "A I0.0; L #5; SD T1; A T1; = Q4.0";
/// OB 20 in 50 ms.
const DELAYED: &str =
    "PASS 0 #14, PASS 1 #32, PASS 2 #0, PASS 3 MW4, CALL SFC32 | OB 20 20 0 { L #7; T PB256";

static ROWS: [Row; 12] = [
    (
        LONG_TIMER,
        "step 3 | tick 50000 | step 4",
        "@7 MODE RUN | @8 PQ 4 = 01 | END 8 RUN",
    ),
    (
        LONG_TIMER,
        "step 3 | tick 49999 | step 4",
        "@7 MODE RUN | END 8 RUN",
    ),
    (
        SHORT_TIMER,
        "in 0 01 | step 7 | tick 50 | step 8",
        "@17 PQ 4 = 01 | END 17 RUN",
    ),
    (
        SHORT_TIMER,
        "in 0 01 | step 7 | tick 49 | step 8",
        "END 17 RUN",
    ),
    // the cycle time is 150 ms: cause 9, with OB 80 twice cause 10
    (
        "DB 1 { 00",
        "tick 150 | tick 1",
        "@2 MODE STOP 9 AT NONE | END 2 STOP 9 | DB 1 00",
    ),
    (
        "OB 80 20 0 { NOP #0",
        "tick 151 | tick 151",
        "@2 MODE STOP 10 AT OB 80 LINE 1 | END 2 STOP 10",
    ),
    // a period that ends while its block is pending
    (
        "OB 38 20 0 { NOP #0",
        "tick 60000",
        "@1 MODE STOP 9 AT NONE | END 1 STOP 9",
    ),
    (
        "OB 38 20 0 { NOP #0 | OB 80 20 0 { NOP #0",
        "tick 60000",
        "@1 MODE STOP 10 AT NONE | END 1 STOP 10",
    ),
    (
        "OB 38 20 0 { NOP #0 | OB 80 20 0 { L LB1; T PB256",
        "tick 20 | step 2",
        "@3 PQ 256 = 02 | END 3 RUN",
    ),
    (
        "NOP #0 | OB 35 20 0 { L #1; T PB256",
        "step 1 | tick 100 | step 2",
        "@4 PQ 256 = 01 | END 4 RUN",
    ),
    (
        DELAYED,
        "step 2 | tick 50 | step 2",
        "@5 PQ 256 = 07 | END 5 RUN",
    ),
    (
        DELAYED,
        "step 2 | tick 49 | step 2 | tick 1 | step 2",
        "@8 PQ 256 = 07 | END 8 RUN",
    ),
];

#[test]
fn ticks(rt: HostRuntime) -> Result<(), Fail> {
    all_hold(&rt, rt.alloc(), &ROWS)
}
