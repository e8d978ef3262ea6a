//! Interrupts between statements, startup, and missing organization blocks.
use crate::bench::{Row, all_hold};
use std::test::Fail;

const TWO_INPUTS: &str = "A I0.0; AN I0.1; = Q4.0";
/// OB 10, 40, 41 and 47 tell their numbers.
const NESTED: &str =
    "NOP #0 | OB 10 20 0 { L #A; T PB256 | OB 40 20 0 { L #28; T PB256 | OB 41 20 0 { L #29; T PB256 | OB 47 20 0 { L #2F; T PB256";

static ROWS: [Row; 20] = [
    (TWO_INPUTS, "in 0 01 | step 6", "@7 PQ 4 = 01 | END 7 RUN"),
    (TWO_INPUTS, "in 0 01 | step 5", "END 6 RUN"),
    // the RLO comes back after OB 40
    (
        "A I0.0; = Q4.0 | OB 40 20 0 { A I0.1; = Q5.0",
        "in 0 01 | step 2 | arrive 40 | step 6",
        "@10 PQ 4 = 01 | END 10 RUN",
    ),
    // and so do the accumulators
    (
        "L #5; T QW12 | OB 40 20 0 { L #63; T QW10",
        "step 2 | arrive 40 | step 6",
        "@9 PQ 11 = 63 | @9 PQ 13 = 05 | END 9 RUN",
    ),
    // and the open data block
    (
        "OPN DB10; L DBB0; T PB256 | OB 40 20 0 { OPN DB11; L DBB0; T PB257 | DB 10 { 0A 00 | DB 11 { 0B 00",
        "step 2 | arrive 40 | step 6",
        "@6 PQ 257 = 0B | @9 PQ 256 = 0A | END 9 RUN | DB 10 0A00 | DB 11 0B00",
    ),
    // none is open in OB 40
    (
        "OPN DB10 | OB 40 20 0 { L DBW0 | DB 10 { 00 00",
        "step 2 | arrive 40 | step 1",
        "@4 MODE STOP 3 AT OB 40 LINE 1 | END 4 STOP 3 | DB 10 0000",
    ),
    // each class interrupts a lower one
    (
        NESTED,
        "step 1 | arrive 10 | arrive 40 | arrive 41 | arrive 47 | step 14",
        "@7 PQ 256 = 2F | @10 PQ 256 = 29 | @13 PQ 256 = 28 | @16 PQ 256 = 0A | END 19 RUN",
    ),
    // a lower one waits
    (
        NESTED,
        "step 1 | arrive 47 | arrive 10 | arrive 41 | step 9",
        "@6 PQ 256 = 2F | @9 PQ 256 = 29 | @12 PQ 256 = 0A | END 13 RUN",
    ),
    // and so does an equal one
    (
        "OB 10 20 0 { L #A; T PB256 | OB 11 20 0 { L #B; T PB256",
        "arrive 10 | arrive 11 | step 6",
        "@4 PQ 256 = 0A | @7 PQ 256 = 0B | END 8 RUN",
    ),
    // between DIS_AIRT and as many EN_AIRT none interrupts
    (
        "PASS 0 QW20, CALL SFC41; PASS 0 QW22, CALL SFC41; PASS 0 QW24, CALL SFC42; PASS 0 QW26, CALL SFC42 | OB 40 20 0 { L #7; T QB30",
        "step 3 | arrive 40 | step 7",
        "@11 PQ 21 = 01 | @11 PQ 23 = 02 | @11 PQ 25 = 01 | @11 PQ 30 = 07 | END 11 RUN",
    ),
    // start information: start code 01 of OB 1 in the first cycle, then 03
    (
        "L LB1; T PB256",
        "step 7",
        "@3 PQ 256 = 01 | @7 PQ 256 = 03 | END 7 RUN",
    ),
    // start code 41 of OB 40
    (
        "OB 40 20 0 { L LB1; T PB300",
        "arrive 40 | step 2",
        "@3 PQ 300 = 41 | END 3 RUN",
    ),
    // a block that isn't loaded: OB 85 is told which, or cause 8
    (
        "OB 85 20 0 { L LB7; T PB256",
        "arrive 40 | step 2",
        "@3 PQ 256 = 28 | END 3 RUN",
    ),
    (
        TWO_INPUTS,
        "in 0 01 | step 6 | arrive 40",
        "@7 PQ 4 = 01 | @8 PQ 4 = 00 | @8 MODE STOP 8 AT OB 1 LINE 1 | END 8 STOP 8",
    ),
    // one runs and eight wait, then the queue is full: cause 9, or OB 80 with start code 07
    (
        "OB 40 20 0 { SET",
        "arrive 40 | arrive 40 | arrive 40 | arrive 40 | arrive 40 | arrive 40 | arrive 40 | arrive 40 | arrive 40 | arrive 40",
        "@10 MODE STOP 9 AT OB 40 LINE 1 | END 10 STOP 9",
    ),
    (
        "OB 40 20 0 { SET | OB 80 20 0 { L LB1; T PB256",
        "arrive 40 | arrive 40 | arrive 40 | arrive 40 | arrive 40 | arrive 40 | arrive 40 | arrive 40 | arrive 40 | arrive 40 | step 2",
        "@12 PQ 256 = 07 | END 12 RUN",
    ),
    // startup
    (
        "NOP #0 | OB 100 20 0 { L #3; T QB0",
        "step 4",
        "@3 MODE RUN | @4 PQ 0 = 03 | END 4 RUN",
    ),
    (
        "OB 40 20 0 { L #4; T PB256 | OB 100 20 0 { NOP #0",
        "arrive 40 | step 4",
        "@3 MODE RUN | @5 PQ 256 = 04 | END 5 RUN",
    ),
    // data blocks at the end
    (
        "L #1234; T DB10.DBW0 | DB 3 { AA | DB 10 { 00 00 00",
        "step 3",
        "END 3 RUN | DB 3 AA | DB 10 123400",
    ),
    // in STOP nothing happens
    (
        "CALL SFC46 | OB 40 20 0 { NOP #0",
        "step 2 | arrive 40 | step 3 | tick 200",
        "@2 MODE STOP 1 AT OB 1 LINE 1 | END 7 STOP 1",
    ),
];

/// How often DIS_AIRT was called counts for one activation, and ends with it.
static DELAYS: [Row; 4] = [
    // in OB 40 it doesn't count for OB 1
    (
        "NOP #0; L #1; T PB256 | OB 40 20 0 { PASS 0 MW4, CALL SFC41 | OB 41 20 0 { L #29; T PB257",
        "step 1 | arrive 40 | step 2 | arrive 41 | step 2",
        "@7 PQ 257 = 29 | END 7 RUN",
    ),
    // nor in a cycle for the next one
    (
        "PASS 0 MW4, CALL SFC41 | OB 40 20 0 { L #7; T PB256",
        "step 4 | arrive 40 | step 2",
        "@7 PQ 256 = 07 | END 7 RUN",
    ),
    // what waits is started at the end
    (
        "PASS 0 MW4, CALL SFC41; NOP #0 | OB 40 20 0 { L #7; T PB256",
        "step 2 | arrive 40 | step 4",
        "@7 PQ 256 = 07 | END 7 RUN",
    ),
    // and so is OB 85
    (
        "PASS 0 MW4, CALL SFC41; L #1; T PB257 | OB 85 20 0 { L #55; T PB256",
        "step 2 | arrive 40 | step 5",
        "@5 PQ 257 = 01 | @8 PQ 256 = 55 | END 8 RUN",
    ),
];

/// In STARTUP: OB 80 and OB 85 have class 28 and interrupt OB 100, and all others wait for its end.
static STARTUP: [Row; 5] = [
    (
        "OB 85 20 0 { L LB2; T PB257 | OB 100 20 0 { L #1; T PB256",
        "arrive 40 | step 6",
        "@3 PQ 257 = 1C | @6 PQ 256 = 01 | @7 MODE RUN | END 7 RUN",
    ),
    // the second request of OB 10 finds the first waiting
    (
        "OB 10 20 0 { NOP #0 | OB 80 20 0 { L LB2; T PB257 | OB 100 20 0 { L #1; T PB256",
        "arrive 10 | arrive 10 | step 6",
        "@4 PQ 257 = 1C | @7 PQ 256 = 01 | @8 MODE RUN | END 8 RUN",
    ),
    // neither interrupts the other
    (
        "OB 10 20 0 { NOP #0 | OB 80 20 0 { L #50; T PB257 | OB 85 20 0 { L #55; T PB257 | OB 100 20 0 { L #1; T PB256",
        "arrive 40 | arrive 10 | arrive 10 | step 9",
        "@5 PQ 257 = 55 | @8 PQ 257 = 50 | @11 PQ 256 = 01 | @12 MODE RUN | END 12 RUN",
    ),
    // those that wait are started by their classes
    (
        "OB 10 20 0 { L #A; T PB257 | OB 47 20 0 { L #2F; T PB257 | OB 100 20 0 { L #1; T PB256",
        "arrive 10 | arrive 47 | step 8",
        "@4 PQ 256 = 01 | @5 MODE RUN | @7 PQ 257 = 2F | @10 PQ 257 = 0A | END 10 RUN",
    ),
    // a delay ends in STARTUP
    (
        "OB 20 20 0 { L #14; T PB257 | OB 100 20 0 { PASS 0 #14, PASS 1 #1, PASS 2 #0, PASS 3 MW4, CALL SFC32; L #1; T PB256",
        "step 1 | tick 1 | step 5",
        "@4 PQ 256 = 01 | @5 MODE RUN | @7 PQ 257 = 14 | END 7 RUN",
    ),
];

#[test]
fn interrupts_and_startup(rt: HostRuntime) -> Result<(), Fail> {
    all_hold(&rt, rt.alloc(), &ROWS)
}

#[test]
fn delays_of_interrupts(rt: HostRuntime) -> Result<(), Fail> {
    all_hold(&rt, rt.alloc(), &DELAYS)
}

#[test]
fn startup_classes(rt: HostRuntime) -> Result<(), Fail> {
    all_hold(&rt, rt.alloc(), &STARTUP)
}
