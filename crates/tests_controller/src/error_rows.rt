//! Synchronous errors, and the causes of a stop in a statement.
use crate::bench::{Row, all_hold};
use std::test::Fail;

static ROWS: [Row; 11] = [
    // without OB 121 cause 3, without OB 122 cause 4
    (
        "OPN DB10; L DBW100; T MW0 | DB 10 { 00 00",
        "step 3",
        "@3 MODE STOP 3 AT OB 1 LINE 2 | END 3 STOP 3 | DB 10 0000",
    ),
    (
        "L PB200",
        "step 2",
        "@2 MODE STOP 4 AT OB 1 LINE 1 | END 2 STOP 4",
    ),
    // the program goes on behind the statement
    (
        "OPN DB10; L DBW100; T QW4 | OB 121 20 0 { L #1; T QB9 | DB 10 { 00 00",
        "step 9",
        "@9 PQ 9 = 01 | END 9 RUN | DB 10 0000",
    ),
    // the error code is the start code
    (
        "L PB200; T QB0 | OB 122 20 0 { L LB1; T QB1",
        "step 8",
        "@8 PQ 1 = 42 | END 8 RUN",
    ),
    // OB 121 begins with copies of the registers, and at its end they are dropped
    (
        "L #5; L DBW0 | OB 121 20 0 { T QB0",
        "step 7",
        "@7 PQ 0 = 05 | END 7 RUN",
    ),
    (
        "L #5; L DBW0; T QB0 | OB 121 20 0 { L #9",
        "step 8",
        "@8 PQ 0 = 05 | END 8 RUN",
    ),
    // an error inside an error
    (
        "L PB200 | OB 122 20 0 { L PB200",
        "step 3",
        "@3 MODE STOP 5 AT OB 122 LINE 1 | END 3 STOP 5",
    ),
    // an interrupt of a higher class comes between
    (
        "L PB200 | OB 40 20 0 { L #4; T PB256 | OB 122 20 0 { L #1; T PB257",
        "step 2 | arrive 40 | step 5",
        "@5 PQ 256 = 04 | @8 PQ 257 = 01 | END 8 RUN",
    ),
    // 1,024 local bytes
    (
        "UC FC1 | FC 1 1000 0 { UC FC1",
        "step 3",
        "@3 MODE STOP 7 AT FC 1 LINE 1 | END 3 STOP 7",
    ),
    // in each activation by itself
    (
        "UC FC1 | OB 40 20 0 { UC FC1 | FC 1 600 0 { NOP #0; UC FC1",
        "step 2 | arrive 40 | step 3",
        "@6 MODE STOP 7 AT FC 1 LINE 2 | END 6 STOP 7",
    ),
    (
        "L #5; T PB256; CALL SFC46",
        "step 4",
        "@3 PQ 256 = 05 | @4 PQ 256 = 00 | @4 MODE STOP 1 AT OB 1 LINE 3 | END 4 STOP 1",
    ),
];

/// What OB 121 and OB 122 have of the activation in which the error came, and what they leave of it.
static ERRORS: [Row; 5] = [
    // no data block is open
    (
        "OPN DB10; L DBW100 | OB 121 20 0 { L DBW0 | DB 10 { 00 00",
        "step 4",
        "@4 MODE STOP 5 AT OB 121 LINE 1 | END 4 STOP 5 | DB 10 0000",
    ),
    // afterwards the one that was open is open again
    (
        "OPN DB10; L DBW100; L DBB0; T PB256 | OB 121 20 0 { OPN DB11 | DB 10 { 0A 00 | DB 11 { 0B 00",
        "step 7",
        "@7 PQ 256 = 0A | END 7 RUN | DB 10 0A00 | DB 11 0B00",
    ),
    // interrupts are delayed as often as there
    (
        "PASS 0 MW4, CALL SFC41; L PB200; PASS 0 MW4, CALL SFC42 | OB 40 20 0 { L #7; T PB256 | OB 122 20 0 { L #1; T PB257",
        "step 3 | arrive 40 | step 6",
        "@6 PQ 257 = 01 | @10 PQ 256 = 07 | END 10 RUN",
    ),
    // what EN_AIRT takes back in OB 122 is back at its end
    (
        "PASS 0 MW4, CALL SFC41; L PB200; L #1; T PB258 | OB 40 20 0 { L #7; T PB256 | OB 122 20 0 { PASS 0 MW4, CALL SFC42; L #2; T PB257",
        "step 3 | arrive 40 | step 7 | arrive 40 | step 2",
        "@7 PQ 256 = 07 | @10 PQ 257 = 02 | @14 PQ 258 = 01 | END 14 RUN",
    ),
    // and what DIS_AIRT adds is dropped
    (
        "L PB200; L #1; T PB258 | OB 40 20 0 { L #7; T PB256 | OB 122 20 0 { PASS 0 MW4, CALL SFC41",
        "step 4 | arrive 40 | step 2",
        "@7 PQ 256 = 07 | END 7 RUN",
    ),
];

#[test]
fn errors(rt: HostRuntime) -> Result<(), Fail> {
    all_hold(&rt, rt.alloc(), &ROWS)
}

#[test]
fn around_errors(rt: HostRuntime) -> Result<(), Fail> {
    all_hold(&rt, rt.alloc(), &ERRORS)
}
