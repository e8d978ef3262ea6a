//! Whole programs, statement by statement.
use crate::bench::{Row, all_hold};
use std::test::Fail;

/// 32767 + 1 is too high: OV, OS and CC 0/1, so JM is taken.
const TOO_HIGH: &str = "L #7FFF; L #1; +I; JM x; SET; x: NOP #0";
/// -32768 + -32768 is -65536: CC 0/0, so JZ is taken.
const TOO_LOW: &str = "L #8000; L #8000; +I; JZ x; SET; x: NOP #0";
/// 13 / 4 is 3, rest 1; then by 0.
const DIVIDED: &str = "L #D; L #4; /I; L #0; /I; JUO x; SET; x: NOP #0";
/// AND before OR.
const AND_OR: &str = "A M0.0; A M0.1; O-; A M0.2; A M0.3; = M1.0";
/// A check of an overflow after an addition, by EN and ENO as STEP 7 writes it.
const ADDED: &str =
    "A(; A I0.0; JNB e; L MW2; L #5; +I; T MW4; AN OV; SAVE; CLR; e: A BR; ); = Q4.0";

static STEPS: [Row; 23] = [
    (TOO_HIGH, "STEPS=1", "A1=7FFF"),
    (TOO_HIGH, "STEPS=2", "A1=1 A2=7FFF"),
    (TOO_HIGH, "STEPS=3", "A1=8000 A2=7FFF STW=70"),
    // two L of 6 bytes, +I of 2, JM of 7, SET of 2
    (TOO_HIGH, "STEPS=4", "A1=8000 A2=7FFF STW=70 AT=17"),
    (TOO_HIGH, "", "A1=8000 A2=7FFF STW=70"),
    (TOO_LOW, "STEPS=3", "A1=0 A2=8000 STW=30"),
    (TOO_LOW, "STEPS=4", "A1=0 A2=8000 STW=30 AT=17"),
    (DIVIDED, "STEPS=3", "A1=10003 A2=D STW=80"),
    (DIVIDED, "STEPS=5", "A1=0 A2=10003 STW=F0"),
    // L L 12, /I 14, L 20, /I 22, JUO 29, SET 31
    (DIVIDED, "STEPS=6", "A1=0 A2=10003 STW=F0 AT=1F"),
    (DIVIDED, "", "A1=0 A2=10003 STW=F0"),
    (AND_OR, "MB0=0E", "MB1=01 STW=6"),
    (AND_OR, "MB0=03", "MB1=01 STW=6"),
    (AND_OR, "MB0=0A MB1=FF", "MB1=FE STW=0"),
    (AND_OR, "MB0=05 MB1=01", "MB1=00 STW=0"),
    (ADDED, "MW2=7 IB0=01", "MW4=C QB4=01 A1=C A2=7 STW=186"),
    (
        ADDED,
        "MW2=7FFF IB0=01",
        "MW4=8004 QB4=00 A1=8004 A2=7FFF STW=70",
    ),
    (ADDED, "MW2=7 QB4=01", "MW4=0 QB4=00 STW=0"),
    // the sum of MB 10 to 13 by a pointer and LOOP
    (
        "LAR1 #50; L #0; T MW0; L #4; x: T MW2; L MB[AR1+0.0]; L MW0; +I; T MW0; +AR1 #8; L MW2; LOOP x; L MW0",
        "MD10=01020304",
        "MW0=A A1=A A2=0 AR1=70 STW=80",
    ),
    // a set-reset circuit, an edge and a counter
    (
        "A I0.0; FP M0.0; CU C1; A I0.0; FP M0.0; CU C1; L C1",
        "IB0=01",
        "A1=1 MB0=01 CV1=1 STW=0",
    ),
    (
        "A I0.0; S Q0.0; A I0.1; R Q0.0; A Q0.0; = Q0.1",
        "IB0=01",
        "QB0=03 STW=6",
    ),
    (
        "A I0.0; S Q0.0; A I0.1; R Q0.0; A Q0.0; = Q0.1",
        "IB0=03",
        "QB0=00 STW=0",
    ),
    // the image of JU x; x: T DB10.DBW 2
    (
        "JU x; x: T DB10.DBW2 | DB 10 { 00 00 00 00",
        "A1=1234",
        "DB10.DBD0=1234 DB=A",
    ),
];

#[test]
fn programs_step_by_step(rt: HostRuntime) -> Result<(), Fail> {
    all_hold(&rt, rt.alloc(), &STEPS)
}
