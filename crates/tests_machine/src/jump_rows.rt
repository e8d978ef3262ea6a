//! Jumps, LOOP, JL, and the ends of a block.
//!
//! A jump over `L #1` that is taken leaves accumulator 1 at 0.
use crate::bench::{Row, all_hold};
use std::test::Fail;

/// Jumps by RLO, BR, OV and OS, and what they leave of the status word.
static BY_BITS: [Row; 18] = [
    ("JU x; L #1; x: NOP #0", "STW=1FF", "A1=0"),
    ("JC x; L #1; x: NOP #0", "STW=B", "A1=0 STW=6"),
    ("JC x; L #1; x: NOP #0", "STW=19", "A1=1 STW=16"),
    ("JCN x; L #1; x: NOP #0", "STW=9", "A1=0 STW=6"),
    ("JCN x; L #1; x: NOP #0", "STW=B", "A1=1 STW=6"),
    // JCB and JNB copy the RLO to BR first
    ("JCB x; L #1; x: NOP #0", "STW=B", "A1=0 STW=106"),
    ("JCB x; L #1; x: NOP #0", "STW=109", "A1=1 STW=6"),
    ("JNB x; L #1; x: NOP #0", "STW=109", "A1=0 STW=6"),
    ("JNB x; L #1; x: NOP #0", "STW=3", "A1=1 STW=106"),
    // JBI and JNBI keep the RLO
    ("JBI x; L #1; x: NOP #0", "STW=10B", "A1=0 STW=106"),
    ("JBI x; L #1; x: NOP #0", "STW=9", "A1=1 STW=4"),
    ("JNBI x; L #1; x: NOP #0", "STW=B", "A1=0 STW=6"),
    ("JNBI x; L #1; x: NOP #0", "STW=109", "A1=1 STW=104"),
    ("JO x; L #1; x: NOP #0", "STW=29", "A1=0"),
    ("JO x; L #1; x: NOP #0", "STW=1DF", "A1=1"),
    // JOS resets OS
    ("JOS x; L #1; x: NOP #0", "STW=19", "A1=0 STW=9"),
    ("JOS x; L #1; x: NOP #0", "STW=1EF", "A1=1"),
    // backwards
    (
        "JU y; x: L #1; JU z; y: L #2; JU x; z: NOP #0",
        "",
        "A1=1 A2=2",
    ),
];

#[test]
fn jumps_by_bits(rt: HostRuntime) -> Result<(), Fail> {
    all_hold(&rt, rt.alloc(), &BY_BITS)
}

/// Jumps by the condition codes 0/0, 0/1 (40), 1/0 (80) and 1/1 (C0); the status word stays.
static BY_CODES: [Row; 25] = [
    ("JZ x; L #1; x: NOP #0", "STW=13F", "A1=0"),
    ("JZ x; L #1; x: NOP #0", "STW=40", "A1=1"),
    ("JZ x; L #1; x: NOP #0", "STW=80", "A1=1"),
    ("JZ x; L #1; x: NOP #0", "STW=C0", "A1=1"),
    ("JN x; L #1; x: NOP #0", "STW=0", "A1=1"),
    ("JN x; L #1; x: NOP #0", "STW=40", "A1=0"),
    ("JN x; L #1; x: NOP #0", "STW=80", "A1=0"),
    ("JN x; L #1; x: NOP #0", "STW=C0", "A1=1"),
    ("JP x; L #1; x: NOP #0", "STW=0", "A1=1"),
    ("JP x; L #1; x: NOP #0", "STW=40", "A1=1"),
    ("JP x; L #1; x: NOP #0", "STW=80", "A1=0"),
    ("JP x; L #1; x: NOP #0", "STW=C0", "A1=1"),
    ("JM x; L #1; x: NOP #0", "STW=40", "A1=0"),
    ("JM x; L #1; x: NOP #0", "STW=80", "A1=1"),
    ("JM x; L #1; x: NOP #0", "STW=C0", "A1=1"),
    ("JPZ x; L #1; x: NOP #0", "STW=0", "A1=0"),
    ("JPZ x; L #1; x: NOP #0", "STW=40", "A1=1"),
    ("JPZ x; L #1; x: NOP #0", "STW=80", "A1=0"),
    ("JPZ x; L #1; x: NOP #0", "STW=C0", "A1=1"),
    ("JMZ x; L #1; x: NOP #0", "STW=0", "A1=0"),
    ("JMZ x; L #1; x: NOP #0", "STW=40", "A1=0"),
    ("JMZ x; L #1; x: NOP #0", "STW=80", "A1=1"),
    ("JMZ x; L #1; x: NOP #0", "STW=C0", "A1=1"),
    ("JUO x; L #1; x: NOP #0", "STW=80", "A1=1"),
    ("JUO x; L #1; x: NOP #0", "STW=C0", "A1=0"),
];

#[test]
fn jumps_by_codes(rt: HostRuntime) -> Result<(), Fail> {
    all_hold(&rt, rt.alloc(), &BY_CODES)
}

/// LOOP counts ACCU 1-L down, modulo 65,536, and jumps where it isn't 0.
static LOOPS: [Row; 6] = [
    ("LOOP x; L #1; x: NOP #0", "A1=2 STW=1FF", "A1=1"),
    ("LOOP x; L #9; x: NOP #0", "A1=1", "A1=9 A2=0"),
    ("LOOP x; L #9; x: NOP #0", "A1=AAAA0000", "A1=AAAAFFFF"),
    ("LOOP x; L #9; x: NOP #0", "A1=AAAA0001", "A1=9 A2=AAAA0000"),
    // a counter without sign
    ("LOOP x; L #9; x: NOP #0", "A1=9000", "A1=8FFF"),
    (
        "L #3; x: T MW0; L MW2; + #1; T MW2; L MW0; LOOP x",
        "",
        "MW0=1 MW2=3 A1=0 A2=3",
    ),
];

#[test]
fn loops(rt: HostRuntime) -> Result<(), Fail> {
    all_hold(&rt, rt.alloc(), &LOOPS)
}

/// JL by ACCU 1-L-L within its list, at its end, and past it; a JL has 7 bytes, and so has each JU.
static LISTS: [Row; 11] = [
    (
        "JL z; JU a; JU b; z: L #9; JU e; a: L #A; JU e; b: L #B; e: NOP #0",
        "A1=0",
        "A1=A",
    ),
    (
        "JL z; JU a; JU b; z: L #9; JU e; a: L #A; JU e; b: L #B; e: NOP #0",
        "A1=1",
        "A1=B A2=1",
    ),
    (
        "JL z; JU a; JU b; z: L #9; JU e; a: L #A; JU e; b: L #B; e: NOP #0",
        "A1=2",
        "A1=9 A2=2",
    ),
    (
        "JL z; JU a; JU b; z: L #9; JU e; a: L #A; JU e; b: L #B; e: NOP #0",
        "A1=FF",
        "A1=9 A2=FF",
    ),
    (
        "JL z; JU a; JU b; z: L #9; JU e; a: L #A; JU e; b: L #B; e: NOP #0",
        "A1=AAAAAA01",
        "A1=B A2=AAAAAA01",
    ),
    (
        "JL z; JU a; JU b; z: L #9; JU e; a: L #A; JU e; b: L #B; e: NOP #0",
        "A1=3",
        "A1=9 A2=3",
    ),
    (
        "JL z; JU a; JU b; z: L #9; a: L #A; b: L #B",
        "A1=4 STEPS=1",
        "AT=15",
    ),
    // that JU is a statement of its own
    (
        "JL z; JU a; JU b; z: L #9; a: L #A; b: L #B",
        "A1=0 STW=1FF STEPS=1",
        "AT=7",
    ),
    (
        "JL z; JU a; JU b; z: L #9; a: L #A; b: L #B",
        "A1=1 STEPS=1",
        "AT=E",
    ),
    (
        "JL z; JU a; JU b; z: L #9; a: L #A; b: L #B",
        "A1=2 STEPS=1",
        "AT=15",
    ),
    // an empty list
    ("JL z; z: L #9", "A1=0", "A1=9"),
];

#[test]
fn jumps_by_a_list(rt: HostRuntime) -> Result<(), Fail> {
    all_hold(&rt, rt.alloc(), &LISTS)
}

/// BE, BEU, BEC in OB 1 and in a block that was called.
static ENDS: [Row; 10] = [
    ("BE; L #1", "STW=1FB", "END=1 A1=0 STW=1E6"),
    ("BEU; L #1", "STW=1FB", "END=1 A1=0 STW=1E6"),
    ("BEC; L #1", "STW=1B", "END=1 A1=0 STW=6"),
    // with RLO 0 the block goes on: RLO 1, OR 0, STA 1, /FC 0, and OS stays
    ("BEC; L #1", "STW=119", "A1=1 STW=116"),
    ("UC FC1; L #2 | FC 1 0 0 { BE; L #1", "", "A1=2 A2=0 STW=4"),
    ("UC FC1; L #2 | FC 1 0 0 { BEU; L #1", "", "A1=2 A2=0 STW=4"),
    (
        "UC FC1; L #2 | FC 1 0 0 { BEC; L #1",
        "STW=2",
        "A1=2 A2=0 STW=6",
    ),
    ("UC FC1; L #2 | FC 1 0 0 { BEC; L #1", "", "A1=2 A2=1 STW=6"),
    // registers and BR pass through the return
    (
        "UC FC1 | FC 1 0 0 { SET; SAVE; L #5; LAR1; LAR2 #7",
        "A1=3",
        "A1=5 A2=3 AR1=5 AR2=7 STW=106",
    ),
    (
        "UC FC1; L #2 | FC 1 0 0 { JU x; L #1; x: NOP #0",
        "",
        "A1=2 A2=0 STW=4",
    ),
];

#[test]
fn ends_of_blocks(rt: HostRuntime) -> Result<(), Fail> {
    all_hold(&rt, rt.alloc(), &ENDS)
}
