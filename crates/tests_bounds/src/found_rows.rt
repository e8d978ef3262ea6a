//! What is found of programs.
use crate::bench::{Row, all_found};
use plc_base::Profile;
use std::test::Fail;

/// Programs whose chains fit in both profiles, and such whose don't in either.
static BOTH: [Row; 16] = [
    ("NOP #0", "OB 1 DEPTH 1 BYTES 20"),
    (
        "CALL FC1 | FC 1 4 0 { NOP #0",
        "OB 1 DEPTH 2 BYTES 24 | FC 1 DEPTH 1 BYTES 4",
    ),
    (
        "UC FC1 | FC 1 4 0 { NOP #0",
        "OB 1 DEPTH 2 BYTES 24 | FC 1 DEPTH 1 BYTES 4",
    ),
    (
        "CC FC1 | FC 1 4 0 { NOP #0",
        "OB 1 DEPTH 2 BYTES 24 | FC 1 DEPTH 1 BYTES 4",
    ),
    (
        "CALL FB1:5 | FB 1 6 0 { NOP #0 | DB 5 1 { ",
        "OB 1 DEPTH 2 BYTES 26 | FB 1 DEPTH 1 BYTES 6",
    ),
    // a system function is no block
    ("PASS 0 MW20, CALL SFC41", "OB 1 DEPTH 1 BYTES 20"),
    // a block that nobody calls has no bound, nor what it calls
    (
        "UC FC1 | FC 1 4 0 { NOP #0 | FC 2 4 0 { UC FC3 | FC 3 4 0 { NOP #0",
        "OB 1 DEPTH 2 BYTES 24 | FC 1 DEPTH 1 BYTES 4",
    ),
    // neither has a block that nobody calls and that calls itself
    (
        "UC FC1 | FC 1 4 0 { NOP #0 | FC 2 4 0 { UC FC2",
        "OB 1 DEPTH 2 BYTES 24 | FC 1 DEPTH 1 BYTES 4",
    ),
    // the deepest and the heaviest chain may be two
    (
        "UC FC1; UC FC3 | FC 1 2 0 { UC FC2 | FC 2 2 0 { NOP #0 | FC 3 100 0 { NOP #0",
        "OB 1 DEPTH 3 BYTES 120 | FC 1 DEPTH 2 BYTES 4 | FC 2 DEPTH 1 BYTES 2 | FC 3 DEPTH 1 BYTES 100",
    ),
    // a block that two call counts in both
    (
        "UC FC1; UC FC2 | FC 1 2 0 { UC FC3 | FC 2 4 0 { UC FC3 | FC 3 8 0 { NOP #0",
        "OB 1 DEPTH 3 BYTES 32 | FC 1 DEPTH 2 BYTES 10 | FC 2 DEPTH 2 BYTES 12 | FC 3 DEPTH 1 BYTES 8",
    ),
    // each organization block has its own chains
    (
        "NOP #0 | OB 35 20 0 { UC FC1 | FC 1 4 0 { NOP #0",
        "OB 1 DEPTH 1 BYTES 20 | OB 35 DEPTH 2 BYTES 24 | FC 1 DEPTH 1 BYTES 4",
    ),
    // 1,024 local bytes fit, and one more doesn't
    (
        "UC FC1 | FC 1 1004 0 { NOP #0",
        "OB 1 DEPTH 2 BYTES 1024 | FC 1 DEPTH 1 BYTES 1004",
    ),
    ("UC FC1 | FC 1 1005 0 { NOP #0", "chain: OB 1, FC 1"),
    // a block that calls itself: it has local bytes, or none
    ("UC FC1 | FC 1 600 0 { UC FC1", "chain: OB 1, FC 1, FC 1"),
    // three blocks in a circle
    (
        "UC FC1 | FC 1 200 0 { UC FC2 | FC 2 300 0 { UC FC3 | FC 3 400 0 { UC FC1",
        "chain: OB 1, FC 1, FC 2, FC 3, FC 1",
    ),
    // the second organization block is too deep
    (
        "NOP #0 | OB 35 20 0 { UC FC1 | FC 1 600 0 { UC FC1",
        "chain: OB 35, FC 1, FC 1",
    ),
];

/// 16 frames.
static SMALL: [Row; 3] = [
    (
        "UC FC1 | FC 1 0 0 { UC FC2 | FC 2 0 0 { UC FC3 | FC 3 0 0 { UC FC4 | FC 4 0 0 { UC FC5 | FC 5 0 0 { UC FC6 | FC 6 0 0 { UC FC7 | FC 7 0 0 { UC FC8 | FC 8 0 0 { UC FC9 | FC 9 0 0 { UC FC10 | FC 10 0 0 { UC FC11 | FC 11 0 0 { UC FC12 | FC 12 0 0 { UC FC13 | FC 13 0 0 { UC FC14 | FC 14 0 0 { UC FC15 | FC 15 0 0 { NOP #0",
        "OB 1 DEPTH 16 BYTES 20 | FC 1 DEPTH 15 BYTES 0 | FC 2 DEPTH 14 BYTES 0 | FC 3 DEPTH 13 BYTES 0 | FC 4 DEPTH 12 BYTES 0 | FC 5 DEPTH 11 BYTES 0 | FC 6 DEPTH 10 BYTES 0 | FC 7 DEPTH 9 BYTES 0 | FC 8 DEPTH 8 BYTES 0 | FC 9 DEPTH 7 BYTES 0 | FC 10 DEPTH 6 BYTES 0 | FC 11 DEPTH 5 BYTES 0 | FC 12 DEPTH 4 BYTES 0 | FC 13 DEPTH 3 BYTES 0 | FC 14 DEPTH 2 BYTES 0 | FC 15 DEPTH 1 BYTES 0",
    ),
    (
        "UC FC1 | FC 1 0 0 { UC FC2 | FC 2 0 0 { UC FC3 | FC 3 0 0 { UC FC4 | FC 4 0 0 { UC FC5 | FC 5 0 0 { UC FC6 | FC 6 0 0 { UC FC7 | FC 7 0 0 { UC FC8 | FC 8 0 0 { UC FC9 | FC 9 0 0 { UC FC10 | FC 10 0 0 { UC FC11 | FC 11 0 0 { UC FC12 | FC 12 0 0 { UC FC13 | FC 13 0 0 { UC FC14 | FC 14 0 0 { UC FC15 | FC 15 0 0 { UC FC16 | FC 16 0 0 { NOP #0",
        "chain: OB 1, FC 1, FC 2, FC 3, FC 4, FC 5, FC 6, FC 7, FC 8, FC 9, FC 10, FC 11, FC 12, FC 13, FC 14, FC 15, FC 16",
    ),
    (
        "UC FC1 | FC 1 0 0 { UC FC1",
        "chain: OB 1, FC 1, FC 1, FC 1, FC 1, FC 1, FC 1, FC 1, FC 1, FC 1, FC 1, FC 1, FC 1, FC 1, FC 1, FC 1, FC 1",
    ),
];

/// 24 frames.
static LARGE: [Row; 2] = [
    (
        "UC FC1 | FC 1 0 0 { UC FC2 | FC 2 0 0 { UC FC3 | FC 3 0 0 { UC FC4 | FC 4 0 0 { UC FC5 | FC 5 0 0 { UC FC6 | FC 6 0 0 { UC FC7 | FC 7 0 0 { UC FC8 | FC 8 0 0 { UC FC9 | FC 9 0 0 { UC FC10 | FC 10 0 0 { UC FC11 | FC 11 0 0 { UC FC12 | FC 12 0 0 { UC FC13 | FC 13 0 0 { UC FC14 | FC 14 0 0 { UC FC15 | FC 15 0 0 { UC FC16 | FC 16 0 0 { UC FC17 | FC 17 0 0 { UC FC18 | FC 18 0 0 { UC FC19 | FC 19 0 0 { UC FC20 | FC 20 0 0 { UC FC21 | FC 21 0 0 { UC FC22 | FC 22 0 0 { UC FC23 | FC 23 0 0 { NOP #0",
        "OB 1 DEPTH 24 BYTES 20 | FC 1 DEPTH 23 BYTES 0 | FC 2 DEPTH 22 BYTES 0 | FC 3 DEPTH 21 BYTES 0 | FC 4 DEPTH 20 BYTES 0 | FC 5 DEPTH 19 BYTES 0 | FC 6 DEPTH 18 BYTES 0 | FC 7 DEPTH 17 BYTES 0 | FC 8 DEPTH 16 BYTES 0 | FC 9 DEPTH 15 BYTES 0 | FC 10 DEPTH 14 BYTES 0 | FC 11 DEPTH 13 BYTES 0 | FC 12 DEPTH 12 BYTES 0 | FC 13 DEPTH 11 BYTES 0 | FC 14 DEPTH 10 BYTES 0 | FC 15 DEPTH 9 BYTES 0 | FC 16 DEPTH 8 BYTES 0 | FC 17 DEPTH 7 BYTES 0 | FC 18 DEPTH 6 BYTES 0 | FC 19 DEPTH 5 BYTES 0 | FC 20 DEPTH 4 BYTES 0 | FC 21 DEPTH 3 BYTES 0 | FC 22 DEPTH 2 BYTES 0 | FC 23 DEPTH 1 BYTES 0",
    ),
    (
        "UC FC1 | FC 1 0 0 { UC FC1",
        "chain: OB 1, FC 1, FC 1, FC 1, FC 1, FC 1, FC 1, FC 1, FC 1, FC 1, FC 1, FC 1, FC 1, FC 1, FC 1, FC 1, FC 1, FC 1, FC 1, FC 1, FC 1, FC 1, FC 1, FC 1, FC 1",
    ),
];

#[test]
fn found_in_both_profiles(rt: HostRuntime) -> Result<(), Fail> {
    all_found(&rt, rt.alloc(), Profile::Small, &BOTH)?;
    all_found(&rt, rt.alloc(), Profile::Large, &BOTH)
}

#[test]
fn found_in_16_frames(rt: HostRuntime) -> Result<(), Fail> {
    all_found(&rt, rt.alloc(), Profile::Small, &SMALL)
}

#[test]
fn found_in_24_frames(rt: HostRuntime) -> Result<(), Fail> {
    all_found(&rt, rt.alloc(), Profile::Large, &LARGE)
}
