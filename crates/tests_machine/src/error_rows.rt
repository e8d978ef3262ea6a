//! Synchronous errors of places: absent (22, 23, 42, 43), areas (24, 25), pointers that aren't aligned (28, 29).
//!
//! The statement does nothing but go to the next one: what a row doesn't name is as before.
use crate::bench::{Row, all_hold};
use std::test::Fail;

/// 22: a place that is read is absent, in part too.
static ABSENT_READING: [Row; 30] = [
    ("L MB256; L #5", "A1=7 STW=1FF", "ERR=22 ERRS=1 A1=5 A2=7"),
    ("L MW255", "A1=7 A2=8 STW=1FF", "ERR=22"),
    ("L MD253", "A1=7 A2=8", "ERR=22"),
    ("L IB128", "", "ERR=22"),
    ("L QW127", "", "ERR=22"),
    ("A M256.0", "STW=9", "ERR=22"),
    ("AN I128.0; = M0.0", "STW=2", "ERR=22 ERRS=1 MB0=01 STW=6"),
    ("L LB[MD0]", "MD0=A0", "ERR=22"),
    ("L LW[MD0]", "MD0=98", "ERR=22"),
    ("OPN DI10; L DIB4 | DB 10 { 00 00 00 00", "", "ERR=22 DI=A"),
    // the block that the statement opened is not open afterwards
    ("L DB10.DBB4 | DB 10 { 00 00 00 00", "", "ERR=22 DB=0"),
    (
        "OPN DB11; L DB10.DBW3; L DBB0 | DB 10 { 00 00 00 00 | DB 11 { 55",
        "",
        "ERR=22 ERRS=1 DB=B A1=55",
    ),
    (
        "OPN DB10; A DBX4.0 | DB 10 { 00 00 00 00",
        "STW=9",
        "ERR=22 DB=A",
    ),
    ("LAR1 MD254", "AR1=7", "ERR=22"),
    // the pointer's own place, also of what is written
    ("L MW[MD254]", "A1=7", "ERR=22"),
    ("T MW[MD254]", "A1=7", "ERR=22"),
    ("= M[MD254]", "STW=B", "ERR=22"),
    ("L MW[LD18]", "", "ERR=22"),
    ("A T[MW255]", "STW=9", "ERR=22"),
    ("CU C[MW255]", "STW=B", "ERR=22"),
    ("OPN DB[MW255]", "", "ERR=22 DB=0"),
    (
        "OPN DB10; L MW[DBD2] | DB 10 { 00 00 00 00",
        "",
        "ERR=22 DB=A",
    ),
    ("L W[AR1+0.0]", "AR1=830007F8", "ERR=22"),
    ("L B[AR1+0.0]", "AR1=860000A0", "ERR=22"),
    // in the large profile MB 2047 is the last byte
    ("L MB256", "LARGE=1 MB256=5", "A1=5"),
    ("L MD2044", "LARGE=1 MD2044=5", "A1=5"),
    ("L MB2048", "LARGE=1 A1=7", "ERR=22"),
    ("L MW2047", "LARGE=1 A1=7", "ERR=22"),
    ("A M2048.0", "LARGE=1 STW=9", "ERR=22"),
    ("L W[AR1+0.0]", "LARGE=1 AR1=83003FF8", "ERR=22"),
];

#[test]
fn places_that_are_read(rt: HostRuntime) -> Result<(), Fail> {
    all_hold(&rt, rt.alloc(), &ABSENT_READING)
}

/// 23: a place that is written is absent; for =, S, R, FP, FN whatever RLO is. No part of it is written.
static ABSENT_WRITING: [Row; 26] = [
    ("T MB256; L #5", "A1=7", "ERR=23 ERRS=1 A1=5 A2=7"),
    ("T MW255", "A1=1234 MB255=99", "ERR=23 MB255=99"),
    (
        "T MD253",
        "A1=12345678 MB253=99 MB255=88",
        "ERR=23 MB253=99 MB255=88",
    ),
    ("T QW127", "A1=1234 QB127=99", "ERR=23 QB127=99"),
    ("T IB128", "", "ERR=23"),
    ("= M256.0", "STW=1FB", "ERR=23"),
    ("= M256.0", "STW=9", "ERR=23"),
    ("S M256.0", "STW=B", "ERR=23"),
    ("S M256.0", "STW=9", "ERR=23"),
    ("R M256.0", "STW=9", "ERR=23"),
    ("FP M256.0", "STW=B", "ERR=23"),
    ("FN M256.0", "STW=9", "ERR=23"),
    ("T LW[MD0]", "A1=1234 MD0=98 LB19=77", "ERR=23 LB19=77"),
    ("T DB10.DBB4 | DB 10 { 00 00 00 00", "A1=7", "ERR=23 DB=0"),
    (
        "T DB10.DBW3 | DB 10 { 00 00 00 99",
        "A1=1234",
        "ERR=23 DB=0 DB10.DBB3=99",
    ),
    (
        "S DB10.DBX4.0 | DB 10 { 00 00 00 00",
        "STW=B",
        "ERR=23 DB=0",
    ),
    (
        "OPN DI10; T DID1 | DB 10 { 11 22 33 44",
        "A1=0",
        "ERR=23 DI=A DB10.DBD0=11223344",
    ),
    ("TAR1 MD254", "AR1=7 MB254=99", "ERR=23 MB254=99"),
    (
        "T W[AR1+0.0]",
        "AR1=830007F8 A1=1234 MB255=99",
        "ERR=23 MB255=99",
    ),
    ("R X[AR1+0.0]", "AR1=83000800 STW=9", "ERR=23"),
    ("T MB[AR2+0.0]", "AR2=800", "ERR=23"),
    ("= Q[MD0]", "MD0=400 STW=B", "ERR=23"),
    ("T MW2046", "LARGE=1 A1=1234", "MB2047=34"),
    ("T MB2048", "LARGE=1 A1=7", "ERR=23"),
    ("T MW2047", "LARGE=1 A1=1234 MB2047=99", "ERR=23 MB2047=99"),
    ("S M2048.0", "LARGE=1 STW=B", "ERR=23"),
];

#[test]
fn places_that_are_written(rt: HostRuntime) -> Result<(), Fail> {
    all_hold(&rt, rt.alloc(), &ABSENT_WRITING)
}

/// 42 and 43: the same in the peripheral area, bytes 0 to 127 and 256 to 767.
static PERIPHERALS: [Row; 12] = [
    ("L PB128", "A1=7", "ERR=42"),
    ("L PW127", "", "ERR=42"),
    ("L PB255", "", "ERR=42"),
    ("L PD766", "", "ERR=42"),
    ("L B[AR1+0.0]", "AR1=80000400", "ERR=42"),
    ("LAR1 PD126", "AR1=7", "ERR=42"),
    ("T PB128", "A1=7", "ERR=43"),
    ("T PW127", "A1=1234 QB127=99", "ERR=43 PQ127=0 QB127=99"),
    ("T PW255", "A1=1234", "ERR=43 PQ256=0"),
    ("T PB768", "A1=7", "ERR=43"),
    (
        "T W[AR1+0.0]",
        "AR1=800003F8 A1=1234 QB127=99",
        "ERR=43 PQ127=0 QB127=99",
    ),
    ("TAR2 PD766", "AR2=7", "ERR=43 PQ766=0"),
];

#[test]
fn peripheral_places(rt: HostRuntime) -> Result<(), Fail> {
    all_hold(&rt, rt.alloc(), &PERIPHERALS)
}

/// 24 and 25: no area, area 7, a bit in the peripheral area.
static AREAS: [Row; 11] = [
    ("L W[AR1+0.0]", "AR1=03000050 A1=7", "ERR=24"),
    ("L W[AR1+0.0]", "AR1=87000050", "ERR=24"),
    ("A X[AR1+0.0]", "AR1=0 STW=9", "ERR=24"),
    ("A X[AR1+0.0]", "AR1=80000000 STW=9", "ERR=24"),
    ("A X[AR1+0.0]", "AR1=87000000 STW=9", "ERR=24"),
    ("T W[AR2+0.0]", "AR2=03000050 A1=7", "ERR=25"),
    ("T W[AR2+0.0]", "AR2=87000050 A1=7", "ERR=25"),
    ("= X[AR1+0.0]", "AR1=80000000 STW=B", "ERR=25 PQ0=0"),
    ("S X[AR1+0.0]", "AR1=80000000 STW=9", "ERR=25"),
    ("FP X[AR1+0.0]", "AR1=80000000 STW=9", "ERR=25"),
    // the area comes before the place
    ("A X[AR1+0.0]", "AR1=80000400", "ERR=24"),
];

#[test]
fn areas_of_pointers(rt: HostRuntime) -> Result<(), Fail> {
    all_hold(&rt, rt.alloc(), &AREAS)
}

/// Errors of areas by the address of a peripheral bit, whether the byte exists or not.
static PERIPHERAL_BITS: [Row; 10] = [
    ("A P0.0", "STW=9 PB0=01", "ERR=24"),
    ("XN P256.7", "STW=B", "ERR=24"),
    ("A P128.0", "STW=9", "ERR=24"),
    ("= P0.0", "STW=B", "ERR=25 PQ0=0 QB0=0"),
    ("S P0.0", "STW=9", "ERR=25"),
    ("R P0.0", "STW=B QB0=01", "ERR=25 QB0=01"),
    ("FP P0.0", "STW=B", "ERR=25 PQ0=0"),
    ("FN P128.0", "STW=9", "ERR=25"),
    (
        "PASS 0 P0.0, CALL FC1 | FC 1 0 0 IX { NOP #0",
        "STW=9",
        "ERR=24",
    ),
    (
        "PASS 0 P0.0, CALL FC1 | FC 1 0 0 OX { NOP #0",
        "STW=9",
        "ERR=25",
    ),
];

#[test]
fn bits_of_the_peripheral_area(rt: HostRuntime) -> Result<(), Fail> {
    all_hold(&rt, rt.alloc(), &PERIPHERAL_BITS)
}

/// 28 and 29: a byte, word or double word at a bit other than 0; before area, open block and place.
static ALIGNMENTS: [Row; 17] = [
    ("L MB[MD0]", "MD0=1 A1=7", "ERR=28"),
    ("L MW[MD0]", "MD0=54", "ERR=28"),
    ("L MD[AR1+0.0]", "AR1=57", "ERR=28"),
    ("L MW[AR1+0.1]", "AR1=50", "ERR=28"),
    ("L W[AR1+0.1]", "AR1=83000050", "ERR=28"),
    ("L W[AR1+0.1]", "AR1=0", "ERR=28"),
    ("L B[AR1+0.1]", "AR1=80000000", "ERR=28"),
    ("L DBW[MD0]", "MD0=1", "ERR=28 DB=0"),
    ("L DIW[AR1+0.1]", "", "ERR=28"),
    ("L MW[MD0]", "MD0=7FFF9", "ERR=28"),
    ("T MB[MD0]", "MD0=1 A1=7", "ERR=29 MB0=0"),
    ("T QW[AR1+0.1]", "AR1=50 A1=7", "ERR=29 QW10=0"),
    ("T W[AR1+0.7]", "AR1=83000050 A1=7", "ERR=29 MW10=0"),
    ("T D[AR1+0.1]", "AR1=7000000", "ERR=29"),
    ("T DBW[MD0]", "MD0=1", "ERR=29"),
    // two bits that make up a byte
    ("L MB[AR1+0.7]", "AR1=1 MB1=9", "A1=9"),
    ("A M[AR1+0.1]", "AR1=50 MB10=02", "STW=7"),
];

#[test]
fn alignments_of_pointers(rt: HostRuntime) -> Result<(), Fail> {
    all_hold(&rt, rt.alloc(), &ALIGNMENTS)
}
