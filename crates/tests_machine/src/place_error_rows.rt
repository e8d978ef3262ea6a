//! Synchronous errors of BCD (21), timers and counters (26, 27), open blocks (32, 33, 3A), and of a CALL.
use crate::bench::{Row, all_hold};
use std::test::Fail;

/// 21: a digit above 9, or a sign digit other than 0 and 15. Nothing changes, edges included.
static BCD: [Row; 11] = [
    ("BTI", "A1=AAAA00A0 STW=1FF", "ERR=21"),
    ("BTI", "A1=1123", "ERR=21"),
    ("BTI", "A1=E123", "ERR=21"),
    ("BTD", "A1=F000000A", "ERR=21"),
    ("BTD", "A1=10000000", "ERR=21"),
    (
        "SET; SE T5; L #5; SE T5",
        "A1=000A",
        "ERR=21 ERRS=1 T5=1 TV5=5 A1=5 A2=A STW=6",
    ),
    ("SET; SF T5; CLR; SF T5", "A1=0A00", "ERR=21 T5=1 STW=0"),
    (
        "SET; S C5; L #5; S C5",
        "A1=000A",
        "ERR=21 ERRS=1 CV5=5 A1=5 A2=A STW=6",
    ),
    ("SE T5", "A1=000A STW=B", "ERR=21"),
    ("SP T[MW0]", "A1=000A MW0=5 STW=B", "ERR=21 T5=0"),
    ("S C5", "A1=0A00 STW=B", "ERR=21 CV5=0"),
];

#[test]
fn digits(rt: HostRuntime) -> Result<(), Fail> {
    all_hold(&rt, rt.alloc(), &BCD)
}

/// 26 and 27: T 128 and C 64 are beyond the range, in reading and in writing, before BCD; in the large profile T 256
/// and C 256 are.
static NUMBERS: [Row; 34] = [
    ("A T128", "STW=9", "ERR=26"),
    ("L T128", "A1=7", "ERR=26"),
    ("LC T128", "A1=7", "ERR=26"),
    ("SP T128", "STW=B A1=000A", "ERR=26"),
    ("SE T128", "STW=9", "ERR=26"),
    ("R T128", "STW=B", "ERR=26"),
    ("R T65535", "STW=9", "ERR=26"),
    ("FR T128", "STW=9", "ERR=26"),
    ("A T[MW0]", "MW0=80 STW=9", "ERR=26"),
    ("L T[MW0]", "MW0=FFFF A1=7", "ERR=26"),
    ("SF T[MW0]", "MW0=80 STW=B", "ERR=26"),
    ("R T[MW0]", "MW0=80 STW=B", "ERR=26"),
    ("A C64", "STW=9", "ERR=27"),
    ("L C64", "A1=7", "ERR=27"),
    ("LC C64", "A1=7", "ERR=27"),
    ("CU C64", "STW=B", "ERR=27"),
    ("CD C64", "STW=9", "ERR=27"),
    ("S C64", "STW=B A1=000A", "ERR=27"),
    ("R C64", "STW=9", "ERR=27"),
    ("FR C64", "STW=B", "ERR=27"),
    ("O C[MW0]", "MW0=40 STW=9", "ERR=27"),
    ("LC C[MW0]", "MW0=40 A1=7", "ERR=27"),
    ("CU C[MW0]", "MW0=40 STW=B", "ERR=27"),
    ("S C[MW0]", "MW0=40 STW=B", "ERR=27"),
    (
        "SET; SE T128; L T128",
        "A1=1 LARGE=1",
        "T128=1 A1=1 A2=1 STW=6",
    ),
    (
        "SET; SE T255; L T255",
        "A1=1 LARGE=1",
        "T255=1 A1=1 A2=1 STW=6",
    ),
    ("L T256", "A1=7 LARGE=1", "ERR=26"),
    ("SE T256", "A1=1 STW=B LARGE=1", "ERR=26"),
    ("R T[MW0]", "MW0=100 STW=B LARGE=1", "ERR=26"),
    ("SET; S C64; L C64", "A1=5 LARGE=1", "A1=5 A2=5 STW=6"),
    ("SET; S C255; L C255", "A1=5 LARGE=1", "A1=5 A2=5 STW=6"),
    ("L C256", "A1=7 LARGE=1", "ERR=27"),
    ("S C256", "A1=000A STW=B LARGE=1", "ERR=27"),
    ("CU C[MW0]", "MW0=100 STW=B LARGE=1", "ERR=27"),
];

#[test]
fn numbers_of_timers_and_counters(rt: HostRuntime) -> Result<(), Fail> {
    all_hold(&rt, rt.alloc(), &NUMBERS)
}

/// 32 and 33: no block is open in DB, in DI; by reading, by writing, and for the pointer's own place.
static NOT_OPEN: [Row; 22] = [
    ("L DBW0; L #5", "A1=7", "ERR=32 ERRS=1 A1=5 A2=7"),
    ("T DBW0", "A1=7", "ERR=32"),
    ("A DBX0.0", "STW=9", "ERR=32"),
    ("= DBX0.0", "STW=B", "ERR=32"),
    ("S DBX0.0", "STW=9", "ERR=32"),
    ("FP DBX0.0", "STW=9", "ERR=32"),
    ("L MW[DBD0]", "", "ERR=32"),
    ("T MW[DBD0]", "", "ERR=32"),
    ("L DBW[MD0]", "", "ERR=32"),
    ("T W[AR1+0.0]", "AR1=84000000", "ERR=32"),
    ("LAR1 DBD0", "AR1=7", "ERR=32"),
    ("OPN DI10; L DBW0 | DB 10 { 00 00", "", "ERR=32 DI=A"),
    ("L DIW0", "A1=7", "ERR=33"),
    ("T DIW0", "A1=7", "ERR=33"),
    ("A DIX0.0", "STW=9", "ERR=33"),
    ("R DIX0.0", "STW=B", "ERR=33"),
    ("L MW[DID0]", "", "ERR=33"),
    ("T DIW[AR1+0.0]", "", "ERR=33"),
    ("L W[AR1+0.0]", "AR1=85000000", "ERR=33"),
    (
        "OPN DB10; T DIW0 | DB 10 { 00 00",
        "A1=7",
        "ERR=33 DB=A DB10.DBW0=0",
    ),
    // the block of the pointer's own place comes before that of the operand
    ("L DBW[DID0]", "A1=7", "ERR=33"),
    ("T DIW[DBD0]", "A1=7", "ERR=32"),
];

#[test]
fn blocks_that_are_not_open(rt: HostRuntime) -> Result<(), Fail> {
    all_hold(&rt, rt.alloc(), &NOT_OPEN)
}

/// 3A: a block that isn't loaded; what was open stays open.
static NOT_LOADED: [Row; 10] = [
    (
        "OPN DB10; OPN DB99; L DBB0 | DB 10 { 55",
        "",
        "ERR=3A ERRS=1 DB=A A1=55",
    ),
    ("OPN DI10; OPN DI99 | DB 10 { 55", "", "ERR=3A DI=A"),
    ("OPN DB[MW0]", "MW0=63", "ERR=3A DB=0"),
    ("OPN DI[MW0]", "MW0=0", "ERR=3A DI=0"),
    ("OPN DB0", "", "ERR=3A DB=0"),
    ("L DB99.DBW0", "A1=7 STW=1FF", "ERR=3A DB=0"),
    (
        "OPN DB10; T DB99.DBW0 | DB 10 { 00 00",
        "A1=7",
        "ERR=3A DB=A DB10.DBW0=0",
    ),
    // the block comes before all else of the statement
    ("L DB99.DBW65535", "", "ERR=3A"),
    (
        "OPN DB10; A DB99.DBX0.0 | DB 10 { 55",
        "STW=9",
        "ERR=3A DB=A",
    ),
    // the pointer's own place comes before the number
    ("OPN DB[DBW0]", "", "ERR=32"),
];

#[test]
fn blocks_that_are_not_loaded(rt: HostRuntime) -> Result<(), Fail> {
    all_hold(&rt, rt.alloc(), &NOT_LOADED)
}

/// A CALL whose parameter can't be bound is one error: the first by the order of the parameters. Nothing
/// is called, copied or set.
static CALLS: [Row; 19] = [
    (
        "PASS 0 MW255, CALL FC1; L #5 | FC 1 0 0 IW { L #6",
        "STW=1FB A1=7",
        "ERR=22 ERRS=1 DEPTH=1 A1=5 A2=7",
    ),
    (
        "PASS 0 MW255, CALL FC1 | FC 1 0 0 OW { L #6",
        "STW=1FB",
        "ERR=23 DEPTH=1",
    ),
    (
        "PASS 0 MW255, CALL FC1 | FC 1 0 0 NW { L #6",
        "STW=1FB",
        "ERR=22 DEPTH=1",
    ),
    ("PASS 0 PW127, CALL FC1 | FC 1 0 0 IW { L #6", "", "ERR=42"),
    ("PASS 0 PW127, CALL FC1 | FC 1 0 0 OW { L #6", "", "ERR=43"),
    ("PASS 0 PW127, CALL FC1 | FC 1 0 0 NW { L #6", "", "ERR=42"),
    ("PASS 0 DBW0, CALL FC1 | FC 1 0 0 IW { L #6", "", "ERR=32"),
    ("PASS 0 DIW0, CALL FC1 | FC 1 0 0 OW { L #6", "", "ERR=33"),
    (
        "PASS 0 DB99.DBW0, CALL FC1 | FC 1 0 0 OW { L #6",
        "",
        "ERR=3A",
    ),
    (
        "PASS 0 DB10.DBW1, CALL FC1 | FC 1 0 0 OW { L #6 | DB 10 { 00 00",
        "",
        "ERR=23 DB=0",
    ),
    (
        "PASS 0 MW0, PASS 1 MW255, PASS 2 DBW0, CALL FC1 | FC 1 0 0 IW OW IW { L #6",
        "",
        "ERR=23",
    ),
    (
        "PASS 0 MW0, PASS 1 DBW0, PASS 2 MW255, CALL FC1 | FC 1 0 0 IW OW IW { L #6",
        "",
        "ERR=32",
    ),
    // nothing was copied into the instance, and DI isn't set
    (
        "PASS 0 MW0, PASS 1 MW255, CALL FB1:5 | FB 1 0 4 IW@0.0 OW@2.0 { L #6 | DB 5 1 { 00 07 00 00",
        "MW0=9 STW=1FB",
        "ERR=23 DB5.DBW0=7 DI=0 DEPTH=1",
    ),
    (
        "PASS 0 MW0, PASS 1 PW127, CALL FB1:5 | FB 1 0 4 IW@0.0 NW@2.0 { L #6 | DB 5 1 { 00 07 00 00",
        "MW0=9",
        "ERR=42 DB5.DBW0=7",
    ),
    (
        "PASS 0 MW255, CALL SFC41; L #5",
        "STW=1FB GIVE=1",
        "ERR=23 SYS=0 A1=5",
    ),
    (
        "PASS 0 MW255, PASS 1 MW0, CALL SFC33",
        "GIVE=1 MW0=7",
        "ERR=22 SYS=0 MW0=7",
    ),
    ("PASS 0 DBW0, CALL SFC41", "GIVE=1", "ERR=32 SYS=0"),
    // the bindings of the call before are gone
    (
        "PASS 0 MW0, PASS 1 MW255, CALL FC1; PASS 0 MW2, PASS 1 MW4, CALL FC1 | FC 1 0 0 IW OW { L @0W; T @1W",
        "MW0=1 MW2=2",
        "ERR=23 ERRS=1 MW4=2 A1=2 STW=4",
    ),
    // an error in a called block leaves its frame
    (
        "UC FC1; L #1 | FC 1 0 0 { L MW255; L #2",
        "",
        "ERR=22 ERRS=1 A1=1 A2=2 STW=4",
    ),
];

#[test]
fn calls_that_fail(rt: HostRuntime) -> Result<(), Fail> {
    all_hold(&rt, rt.alloc(), &CALLS)
}
