//! The master control relay: `MCRA`, `MCRD`, `MCR(`, `)MCR`, and what goes by it.
//!
//! In most rows RLO is 0 where the zone opens, so that the zone has the value 0.
use crate::bench::{Row, all_hold};
use std::test::Fail;

/// `MCRA` and `MCRD` leave the status word; `MCR(` and `)MCR` set OR 0, STA 1, /FC 0 and keep RLO.
static STATUS_WORDS: [Row; 7] = [
    ("MCRA", "STW=1FB A1=1 A2=2 AR1=3 AR2=4", ""),
    ("MCRD", "STW=1FB A1=1 A2=2 AR1=3 AR2=4", ""),
    (
        "MCR(; )MCR",
        "STW=1FB STEPS=1 A1=1 A2=2 AR1=3 AR2=4",
        "STW=1F6",
    ),
    ("MCR(; )MCR", "STW=1F9 STEPS=1", "STW=1F4"),
    ("MCRA; MCR(; )MCR", "STW=1F9 STEPS=2", "STW=1F4"),
    ("MCR(; TSTW; )MCR", "A1=1FB", "STW=1F6"),
    ("MCR(; TSTW; )MCR", "A1=1F9", "STW=1F4"),
];

#[test]
fn status_words_of_the_four(rt: HostRuntime) -> Result<(), Fail> {
    all_hold(&rt, rt.alloc(), &STATUS_WORDS)
}

/// While it is closed, `=` writes 0, also to STA; RLO stays.
static ASSIGNED: [Row; 14] = [
    (
        "MCRA; MCR(; SET; = M0.0; )MCR",
        "MB0=FF STEPS=4",
        "MB0=FE STW=2",
    ),
    (
        "MCRA; MCR(; CLR; = M0.0; )MCR",
        "MB0=FF STEPS=4",
        "MB0=FE STW=0",
    ),
    (
        "MCRA; MCR(; TSTW; = M0.0; )MCR",
        "A1=1FF MB0=FF STEPS=4",
        "MB0=FE STW=1F2",
    ),
    ("MCRA; MCR(; SET; = I0.7; )MCR", "IB0=FF", "IB0=7F STW=6"),
    ("MCRA; MCR(; SET; = Q4.0; )MCR", "QB4=FF", "QB4=FE STW=6"),
    ("MCRA; MCR(; SET; = L0.0; )MCR", "LB0=FF", "LB0=FE STW=6"),
    (
        "OPN DB10; MCRA; MCR(; SET; = DBX0.0; )MCR | DB 10 { FF",
        "",
        "DB10.DBB0=FE DB=A STW=6",
    ),
    (
        "MCRA; MCR(; SET; = DB10.DBX0.0; )MCR | DB 10 { FF",
        "",
        "DB10.DBB0=FE DB=A STW=6",
    ),
    (
        "OPN DI10; MCRA; MCR(; SET; = DIX0.0; )MCR | DB 10 { FF",
        "",
        "DB10.DBB0=FE DI=A STW=6",
    ),
    (
        "MCRA; MCR(; SET; = M[MD4]; )MCR",
        "MB0=FF MD4=1",
        "MB0=FD STW=6",
    ),
    (
        "MCRA; MCR(; SET; = X[AR1+0.2]; )MCR",
        "MB0=FF AR1=83000000",
        "MB0=FB STW=6",
    ),
    (
        "PASS 0 M0.0, CALL FC1 | FC 1 0 0 OX { MCRA; MCR(; SET; = @0X; )MCR",
        "MB0=FF",
        "MB0=FE STW=6",
    ),
    // with the value 1 it isn't closed
    ("SET; MCRA; MCR(; = M0.0; )MCR", "MB0=00", "MB0=01 STW=6"),
    (
        "SET; MCRA; MCR(; CLR; = M0.0; )MCR",
        "MB0=01 STEPS=5",
        "MB0=00 STW=0",
    ),
];

#[test]
fn assigned_while_closed(rt: HostRuntime) -> Result<(), Fail> {
    all_hold(&rt, rt.alloc(), &ASSIGNED)
}

/// While it is closed, S and R of a bit write nothing, and STA is the bit.
static SET_AND_RESET: [Row; 12] = [
    (
        "MCRA; MCR(; SET; S M0.0; )MCR",
        "MB0=FE STEPS=4",
        "MB0=FE STW=2",
    ),
    (
        "MCRA; MCR(; SET; S M0.0; )MCR",
        "MB0=01 STEPS=4",
        "MB0=01 STW=6",
    ),
    (
        "MCRA; MCR(; SET; R M0.0; )MCR",
        "MB0=01 STEPS=4",
        "MB0=01 STW=6",
    ),
    (
        "MCRA; MCR(; SET; R M0.0; )MCR",
        "MB0=FE STEPS=4",
        "MB0=FE STW=2",
    ),
    (
        "MCRA; MCR(; CLR; S M0.0; )MCR",
        "MB0=00 STEPS=4",
        "MB0=00 STW=0",
    ),
    (
        "MCRA; MCR(; TSTW; S M0.0; )MCR",
        "A1=1FF MB0=00 STEPS=4",
        "MB0=00 STW=1F2",
    ),
    (
        "MCRA; MCR(; SET; S M[MD4]; )MCR",
        "MB0=00 MD4=0",
        "MB0=00 STW=6",
    ),
    (
        "MCRA; MCR(; SET; R M[MD4]; )MCR",
        "MB0=01 MD4=0",
        "MB0=01 STW=6",
    ),
    (
        "PASS 0 M0.0, CALL FC1 | FC 1 0 0 NX { MCRA; MCR(; SET; R @0X; )MCR",
        "MB0=01",
        "MB0=01 STW=6",
    ),
    // with the value 1 it isn't closed
    ("SET; MCRA; MCR(; S M0.0; )MCR", "MB0=00", "MB0=01 STW=6"),
    ("SET; MCRA; MCR(; R M0.0; )MCR", "MB0=01", "MB0=00 STW=6"),
    (
        "SET; MCRA; MCR(; CLR; S M0.0; )MCR",
        "MB0=00",
        "MB0=00 STW=4",
    ),
];

#[test]
fn bits_kept_while_closed(rt: HostRuntime) -> Result<(), Fail> {
    all_hold(&rt, rt.alloc(), &SET_AND_RESET)
}

/// While it is closed, T of a byte, word or double word writes 0, and accumulator 1 stays.
static TRANSFERRED: [Row; 13] = [
    (
        "MCRA; MCR(; T MB0; )MCR",
        "A1=12345678 MD0=AAAAAAAA",
        "MD0=00AAAAAA STW=4",
    ),
    (
        "MCRA; MCR(; T MW0; )MCR",
        "A1=12345678 MD0=AAAAAAAA",
        "MD0=0000AAAA STW=4",
    ),
    (
        "MCRA; MCR(; T MD0; )MCR",
        "A1=12345678 MD0=AAAAAAAA",
        "MD0=0 STW=4",
    ),
    (
        "MCRA; MCR(; T MW[MD4]; )MCR",
        "A1=12345678 MD0=AAAAAAAA MD4=0",
        "MD0=0000AAAA STW=4",
    ),
    (
        "MCRA; MCR(; T D[AR1+0.0]; )MCR",
        "A1=12345678 MD0=AAAAAAAA AR1=83000000",
        "MD0=0 STW=4",
    ),
    (
        "MCRA; MCR(; T LW0; )MCR",
        "A1=1234 LB0=55 LB1=66",
        "LB0=0 LB1=0 STW=4",
    ),
    (
        "MCRA; MCR(; T DB10.DBW0; )MCR | DB 10 { 11 22 33",
        "A1=1234",
        "DB10.DBW0=0 DB10.DBB2=33 DB=A STW=4",
    ),
    // a peripheral output with its copy in Q
    (
        "T PB4; MCRA; MCR(; T PB4; )MCR",
        "A1=FF STEPS=1",
        "PQ4=FF QB4=FF",
    ),
    (
        "T PB4; MCRA; MCR(; T PB4; )MCR",
        "A1=FF",
        "PQ4=0 QB4=0 STW=4",
    ),
    // an OUT parameter of a function
    (
        "PASS 0 MW0, CALL FC1 | FC 1 0 0 OW { MCRA; MCR(; L #5; T @0W; )MCR",
        "MW0=9",
        "MW0=0 A1=5 STW=4",
    ),
    // the status word stays
    (
        "MCRA; MCR(; TSTW; T MB0; )MCR",
        "A1=1FB MB0=11 STEPS=4",
        "MB0=0 STW=1FB",
    ),
    // with the value 1 it isn't closed
    (
        "SET; MCRA; MCR(; T MW0; )MCR",
        "A1=12345678",
        "MW0=5678 STW=6",
    ),
    (
        "SET; MCRA; MCR(; CLR; T MW0; )MCR",
        "A1=12345678",
        "MW0=5678 STW=4",
    ),
];

#[test]
fn transferred_while_closed(rt: HostRuntime) -> Result<(), Fail> {
    all_hold(&rt, rt.alloc(), &TRANSFERRED)
}

/// What doesn't go by the relay, in a zone with the value 0.
static UNTOUCHED: [Row; 18] = [
    // T STW
    ("MCRA; MCR(; TSTW; )MCR", "A1=1FB STEPS=3", "STW=1FB"),
    // the bit of an edge
    (
        "MCRA; MCR(; SET; FP M0.0; )MCR",
        "MB0=00 STEPS=4",
        "MB0=01 STW=7",
    ),
    (
        "MCRA; MCR(; CLR; FN M0.0; )MCR",
        "MB0=01 STEPS=4",
        "MB0=00 STW=7",
    ),
    // timers and counters
    ("MCRA; MCR(; SET; SE T5; )MCR", "A1=5", "T5=1 TV5=5 STW=6"),
    (
        "SET; SE T5; MCRA; CLR; MCR(; SET; R T5; )MCR",
        "A1=5 STEPS=5",
        "T5=1 TV5=5 STW=4",
    ),
    (
        "SET; SE T5; MCRA; CLR; MCR(; SET; R T5; )MCR",
        "A1=5",
        "T5=0 TV5=0 STW=6",
    ),
    ("MCRA; MCR(; SET; S C5; )MCR", "A1=12", "C5=1 CV5=C STW=6"),
    (
        "SET; S C5; MCRA; CLR; MCR(; SET; R C5; )MCR",
        "A1=12 STEPS=5",
        "C5=1 CV5=C STW=4",
    ),
    (
        "SET; S C5; MCRA; CLR; MCR(; SET; R C5; )MCR",
        "A1=12",
        "C5=0 CV5=0 STW=6",
    ),
    ("MCRA; MCR(; SET; CU C5; )MCR", "", "C5=1 CV5=1 STW=6"),
    // address registers
    (
        "MCRA; MCR(; TAR1 MD0; )MCR",
        "AR1=12345678",
        "MD0=12345678 STW=4",
    ),
    (
        "MCRA; MCR(; TAR2 MD0; )MCR",
        "AR2=12345678",
        "MD0=12345678 STW=4",
    ),
    (
        "MCRA; MCR(; TAR1; )MCR",
        "AR1=12345678",
        "A1=12345678 STW=4",
    ),
    // what is read
    (
        "MCRA; MCR(; L MW0; A M0.1; )MCR",
        "MW0=0234",
        "A1=234 STW=6",
    ),
    // parameters of a function block: in and out of its instance, also where it leaves a zone open
    (
        "MCRA; MCR(; PASS 0 MW0, PASS 1 MW2, CALL FB1:5; )MCR | FB 1 0 4 IW@0.0 OW@2.0 { L DIW0; T DIW2 | DB 5 1 { 00 00 00 00",
        "MW0=9 MW2=7",
        "MW2=9 DB5.DBW0=9 DB5.DBW2=9 A1=9 STW=4",
    ),
    (
        "PASS 0 MW0, PASS 1 MW2, CALL FB1:5 | FB 1 0 4 IW@0.0 OW@2.0 { L DIW0; T DIW2; MCRA; MCR(; BEU; )MCR | DB 5 1 { 00 00 00 00",
        "MW0=9 MW2=7",
        "MW2=9 DB5.DBW0=9 DB5.DBW2=9 A1=9 STW=4",
    ),
    // RET_VAL of a system function
    (
        "MCRA; MCR(; PASS 0 MW4, CALL SFC41; )MCR",
        "GIVE=5 MW4=7",
        "MW4=5 SYS=29 RES=1 STW=4",
    ),
    // no data block is closed, and no jump is held up
    (
        "OPN DB10; MCRA; MCR(; SET; JC m; L #5; m: NOP #0; )MCR | DB 10 { 00",
        "",
        "DB=A A1=0 STW=6",
    ),
];

#[test]
fn untouched_while_closed(rt: HostRuntime) -> Result<(), Fail> {
    all_hold(&rt, rt.alloc(), &UNTOUCHED)
}

/// Which zones there are, and whether it is active.
static ZONES: [Row; 15] = [
    // behind the zone RLO is written again
    ("MCRA; MCR(; SET; )MCR; = M0.0", "MB0=00", "MB0=01 STW=6"),
    // a zone's value is RLO and the value of the zone around it
    (
        "MCRA; MCR(; SET; MCR(; SET; = M0.0; )MCR; = M0.1; )MCR; = M0.2",
        "MB0=03",
        "MB0=04 STW=6",
    ),
    (
        "SET; MCRA; MCR(; CLR; MCR(; SET; = M0.0; )MCR; = M0.1; )MCR; = M0.2",
        "MB0=01",
        "MB0=06 STW=6",
    ),
    (
        "SET; MCRA; MCR(; MCR(; = M0.0; )MCR; = M0.1; )MCR; = M0.2",
        "MB0=00",
        "MB0=07 STW=6",
    ),
    (
        "SET; MCRA; MCR(; CLR; MCR(; SET; MCR(; = M0.0; )MCR; = M0.1; )MCR; = M0.2; )MCR",
        "MB0=03",
        "MB0=04 STW=6",
    ),
    // eight zones; the value of the first is in all of them
    (
        "MCRA; MCR(; SET; MCR(; MCR(; MCR(; MCR(; MCR(; MCR(; MCR(; = M0.0; )MCR; )MCR; )MCR; )MCR; )MCR; )MCR; )MCR; = M0.1; )MCR; = M0.2",
        "MB0=03",
        "MB0=04 STW=6",
    ),
    (
        "SET; MCRA; MCR(; MCR(; MCR(; MCR(; MCR(; MCR(; MCR(; CLR; MCR(; SET; = M0.0; )MCR; = M0.1; )MCR; )MCR; )MCR; )MCR; )MCR; )MCR; )MCR",
        "MB0=01",
        "MB0=02 STW=6",
    ),
    // while it is inactive nothing is closed, but a zone's value is made
    ("MCR(; SET; = M0.0; )MCR", "MB0=00", "MB0=01 STW=6"),
    (
        "MCR(; SET; = M0.0; MCRA; = M0.1; )MCR",
        "MB0=02",
        "MB0=01 STW=6",
    ),
    (
        "MCR(; SET; MCRA; S M0.0; T MB1; )MCR",
        "A1=5 MW0=0007",
        "MW0=0000 STW=6",
    ),
    // `MCRD` leaves the zones, and `MCRA` too
    (
        "MCRA; MCR(; SET; = M0.0; MCRD; = M0.1; MCRA; = M0.2; )MCR",
        "MB0=05",
        "MB0=02 STW=6",
    ),
    (
        "MCRA; MCR(; SET; MCRA; MCRA; = M0.0; MCRD; MCRD; = M0.1; )MCR",
        "MB0=01",
        "MB0=02 STW=6",
    ),
    // zones and brackets are apart
    (
        "MCRA; MCR(; A(; O M0.0; MCR(; ); = M0.1; )MCR; = M0.2; )MCR; = M0.3",
        "MB0=07",
        "MB0=09 STW=6",
    ),
    // a jump within a zone leaves it
    (
        "MCRA; MCR(; SET; JU m; = M0.0; m: = M0.1; )MCR; = M0.2",
        "MB0=03",
        "MB0=05 STW=6",
    ),
    // a jump into another zone: the number of zones is the same, and their values are those of the relay
    (
        "MCRA; MCR(; SET; JU m; )MCR; SET; MCR(; m: = M0.0; )MCR; = M0.1",
        "MB0=01",
        "MB0=02 STW=6",
    ),
];

#[test]
fn zones(rt: HostRuntime) -> Result<(), Fail> {
    all_hold(&rt, rt.alloc(), &ZONES)
}

/// Each block has a relay of its own, inactive and without zones where it begins.
static BLOCKS: [Row; 7] = [
    (
        "MCRA; MCR(; UC FC1; SET; = M0.0; )MCR | FC 1 0 0 { SET; = M0.1; S M0.2; T MB1",
        "MB0=01 A1=5",
        "MB0=06 MB1=5 STW=6",
    ),
    (
        "MCRA; MCR(; CALL FB1:5; SET; = M0.0; )MCR | FB 1 0 0 { SET; = M0.1 | DB 5 1 {",
        "MB0=01",
        "MB0=02 DI=0 STW=6",
    ),
    (
        "MCRA; MCR(; PASS 0 MW0, CALL FC1; T MB2; )MCR | FC 1 0 0 OW { L #5; T @0W",
        "MW0=9 MB2=7",
        "MW0=5 MB2=0 A1=5 STW=4",
    ),
    // its zones and what `MCRA` made active end with it
    (
        "UC FC1; SET; = M0.0 | FC 1 0 0 { MCRA; MCR(; BEU; )MCR",
        "MB0=00",
        "MB0=01 STW=6",
    ),
    (
        "MCR(; UC FC1; SET; = M0.0; )MCR | FC 1 0 0 { MCRA; MCR(; BEU; )MCR",
        "MB0=00",
        "MB0=01 STW=6",
    ),
    // eight zones in each of three
    (
        "MCRA; MCR(; MCR(; MCR(; MCR(; MCR(; MCR(; MCR(; MCR(; UC FC1; SET; = M0.0; )MCR; )MCR; )MCR; )MCR; )MCR; )MCR; )MCR; )MCR; = M0.1 | FC 1 0 0 { MCR(; MCR(; MCR(; MCR(; MCR(; MCR(; MCR(; MCR(; UC FC2; )MCR; )MCR; )MCR; )MCR; )MCR; )MCR; )MCR; )MCR; = M0.2 | FC 2 0 0 { SET; MCRA; MCR(; MCR(; MCR(; MCR(; MCR(; MCR(; MCR(; MCR(; = M0.3; )MCR; )MCR; )MCR; )MCR; )MCR; )MCR; )MCR; )MCR",
        "MB0=01",
        "MB0=0E STW=6 ERRS=0",
    ),
    // the caller's goes on as it was
    (
        "MCRA; SET; MCR(; CLR; UC FC1; SET; = M0.0; MCR(; = M0.1; )MCR; )MCR | FC 1 0 0 { MCRA; MCR(; MCRD; )MCR",
        "MB0=00",
        "MB0=03 STW=6",
    ),
];

#[test]
fn relays_of_blocks(rt: HostRuntime) -> Result<(), Fail> {
    all_hold(&rt, rt.alloc(), &BLOCKS)
}

/// Errors come whatever the relay is: the place is sought and tested first, and nothing is written.
static ERRORS: [Row; 11] = [
    ("MCRA; MCR(; SET; = M256.0; )MCR", "STEPS=4", "ERR=23 STW=6"),
    ("MCRA; MCR(; SET; S M256.0; )MCR", "STEPS=4", "ERR=23 STW=6"),
    ("MCRA; MCR(; SET; R M256.0; )MCR", "STEPS=4", "ERR=23 STW=6"),
    ("MCRA; MCR(; T MB256; )MCR", "A1=7 STEPS=3", "ERR=23 STW=4"),
    (
        "MCRA; MCR(; T MW255; )MCR",
        "A1=7 MB255=99 STEPS=3",
        "ERR=23 MB255=99 STW=4",
    ),
    ("MCRA; MCR(; SET; = DBX0.0; )MCR", "STEPS=4", "ERR=32 STW=6"),
    ("MCRA; MCR(; SET; S DIX0.0; )MCR", "STEPS=4", "ERR=33 STW=6"),
    ("MCRA; MCR(; T DB10.DBB0; )MCR", "STEPS=3", "ERR=3A STW=4"),
    (
        "MCRA; MCR(; SET; = M[MD254]; )MCR",
        "STEPS=4",
        "ERR=22 STW=6",
    ),
    (
        "MCRA; MCR(; T MW[MD4]; )MCR",
        "MD4=1 STEPS=3",
        "ERR=29 STW=4",
    ),
    ("MCRA; MCR(; T PB128; )MCR", "STEPS=3", "ERR=43 STW=4"),
];

#[test]
fn errors_while_closed(rt: HostRuntime) -> Result<(), Fail> {
    all_hold(&rt, rt.alloc(), &ERRORS)
}

/// A program with a zone behind a condition.
static PROGRAM: [Row; 2] = [
    (
        "MCRA; A I0.0; MCR(; SET; = Q4.0; S Q4.1; )MCR; MCRD",
        "IB0=00",
        "QB4=0 STW=6",
    ),
    (
        "MCRA; A I0.0; MCR(; SET; = Q4.0; S Q4.1; )MCR; MCRD",
        "IB0=01",
        "QB4=3 STW=6",
    ),
];

#[test]
fn zone_behind_a_condition(rt: HostRuntime) -> Result<(), Fail> {
    all_hold(&rt, rt.alloc(), &PROGRAM)
}
