//! Calls of system functions, their results, and the causes 6 and 7 of STOP.
use crate::bench::{Row, all_hold};
use std::test::Fail;

/// Inputs by their order, and where RET_VAL goes; the four bits are set as at each call.
static CALLS: [Row; 24] = [
    (
        "PASS 0 MW20, CALL SFC41",
        "STW=1FB GIVE=1",
        "SYS=29 INS=0 RES=1 MW20=1 STW=1E6",
    ),
    (
        "PASS 0 MW20, CALL SFC42",
        "GIVE=8080 MW18=AAAA MW22=BBBB",
        "SYS=2A INS=0 RES=1 MW18=AAAA MW20=8080 MW22=BBBB STW=4",
    ),
    (
        "PASS 0 #14, PASS 1 #1F4, PASS 2 #FFFF, PASS 3 MW4, CALL SFC32",
        "GIVE=8090",
        "SYS=20 INS=3 IN0=14 IN1=1F4 IN2=FFFF RES=1 MW4=8090 STW=4",
    ),
    (
        "PASS 0 MW0, PASS 1 MD4, PASS 2 MW8, PASS 3 MW10, CALL SFC32",
        "MW0=15 MD4=FFFFFFFF MW8=7 GIVE=1",
        "SYS=20 INS=3 IN0=15 IN1=FFFFFFFF IN2=7 MW10=1 STW=4",
    ),
    (
        "PASS 0 MW0, PASS 1 MW0, CALL SFC33",
        "MW0=14 GIVE=80A0",
        "SYS=21 INS=1 IN0=14 RES=1 MW0=80A0 STW=4",
    ),
    (
        "PASS 0 #2, PASS 1 #28, PASS 2 MW0, CALL SFC39",
        "GIVE=0 MW0=9",
        "SYS=27 INS=2 IN0=2 IN1=28 RES=1 MW0=0 STW=4",
    ),
    (
        "PASS 0 MB2, PASS 1 MW4, PASS 2 MW0, CALL SFC40",
        "MB2=81 MW4=9 GIVE=8091",
        "SYS=28 INS=2 IN0=81 IN1=9 MW0=8091 STW=4",
    ),
    ("CALL SFC43", "STW=1FB", "SYS=2B INS=0 RES=0 STW=1E6"),
    ("CALL SFC46", "", "SYS=2E INS=0 RES=0 STW=4"),
    (
        "PASS 0 MD4, CALL SFC64",
        "GIVE=7FFFFFFF",
        "SYS=40 INS=0 RES=1 MD4=7FFFFFFF STW=4",
    ),
    // without a result the place stays
    (
        "PASS 0 MW20, CALL SFC41",
        "MW20=77",
        "SYS=29 RES=1 MW20=77 STW=4",
    ),
    (
        "PASS 0 LW4, CALL SFC41",
        "GIVE=1234",
        "SYS=29 LB3=0 LB4=12 LB5=34 LB6=0 STW=4",
    ),
    (
        "PASS 0 DB10.DBW0, CALL SFC41 | DB 10 { 00 00 77 77",
        "GIVE=1234",
        "SYS=29 DB10.DBD0=12347777 STW=4",
    ),
    (
        "OPN DB10; PASS 0 DBW2, CALL SFC41 | DB 10 { 00 00 00 00",
        "GIVE=1234",
        "SYS=29 DB10.DBW2=1234 DB=A STW=4",
    ),
    (
        "OPN DI10; PASS 0 DIW2, CALL SFC41 | DB 10 { 00 00 00 00",
        "GIVE=1234",
        "SYS=29 DB10.DBW2=1234 DI=A STW=4",
    ),
    (
        "PASS 0 QW4, CALL SFC41",
        "GIVE=1234",
        "SYS=29 QW4=1234 PQ4=0 STW=4",
    ),
    (
        "PASS 0 PW4, CALL SFC41",
        "GIVE=1234",
        "SYS=29 QW4=1234 PQ4=12 PQ5=34 STW=4",
    ),
    // a parameter of the calling function, and its own local bytes
    (
        "PASS 0 MW0, CALL FC1 | FC 1 0 0 OW { PASS 0 @0W, CALL SFC41",
        "GIVE=1234",
        "SYS=29 MW0=1234 STW=4",
    ),
    (
        "PASS 0 LW0, CALL FC1 | FC 1 2 0 OW { PASS 0 @0W, CALL SFC41",
        "GIVE=1234",
        "SYS=29 LB0=12 LB1=34 STW=4",
    ),
    (
        "UC FC1 | FC 1 2 0 { PASS 0 LW0, CALL SFC41; L LW0; T MW0",
        "GIVE=1234",
        "SYS=29 MW0=1234 A1=1234 LB0=0 STW=4",
    ),
    (
        "PASS 0 #5, CALL FC1 | FC 1 0 0 IW { PASS 0 @0W, PASS 1 MW0, CALL SFC33",
        "GIVE=0",
        "SYS=21 IN0=5 MW0=0 STW=4",
    ),
    // UC and CC; the statement after a call is the next one
    ("UC SFC43; L #1", "", "SYS=2B A1=1 STW=4"),
    ("CC SFC46; L #1", "STW=12", "SYS=2E A1=1 STW=6"),
    ("CC SFC46; L #1", "STW=119", "SYS=0 A1=1 STW=106"),
];

#[test]
fn system_functions(rt: HostRuntime) -> Result<(), Fail> {
    all_hold(&rt, rt.alloc(), &CALLS)
}

/// STOP: 6 for the seventeenth frame, in the large profile for the twenty-fifth, 7 for local bytes past 1,024. The
/// call copies and sets nothing.
static STOPS: [Row; 13] = [
    (
        "UC FC1 | FC 1 0 0 { UC FC1",
        "",
        "STOP=6 DEPTH=10 AT=0 STW=4",
    ),
    (
        "UC FC1 | FC 1 0 0 { UC FC1",
        "LARGE=1",
        "STOP=6 DEPTH=18 AT=0 STW=4",
    ),
    // OB 1 has 20 local bytes
    (
        "UC FC1; L #1 | FC 1 1004 0 { L #2",
        "STW=1FB",
        "STOP=0 A1=1 A2=2 STW=1E6",
    ),
    (
        "UC FC1; L #1 | FC 1 1006 0 { L #2",
        "STW=1FB",
        "STOP=7 DEPTH=1 AT=0 A1=0",
    ),
    (
        "UC FC1 | FC 1 502 0 { UC FC2 | FC 2 502 0 { L #2",
        "",
        "A1=2 STW=4",
    ),
    (
        "UC FC1 | FC 1 502 0 { UC FC2 | FC 2 504 0 { L #2",
        "",
        "STOP=7 DEPTH=2 AT=0 STW=4",
    ),
    // where both hold, the depth comes first
    (
        "UC FC1 | FC 1 64 0 { UC FC1",
        "",
        "STOP=6 DEPTH=10 AT=0 STW=4",
    ),
    (
        "UC FC1 | FC 1 68 0 { UC FC1",
        "",
        "STOP=7 DEPTH=F AT=0 STW=4",
    ),
    (
        "UC FC1 | FC 1 42 0 { UC FC1",
        "LARGE=1",
        "STOP=6 DEPTH=18 AT=0 STW=4",
    ),
    (
        "UC FC1 | FC 1 44 0 { UC FC1",
        "LARGE=1",
        "STOP=7 DEPTH=17 AT=0 STW=4",
    ),
    // nothing is copied into the instance
    (
        "PASS 0 MW0, CALL FB1:5 | FB 1 1006 2 IW@0.0 { NOP #0 | DB 5 1 { 00 07",
        "MW0=9 STW=1FB",
        "STOP=7 DB5.DBW0=7 DI=0 DEPTH=1",
    ),
    // CC with RLO 0 calls nothing
    ("CC FC1; L #1 | FC 1 1006 0 { L #2", "", "STOP=0 A1=1 STW=6"),
    // a parameter that is absent comes before the depth: in the sixteenth frame too it is an error, and each
    // of the fifteen frames goes on behind it
    (
        "UC FC1 | FC 1 0 0 { L MW0; + #1; T MW0; L #F; <I; CC FC1; PASS 0 MW300, CALL FC2 | FC 2 0 0 IW { NOP #0",
        "",
        "ERR=22 ERRS=F STOP=0 DEPTH=1 MW0=F A1=F A2=F STW=6",
    ),
];

#[test]
fn stops(rt: HostRuntime) -> Result<(), Fail> {
    all_hold(&rt, rt.alloc(), &STOPS)
}
