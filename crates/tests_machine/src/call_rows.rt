//! CALL, UC, CC and returns: registers, open blocks, local bytes, parameters.
use crate::bench::{Row, all_hold};
use std::test::Fail;

/// What a called block begins with and what comes back.
static ENTRIES: [Row; 21] = [
    ("UC FC1 | FC 1 0 0 { L #5; T MW0", "", "MW0=5 A1=5 STW=4"),
    // OS 0, OR 0, STA 1, /FC 0 at the call and at the return; RLO and BR stay
    (
        "UC FC1 | FC 1 0 0 { NOP #0",
        "STW=1FB STEPS=1",
        "STW=1E6 DEPTH=2 AT=0",
    ),
    ("UC FC1 | FC 1 0 0 { A M0.0", "MB0=01", "STW=6"),
    (
        "UC FC1 | FC 1 0 0 { L #7FFF; L #1; +I",
        "",
        "A1=8000 A2=7FFF STW=64",
    ),
    ("UC FC1 | FC 1 0 0 { TSTW", "A1=1FB", "STW=1E6"),
    ("CC FC1 | FC 1 0 0 { L #5", "STW=1B", "A1=5 STW=6"),
    // CC with RLO 0 sets the four bits and RLO 1 too
    ("CC FC1 | FC 1 0 0 { L #5", "STW=119", "A1=0 STW=106"),
    ("CC FC1; CC FC1 | FC 1 0 0 { INC #1", "", "A1=1 STW=6"),
    // accumulators and address registers pass through
    (
        "UC FC1 | FC 1 0 0 { TAK; CAR",
        "A1=1 A2=2 AR1=3 AR2=4",
        "A1=2 A2=1 AR1=4 AR2=3 STW=4",
    ),
    // the called block begins with the caller's open blocks, which come back
    (
        "OPN DB10; OPN DI11; UC FC1 | FC 1 0 0 { CDB | DB 10 { 00 | DB 11 { 00",
        "STEPS=3",
        "DB=A DI=B DEPTH=2 STW=4",
    ),
    (
        "OPN DB10; OPN DI11; UC FC1 | FC 1 0 0 { CDB | DB 10 { 00 | DB 11 { 00",
        "STEPS=4",
        "DB=B DI=A DEPTH=2 STW=4",
    ),
    (
        "OPN DB10; OPN DI11; UC FC1 | FC 1 0 0 { CDB | DB 10 { 00 | DB 11 { 00",
        "",
        "DB=A DI=B DEPTH=1 STW=4",
    ),
    (
        "UC FC1 | FC 1 0 0 { OPN DB10; OPN DI10 | DB 10 { 00",
        "",
        "DB=0 DI=0 STW=4",
    ),
    (
        "OPN DB10; UC FC1; L DBB0 | FC 1 0 0 { L DB11.DBB0 | DB 10 { 01 | DB 11 { 02",
        "",
        "A1=1 A2=2 DB=A STW=4",
    ),
    // a called block has no open bracket, and its caller has its own again
    (
        "A(; UC FC1; A M0.1; ); = M1.0 | FC 1 0 0 { A(; A M0.0; )",
        "MB0=02",
        "MB1=01 STW=6",
    ),
    (
        "A(; A(; A(; A(; A(; A(; A(; UC FC1; A M0.1; ); ); ); ); ); ); ); = M1.0 | FC 1 0 0 { A(; A(; A(; A(; A(; A(; A(; A M0.0; ); ); ); ); ); ); )",
        "MB0=02",
        "MB1=01 STW=6 ERRS=0",
    ),
    // local bytes are 0 at each entry, also where another block had them before
    (
        "UC FC1; UC FC2 | FC 1 4 0 { L #FFFFFFFF; T LD0 | FC 2 4 0 { L LD0; T MD0",
        "MD0=AAAAAAAA",
        "MD0=0 A1=0 A2=FFFFFFFF STW=4",
    ),
    (
        "UC FC1; UC FC1 | FC 1 4 0 { L LD0; + #1; T LD0; T MD0",
        "",
        "MD0=1 A1=1 A2=1 STW=4",
    ),
    // those of the caller stay
    (
        "L #1234; T LW0; UC FC1; L LW0 | FC 1 4 0 { L #5678; T LW0",
        "",
        "A1=1234 A2=5678 LB0=12 LB1=34 STW=4",
    ),
    // an FB without instance keeps the caller's DI
    (
        "OPN DI10; UC FB1 | FB 1 0 0 { L DIW0; T MW0 | DB 10 { 12 34",
        "",
        "MW0=1234 A1=1234 DI=A STW=4",
    ),
    (
        "OPN DI10; CALL FB1 | FB 1 0 0 { L DIW0; T MW0 | DB 10 { 12 34",
        "",
        "MW0=1234 A1=1234 DI=A STW=4",
    ),
];

#[test]
fn blocks_entered_and_left(rt: HostRuntime) -> Result<(), Fail> {
    all_hold(&rt, rt.alloc(), &ENTRIES)
}

/// Parameters of functions are places bound at the call, or constants.
static FUNCTIONS: [Row; 17] = [
    (
        "PASS 0 MW0, PASS 1 #7, PASS 2 MW4, CALL FC1 | FC 1 0 0 IW IW OW { L @0W; L @1W; +I; T @2W",
        "MW0=5",
        "MW4=C A1=C A2=5 STW=84",
    ),
    // RET_VAL is an OUT parameter: written at once
    (
        "PASS 0 MW4, CALL FC1 | FC 1 0 0 OW { L #9; T @0W; NOP #0",
        "STEPS=3",
        "MW4=9 A1=9 STW=4 DEPTH=2",
    ),
    (
        "PASS 0 MW4, CALL FC1 | FC 1 0 0 OW { L @0W",
        "MW4=1234",
        "A1=1234 STW=4",
    ),
    (
        "PASS 0 MB4, PASS 1 MD8, CALL FC1 | FC 1 0 0 NB ND { L @0B; L @1D; T @0B; TAK; T @1D",
        "MB4=12 MD8=87654321",
        "MB4=21 MD8=12 A1=12 A2=87654321 STW=4",
    ),
    // bound to the block that was open at the call
    (
        "OPN DB10; PASS 0 DBW0, CALL FC1 | FC 1 0 0 OW { OPN DB11; L #5; T @0W | DB 10 { 00 00 | DB 11 { 00 00",
        "",
        "DB10.DBW0=5 DB11.DBW0=0 DB=A A1=5 STW=4",
    ),
    (
        "OPN DI10; PASS 0 DIW0, CALL FC1 | FC 1 0 0 OW { OPN DI11; L #5; T @0W | DB 10 { 00 00 | DB 11 { 00 00",
        "",
        "DB10.DBW0=5 DB11.DBW0=0 DI=A A1=5 STW=4",
    ),
    // a block that is named opens nothing
    (
        "PASS 0 DB10.DBW0, CALL FC1 | FC 1 0 0 OW { L #5; T @0W | DB 10 { 00 00",
        "STEPS=3",
        "DB10.DBW0=5 DB=0 A1=5 STW=4",
    ),
    // local bytes of the caller
    (
        "PASS 0 LW4, CALL FC1 | FC 1 6 0 OW { L #1234; T LW4; L #5678; T @0W; L LW4",
        "",
        "LB4=56 LB5=78 A1=1234 A2=5678 STW=4",
    ),
    // a parameter that is passed on
    (
        "PASS 0 MW0, CALL FC1 | FC 1 0 0 OW { PASS 0 @0W, CALL FC2 | FC 2 0 0 OW { L #5; T @0W",
        "",
        "MW0=5 A1=5 STW=4",
    ),
    (
        "PASS 0 #5, CALL FC1 | FC 1 0 0 IW { PASS 0 @0W, CALL FC2 | FC 2 0 0 IW { L @0W; T MW0",
        "",
        "MW0=5 A1=5 STW=4",
    ),
    (
        "PASS 0 LW0, CALL FC1 | FC 1 2 0 OW { PASS 0 @0W, CALL FC2 | FC 2 2 0 OW { L #5; T @0W",
        "",
        "LB0=0 LB1=5 A1=5 STW=4",
    ),
    // two names of one place
    (
        "PASS 0 MW0, PASS 1 MW0, CALL FC1 | FC 1 0 0 IW OW { L #7; T @1W; L @0W",
        "MW0=5",
        "MW0=7 A1=7 A2=7 STW=4",
    ),
    // peripherals: inputs are loaded, outputs are transferred
    (
        "PASS 0 PW4, CALL FC1 | FC 1 0 0 OW { L #1234; T @0W; L @0W",
        "PB5=66",
        "PQ4=12 PQ5=34 QW4=1234 A1=66 A2=1234 STW=4",
    ),
    (
        "PASS 0 #1234, CALL FC1 | FC 1 0 0 IW { L @0W",
        "A1=7",
        "A1=1234 A2=7 STW=4",
    ),
    (
        "PASS 0 #12345678, CALL FC1 | FC 1 0 0 ID { L @0D",
        "",
        "A1=12345678 STW=4",
    ),
    (
        "PASS 0 M0.3, PASS 1 Q4.0, CALL FC1 | FC 1 0 0 IX OX { AN @0X; S @1X; CLR; R @1X",
        "",
        "QB4=01 STW=4",
    ),
    (
        "PASS 0 M0.3, PASS 1 M0.0, CALL FC1 | FC 1 0 0 IX NX { A @0X; FN @1X",
        "MB0=01",
        "MB0=00 STW=6",
    ),
];

#[test]
fn parameters_of_functions(rt: HostRuntime) -> Result<(), Fail> {
    all_hold(&rt, rt.alloc(), &FUNCTIONS)
}

/// Parameters of function blocks are copied in at the call and out at the return.
static FUNCTION_BLOCKS: [Row; 18] = [
    (
        "PASS 0 MW0, PASS 1 MW2, CALL FB1:5 | FB 1 0 4 IW@0.0 OW@2.0 { L DIW0; L #1; +I; T DIW2 | DB 5 1 { 00 00 00 00",
        "MW0=9",
        "MW2=A DB5.DBW0=9 DB5.DBW2=A A1=A A2=9 STW=84",
    ),
    // not before the return
    (
        "PASS 0 MW0, PASS 1 MW2, CALL FB1:5 | FB 1 0 4 IW@0.0 OW@2.0 { L DIW0; L #1; +I; T DIW2 | DB 5 1 { 00 00 00 00",
        "MW0=9 MW2=7 STEPS=5",
        "MW2=7 DB5.DBW0=9 DB5.DBW2=A A1=A A2=9 DI=5 STW=84",
    ),
    (
        "PASS 0 MW0, CALL FB1:5 | FB 1 0 2 NW@0.0 { L DIW0; INC #1; T DIW0 | DB 5 1 { 00 00",
        "MW0=9",
        "MW0=A DB5.DBW0=A A1=A STW=4",
    ),
    // an IN that the block writes isn't copied out
    (
        "PASS 0 MW0, CALL FB1:5 | FB 1 0 2 IW@0.0 { L #7; T DIW0 | DB 5 1 { 00 00",
        "MW0=9",
        "MW0=9 DB5.DBW0=7 A1=7 STW=4",
    ),
    // an OUT isn't copied in
    (
        "PASS 0 MW0, CALL FB1:5 | FB 1 0 2 OW@0.0 { L DIW0 | DB 5 1 { 12 34",
        "MW0=9",
        "MW0=1234 A1=1234 STW=4",
    ),
    // what isn't supplied keeps its value
    (
        "CALL FB1:5 | FB 1 0 4 IW@0.0 OW@2.0 { L DIW0; T DIW2 | DB 5 1 { 00 07 00 00",
        "",
        "DB5.DBW2=7 A1=7 STW=4",
    ),
    (
        "PASS 1 MW2, CALL FB1:5 | FB 1 0 4 IW@0.0 OW@2.0 { L DIW0; T DIW2 | DB 5 1 { 00 07 00 00",
        "",
        "MW2=7 DB5.DBW2=7 A1=7 STW=4",
    ),
    (
        "PASS 0 #1234, CALL FB1:5 | FB 1 0 4 IW@0.0 OW@2.0 { NOP #0 | DB 5 1 { 00 07 00 00",
        "",
        "DB5.DBD0=12340000 STW=4",
    ),
    (
        "PASS 0 M0.0, PASS 1 M0.1, CALL FB1:5 | FB 1 0 4 IX@0.0 OX@2.0 { A DIX0.0; = DIX2.0 | DB 5 1 { 00 00 00 00",
        "MB0=01",
        "MB0=03 DB5.DBD0=01000100 STW=6",
    ),
    // out of the instance that the call named, whatever DI holds then
    (
        "PASS 1 MW2, CALL FB1:5 | FB 1 0 4 IW@0.0 OW@2.0 { L #3; T DIW2; OPN DI6; L #4; T DIW2 | DB 5 1 { 00 00 00 00 | DB 6 1 { 00 00 00 00",
        "",
        "MW2=3 DB5.DBW2=3 DB6.DBW2=4 A1=4 A2=3 DI=0 STW=4",
    ),
    // to the place that was bound at the call
    (
        "OPN DB10; PASS 0 DBW0, CALL FB1:5 | FB 1 0 2 OW@0.0 { OPN DB11; L #3; T DIW0 | DB 5 1 { 00 00 | DB 10 { 00 00 | DB 11 { 00 00",
        "",
        "DB10.DBW0=3 DB11.DBW0=0 A1=3 DB=A STW=4",
    ),
    // by rising index, each copy seeing those before: into the instance
    (
        "PASS 0 MW0, PASS 1 DB5.DBW0, CALL FB1:5 | FB 1 0 4 IW@0.0 IW@2.0 { NOP #0 | DB 5 1 { 11 11 22 22",
        "MW0=9",
        "DB5.DBW0=9 DB5.DBW2=9 STW=4",
    ),
    // and out of it: MW0 and MW1 have MB1 in common
    (
        "PASS 0 MW0, PASS 1 MW1, CALL FB1:5 | FB 1 0 4 OW@0.0 OW@2.0 { NOP #0 | DB 5 1 { 11 22 33 44",
        "",
        "MB0=11 MB1=33 MB2=44 STW=4",
    ),
    (
        "PASS 0 DB5.DBW2, PASS 1 MW2, CALL FB1:5 | FB 1 0 4 OW@0.0 OW@2.0 { NOP #0 | DB 5 1 { 11 22 33 44",
        "",
        "DB5.DBW2=1122 MW2=1122 STW=4",
    ),
    // local bytes of the caller
    (
        "PASS 0 LW4, CALL FB1:5 | FB 1 6 2 NW@0.0 { L DIW0; + #1; T DIW0; T LW4 | DB 5 1 { 00 00",
        "LB5=9",
        "LB5=A LB4=0 A1=A STW=4",
    ),
    // an IN_OUT at peripherals: inputs in, outputs out
    (
        "PASS 0 PB4, CALL FB1:5 | FB 1 0 2 NB@0.0 { NOP #0 | DB 5 1 { 00 00",
        "PB4=66 QB4=11",
        "PQ4=66 QB4=66 DB5.DBW0=6600 STW=4",
    ),
    // UC of a function block with its instance passes nothing
    (
        "UC FB1:5 | FB 1 0 4 IW@0.0 OW@2.0 { L DIW0; T DIW2 | DB 5 1 { 00 07 00 00",
        "",
        "DB5.DBW2=7 A1=7 STW=4",
    ),
    // a byte between others
    (
        "PASS 0 MB1, CALL FB1:5 | FB 1 0 4 NB@1.0 { L DIB1; INC #1; T DIB1 | DB 5 1 { 11 22 33 44",
        "MB0=AA MB1=05 MB2=BB",
        "MB0=AA MB1=06 MB2=BB DB5.DBD0=11063344 A1=6 STW=4",
    ),
];

#[test]
fn parameters_of_function_blocks(rt: HostRuntime) -> Result<(), Fail> {
    all_hold(&rt, rt.alloc(), &FUNCTION_BLOCKS)
}

/// Three deep: an IN_OUT of an FB is passed to an FC, and on to another, over one word of memory.
const THREE_DEEP: &str =
    "OPN DB10; PASS 0 MW0, CALL FB1:5; L DBB0 | FC 2 0 0 NW { OPN DB11; PASS 0 @0W, PASS 1 MW0, CALL FC3 | FC 3 2 0 IW OW { L @0W; T LW0; INC #1; T @1W; L @0W; T MW4 | FB 1 0 2 NW@0.0 { PASS 0 DIW0, CALL FC2; L DIW0 | DB 5 1 { 00 00 | DB 10 { 77 | DB 11 { 88";

static NESTED: [Row; 7] = [
    // the innermost block begins
    (
        THREE_DEEP,
        "MW0=9 STEPS=5",
        "DEPTH=4 MW0=9 DB5.DBW0=9 DB=B DI=5 STW=4",
    ),
    // it has written MW0, and the instance holds what came in
    (
        THREE_DEEP,
        "MW0=9 STEPS=9",
        "DEPTH=4 MW0=A DB5.DBW0=9 A1=A A2=0 DB=B DI=5 STW=4",
    ),
    // back in FC 2, in the FB, in OB 1: the copy out comes last
    (
        THREE_DEEP,
        "MW0=9 STEPS=C",
        "DEPTH=3 MW0=A MW4=9 A1=9 A2=A DB=B DI=5 STW=4",
    ),
    (
        THREE_DEEP,
        "MW0=9 STEPS=D",
        "DEPTH=2 MW0=A MW4=9 A1=9 A2=A DB=A DI=5 STW=4",
    ),
    (
        THREE_DEEP,
        "MW0=9 STEPS=F",
        "DEPTH=1 MW0=9 MW4=9 A1=9 A2=9 DB=A DI=0 STW=4",
    ),
    (THREE_DEEP, "MW0=9", "MW0=9 MW4=9 A1=77 A2=9 DB=A STW=4"),
    // the FB writes its IN_OUT through the FC, and OB 1 has it at the FB's return alone
    (
        "PASS 0 MW0, CALL FB1:5 | FC 2 0 0 NW { PASS 0 @0W, CALL FC3 | FC 3 0 0 NW { L @0W; INC #1; T @0W; L MW0 | FB 1 0 2 NW@0.0 { PASS 0 DIW0, CALL FC2 | DB 5 1 { 00 00",
        "MW0=9",
        "MW0=A DB5.DBW0=A A1=9 A2=A STW=4",
    ),
];

#[test]
fn calls_three_deep(rt: HostRuntime) -> Result<(), Fail> {
    all_hold(&rt, rt.alloc(), &NESTED)
}
