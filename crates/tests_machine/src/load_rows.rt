//! L and T of each width and area, L STW, T STW, and the accumulators.
use crate::bench::{Row, all_hold};
use std::test::Fail;

/// Zeros stand above what is loaded, and accumulator 1 goes to accumulator 2.
static LOADS: [Row; 25] = [
    (
        "L #12345678",
        "A1=AAAA5555 A2=1 STW=1FF",
        "A1=12345678 A2=AAAA5555",
    ),
    ("L MB1", "A1=FFFFFFFF MB1=89 MB0=77", "A1=89 A2=FFFFFFFF"),
    ("L MW0", "A1=FFFFFFFF MB0=12 MB1=34", "A1=1234 A2=FFFFFFFF"),
    ("L MD0", "MB0=12 MB1=34 MB2=56 MB3=78", "A1=12345678"),
    ("L IB3", "IB3=81", "A1=81"),
    ("L IW2", "IW2=8123", "A1=8123"),
    ("L ID124", "ID124=FEDCBA98", "A1=FEDCBA98"),
    ("L QB127", "QB127=01", "A1=1"),
    ("L QW0", "QW0=0203", "A1=203"),
    ("L QD4", "QD4=00000405", "A1=405"),
    ("L PB256", "PB256=7F", "A1=7F"),
    ("L PW126", "PB126=12 PB127=34", "A1=1234"),
    ("L PD764", "PB764=01 PB767=04", "A1=01000004"),
    ("L LB19", "LB19=77", "A1=77"),
    ("L LW4", "LB4=01 LB5=77", "A1=0177"),
    ("L LD4", "LB4=01 LB7=02", "A1=01000002"),
    ("L DB10.DBB1 | DB 10 { 11 22 33 44", "", "A1=22 DB=A"),
    ("L DB10.DBW2 | DB 10 { 11 22 33 44", "", "A1=3344 DB=A"),
    ("L DB10.DBD0 | DB 10 { 11 22 33 44", "", "A1=11223344 DB=A"),
    ("OPN DI10; L DIB1 | DB 10 { 11 22 33 44", "", "A1=22 DI=A"),
    ("OPN DI10; L DIW1 | DB 10 { 11 22 33 44", "", "A1=2233 DI=A"),
    (
        "OPN DI10; L DID0 | DB 10 { 11 22 33 44",
        "",
        "A1=11223344 DI=A",
    ),
    // a peripheral operand is loaded from the inputs, whatever was transferred
    (
        "T PB5; L PB5",
        "A1=78 PB5=11 QB5=22",
        "A1=11 A2=78 PQ5=78 QB5=78",
    ),
    ("LSTW", "A1=5 STW=1FF", "A1=1F2 A2=5"),
    ("LSTW", "A1=5 STW=D", "A1=0 A2=5"),
];

#[test]
fn loads(rt: HostRuntime) -> Result<(), Fail> {
    all_hold(&rt, rt.alloc(), &LOADS)
}

/// The lowest bits of accumulator 1 are written, and no byte beside them.
static TRANSFERS: [Row; 20] = [
    ("T MB1", "A1=12345678 MD0=AAAAAAAA STW=1FF", "MD0=AA78AAAA"),
    ("T MW1", "A1=12345678 MD0=AAAAAAAA", "MD0=AA5678AA"),
    ("T MD0", "A1=12345678 A2=9 MB4=AA", "MD0=12345678 MB4=AA"),
    ("T IB3", "A1=12345678", "ID0=00000078"),
    ("T IW2", "A1=12345678", "ID0=00005678"),
    ("T ID0", "A1=12345678", "ID0=12345678"),
    ("T QB3", "A1=12345678", "QD0=00000078 PQ3=0"),
    ("T QW2", "A1=12345678", "QD0=00005678"),
    ("T QD124", "A1=12345678", "QD124=12345678"),
    ("T LB5", "A1=12345678", "LB4=0 LB5=78 LB6=0"),
    ("T LW4", "A1=12345678", "LB4=56 LB5=78 LB6=0"),
    (
        "T LD4",
        "A1=12345678",
        "LB3=0 LB4=12 LB5=34 LB6=56 LB7=78 LB8=0",
    ),
    (
        "T DB10.DBW0 | DB 10 { 11 22 33 44",
        "A1=12345678",
        "DB10.DBD0=56783344 DB=A",
    ),
    (
        "OPN DI10; T DIB3 | DB 10 { 11 22 33 44",
        "A1=12345678",
        "DB10.DBD0=11223378 DI=A",
    ),
    // peripheral outputs, with their copy in Q where it is
    ("T PB5", "A1=12345678", "PQ5=78 QD4=00780000"),
    ("T PW126", "A1=12345678", "PQ126=56 PQ127=78 QW126=5678"),
    (
        "T PD256",
        "A1=12345678 QD0=AAAAAAAA",
        "PQ256=12 PQ257=34 PQ258=56 PQ259=78 QD0=AAAAAAAA",
    ),
    ("T PB767", "A1=12345678", "PQ767=78"),
    ("TSTW", "A1=FFFFFFFF", "STW=1FF"),
    ("TSTW", "A1=FFFFFE55 STW=1FF", "STW=55"),
];

#[test]
fn transfers(rt: HostRuntime) -> Result<(), Fail> {
    all_hold(&rt, rt.alloc(), &TRANSFERS)
}

/// None of these touches the status word.
static ACCUMULATORS: [Row; 14] = [
    ("TAK", "A1=1 A2=2 STW=1FF", "A1=2 A2=1"),
    ("PUSH", "A1=1 A2=2 STW=1FF", "A1=1 A2=1"),
    ("POP", "A1=1 A2=2 STW=1FF", "A1=2 A2=2"),
    ("CAW", "A1=11223344 STW=1FF", "A1=11224433"),
    ("CAD", "A1=11223344 STW=1FF", "A1=44332211"),
    // the lowest byte alone, modulo 256
    ("INC #1", "A1=12FF STW=1FF", "A1=1200"),
    ("INC #FF", "A1=1201", "A1=1200"),
    ("DEC #1", "A1=1200 STW=1FF", "A1=12FF"),
    ("DEC #FF", "A1=1200", "A1=1201"),
    // the low word alone, wrapping
    ("+ #FFFF", "A1=10005 STW=1FF", "A1=10004"),
    ("+ #1", "A1=1FFFF", "A1=10000"),
    ("+L #FFFFFFFF", "A1=0 STW=1FF", "A1=FFFFFFFF"),
    ("+L #1", "A1=FFFF", "A1=10000"),
    (
        "NOP #0; NOP #1; BLD #FF",
        "A1=1 A2=2 AR1=3 AR2=4 STW=1FF",
        "",
    ),
];

#[test]
fn accumulators(rt: HostRuntime) -> Result<(), Fail> {
    all_hold(&rt, rt.alloc(), &ACCUMULATORS)
}
