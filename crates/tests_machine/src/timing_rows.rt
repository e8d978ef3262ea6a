//! Timers, counters and data blocks.
use crate::bench::{Row, all_hold};
use std::test::Fail;

/// 16#0005 is 5 units of 10 ms. With `MS=A` each statement takes 10 ms.
static TIMERS: [Row; 25] = [
    (
        "SET; SE T5; NOP #0; NOP #0",
        "A1=5 MS=A",
        "T5=1 TV5=2 STW=6",
    ),
    (
        "SET; SE T5; NOP #0; NOP #0; NOP #0; NOP #0",
        "A1=5 MS=A",
        "T5=0 TV5=0 STW=6",
    ),
    // pulse: RLO 0 stops it, with the time left kept
    ("SET; SP T5; CLR; SP T5", "A1=5 MS=A", "T5=0 TV5=3 STW=0"),
    ("SET; SE T5; CLR; SE T5", "A1=5 MS=A", "T5=1 TV5=2 STW=0"),
    // on-delay
    (
        "SET; SD T5; NOP #0; NOP #0; NOP #0",
        "A1=5 MS=A",
        "T5=0 TV5=1 STW=6",
    ),
    (
        "SET; SD T5; NOP #0; NOP #0; NOP #0; NOP #0",
        "A1=5 MS=A",
        "T5=1 TV5=0 STW=6",
    ),
    // retentive on-delay: RLO 0 does nothing
    (
        "SET; SS T5; CLR; SS T5; NOP #0; NOP #0",
        "A1=5 MS=A",
        "T5=1 TV5=0 STW=0",
    ),
    // off-delay: the falling RLO starts it
    (
        "SET; SF T5; CLR; SF T5; NOP #0; NOP #0; NOP #0",
        "A1=5 MS=A",
        "T5=1 TV5=1 STW=0",
    ),
    (
        "SET; SF T5; CLR; SF T5; NOP #0; NOP #0; NOP #0; NOP #0",
        "A1=5 MS=A",
        "T5=0 TV5=0 STW=0",
    ),
    ("SET; SE T5; R T5", "A1=5", "T5=0 TV5=0 STW=6"),
    ("SET; SE T5; CLR; R T5", "A1=5", "T5=1 TV5=5 STW=0"),
    // FR lets the next start begin anew
    ("SET; SE T5; FR T5; SE T5", "A1=5 MS=A", "T5=1 TV5=4 STW=6"),
    ("SET; SE T5; SE T5; SE T5", "A1=5 MS=A", "T5=1 TV5=2 STW=6"),
    // OR and /FC become 0, STA stays
    ("SE T5", "STW=1FD A1=5", "STW=1F4 T5=0"),
    ("R T5", "STW=9", "STW=0"),
    ("FR T5", "STW=9", "STW=0"),
    // binary and BCD; bits 14 and 15 of the time mean nothing
    ("SET; SE T5; L T5", "A1=1123", "A1=7B A2=1123 STW=6"),
    ("SET; SE T5; LC T5", "A1=F123 A2=9", "A1=3123 A2=F123 STW=6"),
    // the time is read only where the instruction starts
    ("SE T5", "A1=000A", ""),
    // by a word of memory
    ("SET; SE T[MW0]", "MW0=5 A1=5", "T5=1 STW=6"),
    ("SET; SF T[LW0]; A T[LW0]", "LB1=05 A1=5", "T5=1 STW=7"),
    (
        "SET; SE T5; L T[MW0]",
        "MW0=5 A1=1123",
        "A1=7B A2=1123 STW=6",
    ),
    (
        "SET; SE T5; LC T[MW0]",
        "MW0=5 A1=1123 A2=9",
        "A1=1123 A2=1123 STW=6",
    ),
    (
        "SET; SE T5; FR T[MW0]; SE T5",
        "MW0=5 A1=5 MS=A",
        "TV5=4 STW=6",
    ),
    ("SET; SE T5; R T[MW0]", "MW0=5 A1=5", "T5=0 TV5=0 STW=6"),
];

#[test]
fn timers(rt: HostRuntime) -> Result<(), Fail> {
    all_hold(&rt, rt.alloc(), &TIMERS)
}

/// Each of CU, CD, S and FR acts on a rising RLO of its own edge.
static COUNTERS: [Row; 20] = [
    ("SET; CU C5; CU C5", "", "CV5=1 STW=6"),
    ("SET; CU C5; CLR; CU C5; SET; CU C5", "", "CV5=2 STW=6"),
    ("CU C5", "STW=D", "CV5=0 STW=4"),
    // BCD 12 is 12; CD has an edge of its own
    ("SET; S C5; CD C5", "A1=0012", "CV5=B STW=6"),
    ("SET; S C5; CD C5; CD C5", "A1=0012", "CV5=B STW=6"),
    ("SET; CD C5", "", "CV5=0 C5=0 STW=6"),
    ("SET; S C5; CU C5", "A1=0999", "CV5=3E7 STW=6"),
    // bits 12 to 15 of the value mean nothing
    ("SET; S C5", "A1=F123", "CV5=7B C5=1 STW=6"),
    ("S C5", "A1=0123", "CV5=0"),
    ("S C5", "A1=000A", "CV5=0"),
    ("SET; S C5; R C5", "A1=0123", "CV5=0 STW=6"),
    ("SET; S C5; CLR; R C5", "A1=0123", "CV5=7B STW=0"),
    ("SET; S C5; L C5", "A1=0123", "A1=7B A2=123 STW=6"),
    ("SET; S C5; LC C5", "A1=0123 A2=9", "A1=123 A2=123 STW=6"),
    // FR clears the edges of the others
    (
        "SET; S C5; L #7; FR C5; S C5",
        "A1=0123",
        "CV5=7 A1=7 A2=123 STW=6",
    ),
    (
        "SET; S C5; L #7; S C5",
        "A1=0123",
        "CV5=7B A1=7 A2=123 STW=6",
    ),
    // by a word of memory
    ("SET; S C[MW0]; CU C[MW0]", "MW0=5 A1=0012", "CV5=D STW=6"),
    (
        "SET; S C5; L #7; FR C[MW0]; S C5",
        "MW0=5 A1=0123",
        "CV5=7 A1=7 A2=123 STW=6",
    ),
    (
        "SET; S C5; CD C[LW0]; L C[LW0]",
        "LB1=05 A1=0012",
        "CV5=B A1=B A2=12 STW=6",
    ),
    (
        "SET; S C5; LC C[MW0]; R C[MW0]",
        "MW0=5 A1=0012",
        "CV5=0 A1=12 A2=12 STW=6",
    ),
];

#[test]
fn counters(rt: HostRuntime) -> Result<(), Fail> {
    all_hold(&rt, rt.alloc(), &COUNTERS)
}

/// OPN, CDB, the lengths and numbers of open data blocks (0 DBLG, 1 DBNO, 2 DILG, 3 DINO), USEDB.
static DATA_BLOCKS: [Row; 13] = [
    (
        "OPN DB10; LDB #0; LDB #1 | DB 10 { 00 00 00 00",
        "",
        "A1=A A2=4 DB=A",
    ),
    (
        "OPN DI10; LDB #2; LDB #3 | DB 10 { 00 00 00 00",
        "",
        "A1=A A2=4 DI=A",
    ),
    // nothing is open
    ("LDB #0", "A1=77 STW=1FF", "A1=0 A2=77"),
    ("LDB #1", "A1=77", "A1=0 A2=77"),
    (
        "OPN DB10; LDB #2 | DB 10 { 00 00 00 00",
        "A1=77",
        "A1=0 A2=77 DB=A",
    ),
    (
        "OPN DB10; LDB #3 | DB 10 { 00 00 00 00",
        "A1=77",
        "A1=0 A2=77 DB=A",
    ),
    ("OPN DB10; CDB | DB 10 { 00 00", "STW=1FF", "DI=A DB=0"),
    (
        "OPN DB10; OPN DI11; CDB | DB 10 { 00 00 | DB 11 { 00 00",
        "",
        "DB=B DI=A",
    ),
    ("OPN DB[MW0] | DB 10 { 00 00", "MW0=A", "DB=A"),
    ("OPN DI[LW0] | DB 10 { 00 00", "LB1=0A", "DI=A"),
    // the block that a statement opens stays open
    (
        "L DB10.DBW0; L DBW2 | DB 10 { 11 11 22 22 | DB 11 { 33 33 44 44",
        "",
        "A1=2222 A2=1111 DB=A",
    ),
    (
        "OPN DB11; L DB10.DBW0; L DBW2 | DB 10 { 11 11 22 22 | DB 11 { 33 33 44 44",
        "",
        "A1=2222 A2=1111 DB=A",
    ),
    // DB and DI may hold one block
    (
        "OPN DB10; OPN DI10; L DBW0; T DIW2 | DB 10 { 11 22 00 00",
        "",
        "A1=1122 DB10.DBW2=1122 DB=A DI=A",
    ),
];

#[test]
fn data_blocks(rt: HostRuntime) -> Result<(), Fail> {
    all_hold(&rt, rt.alloc(), &DATA_BLOCKS)
}
