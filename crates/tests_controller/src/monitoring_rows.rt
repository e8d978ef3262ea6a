//! What is recorded of the statements of the monitored block.
use crate::bench::{Row, all_hold};
use std::test::Fail;

/// Numbers, jumps and their records: a positive overflow, a sum of -65536, divisions.
static NUMBERS: [Row; 3] = [
    (
        "L #7FFF; L #1; +I; JM x; SET; x: NOP #0",
        "monitor OB 1 | step 6",
        "@1 DONE | @3 MON OB 1 LINE 1 STW 0000 A1 00007FFF A2 00000000 | @4 MON OB 1 LINE 2 STW 0000 A1 00000001 A2 00007FFF | @5 MON OB 1 LINE 3 STW 0070 A1 00008000 A2 00007FFF | @6 MON OB 1 LINE 4 STW 0070 A1 00008000 A2 00007FFF | @7 MON OB 1 LINE 6 STW 0070 A1 00008000 A2 00007FFF | END 7 RUN",
    ),
    (
        "L #8000; L #8000; +I; JZ x; SET; x: NOP #0",
        "step 3 | monitor OB 1 | step 3",
        "@4 DONE | @5 MON OB 1 LINE 3 STW 0030 A1 00000000 A2 00008000 | @6 MON OB 1 LINE 4 STW 0030 A1 00000000 A2 00008000 | @7 MON OB 1 LINE 6 STW 0030 A1 00000000 A2 00008000 | END 7 RUN",
    ),
    (
        "L #D; L #4; /I; L #0; /I; JUO x; SET; x: NOP #0",
        "step 3 | monitor OB 1 | step 5",
        "@4 DONE | @5 MON OB 1 LINE 3 STW 0080 A1 00010003 A2 0000000D | @6 MON OB 1 LINE 4 STW 0080 A1 00000000 A2 00010003 | @7 MON OB 1 LINE 5 STW 00F0 A1 00000000 A2 00010003 | @8 MON OB 1 LINE 6 STW 00F0 A1 00000000 A2 00010003 | @9 MON OB 1 LINE 8 STW 00F0 A1 00000000 A2 00010003 | END 9 RUN",
    ),
];

/// The record is of the statement of the monitored block alone, and of the registers that it leaves.
static STATEMENTS: [Row; 8] = [
    // while another block interrupts it nothing is recorded
    (
        "L #5; T MW0 | OB 40 20 0 { L #7; T MB4",
        "monitor OB 1 | step 2 | arrive 40 | step 4",
        "@1 DONE | @3 MON OB 1 LINE 1 STW 0000 A1 00000005 A2 00000000 | @8 MON OB 1 LINE 2 STW 0000 A1 00000005 A2 00000000 | END 8 RUN",
    ),
    // OB 40 begins in the entry of SFC 42: the registers are those before settling
    (
        "L #5; PASS 0 MW20, CALL SFC41; PASS 0 MW22, CALL SFC42 | OB 40 20 0 { L #7; T MB4",
        "step 3 | arrive 40 | monitor OB 1 | step 2 | read MB4 | step 1 | read MB4",
        "@5 DONE | @6 MON OB 1 LINE 3 STW 0104 A1 00000005 A2 00000000 | @8 VALUES 00 | @10 VALUES 07 | END 10 RUN",
    ),
    // a call is the caller's statement, a return that of the block that it leaves
    (
        "L #5; UC FC1; T MW0 | FC 1 0 0 { L #9",
        "monitor OB 1 | step 6",
        "@1 DONE | @3 MON OB 1 LINE 1 STW 0000 A1 00000005 A2 00000000 | @4 MON OB 1 LINE 2 STW 0004 A1 00000005 A2 00000000 | @7 MON OB 1 LINE 3 STW 0004 A1 00000009 A2 00000005 | END 7 RUN",
    ),
    (
        "L #5; UC FC1; T MW0 | FC 1 0 0 { L #9",
        "monitor FC 1 | step 6",
        "@1 DONE | @5 MON FC 1 LINE 1 STW 0004 A1 00000009 A2 00000005 | @6 MON FC 1 LINE 2 STW 0004 A1 00000009 A2 00000005 | END 7 RUN",
    ),
    // the return of an organization block
    (
        "L #5",
        "step 2 | monitor OB 1 | step 1",
        "@3 DONE | @4 MON OB 1 LINE 2 STW 0004 A1 00000005 A2 00000000 | END 4 RUN",
    ),
    // a statement that fails changes no register, whether or not its organization block is loaded
    (
        "L #5; L PB200; T MW0 | OB 122 20 0 { L #1",
        "monitor OB 1 | step 6",
        "@1 DONE | @3 MON OB 1 LINE 1 STW 0000 A1 00000005 A2 00000000 | @4 MON OB 1 LINE 2 STW 0000 A1 00000005 A2 00000000 | @7 MON OB 1 LINE 3 STW 0000 A1 00000005 A2 00000000 | END 7 RUN",
    ),
    (
        "L #5; L PB200",
        "step 2 | monitor OB 1 | step 1",
        "@3 DONE | @4 MON OB 1 LINE 2 STW 0000 A1 00000005 A2 00000000 | @4 MODE STOP 4 AT OB 1 LINE 2 | END 4 STOP 4",
    ),
    // SFC 46 sets BR before it stops
    (
        "L #5; CALL SFC46",
        "step 2 | monitor OB 1 | step 1",
        "@3 DONE | @4 MON OB 1 LINE 2 STW 0104 A1 00000005 A2 00000000 | @4 MODE STOP 1 AT OB 1 LINE 2 | END 4 STOP 1",
    ),
];

/// Which block is monitored, and when nothing is recorded.
static BLOCKS: [Row; 5] = [
    // one block at a time
    (
        "L #5; UC FC1; T MW0 | FC 1 0 0 { L #9",
        "monitor OB 1 | monitor FC 1 | step 4",
        "@1 DONE | @2 DONE | @6 MON FC 1 LINE 1 STW 0004 A1 00000009 A2 00000005 | END 6 RUN",
    ),
    (
        "L #5",
        "monitor OB 1 | monitor off | step 3",
        "@1 DONE | @2 DONE | END 5 RUN",
    ),
    // a block that isn't loaded changes nothing
    (
        "L #5",
        "monitor OB 1 | monitor FC 1 | monitor FB 1 | monitor OB 40 | step 2",
        "@1 DONE | @2 NOSUCH 1 | @3 NOSUCH 1 | @4 NOSUCH 1 | @6 MON OB 1 LINE 1 STW 0000 A1 00000005 A2 00000000 | END 6 RUN",
    ),
    // a step in STOP executes nothing, and a restart keeps the monitored block
    (
        "L #5",
        "monitor OB 1 | stop | step 2 | restart | step 2",
        "@1 DONE | @2 MODE STOP 2 AT NONE | @2 DONE | @5 MODE RUN | @5 DONE | @7 MON OB 1 LINE 1 STW 0000 A1 00000005 A2 00000000 | END 7 RUN",
    ),
    // nor do entries of another kind
    (
        "x: JU x",
        "monitor OB 1 | step 1 | tick 1 | in 0 01 | read MB0 | write MB0 01 | diag | step 1",
        "@1 DONE | @5 VALUES 00 | @6 DONE | @7 DIAG 0 | @8 MON OB 1 LINE 1 STW 0000 A1 00000000 A2 00000000 | END 8 RUN",
    ),
];

#[test]
fn numbers(rt: HostRuntime) -> Result<(), Fail> {
    all_hold(&rt, rt.alloc(), &NUMBERS)
}

#[test]
fn statements(rt: HostRuntime) -> Result<(), Fail> {
    all_hold(&rt, rt.alloc(), &STATEMENTS)
}

#[test]
fn blocks(rt: HostRuntime) -> Result<(), Fail> {
    all_hold(&rt, rt.alloc(), &BLOCKS)
}
