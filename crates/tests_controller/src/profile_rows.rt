//! What differs between the two profiles: bit memory, timers, counters and frames.
use crate::bench::holds;
use plc_base::Profile;
use std::alloc::Global;
use std::process::Abort;
use std::test::Fail;

/// A program, a history, and the text of its run at the small profile and at the large one.
type Pair = (&'static str, &'static str, &'static str, &'static str);

/// Addresses past the small profile's, and past the large one's.
static SIZES: [Pair; 6] = [
    (
        "A M0.0; A M0.1; O-; A M0.2; A M0.3; = M1.0",
        "write MB0 0E | step 7 | read MB300",
        "@1 DONE | @9 NOSUCH 1 | END 9 RUN",
        "@1 DONE | @9 VALUES 00 | END 9 RUN",
    ),
    (
        "NOP #0",
        "read MB255 MB256 | read MB2047 | read MB2048 | write MW2046 0102 | read MW2046 | write MW2047 0001",
        "@1 NOSUCH 2 | @2 NOSUCH 1 | @3 NOSUCH 1 | @4 NOSUCH 1 | @5 NOSUCH 1 | @6 NOSUCH 1 | END 6 RUN",
        "@1 VALUES 00 00 | @2 VALUES 00 | @3 NOSUCH 1 | @4 DONE | @5 VALUES 0102 | @6 NOSUCH 1 | END 6 RUN",
    ),
    (
        "L MB300; T PB256",
        "write MB300 07 | step 3",
        "@1 NOSUCH 1 | @3 MODE STOP 3 AT OB 1 LINE 1 | END 4 STOP 3",
        "@1 DONE | @4 PQ 256 = 07 | END 4 RUN",
    ),
    // bit memory behind byte 15 isn't retained
    (
        "NOP #0",
        "write MB15 0F | write MB2047 FF | stop | restart | read MB15 MB2047",
        "@1 DONE | @2 NOSUCH 1 | @3 MODE STOP 2 AT NONE | @3 DONE | @4 MODE RUN | @4 DONE | @5 NOSUCH 2 | END 5 RUN",
        "@1 DONE | @2 DONE | @3 MODE STOP 2 AT NONE | @3 DONE | @4 MODE RUN | @4 DONE | @5 VALUES 0F 00 | END 5 RUN",
    ),
    (
        "L #1500; SET; SP T255; A T255; = Q4.0",
        "step 8",
        "@4 MODE STOP 3 AT OB 1 LINE 3 | END 8 STOP 3",
        "@8 PQ 4 = 01 | END 8 RUN",
    ),
    (
        "SET; CU C255; L C255; T PB256",
        "step 5",
        "@3 MODE STOP 3 AT OB 1 LINE 2 | END 5 STOP 3",
        "@5 PQ 256 = 01 | END 5 RUN",
    ),
];

/// A seventeenth frame, and a twenty-fifth.
static FRAMES: [Pair; 3] = [
    (
        "UC FC1 | FC 1 0 0 { UC FC1",
        "step 25",
        "@17 MODE STOP 6 AT FC 1 LINE 1 | END 25 STOP 6",
        "@25 MODE STOP 6 AT FC 1 LINE 1 | END 25 STOP 6",
    ),
    // in each activation by itself
    (
        "UC FC1 | OB 40 20 0 { UC FC1 | FC 1 0 0 { UC FC1",
        "step 10 | arrive 40 | step 24",
        "@27 MODE STOP 6 AT FC 1 LINE 1 | END 35 STOP 6",
        "@35 MODE STOP 6 AT FC 1 LINE 1 | END 35 STOP 6",
    ),
    // the record of the statement that stops for want of a frame, and of one that doesn't
    (
        "UC FC1 | FC 1 0 0 { UC FC1",
        "step 16 | monitor FC 1 | step 1",
        "@17 DONE | @18 MON FC 1 LINE 1 STW 0004 A1 00000000 A2 00000000 | @18 MODE STOP 6 AT FC 1 LINE 1 | END 18 STOP 6",
        "@17 DONE | @18 MON FC 1 LINE 1 STW 0004 A1 00000000 A2 00000000 | END 18 RUN",
    ),
];

fn all_differ(rt: &impl Abort, alloc: Global, pairs: &[Pair]) -> Result<(), Fail> {
    for (program, history, small, large) in pairs {
        holds(rt, alloc, Profile::Small, (*program, *history, *small))?;
        holds(rt, alloc, Profile::Large, (*program, *history, *large))?;
    }
    Ok(())
}

#[test]
fn sizes(rt: HostRuntime) -> Result<(), Fail> {
    all_differ(&rt, rt.alloc(), &SIZES)
}

#[test]
fn frames(rt: HostRuntime) -> Result<(), Fail> {
    all_differ(&rt, rt.alloc(), &FRAMES)
}
