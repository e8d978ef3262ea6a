//! Requests of operators, in each mode, and the warm restart.
use crate::bench::{MOST_ENTRIES, Row, all_hold, apply_entry, controller_of};
use crate::compare::same;
use controller::Controller;
use monitor::DiagRecord;
use std::alloc::Global;
use std::process::Abort;
use std::test::Fail;
use var_access::{Entry, Reply, Request, What};

const TWO_INPUTS: &str = "A I0.0; AN I0.1; = Q4.0";

/// What is read and written between statements.
static VALUES: [Row; 11] = [
    (
        "A M0.0; A M0.1; O-; A M0.2; A M0.3; = M1.0",
        "write MB0 0E | step 7 | read MB1",
        "@1 DONE | @9 VALUES 01 | END 9 RUN",
    ),
    (
        "A M0.0; A M0.1; O-; A M0.2; A M0.3; = M1.0",
        "write MB0 0E | step 7 | read MB2048",
        "@1 DONE | @9 NOSUCH 1 | END 9 RUN",
    ),
    (
        "L #5; T MW12 | OB 40 20 0 { L #63; T MW10",
        "step 2 | arrive 40 | step 2 | read MW10 MW12 | step 2 | read MW10 MW12",
        "@6 VALUES 0063 0000 | @9 VALUES 0063 0005 | END 9 RUN",
    ),
    (
        "PASS 0 MW20, CALL SFC41; PASS 0 MW22, CALL SFC41; PASS 0 MW24, CALL SFC42; PASS 0 MW26, CALL SFC42; PASS 0 MW28, CALL SFC42 | OB 40 20 0 { L #7; T MB30",
        "step 3 | arrive 40 | step 2 | read MW24 MW26 MB30 | step 4 | read MW20 MW22 MW28 MB30",
        "@7 VALUES 0001 0000 00 | @12 VALUES 0001 0002 8080 07 | END 12 RUN",
    ),
    (
        TWO_INPUTS,
        "in 0 01 | step 6 | arrive 40 | read QB4",
        "@7 PQ 4 = 01 | @8 PQ 4 = 00 | @8 MODE STOP 8 AT OB 1 LINE 1 | @9 VALUES 01 | END 9 STOP 8",
    ),
    (
        "OPN DB10; L DBW100; T MW0 | OB 121 20 0 { L #1; T MB9 | DB 10 { 00 00",
        "step 7 | read MB9 MW0",
        "@8 VALUES 01 0000 | END 8 RUN | DB 10 0000",
    ),
    // parameters of a function block are copied out by its return
    (
        "PASS 0 MW0, PASS 1 MW2, CALL FB1:5 | FB 1 0 4 IW@0.0 OW@2.0 { L DIW0; L #1; +I; T DIW2 | DB 5 1 { 00 00 00 00",
        "write MW0 0009 | step 6 | read MW2 | step 1 | read MW2",
        "@1 DONE | @8 VALUES 0000 | @10 VALUES 000A | END 10 RUN | DB 5 0009000A",
    ),
    (
        "A(; A I0.0; JNB x; L MW2; L #5; +I; T MW4; AN OV; SAVE; CLR; x: A BR; ); = Q4.0",
        "write MW2 0007 | in 0 01 | step 15 | read MW4 | step 1",
        "@1 DONE | @18 VALUES 000C | @19 PQ 4 = 01 | END 19 RUN",
    ),
    // at each width, in each area; a word is written as one
    (
        "DB 7 { 00 00 00 00",
        "write MD0 01020304 | read M3.2 M3.3 MB0 MW1 MD0 | write IW126 ABCD | write Q5.7 1 | write DB7.DBW1 1234 | read IB126 IB127 QB5 DB7.DBD0 DB7.DBX2.2",
        "@1 DONE | @2 VALUES 1 0 01 0203 01020304 | @3 DONE | @4 DONE | @5 DONE | @6 VALUES AB CD 80 00123400 1 | END 6 RUN | DB 7 00123400",
    ),
    // the first absent one counts, and then nothing is read or written
    (
        "DB 7 { 00 00",
        "read MB0 MB2048 MB1 | read M0.0 IB127 QB127 QW127 | read DB8.DBB0 | read MB0 DB7.DBW1 | write MW2047 0001 | write DB7.DBW1 0102 | read MB255 DB7.DBB1",
        "@1 NOSUCH 2 | @2 NOSUCH 4 | @3 NOSUCH 1 | @4 NOSUCH 2 | @5 NOSUCH 1 | @6 NOSUCH 1 | @7 VALUES 00 00 | END 7 RUN | DB 7 0000",
    ),
    // eight variables
    (
        "DB 7 { 00 00",
        "write MD0 01020304 | write MD4 05060708 | read MB0 MB1 MB2 MB3 MB4 MB5 MB6 MB7",
        "@1 DONE | @2 DONE | @3 VALUES 01 02 03 04 05 06 07 08 | END 3 RUN | DB 7 0000",
    ),
];

/// Each request in STARTUP and in STOP; only a restart asks for a mode.
static MODES: [Row; 5] = [
    (
        "OB 100 20 0 { L #1; T MB20",
        "step 3 | restart | write MB3 AA | stop | restart | read MB3 MB20",
        "@3 MODE RUN | @4 NOTSTOPPED | @5 DONE | @6 MODE STOP 2 AT NONE | @6 DONE | @7 MODE STARTUP | @7 DONE | @8 VALUES AA 00 | END 8 STARTUP",
    ),
    (
        "OB 100 20 0 { x: JU x",
        "read MB0 | write MB0 11 | read MB0 | restart | monitor OB 100 | step 1 | monitor off | diag | stop",
        "@1 VALUES 00 | @2 DONE | @3 VALUES 11 | @4 NOTSTOPPED | @5 DONE | @6 MON OB 100 LINE 1 STW 0000 A1 00000000 A2 00000000 | @7 DONE | @8 DIAG 0 | @9 MODE STOP 2 AT OB 100 LINE 1 | @9 DONE | END 9 STOP 2",
    ),
    (
        "OB 100 20 0 { x: JU x",
        "stop | write MB0 22 | read MB0 | monitor OB 1 | monitor OB 100 | monitor off | diag | restart | diag | read MB0",
        "@1 MODE STOP 2 AT OB 100 LINE 1 | @1 DONE | @2 DONE | @3 VALUES 22 | @4 NOSUCH 1 | @5 DONE | @6 DONE | @7 DIAG 1 1:5:2 | @8 MODE STARTUP | @8 DONE | @9 DIAG 2 1:5:2 8:6:0 | @10 VALUES 22 | END 10 STARTUP",
    ),
    // in STOP a stop changes nothing, not even the cause
    (
        TWO_INPUTS,
        "arrive 40 | stop | diag",
        "@1 MODE STOP 8 AT NONE | @2 DONE | @3 DIAG 2 1:3:40 1:5:8 | END 3 STOP 8",
    ),
    // OB 38 is due while it is pending: a time error, which requests OB 80
    (
        "OB 38 20 0 { NOP #0 | OB 80 20 0 { NOP #0",
        "tick 20 | diag",
        "@2 DIAG 1 1:1:38 | END 2 RUN",
    ),
];

/// What a warm restart keeps, and what it clears.
static RESTARTS: [Row; 8] = [
    // without OB 100 it begins RUN
    (
        "NOP #0",
        "stop | restart | restart | step 2",
        "@1 MODE STOP 2 AT NONE | @1 DONE | @2 MODE RUN | @2 DONE | @3 NOTSTOPPED | END 5 RUN",
    ),
    // MB 0 to 15, data blocks and the peripheral inputs stay, other bit memory and the process images
    // don't
    (
        "OB 100 20 0 { L PB5; T MB40; x: JU x | DB 7 { 00 00",
        "write MB15 0F | write MB16 10 | write MB255 FF | write IB0 AA | write QB127 BB | write DB7.DBB1 CC | in 5 77 | stop | restart | read MB15 MB16 MB255 IB0 QB127 DB7.DBB1 | step 2 | read MB40",
        "@1 DONE | @2 DONE | @3 DONE | @4 DONE | @5 DONE | @6 DONE | @8 MODE STOP 2 AT OB 100 LINE 1 | @8 DONE | @9 MODE STARTUP | @9 DONE | @10 VALUES 0F 00 00 00 00 CC | @13 VALUES 77 | END 13 STARTUP | DB 7 00CC",
    ),
    // C 7 stays, C 8 doesn't
    (
        "OB 100 20 0 { L C7; T MB0; L C8; T MB1; SET; CU C7; CU C8; x: JU x",
        "step 7 | stop | restart | step 4 | read MB0 MB1",
        "@8 MODE STOP 2 AT OB 100 LINE 8 | @8 DONE | @9 MODE STARTUP | @9 DONE | @14 VALUES 01 00 | END 14 STARTUP",
    ),
    // a timer that runs doesn't
    (
        "OB 100 20 0 { A T1; = M0.0; L #1500; SET; SP T1; A T1; = M0.1; x: JU x",
        "step 7 | read MB0 | stop | restart | step 2 | read MB0",
        "@8 VALUES 02 | @9 MODE STOP 2 AT OB 100 LINE 8 | @9 DONE | @10 MODE STARTUP | @10 DONE | @13 VALUES 02 | END 13 STARTUP",
    ),
    // the first cycle is to come again: start code 16#01, then 16#03
    (
        "L LB1; T MB0",
        "step 3 | read MB0 | step 5 | read MB0 | stop | restart | step 3 | read MB0",
        "@4 VALUES 01 | @10 VALUES 03 | @11 MODE STOP 2 AT NONE | @11 DONE | @12 MODE RUN | @12 DONE | @16 VALUES 01 | END 16 RUN",
    ),
    // a request that waited has ended with STOP
    (
        "PASS 0 MW20, CALL SFC41 | OB 40 20 0 { L #7; T MB0",
        "step 2 | arrive 40 | stop | restart | step 2 | read MB0",
        "@4 MODE STOP 2 AT OB 1 LINE 2 | @4 DONE | @5 MODE RUN | @5 DONE | @8 VALUES 00 | END 8 RUN",
    ),
    // the periods begin with RUN: OB 38 is due after 10 ms of it
    (
        "NOP #0 | OB 38 20 0 { L #7; T MB0",
        "tick 5 | stop | restart | tick 5 | step 2 | read MB0 | tick 5 | step 2 | read MB0",
        "@2 MODE STOP 2 AT NONE | @2 DONE | @3 MODE RUN | @3 DONE | @7 VALUES 00 | @11 VALUES 07 | END 11 RUN",
    ),
    // OB 40 isn't disabled any more
    (
        "PASS 0 #0, PASS 1 #0, PASS 2 MW20, CALL SFC39 | OB 40 20 0 { L #7; T MB0",
        "step 2 | arrive 40 | step 2 | read MB0 | stop | restart | arrive 40 | step 2 | read MB0",
        "@6 VALUES 00 | @7 MODE STOP 2 AT OB 1 LINE 1 | @7 DONE | @8 MODE RUN | @8 DONE | @12 VALUES 07 | END 12 RUN",
    ),
];

#[test]
fn values(rt: HostRuntime) -> Result<(), Fail> {
    all_hold(&rt, rt.alloc(), &VALUES)
}

#[test]
fn modes(rt: HostRuntime) -> Result<(), Fail> {
    all_hold(&rt, rt.alloc(), &MODES)
}

#[test]
fn restarts(rt: HostRuntime) -> Result<(), Fail> {
    all_hold(&rt, rt.alloc(), &RESTARTS)
}

fn entry_of_request(request: Request) -> Entry {
    Entry {
        who: 3,
        what: What::Ask { request },
    }
}

/// Stops and restarts so often that one record more than 100 is made: two by each turn.
fn write_records(
    rt: &impl Abort,
    controller: &mut Controller,
    out: &mut String,
) -> Result<(), Fail> {
    for _ in 0..50 {
        apply_entry(rt, controller, out, entry_of_request(Request::Stop))?;
        apply_entry(rt, controller, out, entry_of_request(Request::Restart))?;
    }
    apply_entry(rt, controller, out, entry_of_request(Request::Stop))
}

fn make_records(rt: &impl Abort, alloc: Global, controller: &mut Controller) -> Result<(), Fail> {
    let mut out = String::new(alloc);
    write_records(rt, controller, &mut out)
}

/// Entry n made its record: a stop by the operator, or the restart behind it.
fn record_of(n: u64) -> DiagRecord {
    if n % 2 == 1 {
        DiagRecord {
            entry: n,
            code: 5,
            info: 2,
        }
    } else {
        DiagRecord {
            entry: n,
            code: 6,
            info: 0,
        }
    }
}

/// Of 101 records those of the entries 2 to 101 are left.
fn last_hundred(rt: &impl Abort, reply: &Reply) {
    let Reply::Diag { list } = reply else {
        assert!(rt; false);
        return;
    };
    same(rt, "count", list.as_slice().len(), 100);
    let mut n = 2_u64;
    for record in list.as_slice() {
        same(rt, n, *record, record_of(n));
        n = n.wrapping_add(1);
    }
}

/// Makes the records, and asks for them.
fn records_are_kept(
    rt: &impl Abort,
    alloc: Global,
    controller: &mut Controller,
) -> Result<(), Fail> {
    make_records(rt, alloc, controller)?;
    assert!(rt; controller.history_len() < MOST_ENTRIES);
    last_hundred(rt, &controller.answer(&Request::Diag));
    Ok(())
}

#[test]
fn the_last_hundred_records(rt: HostRuntime) -> Result<(), Fail> {
    let mut controller = controller_of(rt.alloc(), "NOP #0")?;
    records_are_kept(&rt, rt.alloc(), &mut controller)
}
