use crate::compare::same;
use crate::tools::{expect_arrival, expect_best, running_scheduler, start_best};
use ob_sched::{Arrived, Sched, StartEvent, StartInfo, TickResult};
use plc_base::Mode;
use std::process::Abort;

/// A tick passes all its milliseconds with no stop and no record.
fn passes(rt: &impl Abort, sched: &mut Sched, ms: u32, mode: Mode) {
    expect_tick(rt, sched, ms, mode, ms, None, &[]);
}

/// A tick passes so many milliseconds, ends with this stop cause, and leaves these records.
fn expect_tick(
    rt: &impl Abort,
    sched: &mut Sched,
    ms: u32,
    mode: Mode,
    passed_ms: u32,
    stop: Option<u8>,
    records: &[(u16, u16)],
) {
    let passed = sched.pass_ms(ms, mode, &[]);
    same(rt, (ms, mode), (passed.ms, passed.stop), (passed_ms, stop));
    expect_records(rt, &passed, records);
}

/// These records are left.
fn expect_records(rt: &impl Abort, passed: &TickResult, records: &[(u16, u16)]) {
    same(rt, "records", passed.records.as_slice(), records);
}

/// A tick of a minute of RUN ends by the second cycle time, 302 ms from its begin. So many records are
/// left, among them these at their places.
fn expect_second_cycle_time(
    rt: &impl Abort,
    passed: &TickResult,
    records: usize,
    rows: &[(usize, (u16, u16))],
) {
    same(rt, "tick", (passed.ms, passed.stop), (302, Some(10)));
    same(rt, "count of records", passed.records.len(), records);
    for (place, record) in rows {
        let found = passed.records.as_slice().get(*place).copied();
        same(rt, ("record", *place), found, Some(*record));
    }
}

/// No request waits.
fn nothing_waits(rt: &impl Abort, sched: &Sched, when: &str) {
    same(rt, when, sched.best(Mode::Run), None);
}

// At 151 ms without a cycle point the cycle time is exceeded: without OB 80 the controller stops with
// cause 9, with it by the second time with cause 10. A cycle point clears the counter and the mark,
// RE_TRIGR the counter alone, and the begin of RUN the counter.
#[test]
fn cycle_time(rt: HostRuntime) {
    let mut sched = running_scheduler(&rt, rt.alloc(), &[]);
    passes(&rt, &mut sched, 150, Mode::Run);
    expect_tick(&rt, &mut sched, 1, Mode::Run, 1, Some(9), &[(1, 1)]);

    let mut sched = running_scheduler(&rt, rt.alloc(), &[80]);
    expect_tick(&rt, &mut sched, 151, Mode::Run, 151, None, &[(1, 1)]);
    expect_tick(&rt, &mut sched, 151, Mode::Run, 151, Some(10), &[]);

    let mut sched = running_scheduler(&rt, rt.alloc(), &[80]);
    expect_tick(&rt, &mut sched, 151, Mode::Run, 151, None, &[(1, 1)]);
    sched.re_trigger();
    passes(&rt, &mut sched, 150, Mode::Run);
    sched.cycle_point();
    expect_tick(
        &rt,
        &mut sched,
        151,
        Mode::Run,
        151,
        None,
        &[(1, 1), (2, 80)],
    );
    sched.begin_run();
    passes(&rt, &mut sched, 150, Mode::Run);
    sched.re_trigger();
    expect_tick(&rt, &mut sched, 151, Mode::Run, 151, Some(10), &[]);
    sched.restart();
    sched.begin_run();
    expect_tick(
        &rt,
        &mut sched,
        151,
        Mode::Run,
        151,
        None,
        &[(1, 1), (2, 80)],
    );
    expect_best(&rt, &mut sched, Mode::Run, (80, 26, 0x35));
}

// OB 38 alone stops by its second period. With OB 80 the tick goes on: OB 80 waits once, each further
// time error is lost, and the cycle time stops the controller.
#[test]
fn long_ticks(rt: HostRuntime) {
    let mut sched = running_scheduler(&rt, rt.alloc(), &[38]);
    expect_tick(&rt, &mut sched, 60_000, Mode::Run, 20, Some(9), &[(1, 38)]);

    let mut sched = running_scheduler(&rt, rt.alloc(), &[38, 80]);
    expect_tick(&rt, &mut sched, 20, Mode::Run, 20, None, &[(1, 38)]);
    expect_best(&rt, &mut sched, Mode::Run, (80, 26, 0x35));
    expect_best(&rt, &mut sched, Mode::Run, (38, 15, 0x11));

    let mut sched = running_scheduler(&rt, rt.alloc(), &[38, 80]);
    let passed = sched.pass_ms(60_000, Mode::Run, &[]);
    expect_second_cycle_time(&rt, &passed, 59, &[(0, (1, 38)), (58, (2, 80))]);

    // Of 103 records the last 100 are left.
    let mut sched = running_scheduler(&rt, rt.alloc(), &[36, 37, 38, 80]);
    let passed = sched.pass_ms(60_000, Mode::Run, &[36, 37, 38]);
    expect_second_cycle_time(&rt, &passed, 100, &[(0, (1, 38)), (1, (2, 80))]);
}

// The periods over 60,000 ms of RUN, each request started before the next millisecond is due: as many
// as the periods go into the time.
#[test]
fn periods(rt: HostRuntime) {
    let mut sched = running_scheduler(&rt, rt.alloc(), &[30, 31, 32, 33, 34, 35, 36, 37, 38, 80]);
    let mut counts = [0u32; 9];
    for _ in 0..6_000 {
        passes(&rt, &mut sched, 4, Mode::Run);
        nothing_waits(&rt, &sched, "4 ms after a period");
        passes(&rt, &mut sched, 6, Mode::Run);
        sched.cycle_point();
        for _ in 0..9 {
            let (ob, _, _) = start_best(&mut sched, Mode::Run);
            if (30..39).contains(&ob) {
                let count = &mut counts[usize::from(ob - 30)];
                *count = count.saturating_add(1);
            }
        }
    }
    let wanted = [12, 30, 60, 120, 300, 600, 1200, 3000, 6000];
    same(&rt, "OB 30 to 38", counts, wanted);
}

// A period that ends while its organization block is active is a time error; one of a disabled block,
// or of one that isn't loaded, is nothing. In STARTUP and in STOP no period moves.
#[test]
fn cyclic_interrupts(rt: HostRuntime) {
    let mut sched = running_scheduler(&rt, rt.alloc(), &[38, 80]);
    let passed = sched.pass_ms(10, Mode::Run, &[1, 38]);
    expect_records(&rt, &passed, &[(1, 38)]);
    expect_best(&rt, &mut sched, Mode::Run, (80, 26, 0x35));
    sched.disable(38);
    let passed = sched.pass_ms(10, Mode::Run, &[38]);
    expect_records(&rt, &passed, &[]);
    sched.enable(38);
    passes(&rt, &mut sched, 5000, Mode::Startup);
    passes(&rt, &mut sched, 9, Mode::Run);
    expect_tick(
        &rt,
        &mut sched,
        9000,
        Mode::Stop { cause: 2, at: None },
        0,
        None,
        &[],
    );
    nothing_waits(&rt, &sched, "1 ms before the period");
    passes(&rt, &mut sched, 1, Mode::Run);
    expect_best(&rt, &mut sched, Mode::Run, (38, 15, 0x11));
}

// Delays run in RUN and in STARTUP, and end by themselves, by CAN_DINT and by STOP. Within one
// millisecond they come before the cyclic interrupts: without OB 85 that of a block that isn't loaded
// stops the controller before OB 38 is requested.
#[test]
fn delays(rt: HostRuntime) {
    let mut sched = running_scheduler(&rt, rt.alloc(), &[20, 38, 80]);
    sched.start_delay(20, 9);
    sched.start_delay(20, 5);
    passes(&rt, &mut sched, 4, Mode::Startup);
    nothing_waits(&rt, &sched, "1 ms before the delay ends");
    passes(&rt, &mut sched, 1, Mode::Run);
    same(&rt, "delay that ended", sched.cancel_delay(20), false);
    sched.start_delay(20, 1);
    expect_tick(&rt, &mut sched, 1, Mode::Run, 1, None, &[(1, 20)]);
    sched.start_delay(20, 60_000);
    same(&rt, "delay that runs", sched.cancel_delay(20), true);
    same(&rt, "cancelled delay", sched.cancel_delay(20), false);
    expect_best(&rt, &mut sched, Mode::Run, (80, 26, 0x35));
    expect_best(&rt, &mut sched, Mode::Run, (20, 3, 0x11));

    sched.start_delay(23, 8);
    expect_tick(&rt, &mut sched, 100, Mode::Run, 8, Some(8), &[(3, 23)]);
    nothing_waits(&rt, &sched, "at the stop by OB 23");

    sched.start_delay(20, 3);
    sched.stop();
    same(&rt, "delay at STOP", sched.cancel_delay(20), false);
}

// The clock counts modulo 2^31, also in a tick of many milliseconds.
#[test]
fn clock(rt: HostRuntime) {
    let mut sched = Sched::new(rt.alloc(), &[]).expect(&rt, "memory");
    passes(&rt, &mut sched, 0x7FFF_FFFF, Mode::Startup);
    same(&rt, "greatest clock", sched.clock(), 0x7FFF_FFFF);
    passes(&rt, &mut sched, 2, Mode::Startup);
    same(&rt, "clock past 2^31", sched.clock(), 1);
    sched.stop();
    same(&rt, "clock at STOP", sched.clock(), 1);
    sched.restart();
    same(&rt, "clock at a restart", sched.clock(), 0);
}

/// The best request in RUN is this error: its organization block, start code, priority class, and the
/// block that it concerns. It is started, with the class of RUN.
fn expect_error(rt: &impl Abort, sched: &mut Sched, error: (u16, u8, u8, u8)) {
    let Some(best) = sched.best(Mode::Run) else {
        panic!(rt; "no request: {error:?}")
    };
    let (ob, _, _, _) = error;
    let bytes = best.info.bytes;
    same(rt, "best", (best.ob, bytes[1], bytes[2], bytes[7]), error);
    same(rt, error, start_best(sched, Mode::Run), (ob, 26, 0x35));
}

// A request with all that follows: one that finds its queue full is a time error, with a start code of
// its own for hardware interrupts; one of a block that isn't loaded requests OB 85. A request of OB 80
// or OB 85 that is lost is only recorded; without the block the controller stops.
#[test]
fn errors(rt: HostRuntime) {
    let mut sched = running_scheduler(&rt, rt.alloc(), &[10, 40, 80, 85]);
    let mut passed = TickResult::new();
    let info = StartInfo::new(StartEvent::Arrival { ob: 40, value: 0 }, 16);
    for _ in 0..10 {
        sched.request(Mode::Run, 40, info, &mut passed);
    }
    expect_records(&rt, &passed, &[(1, 40), (1, 40), (2, 80)]);
    expect_error(&rt, &mut sched, (80, 0x07, 26, 40));

    expect_arrival(&rt, &mut sched, 10, 0, Arrived::Queued);
    sched.request(Mode::Run, 10, info, &mut passed);
    expect_error(&rt, &mut sched, (80, 0x02, 26, 10));

    sched.request(Mode::Startup, 11, info, &mut passed);
    sched.request(Mode::Startup, 12, info, &mut passed);
    expect_error(&rt, &mut sched, (85, 0xA1, 28, 11));
    let records = [
        (1, 40),
        (1, 40),
        (2, 80),
        (1, 10),
        (3, 11),
        (3, 12),
        (2, 85),
    ];
    expect_records(&rt, &passed, &records);
    same(&rt, "stop with OB 85", passed.stop, None);
}

#[test]
fn errors_without_their_blocks(rt: HostRuntime) {
    let mut sched = running_scheduler(&rt, rt.alloc(), &[]);
    let mut passed = TickResult::new();
    let info = StartInfo::new(StartEvent::Arrival { ob: 40, value: 0 }, 16);
    sched.request(Mode::Run, 10, info, &mut passed);
    expect_records(&rt, &passed, &[(3, 10)]);
    same(&rt, "stop without OB 85", passed.stop, Some(8));
}
