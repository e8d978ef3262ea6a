use crate::compare::same;
use crate::tools::{expect_arrival, expect_best, running_scheduler, start_best};
use ob_sched::{Arrived, Sched, laws};
use plc_base::Mode;
use std::process::Abort;

/// All organization blocks that can wait, with their priority classes in RUN.
const CLASSES: [(u16, u8); 32] = [
    (1, 1),
    (10, 2),
    (11, 2),
    (12, 2),
    (13, 2),
    (14, 2),
    (15, 2),
    (16, 2),
    (17, 2),
    (20, 3),
    (21, 4),
    (22, 5),
    (23, 6),
    (30, 7),
    (31, 8),
    (32, 9),
    (33, 10),
    (34, 11),
    (35, 12),
    (36, 13),
    (37, 14),
    (38, 15),
    (40, 16),
    (41, 17),
    (42, 18),
    (43, 19),
    (44, 20),
    (45, 21),
    (46, 22),
    (47, 23),
    (80, 26),
    (85, 26),
];

const LOADED: [u16; 32] = [
    1, 10, 11, 12, 13, 14, 15, 16, 17, 20, 21, 22, 23, 30, 31, 32, 33, 34, 35, 36, 37, 38, 40, 41,
    42, 43, 44, 45, 46, 47, 80, 85,
];

/// A request of a block with this number, alone: it is the best one in a mode, of this class, and
/// nothing waits behind it.
fn is_best_alone(rt: &impl Abort, sched: &mut Sched, mode: Mode, request: (u16, u8, u8)) {
    let (ob, _, number) = request;
    expect_arrival(rt, sched, ob, number, Arrived::Queued);
    expect_best(rt, sched, mode, request);
    same(rt, ("behind OB", ob), start_best(sched, mode), (0, 0, 0));
}

// Every request alone: its class in RUN and in STARTUP, where OB 80 and OB 85 have class 28. Then all
// of them, from the lowest class up and from the highest down: they are started by class, and of one
// class the earlier arrival first.
#[test]
fn every_class_is_best_once(rt: HostRuntime) {
    let mut sched = running_scheduler(&rt, rt.alloc(), &LOADED);
    for (ob, class) in CLASSES {
        is_best_alone(&rt, &mut sched, Mode::Run, (ob, class, 7));
        let class = if class == 26 { 28 } else { class };
        is_best_alone(&rt, &mut sched, Mode::Startup, (ob, class, 9));
    }
    for (ob, _) in CLASSES {
        expect_arrival(&rt, &mut sched, ob, 0, Arrived::Queued);
    }
    same(&rt, "classes of all", sched.bins().map, 0x04FF_FFFE);
    for (ob, class) in [(80, 26), (85, 26), (47, 23), (46, 22), (45, 21), (44, 20)] {
        expect_best(&rt, &mut sched, Mode::Run, (ob, class, 0));
    }
    same(&rt, "classes up to 19", sched.bins().map, 0x000F_FFFE);
    sched.stop();
    same(&rt, "classes after STOP", sched.bins().map, 0);
    for ob in [17, 10, 1, 20, 11, 85, 80] {
        expect_arrival(&rt, &mut sched, ob, 0, Arrived::Queued);
    }
    for (ob, class) in [
        (85, 28),
        (80, 28),
        (20, 3),
        (17, 2),
        (10, 2),
        (11, 2),
        (1, 1),
        (0, 0),
    ] {
        expect_best(&rt, &mut sched, Mode::Startup, (ob, class, 0));
    }
}

// A hardware interrupt has a queue of eight, which gives its requests in the order of their arrival;
// each other organization block has a queue of one.
#[test]
fn queues(rt: HostRuntime) {
    let mut sched = running_scheduler(&rt, rt.alloc(), &[1, 10, 40, 80]);
    for number in 1..9 {
        expect_arrival(&rt, &mut sched, 40, number, Arrived::Queued);
    }
    expect_arrival(&rt, &mut sched, 40, 9, Arrived::Full);
    expect_best(&rt, &mut sched, Mode::Run, (40, 16, 1));
    expect_arrival(&rt, &mut sched, 40, 10, Arrived::Queued);
    for number in [2, 3, 4, 5, 6, 7, 8, 10] {
        expect_best(&rt, &mut sched, Mode::Run, (40, 16, number));
    }
    for ob in [1, 10, 80] {
        expect_arrival(&rt, &mut sched, ob, 1, Arrived::Queued);
        expect_arrival(&rt, &mut sched, ob, 2, Arrived::Full);
    }
}

// A disabled block's request is dropped, whether it is loaded or not; a start of the controller
// enables all of them.
#[test]
fn disabled_blocks(rt: HostRuntime) {
    let mut sched = running_scheduler(&rt, rt.alloc(), &[1, 10, 40, 80]);
    expect_arrival(&rt, &mut sched, 10, 1, Arrived::Queued);
    expect_arrival(&rt, &mut sched, 41, 1, Arrived::NotLoaded);
    sched.disable(41);
    sched.disable(10);
    expect_arrival(&rt, &mut sched, 41, 2, Arrived::Dropped);
    expect_arrival(&rt, &mut sched, 10, 2, Arrived::Dropped);
    sched.enable(41);
    expect_arrival(&rt, &mut sched, 41, 3, Arrived::NotLoaded);
    expect_arrival(&rt, &mut sched, 10, 3, Arrived::Dropped);
    sched.restart();
    expect_arrival(&rt, &mut sched, 10, 4, Arrived::Full);
}

#[test]
fn nothing_is_pending_at_first(rt: HostRuntime) {
    let sched = Sched::new(rt.alloc(), &[]).expect(&rt, "memory");
    same(&rt, "best request", sched.best(Mode::Run), None);
    same(&rt, "clock", sched.clock(), 0);
    laws::queued_joins();
    laws::best_outranks_all();
    laws::started_leaves();
}
