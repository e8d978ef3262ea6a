use crate::compare::same;
use ob_sched::{Arrived, Sched, StartInfo, can_wait};
use plc_base::Mode;
use std::alloc::Global;
use std::process::Abort;

/// A scheduler in RUN, with these organization blocks loaded.
pub(crate) fn running_scheduler(rt: &impl Abort, alloc: Global, loaded: &[u16]) -> Sched {
    let mut sched = Sched::new(alloc, loaded).expect(rt, "memory");
    sched.begin_run();
    sched
}

/// A request with this number in its start information.
pub(crate) fn arrive(rt: &impl Abort, sched: &mut Sched, ob: u16, number: u8) -> Arrived {
    assert!(rt; can_wait(ob));
    sched.arrive(ob, numbered_info(number))
}

/// A request with this number in its start information is answered so.
pub(crate) fn expect_arrival(
    rt: &impl Abort,
    sched: &mut Sched,
    ob: u16,
    number: u8,
    answer: Arrived,
) {
    let arrived = arrive(rt, sched, ob, number);
    same(rt, (ob, number), arrived, answer);
}

/// A start information with this number in its first byte.
fn numbered_info(number: u8) -> StartInfo {
    let mut bytes = [0; 20];
    bytes[0] = number;
    StartInfo { bytes }
}

/// Starts the best request: its organization block, its priority class and the first byte of its start
/// information, or zeros where none is pending.
pub(crate) fn start_best(sched: &mut Sched, mode: Mode) -> (u16, u8, u8) {
    match sched.best(mode) {
        None => (0, 0, 0),
        Some(best) => {
            sched.start(best);
            (best.ob, best.class, best.info.bytes[0])
        }
    }
}

/// The best request is this one, in the form of `start_best`.
pub(crate) fn expect_best(rt: &impl Abort, sched: &mut Sched, mode: Mode, want: (u16, u8, u8)) {
    let best = start_best(sched, mode);
    same(rt, mode, best, want);
}
