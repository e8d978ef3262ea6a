use crate::compare::same;
use ob_sched::{can_wait, class_in};
use plc_base::Mode;

// Organization blocks with their priority classes in RUN and in STARTUP: the first and the last one of
// each kind.
#[test]
fn classes_by_mode(rt: HostRuntime) {
    for (ob, in_run, in_startup) in [
        (1, 1, 1),
        (10, 2, 2),
        (17, 2, 2),
        (20, 3, 3),
        (23, 6, 6),
        (30, 7, 7),
        (38, 15, 15),
        (40, 16, 16),
        (47, 23, 23),
        (80, 26, 28),
        (85, 26, 28),
        (100, 27, 27),
    ] {
        assert!(rt; can_wait(ob) || ob == 100);
        let found = (class_in(Mode::Run, ob), class_in(Mode::Startup, ob));
        same(&rt, ("OB", ob), found, (in_run, in_startup));
    }
}
