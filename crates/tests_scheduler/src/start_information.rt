use crate::compare::same;
use ob_sched::{StartEvent, StartInfo, is_ob};

/// An event and a priority class, and the bytes 0 to 11 that they give; bytes 12 to 19 are 0.
const ROWS: [(StartEvent, u8, [u8; 12]); 13] = [
    (
        StartEvent::Cycle { first: true },
        1,
        [0x11, 0x01, 1, 1, 0, 0, 0, 0, 0, 0, 0, 0],
    ),
    (
        StartEvent::Cycle { first: false },
        1,
        [0x11, 0x03, 1, 1, 0, 0, 0, 0, 0, 0, 0, 0],
    ),
    (
        StartEvent::Startup,
        27,
        [0x13, 0x81, 27, 100, 0, 0, 0, 0, 0, 0, 0, 0],
    ),
    (
        StartEvent::Arrival {
            ob: 17,
            value: 0x89AB_CDEF,
        },
        2,
        [0x11, 0x18, 2, 17, 0, 0, 0, 0, 0x89, 0xAB, 0xCD, 0xEF],
    ),
    (
        StartEvent::Arrival { ob: 40, value: 3 },
        16,
        [0x11, 0x41, 16, 40, 0, 0, 0, 0, 0, 0, 0, 3],
    ),
    (
        StartEvent::Delay { ob: 22 },
        5,
        [0x11, 0x23, 5, 22, 0, 0, 0, 0, 0, 0, 0, 0],
    ),
    (
        StartEvent::Period { ob: 38 },
        15,
        [0x11, 0x39, 15, 38, 0, 0, 0, 0, 0, 0, 0, 0],
    ),
    (
        StartEvent::CycleTime,
        26,
        [0x35, 0x01, 26, 80, 0, 0, 0, 1, 0, 0, 0, 0],
    ),
    (
        StartEvent::Missed { ob: 38 },
        28,
        [0x35, 0x02, 28, 80, 0, 0, 0, 38, 0, 0, 0, 0],
    ),
    (
        StartEvent::QueueFull { ob: 41 },
        26,
        [0x35, 0x07, 26, 80, 0, 0, 0, 41, 0, 0, 0, 0],
    ),
    (
        StartEvent::NotLoaded { ob: 10 },
        26,
        [0x35, 0xA1, 26, 85, 0, 0, 0, 10, 0, 0, 0, 0],
    ),
    (
        StartEvent::Synchronous {
            code: 0x3A,
            kind: 3,
            number: 2047,
            line: 0x0001_0203,
        },
        1,
        [0x25, 0x3A, 1, 121, 0, 3, 0x07, 0xFF, 0, 1, 2, 3],
    ),
    (
        StartEvent::Synchronous {
            code: 0x42,
            kind: 1,
            number: 1,
            line: 5,
        },
        16,
        [0x29, 0x42, 16, 122, 0, 1, 0, 1, 0, 0, 0, 5],
    ),
];

#[test]
fn bytes(rt: HostRuntime) {
    for (event, class, bytes) in ROWS {
        let info = StartInfo::new(event, class);
        same(&rt, event, &info.bytes[..12], &bytes[..]);
        same(&rt, event, &info.bytes[12..], &[0; 8][..]);
        same(&rt, event, is_ob(event.ob()), true);
    }
}
