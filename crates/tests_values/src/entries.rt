use crate::compare::same;
use var_access::{Entry, What};

// Worker 0 makes no entry, PIB 128 to 255 don't exist, and no interrupt requests OB 18 or OB 39.
#[test]
fn valid_entries(rt: HostRuntime) {
    for (who, what, valid) in [
        (1, What::Step, true),
        (0, What::Step, false),
        (
            2,
            What::Input {
                byte: 127,
                value: 255,
            },
            true,
        ),
        (
            2,
            What::Input {
                byte: 128,
                value: 0,
            },
            false,
        ),
        (
            2,
            What::Input {
                byte: 256,
                value: 0,
            },
            true,
        ),
        (
            2,
            What::Input {
                byte: 768,
                value: 0,
            },
            false,
        ),
        (2, What::Arrive { ob: 10, value: 0 }, true),
        (2, What::Arrive { ob: 18, value: 0 }, false),
        (2, What::Arrive { ob: 39, value: 0 }, false),
        (2, What::Arrive { ob: 47, value: 0 }, true),
    ] {
        let entry = Entry { who, what };
        same(&rt, entry, entry.is_valid(), valid);
    }
}
