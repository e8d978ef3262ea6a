ghost use Rattle.std.specs.Prelude.{◌≡◌, ◌-◌, ◌≤◌, OnOk};

use crate::compare::same;
use plc_base::NoMemory;
use std::process::Abort;
use std::test::Fail;
use var_access::{Entries, Entry, Run, What};

fn step(who: u8) -> Entry {
    Entry {
        who,
        what: What::Step,
    }
}

fn tick() -> Entry {
    Entry {
        who: 2,
        what: What::Tick { ms: 1 },
    }
}

fn push(rt: &impl Abort, history: &mut Entries, entry: &Entry, count: u64)
    requires { count ≤ history.old.spare }
    ensures { history.new.spare ≡ history.old.spare - count }
{
    assert!(rt; count >= 1);
    assert!(rt; entry.is_step() || count == 1);
    history.push(entry, count);
}

fn append(rt: &impl Abort, history: &mut Entries, entry: &Entry, count: u64) -> Result<(), NoMemory>
    requires { history.old.spare ≡ 0 }
    ensures { OnOk result (history.new.spare ≡ 0) }
{
    assert!(rt; count >= 1);
    assert!(rt; entry.is_step() || count == 1);
    assert!(rt; count < 1 << 62);
    assert!(rt; history.len() < 1 << 62);
    history.append(entry, count)
}

// Three steps of worker 1 in two calls, one of worker 2, one of worker 1 again, and two ticks that
// are the same: steps of one worker alone are one run.
#[test]
fn pushed_entries(rt: HostRuntime) -> Result<(), Fail> {
    let mut history = Entries::new(rt.alloc());
    same(&rt, "no entry", history.entry(0), None);
    history.reserve(7)?;
    push(&rt, &mut history, &step(1), 2);
    push(&rt, &mut history, &step(1), 1);
    push(&rt, &mut history, &step(2), 1);
    push(&rt, &mut history, &step(1), 1);
    push(&rt, &mut history, &tick(), 1);
    push(&rt, &mut history, &tick(), 1);
    same(&rt, "length", history.len(), 7);
    for (run, (entry, first, count)) in history.runs().iter().zip([
        (step(1), 0, 3),
        (step(2), 3, 1),
        (step(1), 4, 1),
        (tick(), 5, 1),
        (tick(), 6, 1),
    ]) {
        let wanted = Run {
            entry,
            first,
            count,
        };
        same(&rt, first, *run, wanted);
    }
    same(&rt, "runs", history.runs().len(), 5);
    for (place, entry) in [
        (0, Some(step(1))),
        (2, Some(step(1))),
        (3, Some(step(2))),
        (4, Some(step(1))),
        (5, Some(tick())),
        (6, Some(tick())),
        (7, None),
        (18_446_744_073_709_551_615, None),
    ] {
        same(&rt, place, history.entry(place), entry);
    }
    Ok(())
}

// A million steps are one run, and take no more memory than one.
#[test]
fn appended_entries(rt: HostRuntime) -> Result<(), Fail> {
    let mut history = Entries::new(rt.alloc());
    append(&rt, &mut history, &step(1), 1_000_000)?;
    append(&rt, &mut history, &tick(), 1)?;
    append(&rt, &mut history, &step(1), 1)?;
    same(&rt, "length", history.len(), 1_000_002);
    same(&rt, "last step", history.entry(999_999), Some(step(1)));
    same(&rt, "tick", history.entry(1_000_000), Some(tick()));
    same(&rt, "step", history.entry(1_000_001), Some(step(1)));
    same(&rt, "behind", history.entry(1_000_002), None);
    same(&rt, "runs", history.runs().len(), 3);
    Ok(())
}
