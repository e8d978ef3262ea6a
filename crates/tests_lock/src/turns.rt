//! One thread with several passes.
ghost use Rattle.std.specs.Prelude.{◌≡◌, [], ◌∷◌, IfOk};

use crate::compare::same;
use crate::notes::{Note, Register};
use std::alloc::Global;
use std::test::Fail;
use tracked_lock::{NoMemory, Pass, SeatsOut, TrackedLock};

/// A register without notes.
fn empty_register(alloc: Global) -> Register
    ensures { result.notes.items ≡ [] }
{
    Register {
        first: 7,
        notes: Vec::new(alloc),
    }
}

#[test]
fn notes_stand_in_the_order_of_the_turns(rt: HostRuntime) -> Result<(), Fail> {
    let (lock, mut passes) = TrackedLock::new(rt.alloc(), empty_register(rt.alloc()), 3)?;
    let mut first = passes.remove(0);
    let mut second = passes.remove(0);
    let third = passes.remove(0);
    same(&rt, "first number", first.number(), 1);
    same(&rt, "second number", second.number(), 2);
    same(&rt, "third number", third.number(), 3);

    let mut held = lock.take(&rt, &mut first);
    let noted = held.value_mut().note(1, 10);
    lock.put(&mut first, held);
    noted?;
    same(&rt, "the first has seen its note", first.seen(), 1);
    same(&rt, "the second has seen none", second.seen(), 0);

    let mut held = lock.take(&rt, &mut second);
    let want = [Note { who: 1, value: 10 }];
    let notes = held.value().notes.as_slice();
    same(&rt, "notes at the second turn", notes, want.as_slice());
    let noted = held.value_mut().note(2, 20);
    lock.put(&mut second, held);
    noted?;
    same(&rt, "the first has seen no further note", first.seen(), 1);
    same(&rt, "the second has seen both", second.seen(), 2);

    lock.join(&mut first, second);
    lock.join(&mut first, third);
    same(&rt, "notes seen when joined", first.seen(), 2);
    let Ok(register) = lock.close(first) else {
        panic!(rt; "all numbers are there")
    };
    same(&rt, "origin", register.first, 7);
    let want = [Note { who: 1, value: 10 }, Note { who: 2, value: 20 }];
    let notes = register.notes.as_slice();
    same(&rt, "notes at the end", notes, want.as_slice());
    Ok(())
}

#[test]
fn a_pass_that_is_out_keeps_the_lock_open(rt: HostRuntime) -> Result<(), Fail> {
    let (lock, mut passes) = TrackedLock::new(rt.alloc(), empty_register(rt.alloc()), 2)?;
    let first = passes.remove(0);
    let second = passes.remove(0);
    let Err(SeatsOut { count, lock, pass }) = lock.close(first) else {
        panic!(rt; "a pass is out")
    };
    same(&rt, "numbers out", count, 1);
    let mut first = pass;
    lock.join(&mut first, second);
    same(&rt, "closed then", lock.close(first).is_ok(), true);
    Ok(())
}

#[test]
fn a_dropped_pass_keeps_its_number_out(rt: HostRuntime) -> Result<(), Fail> {
    let (lock, mut passes) = TrackedLock::new(rt.alloc(), empty_register(rt.alloc()), 2)?;
    let first = passes.remove(0);
    drop(passes);
    let Err(SeatsOut { count, lock, pass }) = lock.close(first) else {
        panic!(rt; "a pass was dropped")
    };
    same(&rt, "numbers out", count, 1);
    // lock and pass go on as before
    let mut first = pass;
    let mut held = lock.take(&rt, &mut first);
    let noted = held.value_mut().note(1, 5);
    lock.put(&mut first, held);
    noted?;
    same(&rt, "notes seen", first.seen(), 1);
    let Err(SeatsOut { count, .. }) = lock.close(first) else {
        panic!(rt; "a pass was dropped")
    };
    same(&rt, "numbers out again", count, 1);
    Ok(())
}
