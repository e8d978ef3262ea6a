//! Two threads, each with a pass of its own.
ghost use Rattle.std.specs.Prelude.{◌≡◌, false};
ghost use Rattle.tests_lock.specs.Workers.{IsFree};

use crate::compare::same;
use crate::notes::{Note, Register};
use std::sync::Wait;
use std::test::Fail;
use std::thread::{Threads, join};
use tracked_lock::{NoMemory, Pass, TrackedLock};

/// Adds so many notes under the pass's number, 0, 1, 2 and so on, a turn each.
fn add_notes<R: Wait>(
    rt: &R,
    lock: &TrackedLock<Register>,
    mut pass: Pass<Register>,
    count: u64,
) -> (Pass<Register>, Result<(), NoMemory>)
    requires { IsFree lock.now pass }
    ensures { IsFree lock.now result.0 }
{
    let who = pass.number();
    for value in 0..count {
        let mut held = lock.take(rt, &mut pass);
        let noted = held.value_mut().note(who, value);
        lock.put(&mut pass, held);
        if noted.is_err() {
            return (pass, noted);
        }
    }
    (pass, Ok(()))
}

/// Whether the values of this maker's notes are 0, 1, 2 and so on, and so many.
fn counts_to(notes: &[Note], who: u8, count: u64) -> bool {
    let values = notes
        .iter()
        .filter(|note| note.who == who)
        .map(|note| note.value);
    values.eq(0..count)
}

/// Both passes in one, after a thread with each has added its notes.
fn add_by_two<R: Threads + Wait + Sync>(
    rt: &R,
    lock: &TrackedLock<Register>,
    first: Pass<Register>,
    second: Pass<Register>,
    count: u64,
) -> (Pass<Register>, Result<(), NoMemory>)
    requires { IsFree lock.now first × IsFree lock.now second }
    ensures { IsFree lock.now result.0 }
{
    let ((mut first, one), (second, other)) = join(
        rt,
        || -> (Pass<Register>, Result<(), NoMemory>)
            requires { IsFree lock.now first }
            ensures { IsFree lock.entry.now result.0 }
        { add_notes(rt, lock, first, count) },
        || -> (Pass<Register>, Result<(), NoMemory>)
            requires { IsFree lock.now second }
            ensures { IsFree lock.entry.now result.0 }
        { add_notes(rt, lock, second, count) },
    );
    lock.join(&mut first, second);
    (first, one.and(other))
}

#[test]
fn each_threads_notes_stand_whole_and_in_order(rt: HostRuntime) -> Result<(), Fail> {
    let register = Register {
        first: 7,
        notes: Vec::new(rt.alloc()),
    };
    let (lock, mut passes) = TrackedLock::new(rt.alloc(), register, 2)?;
    let first = passes.remove(0);
    let second = passes.remove(0);
    let (pass, added) = add_by_two(&rt, &lock, first, second, 1000);
    added?;
    let Ok(register) = lock.close(pass) else {
        panic!(rt; "all numbers are there")
    };
    let notes = register.notes.as_slice();
    same(&rt, "notes of both", notes.len(), 2000);
    same(&rt, "the first's in order", counts_to(notes, 1, 1000), true);
    same(
        &rt,
        "the second's in order",
        counts_to(notes, 2, 1000),
        true,
    );
    Ok(())
}
