//! Live runs whose workers meet at the gate, in an order that the test wants.
use crate::calls::{NamedBytes, call, files_of};
use crate::compare::same;
use crate::images::EMPTY;
use plc_io::{Gate, MemFiles, MemSink, OpenGate};
use std::alloc::Global;
use std::hint::spin_loop;
use std::process::Abort;
use std::str::from_utf8;
use std::sync::Wait;
use std::sync::atomic::{AtomicBool, AtomicU64, Ordering};
use std::test::Fail;
use std::thread::Threads;

const LIVE: &[&str] = &[
    "live", "image", "stimuli", "first", "second", "--steps", "4",
];

static FILES: [NamedBytes; 4] = [
    ("image", EMPTY),
    ("stimuli", b"in 0 01\nin 0 01\nin 0 01\nin 0 01\n"),
    ("first", b"read MB 1\nread MB 1\nread MB 1\nread MB 1\n"),
    ("second", b"read MB 2\nread MB 2\nread MB 2\nread MB 2\n"),
];

/// How often a worker looks whether the others have come, at most.
const MOST_TURNS: u64 = 1_000_000_000;

/// Whom a worker waits for before an entry.
#[derive(Clone, Copy, Debug, PartialEq, Eq)]
enum Waiting {
    /// Each waits before its second entry for the second of each.
    ForAll,
    /// This worker waits before its second entry for the fourth of another.
    ForOther { who: u8, other: u8 },
}

/// A gate that knows the turns that the four workers have come to, and makes them wait for each other.
#[derive(Drop)]
struct MeetingGate {
    turns: [AtomicU64; 4],
    missed: AtomicBool,
    waiting: Waiting,
}

impl MeetingGate {
    fn new(waiting: Waiting) -> MeetingGate {
        MeetingGate {
            turns: [
                AtomicU64::new(0),
                AtomicU64::new(0),
                AtomicU64::new(0),
                AtomicU64::new(0),
            ],
            missed: AtomicBool::new(false),
            waiting,
        }
    }

    /// The turns of a worker, which are numbered from 1.
    fn turns_of(&self, who: u8) -> &AtomicU64 {
        &self.turns[(usize::from(who) + 3) % 4]
    }

    /// Whether the worker needn't wait, or no longer.
    fn may_go_on(&self, who: u8) -> bool {
        match self.waiting {
            Waiting::ForAll => self.turns.iter().all(|t| t.load(Ordering::SeqCst) >= 2),
            Waiting::ForOther { who: one, other } => {
                who != one || self.turns_of(other).load(Ordering::SeqCst) >= 4
            }
        }
    }
}

impl Gate for MeetingGate {
    fn pass(&self, who: u8, turn: u64) {
        self.turns_of(who).store(turn, Ordering::SeqCst);
        if turn != 2 {
            return;
        }
        for _ in 0..MOST_TURNS {
            if self.may_go_on(who) {
                return;
            }
            spin_loop();
        }
        self.missed.store(true, Ordering::SeqCst);
    }
}

/// The printed history, and the text of the run behind the line `---`.
fn parts_of(text: &str) -> (&str, &str) {
    match text.split_once("---\n") {
        Some(parts) => parts,
        None => (text, ""),
    }
}

/// The lines of a history that begin so.
fn count_of(history: &str, head: &str) -> usize {
    history
        .lines()
        .filter(|line| line.starts_with(head))
        .count()
}

/// How many lines that begin as `other` stand in a history before the second line that begins as
/// `head`.
fn count_before_second(history: &str, head: &str, other: &str) -> usize {
    let mut is_second = false;
    let mut count = 0usize;
    for line in history.lines() {
        if line.starts_with(head) {
            if is_second {
                return count;
            }
            is_second = true;
        }
        if line.starts_with(other) {
            count = count.wrapping_add(1);
        }
    }
    count
}

/// Runs the image along the printed history, and compares what that writes with the text behind it.
fn runs_again<R: Abort + Threads + Wait + Sync>(
    rt: &R,
    alloc: Global,
    files: &mut MemFiles,
    history: &str,
    text: &str,
) -> Result<(), Fail> {
    files.put("history", history.as_bytes())?;
    let mut out = MemSink::new(alloc, 1000);
    let words = ["run", "image", "history"];
    let code = call(rt, alloc, &words, files, &mut out, &OpenGate)?;
    let answer = (code, out.taken.as_slice());
    same(rt, history, answer, (0, text.as_bytes()));
    Ok(())
}

/// Compares the entries of a history, and the end of its run.
fn is_whole(rt: &impl Abort, history: &str, run: &str) {
    for head in ["in 0 01", "op 1 read MB1", "op 2 read MB2"] {
        same(rt, head, count_of(history, head), 4);
    }
    same(rt, run, run.ends_with("END 16 RUN\n"), true);
}

/// Compares how many requests of one operator stand before the second of another, if that is wanted.
fn is_in_order(rt: &impl Abort, history: &str, waits: Option<(&str, &str)>) {
    if let Some((head, other)) = waits {
        let before = count_before_second(history, head, other);
        same(rt, before, before >= 3, true);
    }
}

/// Compares what a live run of the empty program has written.
fn is_live_text<R: Abort + Threads + Wait + Sync>(
    rt: &R,
    alloc: Global,
    files: &mut MemFiles,
    text: &[u8],
    waits: Option<(&str, &str)>,
) -> Result<(), Fail> {
    let (history, run) = parts_of(from_utf8(text).unwrap_or(""));
    is_whole(rt, history, run);
    is_in_order(rt, history, waits);
    runs_again(rt, alloc, files, history, run)
}

/// A live run of the empty program, whose workers meet so, where the second request of one operator
/// may stand behind three of another.
fn meets<R: Abort + Threads + Wait + Sync>(
    rt: &R,
    alloc: Global,
    waiting: Waiting,
    waits: Option<(&str, &str)>,
) -> Result<(), Fail> {
    let mut files = files_of(alloc, &FILES)?;
    let gate = MeetingGate::new(waiting);
    let mut out = MemSink::new(alloc, 1000);
    let code = call(rt, alloc, LIVE, &mut files, &mut out, &gate)?;
    let missed = gate.missed.load(Ordering::SeqCst);
    same(rt, waiting, (code, missed), (0, false));
    is_live_text(rt, alloc, &mut files, out.taken.as_slice(), waits)
}

// No worker makes its second entry before each has come to it: they work beside each other.
#[test]
fn all_meet(rt: HostRuntime) -> Result<(), Fail> {
    meets(&rt, rt.alloc(), Waiting::ForAll, None)
}

// The first operator's second request comes behind three of the second.
#[test]
fn first_waits_for_second(rt: HostRuntime) -> Result<(), Fail> {
    let waiting = Waiting::ForOther { who: 3, other: 4 };
    meets(&rt, rt.alloc(), waiting, Some(("op 1", "op 2")))
}

// The second operator's second request comes behind three of the first.
#[test]
fn second_waits_for_first(rt: HostRuntime) -> Result<(), Fail> {
    let waiting = Waiting::ForOther { who: 4, other: 3 };
    meets(&rt, rt.alloc(), waiting, Some(("op 2", "op 1")))
}
