//! The history as runs: steps of one worker in a row are one run, every other entry is a run of its
//! own.
use crate::bench::{MOST_ENTRIES, controller_of};
use crate::compare::same;
use controller::Controller;
use std::alloc::Global;
use std::process::Abort;
use std::test::Fail;
use var_access::{Entry, Request, Run, What};

/// A run: the place of its first entry, counted from 0, the worker, what happens, and how often.
type RunRow = (u64, u8, &'static str, u64);

/// A worker, what it does and how often, in the order of a history, and the runs of the history.
struct Row {
    entries: &'static [(u8, &'static str, u64)],
    runs: &'static [RunRow],
}

static ROWS: [Row; 6] = [
    Row {
        entries: &[],
        runs: &[],
    },
    Row {
        entries: &[(1, "step", 4), (1, "step", 1), (1, "step", 7)],
        runs: &[(0, 1, "step", 12)],
    },
    // steps of two workers, and a worker that comes again
    Row {
        entries: &[
            (1, "step", 3),
            (2, "step", 2),
            (2, "step", 2),
            (1, "step", 1),
        ],
        runs: &[(0, 1, "step", 3), (3, 2, "step", 4), (7, 1, "step", 1)],
    },
    // equal entries that aren't steps
    Row {
        entries: &[(2, "in", 2), (2, "tick", 3)],
        runs: &[
            (0, 2, "in", 1),
            (1, 2, "in", 1),
            (2, 2, "tick", 1),
            (3, 2, "tick", 1),
            (4, 2, "tick", 1),
        ],
    },
    // one between steps of one worker
    Row {
        entries: &[
            (1, "step", 2),
            (2, "arrive", 1),
            (1, "step", 6),
            (3, "stop", 1),
            (1, "step", 1),
        ],
        runs: &[
            (0, 1, "step", 2),
            (2, 2, "arrive", 1),
            (3, 1, "step", 6),
            (9, 3, "stop", 1),
            (10, 1, "step", 1),
        ],
    },
    Row {
        entries: &[(2, "tick", 1), (1, "step", 1), (2, "in", 1)],
        runs: &[(0, 2, "tick", 1), (1, 1, "step", 1), (2, 2, "in", 1)],
    },
];

/// What happens, by its word.
fn what_of(word: &str) -> What {
    match word {
        "in" => What::Input { byte: 3, value: 7 },
        "arrive" => What::Arrive { ob: 40, value: 0 },
        "tick" => What::Tick { ms: 5 },
        "stop" => What::Ask {
            request: Request::Stop,
        },
        _ => What::Step,
    }
}

fn entry_of(who: u8, word: &str) -> Entry {
    Entry {
        who,
        what: what_of(word),
    }
}

/// A statement that shows nothing, again and again.
const QUIET: &str = "x: JU x";

/// The most entries that one call makes.
const MOST_MADE: u64 = 1_000_000;

/// Makes an entry so often, one by one.
fn enter_each(
    rt: &impl Abort,
    controller: &mut Controller,
    entry: &Entry,
    count: u64,
) -> Result<(), Fail> {
    for _ in 0..count {
        assert!(rt; controller.history_len() < MOST_ENTRIES);
        assert!(rt; entry.is_valid());
        controller.reserve(1)?;
        controller.enter(entry);
    }
    Ok(())
}

/// Makes an entry at most so often, a step in a row as long as it shows nothing; how often it was made.
fn pass_steps(
    rt: &impl Abort,
    controller: &mut Controller,
    entry: &Entry,
    count: u64,
) -> Result<u64, Fail> {
    if let What::Step = entry.what {
        assert!(rt; controller.history_len() < MOST_ENTRIES && count <= MOST_MADE);
        controller.reserve(count)?;
        return Ok(controller.step_silently(entry, count));
    }
    Ok(0)
}

/// Makes an entry so often, steps in a row as far as they show nothing, or one by one.
fn enter_all(
    rt: &impl Abort,
    controller: &mut Controller,
    entry: &Entry,
    count: u64,
    in_a_row: bool,
) -> Result<(), Fail> {
    let made = if in_a_row {
        pass_steps(rt, controller, entry, count)?
    } else {
        0
    };
    enter_each(rt, controller, entry, count.saturating_sub(made))
}

/// The run, and the entries at its ends.
fn has_run(rt: &impl Abort, controller: &Controller, got: &Run, want: &RunRow) {
    let (first, who, word, count) = *want;
    let last = first.saturating_add(count).saturating_sub(1);
    same(rt, "its place", (got.first, got.count), (first, count));
    same(rt, "its entry", got.entry, entry_of(who, word));
    same(
        rt,
        "first",
        controller.entry(first),
        Some(entry_of(who, word)),
    );
    same(
        rt,
        "last",
        controller.entry(last),
        Some(entry_of(who, word)),
    );
}

/// The history has these runs.
fn has_runs(rt: &impl Abort, controller: &Controller, wanted: &[RunRow]) {
    let runs = controller.runs();
    same(rt, "how many runs", runs.len(), wanted.len());
    for (got, want) in runs.iter().zip(wanted) {
        has_run(rt, controller, got, want);
    }
    same(
        rt,
        "none further",
        controller.entry(controller.history_len()),
        None,
    );
}

/// Makes the entries of a row.
fn enter_row(
    rt: &impl Abort,
    controller: &mut Controller,
    row: &Row,
    in_a_row: bool,
) -> Result<(), Fail> {
    for (who, word, count) in row.entries {
        enter_all(rt, controller, &entry_of(*who, word), *count, in_a_row)?;
    }
    Ok(())
}

/// The entries of a row make its runs.
fn makes_runs(
    rt: &impl Abort,
    controller: &mut Controller,
    row: &Row,
    in_a_row: bool,
) -> Result<(), Fail> {
    enter_row(rt, controller, row, in_a_row)?;
    has_runs(rt, controller, row.runs);
    Ok(())
}

fn row_holds(alloc: Global, rt: &impl Abort, row: &Row, in_a_row: bool) -> Result<(), Fail> {
    let mut controller = controller_of(alloc, QUIET)?;
    makes_runs(rt, &mut controller, row, in_a_row)
}

fn rows_hold(alloc: Global, rt: &impl Abort, in_a_row: bool) -> Result<(), Fail> {
    for row in &ROWS {
        row_holds(alloc, rt, row, in_a_row)?;
    }
    Ok(())
}

#[test]
fn entries_one_by_one(rt: HostRuntime) -> Result<(), Fail> {
    rows_hold(rt.alloc(), &rt, false)
}

#[test]
fn steps_in_a_row(rt: HostRuntime) -> Result<(), Fail> {
    rows_hold(rt.alloc(), &rt, true)
}

/// The run of a million steps.
static MILLION: [RunRow; 1] = [(0, 1, "step", 1_000_000)];

/// The first step begins OB 1, and no other shows anything.
fn make_a_million_steps(rt: &impl Abort, controller: &mut Controller) -> Result<(), Fail> {
    let step = Entry {
        who: 1,
        what: What::Step,
    };
    enter_each(rt, controller, &step, 1)?;
    let made = pass_steps(rt, controller, &step, 999_999)?;
    same(rt, "made", made, 999_999);
    same(rt, "entries", controller.history_len(), 1_000_000);
    has_runs(rt, controller, &MILLION);
    Ok(())
}

#[test]
fn a_million_steps_are_one_run(rt: HostRuntime) -> Result<(), Fail> {
    let mut controller = controller_of(rt.alloc(), QUIET)?;
    make_a_million_steps(&rt, &mut controller)
}
