//! Steps that show nothing are passed in a row, and all comes out as one by one.
use crate::bench::{MOST_ENTRIES, apply_line, controller_of, write_end};
use crate::compare::same;
use controller::Controller;
use plc_base::Mode;
use std::alloc::Global;
use std::process::Abort;
use std::test::Fail;
use var_access::{Entry, What};

/// A program, so many steps, of which so many are taken in a row, an input and so many steps more; and
/// what all of them show. No program comes to RUN in the first steps.
type Row = (&'static str, u8, u8, u8, &'static str);

static ROWS: [Row; 5] = [
    (
        "OB 100 20 0 { L #1; x: INC #1; JU x",
        100,
        100,
        3,
        "END 104 STARTUP",
    ),
    (
        "OB 100 20 0 { L #7; T PB256; x: L PB0; T PB257; JU x",
        50,
        1,
        4,
        "@2 PQ 256 = 07 | @53 PQ 257 = 01 | END 55 STARTUP",
    ),
    (
        "OB 100 20 0 { NOP #0; NOP #0",
        2,
        2,
        2,
        "@4 MODE RUN | END 5 RUN",
    ),
    // a call and the return from it, and a call that isn't made
    (
        "OB 100 20 0 { x: UC FC1; JU x | FC 1 0 0 { NOP #0",
        100,
        100,
        3,
        "END 104 STARTUP",
    ),
    (
        "OB 100 20 0 { CLR; CC FC1; x: JU x | FC 1 0 0 { NOP #0",
        50,
        1,
        4,
        "END 55 STARTUP",
    ),
];

/// Takes so many steps in a row, of which so many are made.
fn pass_steps(
    rt: &impl Abort,
    controller: &mut Controller,
    when: &str,
    steps: u8,
    made: u8,
) -> Result<(), Fail> {
    assert!(rt; controller.history_len() < MOST_ENTRIES);
    let most = u64::from(steps);
    controller.reserve(most)?;
    let step = Entry {
        who: 1,
        what: What::Step,
    };
    let passed = controller.step_silently(&step, most);
    same(rt, when, passed, u64::from(made));
    Ok(())
}

/// Makes so many steps, an input, and so many steps more, one by one.
fn apply_each(
    rt: &impl Abort,
    controller: &mut Controller,
    out: &mut String,
    first: u8,
    then: u8,
) -> Result<(), Fail> {
    for _ in 0..first {
        apply_line(rt, controller, out, "step 1")?;
    }
    apply_line(rt, controller, out, "in 0 01")?;
    for _ in 0..then {
        apply_line(rt, controller, out, "step 1")?;
    }
    Ok(write_end(rt, out, controller)?)
}

/// Makes the entries of a row, the first steps in a row as far as they show nothing, then one by one.
fn write_in_a_row(
    rt: &impl Abort,
    controller: &mut Controller,
    out: &mut String,
    row: &Row,
) -> Result<(), Fail> {
    let (program, first, in_a_row, then, _) = *row;
    pass_steps(rt, controller, program, first, in_a_row)?;
    same(rt, program, controller.history_len(), u64::from(in_a_row));
    same(rt, program, controller.mode() == Mode::Startup, true);
    apply_each(rt, controller, out, first.saturating_sub(in_a_row), then)
}

/// Makes the entries of a row.
fn write_row(
    rt: &impl Abort,
    controller: &mut Controller,
    out: &mut String,
    row: &Row,
    in_a_row: bool,
) -> Result<(), Fail> {
    if in_a_row {
        write_in_a_row(rt, controller, out, row)
    } else {
        apply_each(rt, controller, out, row.1, row.3)
    }
}

/// The text of all entries of a row, made by a controller.
fn text_by(
    alloc: Global,
    rt: &impl Abort,
    controller: &mut Controller,
    row: &Row,
    in_a_row: bool,
) -> Result<String, Fail> {
    let mut out = String::new(alloc);
    write_row(rt, controller, &mut out, row, in_a_row)?;
    Ok(out)
}

/// The text of all entries of a row.
fn text(alloc: Global, rt: &impl Abort, row: &Row, in_a_row: bool) -> Result<String, Fail> {
    let mut controller = controller_of(alloc, row.0)?;
    text_by(alloc, rt, &mut controller, row, in_a_row)
}

/// The text of a row is as it says.
fn shows_as_said(alloc: Global, rt: &impl Abort, row: &Row, in_a_row: bool) -> Result<(), Fail> {
    let shown = text(alloc, rt, row, in_a_row)?;
    same(rt, (row.0, in_a_row), shown.as_str(), row.4);
    Ok(())
}

#[test]
fn steps_are_passed(rt: HostRuntime) -> Result<(), Fail> {
    let alloc = rt.alloc();
    for row in &ROWS {
        shows_as_said(alloc, &rt, row, false)?;
        shows_as_said(alloc, &rt, row, true)?;
    }
    Ok(())
}

/// OB 40 interrupts OB 1, and then OB 10 waits for its end: a request that waits ends the row.
const WAITS: &str = "x: JU x | OB 10 20 0 { NOP #0 | OB 40 20 0 { y: JU y";

fn wait_for_a_place(
    rt: &impl Abort,
    controller: &mut Controller,
    out: &mut String,
) -> Result<(), Fail> {
    apply_line(rt, controller, out, "step 1")?;
    apply_line(rt, controller, out, "arrive 40")?;
    pass_steps(rt, controller, "nothing waits", 5, 5)?;
    apply_line(rt, controller, out, "arrive 10")?;
    pass_steps(rt, controller, "OB 10 waits", 5, 0)
}

/// A block that loops, and whatever block is monitored: where one is, no step is made in a row.
const MONITORED: &str = "x: JU x | FC 1 0 0 { NOP #0";

fn monitor_for_a_while(
    rt: &impl Abort,
    controller: &mut Controller,
    out: &mut String,
) -> Result<(), Fail> {
    apply_line(rt, controller, out, "step 1")?;
    apply_line(rt, controller, out, "monitor FC 1")?;
    pass_steps(rt, controller, "FC 1 is monitored", 5, 0)?;
    apply_line(rt, controller, out, "monitor off")?;
    pass_steps(rt, controller, "nothing is monitored", 5, 5)
}

/// A peripheral output changes in entry 3, and then steps are made in a row: what was shown before it is
/// gone.
const SHOWN: &str = "L #7; T PB256; x: JU x";

fn show_and_pass(
    rt: &impl Abort,
    controller: &mut Controller,
    out: &mut String,
) -> Result<(), Fail> {
    apply_line(rt, controller, out, "step 3")?;
    same(rt, "shown", out.as_str(), "@3 PQ 256 = 07 | ");
    pass_steps(rt, controller, "after it", 5, 5)?;
    let seen = controller.observed();
    same(rt, "no output", seen.outputs.as_slice().is_empty(), true);
    same(rt, "no mode", seen.mode, None);
    Ok(())
}

/// What ends a row of steps, or stands in front of one.
#[derive(Clone, Copy)]
enum Boundary {
    Waiting,
    Monitoring,
    Showing,
}

fn play_boundary(
    rt: &impl Abort,
    controller: &mut Controller,
    out: &mut String,
    boundary: Boundary,
) -> Result<(), Fail> {
    match boundary {
        Boundary::Waiting => wait_for_a_place(rt, controller, out),
        Boundary::Monitoring => monitor_for_a_while(rt, controller, out),
        Boundary::Showing => show_and_pass(rt, controller, out),
    }
}

fn plays_boundary(
    rt: &impl Abort,
    alloc: Global,
    program: &str,
    boundary: Boundary,
) -> Result<(), Fail> {
    let mut controller = controller_of(alloc, program)?;
    let mut out = String::new(alloc);
    play_boundary(rt, &mut controller, &mut out, boundary)
}

#[test]
fn boundaries_of_rows(rt: HostRuntime) -> Result<(), Fail> {
    plays_boundary(&rt, rt.alloc(), WAITS, Boundary::Waiting)?;
    plays_boundary(&rt, rt.alloc(), MONITORED, Boundary::Monitoring)?;
    plays_boundary(&rt, rt.alloc(), SHOWN, Boundary::Showing)
}
