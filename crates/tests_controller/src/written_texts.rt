use crate::bench::{MOST_ENTRIES, controller_of};
use crate::compare::same;
use crate::texts::{bytes_of, has_none, names};
use controller::Controller;
use event_text::{read_history, write_history};
use flat_code::Names;
use std::alloc::Global;
use std::process::Abort;
use std::test::Fail;
use var_access::{Entries, Entry, Request, What};

// Histories, and how they are written: steps in a row on one line, symbols as addresses, no blank
// inside a variable, hexadecimal digits in upper case, a value of 0 left out of an arrival.
static WRITTEN: [(&str, &str); 12] = [
    ("", ""),
    ("step", "step 1\n"),
    ("step\nstep 2\r\n\n// x\nstep", "step 4\n"),
    ("step 2\ntick 007\nstep", "step 2\ntick 7\nstep 1\n"),
    ("in 0 0a\n\tin  767 ff ", "in 0 0A\nin 767 FF\n"),
    (
        "arrive 40\narrive 41 00000000\narrive 17 0000000f",
        "arrive 40\narrive 41\narrive 17 0000000F\n",
    ),
    (
        "op 1 stop\nop 2 restart\nop 3 diag\nop 4  monitor   off",
        "op 1 stop\nop 2 restart\nop 3 diag\nop 4 monitor off\n",
    ),
    (
        "op 1 monitor on OB 1\nop 1 monitor on FC 002\nop 1 monitor on FB 65535",
        "op 1 monitor on OB 1\nop 1 monitor on FC 2\nop 1 monitor on FB 65535\n",
    ),
    (
        "op 3 read \"lamp\",MW 2 , DB10.DBX 0.1,\tDB10.DBD4",
        "op 3 read Q4.1, MW2, DB10.DBX0.1, DB10.DBD4\n",
    ),
    (
        "op 2 read I 0.7, IB1, QD 4, DB1.DBB 3",
        "op 2 read I0.7, IB1, QD4, DB1.DBB3\n",
    ),
    (
        "op 4 write \"LAMP\" 1\nop 4 write M 0.3 0",
        "op 4 write Q4.1 1\nop 4 write M0.3 0\n",
    ),
    (
        "op 1 write MB 1 0a\nop 1 write DB7.DBW 2 beef\nop 1 write MD 4 0000c0de",
        "op 1 write MB1 0A\nop 1 write DB7.DBW2 BEEF\nop 1 write MD4 0000C0DE\n",
    ),
];

fn apply(rt: &impl Abort, controller: &mut Controller, entry: Entry) -> Result<(), Fail> {
    assert!(rt; entry.is_valid());
    assert!(rt; controller.history_len() < MOST_ENTRIES);
    controller.reserve(1)?;
    controller.apply(entry);
    Ok(())
}

fn apply_all(rt: &impl Abort, controller: &mut Controller, entries: &Entries) -> Result<(), Fail> {
    for place in 0..entries.len() {
        let Some(entry) = entries.entry(place) else {
            break;
        };
        apply(rt, controller, entry)?;
    }
    Ok(())
}

/// A controller's history is written so.
fn is_written(
    rt: &impl Abort,
    alloc: Global,
    controller: &Controller,
    wanted: &str,
) -> Result<(), Fail> {
    let out = write_history(alloc, controller)?;
    same(rt, wanted, out.as_slice(), wanted.as_bytes());
    Ok(())
}

/// Applies entries, which are written so.
fn apply_and_write(
    rt: &impl Abort,
    alloc: Global,
    controller: &mut Controller,
    entries: &Entries,
    wanted: &str,
) -> Result<(), Fail> {
    apply_all(rt, controller, entries)?;
    is_written(rt, alloc, controller, wanted)
}

/// Entries are written so, as the history of a controller without a program.
fn are_written(
    rt: &impl Abort,
    alloc: Global,
    entries: &Entries,
    wanted: &str,
) -> Result<(), Fail> {
    let mut controller = controller_of(alloc, "")?;
    apply_and_write(rt, alloc, &mut controller, entries, wanted)
}

/// A text is read and written.
fn text_is_written(
    rt: &impl Abort,
    alloc: Global,
    names: &Names,
    row: &(&str, &str),
) -> Result<(), Fail> {
    let (text, wanted) = *row;
    match read_history(alloc, bytes_of(rt, text), names) {
        Ok(entries) => are_written(rt, alloc, &entries, wanted),
        Err(fault) => {
            has_none(rt, text, fault);
            Ok(())
        }
    }
}

fn texts_are_written(rt: &impl Abort, alloc: Global, names: &Names) -> Result<(), Fail> {
    for row in &WRITTEN {
        text_is_written(rt, alloc, names, row)?;
    }
    Ok(())
}

#[test]
fn written_histories(rt: HostRuntime) -> Result<(), Fail> {
    let names = names(&rt, rt.alloc())?;
    texts_are_written(&rt, rt.alloc(), &names)
}

fn step(who: u8) -> Entry {
    let what = What::Step;
    Entry { who, what }
}

fn stop(who: u8) -> Entry {
    let request = Request::Stop;
    let what = What::Ask { request };
    Entry { who, what }
}

/// Workers, and whether each makes a step or asks for STOP.
static IRREGULAR: [(u8, bool); 8] = [
    (1, true),
    (1, true),
    (9, true),
    (2, false),
    (6, false),
    (7, false),
    (255, false),
    (7, true),
];

fn apply_irregular(rt: &impl Abort, controller: &mut Controller) -> Result<(), Fail> {
    for (who, steps) in &IRREGULAR {
        if *steps {
            apply(rt, controller, step(*who))?;
        } else {
            apply(rt, controller, stop(*who))?;
        }
    }
    Ok(())
}

// Entries that no text spells: steps of two workers in a row, and requests of workers that are no
// operators, which are written as those of operator 1.
fn irregular_is_written(
    rt: &impl Abort,
    alloc: Global,
    controller: &mut Controller,
) -> Result<(), Fail> {
    apply_irregular(rt, controller)?;
    let text = "step 3\nop 1 stop\nop 4 stop\nop 1 stop\nop 1 stop\nstep 1\n";
    is_written(rt, alloc, controller, text)
}

#[test]
fn irregular_histories(rt: HostRuntime) -> Result<(), Fail> {
    let mut controller = controller_of(rt.alloc(), "")?;
    irregular_is_written(&rt, rt.alloc(), &mut controller)
}
