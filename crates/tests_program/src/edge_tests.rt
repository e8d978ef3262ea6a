//! Histories that are right or wrong, and the lines of failures.
use crate::compare::same;
use event_text::{TextFault, read_history};
use flat_code::Names;
use monitor::Line;
use plc_base::Refusal;
use s7_cli::{ExitStatus, Failure, File, failure_line};
use std::alloc::Global;
use std::process::Abort;
use std::test::Fail;
use var_access::{Entries, Entry, Request, What};

/// The most bytes of a history.
const HISTORY_LIMIT: usize = 4_194_304;

// How many entries each text spells, counted by hand: one for each step, input and arrival.
static RIGHT: [(&str, u64); 12] = [
    ("", 0),
    ("\n\r\n// step\n//\n", 0),
    ("step\nstep 3", 4),
    ("step 1000000\n", 1000000),
    (" \tstep  007\t\r\nstep\r\n", 8),
    ("in 0 01\nstep 6\n", 7),
    ("in 127 aF\nin 256 00\nin 767 ff\n", 3),
    ("arrive 40\narrive\t040\n", 2),
    ("in 0 01\n\nstep 2\n// then\narrive 40\nstep 6\n", 10),
    ("arrive 10\narrive 17 00000000\narrive 47 fFfFfFfF\n", 3),
    ("tick 1\ntick 60000\n", 2),
    ("arrive 41\n", 1),
];

/// The names of the variables of no program.
fn no_names(alloc: Global) -> Names {
    Names::new(Vec::new(alloc))
}

fn are_right(
    rt: &impl Abort,
    alloc: Global,
    names: &Names,
    rows: &[(&str, u64)],
) -> Result<(), Fail> {
    for (text, count) in rows {
        assert!(rt; text.len() <= HISTORY_LIMIT);
        let entries = read_history(alloc, text.as_bytes(), names)?;
        same(rt, *text, entries.len(), *count);
    }
    Ok(())
}

#[test]
fn right_histories(rt: HostRuntime) -> Result<(), Fail> {
    let names = no_names(rt.alloc());
    are_right(&rt, rt.alloc(), &names, &RIGHT)
}

/// A text, and its first bad line with the least rule that this breaks.
static WRONG: [(&str, u32, u16); 47] = [
    (" \n", 1, 1),
    (" // step\n", 1, 1),
    ("step\r", 1, 1),
    ("STEP\n", 1, 1),
    ("step 0\n", 1, 2),
    ("step 1000001\n", 1, 2),
    ("step 99999999999999999999999\n", 1, 2),
    ("step -1\n", 1, 1),
    ("step +1\n", 1, 1),
    ("step 1 1\n", 1, 1),
    ("step1\n", 1, 1),
    ("step 1000000\nstep\n", 2, 6),
    ("in 128 00\n", 1, 2),
    ("in 255 00\n", 1, 2),
    ("in 768 00\n", 1, 2),
    ("in 65536 00\n", 1, 2),
    ("in 0 0\n", 1, 2),
    ("in 0 001\n", 1, 2),
    ("in 0 0g\n", 1, 1),
    ("in 0\n", 1, 1),
    ("in 0 00 00\n", 1, 1),
    ("arrive\n", 1, 1),
    ("arrive 1\n", 1, 2),
    ("arrive 9\n", 1, 2),
    ("arrive 18\n", 1, 2),
    ("arrive 39\n", 1, 2),
    ("arrive 48\n", 1, 2),
    ("arrive 40 0000000\n", 1, 2),
    ("arrive 40 000000000\n", 1, 2),
    ("arrive 40 0000000g\n", 1, 1),
    ("arrive 40 00000000 0\n", 1, 1),
    ("tick\n", 1, 1),
    ("tick 0\n", 1, 2),
    ("tick 60001\n", 1, 2),
    ("diag\n", 1, 4),
    ("op 0 stop\n", 1, 5),
    ("op 5 stop\n", 1, 5),
    ("step\nop 1\n", 2, 1),
    ("op 1 read\n", 1, 1),
    ("op 1 read MB65536\n", 1, 2),
    ("op 1 read M0.8\n", 1, 2),
    ("op 1 read \"x\"\n", 1, 3),
    ("op 1 write MB0 100\n", 1, 2),
    ("op 1 write M0.0 2\n", 1, 2),
    ("op 1 write MB0 0g\n", 1, 1),
    ("op 1 monitor on DB 1\n", 1, 1),
    ("op 1 monitor on OB 65536\n", 1, 2),
];

fn are_wrong(rt: &impl Abort, alloc: Global, names: &Names, rows: &[(&str, u32, u16)]) {
    for (text, line, rule) in rows {
        assert!(rt; text.len() <= HISTORY_LIMIT);
        let fault = read_history(alloc, text.as_bytes(), names).err();
        let bad = TextFault::BadLine {
            line: *line,
            rule: *rule,
        };
        same(rt, *text, fault, Some(bad));
    }
}

#[test]
fn wrong_histories(rt: HostRuntime) {
    let names = no_names(rt.alloc());
    are_wrong(&rt, rt.alloc(), &names, &WRONG);
}

const HISTORY: &[u8] = b"in 3 A0\nstep\narrive 40\narrive 10 0102a0Ff\ntick 250\nop 4 diag\n";

/// Compares the entry at a place.
fn is_entry(rt: &impl Abort, entries: &Entries, place: u64, who: u8, what: What) {
    same(rt, place, entries.entry(place), Some(Entry { who, what }));
}

fn are_in_order(rt: &impl Abort, entries: &Entries) {
    same(rt, "their number", entries.len(), 6);
    let input = What::Input {
        byte: 3,
        value: 160,
    };
    is_entry(rt, entries, 0, 2, input);
    is_entry(rt, entries, 1, 1, What::Step);
    is_entry(rt, entries, 2, 2, What::Arrive { ob: 40, value: 0 });
    let value = 16_949_503;
    is_entry(rt, entries, 3, 2, What::Arrive { ob: 10, value });
    is_entry(rt, entries, 4, 2, What::Tick { ms: 250 });
    let request = Request::Diag;
    is_entry(rt, entries, 5, 6, What::Ask { request });
}

#[test]
fn entries_in_order(rt: HostRuntime) -> Result<(), Fail> {
    let names = no_names(rt.alloc());
    let entries = read_history(rt.alloc(), HISTORY, &names)?;
    are_in_order(&rt, &entries);
    Ok(())
}

const REFUSAL: Refusal = Refusal { line: 4, rule: 20 };

/// A failure, its status and its line.
type Row = (Failure, u8, &'static str);

// A failed write and want of memory have no line, and that of a chain was written.
static FAILURES: [Row; 16] = [
    (Failure::WordsRefused, 1, "words refused\n"),
    (
        Failure::Refused {
            file: File::Source,
            refusal: REFUSAL,
        },
        2,
        "source refused: line 4 rule 20\n",
    ),
    (
        Failure::Refused {
            file: File::Symbols,
            refusal: REFUSAL,
        },
        2,
        "symbols refused: line 4 rule 20\n",
    ),
    (
        Failure::Refused {
            file: File::History,
            refusal: REFUSAL,
        },
        4,
        "history refused: line 4 rule 20\n",
    ),
    (Failure::ReadFault, 5, "read fault\n"),
    (Failure::WriteFault, 6, ""),
    (Failure::NoMemory, 7, ""),
    (
        Failure::TooLong {
            file: File::Symbols,
        },
        8,
        "too long: symbols\n",
    ),
    (
        Failure::TooLong { file: File::Source },
        8,
        "too long: source\n",
    ),
    (
        Failure::TooLong {
            file: File::History,
        },
        8,
        "too long: history\n",
    ),
    (
        Failure::Refused {
            file: File::Certificate,
            refusal: REFUSAL,
        },
        4,
        "certificate refused: line 4 rule 20\n",
    ),
    (
        Failure::TooLong {
            file: File::Certificate,
        },
        8,
        "too long: certificate\n",
    ),
    (
        Failure::TooLong {
            file: File::Listing,
        },
        8,
        "too long: list\n",
    ),
    (Failure::NoListing, 9, "image has no listing\n"),
    (Failure::SaysNo, 10, "certificate says no\n"),
    (Failure::TooDeep, 10, ""),
];

fn are_spelled(rt: &impl Abort, rows: &[Row]) {
    for (failure, code, text) in rows {
        let line = failure_line(*failure);
        same(rt, *failure, line.is_none(), text.is_empty());
        let line = line.unwrap_or(Line::new());
        same(rt, *failure, line.as_slice(), text.as_bytes());
        same(rt, *failure, ExitStatus::of(Err(*failure)).code, *code);
    }
}

#[test]
fn lines_of_failures(rt: HostRuntime) {
    are_spelled(&rt, &FAILURES);
    same(&rt, "done", ExitStatus::of(Ok(())).code, 0);
}
