//! Devices that fail: each read, each write, and the sink after some bytes, for every command.
use crate::calls::{NamedBytes, ONE_RUN, ONE_RUN_TEXT, RUNG, call, files_of, only};
use crate::compare::same;
use crate::images::{CHAIN, EMPTY, IMAGE, LARGE, LISTED};
use plc_io::{MemFiles, MemSink, OpenGate};
use std::alloc::Global;
use std::process::Abort;
use std::sync::Wait;
use std::test::Fail;
use std::thread::Threads;

/// The files of all commands. Each command that writes a file writes `image`.
static FILES: [NamedBytes; 16] = [
    ("source", RUNG),
    ("history", ONE_RUN),
    // OB 40 isn't loaded
    ("stopping", b"in 0 01\nstep 6\narrive 40\n"),
    ("symbols", b"a,I 0.0,BOOL,\n"),
    ("nothing", b""),
    ("comment", b"// nothing\n"),
    ("statement", b"SET;"),
    ("image", IMAGE),
    ("cycle", b"step 4\n"),
    ("certificate", b"OB 1 DEPTH 1 BYTES 20\n"),
    ("chain", CHAIN),
    ("empty", EMPTY),
    ("stimuli", b"\n"),
    ("vars", b"read MB3\n"),
    ("first", b"\n"),
    ("second", b"\n"),
];

type Words = &'static [&'static str];

const GO: Words = &["go", "source", "history"];

const GO_BY_NAMES: Words = &["go", "source", "history", "--symbols", "symbols"];

const CHECK: Words = &["check", "source"];

const COMPILE: Words = &["compile", "source", "image"];

const ENGLISH: Words = &["english", "statement", "image"];

const GERMAN: Words = &["german", "comment", "image"];

const RUN: Words = &["run", "image", "cycle"];

const UPGRADE: Words = &["upgrade", "image", "image"];

const LIST: Words = &["list", "image", "text", "names"];

const BOUND: Words = &["bound", "image", "image"];

const CHAINED: Words = &["bound", "chain", "image"];

const RECHECK: Words = &["recheck", "image", "certificate"];

const GEN: Words = &["gen", "1"];

const LIVE: Words = &[
    "live", "empty", "stimuli", "first", "second", "--steps", "1",
];

const WATCH: Words = &["watch", "empty", "stimuli", "vars", "first", "--steps", "1"];

/// The read, the write and the push that fail, none where it is 0, and how many bytes a push takes.
#[derive(Clone, Copy, Debug, PartialEq, Eq)]
struct Faults {
    read: u64,
    write: u64,
    push: u64,
    piece: usize,
}

const NONE: Faults = Faults {
    read: 0,
    write: 0,
    push: 0,
    piece: 64,
};

/// What is compared behind a call.
#[derive(Drop)]
enum ExpectedValue {
    /// What the sink took.
    Text(&'static [u8]),
    /// How many bytes the sink took.
    Length(usize),
    /// How many reads and writes were made.
    Calls { reads: u64, writes: u64 },
    /// What the file `image` holds.
    Image(&'static [u8]),
    /// What the file of this name holds; none is like an empty one.
    File(&'static str, &'static [u8]),
}

/// Compares the files and the sink with what is expected.
fn check_expected(
    rt: &impl Abort,
    words: &[&str],
    faults: Faults,
    expected: &[ExpectedValue],
    files: &MemFiles,
    out: &MemSink,
) {
    let what = (words, faults);
    let text = out.taken.as_slice();
    for one in expected {
        match one {
            ExpectedValue::Text(wanted) => same(rt, what, text, *wanted),
            ExpectedValue::Length(length) => same(rt, what, text.len(), *length),
            ExpectedValue::Calls { reads, writes } => {
                same(rt, what, files.reads.made, *reads);
                same(rt, what, files.writes.made, *writes);
            }
            ExpectedValue::Image(image) => same(
                rt,
                what,
                files.files.get("image").unwrap_or(b""),
                *image,
            ),
            ExpectedValue::File(name, bytes) => same(
                rt,
                what,
                files.files.get(*name).unwrap_or(b""),
                *bytes,
            ),
        }
    }
}

/// Calls with these words over devices that fail so, and compares the status and what else is expected.
fn ends<R: Abort + Threads + Wait + Sync>(
    rt: &R,
    alloc: Global,
    words: &[&str],
    faults: Faults,
    status: u8,
    expected: &[ExpectedValue],
) -> Result<(), Fail> {
    let mut files = files_of(alloc, &FILES)?;
    files.fail_reads(only(faults.read));
    files.fail_writes(only(faults.write));
    let mut out = MemSink::new(alloc, faults.piece.max(1));
    out.fail_pushes(only(faults.push));
    let code = call(rt, alloc, words, &mut files, &mut out, &OpenGate)?;
    same(rt, (words, faults), code, status);
    check_expected(rt, words, faults, expected, &files, &out);
    Ok(())
}

// Words, and how many reads and writes the call makes: a file is read in one piece, and the end behind it.
static MADE: [(Words, u64, u64); 13] = [
    (GO, 4, 0),
    (GO_BY_NAMES, 6, 0),
    (CHECK, 2, 0),
    (COMPILE, 2, 1),
    (ENGLISH, 2, 1),
    (GERMAN, 2, 1),
    (RUN, 4, 0),
    (UPGRADE, 2, 1),
    (LIST, 2, 2),
    (BOUND, 2, 1),
    (RECHECK, 4, 0),
    (LIVE, 8, 0),
    (WATCH, 8, 0),
];

/// What is expected of a file that can't be read.
const NOT_READ: &[ExpectedValue] = &[
    ExpectedValue::Text(b"read fault\n"),
    ExpectedValue::Image(IMAGE),
];

/// Nothing is said, and the file stays.
const SILENT: &[ExpectedValue] = &[ExpectedValue::Text(b""), ExpectedValue::Image(IMAGE)];

/// Each read and each write of a call fails in turn, the last read and then the first push too; the one
/// behind the last read is none, so all is well.
fn each_fails<R: Abort + Threads + Wait + Sync>(
    rt: &R,
    alloc: Global,
    words: Words,
    reads: u64,
    writes: u64,
) -> Result<(), Fail> {
    for read in 1..=reads {
        ends(rt, alloc, words, Faults { read, ..NONE }, 5, NOT_READ)?;
    }
    for write in 1..=writes {
        ends(rt, alloc, words, Faults { write, ..NONE }, 6, SILENT)?;
    }
    let both = Faults {
        read: reads,
        push: 1,
        ..NONE
    };
    ends(rt, alloc, words, both, 6, SILENT)?;
    let further = Faults {
        read: reads.wrapping_add(1),
        write: writes.wrapping_add(1),
        ..NONE
    };
    let made = [ExpectedValue::Calls { reads, writes }];
    ends(rt, alloc, words, further, 0, &made)
}

fn all_fail<R: Abort + Threads + Wait + Sync>(
    rt: &R,
    alloc: Global,
    made: &[(Words, u64, u64)],
) -> Result<(), Fail> {
    for (words, reads, writes) in made {
        each_fails(rt, alloc, *words, *reads, *writes)?;
    }
    Ok(())
}

#[test]
fn each_read_and_write_fails(rt: HostRuntime) -> Result<(), Fail> {
    all_fail(&rt, rt.alloc(), &MADE)
}

/// Words, how many bytes each push takes, the number of the push that fails, the status, and what else is expected.
type Row = (Words, usize, u64, u8, &'static [ExpectedValue]);

// The sink fails behind some bytes. Where a file is written, it is written before the first push.
static CUT_OFF: [Row; 33] = [
    (GO, 1, 1, 6, &[ExpectedValue::Text(b"")]),
    (GO, 1, 2, 6, &[ExpectedValue::Text(b"@")]),
    (GO, 9, 2, 6, &[ExpectedValue::Text(b"@7 PQ 4 =")]),
    (CHECK, 2, 2, 6, &[ExpectedValue::Text(b"OK")]),
    (
        &["check", "statement"],
        6,
        2,
        6,
        &[ExpectedValue::Text(b"source")],
    ),
    (COMPILE, 1, 1, 6, &[ExpectedValue::Text(b"")]),
    (COMPILE, 1, 2, 6, &[ExpectedValue::Text(b"O")]),
    (COMPILE, 9, 2, 0, &[ExpectedValue::Text(b"OK\n")]),
    (
        &["compile", "nothing", "image"],
        1,
        1,
        6,
        &[ExpectedValue::Text(b""), ExpectedValue::Image(LARGE)],
    ),
    (
        GERMAN,
        1,
        2,
        6,
        &[
            ExpectedValue::Text(b"O"),
            ExpectedValue::Image(b"// nothing\n"),
        ],
    ),
    (UPGRADE, 1, 1, 6, &[ExpectedValue::Text(b"")]),
    (UPGRADE, 1, 2, 6, &[ExpectedValue::Text(b"O")]),
    (UPGRADE, 9, 2, 0, &[ExpectedValue::Text(b"OK\n")]),
    // Both files stand before the first byte of `OK`.
    (
        LIST,
        1,
        1,
        6,
        &[
            ExpectedValue::Text(b""),
            ExpectedValue::File("text", LISTED),
        ],
    ),
    (
        LIST,
        1,
        2,
        6,
        &[
            ExpectedValue::Text(b"O"),
            ExpectedValue::File("text", LISTED),
        ],
    ),
    (BOUND, 1, 1, 6, &[ExpectedValue::Text(b"")]),
    (BOUND, 1, 2, 6, &[ExpectedValue::Text(b"O")]),
    // In the line of a chain; no certificate is written.
    (
        CHAINED,
        11,
        2,
        6,
        &[
            ExpectedValue::Text(b"chain: OB 1"),
            ExpectedValue::Image(IMAGE),
        ],
    ),
    (RECHECK, 1, 1, 6, &[ExpectedValue::Text(b"")]),
    (RECHECK, 9, 2, 0, &[ExpectedValue::Text(b"OK\n")]),
    (RUN, 1, 1, 6, &[ExpectedValue::Text(b"")]),
    (RUN, 1, 2, 6, &[ExpectedValue::Text(b"E")]),
    (RUN, 9, 2, 6, &[ExpectedValue::Text(b"END 4 RUN")]),
    (GEN, 1, 1, 6, &[ExpectedValue::Text(b"")]),
    (GEN, 1, 2, 6, &[ExpectedValue::Text(b"G")]),
    (GEN, 9, 2, 6, &[ExpectedValue::Text(b"GEN 1 ENT")]),
    (LIVE, 1, 1, 6, &[ExpectedValue::Text(b"")]),
    (LIVE, 1, 2, 6, &[ExpectedValue::Text(b"s")]),
    (LIVE, 1, 10, 6, &[ExpectedValue::Text(b"step 1\n--")]),
    // How the text begins goes by who comes first.
    (WATCH, 1, 1, 6, &[ExpectedValue::Length(0)]),
    (WATCH, 1, 2, 6, &[ExpectedValue::Length(1)]),
    (WATCH, 1, 10, 6, &[ExpectedValue::Length(9)]),
    (WATCH, 1, 1501, 6, &[ExpectedValue::Length(1500)]),
];

// A sink that takes one byte a push takes the whole text.
static WHOLE: [Row; 18] = [
    (GO, 1, 0, 0, &[ExpectedValue::Text(ONE_RUN_TEXT)]),
    (
        &["go", "source", "stopping"],
        1,
        0,
        0,
        &[ExpectedValue::Text(
            b"@7 PQ 4 = 01\n@8 PQ 4 = 00\n@8 MODE STOP 8 AT OB 1 LINE 3\nEND 8 STOP 8\n",
        )],
    ),
    (
        &["go", "source", "source"],
        1,
        0,
        4,
        &[ExpectedValue::Text(b"history refused: line 1 rule 1\n")],
    ),
    (CHECK, 1, 0, 0, &[ExpectedValue::Text(b"OK\n")]),
    (
        &["check", "statement"],
        1,
        0,
        2,
        &[ExpectedValue::Text(b"source refused: line 1 rule 11\n")],
    ),
    (
        &["check", "none"],
        1,
        0,
        5,
        &[ExpectedValue::Text(b"read fault\n")],
    ),
    // What the program tells of itself is asked elsewhere.
    (
        &["--help"],
        1,
        0,
        1,
        &[ExpectedValue::Text(b"words refused\n")],
    ),
    (COMPILE, 1, 0, 0, &[ExpectedValue::Text(b"OK\n")]),
    (GERMAN, 1, 0, 0, &[ExpectedValue::Text(b"OK\n")]),
    (UPGRADE, 1, 0, 0, &[ExpectedValue::Text(b"OK\n")]),
    (
        LIST,
        1,
        0,
        0,
        &[
            ExpectedValue::Text(b"OK\n"),
            ExpectedValue::File("text", LISTED),
        ],
    ),
    (BOUND, 1, 0, 0, &[ExpectedValue::Text(b"OK\n")]),
    (
        CHAINED,
        1,
        0,
        10,
        &[ExpectedValue::Text(
            b"chain: OB 1, FC 1, FC 1, FC 1, FC 1, FC 1, FC 1, FC 1, FC 1, FC 1, FC 1, FC 1, FC 1, FC 1, FC 1, FC 1, FC 1\n",
        )],
    ),
    (RECHECK, 1, 0, 0, &[ExpectedValue::Text(b"OK\n")]),
    (
        &["recheck", "image", "nothing"],
        1,
        0,
        10,
        &[ExpectedValue::Text(b"certificate says no\n")],
    ),
    (
        RUN,
        1,
        0,
        0,
        &[ExpectedValue::Text(b"END 4 RUN\nDB 10 0 00000000\n")],
    ),
    // From a machine that knows nothing of this program.
    (
        GEN,
        1,
        0,
        0,
        &[ExpectedValue::Text(b"GEN 1 ENTRIES 200069 MODE RUN SUM 20431\n")],
    ),
    (
        LIVE,
        1,
        0,
        0,
        &[ExpectedValue::Text(b"step 1\n---\nEND 1 RUN\n")],
    ),
];

/// The write of each of the two files fails: the source isn't written, or stands there whole.
#[test]
fn a_listing_is_cut_off(rt: HostRuntime) -> Result<(), Fail> {
    let first = Faults { write: 1, ..NONE };
    let second = Faults { write: 2, ..NONE };
    let none = [ExpectedValue::Text(b""), ExpectedValue::File("text", b"")];
    let whole = [
        ExpectedValue::Text(b""),
        ExpectedValue::File("text", LISTED),
    ];
    ends(&rt, rt.alloc(), LIST, first, 6, &none)?;
    ends(&rt, rt.alloc(), LIST, second, 6, &whole)
}

fn are_pushed<R: Abort + Threads + Wait + Sync>(
    rt: &R,
    alloc: Global,
    rows: &[Row],
) -> Result<(), Fail> {
    for (words, piece, push, status, expected) in rows {
        let faults = Faults {
            push: *push,
            piece: *piece,
            ..NONE
        };
        ends(rt, alloc, *words, faults, *status, *expected)?;
    }
    Ok(())
}

#[test]
fn failed_pushes(rt: HostRuntime) -> Result<(), Fail> {
    are_pushed(&rt, rt.alloc(), &CUT_OFF)
}

#[test]
fn single_bytes(rt: HostRuntime) -> Result<(), Fail> {
    are_pushed(&rt, rt.alloc(), &WHOLE)
}
