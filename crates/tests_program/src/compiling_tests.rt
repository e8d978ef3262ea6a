//! Sources compiled and checked, and programs run, by the calls behind the commands.
use crate::calls::{ONE_RUN, ONE_RUN_TEXT, RUNG};
use crate::compare::same;
use event_text::read_history;
use monitor::Line;
use plc_base::Refusal;
use plc_io::MemSink;
use s7_cli::{CompileFault, check_source, compiled, replay_text};
use std::alloc::Global;
use std::process::Abort;
use std::test::Fail;

/// The most bytes of a source, and of a symbols file.
const LIMIT: usize = 1_048_576;

/// The most bytes of a history.
const HISTORY_LIMIT: usize = 4_194_304;

/// OB 1 by symbols, and their file.
const BY_SYMBOLS: &[u8] =
    b"ORGANIZATION_BLOCK OB 1\nBEGIN\nA \"On\";\n= \"Lamp\";\nEND_ORGANIZATION_BLOCK\n";

const SYMBOLS: &[u8] = b"On,I 0.0,BOOL,\nLamp,Q 4.0,BOOL,\n";

/// A source, its symbols, and why they are refused, if they are.
type Row = (&'static [u8], &'static [u8], Option<CompileFault>);

// Each source with its symbols file is compiled and accepted, or has the one refusal for both.
static CHECKS: [Row; 8] = [
    (RUNG, b"", None),
    (BY_SYMBOLS, SYMBOLS, None),
    (b"", b"", None),
    // The symbols come first: there is no bit 8.
    (
        b"L 1;\n",
        b"On,I 0.8,BOOL,\n",
        Some(CompileFault::Symbols {
            refusal: Refusal { line: 1, rule: 15 },
        }),
    ),
    (
        BY_SYMBOLS,
        b"On,I 0.0,BOOL,\n\non,I 0.1,BOOL,\n",
        Some(CompileFault::Symbols {
            refusal: Refusal { line: 3, rule: 16 },
        }),
    ),
    // A statement outside of a block, and a token behind it.
    (
        b"L 1;\n",
        b"",
        Some(CompileFault::Source {
            refusal: Refusal { line: 1, rule: 11 },
        }),
    ),
    (
        b"L 1;\n\nA I 0.0 $;\n",
        b"",
        Some(CompileFault::Source {
            refusal: Refusal { line: 3, rule: 1 },
        }),
    ),
    // `"Lamp"` is no symbol.
    (
        BY_SYMBOLS,
        b"On,I 0.0,BOOL,\n",
        Some(CompileFault::Source {
            refusal: Refusal { line: 4, rule: 20 },
        }),
    ),
];

/// Compares why a source with its symbols is refused by both calls.
fn check_agrees(
    rt: &impl Abort,
    alloc: Global,
    source: &[u8],
    symbols: &[u8],
    fault: Option<CompileFault>,
) {
    assert!(rt; source.len() <= LIMIT && symbols.len() <= LIMIT);
    same(
        rt,
        "check_source",
        check_source(alloc, source, symbols).err(),
        fault,
    );
    let refused = compiled(alloc, source, symbols).err();
    same(rt, "compiled", refused, fault);
}

fn checks_agree(rt: &impl Abort, alloc: Global, rows: &[Row]) {
    for (source, symbols, fault) in rows {
        check_agrees(rt, alloc, *source, *symbols, *fault);
    }
}

#[test]
fn accepted_or_refused(rt: HostRuntime) {
    checks_agree(&rt, rt.alloc(), &CHECKS);
}

/// Runs a source with its symbols along a history.
fn run(
    rt: &impl Abort,
    out: &mut MemSink,
    alloc: Global,
    source: &[u8],
    symbols: &[u8],
    history: &[u8],
) -> Result<(), Fail> {
    assert!(rt; source.len() <= LIMIT && symbols.len() <= LIMIT);
    let program = compiled(alloc, source, symbols)?;
    assert!(rt; history.len() <= HISTORY_LIMIT);
    let entries = read_history(alloc, history, program.names())?;
    replay_text(alloc, program, &entries, out)?;
    Ok(())
}

// In 0.0 comes on. A cycle of two statements is four steps, and the fifth shows what it wrote.
#[test]
fn a_source_by_symbols_is_compiled(rt: HostRuntime) -> Result<(), Fail> {
    let mut out = MemSink::new(rt.alloc(), 64);
    let history = b"in 0 01\nstep 5\n";
    run(&rt, &mut out, rt.alloc(), BY_SYMBOLS, SYMBOLS, history)?;
    let text = b"@6 PQ 4 = 01\nEND 6 RUN\n".as_slice();
    same(&rt, "the run", out.taken.as_slice(), text);
    Ok(())
}

// The interlock of docs/FORMATS.md, without symbols. The sink takes one byte of each piece.
#[test]
fn a_program_is_run(rt: HostRuntime) -> Result<(), Fail> {
    let mut out = MemSink::new(rt.alloc(), 1);
    run(&rt, &mut out, rt.alloc(), RUNG, b"", ONE_RUN)?;
    same(&rt, "the run", out.taken.as_slice(), ONE_RUN_TEXT);
    Ok(())
}

static NUMBERS: [(u64, &str); 3] = [
    (0, "n 0"),
    (65_535, "n 65535"),
    (u64::MAX, "n 18446744073709551615"),
];

fn are_spelled(rt: &impl Abort, rows: &[(u64, &str)]) {
    for (number, text) in rows {
        let mut line = Line::new();
        line.add(b"n ");
        line.add_number(*number);
        same(rt, *text, line.as_slice(), text.as_bytes());
    }
}

// A number in decimal, behind what stands in the line.
#[test]
fn numbers_in_a_line(rt: HostRuntime) {
    are_spelled(&rt, &NUMBERS);
}
