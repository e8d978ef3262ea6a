//! Each priority class in RUN is interrupted by each higher one, and by no equal or lower one.
//!
//! A run for each organization block: while it runs all others are requested, one after another. One
//! of a higher class tells its number at once, one of no higher class doesn't. At last the block itself
//! tells that it wasn't interrupted besides. Each statement of its code is a step of the history.
use crate::bench::holds;
use plc_base::Profile;
use std::alloc::{AllocError, Global};
use std::process::Abort;
use std::test::Fail;

type WriteResult = Result<(), AllocError>;

/// What requests an organization block in RUN: for OB 1 no request but the cycle point, for the cyclic
/// ones the end of a period of so many milliseconds, for OB 80 an exceeded cycle time, for OB 85 a
/// request of a block that isn't loaded.
#[derive(Clone, Copy)]
enum By {
    CyclePoint,
    Arrival,
    Delay,
    Period(u32),
    CycleTime,
    Missing,
}

/// An organization block that isn't loaded.
const MISSING: u16 = 16;

/// The most milliseconds between two steps, so that the cycle time isn't exceeded.
const MOST_MS: u32 = 140;

/// Organization blocks of each priority class in RUN, with their classes.
static BLOCKS: [Block; 26] = [
    (1, 1, By::CyclePoint),
    (10, 2, By::Arrival),
    (17, 2, By::Arrival),
    (20, 3, By::Delay),
    (21, 4, By::Delay),
    (22, 5, By::Delay),
    (23, 6, By::Delay),
    (30, 7, By::Period(5000)),
    (31, 8, By::Period(2000)),
    (32, 9, By::Period(1000)),
    (33, 10, By::Period(500)),
    (34, 11, By::Period(200)),
    (35, 12, By::Period(100)),
    (36, 13, By::Period(50)),
    (37, 14, By::Period(20)),
    (38, 15, By::Period(10)),
    (40, 16, By::Arrival),
    (41, 17, By::Arrival),
    (42, 18, By::Arrival),
    (43, 19, By::Arrival),
    (44, 20, By::Arrival),
    (45, 21, By::Arrival),
    (46, 22, By::Arrival),
    (47, 23, By::Arrival),
    (80, 26, By::CycleTime),
    (85, 26, By::Missing),
];

/// The code of the block that runs, the history so far, how many entries it has, what they show, and
/// how many milliseconds of RUN have passed.
#[derive(Drop)]
struct Run {
    code: String,
    history: String,
    entries: u64,
    text: String,
    ms: u32,
}

impl Run {
    /// The next line of the history begins.
    fn begin_entry(&mut self) -> WriteResult {
        self.entries = self.entries.wrapping_add(1);
        self.history.push_str(" | ")
    }

    fn arrive(&mut self, ob: u16) -> WriteResult {
        self.begin_entry()?;
        let out = &mut self.history;
        write!(out, "arrive {ob}")
    }

    fn tick(&mut self, ms: u32) -> WriteResult {
        self.ms = self.ms.wrapping_add(ms);
        self.begin_entry()?;
        let out = &mut self.history;
        write!(out, "tick {ms}")
    }

    fn enter_step(&mut self) -> WriteResult {
        self.begin_entry()?;
        self.history.push_str("step 1")
    }

    /// The statement of the block that runs ends, and is a step; with none it is a cycle point.
    fn end_statement(&mut self) -> WriteResult {
        self.code.push_str("; ")?;
        self.enter_step()
    }

    fn step(&mut self, statement: &str) -> WriteResult {
        self.code.push_str(statement)?;
        self.end_statement()
    }

    fn start_delay(&mut self, ob: u16) -> WriteResult {
        write_delay(&mut self.code, ob)?;
        self.end_statement()
    }

    fn enable(&mut self, ob: u16) -> WriteResult {
        write_enabling(&mut self.code, ob)?;
        self.end_statement()
    }

    fn disable(&mut self, ob: u16) -> WriteResult {
        let out = &mut self.code;
        write!(out, "PASS 0 #2, PASS 1 #{ob:X}, PASS 2 MW4, CALL SFC39")?;
        self.end_statement()
    }

    /// Milliseconds pass, with a step before each part of them.
    fn pass(&mut self, ms: u32, statement: &str) -> WriteResult {
        for _ in 0..ms / MOST_MS {
            self.step(statement)?;
            self.tick(MOST_MS)?;
        }
        if ms % MOST_MS > 0 {
            self.step(statement)?;
            self.tick(ms % MOST_MS)?;
        }
        Ok(())
    }

    fn shows(&mut self, byte: u16, value: u16) -> WriteResult {
        let n = self.entries;
        let out = &mut self.text;
        write!(out, "@{n} PQ {byte} = {value:02X} | ")
    }

    /// The block begins, and is disabled so that its own period doesn't count.
    fn begin(&mut self, ob: u16, by: By) -> WriteResult {
        match by {
            By::CyclePoint => self.step("")?,
            By::Arrival => self.arrive(ob)?,
            By::Delay => self.tick(1)?,
            By::Period(ms) => self.pass(ms, "")?,
            By::CycleTime => self.tick(151)?,
            By::Missing => self.arrive(MISSING)?,
        }
        self.disable(ob)
    }

    /// Another one is requested, a cyclic one at the next end of its period. SFC 43 lengthens the cycle
    /// time.
    fn request(&mut self, ob: u16, by: By) -> WriteResult {
        match by {
            By::CyclePoint => Ok(()),
            By::Arrival => self.arrive(ob),
            By::Delay => {
                self.start_delay(ob)?;
                self.tick(1)
            }
            By::Period(ms) => {
                self.enable(ob)?;
                let passed = self.ms.checked_rem(ms).unwrap_or(0);
                self.pass(ms.wrapping_sub(passed), "CALL SFC43")
            }
            By::CycleTime => {
                self.step("CALL SFC43")?;
                self.tick(151)
            }
            By::Missing => self.arrive(MISSING),
        }
    }

    /// What interrupts has two statements and its return.
    fn interrupted(&mut self, ob: u16) -> WriteResult {
        self.enter_step()?;
        self.enter_step()?;
        self.shows(257, ob)?;
        self.enter_step()
    }

    /// The block tells that it still runs.
    fn end(&mut self) -> WriteResult {
        self.step("L #1")?;
        self.step("T PB256")?;
        self.shows(256, 1)?;
        let n = self.entries;
        let out = &mut self.text;
        write!(out, "END {n} RUN")
    }
}

fn write_enabling(out: &mut String, ob: u16) -> WriteResult {
    write!(out, "PASS 0 #2, PASS 1 #{ob:X}, PASS 2 MW4, CALL SFC40")
}

fn write_delay(out: &mut String, ob: u16) -> WriteResult {
    write!(
        out,
        "PASS 0 #{ob:X}, PASS 1 #1, PASS 2 #0, PASS 3 MW4, CALL SFC32"
    )
}

/// A run of no entry.
fn new_run(alloc: Global) -> Run {
    Run {
        code: String::new(alloc),
        history: String::new(alloc),
        entries: 0,
        text: String::new(alloc),
        ms: 0,
    }
}

impl Run {
    /// The four steps of OB 100 are done.
    fn start(&mut self) -> WriteResult {
        self.entries = 4;
        self.history.push_str("step 4")?;
        self.text.push_str("@4 MODE RUN | ")
    }
}

/// An organization block with its class and what requests it.
type Block = (u16, u8, By);

/// Another block is requested, and interrupts where its class is higher.
fn meet(run: &mut Run, class: u8, other: &Block) -> WriteResult {
    let (ob, other_class, by) = *other;
    run.request(ob, by)?;
    if class < other_class {
        run.interrupted(ob)?;
    }
    match by {
        By::Period(_) => run.disable(ob),
        _ => Ok(()),
    }
}

/// A block runs, and all others but OB 1 are requested.
fn run_block(run: &mut Run, block: &Block) -> WriteResult {
    let (ob, class, by) = *block;
    run.start()?;
    run.begin(ob, by)?;
    for other in &BLOCKS {
        if other.0 != ob {
            meet(run, class, other)?;
        }
    }
    run.end()
}

fn run_of(alloc: Global, block: &Block) -> Result<Run, AllocError> {
    let mut run = new_run(alloc);
    run_block(&mut run, block)?;
    Ok(run)
}

/// OB 1 is loaded where it runs.
fn write_blocks(out: &mut String, ob: u16, code: &str) -> WriteResult {
    for (other, ..) in &BLOCKS {
        if *other == ob {
            write!(out, "OB {ob} 20 0 {{ {code} | ")?;
        } else if *other != 1 {
            write!(out, "OB {other} 20 0 {{ L #{other:X}; T PB257 | ")?;
        }
    }
    Ok(())
}

/// OB 100 disables all cyclic interrupts but the block that runs, and starts its delay.
fn write_program(out: &mut String, ob: u16, code: &str) -> WriteResult {
    write_blocks(out, ob, code)?;
    out.push_str("OB 100 20 0 { PASS 0 #1, PASS 1 #1E, PASS 2 MW4, CALL SFC39; ")?;
    write_enabling(out, ob)?;
    out.push_str("; ")?;
    write_delay(out, ob)
}

fn program_of(alloc: Global, ob: u16, code: &str) -> Result<String, AllocError> {
    let mut program = String::new(alloc);
    write_program(&mut program, ob, code)?;
    Ok(program)
}

/// The text of a run is as it is made.
fn run_holds(rt: &impl Abort, alloc: Global, ob: u16, run: &Run) -> Result<(), Fail> {
    let program = program_of(alloc, ob, run.code.as_str())?;
    let row = (program.as_str(), run.history.as_str(), run.text.as_str());
    holds(rt, alloc, Profile::Small, row)
}

/// A block is interrupted by those of higher classes alone.
fn block_holds(rt: &impl Abort, alloc: Global, block: &Block) -> Result<(), Fail> {
    let run = run_of(alloc, block)?;
    run_holds(rt, alloc, block.0, &run)
}

#[test]
fn each_class_with_each_other(rt: HostRuntime) -> Result<(), Fail> {
    for block in &BLOCKS {
        block_holds(&rt, rt.alloc(), block)?;
    }
    Ok(())
}
