use crate::compare::same;
use generator::{history, source_text};
use plc_base::{Area, Place, Width};
use std::process::Abort;
use std::test::Fail;
use var_access::{Entries, Entry, Request, Run, Var, Vars, What};

/// How the first 14 draws of gen 1 look, of which the first are 16838, 5758, 10113, 17515, 31051 and
/// 5627; all but `L MW a` are among them.
const HEAD_OF_1: &[u8] = b"ORGANIZATION_BLOCK OB 1
BEGIN
XOW;
XOW;
T MW 128;
-I;
-I;
-I;
+I;
-I;
L 16212;
XOW;
*I;
A M 190.1; = M 190.2;
L 9084;
L 12060;
";

/// How the first 6 draws of gen 10000 look: 21079, 17291, 22175, 13352, 22976 and 4427.
const HEAD_OF_10000: &[u8] = b"ORGANIZATION_BLOCK OB 1
BEGIN
A M 68.1; = M 68.2;
-I;
A M 142.1; = M 142.2;
L MW 138;
L MW 144;
-I;
";

/// How the last 3 draws of gen 1 look, and organization block 35.
const END_OF_1: &[u8] = b"
XOW;
L 11924;
T MW 82;
END_ORGANIZATION_BLOCK
ORGANIZATION_BLOCK OB 35
BEGIN
L MW 0;
+ 1;
T MW 0;
END_ORGANIZATION_BLOCK
";

/// How the last 3 draws of gen 10000 look, and organization block 35.
const END_OF_10000: &[u8] = b"
A M 138.1; = M 138.2;
T MW 178;
-I;
END_ORGANIZATION_BLOCK
ORGANIZATION_BLOCK OB 35
BEGIN
L MW 0;
+ 1;
T MW 0;
END_ORGANIZATION_BLOCK
";

/// Checks a source: how it begins and ends, and how many bytes it has.
fn check_source(rt: &impl Abort, text: &[u8], head: &[u8], end: &[u8], len: usize) {
    same(rt, "head", text.starts_with(head), true);
    same(rt, "end", text.ends_with(end), true);
    same(rt, "length", text.len(), len);
    let lines = text.iter().filter(|byte| **byte == b'\n').count();
    same(rt, "lines", lines, 2_009);
}

// The draws were worked out apart from the program: x is set to (1,103,515,245 x + 12,345) mod 2^31,
// and x / 65,536 is drawn.
#[test]
fn sources(rt: HostRuntime) -> Result<(), Fail> {
    let text = source_text(rt.alloc(), 1)?;
    check_source(&rt, text.as_slice(), HEAD_OF_1, END_OF_1, 16_520);
    let text = source_text(rt.alloc(), 10_000)?;
    check_source(&rt, text.as_slice(), HEAD_OF_10000, END_OF_10000, 16_424);
    Ok(())
}

fn step() -> Entry {
    Entry {
        who: 1,
        what: What::Step,
    }
}

fn tick() -> Entry {
    Entry {
        who: 2,
        what: What::Tick { ms: 1 },
    }
}

fn input(byte: u16, value: u8) -> Entry {
    Entry {
        who: 2,
        what: What::Input { byte, value },
    }
}

fn read(byte: u16) -> Entry {
    let mut vars = Vars::new();
    vars.push(Var {
        place: Place {
            number: 0,
            byte,
            area: Area::M,
            bit: 0,
        },
        width: Width::Word,
    });
    Entry {
        who: 3,
        what: What::Ask {
            request: Request::ReadVars { vars },
        },
    }
}

/// Compares a round, counted from 0, with the number of its first entry, its steps and what happens
/// behind them.
fn check_round(rt: &impl Abort, runs: &[Run], round: u32, (first, steps, last): (u32, u32, Entry)) {
    let stepping = Run {
        entry: step(),
        first: u64::from(first),
        count: u64::from(steps),
    };
    let happening = Run {
        entry: last,
        first: u64::from(first) + u64::from(steps),
        count: 1,
    };
    let place = 2 * round as usize;
    same(rt, round, runs.get(place).copied(), Some(stepping));
    same(rt, round, runs.get(place + 1).copied(), Some(happening));
}

// The first six rounds and the last two, of draws that go on behind those of the source: 7407, 14993,
// 18526, 25893, 22544, 32174 and at the end 31592, 18609.
#[test]
fn history_of_1(rt: HostRuntime) -> Result<(), Fail> {
    let entries = history(rt.alloc(), 1)?;
    same(&rt, "length", entries.len(), 200_069);
    same(&rt, "runs", entries.runs().len(), 2_000);
    for (round, wanted) in [
        (0, (0, 208, tick())),
        (1, (209, 194, input(17, 0x91))),
        (2, (404, 127, input(94, 0x5E))),
        (3, (532, 294, input(37, 0x25))),
        (4, (827, 145, read(88))),
        (5, (973, 175, read(148))),
        (998, (199_464, 393, tick())),
        (999, (199_858, 210, input(49, 0xB1))),
    ] {
        check_round(&rt, entries.runs(), round, wanted);
    }
    Ok(())
}

// The draws are 1247, 32389, 10371, 28199, 3858, 18552 and at the end 17087, 544.
#[test]
fn history_of_10000(rt: HostRuntime) -> Result<(), Fail> {
    let entries = history(rt.alloc(), 10_000)?;
    same(&rt, "length", entries.len(), 202_039);
    same(&rt, "runs", entries.runs().len(), 2_000);
    for (round, wanted) in [
        (0, (0, 48, tick())),
        (1, (49, 390, read(178))),
        (2, (440, 372, input(3, 0x83))),
        (3, (813, 200, input(39, 0x27))),
        (4, (1_014, 259, tick())),
        (5, (1_274, 153, input(120, 0x78))),
        (998, (201_604, 288, tick())),
        (999, (201_893, 145, input(32, 0x20))),
    ] {
        check_round(&rt, entries.runs(), round, wanted);
    }
    Ok(())
}
