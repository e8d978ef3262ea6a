//! Faults 5 to 8 that an op has by itself, its statement and its block.

use crate::building::{Block, Data, db, fault_of, fb, fc, image, ob, records_have_fault};
use crate::compare::same;
use std::alloc::Global;
use std::process::Abort;
use std::test::Fail;

/// The code of a block, the offset in the code of its fault, and the fault's code; 0 for none.
type Row = (&'static str, u32, u16);

/// A row's fault, in code that begins at an offset of the image.
fn wanted(start: u32, at: u32, fault: u16) -> (u64, u16) {
    if fault == 0 {
        (0, 0)
    } else {
        (u64::from(start) + u64::from(at), fault)
    }
}

/// The image of these blocks has the fault of a row, whose code begins at an offset.
fn agrees(
    rt: &impl Abort,
    alloc: Global,
    row: &Row,
    start: u32,
    block: Block,
    datas: &[Data],
) -> Result<(), Fail> {
    let (code, at, fault) = *row;
    let bytes = image(alloc, &[block], datas, &[])?;
    let (found_at, found) = fault_of(alloc, bytes.as_slice());
    same(
        rt,
        code,
        (u64::from(found_at), found),
        wanted(start, at, fault),
    );
    Ok(())
}

/// Rows as the code of an OB 1 with 20 local bytes, which begins at offset 36, before a DB 10.
fn agree_in_ob(rt: &impl Abort, alloc: Global, rows: &[Row]) -> Result<(), Fail> {
    for row in rows {
        agrees(rt, alloc, row, 36, ob(row.0), &[db(10, 4)])?;
    }
    Ok(())
}

static CODES: [Row; 31] = [
    ("FB 00", 0, 0),
    ("A7 00; FB 00; FB 00", 0, 0),
    // No code of the table.
    ("80 00; FB 00", 0, 5),
    ("89 00; FB 00", 0, 5),
    ("9F 00; FB 00", 0, 5),
    ("A7 00; AF 00; FB 00", 2, 5),
    // A form that the instruction doesn't have, or none at all.
    ("96 01 00000000; FB 00", 0, 5),
    ("A2 01 00000000; FB 00", 0, 5),
    ("90 08 00 00000000; FB 00", 0, 5),
    ("90 0C 000A 84 01 0000 00; FB 00", 0, 5),
    ("90 10; FB 00", 0, 5),
    // A payload beyond the form.
    ("90 02 87 01 0000 00; FB 00", 0, 5),
    ("90 02 83 00 0000 00; FB 00", 0, 5),
    ("90 02 83 05 0000 00; FB 00", 0, 5),
    ("90 02 83 01 0000 08; FB 00", 0, 5),
    ("90 03 80 01 83 0000; FB 00", 0, 5),
    ("90 03 83 01 82 0000; FB 00", 0, 5),
    ("90 04 83 01 03 00000000; FB 00", 0, 5),
    ("90 09 0B; FB 00", 0, 5),
    ("EF 08 12 00000000; FB 00", 0, 5),
    ("F8 0D 04 0001 0000; FB 00", 0, 5),
    // A literal beyond the instruction; S of a timer, CU of a timer.
    ("81 01 00000002; FB 00", 0, 5),
    ("E5 01 00000010; FB 00", 0, 5),
    ("E6 01 00000021; FB 00", 0, 5),
    ("A3 06 01 0000; FB 00", 0, 5),
    ("F6 06 01 0000; FB 00", 0, 5),
    // Code that ends within an op, without an end mark, or with another instruction than BE.
    ("A7 00; FB", 2, 5),
    ("90 02 83 01 0000", 0, 5),
    ("A7 00; 7B 00", 2, 5),
    ("A7 00; 27 00", 2, 5),
    ("FB 00; FD 00", 2, 5),
];

#[test]
fn codes(rt: HostRuntime) -> Result<(), Fail> {
    agree_in_ob(&rt, rt.alloc(), &CODES)
}

static MORE_CODES: [Row; 4] = [
    // Code of no bytes.
    ("", 0, 5),
    // Fault 5 hides the faults 6 to 9 of its block.
    ("9E 00; 80 00; FB 00", 2, 5),
    ("EF 08 00 00000003; 80 00; FB 00", 7, 5),
    // An op with two faults: the end mark is missing, and no bracket is open.
    ("1E 00 A7 00; FB 00", 0, 7),
];

#[test]
fn more_codes(rt: HostRuntime) -> Result<(), Fail> {
    agree_in_ob(&rt, rt.alloc(), &MORE_CODES)
}

static JUMPS: [Row; 18] = [
    // To itself, to the last statement, backwards.
    ("EF 08 00 00000000; FB 00", 0, 0),
    ("EF 08 11 00000007; FB 00", 0, 0),
    ("A7 00; EF 08 02 00000000; FB 00", 0, 0),
    // Within an op, behind the code, to a statement's second op.
    ("EF 08 00 00000003; FB 00", 0, 6),
    ("EF 08 00 00000009; FB 00", 0, 6),
    ("EF 08 00 FFFFFFFF; FB 00", 0, 6),
    (
        "A7 00; EF 08 00 0000000D; 02 0A 000A A1 02 84 03 0002 00; FB 00",
        2,
        6,
    ),
    (
        "A7 00; EF 08 00 00000009; 02 0A 000A A1 02 84 03 0002 00; FB 00",
        0,
        0,
    ),
    // JL: JU alone between it and its target, which stands behind it.
    ("EF 08 01 00000007; FB 00", 0, 0),
    (
        "EF 08 01 00000015; EF 08 00 00000015; EF 08 00 00000000; FB 00",
        0,
        0,
    ),
    (
        "EF 08 01 0000000E; EF 08 00 0000000E; EF 08 00 00000000; FB 00",
        0,
        0,
    ),
    ("EF 08 01 00000000; FB 00", 0, 6),
    ("A7 00; EF 08 01 00000000; FB 00", 2, 6),
    ("EF 08 01 00000009; A7 00; FB 00", 0, 6),
    ("EF 08 01 0000000E; EF 08 02 0000000E; FB 00", 0, 6),
    ("EF 08 01 00000010; EF 08 00 00000007; A7 00; FB 00", 0, 6),
    ("EF 08 01 00000008; EF 08 00 00000007; FB 00", 0, 6),
    ("EF 08 01 00000010; EF 08 00 00000010; FB 00", 0, 6),
];

#[test]
fn jumps(rt: HostRuntime) -> Result<(), Fail> {
    agree_in_ob(&rt, rt.alloc(), &JUMPS)
}

static WIDTHS: [Row; 20] = [
    // A width that the instruction doesn't have, in each form.
    ("90 02 83 02 0000 00; FB 00", 0, 7),
    ("90 03 83 02 83 0000; FB 00", 0, 7),
    ("90 04 83 02 01 00000000; FB 00", 0, 7),
    ("A0 02 83 01 0000 00; FB 00", 0, 7),
    ("A0 03 83 01 83 0000; FB 00", 0, 7),
    ("A1 04 00 01 02 00000000; FB 00", 0, 7),
    ("A2 02 82 03 0000 00; FB 00", 0, 7),
    ("B0 02 83 03 0000 00; FB 00", 0, 7),
    ("B3 02 83 02 0000 00; FB 00", 0, 7),
    ("B0 02 83 04 0000 00; FB 00", 0, 0),
    // A bit that isn't 0 where no bit is meant.
    ("A0 02 83 02 0000 01; FB 00", 0, 7),
    ("A1 02 84 04 0000 07; FB 00", 0, 7),
    ("A2 02 82 01 0000 07; FB 00", 0, 0),
    // An operand in L past the 20 local bytes; the place of a pointer isn't checked.
    ("A0 02 86 02 0013 00; FB 00", 0, 0),
    ("A0 02 86 02 0014 00; FB 00", 0, 7),
    ("A1 02 86 03 0012 00; FB 00", 0, 0),
    ("A1 02 86 03 0013 00; FB 00", 0, 7),
    ("A1 02 86 04 0011 00; FB 00", 0, 7),
    ("A2 02 86 01 0014 00; FB 00", 0, 7),
    ("A0 03 83 03 86 0028; FB 00", 0, 0),
];

#[test]
fn widths_bits_and_local_bytes(rt: HostRuntime) -> Result<(), Fail> {
    agree_in_ob(&rt, rt.alloc(), &WIDTHS)
}

static STATEMENTS: [Row; 12] = [
    // An op without the end mark that isn't USEDB or PASS, and these two with it.
    ("27 00 A7 00; FB 00", 0, 7),
    ("A7 00; 82 0A 000A; FB 00", 2, 7),
    ("84 0B 00 01 00000000; FB 00", 0, 7),
    // USEDB: the first op, of a statement with an operand in DB.
    ("02 0A 000A A1 02 84 03 0002 00; FB 00", 0, 0),
    ("02 0A 000A 02 0A 000A A1 02 84 03 0002 00; FB 00", 4, 7),
    ("02 0A 000A A1 02 83 03 0002 00; FB 00", 0, 7),
    ("02 0A 000A A1 02 85 03 0002 00; FB 00", 0, 7),
    ("02 0A 000A A1 03 84 03 83 0000; FB 00", 0, 7),
    ("02 0A 000A A7 00; FB 00", 0, 7),
    // PASS in a statement whose last op isn't CALL.
    ("04 0B 00 01 00000000 A7 00; FB 00", 0, 7),
    ("04 0B 00 01 00000000 F9 0D 05 002B 0000; FB 00", 0, 7),
    // A parameter outside a function.
    ("A0 05 00 03; FB 00", 0, 7),
];

#[test]
fn statements(rt: HostRuntime) -> Result<(), Fail> {
    agree_in_ob(&rt, rt.alloc(), &STATEMENTS)
}

static BRACKETS: [Row; 17] = [
    ("98 00; 9E 00; FB 00", 0, 0),
    ("98 00; 99 00; 9E 00; 9E 00; FB 00", 0, 0),
    ("9E 00; FB 00", 0, 8),
    ("98 00; 9E 00; 9E 00; FB 00", 4, 8),
    // Seven, and an eighth.
    (
        "98 00; 99 00; 9A 00; 9B 00; 9C 00; 9D 00; 98 00; 9E 00; 9E 00; 9E 00; 9E 00; 9E 00; 9E 00; 9E 00; FB 00",
        0,
        0,
    ),
    (
        "98 00; 99 00; 9A 00; 9B 00; 9C 00; 9D 00; 98 00; 98 00; 9E 00; 9E 00; 9E 00; 9E 00; 9E 00; 9E 00; 9E 00; 9E 00; FB 00",
        14,
        8,
    ),
    // Open at the last statement: the first of them.
    ("98 00; FB 00", 0, 8),
    ("A7 00; 98 00; 99 00; FB 00", 2, 8),
    ("98 00; 99 00; 9E 00; FB 00", 0, 8),
    // Jumps into, out of and between brackets.
    ("EF 08 00 00000009; 98 00; 9E 00; FB 00", 0, 8),
    ("EF 08 00 0000000B; 98 00; 9E 00; FB 00", 0, 0),
    ("98 00; EF 08 00 0000000B; 9E 00; FB 00", 2, 8),
    ("98 00; EF 08 00 00000009; 9E 00; FB 00", 0, 0),
    ("98 00; EF 08 00 0000000D; 9E 00; 98 00; 9E 00; FB 00", 0, 0),
    ("98 00; EF 08 00 0000000D; 9E 00; 9A 00; 9E 00; FB 00", 2, 8),
    (
        "98 00; 99 00; EF 08 00 0000000F; 9E 00; 9A 00; 9E 00; 9E 00; FB 00",
        4,
        8,
    ),
    (
        "98 00; 99 00; EF 08 00 0000000F; 9E 00; 99 00; 9E 00; 9E 00; FB 00",
        0,
        0,
    ),
];

#[test]
fn brackets(rt: HostRuntime) -> Result<(), Fail> {
    agree_in_ob(&rt, rt.alloc(), &BRACKETS)
}

static ZONES: [Row; 22] = [
    ("85 00; 87 00; 88 00; 86 00; FB 00", 0, 0),
    ("87 00; 87 00; 88 00; 88 00; FB 00", 0, 0),
    ("88 00; FB 00", 0, 8),
    ("87 00; 88 00; 88 00; FB 00", 4, 8),
    // Eight, and a ninth.
    (
        "87 00; 87 00; 87 00; 87 00; 87 00; 87 00; 87 00; 87 00; 88 00; 88 00; 88 00; 88 00; 88 00; 88 00; 88 00; 88 00; FB 00",
        0,
        0,
    ),
    (
        "87 00; 87 00; 87 00; 87 00; 87 00; 87 00; 87 00; 87 00; 87 00; 88 00; 88 00; 88 00; 88 00; 88 00; 88 00; 88 00; 88 00; 88 00; FB 00",
        16,
        8,
    ),
    // Open at the last statement: the first of them.
    ("87 00; FB 00", 0, 8),
    ("A7 00; 87 00; 87 00; FB 00", 2, 8),
    ("87 00; 87 00; 88 00; FB 00", 0, 8),
    // Jumps into, out of and between zones, whose number alone is compared.
    ("EF 08 00 00000009; 87 00; 88 00; FB 00", 0, 8),
    ("EF 08 00 0000000B; 87 00; 88 00; FB 00", 0, 0),
    ("87 00; EF 08 00 0000000B; 88 00; FB 00", 2, 8),
    ("87 00; EF 08 00 00000009; 88 00; FB 00", 0, 0),
    ("87 00; EF 08 00 0000000D; 88 00; 87 00; 88 00; FB 00", 0, 0),
    (
        "87 00; EF 08 00 0000000D; 88 00; 87 00; 87 00; 88 00; 88 00; FB 00",
        0,
        0,
    ),
    (
        "87 00; EF 08 00 0000000F; 88 00; 87 00; 87 00; 88 00; 88 00; FB 00",
        2,
        8,
    ),
    // Zones and brackets are counted apart.
    ("98 00; 87 00; 9E 00; 88 00; FB 00", 0, 0),
    ("98 00; 88 00; 9E 00; FB 00", 2, 8),
    ("87 00; 9E 00; 88 00; FB 00", 2, 8),
    ("98 00; EF 08 00 0000000D; 9E 00; 87 00; 88 00; FB 00", 2, 8),
    ("98 00; 87 00; 9E 00; FB 00", 2, 8),
    ("98 00; 87 00; 88 00; FB 00", 0, 8),
];

#[test]
fn zones(rt: HostRuntime) -> Result<(), Fail> {
    agree_in_ob(&rt, rt.alloc(), &ZONES)
}

/// Rows as the code of a function with the parameters IN word, IN_OUT word and OUT bit; it begins at
/// offset 54.
static FUNCTION: [Row; 15] = [
    ("A0 05 00 03; A1 05 01 03; A2 05 02 01; FB 00", 0, 0),
    // No such parameter, another width than the parameter's, one that the instruction lacks.
    ("A0 05 03 03; FB 00", 0, 7),
    ("A0 05 FF 03; FB 00", 0, 7),
    ("A0 05 00 02; FB 00", 0, 7),
    ("A0 05 02 01; FB 00", 0, 7),
    ("90 05 01 03; FB 00", 0, 7),
    // An input that is written; inputs and outputs may be read.
    ("A1 05 00 03; FB 00", 0, 7),
    ("90 05 02 01; A3 05 02 01; FB 00", 0, 0),
    ("A4 05 02 01; FB 00", 0, 0),
    ("A0 05 01 03; FB 00", 0, 0),
    // PASS by itself: a place in L, a bit, no such parameter, another width, another area.
    ("04 0B 00 02 86 03 0013 00 F8 0D 02 0001 0000; FB 00", 0, 7),
    ("04 0B 00 02 83 03 0000 01 F8 0D 02 0001 0000; FB 00", 0, 7),
    ("04 0B 00 05 03 03 F8 0D 02 0001 0000; FB 00", 0, 7),
    ("04 0B 00 05 00 04 F8 0D 02 0001 0000; FB 00", 0, 7),
    (
        "04 0B 00 0C 000A 85 03 0000 00 F8 0D 02 0001 0000; FB 00",
        0,
        7,
    ),
];

#[test]
fn parameters_of_a_function(rt: HostRuntime) -> Result<(), Fail> {
    for row in &FUNCTION {
        let block = fc(1, &[(1, 3, 0), (3, 3, 0), (2, 1, 0)], row.0);
        agrees(&rt, rt.alloc(), row, 54, block, &[])?;
    }
    Ok(())
}

/// The code of a function whose input is one bit, and the fault.
static WRITTEN: [(&str, (u32, u16)); 6] = [
    ("90 05 00 01; FB 00", (0, 0)),
    ("A2 05 00 01; FB 00", (42, 7)),
    ("A3 05 00 01; FB 00", (42, 7)),
    ("A4 05 00 01; FB 00", (42, 7)),
    ("A5 05 00 01; FB 00", (42, 7)),
    ("A6 05 00 01; FB 00", (42, 7)),
];

/// The instructions that write their operand, at an input of one bit: =, S, R, FP, FN.
#[test]
fn written_inputs(rt: HostRuntime) -> Result<(), Fail> {
    let alloc = rt.alloc();
    for row in &WRITTEN {
        let (code, fault) = *row;
        let block = fc(1, &[(1, 1, 0)], code);
        records_have_fault(&rt, alloc, code, &[block], &[], &[], fault)?;
    }
    let block = fb(1, 2, &[(1, 1, 0)], "90 05 00 01; FB 00");
    let what = "a function block's input";
    records_have_fault(&rt, alloc, what, &[block], &[], &[], (42, 7))
}
