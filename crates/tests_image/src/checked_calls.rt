//! Faults 7 that need the blocks that are called.

use crate::building::{
    Block, Parameter, db, fault_of, fb, fc, have_fault, image, ob, records_have_fault,
};
use crate::compare::same;
use std::alloc::{AllocError, Global};
use std::process::Abort;
use std::test::Fail;

/// The code of an OB 1, the offset in the code of its fault, and whether it has one.
type Row = (&'static str, u32, bool);

const WORD_WORD_BYTE: &[Parameter] = &[(1, 3, 0), (3, 3, 0), (2, 2, 0)];

const BIT_BYTE_DWORD: &[Parameter] = &[(1, 1, 0), (1, 2, 0), (1, 4, 0)];

/// A row before FC 1 (IN word, IN_OUT word, OUT byte), FC 2 (no parameter), FC 3 (IN bit, byte and
/// double word), FB 1 (four bytes; IN word, OUT word), FB 2 (no parameter), FB 3 (20 bytes, no
/// parameter), and the data blocks 5 (four bytes), 6 (three bytes) and 10 (four bytes).
fn image_of(alloc: Global, code: &'static str) -> Result<Vec<u8>, AllocError> {
    let blocks = [
        ob(code),
        fc(1, WORD_WORD_BYTE, "FB 00"),
        fc(2, &[], "FB 00"),
        fc(3, BIT_BYTE_DWORD, "FB 00"),
        fb(1, 4, &[(1, 3, 0), (2, 3, 2)], "FB 00"),
        fb(2, 0, &[], "FB 00"),
        fb(3, 20, &[], "FB 00"),
    ];
    image(alloc, &blocks, &[db(5, 4), db(6, 3), db(10, 4)], &[])
}

/// The fault of a row; the code of OB 1 begins at offset 36.
fn wanted(at: u32, faulty: bool) -> (u64, u16) {
    if faulty {
        (36 + u64::from(at), 7)
    } else {
        (0, 0)
    }
}

fn agrees(rt: &impl Abort, alloc: Global, row: &Row) -> Result<(), Fail> {
    let (code, at, faulty) = *row;
    let bytes = image_of(alloc, code)?;
    let (found_at, found) = fault_of(alloc, bytes.as_slice());
    same(rt, code, (u64::from(found_at), found), wanted(at, faulty));
    Ok(())
}

fn agree(rt: &impl Abort, alloc: Global, rows: &[Row]) -> Result<(), Fail> {
    for row in rows {
        agrees(rt, alloc, row)?;
    }
    Ok(())
}

static CALLED: [Row; 24] = [
    (
        "F8 0D 02 0002 0000; F9 0D 02 0002 0000; FA 0D 02 0002 0000; FB 00",
        0,
        false,
    ),
    // Absent: a function, a function block, a number beyond the limit, no system function.
    ("F8 0D 02 0004 0000; FB 00", 0, true),
    ("F8 0D 03 0004 0000; FB 00", 0, true),
    ("FA 0D 02 FFFF 0000; FB 00", 0, true),
    ("F8 0D 05 002C 0000; FB 00", 0, true),
    ("F8 0D 05 002B 0000; FB 00", 0, false),
    // An instance of a function block: right, absent, shorter; 0 with and without parameters.
    ("F8 0D 03 0001 0005; FB 00", 0, false),
    ("F8 0D 03 0001 000A; FB 00", 0, false),
    ("F8 0D 03 0001 0007; FB 00", 0, true),
    ("F8 0D 03 0001 0006; FB 00", 0, true),
    ("F8 0D 03 0001 0000; FB 00", 0, true),
    ("F8 0D 03 0002 0000; FB 00", 0, false),
    ("F8 0D 03 0002 000A; FB 00", 0, false),
    ("F8 0D 03 0003 0000; FB 00", 0, false),
    ("F8 0D 03 0003 0005; FB 00", 0, true),
    // UC and CC of a function block.
    ("F9 0D 03 0001 0005; FB 00", 0, false),
    ("FA 0D 03 0001 0000; FB 00", 0, true),
    // An instance that is given to another block.
    ("F8 0D 02 0002 0005; FB 00", 0, true),
    ("F8 0D 05 002B 0005; FB 00", 0, true),
    // Parameters that aren't passed.
    ("F8 0D 02 0001 0000; FB 00", 0, true),
    ("F9 0D 02 0001 0000; FB 00", 0, true),
    ("FA 0D 02 0003 0000; FB 00", 0, true),
    ("F8 0D 05 0029 0000; FB 00", 0, true),
    (
        "A7 00; 04 0B 00 01 00000007 04 0B 01 02 83 03 0002 00 F8 0D 02 0001 0000; FB 00",
        19,
        true,
    ),
];

#[test]
fn called_blocks_and_instances(rt: HostRuntime) -> Result<(), Fail> {
    agree(&rt, rt.alloc(), &CALLED)
}

static PASSED: [Row; 22] = [
    (
        "04 0B 00 01 00000007 04 0B 01 02 83 03 0002 00 04 0B 02 02 83 02 0004 00 F8 0D 02 0001 0000; FB 00",
        0,
        false,
    ),
    // No such parameter.
    (
        "04 0B 00 01 00000007 04 0B 01 02 83 03 0002 00 04 0B 02 02 83 02 0004 00 04 0B 03 01 00000000 F8 0D 02 0001 0000; FB 00",
        26,
        true,
    ),
    ("04 0B 00 01 00000000 F8 0D 02 0002 0000; FB 00", 0, true),
    ("04 0B 02 01 00000000 F8 0D 03 0001 0005; FB 00", 0, true),
    // The index doesn't rise.
    (
        "04 0B 01 02 83 03 0002 00 04 0B 00 01 00000007 F8 0D 03 0001 0005; FB 00",
        9,
        true,
    ),
    (
        "04 0B 00 01 00000007 04 0B 00 01 00000007 F8 0D 03 0001 0005; FB 00",
        8,
        true,
    ),
    // The parameters of a function block need not be passed.
    (
        "04 0B 00 01 00000007 04 0B 01 02 83 03 0002 00 F8 0D 03 0001 0005; FB 00",
        0,
        false,
    ),
    (
        "04 0B 01 02 83 03 0002 00 F8 0D 03 0001 0005; FB 00",
        0,
        false,
    ),
    // Another width than the parameter's.
    (
        "04 0B 00 02 83 02 0000 00 F8 0D 03 0001 0005; FB 00",
        0,
        true,
    ),
    (
        "04 0B 00 0C 000A 84 04 0000 00 F8 0D 03 0001 0005; FB 00",
        0,
        true,
    ),
    // A literal for OUT and for IN_OUT.
    ("04 0B 01 01 00000000 F8 0D 03 0001 0005; FB 00", 0, true),
    (
        "04 0B 00 01 00000007 04 0B 01 01 00000000 04 0B 02 02 83 02 0004 00 F8 0D 02 0001 0000; FB 00",
        8,
        true,
    ),
    // A literal that is too wide for a word, a bit, a byte.
    ("04 0B 00 01 0000FFFF F8 0D 03 0001 0005; FB 00", 0, false),
    ("04 0B 00 01 00010000 F8 0D 03 0001 0005; FB 00", 0, true),
    (
        "04 0B 00 01 00000001 04 0B 01 01 000000FF 04 0B 02 01 FFFFFFFF F8 0D 02 0003 0000; FB 00",
        0,
        false,
    ),
    (
        "04 0B 00 01 00000002 04 0B 01 01 000000FF 04 0B 02 01 FFFFFFFF F8 0D 02 0003 0000; FB 00",
        0,
        true,
    ),
    (
        "04 0B 00 01 00000001 04 0B 01 01 00000100 04 0B 02 01 FFFFFFFF F8 0D 02 0003 0000; FB 00",
        8,
        true,
    ),
    // A place in L past the 20 local bytes.
    (
        "04 0B 00 02 86 03 0012 00 F8 0D 03 0001 0005; FB 00",
        0,
        false,
    ),
    (
        "04 0B 00 02 86 03 0013 00 F8 0D 03 0001 0005; FB 00",
        0,
        true,
    ),
    // A place in a data block, and the same in another area; a bit where none is meant.
    (
        "04 0B 00 0C 0063 84 03 FFFF 00 F8 0D 03 0001 0005; FB 00",
        0,
        false,
    ),
    (
        "04 0B 00 0C 000A 83 03 0000 00 F8 0D 03 0001 0005; FB 00",
        0,
        true,
    ),
    (
        "04 0B 00 0C 000A 84 03 0000 01 F8 0D 03 0001 0005; FB 00",
        0,
        true,
    ),
];

#[test]
fn passed_parameters(rt: HostRuntime) -> Result<(), Fail> {
    agree(&rt, rt.alloc(), &PASSED)
}

/// The nine system functions with what is passed for each of their parameters.
static SYSTEM: [Row; 11] = [
    (
        "04 0B 00 01 00000014 04 0B 01 01 000003E8 04 0B 02 01 00000007 04 0B 03 02 83 03 0014 00 F8 0D 05 0020 0000; FB 00",
        0,
        false,
    ),
    (
        "04 0B 00 01 00000014 04 0B 01 02 83 03 0014 00 F8 0D 05 0021 0000; FB 00",
        0,
        false,
    ),
    (
        "04 0B 00 01 00000002 04 0B 01 01 00000028 04 0B 02 02 83 03 0014 00 F8 0D 05 0027 0000; FB 00",
        0,
        false,
    ),
    (
        "04 0B 00 01 00000002 04 0B 01 01 00000028 04 0B 02 02 83 03 0014 00 F8 0D 05 0028 0000; FB 00",
        0,
        false,
    ),
    (
        "04 0B 00 02 83 03 0014 00 F8 0D 05 0029 0000; FB 00",
        0,
        false,
    ),
    (
        "04 0B 00 02 83 03 0014 00 F8 0D 05 002A 0000; FB 00",
        0,
        false,
    ),
    ("F8 0D 05 002B 0000; F8 0D 05 002E 0000; FB 00", 0, false),
    (
        "04 0B 00 02 83 04 0014 00 F8 0D 05 0040 0000; FB 00",
        0,
        false,
    ),
    // DTIME has the width of a double word, MODE that of a byte, RET_VAL is written.
    (
        "04 0B 00 01 00000014 04 0B 01 02 83 03 0000 00 04 0B 02 01 00000007 04 0B 03 02 83 03 0014 00 F8 0D 05 0020 0000; FB 00",
        8,
        true,
    ),
    (
        "04 0B 00 01 00000100 04 0B 01 01 00000028 04 0B 02 02 83 03 0014 00 F8 0D 05 0027 0000; FB 00",
        0,
        true,
    ),
    ("04 0B 00 01 00000000 F8 0D 05 0029 0000; FB 00", 0, true),
];

#[test]
fn system_functions(rt: HostRuntime) -> Result<(), Fail> {
    agree(&rt, rt.alloc(), &SYSTEM)
}

const INPUT: &str = "04 0B 00 05 00 03 F8 0D 02 0002 0000; FB 00";

const OUTPUT: &str = "04 0B 00 05 01 03 F8 0D 02 0002 0000; FB 00";

/// The code of FC 1, the parameter of FC 2, and the fault.
type PassedParameter = (&'static str, &'static [Parameter], (u32, u16));

static PASSED_ON: [PassedParameter; 6] = [
    (INPUT, &[(1, 3, 0)], (0, 0)),
    (INPUT, &[(2, 3, 0)], (48, 7)),
    (INPUT, &[(3, 3, 0)], (48, 7)),
    (INPUT, &[(1, 4, 0)], (48, 7)),
    (OUTPUT, &[(2, 3, 0)], (0, 0)),
    (OUTPUT, &[(3, 3, 0)], (0, 0)),
];

fn is_passed_on(rt: &impl Abort, alloc: Global, row: &PassedParameter) -> Result<(), Fail> {
    let (code, params, fault) = *row;
    let blocks = [fc(1, &[(1, 3, 0), (2, 3, 0)], code), fc(2, params, "FB 00")];
    let bytes = image(alloc, &blocks, &[], &[])?;
    have_fault(rt, alloc, (code, params), bytes.as_slice(), fault);
    Ok(())
}

/// What FC 1 with the parameters IN word and OUT word passes to FC 2, whose parameter has this
/// section; the code of FC 1 begins at offset 48.
#[test]
fn parameters_passed_on(rt: HostRuntime) -> Result<(), Fail> {
    for row in &PASSED_ON {
        is_passed_on(&rt, rt.alloc(), row)?;
    }
    Ok(())
}

/// An OB 1 that calls an absent function, at offset 36.
fn absent() -> Block {
    ob("F8 0D 02 0009 0000; FB 00")
}

const NAME: &str = "02 41 42 81 01 0000 00";

/// The absent function before a data block, whose bytes begin at 61, and a name, which begins at 65.
fn whole_image(alloc: Global) -> Result<Vec<u8>, AllocError> {
    image(alloc, &[absent()], &[db(10, 4)], &[NAME])
}

/// That image, cut off at a length, which is its total length then.
fn is_cut(rt: &impl Abort, alloc: Global, len: u32, fault: (u32, u16)) -> Result<(), Fail> {
    let mut bytes = whole_image(alloc)?;
    bytes.truncate(len as usize);
    if bytes.len() > 11 {
        bytes[10] = 0;
        bytes[11] = (len % 256) as u8;
    }
    have_fault(rt, alloc, len, bytes.as_slice(), fault);
    Ok(())
}

/// Calls are checked only where all blocks were read: OB 1 calls an absent function, at offset 36, and
/// something behind it can't be read.
#[test]
fn calls_beside_other_faults(rt: HostRuntime) -> Result<(), Fail> {
    let alloc = rt.alloc();
    let datas = [db(10, 4)];
    let alone = "the absent function alone";
    records_have_fault(&rt, alloc, alone, &[absent()], &datas, &[NAME], (36, 7))?;
    // The second function has a fault 5 at its only op, which begins at 53 + 16.
    let blocks = [absent(), fc(1, &[], "80 00")];
    records_have_fault(&rt, alloc, "a second function", &blocks, &[], &[], (69, 5))?;
    // Cut off within the name, and within the data block's bytes.
    is_cut(&rt, alloc, 70, (36, 7))?;
    is_cut(&rt, alloc, 64, (61, 3))
}
