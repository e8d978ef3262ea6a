//! One byte of an image altered: the faults of its fields.

use crate::building::{Block, bytes_of, db, fc, have_fault, records_have_fault};
use crate::compare::same;
use flat_code::Field;
use std::alloc::Global;
use std::process::Abort;
use std::test::Fail;

/// An FB 1 with four instance bytes, the parameters IN word at 0 and OUT word at 2, and no statement
/// but BE; its instance DB 5 of four bytes; the names AB, a bit of I, and AC, a word of M.
static IMAGE: &str = "\
53374642 0001 0000 00000052 0001 0001 0002 0000
03 02 0001 0000 0004 0001 0000 00000002
01 03 0000 00 00  02 03 0002 00 00
FB 00  00000001
0005 0002 0004 0000 00000000
02 41 42 81 01 0000 07
02 41 43 83 03 0002 00";

/// A place, the byte that is put there, and the fault: offset and code, 0 and 0 for none.
type AlteredField = (usize, u8, u32, u16);

static ALTERED: [AlteredField; 58] = [
    (0, 0x53, 0, 0),
    (3, 0x43, 0, 1),
    (4, 0x01, 4, 2),
    (5, 0x00, 4, 2),
    (6, 0x01, 6, 4),
    (8, 0x01, 8, 3),
    (11, 0x51, 81, 3),
    (14, 0x01, 14, 4),
    (17, 0x00, 66, 10),
    (17, 0x01, 74, 10),
    (17, 0x03, 82, 3),
    (18, 0x01, 18, 4),
    // Kind, parameter count, number, local bytes, instance bytes.
    (20, 0x00, 20, 4),
    (20, 0x01, 21, 4),
    (20, 0x02, 26, 4),
    (20, 0x05, 20, 4),
    (21, 0x3D, 21, 4),
    (22, 0x08, 22, 4),
    (23, 0x00, 0, 0),
    (24, 0x04, 0, 0),
    (24, 0x05, 24, 4),
    (26, 0x41, 26, 4),
    (27, 0x03, 44, 4),
    (27, 0x05, 0, 0),
    // Statement count, the reserved field, code length.
    (29, 0x02, 28, 9),
    (29, 0x00, 28, 9),
    (30, 0x01, 30, 4),
    (35, 0x01, 48, 5),
    (32, 0x01, 48, 3),
    // Parameters: section, width, byte, bit, reserved.
    (36, 0x00, 36, 4),
    (36, 0x04, 36, 4),
    (37, 0x00, 37, 4),
    (37, 0x05, 37, 4),
    (39, 0x03, 38, 4),
    (39, 0x02, 0, 0),
    (40, 0x08, 40, 4),
    (40, 0x07, 0, 0),
    (47, 0x01, 47, 4),
    // Code and lines.
    (48, 0x7B, 48, 5),
    (53, 0x00, 50, 9),
    (50, 0xFF, 0, 0),
    // Data block: number, instance, length, reserved; its bytes may be any.
    (54, 0x08, 54, 4),
    (55, 0x00, 54, 4),
    (56, 0x09, 56, 4),
    (57, 0x00, 0, 0),
    (58, 0x41, 58, 4),
    (59, 0x05, 67, 4),
    (61, 0x01, 60, 4),
    (65, 0xFF, 0, 0),
    // Names: length, bytes, area, width, bit.
    (66, 0x00, 66, 4),
    (66, 0x19, 66, 4),
    (68, 0x62, 67, 4),
    (68, 0x20, 67, 4),
    (69, 0x84, 69, 4),
    (70, 0x05, 70, 4),
    (73, 0x08, 73, 4),
    (76, 0x42, 75, 4),
    (81, 0x01, 81, 4),
];

/// The image with a byte altered has the row's fault.
fn is_altered(
    rt: &impl Abort,
    alloc: Global,
    image: &[u8],
    row: &AlteredField,
) -> Result<(), Fail> {
    let (place, byte, at, code) = *row;
    let mut bytes = Vec::from_slice(alloc, image)?;
    if place < bytes.len() {
        bytes[place] = byte;
    }
    have_fault(rt, alloc, (place, byte), bytes.as_slice(), (at, code));
    Ok(())
}

fn are_altered(
    rt: &impl Abort,
    alloc: Global,
    image: &[u8],
    rows: &[AlteredField],
) -> Result<(), Fail> {
    for row in rows {
        is_altered(rt, alloc, image, row)?;
    }
    Ok(())
}

#[test]
fn altered_fields(rt: HostRuntime) -> Result<(), Fail> {
    let image = bytes_of(rt.alloc(), IMAGE)?;
    same(&rt, "length", image.len(), 82);
    are_altered(&rt, rt.alloc(), image.as_slice(), &ALTERED)
}

/// A length, and the offset of the field that can't be read.
static CUT: [(u32, u32); 25] = [
    (20, 20),
    (21, 21),
    (23, 22),
    (25, 24),
    (27, 26),
    (29, 28),
    (31, 30),
    (35, 32),
    (36, 36),
    (39, 38),
    (41, 41),
    (48, 48),
    (49, 48),
    (50, 50),
    (53, 50),
    (54, 54),
    (57, 56),
    (59, 58),
    (62, 62),
    (65, 62),
    (66, 66),
    (68, 67),
    (69, 69),
    (72, 71),
    (81, 81),
];

/// The image cut off at a length, which is its total length then, has a fault 3 at an offset.
fn is_cut(rt: &impl Abort, alloc: Global, len: u32, at: u32) -> Result<(), Fail> {
    let mut bytes = bytes_of(alloc, IMAGE)?;
    bytes.truncate(len as usize);
    if bytes.len() > 11 {
        bytes[11] = (len % 256) as u8;
    }
    have_fault(rt, alloc, len, bytes.as_slice(), (at, 3));
    Ok(())
}

/// Cut off with a total length of just the bytes that are left: the field that can't be read.
#[test]
fn fields_that_run_past(rt: HostRuntime) -> Result<(), Fail> {
    for (len, at) in &CUT {
        is_cut(&rt, rt.alloc(), *len, *at)?;
    }
    Ok(())
}

/// A block of a kind and number.
fn block(kind: u8, number: u16) -> Block {
    Block {
        kind,
        ..fc(number, &[], "FB 00")
    }
}

/// Kind and number of two blocks, and the fault.
type Pair = ((u8, u16), (u8, u16), (u32, u16));

static BLOCKS: [Pair; 13] = [
    ((1, 121), (2, 0), (0, 0)),
    ((2, 2047), (3, 0), (0, 0)),
    ((2, 1), (2, 2), (0, 0)),
    ((2, 2), (2, 1), (44, 4)),
    ((2, 2), (2, 2), (44, 4)),
    ((3, 1), (2, 2), (42, 4)),
    ((2, 1), (1, 1), (42, 4)),
    ((1, 1), (1, 100), (0, 0)),
    ((1, 1), (1, 2), (44, 4)),
    ((1, 1), (1, 9), (44, 4)),
    ((1, 1), (1, 48), (44, 4)),
    ((1, 1), (1, 123), (44, 4)),
    ((2, 1), (2, 2048), (44, 4)),
];

/// The image of a row's two blocks has the row's fault.
fn pair_has_fault(rt: &impl Abort, alloc: Global, row: &Pair) -> Result<(), Fail> {
    let (first, second, fault) = *row;
    let blocks = [block(first.0, first.1), block(second.0, second.1)];
    records_have_fault(rt, alloc, (first, second), &blocks, &[], &[], fault)
}

/// The second of two blocks, which begins at 42, may not stand behind the first.
#[test]
fn blocks_out_of_order(rt: HostRuntime) -> Result<(), Fail> {
    for row in &BLOCKS {
        pair_has_fault(&rt, rt.alloc(), row)?;
    }
    Ok(())
}

/// The numbers of two data blocks, and the fault.
static DATA_BLOCKS: [(u16, u16, (u32, u16)); 6] = [
    (1, 2, (0, 0)),
    (1, 2047, (0, 0)),
    (2, 2, (28, 4)),
    (2, 1, (28, 4)),
    (1, 2048, (28, 4)),
    (1, 0, (28, 4)),
];

/// The second of two data blocks, which begins at 28, may not stand behind the first.
#[test]
fn data_blocks_out_of_order(rt: HostRuntime) -> Result<(), Fail> {
    for row in &DATA_BLOCKS {
        let (first, second, fault) = *row;
        let datas = [db(first, 0), db(second, 0)];
        records_have_fault(&rt, rt.alloc(), (first, second), &[], &datas, &[], fault)?;
    }
    Ok(())
}

/// The second name, and the fault.
static NAMES: [(&str, (u32, u16)); 10] = [
    ("01 42 82 02 0000 00", (0, 0)),
    ("02 41 41 82 02 0000 00", (0, 0)),
    ("02 41 09 82 02 0000 00", (0, 0)),
    ("01 FF 82 02 0000 00", (0, 0)),
    ("01 41 82 02 0000 00", (28, 4)),
    ("01 40 82 02 0000 00", (28, 4)),
    ("02 40 41 82 02 0000 00", (28, 4)),
    ("02 42 20 82 02 0000 00", (28, 4)),
    ("03 42 61 42 82 02 0000 00", (28, 4)),
    ("03 42 20 42 82 02 0000 00", (0, 0)),
];

/// The second of two names, whose bytes begin at 28, may not stand behind the first, A.
#[test]
fn names_out_of_order(rt: HostRuntime) -> Result<(), Fail> {
    for row in &NAMES {
        let (second, fault) = *row;
        let names = ["01 41 81 01 0000 00", second];
        records_have_fault(&rt, rt.alloc(), second, &[], &[], &names, fault)?;
    }
    Ok(())
}

/// Fields at their limits and beyond them, with the code of their fault.
static FIELDS: [(Field, Option<u16>); 16] = [
    (Field::Version { number: 1 }, None),
    (Field::Version { number: 2 }, None),
    (Field::Version { number: 3 }, Some(2)),
    (Field::Version { number: 0 }, Some(2)),
    (
        Field::Profile {
            version: 1,
            number: 0,
        },
        None,
    ),
    (
        Field::Profile {
            version: 2,
            number: 2,
        },
        None,
    ),
    (
        Field::Profile {
            version: 2,
            number: 0,
        },
        Some(4),
    ),
    (Field::Reserved { number: 1 }, Some(4)),
    (Field::DataBlockCount { count: 256 }, None),
    (Field::DataBlockCount { count: 257 }, Some(4)),
    (Field::ParameterCount { kind: 2, count: 60 }, None),
    (Field::ParameterCount { kind: 1, count: 1 }, Some(4)),
    (Field::LocalBytes { kind: 1, bytes: 20 }, None),
    (Field::LocalBytes { kind: 1, bytes: 19 }, Some(4)),
    (Field::Line { before: 3, line: 3 }, None),
    (Field::Line { before: 3, line: 2 }, Some(9)),
];

#[test]
fn fields_by_themselves(rt: HostRuntime) {
    for (field, fault) in &FIELDS {
        same(&rt, *fault, field.fault(), *fault);
    }
}
