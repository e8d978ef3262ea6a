use crate::compare::same;
use image_file::{LoadError, LoadFault, load};
use std::alloc::Global;
use std::process::Abort;
use std::test::Fail;

/// The image of an OB 1 with `JU x;` and `x: T DB10.DBW 2;`, and of a DB 10 of four bytes.
pub static EXAMPLE: [u8; 80] = [
    0x53, 0x37, 0x46, 0x42, 0x00, 0x01, 0x00, 0x00, 0x00, 0x00, 0x00, 0x50, 0x00, 0x01, 0x00, 0x01,
    0x00, 0x00, 0x00, 0x00, 0x01, 0x00, 0x00, 0x01, 0x00, 0x14, 0x00, 0x00, 0x00, 0x03, 0x00, 0x00,
    0x00, 0x00, 0x00, 0x14, 0xEF, 0x08, 0x00, 0x00, 0x00, 0x00, 0x07, 0x02, 0x0A, 0x00, 0x0A, 0xA1,
    0x02, 0x84, 0x03, 0x00, 0x02, 0x00, 0xFB, 0x00, 0x00, 0x00, 0x00, 0x03, 0x00, 0x00, 0x00, 0x04,
    0x00, 0x00, 0x00, 0x05, 0x00, 0x0A, 0x00, 0x00, 0x00, 0x04, 0x00, 0x00, 0x00, 0x00, 0x00, 0x00,
];

/// One byte of the example altered, and the fault: offset and code; 0 for none.
type AlteredByte = (usize, u8, u32, u16);

static ALTERED: [AlteredByte; 25] = [
    (0, 0x53, 0, 0),
    (0, 0x54, 0, 1),
    (5, 0x03, 4, 2),
    (7, 0x01, 6, 4),
    (11, 0x51, 8, 3),
    (11, 0x13, 8, 3),
    (11, 0x4F, 76, 3),
    (19, 0x01, 18, 4),
    (20, 0x04, 20, 4),
    (21, 0x01, 21, 4),
    (23, 0x02, 22, 4),
    (25, 0x13, 24, 4),
    (27, 0x01, 26, 4),
    (29, 0x04, 28, 9),
    (30, 0x01, 30, 4),
    (36, 0x6F, 28, 9),
    (37, 0x07, 36, 5),
    (42, 0x08, 36, 6),
    (42, 0x0B, 36, 6),
    (53, 0x01, 47, 7),
    (63, 0x02, 60, 9),
    (54, 0x7B, 54, 5),
    (67, 0x00, 64, 9),
    (69, 0x00, 68, 4),
    (73, 0x03, 79, 10),
];

fn fault_of(alloc: Global, bytes: &[u8]) -> Option<LoadFault> {
    match load(alloc, bytes) {
        Ok(_) => None,
        Err(LoadError::Fault { fault }) => Some(fault),
        Err(LoadError::NoMemory) => Some(LoadFault { at: 0, code: 0 }),
    }
}

/// The fault of a row; its code is 0 where there is none.
fn wanted(at: u32, code: u16) -> Option<LoadFault> {
    if code == 0 {
        None
    } else {
        Some(LoadFault { at, code })
    }
}

/// The example with a byte altered has the row's fault.
fn is_altered(rt: &impl Abort, alloc: Global, row: &AlteredByte) {
    let (place, byte, at, code) = *row;
    let mut bytes = EXAMPLE;
    if place < 80 {
        bytes[place] = byte;
    }
    same(rt, (place, byte), fault_of(alloc, &bytes), wanted(at, code));
}

#[test]
fn altered_images(rt: HostRuntime) {
    for row in &ALTERED {
        is_altered(&rt, rt.alloc(), row);
    }
}

/// A byte behind the total length.
#[test]
fn longer_image(rt: HostRuntime) -> Result<(), Fail> {
    let mut bytes = Vec::from_slice(rt.alloc(), &EXAMPLE)?;
    bytes.push(0)?;
    let found = fault_of(rt.alloc(), bytes.as_slice());
    same(&rt, "81 bytes", found, wanted(80, 10));
    Ok(())
}

/// Lengths, and the offset of the field that can't be read.
static CUT: [(usize, u32); 7] = [(0, 0), (3, 0), (5, 4), (7, 6), (11, 8), (12, 8), (79, 8)];

/// The example cut off at a length.
fn image_front(len: usize) -> &'static [u8] {
    if len < 80 {
        EXAMPLE.split_at(len).0
    } else {
        &EXAMPLE
    }
}

#[test]
fn cut_images(rt: HostRuntime) {
    for (len, at) in &CUT {
        let found = fault_of(rt.alloc(), image_front(*len));
        same(&rt, *len, found, wanted(*at, 3));
    }
}
