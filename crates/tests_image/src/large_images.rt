//! Images at their limits.

use crate::building::{
    Block, bytes_of, db, fc, have_fault, ob, put_code_block, put_data, put_header, put_hex, put_u32,
};
use crate::compare::same;
use std::alloc::{AllocError, Global};
use std::process::Abort;
use std::test::Fail;

/// Code with so many statements SET, some of them A BR, and BE.
fn code_of(alloc: Global, statements: u32, checks: u32) -> Result<Vec<u8>, AllocError> {
    let mut code = Vec::new(alloc);
    for i in 0..statements {
        put_hex(&mut code, if i < checks { "90 09 01" } else { "A7 00" })?;
    }
    put_hex(&mut code, "FB 00")?;
    Ok(code)
}

/// The image of a block with this code and so many statements, the last of them at another line.
fn image_of(alloc: Global, code: &[u8], statements: u16) -> Result<Vec<u8>, AllocError> {
    let mut image = Vec::new(alloc);
    let lines = 4 * u32::from(statements);
    let total = 36 + lines + (code.len() % 1_000_000) as u32;
    put_header(&mut image, total, 1, 0, 0)?;
    put_code_block(&mut image, &ob(""), code, statements)?;
    Ok(image)
}

/// The image of 65,534 statements and BE.
fn image_of_most(alloc: Global) -> Result<Vec<u8>, AllocError> {
    let code = code_of(alloc, 65_534, 0)?;
    image_of(alloc, code.as_slice(), 65_535)
}

/// 65,534 statements and BE; then the line of BE, at 36 + 131,070 + 4 * 65,534, altered.
#[test]
fn most_statements(rt: HostRuntime) -> Result<(), Fail> {
    let mut image = image_of_most(rt.alloc())?;
    let len = image.len();
    same(&rt, "length", len, 393_246);
    have_fault(&rt, rt.alloc(), "lines that rise", image.as_slice(), (0, 0));
    if len > 4 {
        image[len - 2] = 0;
    }
    let what = "the line of BE altered";
    have_fault(&rt, rt.alloc(), what, image.as_slice(), (393_242, 9));
    Ok(())
}

/// The code of JL with so many JU behind it, all to a target behind them, where BE stands.
fn jump_list(alloc: Global, jumps: u16, target: u32) -> Result<Vec<u8>, AllocError> {
    let mut code = bytes_of(alloc, "EF 08 01")?;
    put_u32(&mut code, target)?;
    for _ in 0..jumps {
        put_hex(&mut code, "EF 08 00")?;
        put_u32(&mut code, target)?;
    }
    put_hex(&mut code, "FB 00")?;
    Ok(code)
}

/// The image of a block with this code and so many statements has this fault.
fn code_has_fault(
    rt: &impl Abort,
    alloc: Global,
    code: &[u8],
    statements: u16,
    fault: (u32, u16),
) -> Result<(), Fail> {
    let image = image_of(alloc, code, statements)?;
    have_fault(rt, alloc, statements, image.as_slice(), fault);
    Ok(())
}

fn list_has_fault(
    rt: &impl Abort,
    alloc: Global,
    jumps: u16,
    target: u32,
    fault: (u32, u16),
) -> Result<(), Fail> {
    let code = jump_list(alloc, jumps, target)?;
    code_has_fault(rt, alloc, code.as_slice(), jumps % 1000 + 2, fault)
}

/// Of JU behind a JL 255 are a list, 256 are not.
#[test]
fn longest_jump_list(rt: HostRuntime) -> Result<(), Fail> {
    list_has_fault(&rt, rt.alloc(), 255, 1792, (0, 0))?;
    list_has_fault(&rt, rt.alloc(), 256, 1799, (36, 6))
}

/// The code of a statement of so many ops, and of BE.
fn long_statement(alloc: Global, ops: u32) -> Result<Vec<u8>, AllocError> {
    let mut code = Vec::new(alloc);
    for _ in 1..ops {
        put_hex(&mut code, "16 00")?;
    }
    put_hex(&mut code, "96 00 FB 00")?;
    Ok(code)
}

/// How many ops a statement has, and the fault.
static STATEMENTS: [(u32, (u32, u16)); 4] = [
    (1, (0, 0)),
    (64, (36, 7)),
    (65, (164, 5)),
    (66, (164, 5)),
];

/// A statement of so many ops: the 65th is a fault 5; of 64 the first lacks the end mark.
#[test]
fn longest_statement(rt: HostRuntime) -> Result<(), Fail> {
    for (ops, fault) in &STATEMENTS {
        let code = long_statement(rt.alloc(), *ops)?;
        code_has_fault(&rt, rt.alloc(), code.as_slice(), 2, *fault)?;
    }
    Ok(())
}

/// How many data blocks there are and how many bytes each has, how many the image has, and the fault.
type Datas = (u16, u16, u32, (u32, u16));

/// The image of the data blocks 1, 2, 3 and so on.
fn image_of_data(alloc: Global, count: u16, len: u16, total: u32) -> Result<Vec<u8>, AllocError> {
    let mut image = Vec::new(alloc);
    put_header(&mut image, total, 0, count, 0)?;
    for number in 0..count {
        put_data(&mut image, &db(number + 1, len))?;
    }
    Ok(image)
}

fn data_has_fault(rt: &impl Abort, alloc: Global, row: Datas) -> Result<(), Fail> {
    let (count, len, total, fault) = row;
    let image = image_of_data(alloc, count, len, total)?;
    same(rt, count, image.len(), total as usize);
    have_fault(rt, alloc, count, image.as_slice(), fault);
    Ok(())
}

/// 128 data blocks of 16,384 bytes are as many as there may be; a 129th is refused at its length.
#[test]
fn most_data(rt: HostRuntime) -> Result<(), Fail> {
    data_has_fault(&rt, rt.alloc(), (128, 16_384, 2_098_196, (0, 0)))?;
    data_has_fault(&rt, rt.alloc(), (129, 16_384, 2_114_588, (2_098_200, 4)))
}

/// 256 data blocks are as many as there may be.
#[test]
fn most_data_blocks(rt: HostRuntime) -> Result<(), Fail> {
    data_has_fault(&rt, rt.alloc(), (256, 0, 2068, (0, 0)))?;
    data_has_fault(&rt, rt.alloc(), (257, 0, 2076, (14, 4)))
}

/// Appends 21 functions with this code of 65,535 statements.
fn put_full_blocks(out: &mut Vec<u8>, code: &[u8]) -> Result<(), AllocError> {
    for number in 0..21 {
        let block: Block = fc(number, &[], "");
        put_code_block(out, &block, code, 65_535)?;
    }
    Ok(())
}

/// The image of 21 functions with the first code, and of one with the second.
fn full_image(alloc: Global, total: u32, full: &[u8], last: &[u8]) -> Result<Vec<u8>, AllocError> {
    let mut image = Vec::new(alloc);
    put_header(&mut image, total, 22, 0, 0)?;
    put_full_blocks(&mut image, full)?;
    put_code_block(&mut image, &fc(21, &[], ""), last, 21_804)?;
    Ok(image)
}

/// The image of 21 functions with this code and of one that has so many checks has so many bytes, and
/// the fault.
fn is_as_long(
    rt: &impl Abort,
    alloc: Global,
    full: &[u8],
    checks: u32,
    total: u32,
    fault: (u32, u16),
) -> Result<(), Fail> {
    let last = code_of(alloc, 21_803, checks)?;
    let image = full_image(alloc, total, full, last.as_slice())?;
    same(rt, checks, image.len(), total as usize);
    have_fault(rt, alloc, checks, image.as_slice(), fault);
    Ok(())
}

/// 21 functions of 393,226 bytes and one of 130,842 make an image of 8,388,608 bytes; one of 130,843,
/// with an op of three bytes more for one of two, makes it too long.
#[test]
fn longest_image(rt: HostRuntime) -> Result<(), Fail> {
    let full = code_of(rt.alloc(), 65_534, 0)?;
    is_as_long(&rt, rt.alloc(), full.as_slice(), 2, 8_388_608, (0, 0))?;
    is_as_long(&rt, rt.alloc(), full.as_slice(), 3, 8_388_609, (8, 4))
}
