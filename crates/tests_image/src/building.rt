//! Images put together from their parts, and what loading them answers.

ghost use Rattle.std.specs.Prelude.{◌<◌, IfSome};

use crate::compare::same;
use image_file::{LoadError, LoadFault, load};
use std::alloc::{AllocError, Global};
use std::fmt::Debug;
use std::process::Abort;
use std::test::Fail;

/// A parameter: section (1 IN, 2 OUT, 3 IN_OUT), width (1 bit to 4 double word), byte.
pub type Parameter = (u8, u8, u16);

/// A code block (kind 1 OB, 2 FC, 3 FB). Its code is hexadecimal, with `;` between statements; the
/// statements have the lines 1, 2, 3 and so on.
#[derive(Clone, Copy)]
pub struct Block {
    pub kind: u8,
    pub number: u16,
    pub local_len: u16,
    pub instance_len: u16,
    pub params: &'static [Parameter],
    pub code: &'static str,
}

/// A data block of so many bytes, all 0. `instance` is the number of its function block plus 1, or 0.
#[derive(Clone, Copy)]
pub struct Data {
    pub number: u16,
    pub instance: u16,
    pub len: u16,
}

/// An organization block 1 with 20 local bytes.
pub fn ob(code: &'static str) -> Block {
    Block {
        kind: 1,
        number: 1,
        local_len: 20,
        instance_len: 0,
        params: &[],
        code,
    }
}

/// A function with 20 local bytes.
pub fn fc(number: u16, params: &'static [Parameter], code: &'static str) -> Block {
    Block {
        kind: 2,
        number,
        local_len: 20,
        instance_len: 0,
        params,
        code,
    }
}

/// A function block with 20 local bytes.
pub fn fb(
    number: u16,
    instance_len: u16,
    params: &'static [Parameter],
    code: &'static str,
) -> Block {
    Block {
        kind: 3,
        number,
        local_len: 20,
        instance_len,
        params,
        code,
    }
}

/// A data block that is no instance.
pub fn db(number: u16, len: u16) -> Data {
    Data {
        number,
        instance: 0,
        len,
    }
}

fn digit(byte: u8) -> Option<u8>
    ensures { IfSome result (λ d. d < 16) }
{
    match byte {
        b'0'..=b'9' => Some(byte - b'0'),
        b'A'..=b'F' => Some(byte - b'A' + 10),
        _ => None,
    }
}

/// Appends the bytes of hexadecimal digits; all else in the text is skipped.
pub fn put_hex(out: &mut Vec<u8>, text: &str) -> Result<(), AllocError> {
    let mut high = None;
    for byte in text.bytes() {
        if let Some(low) = digit(byte) {
            match high {
                None => high = Some(low),
                Some(digit) => {
                    out.push((digit % 16) * 16 + low)?;
                    high = None;
                }
            }
        }
    }
    Ok(())
}

fn put_u16s(out: &mut Vec<u8>, numbers: &[u16]) -> Result<(), AllocError> {
    for number in numbers {
        out.extend_from_slice(&number.to_be_bytes())?;
    }
    Ok(())
}

pub fn put_u32(out: &mut Vec<u8>, number: u32) -> Result<(), AllocError> {
    out.extend_from_slice(&number.to_be_bytes())
}

fn short(number: usize) -> u16 {
    (number % 65_536) as u16
}

fn long(number: usize) -> u32 {
    (number % 4_294_967_296) as u32
}

/// Appends the head of a code block, its parameters and its code, and the lines 1, 2, 3 and so on.
pub fn put_code_block(
    out: &mut Vec<u8>,
    block: &Block,
    code: &[u8],
    statements: u16,
) -> Result<(), AllocError> {
    out.extend_from_slice(&[block.kind, (block.params.len() % 256) as u8])?;
    put_u16s(out, &[block.number, block.local_len, block.instance_len])?;
    put_u16s(out, &[statements, 0])?;
    put_u32(out, long(code.len()))?;
    for param in block.params {
        let (section, width, byte) = *param;
        out.extend_from_slice(&[section, width])?;
        put_u16s(out, &[byte, 0])?;
    }
    out.extend_from_slice(code)?;
    for line in 0..statements {
        put_u32(out, u32::from(line) + 1)?;
    }
    Ok(())
}

/// Appends the header of an image of so many bytes and records.
pub fn put_header(
    out: &mut Vec<u8>,
    total: u32,
    blocks: u16,
    datas: u16,
    names: u16,
) -> Result<(), AllocError> {
    put_hex(out, "53374642 0001 0000")?;
    put_u32(out, total)?;
    put_u16s(out, &[blocks, datas, names, 0])
}

pub fn put_data(out: &mut Vec<u8>, data: &Data) -> Result<(), AllocError> {
    put_u16s(out, &[data.number, data.instance, data.len, 0])?;
    for _ in 0..data.len {
        out.push(0)?;
    }
    Ok(())
}

/// The bytes of hexadecimal digits.
pub fn bytes_of(alloc: Global, text: &str) -> Result<Vec<u8>, AllocError> {
    let mut bytes = Vec::new(alloc);
    put_hex(&mut bytes, text)?;
    Ok(bytes)
}

/// Appends a code block.
fn put_block(out: &mut Vec<u8>, alloc: Global, block: &Block) -> Result<(), AllocError> {
    let code = bytes_of(alloc, block.code)?;
    let statements = block.code.split(';').count();
    put_code_block(out, block, code.as_slice(), short(statements))
}

/// Appends these records.
fn put_records(
    out: &mut Vec<u8>,
    alloc: Global,
    blocks: &[Block],
    datas: &[Data],
    names: &[&str],
) -> Result<(), AllocError> {
    for block in blocks {
        put_block(out, alloc, block)?;
    }
    for data in datas {
        put_data(out, data)?;
    }
    for name in names {
        put_hex(out, name)?;
    }
    Ok(())
}

/// An image of these records; each name is a record in hexadecimal.
pub fn image(
    alloc: Global,
    blocks: &[Block],
    datas: &[Data],
    names: &[&str],
) -> Result<Vec<u8>, AllocError> {
    let mut body = Vec::new(alloc);
    put_records(&mut body, alloc, blocks, datas, names)?;
    with_header(
        alloc,
        body.as_slice(),
        short(blocks.len()),
        short(datas.len()),
        short(names.len()),
    )
}

/// The image of so many records.
fn with_header(
    alloc: Global,
    body: &[u8],
    blocks: u16,
    datas: u16,
    names: u16,
) -> Result<Vec<u8>, AllocError> {
    let mut image = Vec::new(alloc);
    put_header(&mut image, long(body.len() + 20), blocks, datas, names)?;
    image.extend_from_slice(body)?;
    Ok(image)
}

/// The fault of bytes as offset and code; 0 and 0 where they are loaded, 0 and 11 where memory was
/// wanting.
pub fn fault_of(alloc: Global, bytes: &[u8]) -> (u32, u16) {
    match load(alloc, bytes) {
        Ok(_) => (0, 0),
        Err(
            LoadError::Fault {
                fault: LoadFault { at, code },
            },
        ) => (at, code),
        Err(LoadError::NoMemory) => (0, 11),
    }
}

/// Bytes have this fault.
pub fn have_fault(
    rt: &impl Abort,
    alloc: Global,
    what: impl Debug + Drop,
    bytes: &[u8],
    fault: (u32, u16),
) {
    same(rt, what, fault_of(alloc, bytes), fault);
}

/// The image of these records has this fault.
pub fn records_have_fault(
    rt: &impl Abort,
    alloc: Global,
    what: impl Debug + Drop,
    blocks: &[Block],
    datas: &[Data],
    names: &[&str],
    fault: (u32, u16),
) -> Result<(), Fail> {
    let bytes = image(alloc, blocks, datas, names)?;
    have_fault(rt, alloc, what, bytes.as_slice(), fault);
    Ok(())
}
