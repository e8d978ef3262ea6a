//! Ops as bytes, both ways: the least and the greatest payload of each form of each instruction,
//! and bytes that are no op.

use crate::compare::same;
use flat_code::{BadOp, Op, Operand, decode_op, encode_op};
use plc_base::{Area, Width};
use std::alloc::{AllocError, Global};
use std::process::Abort;
use std::test::*;

// Each line has op codes and, behind |, form bytes with their payloads.
const OPS: &str = "\
01 | 01 00 00 00 00 ; 01 00 00 00 01
02 | 0A 00 00 ; 0A FF FF
03 | 01 00 00 00 00 ; 01 00 00 00 FF
04 | 0B 00 01 00 00 00 00 ; 0B FF 01 FF FF FF FF ; 0B 00 02 80 01 00 00 00 ; 0B FF 02 86 04 FF FF 07
04 | 0B 00 05 00 01 ; 0B FF 05 FF 04 ; 0B 00 0C 00 00 80 01 00 00 00 ; 0B FF 0C FF FF 86 04 FF FF 07
10 11 12 13 14 15 | 02 80 01 00 00 00 ; 02 86 04 FF FF 07 ; 03 81 01 83 00 00 ; 03 86 04 86 FF FF
10 11 12 13 14 15 | 04 00 01 01 00 00 00 00 ; 04 81 01 01 00 00 00 00 ; 04 86 04 02 FF FF FF FF
10 11 12 13 14 15 | 05 00 01 ; 05 FF 04 ; 06 01 00 00 ; 06 02 FF FF ; 09 01 ; 09 0A
10 11 12 13 14 15 | 07 01 83 00 00 ; 07 02 86 FF FF
05 06 07 08 16 18 19 1A 1B 1C 1D 1E | 00
17 | 01 00 00 00 00 ; 01 FF FF FF FF
20 21 22 23 24 25 26 | 02 80 01 00 00 00 ; 02 86 04 FF FF 07 ; 03 81 01 83 00 00 ; 03 86 04 86 FF FF
20 21 22 23 24 25 26 | 04 00 01 01 00 00 00 00 ; 04 86 04 02 FF FF FF FF ; 05 00 01 ; 05 FF 04
20 | 01 00 00 00 00 ; 01 FF FF FF FF ; 06 01 00 00 ; 06 02 FF FF ; 07 01 83 00 00 ; 07 02 86 FF FF
23 | 06 02 00 00 ; 06 02 FF FF ; 07 02 83 00 00 ; 07 02 86 FF FF
24 2B 75 | 06 01 00 00 ; 06 02 FF FF ; 07 01 83 00 00 ; 07 02 86 FF FF
27 28 29 2A 2C 2D 34 35 36 39 3A 3B 3C 3D | 00
2E | 01 00 00 00 00 ; 01 00 00 00 03
30 31 | 00 ; 01 00 00 00 00 ; 01 FF FF FF FF ; 02 80 01 00 00 00 ; 02 86 04 FF FF 07
32 33 | 00 ; 02 80 01 00 00 00 ; 02 86 04 FF FF 07
37 38 | 00 ; 01 00 00 00 00 ; 01 FF FF FF FF
3E 3F | 01 00 00 00 00 ; 01 00 00 00 FF
40 | 01 00 00 00 00 ; 01 00 00 FF FF
41 42 43 44 45 46 47 48 49 4A 4B 4C 4D 4E 4F 50 51 52 53 54 55 | 00
56 57 58 59 5A 5B 5C 5D 5E 6D 6E 7B 7C 7D 7F | 00
5F 60 61 | 00 ; 01 00 00 00 00 ; 01 00 00 FF FF
62 63 64 | 00 ; 01 00 00 00 00 ; 01 FF FF FF FF
65 67 68 | 00 ; 01 00 00 00 00 ; 01 00 00 00 0F
66 69 6A 6B 6C | 00 ; 01 00 00 00 00 ; 01 00 00 00 20
6F | 08 00 00 00 00 00 ; 08 11 FF FF FF FF
70 71 72 73 74 | 06 01 00 00 ; 06 01 FF FF ; 07 01 83 00 00 ; 07 01 86 FF FF
76 77 | 06 02 00 00 ; 06 02 FF FF ; 07 02 83 00 00 ; 07 02 86 FF FF
78 79 7A | 0D 02 00 00 00 00 ; 0D 03 FF FF FF FF ; 0D 05 00 2E 00 00
7E | 0E 01 00 00 ; 0E 02 FF FF ; 0F 01 83 00 00 ; 0F 02 86 FF FF
";

// Each line has first bytes and, behind |, what stands behind these in bytes that are no op.
const NO_OPS: &str = "\
00 09 0A 0B 0C 0D 0E 0F 1F 2F | 00 ; 01 00 00 00 00 ; 02 83 01 00 00 00 ; 09 01
01 | 00 ; 01 00 00 00 02 ; 02 83 01 00 00 00 ; 01 00 00 00
02 | 00 ; 0A 00 ; 01 00 00 00 00 ; 0E 01 00 00
03 3E 3F | 00 ; 01 00 00 01 00
04 | 0B 00 ; 0B 00 00 ; 0B 00 03 81 01 83 00 00 ; 0B 00 04 00 01 01 00 00 00 00 ; 0B 00 01 00 00 00
04 | 0B 00 02 83 01 00 00 08 ; 0B 00 0C 00 0A 84 00 00 00 00 ; 0B 00 06 01 00 00 ; 01 00 00 00 00
10 22 | 00 ; 01 00 00 00 00 ; 02 7F 01 00 00 00 ; 02 87 01 00 00 00 ; 02 83 00 00 00 00
10 22 | 02 83 05 00 00 00 ; 02 83 01 00 00 08 ; 02 83 01 00 00
10 22 | 03 80 01 83 00 00 ; 03 83 01 82 00 00
10 22 | 03 83 01 87 00 00 ; 03 83 00 83 00 00 ; 04 80 01 01 00 00 00 00 ; 04 83 01 00 00 00 00 00
10 22 | 04 83 01 03 00 00 00 00 ; 04 83 05 01 00 00 00 00 ; 05 00 00 ; 05 00 05 ; 08 00 00 00 00 00
10 22 | 0A 00 0A ; 0B 00 01 00 00 00 00 ; 0C 00 0A 84 01 00 00 00
10 22 | 0D 02 00 01 00 00 ; 0E 01 00 0A ; 10
10 20 | 06 00 00 00 ; 06 03 00 00 ; 07 00 83 00 00 ; 07 01 82 00 00 ; 07 01 83 00
10 | 09 00 ; 09 0B ; 09
20 21 22 23 24 25 26 | 00 ; 09 01
21 22 25 26 | 01 00 00 00 00 ; 06 01 00 00 ; 06 02 00 00 ; 07 02 83 00 00
23 | 06 01 00 00 ; 07 01 83 00 00
2B 75 | 00 ; 02 83 01 00 00 00
2E | 00 ; 01 00 00 00 04
30 31 | 03 83 04 83 00 00 ; 04 83 04 01 00 00 00 00 ; 05 00 04
32 33 | 01 00 00 00 00 ; 03 83 04 83 00 00
40 5F 60 61 | 01 00 01 00 00
40 17 | 00
65 67 68 | 01 00 00 00 10
66 69 6A 6B 6C | 01 00 00 00 21
6D 6E | 01 00 00 00 01
6F | 00 ; 08 12 00 00 00 00 ; 08 00 00 00 00
70 71 72 73 74 | 06 02 00 00 ; 07 02 83 00 00
76 77 | 06 01 00 00 ; 07 01 83 00 00
78 79 7A | 0D 00 00 01 00 00 ; 0D 01 00 01 00 00 ; 0D 04 00 01 00 00 ; 0D 06 00 01 00 00
78 79 7A | 0D 02 00 01 00
7B 7C 7D 7F | 01 00 00 00 00
05 06 07 08 | 01 00 00 00 00 ; 02 83 01 00 00 00 ; 03 83 01 83 00 00 ; 04 00 01 01 00 00 00 00
05 06 07 08 | 05 00 01 ; 06 01 00 00 ; 07 01 83 00 00 ; 08 00 00 00 00 00 ; 09 01 ; 0A 00 0A
05 06 07 08 | 0B 00 01 00 00 00 00 ; 0D 02 00 01 00 00 ; 0E 01 00 0A ; 0F 01 83 00 00
7E | 00 ; 0E 00 00 0A ; 0E 03 00 0A ; 0F 01 82 00 00 ; 0F 03 83 00 00 ; 0A 00 0A
";

fn byte_of(word: &str) -> u8 {
    u8::from_str_radix(word, 16).unwrap_or(0)
}

/// Appends the bytes of an op: its code, with the end mark where it has one, and what stands behind it.
fn put_op(out: &mut Vec<u8>, first: u8, text: &str) -> Result<(), AllocError> {
    out.push(first)?;
    for word in text.split_ascii_whitespace() {
        out.push(byte_of(word))?;
    }
    Ok(())
}

/// The op that a few bytes begin with.
fn decoded(bytes: &[u8]) -> Result<(Op, u32), BadOp> {
    if bytes.len() > 64 {
        return Err(BadOp);
    }
    decode_op(bytes, 0)
}

/// Bytes begin with an op that takes so many of them; it is answered.
fn is_read(rt: &impl Abort, what: &str, bytes: &[u8], len: usize) -> Op {
    let Ok((op, end)) = decoded(bytes) else {
        panic!(rt; "no op: {what}")
    };
    same(rt, what, end as usize, len);
    op
}

/// An op is spelled by all but the last of these bytes.
fn is_spelled(rt: &impl Abort, alloc: Global, op: &Op, bytes: &[u8]) -> Result<(), Fail> {
    let mut spelled = Vec::new(alloc);
    encode_op(op, &mut spelled)?;
    spelled.push(0xEF)?;
    same(rt, op.code, spelled.as_slice(), bytes);
    Ok(())
}

/// An op is read to the end of its bytes, with its end mark, and spelled by the same bytes.
fn is_read_and_spelled(
    rt: &impl Abort,
    alloc: Global,
    code: &str,
    mark: u8,
    payload: &str,
) -> Result<(), Fail> {
    let mut bytes = Vec::new(alloc);
    put_op(&mut bytes, byte_of(code) | mark, payload)?;
    let len = bytes.len();
    bytes.push(0xEF)?;
    let op = is_read(rt, payload, bytes.as_slice(), len);
    same(rt, (code, payload), op.last, mark == 128);
    is_spelled(rt, alloc, &op, bytes.as_slice())
}

/// The op codes of a line, and the payloads behind them.
fn parts_of(line: &str) -> (&str, &str) {
    line.split_once('|').unwrap_or(("", ""))
}

/// Each of the payloads makes an op of a code.
fn are_read_and_spelled(
    rt: &impl Abort,
    alloc: Global,
    code: &str,
    payloads: &str,
) -> Result<(), Fail> {
    for payload in payloads.split(';') {
        is_read_and_spelled(rt, alloc, code, 0, payload)?;
        is_read_and_spelled(rt, alloc, code, 128, payload)?;
    }
    Ok(())
}

#[test]
fn each_op_is_read_and_spelled(rt: HostRuntime) -> Result<(), Fail> {
    for line in OPS.lines() {
        let (codes, payloads) = parts_of(line);
        for code in codes.split_ascii_whitespace() {
            are_read_and_spelled(&rt, rt.alloc(), code, payloads)?;
        }
    }
    Ok(())
}

fn is_no_op(rt: &impl Abort, alloc: Global, code: &str, payload: &str) -> Result<(), Fail> {
    let mut bytes = Vec::new(alloc);
    put_op(&mut bytes, byte_of(code), payload)?;
    let is_none = decoded(bytes.as_slice()).is_err();
    same(rt, (code, payload), is_none, true);
    Ok(())
}

/// None of the payloads makes an op of a code.
fn are_no_ops(rt: &impl Abort, alloc: Global, code: &str, payloads: &str) -> Result<(), Fail> {
    for payload in payloads.split(';') {
        is_no_op(rt, alloc, code, payload)?;
    }
    Ok(())
}

#[test]
fn other_bytes_are_no_op(rt: HostRuntime) -> Result<(), Fail> {
    for line in NO_OPS.lines() {
        let (codes, payloads) = parts_of(line);
        for code in codes.split_ascii_whitespace() {
            are_no_ops(&rt, rt.alloc(), code, payloads)?;
        }
    }
    Ok(())
}

#[test]
fn no_op_begins_within_another(rt: HostRuntime) {
    for at in [1, 2, 3] {
        same(&rt, at, decode_op(&[0x16, 0], at).is_err(), true);
    }
}

// JU to the offset 7; the data block 10 of a T; T DB10.DBW 2; BE.
static CODE: [u8; 20] = [
    0xEF, 8, 0, 0, 0, 0, 7, 2, 10, 0, 10, 0xA1, 2, 0x84, 3, 0, 2, 0, 0xFB, 0,
];

/// Where an op begins and ends, its op code, whether it ends its statement, and its operand.
static PARTS: [(u32, u32, u8, bool, Operand); 4] = [
    (0, 7, 0x6F, true, Operand::Jump { kind: 0, target: 7 }),
    (7, 11, 0x02, false, Operand::UseDb { number: 10 }),
    (
        11,
        18,
        0x21,
        true,
        Operand::Direct {
            area: Area::Db,
            width: Width::Word,
            byte: 2,
            bit: 0,
        },
    ),
    (18, 20, 0x7B, true, Operand::Nothing),
];

#[test]
fn parts_of_ops(rt: HostRuntime) -> Result<(), Fail> {
    for row in &PARTS {
        let (at, want_end, code, last, operand) = *row;
        let (op, end): (Op, u32) = decode_op(&CODE, at)?;
        same(&rt, at, (end, op.code, op.last), (want_end, code, last));
        same(&rt, at, op.operand, operand);
    }
    Ok(())
}
