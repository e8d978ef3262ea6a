//! Programs made of blocks and names: what makes one, and what doesn't. Limits are those of the
//! fields of an image.

use crate::compare::same;
use crate::images::EXAMPLE;
use arrayvec::ArrayVec;
use flat_code::{
    CodeBlock, DataBlock, EndOperation, NameEntry, Op, Operand, Operation, Param, Passed, Program,
};
use image_file::{VerifyError, VerifyFault, verify, write_image};
use plc_base::{Area, BlockId, BlockKind, Place, Width};
use std::alloc::{AllocError, Global};
use std::process::Abort;
use std::test::Fail;

/// Kind, number, local bytes and instance bytes of a code block.
type Head = (BlockKind, u16, u16, u16);

/// Number, function block whose instance it is, and bytes of a data block.
type Data = (u16, Option<u16>, usize);

/// A name and its variable.
type Name = (&'static [u8], Place, Width);

/// An op: its word, whether it is the last of its statement, and its operand.
type MadeOp = (Operation, bool, Operand);

/// The ops of these words; an operand that its word lacks makes none.
fn code_of(alloc: Global, ops: &[MadeOp]) -> Result<Vec<Op>, AllocError> {
    let mut code = Vec::new(alloc);
    for (word, last, operand) in ops {
        if let Some(op) = Op::of_instruction(*word, *last, *operand) {
            code.push(op)?;
        }
    }
    Ok(code)
}

/// At most 60 of these parameters.
fn own(params: &[Param]) -> ArrayVec<Param, 60> {
    let mut own = ArrayVec::new();
    for param in params {
        if !own.is_full() {
            own.push(*param);
        }
    }
    own
}

/// The statement BE.
static END: [MadeOp; 1] = [(Operation::End(EndOperation::Be), true, Operand::Nothing)];

/// A code block with these parameters, code and lines.
fn block_of(
    alloc: Global,
    head: Head,
    params: &[Param],
    code: Vec<Op>,
    lines: &[u32],
) -> Result<CodeBlock, AllocError> {
    let (kind, number, local_len, instance_len) = head;
    let lines = Vec::from_slice(alloc, lines)?;
    Ok(CodeBlock {
        id: BlockId { kind, number },
        local_len,
        instance_len,
        params: own(params),
        code,
        lines,
    })
}

/// A code block with these parameters, the statement BE, and its line.
fn code_block(alloc: Global, head: Head, params: &[Param]) -> Result<CodeBlock, AllocError> {
    let code = code_of(alloc, &END)?;
    block_of(alloc, head, params, code, &[1])
}

fn data_block(alloc: Global, data: Data) -> Result<DataBlock, AllocError> {
    let (number, instance_of, len) = data;
    let mut bytes = Vec::new(alloc);
    bytes.resize(len, 0)?;
    Ok(DataBlock {
        number,
        instance_of,
        bytes,
    })
}

fn name_entry(alloc: Global, name: Name) -> Result<NameEntry, AllocError> {
    let (bytes, place, width) = name;
    let name = Vec::from_slice(alloc, bytes)?;
    Ok(NameEntry { name, place, width })
}

/// Code blocks of these heads.
fn code_blocks(
    alloc: Global,
    heads: &[Head],
    params: &[Param],
) -> Result<Vec<CodeBlock>, AllocError> {
    let mut blocks = Vec::new(alloc);
    for head in heads {
        blocks.push(code_block(alloc, *head, params)?)?;
    }
    Ok(blocks)
}

/// Whether code blocks of these heads alone make a program.
fn heads_make_one(alloc: Global, heads: &[Head], params: &[Param]) -> Result<bool, AllocError> {
    let blocks = code_blocks(alloc, heads, params)?;
    Ok(blocks_make_one(alloc, blocks))
}

/// Whether code blocks alone make a program.
fn blocks_make_one(alloc: Global, blocks: Vec<CodeBlock>) -> bool {
    Program::new(blocks, Vec::new(alloc), Vec::new(alloc)).is_some()
}

/// Data blocks of these numbers and lengths.
fn data_blocks(alloc: Global, datas: &[Data]) -> Result<Vec<DataBlock>, AllocError> {
    let mut blocks = Vec::new(alloc);
    for data in datas {
        blocks.push(data_block(alloc, *data)?)?;
    }
    Ok(blocks)
}

/// Whether data blocks alone make a program.
fn datas_make_one(alloc: Global, blocks: Vec<DataBlock>) -> bool {
    Program::new(Vec::new(alloc), blocks, Vec::new(alloc)).is_some()
}

/// Whether data blocks alone make a program.
fn data_makes_one(alloc: Global, datas: &[Data]) -> Result<bool, AllocError> {
    let blocks = data_blocks(alloc, datas)?;
    Ok(datas_make_one(alloc, blocks))
}

/// Entries of these names.
fn entries(alloc: Global, names: &[Name]) -> Result<Vec<NameEntry>, AllocError> {
    let mut entries = Vec::new(alloc);
    for name in names {
        entries.push(name_entry(alloc, *name)?)?;
    }
    Ok(entries)
}

/// Whether names alone make a program.
fn names_make_one(alloc: Global, names: &[Name]) -> Result<bool, AllocError> {
    let entries = entries(alloc, names)?;
    Ok(Program::new(Vec::new(alloc), Vec::new(alloc), entries).is_some())
}

/// The head of a code block, and whether it makes a program.
static HEADS: [(Head, bool); 17] = [
    ((BlockKind::Ob, 1, 20, 0), true),
    ((BlockKind::Ob, 1, 19, 0), false),
    ((BlockKind::Ob, 1, 1024, 0), true),
    ((BlockKind::Ob, 1, 1025, 0), false),
    ((BlockKind::Ob, 1, 20, 1), false),
    ((BlockKind::Ob, 0, 20, 0), false),
    ((BlockKind::Ob, 17, 20, 0), true),
    ((BlockKind::Ob, 18, 20, 0), false),
    ((BlockKind::Fc, 0, 0, 0), true),
    ((BlockKind::Fc, 2047, 1024, 0), true),
    ((BlockKind::Fc, 2048, 0, 0), false),
    ((BlockKind::Fc, 1, 0, 1), false),
    ((BlockKind::Fb, 1, 0, 16_384), true),
    ((BlockKind::Fb, 1, 0, 16_385), false),
    ((BlockKind::Db, 1, 0, 0), false),
    ((BlockKind::Sfc, 32, 0, 0), false),
    ((BlockKind::Udt, 1, 0, 0), false),
];

#[test]
fn code_blocks_by_themselves(rt: HostRuntime) -> Result<(), Fail> {
    for (head, made) in &HEADS {
        let found = heads_make_one(rt.alloc(), &[*head], &[])?;
        same(&rt, *head, found, *made);
    }
    Ok(())
}

const OB: Head = (BlockKind::Ob, 1, 20, 0);

const FC: Head = (BlockKind::Fc, 1, 0, 0);

const FB: Head = (BlockKind::Fb, 1, 0, 4);

/// The head of a block, a parameter by section, width, byte and bit, and whether they make a program.
type Parameter = (Head, (u8, Width, u16, u8), bool);

/// Parameters of an OB, of an FC, and of an FB with four instance bytes.
static PARAMETERS: [Parameter; 15] = [
    (OB, (1, Width::Bit, 0, 0), false),
    (FC, (1, Width::Bit, 0, 0), true),
    (FC, (3, Width::Dword, 0, 0), true),
    (FC, (0, Width::Bit, 0, 0), false),
    (FC, (4, Width::Bit, 0, 0), false),
    (FC, (1, Width::Bit, 1, 0), false),
    (FC, (1, Width::Bit, 0, 1), false),
    (FB, (2, Width::Word, 2, 0), true),
    (FB, (2, Width::Word, 3, 0), false),
    (FB, (1, Width::Dword, 0, 0), true),
    (FB, (1, Width::Dword, 1, 0), false),
    (FB, (1, Width::Bit, 3, 7), true),
    (FB, (1, Width::Bit, 3, 8), false),
    (FB, (1, Width::Bit, 4, 0), false),
    (FB, (1, Width::Byte, 65_535, 0), false),
];

fn parameter_makes_one(rt: &impl Abort, alloc: Global, row: &Parameter) -> Result<(), Fail> {
    let (head, (section, width, byte, bit), made) = *row;
    let param = Param {
        section,
        width,
        byte,
        bit,
    };
    let found = heads_make_one(alloc, &[head], &[param])?;
    same(rt, (head, param), found, made);
    Ok(())
}

#[test]
fn parameters(rt: HostRuntime) -> Result<(), Fail> {
    for row in &PARAMETERS {
        parameter_makes_one(&rt, rt.alloc(), row)?;
    }
    Ok(())
}

/// Kind and number of two blocks, and whether they make a program.
type Pair = ((BlockKind, u16), (BlockKind, u16), bool);

/// Code blocks rise by kind, OB, FC, FB, then by number.
static PAIRS: [Pair; 7] = [
    ((BlockKind::Ob, 121), (BlockKind::Fc, 0), true),
    ((BlockKind::Fc, 2047), (BlockKind::Fb, 0), true),
    ((BlockKind::Fc, 1), (BlockKind::Fc, 2), true),
    ((BlockKind::Fc, 2), (BlockKind::Fc, 2), false),
    ((BlockKind::Fc, 2), (BlockKind::Fc, 1), false),
    ((BlockKind::Fb, 1), (BlockKind::Fc, 2), false),
    ((BlockKind::Fc, 1), (BlockKind::Ob, 100), false),
];

fn pair_makes_one(rt: &impl Abort, alloc: Global, row: &Pair) -> Result<(), Fail> {
    let (first, second, made) = *row;
    let heads = [(first.0, first.1, 20, 0), (second.0, second.1, 20, 0)];
    let found = heads_make_one(alloc, &heads, &[])?;
    same(rt, (first, second), found, made);
    Ok(())
}

#[test]
fn code_blocks_in_order(rt: HostRuntime) -> Result<(), Fail> {
    for row in &PAIRS {
        pair_makes_one(&rt, rt.alloc(), row)?;
    }
    Ok(())
}

/// A data block, and whether it makes a program.
static DATA_BLOCKS: [(Data, bool); 11] = [
    ((1, None, 0), true),
    ((2047, None, 4), true),
    ((0, None, 4), false),
    ((2048, None, 4), false),
    ((5, Some(0), 4), true),
    ((5, Some(2047), 4), true),
    ((5, Some(2048), 4), false),
    ((5, Some(65_535), 4), false),
    ((1, None, 16_384), true),
    ((1, None, 16_385), false),
    ((1, None, 65_536), false),
];

/// The numbers of two data blocks, and whether they make a program.
static DATA_PAIRS: [(u16, u16, bool); 3] = [(1, 2, true), (2, 2, false), (2, 1, false)];

#[test]
fn data_blocks_by_themselves(rt: HostRuntime) -> Result<(), Fail> {
    for (data, made) in &DATA_BLOCKS {
        same(&rt, *data, data_makes_one(rt.alloc(), &[*data])?, *made);
    }
    Ok(())
}

#[test]
fn data_blocks_in_order(rt: HostRuntime) -> Result<(), Fail> {
    for (first, second, made) in &DATA_PAIRS {
        let datas = [(*first, None, 4), (*second, None, 4)];
        let found = data_makes_one(rt.alloc(), &datas)?;
        same(&rt, (*first, *second), found, *made);
    }
    Ok(())
}

/// How many data blocks there are, how many bytes each has and one more has, and whether they make a
/// program.
type Datas = (u16, usize, Option<usize>, bool);

/// At most 256 data blocks, and 2,097,152 bytes together.
static DATAS: [Datas; 5] = [
    (256, 0, None, true),
    (257, 0, None, false),
    (128, 16_384, None, true),
    (128, 16_384, Some(0), true),
    (128, 16_384, Some(1), false),
];

/// Data blocks of so many bytes, and one more of other bytes.
fn many_data_blocks(
    alloc: Global,
    count: u16,
    len: usize,
    more: Option<usize>,
) -> Result<Vec<DataBlock>, AllocError> {
    let mut blocks = Vec::new(alloc);
    for number in 0..count {
        blocks.push(data_block(alloc, (number + 1, None, len))?)?;
    }
    if let Some(bytes) = more {
        blocks.push(data_block(alloc, (2047, None, bytes))?)?;
    }
    Ok(blocks)
}

#[test]
fn most_data_of_a_program(rt: HostRuntime) -> Result<(), Fail> {
    for row in &DATAS {
        let (count, len, more, made) = *row;
        let blocks = many_data_blocks(rt.alloc(), count, len, more)?;
        let found = datas_make_one(rt.alloc(), blocks);
        same(&rt, (count, len, more), found, made);
    }
    Ok(())
}

/// A variable by area, number, byte and bit, its width, and whether it makes a program.
type Variable = ((Area, u16, u16, u8), Width, bool);

/// A name is a variable in I, Q or M; only one of a bit has a bit.
static VARIABLES: [Variable; 9] = [
    ((Area::I, 0, 0, 7), Width::Bit, true),
    ((Area::Q, 0, 65_535, 0), Width::Dword, true),
    ((Area::M, 0, 2, 0), Width::Byte, true),
    ((Area::M, 0, 2, 8), Width::Bit, false),
    ((Area::M, 0, 2, 1), Width::Word, false),
    ((Area::P, 0, 2, 0), Width::Word, false),
    ((Area::L, 0, 2, 0), Width::Word, false),
    ((Area::Db, 10, 2, 0), Width::Word, false),
    ((Area::M, 10, 2, 0), Width::Word, false),
];

fn variable_makes_one(rt: &impl Abort, alloc: Global, row: &Variable) -> Result<(), Fail> {
    let ((area, number, byte, bit), width, made) = *row;
    let place = Place {
        area,
        number,
        byte,
        bit,
    };
    let found = names_make_one(alloc, &[(b"A", place, width)])?;
    same(rt, (place, width), found, made);
    Ok(())
}

#[test]
fn variables_of_names(rt: HostRuntime) -> Result<(), Fail> {
    for row in &VARIABLES {
        variable_makes_one(&rt, rt.alloc(), row)?;
    }
    Ok(())
}

/// Two names, and whether they make a program.
type NamePair = (&'static [u8], &'static [u8], bool);

/// A name has 1 to 24 bytes, no letter a to z and no blank at its end, and names rise.
static NAMES: [NamePair; 13] = [
    (b"", b"B", false),
    (b"A", b"ABCDEFGHIJKLMNOPQRSTUVWX", true),
    (b"A", b"ABCDEFGHIJKLMNOPQRSTUVWXY", false),
    (b"A", b"Bb", false),
    (b"A", b"B ", false),
    (b"A", b"B 1", true),
    (b"A", b"\xE4", true),
    (b" A", b"A", true),
    (b"A", b"AA", true),
    (b"AA", b"A", false),
    (b"A", b"A", false),
    (b"B", b"A", false),
    (b"A_10", b"A_2", true),
];

fn names_pair_makes_one(rt: &impl Abort, alloc: Global, row: &NamePair) -> Result<(), Fail> {
    let (first, second, made) = *row;
    let place = Place {
        area: Area::M,
        number: 0,
        byte: 0,
        bit: 0,
    };
    let names = [(first, place, Width::Word), (second, place, Width::Byte)];
    let found = names_make_one(alloc, &names)?;
    same(rt, (first, second), found, made);
    Ok(())
}

#[test]
fn bytes_of_names(rt: HostRuntime) -> Result<(), Fail> {
    for row in &NAMES {
        names_pair_makes_one(&rt, rt.alloc(), row)?;
    }
    Ok(())
}

/// An op of 11 bytes, which passes a place in a named block.
fn longest_op() -> Option<Op> {
    let actual = Passed::InBlock {
        number: 10,
        area: Area::Db,
        width: Width::Word,
        byte: 0,
        bit: 0,
    };
    Op::of_instruction(Operation::Pass, false, Operand::Pass { index: 0, actual })
}

/// Ops of 11 bytes, and behind them one of 5 or of 6.
fn long_code(alloc: Global, passes: usize, last: Operand) -> Result<Vec<Op>, AllocError> {
    let mut code = Vec::new(alloc);
    if let Some(op) = longest_op() {
        code.resize(passes, op)?;
    }
    if let Some(op) = Op::of_instruction(Operation::Load, true, last) {
        code.push(op)?;
    }
    Ok(code)
}

const FIVE: Operand = Operand::Numbered { kind: 1, number: 1 };

const SIX: Operand = Operand::Literal { value: 1 };

/// How many ops of 11 bytes, the last op, the lines, and whether they make a program.
type Long = (usize, Operand, &'static [u32], bool);

static LONGEST: [Long; 3] = [
    (762_597, FIVE, &[], true),
    (762_597, SIX, &[], false),
    (762_596, SIX, &[1, 1, 1], false),
];

/// A block of that code and those lines.
fn long_block(alloc: Global, row: &Long) -> Result<CodeBlock, AllocError> {
    let (passes, last, lines, _) = *row;
    let code = long_code(alloc, passes, last)?;
    block_of(alloc, FC, &[], code, lines)
}

/// A list of one block.
fn alone(alloc: Global, block: CodeBlock) -> Result<Vec<CodeBlock>, AllocError> {
    let mut blocks = Vec::new(alloc);
    blocks.push(block)?;
    Ok(blocks)
}

fn long_block_makes_one(rt: &impl Abort, alloc: Global, row: &Long) -> Result<(), Fail> {
    let (passes, last, lines, made) = *row;
    let block = long_block(alloc, row)?;
    let found = blocks_make_one(alloc, alone(alloc, block)?);
    same(rt, (passes, last, lines), found, made);
    Ok(())
}

/// The image of a code block of so many bytes has 36 bytes more and 4 for each line; 8,388,608 is as
/// many as it may have.
#[test]
fn longest_program(rt: HostRuntime) -> Result<(), Fail> {
    for row in &LONGEST {
        long_block_makes_one(&rt, rt.alloc(), row)?;
    }
    Ok(())
}

/// The code of the example: `JU x;` and `x: T DB10.DBW 2;`, with the jump to an offset.
fn example_code(alloc: Global, target: u32) -> Result<Vec<Op>, AllocError> {
    let place = Operand::Direct {
        area: Area::Db,
        width: Width::Word,
        byte: 2,
        bit: 0,
    };
    let jump = Operand::Jump { kind: 0, target };
    let ops = [
        (Operation::Jump, true, jump),
        (Operation::UseDb, false, Operand::UseDb { number: 10 }),
        (Operation::Transfer, true, place),
        (Operation::End(EndOperation::Be), true, Operand::Nothing),
    ];
    code_of(alloc, &ops)
}

/// The example's code block with other code and lines.
fn example_block(
    alloc: Global,
    code: Vec<Op>,
    lines: &[u32],
) -> Result<Vec<CodeBlock>, AllocError> {
    let block = block_of(alloc, (BlockKind::Ob, 1, 20, 0), &[], code, lines)?;
    alone(alloc, block)
}

/// The example's program with other code and lines.
fn example(alloc: Global, code: Vec<Op>, lines: &[u32]) -> Result<Option<Program>, AllocError> {
    let blocks = example_block(alloc, code, lines)?;
    with_data(alloc, blocks)
}

/// The program of code blocks and of the example's data block.
fn with_data(alloc: Global, blocks: Vec<CodeBlock>) -> Result<Option<Program>, AllocError> {
    let datas = data_blocks(alloc, &[(10, None, 4)])?;
    Ok(Program::new(blocks, datas, Vec::new(alloc)))
}

/// The program of the example.
fn plain_example(alloc: Global) -> Result<Option<Program>, AllocError> {
    let code = example_code(alloc, 7)?;
    example(alloc, code, &[3, 4, 5])
}

/// A program is written as the example.
fn is_example(rt: &impl Abort, alloc: Global, program: &Program) -> Result<(), Fail> {
    let written = write_image(alloc, program)?;
    same(rt, "image", written.as_slice(), EXAMPLE.as_slice());
    Ok(())
}

#[test]
fn example_is_made(rt: HostRuntime) -> Result<(), Fail> {
    let Some(program) = plain_example(rt.alloc())? else {
        panic!(rt; "the example")
    };
    is_example(&rt, rt.alloc(), &program)
}

/// The fault of a program as offset and code; 0 and 0 where it verifies.
fn fault_in(alloc: Global, program: Program) -> (u32, u16) {
    match verify(alloc, program) {
        Ok(_) => (0, 0),
        Err(
            VerifyError::Fault {
                fault: VerifyFault { at, code, .. },
            },
        ) => (at, code),
        Err(VerifyError::NoMemory) => (0, 11),
    }
}

/// The fault of a program as offset and code; 0 and 0 where it verifies, 1 and 0 where there is none.
fn fault_of(alloc: Global, program: Option<Program>) -> (u32, u16) {
    match program {
        Some(program) => fault_in(alloc, program),
        None => (1, 0),
    }
}

/// The target of the example's jump, its lines, and the fault.
type Row = (u32, &'static [u32], (u32, u16));

/// A jump or lines with a fault are no bar to a program; it doesn't verify then. A 9 lies at 0.
static ROWS: [Row; 7] = [
    (7, &[3, 4, 5], (0, 0)),
    (18, &[3, 4, 5], (0, 0)),
    (11, &[3, 4, 5], (0, 6)),
    (20, &[3, 4, 5], (0, 6)),
    (7, &[3, 4], (0, 9)),
    (7, &[3, 2, 5], (0, 9)),
    (7, &[0, 2, 5], (0, 9)),
];

/// The example's program with this code and these lines has this fault.
fn has_fault(
    rt: &impl Abort,
    alloc: Global,
    code: Vec<Op>,
    lines: &[u32],
    fault: (u32, u16),
) -> Result<(), Fail> {
    let program = example(alloc, code, lines)?;
    same(rt, fault, fault_of(alloc, program), fault);
    Ok(())
}

#[test]
fn jumps_and_lines_that_do_not_verify(rt: HostRuntime) -> Result<(), Fail> {
    for row in &ROWS {
        let (target, lines, fault) = *row;
        let code = example_code(rt.alloc(), target)?;
        has_fault(&rt, rt.alloc(), code, lines, fault)?;
    }
    Ok(())
}

/// A program with no code is made, but doesn't verify.
#[test]
fn no_code_does_not_verify(rt: HostRuntime) -> Result<(), Fail> {
    has_fault(&rt, rt.alloc(), Vec::new(rt.alloc()), &[], (0, 5))
}

/// SET, `)` and BE.
static CLOSED: [MadeOp; 3] = [
    (Operation::SetRlo, true, Operand::Nothing),
    (Operation::Unnest, true, Operand::Nothing),
    (Operation::End(EndOperation::Be), true, Operand::Nothing),
];

/// Nor does one with a bracket that is closed and was not opened.
#[test]
fn closed_bracket_does_not_verify(rt: HostRuntime) -> Result<(), Fail> {
    let code = code_of(rt.alloc(), &CLOSED)?;
    has_fault(&rt, rt.alloc(), code, &[1, 1, 2], (2, 8))
}
