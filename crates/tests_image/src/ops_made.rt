//! Ops made of an operation and an operand, and how many bytes they take. The bytes were written by
//! hand from the tables of forms and codes.

use crate::building::bytes_of;
use crate::compare::same;
use flat_code::{
    AccuOperation, AddConstant, CallOperation, EndOperation, Logic, Op, Operand, Operation, Passed,
    PointerOperation, RelayOperation, Shift, encode_op,
};
use plc_base::{Area, Check, TimerKind, Width};
use std::alloc::{AllocError, Global};
use std::process::Abort;
use std::test::Fail;

/// An operation and an operand that it takes, how many bytes their op has, and these without end
/// mark.
type Row = (Operation, Operand, u32, &'static str);

/// The bytes of a text; the last op of a statement has a code that is 128 higher.
fn marked(alloc: Global, text: &str, last: bool) -> Result<Vec<u8>, AllocError> {
    let mut bytes = bytes_of(alloc, text)?;
    if last && !bytes.is_empty() {
        bytes[0] |= 0x80;
    }
    Ok(bytes)
}

/// An op is spelled by these bytes.
fn is_spelled(rt: &impl Abort, alloc: Global, op: &Op, bytes: &[u8]) -> Result<(), Fail> {
    let mut spelled = Vec::new(alloc);
    encode_op(op, &mut spelled)?;
    same(rt, op.code, spelled.as_slice(), bytes);
    Ok(())
}

/// The op of an operation and an operand.
fn made(rt: &impl Abort, row: &Row, last: bool) -> Op {
    let (operation, operand, _, text) = *row;
    let Some(op) = Op::of_instruction(operation, last, operand) else {
        panic!(rt; "no op: {text}")
    };
    op
}

/// The row's op is made, has the row's size, and is spelled by the row's bytes; the last op of a
/// statement by a code that is 128 higher.
fn is_made(rt: &impl Abort, alloc: Global, row: &Row, last: bool) -> Result<(), Fail> {
    let (operation, operand, size, text) = *row;
    let op = made(rt, row, last);
    same(rt, text, (op.size(), op.last), (size, last));
    let found = (op.operation().code(), operand.fits());
    same(rt, text, found, (operation.code(), true));
    let bytes = marked(alloc, text, last)?;
    is_spelled(rt, alloc, &op, bytes.as_slice())
}

/// Each row's op is made, within a statement and as its last.
fn are_made(rt: &impl Abort, alloc: Global, rows: &[Row]) -> Result<(), Fail> {
    for row in rows {
        is_made(rt, alloc, row, false)?;
        is_made(rt, alloc, row, true)?;
    }
    Ok(())
}

static PLAIN: [Row; 15] = [
    (
        Operation::Relay(RelayOperation::Activate),
        Operand::Nothing,
        2,
        "05 00",
    ),
    (
        Operation::Relay(RelayOperation::Deactivate),
        Operand::Nothing,
        2,
        "06 00",
    ),
    (
        Operation::Relay(RelayOperation::Open),
        Operand::Nothing,
        2,
        "07 00",
    ),
    (
        Operation::Relay(RelayOperation::Close),
        Operand::Nothing,
        2,
        "08 00",
    ),
    (Operation::OrBare, Operand::Nothing, 2, "16 00"),
    (
        Operation::End(EndOperation::Be),
        Operand::Nothing,
        2,
        "7B 00",
    ),
    (
        Operation::Pointer(PointerOperation::Lar1),
        Operand::Nothing,
        2,
        "30 00",
    ),
    (Operation::Logic(Logic::Aw), Operand::Nothing, 2, "5F 00"),
    (
        Operation::Number(AccuOperation::Rrda),
        Operand::Nothing,
        2,
        "6E 00",
    ),
    (
        Operation::Load,
        Operand::Literal { value: 0x1234_5678 },
        6,
        "20 01 12345678",
    ),
    (
        Operation::Shift(Shift::Ssi),
        Operand::Literal { value: 15 },
        6,
        "65 01 0000000F",
    ),
    (
        Operation::Shift(Shift::Rrd),
        Operand::Literal { value: 32 },
        6,
        "6C 01 00000020",
    ),
    (
        Operation::Add(AddConstant::Word),
        Operand::Literal { value: 0xFFFF },
        6,
        "40 01 0000FFFF",
    ),
    (
        Operation::Bld,
        Operand::Literal { value: 255 },
        6,
        "03 01 000000FF",
    ),
    (
        Operation::Check(Check::Xn),
        Operand::OfStatus { condition: 10 },
        3,
        "15 09 0A",
    ),
];

#[test]
fn plain_ops(rt: HostRuntime) -> Result<(), Fail> {
    are_made(&rt, rt.alloc(), &PLAIN)
}

/// An operation takes operands of each width; whether it has the width is fault 7 of an image.
static AT_PLACES: [Row; 7] = [
    (
        Operation::Transfer,
        Operand::Direct {
            area: Area::Db,
            width: Width::Word,
            byte: 2,
            bit: 0,
        },
        7,
        "21 02 84 03 0002 00",
    ),
    (
        Operation::Check(Check::A),
        Operand::Direct {
            area: Area::P,
            width: Width::Dword,
            byte: 0xFFFF,
            bit: 7,
        },
        7,
        "10 02 80 04 FFFF 07",
    ),
    (
        Operation::Edge { rising: true },
        Operand::ByMemory {
            area: Area::M,
            width: Width::Bit,
            from: Area::L,
            byte: 0x28,
        },
        7,
        "25 03 83 01 86 0028",
    ),
    (
        Operation::Set,
        Operand::ByRegister {
            area: None,
            width: Width::Bit,
            register: 2,
            bits: 0xFFFF_FFFF,
        },
        9,
        "23 04 00 01 02 FFFFFFFF",
    ),
    (
        Operation::Load,
        Operand::ByRegister {
            area: Some(Area::I),
            width: Width::Byte,
            register: 1,
            bits: 8,
        },
        9,
        "20 04 81 02 01 00000008",
    ),
    (
        Operation::Assign,
        Operand::Parameter {
            index: 255,
            width: Width::Bit,
        },
        4,
        "22 05 FF 01",
    ),
    (
        Operation::Pointer(PointerOperation::Tar2),
        Operand::Direct {
            area: Area::L,
            width: Width::Dword,
            byte: 20,
            bit: 0,
        },
        7,
        "33 02 86 04 0014 00",
    ),
];

#[test]
fn ops_at_places(rt: HostRuntime) -> Result<(), Fail> {
    are_made(&rt, rt.alloc(), &AT_PLACES)
}

static WITH_NUMBERS: [Row; 9] = [
    (
        Operation::Start(TimerKind::Sp),
        Operand::Numbered {
            kind: 1,
            number: 0x1FF,
        },
        5,
        "70 06 01 01FF",
    ),
    (
        Operation::CountUp,
        Operand::Numbered { kind: 2, number: 1 },
        5,
        "76 06 02 0001",
    ),
    (
        Operation::LoadBcd,
        Operand::NumberedBy {
            kind: 2,
            from: Area::Di,
            byte: 6,
        },
        6,
        "2B 07 02 85 0006",
    ),
    (
        Operation::Jump,
        Operand::Jump {
            kind: 17,
            target: 7,
        },
        7,
        "6F 08 11 00000007",
    ),
    (
        Operation::UseDb,
        Operand::UseDb { number: 10 },
        4,
        "02 0A 000A",
    ),
    (
        Operation::Call(CallOperation::Call),
        Operand::Called {
            kind: 3,
            number: 0x7FF,
            instance: 5,
        },
        7,
        "78 0D 03 07FF 0005",
    ),
    (
        Operation::Call(CallOperation::Uc),
        Operand::Called {
            kind: 5,
            number: 43,
            instance: 0,
        },
        7,
        "79 0D 05 002B 0000",
    ),
    (
        Operation::OpenBlock,
        Operand::OpenBlock {
            register: 2,
            number: 0x100,
        },
        5,
        "7E 0E 02 0100",
    ),
    (
        Operation::OpenBlock,
        Operand::OpenBy {
            register: 1,
            from: Area::Db,
            byte: 16,
        },
        6,
        "7E 0F 01 84 0010",
    ),
];

#[test]
fn ops_with_numbers(rt: HostRuntime) -> Result<(), Fail> {
    are_made(&rt, rt.alloc(), &WITH_NUMBERS)
}

static PASSING: [Row; 4] = [
    (
        Operation::Pass,
        Operand::Pass {
            index: 0,
            actual: Passed::Literal { value: 1 },
        },
        8,
        "04 0B 00 01 00000001",
    ),
    (
        Operation::Pass,
        Operand::Pass {
            index: 3,
            actual: Passed::Direct {
                area: Area::I,
                width: Width::Bit,
                byte: 5,
                bit: 7,
            },
        },
        9,
        "04 0B 03 02 81 01 0005 07",
    ),
    (
        Operation::Pass,
        Operand::Pass {
            index: 59,
            actual: Passed::Parameter {
                index: 2,
                width: Width::Word,
            },
        },
        6,
        "04 0B 3B 05 02 03",
    ),
    (
        Operation::Pass,
        Operand::Pass {
            index: 1,
            actual: Passed::InBlock {
                number: 10,
                area: Area::Db,
                width: Width::Dword,
                byte: 0x102,
                bit: 0,
            },
        },
        11,
        "04 0B 01 0C 000A 84 04 0102 00",
    ),
];

#[test]
fn ops_that_pass(rt: HostRuntime) -> Result<(), Fail> {
    are_made(&rt, rt.alloc(), &PASSING)
}

/// An operation and an operand that it doesn't take.
type RefusedOp = (Operation, Operand);

/// No row's operation takes the row's operand.
fn are_refused(rt: &impl Abort, rows: &[RefusedOp]) {
    for row in rows {
        let (operation, operand) = *row;
        let is_none = Op::of_instruction(operation, true, operand).is_none();
        same(rt, (operation.code(), operand), is_none, true);
    }
}

/// A form that the operation lacks, or a literal above its greatest.
static LACKED: [RefusedOp; 13] = [
    (Operation::NoOperation, Operand::Nothing),
    (Operation::Load, Operand::Nothing),
    (Operation::SetRlo, Operand::Literal { value: 0 }),
    (Operation::Assign, Operand::Literal { value: 1 }),
    (Operation::Nop, Operand::Literal { value: 2 }),
    (Operation::Bld, Operand::Literal { value: 256 }),
    (Operation::LoadOpenBlock, Operand::Literal { value: 4 }),
    (
        Operation::Add(AddConstant::Word),
        Operand::Literal { value: 0x1_0000 },
    ),
    (Operation::Shift(Shift::Ssi), Operand::Literal { value: 16 }),
    (Operation::Shift(Shift::Rld), Operand::Literal { value: 33 }),
    (
        Operation::Pointer(PointerOperation::Tar1),
        Operand::Literal { value: 8 },
    ),
    (
        Operation::Pointer(PointerOperation::Lar1),
        Operand::ByMemory {
            area: Area::M,
            width: Width::Dword,
            from: Area::M,
            byte: 0,
        },
    ),
    (Operation::Transfer, Operand::OfStatus { condition: 1 }),
];

#[test]
fn operands_that_an_operation_lacks(rt: HostRuntime) {
    are_refused(&rt, &LACKED);
}

static MORE_LACKED: [RefusedOp; 12] = [
    (Operation::Set, Operand::Numbered { kind: 1, number: 0 }),
    (
        Operation::Transfer,
        Operand::Numbered { kind: 1, number: 0 },
    ),
    (
        Operation::CountDown,
        Operand::Numbered { kind: 1, number: 0 },
    ),
    (
        Operation::Start(TimerKind::Sf),
        Operand::Numbered { kind: 2, number: 0 },
    ),
    (
        Operation::Start(TimerKind::Sf),
        Operand::NumberedBy {
            kind: 2,
            from: Area::M,
            byte: 0,
        },
    ),
    (
        Operation::Call(CallOperation::Cc),
        Operand::Jump { kind: 0, target: 0 },
    ),
    (
        Operation::Jump,
        Operand::Called {
            kind: 2,
            number: 1,
            instance: 0,
        },
    ),
    (
        Operation::UseDb,
        Operand::OpenBlock {
            register: 1,
            number: 1,
        },
    ),
    (Operation::Pass, Operand::Literal { value: 1 }),
    (
        Operation::End(EndOperation::Beu),
        Operand::Literal { value: 0 },
    ),
    (
        Operation::Relay(RelayOperation::Open),
        Operand::Literal { value: 0 },
    ),
    (
        Operation::Relay(RelayOperation::Close),
        Operand::Jump { kind: 0, target: 0 },
    ),
];

#[test]
fn more_operands_that_an_operation_lacks(rt: HostRuntime) {
    are_refused(&rt, &MORE_LACKED);
}

/// Each row's operand has a field beyond those of its form, so its op isn't made.
fn do_not_fit(rt: &impl Abort, rows: &[RefusedOp]) {
    are_refused(rt, rows);
    for (_, operand) in rows {
        same(rt, *operand, operand.fits(), false);
    }
}

const CHECK: Operation = Operation::Check(Check::A);

static BEYOND: [RefusedOp; 11] = [
    (
        CHECK,
        Operand::Direct {
            area: Area::M,
            width: Width::Bit,
            byte: 0,
            bit: 8,
        },
    ),
    (
        CHECK,
        Operand::ByMemory {
            area: Area::P,
            width: Width::Bit,
            from: Area::M,
            byte: 0,
        },
    ),
    (
        CHECK,
        Operand::ByMemory {
            area: Area::M,
            width: Width::Bit,
            from: Area::Q,
            byte: 0,
        },
    ),
    (
        CHECK,
        Operand::ByRegister {
            area: Some(Area::P),
            width: Width::Bit,
            register: 1,
            bits: 0,
        },
    ),
    (
        CHECK,
        Operand::ByRegister {
            area: None,
            width: Width::Bit,
            register: 0,
            bits: 0,
        },
    ),
    (
        CHECK,
        Operand::ByRegister {
            area: None,
            width: Width::Bit,
            register: 3,
            bits: 0,
        },
    ),
    (CHECK, Operand::Numbered { kind: 0, number: 1 }),
    (CHECK, Operand::Numbered { kind: 3, number: 1 }),
    (
        CHECK,
        Operand::NumberedBy {
            kind: 1,
            from: Area::I,
            byte: 0,
        },
    ),
    (CHECK, Operand::OfStatus { condition: 0 }),
    (CHECK, Operand::OfStatus { condition: 11 }),
];

#[test]
fn operands_beyond_their_form(rt: HostRuntime) {
    do_not_fit(&rt, &BEYOND);
}

const CALL: Operation = Operation::Call(CallOperation::Call);

static MORE_BEYOND: [RefusedOp; 9] = [
    (
        Operation::Jump,
        Operand::Jump {
            kind: 18,
            target: 0,
        },
    ),
    (
        CALL,
        Operand::Called {
            kind: 1,
            number: 1,
            instance: 0,
        },
    ),
    (
        CALL,
        Operand::Called {
            kind: 4,
            number: 1,
            instance: 0,
        },
    ),
    (
        Operation::OpenBlock,
        Operand::OpenBlock {
            register: 0,
            number: 1,
        },
    ),
    (
        Operation::OpenBlock,
        Operand::OpenBlock {
            register: 3,
            number: 1,
        },
    ),
    (
        Operation::OpenBlock,
        Operand::OpenBy {
            register: 3,
            from: Area::M,
            byte: 0,
        },
    ),
    (
        Operation::OpenBlock,
        Operand::OpenBy {
            register: 1,
            from: Area::P,
            byte: 0,
        },
    ),
    (
        Operation::Pass,
        Operand::Pass {
            index: 0,
            actual: Passed::Direct {
                area: Area::I,
                width: Width::Bit,
                byte: 0,
                bit: 8,
            },
        },
    ),
    (
        Operation::Pass,
        Operand::Pass {
            index: 0,
            actual: Passed::InBlock {
                number: 1,
                area: Area::Db,
                width: Width::Dword,
                byte: 0,
                bit: 8,
            },
        },
    ),
];

#[test]
fn more_operands_beyond_their_form(rt: HostRuntime) {
    do_not_fit(&rt, &MORE_BEYOND);
}
