//! The targets of jumps, from the number of a statement to its offset in the code.
use crate::compare::same;
use flat_code::{EndOperation, Op, Operand, Operation, RelayOperation};
use plc_base::{Area, Width};
use std::alloc::Global;
use std::process::Abort;
use std::test::Fail;
use stl_codegen::place_targets;

/// A jump to the statement of this number, from 0.
const fn jump_to(statement: u32) -> Operand {
    Operand::Jump {
        kind: 0,
        target: statement,
    }
}

const PLACE: Operand = Operand::Direct {
    area: Area::Db,
    width: Width::Word,
    byte: 2,
    bit: 0,
};

/// Five statements: NOP of 6 bytes, T of 4 and 7, two jumps of 7 each, and BE. So the second one
/// begins at 6, and BE at 31.
fn ops(alloc: Global) -> Result<Vec<Op>, Fail> {
    let mut ops = Vec::new(alloc);
    for (word, last, operand) in [
        (Operation::Nop, true, Operand::Literal { value: 0 }),
        (Operation::UseDb, false, Operand::UseDb { number: 10 }),
        (Operation::Transfer, true, PLACE),
        (Operation::Jump, true, jump_to(1)),
        (Operation::Jump, true, jump_to(4)),
        (Operation::End(EndOperation::Be), true, Operand::Nothing),
    ] {
        ops.push(Op::of_instruction(word, last, operand).ok_or("no op")?)?;
    }
    Ok(ops)
}

/// MCRA and `MCR(` of 2 bytes each, two jumps of 7 each, `)MCR` and MCRD of 2 each, and BE. So the
/// second statement begins at 2, and MCRD, the sixth one, at 20.
fn relay_ops(alloc: Global) -> Result<Vec<Op>, Fail> {
    let mut ops = Vec::new(alloc);
    for (word, operand) in [
        (Operation::Relay(RelayOperation::Activate), Operand::Nothing),
        (Operation::Relay(RelayOperation::Open), Operand::Nothing),
        (Operation::Jump, jump_to(1)),
        (Operation::Jump, jump_to(5)),
        (Operation::Relay(RelayOperation::Close), Operand::Nothing),
        (
            Operation::Relay(RelayOperation::Deactivate),
            Operand::Nothing,
        ),
        (Operation::End(EndOperation::Be), Operand::Nothing),
    ] {
        ops.push(Op::of_instruction(word, true, operand).ok_or("no op")?)?;
    }
    Ok(ops)
}

/// A jump to the second statement leads to the offset `second`, another one to `other`, and all else
/// stays.
fn are_placed(rt: &impl Abort, ops: &[Op], placed: &[Op], second: u32, other: u32) {
    same(rt, "ops", placed.len(), ops.len());
    for (op, before) in placed.iter().zip(ops.iter()) {
        let operand = match before.operand {
            Operand::Jump { target: 1, .. } => jump_to(second),
            Operand::Jump { .. } => jump_to(other),
            still => still,
        };
        let found = (op.code, op.last, op.operand);
        same(rt, before.code, found, (before.code, before.last, operand));
    }
}

#[test]
fn targets_are_offsets(rt: HostRuntime) -> Result<(), Fail> {
    let ops = ops(rt.alloc())?;
    let placed = place_targets(rt.alloc(), ops.as_slice())?.ok_or("no targets")?;
    are_placed(&rt, ops.as_slice(), placed.as_slice(), 6, 31);
    Ok(())
}

/// By the table of op codes, and with two bytes for each instruction of the relay.
#[test]
fn targets_among_the_relay(rt: HostRuntime) -> Result<(), Fail> {
    let ops = relay_ops(rt.alloc())?;
    let codes = [0x05, 0x07, 0x6F, 0x6F, 0x08, 0x06, 0x7B];
    for (op, code) in ops.iter().zip(codes.iter()) {
        same(&rt, *code, op.code, *code);
    }
    let placed = place_targets(rt.alloc(), ops.as_slice())?.ok_or("no targets")?;
    are_placed(&rt, ops.as_slice(), placed.as_slice(), 2, 20);
    Ok(())
}
