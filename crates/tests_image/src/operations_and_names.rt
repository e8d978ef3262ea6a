//! What operations take, and how names are ordered and spelled.

use crate::compare::same;
use flat_code::Operand::Literal;
use flat_code::{
    AddConstant, Logic, Operand, Operation, PointerOperation, RelayOperation, Shift, ends_blank,
    is_name_before, is_upper_case, taken_by_operation,
};
use plc_base::TimerKind;

const TIMER: Operand = Operand::Numbered { kind: 1, number: 3 };

const COUNTER: Operand = Operand::Numbered { kind: 2, number: 3 };

const JUMP: Operand = Operand::Jump { kind: 0, target: 6 };

/// An operation with an operand that it takes, and with one that it doesn't.
static OPERATIONS: [(Operation, Operand, Operand); 17] = [
    (Operation::Nop, Literal { value: 1 }, Literal { value: 2 }),
    (
        Operation::Bld,
        Literal { value: 255 },
        Literal { value: 256 },
    ),
    (
        Operation::LoadOpenBlock,
        Literal { value: 3 },
        Literal { value: 4 },
    ),
    (
        Operation::Add(AddConstant::Word),
        Literal { value: 65_535 },
        Literal { value: 65_536 },
    ),
    (
        Operation::Logic(Logic::Xow),
        Literal { value: 65_535 },
        Literal { value: 65_536 },
    ),
    (
        Operation::Shift(Shift::Srw),
        Literal { value: 15 },
        Literal { value: 16 },
    ),
    (
        Operation::Shift(Shift::Rld),
        Literal { value: 32 },
        Literal { value: 33 },
    ),
    (
        Operation::Pointer(PointerOperation::Lar2),
        Literal { value: 8 },
        TIMER,
    ),
    (
        Operation::Pointer(PointerOperation::Tar2),
        Operand::Nothing,
        Literal { value: 8 },
    ),
    (Operation::Set, COUNTER, TIMER),
    (Operation::Reset, TIMER, Operand::Nothing),
    (Operation::Start(TimerKind::Sp), TIMER, COUNTER),
    (Operation::CountUp, COUNTER, TIMER),
    (Operation::Jump, JUMP, Operand::Nothing),
    (Operation::SetRlo, Operand::Nothing, Literal { value: 0 }),
    (
        Operation::Relay(RelayOperation::Open),
        Operand::Nothing,
        Literal { value: 0 },
    ),
    (
        Operation::Relay(RelayOperation::Close),
        Operand::Nothing,
        JUMP,
    ),
];

#[test]
fn operands_of_operations(rt: HostRuntime) {
    for (operation, taken, not_taken) in &OPERATIONS {
        let takes = taken_by_operation(*operation);
        let found = (takes.admits(taken), takes.admits(not_taken));
        same(&rt, ("code", operation.code()), found, (true, false));
    }
    let takes = taken_by_operation(Operation::NoOperation);
    same(&rt, "no operation", takes.admits(&Operand::Nothing), false);
}

/// Two names, and whether the first stands before the second.
static ORDERED: [(&[u8], &[u8], bool); 9] = [
    (b"", b"", false),
    (b"", b"A", true),
    (b"A", b"", false),
    (b"A", b"A", false),
    (b"A", b"B", true),
    (b"B", b"AB", false),
    (b"MOTOR_1", b"MOTOR_10", true),
    (b"MOTOR_10", b"MOTOR_1", false),
    (b"Z\x7F", b"Z\xC4", true),
];

#[test]
fn order_of_names(rt: HostRuntime) {
    for (before, name, stands) in &ORDERED {
        let found = is_name_before(before, name);
        same(&rt, (*before, *name), found, *stands);
    }
}

/// A name, whether it is in upper case, and whether it ends with a blank.
static SPELLED: [(&[u8], bool, bool); 10] = [
    (b"", true, false),
    (b"MOTOR 1", true, false),
    (b" MOTOR", true, false),
    (b"MOTOR  ", true, true),
    (b" ", true, true),
    (b"A\t", true, false),
    (b"MOTOr", false, false),
    (b"a ", false, true),
    (b"Az", false, false),
    // beside a and z, and beyond ASCII
    (b"`{\xE4", true, false),
];

#[test]
fn spelling_of_names(rt: HostRuntime) {
    for (name, upper, blank) in &SPELLED {
        let found = (is_upper_case(name), ends_blank(name));
        same(&rt, *name, found, (*upper, *blank));
    }
}
