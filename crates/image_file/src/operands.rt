//! Operands that an op may not have.
ghost use Rattle.std.specs.Prelude.{◌≡◌, ◌+◌, ◌<◌, ◌^◌, ◌||◌, ◌==◌, not, length, None};
ghost use Rattle.std.specs.Option.{option_map};
ghost use Rattle.flat_code.specs.Codes.{code_bytes};
ghost use Rattle.flat_code.specs.OpCodes.{op_code_of};
ghost use Rattle.flat_code.specs.declared.operations.CallOperation.TheVariants as calls;
ghost use Rattle.flat_code.specs.declared.operations.Operation.TheVariants as operation;
ghost use Rattle.flat_code.specs.PlacedOps.{is_empty_list, ending_op};
ghost use Rattle.flat_code.specs.Blocks.{is_odd_bit, is_past_locals, is_bad_place, lacks_width, writes_operand, parameter_meant, lacks_own_parameter, is_in_parameter, is_in_db, pass_index, pass_before, is_above, is_bad_actual, literal_fits, misfits_parameter, is_index, is_passed, is_ju_operand, leads_to_target};
ghost use Rattle.image_file.specs.OpChecking.{environment_of};

use crate::environments::BlockEnvironment;
use crate::numbers::{CALL, EDGE_NEGATIVE, JUMP, TRANSFER};
use flat_code::{FUNCTION, Op, Operand, ParameterRecord, Passed, SECTION_IN, taken_by};
use plc_base::{Area, Width};

/// Whether a bit number stands where no bit is meant.
fn is_odd_bit(width: Width, bit: u8) -> bool
    ensures { result ≡ is_odd_bit width bit }
{
    match width {
        Width::Bit => false,
        _ => bit != 0,
    }
}

/// Whether a place is a local byte past those of the block.
fn is_past_locals(environment: &BlockEnvironment, area: Area, width: Width, byte: u16) -> bool
    ensures { result ≡ is_past_locals (environment_of environment.now) area width byte }
{
    match area {
        Area::L => usize::from(environment.local_len) < usize::from(byte) + width.byte_count(),
        _ => false,
    }
}

/// Whether a place has a bit that its width doesn't have, or lies past the block's local bytes.
pub(crate) fn is_bad_place(
    environment: &BlockEnvironment,
    area: Area,
    width: Width,
    byte: u16,
    bit: u8,
) -> bool
    ensures { result ≡ is_bad_place (environment_of environment.now) area width byte bit }
{
    is_odd_bit(width, bit) || is_past_locals(environment, area, width, byte)
}

/// Whether the instruction lacks a width.
#[tactic(auto, unfolding(flat_code::specs::Ops::is_op))]
pub(crate) fn lacks_width(op: &Op, width: Width) -> bool
    ensures { result ≡ lacks_width op.now width }
{
    !taken_by(op.code).has_width(width)
}

/// Whether an instruction writes its operand.
pub(crate) fn writes_operand(code: u8) -> bool
    ensures { result ≡ writes_operand code }
{
    TRANSFER <= code && code <= EDGE_NEGATIVE
}

/// The parameter of the function that runs.
pub(crate) fn parameter_meant(environment: &BlockEnvironment, index: u8) -> Option<ParameterRecord>
    ensures { result ≡ parameter_meant (environment_of environment.now) index }
{
    if environment.kind == FUNCTION {
        environment.params.get(usize::from(index)).copied()
    } else {
        None
    }
}

/// Whether there is no such parameter (`None`), or it has another width.
pub(crate) fn lacks_own_parameter(parameter: Option<ParameterRecord>, width: Width) -> bool
    ensures { result ≡ lacks_own_parameter parameter width }
{
    match parameter {
        None => true,
        Some(parameter) => parameter.width != width.number(),
    }
}

/// Whether the parameter is an IN; one that is absent (`None`) is none.
pub(crate) fn is_in_parameter(parameter: Option<ParameterRecord>) -> bool
    ensures { result ≡ is_in_parameter parameter }
{
    match parameter {
        None => false,
        Some(parameter) => parameter.section == SECTION_IN,
    }
}

/// Whether an operand is a fixed place in DB.
fn is_in_db(operand: Operand) -> bool
    ensures { result ≡ is_in_db operand }
{
    match operand {
        Operand::Direct { area: Area::Db, .. } => true,
        _ => false,
    }
}

/// The op that ends the statement of an op.
pub(crate) fn ending_op(op: &Op, rest: &[Op]) -> Op
    ensures { result ≡ ending_op op.now rest.now }
{
    let mut last = *op;
    for next in rest {
        if last.last {
            return last;
        }
        last = *next;
    }
    last
}

/// Whether a USEDB isn't the first op, or the statement's last op has no place in DB.
pub(crate) fn is_stray_use_db(before: &[Op], last: &Op) -> bool
    ensures { result ≡ (not (is_empty_list before.now) || not (is_in_db last.now.operand)) }
{
    !is_none_before(before) || !is_in_db(last.operand)
}

fn is_none_before(before: &[Op]) -> bool
    ensures { result ≡ is_empty_list before.now }
{
    match before {
        [] => true,
        [_, ..] => false,
    }
}

/// The index of a PASS.
fn pass_index(op: &Op) -> Option<u8>
    ensures { result ≡ pass_index op.now.operand }
{
    match op.operand {
        Operand::Pass { index, .. } => Some(index),
        _ => None,
    }
}

/// The index of the last PASS among the ops before; `None` without one.
fn pass_before(before: &[Op]) -> Option<u8>
    ensures { result ≡ pass_before None before.now }
{
    let mut found = None;
    for op in before {
        if let Some(index) = pass_index(op) {
            found = Some(index);
        }
    }
    found
}

fn is_above(index: u8, other: Option<u8>) -> bool
    ensures { result ≡ is_above index other }
{
    match other {
        None => true,
        Some(other) => other < index,
    }
}

/// Whether a PASS has no CALL, or an index that doesn't rise.
pub(crate) fn is_stray_pass(before: &[Op], last: &Op, index: u8) -> bool
    ensures { result ≡ (not (last.now.code == op_code_of (operation.Call calls.Call))
        || not (is_above index (pass_before None before.now))) }
{
    last.code != CALL || !is_above(index, pass_before(before))
}

/// Whether what a PASS passes has a fault by itself, whatever parameter it is for.
pub(crate) fn is_bad_actual(environment: &BlockEnvironment, actual: Passed) -> bool
    ensures { result ≡ is_bad_actual (environment_of environment.now) actual }
{
    match actual {
        Passed::Literal { .. } => false,
        Passed::Direct {
            area,
            width,
            byte,
            bit,
        } => is_bad_place(environment, area, width, byte, bit),
        Passed::Parameter { index, width } => lacks_own_parameter(
            parameter_meant(environment, index),
            width,
        ),
        Passed::InBlock {
            area: Area::Db,
            width,
            bit,
            ..
        } => is_odd_bit(width, bit),
        Passed::InBlock { .. } => true,
    }
}

fn literal_fits(width: u8, value: u32) -> bool
    ensures { result ≡ literal_fits width value }
{
    match width {
        1 => value <= 1,
        2 => value <= 0xFF,
        3 => value <= 0xFFFF,
        _ => width == 4,
    }
}

/// Whether what is passed doesn't fit its parameter.
pub(crate) fn misfits_parameter(
    environment: &BlockEnvironment,
    parameter: ParameterRecord,
    actual: Passed,
) -> bool
    ensures { result ≡ misfits_parameter (environment_of environment.now) parameter actual }
{
    match actual {
        Passed::Literal { value } => {
            parameter.section != SECTION_IN || !literal_fits(parameter.width, value)
        }
        Passed::Direct { width, .. } => parameter.width != width.number(),
        Passed::Parameter { index, width } => {
            parameter.width != width.number()
                || parameter.section != SECTION_IN
                    && is_in_parameter(parameter_meant(environment, index))
        }
        Passed::InBlock { width, .. } => parameter.width != width.number(),
    }
}

/// Whether a PASS of the index is among ops.
pub(crate) fn is_passed(index: usize, ops: &[Op]) -> bool
    ensures { result ≡ is_passed index ops.now }
{
    for op in ops {
        if is_index(index, pass_index(op)) {
            return true;
        }
    }
    false
}

fn is_index(index: usize, other: Option<u8>) -> bool
    ensures { result ≡ is_index index other }
{
    match other {
        None => false,
        Some(other) => usize::from(other) == index,
    }
}

fn is_ju(op: &Op) -> bool
    ensures { result ≡ is_ju_operand op.now.operand }
{
    match op.operand {
        Operand::Jump { kind, .. } => kind == JUMP,
        _ => false,
    }
}

/// Whether between an offset and a target stand at most 255 JU alone.
pub(crate) fn leads(target: u32, from: u32, rest: &[Op]) -> bool
    requires { from + length (code_bytes rest.now) < 2 ^ 32 }
    ensures { result ≡ leads_to_target 255 target from rest.now }
{
    let mut at = from;
    let mut most = 255_u8;
    for op in rest {
        if at == target {
            return true;
        }
        if most == 0 {
            return false;
        }
        if !is_ju(op) {
            return false;
        }
        at += op.size();
        most -= 1;
    }
    at == target
}
