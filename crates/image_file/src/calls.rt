//! Calls: what a CALL, UC or CC may not do, and what its PASS ops may not pass.
ghost use Rattle.std.specs.Prelude.{◌≡◌, None};
ghost use Rattle.flat_code.specs.PlacedOps.{is_empty_list, PlacedOp, last_op};
ghost use Rattle.flat_code.specs.Blocks.{is_short_instance, is_bad_instance, is_bad_call, are_all_passed, misfits_index, misfits_callee, misfits_call, callee_among};
ghost use Rattle.image_file.specs.OpChecking.{environment_of};

use crate::environments::{BlockEnvironment, CalleeSignature, DataLens, callee};
use crate::operands::{is_passed, misfits_parameter};
use flat_code::{FUNCTION_BLOCK, Op, Operand, ParameterRecord, Passed};

/// Whether an instance is absent or shorter than the function block's.
fn is_short(needed: u16, len: Option<usize>) -> bool
    ensures { result ≡ is_short_instance needed len }
{
    match len {
        None => true,
        Some(len) => len < usize::from(needed),
    }
}

fn is_bad_instance(lens: &DataLens, called: &CalleeSignature<'_>, instance: u16) -> bool
    ensures { result ≡ is_bad_instance lens.now called.now instance }
{
    if called.kind == FUNCTION_BLOCK {
        if instance == 0 {
            !called.params.is_empty()
        } else {
            is_short(called.instance_len, lens.of(instance))
        }
    } else {
        instance != 0
    }
}

/// Whether each parameter is passed.
fn are_passed(params: &[ParameterRecord], before: &[Op]) -> bool
    ensures { result ≡ are_all_passed 0 params.now before.now }
{
    for i in 0..params.len() {
        if !is_passed(i, before) {
            return false;
        }
    }
    true
}

/// Whether a block is called that is absent or has other parameters, or with an instance that
/// doesn't fit.
pub(crate) fn is_bad_call(
    environment: &BlockEnvironment,
    lens: &DataLens,
    kind: u8,
    number: u16,
    instance: u16,
    before: &[Op],
) -> bool
    ensures { result ≡ is_bad_call lens.now (callee_among
        (environment_of environment.now).blocks kind number) instance before.now }
{
    match callee(environment.blocks, kind, number) {
        None => true,
        Some(called) => {
            called.kind != FUNCTION_BLOCK && !are_passed(called.params, before)
                || is_bad_instance(lens, &called, instance)
        }
    }
}

fn misfits_index(
    environment: &BlockEnvironment,
    parameter: Option<ParameterRecord>,
    actual: Passed,
) -> bool
    ensures { result ≡ misfits_index (environment_of environment.now) parameter actual }
{
    match parameter {
        None => true,
        Some(parameter) => misfits_parameter(environment, parameter, actual),
    }
}

/// Whether what is passed doesn't fit the parameter of the block that the statement's last op
/// calls.
pub(crate) fn misfits_call(
    environment: &BlockEnvironment,
    last: &Op,
    index: u8,
    actual: Passed,
) -> bool
    ensures { result
        ≡ misfits_call (environment_of environment.now) last.now.operand index actual }
{
    match last.operand {
        Operand::Called { kind, number, .. } => match callee(environment.blocks, kind, number) {
            None => false,
            Some(called) => {
                let parameter = called.params.get(usize::from(index)).copied();
                misfits_index(environment, parameter, actual)
            }
        },
        _ => false,
    }
}
