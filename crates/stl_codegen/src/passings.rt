ghost use Rattle.std.specs.Prelude.{◌≡◌, IfOk, [], ◌∷◌, find};
ghost use Rattle.std.specs.Option.{option_copied};
ghost use Rattle.std.specs.Str.{bytes_eq};
ghost use Rattle.plc_base.specs.Folding.{upper_case_name};
ghost use Rattle.stl_types.specs.Resolution.{resolution_of};
ghost use Rattle.stl_codegen.specs.EmittedOps.{pass_ops};
ghost use Rattle.stl_codegen.specs.Fitting.{AreOpsAppended};
ghost use Rattle.stl_codegen.specs.PassedParameters.{
  passed_actual,
  passed_place,
  passed_resolution,
  passed_by_operand,
  passings_from,
  actual_of_formal,
  with_index,
};

use crate::emitting::{append_passed_parameter, append_passing};
use crate::operands::{constant_bits, is_in_named_block};
use block_layout::width_of;
use flat_code::{Op, Passed, order_of};
use plc_base::{Place, Width};
use std::alloc::{AllocError, Global};
use stl_ast::{Actual, Operand};
use stl_types::{Context, Formal, Resolution, ResolvedOperand};

fn passed_place(place: Place, width: Width) -> Passed
    ensures { result ≡ passed_place place width }
{
    if is_in_named_block(place) {
        Passed::InBlock {
            number: place.number,
            area: place.area,
            width,
            byte: place.byte,
            bit: place.bit,
        }
    } else {
        Passed::Direct {
            area: place.area,
            width,
            byte: place.byte,
            bit: place.bit,
        }
    }
}

/// Appends what a CALL passes for the parameter of an index, by what the operand names.
fn append_passed_operand(
    ops: &mut Vec<Op>,
    index: usize,
    operand: &Operand,
    view: ResolvedOperand,
) -> Result<Option<()>, AllocError>
    ensures { IfOk result (λ done. AreOpsAppended ops.old.items ops.new.items
        (pass_ops (with_index index (passed_by_operand operand.now view))) done) }
{
    match view {
        ResolvedOperand::Direct { place, width, .. } => {
            append_passing(ops, index, passed_place(place, width))
        }
        ResolvedOperand::Parameter {
            index: own,
            declared,
            ..
        } => append_passed_parameter(ops, index, own, width_of(declared)),
        ResolvedOperand::Constant => append_passing(
            ops,
            index,
            Passed::Literal {
                value: constant_bits(operand),
            },
        ),
        _ => Ok(Some(())),
    }
}

fn append_resolution(
    ops: &mut Vec<Op>,
    index: usize,
    operand: &Operand,
    resolution: Resolution,
) -> Result<Option<()>, AllocError>
    ensures { IfOk result (λ done. AreOpsAppended ops.old.items ops.new.items
        (pass_ops (with_index index (passed_resolution operand.now resolution))) done) }
{
    match resolution {
        Resolution::Resolved { view } => append_passed_operand(ops, index, operand, view),
        Resolution::Unknown | Resolution::Unjudged => Ok(Some(())),
    }
}

/// Whether a name is this one in upper case.
#[tactic(auto, using(crate::proofs::PassingLemmas::same_by_order))]
fn is_folded(name: &[u8], upper: &[u8]) -> bool
    ensures { result ≡ bytes_eq (upper_case_name name.now) upper.now }
{
    order_of(upper, name).is_eq()
}

fn is_for(actual: &Actual, formal: &Formal) -> bool
    ensures { result ≡ bytes_eq (upper_case_name actual.now.name) formal.now.name }
{
    is_folded(actual.name.as_bytes(), formal.name.as_bytes())
}

/// The actual parameter that is supplied for a parameter.
fn actual_of_formal<'s>(actuals: &'s [Actual], formal: &Formal) -> Option<&'s Actual>
    ensures { option_copied result ≡ actual_of_formal actuals.now formal.now }
{
    actuals.iter().find(|a| is_for(a, formal))
}

fn append_actual(
    alloc: Global,
    ops: &mut Vec<Op>,
    context: &Context,
    index: usize,
    actual: Option<&Actual>,
) -> Result<Option<()>, AllocError>
    ensures { IfOk result (λ done. AreOpsAppended ops.old.items ops.new.items
        (pass_ops (passed_actual context.now index (option_copied actual.entry))) done) }
{
    match actual {
        None => Ok(Some(())),
        Some(actual) => {
            let resolution = context.resolution(alloc, &actual.value)?;
            append_resolution(ops, index, &actual.value, resolution)
        }
    }
}

/// Appends what a CALL passes for these parameters, in their order.
pub(crate) fn append_passings(
    alloc: Global,
    ops: &mut Vec<Op>,
    context: &Context,
    actuals: &[Actual],
    formals: &[Formal],
) -> Result<Option<()>, AllocError>
    ensures { IfOk result (λ done. AreOpsAppended ops.old.items ops.new.items
        (pass_ops (passings_from context.now actuals.now 0 formals.now)) done) }
{
    for index in 0..formals.len() {
        let actual = actual_of_formal(actuals, &formals[index]);
        let Some(_) = append_actual(alloc, ops, context, index, actual)? else {
            return Ok(None);
        };
    }
    Ok(Some(()))
}
