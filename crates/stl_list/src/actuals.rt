//! The actual parameters of a CALL.
ghost use Rattle.std.specs.Prelude.{◌≡◌, ◌++◌, IfOk, Some, None, slice_get};
ghost use Rattle.stl_list.specs.Actuals.{
  actual_of_passed,
  actual_for,
  actual_here,
  actuals_before,
  actuals_by,
  is_written,
  passed_operand,
};
ghost use Rattle.stl_list.specs.Signatures.{called_formals};

use crate::constants::typed_constant;
use crate::links::{called_id, system_parameters};
use crate::operands::{direct_operand, own_parameter};
use crate::parameters::formal_at;
use crate::signatures::{Signature, formals_of};
use flat_code::{Op, Operand as FlatOperand, Passed};
use plc_base::{BlockId, NoMemory};
use std::alloc::Global;
use stl_ast::{Actual, Name, Operand, PartKind};
use stl_types::Formal;

/// Whether a parameter of a section is written.
fn is_written(section: PartKind) -> bool
    ensures { result ≡ is_written section }
{
    !matches!(section, PartKind::Input)
}

/// What is passed for a parameter. `formals` are the parameters of the block that calls.
fn passed_operand(
    alloc: Global,
    formals: &[Formal],
    formal: &Formal,
    passed: Passed,
) -> Result<Operand, NoMemory>
    ensures { IfOk result (λ o. o ≡ passed_operand formals.now formal.now passed) }
{
    match passed {
        Passed::Literal { value } => Ok(Operand::Constant {
            value: typed_constant(formal.kind, value),
        }),
        Passed::Direct {
            area,
            width,
            byte,
            bit,
        } => {
            let writes = is_written(formal.section);
            Ok(direct_operand(None, writes, area, width, byte, bit))
        }
        Passed::Parameter { index, .. } => own_parameter(alloc, formals, index),
        Passed::InBlock {
            number,
            area,
            width,
            byte,
            bit,
        } => {
            let writes = is_written(formal.section);
            Ok(direct_operand(Some(number), writes, area, width, byte, bit))
        }
    }
}

fn actual(
    alloc: Global,
    line: u32,
    formals: &[Formal],
    formal: &Formal,
    passed: Passed,
) -> Result<Actual, NoMemory>
    ensures { IfOk result (λ a. a ≡ actual_of_passed line formals.now formal.now passed) }
{
    let name = Name::new(alloc, formal.name.as_bytes())?;
    Ok(Actual {
        line,
        name,
        value: passed_operand(alloc, formals, formal, passed)?,
    })
}

/// Adds what is passed for the parameter of an index, if the called block has it.
fn add_actual(
    alloc: Global,
    actuals: &mut Vec<Actual>,
    line: u32,
    formals: &[Formal],
    called: &[Formal],
    index: u8,
    passed: Passed,
) -> Result<(), NoMemory>
    ensures { IfOk result (λ _. actuals.new.items ≡ actuals.old.items
        ++ actual_for line formals.now (slice_get called.now index) passed) }
{
    match formal_at(called, index) {
        None => Ok(()),
        Some(formal) => {
            actuals.push(actual(alloc, line, formals, formal, passed)?)?;
            Ok(())
        }
    }
}

/// Adds the actual parameter that an op before the call passes.
fn add_here(
    alloc: Global,
    actuals: &mut Vec<Actual>,
    line: u32,
    formals: &[Formal],
    called: &[Formal],
    op: &Op,
) -> Result<(), NoMemory>
    ensures { IfOk result (λ _. actuals.new.items ≡ actuals.old.items
        ++ actual_here line formals.now called.now op.now.operand) }
{
    match op.operand {
        FlatOperand::Pass {
            index,
            actual: passed,
        } => add_actual(alloc, actuals, line, formals, called, index, passed),
        _ => Ok(()),
    }
}

/// The actual parameters of the ops before a call. `called` are the parameters of the called block.
fn actuals_before(
    alloc: Global,
    line: u32,
    formals: &[Formal],
    called: &[Formal],
    before: &[Op],
) -> Result<Vec<Actual>, NoMemory>
    ensures { IfOk result
        (λ v. v.items ≡ actuals_before line formals.now called.now before.now) }
{
    let mut actuals = Vec::new(alloc);
    for op in before {
        add_here(alloc, &mut actuals, line, formals, called, op)?;
    }
    Ok(actuals)
}

/// The actual parameters of a call of a block.
fn actuals_of(
    alloc: Global,
    signatures: &[Signature],
    line: u32,
    formals: &[Formal],
    before: &[Op],
    id: BlockId,
) -> Result<Vec<Actual>, NoMemory>
    ensures { IfOk result (λ v. v.items ≡ actuals_before line formals.now
        (called_formals signatures.now id) before.now) }
{
    if id.kind.is_system_function() {
        let called = system_parameters(alloc, id.number)?;
        actuals_before(alloc, line, formals, called.as_slice(), before)
    } else {
        let called = formals_of(signatures, id);
        actuals_before(alloc, line, formals, called, before)
    }
}

/// The actual parameters of a statement; one that calls nothing has none.
#[tactic(auto, unfolding(crate::specs::Actuals::actuals_by))]
pub(crate) fn actuals_by(
    alloc: Global,
    signatures: &[Signature],
    line: u32,
    formals: &[Formal],
    before: &[Op],
    op: &Op,
) -> Result<Vec<Actual>, NoMemory>
    ensures { IfOk result (λ v. v.items
        ≡ actuals_by signatures.now line formals.now before.now op.now.operand) }
{
    match op.operand {
        FlatOperand::Called { kind, number, .. } => {
            let id = called_id(kind, number);
            actuals_of(alloc, signatures, line, formals, before, id)
        }
        _ => Ok(Vec::new(alloc)),
    }
}
