ghost use Rattle.std.specs.Prelude.{◌≡◌, IfOk, zero, Some, None, drop, take, ◌++◌};
ghost use Rattle.std.specs.Option.{option_copied};
ghost use Rattle.stl_types.specs.Parameters.{callee_of};
ghost use Rattle.stl_types.specs.declared.resolved_operands.ResolvedOperand.TheVariants as resolved;
ghost use Rattle.flat_code.specs.Instr.{Calls, Does};
ghost use Rattle.stl_codegen.specs.EmittedOps.{ops_of, pass_ops};
ghost use Rattle.stl_codegen.specs.Fitting.{AreOpsAppended};
ghost use Rattle.stl_codegen.specs.Instruction.{
  source_block_at,
  call_instr,
  end_instr,
  filler_instruction,
  in_parameter_order,
  jump_instr,
  passings_to,
  resolved_instr,
  return_last,
  operand_instr,
};
ghost use Rattle.stl_codegen.specs.Operands.{block_opened_by_operand, flat_operand_of};
ghost use Rattle.stl_codegen.specs.Operations.{call_operation_of, end_operation_of, operation_for};

use crate::emitting::{append, append_call, append_end, append_jump, append_opening};
use crate::operands::{block_opened_by_operand, flat_operand_of};
use crate::operations::{call_operation_of, end_operation_of, operation_for};
use crate::passings::append_passings;
use flat_code::{CallOperation, JumpOperation, Op, Operand, Operation};
use plc_base::BlockId;
use std::alloc::{AllocError, Global};
use stl_ast::{Block, Simple, Statement};
use stl_types::{Callee, Context, ResolvedOperand};

/// Appends a jump, also one by list: its list are the jumps behind it.
#[tactic(auto, using(crate::proofs::OpLemmas::jump_ops))]
pub(crate) fn append_jump_to(
    ops: &mut Vec<Op>,
    how: JumpOperation,
    target: u32,
) -> Result<Option<()>, AllocError>
    ensures { IfOk result (λ done. AreOpsAppended ops.old.items ops.new.items
        (ops_of (jump_instr how 0 target)) done) }
{
    append_jump(ops, how, target)
}

/// Appends NOP 0, for a statement that doesn't name what its instruction takes.
#[tactic(auto, unfolding(crate::specs::EmittedOps::ops_of))]
fn append_filler(ops: &mut Vec<Op>) -> Result<Option<()>, AllocError>
    ensures { IfOk result (λ done. AreOpsAppended ops.old.items ops.new.items
        (ops_of filler_instruction) done) }
{
    append(ops, Operation::Nop, true, Operand::Literal { value: 0 })
}

/// Appends an instruction that goes on to the next statement, and the op that opens a data block
/// before it.
#[tactic(auto, unfolding(crate::specs::EmittedOps::ops_of), using(crate::proofs::AppendLemmas::front_has_none, crate::proofs::AppendLemmas::back_has_none, crate::proofs::AppendLemmas::appended_then, crate::proofs::OpLemmas::no_operand))]
fn append_operation(
    ops: &mut Vec<Op>,
    statement: &Statement,
    view: ResolvedOperand,
) -> Result<Option<()>, AllocError>
    ensures { IfOk result (λ done. AreOpsAppended ops.old.items ops.new.items
        (ops_of
        (Does (block_opened_by_operand view)
        (operation_for statement.now.code statement.now.operand view)
        (flat_operand_of statement.now.operand view))) done) }
{
    let Some(_) = append_opening(ops, block_opened_by_operand(view))? else {
        return Ok(None);
    };
    let Some(operand) = flat_operand_of(&statement.operand, view) else {
        return Ok(None);
    };
    let operation = operation_for(statement.code, &statement.operand, view);
    append(ops, operation, true, operand)
}

/// A list with its first item moved behind the others.
fn first_last<T>(list: Vec<T>) -> Vec<T>
    ensures { result.items ≡ drop 1 list.items ++ take 1 list.items }
{
    let mut list = list;
    if !list.is_empty() {
        list.rotate_left(1);
    }
    list
}

/// The parameters of a block by their index in a call; the return value of a function is the last.
pub(crate) fn in_order<T>(block: Option<&Block>, params: Vec<T>) -> Vec<T>
    ensures { result.items ≡ in_parameter_order (option_copied block.entry) params.items }
{
    match block {
        None => params,
        Some(block) => return_last(block.result, params),
    }
}

fn return_last<T>(kind: Option<Simple>, params: Vec<T>) -> Vec<T>
    ensures { result.items ≡ return_last kind params.items }
{
    match kind {
        None => params,
        Some(_) => first_last(params),
    }
}

/// The block of the source at a place.
fn source_block_at<'a>(context: &Context<'a>, place: Option<usize>) -> Option<&'a Block>
    ensures { option_copied result ≡ source_block_at context.now.blocks place }
{
    let blocks = context.tree().blocks.as_slice();
    let place = place?;
    if place < blocks.len() {
        Some(&blocks[place])
    } else {
        None
    }
}

/// Appends what a CALL passes for the parameters of the block that is called.
fn append_arguments(
    alloc: Global,
    ops: &mut Vec<Op>,
    context: &Context,
    statement: &Statement,
    callee: Option<Callee>,
) -> Result<Option<()>, AllocError>
    ensures { IfOk result (λ done. AreOpsAppended ops.old.items ops.new.items
        (pass_ops (passings_to context.now statement.now callee)) done) }
{
    match callee {
        None => Ok(Some(())),
        Some(Callee { place, formals, .. }) => {
            let formals = in_order(source_block_at(context, place), formals);
            append_passings(
                alloc,
                ops,
                context,
                statement.actuals.as_slice(),
                formals.as_slice(),
            )
        }
    }
}

/// Appends the call of a block, with what it passes.
#[tactic(auto, unfolding(crate::specs::EmittedOps::ops_of), using(crate::proofs::AppendLemmas::front_has_none, crate::proofs::AppendLemmas::appended_then))]
fn append_called(
    alloc: Global,
    ops: &mut Vec<Op>,
    context: &Context,
    statement: &Statement,
    how: CallOperation,
    block: BlockId,
    instance: Option<u16>,
) -> Result<Option<()>, AllocError>
    ensures { IfOk result (λ done. AreOpsAppended ops.old.items ops.new.items
        (ops_of (Calls how block instance (passings_to context.now statement.now
        (callee_of context.now statement.now.operand)))) done) }
{
    let callee = context.callee(alloc, &statement.operand)?;
    let Some(_) = append_arguments(alloc, ops, context, statement, callee)? else {
        return Ok(None);
    };
    append_call(ops, how, block, instance)
}

fn append_call_by(
    alloc: Global,
    ops: &mut Vec<Op>,
    context: &Context,
    statement: &Statement,
    how: CallOperation,
    view: ResolvedOperand,
) -> Result<Option<()>, AllocError>
    ensures { IfOk result (λ done. AreOpsAppended ops.old.items ops.new.items
        (ops_of (call_instr context.now statement.now how view)) done) }
{
    match view {
        ResolvedOperand::Called { block, instance } => {
            append_called(alloc, ops, context, statement, how, block, instance)
        }
        _ => append_filler(ops),
    }
}

/// Appends an instruction that is no call.
#[tactic(auto, unfolding(crate::specs::EmittedOps::ops_of))]
fn append_plain(
    ops: &mut Vec<Op>,
    statement: &Statement,
    view: ResolvedOperand,
) -> Result<Option<()>, AllocError>
    ensures { IfOk result (λ done. AreOpsAppended ops.old.items ops.new.items
        (ops_of (end_instr statement.now view (end_operation_of statement.now.code))) done) }
{
    match end_operation_of(statement.code) {
        None => append_operation(ops, statement, view),
        Some(how) => append_end(ops, how),
    }
}

fn append_by_operand(
    alloc: Global,
    ops: &mut Vec<Op>,
    context: &Context,
    statement: &Statement,
    view: ResolvedOperand,
) -> Result<Option<()>, AllocError>
    ensures { IfOk result (λ done. AreOpsAppended ops.old.items ops.new.items
        (ops_of
        (operand_instr context.now statement.now view (call_operation_of statement.now.code)))
        done) }
{
    match call_operation_of(statement.code) {
        None => append_plain(ops, statement, view),
        Some(how) => append_call_by(alloc, ops, context, statement, how, view),
    }
}

/// Appends the instruction of a statement that is no jump, by what its operand names.
pub(crate) fn append_resolved(
    alloc: Global,
    ops: &mut Vec<Op>,
    context: &Context,
    statement: &Statement,
    view: Option<ResolvedOperand>,
) -> Result<Option<()>, AllocError>
    ensures { IfOk result (λ done. AreOpsAppended ops.old.items ops.new.items
        (ops_of (resolved_instr context.now statement.now view)) done) }
{
    match view {
        None => append_filler(ops),
        Some(view) => append_by_operand(alloc, ops, context, statement, view),
    }
}
