ghost use Rattle.std.specs.Prelude.{◌≡◌, IfOk, false, true, [], ◌∷◌};
ghost use Rattle.flat_code.specs.OpCodes.{op_code_of};
ghost use Rattle.flat_code.specs.Ops.{op_of};
ghost use Rattle.flat_code.specs.declared.operands.Operand.TheVariants as operands;
ghost use Rattle.flat_code.specs.declared.operands.Passed.TheVariants as passed;
ghost use Rattle.flat_code.specs.declared.operations.Operation.TheVariants as operations;
ghost use Rattle.block_layout.specs.Fits.{number_or_zero};
ghost use Rattle.stl_codegen.specs.EmittedOps.{call_op, end_op, jump_op, use_db_ops, preparing_op};
ghost use Rattle.stl_codegen.specs.Fitting.{AreOpsAppended, IsStill};

use crate::operands::index_byte;
use flat_code::{CallOperation, EndOperation, JumpOperation, Op, Operand, Operation, Passed};
use plc_base::{BlockId, Width};
use std::alloc::AllocError;

/// Appends an op, unless the operation doesn't take the operand.
#[tactic(auto, using(crate::proofs::OpLemmas::not_taken))]
pub(crate) fn append(
    ops: &mut Vec<Op>,
    operation: Operation,
    last: bool,
    operand: Operand,
) -> Result<Option<()>, AllocError>
    requires { IsStill operand }
    ensures { IfOk result (λ done. AreOpsAppended ops.old.items ops.new.items
        (op_of (op_code_of operation) last operand ∷ []) done) }
{
    let Some(op) = Op::of_instruction(operation, last, operand) else {
        return Ok(None);
    };
    ops.push(op)?;
    Ok(Some(()))
}

/// Appends the op that opens a data block before the statement does its work.
pub(crate) fn append_opening(
    ops: &mut Vec<Op>,
    block: Option<u16>,
) -> Result<Option<()>, AllocError>
    ensures { IfOk result (λ done. AreOpsAppended ops.old.items ops.new.items
        (use_db_ops block) done) }
{
    match block {
        None => Ok(Some(())),
        Some(number) => append(ops, Operation::UseDb, false, Operand::UseDb { number }),
    }
}

/// Appends the op that passes something for the parameter of an index.
#[tactic(auto, using(crate::proofs::OpLemmas::no_operand, crate::proofs::OpLemmas::far_passing))]
pub(crate) fn append_passing(
    ops: &mut Vec<Op>,
    index: usize,
    actual: Passed,
) -> Result<Option<()>, AllocError>
    ensures { IfOk result (λ done. AreOpsAppended ops.old.items ops.new.items
        (preparing_op operations.Pass (operands.Pass index actual) ∷ []) done) }
{
    let Some(index) = index_byte(index) else {
        return Ok(None);
    };
    append(ops, Operation::Pass, false, Operand::Pass { index, actual })
}

/// Appends the op that passes a parameter of the function that calls, by its index there.
#[tactic(auto, using(crate::proofs::OpLemmas::no_operand, crate::proofs::OpLemmas::far_passed))]
pub(crate) fn append_passed_parameter(
    ops: &mut Vec<Op>,
    index: usize,
    own: usize,
    width: Width,
) -> Result<Option<()>, AllocError>
    ensures { IfOk result (λ done. AreOpsAppended ops.old.items ops.new.items
        (preparing_op operations.Pass (operands.Pass index (passed.Parameter own width)) ∷ [])
        done) }
{
    let Some(own) = index_byte(own) else {
        return Ok(None);
    };
    append_passing(ops, index, Passed::Parameter { index: own, width })
}

/// Appends a jump to the statement of a number.
#[tactic(auto, using(crate::proofs::OpLemmas::jumps))]
pub(crate) fn append_jump(
    ops: &mut Vec<Op>,
    how: JumpOperation,
    target: u32,
) -> Result<Option<()>, AllocError>
    ensures { IfOk result (λ done. AreOpsAppended ops.old.items ops.new.items
        (jump_op how target ∷ []) done) }
{
    let operand = Operand::Jump {
        kind: how.kind(),
        target,
    };
    ops.push(Op::new(Operation::Jump, true, operand))?;
    Ok(Some(()))
}

/// 0 stands for no instance.
fn number_or_zero(instance: Option<u16>) -> u16
    ensures { result ≡ number_or_zero instance }
{
    match instance {
        None => 0,
        Some(number) => number,
    }
}

/// Appends the call of a block.
pub(crate) fn append_call(
    ops: &mut Vec<Op>,
    how: CallOperation,
    block: BlockId,
    instance: Option<u16>,
) -> Result<Option<()>, AllocError>
    ensures { IfOk result (λ done. AreOpsAppended ops.old.items ops.new.items
        (call_op how block instance ∷ []) done) }
{
    let operand = Operand::Called {
        kind: block.kind.number(),
        number: block.number,
        instance: number_or_zero(instance),
    };
    append(ops, Operation::Call(how), true, operand)
}

/// Appends the end of a block.
pub(crate) fn append_end(ops: &mut Vec<Op>, how: EndOperation) -> Result<Option<()>, AllocError>
    ensures { IfOk result (λ done. AreOpsAppended ops.old.items ops.new.items
        (end_op how ∷ []) done) }
{
    append(ops, Operation::End(how), true, Operand::Nothing)
}
