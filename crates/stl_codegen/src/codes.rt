ghost use Rattle.std.specs.Prelude.{◌≡◌, ◌<◌, IfOk, IfSome};
ghost use Rattle.std.specs.Option.{IfNone};
ghost use Rattle.stl_codegen.specs.Bodies.{body_lines, body_ops, count_of_statements};
ghost use Rattle.stl_codegen.specs.CompiledBlock.{code_in, lines_in, placed_ops};
ghost use Rattle.stl_codegen.specs.Fitting.{CodeFits, HasNoOp};
ghost use Rattle.stl_codegen.specs.GeneratedProgram.{statements_of};

use crate::bodies::{Body, lines_of};
use crate::emitting::append_end;
use crate::places::place_targets;
use flat_code::{EndOperation, Op};
use std::alloc::{AllocError, Global};
use stl_ast::Block;
use stl_types::Context;

/// The code of a block, with the line of each statement.
#[derive(Drop)]
pub(crate) struct Code {
    pub(crate) ops: Vec<Op>,
    pub(crate) lines: Vec<u32>,
}

/// The ops of a body, whose targets are numbers of statements. `None` where one of them is no op of
/// the table.
#[tactic(auto, using(crate::proofs::AppendLemmas::front_has_none, crate::proofs::AppendLemmas::appended_then))]
fn ops_of(alloc: Global, context: &Context, block: &Block) -> Result<Option<Vec<Op>>, AllocError>
    requires { count_of_statements block.now.body < 65536 }
    ensures value { IfOk result (λ made. IfSome made (λ ops. ops.items
        ≡ body_ops context.now block.now)) }
    ensures none { IfOk result (λ made. IfNone made (HasNoOp (body_ops context.now block.now))) }
{
    let body = Body::new(alloc, block.body.as_slice())?;
    let mut ops = Vec::new(alloc);
    let Some(_) = body.append_to(alloc, &mut ops, context)? else {
        return Ok(None);
    };
    let Some(_) = append_end(&mut ops, EndOperation::Be)? else {
        return Ok(None);
    };
    Ok(Some(ops))
}

/// The code of a block. `None` where it doesn't fit its fields, or an op isn't one of the table.
#[tactic(auto, using(crate::proofs::BlockLemmas::body_ops_are, crate::proofs::BlockLemmas::body_lines_are, crate::proofs::BlockLemmas::count_lines, crate::proofs::BlockLemmas::no_op_misfits))]
pub(crate) fn code_of_block(
    alloc: Global,
    context: &Context,
    block: &Block,
) -> Result<Option<Code>, AllocError>
    ensures ops { IfOk result (λ made. IfSome made (λ code. code.ops.items
        ≡ code_in (statements_of context.now block.now))) }
    ensures lines { IfOk result (λ made. IfSome made (λ code. code.lines.items
        ≡ lines_in (statements_of context.now block.now))) }
    ensures none { IfOk result (λ made. IfNone made
        (CodeFits (code_in (statements_of context.now block.now))
        (lines_in (statements_of context.now block.now)) → ⊥)) }
{
    let lines = lines_of(alloc, block)?;
    if lines.len() > 65_535 {
        return Ok(None);
    }
    let Some(ops) = ops_of(alloc, context, block)? else {
        return Ok(None);
    };
    let Some(ops) = place_targets(alloc, ops.as_slice())? else {
        return Ok(None);
    };
    Ok(Some(Code { ops, lines }))
}
