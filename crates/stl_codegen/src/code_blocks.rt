ghost use Rattle.std.specs.Prelude.{◌≡◌, ◌≤◌, IfOk, IfSome, Some, map};
ghost use Rattle.std.specs.List.{AllByRecursion};
ghost use Rattle.std.specs.Option.{IfNone};
ghost use Rattle.plc_base.specs.Kinds.{is_code};
ghost use Rattle.stl_codegen.specs.CompiledBlock.{compiled_block};
ghost use Rattle.stl_codegen.specs.Fitting.{AreItemsAppended, BlockFits};
ghost use Rattle.stl_codegen.specs.GeneratedProgram.{
  code_block,
  code_block_of,
  each_block,
  instance_len,
};

use crate::codes::{Code, code_of_block};
use crate::params::params_of;
use block_layout::BlockLayout;
use flat_code::CodeBlock;
use plc_base::BlockId;
use std::alloc::{AllocError, Global};
use stl_ast::Block;
use stl_types::Context;

/// A length in bytes, where it fits its field of an image.
fn field(bytes: u64) -> Option<u16>
    ensures value { IfSome result (λ n. n ≡ bytes) }
    ensures long { IfNone result (65536 ≤ bytes) }
{
    if bytes <= 65_535 {
        Some(bytes as u16)
    } else {
        None
    }
}

fn instance_len(block: &Block, layout: &BlockLayout) -> u64
    ensures { result ≡ instance_len block.now layout.now }
{
    if block.kind.is_function_block() {
        layout.length
    } else {
        0
    }
}

/// A code block. `None` where one of its numbers doesn't fit its field, or an op isn't one of the
/// table.
fn code_block(
    alloc: Global,
    context: &Context,
    block: &Block,
    layout: &BlockLayout,
    id: BlockId,
) -> Result<Option<CodeBlock>, AllocError>
    ensures value { IfOk result (λ made. IfSome made (λ b. b
        ≡ compiled_block (code_block context.now block.now layout.now id))) }
    ensures none { IfOk result (λ made. IfNone made
        (BlockFits (compiled_block (code_block context.now block.now layout.now id)) → ⊥)) }
{
    let Some(local_len) = field(layout.local_len) else {
        return Ok(None);
    };
    let Some(instance_len) = field(instance_len(block, layout)) else {
        return Ok(None);
    };
    let Some(params) = params_of(alloc, block, layout)? else {
        return Ok(None);
    };
    let Some(Code { ops, lines }) = code_of_block(alloc, context, block)? else {
        return Ok(None);
    };
    Ok(Some(CodeBlock {
        id,
        local_len,
        instance_len,
        params,
        code: ops,
        lines,
    }))
}

/// Adds the code block that a block of the source is, if it is one.
fn add_known(
    alloc: Global,
    made: &mut Vec<CodeBlock>,
    context: &Context,
    block: &Block,
    layout: &BlockLayout,
    id: BlockId,
) -> Result<Option<()>, AllocError>
    ensures { IfOk result (λ done. AreItemsAppended BlockFits made.old.items made.new.items
        (map compiled_block (code_block_of context.now block.now layout.now (Some id))) done) }
{
    if !id.kind.is_code() {
        return Ok(Some(()));
    }
    let Some(one) = code_block(alloc, context, block, layout, id)? else {
        return Ok(None);
    };
    made.push(one)?;
    Ok(Some(()))
}

fn add_code_block(
    alloc: Global,
    made: &mut Vec<CodeBlock>,
    context: &Context,
    block: &Block,
    layout: &BlockLayout,
) -> Result<Option<()>, AllocError>
    ensures { IfOk result (λ done. AreItemsAppended BlockFits made.old.items made.new.items
        (map compiled_block (code_block_of context.now block.now layout.now layout.now.id)) done) }
{
    match layout.id {
        None => Ok(Some(())),
        Some(id) => add_known(alloc, made, context, block, layout, id),
    }
}

/// The code blocks of a source, in its order. `None` where one of them doesn't fit.
pub(crate) fn code_blocks(
    alloc: Global,
    context: &Context,
    blocks: &[Block],
    layouts: &[BlockLayout],
) -> Result<Option<Vec<CodeBlock>>, AllocError>
    ensures value { IfOk result (λ made. IfSome made (λ list. list.items
        ≡ map compiled_block (each_block (λ c b l. code_block_of c b l l.id)
        (record context.now { block = 0 }) blocks.now layouts.now))) }
    ensures none { IfOk result (λ made. IfNone made
        (AllByRecursion BlockFits
        (map compiled_block (each_block (λ c b l. code_block_of c b l l.id)
        (record context.now { block = 0 }) blocks.now layouts.now)) → ⊥)) }
{
    let mut made = Vec::new(alloc);
    for place in 0..blocks.len().min(layouts.len()) {
        let here = context.at(place);
        let added = add_code_block(alloc, &mut made, &here, &blocks[place], &layouts[place])?;
        let Some(_) = added else {
            return Ok(None);
        };
    }
    Ok(Some(made))
}
