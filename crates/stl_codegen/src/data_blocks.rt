ghost use Rattle.std.specs.Prelude.{◌≡◌, ◌++◌, IfOk, Some};
ghost use Rattle.block_layout.specs.declared.blocks.Shape.TheVariants as shapes;
ghost use Rattle.stl_codegen.specs.GeneratedProgram.{
  generated_data_block,
  data_block_of,
  each_block,
  function_block_number,
  instance_in,
};

use block_layout::{BlockLayout, Shape};
use flat_code::DataBlock;
use plc_base::BlockId;
use std::alloc::{AllocError, Global};
use stl_ast::Block;
use stl_types::Context;

/// The number of a function block.
fn function_block_number(id: Option<BlockId>) -> Option<u16>
    ensures { result ≡ function_block_number id }
{
    match id {
        None => None,
        Some(id) => {
            if id.kind.is_function_block() {
                Some(id.number)
            } else {
                None
            }
        }
    }
}

fn function_block_at(layouts: &[BlockLayout], place: usize) -> Option<u16>
    ensures { result ≡ instance_in layouts.now (shapes.Of place) }
{
    if place < layouts.len() {
        function_block_number(layouts[place].id)
    } else {
        None
    }
}

/// The function block whose instance a data block is.
fn instance_of(layouts: &[BlockLayout], shape: Shape) -> Option<u16>
    ensures { result ≡ instance_in layouts.now shape }
{
    match shape {
        Shape::Of { block } => function_block_at(layouts, block),
        _ => None,
    }
}

/// A data block with its initial bytes.
fn data_block(
    alloc: Global,
    context: &Context,
    layout: &BlockLayout,
    id: BlockId,
) -> Result<DataBlock, AllocError>
    ensures { IfOk result (λ made. made ≡ generated_data_block context.now layout.now id) }
{
    let layouts = context.layouts();
    Ok(DataBlock {
        number: id.number,
        instance_of: instance_of(layouts.list(), layout.shape),
        bytes: layouts.initial_bytes(alloc, context.tree(), context.block())?,
    })
}

/// Adds the data block that a block of the source is, if it is one.
fn add_known(
    alloc: Global,
    made: &mut Vec<DataBlock>,
    context: &Context,
    layout: &BlockLayout,
    id: BlockId,
) -> Result<(), AllocError>
    ensures { IfOk result (λ _. made.new.items
        ≡ made.old.items ++ data_block_of context.now layout.now (Some id)) }
{
    if id.kind.is_data_block() {
        made.push(data_block(alloc, context, layout, id)?)?;
    }
    Ok(())
}

fn add_data_block(
    alloc: Global,
    made: &mut Vec<DataBlock>,
    context: &Context,
    layout: &BlockLayout,
) -> Result<(), AllocError>
    ensures { IfOk result (λ _. made.new.items
        ≡ made.old.items ++ data_block_of context.now layout.now layout.now.id) }
{
    match layout.id {
        None => Ok(()),
        Some(id) => add_known(alloc, made, context, layout, id),
    }
}

/// The data blocks of a source, in its order.
pub(crate) fn data_blocks(
    alloc: Global,
    context: &Context,
    blocks: &[Block],
    layouts: &[BlockLayout],
) -> Result<Vec<DataBlock>, AllocError>
    ensures { IfOk result (λ made. made.items ≡ each_block (λ c b l. data_block_of c l l.id)
        (record context.now { block = 0 }) blocks.now layouts.now) }
{
    let mut made = Vec::new(alloc);
    for place in 0..blocks.len().min(layouts.len()) {
        let here = context.at(place);
        add_data_block(alloc, &mut made, &here, &layouts[place])?;
    }
    Ok(made)
}
