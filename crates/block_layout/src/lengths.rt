ghost use Rattle.std.specs.Prelude.{◌≡◌, ◌≤◌, ◌<◌, ◌^◌, ◌/◌, IfOk, max, map, Some, List};
ghost use Rattle.std.specs.List.{slice_get};
ghost use Rattle.plc_base.specs.Kinds.{is_code, is_data_block, is_data_type, is_function_block, is_organization_block};
ghost use Rattle.stl_ast.specs.declared.blocks.Block.{Block};
ghost use Rattle.block_layout.specs.Types.{Types};
ghost use Rattle.std.specs.Option.{option_copied, option_map};
ghost use Rattle.stl_ast.specs.Blocks.{is_parameter};
ghost use Rattle.stl_ast.specs.Statements.{is_empty_statement};
ghost use Rattle.block_layout.specs.Blocks.{
  has_structure,
};
ghost use Rattle.block_layout.specs.Cells.{temps_of};
ghost use Rattle.block_layout.specs.Facts.{outline_of};
ghost use Rattle.block_layout.specs.Lengths.{
  farthest_actual_end,
  farthest_operand_end,
  bits_of_cells,
  is_local_data_letter,
  is_structured,
  least_local,
  length_of_block,
  local_end,
  local_len,
  named_type,
  structure_block_name,
  shape_at,
  shape_named,
  shape_of,
};
ghost use Rattle.block_layout.specs.Sizes.{structure_bits, largest_size};

use crate::blocks::Shape;
use crate::layouts::Layout;
use crate::outlines::Outline;
use crate::types::Types;
use plc_base::BlockKind;
use std::alloc::{AllocError, Global};
use stl_ast::{Actual, Block, BlockName, ElementType, Letters, Operand, Statement};

/// The function block or data type that a data block is of, or none.
fn structure_block_name(block: &Block) -> Option<&BlockName>
    ensures { option_copied result ≡ structure_block_name block.now.instance_of block.now.shape }
{
    if let Some(name) = &block.instance_of {
        return Some(name);
    }
    match &block.shape {
        Some(shape) => match &shape.of {
            ElementType::Udt { name } => Some(name),
            _ => None,
        },
        None => None,
    }
}

/// Where the structure of a block stands.
pub(crate) fn shape_of(types: &Types, block: &Block) -> Shape
    ensures { result ≡ shape_of types.now block.now }
{
    match structure_block_name(block) {
        None => Shape::Own,
        Some(name) => match types.structure_block(name) {
            Some(block) => Shape::Of { block },
            None => Shape::Unknown,
        },
    }
}

fn is_local(area: Letters) -> bool
    ensures { result ≡ is_local_data_letter area }
{
    matches!(area, Letters::L)
}

/// The end of a direct operand in the local data.
fn local_end(operand: &Operand) -> u64
    ensures value { result ≡ local_end operand.now }
    ensures near { result < 2 ^ 17 }
{
    match operand {
        Operand::Direct {
            area,
            width,
            byte,
            ..
        } => {
            if is_local(*area) {
                *byte as u64 + width.byte_count() as u64
            } else {
                0
            }
        }
        _ => 0,
    }
}

fn greater(a: u64, b: u64) -> u64
    ensures { result ≡ max a b }
{
    if a < b { b } else { a }
}

fn farthest_actual_end(actuals: &[Actual]) -> u64
    ensures value { result ≡ farthest_actual_end actuals.now }
    ensures near { result < 2 ^ 17 }
{
    let mut end = 0;
    for actual in actuals {
        end = greater(end, local_end(&actual.value));
    }
    end
}

/// The farthest end of a direct operand in the local data.
fn farthest(body: &[Statement]) -> u64
    ensures value { result ≡ farthest_operand_end body.now }
    ensures near { result < 2 ^ 17 }
{
    let mut end = 0;
    for statement in body {
        let own = local_end(&statement.operand);
        let actuals = farthest_actual_end(statement.actuals.as_slice());
        end = greater(end, greater(own, actuals));
    }
    end
}

fn least_local(kind: BlockKind) -> u64
    ensures { result ≡ least_local kind }
{
    match kind {
        BlockKind::Ob => 20,
        _ => 0,
    }
}

/// The length of the local data of a block, with these temporary variables.
#[tactic(auto, unfolding(crate::specs::Lengths::local_len, crate::specs::Sizes::next_multiple))]
pub(crate) fn local_len(block: &Block, temps: &Layout) -> u64
    ensures value { (y : Types)
        → temps.now ≡ temps_of y block.now → result ≡ local_len y block.now }
    ensures near { result < 2 ^ 32 }
{
    match block.kind {
        BlockKind::Ob | BlockKind::Fc | BlockKind::Fb => {
            let own = greater(temps.bits() / 8, farthest(block.body.as_slice()));
            greater(least_local(block.kind), (own + 1) / 2 * 2)
        }
        _ => 0,
    }
}

fn is_structured(kind: BlockKind) -> bool
    ensures { result ≡ is_structured kind }
{
    matches!(kind, BlockKind::Db | BlockKind::Fb | BlockKind::Udt)
}

fn bits_at(outlines: &[Outline], place: usize) -> u64
    ensures value { result
        ≡ bits_of_cells (option_map (λ o. o.components) (slice_get outlines.now place)) }
    ensures near { result ≤ largest_size }
{
    match outlines.get(place) {
        Some(outline) => outline.components.bits(),
        None => 0,
    }
}

/// The length of the structure of the block at a place, by the declarations of all blocks.
#[tactic(auto, unfolding(crate::specs::Lengths::length_of_block), using(crate::proofs::LengthLemmas::bits_there))]
pub(crate) fn length_of(block: &Block, place: usize, shape: Shape, outlines: &[Outline]) -> u64
    ensures value { (y : Types) (blocks : List Block)
        → outlines.now ≡ map (outline_of y) blocks → slice_get blocks place ≡ Some block.now
        → shape ≡ shape_of y block.now → result ≡ length_of_block y blocks block.now }
    ensures near { result < 2 ^ 32 }
{
    if !is_structured(block.kind) {
        return 0;
    }
    match shape {
        Shape::Own => bits_at(outlines, place) / 8,
        Shape::Of { block } => bits_at(outlines, block) / 8,
        Shape::Unknown => 0,
    }
}

/// The lengths of the local data of all blocks, by their declarations.
pub(crate) fn local_lens(
    alloc: Global,
    types: &Types,
    blocks: &[Block],
    outlines: &[Outline],
) -> Result<Vec<u64>, AllocError>
    requires { outlines.now ≡ map (outline_of types.now) blocks.now }
    ensures { IfOk result (λ v. v.items ≡ map (local_len types.now) blocks.now) }
{
    let mut lens = Vec::with_capacity(alloc, blocks.len())?;
    for i in 0..blocks.len() {
        lens.push(local_len(&blocks[i], &outlines[i].temps))?;
    }
    Ok(lens)
}

/// The lengths of the structures of all blocks, by their declarations.
pub(crate) fn all_lengths(
    alloc: Global,
    types: &Types,
    blocks: &[Block],
    outlines: &[Outline],
) -> Result<Vec<u64>, AllocError>
    requires { outlines.now ≡ map (outline_of types.now) blocks.now }
    ensures { IfOk result
        (λ v. v.items ≡ map (length_of_block types.now blocks.now) blocks.now) }
{
    let mut lens = Vec::with_capacity(alloc, blocks.len())?;
    for i in 0..blocks.len() {
        let block = &blocks[i];
        let shape = shape_of(types, block);
        lens.push(length_of(block, i, shape, outlines))?;
    }
    Ok(lens)
}
