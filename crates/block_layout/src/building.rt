ghost use Rattle.std.specs.Prelude.{◌≡◌, List, map, Some, IfOk};
ghost use Rattle.stl_ast.specs.declared.blocks.Block.{Block};
ghost use Rattle.block_layout.specs.Before.{IsBefore};
ghost use Rattle.block_layout.specs.Facts.{AreFacts, AreFactsOf, outline_of};
ghost use Rattle.block_layout.specs.Layouts.{block_layout, is_broken, layouts_by};
ghost use Rattle.block_layout.specs.Lengths.{shape_of};

use crate::blocks::BlockLayout;
use crate::breaches::{BlocksBefore, is_broken, nothing_before, with_block};
use crate::cycles::{cycles, flag_at};
use crate::declarations::number_at;
use crate::lengths::{all_lengths, local_lens, shape_of};
use crate::outlines::Outline;
use crate::types::{Types, id_of};
use std::alloc::{AllocError, Global};
use stl_ast::Block;

/// What is found of each block before the blocks are laid out: whether it is a data type that
/// contains itself, the length of its local data, and that of its structure.
#[derive(Drop)]
pub(crate) struct Facts {
    pub(crate) in_itself: Vec<bool>,
    pub(crate) local_lens: Vec<u64>,
    pub(crate) lengths: Vec<u64>,
}

/// What is found of the blocks, by their declarations.
pub(crate) fn facts_of(
    alloc: Global,
    types: &Types,
    blocks: &[Block],
    outlines: &[Outline],
) -> Result<Facts, AllocError>
    requires { outlines.now ≡ map (outline_of types.now) blocks.now }
    ensures { IfOk result (λ f. AreFacts types.now blocks.now f) }
{
    Ok(Facts {
        in_itself: cycles(alloc, types, blocks)?,
        local_lens: local_lens(alloc, types, blocks, outlines)?,
        lengths: all_lengths(alloc, types, blocks, outlines)?,
    })
}

/// The layout of a block with these declarations: `in_itself` says that it is a data type that
/// contains itself, `local` is the length of its local data and `len` that of its structure.
#[tactic(auto, unfolding(crate::specs::Layouts::block_layout))]
fn block_layout(
    types: &Types,
    before: BlocksBefore,
    block: &Block,
    outline: Outline,
    in_itself: bool,
    local: u64,
    len: u64,
) -> BlockLayout
    ensures { (blocks some : List Block) → outline ≡ outline_of types.now block.now
        → AreFactsOf types.now blocks some block.now in_itself local len
        → IsBefore types.now blocks some before
        → result ≡ block_layout types.now blocks some block.now }
{
    let broken = is_broken(types, before, block, in_itself, local, len);
    let Outline { components, temps } = outline;
    BlockLayout {
        id: id_of(types.symbols, block),
        broken,
        shape: shape_of(types, block),
        components,
        temps,
        local_len: local,
        length: len,
    }
}

/// The layouts of the blocks, by their declarations and by what was found of them.
#[tactic(auto, unfolding(crate::specs::Layouts::layouts_by))]
pub(crate) fn layouts_by(
    alloc: Global,
    types: &Types,
    blocks: &[Block],
    outlines: Vec<Outline>,
    facts: &Facts,
) -> Result<Vec<BlockLayout>, AllocError>
    requires outlines { outlines.items ≡ map (outline_of types.now) blocks.now }
    requires facts { AreFacts types.now blocks.now facts.now }
    ensures { IfOk result (λ v. v.items ≡ layouts_by types.now blocks.now) }
{
    let mut layouts = Vec::with_capacity(alloc, blocks.len())?;
    let mut before = nothing_before();
    for outline in outlines {
        let place = layouts.len();
        let block = &blocks[place];
        let in_itself = flag_at(&facts.in_itself, place);
        let local = number_at(&facts.local_lens, place);
        let len = number_at(&facts.lengths, place);
        let layout = block_layout(types, before, block, outline, in_itself, local, len);
        layouts.push(layout)?;
        before = with_block(before, block, len);
    }
    Ok(layouts)
}
