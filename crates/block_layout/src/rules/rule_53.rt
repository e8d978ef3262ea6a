ghost use Rattle.std.specs.Prelude.{◌≡◌, List, if◌then◌else◌};
ghost use Rattle.plc_base.specs.Kinds.{is_data_block};
ghost use Rattle.stl_ast.specs.declared.blocks.Block.{Block};
ghost use Rattle.plc_base.specs.Least.{least};
ghost use Rattle.block_layout.specs.Rule53.{data_blocks, is_one_too_many, rule_53};

use plc_base::{Refusal, broken_if, lesser};
use stl_ast::Block;

/// The most data blocks of a source.
const MOST_DATA_BLOCKS: usize = 256;

/// Whether a data block is the 257th or a later one, behind so many.
pub(crate) fn is_one_too_many(data_before: usize, block: &Block) -> bool
    ensures { (before : List Block) → data_blocks before ≡ data_before
        → result ≡ is_one_too_many before block.now }
{
    block.kind.is_data_block() && data_before >= MOST_DATA_BLOCKS
}

pub(crate) fn counted_data(block: &Block) -> usize
    ensures { result ≡ (if is_data_block block.now.kind then 1 else 0) }
{
    if block.kind.is_data_block() { 1 } else { 0 }
}

/// The least refusal by rule 53.
#[tactic(auto, unfolding(crate::specs::Rule53::rule_53))]
pub(crate) fn least_data_block_too_many(blocks: &[Block]) -> Option<Refusal>
    ensures { result ≡ least (rule_53 blocks.now) }
{
    let mut found = None;
    let mut data_blocks = 0;
    for block in blocks {
        let is_too_many = is_one_too_many(data_blocks, block);
        found = lesser(found, broken_if(is_too_many, block.line, 53));
        data_blocks += counted_data(block);
    }
    found
}
