ghost use Rattle.std.specs.Prelude.{◌≡◌, List, length};
ghost use Rattle.stl_ast.specs.declared.blocks.Block.{Block};
ghost use Rattle.plc_base.specs.Least.{least};
ghost use Rattle.block_layout.specs.Rule22.{is_block_twice, is_earlier, rule_22};

use crate::types::{Types, id_of};
use plc_base::{Refusal, broken_if, lesser};
use stl_ast::Block;

fn is_earlier(first: Option<usize>, place: usize) -> bool
    ensures { result ≡ is_earlier first place }
{
    match first {
        None => false,
        Some(first) => first < place,
    }
}

/// Whether a block of the same kind and number stands before the block at this place.
pub(crate) fn is_block_twice(types: &Types, place: usize, block: &Block) -> bool
    ensures { (before : List Block) → length before ≡ place
        → result ≡ is_block_twice types.now before block.now }
{
    match id_of(types.symbols, block) {
        None => false,
        Some(id) => is_earlier(types.directory.place(id), place),
    }
}

/// The least refusal by rule 22.
#[tactic(auto, unfolding(crate::specs::Rule22::rule_22))]
pub(crate) fn least_block_twice(types: &Types, blocks: &[Block]) -> Option<Refusal>
    ensures { result ≡ least (rule_22 types.now blocks.now) }
{
    let mut found = None;
    for (place, block) in blocks.iter().enumerate() {
        let twice = is_block_twice(types, place, block);
        found = lesser(found, broken_if(twice, block.line, 22));
    }
    found
}
