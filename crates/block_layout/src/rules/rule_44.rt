ghost use Rattle.std.specs.Prelude.{◌≡◌};
ghost use Rattle.plc_base.specs.Least.{least};
ghost use Rattle.block_layout.specs.Rule44.{has_wrong_number, rule_44};

use crate::directory::is_block_number;
use crate::types::id_of;
use plc_base::{Refusal, broken_if, least_of};
use stl_ast::Block;
use stl_symbols::Symbols;

/// Whether the head of a block has a number beyond the limits.
pub(crate) fn has_wrong_number(symbols: &Symbols, block: &Block) -> bool
    ensures { result ≡ has_wrong_number symbols.now block.now }
{
    match id_of(symbols, block) {
        None => false,
        Some(id) => !is_block_number(id.kind, id.number),
    }
}

/// The least refusal by rule 44.
#[tactic(auto, unfolding(crate::specs::Rule44::rule_44), using(crate::proofs::HeadLemmas::by_itself))]
pub(crate) fn least_wrong_number(symbols: &Symbols, blocks: &[Block]) -> Option<Refusal>
    ensures { result ≡ least (rule_44 symbols.now blocks.now) }
{
    least_of(blocks, |block: &Block| {
        broken_if(has_wrong_number(symbols, block), block.line, 44)
    })
}
