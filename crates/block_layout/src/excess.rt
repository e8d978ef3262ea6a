ghost use Rattle.std.specs.Prelude.{◌≡◌, ℕ, map, nat_lt};
ghost use Rattle.stl_ast.specs.declared.blocks.Block.{Block};
ghost use Rattle.plc_base.specs.Least.{least};
ghost use Rattle.block_layout.specs.Heads.{on_heads};

use crate::declarations::number_at;
use plc_base::{Refusal, broken_if, lesser};
use stl_ast::Block;

/// The least refusal of the heads of blocks that are longer than so many bytes; the lengths stand
/// in the order of the blocks.
pub(crate) fn least_longer(lens: &[u64], most: u64, rule: u16, blocks: &[Block]) -> Option<Refusal>
    ensures { (f : Block → ℕ) → lens.now ≡ map f blocks.now
        → result ≡ least (on_heads (λ before b. nat_lt most (f b)) rule blocks.now) }
{
    let mut found = None;
    for (place, block) in blocks.iter().enumerate() {
        let is_longer = number_at(lens, place) > most;
        found = lesser(found, broken_if(is_longer, block.line, rule));
    }
    found
}
