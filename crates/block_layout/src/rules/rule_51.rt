ghost use Rattle.std.specs.Prelude.{◌≡◌, map};
ghost use Rattle.plc_base.specs.Least.{least};
ghost use Rattle.block_layout.specs.Lengths.{length_of_block};
ghost use Rattle.block_layout.specs.Rule51.{rule_51};
ghost use Rattle.block_layout.specs.Types.{Types};

use crate::excess::least_longer;
use plc_base::Refusal;
use stl_ast::Block;

/// The most bytes of a data block, of a data type or of an instance.
pub(crate) const MOST_BYTES: u64 = 16_384;

/// The least refusal by rule 51.
#[tactic(auto, unfolding(crate::specs::Rule51::rule_51))]
pub(crate) fn least_too_long(lens: &[u64], blocks: &[Block]) -> Option<Refusal>
    ensures { (y : Types) → lens.now ≡ map (length_of_block y blocks.now) blocks.now
        → result ≡ least (rule_51 y blocks.now) }
{
    least_longer(lens, MOST_BYTES, 51, blocks)
}
