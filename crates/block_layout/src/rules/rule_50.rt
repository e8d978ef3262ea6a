ghost use Rattle.std.specs.Prelude.{◌≡◌, map};
ghost use Rattle.plc_base.specs.Least.{least};
ghost use Rattle.block_layout.specs.Lengths.{local_len};
ghost use Rattle.block_layout.specs.Rule50.{rule_50};
ghost use Rattle.block_layout.specs.Types.{Types};

use crate::excess::least_longer;
use plc_base::Refusal;
use stl_ast::Block;

/// The most bytes of local data.
pub(crate) const MOST_LOCAL: u64 = 1024;

/// The least refusal by rule 50.
#[tactic(auto, unfolding(crate::specs::Rule50::rule_50))]
pub(crate) fn least_too_much_local(lens: &[u64], blocks: &[Block]) -> Option<Refusal>
    ensures { (y : Types) → lens.now ≡ map (local_len y) blocks.now
        → result ≡ least (rule_50 y blocks.now) }
{
    least_longer(lens, MOST_LOCAL, 50, blocks)
}
