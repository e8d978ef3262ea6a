ghost use Rattle.std.specs.Prelude.{◌≡◌, []};
ghost use Rattle.block_layout.specs.Heads.{breach_flags};
ghost use Rattle.block_layout.specs.Types.{Types};
ghost use Rattle.block_layout.specs.Rule43.{contains_itself, rule_43};
ghost use Rattle.plc_base.specs.Least.{least};

use crate::cycles::flag_at;
use plc_base::{Refusal, broken_if, lesser};
use stl_ast::Block;

/// The least refusal by rule 43, where it is known of each block whether it is a data type that
/// contains itself.
#[tactic(auto, unfolding(crate::specs::Rule43::rule_43))]
pub(crate) fn least_in_itself(in_itself: &[bool], blocks: &[Block]) -> Option<Refusal>
    ensures { (y : Types)
        → in_itself.now ≡ breach_flags (contains_itself y blocks.now) [] blocks.now
        → result ≡ least (rule_43 y blocks.now) }
{
    let mut found = None;
    for (place, block) in blocks.iter().enumerate() {
        let contains = flag_at(in_itself, place);
        found = lesser(found, broken_if(contains, block.line, 43));
    }
    found
}
