ghost use Rattle.std.specs.Prelude.{◌≡◌, ◌+◌, ◌-◌, ◌^◌, ◌&&◌, ℕ, map, min, nat_lt, if◌then◌else◌};
ghost use Rattle.plc_base.specs.Kinds.{is_data_block};
ghost use Rattle.plc_base.specs.Least.{least};
ghost use Rattle.block_layout.specs.Lengths.{length_of_block};
ghost use Rattle.block_layout.specs.Rule54.{rule_54};
ghost use Rattle.block_layout.specs.Types.{Types};

use crate::declarations::number_at;
use plc_base::{Refusal, broken_if, lesser};
use stl_ast::Block;

/// The most bytes of all data blocks together.
const MOST_TOGETHER: u64 = 2_097_152;

/// How much a block adds to the length of all data blocks.
pub(crate) fn data_len(block: &Block, len: u64) -> u64
    ensures { result ≡ (if is_data_block block.now.kind then len else 0) }
{
    if block.kind.is_data_block() { len } else { 0 }
}

/// Whether a block is a data block with which the data blocks together are too long.
pub(crate) fn exceeds(block: &Block, before: u64, len: u64) -> bool
    ensures { (sum : ℕ) → before ≡ min sum (2 ^ 64 - 1)
        → result ≡ (is_data_block block.now.kind && nat_lt 2097152 (sum + len)) }
{
    block.kind.is_data_block() && before.saturating_add(len) > MOST_TOGETHER
}

/// The least refusal by rule 54.
#[tactic(auto, unfolding(crate::specs::Rule54::rule_54))]
pub(crate) fn least_exceeding(lens: &[u64], blocks: &[Block]) -> Option<Refusal>
    ensures { (y : Types) → lens.now ≡ map (length_of_block y blocks.now) blocks.now
        → result ≡ least (rule_54 y blocks.now) }
{
    let mut found = None;
    let mut before = 0;
    for (place, block) in blocks.iter().enumerate() {
        let len = data_len(block, number_at(lens, place));
        let is_exceeding = exceeds(block, before, len);
        found = lesser(found, broken_if(is_exceeding, block.line, 54));
        before = before.saturating_add(len);
    }
    found
}
