ghost use Rattle.std.specs.Prelude.{◌≡◌, ◌<◌, ◌^◌, ◌-◌, ◌||◌, List, [], ◌∷◌};
ghost use Rattle.stl_ast.specs.declared.blocks.Block.{Block};
ghost use Rattle.block_layout.specs.Before.{IsBefore};
ghost use Rattle.block_layout.specs.Facts.{AreFactsOf};
ghost use Rattle.block_layout.specs.Layouts.{is_broken};
ghost use Rattle.block_layout.specs.Lengths.{length_of_block};
ghost use Rattle.block_layout.specs.Types.{Types};

use crate::rules::rule_22::is_block_twice;
use crate::rules::rule_23::has_unknown_head;
use crate::rules::rule_44::has_wrong_number;
use crate::rules::rule_50::MOST_LOCAL;
use crate::rules::rule_51::MOST_BYTES;
use crate::rules::rule_52::has_too_many_parameters;
use crate::rules::rule_53::{counted_data, is_one_too_many};
use crate::rules::rule_54::{data_len, exceeds};
use crate::rules::rule_55::has_too_many_statements;
use crate::types::Types;
use stl_ast::Block;

/// What stands before a block: how many blocks, how many of them are data blocks, and their bytes.
#[derive(Clone, Copy, Debug, PartialEq, Eq)]
pub(crate) struct BlocksBefore {
    pub(crate) blocks: usize,
    pub(crate) data_blocks: usize,
    pub(crate) bytes: u64,
}

/// What stands before the first block.
pub(crate) fn nothing_before() -> BlocksBefore
    ensures { (y : Types) (blocks : List Block) → IsBefore y blocks [] result }
{
    BlocksBefore {
        blocks: 0,
        data_blocks: 0,
        bytes: 0,
    }
}

/// What stands before the block behind this one.
pub(crate) fn with_block(before: BlocksBefore, block: &Block, len: u64) -> BlocksBefore
    requires blocks { before.blocks < 2 ^ 64 - 1 }
    requires data { before.data_blocks < 2 ^ 64 - 1 }
    ensures { (y : Types) (blocks some : List Block) → len ≡ length_of_block y blocks block.now
        → IsBefore y blocks some before → IsBefore y blocks (block.now ∷ some) result }
{
    BlocksBefore {
        blocks: before.blocks + 1,
        data_blocks: before.data_blocks + counted_data(block),
        bytes: before.bytes.saturating_add(data_len(block, len)),
    }
}

fn any_of_five(a: bool, b: bool, c: bool, d: bool, e: bool) -> bool
    ensures { result ≡ (a || b || c || d || e) }
{
    a || b || c || d || e
}

fn any_of_six(a: bool, b: bool, c: bool, d: bool, e: bool, f: bool) -> bool
    ensures { result ≡ (a || b || c || d || e || f) }
{
    any_of_five(a, b, c, d, e) || f
}

/// Whether a block breaks a rule as a whole: `in_itself` says that it is a data type that contains
/// itself, `local` is the length of its local data and `len` that of its structure.
pub(crate) fn is_broken(
    types: &Types,
    before: BlocksBefore,
    block: &Block,
    in_itself: bool,
    local: u64,
    len: u64,
) -> bool
    ensures { (blocks some : List Block)
        → AreFactsOf types.now blocks some block.now in_itself local len
        → IsBefore types.now blocks some before
        → result ≡ is_broken types.now blocks some block.now }
{
    let twice = is_block_twice(types, before.blocks, block);
    let unknown = has_unknown_head(types, block);
    let wrong_number = has_wrong_number(types.symbols, block);
    let parameters = has_too_many_parameters(block);
    let data_blocks = is_one_too_many(before.data_blocks, block);
    let together = exceeds(block, before.bytes, data_len(block, len));
    let statements = has_too_many_statements(block);
    let too_much_local = local > MOST_LOCAL;
    let too_long = len > MOST_BYTES;
    let first = any_of_five(twice, unknown, in_itself, wrong_number, too_much_local);
    any_of_six(
        first,
        too_long,
        parameters,
        data_blocks,
        together,
        statements,
    )
}
