//! The table by which a block is found without a search.
ghost use Rattle.std.specs.Prelude.{◌≡◌, ◌≤◌, length, slice_index_or, ◌<◌, IfSome, IfOk};
ghost use Rattle.std.specs.Option.{option_map};
ghost use Rattle.image_file.specs.Tables.{slot_of, slots, FindsBlocks};

use crate::loaded_blocks::LoadedBlock;
use plc_base::{BlockId, NoMemory};
use std::alloc::Global;

/// How many places the table has: 2,048 for each of OB, FC and FB.
pub(crate) const SLOTS: usize = 6144;

/// The place in the table for no block: it is past the end of each list.
const NO_BLOCK: u16 = 0xFFFF;

/// The place of a block in the table.
pub(crate) fn slot_of(block: BlockId) -> Option<usize>
    ensures slot { result ≡ slot_of block }
    ensures small { IfSome result (λ slot. slot < slots) }
{
    if !block.kind.is_code() || block.number >= 2048 {
        return None;
    }
    Some(2048 * usize::from(block.kind.order()) + usize::from(block.number))
}

/// The kind and number of a block.
pub(crate) fn id_of(block: &LoadedBlock) -> BlockId
    ensures { result ≡ block.now.id }
{
    block.id
}

/// By its place in the table, where a block stands in a list.
pub(crate) fn block_table(alloc: Global, blocks: &[LoadedBlock]) -> Result<Vec<u16>, NoMemory>
    requires { length blocks.now ≤ 0xFFFF }
    ensures { IfOk result (λ v. FindsBlocks blocks.now v.items) }
{
    let mut table = vec![in alloc; NO_BLOCK; SLOTS]?;
    for i in (0..blocks.len()).rev() {
        if let Some(slot) = slot_of(id_of(&blocks[i])) {
            table[slot] = i as u16;
        }
    }
    Ok(table)
}

/// Where in its list a block stands by a table.
pub(crate) fn index_in_table(table: &[u16], block: BlockId) -> Option<usize>
    requires { length table.now ≡ slots }
    ensures { result ≡ option_map (λ slot. slice_index_or table.now slot 0) (slot_of block) }
{
    let slot = slot_of(block)?;
    Some(usize::from(table[slot]))
}
