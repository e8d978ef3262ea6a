//! The text of a chain.
ghost use Rattle.std.specs.Prelude.{◌≡◌, ◌≤◌, ◌++◌, length, OnOk};
ghost use Rattle.std.specs.List.{flat_map};
ghost use Rattle.stack_bound.specs.ChainText.{behind_text, block_text, blocks_text, chain_text};

use monitor::{Line, kind_text};
use plc_base::{BlockId, NoMemory};

/// A block behind some text.
fn block_behind(text: &[u8], block: BlockId) -> Line
    requires { length text.now ≤ 2 }
    ensures { result ≡ text.now ++ block_text block }
{
    let mut line = Line::new();
    line.add(text);
    line.add(kind_text(block.kind));
    line.add(b" ");
    line.add_number(u64::from(block.number));
    line
}

/// Appends blocks that stand behind another one.
fn write_behind(blocks: &[BlockId], out: &mut Vec<u8>) -> Result<(), NoMemory>
    ensures { OnOk result (out.new.items ≡ out.old.items ++ flat_map behind_text blocks.now) }
{
    let mut left = blocks;
    while let [block, rest @ ..] = left {
        block_behind(b", ", *block).append_to(out)?;
        left = rest;
    }
    Ok(())
}

/// Appends blocks, each but the first behind a comma.
fn write_blocks(blocks: &[BlockId], out: &mut Vec<u8>) -> Result<(), NoMemory>
    ensures { OnOk result (out.new.items ≡ out.old.items ++ blocks_text blocks.now) }
{
    let [first, rest @ ..] = blocks else {
        return Ok(());
    };
    block_behind(b"", *first).append_to(out)?;
    write_behind(rest, out)
}

/// Appends the line of a chain: `chain: KIND n, KIND n ..`.
#[tactic(auto, unfolding(crate::specs::ChainText::chain_text))]
pub fn write_chain(chain: &[BlockId], out: &mut Vec<u8>) -> Result<(), NoMemory>
    ensures { OnOk result (out.new.items ≡ out.old.items ++ chain_text chain.now) }
{
    out.extend_from_slice(b"chain: ")?;
    write_blocks(chain, out)?;
    out.extend_from_slice(b"\n")
}
