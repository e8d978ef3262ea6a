ghost use Rattle.std.specs.Prelude.{◌≡◌, ◌++◌, IfOk, OnOk};
ghost use Rattle.stl_print.specs.Trees.{end_of_text, printed_text};

use crate::blocks::append_blocks;
use plc_base::NoMemory;
use std::alloc::Global;
use stl_ast::{Block, Tree};

/// Appends the end of the last line, where there is one.
fn append_last_end(blocks: &[Block], out: &mut Vec<u8>) -> Result<(), NoMemory>
    ensures { OnOk result (out.new.items ≡ out.old.items ++ end_of_text blocks.now) }
{
    match blocks {
        [] => Ok(()),
        [_, ..] => out.extend_from_slice(b"\n"),
    }
}

/// A tree as text: each clause on its line where the text hasn't reached that yet, and else behind
/// one blank; other lines are empty, and the last one ends with its line end. A tree without blocks
/// is the empty text.
///
/// # Errors
///
/// `NoMemory` for want of memory.
pub fn print(alloc: Global, tree: &Tree) -> Result<Vec<u8>, NoMemory>
    ensures { IfOk result (λ text. text.items ≡ printed_text tree.now) }
{
    let blocks = tree.blocks.as_slice();
    let mut text = Vec::new(alloc);
    append_blocks(blocks, 0, &mut text)?;
    append_last_end(blocks, &mut text)?;
    Ok(text)
}
