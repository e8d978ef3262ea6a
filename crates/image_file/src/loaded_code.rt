ghost use Rattle.std.specs.Prelude.{◌≡◌, slice_get};

use crate::copies::params_again;
use crate::heads::CodeBlockHead;
use crate::loaded_blocks::LoadedBlock;
use crate::tables::NOWHERE;
use flat_code::{Op, Param, decode_op_unchecked, decode_part_unchecked};
use std::marker::Model;

/// The code of a loaded block, from whose bytes each op is decoded in place. It takes no memory.
#[derive(Drop)]
pub struct LoadedCode<'a> {
    bytes: &'a [u8],
    marks: &'a [u32],
    lines: &'a [u32],
    block: &'a LoadedBlock,
}

impl<'a> Model for LoadedCode<'a> {
    ghost use Rattle.flat_code.specs.Programs.{CodeBlock as CodeBlockData};
    ghost use Rattle.image_file.specs.Marks.{IsInPlace};

    ghost Value = { CodeBlockData };

    ghost view = { λ c. c.block.now };

    ghost invariant = { λ c. IsInPlace c.block.now c.bytes.now c.marks.now c.lines.now };
}

/// The mark of an offset.
#[inline(always)]
fn mark_at_offset(marks: &[u32], at: u32) -> Option<u32>
    ensures { result ≡ slice_get marks.now at }
{
    marks.get(at as usize).copied()
}

/// The line of the statement that a mark numbers. Other marks are past the end of the lines.
fn line_of_mark(lines: &[u32], mark: u32) -> Option<u32>
    ensures { result ≡ slice_get lines.now mark }
{
    lines.get(mark as usize).copied()
}

impl<'a> LoadedCode<'a> {
    ghost use Rattle.std.specs.Prelude.{◌≡◌, ◌≤◌, length, true};
    ghost use Rattle.flat_code.specs.PlacedOps.{op_placed, line_placed};
    ghost use Rattle.image_file.specs.Readers.{code_block_head};

    /// The code of a block.
    pub(crate) fn new(block: &'a LoadedBlock) -> Self
        ensures { result ≡ block.now }
    {
        LoadedCode {
            bytes: block.bytes.as_slice(),
            marks: block.marks.as_slice(),
            lines: block.lines.as_slice(),
            block,
        }
    }

    /// What the block's head says.
    pub fn head(&self) -> CodeBlockHead
        ensures { result ≡ code_block_head self.now }
    {
        let block = self.block;
        CodeBlockHead {
            local_len: block.local_len,
            instance_len: block.instance_len,
            statements: self.lines.len() as u16,
            code_len: self.bytes.len() as u32,
            params: params_again(&block.params),
        }
    }

    /// The op that begins at an offset in bytes, and the offset after it. `None` exactly where no
    /// op begins there.
    #[inline(always)]
    pub fn op(&self, at: u32) -> Option<(Op, u32)>
        ensures { result ≡ op_placed 0 self.now.code at }
    {
        let mark = mark_at_offset(self.marks, at)?;
        if mark == NOWHERE {
            return None;
        }
        Some(decode_op_unchecked(self.bytes, at))
    }

    /// The op that begins at an offset and the offset behind it, as `op` gives them, but faster for
    /// an op of a statement that has several.
    #[inline(always)]
    pub fn part(&self, at: u32) -> Option<(Op, u32)>
        ensures { result ≡ op_placed 0 self.now.code at }
    {
        let mark = mark_at_offset(self.marks, at)?;
        if mark == NOWHERE {
            return None;
        }
        Some(decode_part_unchecked(self.bytes, at))
    }

    /// The source line of the statement that begins at an offset in bytes. `None` exactly where no
    /// statement begins there.
    pub fn line(&self, at: u32) -> Option<u32>
        ensures { result ≡ line_placed 0 true self.now.code self.now.lines at }
    {
        let mark = mark_at_offset(self.marks, at)?;
        line_of_mark(self.lines, mark)
    }

    /// How many bytes the block's local data has.
    pub fn local_len(&self) -> u16
        ensures { result ≡ self.now.local_len }
    {
        let block = self.block;
        block.local_len
    }

    /// How many bytes an instance of the block has.
    pub fn instance_len(&self) -> u16
        ensures { result ≡ self.now.instance_len }
    {
        let block = self.block;
        block.instance_len
    }

    /// The block's parameters, sixty at most.
    pub fn params(&self) -> &'a [Param]
        ensures value { result.now ≡ self.now.params }
        ensures few { length result.now ≤ 60 }
    {
        let block = self.block;
        block.params.as_slice()
    }
}
