ghost use Rattle.std.specs.Prelude.{◌≡◌, ◌<◌, ◌≤◌, length, IfOk};
ghost use Rattle.flat_code.specs.Codes.{code_bytes};
ghost use Rattle.image_file.specs.Marks.{IsInPlace};
ghost use Rattle.image_file.specs.Tables.{HasSmallCode};

use crate::marks::bytes_and_marks;
use arrayvec::ArrayVec;
use flat_code::{CodeBlock, Param};
use plc_base::{BlockId, NoMemory};
use std::alloc::Global;
use std::marker::Model;

/// A code block as a loaded program has it: the bytes of its code, with a mark for each of them,
/// and the source lines of its statements.
#[derive(Drop)]
pub(crate) struct LoadedBlock {
    pub(crate) id: BlockId,
    pub(crate) local_len: u16,
    pub(crate) instance_len: u16,
    pub(crate) params: ArrayVec<Param, 60>,
    pub(crate) bytes: Vec<u8>,
    pub(crate) marks: Vec<u32>,
    pub(crate) lines: Vec<u32>,
}

impl Model for LoadedBlock {
    ghost use Rattle.flat_code.specs.Programs.{CodeBlock as CodeBlockData};
    ghost use Rattle.image_file.specs.Marks.{ops_of_bytes, IsInPlace};

    ghost Value = { CodeBlockData };

    ghost view = { λ b. record {
      id = b.id;
      local_len = b.local_len;
      instance_len = b.instance_len;
      params = b.params.items;
      code = ops_of_bytes b.bytes.items;
      lines = b.lines.items;
    } };

    ghost invariant = { λ b. IsInPlace (record {
      id = b.id;
      local_len = b.local_len;
      instance_len = b.instance_len;
      params = b.params.items;
      code = ops_of_bytes b.bytes.items;
      lines = b.lines.items;
    }) b.bytes.items b.marks.items b.lines.items };
}

impl LoadedBlock {
    /// Puts the code of a block in place.
    pub(crate) fn new(alloc: Global, block: CodeBlock) -> Result<Self, NoMemory>
        requires { HasSmallCode block }
        ensures { IfOk result (λ b. b ≡ block) }
    {
        let (bytes, marks) = bytes_and_marks(alloc, block.code.as_slice())?;
        Ok(LoadedBlock {
            id: block.id,
            local_len: block.local_len,
            instance_len: block.instance_len,
            params: block.params,
            bytes,
            marks,
            lines: block.lines,
        })
    }

    /// The bytes of the code.
    pub(crate) fn code(&self) -> &[u8]
        ensures { result.now ≡ code_bytes self.now.code }
    {
        self.bytes.as_slice()
    }
}
