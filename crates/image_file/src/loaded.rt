ghost use Rattle.std.specs.Prelude.{◌≡◌, ◌++◌, map, slice_get, IfOk};
ghost use Rattle.std.specs.Option.{option_map};
ghost use Rattle.image_file.specs.Readers.{block_by_id, data_block_id, data_bytes_of};
ghost use Rattle.image_file.specs.Tables.{AreSmall, FindsBlocks, HaveSlots};

use crate::block_table::{block_table, id_of, index_in_table};
use crate::copies::program_again;
use crate::heads::CodeBlockHead;
use crate::loaded_blocks::LoadedBlock;
use crate::loaded_code::LoadedCode;
use flat_code::{CodeBlock, DataBlock, Names, Op, Program};
use plc_base::{BlockId, BlockKind, NoMemory, Profile};
use std::alloc::Global;
use std::marker::Model;

/// A program that verifies, and the sizes of the controller that runs it: no field and no op of the
/// program has a fault, so no jump leaves the code, and no operand, bracket, zone, parameter or
/// called block is missing. The code of its blocks is kept as bytes. Blocks and ops are read
/// without a search.
#[derive(Drop)]
pub struct Loaded {
    blocks: Vec<LoadedBlock>,
    data_blocks: Vec<DataBlock>,
    names: Names,
    ids: Vec<BlockId>,
    table: Vec<u16>,
    profile: Profile,
}

impl Model for Loaded {
    ghost use Rattle.image_file.specs.LoadedProgram.{LoadedProgram, IsLoaded};

    ghost Value = { LoadedProgram };

    ghost view = { λ l. record {
      program = record {
        code_blocks = l.blocks.items;
        data_blocks = l.data_blocks.items;
        names = l.names;
      };
      profile = l.profile;
    } };

    ghost invariant = { λ l. IsLoaded (record {
      code_blocks = l.blocks.items;
      data_blocks = l.data_blocks.items;
      names = l.names;
    }) l.ids.items l.table.items };
}

/// Puts the code of blocks in place.
fn loaded_blocks(alloc: Global, blocks: Vec<CodeBlock>) -> Result<Vec<LoadedBlock>, NoMemory>
    requires { AreSmall blocks.items }
    ensures { IfOk result (λ v. v.items ≡ blocks.items) }
{
    let mut loaded = Vec::with_capacity(alloc, blocks.len())?;
    for block in blocks {
        loaded.push(LoadedBlock::new(alloc, block)?)?;
    }
    Ok(loaded)
}

/// The blocks of a program: code blocks, then data blocks.
fn ids_of(
    alloc: Global,
    code_blocks: &[LoadedBlock],
    data_blocks: &[DataBlock],
) -> Result<Vec<BlockId>, NoMemory>
    ensures { IfOk result (λ v. v.items
        ≡ map (λ b. b.id) code_blocks.now ++ map data_block_id data_blocks.now) }
{
    let mut ids = Vec::new(alloc);
    for block in code_blocks {
        ids.push(id_of(block))?;
    }
    for block in data_blocks {
        ids.push(data_id(block))?;
    }
    Ok(ids)
}

fn data_id(block: &DataBlock) -> BlockId
    ensures { result ≡ data_block_id block.now }
{
    BlockId {
        kind: BlockKind::Db,
        number: block.number,
    }
}

/// The block at a place of a list.
fn block_at_place(blocks: &[LoadedBlock], place: usize) -> Option<&LoadedBlock>
    ensures { option_map (λ b. b.now) result ≡ slice_get blocks.now place }
{
    blocks.get(place)
}

/// The block of a list that its table finds.
fn block_of<'a>(blocks: &'a [LoadedBlock], table: &[u16], block: BlockId) -> Option<&'a LoadedBlock>
    requires finds { FindsBlocks blocks.now table.now }
    requires slots { HaveSlots blocks.now }
    ensures { option_map (λ b. b.now) result ≡ block_by_id block blocks.now }
{
    let place = index_in_table(table, block)?;
    block_at_place(blocks, place)
}

/// The bytes of the data block of a number.
fn data_bytes_of(number: u16, blocks: &[DataBlock]) -> Option<&[u8]>
    ensures { option_map (λ d. d.now) result ≡ data_bytes_of number blocks.now }
{
    for block in blocks {
        if block.number == number {
            return Some(block.bytes.as_slice());
        }
    }
    None
}

impl Loaded {
    ghost use Rattle.std.specs.Prelude.{◌≡◌, IfOk};
    ghost use Rattle.std.specs.Option.{option_map};
    ghost use Rattle.flat_code.specs.Codes.{code_bytes};
    ghost use Rattle.flat_code.specs.Loading.{Verifies};
    ghost use Rattle.image_file.specs.Readers.{block_by_id, op_at_offset, line_at_offset, data_bytes_of, block_ids, code_block_head};

    /// Takes a program over that verifies.
    pub(crate) fn new(alloc: Global, program: Program, profile: Profile) -> Result<Self, NoMemory>
        requires { Verifies program }
        ensures { IfOk result (λ l. (l.program ≡ program) × (l.profile ≡ profile)) }
    {
        let Program {
            code_blocks,
            data_blocks,
            names,
        } = program;
        let blocks = loaded_blocks(alloc, code_blocks)?;
        let ids = ids_of(alloc, blocks.as_slice(), data_blocks.as_slice())?;
        let table = block_table(alloc, blocks.as_slice())?;
        Ok(Loaded {
            blocks,
            data_blocks,
            names,
            ids,
            table,
            profile,
        })
    }

    /// Nothing is done. The contract says that each loaded program verifies.
    pub fn law_of_verifying(&self)
        ensures { Verifies self.now.program }
    {
        let _ = &self.blocks;
    }

    /// The sizes of the controller that runs the program.
    pub fn profile(&self) -> Profile
        ensures { result ≡ self.now.profile }
    {
        self.profile
    }

    /// The same program with other sizes of the controller.
    pub fn with_profile(self, profile: Profile) -> Loaded
        ensures { result ≡ record self { profile = profile } }
    {
        let mut loaded = self;
        loaded.profile = profile;
        loaded
    }

    /// The names of the program's variables.
    pub fn names(&self) -> &Names
        ensures { result.now ≡ self.now.program.names }
    {
        &self.names
    }

    /// The blocks: code blocks, then data blocks, in the image's order.
    pub fn blocks(&self) -> &[BlockId]
        ensures { result.now ≡ block_ids self.now.program }
    {
        self.ids.as_slice()
    }

    /// A code block. `None` exactly where it isn't a loaded code block.
    pub fn block(&self, block: BlockId) -> Option<LoadedCode<'_>>
        ensures { result ≡ block_by_id block self.now.program.code_blocks }
    {
        let block = block_of(self.blocks.as_slice(), self.table.as_slice(), block)?;
        Some(LoadedCode::new(block))
    }

    /// The bytes of a block's code, as an image has them. `None` exactly where it isn't a loaded
    /// code block.
    pub fn code(&self, block: BlockId) -> Option<&[u8]>
        ensures { option_map (λ s. s.now) result
            ≡ option_map (λ b. code_bytes b.code)
            (block_by_id block self.now.program.code_blocks) }
    {
        let block = block_of(self.blocks.as_slice(), self.table.as_slice(), block)?;
        Some(block.code())
    }

    /// The head of a block. `None` exactly where it isn't a loaded code block.
    pub fn head(&self, block: BlockId) -> Option<CodeBlockHead>
        ensures { result
            ≡ option_map code_block_head (block_by_id block self.now.program.code_blocks) }
    {
        Some(self.block(block)?.head())
    }

    /// The op of a block that begins at an offset in bytes, and the offset after it. `None` exactly
    /// where no op of the block begins there.
    pub fn op(&self, block: BlockId, at: u32) -> Option<(Op, u32)>
        ensures { result ≡ op_at_offset block at self.now.program.code_blocks }
    {
        self.block(block)?.op(at)
    }

    /// The source line of the statement of a block that begins at an offset in bytes. `None`
    /// exactly where no statement of the block begins there.
    pub fn line(&self, block: BlockId, at: u32) -> Option<u32>
        ensures { result ≡ line_at_offset block at self.now.program.code_blocks }
    {
        self.block(block)?.line(at)
    }

    /// The bytes with which a data block begins. `None` exactly where there is none of the number.
    pub fn data_block(&self, number: u16) -> Option<&[u8]>
        ensures { option_map (λ d. d.now) result
            ≡ data_bytes_of number self.now.program.data_blocks }
    {
        data_bytes_of(number, self.data_blocks.as_slice())
    }

    /// The whole program, once more.
    pub fn program(&self, alloc: Global) -> Result<Program, NoMemory>
        ensures { IfOk result (λ p. p ≡ self.now.program) }
    {
        program_again(
            alloc,
            self.blocks.as_slice(),
            self.data_blocks.as_slice(),
            &self.names,
        )
    }
}
