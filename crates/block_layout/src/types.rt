ghost use Rattle.std.specs.Prelude.{◌≡◌, IfOk};
ghost use Rattle.plc_base.specs.Kinds.{is_data_block};
ghost use Rattle.block_layout.specs.Blocks.{found_block, has_structure, id_of, ids_of, named_block};
ghost use Rattle.block_layout.specs.Types.{data_type_place};

use crate::directory::Directory;
use plc_base::{BlockId, BlockKind};
use std::alloc::{AllocError, Global};
use std::marker::Model;
use stl_ast::{Block, BlockName};
use stl_symbols::{Symbols, Target};

/// The block that a name means: its number, or that of the symbol.
pub fn named_block(symbols: &Symbols, name: &BlockName) -> Option<BlockId>
    ensures { result ≡ named_block symbols.now name.now }
{
    match name {
        BlockName::Number { id } => Some(*id),
        BlockName::Quoted { name } => match symbols.lookup(name.as_bytes()) {
            Some(Target::Block { id }) => Some(id),
            _ => None,
        },
    }
}

/// Kind and number of a block of the source.
pub(crate) fn id_of(symbols: &Symbols, block: &Block) -> Option<BlockId>
    ensures { result ≡ id_of symbols.now block.now }
{
    let id = named_block(symbols, &block.name)?;
    if block.kind.is_same_kind(id.kind) {
        Some(id)
    } else {
        None
    }
}

/// The blocks of the source, by kind and number.
pub(crate) fn ids_of(
    alloc: Global,
    symbols: &Symbols,
    blocks: &[Block],
) -> Result<Vec<Option<BlockId>>, AllocError>
    ensures { IfOk result (λ ids. ids.items ≡ ids_of symbols.now blocks.now) }
{
    let mut ids = Vec::with_capacity(alloc, blocks.len())?;
    for block in blocks {
        ids.push(id_of(symbols, block))?;
    }
    Ok(ids)
}

/// What the declarations of a source are checked by: the symbols, the blocks by kind and number,
/// and for each block, as a user-defined data type, its depth, at most 9, and its bits.
#[derive(Drop)]
pub(crate) struct Types<'a> {
    pub(crate) symbols: &'a Symbols,
    pub(crate) directory: Directory,
    pub(crate) depths: Vec<u64>,
    pub(crate) bits: Vec<u64>,
}

impl<'a> Model for Types<'a> {
    ghost use Rattle.block_layout.specs.Types.{Types};

    ghost Value = { Types };

    ghost view = { λ y. record {
      symbols = y.symbols.now;
      ids = y.directory;
      depths = y.depths.items;
      bits = y.bits.items;
    } };
}

impl<'a> Types<'a> {
    /// The place of the user-defined data type that a name means.
    pub(crate) fn data_type(&self, name: &BlockName) -> Option<usize>
        ensures { result ≡ data_type_place self.now name.now }
    {
        let id = named_block(self.symbols, name)?;
        match id.kind {
            BlockKind::Udt => self.directory.known_block(id),
            _ => None,
        }
    }

    /// The data block of the source that a name means.
    pub(crate) fn data_block(&self, name: &BlockName) -> Option<usize>
        ensures { result ≡ found_block self.now.symbols self.now.ids is_data_block name.now }
    {
        let id = named_block(self.symbols, name)?;
        match id.kind {
            BlockKind::Db => self.directory.known_block(id),
            _ => None,
        }
    }

    /// The function block or data type of the source that a name means.
    pub(crate) fn structure_block(&self, name: &BlockName) -> Option<usize>
        ensures { result ≡ found_block self.now.symbols self.now.ids has_structure name.now }
    {
        let id = named_block(self.symbols, name)?;
        match id.kind {
            BlockKind::Fb | BlockKind::Udt => self.directory.known_block(id),
            _ => None,
        }
    }
}
