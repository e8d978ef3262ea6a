ghost use Rattle.std.specs.Prelude.{◌≡◌};
ghost use Rattle.stl_types.specs.Bodies.{first_context};
ghost use Rattle.stl_types.specs.Context.{
  data_number,
  data_place,
  in_function,
  number_of_block,
  whole_data_place,
  whole_place,
};

use block_layout::Layouts;
use plc_base::{BlockId, BlockKind};
use std::marker::Model;
use stl_ast::{BlockName, Tree};
use stl_symbols::Symbols;

/// What the operands of a body are resolved by: the symbols, the source with its layouts, and the
/// place of the block that has the body.
#[derive(Drop)]
pub struct Context<'a> {
    symbols: &'a Symbols,
    tree: &'a Tree,
    layouts: &'a Layouts,
    block: usize,
}

impl<'a> Model for Context<'a> {
    ghost use Rattle.stl_types.specs.Context.{Context};

    ghost Value = { Context };

    ghost view = { λ s. record {
      symbols = s.symbols.now;
      blocks = s.tree.now.blocks;
      layouts = s.layouts.now;
      block = s.block;
    } };
}

fn number_of_block(id: Option<BlockId>) -> Option<u16>
    ensures { result ≡ number_of_block id }
{
    match id {
        None => None,
        Some(id) => Some(id.number),
    }
}

impl<'a> Context<'a> {
    /// The context of the body of the first block.
    pub fn new(symbols: &'a Symbols, tree: &'a Tree, layouts: &'a Layouts) -> Context<'a>
        ensures { result ≡ first_context symbols.now layouts.now tree.now.blocks }
    {
        Context {
            symbols,
            tree,
            layouts,
            block: 0,
        }
    }

    /// The context of the body of the block at this place.
    pub fn at(&self, block: usize) -> Context<'a>
        ensures { result ≡ record self.now { block = block } }
    {
        Context {
            symbols: self.symbols,
            tree: self.tree,
            layouts: self.layouts,
            block,
        }
    }

    /// The symbols.
    pub fn symbols(&self) -> &'a Symbols
        ensures { result.now ≡ self.now.symbols }
    {
        self.symbols
    }

    /// The source.
    pub fn tree(&self) -> &'a Tree
        ensures { result.now.blocks ≡ self.now.blocks }
    {
        self.tree
    }

    /// The layouts of its blocks.
    pub fn layouts(&self) -> &'a Layouts
        ensures { result.now ≡ self.now.layouts }
    {
        self.layouts
    }

    /// The place of the block that has the body.
    pub fn block(&self) -> usize
        ensures { result ≡ self.now.block }
    {
        self.block
    }

    /// The place of a block of the source that breaks no rule itself.
    pub(crate) fn whole_place(&self, id: BlockId) -> Option<usize>
        ensures { result ≡ whole_place self.now id }
    {
        let place = self.layouts.place(id)?;
        self.layouts.if_whole(place)
    }

    /// The place of the data block that a name means.
    pub(crate) fn data_place(&self, name: &BlockName) -> Option<usize>
        ensures { result ≡ data_place self.now name.now }
    {
        self.layouts.data_block(self.symbols, name)
    }

    /// The place of the data block that a name means, where the block breaks no rule itself.
    pub(crate) fn whole_data_place(&self, name: &BlockName) -> Option<usize>
        ensures { result ≡ whole_data_place self.now name.now }
    {
        let place = self.data_place(name)?;
        self.layouts.if_whole(place)
    }

    /// The number of the data block that a name means, where it breaks no rule itself.
    pub(crate) fn data_number(&self, name: &BlockName) -> Option<u16>
        ensures { result ≡ data_number self.now name.now }
    {
        let place = self.data_place(name)?;
        let layout = self.layouts.whole_at(place)?;
        number_of_block(layout.id)
    }

    /// Whether the body is that of a function.
    pub(crate) fn in_function(&self) -> bool
        ensures { result ≡ in_function self.now }
    {
        match self.tree.blocks.as_slice().get(self.block) {
            None => false,
            Some(block) => matches!(block.kind, BlockKind::Fc),
        }
    }
}
