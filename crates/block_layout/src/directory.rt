ghost use Rattle.std.specs.Prelude.{◌≡◌, List, [], ◌∷◌, ◌++◌, IfOk};
ghost use Rattle.block_layout.specs.Blocks.{place_of_block, is_block_number, is_ob_number, known_block};
ghost use Rattle.block_layout.specs.BlockNumbers.{number_of_kind, numbered_place, numbers_of_kind};

use plc_base::{BlockId, BlockKind};
use std::alloc::{AllocError, Global};
use std::collections::BTreeMap;
use std::marker::Model;

/// The numbers of the blocks of one kind, at the places of these blocks. Contracts see the list.
#[derive(Drop)]
struct NumberedBlocks {
    list: Vec<Option<u16>>,
    places: BTreeMap<u16, usize>,
}

impl Model for NumberedBlocks {
    ghost use Rattle.std.specs.Prelude.{◌≡◌, ℕ, List, Option};
    ghost use Rattle.std.specs.BTreeMap.{get};
    ghost use Rattle.std.specs.Ordering.{nat_cmp};
    ghost use Rattle.block_layout.specs.BlockNumbers.{numbered_place};

    ghost Value = { List (Option ℕ) };

    ghost view = { λ n. n.list.items };

    ghost invariant = { λ n. (q : ℕ)
        → get nat_cmp n.places q ≡ numbered_place q n.list.items };
}

impl NumberedBlocks {
    fn new(alloc: Global) -> Self
        ensures { result ≡ [] }
    {
        NumberedBlocks {
            list: Vec::new(alloc),
            places: BTreeMap::new(alloc),
        }
    }

    /// The first place of a number.
    fn place(&self, number: u16) -> Option<usize>
        ensures { result ≡ numbered_place number self.now }
    {
        self.places.get(&number).copied()
    }

    /// Adds the place of a block of another kind.
    fn skip(&mut self) -> Result<(), AllocError>
        ensures ok { IfOk result (λ _. self.new ≡ self.old ++ None ∷ []) }
    {
        self.list.push(None)?;
        Ok(())
    }

    /// Adds the place of a block with this number.
    fn add(&mut self, number: u16) -> Result<(), AllocError>
        ensures ok { IfOk result (λ _. self.new ≡ self.old ++ Some number ∷ []) }
    {
        if self.places.contains_key(&number) {
            self.list.push(Some(number))?;
            return Ok(());
        }
        self.list.reserve(1)?;
        let place = self.list.len();
        self.places.insert(number, place)?;
        self.list.push(Some(number))?;
        Ok(())
    }
}

/// The number of a block, if it is of this kind.
fn number_of_kind(kind: BlockKind, id: Option<BlockId>) -> Option<u16>
    ensures { result ≡ number_of_kind kind id }
{
    match id {
        Some(id) if kind.is_same_kind(id.kind) => Some(id.number),
        _ => None,
    }
}

/// The numbers of the blocks of one kind.
fn numbers_of(
    alloc: Global,
    kind: BlockKind,
    ids: &[Option<BlockId>],
) -> Result<NumberedBlocks, AllocError>
    ensures { IfOk result (λ n. n ≡ numbers_of_kind kind ids.now) }
{
    let mut numbers = NumberedBlocks::new(alloc);
    for id in ids {
        match number_of_kind(kind, *id) {
            Some(number) => numbers.add(number)?,
            None => numbers.skip()?,
        }
    }
    Ok(numbers)
}

/// The blocks of a source by kind and number. Contracts see them in the order of the text.
#[derive(Drop)]
pub(crate) struct Directory {
    ids: Vec<Option<BlockId>>,
    organization_blocks: NumberedBlocks,
    functions: NumberedBlocks,
    function_blocks: NumberedBlocks,
    data_blocks: NumberedBlocks,
    data_types: NumberedBlocks,
    system_functions: NumberedBlocks,
}

impl Model for Directory {
    ghost use Rattle.std.specs.Prelude.{◌≡◌, List, Option};
    ghost use Rattle.plc_base.specs.declared.blocks.BlockId.{BlockId};
    ghost use Rattle.plc_base.specs.declared.blocks.BlockKind.TheVariants as kind;
    ghost use Rattle.block_layout.specs.BlockNumbers.{numbers_of_kind};

    ghost Value = { List (Option BlockId) };

    ghost view = { λ d. d.ids.items };

    ghost invariant = { λ d. (d.organization_blocks ≡ numbers_of_kind kind.Ob d.ids.items)
        × (d.functions ≡ numbers_of_kind kind.Fc d.ids.items)
        × (d.function_blocks ≡ numbers_of_kind kind.Fb d.ids.items)
        × (d.data_blocks ≡ numbers_of_kind kind.Db d.ids.items)
        × (d.data_types ≡ numbers_of_kind kind.Udt d.ids.items)
        × (d.system_functions ≡ numbers_of_kind kind.Sfc d.ids.items) };
}

impl Directory {
    pub(crate) fn new(alloc: Global, ids: Vec<Option<BlockId>>) -> Result<Self, AllocError>
        ensures { IfOk result (λ d. d ≡ ids.items) }
    {
        let all = ids.as_slice();
        let organization_blocks = numbers_of(alloc, BlockKind::Ob, all)?;
        let functions = numbers_of(alloc, BlockKind::Fc, all)?;
        let function_blocks = numbers_of(alloc, BlockKind::Fb, all)?;
        let data_blocks = numbers_of(alloc, BlockKind::Db, all)?;
        let data_types = numbers_of(alloc, BlockKind::Udt, all)?;
        let system_functions = numbers_of(alloc, BlockKind::Sfc, all)?;
        Ok(Directory {
            ids,
            organization_blocks,
            functions,
            function_blocks,
            data_blocks,
            data_types,
            system_functions,
        })
    }

    /// The blocks in the order of the text.
    pub(crate) fn ids(&self) -> &[Option<BlockId>]
        ensures { result.now ≡ self.now }
    {
        self.ids.as_slice()
    }

    fn numbers(&self, kind: BlockKind) -> &NumberedBlocks
        ensures { result.now ≡ numbers_of_kind kind self.now }
    {
        match kind {
            BlockKind::Ob => &self.organization_blocks,
            BlockKind::Fc => &self.functions,
            BlockKind::Fb => &self.function_blocks,
            BlockKind::Db => &self.data_blocks,
            BlockKind::Udt => &self.data_types,
            BlockKind::Sfc => &self.system_functions,
        }
    }

    /// The first place of a block.
    #[tactic(auto, using(crate::proofs::DirectoryLemmas::place_by_kind))]
    pub(crate) fn place(&self, id: BlockId) -> Option<usize>
        ensures { result ≡ place_of_block id self.now }
    {
        self.numbers(id.kind).place(id.number)
    }

    /// The place of the block of the source that is meant.
    pub(crate) fn known_block(&self, id: BlockId) -> Option<usize>
        ensures { result ≡ known_block id self.now }
    {
        if is_block_number(id.kind, id.number) {
            self.place(id)
        } else {
            None
        }
    }
}

fn is_ob_number(number: u16) -> bool
    ensures { result ≡ is_ob_number number }
{
    matches!(
        number,
        1 | 10..=17 | 20..=23 | 30..=38 | 40..=47 | 80 | 85 | 100 | 121 | 122
    )
}

/// Whether a block of this kind may have the number.
pub(crate) fn is_block_number(kind: BlockKind, number: u16) -> bool
    ensures { result ≡ is_block_number kind number }
{
    match kind {
        BlockKind::Ob => is_ob_number(number),
        BlockKind::Fc | BlockKind::Fb => number <= 2047,
        BlockKind::Db | BlockKind::Udt => number >= 1 && number <= 2047,
        BlockKind::Sfc => false,
    }
}
