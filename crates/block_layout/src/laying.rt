ghost use Rattle.std.specs.Prelude.{◌≡◌, IfOk, List, length, map};
ghost use Rattle.std.specs.List.{slice_get};
ghost use Rattle.std.specs.Option.{option_copied};
ghost use Rattle.plc_base.specs.Least.{least};
ghost use Rattle.block_layout.specs.Blocks.{known_block};
ghost use Rattle.block_layout.specs.InitialBytes.{initial_bytes, length_at};
ghost use Rattle.block_layout.specs.Layouts.{LaysOut, layout_of, layouts_by, layouts_of};
ghost use Rattle.block_layout.specs.Offsets.{place_of_path};
ghost use Rattle.block_layout.specs.Table.{layout_refusals, refusals_of_blocks};

use crate::blocks::{BlockLayout, Section};
use crate::building::{facts_of, layouts_by};
use crate::directory::Directory;
use crate::filling::initial_bytes;
use crate::measures::types_of;
use crate::offsets::offset;
use crate::outlines::{Outlines, outline_all};
use crate::paths::Path;
use crate::refusals::least_refusal;
use crate::types::Types;
use plc_base::{BlockId, Place, Refusal, SourceFault, Width};
use std::alloc::{AllocError, Global};
use std::marker::Model;
use stl_ast::{Block, Tree};
use stl_symbols::Symbols;

/// The layouts of the blocks of a source. Contracts see them in the order of the text.
#[derive(Drop)]
pub struct Layouts {
    list: Vec<BlockLayout>,
    directory: Directory,
}

impl Model for Layouts {
    ghost use Rattle.std.specs.Prelude.{◌≡◌, List, map};
    ghost use Rattle.block_layout.specs.declared.blocks.BlockLayout.{BlockLayout};

    ghost Value = { List BlockLayout };

    ghost view = { λ l. l.list.items };

    ghost invariant = { λ l. l.directory ≡ map (λ b. b.id) l.list.items };
}

impl Layouts {
    fn new(list: Vec<BlockLayout>, directory: Directory) -> Self
        requires { directory ≡ map (λ b. b.id) list.items }
        ensures { result ≡ list.items }
    {
        Layouts { list, directory }
    }

    /// The layouts in the order of the text.
    pub fn list(&self) -> &[BlockLayout]
        ensures { result.now ≡ self.now }
    {
        self.list.as_slice()
    }

    /// The place of a block in the list: of several with its kind and number the first.
    pub fn place(&self, id: BlockId) -> Option<usize>
        ensures { result ≡ known_block id (map (λ b. b.id) self.now) }
    {
        self.directory.known_block(id)
    }

    fn at(&self, place: usize) -> Option<&BlockLayout>
        ensures { option_copied result ≡ slice_get self.now place }
    {
        if place < self.list.len() {
            Some(&self.list[place])
        } else {
            None
        }
    }

    /// The layout of a block, if the source has it.
    pub fn lookup(&self, id: BlockId) -> Option<&BlockLayout>
        ensures { option_copied result ≡ layout_of id self.now }
    {
        self.at(self.place(id)?)
    }

    /// The place and the width of the elementary component that a path in a block names.
    #[tactic(auto, unfolding(crate::specs::Offsets::place_of_path))]
    pub fn offset(&self, id: BlockId, section: Section, path: &Path) -> Option<(Place, Width)>
        ensures { result ≡ place_of_path self.now id section path.now }
    {
        offset(
            self.list.as_slice(),
            self.place(id),
            id,
            section,
            path.steps(),
        )
    }

    /// The initial bytes of the data block at this place of the list: its initial values, over
    /// which its settings are written. A block that breaks a rule has zeros.
    pub fn initial_bytes(
        &self,
        alloc: Global,
        tree: &Tree,
        place: usize,
    ) -> Result<Vec<u8>, AllocError>
        ensures value { IfOk result (λ v. v.items
            ≡ initial_bytes self.now tree.now.blocks place) }
        ensures len { IfOk result (λ v. length v.items ≡ length_at (slice_get self.now place)) }
    {
        initial_bytes(alloc, self.list.as_slice(), tree.blocks.as_slice(), place)
    }
}

/// The layouts of the blocks, and the least refusal.
#[derive(Drop)]
struct CheckedLayouts {
    layouts: Vec<BlockLayout>,
    refusal: Option<Refusal>,
}

/// The blocks laid out and checked.
fn check_layouts(
    alloc: Global,
    types: &Types,
    blocks: &[Block],
) -> Result<CheckedLayouts, AllocError>
    ensures layouts { IfOk result (λ j. j.layouts.items ≡ layouts_by types.now blocks.now) }
    ensures refusal { IfOk result (λ j. j.refusal
        ≡ least (refusals_of_blocks types.now (layouts_by types.now blocks.now) blocks.now)) }
{
    let Outlines { list, twice, deep } = outline_all(alloc, types, blocks)?;
    let facts = facts_of(alloc, types, blocks, list.as_slice())?;
    let layouts = layouts_by(alloc, types, blocks, list, &facts)?;
    let refusal = least_refusal(
        alloc,
        types,
        layouts.as_slice(),
        blocks,
        &facts,
        twice,
        deep,
    )?;
    Ok(CheckedLayouts { layouts, refusal })
}

/// The layouts of a source, and the least refusal by the rules that are checked with them.
#[derive(Drop)]
struct LayoutsWithRefusal {
    layouts: Layouts,
    refusal: Option<Refusal>,
}

/// The layouts of a source, and the least refusal.
#[tactic(auto, unfolding(crate::specs::Layouts::layouts_of, crate::specs::Table::layout_refusals))]
fn lay(alloc: Global, tree: &Tree, symbols: &Symbols) -> Result<LayoutsWithRefusal, AllocError>
    ensures layouts { IfOk result (λ laid. laid.layouts ≡ layouts_of tree.now symbols.now) }
    ensures refusal { IfOk result (λ laid. laid.refusal
        ≡ least (layout_refusals tree.now symbols.now)) }
{
    let blocks = tree.blocks.as_slice();
    let types = types_of(alloc, symbols, blocks)?;
    let CheckedLayouts { layouts, refusal } = check_layouts(alloc, &types, blocks)?;
    let Types { directory, .. } = types;
    Ok(LayoutsWithRefusal {
        layouts: Layouts::new(layouts, directory),
        refusal,
    })
}

/// The layouts of a source that breaks none of the rules on its layout.
///
/// # Errors
///
/// `Refused` with the least line and rule where it breaks one; else `NoMemory`.
pub fn lay_out(alloc: Global, tree: &Tree, symbols: &Symbols) -> Result<Layouts, SourceFault>
    ensures { LaysOut (least (layout_refusals tree.now symbols.now))
        (layouts_of tree.now symbols.now) result }
{
    let LayoutsWithRefusal { layouts, refusal } = lay(alloc, tree, symbols)?;
    match refusal {
        Some(refusal) => Err(SourceFault::Refused { refusal }),
        None => Ok(layouts),
    }
}

/// The layouts of all that breaks none of the rules on the layout: what breaks one is marked, and
/// takes no place.
///
/// # Errors
///
/// Want of memory.
pub fn lay_out_sound(alloc: Global, tree: &Tree, symbols: &Symbols) -> Result<Layouts, AllocError>
    ensures { IfOk result (λ l. l ≡ layouts_of tree.now symbols.now) }
{
    let LayoutsWithRefusal { layouts, .. } = lay(alloc, tree, symbols)?;
    Ok(layouts)
}
