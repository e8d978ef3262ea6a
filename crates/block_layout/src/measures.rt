ghost use Rattle.std.specs.Prelude.{◌≡◌, ◌≤◌, IfOk, map, [], max, true};
ghost use Rattle.plc_base.specs.Kinds.{is_data_type};
ghost use Rattle.stl_ast.specs.declared.blocks.PartKind.TheVariants as part;
ghost use Rattle.block_layout.specs.Around.{of_structure};
ghost use Rattle.block_layout.specs.Blocks.{ids_of};
ghost use Rattle.block_layout.specs.Cells.{cells_of};
ghost use Rattle.block_layout.specs.Measures.{
  bits_after,
  capped_depth,
  deepest_nesting,
  depths_after,
  type_bits,
  type_depth,
  types_of_source,
  unmeasured_types,
  with_all_bits,
  with_all_depths,
  with_bits,
  with_depths,
};
ghost use Rattle.block_layout.specs.Sizes.{structure_bits};
ghost use Rattle.block_layout.specs.DeclarationFacts.{greatest_reach};

use crate::declaration_facts::DeclarationFacts;
use crate::directory::Directory;
use crate::making::add_cells;
use crate::sections::structure_facts;
use crate::sizes::{elements, structure_bits};
use crate::types::{Types, ids_of};
use plc_base::BlockKind;
use std::alloc::{AllocError, Global};
use stl_ast::{Block, PartKind};
use stl_symbols::Symbols;

/// How many rounds settle the data types of a source.
pub(crate) const ROUNDS: u32 = 9;

/// The deepest place of a structure with these components.
#[tactic(auto, using(crate::proofs::MeasureLemmas::reaches_floor))]
fn deepest(all_facts: &[DeclarationFacts]) -> u64
    ensures { result ≡ greatest_reach all_facts.now }
{
    let mut deepest = 1;
    for facts in all_facts {
        let reach = facts.reach as u64;
        if reach > deepest {
            deepest = reach;
        }
    }
    deepest
}

/// How deep a block is as a user-defined data type, at most 9.
#[tactic(auto, unfolding(crate::specs::Measures::type_depth), using(crate::proofs::MeasureLemmas::deepest_reach))]
fn type_depth(alloc: Global, types: &Types, block: &Block) -> Result<u64, AllocError>
    ensures { IfOk result (λ n. n ≡ type_depth types.now block.now) }
{
    match block.kind {
        BlockKind::Udt => {
            let all_facts = structure_facts(alloc, types, block)?;
            Ok(deepest(&all_facts))
        }
        _ => Ok(0),
    }
}

/// The bits of the structure of a block.
#[tactic(auto, using(crate::proofs::CellLemmas::cells_begun))]
fn own_bits(alloc: Global, types: &Types, block: &Block) -> Result<u64, AllocError>
    ensures { IfOk result (λ n. n
        ≡ structure_bits (cells_of types.now of_structure part.Static [] block.now.components)) }
{
    let declarations = block.components.as_slice();
    let all_facts = structure_facts(alloc, types, block)?;
    let mut cells = Vec::with_capacity(alloc, declarations.len())?;
    add_cells(
        alloc,
        types,
        PartKind::Static,
        true,
        declarations,
        &all_facts,
        &mut cells,
    )?;
    let elements = elements(alloc, &cells)?;
    Ok(structure_bits(&cells, &elements))
}

/// The bits of a block as a user-defined data type.
#[tactic(auto, unfolding(crate::specs::Measures::type_bits))]
fn type_bits(alloc: Global, types: &Types, block: &Block) -> Result<u64, AllocError>
    ensures { IfOk result (λ n. n ≡ type_bits types.now block.now) }
{
    match block.kind {
        BlockKind::Udt => own_bits(alloc, types, block),
        _ => Ok(0),
    }
}

/// The depths of all blocks, by those of the round before.
fn next_depths(alloc: Global, types: &Types, blocks: &[Block]) -> Result<Vec<u64>, AllocError>
    ensures { IfOk result (λ v. v.items ≡ map (type_depth types.now) blocks.now) }
{
    let mut depths = Vec::with_capacity(alloc, blocks.len())?;
    for block in blocks {
        depths.push(type_depth(alloc, types, block)?)?;
    }
    Ok(depths)
}

/// The bits of all blocks, by those of the round before.
fn next_bits(alloc: Global, types: &Types, blocks: &[Block]) -> Result<Vec<u64>, AllocError>
    ensures { IfOk result (λ v. v.items ≡ map (type_bits types.now) blocks.now) }
{
    let mut bits = Vec::with_capacity(alloc, blocks.len())?;
    for block in blocks {
        bits.push(type_bits(alloc, types, block)?)?;
    }
    Ok(bits)
}

fn with_depths<'a>(types: Types<'a>, depths: Vec<u64>) -> Types<'a>
    ensures { result ≡ with_depths types.entry depths.items }
{
    let Types {
        symbols,
        directory,
        bits,
        ..
    } = types;
    Types {
        symbols,
        directory,
        depths,
        bits,
    }
}

fn with_bits<'a>(types: Types<'a>, bits: Vec<u64>) -> Types<'a>
    ensures { result ≡ with_bits types.entry bits.items }
{
    let Types {
        symbols,
        directory,
        depths,
        ..
    } = types;
    Types {
        symbols,
        directory,
        depths,
        bits,
    }
}

fn zeros(alloc: Global, blocks: &[Block]) -> Result<Vec<u64>, AllocError>
    ensures { IfOk result (λ v. v.items ≡ map (λ b. 0) blocks.now) }
{
    let mut zeros = Vec::with_capacity(alloc, blocks.len())?;
    for block in blocks {
        let _line = block.line;
        zeros.push(0)?;
    }
    Ok(zeros)
}

/// Whether a round gave what the one before it gave.
fn are_same(given: &[u64], before: &[u64]) -> bool
    ensures { result ≡ true → given.now ≡ before.now }
{
    given == before
}

/// The types with their depths; a round that changes nothing is the last one.
#[tactic(auto, unfolding(crate::specs::Measures::with_all_depths))]
fn with_all_depths<'a>(
    alloc: Global,
    types: Types<'a>,
    blocks: &[Block],
) -> Result<Types<'a>, AllocError>
    ensures { IfOk result (λ y. y ≡ with_all_depths types.entry blocks.now) }
{
    let mut types = with_depths(types, zeros(alloc, blocks)?);
    for round in 0..ROUNDS {
        let depths = next_depths(alloc, &types, blocks)?;
        if are_same(&depths, &types.depths) {
            return Ok(types);
        }
        types = with_depths(types, depths);
    }
    Ok(types)
}

/// The types with their bits; a round that changes nothing is the last one.
#[tactic(auto, unfolding(crate::specs::Measures::with_all_bits))]
fn with_all_bits<'a>(
    alloc: Global,
    types: Types<'a>,
    blocks: &[Block],
) -> Result<Types<'a>, AllocError>
    ensures { IfOk result (λ y. y ≡ with_all_bits types.entry blocks.now) }
{
    let mut types = with_bits(types, zeros(alloc, blocks)?);
    for round in 0..ROUNDS {
        let bits = next_bits(alloc, &types, blocks)?;
        if are_same(&bits, &types.bits) {
            return Ok(types);
        }
        types = with_bits(types, bits);
    }
    Ok(types)
}

/// What the declarations of a source are checked by.
#[tactic(auto, unfolding(crate::specs::Measures::types_of_source))]
pub(crate) fn types_of<'a>(
    alloc: Global,
    symbols: &'a Symbols,
    blocks: &[Block],
) -> Result<Types<'a>, AllocError>
    ensures { IfOk result (λ y. y ≡ types_of_source symbols.now blocks.now) }
{
    let ids = ids_of(alloc, symbols, blocks)?;
    let types = Types {
        symbols,
        directory: Directory::new(alloc, ids)?,
        depths: Vec::new(alloc),
        bits: Vec::new(alloc),
    };
    let types = with_all_depths(alloc, types, blocks)?;
    with_all_bits(alloc, types, blocks)
}
