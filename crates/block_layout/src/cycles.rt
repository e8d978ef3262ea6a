ghost use Rattle.std.specs.Prelude.{◌≡◌, IfOk, map, length, List, get_or, false, []};
ghost use Rattle.block_layout.specs.Heads.{breach_flags};
ghost use Rattle.block_layout.specs.Types.{Types};
ghost use Rattle.std.specs.List.{flat_map};
ghost use Rattle.stl_ast.specs.declared.blocks.Block.{Block};
ghost use Rattle.block_layout.specs.Rule43.{contains_itself, if_some, leads_to, types_used_by};
ghost use Rattle.block_layout.specs.Cycles.{with_uses_marked, uses_of_all, with_mark, with_marks};

use crate::types::Types;
use plc_base::BlockKind;
use std::alloc::{AllocError, Global};
use stl_ast::{Block, Declaration, ElementType};

/// The data type that an element type uses.
fn type_used_by(types: &Types, of: &ElementType) -> Option<usize>
    ensures { if_some result ≡ types_used_by types.now of.now }
{
    match of {
        ElementType::Udt { name } => types.data_type(name),
        _ => None,
    }
}

/// The data types that declarations use.
fn uses_of(
    alloc: Global,
    types: &Types,
    declarations: &[Declaration],
) -> Result<Vec<usize>, AllocError>
    ensures { IfOk result (λ v. v.items
        ≡ flat_map (λ d. types_used_by types.now d.of.of) declarations.now) }
{
    let mut uses = Vec::new(alloc);
    for declaration in declarations {
        if let Some(block) = type_used_by(types, &declaration.of.of) {
            uses.push(block)?;
        }
    }
    Ok(uses)
}

pub(crate) fn flag_at(flags: &[bool], place: usize) -> bool
    ensures { result ≡ get_or flags.now place false }
{
    if place < flags.len() {
        flags[place]
    } else {
        false
    }
}

/// The data types that each block uses.
pub(crate) fn all_uses(
    alloc: Global,
    types: &Types,
    blocks: &[Block],
) -> Result<Vec<Vec<usize>>, AllocError>
    ensures { IfOk result (λ v. map (λ u. u.items) v.items ≡ uses_of_all types.now blocks.now) }
{
    let mut all = Vec::with_capacity(alloc, blocks.len())?;
    for block in blocks {
        all.push(uses_of(alloc, types, block.components.as_slice())?)?;
    }
    Ok(all)
}

/// Marks a block and notes it, where it isn't marked yet.
fn mark(reached: &mut [bool], found: &mut Vec<usize>, block: usize) -> Result<(), AllocError>
    ensures { IfOk result (λ _. (reached.new, found.new.items)
        ≡ with_mark (reached.old, found.old.items) block) }
{
    if block < reached.len() && !reached[block] {
        found.push(block)?;
        reached[block] = true;
    }
    Ok(())
}

/// Marks blocks one behind the other, and notes those that weren't marked.
fn mark_all(
    reached: &mut [bool],
    found: &mut Vec<usize>,
    blocks: &[usize],
) -> Result<(), AllocError>
    ensures { IfOk result (λ _. (reached.new, found.new.items)
        ≡ with_marks (reached.old, found.old.items) blocks.now) }
{
    for block in blocks {
        mark(reached, found, *block)?;
    }
    Ok(())
}

/// Marks what some blocks use, and gives those that weren't marked.
fn next_uses(
    alloc: Global,
    uses: &[Vec<usize>],
    blocks: &[usize],
    reached: &mut [bool],
) -> Result<Vec<usize>, AllocError>
    ensures { IfOk result (λ found. (reached.new, found.items)
        ≡ with_uses_marked (map (λ u. u.items) uses.now) (reached.old, []) blocks.now) }
{
    let mut found = Vec::new(alloc);
    for block in blocks {
        if *block < uses.len() {
            mark_all(reached, &mut found, uses[*block].as_slice())?;
        }
    }
    Ok(found)
}

/// Whether uses lead from a block back to it: step by step, what is used by the blocks that the
/// step before has found.
pub(crate) fn leads_back(alloc: Global, uses: &[Vec<usize>], to: usize) -> Result<bool, AllocError>
    ensures { IfOk result (λ leads. (y : Types) (blocks : List Block)
        → map (λ u. u.items) uses.now ≡ uses_of_all y blocks
        → leads ≡ leads_to y blocks (length uses.now) to to) }
{
    let mut reached = vec![in alloc; false; uses.len()]?;
    let mut found = Vec::new(alloc);
    found.push(to)?;
    for step in 0..uses.len() {
        let next = next_uses(alloc, uses, found.as_slice(), reached.as_mut_slice())?;
        if next.is_empty() {
            return Ok(flag_at(&reached, to));
        }
        found = next;
    }
    Ok(flag_at(&reached, to))
}

/// Whether the block at a place is a data type that contains itself.
#[tactic(auto, using(crate::proofs::CycleLemmas::contains_by))]
fn contains_itself(
    alloc: Global,
    uses: &[Vec<usize>],
    place: usize,
    block: &Block,
) -> Result<bool, AllocError>
    ensures { IfOk result (λ contains. (y : Types) (blocks before : List Block)
        → map (λ u. u.items) uses.now ≡ uses_of_all y blocks → length before ≡ place
        → contains ≡ contains_itself y blocks before block.now) }
{
    match block.kind {
        BlockKind::Udt => leads_back(alloc, uses, place),
        _ => Ok(false),
    }
}

/// Of each block whether it is a data type that contains itself.
pub(crate) fn cycles(
    alloc: Global,
    types: &Types,
    blocks: &[Block],
) -> Result<Vec<bool>, AllocError>
    ensures { IfOk result (λ v. v.items
        ≡ breach_flags (contains_itself types.now blocks.now) [] blocks.now) }
{
    let uses = all_uses(alloc, types, blocks)?;
    let mut flags = Vec::with_capacity(alloc, blocks.len())?;
    for i in 0..blocks.len() {
        let flag = contains_itself(alloc, uses.as_slice(), i, &blocks[i])?;
        flags.push(flag)?;
    }
    Ok(flags)
}
