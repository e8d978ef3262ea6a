ghost use Rattle.std.specs.Prelude.{◌≡◌, IfOk, map};
ghost use Rattle.plc_base.specs.Least.{least};
ghost use Rattle.block_layout.specs.Facts.{outline_of};
ghost use Rattle.block_layout.specs.Rule21.{rule_21};
ghost use Rattle.block_layout.specs.Rule56.{rule_56};

use crate::layouts::Layout;
use crate::sections::{BlockCells, declarations_of};
use crate::types::Types;
use plc_base::{Refusal, lesser};
use std::alloc::{AllocError, Global};
use stl_ast::Block;

/// The declarations of a block, laid out.
#[derive(Drop)]
pub(crate) struct Outline {
    pub(crate) components: Layout,
    pub(crate) temps: Layout,
}

/// The declarations of all blocks, laid out, and the least refusals by names that stand twice and
/// by types nested too deep.
#[derive(Drop)]
pub(crate) struct Outlines {
    pub(crate) list: Vec<Outline>,
    pub(crate) twice: Option<Refusal>,
    pub(crate) deep: Option<Refusal>,
}

/// The declarations of the blocks of a source.
#[tactic(auto, unfolding(crate::specs::Rule21::rule_21, crate::specs::Rule56::rule_56))]
pub(crate) fn outline_all(
    alloc: Global,
    types: &Types,
    blocks: &[Block],
) -> Result<Outlines, AllocError>
    ensures list { IfOk result (λ o. o.list.items ≡ map (outline_of types.now) blocks.now) }
    ensures twice { IfOk result (λ o. o.twice ≡ least (rule_21 blocks.now)) }
    ensures deep { IfOk result (λ o. o.deep ≡ least (rule_56 types.now blocks.now)) }
{
    let mut list = Vec::with_capacity(alloc, blocks.len())?;
    let mut twice = None;
    let mut deep = None;
    for block in blocks {
        let made = declarations_of(alloc, types, block)?;
        twice = lesser(twice, made.twice);
        deep = lesser(deep, made.deep);
        let BlockCells {
            components,
            temps,
            ..
        } = made;
        list.push(Outline {
            components: Layout::new(alloc, components)?,
            temps: Layout::new(alloc, temps)?,
        })?;
    }
    Ok(Outlines { list, twice, deep })
}
