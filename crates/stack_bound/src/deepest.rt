//! A chain that is too deep.
ghost use Rattle.std.specs.Prelude.{◌≡◌, suc, IfOk};
ghost use Rattle.plc_base.specs.Profiles.{most_frames};
ghost use Rattle.plc_base.specs.declared.blocks.BlockKind.TheVariants.{Ob};
ghost use Rattle.image_file.specs.Readers.{block_ids};
ghost use Rattle.stack_bound.specs.Deepest.{IsMostCalled, IsLoadedObOver, better_callee, first_over, is_chain_too_deep, measure_over, ob_over};
ghost use Rattle.stack_bound.specs.Finding.{IsDeepChain};
ghost use Rattle.stack_bound.specs.Layers.{layer_of_height, limit_of_measure, measure_in_layer};

use crate::calls::callee_of_op;
use crate::certificates::{Bound, Bounds};
use crate::layers::measure_in_layer;
use crate::measures::{MOST_LOCAL_BYTES, Measure};
use flat_code::Op;
use image_file::{Loaded, LoadedCode};
use plc_base::{BlockId, BlockKind, NoMemory, Profile};
use std::alloc::Global;

/// A called block, and what a layer says of it.
#[derive(Clone, Copy)]
struct Best {
    block: Option<BlockId>,
    most: u32,
}

/// An organization block that is above the limits, and in which measure.
#[derive(Clone, Copy)]
pub(crate) struct Over {
    block: BlockId,
    measure: Measure,
}

/// What an op calls, where a layer says more of it.
fn better(measure: Measure, layer: &Bounds<'_>, best: &Best, op: &Op) -> Best
    ensures { result ≡ better_callee measure layer.now best.now op.now }
{
    let block = callee_of_op(op);
    let most = measure_in_layer(measure, layer, block);
    if best.most < most {
        Best { block, most }
    } else {
        *best
    }
}

/// A called block of which a layer says most; `None` where it says nothing of any.
#[tactic(auto, using(crate::proofs::WalkLemmas::walk_goes_on, crate::proofs::WalkLemmas::walk_ends, crate::proofs::WalkLemmas::all_behind, crate::proofs::DeepestLemmas::best_called))]
fn block_most_called(measure: Measure, layer: &Bounds<'_>, code: &LoadedCode<'_>) -> Option<BlockId>
    ensures { IsMostCalled measure layer.now code.now.code result }
{
    let mut best = Best {
        block: None,
        most: 0,
    };
    let mut at = 0;
    while let Some((op, next)) = code.op(at) {
        best = better(measure, layer, &best, &op);
        at = next;
    }
    best.block
}

/// In which measure a bound is above the limits.
fn measure_over(profile: Profile, b: Option<Bound>) -> Option<Measure>
    ensures { result ≡ measure_over profile b }
{
    let b = b?;
    if b.depth > Measure::Depth.limit(profile) {
        return Some(Measure::Depth);
    }
    if b.bytes > Measure::Bytes.limit(profile) {
        return Some(Measure::Bytes);
    }
    None
}

/// In which measure the bound of a block is above the limits, if the block is an organization block.
fn ob_over(profile: Profile, layer: &Bounds<'_>, block: BlockId) -> Option<Measure>
    ensures { result ≡ ob_over profile layer.now block }
{
    if matches!(block.kind, BlockKind::Ob) {
        measure_over(profile, layer.of(block))
    } else {
        None
    }
}

/// The first organization block that is above the limits.
pub(crate) fn first_over(l: &Loaded, layer: &Bounds<'_>) -> Option<Over>
    ensures { result ≡ first_over l.now.profile layer.now (block_ids l.now.program) }
{
    let mut left = l.blocks();
    while let [block, rest @ ..] = left {
        if let Some(measure) = ob_over(l.profile(), layer, *block) {
            return Some(Over {
                block: *block,
                measure,
            });
        }
        left = rest;
    }
    None
}

/// Whether a chain of so many blocks and local bytes is too deep.
fn is_chain_too_deep(profile: Profile, blocks: usize, bytes: u32) -> bool
    ensures { result ≡ is_chain_too_deep profile blocks bytes }
{
    blocks > profile.most_frames() || bytes > MOST_LOCAL_BYTES
}

/// A chain that is too deep, of an organization block that is above the limits.
#[tactic(auto, using(crate::proofs::ChainLemmas::begins, crate::proofs::ChainLemmas::ends_deep, crate::proofs::ChainLemmas::leads_on, crate::proofs::ChainLemmas::leads_somewhere))]
pub(crate) fn chain_from(
    alloc: Global,
    l: &Loaded,
    layer: &Bounds<'_>,
    over: Over,
) -> Result<Vec<BlockId>, NoMemory>
    requires layer { layer.now ≡ layer_of_height (suc (most_frames l.now.profile)) l.now.program }
    requires over { IsLoadedObOver l.now.profile l.now.program layer.now over }
    ensures { IfOk result (λ v. IsDeepChain l.now.profile l.now.program v.items) }
{
    let profile = l.profile();
    let mut chain = Vec::new(alloc);
    let mut bytes = 0;
    let mut block = over.block;
    while let Some(code) = l.block(block) {
        chain.push(block)?;
        bytes += u32::from(code.local_len());
        if is_chain_too_deep(profile, chain.len(), bytes) {
            return Ok(chain);
        }
        let Some(called) = block_most_called(over.measure, layer, &code) else {
            unreachable!()
        };
        block = called;
    }
    unreachable!()
}
