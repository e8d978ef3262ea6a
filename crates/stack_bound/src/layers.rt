//! The least bounds, layer by layer.
ghost use Rattle.std.specs.Prelude.{◌≡◌, ◌≤◌, ◌*◌, ◌+◌, map, max, IfOk, IfSome};
ghost use Rattle.image_file.specs.Readers.{block_ids};
ghost use Rattle.stack_bound.specs.Layers.{AreBoundsAtMost, IsBoundAtMost, measure_if_bound, measure_in_layer};
ghost use Rattle.stack_bound.specs.Places.{bound_alone_in, bound_by, bounds_alone, layers_by, most_at};
ghost use Rattle.stack_bound.specs.declared.measures.Measure.TheVariants.{Depth, Bytes};

use crate::callers::Caller;
use crate::certificates::{Bound, Bounds};
use crate::measures::Measure;
use image_file::Loaded;
use plc_base::{BlockId, NoMemory};
use std::alloc::Global;

/// What a layer says of a block that may be called.
pub(crate) fn measure_in_layer(measure: Measure, layer: &Bounds<'_>, callee: Option<BlockId>) -> u32
    ensures { result ≡ measure_in_layer measure layer.now callee }
{
    let Some(block) = callee else {
        return 0;
    };
    match layer.of(block) {
        Some(b) => measure.number(&b),
        None => 0,
    }
}

/// The bound of a block that calls none.
fn bound_alone_in(l: &Loaded, block: BlockId) -> Option<Bound>
    ensures bound { result ≡ bound_alone_in l.now.program block }
    ensures low { IfSome result (IsBoundAtMost 65536) }
{
    let code = l.block(block)?;
    Some(Bound {
        block,
        depth: 1,
        bytes: u32::from(code.local_len()),
    })
}

/// The lowest layer that has blocks: each of them by itself.
pub(crate) fn first_layer(alloc: Global, l: &Loaded) -> Result<Vec<Bound>, NoMemory>
    ensures layer { IfOk result
        (λ v. v.items ≡ bounds_alone l.now.program (block_ids l.now.program)) }
    ensures low { IfOk result (λ v. AreBoundsAtMost 65536 v.items) }
{
    let mut layer = Vec::new(alloc);
    let mut left = l.blocks();
    while let [block, rest @ ..] = left {
        if let Some(b) = bound_alone_in(l, *block) {
            layer.push(b)?;
        }
        left = rest;
    }
    Ok(layer)
}

/// The greatest numbers so far.
#[derive(Clone, Copy)]
struct Most {
    depth: u32,
    bytes: u32,
}

/// The greatest numbers so far, and of a bound that may be there.
fn most_with(most: &Most, b: Option<Bound>) -> Most
    ensures depth { result.depth ≡ max most.now.depth (measure_if_bound Depth b) }
    ensures bytes { result.bytes ≡ max most.now.bytes (measure_if_bound Bytes b) }
{
    match b {
        Some(b) => Most {
            depth: most.depth.max(b.depth),
            bytes: most.bytes.max(b.bytes),
        },
        None => *most,
    }
}

/// The greatest numbers that a layer has in some places.
fn most_at(layer: &[Bound], places: &[usize]) -> Most
    ensures depth { result.depth ≡ most_at Depth layer.now places.now }
    ensures bytes { result.bytes ≡ most_at Bytes layer.now places.now }
{
    let mut most = Most { depth: 0, bytes: 0 };
    let mut left = places;
    while let [place, rest @ ..] = left {
        most = most_with(&most, layer.get(*place).copied());
        left = rest;
    }
    most
}

/// The bound of a caller above a layer, none of whose numbers is above another one.
fn bound_by(layer: &[Bound], caller: &Caller, highest: u32) -> Bound
    requires low { AreBoundsAtMost highest layer.now }
    requires room { highest + 65536 ≤ 0xFFFFFFFF }
    ensures bound { result ≡ bound_by layer.now caller.now }
    ensures low { IsBoundAtMost (highest + 65536) result }
{
    let most = most_at(layer, caller.called.as_slice());
    Bound {
        block: caller.block,
        depth: 1 + most.depth,
        bytes: u32::from(caller.local_len()) + most.bytes,
    }
}

/// The layer above another one, none of whose numbers is above another number.
fn layer_above(
    alloc: Global,
    callers: &[Caller],
    below: &[Bound],
    highest: u32,
) -> Result<Vec<Bound>, NoMemory>
    requires low { AreBoundsAtMost highest below.now }
    requires room { highest + 65536 ≤ 0xFFFFFFFF }
    ensures layer { IfOk result (λ v. v.items ≡ map (bound_by below.now) callers.now) }
    ensures low { IfOk result (λ v. AreBoundsAtMost (highest + 65536) v.items) }
{
    let mut layer = Vec::with_capacity(alloc, callers.len())?;
    let mut left = callers;
    while let [caller, rest @ ..] = left {
        layer.push(bound_by(below, caller, highest))?;
        left = rest;
    }
    Ok(layer)
}

/// So many layers above the first one.
pub(crate) fn highest_layer(
    alloc: Global,
    callers: &[Caller],
    first: Vec<Bound>,
    most: u32,
) -> Result<Vec<Bound>, NoMemory>
    requires low { AreBoundsAtMost 65536 first.items }
    requires few { most ≤ 24 }
    ensures { IfOk result (λ v. v.items ≡ layers_by callers.now first.items most) }
{
    let mut layer = first;
    let mut number = 0;
    while number < most {
        number += 1;
        layer = layer_above(alloc, callers, layer.as_slice(), 65_536 * number)?;
    }
    Ok(layer)
}
