//! The calls of a program, gathered once: of each block the places of the blocks that it calls.
ghost use Rattle.std.specs.Prelude.{◌≡◌, ◌++◌, [], ◌∷◌, IfOk, OnOk};
ghost use Rattle.std.specs.Option.{option_map};
ghost use Rattle.image_file.specs.Readers.{block_ids};
ghost use Rattle.stack_bound.specs.Calls.{callee_of_op};
ghost use Rattle.stack_bound.specs.Places.{caller_in, callers_of, place_of_callee, places_called, with_place};

use crate::calls::callee_of_op;
use crate::certificates::Bounds;
use flat_code::Op;
use image_file::{Loaded, LoadedCode};
use plc_base::{BlockId, NoMemory};
use std::alloc::Global;
use std::marker::Model;

/// A block, with the places of the blocks that it calls.
#[derive(Drop)]
pub(crate) struct Caller {
    pub(crate) block: BlockId,
    local_len: u16,
    pub(crate) called: Vec<usize>,
}

impl Model for Caller {
    ghost use Rattle.stack_bound.specs.Places.{CallerData};

    ghost Value = { CallerData };

    ghost view = { λ c. record {
      block = c.block;
      local_len = c.local_len;
      called = c.called.items;
    } };
}

impl Caller {
    ghost use Rattle.std.specs.Prelude.{◌≡◌};

    /// How many local bytes the block has.
    pub(crate) fn local_len(&self) -> u16
        ensures { result ≡ self.now.local_len }
    {
        self.local_len
    }
}

/// The place of the block that an op calls.
fn place_called(blocks: &Bounds<'_>, op: &Op) -> Option<usize>
    ensures { result ≡ place_of_callee blocks.now (callee_of_op op.now) }
{
    blocks.place_of(callee_of_op(op)?)
}

/// Adds a place, if there is one.
fn add_place(place: Option<usize>, called: &mut Vec<usize>) -> Result<(), NoMemory>
    ensures { OnOk result (called.new.items ≡ called.old.items ++ with_place place []) }
{
    if let Some(place) = place {
        called.push(place)?;
    }
    Ok(())
}

/// The places of the blocks that a block calls.
#[tactic(auto, using(crate::proofs::WalkLemmas::walk_goes_on, crate::proofs::WalkLemmas::walk_ends, crate::proofs::WalkLemmas::all_behind))]
fn places_called(
    alloc: Global,
    blocks: &Bounds<'_>,
    code: &LoadedCode<'_>,
) -> Result<Vec<usize>, NoMemory>
    ensures { IfOk result (λ v. v.items ≡ places_called blocks.now code.now.code) }
{
    let mut called = Vec::new(alloc);
    let mut at = 0;
    while let Some((op, next)) = code.op(at) {
        add_place(place_called(blocks, &op), &mut called)?;
        at = next;
    }
    Ok(called)
}

/// A block with what it calls, if it is a code block.
fn caller_in(
    alloc: Global,
    l: &Loaded,
    blocks: &Bounds<'_>,
    block: BlockId,
) -> Result<Option<Caller>, NoMemory>
    ensures { IfOk result (λ c. c ≡ caller_in l.now.program blocks.now block) }
{
    let Some(code) = l.block(block) else {
        return Ok(None);
    };
    let local_len = code.local_len();
    let called = places_called(alloc, blocks, &code)?;
    Ok(Some(Caller {
        block,
        local_len,
        called,
    }))
}

/// All blocks with what they call.
pub(crate) fn callers(
    alloc: Global,
    l: &Loaded,
    blocks: &Bounds<'_>,
) -> Result<Vec<Caller>, NoMemory>
    ensures { IfOk result
        (λ v. v.items ≡ callers_of l.now.program blocks.now (block_ids l.now.program)) }
{
    let mut callers = Vec::new(alloc);
    let mut left = l.blocks();
    while let [block, rest @ ..] = left {
        if let Some(caller) = caller_in(alloc, l, blocks, *block)? {
            callers.push(caller)?;
        }
        left = rest;
    }
    Ok(callers)
}
