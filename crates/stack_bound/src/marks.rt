//! The blocks that stand on chains.
ghost use Rattle.std.specs.Prelude.{◌≡◌, [], length, slice_set, true, IfOk};
ghost use Rattle.stack_bound.specs.Marks.{marked_bounds_behind, ob_marks};
ghost use Rattle.stack_bound.specs.Places.{mark_callers, mark_if, mark_places, marks_by};

use crate::callers::Caller;
use crate::certificates::{Bound, bound_by_walk};
use plc_base::{BlockKind, NoMemory};
use std::alloc::Global;

/// Marks a place.
#[tactic(auto, using(crate::proofs::PlaceLemmas::no_place))]
fn mark_place(marks: &mut Vec<bool>, place: usize)
    ensures { marks.new.items ≡ slice_set marks.old.items place true }
{
    if place < marks.len() {
        marks[place] = true;
    }
}

/// Marks places.
fn mark_places(marks: &mut Vec<bool>, places: &[usize])
    ensures { marks.new.items ≡ mark_places marks.old.items places.now }
{
    let mut left = places;
    while let [place, rest @ ..] = left {
        mark_place(marks, *place);
        left = rest;
    }
}

/// Marks what a caller calls, if the caller had a mark.
fn mark_if(m: bool, marks: &mut Vec<bool>, caller: &Caller)
    ensures { marks.new.items ≡ mark_if m marks.old.items caller.now }
{
    if m {
        mark_places(marks, caller.called.as_slice());
    }
}

/// The marks of the organization blocks.
fn ob_marks(alloc: Global, list: &[Bound]) -> Result<Vec<bool>, NoMemory>
    ensures { IfOk result (λ v. v.items ≡ ob_marks list.now) }
{
    let mut marks = Vec::new(alloc);
    let mut left = list;
    while let [b, rest @ ..] = left {
        marks.push(matches!(b.block.kind, BlockKind::Ob))?;
        left = rest;
    }
    Ok(marks)
}

/// The marks of the round after one with these marks.
#[tactic(auto, using(crate::proofs::PlaceLemmas::no_caller))]
fn next_marks(
    alloc: Global,
    callers: &[Caller],
    list: &[Bound],
    before: &[bool],
) -> Result<Vec<bool>, NoMemory>
    ensures { IfOk result
        (λ v. v.items ≡ mark_callers (ob_marks list.now) before.now callers.now) }
{
    let mut marks = ob_marks(alloc, list)?;
    let mut left = callers;
    let mut marked = before;
    while let [caller, rest @ ..] = left {
        let [m, more @ ..] = marked else {
            return Ok(marks);
        };
        mark_if(*m, &mut marks, caller);
        left = rest;
        marked = more;
    }
    Ok(marks)
}

/// The marks after so many rounds.
pub(crate) fn marks(
    alloc: Global,
    callers: &[Caller],
    list: &[Bound],
    rounds: u32,
) -> Result<Vec<bool>, NoMemory>
    ensures { IfOk result (λ v. v.items ≡ marks_by callers.now list.now rounds) }
{
    let mut marks = ob_marks(alloc, list)?;
    let mut round = 0;
    while round < rounds {
        marks = next_marks(alloc, callers, list, marks.as_slice())?;
        round += 1;
    }
    Ok(marks)
}

/// The bounds that are marked, each block once.
pub(crate) fn marked_bounds(
    alloc: Global,
    list: &[Bound],
    marks: &[bool],
) -> Result<Vec<Bound>, NoMemory>
    ensures { IfOk result (λ v. v.items ≡ marked_bounds_behind [] marks.now list.now) }
{
    let mut kept = Vec::new(alloc);
    let mut left = list;
    let mut marked = marks;
    while let [b, rest @ ..] = left {
        let [m, more @ ..] = marked else {
            return Ok(kept);
        };
        if *m && bound_by_walk(kept.as_slice(), b.block).is_none() {
            kept.push(*b)?;
        }
        left = rest;
        marked = more;
    }
    Ok(kept)
}
