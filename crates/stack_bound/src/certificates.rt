//! Bounds, and lists of them.
ghost use Rattle.std.specs.Prelude.{◌≡◌, true};
ghost use Rattle.std.specs.List.{position_from};
ghost use Rattle.image_file.specs.Readers.{is_same_id};
ghost use Rattle.stack_bound.specs.Certificates.{bound_of};
ghost use Rattle.stack_bound.specs.Checking.{has_each_block_once};
ghost use Rattle.stack_bound.specs.Order.{IsHalved, bound_at, stands_before_bounds, is_before, are_blocks_rising};
ghost use Rattle.stack_bound.specs.Places.{place_of_bound};

use plc_base::BlockId;
use std::marker::Model;

/// What a certificate says of a block: in a chain of calls that begins with it stand at most so many
/// blocks, itself among them, and they have at most so many local bytes together.
#[derive(Clone, Copy, Debug, PartialEq, Eq)]
pub struct Bound {
    pub block: BlockId,
    pub depth: u32,
    pub bytes: u32,
}

pub(crate) fn is_same(a: BlockId, b: BlockId) -> bool
    ensures { result ≡ is_same_id a b }
{
    a.kind.order() == b.kind.order() && a.number == b.number
}

/// Whether a block stands before another one in the order of an image.
pub(crate) fn is_before(a: BlockId, b: BlockId) -> bool
    ensures { result ≡ is_before a b }
{
    let (first, second) = (a.kind.order(), b.kind.order());
    first < second || first == second && a.number < b.number
}

fn comes_before(b: &Bound, rest: &[Bound]) -> bool
    ensures { result ≡ stands_before_bounds b.now rest.now }
{
    match rest {
        [] => true,
        [d, ..] => is_before(b.block, d.block),
    }
}

/// Whether each block of a list stands before the next one.
fn rise(list: &[Bound]) -> bool
    ensures { result ≡ are_blocks_rising list.now }
{
    let mut left = list;
    while let [b, rest @ ..] = left {
        if !comes_before(b, rest) {
            return false;
        }
        left = rest;
    }
    true
}

/// What a list says first of a block, by a walk.
pub(crate) fn bound_by_walk(list: &[Bound], block: BlockId) -> Option<Bound>
    ensures { result ≡ bound_of block list.now }
{
    let mut left = list;
    while let [b, rest @ ..] = left {
        if is_same(b.block, block) {
            return Some(*b);
        }
        left = rest;
    }
    None
}

/// The bound of a place, if it is of a block.
fn bound_at(list: &[Bound], place: usize, block: BlockId) -> Option<Bound>
    ensures { result ≡ bound_at list.now place block }
{
    let b = list.get(place)?;
    if is_same(b.block, block) {
        Some(*b)
    } else {
        None
    }
}

/// The place of a block in a list whose blocks rise, by halving it.
fn halving_place(list: &[Bound], block: BlockId) -> usize
    requires { are_blocks_rising list.now ≡ true }
    ensures { IsHalved list.now block result }
{
    list.partition_point(|b| is_before(b.block, block))
}

/// What a list whose blocks rise says of a block, by halving it.
#[tactic(auto, using(crate::proofs::OrderLemmas::halving_finds))]
fn bound_by_halving(list: &[Bound], block: BlockId) -> Option<Bound>
    requires { are_blocks_rising list.now ≡ true }
    ensures { result ≡ bound_of block list.now }
{
    bound_at(list, halving_place(list, block), block)
}

/// The place of a block in a list whose blocks rise, by halving it.
#[tactic(auto, using(crate::proofs::PlaceLemmas::found_here, crate::proofs::PlaceLemmas::found_nowhere))]
fn place_by_halving(list: &[Bound], block: BlockId) -> Option<usize>
    requires { are_blocks_rising list.now ≡ true }
    ensures { result ≡ place_of_bound block list.now }
{
    let place = halving_place(list, block);
    if bound_at(list, place, block).is_some() {
        Some(place)
    } else {
        None
    }
}

/// The place where a block stands first in a list, by a walk.
fn place_by_walk(list: &[Bound], block: BlockId) -> Option<usize>
    ensures { result ≡ position_from (λ b. is_same_id b.block block) 0 list.now }
{
    list.iter().position(|b| is_same(b.block, block))
}

/// Bounds of blocks, in which a block is found by halving them, where the blocks rise.
#[derive(Drop)]
pub(crate) struct Bounds<'a> {
    list: &'a [Bound],
    rise: bool,
}

impl<'a> Model for Bounds<'a> {
    ghost use Rattle.std.specs.Prelude.{◌≡◌, List};
    ghost use Rattle.stack_bound.specs.Order.{are_blocks_rising as rise_of};
    ghost use Rattle.stack_bound.specs.declared.certificates.Bound.{Bound};

    ghost Value = { List Bound };

    ghost view = { λ b. b.list.now };

    ghost invariant = { λ b. b.rise ≡ rise_of b.list.now };
}

impl<'a> Bounds<'a> {
    ghost use Rattle.std.specs.Prelude.{◌≡◌};
    ghost use Rattle.stack_bound.specs.Places.{place_of_bound};
    ghost use Rattle.stack_bound.specs.Certificates.{bound_of};
    ghost use Rattle.stack_bound.specs.Checking.{has_each_block_once};

    /// The bounds of a list.
    pub(crate) fn new(list: &'a [Bound]) -> Self
        ensures { result ≡ list.now }
    {
        Bounds {
            list,
            rise: rise(list),
        }
    }

    /// What the bounds say first of a block.
    pub(crate) fn of(&self, block: BlockId) -> Option<Bound>
        ensures { result ≡ bound_of block self.now }
    {
        if self.rise {
            bound_by_halving(self.list, block)
        } else {
            bound_by_walk(self.list, block)
        }
    }

    /// The place where a block stands first among the bounds.
    #[tactic(auto, using(crate::proofs::PlaceLemmas::walk_finds_place))]
    pub(crate) fn place_of(&self, block: BlockId) -> Option<usize>
        ensures { result ≡ place_of_bound block self.now }
    {
        if self.rise {
            place_by_halving(self.list, block)
        } else {
            place_by_walk(self.list, block)
        }
    }

    /// Whether no block stands among the bounds twice.
    #[tactic(auto, using(crate::proofs::OrderLemmas::risen_once))]
    pub(crate) fn are_once(&self) -> bool
        ensures { result ≡ has_each_block_once self.now }
    {
        self.rise || are_once(self.list)
    }
}

fn are_once(list: &[Bound]) -> bool
    ensures { result ≡ has_each_block_once list.now }
{
    let mut left = list;
    while let [b, rest @ ..] = left {
        if bound_by_walk(rest, b.block).is_some() {
            return false;
        }
        left = rest;
    }
    true
}
