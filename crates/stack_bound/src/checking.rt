//! Whether a certificate holds.
ghost use Rattle.std.specs.Prelude.{◌≡◌, ◌↔◌, IsTrue};
ghost use Rattle.image_file.specs.Readers.{block_ids};
ghost use Rattle.stack_bound.specs.Certificates.{IsCertificateOf};
ghost use Rattle.stack_bound.specs.Checking.{counts_called, counts_callee, counts_ops, counts_its_block, each_counts, is_bound_within_limits, obs_within, is_certificate};
ghost use Rattle.stack_bound.specs.Overflow.{NeverOverflows};
ghost use Rattle.plc_base.specs.Kinds.{is_organization_block};

use crate::calls::callee_of_op;
use crate::certificates::{Bound, Bounds};
use crate::measures::MOST_LOCAL_BYTES;
use image_file::{Loaded, LoadedCode};
use plc_base::{BlockId, BlockKind, Profile};

/// Whether a bound counts a called block's, and its own local bytes besides.
fn counts_called(local_len: u16, b: &Bound, called: Option<Bound>) -> bool
    ensures { result ≡ counts_called local_len b.now called }
{
    match called {
        Some(d) => d.depth < b.depth
            && u32::from(local_len) <= b.bytes
            && d.bytes <= b.bytes - u32::from(local_len),
        None => false,
    }
}

/// Whether a bound counts what an op calls.
fn counts_callee(
    l: &Loaded,
    c: &Bounds<'_>,
    local_len: u16,
    b: &Bound,
    callee: Option<BlockId>,
) -> bool
    ensures { result ≡ counts_callee l.now.program c.now local_len b.now callee }
{
    match callee {
        Some(called) => l.block(called).is_none() || counts_called(local_len, b, c.of(called)),
        None => true,
    }
}

/// Whether a bound counts what the ops of its block call.
#[tactic(auto, using(crate::proofs::WalkLemmas::walk_goes_on, crate::proofs::WalkLemmas::walk_ends, crate::proofs::WalkLemmas::all_behind))]
fn counts_ops(l: &Loaded, c: &Bounds<'_>, b: &Bound, code: &LoadedCode<'_>) -> bool
    ensures { result ≡ counts_ops l.now.program c.now code.now.local_len b.now code.now.code }
{
    let local_len = code.local_len();
    let mut at = 0;
    while let Some((op, next)) = code.op(at) {
        if !counts_callee(l, c, local_len, b, callee_of_op(&op)) {
            return false;
        }
        at = next;
    }
    true
}

/// Whether a bound is of a loaded block, and counts the block itself and what it calls.
fn counts_its_block(l: &Loaded, c: &Bounds<'_>, b: &Bound) -> bool
    ensures { result ≡ counts_its_block l.now.program c.now b.now }
{
    match l.block(b.block) {
        Some(code) => b.depth >= 1
            && u32::from(code.local_len()) <= b.bytes
            && counts_ops(l, c, b, &code),
        None => false,
    }
}

fn each_counts(l: &Loaded, c: &Bounds<'_>, list: &[Bound]) -> bool
    ensures { result ≡ each_counts l.now.program c.now list.now }
{
    let mut left = list;
    while let [b, rest @ ..] = left {
        if !counts_its_block(l, c, b) {
            return false;
        }
        left = rest;
    }
    true
}

/// Whether a bound is there, and within the limits of an activation.
fn is_bound_within_limits(profile: Profile, b: Option<Bound>) -> bool
    ensures { result ≡ is_bound_within_limits profile b }
{
    match b {
        Some(b) => b.depth as usize <= profile.most_frames() && b.bytes <= MOST_LOCAL_BYTES,
        None => false,
    }
}

fn is_ob_id(block: BlockId) -> bool
    ensures { result ≡ is_organization_block block.kind }
{
    matches!(block.kind, BlockKind::Ob)
}

fn obs_within(l: &Loaded, c: &Bounds<'_>) -> bool
    ensures { result ≡ obs_within l.now.profile c.now (block_ids l.now.program) }
{
    let mut left = l.blocks();
    while let [block, rest @ ..] = left {
        if is_ob_id(*block) && !is_bound_within_limits(l.profile(), c.of(*block)) {
            return false;
        }
        left = rest;
    }
    true
}

fn is_certificate(l: &Loaded, list: &[Bound]) -> bool
    ensures { result ≡ is_certificate l.now.profile l.now.program list.now }
{
    let c = Bounds::new(list);
    c.are_once() && each_counts(l, &c, list) && obs_within(l, &c)
}

/// Whether a certificate holds of a loaded program (exactly): each block stands in it once and is
/// loaded, it has every organization block within the limits of an activation, and with a block each
/// block that it calls; its depths and bytes count each block and what it calls. Where it does, no valid
/// history of the program leads to a STOP by block depth or local data. It takes no memory.
pub fn holds(l: &Loaded, c: &[Bound]) -> bool
    ensures value { IsTrue result ↔ IsCertificateOf l.now.profile l.now.program c.now }
    ensures never { IsTrue result → NeverOverflows l.now.profile l.now.program }
{
    controller::laws::what_runs_goes_on();
    l.law_of_verifying();
    is_certificate(l, c)
}
