//! Along the ops of a statement.
ghost use Rattle.std.specs.Prelude.{◌≡◌, ◌≤◌, length, MatchResult, Ok, Err};
ghost use Rattle.std.specs.Option.{option_map};
ghost use Rattle.flat_code.specs.Kinds.{jump_of_number as jump_of_kind};
ghost use Rattle.flat_code.specs.PlacedOps.{op_placed};
ghost use Rattle.machine.specs.ExecState.{local_of};
ghost use Rattle.flat_code.specs.Codes.{most_ops};
ghost use Rattle.machine.specs.Flat.{op_run_at, list_of, most_listed};
ghost use Rattle.machine.specs.Jumps.{list_goal};
ghost use Rattle.machine.specs.Walking.{walk_with, walk_by, opens_after as opens_after_op, bindings_of_statement, binding_by};

use crate::bindings::{bind_none, binding_for_param};
use flat_code::{JUMPS, JumpOperation, Op, Operand, Param};
use frames::{Bindings, Running};
use image_file::LoadedCode;
use plc_mem::Memory;
use status_word::Regs;
use std::marker::Model;

/// How many ops a statement has at most.
const MOST_OPS: usize = 64;
/// How many of them stand behind the first.
const MORE_OPS: usize = MOST_OPS - 1;
/// How many jumps the list of a JL has at most.
const MOST_LISTED: u32 = 255;

/// A statement: the data block that it opens first, its last op, and the offset behind it.
#[derive(Drop)]
pub(crate) struct StatementWalk {
    pub(crate) opens: Option<u16>,
    pub(crate) last: Op,
    pub(crate) next: u32,
}

impl Model for StatementWalk {
    ghost use Rattle.machine.specs.Walking.{StatementWalk as StatementWalkData};

    ghost Value = { StatementWalkData };

    ghost view = { λ w. record { opens = w.opens; last = w.last; next = w.next } };
}

/// The data block that a statement opens first, behind a further op: the one so far, or that of a
/// USEDB.
pub(crate) fn opens_after(opens: Option<u16>, operand: &Operand) -> Option<u16>
    ensures { result ≡ opens_after_op opens operand.now }
{
    match opens {
        Some(number) => Some(number),
        None => match *operand {
            Operand::UseDb { number } => Some(number),
            _ => None,
        },
    }
}

/// The statement that begins at an offset. Most have one op, which is read here; the others go on
/// where nothing is inlined.
#[tactic(auto, using(crate::proofs::Walks::walk_nowhere, crate::proofs::Walks::first_ends, crate::proofs::Walks::first_goes_on))]
#[inline(always)]
pub(crate) fn walk_from(code: &LoadedCode<'_>, at: u32) -> Option<StatementWalk>
    ensures { result ≡ option_map (walk_with None)
        (op_run_at most_ops code.now.code at) }
{
    let (op, next) = code.op(at)?;
    if op.last {
        return Some(StatementWalk {
            opens: None,
            last: op,
            next,
        });
    }
    walk_on(code, next, opens_after(None, &op.operand))
}

// A statement whose last op begins at an offset. It is read once more there, so that of an op on
// the way nothing is kept but where it ends and what it opens.
#[inline(always)]
fn walk_to(code: &LoadedCode<'_>, at: u32, opens: Option<u16>) -> Option<StatementWalk>
    ensures { result ≡ option_map (walk_by opens) (op_placed 0 code.now.code at) }
{
    let (last, next) = code.part(at)?;
    Some(StatementWalk { opens, last, next })
}

/// The rest of a statement, from its second op on, with the data block that it opens first so far.
#[tactic(auto, using(crate::proofs::Walks::walk_nowhere, crate::proofs::Walks::walk_stops, crate::proofs::Walks::walk_ends_there, crate::proofs::Walks::walk_goes_on))]
#[inline(never)]
pub(crate) fn walk_on(code: &LoadedCode<'_>, at: u32, opens: Option<u16>) -> Option<StatementWalk>
    ensures { result ≡ option_map (walk_with opens) (op_run_at 63 code.now.code at) }
{
    let mut opens = opens;
    let mut at = at;
    for _ in 0..MORE_OPS {
        match code.part(at) {
            None => return None,
            Some((op, next)) => {
                if op.last {
                    return walk_to(code, at, opens);
                }
                opens = opens_after(opens, &op.operand);
                at = next;
            }
        }
    }
    None
}

// The offset behind the op at an offset.
fn behind(code: &LoadedCode<'_>, at: u32) -> Option<u32>
    ensures { result ≡ option_map (λ r. r.1) (op_placed 0 code.now.code at) }
{
    match code.op(at) {
        Some((_, next)) => Some(next),
        None => None,
    }
}

/// Where a JL goes on: at the jump of its list that accumulator 1 names, or behind the list.
#[tactic(auto, unfolding(crate::specs::Jumps::list_goal), using(crate::proofs::Walks::picked_end, crate::proofs::Walks::picked_nowhere, crate::proofs::Walks::picked_zero, crate::proofs::Walks::picked_on, crate::proofs::Walks::picked_here))]
pub(crate) fn pick(code: &LoadedCode<'_>, target: u32, next: u32, r: &Regs) -> u32
    ensures { result ≡ list_goal (list_of most_listed code.now.code target next) target r.now }
{
    let number = r.a1 % 0x100;
    let mut left = number;
    let mut at = next;
    while left > 0 {
        if at == target {
            return target;
        }
        match behind(code, at) {
            None => return target,
            Some(next) => at = next,
        }
        left -= 1;
    }
    if number == MOST_LISTED {
        return target;
    }
    if at == target {
        return target;
    }
    match behind(code, at) {
        Some(_) => at,
        None => target,
    }
}

/// The jump of a kind.
#[tactic(auto, unfolding(flat_code::specs::Kinds::jump_of_number))]
pub(crate) fn jump_of_number(kind: u8) -> JumpOperation
    ensures { result ≡ jump_of_kind kind }
{
    let place = usize::from(kind);
    JUMPS.get(place).copied().unwrap_or(JumpOperation::Ju)
}

// An op that passes a parameter sets what it stands for.
fn bind(
    operand: &Operand,
    params: &[Param],
    bindings: &mut Bindings,
    s: &Running,
    m: &Memory,
) -> Result<(), u8>
    ensures { MatchResult result
        (λ _. binding_by operand.now params.now bindings.old (local_of s.now) m.now
        ≡ Ok bindings.new)
        (λ code. binding_by operand.now params.now bindings.old (local_of s.now) m.now
        ≡ Err code) }
{
    match *operand {
        Operand::Pass { index, actual } => {
            let binding = binding_for_param(params, index, actual, s, m)?;
            bindings.set(index, binding);
            Ok(())
        }
        _ => Ok(()),
    }
}

/// What the parameters of a block stand for, by the ops of the statement that begins at an offset.
#[tactic(auto, using(crate::proofs::Walks::bound_stops, crate::proofs::Walks::bound_nowhere, crate::proofs::Walks::bound_ends, crate::proofs::Walks::bound_goes_on, crate::proofs::Walks::bound_fails))]
pub(crate) fn bind_all(
    code: &LoadedCode<'_>,
    at: u32,
    params: &[Param],
    s: &Running,
    m: &Memory,
    bindings: &mut Bindings,
) -> Result<(), u8>
    requires { length params.now ≤ 60 }
    ensures { MatchResult result
        (λ _. bindings_of_statement code.now.code at params.now (local_of s.now) m.now
        ≡ Ok bindings.new)
        (λ error. bindings_of_statement code.now.code at params.now (local_of s.now) m.now
        ≡ Err error) }
{
    bind_none(params, bindings);
    let mut at = at;
    for _ in 0..MOST_OPS {
        match code.part(at) {
            None => return Ok(()),
            Some((op, next)) => {
                if op.last {
                    return Ok(());
                }
                bind(&op.operand, params, bindings, s, m)?;
                at = next;
            }
        }
    }
    Ok(())
}
