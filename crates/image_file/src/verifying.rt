//! The faults of a block whose code begins at an offset.
ghost use Rattle.std.specs.Prelude.{◌≡◌, ◌+◌, ◌<◌, ◌≤◌, ◌^◌, ◌∷◌, ◌++◌, [], length, drop, OnOk, IfOk, if◌then◌else◌};
ghost use Rattle.std.specs.Option.{option_map};
ghost use Rattle.flat_code.specs.Codes.{size_of_op, code_bytes};
ghost use Rattle.flat_code.specs.PlacedOps.{codes_of_few_brackets, starts_of_statements, statement_start_at};
ghost use Rattle.flat_code.specs.Blocks.{are_other_brackets, call_fault_among, nesting_fault, target_fault, jump_fault, operand_fault, call_fault, op_faults, open_faults, open_zone_faults, block_faults};
ghost use Rattle.image_file.specs.OpChecking.{AllUpTo, ZonesUpTo, environment_of, placed_op_of};
ghost use Rattle.image_file.specs.Least.{with_faults};

use crate::calls::{is_bad_call, misfits_call};
use crate::checking::{
    OpenInCode, StatementStart, bracket_fault, codes_of_few_brackets, lesser_if, mark_fault,
    prepare, same_codes, seven_if, zone_fault,
};
use crate::environments::{BlockEnvironment, DataLens};
use crate::faults::LoadFault;
use crate::numbers::{CALL, JUMP_LIST};
use crate::operands::{
    ending_op, is_bad_actual, is_bad_place, is_in_parameter, is_stray_pass, is_stray_use_db,
    lacks_own_parameter, lacks_width, leads, parameter_meant, writes_operand,
};
use crate::reader::lesser_fault;
use crate::statement_table::Statements;
use arrayvec::ArrayVec;
use flat_code::{Op, OpenBracket, Operand};
use plc_base::NoMemory;
use std::alloc::Global;

/// The ops from one on.
fn ops_from(ops: &[Op], at: usize) -> &[Op]
    requires { at ≤ length ops.now }
    ensures { result.now ≡ drop at ops.now }
{
    &ops[at..]
}

/// An op in its place: its offset, what stands open before it, the ops of its statement before it,
/// and those behind it.
#[derive(Clone, Copy)]
pub(crate) struct OpPlace<'a> {
    pub at: u32,
    pub brackets: &'a [OpenBracket],
    pub zones: &'a [u32],
    pub before: &'a [Op],
    pub rest: &'a [Op],
}

/// Whether other brackets stand open at a jump's target.
fn are_other(here: &Option<ArrayVec<u8, 7>>, there: &Option<ArrayVec<u8, 7>>) -> bool
    ensures { result ≡ are_other_brackets (option_map (λ v. v.items) here.now) (option_map
        (λ v. v.items) there.now) }
{
    match here {
        None => false,
        Some(here) => match there {
            None => true,
            Some(there) => !same_codes(here.as_slice(), there.as_slice()),
        },
    }
}

/// Whether other brackets stand open at a statement.
fn codes_differ(here: &Option<ArrayVec<u8, 7>>, there: &StatementStart) -> bool
    ensures { result ≡ are_other_brackets (option_map (λ v. v.items) here.now) there.now.codes }
{
    are_other(here, &there.codes)
}

fn nesting_fault(
    here: &Option<ArrayVec<u8, 7>>,
    zones: usize,
    there: &StatementStart,
) -> Option<u16>
    ensures { result ≡ nesting_fault (option_map (λ v. v.items) here.now) zones there.now }
{
    if codes_differ(here, there) || zones != there.zones {
        Some(8)
    } else {
        None
    }
}

fn target_fault(
    statements: &Statements,
    here: &Option<ArrayVec<u8, 7>>,
    zones: usize,
    target: u32,
) -> Option<u16>
    ensures { result ≡ target_fault (option_map
        (λ v. v.items) here.now) zones (statement_start_at statements.now target) }
{
    match statements.at(target) {
        None => Some(6),
        Some(there) => nesting_fault(here, zones, there),
    }
}

/// The fault of a jump.
fn jump_fault(
    statements: &Statements,
    op: &Op,
    place: &OpPlace,
    kind: u8,
    target: u32,
) -> Option<u16>
    requires { place.now.at + size_of_op op.now + length (code_bytes place.now.rest.now) < 2 ^ 32 }
    ensures { result ≡ jump_fault statements.now (placed_op_of op.now place.now) kind target }
{
    if kind == JUMP_LIST && !leads(target, place.at + op.size(), place.rest) {
        return Some(6);
    }
    let here = codes_of_few_brackets(place.brackets);
    target_fault(statements, &here, place.zones.len(), target)
}

/// The fault of an op's operand by itself.
fn operand_fault(
    environment: &BlockEnvironment,
    statements: &Statements,
    op: &Op,
    place: &OpPlace,
) -> Option<u16>
    requires { place.now.at + size_of_op op.now + length (code_bytes place.now.rest.now) < 2 ^ 32 }
    ensures { result ≡ operand_fault (environment_of environment.now) statements.now
        (placed_op_of op.now place.now) op.now.operand }
{
    match op.operand {
        Operand::Direct {
            area,
            width,
            byte,
            bit,
        } => {
            seven_if(lacks_width(op, width) || is_bad_place(environment, area, width, byte, bit))
        }
        Operand::ByMemory { width, .. } | Operand::ByRegister { width, .. } => {
            seven_if(lacks_width(op, width))
        }
        Operand::Parameter { index, width } => {
            let own = parameter_meant(environment, index);
            let written = writes_operand(op.code) && is_in_parameter(own);
            seven_if(lacks_width(op, width) || lacks_own_parameter(own, width) || written)
        }
        Operand::Jump { kind, target } => jump_fault(statements, op, place, kind, target),
        Operand::UseDb { .. } => {
            seven_if(is_stray_use_db(place.before, &ending_op(op, place.rest)))
        }
        Operand::Pass { index, actual } => {
            let last = ending_op(op, place.rest);
            seven_if(
                is_stray_pass(place.before, &last, index) || is_bad_actual(environment, actual),
            )
        }
        _ => None,
    }
}

fn call_fault_among(
    environment: &BlockEnvironment,
    lens: &DataLens,
    op: &Op,
    place: &OpPlace,
) -> Option<u16>
    ensures { result ≡ call_fault_among (environment_of environment.now) lens.now
        (placed_op_of op.now place.now) op.now.operand }
{
    match op.operand {
        Operand::Called {
            kind,
            number,
            instance,
        } => { seven_if(is_bad_call(environment, lens, kind, number, instance, place.before)) }
        Operand::Pass { index, actual } => {
            let last = ending_op(op, place.rest);
            seven_if(last.code == CALL && misfits_call(environment, &last, index, actual))
        }
        _ => None,
    }
}

/// The fault of a call, where calls are checked.
fn call_fault(environment: &BlockEnvironment, op: &Op, place: &OpPlace) -> Option<u16>
    ensures { result ≡ call_fault (environment_of environment.now)
        (environment_of environment.now).data_lens (placed_op_of op.now place.now) }
{
    match environment.data_lens {
        None => None,
        Some(lens) => call_fault_among(environment, lens, op, place),
    }
}

/// The lesser of the fault so far and those of an op.
#[tactic(auto, unfolding(flat_code::specs::Blocks::op_faults), using(crate::proofs::CheckLemmas::five))]
fn check_op(
    environment: &BlockEnvironment,
    statements: &Statements,
    start: u32,
    op: &Op,
    place: &OpPlace,
    least: Option<LoadFault>,
) -> Option<LoadFault>
    requires room { place.now.at + size_of_op op.now + length (code_bytes place.now.rest.now)
        < 2 ^ 32 }
    requires start { start + place.now.at < 2 ^ 32 }
    ensures { result
        ≡ with_faults least (op_faults (environment_of environment.now) statements.now
        start (placed_op_of op.now place.now)) }
{
    let at = start + place.at;
    let least = lesser_if(least, at, operand_fault(environment, statements, op, place));
    let least = lesser_if(least, at, call_fault(environment, op, place));
    let least = lesser_if(least, at, mark_fault(op));
    let least = lesser_if(least, at, bracket_fault(op.code, place.brackets));
    lesser_if(least, at, zone_fault(op.code, place.zones))
}

/// The lesser of the fault so far and those of brackets that are open at the end.
fn check_open(
    start: u32,
    brackets: &[OpenBracket],
    limit: u32,
    least: Option<LoadFault>,
) -> Option<LoadFault>
    requires within { AllUpTo limit brackets.now }
    requires room { start + limit < 2 ^ 32 }
    ensures { result ≡ with_faults least (open_faults start brackets.now) }
{
    let mut least = least;
    for bracket in brackets {
        least = lesser_fault(least, start + bracket.at, 8);
    }
    least
}

/// The lesser of the fault so far and those of zones that are open at the end.
fn check_open_zones(
    start: u32,
    zones: &[u32],
    limit: u32,
    least: Option<LoadFault>,
) -> Option<LoadFault>
    requires within { ZonesUpTo limit zones.now }
    requires room { start + limit < 2 ^ 32 }
    ensures { result ≡ with_faults least (open_zone_faults start zones.now) }
{
    let mut least = least;
    for zone in zones {
        least = lesser_fault(least, start + *zone, 8);
    }
    least
}

/// The lesser of the fault so far and those of brackets and zones that are open at the end.
fn check_nesting(
    start: u32,
    nesting: &OpenInCode,
    limit: u32,
    least: Option<LoadFault>,
) -> Option<LoadFault>
    requires brackets { AllUpTo limit nesting.now.brackets.items }
    requires zones { ZonesUpTo limit nesting.now.zones.items }
    requires room { start + limit < 2 ^ 32 }
    ensures { result ≡ with_faults (with_faults least
        (open_faults start nesting.now.brackets.items))
        (open_zone_faults start nesting.now.zones.items) }
{
    let least = check_open(start, nesting.brackets.as_slice(), limit, least);
    check_open_zones(start, nesting.zones.as_slice(), limit, least)
}

/// The lesser of the fault so far and those of the ops of a block with these statements.
fn check_ops(
    alloc: Global,
    environment: &BlockEnvironment,
    statements: &Statements,
    start: u32,
    ops: &[Op],
    least: Option<LoadFault>,
) -> Result<Option<LoadFault>, NoMemory>
    requires room { start + length (code_bytes ops.now) < 2 ^ 32 }
    requires all { statements.now ≡ starts_of_statements ops.now }
    ensures { IfOk result (λ l. l
        ≡ with_faults least (block_faults (environment_of environment.now) start ops.now)) }
{
    let mut least = least;
    let mut nesting = OpenInCode::new(alloc);
    let mut before = Vec::new(alloc);
    let mut at = 0;
    for (i, op) in ops.iter().enumerate() {
        let place = OpPlace {
            at,
            brackets: nesting.brackets.as_slice(),
            zones: nesting.zones.as_slice(),
            before: before.as_slice(),
            rest: ops_from(ops, i + 1),
        };
        least = check_op(environment, statements, start, op, &place, least);
        nesting.pass(at, op)?;
        prepare(&mut before, op)?;
        at += op.size();
    }
    Ok(check_nesting(start, &nesting, at, least))
}

/// The lesser of the fault so far and those of the ops of a block whose code begins at an offset.
pub(crate) fn check_block(
    alloc: Global,
    environment: &BlockEnvironment,
    start: u32,
    ops: &[Op],
    least: Option<LoadFault>,
) -> Result<Option<LoadFault>, NoMemory>
    requires { start + length (code_bytes ops.now) < 2 ^ 32 }
    ensures { IfOk result (λ l. l
        ≡ with_faults least (block_faults (environment_of environment.now) start ops.now)) }
{
    let statements = Statements::of(alloc, ops)?;
    check_ops(alloc, environment, &statements, start, ops, least)
}
