//! The faults of a block's ops, one op behind the other, with the least so far.
ghost use Rattle.std.specs.Prelude.{◌≡◌, ◌+◌, ◌<◌, ◌≤◌, ◌^◌, [], length, drop, OnOk, IfOk};
ghost use Rattle.std.specs.Option.{option_map};
ghost use Rattle.flat_code.specs.Codes.{size_of_op, code_bytes};
ghost use Rattle.flat_code.specs.PlacedOps.{PlacedOp, is_empty_list, brackets_after, zones_behind_op, before_next, codes_of_few_brackets, statement_start_at, starts_of_statements, open_behind, code_places};
ghost use Rattle.flat_code.specs.Blocks.{seven_if, are_same_codes, target_fault, jump_fault, operand_fault, call_fault, mark_fault, bracket_fault, zone_fault, at_offset, op_faults, faults_over, open_faults, block_faults};
ghost use Rattle.image_file.specs.OpChecking.{AllUpTo, environment_of};
ghost use Rattle.image_file.specs.Least.{with_faults};

use crate::faults::LoadFault;
use crate::numbers::{CLOSE_ZONE, NEST_A, NEST_XN, OPEN_ZONE, PASS, UNNEST, USE_DB};
use crate::reader::lesser_fault;
use arrayvec::ArrayVec;
use flat_code::{Op, OpenBracket};
use plc_base::NoMemory;
use std::alloc::Global;
use std::marker::Model;

/// A statement of a block: the offset at which it begins, the op codes of the brackets that stand
/// open there, if they are at most seven, and the number of the open zones.
#[derive(Drop)]
pub(crate) struct StatementStart {
    pub at: u32,
    pub codes: Option<ArrayVec<u8, 7>>,
    pub zones: usize,
}

impl Model for StatementStart {
    ghost use Rattle.std.specs.Option.{option_map};
    ghost use Rattle.flat_code.specs.PlacedOps.{StatementStart as StatementStartData};

    ghost Value = { StatementStartData };

    ghost view = { λ s. record {
      at = s.at;
      codes = option_map (λ v. v.items) s.codes;
      zones = s.zones;
    } };
}

/// What stands open at a place of a block's code, the outermost first: brackets, and zones of the
/// master control relay by the offsets of their `MCR(`.
#[derive(Drop)]
pub(crate) struct OpenInCode {
    pub brackets: Vec<OpenBracket>,
    pub zones: Vec<u32>,
}

impl OpenInCode {
    /// Nothing stands open.
    pub(crate) fn new(alloc: Global) -> Self
        ensures brackets { result.brackets.items ≡ [] }
        ensures zones { result.zones.items ≡ [] }
    {
        OpenInCode {
            brackets: Vec::new(alloc),
            zones: Vec::new(alloc),
        }
    }

    /// Goes on behind an op at an offset.
    pub(crate) fn pass(&mut self, at: u32, op: &Op) -> Result<(), NoMemory>
        ensures brackets { OnOk result (self.new.brackets.items
            ≡ brackets_after at op.now.code self.old.brackets.items) }
        ensures zones { OnOk result (self.new.zones.items
            ≡ zones_behind_op at op.now.code self.old.zones.items) }
    {
        pass_brackets(&mut self.brackets, at, op.code)?;
        pass_zones(&mut self.zones, at, op.code)
    }
}

/// The op codes of open brackets, if they are at most seven.
pub(crate) fn codes_of_few_brackets(brackets: &[OpenBracket]) -> Option<ArrayVec<u8, 7>>
    ensures { option_map (λ v. v.items) result ≡ codes_of_few_brackets brackets.now }
{
    if brackets.len() > 7 {
        return None;
    }
    let mut codes = ArrayVec::new();
    for bracket in brackets {
        codes.push(bracket.code);
    }
    Some(codes)
}

/// The open brackets behind an op.
fn pass_brackets(brackets: &mut Vec<OpenBracket>, at: u32, code: u8) -> Result<(), NoMemory>
    ensures { OnOk result (brackets.new.items ≡ brackets_after at code brackets.old.items) }
{
    if NEST_A <= code && code <= NEST_XN {
        brackets.push(OpenBracket { at, code })?;
        return Ok(());
    }
    if code == UNNEST {
        let _closed = brackets.pop();
    }
    Ok(())
}

/// The open zones behind an op.
fn pass_zones(zones: &mut Vec<u32>, at: u32, code: u8) -> Result<(), NoMemory>
    ensures { OnOk result (zones.new.items ≡ zones_behind_op at code zones.old.items) }
{
    if code == OPEN_ZONE {
        zones.push(at)?;
        return Ok(());
    }
    if code == CLOSE_ZONE {
        let _closed = zones.pop();
    }
    Ok(())
}

/// Whether an op ends its statement.
pub(crate) fn is_last(op: &Op) -> bool
    ensures { result ≡ op.now.last }
{
    op.last
}

/// The ops of the statement before the next op.
pub(crate) fn prepare(before: &mut Vec<Op>, op: &Op) -> Result<(), NoMemory>
    ensures { OnOk result (before.new.items ≡ before_next op.now before.old.items) }
{
    if op.last {
        before.clear();
        return Ok(());
    }
    before.push(*op)?;
    Ok(())
}

/// Whether two places have equally many open brackets, with the same op codes in the same order.
pub(crate) fn same_codes(codes: &[u8], others: &[u8]) -> bool
    ensures { result ≡ are_same_codes codes.now others.now }
{
    let mut rest = others;
    for x in codes {
        match rest {
            [] => return false,
            [y, behind @ ..] => {
                if x != y {
                    return false;
                }
                rest = behind;
            }
        }
    }
    rest.is_empty()
}

/// The fault 7 where a test holds.
pub(crate) fn seven_if(faulty: bool) -> Option<u16>
    ensures { result ≡ seven_if faulty }
{
    if faulty { Some(7) } else { None }
}

/// The fault 7 of an end mark on USEDB or PASS, and of another op that has none.
pub(crate) fn mark_fault(op: &Op) -> Option<u16>
    ensures { result ≡ mark_fault op.now }
{
    let prepares = op.code == USE_DB || op.code == PASS;
    seven_if(if prepares { op.last } else { !op.last })
}

/// The fault 8 of an op's bracket: `)` without open bracket, or an eighth open bracket.
pub(crate) fn bracket_fault(code: u8, brackets: &[OpenBracket]) -> Option<u16>
    ensures { result ≡ bracket_fault code brackets.now }
{
    if NEST_A <= code && code <= NEST_XN {
        return if brackets.len() >= 7 { Some(8) } else { None };
    }
    if code == UNNEST {
        return if is_none(brackets) { Some(8) } else { None };
    }
    None
}

/// The fault 8 of an op's zone of the master control relay: `)MCR` without open zone, or a ninth
/// open zone.
pub(crate) fn zone_fault(code: u8, zones: &[u32]) -> Option<u16>
    ensures { result ≡ zone_fault code zones.now }
{
    if code == OPEN_ZONE {
        return if zones.len() >= 8 { Some(8) } else { None };
    }
    if code == CLOSE_ZONE {
        return if is_none(zones) { Some(8) } else { None };
    }
    None
}

fn is_none<T>(open: &[T]) -> bool
    ensures { result ≡ is_empty_list open.now }
{
    match open {
        [] => true,
        [_, ..] => false,
    }
}

/// The lesser of the fault so far and one at an offset, if there is one.
#[tactic(auto, unfolding(crate::specs::Least::with_faults))]
pub(crate) fn lesser_if(least: Option<LoadFault>, at: u32, code: Option<u16>) -> Option<LoadFault>
    ensures { result ≡ with_faults least (at_offset at code) }
{
    match code {
        None => least,
        Some(code) => lesser_fault(least, at, code),
    }
}
