//! Byte offsets as the targets of jumps.
ghost use Rattle.std.specs.Prelude.{◌≡◌, List, false, IfOk, IfSome, IfNone, OnOk};
ghost use Rattle.flat_code.specs.Codes.{are_ops};
ghost use Rattle.flat_code.specs.Ops.{IsOp, OpData};
ghost use Rattle.stl_codegen.specs.CompiledBlock.{op_with_target, offset_of_statement, placed_ops};
ghost use Rattle.stl_codegen.specs.Places.{AreStatementOffsets, extended_starts};

use flat_code::{Op, Operand};
use plc_base::NoMemory;
use std::alloc::Global;

/// The offsets at which the statements of ops begin, and the end of the code; those that don't fit
/// 32 bits are left out.
#[derive(Drop)]
struct Offsets {
    starts: Vec<u32>,
    end: Option<u32>,
}

impl Offsets {
    ghost use Rattle.std.specs.Prelude.{◌≡◌};
    ghost use Rattle.stl_codegen.specs.Places.{offset_in_table};

    /// The offset of a statement; behind the last one the end of the code.
    fn of(&self, statement: u32) -> Option<u32>
        ensures { result ≡ offset_in_table self.now.starts.items self.now.end statement }
    {
        match self.starts.get(statement as usize) {
            Some(start) => Some(*start),
            None => self.end,
        }
    }
}

/// Notes an offset where a statement begins there.
fn note_start(starts: &mut Vec<u32>, at: u32, begins: bool) -> Result<(), NoMemory>
    ensures { OnOk result (starts.new.items ≡ extended_starts starts.old.items at begins) }
{
    if begins {
        starts.push(at)?;
    }
    Ok(())
}

/// The offsets of the statements of ops.
fn offsets_of(alloc: Global, ops: &[Op]) -> Result<Offsets, NoMemory>
    ensures { IfOk result (λ o. AreStatementOffsets o.starts.items o.end ops.now) }
{
    let mut starts = Vec::new(alloc);
    let mut at = 0_u32;
    let mut begins = true;
    for op in ops {
        note_start(&mut starts, at, begins)?;
        let Some(end) = at.checked_add(op.size()) else {
            return Ok(Offsets { starts, end: None });
        };
        at = end;
        begins = op.last;
    }
    Ok(Offsets {
        starts,
        end: Some(at),
    })
}

/// An op with a byte offset as its target, if it is a jump; `None` where the offset doesn't fit.
#[tactic(auto, unfolding(flat_code::specs::Ops::is_op, flat_code::specs::Table::admits))]
fn op_with_offset(op: &Op, offsets: &Offsets) -> Option<Op>
    ensures some { IfSome result (λ placed. (ops : List OpData)
        → AreStatementOffsets offsets.now.starts.items offsets.now.end ops
        → placed ≡ op_with_target (offset_of_statement ops) op.now) }
    ensures none { IfNone result ((ops : List OpData)
        → AreStatementOffsets offsets.now.starts.items offsets.now.end ops
        → IsOp (op_with_target (offset_of_statement ops) op.now) → ⊥) }
{
    match op.operand {
        Operand::Jump { kind, target } => Some(Op {
            code: op.code,
            last: op.last,
            operand: Operand::Jump {
                kind,
                target: offsets.of(target)?,
            },
        }),
        _ => Some(*op),
    }
}

/// The ops of a block with byte offsets as targets, of ops whose targets are numbers of statements.
/// `None` where a jump leads to an offset that doesn't fit 32 bits: then they are no ops.
///
/// # Errors
///
/// `NoMemory` where memory is wanting.
pub fn place_targets(alloc: Global, ops: &[Op]) -> Result<Option<Vec<Op>>, NoMemory>
    ensures placed { IfOk result (λ made. IfSome made (λ v. v.items ≡ placed_ops ops.now)) }
    ensures none { IfOk result (λ made. IfNone made (are_ops (placed_ops ops.now) ≡ false)) }
{
    let offsets = offsets_of(alloc, ops)?;
    let mut placed = Vec::new(alloc);
    for op in ops {
        let Some(aimed) = op_with_offset(op, &offsets) else {
            return Ok(None);
        };
        placed.push(aimed)?;
    }
    Ok(Some(placed))
}
