//! The statements of a code block.
ghost use Rattle.std.specs.Prelude.{◌≡◌, ◌<◌, ◌++◌, length, IfOk};
ghost use Rattle.std.specs.List.Sorted.{IsStrictlySortedBy};
ghost use Rattle.std.specs.Ordering.{nat_cmp};
ghost use Rattle.flat_code.specs.Codes.{code_bytes};
ghost use Rattle.stl_list.specs.Runs.{marks_with_target, statement_number_at, start_here, statement_starts, target_marks};

use flat_code::{Op, Operand};
use plc_base::NoMemory;
use std::alloc::Global;

/// Whether an op is the last one of its statement.
pub(crate) fn is_last(op: &Op) -> bool
    ensures { result ≡ op.now.last }
{
    op.last
}

/// Notes an offset where a statement begins there.
fn note_start(starts: &mut Vec<u32>, at: u32, begins: bool) -> Result<(), NoMemory>
    ensures { IfOk result (λ _. starts.new.items ≡ starts.old.items ++ start_here at begins) }
{
    if begins {
        starts.push(at)?;
    }
    Ok(())
}

/// The offsets at which the statements of a block begin.
#[tactic(auto, unfolding(crate::specs::Runs::statement_starts))]
pub(crate) fn starts(alloc: Global, ops: &[Op]) -> Result<Vec<u32>, NoMemory>
    requires { length (code_bytes ops.now) < 4294967296 }
    ensures { IfOk result (λ v. v.items ≡ statement_starts ops.now) }
{
    let mut starts = Vec::new(alloc);
    let mut at = 0_u32;
    let mut begins = true;
    for op in ops {
        note_start(&mut starts, at, begins)?;
        at += op.size();
        begins = op.last;
    }
    Ok(starts)
}

/// The number of the statement that begins at an offset; where none does, how many there are.
#[tactic(auto, unfolding(crate::specs::Runs::statement_number_at))]
pub(crate) fn statement_number_at(starts: &[u32], offset: u32) -> usize
    requires { IsStrictlySortedBy nat_cmp starts.now }
    ensures { result ≡ statement_number_at starts.now offset }
{
    match starts.binary_search(&offset) {
        Ok(number) => number,
        Err(_) => starts.len(),
    }
}

/// Marks the statement at which an op goes on, if it is a jump.
fn mark(marks: &mut [bool], starts: &[u32], op: &Op)
    requires { IsStrictlySortedBy nat_cmp starts.now }
    ensures { marks.new ≡ marks_with_target starts.now marks.old op.now.operand }
{
    if let Operand::Jump { target, .. } = op.operand {
        let number = statement_number_at(starts, target);
        if number < marks.len() {
            marks[number] = true;
        }
    }
}

/// Of each statement whether a jump leads to it.
#[tactic(auto, unfolding(crate::specs::Runs::target_marks))]
pub(crate) fn targets(alloc: Global, starts: &[u32], ops: &[Op]) -> Result<Vec<bool>, NoMemory>
    requires { IsStrictlySortedBy nat_cmp starts.now }
    ensures { IfOk result (λ marks. marks.items ≡ target_marks starts.now ops.now) }
{
    let mut marks = vec![in alloc; false; starts.len()]?;
    for op in ops {
        mark(&mut marks, starts, op);
    }
    Ok(marks)
}
