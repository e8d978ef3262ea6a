//! The code of a block in place: its bytes, and for each of them what begins there.
ghost use Rattle.std.specs.Prelude.{◌≡◌, ◌<◌, ◌≤◌, ◌-◌, ◌++◌, ◌∷◌, true, suc, length, replicate, if◌then◌else◌, OnOk, IfOk};
ghost use Rattle.flat_code.specs.Codes.{code_bytes, are_ops};
ghost use Rattle.image_file.specs.Marks.{inside_mark, marks_from};
ghost use Rattle.image_file.specs.Tables.{no_index};

use crate::checking::is_last;
use crate::tables::NOWHERE;
use crate::writing::code_len;
use flat_code::{Op, encode_op};
use plc_base::NoMemory;
use std::alloc::Global;

/// The mark of an op with which no statement begins.
const INSIDE: u32 = 0xFFFF_FFFE;

/// The mark of an op behind so many statements.
fn mark_of_op(begins: bool, statements: u32) -> u32
    ensures { result ≡ (if begins then statements else inside_mark) }
{
    if begins { statements } else { INSIDE }
}

/// How many statements end up to an op, behind so many.
fn statements_behind(last: bool, statements: u32) -> u32
    requires { statements < no_index }
    ensures { result ≡ (if last then suc statements else statements) }
{
    if last { statements + 1 } else { statements }
}

/// Marks the bytes of an op.
fn mark(marks: &mut Vec<u32>, mark: u32, size: u32) -> Result<(), NoMemory>
    requires some { 1 ≤ size }
    requires few { size ≤ 11 }
    ensures { OnOk result (marks.new.items
        ≡ marks.old.items ++ mark ∷ replicate (size - 1) no_index) }
{
    marks.push(mark)?;
    let end = marks.len() + (size as usize - 1);
    marks.resize(end, NOWHERE)
}

/// The bytes of ops and their marks.
pub(crate) fn bytes_and_marks(alloc: Global, ops: &[Op]) -> Result<(Vec<u8>, Vec<u32>), NoMemory>
    requires { length (code_bytes ops.now) ≤ no_index }
    ensures bytes { IfOk result (λ r. r.0.items ≡ code_bytes ops.now) }
    ensures marks { IfOk result (λ r. r.1.items ≡ marks_from 0 true ops.now) }
    ensures ops { IfOk result (λ r. are_ops ops.now ≡ true) }
{
    let size = code_len(ops) as usize;
    let mut bytes = Vec::with_capacity(alloc, size)?;
    let mut marks = Vec::with_capacity(alloc, size)?;
    let mut statements = 0;
    let mut begins = true;
    for op in ops {
        encode_op(op, &mut bytes)?;
        mark(&mut marks, mark_of_op(begins, statements), op.size())?;
        begins = is_last(op);
        statements = statements_behind(begins, statements);
    }
    Ok((bytes, marks))
}
