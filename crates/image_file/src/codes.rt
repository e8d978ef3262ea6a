//! The ops of a block's code.
ghost use Rattle.std.specs.Prelude.{◌≡◌, ◌==◌, ◌&&◌, ◌+◌, ◌<◌, ◌≤◌, ◌^◌, length, None, IfOk, IfSome, true, suc, if◌then◌else◌};
ghost use Rattle.flat_code.specs.Codes.{ops_from, stop_at, code_bytes};
ghost use Rattle.flat_code.specs.OpCodes.{op_code_of};
ghost use Rattle.flat_code.specs.declared.operations.EndOperation.TheVariants as ends;
ghost use Rattle.flat_code.specs.declared.operations.Operation.TheVariants as operation;

use crate::numbers::BLOCK_END;
use flat_code::{Op, decode_op};
use plc_base::NoMemory;
use std::alloc::Global;

/// The ops that code begins with, and the offset of the code's fault 5, if it has one.
#[derive(Drop)]
pub(crate) struct OpsFound {
    pub ops: Vec<Op>,
    pub fault: Option<u32>,
}

/// Whether an op is BE with the end mark.
pub(crate) fn is_block_end(op: &Op) -> bool
    ensures { result ≡ (op.now.code == op_code_of (operation.End ends.Be) && op.now.last) }
{
    op.code == BLOCK_END && op.last
}

/// How many ops of its statement stand up to an op, behind so many.
pub(crate) fn count_behind_op(op: &Op, count: u8) -> u8
    requires { count < 255 }
    ensures { result ≡ (if op.now.last then 0 else suc count) }
{
    if op.last { 0 } else { count + 1 }
}

/// The ops of code. The fault is the 65th op of a statement, or a place where no op begins, or the
/// last op, where it isn't BE with the end mark.
pub(crate) fn ops_of_code(alloc: Global, code: &[u8]) -> Result<OpsFound, NoMemory>
    requires { length code.now < 2 ^ 32 }
    ensures fault { IfOk result (λ r. r.fault
        ≡ stop_at true (ops_from (length code.now) code.now).0 (ops_from
        (length code.now) code.now).1) }
    ensures within { IfOk result (λ r. IfSome r.fault (λ at. at ≤ length code.now)) }
    ensures size { IfOk result (λ r. length (code_bytes r.ops.items) ≤ length code.now) }
    ensures ops { IfOk result (λ r. r.fault ≡ None → r.ops.items
        ≡ (ops_from (length code.now) code.now).0) }
{
    let mut ops = Vec::new(alloc);
    let mut at = 0;
    let mut last = 0;
    let mut ended = false;
    let mut count = 0;
    while let Ok(found) = decode_op(code, at) {
        if count == 64 {
            return Ok(OpsFound {
                ops,
                fault: Some(at),
            });
        }
        ended = is_block_end(&found.0);
        count = count_behind_op(&found.0, count);
        ops.push(found.0)?;
        last = at;
        at = found.1;
    }
    if (at as usize) < code.len() {
        return Ok(OpsFound {
            ops,
            fault: Some(at),
        });
    }
    if !ended {
        return Ok(OpsFound {
            ops,
            fault: Some(last),
        });
    }
    Ok(OpsFound { ops, fault: None })
}
