//! The calls of a block.
ghost use Rattle.std.specs.Prelude.{◌≡◌};
ghost use Rattle.stack_bound.specs.Calls.{callee_of_op};

use flat_code::{Op, Operand, Operation, kind_of_code};
use plc_base::BlockId;

/// The block that an op calls.
pub(crate) fn callee_of_op(op: &Op) -> Option<BlockId>
    ensures { result ≡ callee_of_op op.now }
{
    let Operation::Call(_) = op.operation() else {
        return None;
    };
    let Operand::Called { kind, number, .. } = op.operand else {
        return None;
    };
    Some(BlockId {
        kind: kind_of_code(kind)?,
        number,
    })
}
