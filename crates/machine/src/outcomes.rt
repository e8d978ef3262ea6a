use crate::system_calls::Inputs;
use frames::Binding;

/// What came of a statement.
#[derive(Drop)]
pub enum Outcome {
    /// The activation goes on.
    Went,
    /// The outermost block has returned, and no frame stands.
    Ended,
    /// A synchronous error of this code (manual: OB 121 and OB 122): the statement has done nothing
    /// but go to the next one.
    SyncError {
        code: u8,
    },
    /// A system function is to do its work: the numbers of its IN parameters in their order, and
    /// where RET_VAL goes.
    SysCall {
        number: u16,
        inputs: Inputs,
        result: Option<Binding>,
    },
    /// STOP, with its cause: 6 block depth, 7 local data.
    Stop {
        cause: u8,
    },
}
