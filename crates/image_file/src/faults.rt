use plc_base::BlockId;

/// A fault of an image: the offset in bytes at which it lies, and its code, 1 to 10.
#[derive(Clone, Copy, Debug, PartialEq, Eq)]
pub struct LoadFault {
    pub at: u32,
    pub code: u16,
}

/// A fault of a program: its code, 5 to 9, the block in which it lies, and the offset in the
/// block's code of the op that has it. The offset is 0 for a 9, and where there is no op.
#[derive(Clone, Copy, Debug, PartialEq, Eq)]
pub struct VerifyFault {
    pub block: BlockId,
    pub at: u32,
    pub code: u16,
}
