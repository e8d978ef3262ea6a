use plc_base::BlockId;

/// What monitoring records of one statement: its block and source line, and the registers after
/// it.
#[derive(Clone, Copy, Debug, PartialEq, Eq)]
pub struct MonRecord {
    /// The monitored block.
    pub block: BlockId,
    /// The statement's line in the source, counted from 1.
    pub line: u32,
    /// All nine bits of the status word, /FC in bit 0.
    pub stw: u16,
    /// Accumulator 1.
    pub a1: u32,
    /// Accumulator 2.
    pub a2: u32,
}

/// A record of diagnostics (manual: an entry of the diagnostic buffer).
#[derive(Clone, Copy, Debug, Default, PartialEq, Eq)]
pub struct DiagRecord {
    /// The number of the history's entry that made it, counted from 1.
    pub entry: u64,
    /// What happened: 1 time error, 2 lost request, 3 organization block not loaded, 4 synchronous
    /// error, 5 STOP, 6 restart.
    pub code: u16,
    /// The organization block, error code or cause that the code is about.
    pub info: u16,
}
