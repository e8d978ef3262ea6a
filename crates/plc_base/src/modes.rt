use crate::blocks::BlockId;

/// Where a stop happened: a block and a line of its source, counted from 1.
#[derive(Clone, Copy, Debug, PartialEq, Eq)]
pub struct Spot {
    pub block: BlockId,
    pub line: u32,
}

/// The operating mode of the controller. `Stop` has the stop cause, and the spot where an
/// organization block stood when the mode changed.
#[derive(Clone, Copy, Debug, PartialEq, Eq)]
pub enum Mode {
    Run,
    Startup,
    Stop { cause: u8, at: Option<Spot> },
}
