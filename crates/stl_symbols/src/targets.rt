use plc_base::{BlockId, Place, Width};

/// What a symbol names.
#[derive(Clone, Copy, Debug, PartialEq, Eq)]
pub enum Target {
    /// A variable in I, Q or M, or a peripheral one, with number 0; whether its address was `PI` or
    /// `PQ` isn't kept.
    Variable { place: Place, width: Width },
    Timer { number: u16 },
    Counter { number: u16 },
    Block { id: BlockId },
}
