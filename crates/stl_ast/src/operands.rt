use crate::blocks::PathStep;
use crate::literals::Literal;
use crate::names::{BlockName, Name};
use crate::sequences::Sequence;
use plc_base::{Flag, Width};

/// The letters of an address: `I`, `Q`, `M`, `DB..`, `DI..`, `L`, `PI..`, `PQ..`.
#[derive(Clone, Copy, Debug, PartialEq, Eq)]
pub enum Letters {
    I,
    Q,
    M,
    Db,
    Di,
    L,
    Pi,
    Pq,
}

/// What has a number that memory can give.
#[derive(Clone, Copy, Debug, PartialEq, Eq)]
pub enum Numbered {
    Timer,
    Counter,
    /// A data block for the DB register.
    Db,
    /// A data block for the DI register.
    Di,
}

/// How a path begins.
#[derive(Drop)]
pub enum PathHead {
    /// At a declared name of the block.
    Local { name: Name },
    /// At a component of a data block, whose name is the first step.
    InBlock { name: BlockName },
    /// At a quoted symbol that is the whole operand.
    Symbol { name: Name },
}

/// The operand of a statement, or the actual parameter of a call.
/// - `Direct`: an address, as `MW 2` or `DB10.DBX 0.1` (`block` is the data block before it, and
///   `bit` is 0 where no bit is meant).
/// - `Named`: a path, as `#motor.speed[2]`, or a symbol.
/// - `ByMemory`: an area with a pointer in memory, as `MW [MD 4]`; `NumberBy`: a timer, a counter
///   or a data block whose number stands in memory, as `T [MW 4]`. `from` and `byte` are the area
///   and the byte in brackets.
/// - `ByRegister`: `MW [AR1, P#2.0]`, or without an area `W [AR1, P#2.0]`; `register` is 1 for AR1
///   and 2 for AR2, and `bits` is the constant counted in bits.
/// - `Pointer`: `P#2.0` or `P#M 2.0`.
/// - `OfStatus`: a condition of the status word; `Other`: `STW`, `DBLG`, `DBNO`, `DILG`, `DINO` or
///   `AR2`.
/// - `OpenBlock`: the operand of `OPN`, for the DI register where `di` is true.
/// - `Called`: the block of CALL, UC or CC; the actual parameters stand in the statement.
#[derive(Drop)]
pub enum Operand {
    Nothing,
    Direct {
        block: Option<BlockName>,
        area: Letters,
        width: Width,
        byte: u16,
        bit: u8,
    },
    Timer {
        number: u16,
    },
    Counter {
        number: u16,
    },
    Named {
        head: PathHead,
        steps: Sequence<PathStep>,
    },
    ByMemory {
        area: Letters,
        width: Width,
        from: Letters,
        byte: u16,
    },
    NumberBy {
        what: Numbered,
        from: Letters,
        byte: u16,
    },
    ByRegister {
        area: Option<Letters>,
        width: Width,
        register: u8,
        bits: u32,
    },
    Pointer {
        area: Option<Letters>,
        byte: u16,
        bit: u8,
    },
    Constant {
        value: Literal,
    },
    Label {
        name: Name,
    },
    OfStatus {
        flag: Flag,
    },
    Other {
        name: Name,
    },
    OpenBlock {
        di: bool,
        name: BlockName,
    },
    Called {
        name: BlockName,
        instance: Option<BlockName>,
    },
}
