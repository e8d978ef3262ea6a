use plc_base::{Area, BlockId, Flag, Place, Width};
use stl_ast::{Numbered, PartKind, Simple};

/// Whether a place can be read (`Inputs`), written (`Outputs`), or both: an address in PI can be
/// read, one in PQ can be written. Every other place can be both, and so can a symbol of the
/// peripheral area, whose place doesn't keep which of the two it was.
#[derive(Clone, Copy, Debug, PartialEq, Eq)]
pub enum Side {
    Both,
    Inputs,
    Outputs,
}

/// A register that stands as an operand.
/// - `Stw`: the status word.
/// - `Dblg`, `Dbno`: length and number of the data block that is open as DB.
/// - `Dilg`, `Dino`: length and number of the data block that is open as DI.
/// - `Ar2`: address register 2.
#[derive(Clone, Copy, Debug, PartialEq, Eq)]
pub enum Register {
    Stw,
    Dblg,
    Dbno,
    Dilg,
    Dino,
    Ar2,
}

/// What an operand names, with symbols and variables resolved.
/// - `Direct`: a place, from an address, a symbol or a variable that isn't a function's parameter;
///   `number` of the place is that of a data block where the statement opens one. `declared` is the
///   type of a variable.
/// - `Parameter`: a parameter of the function that the statement stands in; `index` is that in a
///   call.
/// - `Composite`: a structure or an array. `Date`: a DATE_AND_TIME.
/// - `ByMemory`: a place by a pointer in memory, which stands in the area `from` from byte `byte`
///   on.
/// - `ByRegister`: a place by an address register, `bits` past the one it points to; without `area`
///   the register has the area.
/// - `NumberBy`: a timer, a counter or a data block, by `what`, whose number stands in a word of
///   memory, in the area `from` from byte `byte` on.
/// - `Constant`: its value stands in the operand. `Pointer`: a pointer constant.
/// - `OfStatus`: a flag of the status word, as in A OV.
/// - `OpenBlock`: the data block that OPN opens. `Block`: a symbol of a block.
/// - `Called`: the block that a call calls, with the number of the instance where it has one.
#[derive(Clone, Copy, Debug, PartialEq, Eq)]
pub enum ResolvedOperand {
    Nothing,
    Direct {
        place: Place,
        width: Width,
        side: Side,
        declared: Option<Simple>,
    },
    Parameter {
        index: usize,
        section: PartKind,
        declared: Simple,
    },
    Composite,
    Date,
    ByMemory {
        area: Area,
        width: Width,
        from: Area,
        byte: u16,
    },
    ByRegister {
        area: Option<Area>,
        width: Width,
        register: u8,
        bits: u32,
    },
    Timer {
        number: u16,
    },
    Counter {
        number: u16,
    },
    NumberBy {
        what: Numbered,
        from: Area,
        byte: u16,
    },
    Constant,
    Pointer {
        area: Option<Area>,
        byte: u16,
        bit: u8,
    },
    Label,
    OfStatus {
        flag: Flag,
    },
    Register {
        which: Register,
    },
    OpenBlock {
        di: bool,
        number: u16,
    },
    Called {
        block: BlockId,
        instance: Option<u16>,
    },
    Block,
}

/// What an operand comes to. `Unknown` has a name or a component that isn't there. `Unjudged` isn't
/// checked: it stands on a declaration or a block that breaks a rule itself, or that is absent.
#[derive(Clone, Copy, Debug, PartialEq, Eq)]
pub enum Resolution {
    Resolved { view: ResolvedOperand },
    Unknown,
    Unjudged,
}
