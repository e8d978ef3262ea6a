use plc_base::{Area, Width};

/// The operand of an op: a variant for each form of the coding, 00 to 0B and 0D to 0F.
#[derive(Clone, Copy, Debug, PartialEq, Eq)]
pub enum Operand {
    /// Form 00: none.
    Nothing,
    /// Form 01: a constant.
    Literal {
        value: u32,
    },
    /// Form 02: a fixed place, as `MW 2` (manual: direct addressing). `bit` is 0 to 7.
    Direct {
        area: Area,
        width: Width,
        byte: u16,
        bit: u8,
    },
    /// Form 03: the place whose pointer stands in memory, as `MW [LD 4]` (manual: memory-indirect
    /// addressing). `from` and `byte` are the place of the pointer.
    ByMemory {
        area: Area,
        width: Width,
        from: Area,
        byte: u16,
    },
    /// Form 04: an offset in bits to address register 1 or 2, as `MW [AR1, P#2.0]` (manual:
    /// register-indirect addressing). No area: it is that of the pointer in the register.
    ByRegister {
        area: Option<Area>,
        width: Width,
        register: u8,
        bits: u32,
    },
    /// Form 05: a parameter of the function that runs, by its index from 0.
    Parameter {
        index: u8,
        width: Width,
    },
    /// Form 06: a timer (kind 1) or counter (kind 2).
    Numbered {
        kind: u8,
        number: u16,
    },
    /// Form 07: the timer or counter whose number stands in a word of memory.
    NumberedBy {
        kind: u8,
        from: Area,
        byte: u16,
    },
    /// Form 08: a jump of this kind, 0 to 17, to a byte offset in the block's code.
    Jump {
        kind: u8,
        target: u32,
    },
    /// Form 09: a condition of the status word, 1 to 10.
    OfStatus {
        condition: u8,
    },
    /// Form 0A: the data block that the statement opens first.
    UseDb {
        number: u16,
    },
    /// Form 0B: what a CALL passes for the parameter of this index.
    Pass {
        index: u8,
        actual: Passed,
    },
    /// Form 0D: a function (kind 2), function block (3) or system function (5) to call, and the
    /// data block that is its instance, or 0.
    Called {
        kind: u8,
        number: u16,
        instance: u16,
    },
    /// Form 0E: the data block to open in the DB (1) or DI (2) register.
    OpenBlock {
        register: u8,
        number: u16,
    },
    /// Form 0F: the data block whose number stands in a word of memory.
    OpenBy {
        register: u8,
        from: Area,
        byte: u16,
    },
}

/// What a CALL passes for a parameter.
#[derive(Clone, Copy, Debug, PartialEq, Eq)]
pub enum Passed {
    /// Form 01: a constant.
    Literal {
        value: u32,
    },
    /// Form 02: a fixed place.
    Direct {
        area: Area,
        width: Width,
        byte: u16,
        bit: u8,
    },
    /// Form 05: a parameter of the function that calls.
    Parameter {
        index: u8,
        width: Width,
    },
    /// Form 0C: a fixed place in a data block that is named.
    InBlock {
        number: u16,
        area: Area,
        width: Width,
        byte: u16,
        bit: u8,
    },
}

impl Operand {
    ghost use Rattle.std.specs.Prelude.{◌≡◌, ◌≤◌, ◌+◌, length};
    ghost use Rattle.flat_code.specs.Forms.{payload};

    /// How many bytes an op with the operand takes: two, and the payload.
    #[tactic(auto, unfolding(crate::specs::Forms::direct_coding, crate::specs::Forms::passed_coding))]
    pub(crate) fn op_size(&self) -> u32
        ensures size { result ≡ 2 + length (payload self.now) }
        ensures small { result ≤ 11 }
    {
        match *self {
            Operand::Nothing => 2,
            Operand::OfStatus { .. } => 3,
            Operand::Parameter { .. } | Operand::UseDb { .. } => 4,
            Operand::Numbered { .. } | Operand::OpenBlock { .. } => 5,
            Operand::Literal { .. } | Operand::NumberedBy { .. } | Operand::OpenBy { .. } => 6,
            Operand::Direct { .. } | Operand::ByMemory { .. } => 7,
            Operand::Jump { .. } | Operand::Called { .. } => 7,
            Operand::ByRegister { .. } => 9,
            Operand::Pass {
                actual: Passed::Literal { .. },
                ..
            } => 8,
            Operand::Pass {
                actual: Passed::Direct { .. },
                ..
            } => 9,
            Operand::Pass {
                actual: Passed::Parameter { .. },
                ..
            } => 6,
            Operand::Pass {
                actual: Passed::InBlock { .. },
                ..
            } => 11,
        }
    }
}
