//! The numbers that operands have for jumps, conditions of the status word, timers, registers and
//! called blocks.
ghost use Rattle.std.specs.Prelude.{◌≡◌, ◌<◌, ◌≤◌};
ghost use Rattle.flat_code.specs.Kinds.{jump_of_number as jump_of_kind, jump_number, flag_of as flag_of_condition, condition_number as condition_of_flag};

use plc_base::Flag;

/// The kind of timers in the operand of a timer or counter.
pub const TIMER_KIND: u8 = 1;

/// The kind of counters in the operand of a timer or counter.
pub const COUNTER_KIND: u8 = 2;

/// The number of address register 1 in a register-indirect operand.
pub const AR1_NUMBER: u8 = 1;

/// The number of the data block register DB in the operand of OPN.
pub const DB_REGISTER_NUMBER: u8 = 1;

/// The number of the data block register DI in the operand of OPN.
pub const DI_REGISTER_NUMBER: u8 = 2;

/// The number of the kind OB in images.
pub(crate) const ORGANIZATION_BLOCK: u8 = 1;

/// The number of the kind FC in images and in the operand of a call.
pub const FUNCTION: u8 = 2;

/// The number of the kind FB in images and in the operand of a call.
pub const FUNCTION_BLOCK: u8 = 3;

/// The number of the kind SFC in the operand of a call; no block of an image has it.
pub const SYSTEM_FUNCTION: u8 = 5;

/// The jump instructions (manual: logic control instructions).
#[derive(Clone, Copy, Debug, PartialEq, Eq)]
pub enum JumpOperation {
    Ju,
    Jl,
    Jc,
    Jcn,
    Jcb,
    Jnb,
    Jbi,
    Jnbi,
    Jo,
    Jos,
    Jz,
    Jn,
    Jp,
    Jm,
    Jpz,
    Jmz,
    Juo,
    Loop,
}

/// The jumps by their kinds.
pub static JUMPS: [JumpOperation; 18] = [
    JumpOperation::Ju,
    JumpOperation::Jl,
    JumpOperation::Jc,
    JumpOperation::Jcn,
    JumpOperation::Jcb,
    JumpOperation::Jnb,
    JumpOperation::Jbi,
    JumpOperation::Jnbi,
    JumpOperation::Jo,
    JumpOperation::Jos,
    JumpOperation::Jz,
    JumpOperation::Jn,
    JumpOperation::Jp,
    JumpOperation::Jm,
    JumpOperation::Jpz,
    JumpOperation::Jmz,
    JumpOperation::Juo,
    JumpOperation::Loop,
];

/// The jump of a kind.
#[tactic(auto, unfolding(crate::specs::Kinds::jump_of_number))]
pub fn jump_of_number(kind: u8) -> JumpOperation
    requires { kind < 18 }
    ensures { result ≡ jump_of_kind kind }
{
    JUMPS[kind as usize]
}

impl JumpOperation {
    /// The kind of the jump.
    pub fn kind(self) -> u8
        ensures { result ≡ jump_number self }
    {
        self as u8
    }
}

/// The conditions by their numbers, the first of which is 1.
pub static CONDITIONS: [Flag; 10] = [
    Flag::Br,
    Flag::Ov,
    Flag::Os,
    Flag::EqZero,
    Flag::NeZero,
    Flag::GtZero,
    Flag::LtZero,
    Flag::GeZero,
    Flag::LeZero,
    Flag::Uo,
];

/// What the condition of a number asks of the status word.
#[tactic(auto, unfolding(crate::specs::Kinds::flag_of))]
pub fn flag_of(condition: u8) -> Flag
    requires from_1 { 1 ≤ condition }
    requires to_10 { condition ≤ 10 }
    ensures { result ≡ flag_of_condition condition }
{
    CONDITIONS[condition as usize - 1]
}

/// The number of a condition.
pub fn condition_number(flag: Flag) -> u8
    ensures { result ≡ condition_of_flag flag }
{
    match flag {
        Flag::Br => 1,
        Flag::Ov => 2,
        Flag::Os => 3,
        Flag::EqZero => 4,
        Flag::NeZero => 5,
        Flag::GtZero => 6,
        Flag::LtZero => 7,
        Flag::GeZero => 8,
        Flag::LeZero => 9,
        Flag::Uo => 10,
    }
}
