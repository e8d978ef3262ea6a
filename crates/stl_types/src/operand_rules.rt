ghost use Rattle.std.specs.Prelude.{◌≡◌};
ghost use Rattle.stl_types.specs.OperandRules.{operand_rule_of};

use stl_ast::{Mnemonic, Simple};

/// The operands that an instruction takes; instructions of one form take the same ones.
#[derive(Clone, Copy, Debug, PartialEq, Eq)]
pub enum OperandRule {
    /// No operand: the empty statement, `A(` to `)`, SET, `MCR(`, +I, BEU and many others.
    Bare,
    /// A, AN, ON, X, XN.
    ReadsBit,
    /// O, which also stands alone.
    ReadsBitOrBare,
    /// `=`, FP, FN.
    WritesBit,
    /// S.
    Sets,
    /// R.
    Resets,
    /// L.
    Loads,
    /// T.
    Transfers,
    /// LC.
    LoadsBcd,
    LoadsAr1,
    LoadsAr2,
    StoresAr1,
    StoresAr2,
    /// `+AR1`, `+AR2`.
    AddsToAr,
    /// A decimal number up to `most`: NOP, BLD, INC, DEC.
    Counts { most: u16 },
    /// A shift or rotation: a count up to `most`, or nothing.
    Shifts { most: u16 },
    /// `+` with a constant.
    Adds,
    /// Word logic: a constant of the type, or nothing.
    Combines { of: Simple },
    Jumps,
    /// SP, SE, SD, SS, SF.
    StartsTimer,
    /// FR.
    Enables,
    /// CU, CD.
    StepsCounter,
    /// CALL, UC, CC.
    Calls,
    /// OPN.
    Opens,
}

/// The form of an instruction.
#[tactic(auto, unfolding(crate::specs::OperandRules::operand_rule_of))]
pub(crate) fn operand_rule_of(code: Mnemonic) -> OperandRule
    ensures { result ≡ operand_rule_of code }
{
    match code {
        Mnemonic::Nop => OperandRule::Counts { most: 1 },
        Mnemonic::Bld | Mnemonic::Inc | Mnemonic::Dec => OperandRule::Counts { most: 255 },
        Mnemonic::A | Mnemonic::An | Mnemonic::On | Mnemonic::X | Mnemonic::Xn =>
            OperandRule::ReadsBit,
        Mnemonic::O => OperandRule::ReadsBitOrBare,
        Mnemonic::Assign | Mnemonic::Fp | Mnemonic::Fn => OperandRule::WritesBit,
        Mnemonic::S => OperandRule::Sets,
        Mnemonic::R => OperandRule::Resets,
        Mnemonic::L => OperandRule::Loads,
        Mnemonic::T => OperandRule::Transfers,
        Mnemonic::Lc => OperandRule::LoadsBcd,
        Mnemonic::Lar1 => OperandRule::LoadsAr1,
        Mnemonic::Lar2 => OperandRule::LoadsAr2,
        Mnemonic::Tar1 => OperandRule::StoresAr1,
        Mnemonic::Tar2 => OperandRule::StoresAr2,
        Mnemonic::AddAr1 | Mnemonic::AddAr2 => OperandRule::AddsToAr,
        Mnemonic::Add => OperandRule::Adds,
        Mnemonic::Aw | Mnemonic::Ow | Mnemonic::Xow => OperandRule::Combines { of: Simple::Word },
        Mnemonic::Ad | Mnemonic::Od | Mnemonic::Xod => OperandRule::Combines { of: Simple::Dword },
        Mnemonic::Ssi | Mnemonic::Slw | Mnemonic::Srw => OperandRule::Shifts { most: 15 },
        Mnemonic::Ssd | Mnemonic::Sld | Mnemonic::Srd | Mnemonic::Rld | Mnemonic::Rrd => {
            OperandRule::Shifts { most: 32 }
        }
        Mnemonic::Ju
        | Mnemonic::Jl
        | Mnemonic::Jc
        | Mnemonic::Jcn
        | Mnemonic::Jcb
        | Mnemonic::Jnb
        | Mnemonic::Jbi
        | Mnemonic::Jnbi
        | Mnemonic::Jo
        | Mnemonic::Jos
        | Mnemonic::Jz
        | Mnemonic::Jn
        | Mnemonic::Jp
        | Mnemonic::Jm
        | Mnemonic::Jpz
        | Mnemonic::Jmz
        | Mnemonic::Juo
        | Mnemonic::Loop => OperandRule::Jumps,
        Mnemonic::Sp | Mnemonic::Se | Mnemonic::Sd | Mnemonic::Ss | Mnemonic::Sf => {
            OperandRule::StartsTimer
        }
        Mnemonic::Fr => OperandRule::Enables,
        Mnemonic::Cu | Mnemonic::Cd => OperandRule::StepsCounter,
        Mnemonic::Call | Mnemonic::Uc | Mnemonic::Cc => OperandRule::Calls,
        Mnemonic::Opn => OperandRule::Opens,
        Mnemonic::Empty
        | Mnemonic::AOpen
        | Mnemonic::AnOpen
        | Mnemonic::OOpen
        | Mnemonic::OnOpen
        | Mnemonic::XOpen
        | Mnemonic::XnOpen
        | Mnemonic::Close
        | Mnemonic::Set
        | Mnemonic::Clr
        | Mnemonic::Not
        | Mnemonic::Save => OperandRule::Bare,
        Mnemonic::Mcra | Mnemonic::Mcrd | Mnemonic::McrOpen | Mnemonic::McrClose =>
            OperandRule::Bare,
        Mnemonic::Car
        | Mnemonic::Tak
        | Mnemonic::Push
        | Mnemonic::Pop
        | Mnemonic::Caw
        | Mnemonic::Cad
        | Mnemonic::Rlda
        | Mnemonic::Rrda
        | Mnemonic::Be
        | Mnemonic::Bec
        | Mnemonic::Beu
        | Mnemonic::Cdb => OperandRule::Bare,
        Mnemonic::AddI
        | Mnemonic::SubI
        | Mnemonic::MulI
        | Mnemonic::DivI
        | Mnemonic::AddD
        | Mnemonic::SubD
        | Mnemonic::MulD
        | Mnemonic::DivD
        | Mnemonic::Mod
        | Mnemonic::Invi
        | Mnemonic::Invd
        | Mnemonic::Negi
        | Mnemonic::Negd => OperandRule::Bare,
        Mnemonic::EqI
        | Mnemonic::NeI
        | Mnemonic::GtI
        | Mnemonic::LtI
        | Mnemonic::GeI
        | Mnemonic::LeI
        | Mnemonic::EqD
        | Mnemonic::NeD
        | Mnemonic::GtD
        | Mnemonic::LtD
        | Mnemonic::GeD
        | Mnemonic::LeD => OperandRule::Bare,
        Mnemonic::Bti | Mnemonic::Itb | Mnemonic::Btd | Mnemonic::Dtb | Mnemonic::Itd =>
            OperandRule::Bare,
    }
}
