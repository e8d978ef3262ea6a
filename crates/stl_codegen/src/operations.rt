ghost use Rattle.std.specs.Prelude.{◌≡◌};
ghost use Rattle.stl_codegen.specs.Operations.{
  add_operation,
  call_operation_of,
  end_operation_of,
  jump_operation_of,
  load_pointer_operation,
  load_operation,
  or_operation,
  store_pointer_operation,
  transfer_operation,
  operation_for,
};

use flat_code::{
    AccuOperation, AddConstant, CallOperation, EndOperation, JumpOperation, Logic, Operation,
    PointerOperation, RelayOperation, Shift,
};
use plc_base::{Check, Compare, TimerKind};
use stl_ast::{Literal, Mnemonic, Operand};
use stl_types::{Register, ResolvedOperand};

/// The jump that an instruction is, if it is one.
pub(crate) fn jump_operation_of(code: Mnemonic) -> Option<JumpOperation>
    ensures { result ≡ jump_operation_of code }
{
    match code {
        Mnemonic::Ju => Some(JumpOperation::Ju),
        Mnemonic::Jl => Some(JumpOperation::Jl),
        Mnemonic::Jc => Some(JumpOperation::Jc),
        Mnemonic::Jcn => Some(JumpOperation::Jcn),
        Mnemonic::Jcb => Some(JumpOperation::Jcb),
        Mnemonic::Jnb => Some(JumpOperation::Jnb),
        Mnemonic::Jbi => Some(JumpOperation::Jbi),
        Mnemonic::Jnbi => Some(JumpOperation::Jnbi),
        Mnemonic::Jo => Some(JumpOperation::Jo),
        Mnemonic::Jos => Some(JumpOperation::Jos),
        Mnemonic::Jz => Some(JumpOperation::Jz),
        Mnemonic::Jn => Some(JumpOperation::Jn),
        Mnemonic::Jp => Some(JumpOperation::Jp),
        Mnemonic::Jm => Some(JumpOperation::Jm),
        Mnemonic::Jpz => Some(JumpOperation::Jpz),
        Mnemonic::Jmz => Some(JumpOperation::Jmz),
        Mnemonic::Juo => Some(JumpOperation::Juo),
        Mnemonic::Loop => Some(JumpOperation::Loop),
        _ => None,
    }
}

/// The call that an instruction is, if it is one.
pub(crate) fn call_operation_of(code: Mnemonic) -> Option<CallOperation>
    ensures { result ≡ call_operation_of code }
{
    match code {
        Mnemonic::Call => Some(CallOperation::Call),
        Mnemonic::Uc => Some(CallOperation::Uc),
        Mnemonic::Cc => Some(CallOperation::Cc),
        _ => None,
    }
}

/// The end of a block that an instruction is, if it is one.
pub(crate) fn end_operation_of(code: Mnemonic) -> Option<EndOperation>
    ensures { result ≡ end_operation_of code }
{
    match code {
        Mnemonic::Be => Some(EndOperation::Be),
        Mnemonic::Bec => Some(EndOperation::Bec),
        Mnemonic::Beu => Some(EndOperation::Beu),
        _ => None,
    }
}

/// O without operand is AND before OR.
fn or_operation(view: ResolvedOperand) -> Operation
    ensures { result ≡ or_operation view }
{
    match view {
        ResolvedOperand::Nothing => Operation::OrBare,
        _ => Operation::Check(Check::O),
    }
}

fn load_operation(view: ResolvedOperand) -> Operation
    ensures { result ≡ load_operation view }
{
    match view {
        ResolvedOperand::Register { which } => match which {
            Register::Stw => Operation::LoadStatus,
            _ => Operation::LoadOpenBlock,
        },
        _ => Operation::Load,
    }
}

fn transfer_operation(view: ResolvedOperand) -> Operation
    ensures { result ≡ transfer_operation view }
{
    match view {
        ResolvedOperand::Register { .. } => Operation::TransferStatus,
        _ => Operation::Transfer,
    }
}

/// LAR1, with address register 2 too.
fn load_pointer_operation(view: ResolvedOperand) -> Operation
    ensures { result ≡ load_pointer_operation view }
{
    match view {
        ResolvedOperand::Register { .. } => Operation::Pointer(PointerOperation::Lar1Ar2),
        _ => Operation::Pointer(PointerOperation::Lar1),
    }
}

/// TAR1, with address register 2 too.
fn store_pointer_operation(view: ResolvedOperand) -> Operation
    ensures { result ≡ store_pointer_operation view }
{
    match view {
        ResolvedOperand::Register { .. } => Operation::Pointer(PointerOperation::Tar1Ar2),
        _ => Operation::Pointer(PointerOperation::Tar1),
    }
}

/// `+` with a constant of 16 or of 32 bits.
fn add_operation(operand: &Operand) -> Operation
    ensures { result ≡ add_operation operand.now }
{
    match operand {
        Operand::Constant {
            value: Literal::Long { .. },
        } => Operation::Add(AddConstant::Dword),
        _ => Operation::Add(AddConstant::Word),
    }
}

/// The operation of an instruction that goes on to the next statement, by what its operand names.
#[tactic(auto, unfolding(crate::specs::Operations::operation_for))]
pub(crate) fn operation_for(code: Mnemonic, operand: &Operand, view: ResolvedOperand) -> Operation
    ensures { result ≡ operation_for code operand.now view }
{
    match code {
        Mnemonic::Nop => Operation::Nop,
        Mnemonic::Bld => Operation::Bld,
        Mnemonic::A => Operation::Check(Check::A),
        Mnemonic::An => Operation::Check(Check::An),
        Mnemonic::O => or_operation(view),
        Mnemonic::On => Operation::Check(Check::On),
        Mnemonic::X => Operation::Check(Check::X),
        Mnemonic::Xn => Operation::Check(Check::Xn),
        Mnemonic::AOpen => Operation::Nest(Check::A),
        Mnemonic::AnOpen => Operation::Nest(Check::An),
        Mnemonic::OOpen => Operation::Nest(Check::O),
        Mnemonic::OnOpen => Operation::Nest(Check::On),
        Mnemonic::XOpen => Operation::Nest(Check::X),
        Mnemonic::XnOpen => Operation::Nest(Check::Xn),
        Mnemonic::Close => Operation::Unnest,
        Mnemonic::Mcra => Operation::Relay(RelayOperation::Activate),
        Mnemonic::Mcrd => Operation::Relay(RelayOperation::Deactivate),
        Mnemonic::McrOpen => Operation::Relay(RelayOperation::Open),
        Mnemonic::McrClose => Operation::Relay(RelayOperation::Close),
        Mnemonic::L => load_operation(view),
        Mnemonic::T => transfer_operation(view),
        Mnemonic::Assign => Operation::Assign,
        Mnemonic::S => Operation::Set,
        Mnemonic::R => Operation::Reset,
        Mnemonic::Fp => Operation::Edge { rising: true },
        Mnemonic::Fn => Operation::Edge { rising: false },
        Mnemonic::Set => Operation::SetRlo,
        Mnemonic::Clr => Operation::ClearRlo,
        Mnemonic::Not => Operation::NegateRlo,
        Mnemonic::Save => Operation::SaveRlo,
        Mnemonic::Lc => Operation::LoadBcd,
        Mnemonic::Lar1 => load_pointer_operation(view),
        Mnemonic::Lar2 => Operation::Pointer(PointerOperation::Lar2),
        Mnemonic::Tar1 => store_pointer_operation(view),
        Mnemonic::Tar2 => Operation::Pointer(PointerOperation::Tar2),
        Mnemonic::Car => Operation::Pointer(PointerOperation::Car),
        Mnemonic::AddAr1 => Operation::Pointer(PointerOperation::AddAr1),
        Mnemonic::AddAr2 => Operation::Pointer(PointerOperation::AddAr2),
        Mnemonic::Tak => Operation::Number(AccuOperation::Tak),
        Mnemonic::Push => Operation::Number(AccuOperation::Push),
        Mnemonic::Pop => Operation::Number(AccuOperation::Pop),
        Mnemonic::Caw => Operation::Number(AccuOperation::Caw),
        Mnemonic::Cad => Operation::Number(AccuOperation::Cad),
        Mnemonic::Inc => Operation::Add(AddConstant::Inc),
        Mnemonic::Dec => Operation::Add(AddConstant::Dec),
        Mnemonic::Add => add_operation(operand),
        Mnemonic::AddI => Operation::Number(AccuOperation::AddI),
        Mnemonic::SubI => Operation::Number(AccuOperation::SubI),
        Mnemonic::MulI => Operation::Number(AccuOperation::MulI),
        Mnemonic::DivI => Operation::Number(AccuOperation::DivI),
        Mnemonic::AddD => Operation::Number(AccuOperation::AddD),
        Mnemonic::SubD => Operation::Number(AccuOperation::SubD),
        Mnemonic::MulD => Operation::Number(AccuOperation::MulD),
        Mnemonic::DivD => Operation::Number(AccuOperation::DivD),
        Mnemonic::Mod => Operation::Number(AccuOperation::Mod),
        Mnemonic::EqI => Operation::CompareInt(Compare::Eq),
        Mnemonic::NeI => Operation::CompareInt(Compare::Ne),
        Mnemonic::GtI => Operation::CompareInt(Compare::Gt),
        Mnemonic::LtI => Operation::CompareInt(Compare::Lt),
        Mnemonic::GeI => Operation::CompareInt(Compare::Ge),
        Mnemonic::LeI => Operation::CompareInt(Compare::Le),
        Mnemonic::EqD => Operation::CompareDint(Compare::Eq),
        Mnemonic::NeD => Operation::CompareDint(Compare::Ne),
        Mnemonic::GtD => Operation::CompareDint(Compare::Gt),
        Mnemonic::LtD => Operation::CompareDint(Compare::Lt),
        Mnemonic::GeD => Operation::CompareDint(Compare::Ge),
        Mnemonic::LeD => Operation::CompareDint(Compare::Le),
        Mnemonic::Bti => Operation::Number(AccuOperation::Bti),
        Mnemonic::Itb => Operation::Number(AccuOperation::Itb),
        Mnemonic::Btd => Operation::Number(AccuOperation::Btd),
        Mnemonic::Dtb => Operation::Number(AccuOperation::Dtb),
        Mnemonic::Itd => Operation::Number(AccuOperation::Itd),
        Mnemonic::Invi => Operation::Number(AccuOperation::Invi),
        Mnemonic::Invd => Operation::Number(AccuOperation::Invd),
        Mnemonic::Negi => Operation::Number(AccuOperation::Negi),
        Mnemonic::Negd => Operation::Number(AccuOperation::Negd),
        Mnemonic::Aw => Operation::Logic(Logic::Aw),
        Mnemonic::Ow => Operation::Logic(Logic::Ow),
        Mnemonic::Xow => Operation::Logic(Logic::Xow),
        Mnemonic::Ad => Operation::Logic(Logic::Ad),
        Mnemonic::Od => Operation::Logic(Logic::Od),
        Mnemonic::Xod => Operation::Logic(Logic::Xod),
        Mnemonic::Ssi => Operation::Shift(Shift::Ssi),
        Mnemonic::Ssd => Operation::Shift(Shift::Ssd),
        Mnemonic::Slw => Operation::Shift(Shift::Slw),
        Mnemonic::Srw => Operation::Shift(Shift::Srw),
        Mnemonic::Sld => Operation::Shift(Shift::Sld),
        Mnemonic::Srd => Operation::Shift(Shift::Srd),
        Mnemonic::Rld => Operation::Shift(Shift::Rld),
        Mnemonic::Rrd => Operation::Shift(Shift::Rrd),
        Mnemonic::Rlda => Operation::Number(AccuOperation::Rlda),
        Mnemonic::Rrda => Operation::Number(AccuOperation::Rrda),
        Mnemonic::Sp => Operation::Start(TimerKind::Sp),
        Mnemonic::Se => Operation::Start(TimerKind::Se),
        Mnemonic::Sd => Operation::Start(TimerKind::Sd),
        Mnemonic::Ss => Operation::Start(TimerKind::Ss),
        Mnemonic::Sf => Operation::Start(TimerKind::Sf),
        Mnemonic::Fr => Operation::Free,
        Mnemonic::Cu => Operation::CountUp,
        Mnemonic::Cd => Operation::CountDown,
        Mnemonic::Opn => Operation::OpenBlock,
        Mnemonic::Cdb => Operation::Exchange,
        _ => Operation::NoOperation,
    }
}
