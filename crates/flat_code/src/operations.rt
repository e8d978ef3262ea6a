ghost use Rattle.std.specs.Prelude.{◌≡◌, ◌<◌};
ghost use Rattle.flat_code.specs.Operations.{operation_of as operation_of_code};

use plc_base::{Check, Compare, TimerKind};

/// The instructions on the accumulators that take no operand. `AddI` to `DivI` are +I, -I, *I and
/// /I, `AddD` to `DivD` the same with D.
#[derive(Clone, Copy)]
pub enum AccuOperation {
    Tak,
    Push,
    Pop,
    Caw,
    Cad,
    AddI,
    SubI,
    MulI,
    DivI,
    AddD,
    SubD,
    MulD,
    DivD,
    Mod,
    Bti,
    Itb,
    Btd,
    Dtb,
    Itd,
    Invi,
    Invd,
    Negi,
    Negd,
    Rlda,
    Rrda,
}

/// The instructions that add a constant to accumulator 1: INC and DEC on its lowest byte, + with
/// a constant of 16 bits on its low word, + with one of 32 bits on the whole.
#[derive(Clone, Copy)]
pub enum AddConstant {
    Inc,
    Dec,
    Word,
    Dword,
}

/// The word logic instructions: AW, OW, XOW, AD, OD, XOD.
#[derive(Clone, Copy)]
pub enum Logic {
    Aw,
    Ow,
    Xow,
    Ad,
    Od,
    Xod,
}

/// The shift and rotate instructions with a count.
#[derive(Clone, Copy)]
pub enum Shift {
    Ssi,
    Ssd,
    Slw,
    Srw,
    Sld,
    Srd,
    Rld,
    Rrd,
}

/// The instructions on the address registers. `AddAr1` and `AddAr2` are +AR1 and +AR2.
#[derive(Clone, Copy)]
pub enum PointerOperation {
    Lar1,
    Lar2,
    Tar1,
    Tar2,
    Lar1Ar2,
    Tar1Ar2,
    Car,
    AddAr1,
    AddAr2,
}

/// How a block is called: CALL, UC, CC.
#[derive(Clone, Copy)]
pub enum CallOperation {
    Call,
    Uc,
    Cc,
}

/// How a block is ended: BE, BEC, BEU.
#[derive(Clone, Copy)]
pub enum EndOperation {
    Be,
    Bec,
    Beu,
}

/// The instructions of the master control relay: MCRA, MCRD, MCR( and )MCR.
#[derive(Clone, Copy)]
pub enum RelayOperation {
    Activate,
    Deactivate,
    Open,
    Close,
}

/// What the instruction of an op code is, in families: the instructions of STL, and two that only
/// prepare a statement.
#[derive(Clone, Copy)]
pub enum Operation {
    /// No instruction has the code.
    NoOperation,
    /// NOP.
    Nop,
    /// BLD.
    Bld,
    /// Names the data block that the statement opens first.
    UseDb,
    /// Names one parameter of the statement's CALL.
    Pass,
    /// MCRA, MCRD, MCR(, )MCR.
    Relay(RelayOperation),
    /// A, AN, O, ON, X, XN with an operand.
    Check(Check),
    /// O without operand (manual: AND before OR).
    OrBare,
    /// A(, AN(, O(, ON(, X(, XN(.
    Nest(Check),
    /// ).
    Unnest,
    /// L.
    Load,
    /// T.
    Transfer,
    /// =.
    Assign,
    /// S.
    Set,
    /// R.
    Reset,
    /// FP, rising, and FN.
    Edge { rising: bool },
    /// SET.
    SetRlo,
    /// CLR.
    ClearRlo,
    /// NOT.
    NegateRlo,
    /// SAVE.
    SaveRlo,
    /// LC.
    LoadBcd,
    /// L STW.
    LoadStatus,
    /// T STW.
    TransferStatus,
    /// L with DBLG, DBNO, DILG or DINO: the length or number of an open data block.
    LoadOpenBlock,
    /// An instruction on the address registers.
    Pointer(PointerOperation),
    /// An instruction on the accumulators.
    Number(AccuOperation),
    /// The addition of a constant.
    Add(AddConstant),
    /// ==I to <=I.
    CompareInt(Compare),
    /// ==D to <=D.
    CompareDint(Compare),
    /// Word logic.
    Logic(Logic),
    /// A shift or rotation.
    Shift(Shift),
    /// A jump; the operand says which.
    Jump,
    /// The start of a timer.
    Start(TimerKind),
    /// FR.
    Free,
    /// CU.
    CountUp,
    /// CD.
    CountDown,
    /// A call of a block.
    Call(CallOperation),
    /// The end of a block.
    End(EndOperation),
    /// OPN.
    OpenBlock,
    /// CDB.
    Exchange,
}

/// The operations by their op codes.
pub static OPERATIONS: [Operation; 128] = [
    // 00 to 0F
    Operation::NoOperation,
    Operation::Nop,
    Operation::UseDb,
    Operation::Bld,
    Operation::Pass,
    Operation::Relay(RelayOperation::Activate),
    Operation::Relay(RelayOperation::Deactivate),
    Operation::Relay(RelayOperation::Open),
    Operation::Relay(RelayOperation::Close),
    Operation::NoOperation,
    Operation::NoOperation,
    Operation::NoOperation,
    Operation::NoOperation,
    Operation::NoOperation,
    Operation::NoOperation,
    Operation::NoOperation,
    // 10 to 1F
    Operation::Check(Check::A),
    Operation::Check(Check::An),
    Operation::Check(Check::O),
    Operation::Check(Check::On),
    Operation::Check(Check::X),
    Operation::Check(Check::Xn),
    Operation::OrBare,
    Operation::Add(AddConstant::Dword),
    Operation::Nest(Check::A),
    Operation::Nest(Check::An),
    Operation::Nest(Check::O),
    Operation::Nest(Check::On),
    Operation::Nest(Check::X),
    Operation::Nest(Check::Xn),
    Operation::Unnest,
    Operation::NoOperation, // 1F
    // 20 to 2F
    Operation::Load,
    Operation::Transfer,
    Operation::Assign,
    Operation::Set,
    Operation::Reset,
    Operation::Edge { rising: true },
    Operation::Edge { rising: false },
    Operation::SetRlo,
    Operation::ClearRlo,
    Operation::NegateRlo,
    Operation::SaveRlo,
    Operation::LoadBcd,
    Operation::LoadStatus,
    Operation::TransferStatus,
    Operation::LoadOpenBlock,
    Operation::NoOperation, // 2F
    // 30 to 3F
    Operation::Pointer(PointerOperation::Lar1),
    Operation::Pointer(PointerOperation::Lar2),
    Operation::Pointer(PointerOperation::Tar1),
    Operation::Pointer(PointerOperation::Tar2),
    Operation::Pointer(PointerOperation::Lar1Ar2),
    Operation::Pointer(PointerOperation::Tar1Ar2),
    Operation::Pointer(PointerOperation::Car),
    Operation::Pointer(PointerOperation::AddAr1),
    Operation::Pointer(PointerOperation::AddAr2),
    Operation::Number(AccuOperation::Tak),
    Operation::Number(AccuOperation::Push),
    Operation::Number(AccuOperation::Pop),
    Operation::Number(AccuOperation::Caw),
    Operation::Number(AccuOperation::Cad),
    Operation::Add(AddConstant::Inc),
    Operation::Add(AddConstant::Dec),
    // 40 to 4F
    Operation::Add(AddConstant::Word),
    Operation::Number(AccuOperation::AddI),
    Operation::Number(AccuOperation::SubI),
    Operation::Number(AccuOperation::MulI),
    Operation::Number(AccuOperation::DivI),
    Operation::Number(AccuOperation::AddD),
    Operation::Number(AccuOperation::SubD),
    Operation::Number(AccuOperation::MulD),
    Operation::Number(AccuOperation::DivD),
    Operation::Number(AccuOperation::Mod),
    Operation::CompareInt(Compare::Eq),
    Operation::CompareInt(Compare::Ne),
    Operation::CompareInt(Compare::Gt),
    Operation::CompareInt(Compare::Lt),
    Operation::CompareInt(Compare::Ge),
    Operation::CompareInt(Compare::Le),
    // 50 to 5F
    Operation::CompareDint(Compare::Eq),
    Operation::CompareDint(Compare::Ne),
    Operation::CompareDint(Compare::Gt),
    Operation::CompareDint(Compare::Lt),
    Operation::CompareDint(Compare::Ge),
    Operation::CompareDint(Compare::Le),
    Operation::Number(AccuOperation::Bti),
    Operation::Number(AccuOperation::Itb),
    Operation::Number(AccuOperation::Btd),
    Operation::Number(AccuOperation::Dtb),
    Operation::Number(AccuOperation::Itd),
    Operation::Number(AccuOperation::Invi),
    Operation::Number(AccuOperation::Invd),
    Operation::Number(AccuOperation::Negi),
    Operation::Number(AccuOperation::Negd),
    Operation::Logic(Logic::Aw),
    // 60 to 6F
    Operation::Logic(Logic::Ow),
    Operation::Logic(Logic::Xow),
    Operation::Logic(Logic::Ad),
    Operation::Logic(Logic::Od),
    Operation::Logic(Logic::Xod),
    Operation::Shift(Shift::Ssi),
    Operation::Shift(Shift::Ssd),
    Operation::Shift(Shift::Slw),
    Operation::Shift(Shift::Srw),
    Operation::Shift(Shift::Sld),
    Operation::Shift(Shift::Srd),
    Operation::Shift(Shift::Rld),
    Operation::Shift(Shift::Rrd),
    Operation::Number(AccuOperation::Rlda),
    Operation::Number(AccuOperation::Rrda),
    Operation::Jump,
    // 70 to 7F
    Operation::Start(TimerKind::Sp),
    Operation::Start(TimerKind::Se),
    Operation::Start(TimerKind::Sd),
    Operation::Start(TimerKind::Ss),
    Operation::Start(TimerKind::Sf),
    Operation::Free,
    Operation::CountUp,
    Operation::CountDown,
    Operation::Call(CallOperation::Call),
    Operation::Call(CallOperation::Uc),
    Operation::Call(CallOperation::Cc),
    Operation::End(EndOperation::Be),
    Operation::End(EndOperation::Bec),
    Operation::End(EndOperation::Beu),
    Operation::OpenBlock,
    Operation::Exchange,
];

/// The operation of an op code.
#[tactic(auto, unfolding(crate::specs::Operations::operation_of))]
pub fn operation_of(code: u8) -> Operation
    requires { code < 128 }
    ensures { result ≡ operation_of_code code }
{
    OPERATIONS[code as usize]
}
