ghost use Rattle.std.specs.Prelude.{◌≡◌, ◌<◌};
ghost use Rattle.stl_list.specs.Mnemonics.{mnemonic_of_jump, mnemonic_of, mnemonic_of_code};

use flat_code::{Op, Operand};
use stl_ast::Mnemonic;

/// The instruction words by op codes; `Empty` where no instruction has the code.
pub static MNEMONICS: [Mnemonic; 128] = [
    // 00 to 0F
    Mnemonic::Empty,
    Mnemonic::Nop,
    Mnemonic::Empty, // USEDB
    Mnemonic::Bld,
    Mnemonic::Empty, // PASS
    Mnemonic::Mcra,
    Mnemonic::Mcrd,
    Mnemonic::McrOpen,
    Mnemonic::McrClose,
    Mnemonic::Empty,
    Mnemonic::Empty,
    Mnemonic::Empty,
    Mnemonic::Empty,
    Mnemonic::Empty,
    Mnemonic::Empty,
    Mnemonic::Empty,
    // 10 to 1F
    Mnemonic::A,
    Mnemonic::An,
    Mnemonic::O,
    Mnemonic::On,
    Mnemonic::X,
    Mnemonic::Xn,
    Mnemonic::O,
    Mnemonic::Add,
    Mnemonic::AOpen,
    Mnemonic::AnOpen,
    Mnemonic::OOpen,
    Mnemonic::OnOpen,
    Mnemonic::XOpen,
    Mnemonic::XnOpen,
    Mnemonic::Close,
    Mnemonic::Empty, // 1F
    // 20 to 2F
    Mnemonic::L,
    Mnemonic::T,
    Mnemonic::Assign,
    Mnemonic::S,
    Mnemonic::R,
    Mnemonic::Fp,
    Mnemonic::Fn,
    Mnemonic::Set,
    Mnemonic::Clr,
    Mnemonic::Not,
    Mnemonic::Save,
    Mnemonic::Lc,
    Mnemonic::L, // L STW
    Mnemonic::T, // T STW
    Mnemonic::L, // L DBLG
    Mnemonic::Empty, // 2F
    // 30 to 3F
    Mnemonic::Lar1,
    Mnemonic::Lar2,
    Mnemonic::Tar1,
    Mnemonic::Tar2,
    Mnemonic::Lar1, // LAR1 AR2
    Mnemonic::Tar1, // TAR1 AR2
    Mnemonic::Car,
    Mnemonic::AddAr1,
    Mnemonic::AddAr2,
    Mnemonic::Tak,
    Mnemonic::Push,
    Mnemonic::Pop,
    Mnemonic::Caw,
    Mnemonic::Cad,
    Mnemonic::Inc,
    Mnemonic::Dec,
    // 40 to 4F
    Mnemonic::Add,
    Mnemonic::AddI,
    Mnemonic::SubI,
    Mnemonic::MulI,
    Mnemonic::DivI,
    Mnemonic::AddD,
    Mnemonic::SubD,
    Mnemonic::MulD,
    Mnemonic::DivD,
    Mnemonic::Mod,
    Mnemonic::EqI,
    Mnemonic::NeI,
    Mnemonic::GtI,
    Mnemonic::LtI,
    Mnemonic::GeI,
    Mnemonic::LeI,
    // 50 to 5F
    Mnemonic::EqD,
    Mnemonic::NeD,
    Mnemonic::GtD,
    Mnemonic::LtD,
    Mnemonic::GeD,
    Mnemonic::LeD,
    Mnemonic::Bti,
    Mnemonic::Itb,
    Mnemonic::Btd,
    Mnemonic::Dtb,
    Mnemonic::Itd,
    Mnemonic::Invi,
    Mnemonic::Invd,
    Mnemonic::Negi,
    Mnemonic::Negd,
    Mnemonic::Aw,
    // 60 to 6F
    Mnemonic::Ow,
    Mnemonic::Xow,
    Mnemonic::Ad,
    Mnemonic::Od,
    Mnemonic::Xod,
    Mnemonic::Ssi,
    Mnemonic::Ssd,
    Mnemonic::Slw,
    Mnemonic::Srw,
    Mnemonic::Sld,
    Mnemonic::Srd,
    Mnemonic::Rld,
    Mnemonic::Rrd,
    Mnemonic::Rlda,
    Mnemonic::Rrda,
    Mnemonic::Empty, // jumps, by their kinds
    // 70 to 7F
    Mnemonic::Sp,
    Mnemonic::Se,
    Mnemonic::Sd,
    Mnemonic::Ss,
    Mnemonic::Sf,
    Mnemonic::Fr,
    Mnemonic::Cu,
    Mnemonic::Cd,
    Mnemonic::Call,
    Mnemonic::Uc,
    Mnemonic::Cc,
    Mnemonic::Be,
    Mnemonic::Bec,
    Mnemonic::Beu,
    Mnemonic::Opn,
    Mnemonic::Cdb,
];

/// The jumps by their kinds.
pub static JUMP_MNEMONICS: [Mnemonic; 18] = [
    Mnemonic::Ju,
    Mnemonic::Jl,
    Mnemonic::Jc,
    Mnemonic::Jcn,
    Mnemonic::Jcb,
    Mnemonic::Jnb,
    Mnemonic::Jbi,
    Mnemonic::Jnbi,
    Mnemonic::Jo,
    Mnemonic::Jos,
    Mnemonic::Jz,
    Mnemonic::Jn,
    Mnemonic::Jp,
    Mnemonic::Jm,
    Mnemonic::Jpz,
    Mnemonic::Jmz,
    Mnemonic::Juo,
    Mnemonic::Loop,
];

/// The instruction word of an op code.
#[tactic(auto, unfolding(crate::specs::Mnemonics::mnemonic_of_code))]
fn mnemonic_of_code(code: u8) -> Mnemonic
    requires { code < 128 }
    ensures { result ≡ mnemonic_of_code code }
{
    MNEMONICS[code as usize]
}

/// The word of a jump by its kind.
#[tactic(auto, unfolding(crate::specs::Mnemonics::mnemonic_of_jump))]
fn mnemonic_of_jump(kind: u8) -> Mnemonic
    requires { kind < 18 }
    ensures { result ≡ mnemonic_of_jump kind }
{
    JUMP_MNEMONICS[kind as usize]
}

/// The instruction word of an op.
#[tactic(auto, unfolding(flat_code::specs::Ops::is_op))]
pub(crate) fn mnemonic_of(op: &Op) -> Mnemonic
    ensures { result ≡ mnemonic_of op.now }
{
    match op.operand {
        Operand::Jump { kind, .. } => mnemonic_of_jump(kind),
        _ => mnemonic_of_code(op.code),
    }
}
