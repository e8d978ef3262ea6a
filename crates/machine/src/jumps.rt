//! Jumps: whether one is taken, and what it leaves of the registers.
ghost use Rattle.std.specs.Prelude.{◌≡◌};
ghost use Rattle.machine.specs.Jumps.{loop_counter_decremented, is_jump_taken as is_taken_of, regs_after_jump as after_jump_of, rlo_tested, rlo_saved, br_tested, jump_goal as goes_to_of};

use flat_code::JumpOperation;
use plc_base::Flag;
use status_word::Regs;

fn decrement_loop_counter(r: &mut Regs)
    ensures { r.new ≡ loop_counter_decremented r.old }
{
    alu::add_const(r, 0xFFFF);
}

#[tactic(auto, unfolding(crate::specs::Jumps::is_jump_taken))]
fn still_counts(r: &Regs) -> bool
    ensures { result ≡ is_taken_of JumpOperation.Loop r.now }
{
    let mut after = *r;
    decrement_loop_counter(&mut after);
    after.a1 % 0x1_0000 != 0
}

/// Whether a jump is taken, by the registers before it.
#[tactic(auto, unfolding(crate::specs::Jumps::is_jump_taken))]
#[inline(never)]
pub(crate) fn is_taken(operation: JumpOperation, r: &Regs) -> bool
    ensures { result ≡ is_taken_of operation r.now }
{
    match operation {
        JumpOperation::Ju => true,
        JumpOperation::Jl => false,
        JumpOperation::Jc | JumpOperation::Jcb => r.status.rlo,
        JumpOperation::Jcn | JumpOperation::Jnb => !r.status.rlo,
        JumpOperation::Jbi => r.status.br,
        JumpOperation::Jnbi => !r.status.br,
        JumpOperation::Jo => r.status.ov,
        JumpOperation::Jos => r.status.os,
        JumpOperation::Jz => r.flag(Flag::EqZero),
        JumpOperation::Jn => r.flag(Flag::NeZero),
        JumpOperation::Jp => r.flag(Flag::GtZero),
        JumpOperation::Jm => r.flag(Flag::LtZero),
        JumpOperation::Jpz => r.flag(Flag::GeZero),
        JumpOperation::Jmz => r.flag(Flag::LeZero),
        JumpOperation::Juo => r.flag(Flag::Uo),
        JumpOperation::Loop => still_counts(r),
    }
}

/// The registers after a statement that the RLO decides (JC, JCN, JCB, JNB, CC, BEC): RLO 1, STA 1,
/// OR 0, /FC 0.
pub(crate) fn test_rlo(r: &mut Regs)
    ensures { r.new ≡ rlo_tested r.old }
{
    r.status.rlo = true;
    r.status.sta = true;
    r.status.or = false;
    r.status.fc = false;
}

fn save_rlo(r: &mut Regs)
    ensures { r.new ≡ rlo_saved r.old }
{
    r.status.br = r.status.rlo;
}

fn test_br(r: &mut Regs)
    ensures { r.new ≡ br_tested r.old }
{
    r.status.or = false;
    r.status.sta = true;
    r.status.fc = false;
}

/// What a jump leaves of the registers, taken or not.
#[tactic(auto, unfolding(crate::specs::Jumps::regs_after_jump))]
#[inline(never)]
pub(crate) fn put_jump(operation: JumpOperation, r: &mut Regs)
    ensures { r.new ≡ after_jump_of operation r.old }
{
    match operation {
        JumpOperation::Jc | JumpOperation::Jcn => test_rlo(r),
        JumpOperation::Jcb | JumpOperation::Jnb => {
            save_rlo(r);
            test_rlo(r);
        }
        JumpOperation::Jbi | JumpOperation::Jnbi => test_br(r),
        JumpOperation::Jos => r.status.os = false,
        JumpOperation::Loop => decrement_loop_counter(r),
        _ => {}
    }
}

/// Where a jump goes on.
pub(crate) fn jump_goal(taken: bool, target: u32, next: u32) -> u32
    ensures { result ≡ goes_to_of taken target next }
{
    if taken { target } else { next }
}
