//! BE, BEU and BEC: the return from a block.
ghost use Rattle.std.specs.Prelude.{◌≡◌, ◌≤◌, length, false};
ghost use Rattle.machine.specs.Returning.{outputs_copied_back, block_return, IsReturnOf, ExitsRunningBlock};

use crate::copies::copy_params_out;
use crate::entering::at_block;
use flat_code::Param;
use frames::Activation;
use plc_mem::Memory;

// The parameters of a function block are copied out.
fn give_back(params: &[Param], a: &mut Activation, m: &mut Memory)
    requires { length params.now ≤ 60 }
    ensures { outputs_copied_back a.old.running.frame.instance params.now a.old m.old
        ≡ record { activation = a.new; memory = m.new } }
{
    match a.running.frame.instance {
        None => {}
        Some(instance) => {
            let bindings = a.running.frame.bindings.copied();
            copy_params_out(params, &bindings, instance, &mut a.running, m);
        }
    }
}

// The innermost block is exited; the answer says whether the caller goes on.
fn exit(a: &mut Activation) -> bool
    requires { a.old.ended ≡ false }
    ensures { ExitsRunningBlock a.old a.new result }
{
    at_block(&mut a.running.regs);
    a.exit_block()
}

/// Returns from the innermost block; the answer says whether the caller goes on.
#[tactic(auto, unfolding(crate::specs::Returning::block_return))]
pub(crate) fn return_from_block(params: &[Param], a: &mut Activation, m: &mut Memory) -> bool
    requires stands { a.old.ended ≡ false }
    requires params { length params.now ≤ 60 }
    ensures { IsReturnOf (block_return params.now a.old m.old) a.old a.new m.new result }
{
    give_back(params, a, m);
    exit(a)
}
