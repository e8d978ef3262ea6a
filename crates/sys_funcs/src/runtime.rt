ghost use Rattle.std.specs.Prelude.{◌≡◌, true};
ghost use Rattle.plc_base.specs.StopCauses.{by_program};
ghost use Rattle.ob_sched.specs.Scheduler.{cycle_retriggered};
ghost use Rattle.ob_sched.specs.Views.{scheduler_of};
ghost use Rattle.sys_funcs.specs.Functions.{time_tck as tells};
ghost use Rattle.sys_funcs.specs.Results.{LeavesSystemFunctionResult, with_br_set};

use crate::returns::set_br;
use frames::Activation;
use ob_sched::Sched;
use plc_base::stop_causes;

/// SFC 43 RE_TRIGR: the cycle counter begins anew; the mark of an exceeded cycle time stays.
pub fn re_trigr(s: &mut Sched, a: &mut Activation)
    ensures sched { scheduler_of s.new ≡ cycle_retriggered (scheduler_of s.old) }
    ensures activation { a.new ≡ with_br_set a.old }
{
    s.re_trigger();
    set_br(a, true);
}

/// SFC 46 STP: the stop cause.
pub fn stp(s: &mut Sched, a: &mut Activation) -> u8
    ensures cause { result ≡ by_program }
    ensures sched { scheduler_of s.new ≡ scheduler_of s.old }
    ensures activation { a.new ≡ with_br_set a.old }
{
    let _ = s;
    set_br(a, true);
    stop_causes::BY_PROGRAM
}

/// SFC 64 TIME_TCK: the clock in milliseconds, below 2^31.
#[tactic(auto, unfolding(crate::specs::Functions::time_tck))]
pub fn time_tck(s: &mut Sched, a: &mut Activation) -> u32
    ensures { LeavesSystemFunctionResult (tells (scheduler_of s.old) a.old)
        (scheduler_of s.new) a.new result }
{
    set_br(a, true);
    s.clock()
}
