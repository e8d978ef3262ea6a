ghost use Rattle.std.specs.Prelude.{◌≡◌, ◌≤◌};
ghost use Rattle.ob_sched.specs.Views.{scheduler_of};
ghost use Rattle.sys_funcs.specs.Results.{LeavesSystemFunctionResult};
ghost use Rattle.sys_funcs.specs.Functions.{dis_airt as disables, en_airt as enables};

use crate::error_codes::INTERRUPTS_NOT_DELAYED;
use crate::returns::returned_value;
use frames::Activation;
use ob_sched::Sched;

/// How often interrupts can be delayed.
const MOST_DELAYS: u16 = 32_767;

/// SFC 41 DIS_AIRT: delays interrupts once more in the running activation, 32,767 times at most, and
/// returns how often they are delayed.
#[tactic(auto, unfolding(crate::specs::Functions::dis_airt))]
pub fn dis_airt(s: &mut Sched, a: &mut Activation) -> u32
    ensures { LeavesSystemFunctionResult (disables (scheduler_of s.old) a.old)
        (scheduler_of s.new) a.new result }
{
    let _ = s;
    let delay = a.delay.min(MOST_DELAYS - 1) + 1;
    a.delay = delay;
    returned_value(a, u32::from(delay))
}

/// SFC 42 EN_AIRT: takes one delay of interrupts back, and returns how often they are delayed then.
/// Where they aren't delayed it returns 16#8080, and changes nothing but BR.
#[tactic(auto, unfolding(crate::specs::Functions::en_airt))]
pub fn en_airt(s: &mut Sched, a: &mut Activation) -> u32
    ensures { LeavesSystemFunctionResult (enables (scheduler_of s.old) a.old)
        (scheduler_of s.new) a.new result }
{
    let _ = s;
    if a.delay == 0 {
        return returned_value(a, INTERRUPTS_NOT_DELAYED);
    }
    a.delay -= 1;
    let delay = a.delay;
    returned_value(a, u32::from(delay))
}
