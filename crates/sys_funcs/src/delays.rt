ghost use Rattle.std.specs.Prelude.{◌≡◌};
ghost use Rattle.ob_sched.specs.Views.{scheduler_of};
ghost use Rattle.sys_funcs.specs.Results.{LeavesSystemFunctionResult};
ghost use Rattle.sys_funcs.specs.Functions.{IsDelayOb, srt_dint as starts, can_dint as cancels};

use crate::error_codes::{NO_DELAY_STARTED, WRONG_DTIME, WRONG_OB_NR};
use crate::returns::returned_value;
use frames::Activation;
use ob_sched::Sched;

// The organization block of a time delay interrupt by its number.
fn delay_ob(ob_nr: u32) -> Option<u16>
    ensures { IsDelayOb ob_nr result }
{
    if (20..=23).contains(&ob_nr) {
        Some(ob_nr as u16)
    } else {
        None
    }
}

/// SFC 32 SRT_DINT: starts the delay of OB 20 to 23, or starts it anew, with 1 to 60,000 ms. Another
/// OB_NR is 16#8090; after that another DTIME is 16#8091. SIGN doesn't count.
#[tactic(auto, unfolding(crate::specs::Functions::srt_dint))]
pub fn srt_dint(s: &mut Sched, a: &mut Activation, ob_nr: u32, dtime: u32, sign: u32) -> u32
    ensures { LeavesSystemFunctionResult (starts (scheduler_of s.old) a.old ob_nr dtime sign)
        (scheduler_of s.new) a.new result }
{
    let _ = sign;
    let Some(ob) = delay_ob(ob_nr) else {
        return returned_value(a, WRONG_OB_NR);
    };
    if !(1..=60_000).contains(&dtime) {
        return returned_value(a, WRONG_DTIME);
    }
    s.start_delay(ob, dtime);
    returned_value(a, 0)
}

/// SFC 33 CAN_DINT: ends a started delay of OB 20 to 23. Another OB_NR is 16#8090; after that 16#80A0
/// where none is started.
#[tactic(auto, unfolding(crate::specs::Functions::can_dint))]
pub fn can_dint(s: &mut Sched, a: &mut Activation, ob_nr: u32) -> u32
    ensures { LeavesSystemFunctionResult (cancels (scheduler_of s.old) a.old ob_nr)
        (scheduler_of s.new) a.new result }
{
    let Some(ob) = delay_ob(ob_nr) else {
        return returned_value(a, WRONG_OB_NR);
    };
    if s.cancel_delay(ob) {
        returned_value(a, 0)
    } else {
        returned_value(a, NO_DELAY_STARTED)
    }
}
