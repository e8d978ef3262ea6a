//! Calls of system functions.
ghost use Rattle.std.specs.Prelude.{◌≡◌};
ghost use Rattle.ob_sched.specs.Views.{scheduler_of};
ghost use Rattle.controller.specs.Leaves.{LeavesServiceResult};
ghost use Rattle.controller.specs.Serving.{in_parameter as input_of, system_function_served};

use frames::Activation;
use ob_sched::Sched;
use sys_funcs::{can_dint, dis_airt, dis_irt, en_airt, en_irt, re_trigr, srt_dint, stp, time_tck};

/// What a system function answers: RET_VAL, nothing, or its stop cause.
#[derive(Clone, Copy)]
pub(crate) enum Answer {
    Value(u32),
    Nothing,
    Halt(u8),
}

// An input by its place.
fn input(inputs: &[u32], place: usize) -> u32
    ensures { result ≡ input_of place inputs.now }
{
    match inputs.get(place) {
        Some(number) => *number,
        None => 0,
    }
}

/// The system function of a number does its work.
#[tactic(auto, unfolding(crate::specs::Serving::system_function_served))]
pub(crate) fn serve(number: u16, inputs: &[u32], s: &mut Sched, a: &mut Activation) -> Answer
    ensures { LeavesServiceResult
        (system_function_served number inputs.now (scheduler_of s.old) a.old)
        (scheduler_of s.old) (scheduler_of s.new) a.new result }
{
    let (first, second, third) = (input(inputs, 0), input(inputs, 1), input(inputs, 2));
    match number {
        32 => Answer::Value(srt_dint(s, a, first, second, third)),
        33 => Answer::Value(can_dint(s, a, first)),
        39 => Answer::Value(dis_irt(s, a, first, second)),
        40 => Answer::Value(en_irt(s, a, first, second)),
        41 => Answer::Value(dis_airt(s, a)),
        42 => Answer::Value(en_airt(s, a)),
        43 => {
            re_trigr(s, a);
            Answer::Nothing
        }
        46 => Answer::Halt(stp(s, a)),
        _ => Answer::Value(time_tck(s, a)),
    }
}
