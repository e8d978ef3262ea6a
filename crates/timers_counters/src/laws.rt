//! A law of the lists: the function does nothing, and its contract is the law.
ghost use Rattle.timers_counters.specs.Counter.{Counter};
ghost use Rattle.timers_counters.specs.Sizes.{InstructionsKeepSize, RestartKeepsSize, TimeKeepsSize};
ghost use Rattle.timers_counters.specs.Timer.{Timer};

/// No call changes how many timers or counters there are: no instruction, no passing time and no
/// warm restart.
#[tactic(auto, using(crate::proofs::SizeLemmas::instructions_keep, crate::proofs::SizeLemmas::time_keeps, crate::proofs::SizeLemmas::restart_keeps))]
pub fn sizes_stay()
    ensures timers { InstructionsKeepSize Timer }
    ensures counters { InstructionsKeepSize Counter }
    ensures time { TimeKeepsSize }
    ensures restart { RestartKeepsSize }
{}
