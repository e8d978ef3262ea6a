//! Laws of histories and of activations: each function does nothing, and its contract is the law.
ghost use Rattle.controller.specs.Fitting.{EntriesKeepFit, FitIsReady, HistoriesAreFit, StartIsFit};
ghost use Rattle.controller.specs.MachineLaws.{MachineLaws};
ghost use Rattle.controller.specs.MovedCode.{EntriesMove, HistoriesMove};
ghost use Rattle.controller.specs.Replay.{ContinuesByMore, ContinuesReplay, ContinuesLastObserved, CountsEntries, CountsHistory, EntriesKeepProfile, HistoriesKeepProfile, LastObservedByMore};
ghost use Rattle.controller.specs.Stack.{AtMost48};

/// A history with one entry more continues the replay: the entry happens in the state after the
/// others, over any program, and what it shows is what was seen last. So do several.
#[tactic(auto, using(crate::proofs::ReplayLemmas::continues, crate::proofs::ReplayLemmas::last_observed_continues, crate::proofs::ReplayLemmas::by_more, crate::proofs::ReplayLemmas::last_observed_by_more))]
pub fn continues_replay()
    ensures state { ContinuesReplay }
    ensures seen { ContinuesLastObserved }
    ensures more { ContinuesByMore }
    ensures more_seen { LastObservedByMore }
{}

/// Each entry is counted, so the count is that of the history.
#[tactic(auto, using(crate::proofs::CountLemmas::counts_entries, crate::proofs::CountLemmas::counts_history))]
pub fn counts_entries()
    ensures entry { CountsEntries }
    ensures history { CountsHistory }
{}

/// No entry changes the profile, so after each history it is that of the start.
#[tactic(auto, using(crate::proofs::ProfileLemmas::entries_keep, crate::proofs::ProfileLemmas::histories_keep))]
pub fn profile_stays()
    ensures entry { EntriesKeepProfile }
    ensures history { HistoriesKeepProfile }
{}

/// At most 48 activations stand.
#[tactic(auto, using(crate::proofs::StackLemmas::at_most_48))]
pub fn at_most_48()
    ensures { AtMost48 }
{}

/// In a code that follows another each entry does the same, and so does a whole history: only
/// positions differ.
pub fn positions_move()
    ensures entries { EntriesMove }
    ensures histories { HistoriesMove }
{
    machine::laws::statements_move();
}

// What the machine gives the law below.
fn what_the_machine_gives()
    ensures { MachineLaws }
{
    machine::laws::what_fits_goes();
    machine::laws::what_fits_lasts();
    machine::laws::what_fits_stays();
    machine::laws::blocks_begin();
    machine::laws::what_fits_may_change();
    machine::laws::results_fit();
    machine::laws::memory_is_kept();
}

/// Of a program that verifies the running activation can always go on: so it is after the start,
/// each valid entry keeps it so, a warm restart among them, and so it is after each valid history.
pub fn what_runs_goes_on()
    ensures ready { FitIsReady }
    ensures start { StartIsFit }
    ensures entry { EntriesKeepFit }
    ensures history { HistoriesAreFit }
{
    what_the_machine_gives();
}
