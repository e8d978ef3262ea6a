//! The laws of the pending requests: each function does nothing, and its contract is the law.
ghost use Rattle.ob_sched.specs.Ranking.{QueuedJoins, BestOutranksAll, StartedLeaves};

/// A request that arrives after all pending ones joins the set of them, in every operating mode.
pub fn queued_joins()
    ensures { QueuedJoins }
{}

/// The request that is started next is the member of the set that outranks all others, by its
/// priority class and then by its arrival.
pub fn best_outranks_all()
    ensures { BestOutranksAll }
{}

/// When the first pending request is started, it leaves the set of the pending requests.
pub fn started_leaves()
    ensures { StartedLeaves }
{}
