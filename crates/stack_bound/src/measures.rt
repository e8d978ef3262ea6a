//! What chains of calls are measured by.
ghost use Rattle.std.specs.Prelude.{◌≡◌};
ghost use Rattle.stack_bound.specs.Layers.{limit_of_measure, measure_of_bound};

use crate::certificates::Bound;
use plc_base::Profile;

/// How many local bytes an activation has at most.
pub(crate) const MOST_LOCAL_BYTES: u32 = 1024;

/// What a chain is measured by: how many blocks it has, or how many local bytes.
#[derive(Clone, Copy)]
pub(crate) enum Measure {
    Depth,
    Bytes,
}

impl Measure {
    /// What an activation has at most in the measure.
    pub(crate) fn limit(self, profile: Profile) -> u32
        ensures { result ≡ limit_of_measure profile self }
    {
        match self {
            Measure::Depth => profile.most_frames() as u32,
            Measure::Bytes => MOST_LOCAL_BYTES,
        }
    }

    /// What a bound says in the measure.
    pub(crate) fn number(self, b: &Bound) -> u32
        ensures { result ≡ measure_of_bound self b.now }
    {
        match self {
            Measure::Depth => b.depth,
            Measure::Bytes => b.bytes,
        }
    }
}
