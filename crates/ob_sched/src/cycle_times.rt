ghost use Rattle.std.specs.Prelude.{◌≡◌, ◌<◌, ◌-◌, ◌+◌};
ghost use Rattle.ob_sched.specs.Scheduler.{new_cycle, counter_cleared};

use std::marker::Model;

/// The milliseconds of a cycle at which the cycle time is exceeded.
const EXCEEDED_MS: u32 = 151;

/// The cycle counter, and the mark that the cycle time was exceeded in this cycle.
#[derive(Drop)]
pub(crate) struct CycleTime {
    counter: u32,
    exceeded: bool,
}

impl Model for CycleTime {
    ghost use Rattle.std.specs.Prelude.{◌<◌};
    ghost use Rattle.ob_sched.specs.Scheduler.{CycleTime as CycleTimeValue};

    ghost Value = { CycleTimeValue };

    ghost view = { λ c. record { counter = c.counter; exceeded = c.exceeded } };

    ghost invariant = { λ c. c.counter < 151 };
}

impl CycleTime {
    /// The cycle time at the begin of a cycle: counter 0, not exceeded.
    pub(crate) fn new() -> CycleTime
        ensures { result ≡ new_cycle }
    {
        CycleTime {
            counter: 0,
            exceeded: false,
        }
    }

    /// The cycle counter begins anew at 0; the mark of an exceeded cycle time stays.
    pub(crate) fn clear_counter(&mut self)
        ensures { self.new ≡ counter_cleared self.old }
    {
        self.counter = 0;
    }

    /// The milliseconds until the cycle time is exceeded.
    pub(crate) fn ms_left(&self) -> u32
        ensures left { result ≡ 151 - self.now.counter }
        ensures some { 0 < result }
    {
        EXCEEDED_MS - self.counter
    }

    /// Whether the cycle time was exceeded in this cycle.
    pub(crate) fn was_exceeded(&self) -> bool
        ensures { result ≡ self.now.exceeded }
    {
        self.exceeded
    }

    /// The cycle time is exceeded: the cycle counter begins anew at 0, and the mark is set.
    pub(crate) fn exceed(&mut self)
        ensures { self.new ≡ record { counter = 0; exceeded = Rattle.std.specs.Prelude.true } }
    {
        self.counter = 0;
        self.exceeded = true;
    }

    /// The cycle counter counts milliseconds in which the cycle time isn't exceeded.
    pub(crate) fn count(&mut self, ms: u32)
        requires { self.old.counter + ms < 151 }
        ensures { self.new ≡ record self.old { counter = self.old.counter + ms } }
    {
        self.counter += ms;
    }
}
