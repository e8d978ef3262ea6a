ghost use Rattle.std.specs.Prelude.{◌≡◌, ◌+◌, ◌%◌, ◌^◌, ◌<◌};

use std::marker::Model;

/// After how many milliseconds the clock of TIME_TCK begins anew at 0.
const CLOCK_MS: u64 = 0x8000_0000;

/// The clock of TIME_TCK. A contract sees its milliseconds, below 2^31.
#[derive(Drop)]
pub(crate) struct Clock {
    ms: u32,
}

impl Model for Clock {
    ghost use Rattle.std.specs.Prelude.{ℕ, ◌<◌, ◌^◌};

    ghost Value = { ℕ };

    ghost view = { λ c. c.ms };

    ghost invariant = { λ c. c.ms < 2 ^ 31 };
}

impl Clock {
    /// The clock at 0.
    pub(crate) fn new() -> Clock
        ensures { result ≡ 0 }
    {
        Clock { ms: 0 }
    }

    /// The milliseconds that the clock shows, below 2^31.
    pub(crate) fn ms(&self) -> u32
        ensures value { result ≡ self.now }
        ensures bound { result < 2 ^ 31 }
    {
        self.ms
    }

    /// The clock counts milliseconds; after 2^31 - 1 it begins anew at 0.
    pub(crate) fn count(&mut self, ms: u32)
        ensures { self.new ≡ (self.old + ms) % 2 ^ 31 }
    {
        self.ms = ((u64::from(self.ms) + u64::from(ms)) % CLOCK_MS) as u32;
    }
}
