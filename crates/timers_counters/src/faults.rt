ghost use Rattle.std.specs.Prelude.{◌≡◌};
ghost use Rattle.timers_counters.specs.declared.faults.TimerFault.TheVariants.{BadBcd as bad_bcd};

use plc_base::BadBcd;

/// Why an instruction on a timer or counter is refused. It has then changed nothing.
#[derive(Clone, Copy, Debug, PartialEq, Eq)]
pub enum TimerFault {
    /// There is no timer or counter of this number.
    NoNumber,
    /// A digit of the time or counter value is above 9.
    BadBcd,
}

impl From<BadBcd> for TimerFault {
    ghost from_gives = { λ _ fault. fault ≡ bad_bcd };

    fn from(_error: BadBcd) -> TimerFault {
        TimerFault::BadBcd
    }
}
