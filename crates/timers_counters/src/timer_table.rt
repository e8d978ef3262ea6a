ghost use Rattle.plc_base.specs.Profiles.{timer_count};
ghost use Rattle.std.specs.Prelude.{◌++◌, ◌+◌, slice_set, ◌≡◌, ◌≤◌, ◌<◌, ◌↔◌, Some, None, Err, MatchResult, map, slice_get, replicate, length};
ghost use Rattle.std.specs.Fn.{iterate};
ghost use Rattle.timers_counters.specs.ByNumber.{LeavesTable, change_at_number, change_always, read_at_number};
ghost use Rattle.timers_counters.specs.Timer.{timer_at_rest, start_timer, reset_timer, free_timer, timer_after_ms, units_left, time_left, Timer as TimerValue};
ghost use Rattle.timers_counters.specs.declared.faults.TimerFault.TheVariants.{NoNumber};

use crate::faults::TimerFault;
use crate::timing::Timer;
use arrayvec::ArrayVec;
use plc_base::{Profile, TimerKind};
use std::marker::Model;

/// How many timers a controller has at most.
const MOST_TIMERS: usize = 256;

/// The timers of a controller. A contract sees the list of them by number, as many as the profile
/// has.
#[derive(Drop)]
pub struct Timers {
    /// Each timer at the index of its number.
    timers: ArrayVec<Timer, MOST_TIMERS>,
}

// Adds so many timers at rest.
fn add_timers(timers: &mut ArrayVec<Timer, MOST_TIMERS>, count: usize)
    requires { length timers.old.items + count ≤ 256 }
    ensures { timers.new.items ≡ timers.old.items ++ replicate count timer_at_rest }
{
    for _ in 0..count {
        timers.push(Timer::new());
    }
}

fn timer_in(timers: &[Timer], number: u16) -> Result<Timer, TimerFault>
    ensures { MatchResult result
        (λ timer. slice_get timers.now number ≡ Some timer)
        (λ fault. (slice_get timers.now number ≡ None) × (fault ≡ NoNumber)) }
{
    match timers.get(usize::from(number)) {
        Some(timer) => Ok(*timer),
        None => Err(TimerFault::NoNumber),
    }
}

impl Model for Timers {
    ghost use Rattle.std.specs.Prelude.{◌≡◌, List, length};
    ghost use Rattle.timers_counters.specs.Timer.{Timer as TimerValue};

    ghost Value = { List TimerValue };

    ghost view = { λ t. t.timers.items };
}

// Passes `n` milliseconds for each timer.
fn pass_all(timers: &mut [Timer], n: u32)
    ensures { timers.new ≡ iterate (map timer_after_ms) n timers.old }
{
    for timer in timers.iter_mut() {
        timer.pass_ms(n);
    }
}

impl Timers {
    /// All timers of a profile at rest.
    pub fn new(profile: Profile) -> Timers
        ensures { result ≡ replicate (timer_count profile) timer_at_rest }
    {
        let mut timers = ArrayVec::new();
        add_timers(&mut timers, profile.timer_count());
        Timers { timers }
    }

    /// The timer with a number.
    fn timer(&self, number: u16) -> Result<Timer, TimerFault>
        ensures found { MatchResult result
            (λ timer. slice_get self.now number ≡ Some timer)
            (λ fault. (slice_get self.now number ≡ None) × (fault ≡ NoNumber)) }
        ensures in_range { MatchResult result (λ _. number < length self.now)
            (λ _. length self.now ≤ number) }
    {
        timer_in(self.timers.as_slice(), number)
    }

    // Puts a timer in the place of that of a number, which there is.
    fn put(&mut self, number: u16, timer: Timer)
        requires { number < length self.old }
        ensures { self.new ≡ slice_set self.old number timer }
    {
        self.timers.as_mut_slice()[usize::from(number)] = timer;
    }

    /// A start instruction, `SP`, `SE`, `SD`, `SS` or `SF`. `value` is an S5TIME, which is read
    /// only where the instruction starts the timer.
    ///
    /// # Errors
    ///
    /// `NoNumber` exactly for a number that no timer has, else `BadBcd` exactly where the
    /// instruction starts the timer and a digit of `value` is above 9.
    pub fn start(
        &mut self,
        number: u16,
        kind: TimerKind,
        rlo: bool,
        value: u16,
    ) -> Result<(), TimerFault>
        ensures outcome { LeavesTable self.old self.new result
            (change_at_number (start_timer kind rlo value) self.old number) }
        ensures no_number { result ≡ Err NoNumber ↔ (length self.old ≤ number) }
    {
        let mut timer = self.timer(number)?;
        timer.start(kind, rlo, value)?;
        self.put(number, timer);
        Ok(())
    }

    /// `R`: with RLO 1 the timer stops with output 0, no time left and time base 10 ms. Its edge
    /// bits stay.
    ///
    /// # Errors
    ///
    /// `NoNumber` exactly for a number that no timer has.
    pub fn reset(&mut self, number: u16, rlo: bool) -> Result<(), TimerFault>
        ensures outcome { LeavesTable self.old self.new result
            (change_always (reset_timer rlo) self.old number) }
        ensures no_number { result ≡ Err NoNumber ↔ (length self.old ≤ number) }
    {
        let mut timer = self.timer(number)?;
        timer.reset(rlo);
        self.put(number, timer);
        Ok(())
    }

    /// `FR`: on a rising RLO of its own edge clears the start edge, so that the next start
    /// instruction with RLO 1 finds a rising RLO.
    ///
    /// # Errors
    ///
    /// `NoNumber` exactly for a number that no timer has.
    pub fn free(&mut self, number: u16, rlo: bool) -> Result<(), TimerFault>
        ensures outcome { LeavesTable self.old self.new result
            (change_always (free_timer rlo) self.old number) }
        ensures no_number { result ≡ Err NoNumber ↔ (length self.old ≤ number) }
    {
        let mut timer = self.timer(number)?;
        timer.free(rlo);
        self.put(number, timer);
        Ok(())
    }

    /// The output, as a bit logic instruction reads it.
    ///
    /// # Errors
    ///
    /// `NoNumber` exactly for a number that no timer has.
    pub fn output(&self, number: u16) -> Result<bool, TimerFault>
        ensures value { result ≡ read_at_number (λ (timer : TimerValue). timer.output)
            self.now number }
        ensures no_number { result ≡ Err NoNumber ↔ (length self.now ≤ number) }
    {
        Ok(self.timer(number)?.output())
    }

    /// The time left in units of its base, rounded up, as `L` loads it.
    ///
    /// # Errors
    ///
    /// `NoNumber` exactly for a number that no timer has.
    pub fn value(&self, number: u16) -> Result<u16, TimerFault>
        ensures value { result ≡ read_at_number (units_left) self.now number }
        ensures no_number { result ≡ Err NoNumber ↔ (length self.now ≤ number) }
    {
        Ok(self.timer(number)?.value())
    }

    /// The time left as an S5TIME, as `LC` loads it.
    ///
    /// # Errors
    ///
    /// `NoNumber` exactly for a number that no timer has.
    pub fn bcd(&self, number: u16) -> Result<u16, TimerFault>
        ensures value { result ≡ read_at_number (time_left) self.now number }
        ensures no_number { result ≡ Err NoNumber ↔ (length self.now ≤ number) }
    {
        Ok(self.timer(number)?.bcd())
    }

    /// Lets `n` milliseconds pass for every timer.
    pub fn pass_ms(&mut self, n: u32)
        ensures { self.new ≡ iterate (map timer_after_ms) n self.old }
    {
        pass_all(self.timers.as_mut_slice(), n);
    }
}
