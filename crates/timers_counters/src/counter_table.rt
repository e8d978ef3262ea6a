ghost use Rattle.plc_base.specs.Profiles.{counter_count};
ghost use Rattle.std.specs.Prelude.{◌++◌, ◌+◌, ◌≡◌, ◌≤◌, ◌<◌, ◌↔◌, Some, None, Err, MatchResult, slice_get, slice_set, replicate, length};
ghost use Rattle.timers_counters.specs.Counter.{counter_at_rest, count_up, count_down, set_counter, reset_counter, free_counter, is_counting, count_bcd, Counter as CounterValue};
ghost use Rattle.timers_counters.specs.Restart.{counters_retained};
ghost use Rattle.timers_counters.specs.ByNumber.{LeavesTable, change_at_number, change_always, read_at_number};
ghost use Rattle.timers_counters.specs.declared.faults.TimerFault.TheVariants.{NoNumber};

use crate::counting::Counter;
use crate::faults::TimerFault;
use arrayvec::ArrayVec;
use plc_base::Profile;
use std::marker::Model;

/// How many counters a controller has at most.
const MOST_COUNTERS: usize = 256;

/// How many counters a warm restart retains: C 0 to C 7.
const RETAINED: usize = 8;

/// The counters of a controller. A contract sees the list of them by number, as many as the profile
/// has.
#[derive(Drop)]
pub struct Counters {
    /// Each counter at the index of its number.
    counters: ArrayVec<Counter, MOST_COUNTERS>,
}

// Adds so many counters at rest.
fn add_counters(counters: &mut ArrayVec<Counter, MOST_COUNTERS>, count: usize)
    requires { length counters.old.items + count ≤ 256 }
    ensures { counters.new.items ≡ counters.old.items ++ replicate count counter_at_rest }
{
    for _ in 0..count {
        counters.push(Counter::new());
    }
}

fn counter_in(counters: &[Counter], number: u16) -> Result<Counter, TimerFault>
    ensures { MatchResult result
        (λ counter. slice_get counters.now number ≡ Some counter)
        (λ fault. (slice_get counters.now number ≡ None) × (fault ≡ NoNumber)) }
{
    match counters.get(usize::from(number)) {
        Some(counter) => Ok(*counter),
        None => Err(TimerFault::NoNumber),
    }
}

impl Model for Counters {
    ghost use Rattle.std.specs.Prelude.{List};
    ghost use Rattle.timers_counters.specs.Counter.{Counter as CounterValue};

    ghost Value = { List CounterValue };

    ghost view = { λ t. t.counters.items };
}

impl Counters {
    /// All counters of a profile at rest.
    pub fn new(profile: Profile) -> Counters
        ensures { result ≡ replicate (counter_count profile) counter_at_rest }
    {
        let mut counters = ArrayVec::new();
        add_counters(&mut counters, profile.counter_count());
        Counters { counters }
    }

    /// What a warm restart does to the counters: C 0 to C 7 stay, and every other one is at rest.
    pub fn clear_unretained(&mut self)
        ensures { self.new ≡ counters_retained self.old }
    {
        let count = self.counters.len();
        self.counters.truncate(RETAINED);
        let kept = self.counters.len();
        add_counters(&mut self.counters, count - kept);
    }

    /// The counter with a number.
    fn counter(&self, number: u16) -> Result<Counter, TimerFault>
        ensures found { MatchResult result
            (λ counter. slice_get self.now number ≡ Some counter)
            (λ fault. (slice_get self.now number ≡ None) × (fault ≡ NoNumber)) }
        ensures in_range { MatchResult result (λ _. number < length self.now)
            (λ _. length self.now ≤ number) }
    {
        counter_in(self.counters.as_slice(), number)
    }

    // Puts a counter in the place of that of a number, which there is.
    fn put(&mut self, number: u16, counter: Counter)
        requires { number < length self.old }
        ensures { self.new ≡ slice_set self.old number counter }
    {
        self.counters.as_mut_slice()[usize::from(number)] = counter;
    }

    /// `CU`: counts up by one on a rising RLO, up to 999.
    ///
    /// # Errors
    ///
    /// `NoNumber` exactly for a number that no counter has.
    pub fn up(&mut self, number: u16, rlo: bool) -> Result<(), TimerFault>
        ensures outcome { LeavesTable self.old self.new result
            (change_always (count_up rlo) self.old number) }
        ensures no_number { result ≡ Err NoNumber ↔ (length self.old ≤ number) }
    {
        let mut counter = self.counter(number)?;
        counter.up(rlo);
        self.put(number, counter);
        Ok(())
    }

    /// `CD`: counts down by one on a rising RLO, down to 0.
    ///
    /// # Errors
    ///
    /// `NoNumber` exactly for a number that no counter has.
    pub fn down(&mut self, number: u16, rlo: bool) -> Result<(), TimerFault>
        ensures outcome { LeavesTable self.old self.new result
            (change_always (count_down rlo) self.old number) }
        ensures no_number { result ≡ Err NoNumber ↔ (length self.old ≤ number) }
    {
        let mut counter = self.counter(number)?;
        counter.down(rlo);
        self.put(number, counter);
        Ok(())
    }

    /// `S`: on a rising RLO loads the number of the three BCD digits of `value`; its bits 12 to 15
    /// mean nothing.
    ///
    /// # Errors
    ///
    /// `NoNumber` exactly for a number that no counter has, else `BadBcd` exactly where the RLO
    /// rises and a digit is above 9.
    pub fn set(&mut self, number: u16, rlo: bool, value: u16) -> Result<(), TimerFault>
        ensures outcome { LeavesTable self.old self.new result
            (change_at_number (set_counter rlo value) self.old number) }
        ensures no_number { result ≡ Err NoNumber ↔ (length self.old ≤ number) }
    {
        let mut counter = self.counter(number)?;
        counter.set(rlo, value)?;
        self.put(number, counter);
        Ok(())
    }

    /// `R`: with RLO 1 the value becomes 0.
    ///
    /// # Errors
    ///
    /// `NoNumber` exactly for a number that no counter has.
    pub fn reset(&mut self, number: u16, rlo: bool) -> Result<(), TimerFault>
        ensures outcome { LeavesTable self.old self.new result
            (change_always (reset_counter rlo) self.old number) }
        ensures no_number { result ≡ Err NoNumber ↔ (length self.old ≤ number) }
    {
        let mut counter = self.counter(number)?;
        counter.reset(rlo);
        self.put(number, counter);
        Ok(())
    }

    /// `FR`: on a rising RLO of its own edge clears the edges of `CU`, `CD` and `S`.
    ///
    /// # Errors
    ///
    /// `NoNumber` exactly for a number that no counter has.
    pub fn free(&mut self, number: u16, rlo: bool) -> Result<(), TimerFault>
        ensures outcome { LeavesTable self.old self.new result
            (change_always (free_counter rlo) self.old number) }
        ensures no_number { result ≡ Err NoNumber ↔ (length self.old ≤ number) }
    {
        let mut counter = self.counter(number)?;
        counter.free(rlo);
        self.put(number, counter);
        Ok(())
    }

    /// Whether the value is above 0, as a bit logic instruction reads it.
    ///
    /// # Errors
    ///
    /// `NoNumber` exactly for a number that no counter has.
    pub fn output(&self, number: u16) -> Result<bool, TimerFault>
        ensures value { result ≡ read_at_number (is_counting) self.now number }
        ensures no_number { result ≡ Err NoNumber ↔ (length self.now ≤ number) }
    {
        Ok(self.counter(number)?.output())
    }

    /// The value, as `L` loads it.
    ///
    /// # Errors
    ///
    /// `NoNumber` exactly for a number that no counter has.
    pub fn value(&self, number: u16) -> Result<u16, TimerFault>
        ensures value { result ≡ read_at_number (λ (counter : CounterValue). counter.value)
            self.now number }
        ensures no_number { result ≡ Err NoNumber ↔ (length self.now ≤ number) }
    {
        Ok(self.counter(number)?.value())
    }

    /// The value as three BCD digits, as `LC` loads it.
    ///
    /// # Errors
    ///
    /// `NoNumber` exactly for a number that no counter has.
    pub fn bcd(&self, number: u16) -> Result<u16, TimerFault>
        ensures value { result ≡ read_at_number (count_bcd) self.now number }
        ensures no_number { result ≡ Err NoNumber ↔ (length self.now ≤ number) }
    {
        Ok(self.counter(number)?.bcd())
    }
}
