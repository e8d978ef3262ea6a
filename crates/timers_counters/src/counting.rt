ghost use Rattle.std.specs.Prelude.{◌≡◌, ◌≤◌};
ghost use Rattle.plc_base.specs.Changes.{ChangesOrStays};
ghost use Rattle.timers_counters.specs.Counter.{counter_at_rest, count_up, count_down, set_counter, reset_counter, free_counter, is_counting, count_bcd};

use plc_base::{BadBcd, bcd_to_unsigned, unsigned_to_bcd};
use std::marker::Model;

/// The greatest value of a counter.
const MOST_COUNT: u16 = 999;

/// A counter of STEP 7: its value, and the edge bits by which CU, CD, S and FR find a rising RLO.
#[derive(Clone, Copy, Debug)]
pub struct Counter {
    /// The count, 0 to 999.
    value: u16,
    /// The edge bit of `CU`.
    up_edge: bool,
    /// The edge bit of `CD`.
    down_edge: bool,
    /// The edge bit of `S`.
    set_edge: bool,
    /// The edge bit of `FR`.
    free_edge: bool,
}

impl Model for Counter {
    ghost use Rattle.timers_counters.specs.Counter.{Counter as CounterValue};

    ghost Value = { CounterValue };

    ghost use Rattle.timers_counters.specs.Views.{counter_of, inside_of_counter, KeepsCounter};

    ghost view = { counter_of };

    ghost invariant = { KeepsCounter };

    ghost inverse = { inside_of_counter };
}

impl Default for Counter {
    /// A counter on which no instruction has acted.
    fn default() -> Counter {
        Counter::new()
    }
}

impl Counter {
    /// A counter on which no instruction has acted: value 0 and all edge bits 0.
    pub fn new() -> Counter
        ensures { result ≡ counter_at_rest }
    {
        Counter {
            value: 0,
            up_edge: false,
            down_edge: false,
            set_edge: false,
            free_edge: false,
        }
    }

    /// `CU`: on a rising RLO counts up by one, up to 999.
    #[tactic(auto, unfolding(crate::specs::Counter::count_up))]
    pub fn up(&mut self, rlo: bool)
        ensures { self.new ≡ count_up rlo self.old }
    {
        if rlo && !self.up_edge && self.value < MOST_COUNT {
            self.value += 1;
        }
        self.up_edge = rlo;
    }

    /// `CD`: on a rising RLO counts down by one, down to 0.
    #[tactic(auto, unfolding(crate::specs::Counter::count_down))]
    pub fn down(&mut self, rlo: bool)
        ensures { self.new ≡ count_down rlo self.old }
    {
        if rlo && !self.down_edge && self.value > 0 {
            self.value -= 1;
        }
        self.down_edge = rlo;
    }

    /// `S`: on a rising RLO loads the number of the three BCD digits in the low bits of `word`.
    #[tactic(auto, unfolding(crate::specs::Counter::set_counter))]
    pub fn set(&mut self, rlo: bool, word: u16) -> Result<(), BadBcd>
        ensures { ChangesOrStays (set_counter rlo word self.old) self.old self.new result }
    {
        if rlo && !self.set_edge {
            match bcd_to_unsigned(u32::from(word), 3) {
                Some(value) => self.value = value as u16,
                None => return Err(BadBcd),
            }
        }
        self.set_edge = rlo;
        Ok(())
    }

    /// `R`: with RLO 1 the value becomes 0.
    #[tactic(auto, unfolding(crate::specs::Counter::reset_counter))]
    pub fn reset(&mut self, rlo: bool)
        ensures { self.new ≡ reset_counter rlo self.old }
    {
        if rlo {
            self.value = 0;
        }
    }

    /// `FR`: on a rising RLO clears the edge bits of `CU`, `CD` and `S`.
    #[tactic(auto, unfolding(crate::specs::Counter::free_counter))]
    pub fn free(&mut self, rlo: bool)
        ensures { self.new ≡ free_counter rlo self.old }
    {
        if rlo && !self.free_edge {
            self.up_edge = false;
            self.down_edge = false;
            self.set_edge = false;
        }
        self.free_edge = rlo;
    }

    /// Whether the value is above 0, as `A`, `O` and `X` check it.
    pub fn output(&self) -> bool
        ensures { result ≡ is_counting self.now }
    {
        self.value > 0
    }

    /// The count, 0 to 999, as `L` loads it.
    pub fn value(&self) -> u16
        ensures { result ≡ self.now.value }
    {
        self.value
    }

    /// The count as three BCD digits, as `LC` loads it.
    pub fn bcd(&self) -> u16
        ensures { result ≡ count_bcd self.now }
    {
        unsigned_to_bcd(u32::from(self.value), 3) as u16
    }
}
