ghost use Rattle.std.specs.Prelude.{◌≡◌, ◌≤◌, IsTrue};
ghost use Rattle.std.specs.Fn.{iterate};
ghost use Rattle.plc_base.specs.Changes.{ChangesOrStays};
ghost use Rattle.timers_counters.specs.Timer.{timer_at_rest, output_at_end, run_timer, end_timer, stop_timer, start_effect, start_timer, reset_timer, free_timer, timer_after_ms, units_left, time_left};

use plc_base::{BadBcd, MOST_UNITS, TimeBase, TimerKind, ms_of_s5time};
use std::marker::Model;

/// A timer of STEP 7: how it was started, the time left, its output, and the edge bits by which the
/// start instructions and FR find a rising RLO.
#[derive(Clone, Copy, Debug)]
pub struct Timer {
    /// The start instruction that started the timer: SP, SE, SD, SS or SF.
    kind: TimerKind,
    /// The time base of the timer's S5TIME: 10 ms, 100 ms, 1 s or 10 s.
    base: TimeBase,
    /// The time left, in milliseconds.
    left: u32,
    /// Whether the timer's time runs down.
    running: bool,
    /// The output bit of the timer, which `A`, `O` and `X` check.
    output: bool,
    /// The edge bit of the start instructions.
    start_edge: bool,
    /// The edge bit of `FR`.
    free_edge: bool,
}

impl Model for Timer {
    ghost use Rattle.timers_counters.specs.Timer.{Timer as TimerValue};

    ghost Value = { TimerValue };

    ghost use Rattle.timers_counters.specs.Views.{timer_of, inside_of, KeepsTimer};

    ghost view = { timer_of };

    ghost invariant = { KeepsTimer };

    ghost inverse = { inside_of };
}

/// The output bit of a timer when its time has ended, by the kind of its start instruction.
fn output_at_end(kind: TimerKind) -> bool
    ensures { result ≡ output_at_end kind }
{
    match kind {
        TimerKind::Sp | TimerKind::Se | TimerKind::Sf => false,
        TimerKind::Sd | TimerKind::Ss => true,
    }
}

impl Default for Timer {
    /// A timer on which no instruction has acted.
    fn default() -> Timer {
        Timer::new()
    }
}

impl Timer {
    /// A timer on which no instruction has acted: it stands still with output 0 and all edge bits
    /// 0.
    pub fn new() -> Timer
        ensures { result ≡ timer_at_rest }
    {
        Timer {
            kind: TimerKind::Sp,
            base: TimeBase::TenMs,
            left: 0,
            running: false,
            output: false,
            start_edge: false,
            free_edge: false,
        }
    }

    /// Starts the timer with an S5TIME and an output bit. With a time of 0 it ends at once.
    fn run(&mut self, kind: TimerKind, value: u16, output: bool) -> Result<(), BadBcd>
        ensures { ChangesOrStays (run_timer kind value output self.old) self.old self.new result }
    {
        let left = ms_of_s5time(value)?;
        self.kind = kind;
        self.base = TimeBase::of_s5time(value);
        self.left = left;
        self.running = left > 0;
        self.output = if left > 0 {
            output
        } else {
            output_at_end(kind)
        };
        Ok(())
    }

    /// Ends the time of the timer: it stands still with the output of its kind.
    fn end(&mut self)
        ensures { self.new ≡ end_timer self.old }
    {
        self.left = 0;
        self.running = false;
        self.output = output_at_end(self.kind);
    }

    /// Stops the timer with an output bit. The time left stays.
    fn stop(&mut self, output: bool)
        ensures { self.new ≡ stop_timer output self.old }
    {
        self.running = false;
        self.output = output;
    }

    /// What a start instruction does to the timer, with the edge bit as before.
    fn act(&mut self, kind: TimerKind, rlo: bool, value: u16) -> Result<(), BadBcd>
        ensures { ChangesOrStays (start_effect kind rlo value self.old) self.old self.new result }
    {
        let rising = rlo && !self.start_edge;
        let falling = !rlo && self.start_edge;
        match kind {
            TimerKind::Sp | TimerKind::Se if rising => self.run(kind, value, true),
            TimerKind::Sd if rising => self.run(kind, value, false),
            TimerKind::Ss if rising => self.run(kind, value, self.output),
            TimerKind::Sf if falling => self.run(kind, value, self.output),
            TimerKind::Sf if rising => {
                self.stop(true);
                Ok(())
            }
            TimerKind::Sp | TimerKind::Sd if !rlo => {
                self.stop(false);
                Ok(())
            }
            _ => Ok(()),
        }
    }

    /// A start instruction, `SP`, `SE`, `SD`, `SS` or `SF`, with an S5TIME.
    #[tactic(auto, unfolding(crate::specs::Timer::start_timer))]
    pub fn start(&mut self, kind: TimerKind, rlo: bool, value: u16) -> Result<(), BadBcd>
        ensures { ChangesOrStays (start_timer kind rlo value self.old) self.old self.new result }
    {
        self.act(kind, rlo, value)?;
        self.start_edge = rlo;
        Ok(())
    }

    /// `R`: with RLO 1 the timer stops with output 0, no time left and time base 10 ms. Its edge
    /// bits stay.
    #[tactic(auto, unfolding(crate::specs::Timer::reset_timer))]
    pub fn reset(&mut self, rlo: bool)
        ensures { self.new ≡ reset_timer rlo self.old }
    {
        if rlo {
            self.base = TimeBase::TenMs;
            self.left = 0;
            self.running = false;
            self.output = false;
        }
    }

    /// `FR`: on a rising RLO clears the edge bit of the start instructions.
    #[tactic(auto, unfolding(crate::specs::Timer::free_timer))]
    pub fn free(&mut self, rlo: bool)
        ensures { self.new ≡ free_timer rlo self.old }
    {
        if rlo && !self.free_edge {
            self.start_edge = false;
        }
        self.free_edge = rlo;
    }

    /// The output bit of the timer, as `A`, `O` and `X` check it.
    pub fn output(&self) -> bool
        ensures { result ≡ self.now.output }
    {
        self.output
    }

    /// The time left in units of the time base, rounded up, as `L` loads it.
    pub fn value(&self) -> u16
        ensures units { result ≡ units_left self.now }
        ensures bound { result ≤ 999 }
    {
        self.left.div_ceil(self.base.unit_ms()) as u16
    }

    /// The time left as an S5TIME, as `LC` loads it.
    pub fn bcd(&self) -> u16
        ensures { result ≡ time_left self.now }
    {
        self.base.s5time(u32::from(self.value()))
    }

    /// Lets `n` milliseconds pass.
    pub fn pass_ms(&mut self, n: u32)
        ensures { self.new ≡ iterate timer_after_ms n self.old }
    {
        if !self.running {
            return;
        }
        if n < self.left {
            self.left -= n;
        } else {
            self.end();
        }
    }
}
