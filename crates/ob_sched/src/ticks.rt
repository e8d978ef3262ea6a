ghost use Rattle.std.specs.Prelude.{◌≡◌, ℕ, ◌+◌, ◌<◌, ◌≤◌, ◌^◌, IsTrue, List, None};
ghost use Rattle.std.specs.Fn.{iterate};
ghost use Rattle.std.specs.List.{AllPass};
ghost use Rattle.ob_sched.specs.TickState.{TickState};
ghost use Rattle.ob_sched.specs.Millisecond.{each_ob, delay_ended, period_ended, cycle_counted, time_counted, delays_passed, periods_passed, run_passed, after_ms, unless_stopped, tick_begun, after_tick};
ghost use Rattle.ob_sched.specs.OrganizationBlock.{is_delay, is_cyclic};
ghost use Rattle.ob_sched.specs.Quiet.{NothingDueFor, RunLastsIn, run_shortened_in};
ghost use Rattle.ob_sched.specs.Views.{scheduler_of, tick_state_of};

use crate::organization_blocks::class_in;
use crate::sched::Sched;
use crate::start_infos::{StartEvent, StartInfo};
use crate::tick_results::TickResult;
use plc_base::{Mode, stop_causes};

impl Sched {
    /// The delay of a time-delay interrupt has ended: its organization block is requested.
    fn end_delay(&mut self, mode: Mode, ob: u16, passed: &mut TickResult)
        requires { IsTrue (is_delay ob) }
        ensures { tick_state_of self.new passed.new
            ≡ delay_ended mode ob (tick_state_of self.old passed.old) }
    {
        let info = StartInfo::new(StartEvent::Delay { ob }, class_in(mode, ob));
        self.request(mode, ob, info, passed);
    }

    /// The period of a cyclic interrupt has ended: its organization block is requested, unless it
    /// is disabled or isn't loaded. Where it is still pending or active this is a time error.
    #[tactic(auto, unfolding(crate::specs::Millisecond::period_ended))]
    fn end_period(&mut self, mode: Mode, active: &[u16], ob: u16, passed: &mut TickResult)
        requires { IsTrue (is_cyclic ob) }
        ensures { tick_state_of self.new passed.new
            ≡ period_ended mode active.now ob (tick_state_of self.old passed.old) }
    {
        if self.is_disabled(ob) || !self.is_loaded(ob) {
            return;
        }
        if self.pending.waiting_count(ob) > 0 || active.contains(&ob) {
            self.time_error(mode, StartEvent::Missed { ob }, ob, passed);
            return;
        }
        let info = StartInfo::new(StartEvent::Period { ob }, class_in(mode, ob));
        self.pending.push(ob, info);
    }

    /// The cycle counter counts one millisecond. At 151 ms it begins anew: the first time in a
    /// cycle this is a time error, the second time the controller stops.
    #[tactic(auto, unfolding(crate::specs::Millisecond::cycle_counted))]
    fn count_cycle(&mut self, mode: Mode, passed: &mut TickResult)
        ensures { tick_state_of self.new passed.new
            ≡ cycle_counted mode (tick_state_of self.old passed.old) }
    {
        if self.cycle.ms_left() > 1 {
            self.cycle.count(1);
            return;
        }
        let was_exceeded = self.cycle.was_exceeded();
        self.cycle.exceed();
        if was_exceeded {
            passed.halt(stop_causes::CYCLE_TIME_TWICE);
        } else {
            self.time_error(mode, StartEvent::CycleTime, 1, passed);
        }
    }

    /// The organization blocks whose delays have ended are requested by number, until the
    /// controller stops.
    fn end_delays(&mut self, mode: Mode, obs: &[u16], passed: &mut TickResult)
        requires { AllPass is_delay obs.now }
        ensures { tick_state_of self.new passed.new
            ≡ each_ob (delay_ended mode) obs.now (tick_state_of self.old passed.old) }
    {
        for ob in obs {
            if passed.stop.is_some() {
                return;
            }
            self.end_delay(mode, *ob, passed);
        }
    }

    /// The organization blocks whose periods have ended are requested by number, until the
    /// controller stops.
    fn end_periods(&mut self, mode: Mode, active: &[u16], obs: &[u16], passed: &mut TickResult)
        requires { AllPass is_cyclic obs.now }
        ensures { tick_state_of self.new passed.new
            ≡ each_ob (period_ended mode active.now) obs.now (tick_state_of self.old passed.old) }
    {
        for ob in obs {
            if passed.stop.is_some() {
                return;
            }
            self.end_period(mode, active, *ob, passed);
        }
    }

    /// The clock of TIME_TCK and the tick count one millisecond.
    fn count_time(&mut self, passed: &mut TickResult)
        requires { passed.old.ms + 1 < 2 ^ 32 }
        ensures { tick_state_of self.new passed.new
            ≡ time_counted (tick_state_of self.old passed.old) }
    {
        passed.ms += 1;
        self.clock.count(1);
    }

    /// The started delays count one millisecond, and those that end request their organization
    /// blocks.
    fn pass_delays(&mut self, mode: Mode, passed: &mut TickResult)
        ensures { tick_state_of self.new passed.new
            ≡ delays_passed mode (tick_state_of self.old passed.old) }
    {
        let obs = self.countdowns.ending_delays();
        self.countdowns.count_delays();
        self.end_delays(mode, obs.as_slice(), passed);
    }

    /// The periods of the cyclic interrupts count one millisecond, and those that end request
    /// their organization blocks.
    fn pass_periods(&mut self, mode: Mode, active: &[u16], passed: &mut TickResult)
        ensures { tick_state_of self.new passed.new
            ≡ periods_passed mode active.now (tick_state_of self.old passed.old) }
    {
        let obs = self.countdowns.due();
        self.countdowns.count_periods();
        self.end_periods(mode, active, obs.as_slice(), passed);
    }

    /// What moves in RUN alone counts one millisecond: the periods of the cyclic interrupts and
    /// the cycle counter, until the controller stops.
    fn pass_run(&mut self, mode: Mode, active: &[u16], passed: &mut TickResult)
        ensures { tick_state_of self.new passed.new
            ≡ run_passed mode active.now (tick_state_of self.old passed.old) }
    {
        if mode != Mode::Run || passed.stop.is_some() {
            return;
        }
        self.pass_periods(mode, active, passed);
        if passed.stop.is_none() {
            self.count_cycle(mode, passed);
        }
    }

    /// One millisecond of a tick: the clock, the started delays, and in RUN the periods and the
    /// cycle counter.
    #[tactic(auto, unfolding(crate::specs::Millisecond::after_ms))]
    fn pass_one_ms(&mut self, mode: Mode, active: &[u16], passed: &mut TickResult)
        requires { passed.old.ms + 1 < 2 ^ 32 }
        ensures { tick_state_of self.new passed.new
            ≡ after_ms mode active.now (tick_state_of self.old passed.old) }
    {
        if passed.stop.is_some() {
            return;
        }
        self.count_time(passed);
        self.pass_delays(mode, passed);
        self.pass_run(mode, active, passed);
    }

    /// A number of milliseconds before which no delay and no period ends and the cycle time isn't
    /// exceeded.
    fn ms_to_next(&self, mode: Mode) -> u32
        ensures { NothingDueFor mode result (scheduler_of self.now) }
    {
        match mode {
            Mode::Run => self.countdowns.least().min(self.cycle.ms_left()),
            _ => self.countdowns.least_delay(),
        }
    }

    /// Passes milliseconds in which no delay and no period ends and the cycle time isn't exceeded.
    fn wait(&mut self, mode: Mode, ms: u32, passed: &mut TickResult)
        requires fits { passed.old.ms + ms < 2 ^ 32 }
        requires running { passed.old.stop ≡ None }
        requires quiet { 0 < ms → NothingDueFor mode (ms + 1) (scheduler_of self.old) }
        ensures { (active : List ℕ) → tick_state_of self.new passed.new
            ≡ iterate (after_ms mode active) ms (tick_state_of self.old passed.old) }
    {
        if ms == 0 {
            return;
        }
        passed.ms += ms;
        self.clock.count(ms);
        self.countdowns.shorten_delays(ms);
        self.wait_in_run(mode, ms);
    }

    /// Passes milliseconds, in which nothing is due, for what moves in RUN alone: the periods and
    /// the cycle counter.
    fn wait_in_run(&mut self, mode: Mode, ms: u32)
        requires { RunLastsIn mode (ms + 1) (scheduler_of self.old) }
        ensures { scheduler_of self.new ≡ run_shortened_in mode ms (scheduler_of self.old) }
    {
        if let Mode::Run = mode {
            self.countdowns.shorten_periods(ms);
            self.cycle.count(ms);
        }
    }

    /// Passes `n` milliseconds, from one moment at which a delay or a period ends or the cycle
    /// time is exceeded to the next.
    fn pass(&mut self, n: u32, mode: Mode, active: &[u16]) -> TickResult
        ensures { tick_state_of self.new result
            ≡ iterate (after_ms mode active.now) n (tick_begun (scheduler_of self.old)) }
    {
        let mut passed = TickResult::new();
        let mut left = n;
        while left > 0 {
            let quiet = self.ms_to_next(mode).min(left).saturating_sub(1);
            self.wait(mode, quiet, &mut passed);
            self.pass_one_ms(mode, active, &mut passed);
            if passed.stop.is_some() {
                return passed;
            }
            left -= quiet + 1;
        }
        passed
    }

    /// Passes `n` milliseconds in an operating mode, where the given organization blocks are active:
    /// the clock, the started delays by number, and in RUN the cyclic interrupts by number and the
    /// cycle counter. A stop ends it. In STOP nothing passes.
    pub fn pass_ms(&mut self, n: u32, mode: Mode, active: &[u16]) -> TickResult
        ensures { tick_state_of self.new result
            ≡ after_tick mode active.now n (scheduler_of self.old) }
    {
        match mode {
            Mode::Run => self.pass(n, Mode::Run, active),
            Mode::Startup => self.pass(n, Mode::Startup, active),
            Mode::Stop { .. } => TickResult::new(),
        }
    }
}
