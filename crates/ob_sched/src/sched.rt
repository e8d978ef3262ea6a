ghost use Rattle.std.specs.Prelude.{◌≡◌, ◌≤◌, ◌<◌, ◌^◌, IsTrue, is_some, true, false, length, IfOk, IfSome};
ghost use Rattle.ob_sched.specs.Bin.{IsListedByClass, IsBitmapOf};
ghost use Rattle.ob_sched.specs.OrganizationBlock.{can_wait, is_ob, is_delay};
ghost use Rattle.ob_sched.specs.StartRequest.{best_of, IsBest};
ghost use Rattle.ob_sched.specs.Scheduler.{sched_at_rest, is_ob_loaded, is_ob_disabled, arrival, request_arrived, best_removed, ob_disabled_as, delay_of, delay_started, delay_cancelled, cycle_retriggered, cycle_begun, run_begun, sched_stopped, sched_restarted};
ghost use Rattle.ob_sched.specs.Views.{scheduler_of, pending_of};

use crate::bins::Bins;
use crate::clocks::Clock;
use crate::countdowns::Countdowns;
use crate::cycle_times::CycleTime;
use crate::ob_sets::ObSet;
use crate::organization_blocks::queue_length;
use crate::requests::{Arrived, Pending};
use crate::start_infos::StartInfo;
use plc_base::{Mode, NoMemory};
use std::alloc::Global;

/// The scheduler: which organization blocks are loaded and which are disabled, the pending requests,
/// the delays and periods, the clock of TIME_TCK and the cycle time.
#[derive(Drop)]
pub struct Sched {
    /// The numbers of the organization blocks that are loaded.
    pub(crate) loaded: Vec<u16>,
    /// The organization blocks that are disabled (SFC 39, DIS_IRT).
    pub(crate) disabled: ObSet,
    /// The pending requests.
    pub(crate) pending: Bins,
    /// The milliseconds left of the delays and periods.
    pub(crate) countdowns: Countdowns,
    /// The clock of SFC 64, TIME_TCK.
    pub(crate) clock: Clock,
    /// The cycle counter, and the mark that the cycle time was exceeded.
    pub(crate) cycle: CycleTime,
}

impl Sched {
    /// The scheduler before the first start, with the numbers of the loaded organization blocks.
    ///
    /// # Errors
    ///
    /// `NoMemory` for want of memory. No other call takes any.
    pub fn new(alloc: Global, loaded: &[u16]) -> Result<Sched, NoMemory>
        ensures { IfOk result (λ s. scheduler_of s ≡ sched_at_rest loaded.now) }
    {
        Ok(Sched {
            loaded: Vec::from_slice(alloc, loaded)?,
            disabled: ObSet::new(),
            pending: Bins::new(alloc)?,
            countdowns: Countdowns::new(),
            clock: Clock::new(),
            cycle: CycleTime::new(),
        })
    }

    /// Whether an organization block is loaded.
    pub(crate) fn is_loaded(&self, ob: u16) -> bool
        ensures { result ≡ is_ob_loaded (scheduler_of self.now) ob }
    {
        self.loaded.as_slice().contains(&ob)
    }

    /// Whether an organization block is disabled (SFC 39, DIS_IRT).
    pub(crate) fn is_disabled(&self, ob: u16) -> bool
        ensures { result ≡ is_ob_disabled (scheduler_of self.now) ob }
    {
        self.disabled.contains(ob)
    }

    /// A request of an organization block: `Dropped` where the block is disabled, else `NotLoaded`
    /// where it isn't loaded, else `Full` where its queue is full; else it waits. Only a request
    /// that waits changes anything.
    pub fn arrive(&mut self, ob: u16, info: StartInfo) -> Arrived
        requires { IsTrue (can_wait ob) }
        ensures answer { result ≡ arrival (scheduler_of self.old) ob }
        ensures after { scheduler_of self.new ≡ request_arrived ob info (scheduler_of self.old) }
    {
        if self.is_disabled(ob) {
            return Arrived::Dropped;
        }
        if !self.is_loaded(ob) {
            return Arrived::NotLoaded;
        }
        if self.pending.waiting_count(ob) >= queue_length(ob) {
            return Arrived::Full;
        }
        self.pending.push(ob, info);
        Arrived::Queued
    }

    /// The pending request that outranks all others, with its priority class in the operating mode.
    /// There is none exactly where nothing is pending.
    #[tactic(auto, using(crate::proofs::QueueLemmas::best_is_first))]
    pub fn best(&self, mode: Mode) -> Option<Pending>
        ensures value { result ≡ best_of mode (scheduler_of self.now).pending }
        ensures best { IfSome result (λ best. IsBest best (scheduler_of self.now).pending) }
        ensures known { IfSome result (λ best. IsTrue (can_wait best.ob)) }
    {
        self.pending.best(mode)
    }

    /// Starts the first pending request by rank: it isn't pending any more.
    pub fn start(&mut self, best: Pending)
        requires { IsBest best (scheduler_of self.old).pending }
        ensures { scheduler_of self.new ≡ best_removed (scheduler_of self.old) }
    {
        let _ = best;
        self.pending.take_best();
    }

    /// Disables an organization block (SFC 39, DIS_IRT): its requests are dropped from now on.
    pub fn disable(&mut self, ob: u16)
        requires { IsTrue (is_ob ob) }
        ensures { scheduler_of self.new ≡ ob_disabled_as true ob (scheduler_of self.old) }
    {
        self.disabled.set(ob, true);
    }

    /// Enables an organization block (SFC 40, EN_IRT): its requests are taken from now on.
    pub fn enable(&mut self, ob: u16)
        requires { IsTrue (is_ob ob) }
        ensures { scheduler_of self.new ≡ ob_disabled_as false ob (scheduler_of self.old) }
    {
        self.disabled.set(ob, false);
    }

    /// Starts the delay of a time-delay interrupt, or starts it anew, with 1 to 60,000
    /// milliseconds.
    pub fn start_delay(&mut self, ob: u16, ms: u32)
        requires delay { IsTrue (is_delay ob) }
        requires some { 1 ≤ ms }
        requires most { ms ≤ 60000 }
        ensures { scheduler_of self.new ≡ delay_started ob ms (scheduler_of self.old) }
    {
        self.countdowns.set_delay(ob, Some(ms));
    }

    /// Ends the delay of a time-delay interrupt. The answer is false exactly where none is
    /// started.
    pub fn cancel_delay(&mut self, ob: u16) -> bool
        requires { IsTrue (is_delay ob) }
        ensures answer { result ≡ is_some (delay_of (scheduler_of self.old).countdowns ob) }
        ensures after { scheduler_of self.new ≡ delay_cancelled ob (scheduler_of self.old) }
    {
        let is_started = self.countdowns.delay(ob).is_some();
        self.countdowns.set_delay(ob, None);
        is_started
    }

    /// The cycle counter begins anew. The mark of an exceeded cycle time stays.
    pub fn re_trigger(&mut self)
        ensures { scheduler_of self.new ≡ cycle_retriggered (scheduler_of self.old) }
    {
        self.cycle.clear_counter();
    }

    /// The clock of TIME_TCK in milliseconds, below 2^31.
    pub fn clock(&self) -> u32
        ensures value { result ≡ (scheduler_of self.now).clock }
        ensures bound { result < 2 ^ 31 }
    {
        self.clock.ms()
    }

    /// A cycle point: the cycle counter and the mark of an exceeded cycle time are cleared.
    pub fn cycle_point(&mut self)
        ensures { scheduler_of self.new ≡ cycle_begun (scheduler_of self.old) }
    {
        self.cycle = CycleTime::new();
    }

    /// RUN begins: the cycle counter is cleared, and the periods of the cyclic interrupts begin.
    pub fn begin_run(&mut self)
        ensures { scheduler_of self.new ≡ run_begun (scheduler_of self.old) }
    {
        self.countdowns.begin_periods();
        self.cycle.clear_counter();
    }

    /// Stops the scheduler with the controller: pending requests and delays end, and all else
    /// stays.
    pub fn stop(&mut self)
        ensures { scheduler_of self.new ≡ sched_stopped (scheduler_of self.old) }
    {
        self.pending.clear();
        self.countdowns.end_delays();
    }

    /// Starts the scheduler with the controller: no organization block is disabled, and the clock,
    /// the cycle counter and the mark of an exceeded cycle time are cleared.
    pub fn restart(&mut self)
        ensures { scheduler_of self.new ≡ sched_restarted (scheduler_of self.old) }
    {
        self.disabled = ObSet::new();
        self.clock = Clock::new();
        self.cycle = CycleTime::new();
    }

    /// The pending requests in their bins: bin n lists, in the order of their arrival, those whose
    /// priority class in RUN is n, and bit n of the bitmap is 1 exactly where it holds one.
    pub fn bins(&self) -> &Bins
        ensures count { length result.now.bins.items ≡ 32 }
        ensures waiting { IsListedByClass result.now.bins.items (scheduler_of self.now).pending }
        ensures bitmap { IsBitmapOf result.now.map result.now.bins.items }
    {
        &self.pending
    }
}
