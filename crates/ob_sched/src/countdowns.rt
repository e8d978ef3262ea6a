ghost use Rattle.std.specs.Prelude.{◌≡◌, ◌≤◌, ◌-◌, IsTrue, All, Some, None, length, map, option_map};
ghost use Rattle.std.specs.List.{AllPass};
ghost use Rattle.ob_sched.specs.Millisecond.{delay_counted, is_ending, ending_from, period_counted, periods_counted_from, due_from};
ghost use Rattle.ob_sched.specs.OrganizationBlock.{is_delay, is_cyclic};
ghost use Rattle.ob_sched.specs.Quiet.{DelayLasts, delays_shortened, periods_shortened};
ghost use Rattle.ob_sched.specs.Scheduler.{no_delays, whole_periods, delay_set, delay_of};

use crate::dues::{FIRST_CYCLIC, FIRST_DELAY, Remaining, left_of, period_left, remaining_list};
use crate::organization_blocks::period_of;
use arrayvec::ArrayVec;
use std::marker::Model;

/// How many time-delay interrupts there are, OB 20 to 23.
const DELAYS: usize = 4;

/// How many cyclic interrupts there are, OB 30 to 38.
const CYCLIC: usize = 9;

/// The periods of the cyclic interrupts OB 30 to 38, in milliseconds.
const PERIODS: [u32; CYCLIC] = [5000, 2000, 1000, 500, 200, 100, 50, 20, 10];

/// The milliseconds left of the started delays and of the periods of the cyclic interrupts, in one
/// list that is sorted by millisecond and then by OB number, so that a delay comes before a period
/// of the same millisecond.
#[derive(Drop)]
pub(crate) struct Countdowns {
    dues: ArrayVec<Remaining, 13>,
}

impl Model for Countdowns {
    ghost use Rattle.std.specs.Prelude.{◌≡◌};
    ghost use Rattle.ob_sched.specs.Dues.{remaining_list, delays_in, periods_in};
    ghost use Rattle.ob_sched.specs.Scheduler.{Countdowns as CountdownsValue};

    ghost Value = { CountdownsValue };

    ghost view = { λ c. record {
      delays = delays_in c.dues.items;
      periods = periods_in c.dues.items;
    } };

    ghost invariant = { λ c. c.dues.items
        ≡ remaining_list (delays_in c.dues.items) (periods_in c.dues.items) };
}

/// Whether a delay is started and ends with the next millisecond.
fn is_ending(delay: Option<u32>) -> bool
    ensures { result ≡ is_ending delay }
{
    match delay {
        None => false,
        Some(left) => left <= 1,
    }
}

/// The milliseconds left of a delay after one millisecond, none where it isn't started or ends.
fn delay_counted(delay: Option<u32>) -> Option<u32>
    ensures { result ≡ delay_counted delay }
{
    match delay {
        Some(left) if left > 1 => Some(left - 1),
        _ => None,
    }
}

/// The milliseconds left of a delay after milliseconds in which it doesn't end.
fn delay_shortened(delay: Option<u32>, ms: u32) -> Option<u32>
    ensures { result ≡ option_map (λ left. left - ms) delay }
{
    match delay {
        None => None,
        Some(left) => Some(left.saturating_sub(ms)),
    }
}

/// The started delays count one millisecond; those that end aren't started any more.
fn count_delays(delays: &mut [Option<u32>])
    ensures { delays.new ≡ map delay_counted delays.old }
{
    for delay in delays.iter_mut() {
        *delay = delay_counted(*delay);
    }
}

/// The started delays count milliseconds in which none of them ends.
fn shorten_delays(delays: &mut [Option<u32>], ms: u32)
    ensures { delays.new ≡ map (option_map (λ left. left - ms)) delays.old }
{
    for delay in delays.iter_mut() {
        *delay = delay_shortened(*delay, ms);
    }
}

/// The periods of the cyclic interrupts count one millisecond; those that end begin anew.
fn count_periods(periods: &mut [u32])
    requires { length periods.old ≤ 9 }
    ensures { periods.new ≡ periods_counted_from 30 periods.old }
{
    for (i, left) in periods.iter_mut().enumerate() {
        *left = period_counted(FIRST_CYCLIC + i as u16, *left);
    }
}

/// The milliseconds left of a cyclic interrupt's period after one millisecond.
fn period_counted(ob: u16, left: u32) -> u32
    ensures { result ≡ period_counted ob left }
{
    if left <= 1 { period_of(ob) } else { left - 1 }
}

/// The periods of the cyclic interrupts count milliseconds in which none of them ends.
fn shorten_periods(periods: &mut [u32], ms: u32)
    ensures { periods.new ≡ map (λ left. left - ms) periods.old }
{
    for left in periods.iter_mut() {
        *left = left.saturating_sub(ms);
    }
}

/// The lesser of a number and the milliseconds left of a delay; the number where the delay isn't
/// started.
fn lesser_left(least: u32, delay: Option<u32>) -> u32
    ensures bound { result ≤ least }
    ensures lasts { DelayLasts result delay }
{
    match delay {
        None => least,
        Some(left) => least.min(left),
    }
}

/// As many milliseconds as every started delay has left at least.
fn least_delay(delays: &[Option<u32>]) -> u32
    ensures { All (DelayLasts result) delays.now }
{
    let mut least = u32::MAX;
    for delay in delays {
        least = lesser_left(least, *delay);
    }
    least
}

impl Countdowns {
    /// The list of some delays and periods, sorted.
    fn of(delays: [Option<u32>; DELAYS], periods: [u32; CYCLIC]) -> Countdowns
        ensures { result ≡ record { delays = delays; periods = periods } }
    {
        Countdowns {
            dues: remaining_list(&delays, &periods),
        }
    }

    /// The milliseconds left of the delays of OB 20 to 23, none where a delay isn't started.
    fn delays(&self) -> [Option<u32>; DELAYS]
        ensures { result ≡ self.now.delays }
    {
        let dues = self.dues.as_slice();
        [
            left_of(20, dues),
            left_of(21, dues),
            left_of(22, dues),
            left_of(23, dues),
        ]
    }

    /// The milliseconds left of the periods of OB 30 to 38.
    fn periods(&self) -> [u32; CYCLIC]
        ensures { result ≡ self.now.periods }
    {
        let dues = self.dues.as_slice();
        [
            period_left(30, dues),
            period_left(31, dues),
            period_left(32, dues),
            period_left(33, dues),
            period_left(34, dues),
            period_left(35, dues),
            period_left(36, dues),
            period_left(37, dues),
            period_left(38, dues),
        ]
    }

    /// The countdowns in which no delay is started and every period begins.
    pub(crate) fn new() -> Countdowns
        ensures { result ≡ record { delays = no_delays; periods = whole_periods } }
    {
        Countdowns::of([None; DELAYS], PERIODS)
    }

    /// The milliseconds left of the delay of an OB from 20 to 23, if it is started.
    pub(crate) fn delay(&self, ob: u16) -> Option<u32>
        requires { IsTrue (is_delay ob) }
        ensures { result ≡ delay_of self.now ob }
    {
        self.delays()[usize::from(ob - FIRST_DELAY)]
    }

    /// The delay of an OB from 20 to 23 begins with some milliseconds, or ends.
    pub(crate) fn set_delay(&mut self, ob: u16, left: Option<u32>)
        requires { IsTrue (is_delay ob) }
        ensures { self.new ≡ delay_set left ob self.old }
    {
        let mut delays = self.delays();
        delays[usize::from(ob - FIRST_DELAY)] = left;
        *self = Countdowns::of(delays, self.periods());
    }

    /// No delay is started any more; the periods stay.
    pub(crate) fn end_delays(&mut self)
        ensures { self.new ≡ record self.old { delays = no_delays } }
    {
        *self = Countdowns::of([None; DELAYS], self.periods());
    }

    /// The periods of the cyclic interrupts begin anew; the delays stay.
    pub(crate) fn begin_periods(&mut self)
        ensures { self.new ≡ record self.old { periods = whole_periods } }
    {
        *self = Countdowns::of(self.delays(), PERIODS);
    }

    /// The organization blocks whose delays end with the next millisecond, by number.
    pub(crate) fn ending_delays(&self) -> ArrayVec<u16, 4>
        ensures ending { result.items ≡ ending_from 20 self.now.delays }
        ensures known { AllPass is_delay result.items }
    {
        let delays = self.delays();
        let mut obs = ArrayVec::new();
        for (i, delay) in delays.iter().enumerate() {
            if is_ending(*delay) {
                obs.push(FIRST_DELAY + i as u16);
            }
        }
        obs
    }

    /// The started delays count one millisecond; the periods stay.
    pub(crate) fn count_delays(&mut self)
        ensures { self.new ≡ record self.old { delays = map delay_counted self.old.delays } }
    {
        let mut delays = self.delays();
        count_delays(&mut delays);
        *self = Countdowns::of(delays, self.periods());
    }

    /// The organization blocks whose periods end with the next millisecond, by number.
    pub(crate) fn due(&self) -> ArrayVec<u16, 9>
        ensures due { result.items ≡ due_from 30 self.now.periods }
        ensures known { AllPass is_cyclic result.items }
    {
        let periods = self.periods();
        let mut obs = ArrayVec::new();
        for (i, left) in periods.iter().enumerate() {
            if *left <= 1 {
                obs.push(FIRST_CYCLIC + i as u16);
            }
        }
        obs
    }

    /// The periods of the cyclic interrupts count one millisecond; the delays stay.
    pub(crate) fn count_periods(&mut self)
        ensures { self.new
            ≡ record self.old { periods = periods_counted_from 30 self.old.periods } }
    {
        let mut periods = self.periods();
        count_periods(&mut periods);
        *self = Countdowns::of(self.delays(), periods);
    }

    /// As many milliseconds as every started delay has left at least.
    pub(crate) fn least_delay(&self) -> u32
        ensures { All (DelayLasts result) self.now.delays }
    {
        least_delay(&self.delays())
    }

    /// As many milliseconds as every started delay and every period has left at least, from the
    /// front of the list.
    pub(crate) fn least(&self) -> u32
        ensures delays { All (DelayLasts result) self.now.delays }
        ensures periods { All (λ left. result ≤ left) self.now.periods }
    {
        match self.dues.as_slice().first() {
            Some(due) => due.ms,
            None => 0,
        }
    }

    /// The started delays count milliseconds in which none of them ends; the periods stay.
    pub(crate) fn shorten_delays(&mut self, ms: u32)
        ensures { self.new ≡ delays_shortened ms self.old }
    {
        let mut delays = self.delays();
        shorten_delays(&mut delays, ms);
        *self = Countdowns::of(delays, self.periods());
    }

    /// The periods count milliseconds in which none of them ends; the delays stay.
    pub(crate) fn shorten_periods(&mut self, ms: u32)
        ensures { self.new ≡ periods_shortened ms self.old }
    {
        let mut periods = self.periods();
        shorten_periods(&mut periods, ms);
        *self = Countdowns::of(self.delays(), periods);
    }
}
