//! The station.
ghost use Rattle.std.specs.Prelude.{◌≡◌, ◌≤◌, true, false, ◌∷◌, [], List, IfOk, IfErr, OnOk};
ghost use mathlib.Core.List.{IsPrefix};
ghost use Rattle.var_access.specs.declared.Entry.{Entry as AnEntry};
ghost use Rattle.var_access.specs.declared.What.TheVariants.{Step, Ask};
ghost use Rattle.var_access.specs.Entry.{IsInRange, IsRequest};
ghost use Rattle.tracked_lock.specs.Passes.{IsCountOut, fresh_passes, joined_pass, missing_number_count};
ghost use Rattle.tracked_lock.specs.Views.{AreEntriesByMaker};
ghost use Rattle.station.specs.Openings.{mode_at, reply_at, the_opening};
ghost use Rattle.station.specs.Turns.{HasMade, HasMadeNone, is_stimulus};
ghost use Rattle.station.specs.Closing.{IsGivenBack};

use crate::shared::{Shared, StationFault};
use controller::Controller;
use plc_base::{Mode, NoMemory};
use std::alloc::Global;
use std::marker::Model;
use std::sync::Wait;
use tracked_lock::{Pass, SeatsOut, TrackedLock};
use var_access::{Entry, Reply, Request, What};

/// A controller that several workers share. Contracts see its lock: what the station began with,
/// and how many passes it has.
#[derive(Drop)]
pub struct Station {
    lock: TrackedLock<Shared>,
}

impl Model for Station {
    ghost use Rattle.tracked_lock.specs.Passes.{LockView};
    ghost use Rattle.station.specs.declared.shared.Opening.{Opening};

    ghost Value = { LockView Opening };

    ghost view = { λ s. s.lock };
}

/// Why a station isn't closed: some of its numbers from 1 to n aren't those of the pass.
#[derive(Drop)]
pub struct StationOut {
    /// How many of the numbers aren't.
    pub count: u64,
    /// The station, as it was.
    pub station: Station,
    /// The pass, as it was.
    pub pass: Pass<Shared>,
}

impl Station {
    /// A station round a controller, and all `n` passes that it will ever have, in the order of
    /// their numbers 1 to n. Each has seen no entry, and made none.
    ///
    /// # Errors
    ///
    /// `NoMemory` for want of memory.
    pub fn start(
        alloc: Global,
        controller: Controller,
        n: u8,
    ) -> Result<(Station, Vec<Pass<Shared>>), NoMemory>
        requires some { 1 ≤ n }
        ensures station { IfOk result (λ r. (r.0.origin ≡ record {
          program = controller.program;
          profile = controller.profile;
          first = controller.history;
        } ∷ []) × (r.0.passes ≡ n)) }
        ensures passes { IfOk result (λ r. r.1.items ≡ fresh_passes r.0 0 n) }
    {
        let shared = Shared::new(alloc, controller)?;
        let (lock, passes) = TrackedLock::new(alloc, shared, n)?;
        Ok((Station { lock }, passes))
    }

    /// Makes a step under the pass's number, and answers with the mode after it. Waits for its
    /// turn.
    ///
    /// # Errors
    ///
    /// `NoMemory` for want of memory, `Full` where the history has `FULL` entries or more. No entry
    /// was made then.
    pub fn step<R: Wait>(&self, rt: &R, p: &mut Pass<Shared>) -> Result<Mode, StationFault>
        requires station { p.old.lock ≡ self.now }
        requires free { p.old.out ≡ false }
        ensures ok { IfOk result (λ mode. (before : List AnEntry)
            × HasMade p.old p.new before (record { who = p.old.number; what = Step })
            × (mode ≡ mode_at (the_opening p.old.lock.origin) before
            (record { who = p.old.number; what = Step }))) }
        ensures err { IfErr result (λ fault. HasMadeNone p.old p.new fault) }
        ensures pass { p.new ≡ record p.old { seen = p.new.seen; made = p.new.made } }
        ensures made { AreEntriesByMaker (λ e. e.who) p.new.seen p.new.made }
    {
        self.enter(rt, p, What::Step)
    }

    /// Makes an input, an arrival or a tick under the pass's number. Waits for its turn.
    ///
    /// # Errors
    ///
    /// As of `step`.
    pub fn feed<R: Wait>(
        &self,
        rt: &R,
        p: &mut Pass<Shared>,
        what: What,
    ) -> Result<(), StationFault>
        requires station { p.old.lock ≡ self.now }
        requires free { p.old.out ≡ false }
        requires fed { is_stimulus what ≡ true }
        requires valid { IsInRange what }
        ensures ok { OnOk result ((before : List AnEntry)
            × HasMade p.old p.new before (record { who = p.old.number; what = what })) }
        ensures err { IfErr result (λ fault. HasMadeNone p.old p.new fault) }
        ensures pass { p.new ≡ record p.old { seen = p.new.seen; made = p.new.made } }
        ensures made { AreEntriesByMaker (λ e. e.who) p.new.seen p.new.made }
    {
        match self.enter(rt, p, what) {
            Ok(_) => Ok(()),
            Err(fault) => Err(fault),
        }
    }

    /// Makes a request under the pass's number, and answers with the reply to it. Waits for its
    /// turn.
    ///
    /// # Errors
    ///
    /// As of `step`.
    pub fn ask<R: Wait>(
        &self,
        rt: &R,
        p: &mut Pass<Shared>,
        request: Request,
    ) -> Result<Reply, StationFault>
        requires station { p.old.lock ≡ self.now }
        requires free { p.old.out ≡ false }
        requires valid { IsRequest request }
        ensures ok { IfOk result (λ reply. (before : List AnEntry)
            × HasMade p.old p.new before (record { who = p.old.number; what = Ask request })
            × (reply ≡ reply_at (the_opening p.old.lock.origin) before
            (record { who = p.old.number; what = Ask request }))) }
        ensures err { IfErr result (λ fault. HasMadeNone p.old p.new fault) }
        ensures pass { p.new ≡ record p.old { seen = p.new.seen; made = p.new.made } }
        ensures made { AreEntriesByMaker (λ e. e.who) p.new.seen p.new.made }
    {
        let who = p.number();
        let mut held = self.lock.take(rt, p);
        let reply = held.value_mut().ask(who, request);
        self.lock.put(p, held);
        reply
    }

    /// The pass takes over the other's numbers, with the entries made under each, and has seen the
    /// longer of the two lists.
    pub fn join(&self, p: &mut Pass<Shared>, q: Pass<Shared>)
        requires station { (p.old.lock ≡ self.now) × (q.lock ≡ self.now) }
        requires free { (p.old.out ≡ false) × (q.out ≡ false) }
        ensures pass { p.new ≡ joined_pass p.old q }
        ensures seen { IsPrefix p.old.seen p.new.seen × IsPrefix q.seen p.new.seen }
        ensures made { AreEntriesByMaker (λ e. e.who) p.new.seen p.new.made }
    {
        self.lock.join(p, q);
    }

    /// The controller, where the pass has every number from 1 to n. Else `StationOut`, with how
    /// many numbers aren't the pass's, and station and pass as they were. A pass that was dropped
    /// keeps its numbers out for good.
    pub fn close(self, p: Pass<Shared>) -> Result<Controller, StationOut>
        requires station { p.lock ≡ self }
        requires free { p.out ≡ false }
        ensures ok { IfOk result (λ c. (missing_number_count self.passes p.made ≡ 0)
            × IsGivenBack (the_opening self.origin) c p) }
        ensures err { IfErr result (λ o. IsCountOut self p o.count
            × (o.station ≡ self) × (o.pass ≡ p)) }
    {
        let Station { lock } = self;
        match lock.close(p) {
            Ok(shared) => Ok(shared.into_controller()),
            Err(SeatsOut { count, lock, pass }) => Err(StationOut {
                count,
                station: Station { lock },
                pass,
            }),
        }
    }

    // One turn without a reply: makes an entry, and answers with the mode after it.
    fn enter<R: Wait>(&self, rt: &R, p: &mut Pass<Shared>, what: What) -> Result<Mode, StationFault>
        requires station { p.old.lock ≡ self.now }
        requires free { p.old.out ≡ false }
        requires valid { IsInRange what }
        ensures ok { IfOk result (λ mode. (before : List AnEntry)
            × HasMade p.old p.new before (record { who = p.old.number; what = what })
            × (mode ≡ mode_at (the_opening p.old.lock.origin) before
            (record { who = p.old.number; what = what }))) }
        ensures err { IfErr result (λ fault. HasMadeNone p.old p.new fault) }
        ensures pass { p.new ≡ record p.old { seen = p.new.seen; made = p.new.made } }
        ensures made { AreEntriesByMaker (λ e. e.who) p.new.seen p.new.made }
    {
        let who = p.number();
        let mut held = self.lock.take(rt, p);
        let mode = held.value_mut().enter(&Entry { who, what });
        self.lock.put(p, held);
        mode
    }
}
