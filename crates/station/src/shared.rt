//! The controller under the lock.
ghost use Rattle.std.specs.Prelude.{◌≤◌, ◌+◌, length};
ghost use Rattle.station.specs.declared.shared.TheConstants.{FULL};

use controller::Controller;
use flat_code::Program;
use plc_base::{Mode, NoMemory, Profile};
use std::alloc::Global;
use std::collections::LinkedList;
use tracked_lock::Storied;
use var_access::{Entry, Reply, Request, What};

/// How many entries the history of a station's controller may have.
pub const FULL: u64 = 4_194_304;

/// What a station began with: the program of the controller that it was given, its profile, and its
/// entries. No value of this type is made: a clause reads a linked list as its items.
pub struct Opening {
    pub program: Program,
    pub profile: Profile,
    /// The entries of the controller's history, in order.
    pub first: LinkedList<Entry>,
}

/// A controller, and how many entries it had when its station was started. The controller stands
/// in a box, since the lock moves its value in each turn.
#[derive(Drop)]
pub struct Shared {
    controller: Box<Controller>,
    /// How many entries the controller had at the start.
    opening_len: u64,
    ghost within: { opening_len ≤ length controller.value.history },
    ghost room: { length controller.value.history ≤ opening_len + FULL },
}

impl Storied for Shared {
    type Origin = Opening;

    type Entry = Entry;

    ghost use Rattle.station.specs.Openings.{entries_since, station_opening};

    ghost origin = { station_opening };

    ghost story = { entries_since };

    ghost maker = { λ e. e.who };

    fn story_len(&self) -> u64 {
        self.controller.history_len() - self.opening_len
    }
}

/// Why an entry wasn't made.
#[derive(Debug, Clone, Copy, PartialEq, Eq)]
pub enum StationFault {
    /// Want of memory.
    NoMemory,
    /// The history has `FULL` entries or more.
    Full,
}

impl Shared {
    ghost use Rattle.std.specs.Prelude.{◌≡◌, ◌<◌, ◌∷◌, ◌++◌, [], length, IfOk, IfErr, OnOk};
    ghost use Rattle.var_access.specs.Entry.{IsRequest, IsValid};
    ghost use Rattle.var_access.specs.declared.entries.What.TheVariants.{Ask};
    ghost use Rattle.controller.specs.ReplayResult.{next_result, final_state};
    ghost use Rattle.station.specs.Turns.{AddsEntry, MayFail};
    ghost use Rattle.station.specs.declared.shared.TheConstants.{FULL};

    pub(crate) fn new(alloc: Global, controller: Controller) -> Result<Shared, NoMemory>
        ensures { IfOk result (λ s. (s.controller.value ≡ controller)
            × (s.opening_len ≡ length controller.history)) }
    {
        let opening_len = controller.history_len();
        let controller = Box::new(alloc, controller)?;
        Ok(Shared {
            controller,
            opening_len,
        })
    }

    // Room for one entry more.
    fn make_room(&mut self) -> Result<(), StationFault>
        ensures opening { self.new.opening_len ≡ self.old.opening_len }
        ensures ok { OnOk result ((length self.old.controller.value.history < FULL)
            × (self.new.controller.value
            ≡ record self.old.controller.value { spare = self.new.controller.value.spare })
            × (0 < self.new.controller.value.spare)) }
        ensures err { IfErr result (λ f. (self.new ≡ self.old)
            × MayFail f (length self.old.controller.value.history)) }
    {
        if self.controller.history_len() >= FULL {
            return Err(StationFault::Full);
        }
        match self.controller.reserve(1) {
            Ok(()) => Ok(()),
            Err(_) => Err(StationFault::NoMemory),
        }
    }

    /// Makes one entry, and answers with the mode after it.
    pub(crate) fn enter(&mut self, e: &Entry) -> Result<Mode, StationFault>
        requires { IsValid e.now }
        ensures ok { IfOk result (λ mode. (self.new.opening_len ≡ self.old.opening_len)
            × AddsEntry self.old.controller.value self.new.controller.value e.now
            × (mode ≡ (final_state (record self.old.controller.value {
              history = self.old.controller.value.history ++ e.now ∷ [];
            })).mode)) }
        ensures err { IfErr result (λ f. (self.new ≡ self.old)
            × MayFail f (length self.old.controller.value.history)) }
    {
        self.make_room()?;
        self.controller.enter(e);
        Ok(self.controller.mode())
    }

    /// Makes the entry of a request, and answers with the reply to it.
    pub(crate) fn ask(&mut self, who: u8, request: Request) -> Result<Reply, StationFault>
        requires who { 1 ≤ who }
        requires request { IsRequest request }
        ensures ok { IfOk result (λ reply. (self.new.opening_len ≡ self.old.opening_len)
            × AddsEntry self.old.controller.value self.new.controller.value
            (record { who = who; what = Ask request })
            × (reply ≡ (next_result self.old.controller.value
            (record { who = who; what = Ask request })).reply)) }
        ensures err { IfErr result (λ f. (self.new ≡ self.old)
            × MayFail f (length self.old.controller.value.history)) }
    {
        self.make_room()?;
        let what = What::Ask { request };
        Ok(self.controller.apply(Entry { who, what }))
    }

    /// The controller.
    pub(crate) fn into_controller(self) -> Controller
        ensures { result ≡ self.controller.value }
    {
        Box::into_inner(self.controller)
    }
}
