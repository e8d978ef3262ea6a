ghost use Rattle.std.specs.Prelude.{◌≡◌, IsTrue};
ghost use Rattle.ob_sched.specs.TickState.{time_error, ob_not_loaded, ob_requested, error_requested, lost_event};
ghost use Rattle.ob_sched.specs.OrganizationBlock.{can_wait, is_asynchronous_error};
ghost use Rattle.ob_sched.specs.StartInformation.{IsEvent};
ghost use Rattle.ob_sched.specs.Views.{tick_state_of};

use crate::organization_blocks::{class_in, is_hardware};
use crate::requests::Arrived;
use crate::sched::Sched;
use crate::start_infos::{StartEvent, StartInfo};
use crate::tick_results::TickResult;
use plc_base::{Mode, stop_causes};

/// Record of diagnostics: a time error, with the organization block that it concerns.
const TIME_ERROR: u16 = 1;

/// Record of diagnostics: a lost request of OB 80 or 85.
const LOST_REQUEST: u16 = 2;

/// Record of diagnostics: an organization block that isn't loaded.
const NOT_LOADED: u16 = 3;

/// The start event of OB 80 for a request of an organization block whose queue was full: a
/// hardware interrupt has one of its own.
fn lost_event(ob: u16) -> StartEvent
    ensures event { result ≡ lost_event ob }
    ensures known { IsEvent result }
{
    if is_hardware(ob) {
        StartEvent::QueueFull { ob }
    } else {
        StartEvent::Missed { ob }
    }
}

impl Sched {
    /// Requests OB 80 or OB 85. Where it isn't loaded the controller stops with the cause; where
    /// one request of it is pending already the new one is lost, which is recorded.
    fn request_error(
        &mut self,
        mode: Mode,
        ob: u16,
        cause: u8,
        event: StartEvent,
        passed: &mut TickResult,
    )
        requires error { IsTrue (is_asynchronous_error ob) }
        requires event { IsEvent event }
        ensures { tick_state_of self.new passed.new
            ≡ error_requested mode ob cause event (tick_state_of self.old passed.old) }
    {
        let info = StartInfo::new(event, class_in(mode, ob));
        match self.arrive(ob, info) {
            Arrived::Queued | Arrived::Dropped => {}
            Arrived::NotLoaded => passed.halt(cause),
            Arrived::Full => passed.record(LOST_REQUEST, ob),
        }
    }

    /// A time error, which is recorded with the organization block that it concerns, and requests
    /// OB 80.
    #[tactic(auto, unfolding(crate::specs::TickState::time_error))]
    pub(crate) fn time_error(
        &mut self,
        mode: Mode,
        event: StartEvent,
        ob: u16,
        passed: &mut TickResult,
    )
        requires { IsEvent event }
        ensures { tick_state_of self.new passed.new
            ≡ time_error mode event ob (tick_state_of self.old passed.old) }
    {
        passed.record(TIME_ERROR, ob);
        self.request_error(mode, 80, stop_causes::NO_OB_80, event, passed);
    }

    /// A request of an organization block that isn't loaded, which is recorded, and requests OB
    /// 85.
    #[tactic(auto, unfolding(crate::specs::TickState::ob_not_loaded))]
    fn request_not_loaded(&mut self, mode: Mode, ob: u16, passed: &mut TickResult)
        ensures { tick_state_of self.new passed.new
            ≡ ob_not_loaded mode ob (tick_state_of self.old passed.old) }
    {
        passed.record(NOT_LOADED, ob);
        self.request_error(
            mode,
            85,
            stop_causes::NO_OB_85,
            StartEvent::NotLoaded { ob },
            passed,
        );
    }

    /// A request of an organization block in an operating mode, with all that follows where it
    /// isn't queued: one of a block that isn't loaded requests OB 85, and one that finds its queue
    /// full is a time error, which requests OB 80. `passed` gains the records of diagnostics and
    /// the stop cause.
    #[tactic(auto, unfolding(crate::specs::TickState::ob_requested))]
    pub fn request(&mut self, mode: Mode, ob: u16, info: StartInfo, passed: &mut TickResult)
        requires { IsTrue (can_wait ob) }
        ensures { tick_state_of self.new passed.new
            ≡ ob_requested mode ob info (tick_state_of self.old passed.old) }
    {
        match self.arrive(ob, info) {
            Arrived::Queued | Arrived::Dropped => {}
            Arrived::NotLoaded => self.request_not_loaded(mode, ob, passed),
            Arrived::Full => self.time_error(mode, lost_event(ob), ob, passed),
        }
    }
}
