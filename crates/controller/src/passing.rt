//! Arrivals and passing time.
ghost use Rattle.std.specs.Prelude.{◌≡◌, ◌||◌, IsTrue};
ghost use Rattle.machine.specs.Flat.{code_of};
ghost use Rattle.ob_sched.specs.OrganizationBlock.{is_time_of_day, is_hardware};
ghost use Rattle.controller.specs.Ready.{IsReady};
ghost use Rattle.controller.specs.Requests.{arrival_served, state_stopped_if};
ghost use Rattle.controller.specs.Stack.{IsActivationStack};
ghost use Rattle.controller.specs.State.{diagnoses_recorded};
ghost use Rattle.controller.specs.Ticking.{time_passed};
ghost use Rattle.controller.specs.Views.{cpu_state};

use crate::cpus::Cpu;
use crate::stopping::is_stop;
use image_file::Loaded;
use ob_sched::{StartEvent, StartInfo, TickResult, class_in};

impl Cpu {
    // The records of the scheduler, and the stop that it came to.
    fn take(&mut self, program: &Loaded, passed: &TickResult)
        requires ready { IsReady (code_of program.now.program) self.old.activations }
        requires stack { IsActivationStack self.old.mode self.old.activations }
        ensures state { cpu_state self.new
            ≡ state_stopped_if (code_of program.now.program) passed.now.stop
            (diagnoses_recorded passed.now.records.items (cpu_state self.old)) }
        ensures stack { IsActivationStack self.new.mode self.new.activations }
    {
        self.diagnose_all(passed.records.as_slice());
        if let Some(cause) = passed.stop {
            self.halt(program, cause);
        }
    }

    /// An arrival requests its organization block.
    #[tactic(auto, unfolding(crate::specs::Requests::arrival_served))]
    pub(crate) fn arrive(&mut self, program: &Loaded, ob: u16, value: u32)
        requires known { IsTrue (is_time_of_day ob || is_hardware ob) }
        requires ready { IsReady (code_of program.now.program) self.old.activations }
        requires stack { IsActivationStack self.old.mode self.old.activations }
        ensures state { cpu_state self.new
            ≡ arrival_served (code_of program.now.program) ob value (cpu_state self.old) }
        ensures stack { IsActivationStack self.new.mode self.new.activations }
    {
        if is_stop(self.mode) {
            return;
        }
        let event = StartEvent::Arrival { ob, value };
        let info = StartInfo::new(event, class_in(self.mode, ob));
        let mut passed = TickResult::new();
        self.sched.request(self.mode, ob, info, &mut passed);
        self.take(program, &passed);
    }

    /// Milliseconds pass.
    #[tactic(auto, unfolding(crate::specs::Ticking::time_passed), using(crate::proofs::StackLemmas::at_most_48))]
    pub(crate) fn pass(&mut self, program: &Loaded, ms: u32)
        requires ready { IsReady (code_of program.now.program) self.old.activations }
        requires stack { IsActivationStack self.old.mode self.old.activations }
        ensures state { cpu_state self.new
            ≡ time_passed (code_of program.now.program) ms (cpu_state self.old) }
        ensures stack { IsActivationStack self.new.mode self.new.activations }
    {
        let active = self.activations.active();
        let passed = self.sched.pass_ms(ms, self.mode, active.as_slice());
        self.timers.pass_ms(passed.ms);
        self.take(program, &passed);
    }
}
