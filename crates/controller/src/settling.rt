//! Organization blocks that begin: by a request, at a cycle point.
ghost use Rattle.std.specs.Prelude.{◌≡◌, [], false};
ghost use Rattle.machine.specs.Flat.{code_of};
ghost use Rattle.ob_sched.specs.StartRequest.{IsBest};
ghost use Rattle.ob_sched.specs.Views.{scheduler_of};
ghost use Rattle.controller.specs.Beginning.{ob_activation, with_ob_begun};
ghost use Rattle.controller.specs.CyclePoint.{cycle_point};
ghost use Rattle.controller.specs.Settling.{request_started, after_settling};
ghost use Rattle.controller.specs.Stack.{IsActivationStack, MayBegin};
ghost use Rattle.controller.specs.State.{is_stop as is_stop_of};
ghost use Rattle.controller.specs.Views.{cpu_state};

use crate::cpus::Cpu;
use crate::stopping::is_stop;
use image_file::Loaded;
use ob_sched::{Pending, StartEvent, StartInfo, class_in};

/// The program cycle.
const CYCLE_OB: u16 = 1;

impl Cpu {
    /// An organization block begins above those that stand, if it is loaded.
    #[tactic(auto, using(crate::proofs::StandingLemmas::room_to_begin, crate::proofs::StandingLemmas::begun_stands))]
    fn begin_ob(&mut self, program: &Loaded, class: u8, ob: u16, info: StartInfo)
        requires stack { IsActivationStack self.old.mode self.old.activations }
        requires above { MayBegin self.old.mode class ob self.old.activations }
        ensures state { cpu_state self.new
            ≡ with_ob_begun
            (ob_activation self.old.profile (code_of program.now.program) class ob info)
            (cpu_state self.old) }
        ensures stack { IsActivationStack self.new.mode self.new.activations }
    {
        self.activations
            .begin(program, self.profile, class, ob, &info);
    }

    // A request leaves those that are pending, and its organization block begins.
    fn start_request(&mut self, program: &Loaded, best: Pending)
        requires best { IsBest best (scheduler_of self.old.sched).pending }
        requires stack { IsActivationStack self.old.mode self.old.activations }
        requires above { MayBegin self.old.mode best.class best.ob self.old.activations }
        ensures state { cpu_state self.new
            ≡ request_started (code_of program.now.program) best (cpu_state self.old) }
        ensures stack { IsActivationStack self.new.mode self.new.activations }
    {
        self.sched.start(best);
        self.begin_ob(program, best.class, best.ob, best.info);
    }

    /// Starts the best pending request, if it may start.
    #[tactic(auto, unfolding(crate::specs::Settling::after_settling), using(crate::proofs::StandingLemmas::best_may_begin))]
    pub(crate) fn settle(&mut self, program: &Loaded)
        requires { IsActivationStack self.old.mode self.old.activations }
        ensures state { cpu_state self.new
            ≡ after_settling (code_of program.now.program) (cpu_state self.old) }
        ensures stack { IsActivationStack self.new.mode self.new.activations }
    {
        if is_stop(self.mode) {
            return;
        }
        let Some(best) = self.sched.best(self.mode) else {
            return;
        };
        if self.activations.may_start(best.class) {
            self.start_request(program, best);
        }
    }

    /// A cycle point: updates the process images, and starts OB 1.
    #[tactic(auto, unfolding(crate::specs::CyclePoint::cycle_point), using(crate::proofs::StandingLemmas::cycle_may_begin))]
    pub(crate) fn reach_cycle_point(&mut self, program: &Loaded)
        requires idle { self.old.activations ≡ [] }
        requires running { is_stop_of self.old.mode ≡ false }
        requires stack { IsActivationStack self.old.mode self.old.activations }
        ensures state { cpu_state self.new
            ≡ cycle_point (code_of program.now.program) (cpu_state self.old) }
        ensures stack { IsActivationStack self.new.mode self.new.activations }
    {
        let class = class_in(self.mode, CYCLE_OB);
        let info = StartInfo::new(
            StartEvent::Cycle {
                first: self.first_cycle,
            },
            class,
        );
        self.memory.refresh();
        self.sched.cycle_point();
        self.first_cycle = false;
        self.begin_ob(program, class, CYCLE_OB, info);
    }
}
