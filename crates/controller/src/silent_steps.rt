//! Steps one after another that show nothing.
ghost use Rattle.std.specs.Prelude.{◌≡◌, ◌+◌, ◌<◌, ◌≤◌, ◌^◌, false, replicate};
ghost use Rattle.machine.specs.Flat.{code_of};
ghost use Rattle.var_access.specs.declared.entries.What.TheVariants.{Step};
ghost use Rattle.controller.specs.Fitting.{IsFit};
ghost use Rattle.controller.specs.SilentSteps.{ShowNothing, steps_silently};
ghost use Rattle.controller.specs.Replay.{state_after_entries};
ghost use Rattle.controller.specs.Views.{cpu_state};

use crate::cpus::Cpu;
use crate::stopping::is_stop;
use image_file::Loaded;

impl Cpu {
    /// Executes steps one after another as long as each shows nothing, `most` at most; the answer
    /// is how many. It stops only before a step that isn't a statement of the silent kind
    /// (`machine::run`) with which the running activation goes on, in STOP, where a block
    /// is monitored, or where a request waits: what it leaves is for `enter`.
    pub fn step_silently(&mut self, program: &Loaded, most: u64) -> u64
        requires fit { IsFit program.now.program (cpu_state self.old) }
        requires few { self.old.entries + most < 2 ^ 64 }
        ensures few { result ≤ most }
        ensures nothing { ShowNothing (code_of program.now.program) (cpu_state self.old)
            (replicate result Step) }
        ensures state { cpu_state self.new
            ≡ state_after_entries (code_of program.now.program) (cpu_state self.old)
            (replicate result Step) }
        ensures outputs { (cpu_state self.new).store.memory.peripheral_outputs
            ≡ (cpu_state self.old).store.memory.peripheral_outputs }
        ensures mode { self.new.mode ≡ self.old.mode }
        ensures stops { result < most
            → steps_silently (code_of program.now.program) (cpu_state self.new) ≡ false }
    {
        if self.monitored.is_some() || is_stop(self.mode) || self.sched.best(self.mode).is_some() {
            return 0;
        }
        program.law_of_verifying();
        machine::laws::what_fits_goes();
        machine::laws::what_fits_lasts();
        let done = self.activations.run_silently(
            program,
            &mut self.memory,
            &mut self.timers,
            &mut self.counters,
            most,
        );
        self.entries += done;
        done
    }
}
