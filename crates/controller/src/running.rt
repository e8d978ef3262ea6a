//! Entries: what each does, and settling after it.
ghost use Rattle.std.specs.Prelude.{◌≡◌, ◌+◌, ◌<◌, ◌^◌, None, if◌then◌else◌};
ghost use Rattle.machine.specs.Flat.{code_of};
ghost use Rattle.var_access.specs.Entry.{IsInRange};
ghost use Rattle.controller.specs.Event.{entry_effect, input_set};
ghost use Rattle.controller.specs.Monitoring.{monitoring_record, step_record};
ghost use Rattle.controller.specs.Ready.{IsReady};
ghost use Rattle.controller.specs.Replay.{entry_result};
ghost use Rattle.controller.specs.Stack.{IsActivationStack};
ghost use Rattle.controller.specs.State.{is_stop as is_stop_of};
ghost use Rattle.controller.specs.Stepping.{after_step};
ghost use Rattle.controller.specs.Views.{cpu_state};

use crate::cpus::Cpu;
use crate::stopping::is_stop;
use image_file::Loaded;
use monitor::MonRecord;
use var_access::What;

impl Cpu {
    // Another byte of the peripheral inputs.
    fn set_input(&mut self, byte: u16, value: u8)
        ensures state { cpu_state self.new ≡ record (cpu_state self.old) {
          store = input_set byte value (cpu_state self.old).store;
        } }
        ensures activations { self.new.activations ≡ self.old.activations }
        ensures mode { self.new.mode ≡ self.old.mode }
    {
        let _ = self.memory.set_input(byte, value);
    }

    // A step; in STOP it does nothing. The answer is the record of its statement.
    fn step_unless_stopped(&mut self, program: &Loaded) -> Option<MonRecord>
        requires ready { IsReady (code_of program.now.program) self.old.activations }
        requires stack { IsActivationStack self.old.mode self.old.activations }
        ensures state { cpu_state self.new
            ≡ (if is_stop_of self.old.mode then cpu_state self.old
            else after_step (code_of program.now.program) (cpu_state self.old)) }
        ensures record { result ≡ (if is_stop_of self.old.mode then None
            else step_record (code_of program.now.program) (cpu_state self.old)
            self.old.activations) }
        ensures stack { IsActivationStack self.new.mode self.new.activations }
    {
        if is_stop(self.mode) {
            return None;
        }
        self.step(program)
    }

    // What an entry does before settling. The answer is what is recorded of it.
    #[tactic(auto, unfolding(crate::specs::Monitoring::monitoring_record))]
    fn act(&mut self, program: &Loaded, what: &What) -> Option<MonRecord>
        requires range { IsInRange what.now }
        requires ready { IsReady (code_of program.now.program) self.old.activations }
        requires stack { IsActivationStack self.old.mode self.old.activations }
        ensures state { cpu_state self.new
            ≡ entry_effect (code_of program.now.program) what.now (cpu_state self.old) }
        ensures record { result
            ≡ monitoring_record (code_of program.now.program) (cpu_state self.old) what.now }
        ensures stack { IsActivationStack self.new.mode self.new.activations }
    {
        match what {
            What::Step => return self.step_unless_stopped(program),
            What::Input { byte, value } => self.set_input(*byte, *value),
            What::Arrive { ob, value } => self.arrive(program, *ob, *value),
            What::Tick { ms } => self.pass(program, *ms),
            What::Ask { request } => self.ask(program, request),
        }
        None
    }

    /// One entry of the history, over a program in which the running activation can go on, and settling
    /// after it. The answer is what is recorded of it. Takes no memory.
    #[tactic(auto, unfolding(crate::specs::Event::state_after, crate::specs::Monitoring::monitoring_record, crate::specs::Replay::entry_result, crate::specs::ShownEntry::entry_shown))]
    pub fn enter(&mut self, program: &Loaded, what: &What) -> Option<MonRecord>
        requires range { IsInRange what.now }
        requires few { self.old.entries + 1 < 2 ^ 64 }
        requires ready { IsReady (code_of program.now.program) self.old.activations }
        requires stack { IsActivationStack self.old.mode self.old.activations }
        ensures state { cpu_state self.new
            ≡ (entry_result (code_of program.now.program) (cpu_state self.old) what.now).state }
        ensures record { result
            ≡ (entry_result (code_of program.now.program) (cpu_state self.old)
            what.now).seen.mon }
        ensures stack { IsActivationStack self.new.mode self.new.activations }
    {
        self.entries += 1;
        let record = self.act(program, what);
        self.settle(program);
        record
    }
}
