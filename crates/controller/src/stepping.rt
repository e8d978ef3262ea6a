//! A step: one statement of the running activation, or a cycle point.
ghost use Rattle.std.specs.Prelude.{◌≡◌, false};
ghost use Rattle.machine.specs.Flat.{code_of};
ghost use Rattle.ob_sched.specs.Views.{scheduler_of};
ghost use Rattle.controller.specs.Leaves.{call_finished, statement_finished, mode_after, regs_called, regs_finished};
ghost use Rattle.controller.specs.Monitoring.{step_record};
ghost use Rattle.controller.specs.Ready.{HasStatement, IsReady};
ghost use Rattle.controller.specs.Stack.{IsActivationStack};
ghost use Rattle.controller.specs.State.{is_stop};
ghost use Rattle.controller.specs.Stepping.{ob_ended, run_starts, after_step};
ghost use Rattle.controller.specs.Views.{cpu_state};

use crate::activations::At;
use crate::cpus::Cpu;
use crate::monitoring::statement_record;
use crate::spots::statement_start_at;
use crate::starting::STARTUP_OB;
use frames::Binding;
use image_file::Loaded;
use machine::{Inputs, Outcome};
use monitor::MonRecord;
use plc_base::Mode;
use status_word::Regs;

impl Cpu {
    /// RUN begins.
    pub(crate) fn start_run(&mut self)
        ensures { cpu_state self.new ≡ run_starts (cpu_state self.old) }
    {
        self.mode = Mode::Run;
        self.sched.begin_run();
    }

    // An organization block has ended; the end of OB 100 is that of STARTUP.
    fn end_ob(&mut self, ob: u16)
        ensures { cpu_state self.new ≡ ob_ended ob (cpu_state self.old) }
    {
        if ob == STARTUP_OB {
            self.start_run();
        }
    }

    // A call of a system function, which stood at `position`; the answer is the registers after it.
    #[tactic(auto, using(crate::proofs::CallLemmas::call_goes, crate::proofs::CallLemmas::call_halts, crate::proofs::CallLemmas::call_stands, crate::proofs::CallLemmas::call_regs))]
    fn call_system(
        &mut self,
        program: &Loaded,
        position: &At,
        number: u16,
        inputs: &Inputs,
        to: Option<Binding>,
    ) -> Regs
        requires there { HasStatement (code_of program.now.program)
            position.now.block position.now.at }
        requires stack { IsActivationStack self.old.mode self.old.activations }
        ensures state { cpu_state self.new
            ≡ call_finished (code_of program.now.program) number inputs.now to position.now
            self.old.activations (cpu_state self.old) }
        ensures regs { result ≡ regs_called number inputs.now (scheduler_of self.old.sched)
            self.old.activations position.now.regs }
        ensures stack { IsActivationStack self.new.mode self.new.activations }
    {
        let stop = self
            .activations
            .serve(number, inputs, to, &mut self.memory, &mut self.sched);
        let regs = self.activations.regs().unwrap_or(position.regs);
        if let Some(cause) = stop {
            self.halt_at(
                statement_start_at(program, position.block, position.at),
                cause,
            );
        }
        regs
    }

    // What is left to do after a statement, which stood at `position`; the answer is the registers after
    // all of it.
    #[tactic(auto, unfolding(crate::specs::Leaves::statement_finished))]
    fn finish(&mut self, program: &Loaded, position: &At, outcome: Outcome) -> Regs
        requires there { HasStatement (code_of program.now.program)
            position.now.block position.now.at }
        requires stack { IsActivationStack (mode_after self.old.mode position.now.ob outcome)
            self.old.activations }
        ensures state { cpu_state self.new
            ≡ statement_finished (code_of program.now.program) position.now outcome
            (cpu_state self.old) }
        ensures regs { result ≡ regs_finished outcome (scheduler_of self.old.sched)
            self.old.activations position.now.regs }
        ensures stack { IsActivationStack self.new.mode self.new.activations }
    {
        match outcome {
            Outcome::Went => {}
            Outcome::Ended => self.end_ob(position.ob),
            Outcome::SyncError { code } => self.fail(program, position, code),
            Outcome::SysCall {
                number,
                inputs,
                result,
            } => return self.call_system(program, position, number, &inputs, result),
            Outcome::Stop { cause } => self.halt_at(
                statement_start_at(program, position.block, position.at),
                cause,
            ),
        }
        position.regs
    }

    /// A step outside STOP; the answer is the record of its statement, if its block is monitored.
    #[tactic(auto, unfolding(crate::specs::Stepping::after_step), using(crate::proofs::StepLemmas::running_step_finished, crate::proofs::StepLemmas::idle_step_finished, crate::proofs::StepLemmas::idle, crate::proofs::StepLemmas::step_there, crate::proofs::StepLemmas::step_stands, crate::proofs::MonitoringLemmas::step_recorded, crate::proofs::MonitoringLemmas::idle_recorded))]
    pub(crate) fn step(&mut self, program: &Loaded) -> Option<MonRecord>
        requires ready { IsReady (code_of program.now.program) self.old.activations }
        requires running { is_stop self.old.mode ≡ false }
        requires stack { IsActivationStack self.old.mode self.old.activations }
        ensures state { cpu_state self.new
            ≡ after_step (code_of program.now.program) (cpu_state self.old) }
        ensures record { result ≡ step_record (code_of program.now.program) (cpu_state self.old)
            self.old.activations }
        ensures stack { IsActivationStack self.new.mode self.new.activations }
    {
        let done = self.activations.step(
            program,
            &mut self.memory,
            &mut self.timers,
            &mut self.counters,
        );
        match done {
            None => {
                self.reach_cycle_point(program);
                None
            }
            Some(done) => {
                let (monitored, position) = (self.monitored, done.0);
                let regs = self.finish(program, &position, done.1);
                statement_record(program, monitored, &position, &regs)
            }
        }
    }
}
