//! Requests of operators: what each does, and what it is answered.
ghost use Rattle.std.specs.Prelude.{◌≡◌, ◌≤◌, ◌<◌, ◌^◌, length, is_some, Some, Ok, Err, MatchResult, if◌then◌else◌};
ghost use Rattle.plc_base.specs.StopCauses.{by_operator};
ghost use Rattle.plc_base.specs.Widths.{bit_count};
ghost use Rattle.machine.specs.Flat.{code_of};
ghost use Rattle.var_access.specs.Entry.{IsRequest};
ghost use Rattle.controller.specs.Asking.{request_reply, request_effect, done_or_no_such as answer_if, values_from as values_of, var_written};
ghost use Rattle.controller.specs.Ready.{IsReady};
ghost use Rattle.controller.specs.Stack.{IsActivationStack};
ghost use Rattle.controller.specs.Start.{state_after_warm_restart};
ghost use Rattle.controller.specs.State.{is_stop as is_stop_of};
ghost use Rattle.controller.specs.Stopping.{stop_entered};
ghost use Rattle.controller.specs.Views.{cpu_state};

use crate::beginning::is_loaded;
use crate::cpus::Cpu;
use crate::stopping::is_stop;
use image_file::Loaded;
use plc_base::{BlockId, Mode, stop_causes};
use plc_mem::Memory;
use var_access::{Numbers, Reply, Request, Var};

// The values of variables, or the index, from 1, of the first one that doesn't exist.
#[tactic(auto, using(crate::proofs::AskingLemmas::one_more_value, crate::proofs::AskingLemmas::no_value_yet, crate::proofs::AskingLemmas::one_absent, crate::proofs::AskingLemmas::all_values))]
fn values_from(memory: &Memory, vars: &[Var]) -> Result<Numbers, u8>
    requires { length vars.now ≤ 8 }
    ensures { MatchResult result
        (λ values. values_of memory.now 1 vars.now ≡ Ok values)
        (λ index. values_of memory.now 1 vars.now ≡ Err index) }
{
    let mut values = Numbers::new();
    let mut index = 1;
    let mut left = vars;
    while let [var, rest @ ..] = left {
        let Ok(value) = memory.read(var.place, var.width) else {
            return Err(index);
        };
        values.push(value);
        index += 1;
        left = rest;
    }
    Ok(values)
}

fn done_if(is_there: bool) -> Reply
    ensures { result ≡ answer_if is_there }
{
    if is_there {
        Reply::Done
    } else {
        Reply::NoSuch { index: 1 }
    }
}

impl Cpu {
    // A variable takes a value, if it exists.
    fn write_var(&mut self, var: &Var, value: u32)
        requires { value < 2 ^ bit_count var.now.width }
        ensures state { cpu_state self.new ≡ record (cpu_state self.old) {
          store = var_written var.now value (cpu_state self.old).store;
        } }
        ensures activations { self.new.activations ≡ self.old.activations }
        ensures mode { self.new.mode ≡ self.old.mode }
    {
        let _ = self.memory.write(var.place, var.width, value);
    }

    // A stop by the operator; in STOP it changes nothing.
    fn stop_by_operator(&mut self, program: &Loaded)
        requires ready { IsReady (code_of program.now.program) self.old.activations }
        requires stack { IsActivationStack self.old.mode self.old.activations }
        ensures state { cpu_state self.new
            ≡ (if is_stop_of self.old.mode then cpu_state self.old
            else stop_entered (code_of program.now.program) by_operator (cpu_state self.old)) }
        ensures stack { IsActivationStack self.new.mode self.new.activations }
    {
        if !is_stop(self.mode) {
            self.halt(program, stop_causes::BY_OPERATOR);
        }
    }

    // A warm restart; outside STOP there is none.
    fn restart_if_stopped(&mut self, program: &Loaded)
        requires stack { IsActivationStack self.old.mode self.old.activations }
        ensures state { cpu_state self.new
            ≡ (if is_stop_of self.old.mode
            then state_after_warm_restart (code_of program.now.program) (cpu_state self.old)
            else cpu_state self.old) }
        ensures stack { IsActivationStack self.new.mode self.new.activations }
    {
        if is_stop(self.mode) {
            self.restart(program);
        }
    }

    // A block is monitored, if it is loaded, and no other one.
    fn monitor(&mut self, program: &Loaded, block: BlockId)
        ensures state { cpu_state self.new
            ≡ (if is_some ((code_of program.now.program).head block)
            then record (cpu_state self.old) { monitored = Some block } else cpu_state self.old) }
        ensures activations { self.new.activations ≡ self.old.activations }
        ensures mode { self.new.mode ≡ self.old.mode }
    {
        if is_loaded(program, block) {
            self.monitored = Some(block);
        }
    }

    /// What a request does.
    #[tactic(auto, unfolding(crate::specs::Asking::request_effect))]
    pub(crate) fn ask(&mut self, program: &Loaded, request: &Request)
        requires range { IsRequest request.now }
        requires ready { IsReady (code_of program.now.program) self.old.activations }
        requires stack { IsActivationStack self.old.mode self.old.activations }
        ensures state { cpu_state self.new
            ≡ request_effect (code_of program.now.program) request.now (cpu_state self.old) }
        ensures stack { IsActivationStack self.new.mode self.new.activations }
    {
        match request {
            Request::WriteVar { var, value } => self.write_var(var, *value),
            Request::Stop => self.stop_by_operator(program),
            Request::Restart => self.restart_if_stopped(program),
            Request::MonitorOn { block } => self.monitor(program, *block),
            Request::MonitorOff => self.monitored = None,
            Request::ReadVars { .. } | Request::Diag => {}
        }
    }

    /// What a request is answered in this state. Takes no memory.
    #[tactic(auto, unfolding(crate::specs::Asking::request_reply))]
    pub fn answer(&self, program: &Loaded, request: &Request) -> Reply
        requires { IsRequest request.now }
        ensures { result
            ≡ request_reply (code_of program.now.program) request.now (cpu_state self.now) }
    {
        match request {
            Request::ReadVars { vars } => match values_from(&self.memory, vars.as_slice()) {
                Ok(values) => Reply::Values { values },
                Err(index) => Reply::NoSuch { index },
            },
            Request::WriteVar { var, .. } => {
                done_if(self.memory.read(var.place, var.width).is_ok())
            }
            Request::MonitorOn { block } => done_if(is_loaded(program, *block)),
            Request::Restart => match self.mode {
                Mode::Stop { .. } => Reply::Done,
                Mode::Run | Mode::Startup => Reply::NotStopped,
            },
            Request::Diag => Reply::Diag {
                list: self.diagnostics.list(),
            },
            Request::Stop | Request::MonitorOff => Reply::Done,
        }
    }
}
