//! Synchronous errors.
ghost use Rattle.std.specs.Prelude.{◌≡◌};
ghost use Rattle.machine.specs.Flat.{code_of};
ghost use Rattle.ob_sched.specs.StartInformation.{IsEvent, event_ob, ob_of_error};
ghost use Rattle.controller.specs.Ready.{HasStatement};
ghost use Rattle.controller.specs.Errors.{is_synchronous as is_error_ob, cause_without as cause_of_missing, error_event as failure_of};
ghost use Rattle.controller.specs.Leaves.{error_handled};
ghost use Rattle.controller.specs.Stack.{IsActivationStack};
ghost use Rattle.controller.specs.Views.{cpu_state};

use crate::activations::At;
use crate::cpus::Cpu;
use crate::spots::statement_start_at;
use image_file::Loaded;
use ob_sched::StartEvent;
use plc_base::{Spot, stop_causes};

/// Record of diagnostics: a synchronous error, with its code.
const SYNCHRONOUS_ERROR: u16 = 4;

fn is_synchronous(ob: u16) -> bool
    ensures { result ≡ is_error_ob ob }
{
    ob == 121 || ob == 122
}

fn cause_without(ob: u16) -> u8
    ensures { result ≡ cause_of_missing ob }
{
    if ob == 122 {
        stop_causes::NO_OB_122
    } else {
        stop_causes::NO_OB_121
    }
}

/// The start event of a synchronous error.
pub(crate) fn failure(code: u8, at: Option<Spot>) -> StartEvent
    ensures value { result ≡ failure_of code at }
    ensures ob { event_ob result ≡ ob_of_error code }
    ensures event { IsEvent result }
{
    match at {
        None => StartEvent::Synchronous {
            code,
            kind: 0,
            number: 0,
            line: 0,
        },
        Some(at) => StartEvent::Synchronous {
            code,
            kind: at.block.kind.number(),
            number: at.block.number,
            line: at.line,
        },
    }
}

impl Cpu {
    /// A synchronous error of the statement that stood at `position`: its organization block begins, or
    /// the controller stops.
    #[tactic(auto, unfolding(crate::specs::Errors::error_raised), using(crate::proofs::StandingLemmas::room_for_error, crate::proofs::StandingLemmas::error_stands))]
    pub(crate) fn fail(&mut self, program: &Loaded, position: &At, code: u8)
        requires there { HasStatement (code_of program.now.program)
            position.now.block position.now.at }
        requires stack { IsActivationStack self.old.mode self.old.activations }
        ensures state { cpu_state self.new
            ≡ error_handled (code_of program.now.program) code position.now self.old.activations
            (cpu_state self.old) }
        ensures stack { IsActivationStack self.new.mode self.new.activations }
    {
        let Some(running) = self.activations.running() else {
            return;
        };
        let is_inside = is_synchronous(running.ob);
        let at = statement_start_at(program, position.block, position.at);
        self.diagnose(SYNCHRONOUS_ERROR, u16::from(code));
        if is_inside {
            self.halt_at(at, stop_causes::IN_ERROR_OB);
        } else if !self.activations.begin_error(program, code, at) {
            self.halt_at(at, cause_without(failure(code, at).ob()));
        }
    }
}
