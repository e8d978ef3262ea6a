//! STOP, and records of diagnostics.
ghost use Rattle.std.specs.Prelude.{◌≡◌};
ghost use Rattle.machine.specs.Flat.{code_of};
ghost use Rattle.controller.specs.Ready.{IsReady};
ghost use Rattle.controller.specs.State.{is_stop as is_stop_of, diagnosis_recorded, diagnoses_recorded};
ghost use Rattle.controller.specs.Stopping.{stop_entered, stop_entered_at};
ghost use Rattle.controller.specs.Views.{cpu_state};

use crate::cpus::Cpu;
use image_file::Loaded;
use monitor::DiagRecord;
use plc_base::{Mode, Spot};

/// Record of diagnostics: STOP, with its cause.
const STOP_RECORD: u16 = 5;

/// Whether the mode is STOP.
pub(crate) fn is_stop(mode: Mode) -> bool
    ensures { result ≡ is_stop_of mode }
{
    matches!(mode, Mode::Stop { .. })
}

impl Cpu {
    /// A record of diagnostics, made by the entry that is the last so far.
    pub(crate) fn diagnose(&mut self, code: u16, info: u16)
        ensures { cpu_state self.new ≡ diagnosis_recorded code info (cpu_state self.old) }
    {
        self.diagnostics.push(DiagRecord {
            entry: self.entries,
            code,
            info,
        });
    }

    /// Records one after another.
    pub(crate) fn diagnose_all(&mut self, records: &[(u16, u16)])
        ensures { cpu_state self.new ≡ diagnoses_recorded records.now (cpu_state self.old) }
    {
        let mut left = records;
        while let [(code, info), rest @ ..] = left {
            self.diagnose(*code, *info);
            left = rest;
        }
    }

    /// STOP with a cause and a spot.
    pub(crate) fn halt_at(&mut self, at: Option<Spot>, cause: u8)
        ensures { cpu_state self.new ≡ stop_entered_at at cause (cpu_state self.old) }
    {
        self.diagnose(STOP_RECORD, u16::from(cause));
        self.memory.clear_outputs();
        self.mode = Mode::Stop { cause, at };
        self.activations.clear();
        self.sched.stop();
    }

    /// STOP at the statement at which the running activation stands.
    #[tactic(auto, unfolding(crate::specs::Stopping::stop_entered))]
    pub(crate) fn halt(&mut self, program: &Loaded, cause: u8)
        requires { IsReady (code_of program.now.program) self.old.activations }
        ensures { cpu_state self.new
            ≡ stop_entered (code_of program.now.program) cause (cpu_state self.old) }
    {
        let at = self.activations.spot(program);
        self.halt_at(at, cause);
    }
}
