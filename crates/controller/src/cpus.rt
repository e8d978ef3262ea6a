//! The parts of the CPU.
ghost use Rattle.std.specs.Prelude.{◌≡◌};
ghost use Rattle.std.specs.Option.{option_copied};
ghost use Rattle.std.specs.FinMap as finmap;
ghost use Rattle.controller.specs.Views.{cpu_state};

use crate::activations::Activations;
use monitor::DiagRing;
use ob_sched::Sched;
use plc_base::{BlockId, Mode, Profile};
use plc_mem::Memory;
use timers_counters::{Counters, Timers};

/// The CPU between two entries of its history. A contract sees its state (`cpu_state`).
#[derive(Drop)]
pub struct Cpu {
    /// The sizes of memory, timers, counters and activations.
    pub(crate) profile: Profile,
    pub(crate) memory: Memory,
    pub(crate) timers: Timers,
    pub(crate) counters: Counters,
    pub(crate) mode: Mode,
    pub(crate) activations: Activations,
    pub(crate) sched: Sched,
    pub(crate) first_cycle: bool,
    pub(crate) monitored: Option<BlockId>,
    pub(crate) diagnostics: DiagRing,
    pub(crate) entries: u64,
}

impl Cpu {
    /// The operating mode.
    pub fn mode(&self) -> Mode
        ensures { result ≡ (cpu_state self.now).mode }
    {
        self.mode
    }

    /// The bytes of a data block, if it is loaded.
    pub fn db_bytes(&self, number: u16) -> Option<&[u8]>
        ensures { option_copied result
            ≡ finmap.get (cpu_state self.now).store.memory.data_blocks number }
    {
        self.memory.data_block(number)
    }
}
