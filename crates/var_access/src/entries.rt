ghost use Rattle.std.specs.Prelude.{◌≡◌, ◌↔◌, IsTrue};
ghost use Rattle.var_access.specs.Entry.{is_arrivable, IsInRange, IsValid};
ghost use Rattle.var_access.specs.Runs.{is_step};

use crate::requests::Request;
use plc_base::is_peripheral_byte;

/// What one entry of a history does.
#[derive(Clone, Copy, Debug, PartialEq, Eq)]
pub enum What {
    /// One statement of the running organization block, or one cycle point where none runs.
    Step,
    /// A peripheral input byte takes a value.
    Input { byte: u16, value: u8 },
    /// An interrupt arrives that requests an organization block, with a value for its start
    /// information.
    Arrive { ob: u16, value: u32 },
    /// Milliseconds pass.
    Tick { ms: u32 },
    /// An operator asks.
    Ask { request: Request },
}

/// One entry of a history: the worker that makes it, from 1, and what happens. Worker 1 steps,
/// worker 2 feeds inputs, arrivals and ticks, workers 3 to 6 are the operators 1 to 4.
#[derive(Clone, Copy, Debug, PartialEq, Eq)]
pub struct Entry {
    pub who: u8,
    pub what: What,
}

// A history holds many of them.
const _: () = prove!(size_of::<Entry>() == 76);

/// Whether an arrival may request this organization block.
pub fn is_arrivable(ob: u16) -> bool
    ensures { result ≡ is_arrivable ob }
{
    (10..18).contains(&ob) || (40..48).contains(&ob)
}

impl What {
    /// Whether its numbers are in their ranges: an input byte that exists, an organization block that
    /// an interrupt may request, 1 to 60,000 milliseconds, a valid request.
    fn has_valid_numbers(&self) -> bool
        ensures { IsTrue result ↔ IsInRange self.now }
    {
        match self {
            What::Step => true,
            What::Input { byte, .. } => is_peripheral_byte(*byte),
            What::Arrive { ob, .. } => is_arrivable(*ob),
            What::Tick { ms } => (1..=60_000).contains(ms),
            What::Ask { request } => request.is_valid(),
        }
    }
}

impl Entry {
    /// Whether the entry's numbers are in their ranges, and its worker is one from 1 on.
    pub fn is_valid(&self) -> bool
        ensures { IsTrue result ↔ IsValid self.now }
    {
        self.who >= 1 && self.what.has_valid_numbers()
    }

    /// Whether it is a step, whoever makes it.
    pub fn is_step(&self) -> bool
        ensures { result ≡ is_step self.now }
    {
        matches!(self.what, What::Step)
    }
}
