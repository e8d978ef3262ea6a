ghost use Rattle.std.specs.Prelude.{◌≡◌};
ghost use Rattle.plc_base.specs.declared.refusals.SourceFault.TheVariants.{NoMemory};

use std::alloc::{AllocError, AllocFailed};

/// Why a source or a symbols file is refused: the line, counted from 1, and the number of the rule
/// that it breaks.
#[derive(Clone, Copy, Debug, PartialEq, Eq)]
pub struct Refusal {
    pub line: u32,
    pub rule: u16,
}

/// A refusal, or want of memory.
#[derive(Clone, Copy, Debug, PartialEq, Eq)]
pub enum SourceFault {
    Refused { refusal: Refusal },
    NoMemory,
}

impl From<AllocError> for SourceFault {
    ghost from_gives = { λ _ fault. fault ≡ NoMemory };

    fn from(_error: AllocError) -> SourceFault {
        SourceFault::NoMemory
    }
}

impl<T: Drop> From<AllocFailed<T>> for SourceFault {
    ghost from_gives = { λ _ fault. fault ≡ NoMemory };

    fn from(_error: AllocFailed<T>) -> SourceFault {
        SourceFault::NoMemory
    }
}
