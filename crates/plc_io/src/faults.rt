ghost use Rattle.std.specs.Prelude.{◌≡◌};
ghost use Rattle.plc_io.specs.declared.faults.IoFault.TheVariants.{NoMemory};

use std::alloc::AllocError;

/// Why a call on a file or a sink gave no answer.
#[derive(Clone, Copy, Debug, PartialEq, Eq)]
pub enum IoFault {
    /// The read or write failed, which its count of faults shows.
    Failed,
    /// Memory ran out.
    NoMemory,
}

impl From<AllocError> for IoFault {
    ghost from_gives = { λ _ fault. fault ≡ NoMemory };

    fn from(_error: AllocError) -> IoFault {
        IoFault::NoMemory
    }
}

/// Want of memory, where a call has no other error.
pub type NoMemory = AllocError;
