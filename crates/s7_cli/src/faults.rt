ghost use Rattle.std.specs.Prelude.{◌≡◌};
ghost use Rattle.s7_cli.specs.Compiling.{fault_in_source, fault_in_symbols};

use plc_base::{Refusal, SourceFault};
use std::alloc::AllocError;

/// Why a source isn't compiled: what its symbols file or it breaks, or want of memory.
#[derive(Clone, Copy, Debug, PartialEq, Eq)]
pub enum CompileFault {
    /// The symbols file breaks a rule.
    Symbols { refusal: Refusal },
    /// The source breaks a rule.
    Source { refusal: Refusal },
    /// Memory ran out.
    NoMemory,
}

impl From<AllocError> for CompileFault {
    ghost use Rattle.std.specs.Prelude.{◌≡◌};
    ghost use Rattle.s7_cli.specs.declared.faults.CompileFault.TheVariants.{NoMemory};

    ghost from_gives = { λ _ e. e ≡ NoMemory };

    fn from(_e: AllocError) -> CompileFault {
        CompileFault::NoMemory
    }
}

/// The fault of compiling by a fault of the symbols file: what it breaks, or want of memory.
pub(crate) fn fault_in_symbols(fault: SourceFault) -> CompileFault
    ensures { result ≡ fault_in_symbols fault }
{
    match fault {
        SourceFault::Refused { refusal } => CompileFault::Symbols { refusal },
        SourceFault::NoMemory => CompileFault::NoMemory,
    }
}

/// The fault of compiling by a fault of the source: what it breaks, or want of memory.
pub(crate) fn fault_in_source(fault: SourceFault) -> CompileFault
    ensures { result ≡ fault_in_source fault }
{
    match fault {
        SourceFault::Refused { refusal } => CompileFault::Source { refusal },
        SourceFault::NoMemory => CompileFault::NoMemory,
    }
}
