use crate::faults::{LoadFault, VerifyFault};
use std::alloc::AllocError;

/// Why bytes aren't loaded.
#[derive(Clone, Copy, Debug, PartialEq, Eq)]
pub enum LoadError {
    /// The bytes aren't the image of a program that verifies; the fault is the least by offset,
    /// then code.
    Fault { fault: LoadFault },
    /// Memory was wanting.
    NoMemory,
}

impl From<AllocError> for LoadError {
    ghost use Rattle.std.specs.Prelude.{◌≡◌};
    ghost use Rattle.image_file.specs.declared.refusing.LoadError.TheVariants.{NoMemory};

    ghost from_gives = { λ _ e. e ≡ NoMemory };

    fn from(_e: AllocError) -> LoadError {
        LoadError::NoMemory
    }
}

/// Why a program isn't taken for one that verifies.
#[derive(Clone, Copy, Debug, PartialEq, Eq)]
pub enum VerifyError {
    /// The program has a fault: the least by offset, then code, of the first block that has one.
    Fault { fault: VerifyFault },
    /// Memory was wanting.
    NoMemory,
}

impl From<AllocError> for VerifyError {
    ghost use Rattle.std.specs.Prelude.{◌≡◌};
    ghost use Rattle.image_file.specs.declared.refusing.VerifyError.TheVariants.{NoMemory};

    ghost from_gives = { λ _ e. e ≡ NoMemory };

    fn from(_e: AllocError) -> VerifyError {
        VerifyError::NoMemory
    }
}
